//! What a read or a take returns.
//!
//! DDS 1.4, 2.2.2.5 (read, take, SampleInfo).

ghost use Rattle.std.specs.Prelude.{◌≡◌, ◌+◌, ◌&&◌, Some, if◌then◌else◌, ◌<◌, ◌^◌, List, false, true, map, All, length, IfSome, IfOk, OnOk};
ghost use Rattle.std.specs.List.Sorted.{IsPermutation, IsNonDecreasingBy, IsStableByKey};
ghost use Rattle.std.specs.Ordering.{nat_cmp};
ghost use Rattle.dds_base.specs.declared.happening.Happening.{Happening};
ghost use Rattle.dds_base.specs.declared.sample.SampleState.TheVariants.{Read as HasBeenRead, NotRead};
ghost use Rattle.dds_base.specs.Access.{own_generations};
ghost use Rattle.dds_base.specs.Presence.{present_samples};
ghost use Rattle.std.specs.List.{list_any};
ghost use Rattle.dds_base.specs.Access.{at_most};
ghost use Rattle.dds_instances.specs.Known.{IsKnown};
ghost use Rattle.dds_instances.specs.Table.{Stands};
ghost use Rattle.dds_cache.specs.First.{AreChained, AreFirstOf, AreWithin, IsCountable, IsFull, IsOf, TellsFoundOf};
ghost use Rattle.dds_cache.specs.Kept.{IsKept, is_live, sample_state_in};
ghost use Rattle.dds_cache.specs.Finding.{are_asked_for, asks_for, is_sought, passes, described_by, IsSmall, IsPlaced, AreCandidates, Holds, Finds, TellsFound, sample_in, handle_in};

use crate::content::Content;
use crate::kept::Kept;
use crate::masks::{asks_for_sample, asks_for_states};
use crate::test::Test;
use dds_base::{
    Handle, InstanceState, Masks, Picked, ReaderQos, SamplePosition, SampleState, Selection,
    ViewState,
};
use dds_instances::{Instances, KnownInstance};
use std::alloc::{AllocError, Global};

/// A sample that an access finds: what is known of it before its ranks, and where it is kept.
#[derive(Clone, Copy)]
pub struct Candidate {
    pub sample: SamplePosition,
    pub picked: Picked,
    pub at: usize,
}

/// Whether the masks ask for these states.
fn is_asked(
    masks: Masks,
    sample: SampleState,
    view: ViewState,
    instance: Option<InstanceState>,
) -> bool
    ensures { result ≡ are_asked_for masks sample view instance }
{
    asks_for_sample(masks.samples, sample) && asks_for_states(masks, view, instance)
}

fn sample_state(is_read: bool) -> SampleState
    ensures { result ≡ (if is_read then HasBeenRead else NotRead) }
{
    if is_read {
        SampleState::Read
    } else {
        SampleState::NotRead
    }
}

/// What is known of a kept sample before its ranks, by what is known of its instance.
fn picked(kept: &Kept, known: &KnownInstance) -> Picked
    requires small { IsCountable known.now }
    ensures { result ≡ described_by kept.now known.now }
{
    Picked {
        sample_state: sample_state(kept.is_read),
        view_state: known.view,
        instance_state: known.state,
        disposed_generation_count: kept.disposed_generation_count,
        no_writers_generation_count: kept.no_writers_generation_count,
        instance_generations: known.disposed_generations + known.no_writers_generations,
        source_timestamp: kept.source_timestamp,
        instance_handle: known.handle,
        publication_handle: kept.publication_handle,
        valid_data: kept.valid_data,
    }
}

/// Whether a kept sample is present, meets the masks and passes the test, by what is known of its instance.
fn is_found<T: Test>(
    kept: &Kept,
    qos: &ReaderQos,
    masks: Masks,
    test: &T,
    known: &KnownInstance,
) -> bool
    ensures found { result ≡ (is_live qos.now known.now kept.now
        && (are_asked_for masks (sample_state_in kept.now) known.now.view (Some known.now.state)
        && T.meaning test.now kept.now.sample.key kept.now.value)) }
{
    kept.is_live(qos, known)
        && is_asked(
            masks,
            sample_state(kept.is_read),
            known.view,
            Some(known.state),
        )
        && test.passes(&kept.sample.key, kept.value.as_slice())
}

/// Whether a selection asks for the instance of a handle.
pub fn asks_for_handle(selection: &Selection, handle: Handle) -> bool
    ensures { result ≡ asks_for selection.now handle }
{
    match *selection {
        Selection::Any { .. } | Selection::NextSample => true,
        Selection::Instance { handle: asked, .. } => handle == asked,
        Selection::NextInstance { previous, .. } => previous.number() < handle.number(),
    }
}

/// Whether a kept sample is present, of an instance that the selection asks for, meets the masks and passes the test.
fn is_sought_match<T: Test>(
    instances: &Instances,
    qos: &ReaderQos,
    selection: &Selection,
    masks: Masks,
    test: &T,
    kept: &Kept,
) -> bool
    ensures wanted { (h : List Happening) → Stands qos.now instances.now h
        → IsKept qos.now h kept.now
        → result
        ≡ passes qos.now h (is_sought qos.now h selection.now masks (T.meaning test.now)) kept.now }
{
    match instances.known(kept.sample.key) {
        None => false,
        Some(known) => {
            asks_for_handle(selection, known.handle) && is_found(kept, qos, masks, test, &known)
        }
    }
}

/// Whether some sample is present, of an instance that the selection asks for, meets the masks and passes the test. It
/// goes once over them.
pub fn is_any_match<T: Test>(
    instances: &Instances,
    qos: &ReaderQos,
    selection: &Selection,
    masks: Masks,
    test: &T,
    samples: &[Kept],
) -> bool
    ensures matched { (h : List Happening) → Holds qos.now instances.now samples.now h
        → result
        ≡ list_any (is_sought qos.now h selection.now masks (T.meaning test.now))
        (present_samples qos.now h) }
{
    for kept in samples {
        if is_sought_match(instances, qos, selection, masks, test, kept) {
            return true;
        }
    }
    false
}

/// A kept sample of a known instance as a candidate, if it is present, meets the masks and passes the test.
#[inline(always)]
fn candidate_of<T: Test>(
    known: &KnownInstance,
    qos: &ReaderQos,
    masks: Masks,
    test: &T,
    kept: &Kept,
    at: usize,
) -> Option<Candidate>
    requires small { IsSmall kept.now }
    requires counts { IsCountable known.now }
    ensures placed { IfSome result (λ c. (c.at ≡ at) × (own_generations c.picked < 2 ^ 64)) }
    ensures handle { IfSome result (IsOf known.now.handle) }
    ensures wanted { (h : List Happening) → IsKnown qos.now h known.now
        → known.now.key ≡ kept.now.sample.key → IsKept qos.now h kept.now
        → TellsFound qos.now h masks (T.meaning test.now) kept.now at result }
{
    if is_found(kept, qos, masks, test, known) {
        Some(Candidate {
            sample: kept.sample,
            picked: picked(kept, known),
            at,
        })
    } else {
        None
    }
}

/// The kept sample at an index as a candidate, if it is present, meets the masks and passes the test.
#[inline(always)]
pub fn as_candidate<T: Test>(
    instances: &Instances,
    qos: &ReaderQos,
    masks: Masks,
    test: &T,
    kept: &Kept,
    at: usize,
) -> Option<Candidate>
    requires small { IsSmall kept.now }
    ensures placed { IfSome result (λ c. (c.at ≡ at) × (own_generations c.picked < 2 ^ 64)) }
    ensures wanted { (h : List Happening) → Stands qos.now instances.now h
        → IsKept qos.now h kept.now
        → TellsFound qos.now h masks (T.meaning test.now) kept.now at result }
{
    match instances.known(kept.sample.key) {
        None => None,
        Some(known) => candidate_of(&known, qos, masks, test, kept, at),
    }
}

/// The same of a sample of one instance; none of another.
fn as_candidate_of<T: Test>(
    known: &KnownInstance,
    qos: &ReaderQos,
    masks: Masks,
    test: &T,
    kept: &Kept,
    at: usize,
) -> Option<Candidate>
    requires small { IsSmall kept.now }
    requires counts { IsCountable known.now }
    ensures placed { IfSome result (λ c. (c.at ≡ at) × (own_generations c.picked < 2 ^ 64)) }
    ensures handle { IfSome result (IsOf known.now.handle) }
    ensures wanted { (h : List Happening) → IsKnown qos.now h known.now
        → IsKept qos.now h kept.now
        → TellsFoundOf qos.now h masks (T.meaning test.now) known.now.key kept.now at result }
{
    if kept.sample.key == known.key {
        candidate_of(known, qos, masks, test, kept, at)
    } else {
        None
    }
}

/// The candidates, in the order in which they came.
fn find_candidates<T: Test>(
    alloc: Global,
    instances: &Instances,
    qos: &ReaderQos,
    masks: Masks,
    test: &T,
    samples: &[Kept],
) -> Result<Vec<Candidate>, AllocError>
    requires small { All IsSmall samples.now }
    ensures placed { IfOk result (λ cs. All (IsPlaced (length samples.now)) cs.items) }
    ensures found { IfOk result (λ cs. (h : List Happening) → Stands qos.now instances.now h
        → All (IsKept qos.now h) samples.now
        → AreCandidates qos.now h masks (T.meaning test.now) samples.now samples.now cs.items) }
{
    let mut found = Vec::new(alloc);
    for at in 0..samples.len() {
        if let Some(candidate) = as_candidate(instances, qos, masks, test, &samples[at], at) {
            found.push(candidate)?;
        }
    }
    Ok(found)
}

/// Leaves the first ones, `max` of them at most.
pub fn cut_to(found: &mut Vec<Candidate>, max: Option<u32>)
    ensures { found.new.items ≡ at_most max found.old.items }
{
    if let Some(max) = max {
        found.truncate(max as usize);
    }
}

/// Whether so many are as many as are asked for.
pub fn is_full(max: Option<u32>, count: usize) -> bool
    ensures full { result ≡ true → IsFull max count }
    ensures few { result ≡ false → IsFull max count → ⊥ }
{
    match max {
        None => false,
        Some(max) => max as usize <= count,
    }
}

/// The candidates of one instance, in the order in which they came, the first `max` of them at most. It goes along its
/// chain as far as the last that it needs.
pub fn find_in_instance<T: Test>(
    alloc: Global,
    content: &Content<'_>,
    known: &KnownInstance,
    masks: Masks,
    max: Option<u32>,
    test: &T,
) -> Result<Vec<Candidate>, AllocError>
    requires counts { IsCountable known.now }
    requires chained { AreChained content.now }
    ensures placed { IfOk result (λ found. AreWithin content.now found.items) }
    ensures handles { IfOk result (λ found. All (IsOf known.now.handle) found.items) }
    ensures found { IfOk result (λ found. (h : List Happening) → IsKnown content.now.qos.now h known.now
        → All (IsKept content.now.qos.now h) content.now.samples.now
        → AreFirstOf content.now.qos.now h masks (T.meaning test.now) known.now.key max content.now.samples.now
        content.now.samples.now found.items) }
{
    let Content {
        qos,
        samples,
        chains,
        ..
    } = *content;
    let mut found = Vec::new(alloc);
    let is_unread = !asks_for_sample(masks.samples, SampleState::Read);
    let mut at = chains.first(known.key, is_unread);
    while at < samples.len() && !is_full(max, found.len()) {
        if let Some(candidate) = as_candidate_of(known, qos, masks, test, &samples[at], at) {
            found.push(candidate)?;
        }
        at = chains.next(samples, known.key, at);
    }
    cut_to(&mut found, max);
    Ok(found)
}

/// By handle, those of one instance in the order in which they came.
fn sort_by_handle(candidates: &mut Vec<Candidate>) -> Result<(), AllocError>
    ensures permutation { IsPermutation candidates.old.items candidates.new.items }
    ensures sorted { OnOk result (IsNonDecreasingBy handle_in candidates.new.items) }
    ensures stable { IsStableByKey handle_in nat_cmp candidates.old.items candidates.new.items }
{
    candidates.sort_by_key(|c| c.picked.instance_handle.number())?;
    Ok(())
}

/// The present samples that meet the masks and pass the test, by handle, and those of one instance in the order in
/// which they came.
pub fn find_matching<T: Test>(
    alloc: Global,
    instances: &Instances,
    qos: &ReaderQos,
    masks: Masks,
    test: &T,
    samples: &[Kept],
) -> Result<Vec<Candidate>, AllocError>
    requires small { All IsSmall samples.now }
    ensures placed { IfOk result (λ found. All (IsPlaced (length samples.now)) found.items) }
    ensures found { IfOk result (λ found. (h : List Happening)
        → Holds qos.now instances.now samples.now h
        → Finds qos.now h masks (T.meaning test.now) samples.now found.items) }
    ensures sorted { IfOk result (λ found. IsNonDecreasingBy handle_in found.items) }
{
    let mut found = find_candidates(alloc, instances, qos, masks, test, samples)?;
    sort_by_handle(&mut found)?;
    Ok(found)
}
