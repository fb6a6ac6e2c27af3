//! The samples that an access picks of the first instance that it asks for, which are often all.
//!
//! DDS 1.4, 2.2.2.5 (read, take, and their instance, next-instance and next-sample forms: max_samples).

ghost use Rattle.std.specs.Prelude.{◌≡◌, List, All, IfSome, true, MatchOption};
ghost use Rattle.std.specs.List.Sorted.{IsNonDecreasingBy};
ghost use Rattle.dds_base.specs.declared.happening.Happening.{Happening};
ghost use Rattle.dds_base.specs.declared.qos.ReaderQos.{ReaderQos};
ghost use Rattle.dds_base.specs.Instance.{known_instances};
ghost use Rattle.dds_instances.specs.Table.{Stands};
ghost use Rattle.dds_cache.specs.Finding.{handle_in};
ghost use Rattle.dds_cache.specs.First.{AreChained, AreOfForm, AreWithin, AsksForNext, HoldsAll, IfFound, IsCountable, IsFirstAsked, IsFirstPlace, IsPassedBy, Settles, TellsAsked};

use crate::access::{Candidate, asks_for_handle, find_in_instance, is_full};
use crate::by_instance::find_by_instance;
use crate::content::Content;
use crate::test::Test;
use dds_base::{Handle, Masks, Selection};
use dds_instances::{Instances, KnownInstance};
use std::alloc::{AllocError, Global};

/// What is known of the instance at a place, if an access asks for it.
fn asked_at(instances: &Instances, selection: &Selection, place: usize) -> Option<KnownInstance>
    ensures counts { IfSome result IsCountable }
    ensures asked { (q : ReaderQos) (h : List Happening) → Stands q instances.now h
        → TellsAsked q h selection.now place result }
{
    match instances.at(place) {
        None => None,
        Some(known) => {
            if asks_for_handle(selection, known.handle) {
                Some(known)
            } else {
                None
            }
        }
    }
}

/// The place of the first of the known instances that an access may ask for.
fn first_place(instances: &Instances, selection: &Selection) -> usize
    ensures { (q : ReaderQos) (h : List Happening) → Stands q instances.now h
        → IsFirstPlace q h selection.now result }
{
    match *selection {
        Selection::Any { .. } | Selection::NextSample => 0,
        Selection::Instance { handle, .. } => {
            instances.place_above(Handle::new(handle.number().saturating_sub(1)))
        }
        Selection::NextInstance { previous, .. } => instances.place_above(previous),
    }
}

/// What is known of the first of the known instances that an access asks for.
#[inline(always)]
fn first_asked(instances: &Instances, selection: &Selection) -> Option<KnownInstance>
    ensures counts { IfSome result IsCountable }
    ensures first { (q : ReaderQos) (h : List Happening) → Stands q instances.now h
        → MatchOption result (All (IsPassedBy q h selection.now) (known_instances q h))
        (IsFirstAsked q h selection.now) }
{
    asked_at(instances, selection, first_place(instances, selection))
}

/// Whether what was found of the first instance that an access asks for is all that it picks, but for one of the next
/// instance: by how many instances are known, and how many samples were found of that one.
fn is_settled(selection: &Selection, max: Option<u32>, known: usize, found: usize) -> bool
    ensures { result ≡ true → Settles selection.now max known found }
{
    match *selection {
        Selection::Any { .. } | Selection::NextSample => known == 1 || is_full(max, found),
        Selection::Instance { .. } => true,
        Selection::NextInstance { .. } => false,
    }
}

/// Whether that can be so: not where an access asks for all samples of several instances.
fn may_settle(selection: &Selection, max: Option<u32>, known: usize) -> bool {
    match *selection {
        Selection::Any { .. } => known == 1 || max.is_some(),
        _ => true,
    }
}

/// What an access of the next instance picks. It goes over the instances that it asks for as far as the first that has a
/// match, along the chain of each; `None` where it has gone over as many as there are samples and has found none.
fn find_next<T: Test>(
    alloc: Global,
    content: &Content<'_>,
    selection: &Selection,
    masks: Masks,
    max: Option<u32>,
    test: &T,
) -> Result<Option<Vec<Candidate>>, AllocError>
    requires { AreChained content.now }
    ensures placed { IfFound result (AreWithin content.now) }
    ensures found { IfFound result (λ found. (h : List Happening) → HoldsAll content.now h → AsksForNext selection.now
        → AreOfForm content.now.qos.now h selection.now masks (T.meaning test.now) max content.now.samples.now found) }
    ensures sorted { IfFound result (IsNonDecreasingBy handle_in) }
{
    if is_full(max, 0) {
        return Ok(Some(Vec::new(alloc)));
    }
    let first = first_place(content.instances, selection);
    for place in first..content.instances.len() {
        if content.samples.len() <= place - first {
            return Ok(None);
        }
        if let Some(known) = asked_at(content.instances, selection, place) {
            let found = find_in_instance(alloc, content, &known, masks, max, test)?;
            if !found.is_empty() {
                return Ok(Some(found));
            }
        }
    }
    Ok(Some(Vec::new(alloc)))
}

/// The samples that an access picks, as far as the first instance that it asks for tells, or a pass from one instance to the
/// next, over no more of them than samples are kept; `None` where they don't.
#[inline(always)]
pub fn find_first<T: Test>(
    alloc: Global,
    content: &Content<'_>,
    selection: &Selection,
    masks: Masks,
    max: Option<u32>,
    test: &T,
) -> Result<Option<Vec<Candidate>>, AllocError>
    requires { AreChained content.now }
    ensures placed { IfFound result (AreWithin content.now) }
    ensures found { IfFound result (λ found. (h : List Happening) → HoldsAll content.now h
        → AreOfForm content.now.qos.now h selection.now masks (T.meaning test.now) max content.now.samples.now found) }
    ensures sorted { IfFound result (IsNonDecreasingBy handle_in) }
{
    if let Selection::NextInstance { .. } = *selection {
        return find_next(alloc, content, selection, masks, max, test);
    }
    let Some(known) = first_asked(content.instances, selection) else {
        return Ok(Some(Vec::new(alloc)));
    };
    if may_settle(selection, max, content.instances.len()) {
        let found = find_in_instance(alloc, content, &known, masks, max, test)?;
        if is_settled(selection, max, content.instances.len(), found.len()) {
            return Ok(Some(found));
        }
    }
    match *selection {
        Selection::Any { .. } | Selection::NextSample => {
            find_by_instance(alloc, content, masks, max, test)
        }
        Selection::Instance { .. } | Selection::NextInstance { .. } => Ok(None),
    }
}
