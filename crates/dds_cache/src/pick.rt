//! The samples that an access picks, by its form.
//!
//! DDS 1.4, 2.2.2.5 (read, take, and their instance, next-instance and next-sample forms).

ghost use Rattle.std.specs.Prelude.{◌≡◌, List, length, filter, All, IfOk, IfErr, None};
ghost use Rattle.std.specs.List.Sorted.{IsNonDecreasingBy};
ghost use Rattle.dds_base.specs.declared.happening.Happening.{Happening};
ghost use Rattle.dds_base.specs.declared.qos.ReaderQos.{ReaderQos};
ghost use Rattle.dds_base.specs.Refusal.{Refuses};
ghost use Rattle.dds_base.specs.Selection.{picked_by, selection_refusal};
ghost use Rattle.dds_instances.specs.Table.{Stands};
ghost use Rattle.dds_cache.specs.Finding.{Finds, Holds, IsPlaced, IsSmall, handle_in};
ghost use Rattle.dds_cache.specs.First.{AreChained, AreOfForm, AreWithin, HoldsAll, IfFound};
ghost use Rattle.dds_cache.specs.Kept.{IsSummary};
ghost use Rattle.dds_cache.specs.Picking.{IsLimit, IsRequestWith, IsRequest, Picks, TellsAny, test_in};
ghost use Rattle.dds_cache.specs.Picking.{has_handle, first_above, of_selection};

use crate::access::{Candidate, cut_to, find_matching, is_any_match};
use crate::asking::is_none_asked;
use crate::content::Content;
use crate::first::find_first;
use crate::kept::Kept;
use crate::summary::Summary;
use crate::test::{Everything, Test};
use dds_base::{Code, Handle, Masks, ReaderQos, Selection};
use dds_instances::Instances;
use std::alloc::{AllocError, Global};

/// How many samples an access asks for at most, and which masks they have to meet.
#[derive(Clone, Copy)]
struct Request {
    limit: Option<u32>,
    masks: Masks,
}

/// How many samples a maximum allows; `BadParameter` where it is neither -1 nor positive.
fn limit_from(max: i32) -> Result<Option<u32>, Code>
    ensures { IsLimit max result }
{
    if max == -1 {
        Ok(None)
    } else if 0 < max {
        Ok(Some(max as u32))
    } else {
        Err(Code::BadParameter)
    }
}

fn request_with(max: i32, masks: Masks) -> Result<Request, Code>
    ensures { IsRequestWith max masks result }
{
    let limit = limit_from(max)?;
    Ok(Request { limit, masks })
}

/// What an access asks for.
///
/// # Errors
///
/// `BadParameter` for a maximum that is neither -1 nor positive, and for an instance that is not known where it has to
/// be.
fn request_by(instances: &Instances, selection: &Selection) -> Result<Request, Code>
    ensures { (q : ReaderQos) (h : List Happening) → Stands q instances.now h
        → IsRequest q h selection.now result }
{
    match *selection {
        Selection::Any { max, masks } => request_with(max, masks),
        Selection::NextInstance { max, masks, .. } => request_with(max, masks),
        Selection::Instance { handle, max, masks } => {
            let request = request_with(max, masks)?;
            if instances.key(handle).is_some() {
                Ok(request)
            } else {
                Err(Code::BadParameter)
            }
        }
        Selection::NextSample => Ok(Request {
            limit: Some(1),
            masks: Masks::NOT_READ,
        }),
    }
}

/// Leaves those of one instance.
fn keep_instance(found: &mut Vec<Candidate>, handle: Handle)
    ensures { found.new.items ≡ filter (has_handle handle) found.old.items }
{
    found.retain(|c| c.picked.instance_handle == handle);
}

/// The first handle above one, `NIL` for none.
fn handle_above(found: &[Candidate], previous: Handle) -> Handle
    ensures { result ≡ first_above previous found.now }
{
    for candidate in found {
        if previous.number() < candidate.picked.instance_handle.number() {
            return candidate.picked.instance_handle;
        }
    }
    Handle::NIL
}

/// Leaves those of an instance that the access asks for.
fn restrict(found: &mut Vec<Candidate>, selection: &Selection)
    ensures { found.new.items ≡ of_selection selection.now found.old.items }
{
    match *selection {
        Selection::Any { .. } | Selection::NextSample => {}
        Selection::Instance { handle, .. } => keep_instance(found, handle),
        Selection::NextInstance { previous, .. } => {
            let next = handle_above(found, previous);
            keep_instance(found, next);
        }
    }
}

/// The present samples that meet the masks and pass the test, but for the next sample: that is found without a test.
fn find_asked<T: Test>(
    alloc: Global,
    instances: &Instances,
    qos: &ReaderQos,
    samples: &[Kept],
    selection: &Selection,
    masks: Masks,
    test: &T,
) -> Result<Vec<Candidate>, AllocError>
    requires small { All IsSmall samples.now }
    ensures placed { IfOk result (λ found. All (IsPlaced (length samples.now)) found.items) }
    ensures found { IfOk result (λ found. (h : List Happening)
        → Holds qos.now instances.now samples.now h
        → Finds qos.now h masks (test_in selection.now (T.meaning test.now)) samples.now
        found.items) }
    ensures sorted { IfOk result (λ found. IsNonDecreasingBy handle_in found.items) }
{
    match *selection {
        Selection::NextSample => {
            find_matching(alloc, instances, qos, masks, &Everything, samples)
        }
        Selection::Any { .. } | Selection::Instance { .. } | Selection::NextInstance { .. } => {
            find_matching(alloc, instances, qos, masks, test, samples)
        }
    }
}

/// What the first instance that an access asks for tells of it, as `find_first` has it; the next sample is found without a
/// test.
fn find_asked_first<T: Test>(
    alloc: Global,
    content: &Content<'_>,
    selection: &Selection,
    request: Request,
    test: &T,
) -> Result<Option<Vec<Candidate>>, AllocError>
    requires { AreChained content.now }
    ensures placed { IfFound result (AreWithin content.now) }
    ensures found { IfFound result (λ found. (h : List Happening) → HoldsAll content.now h
        → AreOfForm content.now.qos.now h selection.now request.masks
        (test_in selection.now (T.meaning test.now)) request.limit content.now.samples.now found) }
    ensures sorted { IfFound result (IsNonDecreasingBy handle_in) }
{
    let Request { limit, masks } = request;
    match *selection {
        Selection::NextSample => find_first(alloc, content, selection, masks, limit, &Everything),
        Selection::Any { .. } | Selection::Instance { .. } | Selection::NextInstance { .. } => {
            find_first(alloc, content, selection, masks, limit, test)
        }
    }
}

/// Whether an access that is not refused picks something by a test. It needs no memory, and goes once over the samples.
pub fn picks_any<T: Test>(
    instances: &Instances,
    qos: &ReaderQos,
    samples: &[Kept],
    selection: &Selection,
    test: &T,
) -> bool
    ensures tells { (h : List Happening) → Holds qos.now instances.now samples.now h
        → selection_refusal qos.now h selection.now ≡ None
        → TellsAny result (picked_by qos.now h selection.now (T.meaning test.now)) }
{
    match *selection {
        Selection::Any { masks, .. } => {
            is_any_match(instances, qos, selection, masks, test, samples)
        }
        Selection::Instance { masks, .. } => {
            is_any_match(instances, qos, selection, masks, test, samples)
        }
        Selection::NextInstance { masks, .. } => {
            is_any_match(instances, qos, selection, masks, test, samples)
        }
        Selection::NextSample => is_any_match(
            instances,
            qos,
            selection,
            Masks::NOT_READ,
            &Everything,
            samples,
        ),
    }
}

/// The kept samples that an access picks by a test, with what is known of each before its ranks. It goes over them only
/// where the masks don't tell alone that none is asked for, and takes memory only then; and only as far as the last that
/// it picks, where the first instance that it asks for has as many as it asks for.
///
/// # Errors
///
/// `BadParameter` for a maximum that is neither -1 nor positive, and for an instance that is not known where it has to
/// be; else `Memory` where a growth was refused.
pub fn pick<T: Test>(
    alloc: Global,
    instances: &Instances,
    qos: &ReaderQos,
    samples: &[Kept],
    summary: &Summary,
    selection: Selection,
    test: &T,
) -> Result<Vec<Candidate>, Code>
    requires small { All IsSmall samples.now }
    requires counted { IsSummary samples.now summary.now }
    ensures placed { IfOk result (λ found. All (IsPlaced (length samples.now)) found.items) }
    ensures picks { IfOk result (λ found. (h : List Happening)
        → Holds qos.now instances.now samples.now h
        → Picks qos.now h selection (T.meaning test.now) samples.now found.items) }
    ensures sorted { IfOk result (λ found. IsNonDecreasingBy handle_in found.items) }
    ensures refused { IfErr result (λ e. (h : List Happening) → Stands qos.now instances.now h
        → Refuses (selection_refusal qos.now h selection) e) }
{
    let request = request_by(instances, &selection)?;
    if is_none_asked(instances, samples, summary, request.masks) {
        return Ok(Vec::new(alloc));
    }
    let content = Content {
        instances,
        qos,
        samples,
        chains: &summary.chains,
    };
    if let Some(found) = find_asked_first(alloc, &content, &selection, request, test)? {
        return Ok(found);
    }
    let mut found = find_asked(
        alloc,
        instances,
        qos,
        samples,
        &selection,
        request.masks,
        test,
    )?;
    restrict(&mut found, &selection);
    cut_to(&mut found, request.limit);
    Ok(found)
}
