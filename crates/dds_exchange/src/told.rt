//! What discovery tells of a match, and the call that it is.
//!
//! RTPS 2.5, 8.4.7.4, 8.4.10.3 (matched_reader_add, matched_writer_add and their removals).

ghost use Rattle.std.specs.Prelude.{◌≡◌, find, map, IfOk};
ghost use Rattle.std.specs.Option.{option_copied};
ghost use Rattle.dds_exchange.specs.Told.{announced, at_peer, call_of, due_of, far_of, is_far_named, own_of, policies_of};

use crate::entities::keyed;
use crate::naming::NamedEnd;
use dds_base::{Guid, Policies};
use dds_machine::{Call, FarReader, FarWriter};
use rtps_announcements::EndpointKind;
use rtps_matching::{Far, Told};
use std::alloc::{AllocError, Global};

/// What was told of a match, and is a call of our peer that was not made yet.
#[derive(Clone, Copy)]
pub struct Due {
    /// What was told.
    pub told: Told,
    /// What the other endpoint offers or asks for, as it was announced then.
    pub policies: Option<Policies>,
}

/// The one of ours.
pub fn own_of(told: Told) -> Guid
    ensures own { result ≡ own_of told }
{
    match told {
        Told::Matched(own, _) | Told::Unmatched(own, _) | Told::Changed(own, _) => own,
    }
}

/// The other one.
pub fn far_of(told: Told) -> Guid
    ensures far { result ≡ far_of told }
{
    match told {
        Told::Matched(_, far) | Told::Unmatched(_, far) | Told::Changed(_, far) => far,
    }
}

/// Whether an endpoint of another participant is called so.
fn is_far_named(far: &Far, guid: &Guid) -> bool
    ensures { result ≡ is_far_named guid.now far.now }
{
    far.guid == *guid
}

/// The endpoint of another participant that is called so.
fn far_end<'a>(far: &'a [Far], guid: &Guid) -> Option<&'a Far>
    ensures { option_copied result ≡ find (is_far_named guid.now) far.now }
{
    far.iter().find(|one| is_far_named(one, guid))
}

/// What an endpoint of another participant announced of its policies, if that can be read.
fn announced(far: &Far) -> Option<Policies>
    ensures { result ≡ announced far.now }
{
    match &far.end {
        Some(end) => Some(end.endpoint.lend().policies),
        None => None,
    }
}

/// The same of the one that is called so.
fn policies_of(far: &[Far], guid: &Guid) -> Option<Policies>
    ensures { result ≡ policies_of guid.now far.now }
{
    match far_end(far, guid) {
        Some(far) => announced(far),
        None => None,
    }
}

/// What is due, by what is known of others.
fn due_of(far: &[Far], told: Told) -> Due
    ensures { result ≡ due_of far.now told }
{
    Due {
        told,
        policies: policies_of(far, &far_of(told)),
    }
}

/// What is due of all that was told.
pub fn dues_of(alloc: Global, far: &[Far], told: &[Told]) -> Result<Vec<Due>, AllocError>
    ensures dues { IfOk result (λ dues. dues.items ≡ map (due_of far.now) told.now) }
{
    let mut dues = Vec::new(alloc);
    for one in told {
        dues.push(due_of(far, *one))?;
    }
    Ok(dues)
}

/// What an endpoint is called at our peer.
fn at_peer(guid: Guid) -> Guid
    ensures { result ≡ at_peer guid }
{
    Guid {
        prefix: guid.prefix,
        entity: keyed(guid.entity),
    }
}

/// The call that a match is where the one of ours is the writer or the reader of this number; `None` where it is none. A
/// reliable reader is told no more than where it begins until it has answered.
pub fn call_of(due: &Due, kind: EndpointKind, number: u8, end: &NamedEnd) -> Option<Call>
    ensures call { result ≡ call_of due.now kind number end.now }
{
    let endpoint = end.name;
    let guid = at_peer(end.guid);
    match (due.told, kind) {
        (Told::Matched(_, _), EndpointKind::Writer) => Some(Call::MeetReader {
            writer: number,
            far: FarReader {
                endpoint,
                guid,
                requested: due.policies?,
            },
            greeted: true,
        }),
        (Told::Matched(_, _), EndpointKind::Reader) => Some(Call::MeetWriter {
            reader: number,
            far: FarWriter {
                endpoint,
                guid,
                offered: due.policies?,
            },
        }),
        (Told::Unmatched(_, _), EndpointKind::Writer) => Some(Call::UnmatchReader {
            writer: number,
            reader: endpoint,
        }),
        (Told::Unmatched(_, _), EndpointKind::Reader) => Some(Call::UnmatchWriter {
            reader: number,
            writer: endpoint,
        }),
        (Told::Changed(_, _), _) => None,
    }
}
