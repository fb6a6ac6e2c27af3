//! Which of the registered writers comes first.
//!
//! DDS 1.4, 2.2.3 (OWNERSHIP, OWNERSHIP_STRENGTH).

ghost use Rattle.std.specs.Prelude.{◌≡◌, ◌++◌, None, Some, option_copied, if◌then◌else◌};
ghost use Rattle.std.specs.List.{list_all};
ghost use Rattle.dds_base.specs.Ownership.{is_above, writer_of};
ghost use Rattle.dds_owner.specs.First.{gives_way};
ghost use Rattle.dds_owner.specs.Ranking.{accepted_among, first_among, leader_after, leader_among, order_by, own_precedence, owner_before, owner_but, owner_by, owner_to_keep, strength_by, with_strength, writer_by};

use crate::registration::Registration;
use crate::strengths::Strengths;
use dds_base::{Arrival, ChangeKind, Handle, MatchedWriter, OwnershipQos, ReaderQos};
use std::cmp::Ordering;

/// The first of some registered writers.
#[derive(Clone, Copy)]
pub struct Leader {
    /// None of the others outranks it.
    pub writer: Handle,
    /// Whether it outranks each of the others.
    pub is_sole: bool,
}

/// The owner of an instance, as it was once strengths had changed so often.
#[derive(Clone, Copy)]
pub struct KeptOwner {
    /// It is registered, and outranks each other writer that is.
    pub writer: Handle,
    pub changes: u64,
}

/// The strength that was told last of a writer: by the change that comes, if one does, or before it.
fn newest_strength(strengths: &Strengths, coming: Option<&Arrival>, writer: Handle) -> Option<i32>
    ensures { result ≡ strength_by strengths.now (option_copied coming.entry) writer }
{
    let told = strengths.told_of(writer);
    match coming {
        None => told,
        Some(arrival) => {
            if arrival.writer == writer {
                arrival.change.strength.or(told)
            } else {
                told
            }
        }
    }
}

/// A writer with the strength that was told of it last, if one was.
fn strengthened(writer: &MatchedWriter, told: Option<i32>) -> MatchedWriter
    ensures { result ≡ with_strength told writer.now }
{
    MatchedWriter {
        guid: writer.guid,
        strength: told.unwrap_or(writer.strength),
        lease: writer.lease,
    }
}

/// The matched writer of a handle: one of the opening, or one that joined.
fn matched_writer<'a>(
    opened: &'a [MatchedWriter],
    joined: &'a [MatchedWriter],
    handle: Handle,
) -> Option<&'a MatchedWriter>
    ensures { option_copied result ≡ writer_of (opened.now ++ joined.now) handle }
{
    let at = handle.number().checked_sub(1)? as usize;
    if at < opened.len() {
        opened.get(at)
    } else {
        joined.get(at - opened.len())
    }
}

/// A matched writer, with the strength that was told of it last.
fn ranked_writer(
    qos: &ReaderQos,
    strengths: &Strengths,
    coming: Option<&Arrival>,
    handle: Handle,
) -> Option<MatchedWriter>
    ensures { result ≡ writer_by qos.now strengths.now (option_copied coming.entry) handle }
{
    let writer = matched_writer(qos.writers.as_slice(), strengths.joined(), handle)?;
    Some(strengthened(writer, newest_strength(strengths, coming, handle)))
}

fn is_stronger(a: &MatchedWriter, b: &MatchedWriter) -> bool
    ensures { result ≡ is_above (Some (own_precedence a.now)) (Some (own_precedence b.now)) }
{
    let by_prefix = b.guid.prefix.0.cmp(&a.guid.prefix.0);
    let by_guid = by_prefix.then(b.guid.entity.0.cmp(&a.guid.entity.0));
    a.strength.cmp(&b.strength).then(by_guid) == Ordering::Greater
}

fn is_outranking(
    qos: &ReaderQos,
    strengths: &Strengths,
    coming: Option<&Arrival>,
    first: Handle,
    second: Handle,
) -> bool
    ensures { result ≡ is_above (order_by qos.now strengths.now (option_copied coming.entry) first)
        (order_by qos.now strengths.now (option_copied coming.entry) second) }
{
    let Some(a) = ranked_writer(qos, strengths, coming, first) else {
        return false;
    };
    let Some(b) = ranked_writer(qos, strengths, coming, second) else {
        return false;
    };
    is_stronger(&a, &b)
}

/// Whether the writer need not give way to this one: it is not registered, the same, or outranked.
fn is_no_rival(
    qos: &ReaderQos,
    strengths: &Strengths,
    coming: Option<&Arrival>,
    writer: Handle,
    other: &Registration,
) -> bool
    ensures { result ≡ gives_way (order_by qos.now strengths.now (option_copied coming.entry))
        writer other.now }
{
    !other.is_registered
        || other.writer == writer
        || is_outranking(qos, strengths, coming, writer, other.writer)
}

fn is_first(
    qos: &ReaderQos,
    strengths: &Strengths,
    coming: Option<&Arrival>,
    writer: Handle,
    registrations: &[Registration],
) -> bool
    ensures { result ≡ list_all
        (gives_way (order_by qos.now strengths.now (option_copied coming.entry)) writer)
        registrations.now }
{
    registrations
        .iter()
        .all(|other| is_no_rival(qos, strengths, coming, writer, other))
}

/// The owner that is kept, where no strength has changed since.
pub fn current_owner(strengths: &Strengths, kept: Option<KeptOwner>) -> Option<Handle>
    ensures { result ≡ owner_by strengths.now kept }
{
    let owner = kept?;
    if strengths.changes()? == owner.changes {
        Some(owner.writer)
    } else {
        None
    }
}

/// Whether the writer of a change that comes is the owner among those that are registered and itself: it is the one that
/// is kept, or outranks that, or else each other one is asked.
fn is_owner(
    qos: &ReaderQos,
    strengths: &Strengths,
    kept: Option<KeptOwner>,
    registrations: &[Registration],
    arrival: &Arrival,
) -> bool
    ensures { result ≡ first_among (order_by qos.now strengths.now (Some arrival.now))
        (owner_before strengths.now kept arrival.now) registrations.now arrival.now.writer }
{
    let writer = arrival.writer;
    if !strengths.are_changed_by(arrival) {
        if let Some(owner) = current_owner(strengths, kept) {
            return owner == writer || is_outranking(qos, strengths, Some(arrival), writer, owner);
        }
    }
    is_first(qos, strengths, Some(arrival), writer, registrations)
}

/// The kind of the change, if it is a write or a dispose of the owner, or of anybody where ownership is shared.
pub fn accepted_by(
    qos: &ReaderQos,
    strengths: &Strengths,
    kept: Option<KeptOwner>,
    registrations: &[Registration],
    arrival: &Arrival,
) -> Option<ChangeKind>
    ensures { result ≡ accepted_among (order_by qos.now strengths.now (Some arrival.now)) qos.now
        (owner_before strengths.now kept arrival.now) registrations.now arrival.now.writer
        arrival.now.change.kind }
{
    let is_admitted = match qos.ownership {
        OwnershipQos::Shared => true,
        OwnershipQos::Exclusive => is_owner(qos, strengths, kept, registrations, arrival),
    };
    let kind = arrival.change.kind;
    if kind.is_write_or_dispose() && is_admitted {
        Some(kind)
    } else {
        None
    }
}

/// The leader once one more writer is registered, which is another one.
fn followed_by(
    qos: &ReaderQos,
    strengths: &Strengths,
    leader: Option<Leader>,
    writer: Handle,
) -> Leader
    ensures { result ≡ leader_after (order_by qos.now strengths.now None) leader writer }
{
    match leader {
        None => Leader {
            writer,
            is_sole: true,
        },
        Some(first) => {
            if is_outranking(qos, strengths, None, writer, first.writer) {
                Leader {
                    writer,
                    is_sole: true,
                }
            } else {
                let is_ahead = is_outranking(qos, strengths, None, first.writer, writer);
                Leader {
                    writer: first.writer,
                    is_sole: first.is_sole && is_ahead,
                }
            }
        }
    }
}

/// The first of the registered writers.
pub fn leader_of(
    qos: &ReaderQos,
    strengths: &Strengths,
    registrations: &[Registration],
) -> Option<Leader>
    ensures { result ≡ leader_among (order_by qos.now strengths.now None) None registrations.now }
{
    let mut leader = None;
    for r in registrations {
        if r.is_registered {
            leader = Some(followed_by(qos, strengths, leader, r.writer));
        }
    }
    leader
}

/// The owner that is kept, if it is another writer.
pub fn owner_but(kept: Option<KeptOwner>, writer: Handle) -> Option<KeptOwner>
    ensures { result ≡ owner_but writer kept }
{
    match kept {
        Some(owner) => {
            if owner.writer == writer {
                None
            } else {
                Some(owner)
            }
        }
        None => None,
    }
}

/// The owner, to be kept: none where nobody is registered, or two share a GUID, or where it is not known how often
/// strengths have changed.
pub fn owner_to_keep(
    qos: &ReaderQos,
    strengths: &Strengths,
    registrations: &[Registration],
) -> Option<KeptOwner>
    ensures { result ≡ owner_to_keep (order_by qos.now strengths.now None) strengths.now
        registrations.now }
{
    let leader = leader_of(qos, strengths, registrations)?;
    let changes = strengths.changes()?;
    if leader.is_sole {
        Some(KeptOwner {
            writer: leader.writer,
            changes,
        })
    } else {
        None
    }
}
