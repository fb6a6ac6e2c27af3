//! What a datagram of the network is to our peer, and what a packet of our peer is on the network.
//!
//! `specs/Going.antt` says it.
//!
//! RTPS 2.5, 8.3.4 (the message receiver), 9.4.5, clause 10 (SerializedPayload).

ghost use Rattle.std.specs.Prelude.{◌≡◌, find, IfOk, IfErr, MatchOption};
ghost use Rattle.std.specs.Option.{option_copied};
ghost use Rattle.std.specs.Str.{bytes_eq};
ghost use Rattle.dds_builtin.specs.Kinds.{WithTheirKinds};
ghost use Rattle.rtps_discovery.specs.Rows.{is_row};
ghost use Rattle.dds_exchange.specs.Entities.{kind_at_peer};
ghost use Rattle.dds_exchange.specs.Going.{HasRows, IsTooLongIn, IsTooLongOut, TurnsIn, TurnsOut, address_of, reach};

use crate::ends::OwnEnd;
use crate::entities::{ToNetwork, ToPeer};
use crate::naming::{NamedEnd, prefix_of};
use crate::tables::{far_rows, own_rows};
use dds_base::{Code, GuidPrefix, Octets};
use dds_builtin::with_kinds_of;
use rtps_adapter::{Adapted, WriterKind, inward_with_gaps, outward};
use rtps_announcements::Locator;
use rtps_discovery::Row;
use rtps_wire::begin_message;
use std::alloc::{AllocError, Global};

/// What we have, and whom we know.
#[derive(Clone, Copy)]
pub struct Known<'a> {
    /// What our GUIDs begin with.
    pub own: GuidPrefix,
    /// Our writers.
    pub writers: &'a [OwnEnd],
    /// Our readers.
    pub readers: &'a [OwnEnd],
    /// Endpoints of others that have names.
    pub named: &'a [NamedEnd],
}

/// What the writers carry of the sender of a datagram.
fn rows_for<'a>(
    alloc: Global,
    known: &Known<'a>,
    bytes: &[u8],
) -> Result<Vec<WriterKind<'a>>, AllocError>
    ensures rows { IfOk result (λ rows. HasRows known.now bytes.now rows.items) }
{
    match begin_message(bytes) {
        Some((source, _)) => far_rows(alloc, known.readers, known.named, &source),
        None => Ok(Vec::new(alloc)),
    }
}

/// A datagram whose readers and writers are called as at our peer: those without a key as those with one.
///
/// # Errors
///
/// `Memory` where there is none.
///
/// RTPS 2.5, 9.3.1 (entity kinds).
pub fn called_in(alloc: Global, bytes: &[u8]) -> Result<Octets, Code>
    // Each has the kind that it has at our peer, and all else is as it was.
    ensures called { IfOk result (WithTheirKinds kind_at_peer kind_at_peer bytes.now) }
    // The only refusal is for want of memory.
    ensures memory { IfErr result (λ e. e ≡ Code.Memory) }
{
    with_kinds_of(alloc, &ToPeer, bytes)
}

/// What a datagram is to our peer; `None` where it gets longer than a datagram may be.
///
/// # Errors
///
/// `Memory` where there is none.
pub fn turned_in(alloc: Global, known: &Known, bytes: &[u8]) -> Result<Option<Octets>, Code>
    ensures turned { IfOk result (λ o. MatchOption o (IsTooLongIn known.now bytes.now)
        (TurnsIn known.now bytes.now)) }
    ensures memory { IfErr result (λ e. e ≡ Code.Memory) }
{
    let bytes = called_in(alloc, bytes)?;
    let rows = rows_for(alloc, known, bytes.as_slice())?;
    match inward_with_gaps(alloc, &rows, bytes.as_slice())? {
        Adapted::AsItIs => Ok(Some(bytes)),
        Adapted::Rewritten(octets) => Ok(Some(octets)),
        Adapted::TooLong => Ok(None),
    }
}

/// What a packet is on the network, on its way to a participant; `None` where it gets longer than a datagram may be.
///
/// # Errors
///
/// `Memory` where there is none.
pub fn turned_out(
    alloc: Global,
    known: &Known,
    to: GuidPrefix,
    bytes: &[u8],
) -> Result<Option<Octets>, Code>
    ensures turned { IfOk result (λ o. MatchOption o (IsTooLongOut known.now bytes.now)
        (TurnsOut known.now to bytes.now)) }
    ensures memory { IfErr result (λ e. e ≡ Code.Memory) }
{
    let kinds = ToNetwork {
        writers: known.writers,
        readers: known.readers,
        named: known.named,
        to,
    };
    let rows = own_rows(alloc, known.own, known.writers)?;
    match outward(alloc, &rows, bytes)? {
        Adapted::AsItIs => Ok(Some(with_kinds_of(alloc, &kinds, bytes)?)),
        Adapted::Rewritten(octets) => Ok(Some(with_kinds_of(alloc, &kinds, octets.as_slice())?)),
        Adapted::TooLong => Ok(None),
    }
}

/// Whether two addresses are one.
fn is_address(one: &[u8; 4], other: &[u8; 4]) -> bool
    ensures { result ≡ bytes_eq one.now other.now }
{
    one.as_slice() == other.as_slice()
}

/// Where a participant is sent samples to: the first of its default locators at the address that its datagrams come from.
fn reach(row: &Row) -> Option<&Locator>
    ensures { option_copied result ≡ reach row.now }
{
    row.participant
        .default
        .as_slice()
        .iter()
        .find(|locator| is_address(&locator.address, &row.source))
}

/// Whether a row is of this participant.
fn is_row(row: &Row, prefix: &GuidPrefix) -> bool
    ensures { result ≡ is_row prefix.now row.now }
{
    row.participant.prefix == *prefix
}

/// The row of a participant.
fn row_of<'a>(rows: &'a [Row], prefix: &GuidPrefix) -> Option<&'a Row>
    ensures { option_copied result ≡ find (is_row prefix.now) rows.now }
{
    rows.iter().find(|row| is_row(row, prefix))
}

/// Where a participant is sent samples to, if it is known and can be reached.
///
/// RTPS 2.5, 8.5.3 (SPDP: default unicast locators).
pub fn address_of(rows: &[Row], prefix: &GuidPrefix) -> Option<Locator>
    // It is the first default locator at the address that its datagrams come from.
    ensures address { result ≡ address_of prefix.now rows.now }
{
    match row_of(rows, prefix) {
        Some(row) => reach(row).copied(),
        None => None,
    }
}
