//! What a datagram holds that would be nothing to a peer.
//!
//! RTPS 2.5, 8.3.4 (the message receiver). The interface for C is this project's own.

ghost use Rattle.std.specs.Prelude.{◌≡◌, None, Some};
ghost use Rattle.dds_c.specs.Observing.{IsObserved, ObservedBy, observed_of};

use crate::events::NOT_OPEN;
use crate::peer::Peer;
use crate::session::Session;
use dds_base::{Code, Endpoint};
use dds_core::Observed;
use std::alloc::Global;

/// What a datagram holds that would be nothing to a peer, as it stands before the datagram is delivered.
///
/// RTPS 2.5, 8.3.4 (the message receiver), 8.4.10 (WriterProxy).
#[repr(C)]
#[derive(Clone, Copy)]
pub struct FlatObserved {
    /// DATA of matched writers whose number lies below the place of a reader that they are for, one for each reader.
    pub old_data: u64,
    /// HEARTBEATs of matched writers whose count is not later than that of the last one that a reader took, likewise.
    pub old_heartbeats: u64,
    /// DATA, GAPs, HEARTBEATs and ACKNACKs that are for this peer, and concern no reader and no writer of it.
    pub to_nobody: u64,
}

fn flat_observed(observed: Observed) -> FlatObserved
    ensures { observed_of result ≡ observed }
{
    FlatObserved {
        old_data: observed.old_data,
        old_heartbeats: observed.old_heartbeats,
        to_nobody: observed.to_nobody,
    }
}

/// What a datagram holds that would be nothing to the peer of a session: of the writer that is asked for, else of all.
fn observe(session: &Session, of: Option<Endpoint>, datagram: &[u8]) -> FlatObserved
    ensures { IsObserved session.now of datagram.now (observed_of result) }
{
    let observed = match of {
        Some(writer) => session.core.core().observe_writer(writer, datagram),
        None => session.core.core().observe(datagram),
    };
    flat_observed(observed)
}

/// The same of the peer that is open.
fn observe_open(
    alloc: Global,
    peer: &mut Peer,
    of: Option<Endpoint>,
    datagram: &[u8],
    observed: &mut FlatObserved,
) -> u8
    ensures observed { ObservedBy peer.old.held.session of datagram.now
        observed.old observed.new result }
    ensures keeps { peer.new.held.session ≡ peer.old.held.session }
{
    let Some(session) = peer.take(alloc) else {
        return NOT_OPEN.number();
    };
    *observed = observe(&session, of, datagram);
    peer.put(session);
    Code::Ok.number()
}

/// What a datagram holds that would be nothing to the peer, as it stands before `cw_deliver`. A process that opened its
/// peer anew under its old prefix sends old DATA and old HEARTBEATs; where the tables of two processes differ, what one
/// sends is to nobody. A datagram that comes twice is old too, as is what is repaired for others.
///
/// # Errors
///
/// PRECONDITION_NOT_MET where no peer is open: nothing is written then.
///
/// RTPS 2.5, 8.3.4 (the message receiver), 8.4.10 (WriterProxy).
#[unsafe(no_mangle)]
pub extern "C" fn cw_observe(
    alloc: Global,
    peer: &mut Peer,
    datagram: &[u8],
    observed: &mut FlatObserved,
) -> u8
    // It is what `Core::observe` has of those octets, wherever a peer is open.
    ensures observed { ObservedBy peer.old.held.session None datagram.now
        observed.old observed.new result }
    // Nothing happens to the peer.
    ensures keeps { peer.new.held.session ≡ peer.old.held.session }
{
    observe_open(alloc, peer, None, datagram, observed)
}

/// The same, with the old DATA and HEARTBEATs of one writer alone, by the number of its peer and its number there: none
/// where it is matched with no reader of the peer that is open. So a caller adds them up by writer.
///
/// # Errors
///
/// PRECONDITION_NOT_MET where no peer is open: nothing is written then.
///
/// RTPS 2.5, 8.3.4 (the message receiver), 8.4.10 (WriterProxy).
#[unsafe(no_mangle)]
pub extern "C" fn cw_observe_writer(
    alloc: Global,
    peer: &mut Peer,
    writer_peer: u32,
    writer: u8,
    datagram: &[u8],
    observed: &mut FlatObserved,
) -> u8
    // It is what `Core::observe_writer` has of those octets, wherever a peer is open.
    ensures observed { ObservedBy peer.old.held.session
        (Some (record { peer = writer_peer; number = writer })) datagram.now
        observed.old observed.new result }
    // Nothing happens to the peer.
    ensures keeps { peer.new.held.session ≡ peer.old.held.session }
{
    let of = Endpoint {
        peer: writer_peer,
        number: writer,
    };
    observe_open(alloc, peer, Some(of), datagram, observed)
}
