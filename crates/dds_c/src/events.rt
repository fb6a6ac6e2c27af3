//! What happens to a peer but for its calls: datagrams that come, time that goes on, and places that are tried again.
//!
//! RTPS 2.5, 8.3.4 (the message receiver). The interface for C is this project's own.

ghost use Rattle.std.specs.Prelude.{◌≡◌, None, Some};
ghost use Rattle.dds_protocol.specs.declared.event.Event.TheVariants.{Deliver, Resume, Tick};
ghost use Rattle.dds_c.specs.Answering.{Happens, code_number};

use crate::peer::Peer;
use crate::session::{Session, code_of};
use dds_base::{Code, Moment};
use dds_protocol::Event;
use std::alloc::Global;

/// What an export answers where no peer is open.
pub(crate) const NOT_OPEN: Code = Code::PreconditionNotMet;

/// Puts a session back in, once it has had an event. Answers 0, or the code with which that was refused.
fn put_back(peer: &mut Peer, session: Box<Session>) -> u8
    requires { peer.old.held.session ≡ None }
    ensures session { peer.new.held.session ≡ Some session.value }
    ensures code { result ≡ code_number session.value.last.reply }
{
    let code = code_of(&session.last.reply);
    peer.put(session);
    code
}

/// An event at a peer. Answers 0, or the code with which it was refused.
pub(crate) fn step(alloc: Global, peer: &mut Peer, event: Event) -> u8
    ensures step { Happens peer.old.held.session event result peer.new.held.session }
{
    let Some(mut session) = peer.take(alloc) else {
        return NOT_OPEN.number();
    };
    session.step(alloc, event);
    put_back(peer, session)
}

/// A datagram comes, whatever its octets are; the answer is a report. It is read where it stands.
///
/// # Errors
///
/// PRECONDITION_NOT_MET where no peer is open.
///
/// RTPS 2.5, 8.3.4 (the message receiver).
#[unsafe(no_mangle)]
pub extern "C" fn cw_deliver(alloc: Global, peer: &mut Peer, datagram: &[u8]) -> u8
    // It is one step of the peer.
    ensures step { Happens peer.old.held.session (Deliver datagram.now) result peer.new.held.session }
{
    let Some(mut session) = peer.take(alloc) else {
        return NOT_OPEN.number();
    };
    session.deliver(alloc, datagram);
    put_back(peer, session)
}

/// The time goes on to this moment, in units of 2^-32 second.
///
/// # Errors
///
/// PRECONDITION_NOT_MET where no peer is open; BAD_PARAMETER where the time would go back, or to 2^63 units and beyond;
/// MEMORY.
///
/// DDS 1.4, 2.2.3 (LIVELINESS); RTPS 2.5, 8.4.7 (HEARTBEATs).
#[unsafe(no_mangle)]
pub extern "C" fn cw_tick(alloc: Global, peer: &mut Peer, now: u64) -> u8
    // It is one step of the peer.
    ensures step { Happens peer.old.held.session (Tick now) result peer.new.held.session }
{
    step(alloc, peer, Event::Tick(Moment::new(now)))
}

/// The places of a reader are tried again, as after a take that made room: what it holds comes as far as there is room, and
/// nothing is sent. The answer is a report.
///
/// # Errors
///
/// PRECONDITION_NOT_MET where no peer is open; BAD_PARAMETER where there is no such reader.
///
/// RTPS 2.5, 8.4.12 (reliable StatefulReader); that places are tried again is this project's own.
#[unsafe(no_mangle)]
pub extern "C" fn cw_resume(alloc: Global, peer: &mut Peer, reader: u8) -> u8
    // It is one step of the peer.
    ensures step { Happens peer.old.held.session (Resume reader) result peer.new.held.session }
{
    step(alloc, peer, Event::Resume { reader })
}
