//! What happens to a peer, with the bytes of packets, and what it gives back.
//!
//! DDS 1.4, 2.2.2.4 and 2.2.2.5 (calls); RTPS 2.5, 8.3 (messages), 8.3.4 (the message receiver).

ghost use Rattle.std.specs.Prelude.{◌≡◌};

use dds_base::{Moment, Octets, Sequence};
use dds_machine::{Call, Reply};
use std::alloc::AllocError;

/// The bytes of a packet, and the number of the peer that it goes to, from 1. A network may deliver it anywhere.
#[derive(Debug, Drop, PartialEq, Eq)]
pub struct Packet {
    /// The number of the peer that it is sent to, from 1.
    pub to: u32,
    /// A message of RTPS, as `dds_core` writes it.
    pub bytes: Octets,
}

/// What happens to one peer: `Core::step` of `dds_core` takes it, and its reply is that of the machine.
#[derive(Debug, Drop, PartialEq, Eq)]
pub enum Event {
    /// A call of the application; `Call` says what answers it.
    Call(Call),
    /// The time goes on to this moment: those whose lease is over die at the peer's readers, and then the HEARTBEATs
    /// are sent that are due. `BadParameter` where it would go back, or to 2^63 units of 2^-32 second and beyond;
    /// `Memory` only where, with those that die, more than 2^64 - 1 entries would have happened at a reader: no death
    /// needs memory.
    Tick(Moment),
    /// The bytes of a packet come, whatever they are. The answer is a `Report`.
    Deliver(Octets),
    /// The places of a reader are tried again, one after another, in the order of the writers' publication handles:
    /// each that has begun goes on as far as it can by what is known already, as after a take that made room. No packet
    /// is sent. The answer is a `Report`, whose `refused` is the index of the writer at which memory was wanting, from 0
    /// among those that the reader knows; or `BadParameter` where there is no such reader.
    Resume { reader: u8 },
}

/// What a peer gives back: its answer, the packets that it sends, and how many it could not make for want of memory.
#[derive(Debug, Drop, PartialEq, Eq)]
pub struct Output {
    /// What answers the event: `Event` and `Call` say which answers there are.
    pub reply: Reply,
    /// In the order in which they are sent.
    pub packets: Sequence<Packet>,
    /// Of this event alone.
    pub unsent: u64,
}

impl Clone for Packet {
    ghost is_clone = { λ packet copy. copy ≡ packet };

    fn clone(&self) -> Result<Packet, AllocError> {
        let bytes = self.bytes.clone()?;
        Ok(Packet { to: self.to, bytes })
    }
}

impl Clone for Event {
    ghost is_clone = { λ event copy. copy ≡ event };

    fn clone(&self) -> Result<Event, AllocError> {
        Ok(match self {
            Event::Call(call) => Event::Call(call.clone()?),
            Event::Tick(now) => Event::Tick(*now),
            Event::Deliver(bytes) => Event::Deliver(bytes.clone()?),
            Event::Resume { reader } => Event::Resume { reader: *reader },
        })
    }
}
