//! A reply that is given twice: the memory for the second one is asked for before anything changes.
//!
//! Outputs that are given twice are this project's own. `docs/DECISIONS.md`, "Peers and the network", says why none is
//! copied after.

ghost use Rattle.std.specs.Prelude.{◌≡◌, ◌+◌, ◌<◌, ◌∷◌, ◌++◌, [], if◌then◌else◌, length};
ghost use Rattle.dds_ends.specs.Sending.{max_unsent};
ghost use Rattle.dds_ends.specs.Twins.{IsPlain, IsTwin, Leaves, LosesPackets, wants_two};

use crate::output::unmoved;
use dds_base::Sequence;
use dds_machine::Reply;
use dds_protocol::{Output, Packet};
use std::alloc::Global;

/// A reply once more, where two are asked for.
#[derive(Drop)]
pub enum Twin {
    /// One reply is enough.
    Unasked,
    /// Two are asked for. A reply without a list leaves it so, since a copy of that takes no memory.
    Asked,
    /// The reply once more.
    Kept(Reply),
}

/// A reply without a list, once more. It takes no memory.
fn plain_again(alloc: Global, reply: &Reply) -> Reply
    requires { IsPlain reply.now }
    ensures { result ≡ reply.now }
{
    match reply {
        Reply::Done => Reply::Done,
        Reply::KeyValue(key) => Reply::KeyValue(*key),
        Reply::InstanceHandle(handle) => Reply::InstanceHandle(*handle),
        Reply::SampleLost(status) => Reply::SampleLost(*status),
        Reply::LivelinessChanged(status) => Reply::LivelinessChanged(*status),
        Reply::LivelinessLost(status) => Reply::LivelinessLost(*status),
        Reply::Matched(status) => Reply::Matched(*status),
        Reply::Created(number) => Reply::Created(*number),
        Reply::TriggerValue(value) => Reply::TriggerValue(*value),
        Reply::Waiting => Reply::Waiting,
        Reply::StatusChanges(mask) => Reply::StatusChanges(*mask),
        Reply::Reported(report) => Reply::Reported(unmoved(alloc, report.refused)),
        Reply::Refused(code) => Reply::Refused(*code),
        // These have lists.
        Reply::Samples(_) | Reply::Conditions(_) | Reply::Active(_) => unreachable!(),
    }
}

impl Twin {
    /// Whether two replies are asked for.
    pub fn is_asked(&self) -> bool
        ensures { result ≡ wants_two self.now }
    {
        matches!(self, Twin::Asked)
    }

    /// The reply once more. It takes no memory.
    pub fn again(self, alloc: Global, reply: &Reply) -> Reply
        requires { IsTwin self reply.now }
        ensures { result ≡ reply.now }
    {
        match self {
            Twin::Kept(again) => again,
            Twin::Asked => plain_again(alloc, reply),
            // Two were asked for.
            Twin::Unasked => unreachable!(),
        }
    }
}

/// Adds a packet to both of two equal lists, if there is memory for that.
fn push_both(first: &mut Vec<Packet>, second: &mut Vec<Packet>, packet: Packet) -> bool
    requires same { second.old.items ≡ first.old.items }
    ensures pushed { first.new.items
        ≡ (if result then first.old.items ++ packet ∷ [] else first.old.items) }
    ensures same { second.new.items ≡ first.new.items }
{
    let Ok(again) = packet.clone() else {
        return false;
    };
    if first.reserve(1).is_err() || second.reserve(1).is_err() {
        return false;
    }
    first.push_reserved(packet);
    second.push_reserved(again);
    true
}

/// Packets twice, and how many are in neither list, for want of memory.
struct PacketsTwice {
    first: Vec<Packet>,
    second: Vec<Packet>,
    lost: u64,
}

/// These packets twice, but for those for which there is no memory.
fn twice(alloc: Global, packets: Vec<Packet>) -> PacketsTwice
    ensures leaves { Leaves packets.items result.first.items }
    ensures counted { length result.first.items + result.lost ≡ length packets.items }
    ensures same { result.second.items ≡ result.first.items }
{
    let total = packets.len();
    let mut first = Vec::new(alloc);
    let mut second = Vec::new(alloc);
    for packet in packets {
        let _ = push_both(&mut first, &mut second, packet);
    }
    let lost = (total - first.len()) as u64;
    PacketsTwice {
        first,
        second,
        lost,
    }
}

/// An output twice, with the reply once more: packets that find no memory are in neither, and counted as unsent.
pub fn pair_of(alloc: Global, output: Output, twin: Twin) -> (Output, Output)
    requires twin { IsTwin twin output.reply }
    requires few { output.unsent < max_unsent }
    ensures loses { LosesPackets output result.0 }
    ensures equal { result.0 ≡ result.1 }
{
    let Output {
        reply,
        packets,
        unsent,
    } = output;
    let again = twin.again(alloc, &reply);
    let PacketsTwice {
        first,
        second,
        lost,
    } = twice(alloc, packets.into_vec());
    let unsent = unsent + lost;
    let output = Output {
        reply,
        packets: Sequence::from_vec(first),
        unsent,
    };
    let twin = Output {
        reply: again,
        packets: Sequence::from_vec(second),
        unsent,
    };
    (output, twin)
}
