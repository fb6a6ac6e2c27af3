//! One round of repair between a writer and a reader that it is matched with.
//!
//! RTPS 2.5, 8.4.9 (reliable StatefulWriter), 8.4.12 (reliable StatefulReader).

ghost use Rattle.std.specs.Prelude.{◌≡◌, ℕ, ◌++◌, ◌+◌, ◌<◌, ◌≤◌, ◌↔◌, min, [], ◌∷◌, length, vec_len, vec_capacity, IsTrue, IfOk, IfErr, IfSome, OnErr, MatchOption};
ghost use Rattle.dds_notices.specs.Listeners.{ByEntity};
ghost use Rattle.dds_world.specs.declared.round.RoundReply.{RoundReply as ReplyOf};
ghost use Rattle.dds_protocol.specs.Meetings.{NobodyIn};
ghost use Rattle.dds_world.specs.Round.{AreMatched, HasNone, IsFirst, IsTo, RefusesRound, RoundRuns, Rounds};
ghost use Rattle.dds_world.specs.Holding.{MachineStandsFor, filters_of, kept_of, tests_in};
ghost use Rattle.dds_world.specs.Repairing.{Acknowledging, AddsIn, Answering, Beating, IsKnown, IsStepIn, NotMatched};

use crate::world::World;
use dds_base::{Code, Endpoint, Moment, Sequence, Sn, index_of_peer};
use dds_conditions::Filter;
use dds_core::Pair;
use dds_machine::{Reply, WorldEvent};
use dds_notices::Listener;
use dds_protocol::Packet;
use rtps_wire::{Sought, has_submessage};

/// A reply of a round, with the counts of the network as they stood after it.
#[derive(Debug, Drop)]
pub struct RoundReply {
    /// What answered the event.
    pub reply: Reply,
    /// How many packets had been sent.
    pub sent: u64,
    /// How many packets had found no memory, as `World::unsent` counts them.
    pub unsent: u64,
}

/// What a round of repair answers, and how the reader and the writer stood when it began, and the reader after it.
///
/// The reader has caught up where `to` is at least the smaller one of `from` + 256 and `last` + 1, as `has_caught_up`
/// says. Where it has not, one of these is so, and the answer shows which, but for the fifth and the sixth:
///
/// - memory lacked: a reply is a refusal, or a report whose `refused` names a submessage;
/// - a packet was not sent: the `unsent` of a reply is greater than `unsent_before`; or that was 2^64 - 1, where it
///   stays;
/// - the writer has used up its HEARTBEAT counts, 2^31 - 1: there is one reply, though the reader was behind;
/// - the reader has used up its ACKNACK counts to the writer, as many: there are two replies;
/// - no HEARTBEAT was due, where ends have come and gone: the writer owes the reader no change that it has made, or the
///   reader was not behind, and its place waits to begin;
/// - the reader was greeted, and had yet to answer, which this round only lets it do;
/// - none of these: the reader holds the change of number `to`, and has no room for it.
///
/// Where none of the first six is so, the writer knows that the reader had all changes below `from`.
#[derive(Debug, Drop)]
pub struct Round {
    /// The replies to its events, 1 to 259.
    pub replies: Sequence<RoundReply>,
    /// Whether there were changes of the writer that the reader had not acknowledged, when the round began.
    pub was_behind: bool,
    /// How many packets had found no memory when the round began, as `World::unsent` counts them.
    pub unsent_before: u64,
    /// The number of the writer's last change; 0 before the first.
    pub last: Sn,
    /// The reader's place at the writer when the round began, as `World::place` gives it.
    pub from: Sn,
    /// The reader's place at the writer after the round.
    pub to: Sn,
}

impl Round {
    /// Whether the reader's place has gone on by 256 numbers, or past the writer's last change. Where it stands at a
    /// change for which the reader has no room it has gone as far as it can, and this may be `false`.
    pub fn has_caught_up(&self) -> bool
        // It is so where the place is at least the smaller one of 256 more than before and one more than the last
        // number.
        ensures caught_up { IsTrue result
            ↔ (min (self.now.from + 256) (self.now.last + 1) ≤ self.now.to) }
    {
        self.last < self.to || self.to.number().saturating_sub(self.from.number()) >= 256
    }
}

/// A writer and a reader that it is matched with, their entity ids, and the moment of the writer's peer.
#[derive(Clone, Copy)]
pub struct Matched {
    pub writer: Endpoint,
    pub reader: Endpoint,
    pub pair: Pair,
    pub moment: Moment,
}

/// How many packets are delivered as answers. An ACKNACK asks for 256 numbers at most, and a packet has eight answers, or
/// one where values may be longer than usual.
const MAX_ANSWERS: u64 = 256;
/// The replies to a tick, a HEARTBEAT, an ACKNACK and its answers.
const MAX_REPLIES: usize = 259;

/// Whether the packet is sent to this peer, and has such a submessage.
fn is_to(packet: &Packet, peer: u32, wanted: &Sought) -> bool
    ensures { IsTrue result ↔ IsTo peer wanted.now packet.now }
{
    packet.to == peer && has_submessage(packet.bytes.as_slice(), wanted)
}

impl<F: Filter, L: Listener> World<F, L> {
    /// One round of repair: the writer's peer ticks, at its own moment; then the writer's HEARTBEAT that this sent to
    /// the reader's peer is delivered there, the reader's ACKNACK to the writer that this sent is delivered at the
    /// writer's peer, and each packet that this sent, up to 256, at the reader's. Where one of them was not sent, the
    /// round ends.
    ///
    /// Each packet is delivered once, and no other one is. There are 1 to 259 replies; each of them may lack memory, as
    /// one of `World::step`. Afterwards the reader has come to the next 256 changes, or to all, or to one for which it
    /// has no room, unless the answer shows why not (see `Round`), or no HEARTBEAT is due, as the writer owes the reader
    /// nothing, or a reader whose place waits is not behind; or the reader was greeted, and had yet to answer.
    ///
    /// # Errors
    ///
    /// `BadParameter` where one of the two is not matched with the other, or there are no such ends; `Memory` where no
    /// memory was found for the replies. Nothing was done then.
    ///
    /// RTPS 2.5, 8.4.9 and 8.4.12.
    pub fn round(&mut self, writer: Endpoint, reader: Endpoint) -> Result<Round, Code>
        // The replies are a run of the machine without packets, and the answer says the places of the reader there.
        ensures run { IfOk result
            (λ answer. (given : ℕ → ByEntity L) → RoundRuns (MachineStandsFor L.notices L.capacity L.becomes given)
            (tests_in F.meaning self.old) (length self.old.sent) self.old writer reader answer
            (length self.new.sent) self.new) }
        // They are a run by the rules of the protocol over the events of a round, with the counts as they stood after
        // each, and the answer says how the two stood before it, and the reader's place after it. The reader has then
        // caught up, unless something hindered or excuses it.
        ensures round { IfOk result
            (λ answer. (given : ℕ → ByEntity L) → Rounds (tests_in F.meaning self.old)
            (kept_of L.notices L.capacity L.becomes given self.old) writer reader answer
            (kept_of L.notices L.capacity L.becomes given self.new)) }
        // No filter is added.
        ensures filters { filters_of self.new ≡ filters_of self.old }
        // There is a round only where the two are matched.
        ensures matched { IfOk result
            (λ answer. (given : ℕ → ByEntity L) → AreMatched (kept_of L.notices L.capacity L.becomes given self.old) writer reader) }
        // It is refused where they are not, or else for want of memory.
        ensures refused { IfErr result (λ code. (given : ℕ → ByEntity L)
            → RefusesRound (kept_of L.notices L.capacity L.becomes given self.old) writer reader code) }
        // A refusal leaves the network as it was.
        ensures err { OnErr result (self.new ≡ self.old) }
    {
        let Some(m) = self.matched(writer, reader) else {
            return Err(Code::BadParameter);
        };
        let Some(from) = self.place(reader, writer) else {
            return Err(Code::BadParameter);
        };
        if !self.is_matched(reader, writer) {
            return Err(Code::BadParameter);
        }
        let mut replies = Vec::with_capacity(self.alloc, MAX_REPLIES)?;
        let (sent, unsent_before) = (self.sent(), self.unsent());
        let tick = WorldEvent::Tick {
            peer: m.writer.peer,
            now: m.moment,
        };
        self.add_step(tick, &mut replies);
        self.deliver_heartbeat(&m, sent, &mut replies);
        // There is a place, as they are matched still.
        let to = self.place(reader, writer).unwrap_or(from);
        let replies = Sequence::from_vec(replies);
        Ok(Round {
            replies,
            was_behind: m.pair.is_behind,
            unsent_before,
            last: m.pair.last,
            from,
            to,
        })
    }

    /// The writer and the reader with what a round needs, if they are matched.
    fn matched(&self, writer: Endpoint, reader: Endpoint) -> Option<Matched>
        ensures ends { IfSome result (λ m. (m.writer ≡ writer) × (m.reader ≡ reader)) }
        ensures known { (given : ℕ → ByEntity L) → MatchOption result
            (NotMatched (kept_of L.notices L.capacity L.becomes given self.now) writer reader)
            (IsKnown (kept_of L.notices L.capacity L.becomes given self.now)) }
    {
        let Some(index) = index_of_peer(writer.peer, self.count()) else {
            return None;
        };
        let core = &self.peers[index];
        match core.pair(writer.number, reader) {
            Some(pair) => Some(Matched {
                writer,
                reader,
                pair,
                moment: core.moment(),
            }),
            None => None,
        }
    }

    /// The number of the first packet to this peer with such a submessage, among those after so many.
    fn find(&self, from: u64, peer: u32, wanted: &Sought) -> Option<u64>
        ensures { MatchOption result
            (HasNone (IsTo peer wanted.now) self.now.sent from (length self.now.sent))
            (IsFirst (IsTo peer wanted.now) self.now.sent from (length self.now.sent)) }
    {
        for index in from as usize..self.sent.len() {
            if is_to(&self.sent[index], peer, wanted) {
                return Some(index as u64 + 1);
            }
        }
        None
    }

    /// One event by which nobody is met, whose reply is added.
    fn add_step(&mut self, event: WorldEvent, replies: &mut Vec<RoundReply>)
        requires quiet { NobodyIn event }
        requires room { vec_len replies.old < vec_capacity replies.old }
        ensures step { (reply : ReplyOf) × (replies.new.items ≡ replies.old.items ++ reply ∷ [])
            × IsStepIn F.meaning L.notices L.capacity L.becomes self.old event reply self.new }
        ensures filters { filters_of self.new ≡ filters_of self.old }
        ensures capacity { vec_capacity replies.old ≤ vec_capacity replies.new }
    {
        let reply = self.step(event);
        let (sent, unsent) = (self.sent(), self.unsent());
        let reply = RoundReply {
            reply,
            sent,
            unsent,
        };
        if replies.push(reply).is_err() {
            // The list was made with room for each reply.
            unreachable!();
        }
    }

    /// Delivers the writer's HEARTBEAT to the reader, if it is among the packets after so many, and what follows.
    fn deliver_heartbeat(&mut self, m: &Matched, from: u64, replies: &mut Vec<RoundReply>)
        requires room { vec_len replies.old + 258 ≤ vec_capacity replies.old }
        ensures adds { AddsIn L.notices L.capacity L.becomes
            (λ hearing. Beating (tests_in F.meaning self.old) m.now from)
            self.old replies.old.items self.new replies.new.items }
        ensures filters { filters_of self.new ≡ filters_of self.old }
    {
        let wanted = Sought::Heartbeat {
            writer: m.pair.writer,
        };
        let peer = m.reader.peer;
        let Some(packet) = self.find(from, peer, &wanted) else {
            return;
        };
        let sent = self.sent();
        self.add_step(WorldEvent::Deliver { peer, packet }, replies);
        self.deliver_acknack(m, sent, replies);
    }

    /// Delivers the reader's ACKNACK to the writer, if it is among the packets after so many, and its answers.
    fn deliver_acknack(&mut self, m: &Matched, from: u64, replies: &mut Vec<RoundReply>)
        requires room { vec_len replies.old + 257 ≤ vec_capacity replies.old }
        ensures adds { AddsIn L.notices L.capacity L.becomes
            (λ hearing. Acknowledging (tests_in F.meaning self.old) m.now from)
            self.old replies.old.items self.new replies.new.items }
        ensures filters { filters_of self.new ≡ filters_of self.old }
    {
        let wanted = Sought::AckNack {
            reader: m.pair.reader,
            writer: m.pair.writer,
        };
        let peer = m.writer.peer;
        let Some(packet) = self.find(from, peer, &wanted) else {
            return;
        };
        let sent = self.sent();
        self.add_step(WorldEvent::Deliver { peer, packet }, replies);
        self.deliver_answers(m.reader.peer, sent, replies);
    }

    /// Delivers the packets after so many at this peer, up to 256.
    fn deliver_answers(&mut self, peer: u32, from: u64, replies: &mut Vec<RoundReply>)
        requires room { vec_len replies.old + 256 ≤ vec_capacity replies.old }
        ensures adds { AddsIn L.notices L.capacity L.becomes
            (λ hearing. Answering (tests_in F.meaning self.old) peer from)
            self.old replies.old.items self.new replies.new.items }
        ensures filters { filters_of self.new ≡ filters_of self.old }
    {
        let count = self.sent().saturating_sub(from).min(MAX_ANSWERS);
        for index in 0..count {
            let packet = from + index + 1;
            self.add_step(WorldEvent::Deliver { peer, packet }, replies);
        }
    }
}
