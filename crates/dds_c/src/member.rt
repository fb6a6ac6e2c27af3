//! A participant and what came of its last event.
//!
//! The interface for C is this project's own.

ghost use Rattle.std.specs.Prelude.{◌≡◌};
ghost use Rattle.dds_machine.specs.declared.reply.Reply.TheVariants.{Done};
ghost use Rattle.dds_domain.specs.Participants.{Calls, Hears, Ticks};
ghost use Rattle.dds_c.specs.Partaking.{IsLeft, no_turn, number_of_lack};

use dds_base::{Code, Masks};
use dds_domain::{Participant, Turn};
use dds_machine::{Call, Reply};
use dds_script::Side;
use std::alloc::Global;

/// A participant, and what came of its last event.
#[derive(Drop)]
pub struct Member {
    pub participant: Participant,
    /// What is to be sent, and what changed.
    pub turn: Turn,
    /// What was answered: that it was done, where the event was no call.
    pub reply: Reply,
    /// Whose matches the last call looked at, if it was such a look.
    pub side: Side,
}

/// Whether memory was wanting in a turn: 100, else 0.
pub fn lack_of(turn: &Turn) -> u8
    ensures number { result ≡ number_of_lack turn.now.lacks_memory }
{
    if turn.lacks_memory {
        Code::Memory.number()
    } else {
        Code::Ok.number()
    }
}

impl Member {
    /// A participant of which no event was told yet.
    pub fn new(alloc: Global, participant: Participant) -> Member
        ensures participant { result.participant ≡ participant }
        ensures turn { result.turn ≡ no_turn }
        ensures reply { result.reply ≡ Done }
    {
        Member {
            participant,
            turn: Turn::new(alloc),
            reply: Reply::Done,
            side: Side::Reader,
        }
    }

    /// The last answer is no more.
    fn begin(&mut self, alloc: Global)
        ensures participant { self.new.participant ≡ self.old.participant }
        ensures turn { self.new.turn ≡ no_turn }
        ensures reply { self.new.reply ≡ Done }
    {
        self.turn = Turn::new(alloc);
        self.reply = Reply::Done;
    }

    /// A datagram comes from an address at a moment.
    pub fn hear(&mut self, alloc: Global, now: u64, address: &[u8; 4], datagram: &[u8])
        ensures hears { Hears Masks.ANY now address.now datagram.now self.old.participant no_turn
            self.new.participant self.new.turn }
        ensures reply { self.new.reply ≡ Done }
    {
        self.begin(alloc);
        self.participant
            .hear(now, address, datagram, &mut self.turn);
    }

    /// Time goes on to a moment.
    pub fn tick(&mut self, alloc: Global, now: u64)
        ensures ticks { Ticks now self.old.participant no_turn self.new.participant self.new.turn }
        ensures reply { self.new.reply ≡ Done }
    {
        self.begin(alloc);
        self.participant.tick(now, &mut self.turn);
    }

    /// It says that it leaves.
    pub fn leave(&mut self, alloc: Global)
        ensures leaves { IsLeft self.old.participant no_turn self.new.participant self.new.turn }
        ensures reply { self.new.reply ≡ Done }
    {
        self.begin(alloc);
        self.participant.close(&mut self.turn);
    }

    /// A call of the application.
    pub fn call(&mut self, alloc: Global, call: Call)
        ensures calls { Calls call self.old.participant no_turn self.new.reply
            self.new.participant self.new.turn }
    {
        self.begin(alloc);
        self.side = Side::of(&call);
        self.reply = self.participant.call(call, &mut self.turn);
    }
}
