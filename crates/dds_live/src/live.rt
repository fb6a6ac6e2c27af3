//! A participant on the network.
//!
//! `specs/Turns.antt` says it.
//!
//! DDS 1.4, 2.2.2.2.1 (DomainParticipant); RTPS 2.5, 8.5 (discovery).

ghost use Rattle.std.specs.Prelude.{◌≡◌, ◌⊎◌, Err, IfErr, IfOk, OnErr, OnOk};
ghost use Rattle.dds_live.specs.Turns.{HearsAll, HearsAny, MakesCall, SaysFarewell, TakesTurn, TicksOne};
ghost use Rattle.dds_live.specs.Moments.{moment_after};

use crate::failure::Failure;
use crate::moments::Moments;
use crate::port::Port;
use dds_base::Masks;
use dds_domain::{Participant, Turn};
use dds_machine::{Call, Reply};
use rtps_announcements::Locator;
use std::marker::Model;
use std::os::fd::RawFd;
use std::time::{Clock, Duration};

/// How many datagrams one turn takes at most.
const MOST_DATAGRAMS: u32 = 64;

/// A participant, its socket, and when that was opened. All moments are in units of 2^-32 second.
///
/// DDS 1.4, 2.2.2.2.1 (DomainParticipant).
#[derive(Drop)]
pub struct Live {
    participant: Participant,
    port: Port,
    moments: Moments,
}

impl Model for Live {
    ghost use Rattle.dds_live.specs.States.{State};

    ghost Value = { State };

    ghost view = { λ l. record {
      participant = l.participant;
      locator = l.port.locator;
      moments = l.moments;
    } };
}

impl Live {
    /// A participant at this socket.
    pub(crate) fn at(participant: Participant, port: Port, moments: Moments) -> Live
        ensures { result ≡ record { participant = participant; locator = port.locator; moments = moments } }
    {
        Live {
            participant,
            port,
            moments,
        }
    }

    /// The participant: who is there, which endpoints are known and which do not fit, with whom ours are matched, whether
    /// somebody is behind.
    pub fn participant(&self) -> &Participant
        ensures participant { result.now ≡ self.now.participant }
    {
        &self.participant
    }

    /// Where its socket is.
    pub fn locator(&self) -> Locator
        ensures kept { result ≡ self.now.locator }
    {
        self.port.locator
    }

    /// The time since that was opened.
    ///
    /// # Errors
    ///
    /// `ClockFailed`.
    pub fn elapsed<R: Clock>(&self, rt: &R) -> Result<Duration, Failure>
        // The clock is all that fails.
        ensures refused { IfErr result (λ e. e ≡ Failure.ClockFailed) }
    {
        self.moments.elapsed(rt)
    }

    /// The moment so long after it: in units of 2^-32 second since 1970, as the wall clock was then.
    pub fn after(&self, elapsed: Duration) -> u64
        ensures later { result ≡ moment_after self.now.moments elapsed }
    {
        self.moments.after(elapsed)
    }

    /// Waits until a datagram is there, or the other file has something or ends, where one is said: so long at most.
    /// Answers whether the latter is so.
    pub fn wait(&self, other: Option<RawFd>, longest: Duration) -> bool {
        self.port.wait(other, longest)
    }

    /// Hears the next datagram, where one is there; whether one was. What comes of it is in the turn.
    ///
    /// # Errors
    ///
    /// `SocketFailed`: then nothing changes.
    pub fn hear(&mut self, moment: u64, turn: &mut Turn) -> Result<bool, Failure>
        // It is heard by the participant, and nothing else changes.
        ensures heard { IfOk result (λ came. HearsAny Masks.ANY came moment self.old turn.old self.new turn.new) }
        ensures refused { IfErr result (λ e. e ≡ Failure.SocketFailed) }
        ensures err { OnErr result ((self.new ≡ self.old) × (turn.new ≡ turn.old)) }
    {
        if !self.port.take()? {
            return Ok(false);
        }
        let (source, octets) = (self.port.source(), self.port.octets());
        self.participant.hear(moment, source, octets, turn);
        Ok(true)
    }

    /// Hears what is there, 64 datagrams at most.
    #[tactic(auto, using(crate::proofs::Laws::heard_next, crate::proofs::Laws::heard_all, crate::proofs::Laws::heard_through))]
    fn hear_all(&mut self, moment: u64, turn: &mut Turn) -> Result<(), Failure>
        ensures heard { HearsAll Masks.ANY moment self.old turn.old self.new turn.new }
        ensures refused { IfErr result (λ e. e ≡ Failure.SocketFailed) }
    {
        for _count in 0..MOST_DATAGRAMS {
            match self.hear(moment, turn) {
                Ok(true) => {}
                Ok(false) => break,
                Err(_) => return Err(Failure::SocketFailed),
            }
        }
        Ok(())
    }

    /// Time goes on.
    pub fn tick(&mut self, moment: u64, turn: &mut Turn)
        // It does at the participant, and nothing else changes.
        ensures ticked { TicksOne moment self.old turn.old self.new turn.new }
    {
        self.participant.tick(moment, turn);
    }

    /// Sends all that a turn has to send. What the system does not take is lost.
    pub fn send(&self, turn: &Turn) {
        for datagram in turn.datagrams.iter() {
            self.port.send(datagram);
        }
    }

    /// A turn: waits for a datagram, so long at most, hears what came, has time go on, and sends what goes. Who appeared
    /// or is gone and what changed of who is matched stands in `turn`, behind what stood there, and what was sent in place
    /// of what was sent before.
    ///
    /// # Errors
    ///
    /// `ClockFailed`: then nothing changes. `SocketFailed`: then nothing more is heard, and all else is done.
    pub fn turn<R: Clock>(
        &mut self,
        rt: &R,
        longest: Duration,
        turn: &mut Turn,
    ) -> Result<(), Failure>
        // 64 datagrams at most are heard, and then time goes on, all at one moment of the clock; or the clock failed.
        ensures turned { TakesTurn Masks.ANY self.old turn.old self.new turn.new
            ⊎ ((result ≡ Err Failure.ClockFailed) × (self.new ≡ self.old) × (turn.new ≡ turn.old)) }
        ensures refused { IfErr result (λ e. (e ≡ Failure.ClockFailed) ⊎ (e ≡ Failure.SocketFailed)) }
    {
        self.wait(None, longest);
        let elapsed = self.elapsed(rt)?;
        let moment = self.after(elapsed);
        turn.datagrams.clear();
        let heard = self.hear_all(moment, turn);
        self.tick(moment, turn);
        self.send(turn);
        heard
    }

    /// A call of the application, by the number of its writer or reader. What it gave is sent, and stands in `turn` in
    /// place of what was sent before.
    ///
    /// DDS 1.4, 2.2.2.4 and 2.2.2.5 (DataWriter, DataReader).
    pub fn call(&mut self, call: Call, turn: &mut Turn) -> Reply
        // It is one of the participant, and nothing else changes.
        ensures called { MakesCall call self.old turn.old result self.new turn.new }
    {
        turn.datagrams.clear();
        let reply = self.participant.call(call, turn);
        self.send(turn);
        reply
    }

    /// Says that we leave, to all that are told of us and to each participant: likewise.
    ///
    /// RTPS 2.5, 8.5.3 (SPDP).
    pub fn close(&self, turn: &mut Turn)
        // These are sent.
        ensures closed { SaysFarewell self.now turn.old turn.new }
    {
        turn.datagrams.clear();
        self.participant.close(turn);
        self.send(turn);
    }
}
