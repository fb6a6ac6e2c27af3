//! The gates of the program's pair.
//!
//! They are this project's own.

ghost use Rattle.std.specs.Prelude.{◌≡◌, true, false};

use crate::gate::Gate;
use crate::turn::Turn;
use dds_base::Moment;
use std::marker::Model;
use std::sync::Arc;
use std::sync::atomic::{AtomicBool, Ordering};

// How many turns a worker takes at most.
const MAX_TURNS: u64 = 1_000_000;

// Every so many turns the peer's time goes on, where it does.
const TURNS_A_TICK: u64 = 64;

/// The gate of one of two workers that end together: it stops once `done` is set, or after 1,000,000 turns, whichever
/// comes first.
///
/// Gates are this project's own.
#[derive(Drop)]
pub struct PairGate {
    done: Arc<AtomicBool>,
    turns: u64,
    ticks: bool,
}

impl Model for PairGate {
    ghost use Rattle.dds_pair.specs.Gating.{Said};

    ghost Value = { Said };

    ghost view = { λ gate. record { turns = gate.turns; ticks = gate.ticks } };
}

impl PairGate {
    /// It receives in each turn.
    pub fn receiving(done: Arc<AtomicBool>) -> PairGate
        // It said no turn yet.
        ensures fresh { (result.turns ≡ 0) × (result.ticks ≡ false) }
    {
        PairGate {
            done,
            turns: 0,
            ticks: false,
        }
    }

    /// It ticks in each 64th turn, with the number of the turn as moment, and receives in the others.
    pub fn ticking(done: Arc<AtomicBool>) -> PairGate
        // It said no turn yet.
        ensures fresh { (result.turns ≡ 0) × (result.ticks ≡ true) }
    {
        PairGate {
            done,
            turns: 0,
            ticks: true,
        }
    }
}

impl Gate for PairGate {
    ghost use Rattle.std.specs.Prelude.{◌≡◌};
    ghost use Rattle.dds_pair.specs.Gating.{SaysTurn};

    ghost says = { λ gate turn after.
        SaysTurn gate.ticks gate.turns turn after.turns × (after.ticks ≡ gate.ticks) };

    fn turn(&mut self) -> Turn {
        if self.turns >= MAX_TURNS || self.done.load(Ordering::SeqCst) {
            return Turn::Stop;
        }
        self.turns += 1;
        if self.ticks && self.turns % TURNS_A_TICK == 0 {
            Turn::Tick(Moment::new(self.turns))
        } else {
            Turn::Receive
        }
    }
}
