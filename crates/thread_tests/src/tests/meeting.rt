//! Gates of two workers that have to run at the same time.

use dds_pair::{Gate, PairGate, Turn};
use std::sync::atomic::{AtomicBool, Ordering};
use std::thread;

// How often the first gate looks for the second one.
const MOST_LOOKS: u32 = 1_000_000;

// The gate of the second worker, which shows that it was asked.
#[derive(Drop)]
pub struct Showing<'a> {
    pub asked: &'a AtomicBool,
    pub gate: PairGate,
}

impl<'a> Gate for Showing<'a> {
    ghost use Rattle.std.specs.Prelude.{⊤};

    ghost says = { λ _ _ _. ⊤ };

    fn turn(&mut self) -> Turn {
        self.asked.store(true, Ordering::SeqCst);
        self.gate.turn()
    }
}

// The gate of the first worker, which holds its first turn until the second worker's gate was asked, and else stops.
#[derive(Drop)]
pub struct Holding<'a> {
    pub asked: &'a AtomicBool,
    pub gate: PairGate,
}

// Whether it was asked, after so many looks at most.
fn was_asked(asked: &AtomicBool) -> bool {
    for _ in 0..MOST_LOOKS {
        if asked.load(Ordering::SeqCst) {
            return true;
        }
        thread::yield_now();
    }
    false
}

impl<'a> Gate for Holding<'a> {
    ghost use Rattle.std.specs.Prelude.{⊤};

    ghost says = { λ _ _ _. ⊤ };

    fn turn(&mut self) -> Turn {
        if was_asked(self.asked) {
            self.gate.turn()
        } else {
            Turn::Stop
        }
    }
}
