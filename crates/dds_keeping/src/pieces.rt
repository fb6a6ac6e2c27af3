//! What was done is stored until it is handed out.
//!
//! Histories and passes are this project's own.

ghost use Rattle.std.specs.Prelude.{◌≡◌};

use crate::keeping::Keeping;
use crate::recorded::Recorded;
use dds_base::Code;
use dds_conditions::Filter;
use dds_core::Mindful;
use dds_notices::Listener;
use dds_protocol::{Event, Output};
use std::alloc::Global;

/// The newest entries are stored: those before them were handed out.
///
/// Histories and passes are this project's own.
#[derive(Drop)]
pub struct Pieces {
    /// What was done since entries were handed out last.
    pub newest: Recorded,
    /// How many entries were handed out.
    pub cut: u64,
}

impl Keeping for Pieces {
    ghost use Rattle.std.specs.Prelude.{◌≡◌, ◌++◌, ◌-◌, ⊤, List, length, vec_capacity, vec_len};
    ghost use Rattle.dds_trace.specs.declared.trace.Entry.{Entry};

    type Told = Event;

    type Twin = Output;

    ghost keeps = { λ k es. (first : List Entry) × (length first ≡ k.cut)
        × (es ≡ first ++ k.newest.entries.items) };

    ghost room = { λ k. vec_capacity k.newest.entries - vec_len k.newest.entries };

    ghost tells = { λ t e. t ≡ e };

    ghost twins = { λ t o. t ≡ o };

    fn open(alloc: Global) -> Pieces {
        Pieces {
            newest: Recorded::open(alloc),
            cut: 0,
        }
    }

    fn tell(event: &Event) -> Result<Event, Code> {
        Recorded::tell(event)
    }

    fn own(event: Event) -> Event {
        event
    }

    fn reserve(&mut self, additional: usize) -> Result<(), Code> {
        self.newest.reserve(additional)
    }

    fn step<F: Filter, L: Listener>(core: &mut Mindful<F, L>, event: Event) -> (Output, Output) {
        core.step_pair(event)
    }

    fn push(&mut self, seat: u32, told: Event, twin: Output) {
        self.newest.push(seat, told, twin);
    }
}
