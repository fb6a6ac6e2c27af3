//! What was done is stored, entry by entry.
//!
//! Histories and passes are this project's own.

ghost use Rattle.std.specs.Prelude.{◌≡◌};

use crate::keeping::{Handing, Keeping};
use dds_base::Code;
use dds_conditions::Filter;
use dds_core::Mindful;
use dds_notices::Listener;
use dds_protocol::{Event, Output};
use dds_trace::Entry;
use std::alloc::Global;

/// The entries are stored: the list grows with each event, and has no bound but memory.
///
/// Histories and passes are this project's own.
#[derive(Drop)]
pub struct Recorded {
    /// What was done, the oldest first.
    pub entries: Vec<Entry>,
}

impl Keeping for Recorded {
    ghost use Rattle.std.specs.Prelude.{◌≡◌, ◌-◌, ⊤, vec_capacity, vec_len};

    type Told = Event;

    type Twin = Output;

    ghost keeps = { λ k es. k.entries.items ≡ es };

    ghost room = { λ k. vec_capacity k.entries - vec_len k.entries };

    ghost tells = { λ t e. t ≡ e };

    ghost twins = { λ t o. t ≡ o };

    fn open(alloc: Global) -> Recorded {
        Recorded {
            entries: Vec::new(alloc),
        }
    }

    fn tell(event: &Event) -> Result<Event, Code> {
        Ok(event.clone()?)
    }

    fn own(event: Event) -> Event {
        event
    }

    fn reserve(&mut self, additional: usize) -> Result<(), Code> {
        self.entries.reserve(additional)?;
        Ok(())
    }

    fn step<F: Filter, L: Listener>(core: &mut Mindful<F, L>, event: Event) -> (Output, Output) {
        core.step_pair(event)
    }

    fn push(&mut self, seat: u32, told: Event, twin: Output) {
        self.entries.push_reserved(Entry {
            seat,
            event: told,
            output: twin,
        });
    }
}

impl Handing for Recorded {
    ghost use Rattle.std.specs.Prelude.{◌≡◌, ⊤};

    type Answer = ();

    ghost answers = { λ _ _. ⊤ };

    fn hand(&mut self, seat: u32, told: Event, output: Output) {
        self.push(seat, told, output);
    }

    fn output<'a>(&'a self, _: &'a ()) -> Option<&'a Output> {
        let entry = self.entries.last()?;
        Some(&entry.output)
    }
}
