//! What was done is only known.
//!
//! Histories and passes are this project's own.

ghost use Rattle.std.specs.Prelude.{◌≡◌};

use crate::keeping::{Handing, Keeping};
use dds_base::Code;
use dds_conditions::Filter;
use dds_core::Mindful;
use dds_notices::Listener;
use dds_protocol::{Event, Output};
use std::alloc::Global;
use std::snapshot::Snapshot;

/// Nothing is stored: the list takes no memory, and what an event gave is handed out.
///
/// Histories and passes are this project's own.
#[derive(Drop)]
pub struct Counted;

impl Keeping for Counted {
    ghost use Rattle.std.specs.Prelude.{◌≡◌, ⊤};

    type Told = Snapshot<Event>;

    type Twin = Snapshot<Output>;

    ghost keeps = { λ _ _. ⊤ };

    ghost room = { λ _. 18446744073709551615 };

    ghost tells = { λ t e. t.value ≡ e };

    ghost twins = { λ t o. t.value ≡ o };

    fn open(_: Global) -> Counted {
        Counted
    }

    #[inline(always)]
    fn tell(event: &Event) -> Result<Snapshot<Event>, Code> {
        Ok(Snapshot::of(event))
    }

    #[inline(always)]
    fn own(event: Event) -> Snapshot<Event> {
        Snapshot::of(&event)
    }

    #[inline(always)]
    fn reserve(&mut self, _: usize) -> Result<(), Code> {
        Ok(())
    }

    #[inline(always)]
    fn step<F: Filter, L: Listener>(
        core: &mut Mindful<F, L>,
        event: Event,
    ) -> (Output, Snapshot<Output>) {
        let output = core.step(event);
        let twin = Snapshot::of(&output);
        (output, twin)
    }

    #[inline(always)]
    fn push(&mut self, _: u32, _: Snapshot<Event>, _: Snapshot<Output>) {}
}

impl Handing for Counted {
    ghost use Rattle.std.specs.Prelude.{◌≡◌, ⊤};

    type Answer = Output;

    ghost answers = { λ a o. a ≡ o };

    #[inline(always)]
    fn hand(&mut self, _: u32, _: Snapshot<Event>, output: Output) -> Output {
        output
    }

    fn output<'a>(&'a self, answer: &'a Output) -> Option<&'a Output> {
        Some(answer)
    }
}
