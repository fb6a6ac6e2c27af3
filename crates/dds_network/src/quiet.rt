//! The filters and the listeners of a network of builtin endpoints: there are none.
//!
//! DDS 1.4, 2.2.2.5 (QueryCondition), 2.2.4.3 (access through listeners).

ghost use Rattle.std.specs.Prelude.{◌≡◌};

use dds_base::Key;
use dds_conditions::Filter;
use dds_notices::{Listener, Notice};

/// A filter that nothing passes.
#[derive(Clone, Copy)]
pub struct NoFilter;

impl Filter for NoFilter {
    ghost use Rattle.dds_network.specs.Quiet.{nothing_passes};

    ghost meaning = { nothing_passes };

    fn passes(&self, _: &Key, _: &[u8]) -> bool {
        false
    }
}

/// A listener that keeps nothing of what it is told.
#[derive(Clone, Copy)]
pub struct NoListener;

impl Listener for NoListener {
    ghost use Rattle.dds_network.specs.Quiet.{keeps_nothing, has_no_room, stays_as_it_is};

    ghost notices = { keeps_nothing };

    ghost capacity = { has_no_room };

    ghost becomes = { stays_as_it_is };

    fn room(&self) -> usize {
        0
    }

    fn is_fresh(&self) -> bool {
        true
    }

    fn held(&self, _: usize) -> Option<Notice> {
        None
    }

    fn on_notice(&mut self, _: &Notice) {}
}
