//! Waits that are over.
//!
//! DDS 1.4, 2.2.2.1 (WaitSet, wait). Passes are this project's own.

ghost use Rattle.std.specs.Prelude.{◌≡◌, length};
ghost use Rattle.dds_trace.specs.Uses.{IsInUse};

use crate::locked::Locked;
use crate::named::Named;
use dds_conditions::Filter;
use dds_keeping::Keeping;
use dds_notices::Listener;
use std::marker::Model;

/// Shows that nobody waited in a WaitSet when its peer had so many entries: `Locked::over` alone makes one.
#[derive(Drop)]
pub struct Over {
    wait_set: u32,
    at: u64,
}

impl Model for Over {
    ghost use Rattle.dds_shared.specs.Passes.{GaveUp};

    ghost Value = { GaveUp };

    ghost view = { λ o. record { wait_set = o.wait_set; at = o.at } };
}

impl<N: Named<F, L>, F: Filter, L: Listener, T: Keeping> Locked<N, F, L, T> {
    /// Shows that nobody waits in a WaitSet.
    pub fn over(&self, wait_set: u32) -> Over
        requires unused { IsInUse self.now.core wait_set → ⊥ }
        ensures over { result ≡ record { wait_set = wait_set; at = length self.now.entries } }
    {
        Over {
            wait_set,
            at: self.tally.done(),
        }
    }
}
