//! The law of the traces of cores.
//!
//! Traces are this project's own.

ghost use Rattle.std.specs.Prelude.{ℕ, List};
ghost use Rattle.dds_base.specs.declared.config.Config.{Config};
ghost use Rattle.dds_notices.specs.Listeners.{ByEntity};
ghost use Rattle.dds_core.specs.Listening.{CoreKept};
ghost use Rattle.dds_trace.specs.Entries.{Traced};
ghost use Rattle.dds_trace.specs.Woven.{HonestOrdersRun};

use dds_conditions::Filter;
use dds_notices::Listener;

/// For all cores of which traces of different peers, which meet whom the configuration has, are histories, each honest
/// order of the entries is a run of the machine without packets, from the opening with the filters and the listeners'
/// places of the cores.
pub fn honest_orders_run<F: Filter, L: Listener>()
    // By what the filters of the cores mean.
    ensures run { (given : ℕ → ByEntity L) (config : Config) (cores : ℕ → CoreKept F L)
        (ts : List Traced)
        → HonestOrdersRun F.meaning L.notices L.capacity L.becomes given config cores ts }
{}
