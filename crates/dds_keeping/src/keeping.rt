//! What is kept of that which was done.
//!
//! Histories and passes are this project's own.

ghost use Rattle.std.specs.Prelude.{◌≡◌, ◌≤◌};
ghost use Rattle.dds_base.specs.declared.code.Code.TheVariants.{Memory};

use dds_base::Code;
use dds_conditions::Filter;
use dds_core::Mindful;
use dds_notices::Listener;
use dds_protocol::{Event, Output};
use std::alloc::Global;

/// A list of what was done: that of a peer, or that of a pass. `keeps` says for which entries it stands: one that is
/// stored for those that it stores, one that is only known for any.
///
/// Histories and passes are this project's own.
pub trait Keeping: Drop {
    ghost use Rattle.std.specs.Prelude.{◌≡◌, ◌++◌, ◌∷◌, [], ◌≤◌, ◌<◌, ◌+◌, ℕ, List, OnOk, OnErr, IfOk, IfErr};
    ghost use Rattle.dds_base.specs.declared.code.Code.TheVariants.{Memory};
    ghost use Rattle.dds_conditions.specs.Filtered.{tests_of};
    ghost use Rattle.dds_protocol.specs.declared.event.Event.{Event};
    ghost use Rattle.dds_protocol.specs.declared.event.Output.{Output};
    ghost use Rattle.dds_core.specs.Listening.{Steps};
    ghost use Rattle.dds_trace.specs.declared.trace.Entry.{Entry};
    ghost use Rattle.dds_trace.specs.History.{entry_of};

    /// What is kept of an event, from before it is done.
    type Told: Drop;

    /// What is kept of an output beside the one that is handed on.
    type Twin: Drop;

    /// Of which entries it may be.
    ghost keeps: { Self → List Entry → Type 0 };

    /// For how many entries more there is room.
    ghost room: { Self → ℕ };

    /// Of which event this is kept.
    ghost tells: { Self.Told → Event → Type 0 };

    /// Of which output this is kept.
    ghost twins: { Self.Twin → Output → Type 0 };

    /// A list of nothing. It takes no memory.
    fn open(alloc: Global) -> Self
        ensures nothing { keeps result [] };

    /// What is kept of an event that is done later.
    ///
    /// # Errors
    ///
    /// `Memory` where a growth was refused.
    fn tell(event: &Event) -> Result<Self::Told, Code>
        ensures ok { IfOk result (λ told. tells told event.now) }
        ensures refused { IfErr result (λ code. code ≡ Memory) };

    /// What is kept of an event that is handed in. It takes no memory.
    fn own(event: Event) -> Self::Told
        ensures told { tells result event };

    /// Makes room for so many entries more.
    ///
    /// # Errors
    ///
    /// `Memory` where a growth was refused.
    fn reserve(&mut self, additional: usize) -> Result<(), Code>
        ensures room { OnOk result (additional ≤ room self.new) }
        ensures more { room self.old ≤ room self.new }
        // It stays of the same entries.
        ensures same { (es : List Entry) → keeps self.old es → keeps self.new es }
        ensures refused { IfErr result (λ code. code ≡ Memory) };

    /// Has one event done by a peer, and gives its output, and what is kept of it.
    fn step<F: Filter, L: Listener>(core: &mut Mindful<F, L>, event: Event) -> (Output, Self::Twin)
        ensures step { Steps L.notices L.capacity L.becomes
            (tests_of F.meaning core.old.filtered.filters) core.old event result.0 core.new }
        ensures twin { twins result.1 result.0 };

    /// Enters an event of this seat, with what is kept of its output. It takes no memory.
    fn push(&mut self, seat: u32, told: Self::Told, twin: Self::Twin)
        requires room { 0 < room self.old }
        ensures entered { (es : List Entry) (e : Event) (o : Output) → keeps self.old es → tells told e → twins twin o
            → keeps self.new (es ++ entry_of seat e o ∷ []) }
        ensures less { room self.old ≤ room self.new + 1 };
}

/// A list of what was done with a pass, of which each output goes to the caller, or is stored and shown to it.
///
/// Passes are this project's own.
pub trait Handing: Keeping {
    ghost use Rattle.std.specs.Prelude.{◌≡◌, ◌++◌, ◌∷◌, [], ◌≤◌, ◌<◌, ◌+◌, ℕ, List, MatchOption};
    ghost use Rattle.dds_protocol.specs.declared.event.Event.{Event};
    ghost use Rattle.dds_protocol.specs.declared.event.Output.{Output};
    ghost use Rattle.dds_trace.specs.declared.trace.Entry.{Entry};
    ghost use Rattle.dds_trace.specs.History.{entry_of};

    /// What the caller gets of an output.
    type Answer: Drop;

    /// Which output the caller was told of by this.
    ghost answers: { Self.Answer → Output → Type 0 };

    /// Enters an event of this seat with its output, and gives what the caller gets. It takes no memory.
    fn hand(&mut self, seat: u32, told: Self::Told, output: Output) -> Self::Answer
        requires room { 0 < Self.room self.old }
        ensures entered { (es : List Entry) (e : Event) → Self.keeps self.old es → Self.tells told e
            → Self.keeps self.new (es ++ entry_of seat e output ∷ []) }
        ensures answer { answers result output }
        ensures less { Self.room self.old ≤ Self.room self.new + 1 };

    /// The output of the event that was entered last, of which the caller got this. It is there wherever one was entered.
    fn output<'a>(&'a self, answer: &'a Self::Answer) -> Option<&'a Output>
        ensures output { (es : List Entry) (seat : ℕ) (e : Event) (o : Output)
            → Self.keeps self.now (es ++ entry_of seat e o ∷ []) → answers answer.now o
            → MatchOption result ⊥ (λ it. it.now ≡ o) };
}
