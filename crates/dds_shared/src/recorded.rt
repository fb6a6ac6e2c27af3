//! A peer that threads share, and that records what was done.
//!
//! DDS 1.4, 2.2.2.1 (Entity, WaitSet). Passes and closing are this project's own.

ghost use Rattle.std.specs.Prelude.{◌≡◌, ◌++◌, ◌+◌, ◌<◌, ◌≤◌, length, max, All, OnOk, OnErr, IfErr, IfOk, ◌⊎◌};
ghost use Rattle.dds_base.specs.declared.code.Code.TheVariants.{Memory, Mismatch, PreconditionNotMet};
ghost use Rattle.dds_protocol.specs.declared.event.Event.TheVariants as event;
ghost use Rattle.dds_protocol.specs.declared.event.Output.{Output as OutputOf};
ghost use Rattle.dds_trace.specs.History.{IsHistoryOf};
ghost use Rattle.dds_shared.specs.Passes.{IsAsBefore, Lists, SameSeats, lists_of, unused};
ghost use Rattle.dds_shared.specs.Seeds.{listeners_in, slots_shown};
ghost use Rattle.dds_shared.specs.Waits.{Answered, Failed};

use crate::locked::Left;
use crate::named::Named;
use crate::pass::Pass;
use crate::seed::Seed;
use crate::shared::{NotClosed, Shared};
use dds_base::{Code, Moment, Octets};
use dds_conditions::Filter;
use dds_core::Core;
use dds_keeping::Recorded;
use dds_machine::Call;
use dds_notices::Listener;
use dds_protocol::Event;
use dds_trace::Trace;
use std::sync::Wait;

/// What a closed peer leaves.
#[derive(Drop)]
pub struct Closed<F: Filter, L: Listener> {
    /// What the peer did, in the order in which it did it.
    pub trace: Trace,
    /// The peer, which one thread may use on.
    pub core: Core<F, L>,
}

impl<N: Named<F, L>, F: Filter, L: Listener> Shared<N, F, L, Recorded, Recorded> {
    /// Shares a peer under its name, and gives the first pass. It takes no memory.
    pub fn open(seed: Seed<F, L>) -> (Shared<N, F, L>, Pass<N>)
        // The name is that of the seed.
        requires name { (seed.name ≡ N.name) × (seed.parts ≡ N.parts) × (seed.word ≡ N.word) }
        // It is of the seed's peer, with the filters and the listeners that this has.
        requires of { (seed.config ≡ N.config) × (seed.peer ≡ N.peer) }
        requires set { (seed.core.filtered.filters ≡ N.filters) × (seed.core.listeners ≡ N.slots) }
        // The pass did nothing yet, and has seen nothing.
        ensures pass { result.1 ≡ unused 1 result.1.spare 0 }
    {
        Shared::of_seed(seed)
    }

    /// Joins a pass into another, with its list and with what it has seen.
    ///
    /// # Errors
    ///
    /// `Memory` where a growth was refused. The pass comes back, and nothing changes.
    pub fn join_pass(&self, pass: &mut Pass<N>, other: Pass<N>) -> Result<(), (Code, Pass<N>)>
        // Its entries follow, the greater front is kept, and the seat stays.
        ensures ok { OnOk result (pass.new ≡ record pass.old {
          list = pass.old.list ++ other.list;
          spare = pass.new.spare;
          parts = pass.old.parts + other.parts;
          front = max pass.old.front other.front;
        }) }
        // A refusal is for want of memory, and changes nothing.
        ensures refused { IfErr result (λ e. e.0 ≡ Memory) }
        ensures back { IfErr result (λ e. e.1 ≡ other) }
        ensures err { OnErr result (IsAsBefore pass.old pass.new) }
    {
        pass.join(&self.word, other)
    }

    /// Ends with the trace and the peer, if all passes are handed in. It takes no memory, and one step for each pass.
    ///
    /// # Errors
    ///
    /// `PreconditionNotMet` where a pass is missing. The peer and its passes come back.
    pub fn close(self, passes: Vec<Pass<N>>) -> Result<Closed<F, L>, NotClosed<N, F, L>>
        // The trace is of this peer, and a history of it: what was done leads from its opening to it.
        ensures history { IfOk result (λ closed. IsHistoryOf F.meaning L.notices L.capacity L.becomes
            (listeners_in N.slots) N.config N.peer closed.trace.entries closed.core) }
        ensures named { IfOk result (λ closed. closed.trace.peer ≡ N.peer) }
        // It has the filters that it was shared with, and at each entity the listener's statuses and room.
        ensures filters { IfOk result (λ closed. closed.core.filtered.filters ≡ N.filters) }
        ensures slots { IfOk result
            (λ closed. slots_shown L.capacity closed.core.listeners ≡ slots_shown L.capacity N.slots) }
        // The entries of each seat are what the passes hold of it, in order, and there are no others.
        ensures lists { IfOk result (λ closed. SameSeats closed.trace.entries passes.items) }
        ensures complete { IfOk result
            (λ closed. length closed.trace.entries ≡ length (lists_of passes.items)) }
        // No pass has seen more entries than there are.
        ensures fronts { IfOk result
            (λ closed. All (λ p. p.front ≤ length closed.trace.entries) passes.items) }
        // A refusal has one of two causes, of which the second can't be; and the passes come back.
        ensures refused { IfErr result
            (λ e. (e.code ≡ PreconditionNotMet) ⊎ (e.code ≡ Mismatch)) }
        ensures missing { IfErr result (λ e. e.code ≡ PreconditionNotMet) }
        ensures back { IfErr result (λ e. e.passes.items ≡ passes.items) }
    {
        let Left { core, peer, trace } = self.end(passes)?;
        let trace = Trace::from_entries(peer, trace.entries);
        Ok(Closed { trace, core })
    }

    /// Does a call. What answers it stands at the end of the pass's list. `docs/DECISIONS.md`, "Threads and links".
    ///
    /// # Errors
    ///
    /// `Memory` where a growth was refused: then nothing happened. What the peer itself refuses is an answer.
    pub fn call<R: Wait>(&self, rt: &R, pass: &mut Pass<N>, call: Call) -> Result<(), Code>
        // The list has one entry more: this call, with its answer.
        ensures ok { OnOk result ((o : OutputOf) × Lists pass.old pass.new (event.Call call) o) }
        // The entry stands above what the pass had seen; then it has seen it.
        ensures front { OnOk result (pass.old.front < pass.new.front) }
        // A refusal is for want of memory, and changes nothing.
        ensures refused { IfErr result (λ code. code ≡ Memory) }
        ensures err { OnErr result (IsAsBefore pass.old pass.new) }
    {
        self.event(rt, pass, Event::Call(call))
    }

    /// The peer's time goes on to this moment, as by `Event::Tick`.
    ///
    /// # Errors
    ///
    /// `Memory` where a growth was refused: then nothing happened.
    pub fn tick<R: Wait>(&self, rt: &R, pass: &mut Pass<N>, now: Moment) -> Result<(), Code>
        // The list has one entry more: this tick, with its answer.
        ensures ok { OnOk result ((o : OutputOf) × Lists pass.old pass.new (event.Tick now) o) }
        // The entry stands above what the pass had seen; then it has seen it.
        ensures front { OnOk result (pass.old.front < pass.new.front) }
        // A refusal is for want of memory, and changes nothing.
        ensures refused { IfErr result (λ code. code ≡ Memory) }
        ensures err { OnErr result (IsAsBefore pass.old pass.new) }
    {
        self.event(rt, pass, Event::Tick(now))
    }

    /// The bytes of a packet come, whatever they are.
    ///
    /// # Errors
    ///
    /// `Memory` where a growth was refused: then nothing happened.
    pub fn deliver<R: Wait>(&self, rt: &R, pass: &mut Pass<N>, bytes: Octets) -> Result<(), Code>
        // The list has one entry more: this delivery, with its report.
        ensures ok { OnOk result ((o : OutputOf) × Lists pass.old pass.new (event.Deliver bytes) o) }
        // The entry stands above what the pass had seen; then it has seen it.
        ensures front { OnOk result (pass.old.front < pass.new.front) }
        // A refusal is for want of memory, and changes nothing.
        ensures refused { IfErr result (λ code. code ≡ Memory) }
        ensures err { OnErr result (IsAsBefore pass.old pass.new) }
    {
        self.event(rt, pass, Event::Deliver(bytes))
    }

    /// The bytes of a packet come, whatever they are, and stay where they are: what is recorded is a copy.
    ///
    /// # Errors
    ///
    /// `Memory` where a growth was refused: then nothing happened.
    pub fn deliver_copy<R: Wait>(
        &self,
        rt: &R,
        pass: &mut Pass<N>,
        octets: &[u8],
    ) -> Result<(), Code>
        // The list has one entry more: this delivery, with its report.
        ensures ok { OnOk result ((o : OutputOf) × Lists pass.old pass.new (event.Deliver octets.now) o) }
        // The entry stands above what the pass had seen; then it has seen it.
        ensures front { OnOk result (pass.old.front < pass.new.front) }
        // A refusal is for want of memory, and changes nothing.
        ensures refused { IfErr result (λ code. code ≡ Memory) }
        ensures err { OnErr result (IsAsBefore pass.old pass.new) }
    {
        let bytes = Octets::from_vec(Vec::from_slice(self.alloc, octets)?);
        self.event(rt, pass, Event::Deliver(bytes))
    }

    /// The places of a reader are tried again, as by `Event::Resume`: after a take that made room.
    ///
    /// # Errors
    ///
    /// `Memory` where a growth was refused: then nothing happened. What the peer itself refuses is an answer.
    pub fn resume<R: Wait>(&self, rt: &R, pass: &mut Pass<N>, reader: u8) -> Result<(), Code>
        // The list has one entry more: this reader's places that are tried again, with the report.
        ensures ok { OnOk result ((o : OutputOf) × Lists pass.old pass.new (event.Resume reader) o) }
        // The entry stands above what the pass had seen; then it has seen it.
        ensures front { OnOk result (pass.old.front < pass.new.front) }
        // A refusal is for want of memory, and changes nothing.
        ensures refused { IfErr result (λ code. code ≡ Memory) }
        ensures err { OnErr result (IsAsBefore pass.old pass.new) }
    {
        self.event(rt, pass, Event::Resume { reader })
    }

    /// Waits in a WaitSet of the peer until a condition of it is true, or the peer's time has come to the deadline. The
    /// answer stands at the end of the pass's list: `Active`, or `Refused` with `Timeout`; or what refused the wait
    /// (`BadParameter` for a WaitSet that was not made, `PreconditionNotMet` where somebody waits in it), or another
    /// pass's end of it. It is never `Waiting`, and nobody waits in the WaitSet afterwards.
    ///
    /// The lock is let go between looks. A look follows each event of another pass; where there is none, nobody looks.
    ///
    /// # Errors
    ///
    /// `Memory` where a growth was refused: then nothing happened, or what was entered of the wait ends it.
    ///
    /// DDS 1.4, 2.2.2.1 (WaitSet, wait).
    pub fn wait<R: Wait>(
        &self,
        rt: &R,
        pass: &mut Pass<N>,
        wait_set: u32,
        deadline: Moment,
    ) -> Result<(), Code>
        // The list has the begin of the wait, and its looks; the last one answers.
        ensures ok { OnOk result (Answered pass.old pass.new wait_set deadline) }
        // What the pass has seen does not fall.
        ensures front { pass.old.front ≤ pass.new.front }
        // A refusal is for want of memory, and ends the wait.
        ensures refused { IfErr result (λ code. code ≡ Memory) }
        ensures err { OnErr result (Failed pass.old pass.new wait_set deadline) }
    {
        self.wait_in(rt, pass, wait_set, deadline)
    }
}
