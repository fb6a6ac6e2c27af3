//! A peer that threads share and of which nothing is stored (`Flat`), so that its memory is that of the peer alone; and
//! the calls of any peer whose passes store nothing.
//!
//! DDS 1.4, 2.2.2.1 (Entity, WaitSet). Passes and closing are this project's own.

ghost use Rattle.std.specs.Prelude.{◌≡◌, ◌++◌, ◌+◌, ◌<◌, ◌≤◌, max, OnOk, OnErr, IfErr, IfOk};
ghost use Rattle.dds_base.specs.declared.code.Code.TheVariants.{Memory, PreconditionNotMet};
ghost use Rattle.dds_protocol.specs.declared.event.Event.TheVariants as event;
ghost use Rattle.dds_shared.specs.Closings.{HasHistory};
ghost use Rattle.dds_shared.specs.Passes.{IsAsBefore, Lists, unused};
ghost use Rattle.dds_shared.specs.Seeds.{listeners_in, slots_shown};
ghost use Rattle.dds_shared.specs.Waits.{AnsweredWith, Failed};

use crate::named::Named;
use crate::pass::Pass;
use crate::seed::Seed;
use crate::shared::{NotClosed, Shared};
use dds_base::{Code, Moment};
use dds_conditions::Filter;
use dds_core::Core;
use dds_keeping::{Counted, Keeping};
use dds_machine::Call;
use dds_notices::Listener;
use dds_protocol::{Event, Output};
use std::sync::Wait;

/// A peer that threads share, of which nothing is recorded.
pub type Flat<N, F, L> = Shared<N, F, L, Counted, Counted>;

/// A pass of a peer of which nothing is recorded: what was done with it is known in proofs alone.
pub type FlatPass<N> = Pass<N, Counted>;

impl<N: Named<F, L>, F: Filter, L: Listener, T: Keeping> Shared<N, F, L, T, Counted> {
    /// Joins a pass into another, with what was done with it and what it has seen. It is never refused.
    pub fn join_pass(&self, pass: &mut FlatPass<N>, other: FlatPass<N>)
        // Its entries follow, the greater front is kept, and the seat stays.
        ensures joined { pass.new ≡ record pass.old {
          list = pass.old.list ++ other.list;
          parts = pass.old.parts + other.parts;
          front = max pass.old.front other.front;
        } }
    {
        pass.take(&self.word, other);
    }

    /// Does a call, and gives what answers it.
    ///
    /// # Errors
    ///
    /// `Memory` where 2^64 - 1 events were done, or nearly, or a growth of what is recorded was refused: then nothing
    /// happened. What the peer itself refuses, for want of memory too, is an answer.
    #[inline(always)]
    pub fn call<R: Wait>(&self, rt: &R, pass: &mut FlatPass<N>, call: Call) -> Result<Output, Code>
        // The pass has done one event more: this call, with this answer.
        ensures ok { IfOk result (λ o. Lists pass.old pass.new (event.Call call) o) }
        // The entry stands above what the pass had seen; then it has seen it.
        ensures front { OnOk result (pass.old.front < pass.new.front) }
        // A refusal changes nothing.
        ensures refused { IfErr result (λ code. code ≡ Memory) }
        ensures err { OnErr result (IsAsBefore pass.old pass.new) }
    {
        self.event(rt, pass, Event::Call(call))
    }

    /// The peer's time goes on to this moment, as by `Event::Tick`.
    ///
    /// # Errors
    ///
    /// As of `call`.
    #[inline(always)]
    pub fn tick<R: Wait>(&self, rt: &R, pass: &mut FlatPass<N>, now: Moment) -> Result<Output, Code>
        // The pass has done one event more: this tick, with this answer.
        ensures ok { IfOk result (λ o. Lists pass.old pass.new (event.Tick now) o) }
        // The entry stands above what the pass had seen; then it has seen it.
        ensures front { OnOk result (pass.old.front < pass.new.front) }
        // A refusal changes nothing.
        ensures refused { IfErr result (λ code. code ≡ Memory) }
        ensures err { OnErr result (IsAsBefore pass.old pass.new) }
    {
        self.event(rt, pass, Event::Tick(now))
    }

    /// The places of a reader are tried again, as by `Event::Resume`: after a take that made room.
    ///
    /// # Errors
    ///
    /// As of `call`.
    #[inline(always)]
    pub fn resume<R: Wait>(
        &self,
        rt: &R,
        pass: &mut FlatPass<N>,
        reader: u8,
    ) -> Result<Output, Code>
        // The pass has done one event more: this reader's places that are tried again, with this answer.
        ensures ok { IfOk result (λ o. Lists pass.old pass.new (event.Resume reader) o) }
        // The entry stands above what the pass had seen; then it has seen it.
        ensures front { OnOk result (pass.old.front < pass.new.front) }
        // A refusal changes nothing.
        ensures refused { IfErr result (λ code. code ≡ Memory) }
        ensures err { OnErr result (IsAsBefore pass.old pass.new) }
    {
        self.event(rt, pass, Event::Resume { reader })
    }

    /// Waits in a WaitSet of the peer until a condition of it is true, or the peer's time has come to the deadline, and
    /// gives what answers: `Active`, or `Refused` with `Timeout`; or what refused the wait (`BadParameter` for a WaitSet
    /// that was not made, `PreconditionNotMet` where somebody waits in it), or another pass's end of it. It is never
    /// `Waiting`, and nobody waits in the WaitSet afterwards.
    ///
    /// The lock is let go between looks. A look follows each event of another pass; where there is none, nobody looks.
    ///
    /// # Errors
    ///
    /// `Memory` where a look found none, or as of `call`: then nothing happened, or the wait was ended.
    ///
    /// DDS 1.4, 2.2.2.1 (WaitSet, wait).
    pub fn wait<R: Wait>(
        &self,
        rt: &R,
        pass: &mut FlatPass<N>,
        wait_set: u32,
        deadline: Moment,
    ) -> Result<Output, Code>
        // The pass has done the begin of the wait, and its looks; the last one answers with this.
        ensures ok { IfOk result (λ o. AnsweredWith pass.old pass.new wait_set deadline o) }
        // What the pass has seen does not fall.
        ensures front { pass.old.front ≤ pass.new.front }
        // A refusal is for want of memory, and ends the wait.
        ensures refused { IfErr result (λ code. code ≡ Memory) }
        ensures err { OnErr result (Failed pass.old pass.new wait_set deadline) }
    {
        self.wait_in(rt, pass, wait_set, deadline)
    }
}

impl<N: Named<F, L>, F: Filter, L: Listener> Shared<N, F, L, Counted, Counted> {
    /// Shares a peer under its name, without a record, and gives the first pass. It takes no memory.
    pub fn open_flat(seed: Seed<F, L>) -> (Flat<N, F, L>, FlatPass<N>)
        // The name is that of the seed.
        requires name { (seed.name ≡ N.name) × (seed.parts ≡ N.parts) × (seed.word ≡ N.word) }
        // It is of the seed's peer, with the filters and the listeners that this has.
        requires of { (seed.config ≡ N.config) × (seed.peer ≡ N.peer) }
        requires set { (seed.core.filtered.filters ≡ N.filters) × (seed.core.listeners ≡ N.slots) }
        // The pass did nothing yet, and has seen nothing.
        ensures pass { result.1 ≡ unused 1 result.1.spare 0 }
    {
        Shared::of_seed(seed)
    }

    /// Ends with the peer, if all passes are handed in. It takes no memory, and one step for each pass.
    ///
    /// # Errors
    ///
    /// `PreconditionNotMet` where a pass is missing. The peer and its passes come back.
    pub fn close(
        self,
        passes: Vec<FlatPass<N>>,
    ) -> Result<Core<F, L>, NotClosed<N, F, L, Counted, Counted>>
        // There is a history of it, in which the entries of each seat are what the passes did, in order, with the
        // answers that their callers got; there are no others, and no pass has seen more.
        ensures history { IfOk result (λ core. HasHistory F.meaning L.notices L.capacity L.becomes
            (listeners_in N.slots) N.config N.peer core passes.items) }
        // It has the filters that it was shared with, and at each entity the listener's statuses and room.
        ensures filters { IfOk result (λ core. core.filtered.filters ≡ N.filters) }
        ensures slots { IfOk result
            (λ core. slots_shown L.capacity core.listeners ≡ slots_shown L.capacity N.slots) }
        // A refusal is for a pass that is missing, and the passes come back.
        ensures missing { IfErr result (λ e. e.code ≡ PreconditionNotMet) }
        ensures back { IfErr result (λ e. e.passes.items ≡ passes.items) }
    {
        Ok(self.end(passes)?.core)
    }

    /// The bytes of a packet come, whatever they are, and stay where they are.
    ///
    /// # Errors
    ///
    /// As of `call`.
    #[inline(always)]
    pub fn deliver<R: Wait>(
        &self,
        rt: &R,
        pass: &mut FlatPass<N>,
        octets: &[u8],
    ) -> Result<Output, Code>
        // The pass has done one event more: this delivery, with this report.
        ensures ok { IfOk result (λ o. Lists pass.old pass.new (event.Deliver octets.now) o) }
        // The entry stands above what the pass had seen; then it has seen it.
        ensures front { OnOk result (pass.old.front < pass.new.front) }
        // A refusal changes nothing.
        ensures refused { IfErr result (λ code. code ≡ Memory) }
        ensures err { OnErr result (IsAsBefore pass.old pass.new) }
    {
        let mut locked = self.locked.lock(rt);
        let wakes = locked.is_awaited();
        let output = locked.deliver(&self.word, pass, octets)?;
        drop(locked);
        if wakes {
            self.changed.notify_all();
        }
        Ok(output)
    }
}
