//! A peer that threads share: what each form of it has.
//!
//! DDS 1.4, 2.2.2.1 (Entity, WaitSet). Passes and closing are this project's own.

ghost use Rattle.std.specs.Prelude.{◌≡◌, ◌<◌, ◌≤◌, max, OnOk, OnErr, IfErr, IfOk};
ghost use Rattle.dds_base.specs.declared.code.Code.TheVariants.{Memory, OutOfResources, PreconditionNotMet};
ghost use Rattle.dds_protocol.specs.declared.event.Output.{Output as OutputOf};
ghost use Rattle.dds_shared.specs.Closings.{HasHistory};
ghost use Rattle.dds_shared.specs.Passes.{IsAsBefore, Lists, unused};
ghost use Rattle.dds_shared.specs.Seeds.{listeners_in, slots_shown};
ghost use Rattle.dds_shared.specs.Waits.{AnsweredWith, Failed};

use crate::locked::{Left, Locked};
use crate::named::Named;
use crate::pass::Pass;
use crate::seed::Seed;
use crate::tally::Tally;
use dds_base::{Code, Moment};
use dds_conditions::Filter;
use dds_keeping::{Handing, Keeping, Recorded};
use dds_log::Word;
use dds_machine::Call;
use dds_notices::Listener;
use dds_protocol::Event;
use dds_trace::Entry;
use std::alloc::Global;
use std::marker::PhantomData;
use std::sync::{Condvar, Mutex, Wait};

/// A peer that threads share, by `&Shared`: each event is done whole, under one lock.
///
/// What was done is recorded, in the peer's trace (`T`) and in the list of each pass (`P`), or known in proofs alone:
/// `Shared` records both and grows with each event, `Flat` neither.
#[derive(Drop)]
pub struct Shared<
    N: Named<F, L>,
    F: Filter,
    L: Listener,
    T: Keeping = Recorded,
    P: Handing = Recorded,
> {
    pub(crate) locked: Mutex<Locked<N, F, L, T>>,
    pub(crate) changed: Condvar,
    pub(crate) word: Word<N, Entry>,
    pub(crate) alloc: Global,
    pub(crate) of: PhantomData<P>,
}

/// A peer that was not closed, with its passes.
#[derive(Drop)]
pub struct NotClosed<
    N: Named<F, L>,
    F: Filter,
    L: Listener,
    T: Keeping = Recorded,
    P: Handing = Recorded,
> {
    /// Why.
    pub code: Code,
    /// The peer, as it was.
    pub shared: Shared<N, F, L, T, P>,
    /// The passes that were handed in.
    pub passes: Vec<Pass<N, P>>,
}

impl<N: Named<F, L>, F: Filter, L: Listener, T: Keeping, P: Handing> Shared<N, F, L, T, P> {
    // Shares a peer under its name, and gives the first pass.
    pub(crate) fn of_seed(seed: Seed<F, L>) -> (Shared<N, F, L, T, P>, Pass<N, P>)
        requires name { (seed.name ≡ N.name) × (seed.parts ≡ N.parts) × (seed.word ≡ N.word) }
        requires of { (seed.config ≡ N.config) × (seed.peer ≡ N.peer) }
        requires set { (seed.core.filtered.filters ≡ N.filters) × (seed.core.listeners ≡ N.slots) }
        ensures pass { result.1 ≡ unused 1 result.1.spare 0 }
    {
        let Seed {
            core,
            peer,
            blank,
            word,
            alloc,
            ..
        } = seed;
        let (book, all) = blank.open::<N>();
        let (word, keeper) = word.open::<N>();
        let tally = Tally::new(book, keeper);
        let (locked, pass) = Locked::open(alloc, core, peer, tally, all, &word);
        (
            Shared {
                locked: Mutex::new(locked),
                changed: Condvar::new(),
                word,
                alloc,
                of: PhantomData,
            },
            pass,
        )
    }

    // Ends with what is left, if all passes are handed in.
    pub(crate) fn end(
        self,
        passes: Vec<Pass<N, P>>,
    ) -> Result<Left<F, L, T>, NotClosed<N, F, L, T, P>>
        // What is stored is of the entries of a history of the core, which are what the passes did.
        ensures history { IfOk result (λ left. (h : HasHistory F.meaning L.notices L.capacity L.becomes
            (listeners_in N.slots) N.config N.peer left.core passes.items) × T.keeps left.trace h.entries) }
        ensures named { IfOk result (λ left. left.peer ≡ N.peer) }
        ensures filters { IfOk result (λ left. left.core.filtered.filters ≡ N.filters) }
        ensures slots { IfOk result
            (λ left. slots_shown L.capacity left.core.listeners ≡ slots_shown L.capacity N.slots) }
        ensures missing { IfErr result (λ e. e.code ≡ PreconditionNotMet) }
        ensures back { IfErr result (λ e. e.passes.items ≡ passes.items) }
    {
        let Shared {
            locked,
            changed,
            word,
            alloc,
            of,
        } = self;
        let locked = locked.into_inner();
        if locked.has_all(passes.as_slice()) {
            return Ok(locked.close(passes, &word));
        }
        Err(NotClosed {
            code: Code::PreconditionNotMet,
            shared: Shared {
                locked: Mutex::new(locked),
                changed,
                word,
                alloc,
                of,
            },
            passes,
        })
    }

    /// A pass more, with a seat of its own, which has seen as much. The one that it is split from stays as it is.
    ///
    /// # Errors
    ///
    /// `OutOfResources` where 2^32 - 1 passes were made.
    pub fn split_pass<R: Wait>(&self, rt: &R, pass: &mut Pass<N, P>) -> Result<Pass<N, P>, Code>
        // It did nothing yet.
        ensures ok { IfOk result (λ split. split ≡ unused split.seat split.spare pass.old.front) }
        // The other one stays.
        ensures kept { pass.new ≡ pass.old }
        // A refusal is for want of a seat.
        ensures refused { IfErr result (λ code. code ≡ OutOfResources) }
    {
        let seen = pass.split_front(&self.word);
        self.locked.lock(rt).split(self.alloc, &self.word, seen)
    }

    /// How many entries the peer has, as far as this pass has to see: at least all that it did, all that was done
    /// before it was split off, and all that passes had seen which it met or which were joined into it. It takes no
    /// lock and waits for nobody.
    ///
    /// Fronts are this project's own.
    pub fn front(&self, pass: &mut Pass<N, P>) -> u64
        // It is not below what the pass had seen.
        ensures found { pass.old.front ≤ result }
        // From then on the pass has seen it.
        ensures kept { pass.new ≡ record pass.old { front = result } }
    {
        pass.look(&self.word)
    }

    /// Both passes have seen afterwards what either had seen. It takes no lock and waits for nobody.
    ///
    /// Fronts are this project's own.
    pub fn meet_pass(&self, pass: &mut Pass<N, P>, other: &mut Pass<N, P>)
        // Both stand at the greater front.
        ensures this { pass.new ≡ record pass.old { front = max pass.old.front other.old.front } }
        ensures that { other.new ≡ record other.old { front = max pass.old.front other.old.front } }
    {
        pass.meet(&self.word, other);
    }

    /// Does one event, and gives what the caller gets of its output, which `Pass::output` shows: for code over all forms.
    ///
    /// # Errors
    ///
    /// `Memory` where a growth of what is recorded was refused, or 2^64 - 1 events were done, or nearly: then nothing
    /// happened. What the peer itself refuses is an answer.
    // It wakes those who wait, where somebody does; a look only where it ends the wait: whoever waits in it has to see that.
    #[inline(always)]
    pub fn event<R: Wait>(
        &self,
        rt: &R,
        pass: &mut Pass<N, P>,
        event: Event,
    ) -> Result<P::Answer, Code>
        // The pass has done one event more: this one, with an output of which the caller gets this.
        ensures ok { IfOk result (λ answer. (o : OutputOf)
            × Lists pass.old pass.new event o × P.answers answer o) }
        // The entry stands above what the pass had seen; then it has seen it.
        ensures front { OnOk result (pass.old.front < pass.new.front) }
        // A refusal changes nothing.
        ensures refused { IfErr result (λ code. code ≡ Memory) }
        ensures err { OnErr result (IsAsBefore pass.old pass.new) }
    {
        let is_look = matches!(event, Event::Call(Call::WaitLook { .. }));
        let mut locked = self.locked.lock(rt);
        let is_awaited = locked.is_awaited();
        let did = locked.event(&self.word, pass, event)?;
        drop(locked);
        if is_awaited && !(is_look && did.said.waiting) {
            self.changed.notify_all();
        }
        Ok(did.answer)
    }

    /// Waits in a WaitSet of the peer, as `wait` does, and gives what the caller gets of what answers: for code over all
    /// forms.
    ///
    /// # Errors
    ///
    /// `Memory` where a look found none, or as of `event`: then nothing happened, or the wait was ended.
    ///
    /// DDS 1.4, 2.2.2.1 (WaitSet, wait).
    pub fn wait_in<R: Wait>(
        &self,
        rt: &R,
        pass: &mut Pass<N, P>,
        wait_set: u32,
        deadline: Moment,
    ) -> Result<P::Answer, Code>
        // The pass has done the begin of the wait, and its looks; the last one answers.
        ensures ok { IfOk result (λ answer. (o : OutputOf)
            × AnsweredWith pass.old pass.new wait_set deadline o × P.answers answer o) }
        // What the pass has seen does not fall.
        ensures front { pass.old.front ≤ pass.new.front }
        // A refusal is for want of memory, and ends the wait.
        ensures refused { IfErr result (λ code. code ≡ Memory) }
        ensures err { OnErr result (Failed pass.old pass.new wait_set deadline) }
    {
        let mut locked = self.locked.lock(rt);
        let begun = locked.begin(&self.word, pass, wait_set, deadline)?;
        self.changed.notify_all();
        if !begun.is_so {
            return Ok(begun.answer);
        }
        for _ in rt.forever() {
            match locked.look(&self.word, pass, wait_set) {
                Ok(looked) => {
                    if looked.is_so {
                        return Ok(looked.answer);
                    }
                }
                Err(code) => {
                    self.changed.notify_all();
                    return Err(code);
                }
            }
            locked = self.changed.wait(rt, locked);
        }
        unreachable!()
    }
}
