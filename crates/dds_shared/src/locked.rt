//! What lies under the lock of a shared peer.
//!
//! Passes are this project's own.

ghost use Rattle.std.specs.Prelude.{◌≡◌, ◌↔◌, ℕ, ◌++◌, ◌∷◌, [], ◌+◌, ◌<◌, ◌≤◌, Some, None, length, nat_lt, true, All, OnOk, OnErr, IfErr, IfOk, IsTrue};
ghost use Rattle.dds_base.specs.declared.code.Code.TheVariants.{Memory, OutOfResources};
ghost use Rattle.dds_machine.specs.declared.call.Call.TheVariants.{WaitLook};
ghost use Rattle.dds_protocol.specs.declared.event.Event.TheVariants as event_of;
ghost use Rattle.dds_protocol.specs.declared.event.Output.{Output as OutputOf};
ghost use Rattle.dds_trace.specs.History.{IsHistoryOf};
ghost use Rattle.dds_trace.specs.Uses.{IsInUse, in_use_of};
ghost use Rattle.dds_shared.specs.Passes.{IsAsBefore, SameSeats, lists_of, unused};
ghost use Rattle.dds_shared.specs.Locks.{Adds, Did as DidOf, HasAll};
ghost use Rattle.dds_shared.specs.Seeds.{listeners_in, slots_shown};

use crate::closing::{give_all, parts_of};
use crate::named::Named;
use crate::pass::Pass;
use crate::said::Said;
use crate::tally::Tally;
use crate::whole::Whole;
use dds_base::Code;
use dds_conditions::Filter;
use dds_core::{Core, Mindful};
use dds_keeping::{Counted, Handing, Keeping};
use dds_log::{Hand, Word};
use dds_notices::Listener;
use dds_protocol::{Event, Output};
use dds_trace::Entry;
use std::alloc::Global;
use std::marker::{Brand, Model};
use std::snapshot::Snapshot;
use std::sync::ledger::Share;

/// How many passes a peer has at most.
pub const SEATS: u64 = 4294967295;

/// The core, beside a history that leads to it, which is stored or known in proofs alone.
#[derive(Drop)]
pub struct Locked<N: Named<F, L>, F: Filter, L: Listener, T: Keeping> {
    pub(crate) core: Mindful<F, L>,
    pub(crate) peer: u32,
    pub(crate) trace: T,
    pub(crate) tally: Tally<N>,
    rest: Share<N>,
    left: u64,
    whole: Whole<N>,
}

impl<N: Named<F, L>, F: Filter, L: Listener, T: Keeping> Model for Locked<N, F, L, T> {
    ghost use Rattle.std.specs.Prelude.{◌≡◌};
    ghost use Rattle.dds_shared.specs.Locks.{IsKept, Kept};

    ghost Value = { Kept F L };

    ghost view = { λ k. record { core = k.core; entries = k.tally.log; left = k.left } };

    ghost invariant = { λ k. IsKept F.meaning L.notices L.capacity L.becomes N.filters N.slots N.config N.peer k.core
        k.tally.log (T.room k.trace) k.rest.parts k.rest.amount k.left k.tally.next
        × (k.peer ≡ N.peer) × T.keeps k.trace k.tally.log };
}

/// What an event gave: what the caller gets, and what that says to one who waits.
#[derive(Drop)]
pub struct Did<A: Drop> {
    pub answer: A,
    pub said: Said,
}

/// What a locked peer leaves: the core, the number of the peer, and what was stored.
#[derive(Drop)]
pub struct Left<F: Filter, L: Listener, T: Keeping> {
    pub core: Core<F, L>,
    pub peer: u32,
    pub trace: T,
}

impl<N: Named<F, L>, F: Filter, L: Listener, T: Keeping> Locked<N, F, L, T> {
    /// A locked peer to which nothing happened, and its first pass.
    pub fn open<P: Handing>(
        alloc: Global,
        core: Mindful<F, L>,
        peer: u32,
        tally: Tally<N>,
        all: Share<N>,
        word: &Word<N, Entry>,
    ) -> (Locked<N, F, L, T>, Pass<N, P>)
        requires core { IsHistoryOf F.meaning L.notices L.capacity L.becomes (listeners_in N.slots) N.config N.peer [] core }
        requires set { (core.filtered.filters ≡ N.filters) × (core.listeners ≡ N.slots) }
        requires peer { peer ≡ N.peer }
        requires tally { tally ≡ record { log = []; next = 1; seat = None; list = [] } }
        requires all { (all.parts ≡ 4294967295) × (all.amount ≡ 0) × (N.parts ≡ 4294967295) }
        ensures pass { result.1 ≡ unused 1 result.1.spare 0 }
    {
        let mut tally = tally;
        let mut rest = all;
        let share = rest.split_off(1, 0);
        let hand = tally.seat(word);
        let pass = Pass::new(alloc, 1, share, Whole::new(), hand);
        (
            Locked {
                core,
                peer,
                trace: T::open(alloc),
                tally,
                rest,
                left: SEATS - 1,
                whole: Whole::new(),
            },
            pass,
        )
    }

    /// A new pass with a seat of its own, and with what it has seen.
    pub fn split<P: Handing>(
        &mut self,
        alloc: Global,
        word: &Word<N, Entry>,
        seen: Hand<N, Entry>,
    ) -> Result<Pass<N, P>, Code>
        requires seen { (seen.seat ≡ None) × (seen.list ≡ []) }
        ensures ok { IfOk result (λ pass. pass ≡ unused pass.seat pass.spare seen.at) }
        ensures seat { IfOk result (λ pass. pass.seat + self.new.left ≡ 4294967295) }
        ensures kept { OnOk result (self.new ≡ record self.old { left = self.new.left }) }
        ensures fewer { OnOk result (self.new.left + 1 ≡ self.old.left) }
        ensures err { OnErr result (self.new ≡ self.old) }
        ensures refused { IfErr result (λ code. (code ≡ OutOfResources) × (self.old.left ≡ 0)) }
    {
        if self.left == 0 {
            return Err(Code::OutOfResources);
        }
        let share = self.rest.split_off(1, 0);
        self.left -= 1;
        let seat = (SEATS - self.left) as u32;
        let mut hand = self.tally.seat(word);
        hand.join(word, seen);
        Ok(Pass::new(alloc, seat, share, self.whole.again(), hand))
    }

    /// Whether all passes are here.
    pub fn has_all<P: Handing>(&self, passes: &[Pass<N, P>]) -> bool
        ensures all { IsTrue result ↔ HasAll self.now passes.now }
    {
        let Some(parts) = parts_of(passes) else {
            return false;
        };
        parts <= SEATS && parts + self.left == SEATS
    }

    /// Ends with the core, and with what was stored.
    pub fn close<P: Handing>(self, passes: Vec<Pass<N, P>>, word: &Word<N, Entry>) -> Left<F, L, T>
        requires passes { HasAll self passes.items }
        ensures history { IsHistoryOf F.meaning L.notices L.capacity L.becomes (listeners_in N.slots) N.config N.peer
            self.entries result.core }
        ensures named { result.peer ≡ N.peer }
        ensures stored { T.keeps result.trace self.entries }
        ensures filters { result.core.filtered.filters ≡ N.filters }
        ensures slots { slots_shown L.capacity result.core.listeners ≡ slots_shown L.capacity N.slots }
        ensures same { result.core ≡ self.core }
        ensures lists { SameSeats self.entries passes.items }
        ensures complete { length self.entries ≡ length (lists_of passes.items) }
        ensures fronts { All (λ p. p.front ≤ length self.entries) passes.items }
    {
        let Locked {
            core,
            peer,
            trace,
            tally,
            mut rest,
            left: _,
            whole,
        } = self;
        whole.show();
        give_all(passes, &mut rest, tally, word);
        Left {
            core: core.into_core(),
            peer,
            trace,
        }
    }

    // Whether one event more can be counted, and behind it the ends of all waits.
    #[inline(always)]
    fn has_room(&self) -> bool
        ensures room { result ≡ true
            → in_use_of self.now.core + length self.now.entries + 2 ≤ 18446744073709551615 }
    {
        self.tally.room() >= u64::from(self.core.in_use()) + 2
    }

    /// Whether somebody waits in a WaitSet, so that an event has to wake who waits.
    #[inline(always)]
    pub fn is_awaited(&self) -> bool
        ensures awaited { result ≡ nat_lt 0 (in_use_of self.now.core) }
    {
        0 < self.core.in_use()
    }

    /// Does one event, and enters it in the history and in the pass's list.
    #[inline(always)]
    pub fn event<P: Handing>(
        &mut self,
        word: &Word<N, Entry>,
        pass: &mut Pass<N, P>,
        event: Event,
    ) -> Result<Did<P::Answer>, Code>
        ensures ok { IfOk result (λ did. (o : OutputOf)
            × DidOf F.meaning L.notices L.capacity L.becomes P.answers self.old self.new pass.old pass.new event
            did.answer o did.said) }
        ensures err { OnErr result ((self.new ≡ self.old) × IsAsBefore pass.old pass.new) }
        ensures refused { IfErr result (λ code. code ≡ Memory) }
        ensures ends { IfOk result (λ did. (s : ℕ) → event ≡ event_of.Call (WaitLook s)
            → (IsTrue did.said.waiting → ⊥) → (IsTrue did.said.memory → ⊥) → IsInUse self.new.core s → ⊥) }
        ensures room { pass.old.spare ≤ pass.new.spare + 1 }
        ensures room_kept { OnErr result (pass.old.spare ≤ pass.new.spare) }
    {
        if !self.has_room() {
            return Err(Code::Memory);
        }
        let one = T::tell(&event)?;
        let two = P::tell(&event)?;
        self.trace.reserve(self.core.in_use() as usize + 2)?;
        pass.reserve(1)?;
        let what = Snapshot::of(&event);
        let (output, twin) = T::step(&mut self.core, event);
        let said = Said::of(&output.reply);
        self.trace.push(pass.seat(), one, twin);
        let answer = pass.record::<Brand>(&mut self.tally, word, what, two, output);
        Ok(Did { answer, said })
    }
}

impl<N: Named<F, L>, F: Filter, L: Listener> Locked<N, F, L, Counted> {
    /// Delivers these octets, which stay where they are, and enters that, in proofs alone.
    #[inline(always)]
    pub fn deliver(
        &mut self,
        word: &Word<N, Entry>,
        pass: &mut Pass<N, Counted>,
        octets: &[u8],
    ) -> Result<Output, Code>
        ensures ok { IfOk result (λ o. Adds F.meaning L.notices L.capacity L.becomes self.old self.new pass.old pass.new
            (event_of.Deliver octets.now) o) }
        ensures err { OnErr result ((self.new ≡ self.old) × (pass.new ≡ pass.old)) }
        ensures refused { IfErr result (λ code. code ≡ Memory) }
    {
        if !self.has_room() {
            return Err(Code::Memory);
        }
        let output = self.core.deliver(octets);
        pass.record_delivery::<Brand>(&mut self.tally, word, octets, &output);
        Ok(output)
    }
}
