//! What one thread did with a shared peer.
//!
//! Passes are this project's own.

ghost use Rattle.std.specs.Prelude.{◌≡◌, ◌++◌, ◌∷◌, [], ◌+◌, ◌<◌, ◌≤◌, Some, None, length, OnOk, OnErr, IfErr, MatchOption, List, ℕ, max};
ghost use Rattle.dds_base.specs.declared.code.Code.TheVariants.{Memory};
ghost use Rattle.dds_protocol.specs.declared.event.Event.{Event as EventOf};
ghost use Rattle.dds_protocol.specs.declared.event.Event.TheVariants as event_of;
ghost use Rattle.dds_protocol.specs.declared.event.Output.{Output as OutputOf};
ghost use Rattle.dds_trace.specs.declared.trace.Entry.{Entry as EntryOf};
ghost use Rattle.dds_trace.specs.History.{entry_of};
ghost use Rattle.dds_shared.specs.Passes.{Grows, IsAsBefore, unused};

use crate::over::Over;
use crate::tally::Tally;
use crate::whole::Whole;
use dds_base::Code;
use dds_keeping::{Counted, Handing, Recorded};
use dds_log::{Adding, Hand, HasWord, Keeper, Word};
use dds_protocol::{Event, Output};
use dds_trace::Entry;
use std::alloc::Global;
use std::marker::Model;
use std::snapshot::Snapshot;
use std::sync::ledger::{Ledger, Share};

/// What one thread did with a shared peer, in order: each event, with what the peer gave back. It is a right to use the
/// peer, which the peer wants back when it is closed: a pass that is dropped keeps it open for good. What was done is
/// stored where it is recorded, and has no bound but memory; else it is known in proofs alone.
///
/// Passes are this project's own.
#[derive(Drop)]
pub struct Pass<N: Ledger + HasWord, P: Handing = Recorded> {
    seat: u32,
    parts: u64,
    list: P,
    share: Share<N>,
    whole: Whole<N>,
    hand: Hand<N, Entry>,
    gave_up: Option<Over>,
}

impl<N: Ledger + HasWord, P: Handing> Model for Pass<N, P> {
    ghost use Rattle.std.specs.Prelude.{◌≡◌, ◌<◌, Some, length};
    ghost use Rattle.dds_shared.specs.Passes.{Carried};

    ghost Value = { Carried };

    ghost view = { λ p. record {
      seat = p.seat;
      list = p.hand.list;
      spare = P.room p.list;
      parts = p.parts;
      front = p.hand.at;
      gave_up = p.gave_up;
    } };

    ghost invariant = { λ p. (p.share.parts ≡ p.parts) × (0 < p.parts) × (p.share.amount ≡ length p.hand.list)
        × (p.hand.seat ≡ Some p.seat) × P.keeps p.list p.hand.list };
}

impl<N: Ledger + HasWord, P: Handing> Pass<N, P> {
    // A pass of this seat that did nothing yet, with one part of the ledger and what it has seen.
    pub(crate) fn new(
        alloc: Global,
        seat: u32,
        share: Share<N>,
        whole: Whole<N>,
        hand: Hand<N, Entry>,
    ) -> Pass<N, P>
        requires share { (share.parts ≡ 1) × (share.amount ≡ 0) }
        requires hand { (hand.seat ≡ Some seat) × (hand.list ≡ []) }
        ensures unused { result ≡ unused seat result.spare hand.at }
    {
        Pass {
            seat,
            parts: 1,
            list: P::open(alloc),
            share,
            whole,
            hand,
            gave_up: None,
        }
    }

    /// Its number, from 1: the entries of the trace that it made bear it.
    pub fn seat(&self) -> u32
        ensures seat { result ≡ self.now.seat }
    {
        self.seat
    }

    /// The output of the event that was done last, of which the caller got this: for code over all forms.
    pub fn output<'a>(&'a self, answer: &'a P::Answer) -> Option<&'a Output>
        ensures output { (es : List EntryOf) (seat : ℕ) (e : EventOf) (o : OutputOf)
            → self.now.list ≡ es ++ entry_of seat e o ∷ [] → P.answers answer.now o
            → MatchOption result ⊥ (λ it. it.now ≡ o) }
    {
        self.list.output(answer)
    }

    pub(crate) fn parts(&self) -> u64
        ensures parts { result ≡ self.now.parts }
    {
        self.parts
    }

    // Gives its share to another, and what it did to the keeper: it has seen no more than was counted.
    pub(crate) fn give_up(
        self,
        all: &mut Share<N>,
        keeper: &mut Keeper<N, Entry>,
        word: &Word<N, Entry>,
    )
        ensures parts { all.new.parts ≡ all.old.parts + self.parts }
        ensures amount { all.new.amount ≡ all.old.amount + length self.list }
        ensures log { keeper.new.log ≡ keeper.old.log }
        ensures list { keeper.new.list ≡ keeper.old.list ++ self.list }
        ensures bound { self.front ≤ length keeper.old.log }
    {
        let Pass { share, hand, .. } = self;
        all.merge(share);
        keeper.take(word, hand);
    }

    // What a new pass has seen: as much as this one.
    pub(crate) fn split_front(&mut self, word: &Word<N, Entry>) -> Hand<N, Entry>
        ensures kept { self.new ≡ self.old }
        ensures same { result ≡ record { at = self.old.front; seat = None; list = [] } }
    {
        self.hand.split(word)
    }

    // Looks how many entries the peer has.
    pub(crate) fn look(&mut self, word: &Word<N, Entry>) -> u64
        ensures found { self.old.front ≤ result }
        ensures kept { self.new ≡ record self.old { front = result } }
    {
        self.hand.look(word)
    }

    // Both have seen afterwards what either had seen.
    pub(crate) fn meet(&mut self, word: &Word<N, Entry>, other: &mut Pass<N, P>)
        ensures this { self.new ≡ record self.old { front = max self.old.front other.old.front } }
        ensures that { other.new ≡ record other.old { front = max self.old.front other.old.front } }
    {
        self.hand.meet(word, &mut other.hand);
    }

    // Makes room for so many more entries.
    #[inline(always)]
    pub(crate) fn reserve(&mut self, additional: usize) -> Result<(), Code>
        ensures room { OnOk result (additional ≤ self.new.spare) }
        ensures spare { self.old.spare ≤ self.new.spare }
        ensures same { IsAsBefore self.old self.new }
        ensures refused { IfErr result (λ code. code ≡ Memory) }
    {
        self.list.reserve(additional)
    }

    // Enters what happened at an event, counts it, and gives what the caller gets.
    #[inline(always)]
    pub(crate) fn record<B: Adding<Entry>>(
        &mut self,
        tally: &mut Tally<N>,
        word: &Word<N, Entry>,
        event: Snapshot<Event>,
        told: P::Told,
        output: Output,
    ) -> P::Answer
        requires countable { length tally.old.log < 18446744073709551615 }
        requires room { 0 < self.old.spare }
        requires told { P.tells told event.value }
        requires entry { B.more ≡ entry_of self.old.seat event.value output ∷ [] }
        ensures list { Grows self.old self.new (entry_of self.old.seat event.value output ∷ []) }
        ensures spare { self.old.spare ≤ self.new.spare + 1 }
        ensures log { tally.new ≡ record tally.old {
          log = tally.old.log ++ entry_of self.old.seat event.value output ∷ [];
        } }
        ensures above { self.old.front ≤ length tally.old.log }
        ensures seen { self.new.front ≡ length tally.old.log + 1 }
        ensures answer { P.answers result output }
    {
        let _ = event;
        let Pass {
            seat,
            list,
            share,
            hand,
            ..
        } = self;
        tally.count::<B>(word, share, hand);
        list.hand(*seat, told, output)
    }

    // Has given up a wait, and has seen what there was then.
    pub(crate) fn leave(&mut self, tally: &mut Tally<N>, word: &Word<N, Entry>, over: Over)
        ensures kept { tally.new ≡ tally.old }
        ensures over { self.new ≡ record self.old {
          front = length tally.old.log;
          gave_up = Some over;
        } }
        ensures bound { self.old.front ≤ length tally.old.log }
    {
        tally.catch_up(word, &mut self.hand);
        self.gave_up = Some(over);
    }
}

impl<N: Ledger + HasWord> Pass<N, Recorded> {
    /// What was done with it, in order: its own events, and those of the passes that were joined into it.
    pub fn entries(&self) -> &[Entry]
        ensures entries { result.now ≡ self.now.list }
    {
        self.list.entries.as_slice()
    }

    /// The newest entry, as that of the event that was done last; `None` where nothing was done.
    pub fn newest(&self) -> Option<&Entry>
        ensures newest { MatchOption result (self.now.list ≡ [])
            (λ entry. (es : List EntryOf) × (self.now.list ≡ es ++ entry.now ∷ [])) }
    {
        self.list.entries.last()
    }

    // Takes in another pass, with its list and with what it has seen.
    pub(crate) fn join(
        &mut self,
        word: &Word<N, Entry>,
        other: Pass<N>,
    ) -> Result<(), (Code, Pass<N>)>
        ensures ok { OnOk result (self.new ≡ record self.old {
          list = self.old.list ++ other.list;
          spare = self.new.spare;
          parts = self.old.parts + other.parts;
          front = max self.old.front other.front;
        }) }
        ensures refused { IfErr result (λ e. e.0 ≡ Memory) }
        ensures back { IfErr result (λ e. e.1 ≡ other) }
        ensures err { OnErr result (IsAsBefore self.old self.new) }
    {
        let mut other = other;
        if self.list.entries.append(&mut other.list.entries).is_err() {
            return Err((Code::Memory, other));
        }
        let Pass {
            parts,
            share,
            hand,
            ..
        } = other;
        self.share.merge(share);
        self.hand.join(word, hand);
        self.whole.show();
        self.parts += parts;
        Ok(())
    }
}

impl<N: Ledger + HasWord> Pass<N, Counted> {
    // Counts what happened at the delivery of these octets.
    #[inline(always)]
    pub(crate) fn record_delivery<B: Adding<Entry>>(
        &mut self,
        tally: &mut Tally<N>,
        word: &Word<N, Entry>,
        octets: &[u8],
        output: &Output,
    )
        requires countable { length tally.old.log < 18446744073709551615 }
        requires entry { B.more ≡ entry_of self.old.seat (event_of.Deliver octets.now) output.now ∷ [] }
        ensures list { self.new ≡ record self.old {
          list = self.old.list ++ entry_of self.old.seat (event_of.Deliver octets.now) output.now ∷ [];
          front = length tally.old.log + 1;
        } }
        ensures log { tally.new ≡ record tally.old {
          log = tally.old.log ++ entry_of self.old.seat (event_of.Deliver octets.now) output.now ∷ [];
        } }
        ensures above { self.old.front ≤ length tally.old.log }
    {
        let _ = octets;
        let _ = output;
        let Pass { share, hand, .. } = self;
        tally.count::<B>(word, share, hand);
    }

    // Takes in another pass, with its list and with what it has seen.
    pub(crate) fn take(&mut self, word: &Word<N, Entry>, other: Pass<N, Counted>)
        ensures joined { self.new ≡ record self.old {
          list = self.old.list ++ other.list;
          parts = self.old.parts + other.parts;
          front = max self.old.front other.front;
        } }
    {
        let Pass {
            parts,
            share,
            hand,
            ..
        } = other;
        self.share.merge(share);
        self.hand.join(word, hand);
        self.whole.show();
        self.parts += parts;
    }
}
