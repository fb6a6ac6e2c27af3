//! How many entries a peer has, in the book of its ledger and by its word, and in proofs which ones.
//!
//! Passes are this project's own.

ghost use Rattle.std.specs.Prelude.{◌≡◌, ◌+◌, ◌≤◌, ◌<◌, ◌++◌, ◌∷◌, [], None, Some, length};
ghost use Rattle.dds_log.specs.Logs.{BeginsWith};
ghost use Rattle.dds_trace.specs.declared.trace.Entry.{Entry as EntryOf};

use dds_log::{Adding, Hand, HasWord, Keeper, Scribe, Word};
use dds_trace::Entry;
use std::marker::Model;
use std::sync::ledger::{Book, Ledger, Share};

/// How many entries a peer has. Contracts see the entries, and the first seat that nobody has.
#[derive(Drop)]
pub struct Tally<N: Ledger + HasWord> {
    pub(crate) book: Book<N>,
    pub(crate) keeper: Keeper<N, Entry>,
    done: u64,
}

impl<N: Ledger + HasWord> Model for Tally<N> {
    ghost use Rattle.std.specs.Prelude.{◌≡◌, ℕ, [], None, length};
    ghost use Rattle.dds_log.specs.Logs.{Logged};
    ghost use Rattle.dds_trace.specs.declared.trace.Entry.{Entry};

    ghost Value = { Logged Entry };

    ghost view = { λ t. t.keeper };

    ghost invariant = { λ t. (t.book.total ≡ length t.keeper.log) × (t.done ≡ length t.keeper.log)
        × (t.keeper.seat ≡ None) × (t.keeper.list ≡ []) };
}

impl<N: Ledger + HasWord> Tally<N> {
    pub fn new(book: Book<N>, keeper: Keeper<N, Entry>) -> Tally<N>
        requires nothing { (book.total ≡ 0) × (keeper ≡ record { log = []; next = 1; seat = None; list = [] }) }
        ensures nothing { result ≡ record { log = []; next = 1; seat = None; list = [] } }
    {
        Tally {
            book,
            keeper,
            done: 0,
        }
    }

    /// How many were counted.
    pub fn done(&self) -> u64
        ensures done { result ≡ length self.now.log }
    {
        self.done
    }

    /// How many more can be counted.
    #[inline(always)]
    pub fn room(&self) -> u64
        ensures room { result + length self.now.log ≡ 18446744073709551615 }
    {
        u64::MAX - self.done
    }

    /// A hand in the next seat.
    pub fn seat(&mut self, word: &Word<N, Entry>) -> Hand<N, Entry>
        ensures fewer { self.new ≡ record self.old { next = self.old.next + 1 } }
        ensures seat { result ≡ record { at = 0; seat = Some self.old.next; list = [] } }
    {
        self.keeper.seat(word)
    }

    /// A hand sees all that was counted, of which it had seen a part.
    pub fn catch_up(&mut self, word: &Word<N, Entry>, hand: &mut Hand<N, Entry>)
        ensures kept { self.new ≡ self.old }
        ensures all { hand.new ≡ record hand.old { at = length self.old.log } }
        ensures bound { hand.old.at ≤ length self.old.log }
    {
        let seen = hand.split(word);
        self.keeper.take(word, seen);
        let all = self.keeper.front(word);
        hand.join(word, all);
    }

    /// Counts one entry more, which happened already, in the seat of this hand.
    #[inline(always)]
    pub fn count<B: Adding<Entry>>(
        &mut self,
        word: &Word<N, Entry>,
        share: &mut Share<N>,
        hand: &mut Hand<N, Entry>,
    )
        requires room { length self.old.log < 18446744073709551615 }
        requires part { 0 < share.old.parts }
        requires entry { (e : EntryOf) × (B.more ≡ e ∷ []) × (hand.old.seat ≡ Some e.seat) }
        ensures log { self.new ≡ record self.old { log = self.old.log ++ B.more } }
        ensures hand { hand.new ≡ record {
          at = length self.old.log + 1;
          seat = hand.old.seat;
          list = hand.old.list ++ B.more;
        } }
        ensures above { hand.old.at ≤ length self.old.log }
        ensures amount { share.new.amount ≡ share.old.amount + 1 }
        ensures parts { share.new.parts ≡ share.old.parts }
    {
        self.book.add(share, 1);
        self.keeper.add::<B>(word, hand);
        self.done += 1;
    }

    /// Who hands out what happens: nothing was handed out yet.
    pub fn scribe(&mut self, word: &Word<N, Entry>) -> Scribe<N, Entry>
        ensures kept { self.new ≡ self.old }
        ensures nothing { result ≡ [] }
    {
        self.keeper.scribe(word)
    }

    /// What was handed out are the first entries.
    pub fn compare(&mut self, word: &Word<N, Entry>, scribe: &mut Scribe<N, Entry>)
        ensures kept { self.new ≡ self.old }
        ensures same { scribe.new ≡ scribe.old }
        ensures first { BeginsWith self.old.log scribe.old }
    {
        self.keeper.compare(word, scribe);
    }

    /// All entries are handed out.
    pub fn write(&mut self, word: &Word<N, Entry>, scribe: &mut Scribe<N, Entry>)
        ensures kept { self.new ≡ self.old }
        ensures all { scribe.new ≡ self.old.log }
    {
        self.keeper.write(word, scribe);
    }
}
