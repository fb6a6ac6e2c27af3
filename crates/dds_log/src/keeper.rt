//! Who counts, and knows all that happened.
//!
//! Logs are this project's own.

ghost use Rattle.std.specs.Prelude.{◌≡◌, ◌+◌, ◌≤◌, ◌<◌, ◌^◌, ◌++◌, ◌∷◌, [], Some, None, ℕ, length};
ghost use Rattle.dds_log.specs.Logs.{BeginsWith, either_seat, entries_of, keeper_of};

use crate::hand::Hand;
use crate::rule::{All, Another, Compare, Look, Note, Read, Seated, Settle, Take, View, Write};
use crate::scribe::Scribe;
use crate::word::{HasWord, Word};
use atomic_table::{Play, Seat};
use std::marker::{Brand, Model, PhantomData};

/// What is added. A program never writes one: the call picks it.
pub trait Adding<E> {
    ghost use Rattle.std.specs.Prelude.{List};

    ghost more: { List E };
}

impl<E> Adding<E> for Brand {
    ghost use Rattle.std.specs.Prelude.{[]};

    ghost more = { [] };
}

/// The keeper counts one more.
pub struct Count<B> {
    of: PhantomData<B>,
}

impl<E, B: Adding<E>> Play<u64, View<E>> for Count<B> {
    ghost use Rattle.dds_log.specs.Logs.{Counts};

    ghost then = { Counts B.more };
}

/// Who counts, and knows all that happened: a log has one keeper.
#[derive(Drop)]
pub struct Keeper<N: HasWord, E: Seated> {
    seat: Seat<u64, View<E>>,
    of: PhantomData<N>,
}

impl<N: HasWord, E: Seated> Model for Keeper<N, E> {
    ghost use Rattle.std.specs.Prelude.{◌≡◌, ℕ, [], true, length};
    ghost use Rattle.dds_log.specs.Logs.{Logged};

    ghost Value = { Logged E };

    ghost view = { λ k. record {
      log = k.seat.me.0.log;
      next = k.seat.me.0.next;
      seat = k.seat.me.0.seat;
      list = k.seat.me.0.list;
    } };

    ghost invariant = { λ k. (k.seat.table_id ≡ N.word) × (k.seat.me.1 ≡ []) × (k.seat.me.0.keeps ≡ true)
        × (k.seat.me.0.count ≡ length k.seat.me.0.log) × (k.seat.me.0.at ≡ k.seat.me.0.count) };
}

impl<N: HasWord, E: Seated> Keeper<N, E> {
    // The keeper of a word that counted nothing yet.
    pub(crate) fn new(seat: Seat<u64, View<E>>) -> Keeper<N, E>
        requires fits { (seat.table_id ≡ N.word) × (seat.me ≡ (keeper_of 1 [], [])) }
        ensures nothing { result ≡ record { log = []; next = 1; seat = None; list = [] } }
    {
        Keeper {
            seat,
            of: PhantomData,
        }
    }

    /// A hand in the next seat, which has seen and done nothing.
    pub fn seat(&mut self, word: &Word<N, E>) -> Hand<N, E>
        ensures fewer { self.new ≡ record self.old { next = self.old.next + 1 } }
        ensures seat { result ≡ record { at = 0; seat = Some self.old.next; list = [] } }
    {
        let seat = word.table.shared.split_seat::<Another>(&mut self.seat);
        Hand::new(seat)
    }

    /// A hand that has seen all that was counted, and has nothing.
    pub fn front(&mut self, word: &Word<N, E>) -> Hand<N, E>
        ensures kept { self.new ≡ self.old }
        ensures all { result ≡ record { at = length self.old.log; seat = None; list = [] } }
    {
        let told = word.table.shared.split_seat::<Note>(&mut self.seat);
        Hand::new(told)
    }

    /// Takes in what a hand has: it has seen no more than was counted.
    pub fn take(&mut self, word: &Word<N, E>, hand: Hand<N, E>)
        ensures taken { self.new ≡ record self.old {
          seat = either_seat self.old.seat hand.seat;
          list = self.old.list ++ hand.list;
        } }
        ensures bound { hand.at ≤ length self.old.log }
    {
        let Hand { seat, .. } = hand;
        word.table.shared.join_seat::<Take>(&mut self.seat, seat);
        word.table.shared.load::<Look>(&mut self.seat, 0);
    }

    // Hands on what it took in.
    fn give(&mut self, word: &Word<N, E>) -> Hand<N, E>
        ensures left { self.new ≡ record self.old { seat = None; list = [] } }
        ensures all { result ≡ record { at = length self.old.log; seat = self.old.seat; list = self.old.list } }
    {
        let seat = word.table.shared.split_seat::<All>(&mut self.seat);
        Hand::new(seat)
    }

    // Counts one entry more, of the seat that it took in.
    fn count<B: Adding<E>>(&mut self, word: &Word<N, E>)
        requires room { length self.old.log + 1 < 2 ^ 64 }
        requires entry { (e : E) × (B.more ≡ e ∷ []) × (self.old.seat ≡ Some (E.seat e)) }
        ensures added { self.new ≡ record self.old {
          log = self.old.log ++ B.more;
          list = self.old.list ++ B.more;
        } }
    {
        word.table
            .shared
            .fetch_add::<Count<B>>(&mut self.seat, 0, 1);
    }

    /// Counts one entry more, which happened already, in the seat of this hand. The hand has it and has seen it then.
    pub fn add<B: Adding<E>>(&mut self, word: &Word<N, E>, hand: &mut Hand<N, E>)
        requires idle { (self.old.seat ≡ None) × (self.old.list ≡ []) }
        requires room { length self.old.log + 1 < 2 ^ 64 }
        requires entry { (e : E) × (B.more ≡ e ∷ []) × (hand.old.seat ≡ Some (E.seat e)) }
        ensures log { self.new ≡ record self.old { log = self.old.log ++ B.more } }
        ensures hand { hand.new ≡ record {
          at = length self.old.log + 1;
          seat = hand.old.seat;
          list = hand.old.list ++ B.more;
        } }
        // It had not seen it.
        ensures above { hand.old.at ≤ length self.old.log }
    {
        let all = hand.hand_on(word);
        self.take(word, all);
        self.count::<B>(word);
        let back = self.give(word);
        hand.join(word, back);
    }

    /// Whoever took in as many entries as there are has those of each seat, in order.
    pub fn settle(&mut self, word: &Word<N, E>)
        requires all { length self.old.list ≡ length self.old.log }
        ensures kept { self.new ≡ self.old }
        ensures same { (seat : ℕ)
            → entries_of E.seat seat self.old.log ≡ entries_of E.seat seat self.old.list }
    {
        word.table.shared.load::<Settle>(&mut self.seat, 0);
    }

    /// Who hands out what happens: nothing was handed out yet.
    pub fn scribe(&mut self, word: &Word<N, E>) -> Scribe<N, E>
        ensures kept { self.new ≡ self.old }
        ensures nothing { result ≡ [] }
    {
        let blank = word.table.shared.split_seat::<Note>(&mut self.seat);
        Scribe::new(blank)
    }

    /// What was handed out are the first entries.
    pub fn compare(&mut self, word: &Word<N, E>, scribe: &mut Scribe<N, E>)
        ensures kept { self.new ≡ self.old }
        ensures same { scribe.new ≡ scribe.old }
        ensures first { BeginsWith self.old.log scribe.old }
    {
        let Scribe { seat, .. } = scribe.show(word);
        word.table.shared.join_seat::<Read>(&mut self.seat, seat);
        word.table.shared.load::<Compare>(&mut self.seat, 0);
    }

    /// All entries are handed out.
    pub fn write(&mut self, word: &Word<N, E>, scribe: &mut Scribe<N, E>)
        ensures kept { self.new ≡ self.old }
        ensures all { scribe.new ≡ self.old.log }
    {
        let seat = word.table.shared.split_seat::<Write>(&mut self.seat);
        let all = Scribe::new(seat);
        scribe.read(word, all);
    }
}
