//! Who hands out what happened, in pieces.
//!
//! Logs are this project's own.

ghost use Rattle.std.specs.Prelude.{◌≡◌, [], None};

use crate::rule::{Read, Seated, Show, View};
use crate::word::{HasWord, Word};
use atomic_table::Seat;
use std::marker::{Model, PhantomData};

/// Who hands out what happened: contracts see the entries that were handed out, which are the first ones. It has no bytes.
#[derive(Drop)]
pub struct Scribe<N: HasWord, E: Seated> {
    pub(crate) seat: Seat<u64, View<E>>,
    of: PhantomData<N>,
}

impl<N: HasWord, E: Seated> Model for Scribe<N, E> {
    ghost use Rattle.std.specs.Prelude.{◌≡◌, List, [], None};

    ghost Value = { List E };

    ghost view = { λ s. s.seat.me.0.written };

    ghost invariant = { λ s. (s.seat.table_id ≡ N.word) × (s.seat.me.1 ≡ []) × (s.seat.me.0.seat ≡ None)
        × (s.seat.me.0.list ≡ []) };
}

impl<N: HasWord, E: Seated> Scribe<N, E> {
    // Who has handed out what this seat knows of.
    pub(crate) fn new(seat: Seat<u64, View<E>>) -> Scribe<N, E>
        requires fits { (seat.table_id ≡ N.word) × (seat.me.1 ≡ []) }
        requires bare { (seat.me.0.seat ≡ None) × (seat.me.0.list ≡ []) }
        ensures written { result ≡ seat.me.0.written }
    {
        Scribe {
            seat,
            of: PhantomData,
        }
    }

    // One that has handed out as much.
    pub(crate) fn show(&mut self, word: &Word<N, E>) -> Scribe<N, E>
        ensures kept { self.new ≡ self.old }
        ensures same { result ≡ self.old }
    {
        let seat = word.table.shared.split_seat::<Show>(&mut self.seat);
        Scribe::new(seat)
    }

    // It has handed out as much as the other.
    pub(crate) fn read(&mut self, word: &Word<N, E>, other: Scribe<N, E>)
        ensures same { self.new ≡ other }
    {
        let Scribe { seat, .. } = other;
        word.table.shared.join_seat::<Read>(&mut self.seat, seat);
    }
}
