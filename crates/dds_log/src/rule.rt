//! What holds of the word and of all who know something of it, and the steps that keep it.
//!
//! Logs are this project's own.

use atomic_table::{Join, Play, Split, TableRule};
use std::collections::LinkedList;
use std::marker::PhantomData;

/// Whose entry it is: each is made in a seat.
pub trait Seated {
    ghost use Rattle.std.specs.Prelude.{ℕ};

    ghost seat: { Self → ℕ };
}

/// What one who steps knows. No value of it is made.
pub struct View<E> {
    /// Whether it is the keeper's.
    pub keeps: bool,
    /// What the keeper has counted; 0 of another.
    pub count: u64,
    /// A number that the word has reached.
    pub at: u64,
    /// The first seat that nobody has yet, of the keeper.
    pub next: u64,
    /// The seat in which it may add entries.
    pub seat: Option<u64>,
    /// The entries that stand with it.
    pub list: LinkedList<E>,
    /// All entries, of the keeper.
    pub log: LinkedList<E>,
    /// The first entries, which were handed out, of who hands them out.
    pub written: LinkedList<E>,
}

pub struct Rule<E> {
    of: PhantomData<E>,
}

impl<E: Seated> TableRule<u64, View<E>, ()> for Rule<E> {
    ghost use Rattle.dds_log.specs.Logs.{IsLogged, keeper_of};
    ghost use Rattle.std.specs.Prelude.{[]};

    ghost holds = { λ _. IsLogged E.seat };

    ghost first = { λ _. keeper_of 1 [] };
}

/// One looks how far the word is.
pub struct Look;

impl<E> Play<u64, View<E>> for Look {
    ghost use Rattle.dds_log.specs.Logs.{Looks};

    ghost then = { Looks };
}

/// One looks whether it has all.
pub struct Settle;

impl<E: Seated> Play<u64, View<E>> for Settle {
    ghost use Rattle.dds_log.specs.Logs.{Settles};

    ghost then = { Settles E.seat };
}

/// What one has seen, told to another.
pub struct Note;

impl<E> Split<View<E>> for Note {
    ghost use Rattle.dds_log.specs.Logs.{told};

    ghost left = { λ v. v };

    ghost right = { told };
}

/// All that one has, handed on.
pub struct All;

impl<E> Split<View<E>> for All {
    ghost use Rattle.dds_log.specs.Logs.{emptied, handed};

    ghost left = { emptied };

    ghost right = { handed };
}

/// A new seat.
pub struct Another;

impl<E> Split<View<E>> for Another {
    ghost use Rattle.dds_log.specs.Logs.{one_less, newcomer};

    ghost left = { one_less };

    ghost right = { newcomer };
}

/// What one has, taken in by another.
pub struct Take;

impl<E> Join<View<E>> for Take {
    ghost use Rattle.dds_log.specs.Logs.{joined, nobody};

    ghost both = { joined };

    ghost spent = { nobody };
}

/// What was handed out, told to another.
pub struct Show;

impl<E> Split<View<E>> for Show {
    ghost use Rattle.dds_log.specs.Logs.{shown};

    ghost left = { λ v. v };

    ghost right = { shown };
}

/// All entries, handed out by the keeper.
pub struct Write;

impl<E> Split<View<E>> for Write {
    ghost use Rattle.dds_log.specs.Logs.{written_out};

    ghost left = { λ v. v };

    ghost right = { written_out };
}

/// What was handed out, taken in by another.
pub struct Read;

impl<E> Join<View<E>> for Read {
    ghost use Rattle.dds_log.specs.Logs.{nobody, read_in};

    ghost both = { read_in };

    ghost spent = { nobody };
}

/// One looks which entries are left behind those that were handed out.
pub struct Compare;

impl<E> Play<u64, View<E>> for Compare {
    ghost use Rattle.dds_log.specs.Logs.{Compares};

    ghost then = { Compares };
}
