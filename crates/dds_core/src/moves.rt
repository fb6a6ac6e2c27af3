//! The moves of a delivery, and the same once more where two reports are asked for.
//!
//! RTPS 2.5, 8.4 (behaviour). Outputs that are given twice are this project's own.

ghost use Rattle.std.specs.Prelude.{◌≡◌, ◌++◌, ◌∷◌, [], ◌+◌, ◌≤◌, false, true, if◌then◌else◌, length, OnErr, OnOk, vec_capacity, vec_len};
ghost use Rattle.dds_machine.specs.declared.reply.Reply.TheVariants.{Reported};
ghost use Rattle.dds_core.specs.Moved.{IsFew};
ghost use Rattle.dds_ends.specs.Twins.{Twins, wants_two};
ghost use Rattle.dds_ends.specs.declared.twin.Twin.TheVariants.{Kept};

use dds_base::{PassedRun, Sequence, reserve_few};
use dds_ends::Twin;
use dds_machine::{Move, Reply, Report};
use std::alloc::{AllocError, Global};
use std::marker::Model;
use std::mem;

/// A step passes over so many runs at most.
const MOST_RUNS: usize = 257;

/// Memory for the runs of one move.
#[derive(Drop)]
struct Runs {
    runs: Vec<PassedRun>,
    ghost room: { 257 ≤ vec_capacity runs },
    ghost none: { vec_len runs ≡ 0 },
}

/// Moves once more, with the memory for more of them.
#[derive(Drop)]
struct Copies {
    alloc: Global,
    moves: Vec<Move>,
    spare: Vec<Runs>,
    room: usize,
}

impl Model for Copies {
    ghost use Rattle.std.specs.Prelude.{◌≤◌, ◌+◌, vec_len, vec_capacity};
    ghost use Rattle.dds_core.specs.Moved.{CopiesKept};

    ghost Value = { CopiesKept };

    ghost view = { λ c. record { items = c.moves.items; room = c.room } };

    ghost invariant = { λ c. (vec_len c.moves + c.room ≤ vec_capacity c.moves) × (c.room ≤ vec_len c.spare) };
}

/// Moves in the order in which they were made, and once more where they are kept twice.
#[derive(Drop)]
pub struct Moves {
    alloc: Global,
    moves: Vec<Move>,
    copies: Option<Copies>,
    room: usize,
}

impl Model for Moves {
    ghost use Rattle.std.specs.Prelude.{◌≤◌, ◌+◌, is_some, vec_len, vec_capacity};
    ghost use Rattle.dds_core.specs.Moved.{AreCopies, MovesKept};

    ghost Value = { MovesKept };

    ghost view = { λ m. record { items = m.moves.items; room = m.room; twice = is_some m.copies } };

    ghost invariant = { λ m. (vec_len m.moves + m.room ≤ vec_capacity m.moves) × AreCopies m.copies m.moves.items m.room };
}

impl Runs {
    fn new(alloc: Global) -> Result<Runs, AllocError> {
        let runs = Vec::with_capacity(alloc, MOST_RUNS)?;
        Ok(Runs { runs })
    }

    /// The same runs, in this memory.
    fn filled(self, passed: &[PassedRun]) -> Sequence<PassedRun>
        requires { length passed.now ≤ 257 }
        ensures { result ≡ passed.now }
    {
        let Runs { mut runs } = self;
        for run in passed {
            runs.push_reserved(*run);
        }
        Sequence::from_vec(runs)
    }
}

/// Makes memory for the runs of so many moves.
fn fill(alloc: Global, spare: &mut Vec<Runs>, count: usize) -> Result<(), AllocError>
    ensures more { vec_len spare.old ≤ vec_len spare.new }
    ensures ok { OnOk result (count ≤ vec_len spare.new) }
{
    while spare.len() < count {
        let runs = Runs::new(alloc)?;
        spare.push(runs)?;
    }
    Ok(())
}

/// The same move, in memory that was made before.
fn copied(spare: &mut Vec<Runs>, made: &Move) -> Move
    requires room { 1 ≤ vec_len spare.old }
    requires few { IsFew made.now }
    ensures same { result ≡ made.now }
    ensures room { vec_len spare.new + 1 ≡ vec_len spare.old }
{
    let runs = spare.pop().unwrap();
    match made {
        Move::Place {
            writer,
            reader,
            to,
            passed,
        } => Move::Place {
            writer: *writer,
            reader: *reader,
            to: *to,
            passed: runs.filled(passed.as_slice()),
        },
        Move::Heard { writer, reader } => Move::Heard {
            writer: *writer,
            reader: *reader,
        },
        Move::Begun {
            writer,
            reader,
            from,
            to,
        } => Move::Begun {
            writer: *writer,
            reader: *reader,
            from: *from,
            to: *to,
        },
        Move::Acknowledged { writer, reader, to } => Move::Acknowledged {
            writer: *writer,
            reader: *reader,
            to: *to,
        },
        Move::Strange { writer, reader } => Move::Strange {
            writer: *writer,
            reader: *reader,
        },
    }
}

impl Copies {
    /// No moves, and no room. Takes no memory.
    fn new(alloc: Global) -> Copies
        ensures { result ≡ record { items = []; room = 0 } }
    {
        Copies {
            alloc,
            moves: Vec::new(alloc),
            spare: Vec::new(alloc),
            room: 0,
        }
    }

    /// Makes room for so many moves.
    fn reserve(&mut self, count: usize) -> Result<(), AllocError>
        ensures items { self.new.items ≡ self.old.items }
        ensures ok { OnOk result (self.new.room ≡ count) }
        ensures err { OnErr result (self.new ≡ self.old) }
    {
        self.moves.reserve(count)?;
        fill(self.alloc, &mut self.spare, count)?;
        self.room = count;
        Ok(())
    }

    /// Adds a move, for which there is room.
    fn push_reserved(&mut self, made: &Move)
        requires room { 1 ≤ self.old.room }
        requires few { IsFew made.now }
        ensures items { self.new.items ≡ self.old.items ++ made.now ∷ [] }
        ensures room { self.new.room + 1 ≡ self.old.room }
    {
        let copy = copied(&mut self.spare, made);
        self.moves.push_reserved(copy);
        self.room -= 1;
    }

    /// The moves.
    fn into_moves(self) -> Sequence<Move>
        ensures { result ≡ self.items }
    {
        let Copies { moves, .. } = self;
        Sequence::from_vec(moves)
    }
}

impl Moves {
    /// No moves, and no room: to be kept twice, or once; they are to be kept in this empty list. Takes no memory.
    pub fn new(alloc: Global, twice: bool, list: Vec<Move>) -> Moves
        requires empty { list.items ≡ [] }
        ensures { result ≡ record { items = []; room = 0; twice = twice } }
    {
        let copies = if twice {
            Some(Copies::new(alloc))
        } else {
            None
        };
        Moves {
            alloc,
            moves: list,
            copies,
            room: 0,
        }
    }

    /// Makes room for so many moves.
    #[inline(always)]
    pub fn reserve(&mut self, count: usize) -> Result<(), AllocError>
        ensures items { self.new.items ≡ self.old.items }
        ensures twice { self.new.twice ≡ self.old.twice }
        ensures ok { OnOk result (self.new.room ≡ count) }
    {
        reserve_few(&mut self.moves, count)?;
        if let Some(copies) = &mut self.copies {
            copies.reserve(count)?;
        }
        self.room = count;
        Ok(())
    }

    /// Adds a move, for which there is room.
    #[inline(always)]
    pub fn push_reserved(&mut self, made: Move)
        requires room { 1 ≤ self.old.room }
        requires few { IsFew made }
        ensures items { self.new.items ≡ self.old.items ++ made ∷ [] }
        ensures twice { self.new.twice ≡ self.old.twice }
        ensures room { self.new.room + 1 ≡ self.old.room }
    {
        if let Some(copies) = &mut self.copies {
            copies.push_reserved(&made);
        }
        self.moves.push_reserved(made);
        self.room -= 1;
    }

    /// Hands on the report once more, where the moves are kept twice.
    // Few ask for two, and the others need no place for what is handed on.
    #[inline(never)]
    fn hand_on(&mut self, refused: Option<u32>, twin: &mut Twin)
        ensures items { self.new.items ≡ self.old.items }
        ensures once { self.new.twice ≡ false }
        ensures handed { twin.new ≡ (if self.old.twice
            then Kept (Reported (record { moves = self.old.items; refused = refused }))
            else twin.old) }
    {
        if let Some(copies) = self.copies.take() {
            *twin = Twin::Kept(Reply::Reported(Report {
                moves: copies.into_moves(),
                refused,
            }));
        }
    }

    /// The report of the moves, and once more where two are asked for. It takes no memory.
    pub fn take_report(&mut self, refused: Option<u32>, twin: &mut Twin) -> Report
        requires twice { wants_two twin.old ≡ true → self.old.twice ≡ true }
        ensures report { result ≡ record { moves = self.old.items; refused = refused } }
        ensures twin { Twins twin.old (Reported result) twin.new }
    {
        if self.copies.is_some() {
            self.hand_on(refused, twin);
        }
        self.room = 0;
        let moves = mem::replace(&mut self.moves, Vec::new(self.alloc));
        Report {
            moves: Sequence::from_vec(moves),
            refused,
        }
    }
}
