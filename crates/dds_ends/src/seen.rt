//! What was seen of a reader's statuses.
//!
//! DDS 1.4, 2.2.4.1 (communication statuses: each tells its change against the last look). `docs/DECISIONS.md`, "A
//! reader's cache", says why a look is kept as what it saw.

ghost use Rattle.std.specs.Prelude.{◌≡◌, ◌<◌, ◌^◌, pos};
ghost use Rattle.dds_base.specs.StatusFlags.{is_after};

use std::marker::Model;

/// How many writers: no more than a status counts (DDS 1.4, 2.3.3: a long).
#[derive(Clone, Copy)]
pub struct WriterCount {
    count: u32,
}

impl Model for WriterCount {
    ghost use Rattle.std.specs.Prelude.{ℕ, ◌^◌, ◌<◌};

    ghost Value = { ℕ };

    ghost view = { λ c. c.count };

    ghost invariant = { λ c. c.count < 2 ^ 31 };

    ghost inverse = { λ n. record { count = n } };
}

impl WriterCount {
    /// No writer.
    pub const NONE: WriterCount = WriterCount { count: 0 };

    /// So many.
    pub fn new(count: usize) -> WriterCount
        requires few { count < 2 ^ 31 }
        ensures count { result ≡ count }
    {
        WriterCount {
            count: count as u32,
        }
    }

    /// So many, as a status has them.
    pub fn get(self) -> i32
        ensures count { result ≡ pos self }
    {
        self.count as i32
    }
}

/// What a reader's statuses said when each was looked at last, by a call or as a listener was told.
#[derive(Clone, Copy)]
pub struct Seen {
    /// The total of SAMPLE_LOST.
    pub lost: u64,
    /// How many entries there were as SAMPLE_LOST was looked at.
    pub entries_at_lost: u64,
    /// How many entries there were as DATA_AVAILABLE was looked at.
    pub entries_at_data: u64,
    /// How many matched writers were alive as LIVELINESS_CHANGED was looked at.
    pub alive: WriterCount,
    /// How many had died and were not alive then.
    pub not_alive: WriterCount,
    /// How many entries there were then.
    pub entries_at_turn: u64,
}

impl Model for Seen {
    ghost use Rattle.dds_machine.specs.Part.{Seen as SeenOf};

    ghost Value = { SeenOf };

    ghost view = { λ s. record { lost = s.lost; entries_at_lost = s.entries_at_lost; entries_at_data = s.entries_at_data; alive = s.alive; not_alive = s.not_alive; entries_at_turn = s.entries_at_turn } };

    ghost inverse = { λ s. record { lost = s.lost; entries_at_lost = s.entries_at_lost; entries_at_data = s.entries_at_data; alive = s.alive; not_alive = s.not_alive; entries_at_turn = s.entries_at_turn } };
}

impl Seen {
    /// Before the first looks.
    pub const NOTHING: Seen = Seen {
        lost: 0,
        entries_at_lost: 0,
        entries_at_data: 0,
        alive: WriterCount::NONE,
        not_alive: WriterCount::NONE,
        entries_at_turn: 0,
    };
}

/// Whether there is an entry of this kind, by the position of the newest, and it came after so many entries.
pub fn is_after(entries: u64, position: Option<u64>) -> bool
    ensures { result ≡ is_after entries position }
{
    match position {
        Some(position) => entries < position,
        None => false,
    }
}
