//! What the statuses of a peer said before an event, by which is known what the event raised.
//!
//! DDS 1.4, 2.2.4.2.1, 2.2.4.2.2 (changes in status). `docs/DECISIONS.md`, "Listeners, filters and WaitSets",
//! says why it is seen from outside.

ghost use Rattle.std.specs.Prelude.{◌≤◌, length};
ghost use Rattle.dds_base.specs.Bounds.{max_ends};
ghost use Rattle.dds_ends.specs.Noticing.{MarksReaders, MarksWriters};

use crate::reader_end::ReaderEnd;
use crate::writer_end::WriterEnd;
use dds_base::MAX_ENDS;

/// Of a reader: how much had happened, and how many writers it was matched with.
#[derive(Clone, Copy)]
pub struct ReaderMark {
    pub happened: u64,
    pub here: u32,
}

impl ReaderMark {
    /// Of a reader at which nothing has happened, and that is matched with nobody.
    pub const NOTHING: ReaderMark = ReaderMark {
        happened: 0,
        here: 0,
    };
}

/// Of a writer: how often its liveliness was lost, and how many readers were matched with it.
#[derive(Clone, Copy)]
pub struct WriterMark {
    pub losses: u64,
    pub matched: u32,
}

impl WriterMark {
    /// Of a writer at which nothing has happened.
    pub const NOTHING: WriterMark = WriterMark {
        losses: 0,
        matched: 0,
    };
}

/// The marks of each writer and of each reader.
#[derive(Drop)]
pub struct Marks {
    pub writers: [WriterMark; MAX_ENDS],
    pub readers: [ReaderMark; MAX_ENDS],
}

impl Marks {
    /// Of a peer at which nothing has happened.
    pub const NOTHING: Marks = Marks {
        writers: [WriterMark::NOTHING; MAX_ENDS],
        readers: [ReaderMark::NOTHING; MAX_ENDS],
    };
}

/// The marks of each of these writers.
pub fn mark_writers(writers: &[WriterEnd]) -> [WriterMark; MAX_ENDS]
    requires few { length writers.now ≤ max_ends }
    ensures { MarksWriters writers.now (length writers.now) result }
{
    let mut marks = [WriterMark::NOTHING; MAX_ENDS];
    for index in 0..writers.len() {
        marks[index] = writers[index].mark();
    }
    marks
}

/// The marks of each of these readers.
pub fn mark_readers(readers: &[ReaderEnd]) -> [ReaderMark; MAX_ENDS]
    requires few { length readers.now ≤ max_ends }
    ensures { MarksReaders readers.now (length readers.now) result }
{
    let mut marks = [ReaderMark::NOTHING; MAX_ENDS];
    for index in 0..readers.len() {
        marks[index] = readers[index].mark();
    }
    marks
}
