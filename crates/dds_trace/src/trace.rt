//! The trace of a peer: what it did, event by event.
//!
//! Traces are this project's own.

ghost use Rattle.std.specs.Prelude.{◌≡◌, ◌++◌, ◌∷◌, [], ◌+◌, ◌<◌, ◌≤◌, length, OnOk, OnErr, IsOk, IfErr, slice_get, Some, IsTrue, ◌↔◌};
ghost use Rattle.dds_base.specs.declared.code.Code.TheVariants.{Memory};

use dds_base::Code;
use dds_log::Seated;
use dds_protocol::laws::{events_are_compared, outputs_are_compared};
use dds_protocol::{Event, Output};
use std::alloc::Global;
use std::marker::Model;

/// An event of a peer, and what the peer gave back.
#[derive(Debug, Drop, PartialEq, Eq)]
pub struct Entry {
    /// Who had the event done, by a number that whoever writes the trace gives.
    pub seat: u32,
    /// What happened.
    pub event: Event,
    /// What the peer gave back: its answer, and the packets that it sent.
    pub output: Output,
}

impl Entry {
    /// Whether both are the same entry: of one seat, with equal events and outputs.
    pub fn same(&self, other: &Entry) -> bool
        ensures equal { IsTrue result ↔ (self.now ≡ other.now) }
    {
        self.seat == other.seat
            && events_are_compared(&self.event, &other.event)
            && outputs_are_compared(&self.output, &other.output)
    }
}

impl Seated for Entry {
    ghost seat = { λ e. e.seat };
}

/// What a peer did, event by event. Contracts see the number of the peer, the entries, and for how many more there is
/// room.
#[derive(Debug, Drop)]
pub struct Trace {
    peer: u32,
    entries: Vec<Entry>,
}

impl Model for Trace {
    ghost use Rattle.std.specs.Prelude.{◌-◌, vec_capacity, vec_len};
    ghost use Rattle.dds_trace.specs.Entries.{Traced};

    ghost Value = { Traced };

    ghost view = { λ t. record {
      peer = t.peer;
      entries = t.entries.items;
      spare = vec_capacity t.entries - vec_len t.entries;
    } };
}

impl Trace {
    /// The trace of the peer of this number, in which nothing happened. It takes no memory.
    pub fn open(alloc: Global, peer: u32) -> Trace
        ensures peer { result.peer ≡ peer }
        ensures entries { result.entries ≡ [] }
    {
        Trace {
            peer,
            entries: Vec::new(alloc),
        }
    }

    /// The trace of the peer of this number, which did this. It takes no memory.
    pub fn from_entries(peer: u32, entries: Vec<Entry>) -> Trace
        ensures peer { result.peer ≡ peer }
        ensures entries { result.entries ≡ entries.items }
    {
        Trace { peer, entries }
    }

    /// Makes room for so many more entries: as many that follow find it.
    ///
    /// # Errors
    ///
    /// `Memory` where a growth was refused; the trace is then as it was.
    pub fn reserve(&mut self, additional: usize) -> Result<(), Code>
        // There is room for so many, and no less than before; nothing else changes.
        ensures room { OnOk result (additional ≤ self.new.spare) }
        ensures spare { self.old.spare ≤ self.new.spare }
        ensures same { self.new ≡ record self.old { spare = self.new.spare } }
        // Where there is enough it succeeds.
        ensures succeeds { additional ≤ self.old.spare → IsOk result }
        // A refusal is for want of memory, and changes nothing.
        ensures refused { IfErr result (λ code. code ≡ Memory) }
        ensures err { OnErr result (self.new ≡ self.old) }
    {
        self.entries.reserve(additional)?;
        Ok(())
    }

    /// Enters an event, in the room that there is for it: it takes no memory.
    pub fn push(&mut self, entry: Entry)
        // There is room.
        requires room { 0 < self.old.spare }
        // It is the last one, and there is room for one less; the peer stays.
        ensures entries { self.new.entries ≡ self.old.entries ++ entry ∷ [] }
        ensures spare { self.new.spare + 1 ≡ self.old.spare }
        ensures peer { self.new.peer ≡ self.old.peer }
    {
        self.entries.push_reserved(entry);
    }

    /// How many entries there are.
    pub fn len(&self) -> usize
        ensures count { result ≡ length self.now.entries }
    {
        self.entries.len()
    }

    /// The entry of this index, from 0, in the order in which they were entered.
    pub fn entry(&self, index: usize) -> &Entry
        // There is one.
        requires within { index < length self.now.entries }
        ensures entry { slice_get self.now.entries index ≡ Some result.now }
    {
        &self.entries[index]
    }

    /// The entries, in the order in which they were entered.
    pub fn as_slice(&self) -> &[Entry]
        ensures entries { result.now ≡ self.now.entries }
    {
        self.entries.as_slice()
    }
}
