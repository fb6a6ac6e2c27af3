//! The places of one of a peer's readers are tried again, as after a take that made room.
//!
//! RTPS 2.5, 8.4.12 (reliable StatefulReader).

ghost use Rattle.std.specs.Prelude.{◌≡◌, ◌<◌, ◌≤◌, length, OnErr, OnOk};
ghost use Rattle.dds_machine.specs.declared.reply.Reply.TheVariants.{Reported};
ghost use Rattle.dds_protocol.specs.declared.event.Event.TheVariants as event;
ghost use Rattle.dds_core.specs.Receiving.{CanTakeAt, GoOn, NothingDone, StandsAsWell};
ghost use Rattle.dds_core.specs.Resuming.{HasRow, ResumesAll, RowNeedsMemory, SameRows, TriesRow, again};
ghost use Rattle.dds_ends.specs.Sending.{AreMessages, max_unsent};
ghost use Rattle.dds_core.specs.Stepping.{SoundSteps};
ghost use Rattle.dds_ends.specs.Twins.{Twins, wants_two};

use crate::effects::Effects;
use crate::peer::Peer;
use dds_base::{Code, index_of};
use dds_ends::{Ready, Told, Twin, answered};
use dds_machine::{Reply, Report};
use dds_protocol::Output;

impl Peer {
    /// Makes memory for a try of the place of the reader of this index at the writer of this row.
    fn make_row_ready(&mut self, index: usize, row: usize) -> Result<(), Code>
        requires row { HasRow self.old index row }
        ensures ready { OnOk result (CanTakeAt self.new.readers index (again row)) }
        ensures rows { SameRows index self.old self.new }
        ensures stands { StandsAsWell self.old self.new }
    {
        self.readers[index].make_room(row)
    }

    /// The place of the reader of this index at the writer of this row is tried again, for which there is memory. Adds what
    /// moved, for which there is room.
    fn try_row(&mut self, effects: &mut Effects, index: usize, row: usize)
        requires can { CanTakeAt self.old.readers index (again row) }
        requires room { 3 ≤ effects.old.moves.room }
        requires low { effects.old.sent.unsent < max_unsent }
        ensures tries { TriesRow self.old index row effects.old self.new effects.new }
        ensures on { GoOn 1 effects.old effects.new }
    {
        let ready = Ready {
            row,
            told: Told::Again,
        };
        self.take_at(effects, index, ready);
    }

    /// The place of the reader of this index at the writer of this row is tried again, where something may go on there.
    /// Adds what moved. One at which nothing may needs no memory.
    fn resume_row(&mut self, effects: &mut Effects, index: usize, row: usize) -> Result<(), Code>
        requires row { HasRow self.old index row }
        requires low { effects.old.sent.unsent < max_unsent }
        ensures tries { OnOk result (TriesRow self.old index row effects.old self.new effects.new) }
        ensures on { GoOn 1 effects.old effects.new }
        ensures moves { OnErr result (effects.new.moves.items ≡ effects.old.moves.items) }
        ensures stands { OnErr result (StandsAsWell self.old self.new) }
        ensures needs { OnErr result (RowNeedsMemory self.old index row) }
    {
        if !self.readers[index].may_go_on(row) {
            return Ok(());
        }
        self.make_row_ready(index, row)?;
        effects.moves.reserve(3)?;
        self.try_row(effects, index, row);
        Ok(())
    }

    /// The places of the reader of this index are tried again, one after another, up to one for which there is no memory.
    fn resume_rows(&mut self, effects: &mut Effects, index: usize, twin: &mut Twin) -> Report
        requires within { index < length self.old.readers }
        requires none { NothingDone (wants_two twin.old) effects.old }
        ensures resumes { ResumesAll self.old index result self.new }
        ensures twin { Twins twin.old (Reported result) twin.new }
    {
        let count = self.readers[index].row_count();
        for row in 0..count {
            match self.resume_row(effects, index, row) {
                Ok(()) => {}
                Err(_) => return effects.moves.take_report(Some(row as u32), twin),
            }
        }
        effects.moves.take_report(None, twin)
    }

    /// The places of the reader of this number are tried again. Nothing is sent.
    pub(crate) fn resume(&mut self, reader: u8, twin: &mut Twin) -> Output
        ensures step { SoundSteps self.old (event.Resume reader) result self.new }
        ensures messages { AreMessages result.packets }
        ensures few { result.unsent < max_unsent }
        ensures twin { Twins twin.old result.reply twin.new }
    {
        let Some(index) = index_of(reader, self.readers.len()) else {
            return self.refused(Code::BadParameter);
        };
        let list = self.spare.moves.take(self.alloc);
        let mut effects = Effects::new(self.alloc, twin.is_asked(), list);
        let report = self.resume_rows(&mut effects, index, twin);
        answered(self.alloc, Reply::Reported(report))
    }
}
