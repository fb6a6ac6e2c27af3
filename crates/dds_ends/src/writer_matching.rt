//! What a writer of the peer is told of readers: which it is matched with, among them such as it did not know.
//!
//! RTPS 2.5, 8.4.7.4 (StatefulWriter, matched_reader_add, matched_reader_remove).

ghost use Rattle.std.specs.Prelude.{◌≡◌, ◌≢◌, None, IfErr, OnOk, OnErr};
ghost use Rattle.dds_base.specs.declared.code.Code.TheVariants.{Memory};
ghost use Rattle.dds_base.specs.Refusal.{Refuses};
ghost use Rattle.dds_ends.specs.Coming.{ForgetsRow, Joins, Leaves, RefusesSo, joining_refusal, leaving_refusal};
ghost use Rattle.dds_ends.specs.Meeting.{MayMeet, Meets, learned, meeting_refusal};

use crate::coming::{add_known, add_peer, add_row, is_full, remove_name, set_count, set_peers};
use crate::matched_rows::row_among;
use crate::matching::{ReaderName, TopicName};
use crate::writer_end::WriterEnd;
use dds_base::{Code, Endpoint};

impl WriterEnd {
    /// Has no row of this reader any more, but the count of the last of its ACKNACKs that was applied, for a match to come.
    fn forget_row(&mut self, reader: Endpoint)
        ensures { ForgetsRow self.old reader self.new }
    {
        let Some(row) = row_among(self.readers.as_slice(), reader) else {
            return;
        };
        let count = self.writer.leave(row);
        let _ = self.readers.remove(row);
        set_count(self.counts.as_mut_slice(), reader, count);
    }

    /// It is told that a reader has left: it has nothing more of that one, and what that one alone had not acknowledged
    /// is not kept any longer. It sends no more to that one's peer, unless another reader there is matched. No memory is
    /// wanted.
    ///
    /// # Errors
    ///
    /// `BadParameter` for a reader that is none of its topic, `PreconditionNotMet` where it is not matched with that
    /// one; the writer is then as it was.
    ///
    /// RTPS 2.5, 8.4.7.4 (StatefulWriter, matched_reader_remove).
    pub fn leave(&mut self, reader: Endpoint) -> Result<(), Code>
        ensures ok { OnOk result (Leaves self.old reader self.new) }
        ensures accepted { OnOk result
            (RefusesSo leaving_refusal self.old reader (λ refusal. refusal ≡ None)) }
        ensures refused { IfErr result
            (λ code. RefusesSo leaving_refusal self.old reader (λ refusal. refusal ≡ Some code)) }
        ensures no_memory { IfErr result (λ code. code ≢ Memory) }
        ensures err { OnErr result (self.new ≡ self.old) }
    {
        let Some(_) = self.knows(reader) else {
            return Err(Code::BadParameter);
        };
        if !self.is_matched(reader) {
            return Err(Code::PreconditionNotMet);
        }
        self.forget_row(reader);
        remove_name(&mut self.matched, reader);
        set_peers(&mut self.destinations, self.matched.as_slice());
        self.matches.end(reader);
        Ok(())
    }

    /// It is matched with this reader of its topic, which it was not matched with, from now on, and knows it: the reader
    /// comes last.
    ///
    /// # Errors
    ///
    /// `Memory` where a growth was refused; the writer is then as it was.
    fn attach(&mut self, known: TopicName, greeted: bool) -> Result<(), Code>
        requires may { MayMeet self.old known }
        ensures ok { OnOk result (Joins (learned self.old known) known.name.reader greeted self.new) }
        ensures memory { IfErr result (λ code. code ≡ Memory) }
        ensures err { OnErr result (self.new ≡ self.old) }
    {
        // Before anything changes.
        self.known.reserve(1)?;
        self.matched.reserve(1)?;
        self.destinations.reserve(1)?;
        add_row(
            &mut self.readers,
            &mut self.counts,
            &mut self.writer,
            known.name,
            known.is_reliable,
            greeted,
        )?;
        add_known(&mut self.known, known);
        self.matched.push_reserved(known.name);
        add_peer(&mut self.destinations, known.name.peer());
        self.matches.make(known.name.reader);
        Ok(())
    }

    /// It is told that it is matched with this reader of its topic from now on: the reader comes last. It is owed what
    /// is made from now on, and what was made counts as acknowledged. A reliable one that is greeted is silent until it
    /// answers.
    ///
    /// # Errors
    ///
    /// `BadParameter` for a reader that is none of its topic, `PreconditionNotMet` where it is matched with that one,
    /// `Memory` where a growth was refused; the writer is then as it was.
    ///
    /// RTPS 2.5, 8.4.7.4 (StatefulWriter, matched_reader_add); DDS 1.4, 2.2.3 (DURABILITY: VOLATILE).
    pub fn join(&mut self, reader: Endpoint, greeted: bool) -> Result<(), Code>
        ensures ok { OnOk result (Joins self.old reader greeted self.new) }
        ensures accepted { OnOk result
            (RefusesSo joining_refusal self.old reader (λ refusal. refusal ≡ None)) }
        ensures refused { IfErr result
            (λ code. RefusesSo joining_refusal self.old reader (λ refusal. Refuses refusal code)) }
        ensures err { OnErr result (self.new ≡ self.old) }
    {
        let Some(known) = self.knows(reader) else {
            return Err(Code::BadParameter);
        };
        if self.is_matched(reader) {
            return Err(Code::PreconditionNotMet);
        }
        self.attach(known, greeted)
    }

    /// Why it may not be matched from now on with this reader, which it may not know; `None` where want of memory alone may
    /// keep it from that.
    ///
    /// `PreconditionNotMet` where it is matched with the reader, `OutOfResources` where it does not know it, and knows 16
    /// others of its participant, or 2^31 - 1 in all.
    ///
    /// RTPS 2.5, 8.4.7.4 (StatefulWriter, matched_reader_add).
    pub fn meeting_cause(&self, reader: Endpoint) -> Option<Code>
        ensures cause { RefusesSo meeting_refusal self.now reader (λ refusal. refusal ≡ result) }
    {
        let is_matched = self.is_matched(reader);
        if is_matched {
            return Some(Code::PreconditionNotMet);
        }
        if let Some(_) = self.knows(reader) {
            return None;
        }
        if is_full(self.known.as_slice(), reader.peer) {
            return Some(Code::OutOfResources);
        }
        None
    }

    /// It is told that it is matched from now on with a reader that it may not know: the reader of this name, of its
    /// topic, which is reliable or not. It is told of it as by `join`, and knows it from now on. Of a reader that it
    /// knows it keeps the name, and whether that one is reliable.
    ///
    /// # Errors
    ///
    /// `PreconditionNotMet` where it is matched with the reader, `OutOfResources` where it does not know it, and knows 16
    /// others of its participant, or 2^31 - 1 in all, `Memory` where a growth was refused; the writer is then as it was.
    ///
    /// RTPS 2.5, 8.4.7.4 (StatefulWriter, matched_reader_add); DDS 1.4, 2.2.3 (DURABILITY: VOLATILE).
    pub fn meet(&mut self, name: ReaderName, is_reliable: bool, greeted: bool) -> Result<(), Code>
        ensures ok { OnOk result (Meets self.old name is_reliable greeted self.new) }
        ensures accepted { OnOk result
            (RefusesSo meeting_refusal self.old name.reader (λ refusal. refusal ≡ None)) }
        ensures refused { IfErr result
            (λ code. RefusesSo meeting_refusal self.old name.reader (λ refusal. Refuses refusal code)) }
        ensures err { OnErr result (self.new ≡ self.old) }
    {
        if self.is_matched(name.reader) {
            return Err(Code::PreconditionNotMet);
        }
        if let Some(known) = self.knows(name.reader) {
            return self.attach(known, greeted);
        }
        if is_full(self.known.as_slice(), name.reader.peer) {
            return Err(Code::OutOfResources);
        }
        self.attach(TopicName { name, is_reliable }, greeted)
    }
}
