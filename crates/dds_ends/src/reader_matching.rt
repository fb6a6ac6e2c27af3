//! What a reader of the peer is told of the writers that it knows: which it is matched with.
//!
//! RTPS 2.5, 8.4.10.3 (StatefulReader, matched_writer_add, matched_writer_remove).

ghost use Rattle.std.specs.Prelude.{◌≡◌, ◌<◌, List, None, length, OnOk, OnErr, IfErr, IfOk};
ghost use Rattle.dds_base.specs.declared.code.Code.TheVariants.{Memory};
ghost use Rattle.dds_base.specs.declared.endpoint.Endpoint.{Endpoint as EndpointOf};
ghost use Rattle.dds_base.specs.Refusal.{Refuses};
ghost use Rattle.dds_machine.specs.Matching.{max_known};
ghost use Rattle.dds_machine.specs.Part.{Reader, WriterProxy, how_of, is_attached};
ghost use Rattle.rtps_reader.specs.Tracked.{Tracked};
ghost use Rattle.dds_ends.specs.Knowing.{KnowsMore};
ghost use Rattle.dds_ends.specs.Meeting.{MeetsWriter, RefusesWriterSo};
ghost use Rattle.dds_ends.specs.Parting.{Attaches, Detaches, IsPastParting, joined_here, left_here};
ghost use Rattle.dds_ends.specs.Standing.{IsFirstRow, ReaderStands};

use crate::matched_rows::writer_row_among;
use crate::matching::WriterName;
use crate::reader_end::ReaderEnd;
use dds_base::{Code, Endpoint, Handle, MatchedWriter, Moment};
use rtps_reader::Attachment;

/// The most writers that a reader knows: as many as a status counts.
const MAX_KNOWN: usize = i32::MAX as usize;

/// With so many a reader is matched that was matched with so many, once it is told of one that it was matched with or
/// not.
fn joined_here(was: bool, here: u32) -> u32
    ensures { result ≡ joined_here was here }
{
    if was { here } else { here.saturating_add(1) }
}

/// The same, once that one has left.
fn left_here(was: bool, here: u32) -> u32
    ensures { result ≡ left_here was here }
{
    if was { here.saturating_sub(1) } else { here }
}

impl ReaderEnd {
    /// Whether the reader is matched with the writer of this row, which it knows.
    ///
    /// RTPS 2.5, 8.4.10 (StatefulReader: matched_writers).
    pub fn is_attached(&self, row: usize) -> bool
        requires { row < length self.now.writers }
        ensures attached { (writer : EndpointOf) (proxies : List WriterProxy) (r : Reader)
            (tracked : EndpointOf → Tracked)
            → IsFirstRow self.now.writers writer row → ReaderStands self.now proxies r tracked
            → result ≡ is_attached (how_of proxies writer) }
    {
        !matches!(self.reader.how(row), Attachment::Away)
    }

    /// The reader is matched with the writer of this row, which it knows, from now on. Its place there stays where it is,
    /// and waits.
    ///
    /// RTPS 2.5, 8.4.10.3 (matched_writer_add).
    pub fn attach(&mut self, row: usize)
        requires { row < length self.old.writers }
        ensures attaches { Attaches self.old row self.new }
    {
        self.here = joined_here(self.is_attached(row), self.here);
        self.matches.make(self.writers[row].writer);
        self.reader.attach(row);
    }

    /// The reader knows one writer more, which it did not know: the last one. It is matched with it, and the place there
    /// waits.
    fn know(&mut self, name: WriterName, as_writer: MatchedWriter) -> Result<(), Code>
        requires few { length self.old.writers < max_known }
        ensures ok { OnOk result (KnowsMore self.old name as_writer self.new) }
        ensures err { OnErr result (self.new ≡ self.old) }
        ensures memory { IfErr result (λ code. code ≡ Memory) }
    {
        self.writers.reserve(1)?;
        self.reader.append(self.alloc)?;
        if let Err(code) = self.store.join(as_writer) {
            self.reader.forget_last();
            return Err(code);
        }
        self.writers.push_reserved(name);
        self.here = joined_here(false, self.here);
        self.matches.make(name.writer);
        Ok(())
    }

    /// Why the reader may not be matched from now on with this writer, which it may not know; `None` where want of memory
    /// alone may keep it from that.
    ///
    /// `PreconditionNotMet` where it is matched with that one, `OutOfResources` where it does not know that one and knows
    /// 2^31 - 1.
    ///
    /// RTPS 2.5, 8.4.10.3 (matched_writer_add).
    pub fn meeting_cause(&self, writer: Endpoint) -> Option<Code>
        ensures cause { RefusesWriterSo self.now writer (λ refusal. refusal ≡ result) }
    {
        let Some(row) = writer_row_among(self.writers.as_slice(), writer) else {
            if MAX_KNOWN <= self.writers.len() {
                return Some(Code::OutOfResources);
            }
            return None;
        };
        let is_matched = self.is_attached(row);
        if is_matched {
            return Some(Code::PreconditionNotMet);
        }
        None
    }

    /// The reader is matched with this writer from now on, which it may not know; gives the row. One that it knows keeps
    /// its row, its name and what was announced of it; one that it does not know has the last row.
    ///
    /// # Errors
    ///
    /// `PreconditionNotMet` where it is matched with that one, `OutOfResources` where it does not know that one and knows
    /// 2^31 - 1, `Memory` where a growth was refused, or more than 2^64 - 1 entries would have happened; the reader is
    /// then as it was.
    ///
    /// RTPS 2.5, 8.4.10.3 (matched_writer_add).
    pub fn meet(&mut self, name: WriterName, as_writer: MatchedWriter) -> Result<usize, Code>
        ensures ok { IfOk result (λ row. MeetsWriter self.old name as_writer row self.new) }
        ensures few { IfOk result (λ row. row < max_known) }
        ensures accepted { OnOk result
            (RefusesWriterSo self.old name.writer (λ refusal. refusal ≡ None)) }
        ensures refused { IfErr result
            (λ code. RefusesWriterSo self.old name.writer (λ refusal. Refuses refusal code)) }
        ensures err { OnErr result (self.new ≡ self.old) }
    {
        let Some(row) = writer_row_among(self.writers.as_slice(), name.writer) else {
            let row = self.writers.len();
            if MAX_KNOWN <= row {
                return Err(Code::OutOfResources);
            }
            self.know(name, as_writer)?;
            return Ok(row);
        };
        if self.is_attached(row) {
            return Err(Code::PreconditionNotMet);
        }
        self.attach(row);
        Ok(row)
    }

    /// The writer of this row left at this moment: the reader is matched with it no longer. A writer that is alive dies
    /// first, so it is registered for nothing any more. The reader's place there stays where it is. It takes no memory.
    ///
    /// # Errors
    ///
    /// `Memory` where with it more than 2^64 - 1 entries would have happened; the reader is then as it was.
    ///
    /// RTPS 2.5, 8.4.10.3 (matched_writer_remove); DDS 1.4, 2.2.4.1 (LivelinessChangedStatus: not_alive_count).
    pub fn detach(&mut self, row: usize, now: Moment) -> Result<(), Code>
        requires { row < length self.old.writers }
        ensures ok { OnOk result (Detaches self.old row now self.new) }
        ensures err { OnErr result (self.new ≡ self.old) }
        ensures past { OnErr result (IsPastParting self.old row now) }
        ensures memory { IfErr result (λ code. code ≡ Memory) }
    {
        let was = self.is_attached(row);
        self.store.leave(Handle::new(row as u64 + 1), now)?;
        self.here = left_here(was, self.here);
        self.matches.end(self.writers[row].writer);
        self.reader.detach(row);
        Ok(())
    }
}
