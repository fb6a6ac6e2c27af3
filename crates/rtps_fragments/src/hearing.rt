//! The fragments of known writers.
//!
//! RTPS 2.5, 8.3.4 (the message receiver) and 8.3.8.3 (DataFrag).

ghost use Rattle.std.specs.Prelude.{◌≡◌, ◌<◌, ◌++◌, false, length, ◌≤◌, find, is_some, IfOk, IfErr, IfSome, OnOk, OnErr};
ghost use Rattle.std.specs.Option.{option_map, option_to_list};
ghost use Rattle.std.specs.List.{position};
ghost use Rattle.rtps_fragments.specs.Hearing.{HearsFront, HearsMessage, HearsOne, HearsAll, HearsSome, IsWanted, is_row, knowing, forgetting, rows_of, told, IsKnown};
ghost use Rattle.rtps_fragments.specs.Asking.{AreAgain, BeginsAgain, IsAgainBy, came_of, kept_of_change};

use crate::assembly::Assembly;
use crate::data_frag::{DataFrag, read_fragment};
use crate::nack_frag::ChangeId;
use crate::names::MAX_CARRIED;
use crate::row::WriterRow;
use crate::telling::InForce;
use dds_base::{Code, EntityId, Guid, GuidPrefix, Octets};
use rtps_wire::{Frame, begin_message, next_frame};
use std::alloc::Global;
use std::marker::Model;

/// The fragments of known writers, of payloads that are not whole.
///
/// Of each writer at most 16 numbers are kept at a time, in less than 2^20 octets: where one more comes, the one that
/// began first makes room. A number is of one fragment size and one whole length, those of the DATA_FRAG that began it.
///
/// RTPS 2.5, 8.3.8.3.
#[derive(Drop)]
pub struct Fragments {
    rows: Vec<WriterRow>,
}

impl Model for Fragments {
    ghost use Rattle.std.specs.Prelude.{List};
    ghost use Rattle.rtps_fragments.specs.Hearing.{Row};

    ghost Value = { List Row };

    ghost view = { λ f. f.rows.items };
}

/// The place of a writer.
fn place_of(rows: &[WriterRow], prefix: &GuidPrefix, entity: &EntityId) -> Option<usize>
    ensures { result ≡ position (is_row prefix.now entity.now) rows.now }
{
    rows.iter().position(|row| row.is_of(prefix, entity))
}

/// Appends a change, if it is one.
fn put_any(changes: &mut Vec<ChangeId>, change: Option<ChangeId>) -> Result<(), Code>
    ensures ok { OnOk result (changes.new.items ≡ changes.old.items ++ option_to_list change) }
    ensures memory { IfErr result (λ e. e ≡ Code.Memory) }
{
    if let Some(change) = change {
        changes.push(change)?;
    }
    Ok(())
}

/// The row of a writer, if it is known.
fn row_of<'a>(rows: &'a [WriterRow], writer: &Guid) -> Option<&'a WriterRow>
    ensures { option_map (λ r. r.now) result
        ≡ find (is_row writer.now.prefix writer.now.entity) rows.now }
{
    rows.iter()
        .find(|row| row.is_of(&writer.prefix, &writer.entity))
}

impl Fragments {
    /// Nothing of these writers yet.
    ///
    /// # Errors
    ///
    /// `Memory` where no memory was found for the list.
    pub fn new(alloc: Global, writers: &[Guid]) -> Result<Fragments, Code>
        // Each writer has its row, and nothing is kept.
        ensures none { IfOk result (λ f. f ≡ rows_of writers.now) }
        // The only refusal is for want of memory.
        ensures memory { IfErr result (λ e. e ≡ Code.Memory) }
    {
        let mut rows = Vec::with_capacity(alloc, writers.len())?;
        for writer in writers {
            rows.push(WriterRow::new(alloc, *writer))?;
        }
        Ok(Fragments { rows })
    }

    /// Knows one more writer, of which nothing came; one that is known stays as it is.
    ///
    /// # Errors
    ///
    /// `Memory` where no memory was found for a writer that was not known.
    pub fn know(&mut self, alloc: Global, writer: Guid) -> Result<(), Code>
        // It has a row behind the others, unless it had one.
        ensures ok { OnOk result (self.new ≡ knowing self.old writer) }
        // A refusal leaves all as it was.
        ensures err { OnErr result (self.new ≡ self.old) }
        // Memory is wanted only for a writer that is not known.
        ensures memory { IfErr result (λ e. (e ≡ Code.Memory)
            × (is_some (position (is_row writer.prefix writer.entity) self.old) ≡ false)) }
    {
        if place_of(self.rows.as_slice(), &writer.prefix, &writer.entity).is_some() {
            return Ok(());
        }
        self.rows.push(WriterRow::new(alloc, writer))?;
        Ok(())
    }

    /// Knows a writer no more, with what is kept of it.
    pub fn forget(&mut self, writer: &Guid)
        // Its row is gone, and no other.
        ensures rows { self.new ≡ forgetting self.old writer.now }
    {
        if let Some(place) = place_of(self.rows.as_slice(), &writer.prefix, &writer.entity) {
            let _ = self.rows.remove(place);
        }
    }

    /// What is kept of a change, if something is.
    fn kept(&self, writer: &Guid, writer_sn: u64) -> Option<&Assembly>
        ensures { option_map (λ a. a.now) result ≡ kept_of_change self.now writer.now writer_sn }
    {
        match row_of(self.rows.as_slice(), writer) {
            Some(row) => row.number(writer_sn),
            None => None,
        }
    }

    /// Of each fragment of a change whether it came, where some came and not all.
    pub fn came(&self, change: &ChangeId) -> Option<&[bool]>
        // It is so as it is kept.
        ensures came { option_map (λ came. came.now) result
            ≡ came_of self.now change.now.writer change.now.writer_sn }
        // A payload has so many at most.
        ensures few { IfSome result (λ came. length came.now ≤ MAX_CARRIED) }
    {
        match self.kept(&change.writer, change.writer_sn) {
            Some(assembly) => Some(assembly.came()),
            None => None,
        }
    }

    /// The change that a submessage begins again, if it does.
    fn again_by(&self, source: GuidPrefix, frame: &Frame) -> Option<ChangeId>
        ensures { IsAgainBy self.now source frame.now.id frame.now.flags frame.now.body.now result }
    {
        let fragment = read_fragment(frame)?;
        let writer = Guid {
            prefix: source,
            entity: fragment.writer_id,
        };
        match self.kept(&writer, fragment.writer_sn) {
            Some(assembly) if assembly.is_again(&fragment) => Some(ChangeId {
                writer,
                writer_sn: fragment.writer_sn,
            }),
            _ => None,
        }
    }

    /// The changes that the submessages of a message begin again.
    fn again_in(
        &self,
        alloc: Global,
        source: GuidPrefix,
        body: &[u8],
    ) -> Result<Vec<ChangeId>, Code>
        ensures ok { IfOk result (λ again. AreAgain self.now source body.now again.items) }
        ensures memory { IfErr result (λ e. e ≡ Code.Memory) }
    {
        let mut again = Vec::new(alloc);
        let mut left = body;
        while let Some((frame, rest)) = next_frame(left) {
            put_any(&mut again, self.again_by(source, &frame))?;
            left = rest;
        }
        Ok(again)
    }

    /// The changes that a datagram begins again, in its order: it has their first fragments, which came before, and
    /// not all came. A product that sends the first alone waits until the others are asked for.
    ///
    /// # Errors
    ///
    /// `Memory` where no memory was found for the list.
    ///
    /// RTPS 2.5, 8.3.8.3 and 8.3.8.10.
    pub fn again(&self, alloc: Global, bytes: &[u8]) -> Result<Vec<ChangeId>, Code>
        // They are those whose first fragment is kept as the datagram comes.
        ensures again { IfOk result (λ again. BeginsAgain bytes.now self.now again.items) }
        // The only refusal is for want of memory.
        ensures memory { IfErr result (λ e. e ≡ Code.Memory) }
    {
        match begin_message(bytes) {
            Some((source, body)) => self.again_in(alloc, source, body),
            None => Ok(Vec::new(alloc)),
        }
    }

    /// A DATA_FRAG is heard, and the message of a payload that it made whole appended.
    fn hear_fragment(
        &mut self,
        alloc: Global,
        in_force: &InForce,
        fragment: &DataFrag,
        whole: &mut Vec<Octets>,
    ) -> Result<(), Code>
        ensures rows { OnOk result (self.new ≡ (told in_force.now self.old fragment.now).rows) }
        ensures whole { OnOk result (whole.new.items
            ≡ whole.old.items ++ option_to_list ((told in_force.now self.old fragment.now).message)) }
        ensures err { OnErr result ((self.new ≡ self.old) × (whole.new.items ≡ whole.old.items)) }
        ensures memory { IfErr result
            (λ e. (e ≡ Code.Memory) × IsKnown self.old in_force.now.source fragment.now) }
    {
        let Some(place) = place_of(self.rows.as_slice(), &in_force.source, &fragment.writer_id)
        else {
            return Ok(());
        };
        whole.reserve(1)?;
        let row = &mut self.rows[place];
        if let Some(message) = row.hear(alloc, in_force, fragment)? {
            whole.push(message)?;
        }
        Ok(())
    }

    /// A submessage is heard, where it is a DATA_FRAG.
    fn hear_frame(
        &mut self,
        alloc: Global,
        in_force: &InForce,
        frame: &Frame,
        whole: &mut Vec<Octets>,
    ) -> Result<(), Code>
        ensures ok { OnOk result (HearsOne in_force.now frame.now.id frame.now.flags
            frame.now.body.now self.old self.new whole.old.items whole.new.items) }
        ensures err { OnErr result ((self.new ≡ self.old) × (whole.new.items ≡ whole.old.items)) }
        ensures memory { IfErr result (λ e. (e ≡ Code.Memory) × IsWanted self.old
            in_force.now.source frame.now.id frame.now.flags frame.now.body.now) }
    {
        match read_fragment(frame) {
            Some(fragment) => self.hear_fragment(alloc, in_force, &fragment, whole),
            None => Ok(()),
        }
    }

    /// The submessages of a message are heard, one after the other.
    fn hear_body(
        &mut self,
        alloc: Global,
        in_force: InForce,
        body: &[u8],
        whole: &mut Vec<Octets>,
    ) -> Result<(), Code>
        ensures ok { OnOk result
            (HearsAll in_force body.now self.old self.new whole.old.items whole.new.items) }
        ensures err { OnErr result
            (HearsSome in_force body.now self.old self.new whole.old.items whole.new.items) }
        ensures memory { IfErr result (λ e. e ≡ Code.Memory) }
    {
        let mut in_force_now = in_force;
        let mut left = body;
        while let Some((frame, rest)) = next_frame(left) {
            self.hear_frame(alloc, &in_force_now, &frame, whole)?;
            in_force_now = in_force_now.after(&frame.submessage());
            left = rest;
        }
        Ok(())
    }

    /// Hears a datagram: its DATA_FRAGs of known writers are taken in, and the messages of the payloads that they made
    /// whole are appended, in their order. Each is a message of the sender with one DATA, behind the INFO_DST that is in
    /// force at the DATA_FRAG that was missing, and the INFO_TS that was at the first of the payload. The datagram is to
    /// be handed on too, as it stands: a peer passes over DATA_FRAGs.
    ///
    /// Passed over, with nothing changed, are DATA_FRAGs of other writers, those whose fragment size or whole length is
    /// not that of their number, fragments that are counted from 0 or beyond the payload, a payload that no DATA in one
    /// datagram carries (more than 65,435 octets with its parameters), and a body that is cut short.
    ///
    /// # Errors
    ///
    /// `Memory` where no memory was found for a payload that begins, for its parameters or for its message. That
    /// DATA_FRAG and what follows it in the datagram count as lost; what stands before it was heard.
    ///
    /// RTPS 2.5, 8.3.4 and 8.3.8.3.
    pub fn hear(&mut self, alloc: Global, bytes: &[u8], whole: &mut Vec<Octets>) -> Result<(), Code>
        // Each submessage was heard, and the messages of what became whole stand behind those that were there.
        ensures ok { OnOk result
            (HearsMessage bytes.now self.old self.new whole.old.items whole.new.items) }
        // A refusal comes at a DATA_FRAG of a known writer, and what stands before it was heard.
        ensures err { OnErr result
            (HearsFront bytes.now self.old self.new whole.old.items whole.new.items) }
        // The only refusal is for want of memory.
        ensures memory { IfErr result (λ e. e ≡ Code.Memory) }
    {
        match begin_message(bytes) {
            Some((source, body)) => self.hear_body(alloc, InForce::new(source), body, whole),
            None => Ok(()),
        }
    }
}
