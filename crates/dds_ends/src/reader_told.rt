//! What a reader of the peer is told by its writers, and takes up.
//!
//! RTPS 2.5, 8.4.10 (StatefulReader), 8.4.12.

ghost use Rattle.std.specs.Prelude.{◌≡◌, ◌<◌, ◌≤◌, [], length, nat_le, slice_get, None, Some, true, false, if◌then◌else◌, IfSome, IfOk, IfErr, OnOk, IsOk, Ok, MatchOption};
ghost use Rattle.dds_base.specs.declared.code.Code.TheVariants.{Memory};
ghost use Rattle.rtps_wire.specs.declared.submessage.Submessage.TheVariants as submessage;
ghost use Rattle.rtps_reader.specs.Answer.{IsIdle, IsSayable};
ghost use Rattle.rtps_reader.specs.Reader.{Tracks};
ghost use Rattle.rtps_reader.specs.Tracked.{Tracked, may_take};
ghost use Rattle.dds_ends.specs.Identity.{reliable_in};
ghost use Rattle.dds_ends.specs.Observing.{is_counted, is_old};
ghost use Rattle.dds_ends.specs.declared.matching.WriterName.{WriterName as WriterNameOf};
ghost use Rattle.dds_ends.specs.ObservingKept.{IsOldIn};
ghost use Rattle.dds_ends.specs.Readiness.{receiver_at, IsRowOf, NamedBy, NamesNobody, IsToldBy, HasMemory, IsPrepared, IsPreparedAt, change_ready, IsAlike, CanTake, MayDo, TakesTold, SameReader};
ghost use Rattle.dds_ends.specs.Resuming.{GoesOnAt};
ghost use Rattle.dds_protocol.specs.Protocol.{may_do};

use crate::reader_end::ReaderEnd;
use crate::receiver::MessageReceiver;
use dds_base::{Change, Code, Endpoint, EntityId, GuidPrefix, Moment, Sequence, Sn};
use rtps_reader::{HeartbeatSeen, Step};
use rtps_sets::SnSet;
use rtps_wire::{Data, Gap, Heartbeat, Submessage};
use std::alloc::Global;

/// What a submessage tells a reader.
#[derive(Drop)]
pub enum Told {
    /// A change, at a reliable reader.
    Change { number: Sn, change: Change },
    /// A change, at a best-effort reader.
    Jump { number: Sn, change: Change },
    /// A GAP, at a reliable reader.
    Gap { start: Sn, list: SnSet },
    /// A HEARTBEAT, at a reliable reader.
    Heartbeat(HeartbeatSeen),
    /// A HEARTBEAT, at a best-effort reader.
    Beat(HeartbeatSeen),
    /// A GAP, at a best-effort reader.
    Nothing,
    /// That the place is tried again, by what the reader knows already. No submessage tells it.
    Again,
}

/// What a reader is told, by the writer of this row. There is memory for all that it does.
#[derive(Drop)]
pub struct Ready {
    pub row: usize,
    pub told: Told,
}

/// A change that a reliable reader is told, by the writer of this row. There is memory for all that it does.
#[derive(Drop)]
pub struct ReadyChange {
    pub row: usize,
    pub number: Sn,
    pub change: Change,
}

/// What a reader can be told at once: whatever is ready, or a change that is known to be one, which is not moved as
/// often.
pub trait Telling: Drop {
    ghost use Rattle.std.specs.Prelude.{◌≡◌, ◌≤◌, length, IfSome};
    ghost use Rattle.rtps_reader.specs.Answer.{IsSayable};
    ghost use Rattle.dds_ends.specs.declared.reader_told.Ready.{Ready as ReadyOf};
    ghost use Rattle.dds_ends.specs.Readiness.{CanTake, TakesTold, SameReader};

    /// What is ready by this.
    ghost ready: { Self → ReadyOf };

    /// The row of the writer that says it.
    fn row(&self) -> usize
        ensures row { result ≡ (ready self.now).row };

    /// The reader is told, at this moment of its peer.
    fn tell(self, end: &mut ReaderEnd, moment: Moment) -> Step
        requires can { CanTake end.old (ready self) }
        ensures told { TakesTold end.old (ready self) moment result end.new }
        ensures few { length result.passed ≤ 257 }
        ensures sayable { IfSome result.acknack IsSayable }
        ensures same { SameReader end.old end.new };
}

/// What a DATA says of the reader's writer, as its change and its number.
fn told_by_data(
    alloc: Global,
    is_reliable: bool,
    receiver: &MessageReceiver,
    body: &Data,
) -> Result<Told, Code>
    ensures told { IfOk result
        (IsToldBy is_reliable (receiver_at receiver.now) (submessage.Data body.now)) }
    ensures memory { IfErr result (λ code. code ≡ Memory) }
{
    let change = body.content.to_change(alloc, receiver.timestamp)?;
    let number = body.writer_sn;
    if is_reliable {
        Ok(Told::Change { number, change })
    } else {
        Ok(Told::Jump { number, change })
    }
}

/// What a GAP says.
fn told_by_gap(is_reliable: bool, receiver: &MessageReceiver, body: &Gap) -> Told
    ensures { IsToldBy is_reliable (receiver_at receiver.now) (submessage.Gap body.now) result }
{
    if !is_reliable {
        return Told::Nothing;
    }
    Told::Gap {
        start: body.gap_start,
        list: body.gap_list,
    }
}

/// What a HEARTBEAT says: to a best-effort reader of no number, and it asks for no answer.
fn told_by_heartbeat(is_reliable: bool, receiver: &MessageReceiver, body: &Heartbeat) -> Told
    ensures { IsToldBy is_reliable
        (receiver_at receiver.now) (submessage.Heartbeat body.now) result }
{
    if is_reliable {
        return Told::Heartbeat(HeartbeatSeen {
            first: body.first_sn,
            last: body.last_sn,
            count: body.count,
            is_final: body.final_flag,
            liveliness: body.liveliness_flag,
        });
    }
    Told::Beat(HeartbeatSeen {
        first: Sn::new(0),
        last: Sn::new(0),
        count: body.count,
        is_final: true,
        liveliness: body.liveliness_flag,
    })
}

/// Whom a submessage of a writer names: its readerId and its writerId.
#[derive(Clone, Copy)]
pub struct Ids {
    pub reader: EntityId,
    pub writer: EntityId,
}

/// Whom a submessage names, if it is one of a writer.
pub fn ids_of(submessage: &Submessage) -> Option<Ids>
    ensures { MatchOption result (NamesNobody submessage.now)
        (λ ids. NamedBy submessage.now ids.reader ids.writer) }
{
    match submessage {
        Submessage::Data(body) => Some(Ids {
            reader: body.reader_id,
            writer: body.writer_id,
        }),
        Submessage::Gap(body) => Some(Ids {
            reader: body.reader_id,
            writer: body.writer_id,
        }),
        Submessage::Heartbeat(body) => Some(Ids {
            reader: body.reader_id,
            writer: body.writer_id,
        }),
        _ => None,
    }
}

/// What a submessage of a writer says to a reader.
fn told_by(
    alloc: Global,
    is_reliable: bool,
    receiver: &MessageReceiver,
    submessage: &Submessage,
) -> Result<Option<Told>, Code>
    ensures told { IfOk result
        (λ told. MatchOption told (NamesNobody submessage.now)
        (IsToldBy is_reliable (receiver_at receiver.now) submessage.now)) }
    ensures memory { IfErr result (λ code. code ≡ Memory) }
{
    match submessage {
        Submessage::Data(body) => {
            let told = told_by_data(alloc, is_reliable, receiver, body)?;
            Ok(Some(told))
        }
        Submessage::Gap(body) => Ok(Some(told_by_gap(is_reliable, receiver, body))),
        Submessage::Heartbeat(body) => { Ok(Some(told_by_heartbeat(is_reliable, receiver, body))) }
        _ => Ok(None),
    }
}

impl ReaderEnd {
    /// What was done where nothing was.
    fn idle(&self, row: usize) -> Step
        requires { row < length self.now.writers }
        ensures idle { (t : Tracked) → Tracks self.now.reader row t → IsIdle t.place result }
        ensures passed { result.passed ≡ [] }
        ensures begun { result.begun ≡ None }
        ensures silent { result.acknack ≡ None }
    {
        Step {
            to: self.reader.place(row),
            passed: Sequence::from_vec(Vec::new(self.alloc)),
            begun: None,
            heard: false,
            acknack: None,
        }
    }

    /// Whether the place at the writer of this row may go on by what is known already: it has begun, and the number there
    /// can be passed over, or its change is held. One that can't needs no memory.
    pub fn may_go_on(&self, row: usize) -> bool
        requires { row < length self.now.writers }
        ensures { GoesOnAt self.now row result }
    {
        self.reader.may_go_on(row)
    }

    /// Makes memory for the next submessage of the writer of this row, or for a try of the place there.
    pub fn make_room(&mut self, row: usize) -> Result<(), Code>
        requires { row < length self.old.writers }
        ensures room { OnOk result (HasMemory self.new row) }
        ensures alike { IsAlike self.old self.new }
        ensures memory { IfErr result (λ code. code ≡ Memory) }
    {
        self.reader.reserve_for(row, &mut self.store)
    }

    /// Whether a DATA of this number, of the writer of this row, may do something here.
    fn may_take(&self, row: usize, number: Sn) -> bool
        requires { row < length self.now.writers }
        ensures { (t : Tracked) → Tracks self.now.reader row t
            → result ≡ (if reliable_in self.now.store then may_take t number else nat_le t.place number) }
    {
        if self.is_reliable {
            self.reader.may_take(row, number)
        } else {
            self.reader.place(row).number() <= number.number()
        }
    }

    /// Whether a submessage of the writer of this row may do something here. One that can't needs no memory.
    fn may_do(&self, row: usize, submessage: &Submessage) -> bool
        requires { row < length self.now.writers }
        ensures does { (t : Tracked) → Tracks self.now.reader row t
            → result ≡ may_do (reliable_in self.now.store) t submessage.now }
        ensures known { (t : Tracked) × Tracks self.now.reader row t }
    {
        // Something is known of the writer: the proof has it from here.
        let _place = self.reader.place(row);
        match submessage {
            Submessage::Data(body) => self.may_take(row, body.writer_sn),
            Submessage::Gap(_) => self.is_reliable,
            Submessage::Heartbeat(body) => self.reader.is_later(row, body.count),
            _ => false,
        }
    }

    /// The row of the writer that a submessage is from, which names these, if it is for this reader of the peer of this
    /// prefix, the writer is matched, and the submessage may do something here.
    pub fn named_row(
        &self,
        own: &GuidPrefix,
        receiver: &MessageReceiver,
        ids: &Ids,
        submessage: &Submessage,
    ) -> Option<usize>
        requires { NamedBy submessage.now ids.now.reader ids.now.writer }
        ensures row { IsRowOf own.now (receiver_at receiver.now) submessage.now self.now result }
        ensures does { IfSome result (λ row. MayDo self.now row submessage.now true) }
    {
        let Some(row) = self.row_of(own, receiver, &ids.reader, &ids.writer) else {
            return None;
        };
        if !self.may_do(row, submessage) {
            return None;
        }
        Some(row)
    }

    /// Whether a submessage of the writer of this row is old here: a DATA below the place, or a HEARTBEAT that is not later
    /// than the last one that was taken.
    fn is_old_at(&self, row: usize, submessage: &Submessage) -> bool
        requires { row < length self.now.writers }
        ensures { (t : Tracked) → Tracks self.now.reader row t → result ≡ is_old t submessage.now }
    {
        match submessage {
            Submessage::Data(body) => body.writer_sn.number() < self.reader.place(row).number(),
            Submessage::Heartbeat(body) => !self.reader.is_later(row, body.count),
            _ => false,
        }
    }

    /// Whether the writer of this row is the one that is asked for, or none is.
    fn is_counted(&self, of: Option<Endpoint>, row: usize) -> bool
        requires { row < length self.now.writers }
        ensures { (name : WriterNameOf) → slice_get self.now.writers row ≡ Some name
            → result ≡ is_counted of name.writer }
    {
        match of {
            Some(asked) => asked == self.writer(row).writer,
            None => true,
        }
    }

    /// Whether a submessage, which names these, is for this reader of the peer of this prefix, from a matched writer, the
    /// one that is asked for, or any where none is, and old here.
    pub fn is_old(
        &self,
        own: &GuidPrefix,
        of: Option<Endpoint>,
        receiver: &MessageReceiver,
        ids: &Ids,
        submessage: &Submessage,
    ) -> bool
        requires { NamedBy submessage.now ids.now.reader ids.now.writer }
        ensures { IsOldIn own.now of (receiver_at receiver.now) submessage.now self.now result }
    {
        match self.row_of(own, receiver, &ids.reader, &ids.writer) {
            Some(row) => self.is_counted(of, row) && self.is_old_at(row, submessage),
            None => false,
        }
    }

    /// Makes ready what a submessage tells this reader, from its writer of this row, if it is for the reader: a copy of
    /// it, and memory for all that it does.
    ///
    /// # Errors
    ///
    /// `Memory` where a growth was refused; the reader is then as it was.
    pub fn prepare(
        &mut self,
        row: Option<usize>,
        receiver: &MessageReceiver,
        submessage: &Submessage,
    ) -> Result<Option<Ready>, Code>
        requires { IfSome row (λ at. at < length self.old.writers) }
        ensures ready { IfOk result
            (IsPrepared row (receiver_at receiver.now) submessage.now self.new) }
        ensures alike { IsAlike self.old self.new }
        ensures memory { IfErr result (λ code. code ≡ Memory) }
    {
        let Some(row) = row else {
            return Ok(None);
        };
        self.make_room(row)?;
        match told_by(self.alloc, self.is_reliable, receiver, submessage)? {
            Some(told) => Ok(Some(Ready { row, told })),
            None => Ok(None),
        }
    }

    /// The reader is told what is ready for it, at this moment of its peer, for which memory was made.
    fn take_told(&mut self, ready: Ready, moment: Moment) -> Result<Step, Code>
        requires can { CanTake self.old ready }
        ensures told { IfOk result (λ step. TakesTold self.old ready moment step self.new) }
        ensures few { IfOk result (λ step. length step.passed ≤ 257) }
        ensures sayable { IfOk result (λ step. IfSome step.acknack IsSayable) }
        ensures same { SameReader self.old self.new }
        ensures succeeds { IsOk result }
    {
        let Ready { row, told } = ready;
        match told {
            Told::Change { number, change } => self
                .reader
                .on_data(&mut self.store, row, number, change, moment),
            Told::Jump { number, change } => {
                self.reader
                    .on_best_effort_data(&mut self.store, row, number, change, moment)
            }
            Told::Nothing => Ok(self.idle(row)),
            Told::Again => self.reader.resume(&mut self.store, row, moment),
            Told::Gap { start, list } => self
                .reader
                .on_gap(&mut self.store, row, start, &list, moment),
            Told::Heartbeat(heartbeat) => self
                .reader
                .on_heartbeat(&mut self.store, row, &heartbeat, moment),
            Told::Beat(heartbeat) => self
                .reader
                .on_best_effort_heartbeat(&mut self.store, row, &heartbeat, moment),
        }
    }

    /// The reader is told what is ready for it, at this moment of its peer.
    pub fn take_up(&mut self, ready: Ready, moment: Moment) -> Step
        requires can { CanTake self.old ready }
        ensures told { TakesTold self.old ready moment result self.new }
        ensures few { length result.passed ≤ 257 }
        ensures sayable { IfSome result.acknack IsSayable }
        ensures same { SameReader self.old self.new }
    {
        self.take_told(ready, moment).unwrap()
    }

    /// Makes ready the change of a DATA, for this reader, which is a reliable one, from its writer of this row: a copy of
    /// it, and memory for all that it does.
    ///
    /// # Errors
    ///
    /// `Memory` where a growth was refused; the reader is then as it was.
    pub fn prepare_change(
        &mut self,
        row: usize,
        receiver: &MessageReceiver,
        body: &Data,
    ) -> Result<ReadyChange, Code>
        requires row { row < length self.old.writers }
        requires reliable { reliable_in self.old.store ≡ true }
        ensures ready { IfOk result
            (λ it. IsPreparedAt row (receiver_at receiver.now) (submessage.Data body.now) self.new
            (change_ready it.row it.number it.change)) }
        ensures alike { IsAlike self.old self.new }
        ensures memory { IfErr result (λ code. code ≡ Memory) }
    {
        self.make_room(row)?;
        let change = body.content.to_change(self.alloc, receiver.timestamp)?;
        Ok(ReadyChange {
            row,
            number: body.writer_sn,
            change,
        })
    }

    /// The reader is told a change that is ready for it, at this moment of its peer.
    fn take_change(&mut self, ready: ReadyChange, moment: Moment) -> Step
        requires can { CanTake self.old (change_ready ready.row ready.number ready.change) }
        ensures told { TakesTold self.old (change_ready ready.row ready.number ready.change) moment result self.new }
        ensures few { length result.passed ≤ 257 }
        ensures sayable { IfSome result.acknack IsSayable }
        ensures same { SameReader self.old self.new }
    {
        let ReadyChange {
            row,
            number,
            change,
        } = ready;
        self.reader
            .on_data(&mut self.store, row, number, change, moment)
            .unwrap()
    }
}

impl Telling for Ready {
    ghost ready = { λ r. r };

    fn row(&self) -> usize {
        self.row
    }

    fn tell(self, end: &mut ReaderEnd, moment: Moment) -> Step {
        end.take_up(self, moment)
    }
}

impl Telling for ReadyChange {
    ghost use Rattle.dds_ends.specs.Readiness.{change_ready};

    ghost ready = { λ r. change_ready r.row r.number r.change };

    fn row(&self) -> usize {
        self.row
    }

    fn tell(self, end: &mut ReaderEnd, moment: Moment) -> Step {
        end.take_change(self, moment)
    }
}
