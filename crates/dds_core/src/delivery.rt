//! What a peer does with the bytes of a packet.
//!
//! RTPS 2.5, 8.3.4 (the message receiver), 8.4.12 (the behaviour of a reliable StatefulReader). What the peer's writers
//! do with an ACKNACK is in `requests`.

ghost use Rattle.std.specs.Prelude.{◌≡◌, ◌++◌, ◌+◌, ◌*◌, ◌^◌, ◌<◌, ◌≤◌, ℕ, List, [], length, None, Some, IfSome, IfNone, IfOk, IfErr, OnOk, OnErr};
ghost use Rattle.dds_base.specs.Bounds.{max_ends};
ghost use Rattle.dds_base.specs.declared.code.Code.TheVariants.{Memory};
ghost use Rattle.dds_machine.specs.declared.reply.Reply.TheVariants.{Reported};
ghost use Rattle.dds_protocol.specs.declared.event.Event.TheVariants as event;
ghost use Rattle.rtps_wire.specs.declared.submessage.Submessage.TheVariants as submessage_of;
ghost use Rattle.dds_core.specs.Stepping.{SoundSteps};
ghost use Rattle.dds_ends.specs.Sending.{AreMessages, max_unsent};
ghost use Rattle.dds_ends.specs.Readiness.{receiver_at, change_ready, IsNamedAt, IsReadyFor, IsRowOf, NamedBy};
ghost use Rattle.dds_core.specs.Readiness.{IsReliableAt, IsBounded, AreReady, AreAlike, IsFirstNamed, NamesNone, begins_at, begun_moves, moves_of};
ghost use Rattle.dds_core.specs.Receiving.{only_last, CanTakeAt, TakesAt, AllCanTake, TakesAll, TellsReaders, TakesOneMore, TakesFrame, KeepsPeer, NeedsMemory, FrameNeedsMemory, GoOn, NothingDone, Announces, TakesBody, StandsAsWell, ReceivesPacket};
ghost use Rattle.dds_ends.specs.Twins.{Twins, wants_two};

use crate::effects::Effects;
use crate::moves::Moves;
use crate::peer::Peer;
use dds_base::{Code, Endpoint, GuidPrefix, Sequence, Sn};
use dds_ends::{
    Announced, Ids, MessageReceiver, ReaderEnd, Ready, ReadyChange, Telling, Twin, ids_of,
    receiver_for, send_acknack, unmoved,
};
use dds_machine::{Move, Reply, Report};
use dds_protocol::Output;
use rtps_reader::Step;
use rtps_wire::{
    Announcement, Data, Frame, MAX_MESSAGE, Submessage, begin_message, next_frame,
    read_announcement,
};
use smallvec::SmallVec;

/// The first of a peer's readers that a submessage is for, and may do something at, and there the row of the writer that
/// it is from.
#[derive(Clone, Copy)]
pub struct FirstNamed {
    /// Whom the submessage names.
    pub ids: Ids,
    pub index: usize,
    pub row: usize,
}

/// The first of the readers of the peer of this prefix that a submessage is for, from a writer that it is matched with,
/// and at which it may do something.
fn named_reader(
    readers: &[ReaderEnd],
    own: &GuidPrefix,
    receiver: &MessageReceiver,
    submessage: &Submessage,
) -> Option<FirstNamed>
    ensures found { IfSome result
        (IsFirstNamed own.now (receiver_at receiver.now) submessage.now readers.now) }
    ensures none { IfNone result
        (NamesNone own.now (receiver_at receiver.now) submessage.now readers.now) }
{
    let Some(ids) = ids_of(submessage) else {
        return None;
    };
    for (index, reader) in readers.iter().enumerate() {
        if let Some(row) = reader.named_row(own, receiver, &ids, submessage) {
            return Some(FirstNamed { ids, index, row });
        }
    }
    None
}

/// The row of the writer that a submessage is from, at the reader of this index, if it may do something there: the
/// readers before the first one where that is so have none, and that one's was found.
fn row_at(
    first: FirstNamed,
    index: usize,
    reader: &ReaderEnd,
    own: &GuidPrefix,
    receiver: &MessageReceiver,
    submessage: &Submessage,
) -> Option<usize>
    requires by { NamedBy submessage.now first.ids.reader first.ids.writer }
    ensures row { (index < first.index
        → IsReadyFor own.now (receiver_at receiver.now) submessage.now reader.now None)
        → (index ≡ first.index
        → IsNamedAt own.now (receiver_at receiver.now) submessage.now reader.now first.row)
        → IsRowOf own.now (receiver_at receiver.now) submessage.now reader.now result }
{
    if index < first.index {
        return None;
    }
    if index == first.index {
        return Some(first.row);
    }
    reader.named_row(own, receiver, &first.ids, submessage)
}

/// How many readers a peer has for which no memory is needed for the list of what is ready. The place of each is zeroed at
/// each submessage.
const FEW_READERS: usize = 1;

/// Where the DATA stands in a message that announces a write: behind INFO_DST and INFO_TS.
const INDEX_OF_DATA: u32 = 2;

/// Makes ready what a submessage tells, for each of the readers of the peer of this prefix.
fn prepare(
    ready: &mut SmallVec<Option<Ready>, FEW_READERS>,
    readers: &mut [ReaderEnd],
    first: FirstNamed,
    own: &GuidPrefix,
    receiver: &MessageReceiver,
    submessage: &Submessage,
) -> Result<(), Code>
    requires none { ready.old.items ≡ [] }
    requires first { IsFirstNamed own.now
        (receiver_at receiver.now) submessage.now readers.old first }
    ensures ready { OnOk result
        (AreReady own.now (receiver_at receiver.now) submessage.now readers.new ready.new.items) }
    ensures alike { AreAlike readers.old readers.new }
    ensures memory { IfErr result (λ code. code ≡ Memory) }
{
    for index in 0..readers.len() {
        let row = row_at(first, index, &readers[index], own, receiver, submessage);
        let one = readers[index].prepare(row, receiver, submessage)?;
        ready.push(one)?;
    }
    Ok(())
}

/// Adds that a reader's place, which was at this number, began, if it did: there is room for it. Says from where the place
/// goes on.
fn push_begun(moves: &mut Moves, writer: Endpoint, reader: u8, from: Sn, begun: Option<Sn>) -> Sn
    requires room { 1 ≤ moves.old.room }
    ensures moved { moves.new.items ≡ moves.old.items ++ begun_moves writer reader from begun }
    ensures start { result ≡ begins_at from begun }
    ensures twice { moves.new.twice ≡ moves.old.twice }
    ensures room { moves.old.room ≤ moves.new.room + 1 }
{
    match begun {
        Some(to) => {
            moves.push_reserved(Move::Begun {
                writer,
                reader,
                from,
                to,
            });
            to
        }
        None => from,
    }
}

/// Adds what a reader's step moved, for which there is room: the place in a writer's list goes on from this number.
#[inline(always)]
fn push_moves(moves: &mut Moves, writer: Endpoint, reader: u8, from: Sn, step: Step)
    requires few { length step.passed ≤ 257 }
    requires room { 3 ≤ moves.old.room }
    ensures moved { moves.new.items ≡ moves.old.items ++ moves_of writer reader from step }
    ensures twice { moves.new.twice ≡ moves.old.twice }
    ensures room { moves.old.room ≤ moves.new.room + 3 }
{
    let Step {
        begun,
        to,
        passed,
        heard,
        ..
    } = step;
    if heard {
        moves.push_reserved(Move::Heard { writer, reader });
    }
    let start = push_begun(moves, writer, reader, from, begun);
    if start.number() < to.number() {
        moves.push_reserved(Move::Place {
            writer,
            reader,
            to,
            passed,
        });
    }
}

impl Peer {
    /// The reader of this index is told what is ready for it, and sends the ACKNACK that is then due. Adds the moves,
    /// for which there is room.
    pub(crate) fn take_at<T: Telling>(&mut self, effects: &mut Effects, index: usize, ready: T)
        requires can { CanTakeAt self.old.readers index (T.ready ready) }
        requires room { 3 ≤ effects.old.moves.room }
        requires low { effects.old.sent.unsent < max_unsent }
        ensures takes { TakesAt self.old index (T.ready ready) effects.old self.new effects.new }
        ensures room { effects.old.moves.room ≤ effects.new.moves.room + 3 }
        ensures on { GoOn 1 effects.old effects.new }
    {
        let (alloc, prefix, moment) = (self.alloc, self.prefix, self.moment);
        let end = &mut self.readers[index];
        let row = ready.row();
        let writer = end.writer(row);
        let from = end.place(row);
        let step = ready.tell(end, moment);
        send_acknack(
            alloc,
            prefix,
            end.entity(),
            &writer,
            step.acknack,
            &mut effects.sent,
        );
        push_moves(
            &mut effects.moves,
            writer.writer,
            (index + 1) as u8,
            from,
            step,
        );
    }

    /// Each reader is told what is ready for it, one after the other. Adds the moves, for which there is room.
    fn take_all(&mut self, effects: &mut Effects, ready: &mut SmallVec<Option<Ready>, FEW_READERS>)
        requires can { AllCanTake self.old.readers ready.old.items }
        requires count { length ready.old.items ≡ length self.old.readers }
        requires room { 3 * length ready.old.items ≤ effects.old.moves.room }
        requires few { length ready.old.items ≤ max_ends }
        requires low { effects.old.sent.unsent < 2 ^ 60 }
        ensures takes { TakesAll self.old ready.old.items effects.old self.new effects.new }
        ensures prefix { self.new.prefix ≡ self.old.prefix }
        ensures on { GoOn (length ready.old.items) effects.old effects.new }
    {
        for index in 0..ready.len() {
            if let Some(one) = ready[index].take() {
                self.take_at(effects, index, one);
            }
        }
    }

    /// Makes ready what a submessage tells, for each of the peer's readers, before the first takes it up.
    /// `docs/DECISIONS.md`, "Peers and the network".
    fn make_ready(
        &mut self,
        ready: &mut SmallVec<Option<Ready>, FEW_READERS>,
        first: FirstNamed,
        receiver: &MessageReceiver,
        submessage: &Submessage,
    ) -> Result<(), Code>
        requires none { ready.old.items ≡ [] }
        requires first { IsFirstNamed self.old.prefix
            (receiver_at receiver.now) submessage.now self.old.readers first }
        ensures ready { OnOk result
            (AreReady self.old.prefix
            (receiver_at receiver.now) submessage.now self.new.readers ready.new.items) }
        ensures few { OnOk result (length ready.new.items ≤ max_ends) }
        ensures stands { StandsAsWell self.old self.new }
        ensures count { length self.new.readers ≡ length self.old.readers }
        ensures prefix { self.new.prefix ≡ self.old.prefix }
        ensures memory { IfErr result (λ code. code ≡ Memory) }
    {
        prepare(
            ready,
            &mut self.readers,
            first,
            &self.prefix,
            receiver,
            submessage,
        )
    }

    /// The first of the peer's readers that a submessage is for, and may do something at.
    fn named(&self, receiver: &MessageReceiver, submessage: &Submessage) -> Option<FirstNamed>
        ensures first { IfSome result (IsFirstNamed self.now.prefix
            (receiver_at receiver.now) submessage.now self.now.readers) }
        ensures needs { IfSome result
            (λ first. NeedsMemory self.now (receiver_at receiver.now) submessage.now) }
        ensures none { IfNone result
            (NamesNone self.now.prefix (receiver_at receiver.now) submessage.now self.now.readers) }
    {
        named_reader(&self.readers, &self.prefix, receiver, submessage)
    }

    /// Makes ready what a submessage tells the peer's last reader, where that is the first one that is named.
    fn make_last_ready(
        &mut self,
        first: FirstNamed,
        receiver: &MessageReceiver,
        submessage: &Submessage,
    ) -> Result<Option<Ready>, Code>
        requires first { IsFirstNamed self.old.prefix
            (receiver_at receiver.now) submessage.now self.old.readers first }
        requires last { first.index + 1 ≡ length self.old.readers }
        ensures ready { IfOk result
            (λ one. AreReady self.old.prefix
            (receiver_at receiver.now) submessage.now self.new.readers (only_last first.index one)) }
        ensures stands { StandsAsWell self.old self.new }
        ensures count { length self.new.readers ≡ length self.old.readers }
        ensures prefix { self.new.prefix ≡ self.old.prefix }
        ensures memory { IfErr result (λ code. code ≡ Memory) }
    {
        self.readers[first.index].prepare(Some(first.row), receiver, submessage)
    }

    /// The peer's last reader, of this index, is told this, which is ready for it.
    fn take_last_one<T: Telling>(&mut self, effects: &mut Effects, index: usize, one: T)
        requires can { CanTakeAt self.old.readers index (T.ready one) }
        requires last { index + 1 ≡ length self.old.readers }
        requires room { 3 ≤ effects.old.moves.room }
        requires low { effects.old.sent.unsent < 2 ^ 60 }
        ensures takes { TakesAll self.old (only_last index (Some (T.ready one))) effects.old
            self.new effects.new }
        ensures prefix { self.new.prefix ≡ self.old.prefix }
        ensures on { GoOn 1 effects.old effects.new }
    {
        self.take_at(effects, index, one);
    }

    /// The peer's last reader, of this index, is told what is ready for it, if something is.
    fn take_last(&mut self, effects: &mut Effects, index: usize, ready: Option<Ready>)
        requires can { AllCanTake self.old.readers (only_last index ready) }
        requires last { index + 1 ≡ length self.old.readers }
        requires room { 3 ≤ effects.old.moves.room }
        requires low { effects.old.sent.unsent < 2 ^ 60 }
        ensures takes { TakesAll self.old (only_last index ready) effects.old self.new effects.new }
        ensures prefix { self.new.prefix ≡ self.old.prefix }
        ensures on { GoOn 1 effects.old effects.new }
    {
        if let Some(one) = ready {
            self.take_last_one(effects, index, one);
        }
    }

    /// Makes ready the change of a DATA for the peer's last reader, a reliable one, where that is the first one that is
    /// named.
    fn make_change_ready(
        &mut self,
        first: FirstNamed,
        receiver: &MessageReceiver,
        body: &Data,
    ) -> Result<ReadyChange, Code>
        requires first { IsFirstNamed self.old.prefix
            (receiver_at receiver.now) (submessage_of.Data body.now) self.old.readers first }
        requires last { first.index + 1 ≡ length self.old.readers }
        requires reliable { IsReliableAt self.old.readers first.index }
        ensures ready { IfOk result
            (λ it. AreReady self.old.prefix
            (receiver_at receiver.now) (submessage_of.Data body.now) self.new.readers
            (only_last first.index (Some (change_ready it.row it.number it.change)))) }
        ensures stands { StandsAsWell self.old self.new }
        ensures count { length self.new.readers ≡ length self.old.readers }
        ensures prefix { self.new.prefix ≡ self.old.prefix }
        ensures memory { IfErr result (λ code. code ≡ Memory) }
    {
        self.readers[first.index].prepare_change(first.row, receiver, body)
    }

    /// The peer's last reader, a reliable one, is told the change of a DATA, where that is the first one that is named.
    /// Adds what moved.
    fn tell_change(
        &mut self,
        effects: &mut Effects,
        first: FirstNamed,
        receiver: &MessageReceiver,
        body: &Data,
    ) -> Result<(), Code>
        requires bounded { IsBounded (submessage_of.Data body.now) }
        requires low { effects.old.sent.unsent < 2 ^ 60 }
        requires first { IsFirstNamed self.old.prefix
            (receiver_at receiver.now) (submessage_of.Data body.now) self.old.readers first }
        requires last { first.index + 1 ≡ length self.old.readers }
        requires reliable { IsReliableAt self.old.readers first.index }
        ensures takes { OnOk result
            (TellsReaders self.old (receiver_at receiver.now) (submessage_of.Data body.now) effects.old
            self.new effects.new) }
        ensures keeps { KeepsPeer 16 self.old effects.old self.new effects.new result }
    {
        let ready = self.make_change_ready(first, receiver, body)?;
        effects.moves.reserve(3)?;
        self.take_last_one(effects, first.index, ready);
        Ok(())
    }

    /// The peer's last reader is told what a submessage says, where that is the first one that is named. Adds what moved.
    fn tell_last(
        &mut self,
        effects: &mut Effects,
        first: FirstNamed,
        receiver: &MessageReceiver,
        submessage: &Submessage,
    ) -> Result<(), Code>
        requires bounded { IsBounded submessage.now }
        requires low { effects.old.sent.unsent < 2 ^ 60 }
        requires first { IsFirstNamed self.old.prefix
            (receiver_at receiver.now) submessage.now self.old.readers first }
        requires last { first.index + 1 ≡ length self.old.readers }
        ensures takes { OnOk result
            (TellsReaders self.old (receiver_at receiver.now) submessage.now effects.old
            self.new effects.new) }
        ensures keeps { KeepsPeer 16 self.old effects.old self.new effects.new result }
    {
        if let Submessage::Data(body) = submessage {
            if self.readers[first.index].is_reliable() {
                return self.tell_change(effects, first, receiver, body);
            }
        }
        let ready = self.make_last_ready(first, receiver, submessage)?;
        effects.moves.reserve(3)?;
        self.take_last(effects, first.index, ready);
        Ok(())
    }

    /// Each of several readers that a submessage may name is told what it says. Adds what moved.
    fn tell_each(
        &mut self,
        effects: &mut Effects,
        first: FirstNamed,
        receiver: &MessageReceiver,
        submessage: &Submessage,
    ) -> Result<(), Code>
        requires bounded { IsBounded submessage.now }
        requires low { effects.old.sent.unsent < 2 ^ 60 }
        requires first { IsFirstNamed self.old.prefix
            (receiver_at receiver.now) submessage.now self.old.readers first }
        ensures takes { OnOk result
            (TellsReaders self.old (receiver_at receiver.now) submessage.now effects.old
            self.new effects.new) }
        ensures keeps { KeepsPeer 16 self.old effects.old self.new effects.new result }
    {
        let mut ready = SmallVec::with_capacity(self.alloc, self.readers.len())?;
        self.make_ready(&mut ready, first, receiver, submessage)?;
        effects.moves.reserve(3 * ready.len())?;
        self.take_all(effects, &mut ready);
        Ok(())
    }

    /// Each reader that a submessage names is told what it says. Adds what moved. One that can do nothing at any of them
    /// needs no memory.
    #[inline(always)]
    fn tell_readers(
        &mut self,
        effects: &mut Effects,
        receiver: &MessageReceiver,
        submessage: &Submessage,
    ) -> Result<(), Code>
        requires bounded { IsBounded submessage.now }
        requires low { effects.old.sent.unsent < 2 ^ 60 }
        ensures takes { OnOk result
            (TellsReaders self.old (receiver_at receiver.now) submessage.now effects.old
            self.new effects.new) }
        ensures keeps { KeepsPeer 16 self.old effects.old self.new effects.new result }
        ensures needs { OnErr result
            (NeedsMemory self.old (receiver_at receiver.now) submessage.now) }
    {
        let Some(first) = self.named(receiver, submessage) else {
            return Ok(());
        };
        if first.index + 1 == self.readers.len() {
            return self.tell_last(effects, first, receiver, submessage);
        }
        self.tell_each(effects, first, receiver, submessage)
    }

    /// Takes up a submessage: an ACKNACK is for the peer's writers, any other one for its readers. Adds what moved.
    fn take_submessage(
        &mut self,
        effects: &mut Effects,
        receiver: &MessageReceiver,
        submessage: &Submessage,
    ) -> Result<(), Code>
        requires bounded { IsBounded submessage.now }
        requires low { effects.old.sent.unsent < 2 ^ 59 }
        ensures takes { OnOk result
            (TakesOneMore self.old (receiver_at receiver.now) submessage.now effects.old
            self.new effects.new) }
        ensures keeps { KeepsPeer (2 ^ 40) self.old effects.old self.new effects.new result }
        ensures needs { OnErr result
            (NeedsMemory self.old (receiver_at receiver.now) submessage.now) }
    {
        match submessage {
            Submessage::AckNack(body) => self.take_acknack(effects, receiver, body),
            _ => self.tell_readers(effects, receiver, submessage),
        }
    }

    /// Takes up a submessage whose body is not read yet. One that speaks to the receiver alone is for none of the peer's
    /// ends: what it says is not put into a `Submessage` first. Adds what moved.
    fn take_frame(
        &mut self,
        effects: &mut Effects,
        receiver: &mut MessageReceiver,
        frame: &Frame,
    ) -> Result<(), Code>
        requires low { effects.old.sent.unsent < 2 ^ 59 }
        ensures takes { OnOk result
            (TakesFrame self.old (receiver_at receiver.old)
            frame.now.id frame.now.flags frame.now.body.now effects.old
            self.new effects.new (receiver_at receiver.new)) }
        ensures keeps { KeepsPeer (2 ^ 40) self.old effects.old self.new effects.new result }
        ensures needs { OnErr result
            (FrameNeedsMemory self.old
            (receiver_at receiver.old) frame.now.id frame.now.flags frame.now.body.now) }
    {
        if let Some(prefix) = frame.info_dst() {
            receiver.note_destination(prefix);
            return Ok(());
        }
        if let Some(stamp) = frame.info_ts() {
            receiver.note_timestamp(&self.prefix, stamp);
            return Ok(());
        }
        self.take_submessage(effects, receiver, &frame.submessage())
    }

    /// Takes up the submessages of a message of this sender as they are read, up to one for which there is no memory.
    fn take_submessages(
        &mut self,
        source: GuidPrefix,
        body: &[u8],
        effects: &mut Effects,
        twin: &mut Twin,
    ) -> Report
        requires few { length body.now ≤ MAX_MESSAGE }
        requires none { NothingDone (wants_two twin.old) effects.old }
        ensures takes { TakesBody self.old source body.now result self.new effects.new.sent }
        ensures messages { AreMessages effects.new.sent.packets.items }
        ensures few { effects.new.sent.unsent < max_unsent }
        ensures twin { Twins twin.old (Reported result) twin.new }
    {
        let mut receiver = receiver_for(source);
        let mut left = body;
        let mut index: u32 = 0;
        while let Some((frame, rest)) = next_frame(left) {
            match self.take_frame(effects, &mut receiver, &frame) {
                Ok(()) => left = rest,
                Err(_) => return effects.moves.take_report(Some(index), twin),
            }
            index += 1;
        }
        effects.moves.take_report(None, twin)
    }

    /// Takes up the submessages of a message that announces a write, as `take_submessages` does one after the other.
    fn take_announcement(
        &mut self,
        announcement: Announcement,
        effects: &mut Effects,
        twin: &mut Twin,
    ) -> Report
        requires none { NothingDone (wants_two twin.old) effects.old }
        requires bounded { IsBounded (submessage_of.Data announcement.change) }
        ensures takes { (body : List ℕ) → Announces body announcement.entry
            → TakesBody self.old announcement.entry.source body result self.new effects.new.sent }
        ensures messages { AreMessages effects.new.sent.packets.items }
        ensures few { effects.new.sent.unsent < max_unsent }
        ensures twin { Twins twin.old (Reported result) twin.new }
    {
        let Announcement {
            source,
            destination,
            moment,
            change,
        } = announcement;
        let mut receiver = receiver_for(source);
        receiver.note_destination(destination);
        receiver.note_timestamp(&self.prefix, Some(moment));
        match self.tell_readers(effects, &receiver, &Submessage::Data(change)) {
            Ok(()) => effects.moves.take_report(None, twin),
            Err(_) => effects.moves.take_report(Some(INDEX_OF_DATA), twin),
        }
    }

    /// What is done with the bytes of a packet.
    fn receive(&mut self, packet: &[u8], effects: &mut Effects, twin: &mut Twin) -> Report
        requires none { NothingDone (wants_two twin.old) effects.old }
        ensures receives { ReceivesPacket self.old packet.now result self.new effects.new.sent }
        ensures messages { AreMessages effects.new.sent.packets.items }
        ensures few { effects.new.sent.unsent < max_unsent }
        ensures twin { Twins twin.old (Reported result) twin.new }
    {
        if let Some(announcement) = read_announcement(packet) {
            return self.take_announcement(announcement, effects, twin);
        }
        match begin_message(packet) {
            Some((source, body)) => self.take_submessages(source, body, effects, twin),
            None => unmoved(self.alloc, None),
        }
    }

    /// The bytes of a packet come.
    #[inline(always)]
    pub(crate) fn deliver(&mut self, packet: &[u8], twin: &mut Twin) -> Output
        ensures step { SoundSteps self.old (event.Deliver packet.now) result self.new }
        ensures messages { AreMessages result.packets }
        ensures few { result.unsent < max_unsent }
        ensures twin { Twins twin.old result.reply twin.new }
    {
        let list = self.spare.moves.take(self.alloc);
        let mut effects = Effects::new(self.alloc, twin.is_asked(), list);
        let report = self.receive(packet, &mut effects, twin);
        let Effects { sent, .. } = effects;
        let Announced { packets, unsent } = sent;
        Output {
            reply: Reply::Reported(report),
            packets: Sequence::from_vec(packets),
            unsent,
        }
    }
}
