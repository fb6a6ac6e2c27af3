//! What a writer of the peer does at an ACKNACK of one of its matched readers, and the messages with its answers.
//!
//! RTPS 2.5, 8.4.7 (ReaderProxy), 8.4.9 (reliable StatefulWriter), 8.3.8 (AckNack, Data, Gap).

ghost use Rattle.std.specs.Prelude.{◌≡◌, ◌++◌, ◌+◌, ◌^◌, ◌<◌, ◌≤◌, ◌&&◌, ◌↔◌, ◌∷◌, IsTrue, Some, length, IfOk, OnOk, []};
ghost use Rattle.rtps_wire.specs.Messages.{IsWritable};
ghost use Rattle.rtps_writer.specs.declared.answer.Answer.TheVariants as answer;
ghost use Rattle.rtps_writer.specs.Acknack.{is_applied};
ghost use Rattle.rtps_writer.specs.Standing.{reader_count, StandsFor as RtpsStandsFor};
ghost use Rattle.rtps_writer.specs.WriterState.{WriterState};
ghost use Rattle.dds_base.specs.Bounds.{window_width};
ghost use Rattle.dds_base.specs.Written.{changes_of};
ghost use Rattle.dds_protocol.specs.DueMessages.{data_of, submessages_of};
ghost use Rattle.dds_protocol.specs.Protocol.{answers_per, asks_for_heartbeat};
ghost use Rattle.dds_ends.specs.Answering.{SpellsMore, IsFrom, HasRoom, AreRooms, AreAnswerable, CanAnswer, SendsAnswers, heard_if, message_of};
ghost use Rattle.dds_ends.specs.Readiness.{receiver_at};
ghost use Rattle.dds_ends.specs.Sending.{AreMessages};
ghost use Rattle.dds_ends.specs.Standing.{IsShort};

use crate::matching::ReaderName;
use crate::receiver::{MessageReceiver, is_for};
use crate::sending::{Announced, send_made};
use dds_base::{Change, EntityId, GuidPrefix, Sn, USUAL_VALUE};
use rtps_sets::SnSet;
use rtps_wire::{AckNack, Data, DataContent, Gap, Message, Submessage, Submessages};
use rtps_writer::{Answer, StatefulWriter};
use std::alloc::{AllocError, Global};

/// How many answers stand in a packet at most, where values are no longer than usual. `docs/DECISIONS.md`, "Sets, windows
/// and the grammar".
const MAX_ANSWERS: usize = 8;

/// Room for the answers to an ACKNACK.
#[derive(Drop)]
pub struct Room {
    pub answers: Vec<Answer>,
}

/// Whether an ACKNACK is for the writer of this entity, and from the reader of this name.
pub fn is_from(
    own: &GuidPrefix,
    receiver: &MessageReceiver,
    body: &AckNack,
    entity: EntityId,
    name: &ReaderName,
) -> bool
    ensures { IsTrue result ↔ IsFrom own.now entity (receiver_at receiver.now) body.now name.now }
{
    let is_named = body.reader_id == name.guid.entity || body.reader_id == EntityId::UNKNOWN;
    is_named
        && is_for(receiver, own)
        && body.writer_id == entity
        && name.guid.prefix == receiver.source
}

/// Room for an answer to each place of a set.
fn make_room(alloc: Global, set: &SnSet) -> Result<Room, AllocError>
    ensures { IfOk result (HasRoom set.now) }
{
    let mut answers = Vec::new(alloc);
    answers.reserve(set.bits())?;
    Ok(Room { answers })
}

/// Room for the answers to each of a writer's readers that an ACKNACK is from.
///
/// # Errors
///
/// Where a growth was refused.
pub fn rooms(
    alloc: Global,
    own: &GuidPrefix,
    receiver: &MessageReceiver,
    body: &AckNack,
    entity: EntityId,
    readers: &[ReaderName],
) -> Result<Vec<Option<Room>>, AllocError>
    ensures { IfOk result
        (λ all. AreRooms own.now entity (receiver_at receiver.now) body.now readers.now all.items) }
{
    let mut rooms = Vec::new(alloc);
    for name in readers {
        let mut one = None;
        if is_from(own, receiver, body, entity, name) {
            one = Some(make_room(alloc, &body.reader_sn_state)?);
        }
        rooms.push(one)?;
    }
    Ok(rooms)
}

/// Whether an ACKNACK asks for a HEARTBEAT: it is not final, and asks for no change.
///
/// RTPS 2.5, 8.3.8 (AckNack: FinalFlag).
fn asks_for_heartbeat(body: &AckNack) -> bool
    ensures { result ≡ asks_for_heartbeat body.now }
{
    !body.final_flag && body.reader_sn_state.bits() == 0
}

/// A writer's reader of this row asks for a HEARTBEAT by this ACKNACK, where that is applied, or has answered by it.
///
/// RTPS 2.5, 8.4.9 (reliable StatefulWriter), 8.3.8 (AckNack: FinalFlag).
pub fn mark_heard(writer: &mut StatefulWriter, row: usize, body: &AckNack, is_applied: bool)
    requires row { row < reader_count writer.old }
    ensures stands { (s : WriterState) → RtpsStandsFor writer.old s
        → RtpsStandsFor writer.new (heard_if is_applied (asks_for_heartbeat body.now) s row) }
    ensures readers { reader_count writer.new ≡ reader_count writer.old }
{
    if !is_applied {
        return;
    }
    if asks_for_heartbeat(body) {
        writer.ask(row);
    } else {
        writer.answer_heard(row);
    }
}

/// Who answers whom: a writer of the peer of this prefix, one of its matched readers.
#[derive(Clone, Copy)]
pub struct Answering {
    pub own: GuidPrefix,
    /// The writer.
    pub entity: EntityId,
    pub reader: ReaderName,
    /// How many octets a value of the writer has at most.
    pub max_value: u32,
}

/// How many answers stand in a packet at most, where values have at most so many octets.
fn answers_per(max_value: u32) -> usize
    ensures per { result ≡ answers_per max_value }
    ensures some { 1 ≤ result }
{
    if max_value <= USUAL_VALUE {
        MAX_ANSWERS
    } else {
        1
    }
}

/// Adds a change, which lends its value, with its moment.
fn push_data<'a>(
    submessages: &mut Submessages<'a>,
    answering: &Answering,
    number: Sn,
    change: &'a Change,
) -> Result<(), AllocError>
    requires short { IsShort answering.now.max_value change.now.value }
    requires first { 1 ≤ number }
    requires small { number ≤ 2 ^ 62 }
    ensures spells { OnOk result
        (SpellsMore answering.now.max_value submessages.old submessages.new) }
    ensures adds { OnOk result
        (submessages.new ≡ submessages.old
        ++ data_of answering.now.reader.guid.entity answering.now.entity number (Some change.now)) }
{
    // These show the prover how many octets the names have.
    let (_reader, _writer) = (
        answering.reader.guid.entity.as_slice(),
        answering.entity.as_slice(),
    );
    // This shows the prover how many octets there are.
    let _key = change.key.as_slice();
    let content = DataContent::of_change(change);
    submessages.push(Submessage::InfoTs(Some(change.source_timestamp.units())))?;
    submessages.push(Submessage::Data(Data {
        reader_id: answering.reader.guid.entity,
        writer_id: answering.entity,
        writer_sn: number,
        content,
    }))?;
    Ok(())
}

/// Adds a GAP over these numbers.
fn push_gap(
    submessages: &mut Submessages<'_>,
    answering: &Answering,
    first: Sn,
    last: Sn,
) -> Result<(), AllocError>
    requires from { 1 ≤ first }
    requires order { first ≤ last }
    requires small { last < 2 ^ 62 }
    ensures spells { OnOk result
        (SpellsMore answering.now.max_value submessages.old submessages.new) }
    ensures adds { OnOk result
        (submessages.new ≡ submessages.old
        ++ submessages_of [] answering.now.reader.guid.entity answering.now.entity
        (answer.Gap first last)) }
{
    // These show the prover how many octets the names have.
    let (_reader, _writer) = (
        answering.reader.guid.entity.as_slice(),
        answering.entity.as_slice(),
    );
    submessages.push(Submessage::Gap(Gap {
        reader_id: answering.reader.guid.entity,
        writer_id: answering.entity,
        gap_start: first,
        gap_list: SnSet::new(Sn::new(last.number() + 1)),
    }))?;
    Ok(())
}

/// Adds what stands in a message for an answer.
fn push_answer<'a>(
    submessages: &mut Submessages<'a>,
    answering: &Answering,
    writer: &'a StatefulWriter,
    answer: Answer,
) -> Result<(), AllocError>
    requires { CanAnswer answering.now.max_value writer.now answer }
    ensures spells { OnOk result
        (SpellsMore answering.now.max_value submessages.old submessages.new) }
    ensures adds { (s : WriterState) → RtpsStandsFor writer.now s
        → OnOk result (submessages.new
        ≡ submessages.old
        ++ submessages_of
        (changes_of s.written) answering.now.reader.guid.entity answering.now.entity answer) }
{
    match answer {
        Answer::Data(number) => match writer.get(number) {
            Some(change) => push_data(submessages, answering, number, change),
            None => Ok(()),
        },
        Answer::Gap { first, last } => push_gap(submessages, answering, first, last),
    }
}

/// A message with these answers.
fn message<'a>(
    alloc: Global,
    answering: &Answering,
    writer: &'a StatefulWriter,
    answers: &[Answer],
) -> Result<Message<'a>, AllocError>
    requires can { AreAnswerable answering.now.max_value writer.now answers.now }
    requires few { length answers.now ≤ answers_per answering.now.max_value }
    ensures says { (s : WriterState) → RtpsStandsFor writer.now s
        → IfOk result
        (λ m. m ≡ message_of answering.now (changes_of s.written) answers.now) }
    ensures writable { IfOk result IsWritable }
    ensures some { IfOk result (λ m. 1 ≤ length m.submessages) }
{
    let to = answering.reader.guid.prefix;
    // These show the prover how many octets the names have.
    let (_own, _to) = (answering.own.as_slice(), to.as_slice());
    let (_reader, _writer) = (
        answering.reader.guid.entity.as_slice(),
        answering.entity.as_slice(),
    );
    let mut submessages = Submessages::new(alloc);
    submessages.push_in_place(Submessage::InfoDst(to));
    for answer in answers {
        push_answer(&mut submessages, answering, writer, *answer)?;
    }
    Ok(Message {
        prefix: answering.own,
        submessages,
    })
}

/// Sends answers, as many in a packet as stand there, but in the last one.
pub fn send_answers(
    alloc: Global,
    answering: &Answering,
    writer: &StatefulWriter,
    answers: &[Answer],
    sent: &mut Announced,
)
    requires can { AreAnswerable answering.now.max_value writer.now answers.now }
    requires few { length answers.now ≤ window_width }
    requires room { sent.old.unsent < 2 ^ 60 }
    ensures few { sent.new.unsent ≤ sent.old.unsent + window_width }
    ensures sends { (s : WriterState) → RtpsStandsFor writer.now s
        → SendsAnswers answering.now (changes_of s.written) answers.now sent.old sent.new }
    ensures messages { AreMessages sent.old.packets.items → AreMessages sent.new.packets.items }
{
    let per = answers_per(answering.max_value);
    let mut rest = answers;
    while !rest.is_empty() {
        let count = usize::min(rest.len(), per);
        let (group, after) = rest.split_at(count);
        let message = message(alloc, answering, writer, group);
        send_made(alloc, sent, message, answering.reader.reader.peer);
        rest = after;
    }
}
