//! The HEARTBEATs of a writer: at a tick a message to each peer with a matched reader that is behind, asks for one, or is
//! silent; for an assertion one to each peer with a matched reader. The message has one HEARTBEAT for all readers there,
//! or, where some of them is not owed all that is kept, or is silent, one by name to each, which begins where that one
//! does, and to a silent one names no number.
//!
//! RTPS 2.5, 8.4.9 (reliable StatefulWriter: heartbeatPeriod), 8.3.8 (Heartbeat), 8.7.2.2 (LIVELINESS).

ghost use Rattle.std.specs.Prelude.{◌≡◌, ◌+◌, ◌*◌, ◌++◌, ◌<◌, ◌≤◌, ◌∷◌, [], IfOk, OnOk, length, take};
ghost use Rattle.dds_base.specs.Bounds.{max_ends};
ghost use Rattle.rtps_wire.specs.Messages.{IsWritable};
ghost use Rattle.rtps_wire.specs.Submessages.{IsSpellable, value_octets};
ghost use Rattle.rtps_writer.specs.Standing.{reader_count, StandsFor as RtpsStandsFor};
ghost use Rattle.dds_base.specs.declared.endpoint.Endpoint.{Endpoint as EndpointOf};
ghost use Rattle.dds_machine.specs.Matching.{max_known};
ghost use Rattle.dds_machine.specs.Part.{Writer};
ghost use Rattle.dds_protocol.specs.Claims.{every_reader};
ghost use Rattle.dds_protocol.specs.DueMessages.{is_one_for_all, is_told};
ghost use Rattle.dds_protocol.specs.Dues.{AreFew};
ghost use Rattle.dds_protocol.specs.Contact.{Contact};
ghost use Rattle.dds_ends.specs.Beating.{AddsBare, AreReadersOf, Beats, CanSpan, ForEach, IsDueOf, Tells, beat_for, beat_from, beats_at, beats_for, is_first_told, is_peer_told, message_to, names_at, names_told};
ghost use Rattle.dds_ends.specs.MatchedEnds.{readers_of};
ghost use Rattle.dds_ends.specs.Sending.{AreMessages};
ghost use Rattle.dds_ends.specs.Standing.{state_of};

use crate::matched_rows::row_among;
use crate::matching::{Destination, ReaderName};
use crate::sending::{Announced, send_made};
use dds_base::{Endpoint, EntityId, GuidPrefix, Sn};
use rtps_wire::{Heartbeat, Message, Submessage, Submessages};
use rtps_writer::{HeartbeatDue, StatefulWriter};
use std::alloc::{AllocError, Global};

/// A HEARTBEAT of a writer, without a peer that it is for.
#[derive(Clone, Copy)]
pub struct Beat {
    pub prefix: GuidPrefix,
    /// The writer.
    pub entity: EntityId,
    pub due: HeartbeatDue,
    /// Whether it asserts the writer's liveliness; then it asks for no answer.
    pub asserts: bool,
}

/// The HEARTBEAT to readers of this entity id, from this number to that.
fn beat_from(beat: &Beat, reader: EntityId, first: Sn, last: Sn) -> Submessage<'static>
    requires { CanSpan first last }
    ensures says { result ≡ beat_from beat.now reader first last }
    ensures spells { IsSpellable result }
{
    // These show the prover how many octets the names have.
    let (_reader, _writer) = (reader.as_slice(), beat.entity.as_slice());
    Submessage::Heartbeat(Heartbeat {
        reader_id: reader,
        writer_id: beat.entity,
        first_sn: first,
        last_sn: last,
        count: beat.due.count,
        final_flag: beat.asserts,
        liveliness_flag: beat.asserts,
    })
}

/// The HEARTBEAT to all readers, as a message to the peer of this prefix.
fn message_for_all(alloc: Global, beat: &Beat, to: GuidPrefix) -> Message<'static>
    requires { CanSpan beat.now.due.first beat.now.due.last }
    ensures says { result
        ≡ message_to beat.now to (beat_from beat.now every_reader beat.now.due.first beat.now.due.last ∷ []) }
    ensures writable { IsWritable result }
    ensures some { 1 ≤ length result.submessages }
{
    // These show the prover how many octets the names have.
    let (_prefix, _to) = (beat.prefix.as_slice(), to.as_slice());
    let mut submessages = Submessages::new(alloc);
    submessages.push_in_place(Submessage::InfoDst(to));
    submessages.push_in_place(beat_from(beat, EntityId::UNKNOWN, beat.due.first, beat.due.last));
    Message {
        prefix: beat.prefix,
        submessages,
    }
}

/// The HEARTBEAT by name to this reader.
fn beat_for(
    beat: &Beat,
    writer: &StatefulWriter,
    readers: &[ReaderName],
    name: &ReaderName,
) -> Submessage<'static>
    requires due { IsDueOf writer.now beat.now.due }
    requires count { reader_count writer.now ≡ length readers.now }
    ensures says { ForEach beat.now.due.first writer.now readers.now
        (λ w answered. result ≡ beat_for beat.now w answered name.now) }
    ensures spells { IsSpellable result }
    ensures bare { value_octets result ≡ 0 }
{
    let reader = name.guid.entity;
    match row_among(readers, name.reader) {
        Some(row) => beat_from(beat, reader, writer.first_for(row), writer.last_for(row)),
        None => beat_from(beat, reader, beat.due.first, writer.last()),
    }
}

/// Adds the HEARTBEAT by name to this reader, if there is memory for it.
fn push_beat(
    submessages: &mut Submessages<'_>,
    beat: &Beat,
    writer: &StatefulWriter,
    readers: &[ReaderName],
    name: &ReaderName,
) -> Result<(), AllocError>
    requires due { IsDueOf writer.now beat.now.due }
    requires count { reader_count writer.now ≡ length readers.now }
    ensures bare { OnOk result (AddsBare 1 submessages.old submessages.new) }
    ensures adds { OnOk result (ForEach beat.now.due.first writer.now readers.now
        (λ w answered. submessages.new ≡ submessages.old ++ beat_for beat.now w answered name.now ∷ [])) }
{
    submessages.push(beat_for(beat, writer, readers, name))?;
    Ok(())
}

/// Adds a HEARTBEAT by name to each reader of this peer that is told, among these of a writer, in their order.
fn push_told(
    submessages: &mut Submessages<'_>,
    beat: &Beat,
    writer: &StatefulWriter,
    readers: &[ReaderName],
    peer: u32,
) -> Result<(), AllocError>
    requires due { IsDueOf writer.now beat.now.due }
    requires count { reader_count writer.now ≡ length readers.now }
    ensures bare { OnOk result
        (AddsBare (names_at readers.now peer) submessages.old submessages.new) }
    ensures adds { OnOk result (ForEach beat.now.due.first writer.now readers.now
        (λ w answered. submessages.new
        ≡ submessages.old
        ++ beats_for beat.now w answered (names_told (is_told answered w) w.readers readers.now) peer)) }
{
    for row in 0..readers.len() {
        let name = &readers[row];
        if writer.is_told(row) && name.reader.peer == peer {
            push_beat(submessages, beat, writer, readers, name)?;
        }
    }
    Ok(())
}

/// Adds a HEARTBEAT by name to each of these matched readers that is of this peer, in their order.
fn push_matched(
    submessages: &mut Submessages<'_>,
    beat: &Beat,
    writer: &StatefulWriter,
    readers: &[ReaderName],
    matched: &[ReaderName],
    peer: u32,
) -> Result<(), AllocError>
    requires due { IsDueOf writer.now beat.now.due }
    requires count { reader_count writer.now ≡ length readers.now }
    ensures bare { OnOk result
        (AddsBare (names_at matched.now peer) submessages.old submessages.new) }
    ensures adds { OnOk result (ForEach beat.now.due.first writer.now readers.now
        (λ w answered. submessages.new ≡ submessages.old ++ beats_for beat.now w answered matched.now peer)) }
{
    for name in matched {
        if name.reader.peer == peer {
            push_beat(submessages, beat, writer, readers, name)?;
        }
    }
    Ok(())
}

/// Whether one HEARTBEAT, from this first kept number on, is for all readers at a peer: each of a writer's reliable ones
/// there is owed all that is kept, and none is silent.
fn is_one_for_all(writer: &StatefulWriter, readers: &[ReaderName], first: Sn, peer: u32) -> bool
    requires count { reader_count writer.now ≡ length readers.now }
    ensures { ForEach first writer.now readers.now (λ w answered. result ≡ is_one_for_all answered w peer) }
{
    for row in 0..readers.len() {
        if readers[row].reader.peer == peer
            && (first < writer.first_for(row) || writer.is_silent(row))
        {
            return false;
        }
    }
    true
}

/// The message of a tick to a peer: to the readers there that are told, among these of a writer.
fn message_to_told(
    alloc: Global,
    beat: &Beat,
    writer: &StatefulWriter,
    readers: &[ReaderName],
    to: &Destination,
) -> Result<Message<'static>, AllocError>
    requires due { IsDueOf writer.now beat.now.due }
    requires count { reader_count writer.now ≡ length readers.now }
    requires few { AreFew (readers_of readers.now) }
    ensures says { ForEach beat.now.due.first writer.now readers.now (λ w answered. IfOk result
        (λ m. m
        ≡ message_to beat.now to.now.prefix
        (beats_at beat.now w answered (names_told (is_told answered w) w.readers readers.now) to.now.peer))) }
    ensures writable { IfOk result IsWritable }
    ensures some { IfOk result (λ m. 1 ≤ length m.submessages) }
{
    if is_one_for_all(writer, readers, beat.due.first, to.peer) {
        return Ok(message_for_all(alloc, beat, to.prefix));
    }
    // These show the prover how many octets the names have.
    let (_prefix, _to) = (beat.prefix.as_slice(), to.prefix.as_slice());
    let mut submessages = Submessages::new(alloc);
    submessages.push_in_place(Submessage::InfoDst(to.prefix));
    push_told(&mut submessages, beat, writer, readers, to.peer)?;
    Ok(Message {
        prefix: beat.prefix,
        submessages,
    })
}

/// The message of an assertion to a peer: to those of these matched readers that are there.
fn message_to_matched(
    alloc: Global,
    beat: &Beat,
    writer: &StatefulWriter,
    readers: &[ReaderName],
    matched: &[ReaderName],
    to: &Destination,
) -> Result<Message<'static>, AllocError>
    requires due { IsDueOf writer.now beat.now.due }
    requires count { reader_count writer.now ≡ length readers.now }
    requires few { AreFew (readers_of matched.now) }
    ensures says { ForEach beat.now.due.first writer.now readers.now (λ w answered. IfOk result
        (λ m. m
        ≡ message_to beat.now to.now.prefix (beats_at beat.now w answered matched.now to.now.peer))) }
    ensures writable { IfOk result IsWritable }
    ensures some { IfOk result (λ m. 1 ≤ length m.submessages) }
{
    if is_one_for_all(writer, readers, beat.due.first, to.peer) {
        return Ok(message_for_all(alloc, beat, to.prefix));
    }
    // These show the prover how many octets the names have.
    let (_prefix, _to) = (beat.prefix.as_slice(), to.prefix.as_slice());
    let mut submessages = Submessages::new(alloc);
    submessages.push_in_place(Submessage::InfoDst(to.prefix));
    push_matched(&mut submessages, beat, writer, readers, matched, to.peer)?;
    Ok(Message {
        prefix: beat.prefix,
        submessages,
    })
}

/// Whether some reader of this peer, among the first so many of these readers of a writer, is told.
///
/// RTPS 2.5, 8.4.7 (ReaderProxy, unacked_changes), 8.3.8 (AckNack: FinalFlag).
fn is_peer_told(writer: &StatefulWriter, readers: &[ReaderName], to: usize, peer: u32) -> bool
    requires count { reader_count writer.now ≡ length readers.now }
    requires to { to ≤ length readers.now }
    ensures { (w : Writer) (answered : EndpointOf → Contact)
        → AreReadersOf w readers.now
        → RtpsStandsFor writer.now (state_of w answered)
        → result ≡ is_peer_told (is_told answered w) peer (take to w.readers) }
{
    for row in 0..to {
        let name = readers[row];
        if name.reader.peer == peer && writer.is_told(row) {
            return true;
        }
    }
    false
}

/// Whether the reader of this row is the first one of its peer, among these readers of a writer, that is told.
fn is_first_told(writer: &StatefulWriter, readers: &[ReaderName], row: usize) -> bool
    requires count { reader_count writer.now ≡ length readers.now }
    requires row { row < length readers.now }
    ensures { (w : Writer) (answered : EndpointOf → Contact)
        → AreReadersOf w readers.now
        → RtpsStandsFor writer.now (state_of w answered)
        → result ≡ is_first_told (is_told answered w) w.readers row }
{
    let peer = readers[row].reader.peer;
    writer.is_told(row) && !is_peer_told(writer, readers, row, peer)
}

/// Sends HEARTBEATs to each peer with a reader that is told, among these readers of a writer, in the order of the first
/// such reader of each.
pub fn send_beats(
    alloc: Global,
    beat: &Beat,
    writer: &StatefulWriter,
    readers: &[ReaderName],
    sent: &mut Announced,
)
    requires due { IsDueOf writer.now beat.now.due }
    requires count { reader_count writer.now ≡ length readers.now }
    requires few { AreFew (readers_of readers.now) }
    requires many { length readers.now ≤ max_known }
    requires room { sent.old.unsent ≤ max_ends * max_known }
    ensures few { sent.new.unsent ≤ sent.old.unsent + max_known }
    ensures beats { Beats beat.now writer.now readers.now sent.old.packets.items sent.old.unsent
        sent.new.packets.items sent.new.unsent }
    ensures messages { AreMessages sent.old.packets.items → AreMessages sent.new.packets.items }
{
    for row in 0..readers.len() {
        if is_first_told(writer, readers, row) {
            let to = readers[row].peer();
            let message = message_to_told(alloc, beat, writer, readers, &to);
            send_made(alloc, sent, message, to.peer);
        }
    }
}

/// Sends HEARTBEATs to these matched readers, at each of these peers.
pub fn send_to_all(
    alloc: Global,
    beat: &Beat,
    writer: &StatefulWriter,
    readers: &[ReaderName],
    matched: &[ReaderName],
    destinations: &[Destination],
) -> Announced
    requires due { IsDueOf writer.now beat.now.due }
    requires count { reader_count writer.now ≡ length readers.now }
    requires few { AreFew (readers_of matched.now) }
    requires many { length destinations.now ≤ max_known }
    ensures sent { Tells beat.now writer.now readers.now matched.now destinations.now
        result.packets.items result.unsent }
    ensures few { result.unsent ≤ max_known }
    ensures messages { AreMessages result.packets.items }
{
    let mut sent = Announced {
        packets: Vec::new(alloc),
        unsent: 0,
    };
    for to in destinations {
        let message = message_to_matched(alloc, beat, writer, readers, matched, to);
        send_made(alloc, &mut sent, message, to.peer);
    }
    sent
}
