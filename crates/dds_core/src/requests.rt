//! What the peer's writers do with an ACKNACK.
//!
//! RTPS 2.5, 8.4.9 (the behaviour of a reliable StatefulWriter).

ghost use Rattle.std.specs.Prelude.{◌≡◌, ◌+◌, ◌^◌, ◌<◌, ◌≤◌, Some, length, slice_get, IfSome, IfNone, OnOk, OnErr};
ghost use Rattle.dds_base.specs.Bounds.{window_width};
ghost use Rattle.dds_machine.specs.Matching.{max_known};
ghost use Rattle.rtps_wire.specs.declared.submessage.Submessage.TheVariants as submessage;
ghost use Rattle.dds_ends.specs.Answering.{HasRoom, acknack_moves, listed};
ghost use Rattle.dds_core.specs.Answering.{HaveRoom, AsksNone, IsAskedWriter, TakesRow, TakesAllRows};
ghost use Rattle.dds_ends.specs.Kept.{WriterKept};
ghost use Rattle.dds_core.specs.Moved.{IsFew};
ghost use Rattle.dds_ends.specs.Readiness.{receiver_at};
ghost use Rattle.dds_core.specs.Receiving.{GoOn, TakesOneMore, KeepsPeer, NeedsMemory};

use crate::effects::Effects;
use crate::peer::Peer;
use dds_base::{Code, Endpoint, GuidPrefix, Sn};
use dds_ends::{MessageReceiver, Room, WriterEnd};
use dds_machine::Move;
use rtps_wire::AckNack;

/// The first of the writers of the peer of this prefix that an ACKNACK is for, of those where it is from a matched reader
/// and is heeded.
fn asked_writer(
    writers: &[WriterEnd],
    own: &GuidPrefix,
    receiver: &MessageReceiver,
    body: &AckNack,
) -> Option<usize>
    ensures asked { IfSome result
        (IsAskedWriter own.now (receiver_at receiver.now) body.now writers.now) }
    ensures none { IfNone result
        (AsksNone own.now (receiver_at receiver.now) body.now writers.now) }
{
    for (index, writer) in writers.iter().enumerate() {
        if let Some(_row) = writer.asked_row(own, receiver, body) {
            return Some(index);
        }
    }
    None
}

/// What is reported of an ACKNACK of this reader: that it acknowledged what was never made, or how far it has all.
fn heard(writer: u8, reader: Endpoint, acknowledged: Option<Sn>, is_strange: bool) -> Option<Move>
    ensures few { IfSome result IsFew }
    ensures said { listed result ≡ acknack_moves writer reader acknowledged is_strange }
{
    if is_strange {
        return Some(Move::Strange { writer, reader });
    }
    let to = acknowledged?;
    Some(Move::Acknowledged { writer, reader, to })
}

impl Peer {
    /// The first of the peer's writers that an ACKNACK is for, of those where it is from a matched reader and is heeded.
    fn asked(&self, receiver: &MessageReceiver, body: &AckNack) -> Option<usize>
        ensures asked { IfSome result
            (IsAskedWriter self.now.prefix (receiver_at receiver.now) body.now self.now.writers) }
        ensures none { IfNone result
            (AsksNone self.now.prefix (receiver_at receiver.now) body.now self.now.writers) }
    {
        asked_writer(&self.writers, &self.prefix, receiver, body)
    }

    /// The writer of this index takes an ACKNACK of its reader of this row, with room for the answers, and sends them.
    /// Adds what moved, for which there is room.
    fn answer_row(
        &mut self,
        effects: &mut Effects,
        index: usize,
        row: usize,
        body: &AckNack,
        room: Room,
    )
        requires within { (k : WriterKept) × (slice_get self.old.writers index ≡ Some k)
            × (row < length k.readers) }
        requires base { 1 ≤ body.now.reader_sn_state.base }
        requires room { HasRoom body.now.reader_sn_state room }
        requires moves { 1 ≤ effects.old.moves.room }
        requires low { effects.old.sent.unsent < 2 ^ 60 }
        ensures takes { TakesRow self.old index row body.now effects.old self.new effects.new }
        ensures room { effects.old.moves.room ≤ effects.new.moves.room + 1 }
        ensures on { GoOn window_width effects.old effects.new }
    {
        let (alloc, prefix) = (self.alloc, self.prefix);
        let writer = &mut self.writers[index];
        let reader = writer.reader(row);
        let is_strange = writer.is_beyond(body);
        let acknowledged = writer.take_acknack(alloc, prefix, row, body, room, &mut effects.sent);
        if let Some(step) = heard((index + 1) as u8, reader, acknowledged, is_strange) {
            effects.moves.push_reserved(step);
        }
    }

    /// The writer of this index takes an ACKNACK of each of its readers that has room for the answers. Adds what moved,
    /// for which there is room.
    fn answer_rows(
        &mut self,
        effects: &mut Effects,
        index: usize,
        body: &AckNack,
        rooms: Vec<Option<Room>>,
    )
        requires within { (k : WriterKept) × (slice_get self.old.writers index ≡ Some k)
            × (length rooms.items ≡ length k.readers) }
        requires base { 1 ≤ body.now.reader_sn_state.base }
        requires few { length rooms.items ≤ max_known }
        requires rooms { HaveRoom body.now.reader_sn_state rooms.items }
        requires moves { length rooms.items ≤ effects.old.moves.room }
        requires low { effects.old.sent.unsent < 2 ^ 59 }
        ensures takes { TakesAllRows self.old index body.now rooms.items effects.old self.new
            effects.new }
        ensures on { GoOn (2 ^ 40) effects.old effects.new }
    {
        let mut rooms = rooms;
        for row in 0..rooms.len() {
            if let Some(room) = rooms[row].take() {
                self.answer_row(effects, index, row, body, room);
            }
        }
    }

    /// Takes up an ACKNACK: the writer that it names answers each of its readers that it is from. Adds what moved. One
    /// that is heeded by nobody needs no memory.
    pub(crate) fn take_acknack(
        &mut self,
        effects: &mut Effects,
        receiver: &MessageReceiver,
        body: &AckNack,
    ) -> Result<(), Code>
        requires base { 1 ≤ body.now.reader_sn_state.base }
        requires low { effects.old.sent.unsent < 2 ^ 59 }
        ensures takes { OnOk result
            (TakesOneMore self.old (receiver_at receiver.now) (submessage.AckNack body.now)
            effects.old self.new effects.new) }
        ensures keeps { KeepsPeer (2 ^ 40) self.old effects.old self.new effects.new result }
        ensures needs { OnErr result
            (NeedsMemory self.old (receiver_at receiver.now) (submessage.AckNack body.now)) }
    {
        let Some(index) = self.asked(receiver, body) else {
            return Ok(());
        };
        let rooms = self.writers[index].rooms(self.alloc, &self.prefix, receiver, body)?;
        effects.moves.reserve(rooms.len())?;
        self.answer_rows(effects, index, body, rooms);
        Ok(())
    }
}
