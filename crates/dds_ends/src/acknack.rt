//! The ACKNACK of a reader that is due to one of its writers.
//!
//! RTPS 2.5, 8.4.12 (reliable StatefulReader), 8.3.8 (AckNack).

ghost use Rattle.std.specs.Prelude.{◌≡◌, ◌+◌, ◌<◌, ◌≤◌, length, IfSome};
ghost use Rattle.rtps_reader.specs.Answer.{IsSayable};
ghost use Rattle.rtps_wire.specs.Messages.{IsWritable};
ghost use Rattle.dds_protocol.specs.DueMessages.{acknack_message, acknacks_due};
ghost use Rattle.dds_ends.specs.Beating.{AddsTo};
ghost use Rattle.dds_ends.specs.Sending.{AreMessages, max_unsent};

use crate::matching::WriterName;
use crate::sending::{Announced, send};
use dds_base::{EntityId, GuidPrefix};
use rtps_reader::AckNackDue;
use rtps_wire::{AckNack, Message, Submessage, Submessages};
use std::alloc::Global;

/// The ACKNACK of a reader of the peer of this prefix, as a message to the writer of this name.
fn message(
    alloc: Global,
    own: GuidPrefix,
    reader: EntityId,
    writer: &WriterName,
    due: &AckNackDue,
) -> Message<'static>
    requires { IsSayable due.now }
    ensures says { result
        ≡ acknack_message own writer.now.guid.prefix reader writer.now.guid.entity due.now }
    ensures writable { IsWritable result }
    ensures some { 1 ≤ length result.submessages }
{
    let to = writer.guid.prefix;
    let writer_id = writer.guid.entity;
    // These show the prover how many octets the names have.
    let (_own, _to) = (own.as_slice(), to.as_slice());
    let (_reader, _writer) = (reader.as_slice(), writer_id.as_slice());
    let acknack = AckNack {
        reader_id: reader,
        writer_id,
        reader_sn_state: due.missing,
        count: due.count,
        final_flag: due.is_final,
    };
    let mut submessages = Submessages::new(alloc);
    submessages.push_in_place(Submessage::InfoDst(to));
    submessages.push_in_place(Submessage::AckNack(acknack));
    Message {
        prefix: own,
        submessages,
    }
}

/// Sends the ACKNACK of a reader of the peer of this prefix to the writer of this name, if one is due.
pub fn send_acknack(
    alloc: Global,
    own: GuidPrefix,
    reader: EntityId,
    writer: &WriterName,
    due: Option<AckNackDue>,
    sent: &mut Announced,
)
    requires sayable { IfSome due IsSayable }
    requires room { sent.old.unsent < max_unsent }
    ensures few { sent.new.unsent ≤ sent.old.unsent + 1 }
    ensures adds { AddsTo
        (acknacks_due own writer.now.guid.prefix writer.now.writer.peer reader
        writer.now.guid.entity due) sent.old sent.new }
    ensures messages { AreMessages sent.old.packets.items → AreMessages sent.new.packets.items }
{
    if let Some(due) = due {
        let message = message(alloc, own, reader, writer, &due);
        send(alloc, sent, &message, writer.writer.peer);
    }
}
