//! How a change is announced: one packet to each peer with a matched reader, with the change as a DATA for all of them.
//!
//! RTPS 2.5, 8.4.9 (the behaviour of a reliable StatefulWriter).

ghost use Rattle.std.specs.Prelude.{◌≡◌, ◌+◌, ◌^◌, ◌<◌, ◌≤◌, [], ◌∷◌, IfOk, length};
ghost use Rattle.std.specs.Result.{ForOk};
ghost use Rattle.dds_base.specs.Bounds.{max_changes};
ghost use Rattle.rtps_wire.specs.Data.{IsContent};
ghost use Rattle.rtps_wire.specs.Messages.{IsWritable};
ghost use Rattle.rtps_wire.specs.declared.message.Message.{Message as MessageOf};
ghost use Rattle.dds_ends.specs.Beating.{AddsTo, due_to};
ghost use Rattle.dds_ends.specs.Sending.{AreMessages, max_unsent};
ghost use Rattle.dds_ends.specs.Announcing.{message_of, AreAnnouncements, AddsOctets, AddsPacket};

use crate::matching::Destination;
use dds_base::{EntityId, GuidPrefix, Moment, Octets, Sn, reserve_few};
use dds_protocol::Packet;
use rtps_wire::{Data, DataContent, Message, write_change, write_message};
use std::alloc::{AllocError, Global};

/// Who announces a change, and when it was made.
#[derive(Clone, Copy)]
pub struct Sender {
    pub prefix: GuidPrefix,
    /// The writer.
    pub entity: EntityId,
    pub moment: Moment,
}

/// Packets, and how many more found no memory.
#[derive(Drop)]
pub struct Announced {
    pub packets: Vec<Packet>,
    pub unsent: u64,
}

/// Adds the packet of these bytes to a peer, if there is memory for it.
fn push_bytes(packets: &mut Vec<Packet>, bytes: Vec<u8>, to: u32)
    ensures { AddsOctets packets.old.items bytes.items to packets.new.items }
{
    let bytes = Octets::from_vec(bytes);
    let _ = packets.push(Packet { to, bytes });
}

/// Adds the packet of a message to a peer, if there is memory for it.
pub fn push_packet(alloc: Global, packets: &mut Vec<Packet>, message: &Message, to: u32)
    requires { IsWritable message.now }
    ensures { AddsPacket packets.old.items message.now to packets.new.items }
{
    if let Ok(bytes) = write_message(alloc, message) {
        push_bytes(packets, bytes, to);
    }
}

/// Sends a message that is due to a peer, or counts it where it finds no memory.
pub fn send(alloc: Global, sent: &mut Announced, message: &Message, to: u32)
    requires writable { IsWritable message.now }
    requires some { 1 ≤ length message.now.submessages }
    requires room { sent.old.unsent < max_unsent }
    ensures few { sent.new.unsent ≤ sent.old.unsent + 1 }
    ensures adds { AddsTo (due_to to message.now ∷ []) sent.old sent.new }
    ensures messages { AreMessages sent.old.packets.items → AreMessages sent.new.packets.items }
{
    let before = sent.packets.len();
    push_packet(alloc, &mut sent.packets, message, to);
    if sent.packets.len() == before {
        sent.unsent += 1;
    }
}

/// Sends a message that was made for a peer, or counts it where it found no memory.
pub fn send_made(
    alloc: Global,
    sent: &mut Announced,
    message: Result<Message<'_>, AllocError>,
    to: u32,
)
    requires writable { ForOk message IsWritable }
    requires some { ForOk message (λ m. 1 ≤ length m.submessages) }
    requires room { sent.old.unsent < max_unsent }
    ensures few { sent.new.unsent ≤ sent.old.unsent + 1 }
    ensures adds { (m : MessageOf) → IfOk message.entry (λ x. x ≡ m)
        → AddsTo (due_to to m ∷ []) sent.old sent.new }
    ensures messages { AreMessages sent.old.packets.items → AreMessages sent.new.packets.items }
{
    match message {
        Ok(message) => send(alloc, sent, &message, to),
        Err(_) => sent.unsent += 1,
    }
}

/// Adds the packet that announces a change to the peer of this destination, if there is memory for it.
fn announce_to(
    alloc: Global,
    packets: &mut Vec<Packet>,
    sender: &Sender,
    change: &Data,
    destination: &Destination,
)
    requires first { 1 ≤ change.now.writer_sn }
    requires small { change.now.writer_sn ≤ max_changes }
    requires valid { IsContent change.now.content }
    ensures writable { IsWritable (message_of sender.now destination.now change.now) }
    ensures adds { AddsPacket packets.old.items
        (message_of sender.now destination.now change.now) destination.now.peer packets.new.items }
{
    // These show the prover how many octets the names have.
    let (_from, _to) = (sender.prefix.as_slice(), destination.prefix.as_slice());
    let (_reader, _writer) = (change.reader_id.as_slice(), change.writer_id.as_slice());
    let moment = sender.moment.units();
    if let Ok(bytes) = write_change(alloc, &sender.prefix, &destination.prefix, moment, change) {
        push_bytes(packets, bytes, destination.peer);
    }
}

/// Announces a change of this number, of which a DATA says so much, to each of these peers, by packets in this empty list.
pub fn announce(
    alloc: Global,
    list: Vec<Packet>,
    sender: &Sender,
    destinations: &[Destination],
    number: Sn,
    content: DataContent<'_>,
) -> Announced
    requires empty { list.items ≡ [] }
    requires first { 1 ≤ number }
    requires small { number ≤ max_changes }
    requires valid { IsContent content }
    ensures counted { length result.packets.items + result.unsent ≡ length destinations.now }
    ensures few { result.unsent ≤ length destinations.now }
    ensures packets { AreAnnouncements sender.now number content.entry destinations.now
        result.packets.items }
{
    let mut packets = list;
    // Where this is refused, each packet asks again.
    let _room = reserve_few(&mut packets, destinations.len());
    let change = Data {
        reader_id: EntityId::UNKNOWN,
        writer_id: sender.entity,
        writer_sn: number,
        content,
    };
    for destination in destinations {
        announce_to(alloc, &mut packets, sender, &change, destination);
    }
    let unsent = (destinations.len() - packets.len()) as u64;
    Announced { packets, unsent }
}
