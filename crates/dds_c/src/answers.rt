//! What is fetched of the last answer. A fetch changes nothing.
//!
//! The answer to an event stays until the next one: its packets and its samples, counted from 0, and its values.
//! DDS 1.4, 2.2.2.5 (SampleInfo). The interface for C is this project's own.

ghost use Rattle.std.specs.Prelude.{◌≡◌, slice_get};
ghost use Rattle.dds_c.specs.Fetching.{PacketCopied, PacketFetched, SampleCopied, SampleFetched, ValueFetched, ValueWritten, changed_said, handle_said, key_said, matched_said, number_said, sample_at, total_said, unsent_of};

use crate::events::NOT_OPEN;
use crate::out::{
    FlatChanged, FlatInfo, FlatMatched, FlatTotal, changed_of, copy_out, info_of, matched_of,
};
use crate::peer::Peer;
use dds_base::Code;
use dds_machine::Reply;
use dds_protocol::Packet;
use std::alloc::Global;

/// What a fetch answers where there is nothing of the kind.
pub(crate) const NOTHING: Code = Code::NoData;

fn packet_out(
    packets: &[Packet],
    at: usize,
    to: &mut u32,
    buffer: &mut [u8],
    needed: &mut usize,
) -> u8
    ensures copied { PacketCopied (slice_get packets.now at)
        to.old to.new buffer.old buffer.new needed.old needed.new result }
{
    match packets.get(at) {
        Some(packet) => {
            *to = packet.to;
            copy_out(packet.bytes.as_slice(), buffer, needed)
        }
        None => NOTHING.number(),
    }
}

/// The packet of this index that is to be sent, and the number of the peer that it is for. It is copied to the start of
/// the buffer, and `needed` is how many octets it has.
///
/// # Errors
///
/// PRECONDITION_NOT_MET where no peer is open, NO_DATA where there is no packet of this index: nothing is written then.
/// OUT_OF_RESOURCES where the buffer is too short: then nothing is copied, and `needed` says how long it has to be.
#[unsafe(no_mangle)]
pub extern "C" fn cw_packet(
    alloc: Global,
    peer: &mut Peer,
    at: usize,
    to: &mut u32,
    buffer: &mut [u8],
    needed: &mut usize,
) -> u8
    // It is that packet of the last answer, wherever there is one and it fits; where there is none nothing is written.
    ensures packet { PacketFetched peer.old.held.session at
        to.old to.new buffer.old buffer.new needed.old needed.new result }
    // Nothing happens to the peer.
    ensures keeps { peer.new.held.session ≡ peer.old.held.session }
{
    let Some(session) = peer.take(alloc) else {
        return NOT_OPEN.number();
    };
    let packets = session.last.packets.as_slice();
    let code = packet_out(packets, at, to, buffer, needed);
    peer.put(session);
    code
}

/// Writes what is said of a sample of a reply, and copies its value.
pub(crate) fn sample_out(
    reply: &Reply,
    at: usize,
    info: &mut FlatInfo,
    buffer: &mut [u8],
    needed: &mut usize,
) -> u8
    ensures copied { SampleCopied (sample_at reply.now at)
        info.old info.new buffer.old buffer.new needed.old needed.new result }
{
    let Reply::Samples(samples) = reply else {
        return NOTHING.number();
    };
    match samples.as_slice().get(at) {
        Some(sample) => {
            *info = info_of(sample);
            copy_out(sample.value.as_slice(), buffer, needed)
        }
        None => NOTHING.number(),
    }
}

/// The sample of this index that was read or taken: what is said of it, and its value, which is copied to the start of
/// the buffer; `needed` is how many octets it has.
///
/// # Errors
///
/// PRECONDITION_NOT_MET where no peer is open, NO_DATA where there is no sample of this index: nothing is written then.
/// OUT_OF_RESOURCES where the buffer is too short: then no octet is copied, and `needed` says how long it has to be.
///
/// DDS 1.4, 2.2.2.5 (SampleInfo).
#[unsafe(no_mangle)]
pub extern "C" fn cw_sample(
    alloc: Global,
    peer: &mut Peer,
    at: usize,
    info: &mut FlatInfo,
    buffer: &mut [u8],
    needed: &mut usize,
) -> u8
    // It is that sample of the last answer, wherever there is one and it fits; where there is none nothing is written.
    ensures sample { SampleFetched peer.old.held.session at
        info.old info.new buffer.old buffer.new needed.old needed.new result }
    // Nothing happens to the peer.
    ensures keeps { peer.new.held.session ≡ peer.old.held.session }
{
    let Some(session) = peer.take(alloc) else {
        return NOT_OPEN.number();
    };
    let code = sample_out(&session.last.reply, at, info, buffer, needed);
    peer.put(session);
    code
}

fn key_out(reply: &Reply, key: &mut [u8; 16]) -> u8
    ensures written { ValueWritten (key_said reply.now) key.old key.new result }
{
    match reply {
        Reply::KeyValue(found) => *key = found.0,
        _ => return NOTHING.number(),
    }
    Code::Ok.number()
}

/// The key that `cw_get_key_value` asked for (DDS 1.4, 2.2.2.5, get_key_value).
///
/// # Errors
///
/// PRECONDITION_NOT_MET where no peer is open, NO_DATA where the last answer is no key. Nothing is written then.
#[unsafe(no_mangle)]
pub extern "C" fn cw_key(alloc: Global, peer: &mut Peer, key: &mut [u8; 16]) -> u8
    // It is what the last answer says, wherever that is such a value.
    ensures value { ValueFetched key_said peer.old.held.session key.old key.new result }
    // Nothing happens to the peer.
    ensures keeps { peer.new.held.session ≡ peer.old.held.session }
{
    let Some(session) = peer.take(alloc) else {
        return NOT_OPEN.number();
    };
    let code = key_out(&session.last.reply, key);
    peer.put(session);
    code
}

fn handle_out(reply: &Reply, handle: &mut u64) -> u8
    ensures written { ValueWritten (handle_said reply.now) handle.old handle.new result }
{
    match reply {
        Reply::InstanceHandle(found) => *handle = found.number(),
        _ => return NOTHING.number(),
    }
    Code::Ok.number()
}

/// The handle that `cw_lookup_instance` asked for, 0 where the instance is not known (DDS 1.4, 2.2.2.5,
/// lookup_instance); after `cw_match_writer` and `cw_meet_writer` that of the publication.
///
/// # Errors
///
/// PRECONDITION_NOT_MET where no peer is open, NO_DATA where the last answer is no handle. Nothing is written then.
#[unsafe(no_mangle)]
pub extern "C" fn cw_handle(alloc: Global, peer: &mut Peer, handle: &mut u64) -> u8
    // It is what the last answer says, wherever that is such a value.
    ensures value { ValueFetched handle_said peer.old.held.session handle.old handle.new result }
    // Nothing happens to the peer.
    ensures keeps { peer.new.held.session ≡ peer.old.held.session }
{
    let Some(session) = peer.take(alloc) else {
        return NOT_OPEN.number();
    };
    let code = handle_out(&session.last.reply, handle);
    peer.put(session);
    code
}

fn number_out(reply: &Reply, number: &mut u32) -> u8
    ensures written { ValueWritten (number_said reply.now) number.old number.new result }
{
    match reply {
        Reply::Created(made) => *number = *made,
        _ => return NOTHING.number(),
    }
    Code::Ok.number()
}

/// The number of the condition or of the WaitSet that was made, from 1.
///
/// # Errors
///
/// PRECONDITION_NOT_MET where no peer is open, NO_DATA where the last answer is no such number. Nothing is written then.
#[unsafe(no_mangle)]
pub extern "C" fn cw_number(alloc: Global, peer: &mut Peer, number: &mut u32) -> u8
    // It is what the last answer says, wherever that is such a value.
    ensures value { ValueFetched number_said peer.old.held.session number.old number.new result }
    // Nothing happens to the peer.
    ensures keeps { peer.new.held.session ≡ peer.old.held.session }
{
    let Some(session) = peer.take(alloc) else {
        return NOT_OPEN.number();
    };
    let code = number_out(&session.last.reply, number);
    peer.put(session);
    code
}

fn total_out(reply: &Reply, total: &mut FlatTotal) -> u8
    ensures written { ValueWritten (total_said reply.now) total.old total.new result }
{
    match reply {
        Reply::SampleLost(status) => {
            *total = FlatTotal {
                total_count: status.total_count,
                total_count_change: status.total_count_change,
            }
        }
        Reply::LivelinessLost(status) => {
            *total = FlatTotal {
                total_count: status.total_count,
                total_count_change: status.total_count_change,
            }
        }
        _ => return NOTHING.number(),
    }
    Code::Ok.number()
}

/// What a look at SAMPLE_LOST or at LIVELINESS_LOST found (DDS 1.4, 2.2.4.1).
///
/// # Errors
///
/// PRECONDITION_NOT_MET where no peer is open, NO_DATA where the last answer is no such look. Nothing is written then.
#[unsafe(no_mangle)]
pub extern "C" fn cw_total(alloc: Global, peer: &mut Peer, total: &mut FlatTotal) -> u8
    // It is what the last answer says, wherever that is such a value.
    ensures value { ValueFetched total_said peer.old.held.session total.old total.new result }
    // Nothing happens to the peer.
    ensures keeps { peer.new.held.session ≡ peer.old.held.session }
{
    let Some(session) = peer.take(alloc) else {
        return NOT_OPEN.number();
    };
    let code = total_out(&session.last.reply, total);
    peer.put(session);
    code
}

fn changed_out(reply: &Reply, changed: &mut FlatChanged) -> u8
    ensures written { ValueWritten (changed_said reply.now) changed.old changed.new result }
{
    match reply {
        Reply::LivelinessChanged(status) => *changed = changed_of(*status),
        _ => return NOTHING.number(),
    }
    Code::Ok.number()
}

/// What a look at LIVELINESS_CHANGED found (DDS 1.4, 2.2.4.1).
///
/// # Errors
///
/// PRECONDITION_NOT_MET where no peer is open, NO_DATA where the last answer is no such look. Nothing is written then.
#[unsafe(no_mangle)]
pub extern "C" fn cw_changed(alloc: Global, peer: &mut Peer, changed: &mut FlatChanged) -> u8
    // It is what the last answer says, wherever that is such a value.
    ensures value { ValueFetched changed_said peer.old.held.session changed.old changed.new result }
    // Nothing happens to the peer.
    ensures keeps { peer.new.held.session ≡ peer.old.held.session }
{
    let Some(session) = peer.take(alloc) else {
        return NOT_OPEN.number();
    };
    let code = changed_out(&session.last.reply, changed);
    peer.put(session);
    code
}

fn matched_out(reply: &Reply, matched: &mut FlatMatched) -> u8
    ensures written { ValueWritten (matched_said reply.now) matched.old matched.new result }
{
    match reply {
        Reply::Matched(status) => *matched = matched_of(*status),
        _ => return NOTHING.number(),
    }
    Code::Ok.number()
}

/// What a look at PUBLICATION_MATCHED or at SUBSCRIPTION_MATCHED found (DDS 1.4, 2.2.4.1).
///
/// # Errors
///
/// PRECONDITION_NOT_MET where no peer is open, NO_DATA where the last answer is no such look. Nothing is written then.
#[unsafe(no_mangle)]
pub extern "C" fn cw_matched(alloc: Global, peer: &mut Peer, matched: &mut FlatMatched) -> u8
    // It is what the last answer says, wherever that is such a value.
    ensures value { ValueFetched matched_said peer.old.held.session matched.old matched.new result }
    // Nothing happens to the peer.
    ensures keeps { peer.new.held.session ≡ peer.old.held.session }
{
    let Some(session) = peer.take(alloc) else {
        return NOT_OPEN.number();
    };
    let code = matched_out(&session.last.reply, matched);
    peer.put(session);
    code
}

/// How many packets of the last event found no memory, which are as lost ones; 0 where no peer is open.
#[unsafe(no_mangle)]
pub extern "C" fn cw_unsent(alloc: Global, peer: &mut Peer) -> u64
    // It is what the last answer says.
    ensures unsent { result ≡ unsent_of peer.old.held.session }
    // Nothing happens to the peer.
    ensures keeps { peer.new.held.session ≡ peer.old.held.session }
{
    let Some(session) = peer.take(alloc) else {
        return 0;
    };
    let unsent = session.last.unsent;
    peer.put(session);
    unsent
}
