//! What is fetched of what came of the last event of a participant. A fetch changes nothing.
//!
//! What is to be sent, what changed of matches and who appeared or is gone are counted from 0, and so are samples.
//! DDS 1.4, 2.2.2.5 (SampleInfo), 2.2.4.1 (PUBLICATION_MATCHED, SUBSCRIPTION_MATCHED); RTPS 2.5, 8.5 (discovery). The
//! interface for C is this project's own.

ghost use Rattle.std.specs.Prelude.{◌≡◌, slice_get};
ghost use Rattle.dds_c.specs.Fetching.{TextWritten};
ghost use Rattle.dds_c.specs.Partaking.{DatagramCopied, DatagramFetched, ElementFetched, ElementWritten, SampleFetched, TextFetched, flat_presence, flat_told, octets_of, presences_in, told_in};

use crate::answers::{NOTHING, sample_out};
use crate::events::NOT_OPEN;
use crate::lines::text_of_reply;
use crate::member::Member;
use crate::membership::Membership;
use crate::out::{FlatInfo, copy_out};
use dds_base::{Code, Guid};
use rtps_discovery::{Packet, Told as Presence};
use rtps_matching::Told;
use std::alloc::Global;

/// What changed between a writer or a reader of the participant and one of another.
///
/// DDS 1.4, 2.2.4.1 (PUBLICATION_MATCHED, SUBSCRIPTION_MATCHED); RTPS 2.5, 8.2 (GUID_t).
#[repr(C)]
#[derive(Clone, Copy)]
pub struct FlatTold {
    /// 1 they are matched, and were not; 2 they were matched, and are not; 3 they are still, and the other one announces
    /// something else.
    pub change: u8,
    /// The GUID of the one of the participant.
    pub own: [u8; 16],
    /// The GUID of the other one.
    pub other: [u8; 16],
}

/// Who appeared or is gone.
///
/// RTPS 2.5, 8.5.3 (SPDP).
#[repr(C)]
#[derive(Clone, Copy)]
pub struct FlatPresence {
    /// Whether it appeared; else it is gone: it left, or was not heard for its lease.
    pub is_there: bool,
    /// Of its GUIDs.
    pub prefix: [u8; 12],
}

fn datagram_out(
    datagrams: &[Packet],
    at: usize,
    address: &mut [u8; 4],
    port: &mut u16,
    buffer: &mut [u8],
    needed: &mut usize,
) -> u8
    ensures copied { DatagramCopied (slice_get datagrams.now at)
        address.old address.new port.old port.new buffer.old buffer.new needed.old needed.new result }
{
    match datagrams.get(at) {
        Some(datagram) => {
            *address = datagram.to.address;
            *port = datagram.to.port;
            copy_out(datagram.bytes.as_slice(), buffer, needed)
        }
        None => NOTHING.number(),
    }
}

/// The datagram of this index that is to be sent, and the address and the port that it is for. It is copied to the start of
/// the buffer, and `needed` is how many octets it has.
///
/// # Errors
///
/// PRECONDITION_NOT_MET where no participant is open, NO_DATA where there is no datagram of this index: nothing is written
/// then. OUT_OF_RESOURCES where the buffer is too short: then no octet is copied, and `needed` says how long it has to be.
#[unsafe(no_mangle)]
pub extern "C" fn cw_participant_datagram(
    alloc: Global,
    participant: &mut Membership,
    at: usize,
    address: &mut [u8; 4],
    port: &mut u16,
    buffer: &mut [u8],
    needed: &mut usize,
) -> u8
    // It is that datagram of what came last, wherever there is one and it fits; where there is none nothing is written.
    ensures datagram { DatagramFetched participant.old.held.member at
        address.old address.new port.old port.new buffer.old buffer.new needed.old needed.new result }
    // Nothing happens to the participant.
    ensures keeps { participant.new.held.member ≡ participant.old.held.member }
{
    let Some(member) = participant.take(alloc) else {
        return NOT_OPEN.number();
    };
    let datagrams = member.turn.datagrams.as_slice();
    let code = datagram_out(datagrams, at, address, port, buffer, needed);
    participant.put(member);
    code
}

/// The sample of this index that was read or taken: what is said of it, and its value, which is copied to the start of
/// the buffer; `needed` is how many octets it has.
///
/// # Errors
///
/// PRECONDITION_NOT_MET where no participant is open, NO_DATA where there is no sample of this index: nothing is written
/// then. OUT_OF_RESOURCES where the buffer is too short: then no octet is copied, and `needed` says how long it has to be.
///
/// DDS 1.4, 2.2.2.5 (SampleInfo).
#[unsafe(no_mangle)]
pub extern "C" fn cw_participant_sample(
    alloc: Global,
    participant: &mut Membership,
    at: usize,
    info: &mut FlatInfo,
    buffer: &mut [u8],
    needed: &mut usize,
) -> u8
    // It is that sample of the last reply, wherever there is one and it fits; where there is none nothing is written.
    ensures sample { SampleFetched participant.old.held.member at
        info.old info.new buffer.old buffer.new needed.old needed.new result }
    // Nothing happens to the participant.
    ensures keeps { participant.new.held.member ≡ participant.old.held.member }
{
    let Some(member) = participant.take(alloc) else {
        return NOT_OPEN.number();
    };
    let code = sample_out(&member.reply, at, info, buffer, needed);
    participant.put(member);
    code
}

/// The sixteen octets of a GUID.
pub(crate) fn octets_of(guid: Guid) -> [u8; 16]
    ensures { result ≡ octets_of guid }
{
    let mut octets = [0; 16];
    let (head, tail) = octets.split_at_mut(12);
    head.copy_from_slice(guid.prefix.as_slice());
    tail.copy_from_slice(guid.entity.as_slice());
    octets
}

fn flat_told(told: Told) -> FlatTold
    ensures { result ≡ flat_told told }
{
    let (change, own, other) = match told {
        Told::Matched(own, other) => (1, own, other),
        Told::Unmatched(own, other) => (2, own, other),
        Told::Changed(own, other) => (3, own, other),
    };
    FlatTold {
        change,
        own: octets_of(own),
        other: octets_of(other),
    }
}

fn told_out(all: &[Told], at: usize, told: &mut FlatTold) -> u8
    ensures written { ElementWritten flat_told (slice_get all.now at) told.old told.new result }
{
    match all.get(at) {
        Some(found) => *told = flat_told(*found),
        None => return NOTHING.number(),
    }
    Code::Ok.number()
}

/// What changed of matches, by its index, in the order in which it did.
///
/// # Errors
///
/// PRECONDITION_NOT_MET where no participant is open, NO_DATA where there is none of this index. Nothing is written then.
///
/// DDS 1.4, 2.2.4.1 (PUBLICATION_MATCHED, SUBSCRIPTION_MATCHED).
#[unsafe(no_mangle)]
pub extern "C" fn cw_participant_told(
    alloc: Global,
    participant: &mut Membership,
    at: usize,
    told: &mut FlatTold,
) -> u8
    // It is that change, wherever there is one; else nothing is written.
    ensures told { ElementFetched told_in flat_told participant.old.held.member at told.old told.new result }
    // Nothing happens to the participant.
    ensures keeps { participant.new.held.member ≡ participant.old.held.member }
{
    let Some(member) = participant.take(alloc) else {
        return NOT_OPEN.number();
    };
    let code = told_out(&member.turn.told, at, told);
    participant.put(member);
    code
}

fn flat_presence(presence: Presence) -> FlatPresence
    ensures { result ≡ flat_presence presence }
{
    let (is_there, of) = match presence {
        Presence::Appeared(of) => (true, of),
        Presence::Gone(of) => (false, of),
    };
    let prefix = of.0;
    FlatPresence { is_there, prefix }
}

fn presence_out(all: &[Presence], at: usize, presence: &mut FlatPresence) -> u8
    ensures written { ElementWritten flat_presence (slice_get all.now at) presence.old presence.new result }
{
    match all.get(at) {
        Some(found) => *presence = flat_presence(*found),
        None => return NOTHING.number(),
    }
    Code::Ok.number()
}

/// Who appeared or is gone, by its index, in the order in which they did.
///
/// # Errors
///
/// PRECONDITION_NOT_MET where no participant is open, NO_DATA where there is none of this index. Nothing is written then.
///
/// RTPS 2.5, 8.5.3 (SPDP).
#[unsafe(no_mangle)]
pub extern "C" fn cw_participant_presence(
    alloc: Global,
    participant: &mut Membership,
    at: usize,
    presence: &mut FlatPresence,
) -> u8
    // It is who appeared or is gone at that place, wherever there is one; else nothing is written.
    ensures presence { ElementFetched presences_in flat_presence participant.old.held.member at
        presence.old presence.new result }
    // Nothing happens to the participant.
    ensures keeps { participant.new.held.member ≡ participant.old.held.member }
{
    let Some(member) = participant.take(alloc) else {
        return NOT_OPEN.number();
    };
    let code = presence_out(&member.turn.presences, at, presence);
    participant.put(member);
    code
}

fn text_out(alloc: Global, member: &Member, buffer: &mut [u8], needed: &mut usize) -> u8
    ensures written { TextWritten buffer.old buffer.new needed.old needed.new result }
{
    match text_of_reply(alloc, member.side, &member.reply, 0) {
        Ok(text) => copy_out(text.as_bytes(), buffer, needed),
        Err(_) => Code::Memory.number(),
    }
}

/// The reply to the last event in words, as docs/PIPE.md has them behind `reply`, and a line feed. It is copied to the
/// start of the buffer, and `needed` is how many octets it has.
///
/// # Errors
///
/// PRECONDITION_NOT_MET where no participant is open, MEMORY: nothing is written then. OUT_OF_RESOURCES where the buffer is
/// too short: then nothing is copied, and `needed` says how long it has to be.
#[unsafe(no_mangle)]
pub extern "C" fn cw_participant_text(
    alloc: Global,
    participant: &mut Membership,
    buffer: &mut [u8],
    needed: &mut usize,
) -> u8
    // Some text, which no clause spells, is copied where it fits as a whole; else nothing is, for its cause.
    ensures text { TextFetched participant.old.held.member
        buffer.old buffer.new needed.old needed.new result }
    // Nothing happens to the participant.
    ensures keeps { participant.new.held.member ≡ participant.old.held.member }
{
    let Some(member) = participant.take(alloc) else {
        return NOT_OPEN.number();
    };
    let code = text_out(alloc, &member, buffer, needed);
    participant.put(member);
    code
}
