//! What happens to a participant: datagrams that come, time that goes on, that it leaves, and its calls.
//!
//! A writer or a reader is named by its number, from 1. What comes of an event takes the place of what came of the last one.
//! A call whose value or key is not of the type of its writer's topic is refused by BAD_PARAMETER.
//! DDS 1.4, 2.2.2.4 and 2.2.2.5 (DataWriter, DataReader); RTPS 2.5, 8.5 (discovery). The interface for C is this project's
//! own.

ghost use Rattle.dds_base.specs.declared.selection.Selection.TheVariants.{Any};
ghost use Rattle.dds_domain.specs.Participants.{Hears, Ticks};
ghost use Rattle.dds_machine.specs.declared.call.Call.TheVariants.{Dispose, Read, Register, Take, Unregister, Write};
ghost use Rattle.dds_c.specs.Asking.{masks_of};
ghost use Rattle.dds_c.specs.Partaking.{Happens, HappensCopied, HappensSomething, IsLeft, Turns};

use crate::events::NOT_OPEN;
use crate::lines::call_of_line;
use crate::member::lack_of;
use crate::membership::Membership;
use crate::reading::{any, masks};
use crate::session::code_of;
use dds_base::{Code, Key, Masks, Octets};
use dds_machine::Call;
use std::alloc::Global;

/// A datagram comes from an address at a moment, in units of 2^-32 second; time does not go back. It is read where it
/// stands.
///
/// # Errors
///
/// PRECONDITION_NOT_MET where no participant is open. MEMORY where memory was wanting: then a datagram was lost, as a
/// network may lose it, and what else is left to do is done after a later event.
///
/// RTPS 2.5, 8.5 (discovery), 8.3.4 (the message receiver).
#[unsafe(no_mangle)]
pub extern "C" fn cw_participant_hear(
    alloc: Global,
    participant: &mut Membership,
    now: u64,
    address: &[u8; 4],
    datagram: &[u8],
) -> u8
    // It is one step of the participant.
    ensures step { Turns (Hears Masks.ANY now address.now datagram.now)
        participant.old.held.member result participant.new.held.member }
{
    let Some(mut member) = participant.take(alloc) else {
        return NOT_OPEN.number();
    };
    member.hear(alloc, now, address, datagram);
    let code = lack_of(&member.turn);
    participant.put(member);
    code
}

/// Time goes on to a moment, in units of 2^-32 second; it does not go back.
///
/// # Errors
///
/// Those of `cw_participant_hear`.
///
/// RTPS 2.5, 8.5.3.3.2 (leases), 8.4.7 (heartbeatPeriod).
#[unsafe(no_mangle)]
pub extern "C" fn cw_participant_tick(alloc: Global, participant: &mut Membership, now: u64) -> u8
    // It is one step of the participant.
    ensures step { Turns (Ticks now) participant.old.held.member result participant.new.held.member }
{
    let Some(mut member) = participant.take(alloc) else {
        return NOT_OPEN.number();
    };
    member.tick(alloc, now);
    let code = lack_of(&member.turn);
    participant.put(member);
    code
}

/// The participant says that it leaves, to all that are told of it and to each participant. It stays open.
///
/// # Errors
///
/// PRECONDITION_NOT_MET where no participant is open; MEMORY: then nothing is said.
///
/// RTPS 2.5, 8.5.3.
#[unsafe(no_mangle)]
pub extern "C" fn cw_participant_leave(alloc: Global, participant: &mut Membership) -> u8
    // What it says is to be sent, and nothing else changes.
    ensures step { Turns IsLeft participant.old.held.member result participant.new.held.member }
{
    let Some(mut member) = participant.take(alloc) else {
        return NOT_OPEN.number();
    };
    member.leave(alloc);
    let code = lack_of(&member.turn);
    participant.put(member);
    code
}

/// A call at a participant. Answers 0, or the code with which it was refused.
fn call(alloc: Global, participant: &mut Membership, call: Call) -> u8
    ensures step { Happens participant.old.held.member call result participant.new.held.member }
{
    let Some(mut member) = participant.take(alloc) else {
        return NOT_OPEN.number();
    };
    member.call(alloc, call);
    let code = code_of(&member.reply);
    participant.put(member);
    code
}

/// Registers an instance (DDS 1.4, 2.2.2.4, register_instance). It is refused as `Call::Register`, and where the type has no
/// such key, or one that is an MD5.
#[unsafe(no_mangle)]
pub extern "C" fn cw_participant_register(
    alloc: Global,
    participant: &mut Membership,
    writer: u8,
    key: &[u8; 16],
) -> u8
    // It is one step of its peer, or is refused where the key does not fit.
    ensures step { Happens participant.old.held.member
        (Register writer (record { 0 = key.now })) result participant.new.held.member }
{
    let key = Key(*key);
    call(alloc, participant, Call::Register { writer, key })
}

/// Writes a value of an instance (DDS 1.4, 2.2.2.4, write): of a topic without a key the key is sixteen zeros. It is
/// refused as `Call::Write`, where the value is none of the type or has another key, and by MEMORY where there is none for
/// the copy of the value; then nothing changes.
#[unsafe(no_mangle)]
pub extern "C" fn cw_participant_write(
    alloc: Global,
    participant: &mut Membership,
    writer: u8,
    key: &[u8; 16],
    value: &[u8],
) -> u8
    // It is one step of its peer, or is refused where the value does not fit, or nothing changes.
    ensures step { HappensCopied participant.old.held.member
        (Write writer (record { 0 = key.now }) value.now) result participant.new.held.member }
{
    let Ok(value) = Vec::from_slice(alloc, value) else {
        return Code::Memory.number();
    };
    let asked = Call::Write {
        writer,
        key: Key(*key),
        value: Octets::from_vec(value),
    };
    call(alloc, participant, asked)
}

/// Disposes an instance (DDS 1.4, 2.2.2.4, dispose). It is refused as `Call::Dispose`, and as `cw_participant_register`.
#[unsafe(no_mangle)]
pub extern "C" fn cw_participant_dispose(
    alloc: Global,
    participant: &mut Membership,
    writer: u8,
    key: &[u8; 16],
) -> u8
    // It is one step of its peer, or is refused where the key does not fit.
    ensures step { Happens participant.old.held.member
        (Dispose writer (record { 0 = key.now })) result participant.new.held.member }
{
    let key = Key(*key);
    call(alloc, participant, Call::Dispose { writer, key })
}

/// Ends the registration of an instance (DDS 1.4, 2.2.2.4, unregister_instance). It is refused as `Call::Unregister`, and as
/// `cw_participant_register`.
#[unsafe(no_mangle)]
pub extern "C" fn cw_participant_unregister(
    alloc: Global,
    participant: &mut Membership,
    writer: u8,
    key: &[u8; 16],
) -> u8
    // It is one step of its peer, or is refused where the key does not fit.
    ensures step { Happens participant.old.held.member
        (Unregister writer (record { 0 = key.now })) result participant.new.held.member }
{
    let key = Key(*key);
    call(alloc, participant, Call::Unregister { writer, key })
}

/// Reads samples, which stay (DDS 1.4, 2.2.2.5, read). It is refused as `Call::Read`.
#[unsafe(no_mangle)]
pub extern "C" fn cw_participant_read(
    alloc: Global,
    participant: &mut Membership,
    reader: u8,
    max: i32,
    samples: u32,
    views: u32,
    instances: u32,
) -> u8
    // It is one step of its peer.
    ensures step { Happens participant.old.held.member
        (Read reader (Any max (masks_of samples views instances))) result participant.new.held.member }
{
    let selection = any(max, masks(samples, views, instances));
    call(alloc, participant, Call::Read { reader, selection })
}

/// Takes samples, which go (DDS 1.4, 2.2.2.5, take). It is refused as `Call::Take`.
#[unsafe(no_mangle)]
pub extern "C" fn cw_participant_take(
    alloc: Global,
    participant: &mut Membership,
    reader: u8,
    max: i32,
    samples: u32,
    views: u32,
    instances: u32,
) -> u8
    // It is one step of its peer.
    ensures step { Happens participant.old.held.member
        (Take reader (Any max (masks_of samples views instances))) result participant.new.held.member }
{
    let selection = any(max, masks(samples, views, instances));
    call(alloc, participant, Call::Take { reader, selection })
}

/// A call in a line of docs/PIPE.md, without its line feed: `call ..`.
///
/// # Errors
///
/// BAD_PARAMETER for another line, MEMORY, PRECONDITION_NOT_MET where no participant is open; else as the call has them.
#[unsafe(no_mangle)]
pub extern "C" fn cw_participant_line(
    alloc: Global,
    participant: &mut Membership,
    line: &[u8],
) -> u8
    // It is one step of its peer by some call, or nothing changes.
    ensures step { HappensSomething participant.old.held.member result participant.new.held.member }
{
    match call_of_line(alloc, line) {
        Ok(Some(asked)) => call(alloc, participant, asked),
        Ok(None) => Code::BadParameter.number(),
        Err(_) => Code::Memory.number(),
    }
}
