//! The calls of a writer, which is named by its number at the peer, from 1.
//!
//! DDS 1.4, 2.2.2.4 (DataWriter).

ghost use Rattle.std.specs.Prelude.{true, false};
ghost use Rattle.dds_machine.specs.declared.call.Call.TheVariants.{AssertLiveliness, Dispose, GetLivelinessLost, GetPublicationMatched, MatchReader, MeetReader, Register, SetStrength, UnmatchReader, Unregister, Write};
ghost use Rattle.dds_protocol.specs.declared.event.Event.TheVariants.{Call as Asked};
ghost use Rattle.dds_c.specs.Answering.{Happens, HappensCopied};
ghost use Rattle.dds_c.specs.Asking.{end_of};
ghost use Rattle.dds_c.specs.Far.{far_reader};

use crate::events::step;
use crate::far::far_reader;
use crate::peer::Peer;
use dds_base::{Code, Endpoint, Key, Octets};
use dds_machine::Call;
use dds_protocol::Event;
use std::alloc::Global;

/// Registers an instance (DDS 1.4, 2.2.2.4, register_instance). It is refused as `Call::Register`.
#[unsafe(no_mangle)]
pub extern "C" fn cw_register(alloc: Global, peer: &mut Peer, writer: u8, key: &[u8; 16]) -> u8
    // It is one step of the peer.
    ensures step { Happens peer.old.held.session
        (Asked (Register writer (record { 0 = key.now }))) result peer.new.held.session }
{
    let key = Key(*key);
    step(alloc, peer, Event::Call(Call::Register { writer, key }))
}

/// Writes a value of an instance (DDS 1.4, 2.2.2.4, write). It is refused as `Call::Write`, and by MEMORY where there is
/// none for the copy of the value; then nothing changes.
#[unsafe(no_mangle)]
pub extern "C" fn cw_write(
    alloc: Global,
    peer: &mut Peer,
    writer: u8,
    key: &[u8; 16],
    value: &[u8],
) -> u8
    // It is one step of the peer, or nothing changes.
    ensures step { HappensCopied peer.old.held.session
        (Asked (Write writer (record { 0 = key.now }) value.now)) result peer.new.held.session }
{
    let Ok(value) = Vec::from_slice(alloc, value) else {
        return Code::Memory.number();
    };
    let call = Call::Write {
        writer,
        key: Key(*key),
        value: Octets::from_vec(value),
    };
    step(alloc, peer, Event::Call(call))
}

/// Disposes an instance (DDS 1.4, 2.2.2.4, dispose). It is refused as `Call::Dispose`.
#[unsafe(no_mangle)]
pub extern "C" fn cw_dispose(alloc: Global, peer: &mut Peer, writer: u8, key: &[u8; 16]) -> u8
    // It is one step of the peer.
    ensures step { Happens peer.old.held.session
        (Asked (Dispose writer (record { 0 = key.now }))) result peer.new.held.session }
{
    let key = Key(*key);
    step(alloc, peer, Event::Call(Call::Dispose { writer, key }))
}

/// Ends the registration of an instance (DDS 1.4, 2.2.2.4, unregister_instance). It is refused as `Call::Unregister`.
#[unsafe(no_mangle)]
pub extern "C" fn cw_unregister(alloc: Global, peer: &mut Peer, writer: u8, key: &[u8; 16]) -> u8
    // It is one step of the peer.
    ensures step { Happens peer.old.held.session
        (Asked (Unregister writer (record { 0 = key.now }))) result peer.new.held.session }
{
    let key = Key(*key);
    step(alloc, peer, Event::Call(Call::Unregister { writer, key }))
}

/// Asserts a writer's liveliness (DDS 1.4, 2.2.2.4, assert_liveliness). It is refused as `Call::AssertLiveliness`.
#[unsafe(no_mangle)]
pub extern "C" fn cw_assert_liveliness(alloc: Global, peer: &mut Peer, writer: u8) -> u8
    // It is one step of the peer.
    ensures step { Happens peer.old.held.session
        (Asked (AssertLiveliness writer)) result peer.new.held.session }
{
    step(alloc, peer, Event::Call(Call::AssertLiveliness { writer }))
}

/// Sets the strength that a writer's changes carry from now on (DDS 1.4, 2.2.3, OWNERSHIP_STRENGTH). It is refused as
/// `Call::SetStrength`.
#[unsafe(no_mangle)]
pub extern "C" fn cw_set_strength(alloc: Global, peer: &mut Peer, writer: u8, strength: i32) -> u8
    // It is one step of the peer.
    ensures step { Happens peer.old.held.session
        (Asked (SetStrength writer strength)) result peer.new.held.session }
{
    step(
        alloc,
        peer,
        Event::Call(Call::SetStrength { writer, strength }),
    )
}

/// Looks at LIVELINESS_LOST (DDS 1.4, 2.2.2.4, get_liveliness_lost_status); `cw_total` fetches it. It is refused as
/// `Call::GetLivelinessLost`.
#[unsafe(no_mangle)]
pub extern "C" fn cw_get_liveliness_lost_status(alloc: Global, peer: &mut Peer, writer: u8) -> u8
    // It is one step of the peer.
    ensures step { Happens peer.old.held.session
        (Asked (GetLivelinessLost writer)) result peer.new.held.session }
{
    step(alloc, peer, Event::Call(Call::GetLivelinessLost { writer }))
}

/// A writer is told of a reader of its topic, by its peer and its number there: the two are matched from now on (RTPS 2.5,
/// 8.4.7.4, matched_reader_add). It is refused as `Call::MatchReader`.
#[unsafe(no_mangle)]
pub extern "C" fn cw_match_reader(
    alloc: Global,
    peer: &mut Peer,
    writer: u8,
    reader_peer: u32,
    reader: u8,
) -> u8
    // It is one step of the peer.
    ensures step { Happens peer.old.held.session
        (Asked (MatchReader writer (end_of reader_peer reader) false)) result peer.new.held.session }
{
    let reader = Endpoint {
        peer: reader_peer,
        number: reader,
    };
    let call = Call::MatchReader {
        writer,
        reader,
        greeted: false,
    };
    step(alloc, peer, Event::Call(call))
}

/// The same of a reader that is told no more than where it begins until it has answered (RTPS 2.5, 8.3.8, Heartbeat). It
/// is refused as `Call::MatchReader`.
#[unsafe(no_mangle)]
pub extern "C" fn cw_greet_reader(
    alloc: Global,
    peer: &mut Peer,
    writer: u8,
    reader_peer: u32,
    reader: u8,
) -> u8
    // It is one step of the peer.
    ensures step { Happens peer.old.held.session
        (Asked (MatchReader writer (end_of reader_peer reader) true)) result peer.new.held.session }
{
    let reader = Endpoint {
        peer: reader_peer,
        number: reader,
    };
    let call = Call::MatchReader {
        writer,
        reader,
        greeted: true,
    };
    step(alloc, peer, Event::Call(call))
}

/// A writer is told of a reader that it may not know, by a number of its peer and a number there that the caller chose,
/// its GUID and whether it is best-effort: the two are matched from now on (RTPS 2.5, 8.4.7.4, matched_reader_add), greeted
/// or not. It is refused as `Call::MeetReader`.
#[unsafe(no_mangle)]
pub extern "C" fn cw_meet_reader(
    alloc: Global,
    peer: &mut Peer,
    writer: u8,
    reader_peer: u32,
    reader: u8,
    prefix: &[u8; 12],
    entity: &[u8; 4],
    is_best_effort: bool,
    is_greeted: bool,
) -> u8
    // It is one step of the peer.
    ensures step { Happens peer.old.held.session
        (Asked (MeetReader writer
        (far_reader (end_of reader_peer reader) prefix.now entity.now is_best_effort) is_greeted))
        result peer.new.held.session }
{
    let endpoint = Endpoint {
        peer: reader_peer,
        number: reader,
    };
    let call = Call::MeetReader {
        writer,
        far: far_reader(endpoint, prefix, entity, is_best_effort),
        greeted: is_greeted,
    };
    step(alloc, peer, Event::Call(call))
}

/// A writer is told that a reader has left (RTPS 2.5, 8.4.7.4, matched_reader_remove). It is refused as
/// `Call::UnmatchReader`.
#[unsafe(no_mangle)]
pub extern "C" fn cw_unmatch_reader(
    alloc: Global,
    peer: &mut Peer,
    writer: u8,
    reader_peer: u32,
    reader: u8,
) -> u8
    // It is one step of the peer.
    ensures step { Happens peer.old.held.session
        (Asked (UnmatchReader writer (end_of reader_peer reader))) result peer.new.held.session }
{
    let reader = Endpoint {
        peer: reader_peer,
        number: reader,
    };
    let call = Call::UnmatchReader { writer, reader };
    step(alloc, peer, Event::Call(call))
}

/// Looks at PUBLICATION_MATCHED (DDS 1.4, 2.2.2.4, get_publication_matched_status); `cw_matched` fetches it. It is refused
/// as `Call::GetPublicationMatched`.
#[unsafe(no_mangle)]
pub extern "C" fn cw_get_publication_matched_status(
    alloc: Global,
    peer: &mut Peer,
    writer: u8,
) -> u8
    // It is one step of the peer.
    ensures step { Happens peer.old.held.session
        (Asked (GetPublicationMatched writer)) result peer.new.held.session }
{
    let call = Call::GetPublicationMatched { writer };
    step(alloc, peer, Event::Call(call))
}
