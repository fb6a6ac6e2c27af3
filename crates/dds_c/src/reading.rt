//! The calls of a reader, which is named by its number at the peer, from 1.
//!
//! DDS 1.4, 2.2.2.5 (DataReader). `max` says how many samples at most, -1 for all; masks are sums of the bits of states.
//! What was read or taken is fetched by `cw_sample`.

ghost use Rattle.std.specs.Prelude.{◌≡◌};
ghost use Rattle.dds_base.specs.declared.selection.Scope.TheVariants as Scope;
ghost use Rattle.dds_base.specs.declared.selection.Selection.TheVariants as Selection;
ghost use Rattle.dds_machine.specs.declared.call.Call.TheVariants.{GetKeyValue, GetLivelinessChanged, GetSampleLost, GetSubscriptionMatched, LookupInstance, MatchWriter, MeetWriter, Read, ReadByCondition, Take, TakeByCondition, UnmatchWriter};
ghost use Rattle.dds_protocol.specs.declared.event.Event.TheVariants.{Call as Asked};
ghost use Rattle.dds_c.specs.Answering.{Happens};
ghost use Rattle.dds_c.specs.Asking.{end_of, masks_of};
ghost use Rattle.dds_c.specs.Far.{far_writer};
ghost use Rattle.dds_c.specs.Opening.{lease_of};

use crate::config;
use crate::events::step;
use crate::far::far_writer;
use crate::peer::Peer;
use bitflags::Flags;
use dds_base::{
    Endpoint, Handle, InstanceStateMask, Key, Masks, SampleStateMask, Scope, Selection,
    ViewStateMask,
};
use dds_machine::Call;
use dds_protocol::Event;
use std::alloc::Global;

/// The masks of these bits.
pub(crate) fn masks(samples: u32, views: u32, instances: u32) -> Masks
    ensures { result ≡ masks_of samples views instances }
{
    Masks {
        samples: SampleStateMask::from_bits_retain(samples),
        views: ViewStateMask::from_bits_retain(views),
        instances: InstanceStateMask::from_bits_retain(instances),
    }
}

/// Samples of any instance.
pub(crate) fn any(max: i32, masks: Masks) -> Selection
    ensures { result ≡ Selection.Any max masks }
{
    Selection::Any { max, masks }
}

/// Samples of one instance.
fn of_instance(handle: u64, max: i32, masks: Masks) -> Selection
    ensures { result ≡ Selection.Instance handle max masks }
{
    let handle = Handle::new(handle);
    Selection::Instance { handle, max, masks }
}

/// Samples of the next instance that has any.
fn of_next(previous: u64, max: i32, masks: Masks) -> Selection
    ensures { result ≡ Selection.NextInstance previous max masks }
{
    let previous = Handle::new(previous);
    Selection::NextInstance {
        previous,
        max,
        masks,
    }
}

/// The same by a condition.
fn next_by_condition(previous: u64, max: i32) -> Scope
    ensures { result ≡ Scope.NextInstance previous max }
{
    let after = Handle::new(previous);
    Scope::NextInstance {
        previous: after,
        max,
    }
}

fn read(alloc: Global, peer: &mut Peer, reader: u8, selection: Selection) -> u8
    ensures step { Happens peer.old.held.session
        (Asked (Read reader selection)) result peer.new.held.session }
{
    let call = Call::Read { reader, selection };
    step(alloc, peer, Event::Call(call))
}

fn take(alloc: Global, peer: &mut Peer, reader: u8, selection: Selection) -> u8
    ensures step { Happens peer.old.held.session
        (Asked (Take reader selection)) result peer.new.held.session }
{
    let call = Call::Take { reader, selection };
    step(alloc, peer, Event::Call(call))
}

fn read_by(alloc: Global, peer: &mut Peer, reader: u8, scope: Scope, condition: u32) -> u8
    ensures step { Happens peer.old.held.session
        (Asked (ReadByCondition reader scope condition)) result peer.new.held.session }
{
    let call = Call::ReadByCondition {
        reader,
        scope,
        condition,
    };
    step(alloc, peer, Event::Call(call))
}

fn take_by(alloc: Global, peer: &mut Peer, reader: u8, scope: Scope, condition: u32) -> u8
    ensures step { Happens peer.old.held.session
        (Asked (TakeByCondition reader scope condition)) result peer.new.held.session }
{
    let call = Call::TakeByCondition {
        reader,
        scope,
        condition,
    };
    step(alloc, peer, Event::Call(call))
}

/// Reads samples, which stay (DDS 1.4, 2.2.2.5, read). It is refused as `Call::Read`.
#[unsafe(no_mangle)]
pub extern "C" fn cw_read(
    alloc: Global,
    peer: &mut Peer,
    reader: u8,
    max: i32,
    samples: u32,
    views: u32,
    instances: u32,
) -> u8
    // It is one step of the peer.
    ensures step { Happens peer.old.held.session
        (Asked (Read reader (Selection.Any max (masks_of samples views instances))))
        result peer.new.held.session }
{
    read(
        alloc,
        peer,
        reader,
        any(max, masks(samples, views, instances)),
    )
}

/// Reads samples, which stay, of one instance (DDS 1.4, 2.2.2.5, read_instance). It is refused as `Call::Read`.
#[unsafe(no_mangle)]
pub extern "C" fn cw_read_instance(
    alloc: Global,
    peer: &mut Peer,
    reader: u8,
    max: i32,
    handle: u64,
    samples: u32,
    views: u32,
    instances: u32,
) -> u8
    // It is one step of the peer.
    ensures step { Happens peer.old.held.session
        (Asked (Read reader (Selection.Instance handle max (masks_of samples views instances))))
        result peer.new.held.session }
{
    read(
        alloc,
        peer,
        reader,
        of_instance(handle, max, masks(samples, views, instances)),
    )
}

/// Reads samples, which stay, of the next instance that has any (DDS 1.4, 2.2.2.5, read_next_instance). It is refused as
/// `Call::Read`.
#[unsafe(no_mangle)]
pub extern "C" fn cw_read_next_instance(
    alloc: Global,
    peer: &mut Peer,
    reader: u8,
    max: i32,
    previous: u64,
    samples: u32,
    views: u32,
    instances: u32,
) -> u8
    // It is one step of the peer.
    ensures step { Happens peer.old.held.session
        (Asked (Read reader (Selection.NextInstance previous max (masks_of samples views instances))))
        result peer.new.held.session }
{
    read(
        alloc,
        peer,
        reader,
        of_next(previous, max, masks(samples, views, instances)),
    )
}

/// Reads samples, which stay: the first that was not read (DDS 1.4, 2.2.2.5, read_next_sample). It is refused as `Call::Read`.
#[unsafe(no_mangle)]
pub extern "C" fn cw_read_next_sample(alloc: Global, peer: &mut Peer, reader: u8) -> u8
    // It is one step of the peer.
    ensures step { Happens peer.old.held.session
        (Asked (Read reader Selection.NextSample)) result peer.new.held.session }
{
    read(alloc, peer, reader, Selection::NextSample)
}

/// Reads samples, which stay, by a condition (DDS 1.4, 2.2.2.5, read_w_condition). It is refused as `Call::ReadByCondition`.
#[unsafe(no_mangle)]
pub extern "C" fn cw_read_w_condition(
    alloc: Global,
    peer: &mut Peer,
    reader: u8,
    max: i32,
    condition: u32,
) -> u8
    // It is one step of the peer.
    ensures step { Happens peer.old.held.session
        (Asked (ReadByCondition reader (Scope.Any max) condition)) result peer.new.held.session }
{
    read_by(alloc, peer, reader, Scope::Any { max }, condition)
}

/// Reads samples, which stay, by a condition and of the next instance that has any (DDS 1.4, 2.2.2.5,
/// read_next_instance_w_condition). It is refused as `Call::ReadByCondition`.
#[unsafe(no_mangle)]
pub extern "C" fn cw_read_next_instance_w_condition(
    alloc: Global,
    peer: &mut Peer,
    reader: u8,
    max: i32,
    previous: u64,
    condition: u32,
) -> u8
    // It is one step of the peer.
    ensures step { Happens peer.old.held.session
        (Asked (ReadByCondition reader (Scope.NextInstance previous max) condition))
        result peer.new.held.session }
{
    read_by(
        alloc,
        peer,
        reader,
        next_by_condition(previous, max),
        condition,
    )
}

/// Takes samples, which are then gone (DDS 1.4, 2.2.2.5, take). It is refused as `Call::Take`.
#[unsafe(no_mangle)]
pub extern "C" fn cw_take(
    alloc: Global,
    peer: &mut Peer,
    reader: u8,
    max: i32,
    samples: u32,
    views: u32,
    instances: u32,
) -> u8
    // It is one step of the peer.
    ensures step { Happens peer.old.held.session
        (Asked (Take reader (Selection.Any max (masks_of samples views instances))))
        result peer.new.held.session }
{
    take(
        alloc,
        peer,
        reader,
        any(max, masks(samples, views, instances)),
    )
}

/// Takes samples, which are then gone, of one instance (DDS 1.4, 2.2.2.5, take_instance). It is refused as `Call::Take`.
#[unsafe(no_mangle)]
pub extern "C" fn cw_take_instance(
    alloc: Global,
    peer: &mut Peer,
    reader: u8,
    max: i32,
    handle: u64,
    samples: u32,
    views: u32,
    instances: u32,
) -> u8
    // It is one step of the peer.
    ensures step { Happens peer.old.held.session
        (Asked (Take reader (Selection.Instance handle max (masks_of samples views instances))))
        result peer.new.held.session }
{
    take(
        alloc,
        peer,
        reader,
        of_instance(handle, max, masks(samples, views, instances)),
    )
}

/// Takes samples, which are then gone, of the next instance that has any (DDS 1.4, 2.2.2.5, take_next_instance). It is refused as
/// `Call::Take`.
#[unsafe(no_mangle)]
pub extern "C" fn cw_take_next_instance(
    alloc: Global,
    peer: &mut Peer,
    reader: u8,
    max: i32,
    previous: u64,
    samples: u32,
    views: u32,
    instances: u32,
) -> u8
    // It is one step of the peer.
    ensures step { Happens peer.old.held.session
        (Asked (Take reader (Selection.NextInstance previous max (masks_of samples views instances))))
        result peer.new.held.session }
{
    take(
        alloc,
        peer,
        reader,
        of_next(previous, max, masks(samples, views, instances)),
    )
}

/// Takes samples, which are then gone: the first that was not read (DDS 1.4, 2.2.2.5, take_next_sample). It is refused as `Call::Take`.
#[unsafe(no_mangle)]
pub extern "C" fn cw_take_next_sample(alloc: Global, peer: &mut Peer, reader: u8) -> u8
    // It is one step of the peer.
    ensures step { Happens peer.old.held.session
        (Asked (Take reader Selection.NextSample)) result peer.new.held.session }
{
    take(alloc, peer, reader, Selection::NextSample)
}

/// Takes samples, which are then gone, by a condition (DDS 1.4, 2.2.2.5, take_w_condition). It is refused as `Call::TakeByCondition`.
#[unsafe(no_mangle)]
pub extern "C" fn cw_take_w_condition(
    alloc: Global,
    peer: &mut Peer,
    reader: u8,
    max: i32,
    condition: u32,
) -> u8
    // It is one step of the peer.
    ensures step { Happens peer.old.held.session
        (Asked (TakeByCondition reader (Scope.Any max) condition)) result peer.new.held.session }
{
    take_by(alloc, peer, reader, Scope::Any { max }, condition)
}

/// Takes samples, which are then gone, by a condition and of the next instance that has any (DDS 1.4, 2.2.2.5,
/// take_next_instance_w_condition). It is refused as `Call::TakeByCondition`.
#[unsafe(no_mangle)]
pub extern "C" fn cw_take_next_instance_w_condition(
    alloc: Global,
    peer: &mut Peer,
    reader: u8,
    max: i32,
    previous: u64,
    condition: u32,
) -> u8
    // It is one step of the peer.
    ensures step { Happens peer.old.held.session
        (Asked (TakeByCondition reader (Scope.NextInstance previous max) condition))
        result peer.new.held.session }
{
    take_by(
        alloc,
        peer,
        reader,
        next_by_condition(previous, max),
        condition,
    )
}

/// Asks for the key of an instance (DDS 1.4, 2.2.2.5, get_key_value); `cw_key` fetches it. It is refused as
/// `Call::GetKeyValue`.
#[unsafe(no_mangle)]
pub extern "C" fn cw_get_key_value(alloc: Global, peer: &mut Peer, reader: u8, handle: u64) -> u8
    // It is one step of the peer.
    ensures step { Happens peer.old.held.session
        (Asked (GetKeyValue reader handle)) result peer.new.held.session }
{
    let instance = Handle::new(handle);
    let call = Call::GetKeyValue { reader, instance };
    step(alloc, peer, Event::Call(call))
}

/// Asks for the handle of an instance (DDS 1.4, 2.2.2.5, lookup_instance); `cw_handle` fetches it. It is refused as
/// `Call::LookupInstance`.
#[unsafe(no_mangle)]
pub extern "C" fn cw_lookup_instance(
    alloc: Global,
    peer: &mut Peer,
    reader: u8,
    key: &[u8; 16],
) -> u8
    // It is one step of the peer.
    ensures step { Happens peer.old.held.session
        (Asked (LookupInstance reader (record { 0 = key.now }))) result peer.new.held.session }
{
    let key = Key(*key);
    let call = Call::LookupInstance { reader, key };
    step(alloc, peer, Event::Call(call))
}

/// Looks at SAMPLE_LOST (DDS 1.4, 2.2.2.5, get_sample_lost_status); `cw_total` fetches it. It is refused as
/// `Call::GetSampleLost`.
#[unsafe(no_mangle)]
pub extern "C" fn cw_get_sample_lost_status(alloc: Global, peer: &mut Peer, reader: u8) -> u8
    // It is one step of the peer.
    ensures step { Happens peer.old.held.session
        (Asked (GetSampleLost reader)) result peer.new.held.session }
{
    let call = Call::GetSampleLost { reader };
    step(alloc, peer, Event::Call(call))
}

/// Looks at LIVELINESS_CHANGED (DDS 1.4, 2.2.2.5, get_liveliness_changed_status); `cw_changed` fetches it. It is refused
/// as `Call::GetLivelinessChanged`.
#[unsafe(no_mangle)]
pub extern "C" fn cw_get_liveliness_changed_status(alloc: Global, peer: &mut Peer, reader: u8) -> u8
    // It is one step of the peer.
    ensures step { Happens peer.old.held.session
        (Asked (GetLivelinessChanged reader)) result peer.new.held.session }
{
    let call = Call::GetLivelinessChanged { reader };
    step(alloc, peer, Event::Call(call))
}

/// A reader is told of a writer of its topic, by its peer and its number there: the two are matched from now on (RTPS 2.5,
/// 8.4.10.3, matched_writer_add); `cw_handle` fetches the publication handle. It is refused as `Call::MatchWriter`.
#[unsafe(no_mangle)]
pub extern "C" fn cw_match_writer(
    alloc: Global,
    peer: &mut Peer,
    reader: u8,
    writer_peer: u32,
    writer: u8,
) -> u8
    // It is one step of the peer.
    ensures step { Happens peer.old.held.session
        (Asked (MatchWriter reader (end_of writer_peer writer))) result peer.new.held.session }
{
    let writer = Endpoint {
        peer: writer_peer,
        number: writer,
    };
    let call = Call::MatchWriter { reader, writer };
    step(alloc, peer, Event::Call(call))
}

/// A reader is told of a writer that it may not know, by a number of its peer and a number there that the caller chose,
/// its GUID, its strength and, where it has one, its lease in units of 2^-32 second: the two are matched from now on (RTPS
/// 2.5, 8.4.10.3, matched_writer_add); `cw_handle` fetches the publication handle. It is refused as `Call::MeetWriter`.
#[unsafe(no_mangle)]
pub extern "C" fn cw_meet_writer(
    alloc: Global,
    peer: &mut Peer,
    reader: u8,
    writer_peer: u32,
    writer: u8,
    prefix: &[u8; 12],
    entity: &[u8; 4],
    strength: i32,
    has_lease: bool,
    lease: u64,
) -> u8
    // It is one step of the peer.
    ensures step { Happens peer.old.held.session
        (Asked (MeetWriter reader
        (far_writer (end_of writer_peer writer) prefix.now entity.now strength
        (lease_of has_lease lease))))
        result peer.new.held.session }
{
    let endpoint = Endpoint {
        peer: writer_peer,
        number: writer,
    };
    let lease = config::lease(has_lease, lease);
    let far = far_writer(endpoint, prefix, entity, strength, lease);
    step(alloc, peer, Event::Call(Call::MeetWriter { reader, far }))
}

/// A reader is told that a writer has left (RTPS 2.5, 8.4.10.3, matched_writer_remove). It is refused as
/// `Call::UnmatchWriter`.
#[unsafe(no_mangle)]
pub extern "C" fn cw_unmatch_writer(
    alloc: Global,
    peer: &mut Peer,
    reader: u8,
    writer_peer: u32,
    writer: u8,
) -> u8
    // It is one step of the peer.
    ensures step { Happens peer.old.held.session
        (Asked (UnmatchWriter reader (end_of writer_peer writer))) result peer.new.held.session }
{
    let writer = Endpoint {
        peer: writer_peer,
        number: writer,
    };
    let call = Call::UnmatchWriter { reader, writer };
    step(alloc, peer, Event::Call(call))
}

/// Looks at SUBSCRIPTION_MATCHED (DDS 1.4, 2.2.2.5, get_subscription_matched_status); `cw_matched` fetches it. It is
/// refused as `Call::GetSubscriptionMatched`.
#[unsafe(no_mangle)]
pub extern "C" fn cw_get_subscription_matched_status(
    alloc: Global,
    peer: &mut Peer,
    reader: u8,
) -> u8
    // It is one step of the peer.
    ensures step { Happens peer.old.held.session
        (Asked (GetSubscriptionMatched reader)) result peer.new.held.session }
{
    let call = Call::GetSubscriptionMatched { reader };
    step(alloc, peer, Event::Call(call))
}
