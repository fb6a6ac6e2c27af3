//! Filters that are octets, and listeners that only record and are asked for what they were told.
//!
//! DDS 1.4, 2.2.2.1 (Entity, set_listener), 2.2.2.5 (QueryCondition), 2.2.4.3 (access through listeners).

ghost use Rattle.std.specs.Prelude.{◌≡◌, ◌≢◌, ◌⊎◌, None, Some, IfOk, IfErr, OnErr};
ghost use Rattle.dds_base.specs.Refusal.{Refuses};
ghost use Rattle.dds_core.specs.Listening.{RefusesFilter, RefusesListener};
ghost use Rattle.dds_notices.specs.Notices.{opened, room_refusal};
ghost use Rattle.dds_c.specs.Meaning.{recorder_notices, recorder_capacity, recorder_becomes};
ghost use Rattle.dds_notices.specs.Masks.{status_bit};
ghost use Rattle.dds_c.specs.Watching.{Between, FilterIsAdded, ListenerIsSet, NoticeFetched, NoticeWritten, RefusesToAdd, RefusesToSet, RefusesWith, changed_in, entity_of, kept_at, kind_of, matched_in, notice_of, prefix_of, number_of, total_in, SetAt};

use crate::events::NOT_OPEN;
use crate::out::{FlatChanged, FlatMatched, FlatTotal, changed_of, matched_of};
use crate::peer::Peer;
use crate::session::{Session, refusal};
use bitflags::Flags;
use dds_base::{Code, Entity, Octets};
use dds_notices::{Listener, Notice, Recorder, Status, StatusMask};
use dds_script::Prefix;
use std::alloc::Global;

/// That a status of an entity was raised, and its values; those that the status does not have are 0.
///
/// DDS 1.4, 2.2.4.1 (communication statuses), 2.3.3 (their bits).
#[repr(C)]
#[derive(Clone, Copy)]
pub struct FlatNotice {
    /// 0 the participant, 1 a writer, 2 a reader.
    pub entity_kind: u8,
    /// From 1, 0 of the participant.
    pub entity_number: u8,
    /// 128 SAMPLE_LOST, 1024 DATA_AVAILABLE, 2048 LIVELINESS_LOST, 4096 LIVELINESS_CHANGED, 8192 PUBLICATION_MATCHED,
    /// 16384 SUBSCRIPTION_MATCHED.
    pub status: u32,
    pub total: FlatTotal,
    pub changed: FlatChanged,
    pub matched: FlatMatched,
}

const NO_TOTAL: FlatTotal = FlatTotal {
    total_count: 0,
    total_count_change: 0,
};

const NO_CHANGE: FlatChanged = FlatChanged {
    alive_count: 0,
    not_alive_count: 0,
    alive_count_change: 0,
    not_alive_count_change: 0,
    last_publication_handle: 0,
};

const NO_MATCH: FlatMatched = FlatMatched {
    total_count: 0,
    total_count_change: 0,
    current_count: 0,
    current_count_change: 0,
    last_peer: 0,
    last_number: 0,
};

fn kind_of(entity: Entity) -> u8
    ensures { result ≡ kind_of entity }
{
    match entity {
        Entity::Participant => 0,
        Entity::Writer(_) => 1,
        Entity::Reader(_) => 2,
    }
}

fn number_of(entity: Entity) -> u8
    ensures { result ≡ number_of entity }
{
    match entity {
        Entity::Participant => 0,
        Entity::Writer(number) | Entity::Reader(number) => number,
    }
}

fn bit_of(status: Status) -> u32
    ensures { result ≡ status_bit status }
{
    let mask = match status {
        Status::SampleLost(_) => StatusMask::SAMPLE_LOST,
        Status::DataAvailable => StatusMask::DATA_AVAILABLE,
        Status::LivelinessLost(_) => StatusMask::LIVELINESS_LOST,
        Status::LivelinessChanged(_) => StatusMask::LIVELINESS_CHANGED,
        Status::PublicationMatched(_) => StatusMask::PUBLICATION_MATCHED,
        Status::SubscriptionMatched(_) => StatusMask::SUBSCRIPTION_MATCHED,
    };
    mask.bits()
}

fn total_in(status: Status) -> FlatTotal
    ensures { result ≡ total_in status }
{
    match status {
        Status::SampleLost(values) => FlatTotal {
            total_count: values.total_count,
            total_count_change: values.total_count_change,
        },
        Status::LivelinessLost(values) => FlatTotal {
            total_count: values.total_count,
            total_count_change: values.total_count_change,
        },
        _ => NO_TOTAL,
    }
}

fn changed_in(status: Status) -> FlatChanged
    ensures { result ≡ changed_in status }
{
    match status {
        Status::LivelinessChanged(values) => changed_of(values),
        _ => NO_CHANGE,
    }
}

fn matched_in(status: Status) -> FlatMatched
    ensures { result ≡ matched_in status }
{
    match status {
        Status::PublicationMatched(values) | Status::SubscriptionMatched(values) => matched_of(
            values,
        ),
        _ => NO_MATCH,
    }
}

fn notice_of(notice: Notice) -> FlatNotice
    ensures { result ≡ notice_of notice }
{
    FlatNotice {
        entity_kind: kind_of(notice.entity),
        entity_number: number_of(notice.entity),
        status: bit_of(notice.status),
        total: total_in(notice.status),
        changed: changed_in(notice.status),
        matched: matched_in(notice.status),
    }
}

fn entity_of(kind: u8, number: u8) -> Option<Entity>
    ensures { result ≡ entity_of kind number }
{
    match kind {
        0 => Some(Entity::Participant),
        1 => Some(Entity::Writer(number)),
        2 => Some(Entity::Reader(number)),
        _ => None,
    }
}

/// The filter by these octets.
fn prefix(octets: Octets) -> Prefix
    ensures { result ≡ prefix_of octets }
{
    Prefix::new(octets)
}

fn add(session: &mut Session, filter: Prefix) -> Result<u32, u8>
    ensures added { IfOk result (λ number. FilterIsAdded filter number session.old session.new) }
    ensures refused { OnErr result (session.new ≡ session.old) }
    ensures code { IfErr result (λ code. code ≢ 0) }
    ensures cause { IfErr result
        (RefusesWith (RefusesFilter recorder_notices recorder_capacity recorder_becomes session.old.core)) }
{
    match session.core.add_filter(filter) {
        Ok(number) => Ok(number),
        Err((code, _)) => Err(refusal(code)),
    }
}

/// Adds a filter, which values pass that begin with these octets: query conditions can name it by this number from then
/// on.
///
/// # Errors
///
/// PRECONDITION_NOT_MET where no peer is open, OUT_OF_RESOURCES where 2^32 - 1 filters were added, MEMORY. Nothing
/// changes then.
///
/// DDS 1.4, 2.2.2.5 (QueryCondition).
#[unsafe(no_mangle)]
pub extern "C" fn cw_add_filter(
    alloc: Global,
    peer: &mut Peer,
    octets: &[u8],
    number: &mut u32,
) -> u8
    // The filter is the last one, by that number, and nothing else changes.
    ensures added { result ≡ 0
        → Between (FilterIsAdded (prefix_of octets.now) number.new) peer.old.held.session peer.new.held.session }
    // A refusal is for want of a number, or of memory, or as no peer is open.
    ensures cause { result ≢ 0 → RefusesToAdd peer.old.held.session result }
    // A refusal changes nothing, and gives no number.
    ensures refused { result ≢ 0 → peer.new.held.session ≡ peer.old.held.session }
    ensures unnumbered { result ≢ 0 → number.new ≡ number.old }
{
    let Ok(octets) = Vec::from_slice(alloc, octets) else {
        return Code::Memory.number();
    };
    let Some(mut session) = peer.take(alloc) else {
        return NOT_OPEN.number();
    };
    let added = add(&mut session, prefix(Octets::from_vec(octets)));
    peer.put(session);
    match added {
        Ok(added) => *number = added,
        Err(code) => return code,
    }
    Code::Ok.number()
}

/// The mask of these bits.
fn status_mask(bits: u32) -> StatusMask
    ensures { result ≡ record { 0 = bits } }
{
    StatusMask::from_bits_retain(bits)
}

fn set(session: &mut Session, entity: Entity, mask: StatusMask, recorder: Option<Recorder>) -> u8
    ensures set { result ≡ 0 → ListenerIsSet entity mask recorder session.old session.new }
    ensures refused { result ≢ 0 → session.new ≡ session.old }
    ensures cause { result ≢ 0 → RefusesWith
        (RefusesListener recorder_notices recorder_capacity recorder_becomes session.old.core entity recorder) result }
{
    match session.core.set_listener(entity, mask, recorder) {
        Ok(old) => {
            session.told = old;
            Code::Ok.number()
        }
        Err((code, _)) => refusal(code),
    }
}

fn set_at(
    alloc: Global,
    peer: &mut Peer,
    kind: u8,
    number: u8,
    mask: u32,
    recorder: Option<Recorder>,
) -> u8
    ensures set { result ≡ 0 → Between (SetAt (entity_of kind number) (record { 0 = mask }) recorder)
        peer.old.held.session peer.new.held.session }
    ensures cause { result ≢ 0
        → RefusesToSet (entity_of kind number) recorder peer.old.held.session result }
    ensures refused { result ≢ 0 → peer.new.held.session ≡ peer.old.held.session }
{
    let Some(entity) = entity_of(kind, number) else {
        return Code::BadParameter.number();
    };
    let Some(mut session) = peer.take(alloc) else {
        return NOT_OPEN.number();
    };
    let code = set(&mut session, entity, status_mask(mask), recorder);
    peer.put(session);
    code
}

/// Sets a recorder as the listener of an entity, which keeps the last notices of the statuses of the mask, at most as many
/// as there is room for: 1 to 65,536. What the one kept that was there before is fetched by `cw_notice`.
///
/// # Errors
///
/// PRECONDITION_NOT_MET where no peer is open; BAD_PARAMETER for another room, or where there is no such entity; MEMORY.
/// Nothing changes then.
///
/// DDS 1.4, 2.2.2.1 (Entity, set_listener), 2.2.4.3 (access through listeners).
#[unsafe(no_mangle)]
pub extern "C" fn cw_set_recorder(
    alloc: Global,
    peer: &mut Peer,
    kind: u8,
    number: u8,
    mask: u32,
    room: usize,
) -> u8
    // A recorder that keeps nothing yet is set there, and what was there is kept aside.
    ensures set { result ≡ 0 → Between (SetAt (entity_of kind number) (record { 0 = mask }) (Some (opened room)))
        peer.old.held.session peer.new.held.session }
    // A refusal is for the room, or for want of memory for it, or by the first cause that there is.
    ensures cause { result ≢ 0 → RefusesWith (Refuses (room_refusal room)) result
        ⊎ RefusesToSet (entity_of kind number) (Some (opened room)) peer.old.held.session result }
    // A refusal changes nothing.
    ensures refused { result ≢ 0 → peer.new.held.session ≡ peer.old.held.session }
{
    match Recorder::open(alloc, room) {
        Ok(recorder) => set_at(alloc, peer, kind, number, mask, Some(recorder)),
        Err(code) => refusal(code),
    }
}

/// Takes the recorder of an entity away, if there is one; what it kept is fetched by `cw_notice`.
///
/// # Errors
///
/// PRECONDITION_NOT_MET where no peer is open, BAD_PARAMETER where there is no such entity. Nothing changes then.
///
/// DDS 1.4, 2.2.2.1 (Entity, set_listener).
#[unsafe(no_mangle)]
pub extern "C" fn cw_clear_recorder(alloc: Global, peer: &mut Peer, kind: u8, number: u8) -> u8
    // None is set there, and what was there is kept aside.
    ensures set { result ≡ 0 → Between (SetAt (entity_of kind number) (record { 0 = 65535 }) None)
        peer.old.held.session peer.new.held.session }
    // A refusal is by the first cause that there is.
    ensures cause { result ≢ 0
        → RefusesToSet (entity_of kind number) None peer.old.held.session result }
    // A refusal changes nothing.
    ensures refused { result ≢ 0 → peer.new.held.session ≡ peer.old.held.session }
{
    set_at(alloc, peer, kind, number, StatusMask::ANY.bits(), None)
}

fn notice_out(told: &Option<Recorder>, at: usize, notice: &mut FlatNotice) -> u8
    ensures written { NoticeWritten (kept_at told.now at) notice.old notice.new result }
{
    let Some(recorder) = told else {
        return Code::NoData.number();
    };
    match recorder.held(at) {
        Some(found) => {
            *notice = notice_of(found);
            Code::Ok.number()
        }
        None => Code::NoData.number(),
    }
}

/// The notice of this index, from 0 and the oldest first, that the recorder kept which was replaced or taken away last.
///
/// # Errors
///
/// PRECONDITION_NOT_MET where no peer is open, NO_DATA where there is no notice of this index. Nothing is written then.
///
/// DDS 1.4, 2.2.4.3 (access through listeners).
#[unsafe(no_mangle)]
pub extern "C" fn cw_notice(
    alloc: Global,
    peer: &mut Peer,
    at: usize,
    notice: &mut FlatNotice,
) -> u8
    // It is that notice, wherever there is one.
    ensures notice { NoticeFetched peer.old.held.session at notice.old notice.new result }
    // Nothing happens to the peer.
    ensures keeps { peer.new.held.session ≡ peer.old.held.session }
{
    let Some(session) = peer.take(alloc) else {
        return NOT_OPEN.number();
    };
    let code = notice_out(&session.told, at, notice);
    peer.put(session);
    code
}
