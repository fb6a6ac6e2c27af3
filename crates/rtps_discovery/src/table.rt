//! The rows of participants.
//!
//! `specs/Rows.antt` says it.
//!
//! RTPS 2.5, 8.5.3 (SPDP).

ghost use Rattle.std.specs.Prelude.{◌≡◌, ◌<◌, ◌&&◌, List, Option, length, nat_lt, IfErr, IfSome, OnOk, OnErr};
ghost use Rattle.std.specs.List.{count_by, list_any, position};
ghost use Rattle.std.specs.Option.{option_copied};
ghost use Rattle.rtps_discovery.specs.declared.row.Row.{Row};
ghost use Rattle.rtps_discovery.specs.Rows.{has_row, is_there, heard, announced, parted, slept, among, is_from, is_asleep, is_asleep_longest, is_row_at, without_one, with_room, difference};
ghost use Rattle.rtps_discovery.specs.Rooms.{Leaves, placed};

use crate::row::{Limits, Row, Told};
use dds_base::{Code, GuidPrefix};
use rtps_announcements::Participant;

/// Whether there is a row of a participant.
pub fn has_row(rows: &[Row], prefix: &GuidPrefix) -> bool
    ensures { result ≡ has_row prefix.now rows.now }
{
    rows.iter().any(|row| row.is_of(prefix))
}

/// Whether a participant is taken to be there.
pub fn is_there(rows: &[Row], prefix: &GuidPrefix) -> bool
    ensures { result ≡ is_there prefix.now rows.now }
{
    rows.iter().any(|row| row.is_of(prefix) && row.is_awake)
}

/// What is told of a participant that was there or not, and now is or is not.
pub fn difference(prefix: GuidPrefix, was_there: bool, is_there: bool) -> Option<Told>
    ensures { result ≡ difference prefix was_there is_there }
{
    match (was_there, is_there) {
        (true, false) => Some(Told::Gone(prefix)),
        (false, true) => Some(Told::Appeared(prefix)),
        _ => None,
    }
}

/// A datagram came in the name of a participant, from this address.
pub fn hear(rows: &mut [Row], prefix: &GuidPrefix, address: &[u8; 4], now: u64)
    ensures { rows.new ≡ heard prefix.now address.now now rows.old }
{
    for row in rows.iter_mut() {
        row.hear(prefix, address, now);
    }
}

/// The place of the row of a participant whose datagrams come from this address.
fn place_at(rows: &[Row], prefix: &GuidPrefix, address: &[u8; 4]) -> Option<usize>
    ensures place { result ≡ position (is_row_at prefix.now address.now) rows.now }
    ensures within { IfSome result (λ i. i < length rows.now) }
{
    rows.iter().position(|row| row.is_at(prefix, address))
}

/// Who is known announced itself anew, from this address.
pub fn announce(rows: &mut Vec<Row>, participant: Participant, address: &[u8; 4], now: u64)
    ensures { rows.new.items ≡ announced participant address.now now rows.old.items }
{
    let Some(place) = place_at(rows, &participant.prefix, address) else {
        return;
    };
    rows[place] = Row {
        participant,
        source: *address,
        heard: now,
        is_awake: true,
    };
}

/// The leases that have ended by now end.
pub fn sleep(rows: &mut [Row], now: u64)
    ensures { rows.new ≡ slept now rows.old }
{
    for row in rows.iter_mut() {
        row.sleep(now);
    }
}

/// A participant left, and said so from this address.
pub fn part(rows: &mut Vec<Row>, prefix: &GuidPrefix, address: &[u8; 4])
    ensures { rows.new.items ≡ parted prefix.now address.now rows.old.items }
{
    rows.retain(|row| !row.is_at(prefix, address));
}

/// Whether it is one of these rows: of those of an address, or of all.
fn is_among(address: Option<&[u8; 4]>, row: &Row) -> bool
    ensures { result ≡ among (option_copied address.entry) row.now }
{
    match address {
        Some(address) => row.is_from(address),
        None => true,
    }
}

/// Whether it is one of these rows, and sleeps.
fn is_asleep(address: Option<&[u8; 4]>, row: &Row) -> bool
    ensures { result ≡ is_asleep (option_copied address.entry) row.now }
{
    is_among(address, row) && !row.is_awake
}

/// Whether it is one of these rows that sleep, and was heard before this moment.
fn is_asleep_before(address: Option<&[u8; 4]>, heard: u64, row: &Row) -> bool
    ensures { result ≡ (is_asleep (option_copied address.entry) row.now && nat_lt row.now.heard heard) }
{
    is_asleep(address, row) && row.heard < heard
}

/// Whether one of these rows that sleep was heard before this moment.
fn has_asleep_before(rows: &[Row], address: Option<&[u8; 4]>, heard: u64) -> bool
    ensures { result ≡ list_any
        (λ o. is_asleep (option_copied address.entry) o && nat_lt o.heard heard) rows.now }
{
    rows.iter()
        .any(|other| is_asleep_before(address, heard, other))
}

/// Whether of these rows that sleep this one was heard first.
fn is_asleep_longest(rows: &[Row], address: Option<&[u8; 4]>, row: &Row) -> bool
    ensures { result ≡ is_asleep_longest (option_copied address.entry) rows.now row.now }
{
    is_asleep(address, row) && !has_asleep_before(rows, address, row.heard)
}

/// The place of the first of these rows that sleeps longest.
fn longest_asleep(rows: &[Row], address: Option<&[u8; 4]>) -> Option<usize>
    ensures { result ≡ position (is_asleep_longest (option_copied address.entry) rows.now) rows.now }
{
    rows.iter()
        .position(|row| is_asleep_longest(rows, address, row))
}

/// How many rows are of an address.
fn count_from(rows: &[Row], address: &[u8; 4]) -> usize
    ensures { result ≡ count_by (is_from address.now) rows.now }
{
    rows.iter().filter(|row| row.is_from(address)).count()
}

/// Whether there is room for a newcomer.
#[derive(Clone, Copy)]
pub enum Room {
    /// There is.
    Enough,
    /// The row at this place makes it.
    Made(usize),
    /// There is none.
    Missing,
}

/// Room by the row that sleeps longest of these, where there is one.
fn made_room(rows: &[Row], address: Option<&[u8; 4]>) -> Room
    ensures { Leaves rows.now result (without_one (option_copied address.entry) rows.now) }
{
    match longest_asleep(rows, address) {
        Some(place) => Room::Made(place),
        None => Room::Missing,
    }
}

/// Whether there is room for a newcomer at an address.
pub fn room_for(rows: &[Row], limits: &Limits, address: &[u8; 4]) -> Room
    ensures { Leaves rows.now result (with_room limits.now address.now rows.now) }
{
    if count_from(rows, address) >= limits.of_one_address {
        made_room(rows, Some(address))
    } else if rows.len() >= limits.of_all {
        made_room(rows, None)
    } else {
        Room::Enough
    }
}

/// A newcomer gets a row behind the others, in this room.
pub fn enter(rows: &mut Vec<Row>, room: &Room, newcomer: Row) -> Result<(), Code>
    ensures ok { OnOk result ((o : Option (List Row)) → Leaves rows.old.items room.now o
        → rows.new.items ≡ placed rows.old.items o newcomer) }
    ensures err { OnErr result (rows.new.items ≡ rows.old.items) }
    ensures memory { IfErr result (λ e. e ≡ Code.Memory) }
{
    match room {
        Room::Missing => (),
        Room::Enough => rows.push(newcomer)?,
        Room::Made(place) => {
            rows.push(newcomer)?;
            if *place < rows.len() {
                let _ = rows.remove(*place);
            }
        }
    }
    Ok(())
}
