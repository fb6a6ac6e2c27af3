//! Bytes to messages.
//!
//! RTPS 2.5, 8.3.4 (the message receiver) and 9.4.

ghost use Rattle.std.specs.Prelude.{◌≡◌, ◌+◌, ◌≤◌, ◌<◌, ℕ, List, length, IfOk, IfErr, IfSome, IfNone, Option, Some, [], unwrap_or};
ghost use Rattle.std.specs.Option.{option_map};
ghost use Rattle.rtps_wire.specs.declared.submessage.Submessage.TheVariants.{InfoDst, InfoTs, Data, Heartbeat, AckNack, Gap, Other};
ghost use Rattle.dds_base.specs.declared.guid.GuidPrefix.{GuidPrefix as GuidPrefixOf};
ghost use Rattle.rtps_wire.specs.Frames.{IsEnd, IsFrame};
ghost use Rattle.rtps_wire.specs.DataAt.{data_at};
ghost use Rattle.rtps_wire.specs.SubmessageAt.{heartbeat_at, acknack_at, gap_at, known_at};
ghost use Rattle.rtps_wire.specs.Submessages.{Reads};
ghost use Rattle.rtps_wire.specs.Messages.{ReadsFirst, ReadsAll, ReadsMessage, HasFrame, HasHeader, HasSubmessage};
ghost use Rattle.rtps_wire.specs.declared.message.Message.{Message};

use crate::acknack::acknack_of;
use crate::data::data_of;
use crate::frame::{Frame, take_frame};
use crate::gap::gap_of;
use crate::header::{MAX_MESSAGE, take_header};
use crate::heartbeat::heartbeat_of;
use crate::info_dst::info_dst_of;
use crate::info_ts::info_ts_of;
use crate::message::{Message, Read};
use crate::names::{ID_ACKNACK, ID_DATA, ID_GAP, ID_HEARTBEAT, ID_INFO_DST, ID_INFO_TS, ID_PAD};
use crate::submessage::{Submessage, Submessages};
use dds_base::{Code, GuidPrefix};
use std::alloc::Global;

/// Puts the DATA of a body in a place, where it is valid.
// As a call of its own, as for the kinds below, it zeroes the temporaries of its kind alone.
#[inline(never)]
fn place_data<'a>(place: &mut Submessage<'a>, flags: u8, body: &'a [u8])
    ensures { place.new ≡ unwrap_or (option_map Data (data_at flags body.now)) place.old }
{
    if let Some(data) = data_of(flags, body) {
        *place = Submessage::Data(data);
    }
}

/// Puts the HEARTBEAT of a body in a place, where it is valid.
#[inline(never)]
fn place_heartbeat(place: &mut Submessage, flags: u8, body: &[u8])
    ensures { place.new ≡ unwrap_or (option_map Heartbeat (heartbeat_at flags body.now)) place.old }
{
    if let Some(heartbeat) = heartbeat_of(flags, body) {
        *place = Submessage::Heartbeat(heartbeat);
    }
}

/// Puts the ACKNACK of a body in a place, where it is valid.
#[inline(never)]
fn place_acknack(place: &mut Submessage, flags: u8, body: &[u8])
    ensures { place.new ≡ unwrap_or (option_map AckNack (acknack_at flags body.now)) place.old }
{
    if let Some(acknack) = acknack_of(flags, body) {
        *place = Submessage::AckNack(acknack);
    }
}

/// Puts the GAP of a body in a place, where it is valid.
#[inline(never)]
fn place_gap(place: &mut Submessage, flags: u8, body: &[u8])
    ensures { place.new ≡ unwrap_or (option_map Gap (gap_at flags body.now)) place.old }
{
    if let Some(gap) = gap_of(flags, body) {
        *place = Submessage::Gap(gap);
    }
}

/// Puts the submessage of an id, flags and a body in a place: one of a known kind where it is valid, else
/// `Submessage::Other`.
// As a call of its own it stores the fields of that kind alone; within a caller LLVM gathers those of all kinds first.
#[inline(never)]
#[tactic(auto, unfolding(crate::specs::SubmessageAt::known_at))]
fn place_known_or_other<'a>(place: &mut Submessage<'a>, id: u8, flags: u8, body: &'a [u8])
    ensures { place.new ≡ unwrap_or (known_at id flags body.now) (Other id) }
{
    *place = Submessage::Other(id);
    if id == ID_PAD {
        *place = Submessage::Pad;
    } else if id == ID_INFO_DST {
        if let Some(prefix) = info_dst_of(body) {
            *place = Submessage::InfoDst(prefix);
        }
    } else if id == ID_INFO_TS {
        if let Some(stamp) = info_ts_of(flags, body) {
            *place = Submessage::InfoTs(stamp);
        }
    } else if id == ID_DATA {
        place_data(place, flags, body);
    } else if id == ID_HEARTBEAT {
        place_heartbeat(place, flags, body);
    } else if id == ID_ACKNACK {
        place_acknack(place, flags, body);
    } else if id == ID_GAP {
        place_gap(place, flags, body);
    }
}

/// Puts the submessage of an id, flags and a body in a place.
pub fn read_into<'a>(place: &mut Submessage<'a>, id: u8, flags: u8, body: &'a [u8])
    ensures { Reads id flags body.now place.new }
{
    place_known_or_other(place, id, flags, body);
}

/// The submessage of an id, flags and a body.
fn submessage_of(id: u8, flags: u8, body: &[u8]) -> Submessage<'_>
    ensures { Reads id flags body.now result }
{
    let mut submessage = Submessage::Pad;
    read_into(&mut submessage, id, flags, body);
    submessage
}

/// The prefix of the INFO_DST of an id and a body, which no flag changes. `None` of any other submessage.
fn prefix_in(id: u8, body: &[u8]) -> Option<GuidPrefix>
    ensures found { IfSome result
        (λ prefix. (flags : ℕ) → Reads id flags body.now (InfoDst prefix)) }
    ensures none { IfNone result ((flags : ℕ) (prefix : GuidPrefixOf)
        → Reads id flags body.now (InfoDst prefix) → ⊥) }
{
    if id != ID_INFO_DST {
        return None;
    }
    info_dst_of(body)
}

/// The moment of the INFO_TS of an id, flags and a body, or that it has none. `None` of any other submessage.
fn stamp_in(id: u8, flags: u8, body: &[u8]) -> Option<Option<u64>>
    ensures found { IfSome result (λ moment. Reads id flags body.now (InfoTs moment)) }
    ensures none { IfNone result ((moment : Option ℕ)
        → Reads id flags body.now (InfoTs moment) → ⊥) }
{
    if id != ID_INFO_TS {
        return None;
    }
    info_ts_of(flags, body)
}

impl<'a> Frame<'a> {
    /// The submessage: one that is not known or not valid is `Submessage::Other` with its id.
    ///
    /// RTPS 2.5, 9.4.5.
    pub fn submessage(&self) -> Submessage<'a>
        // It is the one that the id, the flags and the body are.
        ensures read { Reads self.now.id self.now.flags self.now.body.now result }
    {
        submessage_of(self.id, self.flags, self.body)
    }

    /// The prefix of a valid INFO_DST. `None` of any other submessage.
    ///
    /// RTPS 2.5, 8.3.8 (InfoDestination).
    pub fn info_dst(&self) -> Option<GuidPrefix>
        // The submessage is that INFO_DST.
        ensures found { IfSome result
            (λ prefix. Reads self.now.id self.now.flags self.now.body.now (InfoDst prefix)) }
        // Else it is none.
        ensures none { IfNone result ((prefix : GuidPrefixOf)
            → Reads self.now.id self.now.flags self.now.body.now (InfoDst prefix) → ⊥) }
    {
        prefix_in(self.id, self.body)
    }

    /// The moment of a valid INFO_TS, in units of 2^-32 second, or that it has none. `None` of any other submessage.
    ///
    /// RTPS 2.5, 8.3.8 (InfoTimestamp).
    pub fn info_ts(&self) -> Option<Option<u64>>
        // The submessage is that INFO_TS.
        ensures found { IfSome result
            (λ moment. Reads self.now.id self.now.flags self.now.body.now (InfoTs moment)) }
        // Else it is none.
        ensures none { IfNone result ((moment : Option ℕ)
            → Reads self.now.id self.now.flags self.now.body.now (InfoTs moment) → ⊥) }
    {
        stamp_in(self.id, self.flags, self.body)
    }
}

/// The sender of a message, and the bytes of its submessages: `next_submessage` reads those. `None` where the bytes are
/// no message: without the header of this protocol, or longer than `MAX_MESSAGE`.
///
/// RTPS 2.5, 8.3.4 and 9.4.4.
pub fn begin_message(bytes: &[u8]) -> Option<(GuidPrefix, &[u8])>
    // The sender is that of the header, and all that follows the header is there.
    ensures found { IfSome result (λ x. HasHeader bytes.now x.0 x.1.now) }
    // Bytes that begin a message are refused to none.
    ensures none { IfNone result
        ((source : GuidPrefixOf) (body : List ℕ) → HasHeader bytes.now source body → ⊥) }
{
    if MAX_MESSAGE < bytes.len() {
        return None;
    }
    take_header(bytes)
}

/// The submessage at the front, its body not read yet, and what follows it. `None` where reading ends. No memory is
/// needed, and the bytes lend the body.
///
/// RTPS 2.5, 8.3.4 and 9.4.5.1.
pub fn next_frame(bytes: &[u8]) -> Option<(Frame<'_>, &[u8])>
    // The bytes begin with a submessage of this id, flags and body, and all that follows it is there.
    ensures found { IfSome result
        (λ x. IsFrame bytes.now x.0.id x.0.flags x.0.body.now x.1.now) }
    // Fewer bytes follow it.
    ensures fewer { IfSome result (λ x. length x.1.now < length bytes.now) }
    // Reading ends nowhere else.
    ensures end { IfNone result (IsEnd bytes.now) }
{
    let (frame, rest) = take_frame(bytes)?;
    Some((frame, rest))
}

/// The submessage at the front, and what follows it: one that is not known or not valid is `Submessage::Other` with its
/// id. `None` where reading ends. No memory is needed, and the bytes lend the value of a datum.
///
/// RTPS 2.5, 8.3.4 and 9.4.5.
pub fn next_submessage(bytes: &[u8]) -> Option<(Submessage<'_>, &[u8])>
    // The bytes begin with the submessage, and all that follows it is there.
    ensures found { IfSome result (λ x. ReadsFirst bytes.now x.0 x.1.now) }
    // Fewer bytes follow it.
    ensures fewer { IfSome result (λ x. length x.1.now < length bytes.now) }
    // Reading ends nowhere else.
    ensures end { IfNone result (IsEnd bytes.now) }
{
    let (frame, rest) = next_frame(bytes)?;
    Some((submessage_of(frame.id, frame.flags, frame.body), rest))
}

/// Adds the submessages up to where reading ends. Returns what stands there.
#[inline(always)]
fn read_submessages<'a>(
    submessages: &mut Submessages<'a>,
    bytes: &'a [u8],
) -> Result<&'a [u8], Code>
    requires none { submessages.old ≡ [] }
    ensures ok { IfOk result (λ left. ReadsAll bytes.now submessages.new left.now) }
    ensures few { IfOk result
        (λ left. length submessages.new + length left.now ≤ length bytes.now) }
    ensures memory { IfErr result (λ e. (e ≡ Code.Memory) × HasFrame bytes.now) }
{
    let mut left = bytes;
    while let Some((frame, rest)) = next_frame(left) {
        submessages.push_frame(frame)?;
        left = rest;
    }
    Ok(left)
}

/// The message that the bytes are. `None` where they are none: without the header of this protocol, or longer than
/// `MAX_MESSAGE`.
///
/// Each submessage stands in its order, one that is not known or not valid as `Submessage::Other` with its id. The
/// bytes are gone over once, and they lend the values of data: none is copied.
///
/// # Errors
///
/// `Memory` where no memory was found for the list of submessages; bytes that have none need no memory.
///
/// RTPS 2.5, 8.3.4 and 9.4.
#[inline(always)]
pub fn read_message(alloc: Global, bytes: &[u8]) -> Result<Option<Read<'_>>, Code>
    // What is read is the message of these bytes, and reading ends there.
    ensures found { IfOk result
        (λ read. IfSome read (λ r. ReadsMessage bytes.now r.message r.stop)) }
    // The message of these bytes is read, and no other.
    ensures only { (m : Message) (stop : ℕ) → ReadsMessage bytes.now m stop
        → IfOk result (λ read. read ≡ Some (record { message = m; stop = stop })) }
    // It has fewer submessages than bytes.
    ensures few { IfOk result
        (λ read. IfSome read (λ r. length r.message.submessages ≤ MAX_MESSAGE)) }
    // Want of memory is answered only where there is a submessage to read.
    ensures memory { IfErr result (λ e. (e ≡ Code.Memory) × HasSubmessage bytes.now) }
{
    let Some((prefix, body)) = begin_message(bytes) else {
        return Ok(None);
    };
    let mut submessages = Submessages::new(alloc);
    let left = read_submessages(&mut submessages, body)?;
    let stop = bytes.len() - left.len();
    Ok(Some(Read {
        message: Message {
            prefix,
            submessages,
        },
        stop,
    }))
}
