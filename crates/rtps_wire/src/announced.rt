//! The message that announces a write, read at once.
//!
//! RTPS 2.5, 8.3.7 (INFO_DST, INFO_TS, DATA) and 9.4.

ghost use Rattle.std.specs.Prelude.{◌≡◌, ◌+◌, [], ◌∷◌, ◌++◌, length, Some, IfSome};
ghost use Rattle.rtps_wire.specs.declared.submessage.Submessage.TheVariants as submessage;
ghost use Rattle.rtps_wire.specs.Data.{IsData, ReadsData};
ghost use Rattle.rtps_wire.specs.Messages.{HasHeader, ReadsFirst, ReadsMessage};
ghost use Rattle.rtps_wire.specs.Names.{flag_data, flag_endianness};
ghost use Rattle.dds_base.specs.DatumText.{ReadsDatum};

use crate::data::{ChangeBody, Data, DataContent};
use crate::field::{take_ids, take_prefix, take_sn};
use crate::header::MAX_MESSAGE;
use crate::names::{
    CDR_LE, EXTRA_FLAGS, FLAG_DATA, FLAG_ENDIANNESS, HALF_RANGE, ID_DATA, ID_INFO_DST, ID_INFO_TS,
    LEAST_OCTETS_TO_INLINE_QOS, LEN_DATA_HEAD, LEN_DATUM_HEAD, LEN_HEADER, LEN_MOMENT, LEN_PREFIX,
    LEN_SUBMESSAGE_HEADER, MAJOR_VERSION, MINOR_VERSION, NO_OPTIONS, VENDOR_UNKNOWN,
};
use dds_base::{DatumRef, Endianness, GuidPrefix, MAX_VALUE, Sn, take_key, take_octets, take_u32};

/// What stands before the value.
const LEN_BEFORE_VALUE: usize = LEN_HEADER
    + LEN_SUBMESSAGE_HEADER
    + LEN_PREFIX
    + LEN_SUBMESSAGE_HEADER
    + LEN_MOMENT
    + LEN_SUBMESSAGE_HEADER
    + LEN_DATA_HEAD
    + LEN_DATUM_HEAD;

/// A message of an INFO_DST, an INFO_TS and the DATA of a write, with which it ends.
#[derive(Drop)]
pub struct Announcement<'a> {
    /// The peer that speaks.
    pub source: GuidPrefix,
    /// The peer that it speaks to; the zero prefix names every peer.
    pub destination: GuidPrefix,
    /// The source timestamp of the change, in units of 2^-32 second.
    pub moment: u64,
    /// The change.
    pub change: Data<'a>,
}

/// What follows these octets, where the bytes begin with them. They are compared as one number.
#[inline(always)]
fn after_word(bytes: &[u8], octets: [u8; 4]) -> Option<&[u8]>
    ensures { IfSome result (λ rest. bytes.now ≡ octets ++ rest.now) }
{
    let (word, rest) = take_u32(Endianness::Little, bytes)?;
    if word != u32::from_le_bytes(octets) {
        return None;
    }
    Some(rest)
}

/// The sender of a message, by the header that is written, and what follows that.
#[inline(always)]
fn take_source(bytes: &[u8]) -> Option<(GuidPrefix, &[u8])>
    ensures { IfSome result (λ x. HasHeader bytes.now x.0 x.1.now) }
{
    // What is too short fails here, so that no field in front of the value is asked again whether it is there.
    if bytes.len() < LEN_BEFORE_VALUE || MAX_MESSAGE < bytes.len() {
        return None;
    }
    let [vendor, product] = VENDOR_UNKNOWN;
    let rest = after_word(bytes, [b'R', b'T', b'P', b'S'])?;
    let rest = after_word(rest, [MAJOR_VERSION, MINOR_VERSION, vendor, product])?;
    take_prefix(rest)
}

/// The prefix of an INFO_DST, and what follows it.
#[inline(always)]
fn take_destination(bytes: &[u8]) -> Option<(GuidPrefix, &[u8])>
    ensures { IfSome result (λ x. ReadsFirst bytes.now (submessage.InfoDst x.0) x.1.now) }
{
    let body = after_word(bytes, [ID_INFO_DST, FLAG_ENDIANNESS, LEN_PREFIX as u8, 0])?;
    take_prefix(body)
}

/// The moment of an INFO_TS, and what follows it.
#[inline(always)]
fn take_moment(bytes: &[u8]) -> Option<(u64, &[u8])>
    ensures { IfSome result
        (λ x. ReadsFirst bytes.now (submessage.InfoTs (Some x.0)) x.1.now) }
{
    let body = after_word(bytes, [ID_INFO_TS, FLAG_ENDIANNESS, LEN_MOMENT as u8, 0])?;
    let (seconds, rest) = take_u32(Endianness::Little, body)?;
    let (fraction, rest) = take_u32(Endianness::Little, rest)?;
    let moment = u64::from(seconds) * HALF_RANGE + u64::from(fraction);
    Some((moment, rest))
}

/// The datum that a payload begins with, as it is written.
#[inline(always)]
fn written_datum(payload: &[u8]) -> Option<DatumRef<'_>>
    ensures { IfSome result (λ d. ReadsDatum payload.now d) }
{
    let ([form, order], [first, second]) = (CDR_LE, NO_OPTIONS);
    let rest = after_word(payload, [form, order, first, second])?;
    let (key, rest) = take_key(rest)?;
    let (count, rest) = take_u32(Endianness::Little, rest)?;
    let count = count as usize;
    if MAX_VALUE < count {
        return None;
    }
    let (value, _) = take_octets(rest, count)?;
    Some(DatumRef::new(key, value))
}

/// The DATA of a write that a body is, as it is written.
#[inline(always)]
fn written_data(body: &[u8]) -> Option<Data<'_>>
    ensures reads { IfSome result (λ d. ReadsData (flag_endianness + flag_data) body.now d) }
    ensures valid { IfSome result IsData }
{
    let way = LEAST_OCTETS_TO_INLINE_QOS as u8;
    let rest = after_word(body, [EXTRA_FLAGS as u8, 0, way, 0])?;
    let (ids, rest) = take_ids(rest)?;
    let (number, payload) = take_sn(Endianness::Little, rest)?;
    let datum = written_datum(payload)?;
    if number < 1 {
        return None;
    }
    Some(Data {
        reader_id: ids.reader,
        writer_id: ids.writer,
        writer_sn: Sn::new(number),
        content: DataContent {
            body: ChangeBody::Write(datum),
            strength: None,
        },
    })
}

/// The DATA of a write, with which the bytes end.
#[inline(always)]
fn last_data(bytes: &[u8]) -> Option<Data<'_>>
    ensures { IfSome result (λ d. ReadsFirst bytes.now (submessage.Data d) []) }
{
    let (head, body) = take_u32(Endianness::Little, bytes)?;
    let Ok(len) = u16::try_from(body.len()) else {
        return None;
    };
    let [low, high] = len.to_le_bytes();
    if head != u32::from_le_bytes([ID_DATA, FLAG_ENDIANNESS + FLAG_DATA, low, high]) {
        return None;
    }
    written_data(body)
}

/// The message that announces a write, in the form that `write_change` writes: an INFO_DST, an INFO_TS and a DATA
/// without parameters, with which the message ends. `None` of any other form, a message or not: `begin_message` and
/// `next_frame` read it. No memory is needed, and the bytes lend the value.
///
/// RTPS 2.5, 8.3.7 and 9.4.
#[inline(always)]
pub fn read_announcement(bytes: &[u8]) -> Option<Announcement<'_>>
    // The bytes are the message of these three submessages, and nothing follows them.
    ensures found { IfSome result (λ it. ReadsMessage bytes.now (record {
      prefix = it.source;
      submessages = submessage.InfoDst it.destination ∷ submessage.InfoTs (Some it.moment)
          ∷ submessage.Data it.change ∷ [];
    }) (length bytes.now)) }
{
    let (source, rest) = take_source(bytes)?;
    let (destination, rest) = take_destination(rest)?;
    let (moment, rest) = take_moment(rest)?;
    let change = last_data(rest)?;
    Some(Announcement {
        source,
        destination,
        moment,
        change,
    })
}
