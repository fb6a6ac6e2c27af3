//! The message that tells of a payload that became whole.
//!
//! RTPS 2.5, 9.4.4 (header) and 9.4.5 (submessages).

ghost use Rattle.std.specs.Prelude.{◌≡◌, ◌+◌, ◌≤◌, ◌<◌, ◌^◌, ◌++◌, [], length, IfOk, IfErr, OnOk};
ghost use Rattle.dds_base.specs.declared.endianness.Endianness.TheVariants.{Little};
ghost use Rattle.dds_base.specs.Fields.{number};
ghost use Rattle.std.specs.Int.{w16, w32};
ghost use Rattle.rtps_wire.specs.Fields.{sn_text};
ghost use Rattle.rtps_wire.specs.Frames.{frame_text};
ghost use Rattle.rtps_wire.specs.Data.{data_head};
ghost use Rattle.rtps_wire.specs.Messages.{header_text};
ghost use Rattle.rtps_wire.specs.Names.{minor_version, vendor_unknown};
ghost use Rattle.rtps_fragments.specs.Telling.{at_first, in_force_after, info_ts_text, front_text, message_with};

use crate::data_frag::DataFrag;
use crate::field::{HALF_RANGE, order_of};
use crate::names::{
    FLAG_ENDIANNESS, FLAG_INVALIDATE, ID_DATA, ID_INFO_DST, ID_INFO_TS, MAX_CARRIED,
};
use dds_base::{Code, Endianness, EntityId, GuidPrefix, Octets};
use rtps_wire::Submessage;
use std::alloc::Global;

/// The head of a DATA: extraFlags, octetsToInlineQos, readerId, writerId and writerSN.
const LEN_DATA_HEAD: usize = 20;

/// What stands in front of it: the header of the message, an INFO_DST, an INFO_TS, and the header of the DATA.
const LEN_FRONT: usize = 20 + 16 + 12 + 4;

/// What holds of a submessage: the sender of its message, and the INFO_DST and the INFO_TS before it.
///
/// RTPS 2.5, 8.3.4 (the message receiver).
#[derive(Clone, Copy)]
pub struct InForce {
    /// The sender.
    pub source: GuidPrefix,
    /// Whom it is for; the zero prefix names every peer.
    pub destination: GuidPrefix,
    /// The source timestamp in units of 2^-32 second, where there is one.
    pub timestamp: Option<u64>,
}

impl InForce {
    /// What holds at the beginning of a message of this sender.
    pub fn new(source: GuidPrefix) -> InForce
        ensures { result ≡ at_first source }
    {
        InForce {
            source,
            destination: GuidPrefix::UNKNOWN,
            timestamp: None,
        }
    }

    /// What holds after a submessage.
    pub fn after(&self, submessage: &Submessage) -> InForce
        ensures { result ≡ in_force_after self.now submessage.now }
    {
        let mut next = *self;
        match submessage {
            Submessage::InfoDst(prefix) => next.destination = *prefix,
            Submessage::InfoTs(timestamp) => next.timestamp = *timestamp,
            _ => (),
        }
        next
    }
}

/// Appends a number of two octets.
fn put_u16(out: &mut Vec<u8>, order: Endianness, value: u16) -> Result<(), Code>
    ensures ok { OnOk result (out.new.items ≡ out.old.items ++ number order w16 value) }
    ensures memory { IfErr result (λ e. e ≡ Code.Memory) }
{
    let octets = match order {
        Endianness::Big => value.to_be_bytes(),
        Endianness::Little => value.to_le_bytes(),
    };
    out.extend_from_slice(&octets)?;
    Ok(())
}

/// Appends a number of four octets.
pub fn put_u32(out: &mut Vec<u8>, order: Endianness, value: u32) -> Result<(), Code>
    ensures ok { OnOk result (out.new.items ≡ out.old.items ++ number order w32 value) }
    ensures memory { IfErr result (λ e. e ≡ Code.Memory) }
{
    let octets = match order {
        Endianness::Big => value.to_be_bytes(),
        Endianness::Little => value.to_le_bytes(),
    };
    out.extend_from_slice(&octets)?;
    Ok(())
}

/// Appends a sequence number, or a moment: its high half, then its low half.
pub fn put_u64(out: &mut Vec<u8>, order: Endianness, value: u64) -> Result<(), Code>
    ensures ok { OnOk result (out.new.items ≡ out.old.items ++ sn_text order value) }
    ensures memory { IfErr result (λ e. e ≡ Code.Memory) }
{
    put_u32(out, order, (value / HALF_RANGE) as u32)?;
    put_u32(out, order, (value % HALF_RANGE) as u32)
}

/// Appends the header of a submessage.
pub fn put_submessage_header(out: &mut Vec<u8>, id: u8, flags: u8, len: u16) -> Result<(), Code>
    ensures ok { OnOk result (out.new.items ≡ out.old.items ++ frame_text id flags len []) }
    ensures memory { IfErr result (λ e. e ≡ Code.Memory) }
{
    out.extend_from_slice(&[id, flags])?;
    put_u16(out, order_of(flags), len)
}

/// Appends the head of a DATA whose parameters, or payload, follow at once.
pub fn put_data_head(
    out: &mut Vec<u8>,
    order: Endianness,
    reader: &EntityId,
    writer: &EntityId,
    writer_sn: u64,
) -> Result<(), Code>
    ensures ok { OnOk result (out.new.items
        ≡ out.old.items ++ data_head order 0 16 reader.now writer.now writer_sn) }
    ensures memory { IfErr result (λ e. e ≡ Code.Memory) }
{
    put_u16(out, order, 0)?;
    put_u16(out, order, 16)?;
    out.extend_from_slice(reader.as_slice())?;
    out.extend_from_slice(writer.as_slice())?;
    put_u64(out, order, writer_sn)
}

/// Appends an INFO_TS.
fn put_info_ts(out: &mut Vec<u8>, timestamp: Option<u64>) -> Result<(), Code>
    ensures ok { OnOk result (out.new.items ≡ out.old.items ++ info_ts_text timestamp) }
    ensures memory { IfErr result (λ e. e ≡ Code.Memory) }
{
    match timestamp {
        Some(moment) => {
            put_submessage_header(out, ID_INFO_TS, FLAG_ENDIANNESS, 8)?;
            put_u64(out, Endianness::Little, moment)
        }
        None => put_submessage_header(out, ID_INFO_TS, FLAG_ENDIANNESS + FLAG_INVALIDATE, 0),
    }
}

/// Appends the header of a message.
pub fn put_header(out: &mut Vec<u8>, source: &GuidPrefix) -> Result<(), Code>
    ensures ok { OnOk result (out.new.items
        ≡ out.old.items ++ header_text minor_version vendor_unknown source.now) }
    ensures memory { IfErr result (λ e. e ≡ Code.Memory) }
{
    out.extend_from_slice(&[b'R', b'T', b'P', b'S', 2, 5, 0, 0])?;
    out.extend_from_slice(source.as_slice())?;
    Ok(())
}

/// Appends the header of a message, an INFO_DST and an INFO_TS.
pub fn put_front(out: &mut Vec<u8>, in_force: &InForce) -> Result<(), Code>
    ensures ok { OnOk result (out.new.items ≡ out.old.items ++ front_text in_force.now) }
    ensures memory { IfErr result (λ e. e ≡ Code.Memory) }
{
    put_header(out, &in_force.source)?;
    put_submessage_header(out, ID_INFO_DST, FLAG_ENDIANNESS, 12)?;
    out.extend_from_slice(in_force.destination.as_slice())?;
    put_info_ts(out, in_force.timestamp)
}

/// A payload in three parts.
#[derive(Clone, Copy)]
pub struct Payload<'a> {
    /// What stands before the fragments that came last.
    pub front: &'a [u8],
    /// Those fragments.
    pub octets: &'a [u8],
    /// What stands behind them.
    pub back: &'a [u8],
}

/// The message with one DATA, of these flags, parameters and payload.
pub fn put_message(
    alloc: Global,
    in_force: &InForce,
    fragment: &DataFrag,
    flags: u8,
    parameters: &[u8],
    payload: &Payload,
) -> Result<Octets, Code>
    requires { length parameters.now
        + (length payload.now.front.now + length payload.now.octets.now + length payload.now.back.now)
        ≤ MAX_CARRIED }
    ensures ok { IfOk result (λ m. m ≡ message_with in_force.now fragment.now flags parameters.now
        (payload.now.front.now ++ payload.now.octets.now ++ payload.now.back.now)) }
    ensures memory { IfErr result (λ e. e ≡ Code.Memory) }
{
    let len = LEN_DATA_HEAD
        + parameters.len()
        + payload.front.len()
        + payload.octets.len()
        + payload.back.len();
    let mut out = Vec::with_capacity(alloc, LEN_FRONT + len)?;
    put_front(&mut out, in_force)?;
    put_submessage_header(&mut out, ID_DATA, flags, len as u16)?;
    put_data_head(
        &mut out,
        order_of(flags),
        &fragment.reader_id,
        &fragment.writer_id,
        fragment.writer_sn,
    )?;
    out.extend_from_slice(parameters)?;
    out.extend_from_slice(payload.front)?;
    out.extend_from_slice(payload.octets)?;
    out.extend_from_slice(payload.back)?;
    Ok(Octets::from_vec(out))
}
