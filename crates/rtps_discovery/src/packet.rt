//! Messages of SPDP, and where they go.
//!
//! `specs/Packets.antt` says it.
//!
//! RTPS 2.5, 8.5.3 (SPDP), 9.4.4 (the header) and 9.4.5 (Data, InfoDestination).

ghost use Rattle.std.specs.Prelude.{◌≡◌, ◌+◌, ◌≤◌, ◌<◌, ◌^◌, ◌%◌, ◌++◌, [], length, IfOk, IfErr, OnOk};
ghost use Rattle.std.specs.Int.{w16, w32};
ghost use Rattle.std.specs.Option.{option_copied};
ghost use Rattle.dds_base.specs.declared.endianness.Endianness.TheVariants.{Little};
ghost use Rattle.dds_base.specs.Fields.{number};
ghost use Rattle.rtps_wire.specs.Data.{data_head};
ghost use Rattle.rtps_wire.specs.Fields.{sn_text};
ghost use Rattle.rtps_wire.specs.Frames.{frame_text};
ghost use Rattle.rtps_wire.specs.Parameters.{parameter_text};
ghost use Rattle.rtps_announcements.specs.Values.{guid_text, participant_guid};
ghost use Rattle.rtps_announcements.specs.WrittenParticipants.{text_of_guid};
ghost use Rattle.rtps_discovery.specs.Packets.{data_text, destination_text, message_to, farewell_content, farewell_data};
ghost use Rattle.rtps_discovery.specs.Spdp.{spdp_writer};

use crate::spdp::{FLAG_ENDIANNESS, FLAG_INLINE_QOS, ID_DATA, PID_STATUS_INFO, SPDP_WRITER};
use dds_base::{Code, EntityId, Guid, GuidPrefix, Octets};
use rtps_announcements::{Locator, write_guid};
use std::alloc::Global;

/// INFO_DST.
const ID_INFO_DST: u8 = 0x0e;

/// D: the payload is a value.
pub const FLAG_DATA: u8 = 0x04;

/// K: the payload is a key.
const FLAG_KEY: u8 = 0x08;

/// PID_KEY_HASH.
const PID_KEY_HASH: u16 = 0x0070;

/// PID_SENTINEL.
const PID_SENTINEL: u16 = 0x0001;

/// The head of a DATA: extraFlags, octetsToInlineQos, readerId, writerId and writerSN.
const LEN_DATA_HEAD: usize = 20;

/// What follows the head of a DATA has at most so many octets here.
pub const MAX_CONTENT: usize = 65_000;

/// A datagram, and where it goes by UDP over IPv4.
#[derive(Drop)]
pub struct Packet {
    /// The address and the port.
    pub to: Locator,
    /// Its octets.
    pub bytes: Octets,
}

/// Appends a number of two octets.
fn put_u16(out: &mut Vec<u8>, value: u16) -> Result<(), Code>
    ensures ok { OnOk result (out.new.items ≡ out.old.items ++ number Little w16 value) }
    ensures memory { IfErr result (λ e. e ≡ Code.Memory) }
{
    out.extend_from_slice(&value.to_le_bytes())?;
    Ok(())
}

/// Appends a number of four octets.
fn put_u32(out: &mut Vec<u8>, value: u32) -> Result<(), Code>
    ensures ok { OnOk result (out.new.items ≡ out.old.items ++ number Little w32 value) }
    ensures memory { IfErr result (λ e. e ≡ Code.Memory) }
{
    out.extend_from_slice(&value.to_le_bytes())?;
    Ok(())
}

/// Appends the header of a submessage, little-endian.
fn put_submessage_header(out: &mut Vec<u8>, id: u8, flags: u8, len: u16) -> Result<(), Code>
    requires little { flags % 2 ≡ 1 }
    ensures ok { OnOk result (out.new.items ≡ out.old.items ++ frame_text id flags len []) }
    ensures memory { IfErr result (λ e. e ≡ Code.Memory) }
{
    out.extend_from_slice(&[id, flags])?;
    out.extend_from_slice(&len.to_le_bytes())?;
    Ok(())
}

/// Appends a small sequence number: its high half, then its low half.
fn put_sn(out: &mut Vec<u8>, sn: u8) -> Result<(), Code>
    ensures ok { OnOk result (out.new.items ≡ out.old.items ++ sn_text Little sn) }
    ensures memory { IfErr result (λ e. e ≡ Code.Memory) }
{
    put_u32(out, 0)?;
    put_u32(out, u32::from(sn))
}

/// Appends the head of a DATA of the SPDP writer.
fn put_data_head(out: &mut Vec<u8>, reader: &EntityId, sn: u8) -> Result<(), Code>
    ensures ok { OnOk result (out.new.items
        ≡ out.old.items ++ data_head Little 0 16 reader.now spdp_writer sn) }
    ensures memory { IfErr result (λ e. e ≡ Code.Memory) }
{
    put_u16(out, 0)?;
    put_u16(out, 16)?;
    out.extend_from_slice(reader.as_slice())?;
    out.extend_from_slice(SPDP_WRITER.as_slice())?;
    put_sn(out, sn)
}

/// A DATA of the SPDP writer, with what follows its head.
pub fn data_of(
    alloc: Global,
    flags: u8,
    reader: &EntityId,
    sn: u8,
    content: &[u8],
) -> Result<Vec<u8>, Code>
    requires little { flags % 2 ≡ 1 }
    requires short { length content.now ≤ MAX_CONTENT }
    ensures ok { IfOk result (λ out. out.items ≡ data_text flags reader.now sn content.now) }
    ensures memory { IfErr result (λ e. e ≡ Code.Memory) }
{
    // This shows the prover how many octets an entity id has.
    let _octets = reader.as_slice();
    let len = LEN_DATA_HEAD + content.len();
    let mut out = Vec::new(alloc);
    put_submessage_header(&mut out, ID_DATA, flags, len as u16)?;
    put_data_head(&mut out, reader, sn)?;
    out.extend_from_slice(content)?;
    Ok(out)
}

/// Appends for whom a message is.
fn put_destination(out: &mut Vec<u8>, to: Option<&GuidPrefix>) -> Result<(), Code>
    ensures ok { OnOk result (out.new.items
        ≡ out.old.items ++ destination_text (option_copied to.entry)) }
    ensures memory { IfErr result (λ e. e ≡ Code.Memory) }
{
    let Some(prefix) = to else {
        return Ok(());
    };
    put_submessage_header(out, ID_INFO_DST, FLAG_ENDIANNESS, 12)?;
    out.extend_from_slice(prefix.as_slice())?;
    Ok(())
}

/// A message to everybody, or to one participant, with this submessage.
pub fn message_to(
    alloc: Global,
    own: &GuidPrefix,
    to: Option<&GuidPrefix>,
    submessage: &[u8],
) -> Result<Octets, Code>
    ensures ok { IfOk result
        (λ out. out ≡ message_to own.now (option_copied to.entry) submessage.now) }
    ensures memory { IfErr result (λ e. e ≡ Code.Memory) }
{
    let mut out = Vec::new(alloc);
    out.extend_from_slice(&[b'R', b'T', b'P', b'S', 2, 5, 0, 0])?;
    out.extend_from_slice(own.as_slice())?;
    put_destination(&mut out, to)?;
    out.extend_from_slice(submessage)?;
    Ok(Octets::from_vec(out))
}

/// Appends a parameter.
fn put_parameter(out: &mut Vec<u8>, id: u16, value: &[u8]) -> Result<(), Code>
    requires short { length value.now < 2 ^ 16 }
    ensures ok { OnOk result (out.new.items ≡ out.old.items
        ++ parameter_text Little (record { id = id; value = value.now })) }
    ensures memory { IfErr result (λ e. e ≡ Code.Memory) }
{
    put_u16(out, id)?;
    put_u16(out, value.len() as u16)?;
    out.extend_from_slice(value)?;
    Ok(())
}

/// The octets of the GUID of a participant.
fn participant_octets(alloc: Global, own: &GuidPrefix) -> Result<Vec<u8>, Code>
    ensures ok { IfOk result (λ out. out.items ≡ guid_text (participant_guid own.now)) }
    ensures len { IfOk result (λ out. length out.items ≡ 16) }
    ensures memory { IfErr result (λ e. e ≡ Code.Memory) }
{
    let mut out = Vec::new(alloc);
    out.extend_from_slice(own.as_slice())?;
    out.extend_from_slice(&[0, 0, 1, 0xc1])?;
    Ok(out)
}

/// What names a participant as it leaves: its GUID alone.
fn farewell_payload(alloc: Global, own: &GuidPrefix) -> Result<Vec<u8>, Code>
    ensures ok { IfOk result (λ out. out.items ≡ text_of_guid (participant_guid own.now)) }
    ensures memory { IfErr result (λ e. e ≡ Code.Memory) }
{
    let guid = Guid {
        prefix: *own,
        entity: EntityId([0, 0, 1, 0xc1]),
    };
    write_guid(alloc, &guid)
}

/// What a participant says as it leaves, behind the head of a DATA.
fn farewell_content(alloc: Global, own: &GuidPrefix) -> Result<Vec<u8>, Code>
    ensures ok { IfOk result (λ out. out.items ≡ farewell_content own.now) }
    ensures memory { IfErr result (λ e. e ≡ Code.Memory) }
{
    let guid = participant_octets(alloc, own)?;
    let payload = farewell_payload(alloc, own)?;
    let mut out = Vec::new(alloc);
    put_parameter(&mut out, PID_KEY_HASH, &guid)?;
    put_parameter(&mut out, PID_STATUS_INFO, &[0, 0, 0, 3])?;
    put_parameter(&mut out, PID_SENTINEL, &[])?;
    out.extend_from_slice(&payload)?;
    Ok(out)
}

/// The DATA by which a participant says that it leaves.
pub fn farewell_data(alloc: Global, own: &GuidPrefix) -> Result<Vec<u8>, Code>
    ensures ok { IfOk result (λ out. out.items ≡ farewell_data own.now) }
    ensures memory { IfErr result (λ e. e ≡ Code.Memory) }
{
    // This shows the prover how many octets a prefix has.
    let _octets = own.as_slice();
    let content = farewell_content(alloc, own)?;
    data_of(
        alloc,
        FLAG_ENDIANNESS + FLAG_INLINE_QOS + FLAG_KEY,
        &EntityId::UNKNOWN,
        2,
        &content,
    )
}
