//! The message that announces a change, to bytes, with no list of its submessages.
//!
//! RTPS 2.5, 8.3.7 (INFO_DST, INFO_TS, DATA) and 9.4.

ghost use Rattle.std.specs.Prelude.{◌≡◌, [], ◌∷◌, ◌++◌, ◌≤◌, length, Some, OnOk, IfOk, IfErr};
ghost use Rattle.std.specs.Int.{w32};
ghost use Rattle.dds_base.specs.DatumText.{spelling_of_key};
ghost use Rattle.dds_base.specs.Fields.{number};
ghost use Rattle.dds_base.specs.declared.endianness.Endianness.TheVariants.{Little};
ghost use Rattle.rtps_wire.specs.declared.submessage.Submessage.TheVariants as submessage;
ghost use Rattle.rtps_wire.specs.Data.{IsContent, content_flags, data_head, text_of_content};
ghost use Rattle.rtps_wire.specs.Frames.{frame_text};
ghost use Rattle.rtps_wire.specs.Messages.{IsWritable, header_text, spelling_of};
ghost use Rattle.rtps_wire.specs.Names.{id_data, extra_flags, least_octets_to_inline_qos, minor_version, vendor_unknown};
ghost use Rattle.rtps_wire.specs.Submessages.{spelling_of_submessage};

use crate::data::{ChangeBody, Data, DataContent, content_flags, content_len, put_content};
use crate::field::halves_of;
use crate::names::{
    CDR_LE, EXTRA_FLAGS, FLAG_ENDIANNESS, ID_DATA, ID_INFO_DST, ID_INFO_TS,
    LEAST_OCTETS_TO_INLINE_QOS, LEN_DATA_HEAD, LEN_HEADER, LEN_MOMENT, LEN_PREFIX,
    LEN_SUBMESSAGE_HEADER, MAJOR_VERSION, MINOR_VERSION, NO_OPTIONS, VENDOR_UNKNOWN,
};
use crate::payload::words_of as key_words;
use crate::write::{put_zeros, zeros_after};
use dds_base::{Code, DatumRef, GuidPrefix, MAX_VALUE};
use std::alloc::Global;

/// What stands before the DATA: the header of the message, INFO_DST and INFO_TS.
const LEN_BEFORE_DATA: usize = LEN_HEADER
    + LEN_SUBMESSAGE_HEADER
    + LEN_PREFIX
    + LEN_SUBMESSAGE_HEADER
    + LEN_MOMENT;

/// The octets of a prefix, four at a time.
fn words_of(prefix: &GuidPrefix) -> ([u8; 4], [u8; 4], [u8; 4])
    ensures octets { (result.0 ++ result.1) ++ result.2 ≡ prefix.now.0 }
    ensures len { length prefix.now.0 ≡ 12 }
{
    // This shows the prover how many octets a prefix has.
    let _octets = prefix.as_slice();
    let [a, b, c, d, e, f, g, h, i, j, k, l] = prefix.0;
    ([a, b, c, d], [e, f, g, h], [i, j, k, l])
}

/// The header of a DATA, whose body takes so many octets.
fn data_header(content: &DataContent, len: u16) -> [u8; 4]
    ensures { result ≡ frame_text id_data (content_flags content.now) len [] }
{
    let [low, high] = len.to_le_bytes();
    [ID_DATA, content_flags(content), low, high]
}

/// Appends the header of a message, and its INFO_DST.
fn put_head(out: &mut Vec<u8>, prefix: &GuidPrefix, to: &GuidPrefix) -> Result<(), Code>
    ensures ok { OnOk result (out.new.items
        ≡ out.old.items ++ (header_text minor_version vendor_unknown prefix.now
        ++ spelling_of_submessage (submessage.InfoDst to.now))) }
    ensures memory { IfErr result (λ e. e ≡ Code.Memory) }
{
    let [vendor, product] = VENDOR_UNKNOWN;
    let (from_first, from_second, from_third) = words_of(prefix);
    let (to_first, to_second, to_third) = words_of(to);
    let words = [
        [b'R', b'T', b'P', b'S'],
        [MAJOR_VERSION, MINOR_VERSION, vendor, product],
        from_first,
        from_second,
        from_third,
        [ID_INFO_DST, FLAG_ENDIANNESS, LEN_PREFIX as u8, 0],
        to_first,
        to_second,
        to_third,
    ];
    out.extend_from_slice(words.as_flattened())?;
    Ok(())
}

/// Appends the INFO_TS of this moment, and a DATA up to its number, whose body takes so many octets.
fn put_front(out: &mut Vec<u8>, moment: u64, change: &Data, len: u16) -> Result<(), Code>
    ensures ok { OnOk result (out.new.items
        ≡ out.old.items ++ (spelling_of_submessage (submessage.InfoTs (Some moment))
        ++ (frame_text id_data (content_flags change.now.content) len []
        ++ data_head Little extra_flags least_octets_to_inline_qos
        change.now.reader_id change.now.writer_id change.now.writer_sn))) }
    ensures memory { IfErr result (λ e. e ≡ Code.Memory) }
{
    let (seconds, fraction) = halves_of(moment);
    let (high, low) = halves_of(change.writer_sn.number());
    let words = [
        [ID_INFO_TS, FLAG_ENDIANNESS, LEN_MOMENT as u8, 0],
        seconds,
        fraction,
        data_header(&change.content, len),
        [EXTRA_FLAGS as u8, 0, LEAST_OCTETS_TO_INLINE_QOS as u8, 0],
        change.reader_id.0,
        change.writer_id.0,
        high,
        low,
    ];
    out.extend_from_slice(words.as_flattened())?;
    Ok(())
}

/// Appends all that stands before the value of a write without a strength, as one array; the body of its DATA takes so
/// many octets.
fn put_before_value(
    out: &mut Vec<u8>,
    prefix: &GuidPrefix,
    to: &GuidPrefix,
    moment: u64,
    change: &Data,
    datum: &DatumRef,
    len: u16,
) -> Result<(), Code>
    requires { length datum.now.value ≤ MAX_VALUE }
    ensures ok { OnOk result (out.new.items
        ≡ out.old.items ++ (header_text minor_version vendor_unknown prefix.now
        ++ (spelling_of_submessage (submessage.InfoDst to.now)
        ++ (spelling_of_submessage (submessage.InfoTs (Some moment))
        ++ (frame_text id_data (content_flags change.now.content) len []
        ++ (data_head Little extra_flags least_octets_to_inline_qos
        change.now.reader_id change.now.writer_id change.now.writer_sn
        ++ (spelling_of_key datum.now.key ++ number Little w32 (length datum.now.value)))))))) }
    ensures memory { IfErr result (λ e. e ≡ Code.Memory) }
{
    let [vendor, product] = VENDOR_UNKNOWN;
    let [scheme, form] = CDR_LE;
    let [unused, padding] = NO_OPTIONS;
    let (sender_first, sender_second, sender_third) = words_of(prefix);
    let (peer_first, peer_second, peer_third) = words_of(to);
    let (key_first, key_second, key_third, key_fourth) = key_words(&datum.key());
    let (high, low) = halves_of(change.writer_sn.number());
    let (whole_seconds, fraction) = halves_of(moment);
    let words = [
        [b'R', b'T', b'P', b'S'],
        [MAJOR_VERSION, MINOR_VERSION, vendor, product],
        sender_first,
        sender_second,
        sender_third,
        [ID_INFO_DST, FLAG_ENDIANNESS, LEN_PREFIX as u8, 0],
        peer_first,
        peer_second,
        peer_third,
        [ID_INFO_TS, FLAG_ENDIANNESS, LEN_MOMENT as u8, 0],
        whole_seconds,
        fraction,
        data_header(&change.content, len),
        [EXTRA_FLAGS as u8, 0, LEAST_OCTETS_TO_INLINE_QOS as u8, 0],
        change.reader_id.0,
        change.writer_id.0,
        high,
        low,
        [scheme, form, unused, padding],
        key_first,
        key_second,
        key_third,
        key_fourth,
        (datum.value().len() as u32).to_le_bytes(),
    ];
    out.extend_from_slice(words.as_flattened())?;
    Ok(())
}

/// Appends the message that announces a change, up to the zeros behind its DATA, whose body takes so many octets.
fn put_message(
    out: &mut Vec<u8>,
    prefix: &GuidPrefix,
    to: &GuidPrefix,
    moment: u64,
    change: &Data,
    len: u16,
) -> Result<(), Code>
    requires { IsContent change.now.content }
    ensures ok { OnOk result (out.new.items
        ≡ out.old.items ++ (header_text minor_version vendor_unknown prefix.now
        ++ (spelling_of_submessage (submessage.InfoDst to.now)
        ++ (spelling_of_submessage (submessage.InfoTs (Some moment))
        ++ (frame_text id_data (content_flags change.now.content) len []
        ++ (data_head Little extra_flags least_octets_to_inline_qos
        change.now.reader_id change.now.writer_id change.now.writer_sn
        ++ text_of_content change.now.content)))))) }
    ensures memory { IfErr result (λ e. e ≡ Code.Memory) }
{
    if let (ChangeBody::Write(datum), None) = (&change.content.body, change.content.strength) {
        put_before_value(out, prefix, to, moment, change, datum, len)?;
        out.extend_from_slice(datum.value())?;
        return Ok(());
    }
    put_head(out, prefix, to)?;
    put_front(out, moment, change, len)?;
    put_content(out, &change.content)?;
    Ok(())
}

/// The one written form of the message that announces a change to a peer: an INFO_DST, the moment of the change as an
/// INFO_TS, and its DATA. The moment is in units of 2^-32 second; no list is made of the submessages, and memory is
/// asked for once.
///
/// # Errors
///
/// `Memory` where no memory was found for the bytes.
///
/// RTPS 2.5, 8.3.7 and 9.4.
pub fn write_change(
    alloc: Global,
    prefix: &GuidPrefix,
    to: &GuidPrefix,
    moment: u64,
    change: &Data,
) -> Result<Vec<u8>, Code>
    // It has a written form.
    requires writable { IsWritable (record {
      prefix = prefix.now;
      submessages = submessage.InfoDst to.now ∷ submessage.InfoTs (Some moment)
          ∷ submessage.Data change.now ∷ [];
    }) }
    // The bytes are that form.
    ensures ok { IfOk result (λ bytes. bytes.items ≡ spelling_of (record {
      prefix = prefix.now;
      submessages = submessage.InfoDst to.now ∷ submessage.InfoTs (Some moment)
          ∷ submessage.Data change.now ∷ [];
    })) }
    // The only refusal is for want of memory.
    ensures memory { IfErr result (λ e. e ≡ Code.Memory) }
{
    let len = LEN_DATA_HEAD + content_len(&change.content);
    let zeros = zeros_after(len);
    let mut out = Vec::with_capacity(alloc, LEN_BEFORE_DATA + LEN_SUBMESSAGE_HEADER + len + zeros)?;
    put_message(&mut out, prefix, to, moment, change, (len + zeros) as u16)?;
    put_zeros(&mut out, zeros)?;
    Ok(out)
}
