//! Messages to bytes.
//!
//! RTPS 2.5, 8.3.2 and 9.4.

ghost use Rattle.std.specs.Prelude.{◌≡◌, ◌<◌, ◌≤◌, ◌+◌, [], ◌++◌, length, replicate, OnOk, IfOk, IfErr, IsTrue, ◌↔◌};
ghost use Rattle.rtps_wire.specs.Submessages.{id_of, flags_of, text_of, padding, IsSpellable, spelling_of_submessage};
ghost use Rattle.rtps_wire.specs.Messages.{IsWritable, header_text, spelling_of};
ghost use Rattle.rtps_wire.specs.Frames.{frame_text};
ghost use Rattle.rtps_wire.specs.Names.{minor_version, vendor_unknown};

use crate::acknack::{is_acknack, put_acknack};
use crate::data::{content_flags, content_len, is_content, is_data, put_data};
use crate::field::put_u64;
use crate::gap::{is_gap, put_gap};
use crate::header::MAX_MESSAGE;
use crate::heartbeat::{is_heartbeat, put_heartbeat};
use crate::message::Message;
use crate::names::{
    FLAG_ENDIANNESS, FLAG_FINAL, FLAG_INVALIDATE, FLAG_LIVELINESS, ID_ACKNACK, ID_DATA, ID_GAP,
    ID_HEARTBEAT, ID_INFO_DST, ID_INFO_TS, ID_PAD, LEN_ACKNACK_REST, LEN_ALIGNED, LEN_DATA_HEAD,
    LEN_GAP_HEAD, LEN_HEADER, LEN_HEARTBEAT, LEN_MOMENT, LEN_PREFIX, LEN_SUBMESSAGE_HEADER,
    MAJOR_VERSION, MAX_FIELDS, MINOR_VERSION, VENDOR_UNKNOWN,
};
use crate::set_field::{is_set, set_len};
use crate::submessage::Submessage;
use dds_base::{Code, GuidPrefix};
use std::alloc::Global;

fn id_of(submessage: &Submessage) -> u8
    ensures { result ≡ id_of submessage.now }
{
    match submessage {
        Submessage::Pad => ID_PAD,
        Submessage::InfoDst(_) => ID_INFO_DST,
        Submessage::InfoTs(_) => ID_INFO_TS,
        Submessage::Data(_) => ID_DATA,
        Submessage::Heartbeat(_) => ID_HEARTBEAT,
        Submessage::AckNack(_) => ID_ACKNACK,
        Submessage::Gap(_) => ID_GAP,
        Submessage::Other(id) => *id,
    }
}

fn flags_of(submessage: &Submessage) -> u8
    ensures { result ≡ flags_of submessage.now }
{
    match submessage {
        Submessage::InfoTs(None) => FLAG_ENDIANNESS + FLAG_INVALIDATE,
        Submessage::Data(d) => content_flags(&d.content),
        Submessage::Heartbeat(h) => {
            FLAG_ENDIANNESS
                + if h.final_flag { FLAG_FINAL } else { 0 }
                + if h.liveliness_flag {
                    FLAG_LIVELINESS
                } else {
                    0
                }
        }
        Submessage::AckNack(a) => FLAG_ENDIANNESS + if a.final_flag { FLAG_FINAL } else { 0 },
        _ => FLAG_ENDIANNESS,
    }
}

/// Appends the fields.
fn put_text(out: &mut Vec<u8>, submessage: &Submessage) -> Result<(), Code>
    requires { IsSpellable submessage.now }
    ensures ok { OnOk result (out.new.items ≡ out.old.items ++ text_of submessage.now) }
    ensures memory { IfErr result (λ e. e ≡ Code.Memory) }
{
    match submessage {
        Submessage::InfoDst(prefix) => Ok(out.extend_from_slice(&prefix.0)?),
        Submessage::InfoTs(Some(moment)) => put_u64(out, *moment),
        Submessage::Data(d) => put_data(out, d),
        Submessage::Heartbeat(h) => put_heartbeat(out, h),
        Submessage::AckNack(a) => put_acknack(out, a),
        Submessage::Gap(g) => put_gap(out, g),
        Submessage::Pad | Submessage::InfoTs(None) | Submessage::Other(_) => Ok(()),
    }
}

/// How many octets the fields take.
fn text_len(submessage: &Submessage) -> usize
    requires { IsSpellable submessage.now }
    ensures len { result ≡ length (text_of submessage.now) }
    ensures small { result ≤ MAX_FIELDS }
{
    match submessage {
        Submessage::InfoDst(_) => LEN_PREFIX,
        Submessage::InfoTs(Some(_)) => LEN_MOMENT,
        Submessage::Data(d) => LEN_DATA_HEAD + content_len(&d.content),
        Submessage::Heartbeat(_) => LEN_HEARTBEAT,
        Submessage::AckNack(a) => LEN_ACKNACK_REST + set_len(&a.reader_sn_state),
        Submessage::Gap(g) => LEN_GAP_HEAD + set_len(&g.gap_list),
        Submessage::Pad | Submessage::InfoTs(None) | Submessage::Other(_) => 0,
    }
}

/// How many zeros follow fields that take so many octets, up to a multiple of 4.
pub fn zeros_after(len: usize) -> usize
    ensures len { result ≡ length (padding len) }
    ensures few { result < LEN_ALIGNED }
    ensures zeros { replicate result 0 ≡ padding len }
{
    (LEN_ALIGNED - len % LEN_ALIGNED) % LEN_ALIGNED
}

/// Appends as many zeros.
pub fn put_zeros(out: &mut Vec<u8>, count: usize) -> Result<(), Code>
    requires { count < LEN_ALIGNED }
    ensures ok { OnOk result (out.new.items ≡ out.old.items ++ replicate count 0) }
    ensures memory { IfErr result (λ e. e ≡ Code.Memory) }
{
    if count == 0 {
        return Ok(());
    }
    let zeros = [0; LEN_ALIGNED];
    out.extend_from_slice(&zeros[..count])?;
    Ok(())
}

/// Appends the header of a submessage, whose body takes so many octets.
fn put_submessage_header(out: &mut Vec<u8>, submessage: &Submessage, len: u16) -> Result<(), Code>
    ensures ok { OnOk result (out.new.items
        ≡ out.old.items ++ frame_text (id_of submessage.now) (flags_of submessage.now) len []) }
    ensures memory { IfErr result (λ e. e ≡ Code.Memory) }
{
    let [low, high] = len.to_le_bytes();
    out.extend_from_slice(&[id_of(submessage), flags_of(submessage), low, high])?;
    Ok(())
}

/// Appends a submessage: its header, its fields, and zeros up to a multiple of 4.
fn put_submessage(out: &mut Vec<u8>, submessage: &Submessage) -> Result<(), Code>
    requires { IsSpellable submessage.now }
    ensures ok { OnOk result
        (out.new.items ≡ out.old.items ++ spelling_of_submessage submessage.now) }
    ensures memory { IfErr result (λ e. e ≡ Code.Memory) }
{
    let len = text_len(submessage);
    let zeros = zeros_after(len);
    put_submessage_header(out, submessage, (len + zeros) as u16)?;
    put_text(out, submessage)?;
    put_zeros(out, zeros)
}

/// Whether a submessage can be written.
fn is_spellable(submessage: &Submessage) -> bool
    ensures { IsTrue result ↔ IsSpellable submessage.now }
{
    match submessage {
        Submessage::InfoDst(prefix) => {
            // This shows the prover how many octets there are.
            let _octets = prefix.as_slice();
            true
        }
        Submessage::Pad | Submessage::InfoTs(None) => true,
        Submessage::InfoTs(Some(moment)) => {
            // This shows the prover the range of the moment.
            let _moment = *moment;
            true
        }
        Submessage::Data(d) => is_data(d) && is_content(&d.content),
        Submessage::Heartbeat(h) => is_heartbeat(h),
        Submessage::AckNack(a) => is_acknack(a) && is_set(&a.reader_sn_state),
        Submessage::Gap(g) => is_gap(g) && is_set(&g.gap_list),
        Submessage::Other(_) => false,
    }
}

/// How many octets a submessage takes.
fn spelling_len(submessage: &Submessage) -> usize
    requires { IsSpellable submessage.now }
    ensures len { result ≡ length (spelling_of_submessage submessage.now) }
    ensures small { result < LEN_SUBMESSAGE_HEADER + MAX_FIELDS + LEN_ALIGNED }
{
    let len = text_len(submessage);
    LEN_SUBMESSAGE_HEADER + len + zeros_after(len)
}

/// Whether a message can be written: it has no `Submessage::Other`, each field is in its range, each value has at most
/// `dds_base::MAX_VALUE` octets, and all of it at most `MAX_MESSAGE`.
pub fn is_writable(message: &Message) -> bool
    ensures writable { IsTrue result ↔ IsWritable message.now }
{
    // This shows the prover how many octets there are.
    let _prefix = message.prefix.as_slice();
    let mut len = LEN_HEADER;
    for submessage in message.submessages.as_slice() {
        if !is_spellable(submessage) {
            return false;
        }
        len += spelling_len(submessage);
        if MAX_MESSAGE < len {
            return false;
        }
    }
    true
}

/// How many octets the written form of a message takes.
fn written_len(message: &Message) -> usize
    requires { IsWritable message.now }
    ensures { result ≡ length (spelling_of message.now) }
{
    let mut len = LEN_HEADER;
    for submessage in message.submessages.as_slice() {
        len += spelling_len(submessage);
    }
    len
}

/// Appends the header of a message.
pub fn put_header(out: &mut Vec<u8>, prefix: &GuidPrefix) -> Result<(), Code>
    ensures ok { OnOk result
        (out.new.items ≡ out.old.items ++ header_text minor_version vendor_unknown prefix.now) }
    ensures memory { IfErr result (λ e. e ≡ Code.Memory) }
{
    let [vendor, product] = VENDOR_UNKNOWN;
    let protocol = [
        b'R',
        b'T',
        b'P',
        b'S',
        MAJOR_VERSION,
        MINOR_VERSION,
        vendor,
        product,
    ];
    out.extend_from_slice(&protocol)?;
    out.extend_from_slice(&prefix.0)?;
    Ok(())
}

/// The one written form of a message, which `read_message` reads as that message to its end.
///
/// # Errors
///
/// `Memory` where no memory was found for the bytes.
///
/// RTPS 2.5, 9.4.
pub fn write_message(alloc: Global, message: &Message) -> Result<Vec<u8>, Code>
    // It has a written form.
    requires writable { IsWritable message.now }
    // The bytes are that form.
    ensures ok { IfOk result (λ bytes. bytes.items ≡ spelling_of message.now) }
    // The only refusal is for want of memory.
    ensures memory { IfErr result (λ e. e ≡ Code.Memory) }
{
    let mut out = Vec::with_capacity(alloc, written_len(message))?;
    put_header(&mut out, &message.prefix)?;
    for submessage in message.submessages.as_slice() {
        put_submessage(&mut out, submessage)?;
    }
    Ok(out)
}
