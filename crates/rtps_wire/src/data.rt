//! DATA: what a writer says of an instance.
//!
//! `specs/Data.antt` draws it.
//!
//! RTPS 2.5, 9.4.5 (Data) and 9.6 (strength, status info).

ghost use Rattle.std.specs.Prelude.{◌≡◌, ◌≤◌, ◌++◌, length, OnOk, IfErr, IsTrue, ◌↔◌};
ghost use Rattle.std.specs.Option.{option_map};
ghost use Rattle.dds_base.specs.DatumText.{IsDatum};
ghost use Rattle.rtps_wire.specs.Data.{IsData, IsBody, IsContent, IsStrength, content_flags, strength_text, sentinel_text, text_of_write, text_of_end, text_of_content, text_of_data};
ghost use Rattle.rtps_wire.specs.DataAt.{data_head_at, shown_key_at, ended_at, body_by, body_at, inline_at, data_at};

use crate::field::{
    Ids, MAX_SN, has_flag, order_of, put_ids, put_u16s, put_u64, take_ids, take_sn,
};
use crate::names::{
    EXTRA_FLAGS, FLAG_DATA, FLAG_ENDIANNESS, FLAG_INLINE_QOS, FLAG_KEY, FLAG_NON_STANDARD,
    LEAST_OCTETS_TO_INLINE_QOS, LEN_DATUM_HEAD, LEN_KEY_FORM, LEN_PARAMETER_HEAD, LEN_PARAMETERS,
    LEN_STRENGTH, MAX_CONTENT, PID_KEY_HASH, PID_OWNERSHIP_STRENGTH, PID_SENTINEL, PID_STATUS_INFO,
    STATUS_DISPOSED, STATUS_UNREGISTERED,
};
use crate::parameters::{Parameters, put_parameter, take_parameters};
use crate::payload::{put_datum, put_key_form};
use dds_base::{
    Code, DatumRef, Endianness, EntityId, Key, MAX_VALUE, Sn, decode_datum_key, decode_datum_ref,
    decode_key, take_octets, take_u16,
};

/// What is said of an instance: the kind of a change, with a datum or the key alone. The value is lent: by the bytes of
/// a packet that was read, or by the change that is written. `docs/WIRE.md`, "What a DATA means", has the table.
///
/// RTPS 2.5, 8.2 (ChangeKind_t): a change that is no write carries the key alone.
#[derive(Debug, Drop)]
pub enum ChangeBody<'a> {
    /// The instance has this value.
    Write(DatumRef<'a>),
    /// The instance exists no more.
    Dispose(Key),
    /// The writer has nothing more to say of the instance.
    Unregister(Key),
    /// The instance exists no more, and the writer has nothing more to say of it.
    DisposeUnregister(Key),
}

/// What a DATA says of a change: all but its moment.
#[derive(Debug, Drop)]
pub struct DataContent<'a> {
    /// What the change does, and to which instance.
    pub body: ChangeBody<'a>,
    /// The strength of its writer, as the parameter says; `None` where there is none.
    ///
    /// RTPS 2.5, 9.6 (PID_OWNERSHIP_STRENGTH); DDS 1.4, 2.2.3 (OWNERSHIP_STRENGTH).
    pub strength: Option<i32>,
}

/// A change of a writer.
///
/// RTPS 2.5, 8.3 (Data).
#[derive(Debug, Drop)]
pub struct Data<'a> {
    /// The reader that it is for; `EntityId::UNKNOWN` for all that are matched.
    pub reader_id: EntityId,
    /// The writer that speaks, at the peer of the message.
    pub writer_id: EntityId,
    /// From 1 to 2^62.
    pub writer_sn: Sn,
    /// What it says of the change.
    pub content: DataContent<'a>,
}

/// What DATA begins with.
#[derive(Clone, Copy)]
struct DataHead {
    octets_to_inline_qos: u16,
    ids: Ids,
    writer_sn: u64,
}

#[tactic(auto, unfolding(crate::specs::DataAt::data_head_at))]
fn take_data_head(order: Endianness, body: &[u8]) -> Option<(DataHead, &[u8])>
    ensures { option_map (λ x. (
      x.0.octets_to_inline_qos,
      x.0.ids.reader,
      x.0.ids.writer,
      x.0.writer_sn,
      x.1.now,
    )) result ≡ data_head_at order body.now }
{
    let (_, rest) = take_u16(order, body)?;
    let (octets_to_inline_qos, rest) = take_u16(order, rest)?;
    let (ids, rest) = take_ids(rest)?;
    let (writer_sn, rest) = take_sn(order, rest)?;
    let head = DataHead {
        octets_to_inline_qos,
        ids,
        writer_sn,
    };
    Some((head, rest))
}

/// The key, by the flags D and K.
#[tactic(auto, unfolding(crate::specs::DataAt::shown_key_at))]
fn shown_key(has_datum: bool, has_key: bool, key_hash: Option<Key>, payload: &[u8]) -> Option<Key>
    ensures { result ≡ shown_key_at has_datum has_key key_hash payload.now }
{
    match (has_datum, has_key) {
        (true, true) => None,
        (true, false) => decode_datum_key(payload),
        (false, true) => decode_key(payload),
        (false, false) => key_hash,
    }
}

#[tactic(auto, unfolding(crate::specs::DataAt::ended_at))]
fn ended(disposed: bool, unregistered: bool, key: Key) -> ChangeBody<'static>
    ensures { result ≡ ended_at disposed unregistered key }
{
    if !disposed {
        ChangeBody::Unregister(key)
    } else if unregistered {
        ChangeBody::DisposeUnregister(key)
    } else {
        ChangeBody::Dispose(key)
    }
}

/// What is said, by the table of `docs/WIRE.md`, "What a DATA means".
#[tactic(auto, unfolding(crate::specs::DataAt::body_by, crate::specs::DataAt::body_at))]
fn body_of(flags: u8, found: Parameters, payload: &[u8]) -> Option<ChangeBody<'_>>
    ensures { result ≡ body_at flags found payload.now }
{
    let status = found.status.unwrap_or(0);
    let disposed = has_flag(status, STATUS_DISPOSED);
    let unregistered = has_flag(status, STATUS_UNREGISTERED);
    let has_datum = has_flag(flags, FLAG_DATA);
    let has_key = has_flag(flags, FLAG_KEY);
    if disposed || unregistered {
        let key = shown_key(has_datum, has_key, found.key_hash, payload);
        return key.map(|key| ended(disposed, unregistered, key));
    }
    if has_datum && !has_key {
        return decode_datum_ref(payload).map(ChangeBody::Write);
    }
    None
}

/// The parameters, where flag Q is set, and the payload.
#[tactic(auto, unfolding(crate::specs::DataAt::inline_at))]
fn take_inline(flags: u8, bytes: &[u8]) -> Option<(Parameters, &[u8])>
    ensures { option_map (λ x. (x.0, x.1.now)) result ≡ inline_at flags bytes.now }
{
    if has_flag(flags, FLAG_INLINE_QOS) {
        return take_parameters(order_of(flags), bytes);
    }
    Some((Parameters::NONE, bytes))
}

/// The DATA of a body, where that is valid. The body lends the value.
#[tactic(auto, unfolding(crate::specs::DataAt::data_at))]
pub fn data_of(flags: u8, body: &[u8]) -> Option<Data<'_>>
    ensures { result ≡ data_at flags body.now }
{
    if has_flag(flags, FLAG_NON_STANDARD) {
        return None;
    }
    let (head, rest) = take_data_head(order_of(flags), body)?;
    if head.octets_to_inline_qos < LEAST_OCTETS_TO_INLINE_QOS {
        return None;
    }
    let skipped = head.octets_to_inline_qos - LEAST_OCTETS_TO_INLINE_QOS;
    let (_, rest) = take_octets(rest, skipped as usize)?;
    let (found, payload) = take_inline(flags, rest)?;
    let body = body_of(flags, found, payload)?;
    if head.writer_sn < 1 {
        return None;
    }
    Some(Data {
        reader_id: head.ids.reader,
        writer_id: head.ids.writer,
        writer_sn: Sn::new(head.writer_sn),
        content: DataContent {
            body,
            strength: found.strength,
        },
    })
}

/// The flags of a content.
pub fn content_flags(content: &DataContent) -> u8
    ensures { result ≡ content_flags content.now }
{
    match &content.body {
        ChangeBody::Write(_) if content.strength.is_none() => FLAG_ENDIANNESS + FLAG_DATA,
        ChangeBody::Write(_) => FLAG_ENDIANNESS + FLAG_INLINE_QOS + FLAG_DATA,
        _ => FLAG_ENDIANNESS + FLAG_INLINE_QOS + FLAG_KEY,
    }
}

/// Appends the parameter of a strength, where there is one.
fn put_strength(out: &mut Vec<u8>, strength: Option<i32>) -> Result<(), Code>
    ensures ok { OnOk result (out.new.items ≡ out.old.items ++ strength_text strength) }
    ensures memory { IfErr result (λ e. e ≡ Code.Memory) }
{
    match strength {
        Some(strength) => {
            let octets = strength.cast_unsigned().to_le_bytes();
            put_parameter(out, PID_OWNERSHIP_STRENGTH, &octets)
        }
        None => Ok(()),
    }
}

/// Appends the last parameters: a strength, where there is one, and the sentinel.
fn put_last(out: &mut Vec<u8>, strength: Option<i32>) -> Result<(), Code>
    ensures ok { OnOk result
        (out.new.items ≡ out.old.items ++ (strength_text strength ++ sentinel_text)) }
    ensures memory { IfErr result (λ e. e ≡ Code.Memory) }
{
    put_strength(out, strength)?;
    put_parameter(out, PID_SENTINEL, &[])
}

/// Appends a write: where there is a strength, that and the sentinel, and the datum.
fn put_write(out: &mut Vec<u8>, datum: &DatumRef, strength: Option<i32>) -> Result<(), Code>
    requires { IsDatum datum.now }
    ensures ok { OnOk result (out.new.items ≡ out.old.items ++ text_of_write datum.now strength) }
    ensures memory { IfErr result (λ e. e ≡ Code.Memory) }
{
    if strength.is_some() {
        put_last(out, strength)?;
    }
    put_datum(out, datum)
}

/// Appends the parameters and the key form of a change that is no write.
fn put_end(out: &mut Vec<u8>, status: u8, key: &Key, strength: Option<i32>) -> Result<(), Code>
    ensures ok { OnOk result
        (out.new.items ≡ out.old.items ++ text_of_end status key.now strength) }
    ensures memory { IfErr result (λ e. e ≡ Code.Memory) }
{
    put_parameter(out, PID_KEY_HASH, key.as_slice())?;
    put_parameter(out, PID_STATUS_INFO, &[0, 0, 0, status])?;
    put_last(out, strength)?;
    put_key_form(out, key)
}

/// Appends what follows the number: parameters, where there are some, and the payload.
pub fn put_content(out: &mut Vec<u8>, content: &DataContent) -> Result<(), Code>
    requires { IsContent content.now }
    ensures ok { OnOk result (out.new.items ≡ out.old.items ++ text_of_content content.now) }
    ensures memory { IfErr result (λ e. e ≡ Code.Memory) }
{
    let strength = content.strength;
    match &content.body {
        ChangeBody::Write(datum) => put_write(out, datum, strength),
        ChangeBody::Dispose(key) => put_end(out, STATUS_DISPOSED, key, strength),
        ChangeBody::Unregister(key) => put_end(out, STATUS_UNREGISTERED, key, strength),
        ChangeBody::DisposeUnregister(key) => {
            put_end(out, STATUS_DISPOSED + STATUS_UNREGISTERED, key, strength)
        }
    }
}

/// Appends the body.
pub fn put_data(out: &mut Vec<u8>, d: &Data) -> Result<(), Code>
    requires { IsContent d.now.content }
    ensures ok { OnOk result (out.new.items ≡ out.old.items ++ text_of_data d.now) }
    ensures memory { IfErr result (λ e. e ≡ Code.Memory) }
{
    put_u16s(out, EXTRA_FLAGS, LEAST_OCTETS_TO_INLINE_QOS)?;
    put_ids(out, &d.reader_id, &d.writer_id)?;
    put_u64(out, d.writer_sn.number())?;
    put_content(out, &d.content)
}

/// How many octets a content takes.
pub fn content_len(content: &DataContent) -> usize
    requires { IsContent content.now }
    ensures len { result ≡ length (text_of_content content.now) }
    ensures small { result ≤ MAX_CONTENT }
{
    match (&content.body, content.strength) {
        (ChangeBody::Write(datum), None) => LEN_DATUM_HEAD + datum.value().len(),
        (ChangeBody::Write(datum), Some(_)) => {
            LEN_STRENGTH + LEN_PARAMETER_HEAD + LEN_DATUM_HEAD + datum.value().len()
        }
        (_, None) => LEN_PARAMETERS + LEN_KEY_FORM,
        (_, Some(_)) => LEN_PARAMETERS + LEN_STRENGTH + LEN_KEY_FORM,
    }
}

/// Whether a datum has a written form.
fn is_datum(d: &DatumRef) -> bool
    ensures { IsTrue result ↔ IsDatum d.now }
{
    let key = d.key();
    // This shows the prover how many octets a key has.
    let _octets = key.as_slice();
    d.value().len() <= MAX_VALUE
}

/// Whether the body of a change has a written form.
fn is_body(body: &ChangeBody) -> bool
    ensures { IsTrue result ↔ IsBody body.now }
{
    match body {
        ChangeBody::Write(datum) => is_datum(datum),
        ChangeBody::Dispose(key)
        | ChangeBody::Unregister(key)
        | ChangeBody::DisposeUnregister(key) => {
            // This shows the prover how many octets there are.
            let _octets = key.as_slice();
            true
        }
    }
}

/// Whether a strength has a written form.
fn is_strength(strength: Option<i32>) -> bool
    ensures { IsTrue result ↔ IsStrength strength }
{
    match strength {
        None => true,
        Some(strength) => {
            // This shows the prover the range of the strength.
            let _strength = strength;
            true
        }
    }
}

/// Whether a content has a written form.
pub fn is_content(content: &DataContent) -> bool
    ensures { IsTrue result ↔ IsContent content.now }
{
    is_body(&content.body) && is_strength(content.strength)
}

/// Whether it has a valid form, its content aside.
pub fn is_data(d: &Data) -> bool
    ensures { IsTrue result ↔ IsData d.now }
{
    // These show the prover how many octets the names have.
    let _reader = d.reader_id.as_slice();
    let _writer = d.writer_id.as_slice();
    let sn = d.writer_sn.number();
    1 <= sn && sn <= MAX_SN
}
