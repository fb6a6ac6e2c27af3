//! Payloads, and what they turn into.
//!
//! RTPS 2.5, clause 10 (SerializedPayload); XTypes 1.3, 7.6.3.1.2 (octets of padding).

ghost use Rattle.std.specs.Prelude.{◌≡◌, ◌≤◌, ◌<◌, ◌+◌, ◌^◌, ◌∷◌, ◌++◌, length, replicate, OnOk, IfErr, IfSome, IsTrue, ◌↔◌, Some};
ghost use Rattle.std.specs.Option.{option_map};
ghost use Rattle.dds_base.specs.declared.datum.Datum.{Datum};
ghost use Rattle.dds_base.specs.DatumAt.{datum_at, key_form_at};
ghost use Rattle.dds_base.specs.Happening.{same_key};
ghost use Rattle.dds_base.specs.DatumText.{spelling_of_datum, spelling_of_key};
ghost use Rattle.rtps_wire.specs.Submessages.{padding};
ghost use Rattle.rtps_adapter.specs.Payloads.{value_at, payload_of, list_of_key, key_payload_of, inward_payload, outward_payload, has_own_key};
ghost use Rattle.rtps_adapter.specs.Keys.{key_in, key_by, representation_of};
ghost use Rattle.rtps_wire.specs.declared.data.ChangeBody.TheVariants.{Write, Dispose};
ghost use Rattle.rtps_adapter.specs.ComesBack.{IsValue, IsKey, FitsKind};
ghost use Rattle.rtps_adapter.specs.PayloadText.{new_text};

use crate::key::{key_by_fields, own_len, representation_of};
use crate::kinds::{Encoding, KeyRule, Kind, NO_KEY, rule_of};
use crate::listed::{PID_ENDPOINT_GUID, key_by_list};
use dds_base::{Code, Key, decode_datum_ref, decode_key};
use rtps_wire::MAX_MESSAGE;
use std::marker::Model;

/// A datum up to its value: representation, options, key and length.
const LEN_DATUM_HEAD: usize = LEN_KEY_FORM + 4;

/// A key form: representation, options and key.
const LEN_KEY_FORM: usize = LEN_KEY_HEAD + 16;

/// A key form up to its key: representation and options.
const LEN_KEY_HEAD: usize = 4;

/// A list that names a key: representation, options, a parameter of the key, and the sentinel.
const LEN_LIST: usize = LEN_KEY_HEAD + 4 + 16 + 4;

/// Representation, options and body: a value, or a payload. Contracts see its octets.
#[derive(Drop)]
pub struct Serialized<'a> {
    /// Representation and options.
    head: [u8; 4],
    body: &'a [u8],
}

impl<'a> Model for Serialized<'a> {
    ghost use Rattle.std.specs.Prelude.{ℕ, List, ◌++◌};

    ghost Value = { List ℕ };

    ghost view = { λ s. s.head ++ s.body.now };
}

impl<'a> Serialized<'a> {
    /// How many octets there are.
    fn octets(&self) -> usize
        ensures len { result ≡ length self.now }
        ensures small { result < 2 ^ 63 + 4 }
    {
        self.head.len() + self.body.len()
    }

    /// Appends them.
    fn put(&self, out: &mut Vec<u8>) -> Result<(), Code>
        ensures ok { OnOk result (out.new.items ≡ out.old.items ++ self.now) }
        ensures memory { IfErr result (λ e. e ≡ Code.Memory) }
    {
        out.extend_from_slice(&self.head)?;
        out.extend_from_slice(self.body)?;
        Ok(())
    }
}

/// What stands in place of a payload.
#[derive(Drop)]
pub enum NewPayload<'a> {
    /// A datum of this key and value.
    Datum(Key, Serialized<'a>),
    /// The key form of this key.
    KeyForm(Key),
    /// A payload of the topic's own type, with these octets and zeros up to a multiple of 4.
    Own(Serialized<'a>),
    /// The list of parameters that names this key alone.
    ParameterList(Key),
}

/// How many zeros follow so many octets, up to a multiple of 4.
pub fn zeros_after(len: usize) -> usize
    ensures len { result ≡ length (padding len) }
    ensures few { result < 4 }
    ensures zeros { replicate result 0 ≡ padding len }
{
    (4 - len % 4) % 4
}

/// The value of a payload. `None` where fewer octets are there than representation, options and padding take.
#[tactic(auto, unfolding(crate::specs::Payloads::value_at))]
fn value_of(payload: &[u8]) -> Option<Serialized<'_>>
    ensures { result ≡ value_at payload.now }
{
    let [first, second, third, options, body @ ..] = payload else {
        return None;
    };
    let padding = *options % 4;
    let head = [*first, *second, *third, *options - padding];
    let padding = padding as usize;
    if body.len() < padding {
        return None;
    }
    let body = &body[..body.len() - padding];
    Some(Serialized { head, body })
}

/// The key of a value, or of what says a key alone, by the rule.
fn key_of(rule: KeyRule, is_key: bool, value: &Serialized) -> Option<Key>
    ensures { result ≡ key_in is_key rule.entry value.now }
{
    match rule {
        KeyRule::Keyless => Some(NO_KEY),
        KeyRule::Fields(encoding, fields) => {
            let [first, second, _, _] = value.head;
            key_by_fields(is_key, encoding, fields, (first, second), value.body)
        }
        KeyRule::ParameterList => {
            let [first, second, _, _] = value.head;
            key_by_list((first, second), value.body)
        }
    }
}

/// What a payload of another type turns into. `None` where it can't be turned.
#[tactic(auto, unfolding(crate::specs::Payloads::inward_payload))]
pub fn inward_payload<'a>(rule: KeyRule, is_key: bool, payload: &'a [u8]) -> Option<NewPayload<'a>>
    ensures { option_map new_text result ≡ inward_payload rule.entry is_key payload.now }
{
    let value = value_of(payload)?;
    if is_key {
        let key = key_of(rule, true, &value)?;
        Some(NewPayload::KeyForm(key))
    } else {
        let key = key_of(rule, false, &value)?;
        Some(NewPayload::Datum(key, value))
    }
}

/// A value as a payload, whose options count the zeros that follow it. `None` where it is no value.
#[tactic(auto, unfolding(crate::specs::Payloads::payload_of))]
fn own_payload(value: &[u8]) -> Option<NewPayload<'_>>
    ensures { option_map new_text result ≡ payload_of value.now }
{
    let [first, second, third, options, body @ ..] = value else {
        return None;
    };
    if *options % 4 != 0 {
        return None;
    }
    let zeros = zeros_after(body.len()) as u8;
    let head = [*first, *second, *third, *options + zeros];
    Some(NewPayload::Own(Serialized { head, body }))
}

/// Key fields of sixteen octets at most as a payload, big-endian, whose options count the zeros that follow them.
#[tactic(auto, unfolding(crate::specs::Payloads::payload_of))]
fn own_fields<'a>(encoding: Encoding, octets: &'a [u8]) -> Option<NewPayload<'a>>
    requires few { length octets.now ≤ 16 }
    ensures { option_map new_text result
        ≡ payload_of (0 ∷ representation_of encoding ∷ 0 ∷ 0 ∷ octets.now) }
{
    let head = [
        0,
        representation_of(encoding),
        0,
        zeros_after(octets.len()) as u8,
    ];
    Some(NewPayload::Own(Serialized { head, body: octets }))
}

/// The payload that says a key alone, of these octets. `None` where the type has no such key.
#[tactic(auto, unfolding(crate::specs::Payloads::key_payload_of))]
fn own_key<'a>(rule: KeyRule, key: &Key, octets: &'a [u8]) -> Option<NewPayload<'a>>
    requires octets { octets.now ≡ key.now.0 }
    ensures { option_map new_text result ≡ key_payload_of rule.entry key.now }
{
    // This shows the prover how many octets there are.
    let _octets = key.as_slice();
    match rule {
        KeyRule::Keyless => {
            if *key != NO_KEY {
                return None;
            }
            Some(NewPayload::Own(Serialized {
                head: [0, 1, 0, 0],
                body: &[],
            }))
        }
        KeyRule::Fields(encoding, fields) => {
            let len = own_len(encoding, fields, key)?;
            own_fields(encoding, &octets[..len])
        }
        KeyRule::ParameterList => Some(NewPayload::ParameterList(*key)),
    }
}

/// The key of the key form that the bytes begin with, and its octets, which they lend. `None` where they begin with
/// none.
fn key_form_in(payload: &[u8]) -> Option<(Key, &[u8])>
    ensures key { option_map (λ x. x.0) result ≡ key_form_at payload.now }
    ensures octets { IfSome result (λ x. x.1.now ≡ x.0.0) }
{
    let key = decode_key(payload)?;
    Some((key, &payload[LEN_KEY_HEAD..LEN_KEY_FORM]))
}

/// The key and the value of the datum that the bytes begin with; they lend the value. `None` where they begin with
/// none.
fn datum_in(payload: &[u8]) -> Option<(Key, &[u8])>
    ensures { option_map (λ x. record { key = x.0; value = x.1.now }) result
        ≡ datum_at payload.now }
{
    let datum = decode_datum_ref(payload)?;
    let len = datum.value().len();
    let key = datum.key();
    let value = &payload[LEN_DATUM_HEAD..LEN_DATUM_HEAD + len];
    Some((key, value))
}

/// Whether a payload can carry a value.
fn is_value(value: &[u8]) -> bool
    ensures { IsTrue result ↔ IsValue value.now }
{
    own_payload(value).is_some()
}

/// Whether two keys are one.
fn is_same_key(first: &Key, second: &Key) -> bool
    ensures same { result ≡ same_key first.now second.now }
    ensures one { IsTrue result ↔ (first.now ≡ second.now) }
{
    *first == *second
}

/// The key of a value, by the rule. `None` where the value has none.
#[tactic(auto, unfolding(crate::specs::Keys::key_by_fields, crate::specs::Keys::key_by_list))]
fn key_by(rule: KeyRule, value: &[u8]) -> Option<Key>
    ensures { result ≡ key_by rule.entry value.now }
{
    match rule {
        KeyRule::Keyless => Some(NO_KEY),
        KeyRule::Fields(encoding, fields) => {
            let [first, second, _, _, body @ ..] = value else {
                return None;
            };
            key_by_fields(false, encoding, fields, (*first, *second), body)
        }
        KeyRule::ParameterList => {
            let [first, second, _, _, body @ ..] = value else {
                return None;
            };
            key_by_list((*first, *second), body)
        }
    }
}

/// Whether a key is that of a value, by the rule.
fn has_own_key(rule: KeyRule, key: &Key, value: &[u8]) -> bool
    ensures own { result
        ≡ has_own_key rule.entry (record { key = key.now; value = value.now }) }
    ensures found { IsTrue result ↔ (key_by rule.entry value.now ≡ Some key.now) }
{
    match key_by(rule, value) {
        Some(own) => is_same_key(key, &own),
        None => false,
    }
}

/// Whether a datum of this key and value is one of a topic of this kind, so that it comes back as it was: whoever writes
/// asks before. Of one that is not, whose type is another than the datum, nobody reads anything.
///
/// RTPS 2.5, clause 10 (SerializedPayload).
pub fn fits(kind: Kind, key: &Key, value: &[u8]) -> bool
    // It is so exactly where a payload can carry the value, and the rule finds the key in it; of the datum it is.
    ensures fits { IsTrue result
        ↔ FitsKind kind.entry (Write (record { key = key.now; value = value.now })) }
{
    match rule_of(kind) {
        None => true,
        Some(rule) => is_value(value) && has_own_key(rule, key, value),
    }
}

/// Whether a type of the rule has a key, so that it can be said alone.
fn has_key(rule: KeyRule, key: &Key) -> bool
    ensures { IsTrue result ↔ IsKey rule.entry key.now }
{
    match rule {
        KeyRule::Keyless => is_same_key(key, &NO_KEY),
        KeyRule::Fields(encoding, fields) => own_len(encoding, fields, key).is_some(),
        KeyRule::ParameterList => true,
    }
}

/// Whether a key is one that can be said alone on a topic of this kind, so that a dispose or an unregister by it comes
/// back as it was: whoever does so asks before. A key that is the MD5 of its fields is none; of a dispose by it nobody
/// reads anything.
///
/// RTPS 2.5, clause 10 (SerializedPayload).
pub fn fits_key(kind: Kind, key: &Key) -> bool
    // It is so exactly where a type of the rule has the key; of the datum it is.
    ensures fits { IsTrue result ↔ FitsKind kind.entry (Dispose key.now) }
{
    let Some(rule) = rule_of(kind) else {
        return true;
    };
    has_key(rule, key)
}

/// What a datum or a key form turns into. `None` where it can't be turned.
#[tactic(auto, unfolding(crate::specs::Payloads::outward_payload))]
pub fn outward_payload<'a>(rule: KeyRule, is_key: bool, payload: &'a [u8]) -> Option<NewPayload<'a>>
    ensures { option_map new_text result ≡ outward_payload rule.entry is_key payload.now }
{
    if is_key {
        let (key, octets) = key_form_in(payload)?;
        return own_key(rule, &key, octets);
    }
    let (key, value) = datum_in(payload)?;
    if !has_own_key(rule, &key, value) {
        return None;
    }
    own_payload(value)
}

/// How many octets it takes.
pub fn payload_len(payload: &NewPayload) -> usize
    ensures len { result ≡ length (new_text payload.now) }
    ensures small { result < 2 ^ 63 + 32 }
{
    match payload {
        NewPayload::Datum(key, value) => {
            // This shows the prover how many octets there are.
            let _octets = key.as_slice();
            LEN_DATUM_HEAD + value.octets()
        }
        NewPayload::KeyForm(key) => {
            // This shows the prover how many octets there are.
            let _octets = key.as_slice();
            LEN_KEY_FORM
        }
        NewPayload::Own(own) => own.octets() + zeros_after(own.octets()),
        NewPayload::ParameterList(key) => {
            // This shows the prover how many octets there are.
            let _octets = key.as_slice();
            LEN_LIST
        }
    }
}

/// Appends the zeros.
pub fn put_zeros(out: &mut Vec<u8>, count: usize) -> Result<(), Code>
    requires { count < 4 }
    ensures ok { OnOk result (out.new.items ≡ out.old.items ++ replicate count 0) }
    ensures memory { IfErr result (λ e. e ≡ Code.Memory) }
{
    let zeros = [0; 4];
    out.extend_from_slice(&zeros[..count])?;
    Ok(())
}

/// Appends the key form.
fn put_key(out: &mut Vec<u8>, key: &Key) -> Result<(), Code>
    ensures ok { OnOk result (out.new.items ≡ out.old.items ++ spelling_of_key key.now) }
    ensures memory { IfErr result (λ e. e ≡ Code.Memory) }
{
    out.extend_from_slice(&[0, 1, 0, 0])?;
    out.extend_from_slice(&key.0)?;
    Ok(())
}

/// Appends the list of parameters that names the key.
fn put_list(out: &mut Vec<u8>, key: &Key) -> Result<(), Code>
    ensures ok { OnOk result (out.new.items ≡ out.old.items ++ list_of_key key.now) }
    ensures memory { IfErr result (λ e. e ≡ Code.Memory) }
{
    // Its length shows the prover how many octets there are.
    let len = key.as_slice().len() as u16;
    out.extend_from_slice(&[0, 3, 0, 0])?;
    out.extend_from_slice(&PID_ENDPOINT_GUID.to_le_bytes())?;
    out.extend_from_slice(&len.to_le_bytes())?;
    out.extend_from_slice(&key.0)?;
    out.extend_from_slice(&[1, 0, 0, 0])?;
    Ok(())
}

/// Appends the octets of what stands in place of a payload.
pub fn put_payload(out: &mut Vec<u8>, payload: &NewPayload) -> Result<(), Code>
    requires { length (new_text payload.now) ≤ MAX_MESSAGE }
    ensures ok { OnOk result (out.new.items ≡ out.old.items ++ new_text payload.now) }
    ensures memory { IfErr result (λ e. e ≡ Code.Memory) }
{
    match payload {
        NewPayload::Datum(key, value) => {
            put_key(out, key)?;
            out.extend_from_slice(&(value.octets() as u32).to_le_bytes())?;
            value.put(out)
        }
        NewPayload::KeyForm(key) => put_key(out, key),
        NewPayload::Own(own) => {
            own.put(out)?;
            put_zeros(out, zeros_after(own.octets()))
        }
        NewPayload::ParameterList(key) => put_list(out, key),
    }
}
