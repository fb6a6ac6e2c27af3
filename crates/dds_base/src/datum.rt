//! A key with a value, and their bytes.
//!
//! RTPS 2.5, clause 10 (SerializedPayload: a representation identifier, two option octets, the data).
//! `docs/WIRE.md`, "The datum".

ghost use Rattle.std.specs.Prelude.{◌≡◌, ◌≢◌, ◌≤◌, ℕ, List, [], length, IfOk, IfErr, IfSome, MatchResult, Some};
ghost use Rattle.dds_base.specs.DatumText.{ReadsDatum, ReadsKey, spelling_of_datum, spelling_of_key};
ghost use Rattle.dds_base.specs.DatumAt.{datum_at, key_at, key_form_at, representation_at};
ghost use Rattle.std.specs.Option.{option_map};
ghost use Rattle.dds_base.specs.declared.datum.Datum.{Datum};
ghost use Rattle.dds_base.specs.declared.key.Key.{Key};

use crate::code::Code;
use crate::endianness::Endianness;
use crate::field::{take_octets, take_u32};
use crate::key::Key;
use crate::octets::Octets;
use std::alloc::Global;
use std::marker::Model;

/// The longest value, in octets.
pub const MAX_VALUE: usize = 65_000;

/// A sample of the topic type: the key of its instance, and a value.
#[derive(Debug, Drop)]
pub struct Datum {
    /// The instance.
    pub key: Key,
    /// At most `MAX_VALUE` octets, where it has a written form.
    pub value: Octets,
}

/// A datum whose value is lent: by the bytes in which it was read, or by whoever keeps it. Contracts see the datum.
#[derive(Debug, Drop)]
pub struct DatumRef<'a> {
    key: Key,
    value: &'a [u8],
}

impl<'a> Model for DatumRef<'a> {
    ghost use Rattle.dds_base.specs.declared.datum.Datum.{Datum};

    ghost Value = { Datum };

    ghost view = { λ d. record { key = d.key; value = d.value.now } };
}

impl<'a> DatumRef<'a> {
    /// The datum of this key and this value. Takes no memory.
    pub fn new(key: Key, value: &'a [u8]) -> DatumRef<'a>
        ensures datum { result ≡ record { key = key; value = value.now } }
    {
        DatumRef { key, value }
    }

    /// The key of its instance.
    pub fn key(&self) -> Key
        ensures key { result ≡ self.now.key }
    {
        self.key
    }

    /// The value, as it is lent.
    pub fn value(&self) -> &[u8]
        ensures value { result.now ≡ self.now.value }
    {
        self.value
    }
}

/// The representation and its two option octets.
#[tactic(auto, unfolding(crate::specs::DatumAt::representation_at))]
fn take_representation(bytes: &[u8]) -> Option<(Endianness, &[u8])>
    ensures { option_map (λ x. (x.0, x.1.now)) result ≡ representation_at bytes.now }
{
    match bytes {
        [0, 0, _, _, rest @ ..] => Some((Endianness::Big, rest)),
        [0, 1, _, _, rest @ ..] => Some((Endianness::Little, rest)),
        _ => None,
    }
}

/// The sixteen octets of a key, and the bytes after them. `None` where there are fewer. Takes no memory.
#[tactic(auto, unfolding(crate::specs::DatumAt::key_at))]
pub fn take_key(bytes: &[u8]) -> Option<(Key, &[u8])>
    ensures key { option_map (λ x. (x.0, x.1.now)) result ≡ key_at bytes.now }
{
    let (octets, rest) = take_octets(bytes, 16)?;
    let mut key = [0; 16];
    key.copy_from_slice(octets);
    Some((Key(key), rest))
}

/// The datum that the bytes begin with.
#[tactic(auto, unfolding(crate::specs::DatumAt::datum_at))]
fn datum_ref_of(bytes: &[u8]) -> Option<DatumRef<'_>>
    ensures { result ≡ datum_at bytes.now }
{
    let (order, rest) = take_representation(bytes)?;
    let (key, rest) = take_key(rest)?;
    let (count, rest) = take_u32(order, rest)?;
    let count = count as usize;
    if MAX_VALUE < count {
        return None;
    }
    let (value, _) = take_octets(rest, count)?;
    Some(DatumRef::new(key, value))
}

fn datum_of(alloc: Global, bytes: &[u8]) -> Result<Option<Datum>, Code>
    ensures exact { MatchResult result (λ read. read ≡ datum_at bytes.now) (λ e. e ≡ Code.Memory) }
    ensures memory { IfErr result
        (λ e. (d : Datum) × (datum_at bytes.now ≡ Some d) × (d.value ≢ [])) }
{
    let Some(datum) = datum_ref_of(bytes) else {
        return Ok(None);
    };
    let value = datum.value();
    let mut octets = Vec::with_capacity(alloc, value.len())?;
    octets.extend_from_slice(value)?;
    Ok(Some(Datum {
        key: datum.key(),
        value: Octets::from_vec(octets),
    }))
}

fn datum_key_of(bytes: &[u8]) -> Option<Key>
    ensures { result ≡ option_map (λ d. d.key) (datum_at bytes.now) }
{
    let datum = datum_ref_of(bytes)?;
    Some(datum.key())
}

#[tactic(auto, unfolding(crate::specs::DatumAt::key_form_at))]
fn key_of(bytes: &[u8]) -> Option<Key>
    ensures { result ≡ key_form_at bytes.now }
{
    let (_, rest) = take_representation(bytes)?;
    let (key, _) = take_key(rest)?;
    Some(key)
}

/// The datum that the bytes begin with, in either order of bytes. `None` where they begin with none.
///
/// The value is copied. What follows the datum is not looked at.
///
/// # Errors
///
/// `Memory` where the bytes begin with a datum and no memory was found for its value.
///
/// RTPS 2.5, clause 10.
pub fn decode_datum(alloc: Global, bytes: &[u8]) -> Result<Option<Datum>, Code>
    // What is read is spelled so.
    ensures found { IfOk result (λ read. IfSome read (λ d. ReadsDatum bytes.now d)) }
    // What is spelled so is read, and nothing else.
    ensures only { (d : Datum) → ReadsDatum bytes.now d → IfOk result (λ read. read ≡ Some d) }
    // Which of the two, in one step.
    ensures exact { MatchResult result (λ read. read ≡ datum_at bytes.now) (λ e. e ≡ Code.Memory) }
    // Memory is taken for the value of a datum alone.
    ensures memory { IfErr result (λ e. (d : Datum) × ReadsDatum bytes.now d × (d.value ≢ [])) }
{
    datum_of(alloc, bytes)
}

/// The datum that the bytes begin with, in either order of bytes; they lend its value. `None` where they begin with
/// none.
///
/// What follows the datum is not looked at. Takes no memory.
///
/// RTPS 2.5, clause 10.
pub fn decode_datum_ref(bytes: &[u8]) -> Option<DatumRef<'_>>
    // What is read is spelled so.
    ensures found { IfSome result (λ d. ReadsDatum bytes.now d) }
    // What is spelled so is read, and nothing else.
    ensures only { (d : Datum) → ReadsDatum bytes.now d → result ≡ Some d }
    // Which of the two, in one step.
    ensures exact { result ≡ datum_at bytes.now }
{
    datum_ref_of(bytes)
}

/// The key of the datum that the bytes begin with. `None` where they begin with none.
///
/// The value has to be there, and is not copied: no memory is taken.
///
/// RTPS 2.5, clause 10.
pub fn decode_datum_key(bytes: &[u8]) -> Option<Key>
    // A key that is found is that of a datum that is spelled so.
    ensures found { IfSome result
        (λ k. (value : List ℕ) × ReadsDatum bytes.now (record { key = k; value = value })) }
    // Where a datum is spelled so its key is found, and no other.
    ensures only { (d : Datum) → ReadsDatum bytes.now d → result ≡ Some d.key }
    // Which of the two, in one step.
    ensures exact { result ≡ option_map (λ d. d.key) (datum_at bytes.now) }
{
    datum_key_of(bytes)
}

/// The one written form of a datum: little-endian, with nothing after it.
///
/// # Conditions
///
/// The value has at most `MAX_VALUE` octets.
///
/// # Errors
///
/// `Memory` where no memory was found for the bytes.
///
/// RTPS 2.5, clause 10.
pub fn encode_datum(alloc: Global, datum: &Datum) -> Result<Vec<u8>, Code>
    // The value is not too long for a written form.
    requires within { length datum.now.value ≤ MAX_VALUE }
    // The bytes are the one spelling of the datum.
    ensures ok { IfOk result (λ bytes. bytes.items ≡ spelling_of_datum datum.now) }
    // The only refusal is for want of memory.
    ensures memory { IfErr result (λ e. e ≡ Code.Memory) }
{
    let mut out = Vec::new(alloc);
    let value = datum.value.as_slice();
    out.extend_from_slice(&[0, 1, 0, 0])?;
    out.extend_from_slice(&datum.key.0)?;
    out.extend_from_slice(&(value.len() as u32).to_le_bytes())?;
    out.extend_from_slice(value)?;
    Ok(out)
}

/// The key of the key form that the bytes begin with. `None` where they begin with none.
///
/// A datum begins with a key form, so its key is found too. Takes no memory.
///
/// RTPS 2.5, clause 10.
pub fn decode_key(bytes: &[u8]) -> Option<Key>
    // A key that is found is spelled so.
    ensures found { IfSome result (λ k. ReadsKey bytes.now k) }
    // A key that is spelled so is found, and no other.
    ensures only { (k : Key) → ReadsKey bytes.now k → result ≡ Some k }
    // Which of the two, in one step.
    ensures exact { result ≡ key_form_at bytes.now }
{
    key_of(bytes)
}

/// The one written form of a key: little-endian, with nothing after it.
///
/// # Errors
///
/// `Memory` where no memory was found for the bytes.
///
/// RTPS 2.5, clause 10.
pub fn encode_key(alloc: Global, key: &Key) -> Result<Vec<u8>, Code>
    // The bytes are the one spelling of the key.
    ensures ok { IfOk result (λ bytes. bytes.items ≡ spelling_of_key key.now) }
    // The only refusal is for want of memory.
    ensures memory { IfErr result (λ e. e ≡ Code.Memory) }
{
    let mut out = Vec::new(alloc);
    out.extend_from_slice(&[0, 1, 0, 0])?;
    out.extend_from_slice(&key.0)?;
    Ok(out)
}
