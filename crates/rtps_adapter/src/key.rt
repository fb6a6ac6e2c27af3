//! The key of a value of another type.
//!
//! RTPS 2.5, 9.6.4.8 (KeyHash); XTypes 1.3, 7.4 (alignment).

ghost use Rattle.std.specs.Prelude.{◌≡◌, ◌≤◌, ◌<◌, ◌+◌, ◌-◌, ◌%◌, ◌^◌, ◌++◌, ℕ, List, [], ◌∷◌, length, take, replicate, Some, None, IfSome, IfNone};
ghost use Rattle.std.specs.Option.{option_map};
ghost use Rattle.rtps_adapter.specs.KeyOctets.{AreSoFar, Continues};
ghost use Rattle.rtps_adapter.specs.Keys.{size_of, alignment_of, aligned_to, in_big_endian, number_in, place_of, fields_in, key_of_octets, order_in, representation_of, key_by_fields, own_octets};

use crate::kinds::{Encoding, FieldSize, KeyField};
use dds_base::{Endianness, Key, take_octets};
use md5::{Digest, Md5};

/// A key of at most so many octets stands as it is.
const MOST_AS_THEY_STAND: u128 = 16;

/// The octets of key fields, while they are put together.
#[derive(Drop)]
pub struct KeyOctets {
    /// How many there are.
    len: u128,
    /// The first sixteen, and zeros where there are fewer.
    first: [u8; 16],
    /// Has taken all of them in.
    hasher: Md5,
}

/// How many octets a field takes.
fn size_of(size: FieldSize) -> usize
    ensures { result ≡ size_of size }
{
    match size {
        FieldSize::One => 1,
        FieldSize::Two => 2,
        FieldSize::Four => 4,
        FieldSize::Eight => 8,
    }
}

/// A field begins at a multiple of so many octets.
fn alignment_of(encoding: Encoding, size: FieldSize) -> usize
    ensures { result ≡ alignment_of encoding size }
{
    match (encoding, size) {
        (Encoding::Cdr2, FieldSize::Eight) => 4,
        (_, size) => size_of(size),
    }
}

/// Puts octets behind the first so many of sixteen, as far as there is room.
fn put_first(first: &mut [u8; 16], len: u128, octets: &[u8])
    ensures { (so_far : List ℕ) → len ≡ length so_far
        → first.old ≡ take 16 (so_far ++ replicate 16 0)
        → first.new ≡ take 16 ((so_far ++ octets.now) ++ replicate 16 0) }
{
    if 16 <= len {
        return;
    }
    let len = len as usize;
    let count = octets.len().min(16 - len);
    first[len..len + count].copy_from_slice(&octets[..count]);
}

/// So many octets of a body behind so many others. `None` where it ends before.
#[tactic(auto, unfolding(crate::specs::Keys::number_in))]
fn number_of(place: u128, size: usize, body: &[u8]) -> Option<&[u8]>
    ensures value { (order : Endianness)
        → option_map (λ x. in_big_endian order x.now) result
        ≡ number_in order place size body.now }
    ensures len { IfSome result (λ x. length x.now ≡ size) }
{
    if (body.len() as u128) < place {
        return None;
    }
    let (_, from) = take_octets(body, place as usize)?;
    let (number, _) = take_octets(from, size)?;
    Some(number)
}

impl KeyOctets {
    /// None.
    fn new() -> KeyOctets
        ensures { AreSoFar result [] }
    {
        KeyOctets {
            len: 0,
            first: [0; 16],
            hasher: Md5::new(),
        }
    }

    /// Puts octets behind those so far.
    fn put(&mut self, octets: &[u8])
        requires few { length octets.now ≤ 8 }
        requires room { self.old.len ≤ 2 ^ 127 }
        ensures put { (so_far : List ℕ) → AreSoFar self.old so_far
            → AreSoFar self.new (so_far ++ octets.now) }
        ensures len { self.new.len ≡ self.old.len + length octets.now }
    {
        self.hasher.update(octets);
        put_first(&mut self.first, self.len, octets);
        self.len += octets.len() as u128;
    }

    /// Puts zeros behind them, up to a multiple of so many octets.
    fn align(&mut self, alignment: usize)
        requires positive { 0 < alignment }
        requires few { alignment ≤ 8 }
        requires room { self.old.len ≤ 2 ^ 127 }
        ensures put { (so_far : List ℕ) → AreSoFar self.old so_far
            → AreSoFar self.new (aligned_to alignment so_far) }
        ensures len { self.new.len < self.old.len + 8 }
    {
        let past = (self.len % alignment as u128) as usize;
        let count = (alignment - past) % alignment;
        let zeros = [0; 8];
        self.put(&zeros[..count]);
    }

    /// Puts a number behind them, in big-endian order.
    fn put_number(&mut self, order: Endianness, octets: &[u8])
        requires few { length octets.now ≤ 8 }
        requires room { self.old.len ≤ 2 ^ 127 }
        ensures put { (so_far : List ℕ) → AreSoFar self.old so_far
            → AreSoFar self.new (so_far ++ in_big_endian order octets.now) }
        ensures len { self.new.len ≡ self.old.len + length octets.now }
    {
        match order {
            Endianness::Big => self.put(octets),
            Endianness::Little => {
                let mut turned = [0; 8];
                let turned = &mut turned[..octets.len()];
                turned.copy_from_slice(octets);
                turned.reverse();
                self.put(turned);
            }
        }
    }

    /// Where a field stands: in a value at its place, and in a payload that says a key alone right behind them.
    fn place_of(&self, is_key: bool, field: &KeyField) -> u128
        ensures { (so_far : List ℕ) → AreSoFar self.now so_far
            → result ≡ place_of is_key field.now so_far }
    {
        if is_key {
            self.len
        } else {
            field.place as u128
        }
    }

    /// Puts a key field of a body behind them, aligned. Returns whether the body has it.
    fn put_field(
        &mut self,
        is_key: bool,
        encoding: Encoding,
        order: Endianness,
        body: &[u8],
        field: &KeyField,
    ) -> bool
        requires room { self.old.len ≤ 2 ^ 126 }
        ensures put { (so_far : List ℕ) → AreSoFar self.old so_far
            → Continues is_key encoding order body.now field.now so_far self.new result }
        ensures len { self.new.len ≤ self.old.len + 15 }
    {
        self.align(alignment_of(encoding, field.size));
        let place = self.place_of(is_key, field);
        match number_of(place, size_of(field.size), body) {
            Some(number) => {
                self.put_number(order, number);
                true
            }
            None => false,
        }
    }

    /// The key of them.
    fn key(self) -> Key
        ensures { (so_far : List ℕ) → AreSoFar self so_far → result ≡ key_of_octets so_far }
    {
        let KeyOctets { len, first, hasher } = self;
        if MOST_AS_THEY_STAND < len {
            return Key(hasher.finalize());
        }
        Key(first)
    }
}

/// The key fields of a body. `None` where it ends before one does.
fn fields_of(
    is_key: bool,
    encoding: Encoding,
    order: Endianness,
    body: &[u8],
    fields: &[KeyField],
) -> Option<KeyOctets>
    ensures some { IfSome result (λ k. (octets : List ℕ)
        × (fields_in is_key encoding order body.now [] fields.now ≡ Some octets)
        × AreSoFar k octets) }
    ensures none { IfNone result
        (fields_in is_key encoding order body.now [] fields.now ≡ None) }
{
    let mut octets = KeyOctets::new();
    for field in fields {
        if !octets.put_field(is_key, encoding, order, body, field) {
            return None;
        }
    }
    Some(octets)
}

/// The second octet of an encoding's big-endian representation.
pub fn representation_of(encoding: Encoding) -> u8
    ensures { result ≡ representation_of encoding }
{
    match encoding {
        Encoding::Cdr => 0,
        Encoding::Cdr2 => 6,
    }
}

/// The order of octets that a representation names. `None` where it is none of the encoding.
fn order_of(encoding: Encoding, first: u8, second: u8) -> Option<Endianness>
    ensures { result ≡ order_in encoding first second }
{
    match (encoding, first, second) {
        (Encoding::Cdr, 0, 0) => Some(Endianness::Big),
        (Encoding::Cdr, 0, 1) => Some(Endianness::Little),
        (Encoding::Cdr2, 0, 6) => Some(Endianness::Big),
        (Encoding::Cdr2, 0, 7) => Some(Endianness::Little),
        _ => None,
    }
}

/// The key of a value of this representation and body, or of what says a key alone. `None` where the representation is
/// another, or the body ends before a field does.
#[tactic(auto, unfolding(crate::specs::Keys::key_by_fields))]
pub fn key_by_fields(
    is_key: bool,
    encoding: Encoding,
    fields: &[KeyField],
    representation: (u8, u8),
    body: &[u8],
) -> Option<Key>
    ensures { (c d : ℕ) → result ≡ key_by_fields is_key encoding fields.now
        (representation.0 ∷ representation.1 ∷ c ∷ d ∷ body.now) }
{
    let order = order_of(encoding, representation.0, representation.1)?;
    let octets = fields_of(is_key, encoding, order, body, fields)?;
    Some(octets.key())
}

/// How many octets the key fields of a key take, where it is the key of these. `None` where it is not, as an MD5 is not
/// the key of its own octets.
#[tactic(auto, unfolding(crate::specs::Keys::own_octets))]
pub fn own_len(encoding: Encoding, fields: &[KeyField], key: &Key) -> Option<usize>
    ensures own { option_map (λ n. take n key.now.0) result
        ≡ own_octets encoding fields.now key.now }
    ensures few { IfSome result (λ n. n ≤ 16) }
{
    // This shows the prover how many octets there are.
    let _octets = key.as_slice();
    let octets = fields_of(true, encoding, Endianness::Big, &key.0, fields)?;
    let len = octets.len;
    if octets.key() != *key {
        return None;
    }
    Some(len as usize)
}
