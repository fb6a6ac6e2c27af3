//! Sets of sequence numbers in bytes.
//!
//! `specs/Sets.antt` draws them.
//!
//! RTPS 2.5, 9.4.2 (SequenceNumberSet).

ghost use Rattle.std.specs.Prelude.{◌≡◌, ◌≤◌, ◌+◌, ◌*◌, ◌++◌, ℕ, length, take, drop, IfSome, OnOk, IfErr, IsTrue, ◌↔◌};
ghost use Rattle.std.specs.Option.{option_map};
ghost use Rattle.std.specs.List.{flat_map};
ghost use Rattle.std.specs.Int.{w32};
ghost use Rattle.dds_base.specs.Bounds.{max_sn};
ghost use Rattle.dds_base.specs.FieldPairs.{mapped};
ghost use Rattle.dds_base.specs.Fields.{number_of};
ghost use Rattle.dds_base.specs.declared.endianness.Endianness.TheVariants.{Little};
ghost use Rattle.rtps_wire.specs.Names.{max_bits};
ghost use Rattle.rtps_wire.specs.Sets.{acknack_base, words_for, set_of, set_text, words_of, text_of_set, IsSet};
ghost use Rattle.rtps_wire.specs.SetAt.{words_at, set_after, set_at, acknack_set_at};

use crate::field::{MAX_SN, take_sn};
use crate::names::{
    HALF_RANGE, LEN_SET_HEAD, LEN_WORD, MAX_SET, MAX_SET_WORDS, MAX_WORDS, SET_HEAD_WORDS,
};
use arrayvec::ArrayVec;
use dds_base::{Code, Endianness, Sn, take_u32};
use rtps_sets::{MAX_BITS, SnSet};

/// The word that stands at a place, in this order.
fn word_at(order: Endianness, bytes: &[u8], place: usize) -> u32
    requires { place + LEN_WORD ≤ length bytes.now }
    ensures { result ≡ number_of order w32 (take LEN_WORD (drop place bytes.now)) }
{
    let octets = [
        bytes[place],
        bytes[place + 1],
        bytes[place + 2],
        bytes[place + 3],
    ];
    match order {
        Endianness::Big => u32::from_be_bytes(octets),
        Endianness::Little => u32::from_le_bytes(octets),
    }
}

/// As many words as are asked for, and the bytes after them. `None` where there are fewer.
fn take_words(
    order: Endianness,
    count: usize,
    bytes: &[u8],
) -> Option<(ArrayVec<u32, MAX_WORDS>, &[u8])>
    requires { count ≤ MAX_WORDS }
    ensures value { option_map (λ x. (x.0.items, x.1.now)) result ≡ words_at order count bytes.now }
    ensures len { IfSome result (λ x. length x.0.items ≡ count) }
{
    let len = LEN_WORD * count;
    if bytes.len() < len {
        return None;
    }
    let mut words = ArrayVec::new();
    for at in 0..count {
        words.push(word_at(order, bytes, LEN_WORD * at));
    }
    Some((words, &bytes[len..]))
}

/// How many words these bits take: one for each 32 begun.
fn words_for(bits: usize) -> usize
    requires { bits ≤ max_bits }
    ensures { result ≡ words_for bits }
{
    (bits + 31) / 32
}

/// The set whose members the bits name.
fn set_from(base: u64, count: usize, words: &[u32]) -> SnSet
    requires base { base ≤ max_sn }
    requires count { count ≤ max_bits }
    requires words { length words.now ≡ words_for count }
    ensures { result ≡ set_of (record { base = base; num_bits = count; words = words.now }) }
{
    SnSet::from_words(Sn::new(base), count, words)
}

/// The set of this base and so many bits, whose words are at the front, and the bytes after them. `None` where there is
/// no valid one.
#[tactic(auto, unfolding(crate::specs::SetAt::set_after))]
fn set_after(order: Endianness, base: u64, count: u32, bytes: &[u8]) -> Option<(SnSet, &[u8])>
    requires { base ≤ max_sn }
    ensures { option_map (λ x. (x.0, x.1.now)) result ≡ mapped set_of (set_after order base count) bytes.now }
{
    let count = count as usize;
    if base < 1 || MAX_BITS < count {
        return None;
    }
    let (words, rest) = take_words(order, words_for(count), bytes)?;
    Some((set_from(base, count, words.as_slice()), rest))
}

/// The set at the front, and the bytes after it. `None` where there is no valid one.
#[tactic(auto, unfolding(crate::specs::SetAt::set_field_at, crate::specs::SetAt::set_at))]
pub fn take_set(order: Endianness, bytes: &[u8]) -> Option<(SnSet, &[u8])>
    ensures { option_map (λ x. (x.0, x.1.now)) result ≡ set_at order bytes.now }
{
    let (base, rest) = take_sn(order, bytes)?;
    let (count, rest) = take_u32(order, rest)?;
    set_after(order, base, count, rest)
}

/// The base of the set of an ACKNACK that has this base and so many bits in bytes: 0 stands for 1 where there are no
/// bits.
fn acknack_base(base: u64, count: u32) -> u64
    ensures { result ≡ acknack_base base count }
{
    if base == 0 && count == 0 { 1 } else { base }
}

/// The set of an ACKNACK at the front, and the bytes after it. `None` where there is no valid one, nor an empty one of
/// base 0.
#[tactic(auto, unfolding(crate::specs::SetAt::acknack_field_at, crate::specs::SetAt::acknack_set_at))]
pub fn take_acknack_set(order: Endianness, bytes: &[u8]) -> Option<(SnSet, &[u8])>
    ensures { option_map (λ x. (x.0, x.1.now)) result ≡ acknack_set_at order bytes.now }
{
    let (base, rest) = take_sn(order, bytes)?;
    let (count, rest) = take_u32(order, rest)?;
    set_after(order, acknack_base(base, count), count, rest)
}

/// The octets of a set with so many bits, word by word: its base, their number, and the words of all its places.
fn octets_of(set: &SnSet, bits: usize) -> [[u8; LEN_WORD]; MAX_SET_WORDS]
    requires { bits ≤ MAX_BITS }
    ensures { (n : ℕ) → n ≤ MAX_WORDS → take (LEN_SET_HEAD + LEN_WORD * n) (flat_map (λ x. x) result)
        ≡ set_text Little (record {
          base = set.now.base;
          num_bits = bits;
          words = words_of n set.now.members;
        }) }
{
    let base = set.base().number();
    let words = set.words();
    let mut octets = [[0; LEN_WORD]; MAX_SET_WORDS];
    octets[0] = ((base / HALF_RANGE) as u32).to_le_bytes();
    octets[1] = ((base % HALF_RANGE) as u32).to_le_bytes();
    octets[2] = (bits as u32).to_le_bytes();
    for at in 0..MAX_WORDS {
        octets[SET_HEAD_WORDS + at] = words[at].to_le_bytes();
    }
    octets
}

/// Appends the written form of a set: the least number of bits, those past it zero.
pub fn put_set(out: &mut Vec<u8>, set: &SnSet) -> Result<(), Code>
    requires { IsSet set.now }
    ensures ok { OnOk result (out.new.items ≡ out.old.items ++ text_of_set set.now) }
    ensures memory { IfErr result (λ e. e ≡ Code.Memory) }
{
    let bits = set.bits();
    let octets = octets_of(set, bits);
    let len = LEN_SET_HEAD + LEN_WORD * words_for(bits);
    out.extend_from_slice(&octets.as_flattened()[..len])?;
    Ok(())
}

/// Whether a set has a written form.
pub fn is_set(set: &SnSet) -> bool
    ensures { IsTrue result ↔ IsSet set.now }
{
    let base = set.base().number();
    1 <= base && base <= MAX_SN
}

/// How many octets a set takes.
pub fn set_len(set: &SnSet) -> usize
    ensures len { result ≡ length (text_of_set set.now) }
    ensures small { result ≤ MAX_SET }
{
    LEN_SET_HEAD + LEN_WORD * words_for(set.bits())
}
