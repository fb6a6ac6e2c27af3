//! 256 bits in words.
//!
//! RTPS 2.5, 9.4.2 (SequenceNumberSet). `docs/DECISIONS.md`, "Sets, windows and the grammar".

ghost use Rattle.std.specs.Prelude.{◌≡◌, ◌≤◌, ◌<◌, ◌+◌, ◌*◌, ◌%◌, ◌==◌, ◌&&◌, ◌||◌, ℕ, false, not, true, nat_lt, length, replicate, slice_index_or, slice_set};
ghost use Rattle.std.specs.Int.{bit_at};
ghost use Rattle.rtps_sets.specs.Bits.{is_free, AreWords, IsSpan};
ghost use Rattle.rtps_sets.specs.Mirror.{wire_flag};
ghost use Rattle.rtps_sets.specs.NumberSet.{span};

use crate::mirror::{mirrored, pair_at};
use std::marker::Model;

/// 256 bits. They take no memory.
#[derive(Clone, Copy, Debug)]
pub struct Bits {
    words: [u64; 4],
}

impl Model for Bits {
    ghost use Rattle.std.specs.Prelude.{Bool, List};
    ghost use Rattle.rtps_sets.specs.Bits.{bits_of, words_of, AreWords};
    ghost use Rattle.rtps_sets.specs.BitLaws.{words_back};

    ghost Value = { List Bool };

    ghost view = { λ b. bits_of b.words };

    ghost invariant = { λ b. AreWords b.words };

    ghost inverse = { λ bits. record { words = words_of bits } };

    ghost inverse_ok = { λ b are i. record { words = words_back b.words are i } };
}

impl Bits {
    /// No bit is set.
    pub fn none() -> Bits
        ensures { result ≡ replicate 256 false }
    {
        Bits { words: [0; 4] }
    }

    /// Whether the bit of a place is set.
    pub fn has(&self, place: usize) -> bool
        requires { place < 256 }
        ensures has { result ≡ slice_index_or self.now place false }
        ensures count { length self.now ≡ 256 }
    {
        (self.words[place / 64] >> (place % 64)) & 1 == 1
    }

    /// The bits below a count that words of 32 have, the first place of each at its highest bit.
    pub fn from_words(count: usize, words: &[u32]) -> Bits
        ensures each { (k : ℕ) → k < 256 → slice_index_or result k false
            ≡ (nat_lt k count && wire_flag words.now k) }
        ensures count { length result ≡ 256 }
    {
        let mut made = [0; 4];
        for at in 0..4 {
            let left = count.saturating_sub(64 * at);
            made[at] = mirrored(pair_at(words, at)) & low_bits(left);
        }
        Bits { words: made }
    }

    /// The same bits in words of 32, the first place of each at its highest bit.
    pub fn to_words(&self) -> [u32; 8]
        ensures { (k : ℕ) → k < 256 → wire_flag result k ≡ slice_index_or self.now k false }
    {
        let mut words = [0; 8];
        for at in 0..4 {
            let pair = mirrored(self.words[at]);
            words[2 * at] = (pair & 0xffff_ffff) as u32;
            words[2 * at + 1] = (pair >> 32) as u32;
        }
        words
    }

    /// Sets the bit of a place.
    pub fn insert(&mut self, place: usize)
        requires { place < 256 }
        ensures bits { self.new ≡ slice_set self.old place true }
        ensures each { (k : ℕ) → slice_index_or self.new k false
            ≡ (slice_index_or self.old k false || k == place) }
    {
        self.words[place / 64] |= 1 << (place % 64);
    }

    /// Clears the bit of a place.
    pub fn remove(&mut self, place: usize)
        requires { place < 256 }
        ensures each { (k : ℕ) → slice_index_or self.new k false
            ≡ (slice_index_or self.old k false && not (k == place)) }
    {
        self.words[place / 64] &= !(1 << (place % 64));
    }

    /// The 64 bits from a place on; after the last place comes the first.
    fn word_from(&self, place: usize) -> u64
        requires { place < 256 }
        ensures { (i : ℕ) → i < 64 → (bit_at result i == 1)
            ≡ slice_index_or self.now ((place + i) % 256) false }
    {
        let low = self.words[place / 64] >> (place % 64);
        if place % 64 == 0 {
            return low;
        }
        low | self.words[(place / 64 + 1) % 4] << (64 - place % 64)
    }

    /// The bits from a place on that neither of two rings has, as many as are asked for.
    pub fn free(held: &Bits, irrelevant: &Bits, place: usize, count: usize) -> Bits
        requires { place < 256 }
        ensures each { (k : ℕ) → k < 256 → slice_index_or result k false
            ≡ is_free held.now irrelevant.now place count k }
        ensures count { length result ≡ 256 }
    {
        let mut words = [0; 4];
        for at in 0..4 {
            let from = (place + 64 * at) % 256;
            words[at] = free_word(held, irrelevant, from, count.saturating_sub(64 * at));
        }
        Bits { words }
    }

    /// The bits of one word that stand below a place.
    fn word_below(&self, at: usize, end: usize) -> u64
        requires { at < 4 }
        ensures { (i : ℕ) → i < 64 → (bit_at result i == 1)
            ≡ (nat_lt (64 * at + i) end && slice_index_or self.now (64 * at + i) false) }
    {
        self.words[at] & low_bits(end.saturating_sub(64 * at))
    }

    /// The bits that stand below a place.
    pub fn below(&self, end: usize) -> Bits
        ensures each { (k : ℕ) → k < 256 → slice_index_or result k false
            ≡ (nat_lt k end && slice_index_or self.now k false) }
    {
        let mut words = [0; 4];
        for at in 0..4 {
            words[at] = self.word_below(at, end);
        }
        Bits { words }
    }

    /// One more than the last place whose bit is set, or 0.
    pub fn span(&self) -> usize
        ensures span { result ≡ span self.now }
        ensures within { result ≤ 256 }
    {
        span_of(&self.words)
    }
}

/// A word whose lowest bits are set: so many, and all where there are fewer.
fn low_bits(count: usize) -> u64
    ensures { (i : ℕ) → i < 64 → (bit_at result i == 1) ≡ nat_lt i count }
{
    if count < 64 {
        (1 << count) - 1
    } else {
        u64::MAX
    }
}

/// The 64 bits from a place on that neither of two rings has, as many as are asked for.
fn free_word(held: &Bits, irrelevant: &Bits, place: usize, count: usize) -> u64
    requires { place < 256 }
    ensures { (i : ℕ) → i < 64 → (bit_at result i == 1)
        ≡ is_free held.now irrelevant.now place count i }
{
    !(held.word_from(place) | irrelevant.word_from(place)) & low_bits(count)
}

/// One more than the last place whose bit is set in these words, or 0.
fn span_of(words: &[u64]) -> usize
    requires { AreWords words.now }
    ensures { IsSpan words.now 256 result }
{
    let mut bits = 0;
    for (at, word) in words.iter().enumerate() {
        if *word != 0 {
            bits = 64 * (at + 1) - word.leading_zeros() as usize;
        }
    }
    bits
}
