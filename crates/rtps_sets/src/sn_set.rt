//! A set of sequence numbers from its base on.
//!
//! RTPS 2.5, 8.3.5.5 (SequenceNumberSet).

ghost use Rattle.std.specs.Prelude.{◌≡◌, ◌≤◌, ◌<◌, ◌+◌, ◌-◌, ◌/◌, ◌%◌, ◌==◌, ◌&&◌, ◌||◌, ℕ, false, true, nat_lt, IsTrue, length, slice_index_or, slice_set};
ghost use Rattle.std.specs.Int.{bit_at};
ghost use Rattle.rtps_sets.specs.NumberSet.{empty_from, has_number, span};

use crate::bits::Bits;
use crate::window::WIDTH;
use dds_base::Sn;
use std::marker::Model;

/// How many numbers, from its base on, a set can have.
///
/// RTPS 2.5, 8.3.5.5: the members of a SequenceNumberSet lie within 256 numbers.
pub const MAX_BITS: usize = WIDTH as usize;

/// A set of numbers, each from the base to the base plus 255. It takes no memory.
///
/// RTPS 2.5, 8.3.5.5 (SequenceNumberSet).
#[derive(Clone, Copy, Debug)]
pub struct SnSet {
    base: u64,
    members: Bits,
}

impl Model for SnSet {
    ghost use Rattle.std.specs.Prelude.{◌≡◌, length};
    ghost use Rattle.rtps_sets.specs.NumberSet.{NumberSet};

    ghost Value = { NumberSet };

    ghost view = { λ s. record { base = s.base; members = s.members } };

    ghost invariant = { λ s. length s.members ≡ 256 };

    ghost inverse = { λ s. record { base = s.base; members = s.members } };
}

impl SnSet {
    /// The empty set from a base on.
    pub fn new(base: Sn) -> SnSet
        // It is the empty set from this base.
        ensures empty { result ≡ empty_from base }
        // It has no member.
        ensures none { (n : ℕ) → has_number result n ≡ false }
    {
        SnSet {
            base: base.number(),
            members: Bits::none(),
        }
    }

    /// The set with these members from a base on.
    pub(crate) fn with_members(base: Sn, members: Bits) -> SnSet
        requires { length members ≡ 256 }
        ensures base { result.base ≡ base }
        ensures members { result.members ≡ members }
    {
        SnSet {
            base: base.number(),
            members,
        }
    }

    /// The set from a base on whose members words of 32 places name: place `k` stands at the bit of worth
    /// `2^(31 - k % 32)` of word `k / 32`. Places from `count` on are not members, whatever the words have there, nor are
    /// places past the words.
    ///
    /// RTPS 2.5, 9.4.2 (SequenceNumberSet: numBits, bitmap).
    pub fn from_words(base: Sn, count: usize, words: &[u32]) -> SnSet
        // The number from which on members lie.
        ensures base { result.base ≡ base }
        // A place is a member where it is below the count and the words have its bit.
        ensures members { (place : ℕ) → place < 256 → slice_index_or result.members place false
            ≡ (nat_lt place count
            && bit_at (slice_index_or words.now (place / 32) 0) (31 - place % 32) == 1) }
        // There are 256 places.
        ensures places { length result.members ≡ 256 }
    {
        SnSet::with_members(base, Bits::from_words(count, words))
    }

    /// All 256 places in words of 32: place `k` stands at the bit of worth `2^(31 - k % 32)` of word `k / 32`.
    ///
    /// RTPS 2.5, 9.4.2 (SequenceNumberSet: bitmap).
    pub fn words(&self) -> [u32; 8]
        // The words have the bit of a place where it is a member.
        ensures members { (place : ℕ) → place < 256
            → (bit_at (slice_index_or result (place / 32) 0) (31 - place % 32) == 1)
            ≡ slice_index_or self.now.members place false }
    {
        self.members.to_words()
    }

    /// The number from which on the members lie.
    pub fn base(&self) -> Sn
        // The number from which on members lie.
        ensures base { result ≡ self.now.base }
        // There are 256 places.
        ensures places { length self.now.members ≡ 256 }
    {
        Sn::new(self.base)
    }

    /// Makes a number a member, whether or not it is one. It must be one of the 256 from the base on.
    pub fn insert(&mut self, number: Sn)
        // The number is not below the base.
        requires from { self.old.base ≤ number }
        // It is one of the 256 from the base on.
        requires to { number < self.old.base + 256 }
        // The base stays.
        ensures base { self.new.base ≡ self.old.base }
        // The number is a member, and each other one is if it was.
        ensures member { (n : ℕ) → has_number self.new n ≡ (has_number self.old n || n == number) }
        // Its flag is set.
        ensures members { self.new.members
            ≡ slice_set self.old.members (number - self.old.base) true }
    {
        self.members.insert((number.number() - self.base) as usize);
    }

    /// Whether a number is a member. Every number may be asked for.
    pub fn has(&self, number: Sn) -> bool
        ensures has { result ≡ has_number self.now number }
    {
        let number = number.number();
        if number < self.base {
            return false;
        }
        let place = number - self.base;
        place < 256 && self.members.has(place as usize)
    }

    /// The greatest member minus the base plus 1, and 0 for the empty set: from 0 to 256.
    ///
    /// RTPS 2.5, 9.4.2.6 (numBits): the least that names each member.
    pub fn bits(&self) -> usize
        // One more than the last place with a member.
        ensures bits { result ≡ span self.now.members }
        // At most 256.
        ensures within { result ≤ 256 }
        // The last of these bits is a member.
        ensures last { 0 < result → IsTrue (has_number self.now (self.now.base + result - 1)) }
        // No number past them is.
        ensures past { (n : ℕ) → self.now.base + result ≤ n → has_number self.now n ≡ false }
    {
        self.members.span()
    }

    /// The same of the members less than `place` above the base: the greatest of them minus the base plus 1, and 0 where
    /// there is none. From one of these to the next it goes over all members, the greatest first.
    pub fn bits_below(&self, place: usize) -> usize
        // There are 256 places.
        requires place { place ≤ 256 }
        // It is not past the place.
        ensures within { result ≤ place }
        // The last of these bits is a member.
        ensures last { 0 < result → IsTrue (has_number self.now (self.now.base + result - 1)) }
        // No number past them is, up to the place.
        ensures past { (n : ℕ) → self.now.base + result ≤ n → n < self.now.base + place
            → has_number self.now n ≡ false }
    {
        self.members.below(place).span()
    }
}

/// The members of every set lie within `MAX_BITS` numbers from its base on.
///
/// A law of the constant: the function does nothing.
pub fn max_bits_is_the_width()
    // It is 256.
    ensures width { MAX_BITS ≡ 256 }
    // A set has so many places from its base on.
    ensures from { (base : ℕ) → length (empty_from base).members ≡ MAX_BITS }
{}
