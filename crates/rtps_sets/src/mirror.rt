//! The bits of words in the other order: a set has the first place of each 32 at the highest bit of a word.
//!
//! RTPS 2.5, 9.4.2 (SequenceNumberSet).

ghost use Rattle.std.specs.Prelude.{◌≡◌, ◌<◌, ◌+◌, ◌*◌, ◌/◌, ◌%◌, ◌^◌, ℕ, IsTrue, slice_index_or};
ghost use Rattle.std.specs.Int.{bit_at};
ghost use Rattle.rtps_sets.specs.Mirror.{mirror, neighbour, are_paired};

/// Each bit that the mask has changes places with the one so far above it.
fn swapped(word: u64, by: usize, mask: u64) -> u64
    requires near { by < 64 }
    requires pairs { IsTrue (are_paired by mask) }
    ensures { (i : ℕ) → i < 64 → bit_at result i ≡ bit_at word (neighbour by mask i) }
{
    (word >> by) & mask | (word & mask) << by
}

/// The lower 32 bits in the other order, and so the upper ones. A word without any bit costs nothing.
pub fn mirrored(word: u64) -> u64
    ensures { (i : ℕ) → i < 64 → bit_at result i ≡ bit_at word (mirror i) }
{
    if word == 0 {
        return 0;
    }
    let ones = swapped(word, 1, 0x5555_5555_5555_5555);
    let twos = swapped(ones, 2, 0x3333_3333_3333_3333);
    let fours = swapped(twos, 4, 0x0f0f_0f0f_0f0f_0f0f);
    let eights = swapped(fours, 8, 0x00ff_00ff_00ff_00ff);
    swapped(eights, 16, 0x0000_ffff_0000_ffff)
}

/// A word of 32 bits, and 0 where there is none.
fn word_at(words: &[u32], at: usize) -> u64
    ensures value { result ≡ slice_index_or words.now at 0 }
    ensures small { result < 2 ^ 32 }
{
    match words.get(at) {
        Some(word) => u64::from(*word),
        None => 0,
    }
}

/// The words `2 * at` and `2 * at + 1` of 32 bits in one, the first of them below.
pub fn pair_at(words: &[u32], at: usize) -> u64
    requires { at < 4 }
    ensures { (i : ℕ) → i < 64 → bit_at result i
        ≡ bit_at (slice_index_or words.now (2 * at + i / 32) 0) (i % 32) }
{
    word_at(words, 2 * at) | word_at(words, 2 * at + 1) << 32
}
