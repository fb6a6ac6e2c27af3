//! The numbers of one writer that a reader has heard of but not yet passed.
//!
//! RTPS 2.5, 8.4.10 (ChangeFromWriter: status), 8.4.12. `docs/DECISIONS.md`, "Sets, windows and the grammar", says why
//! it is two rings.

ghost use Rattle.std.specs.Prelude.{◌≡◌, ◌≤◌, ◌<◌, ◌+◌, ◌-◌, ◌%◌, ◌&&◌, ◌==◌, ℕ, false, nat_le, nat_lt, is_none, max, Some, None, Ok, IsOk, IsSome, IfOk, IfErr, OnOk, OnErr, if◌then◌else◌};
ghost use Rattle.dds_base.specs.declared.code.Code.TheVariants.{Memory};
ghost use Rattle.rtps_sets.specs.NumberSet.{has_number};
ghost use Rattle.rtps_sets.specs.Window.{window_place, mark_of, room_of, is_in_window, can_mark, in_ring, ring_mark, SameMarks};

use crate::bits::Bits;
use crate::sn_set::SnSet;
use dds_base::{Code, Sn};
use std::alloc::Global;
use std::marker::Model;

/// So many numbers, from the place on, may be marked: as many as a set of missing ones has places for.
///
/// RTPS 2.5, 8.3.5.5: the members of a SequenceNumberSet lie within 256 numbers.
pub const WIDTH: u64 = 256;

/// What is known of a number of the window.
///
/// RTPS 2.5, 8.4.10 (ChangeFromWriter: changes that were received, and changes that a GAP made irrelevant).
#[derive(Clone, Copy, Debug, PartialEq, Eq)]
pub enum Mark {
    /// Its change has come and waits.
    Held,
    /// No change will come.
    Irrelevant,
}

/// The place of a reader in the numbers of one writer, and what is known of the 256 numbers from it on.
///
/// RTPS 2.5, 8.4.10 (WriterProxy: changes_from_writer).
#[derive(Drop)]
pub struct Window {
    place: u64,
    /// Each number has the bit at the number modulo the width.
    held: Bits,
    irrelevant: Bits,
}

impl Model for Window {
    ghost use Rattle.rtps_sets.specs.Window.{Marks};

    ghost Value = { Marks };

    ghost view = { λ w. record { place = w.place; held = w.held; irrelevant = w.irrelevant } };
}

impl Window {
    /// The window of a writer of which nothing was heard: its place is 1.
    pub fn open(alloc: Global) -> Window
        // It begins at 1.
        ensures place { window_place result ≡ 1 }
        // Nothing is known of any number.
        ensures none { (n : ℕ) → mark_of result n ≡ None }
    {
        Window {
            place: 1,
            held: Bits::none(),
            irrelevant: Bits::none(),
        }
    }

    /// The next number: all before it were passed. The window is the 256 numbers from it on.
    pub fn place(&self) -> Sn
        // The number that the window begins with.
        ensures place { result ≡ window_place self.now }
        // Nothing is known of a number outside.
        ensures window { (n : ℕ) → is_in_window (window_place self.now) n ≡ false
            → mark_of self.now n ≡ None }
    {
        Sn::new(self.place)
    }

    /// What is known of a number. Every number may be asked for; nothing is known of one outside the window.
    ///
    /// RTPS 2.5, 8.4.10 (ChangeFromWriter: status).
    pub fn mark_of(&self, number: Sn) -> Option<Mark>
        ensures mark { result ≡ mark_of self.now number }
    {
        let number = number.number();
        if is_in_window(self.place, number) {
            ring_mark(&self.held, &self.irrelevant, number)
        } else {
            None
        }
    }

    /// Makes room for `n` marks, so that the next `n` calls of `mark` can't fail. There is room always: it takes no
    /// memory and never fails.
    pub fn reserve(&mut self, n: usize) -> Result<(), Code>
        // Place and marks stay.
        ensures same { SameMarks self.old self.new }
        // There is room for so many marks.
        ensures ok { OnOk result (n ≤ room_of self.new) }
        // It has no less room than before.
        ensures room { room_of self.old ≤ room_of self.new }
        // Where there was room enough it succeeds.
        ensures succeeds { n ≤ room_of self.old → IsOk result }
        // It is refused for want of memory alone.
        ensures memory { IfErr result (λ code. code ≡ Memory) }
        // It is never refused.
        ensures always { IsOk result }
    {
        Ok(())
    }

    /// Marks a number: false where it is outside the window or was marked before. It takes no memory and never fails.
    pub fn mark(&mut self, number: Sn, mark: Mark) -> Result<bool, Code>
        // The place stays.
        ensures place { window_place self.new ≡ window_place self.old }
        // True exactly for a number of the window that had no mark.
        ensures answer { IfOk result (λ is_new. is_new ≡ can_mark self.old number) }
        // That number has the mark, and all others have theirs.
        ensures marks { IfOk result
            (λ is_new. (n : ℕ) → mark_of self.new n ≡
            (if is_new && (number == n) then Some mark else mark_of self.old n)) }
        // It takes room for one mark at most.
        ensures room { room_of self.old ≤ room_of self.new + 1 }
        // A number that takes no mark changes nothing.
        ensures refused { can_mark self.old number ≡ false → (result ≡ Ok false)
            × (self.new ≡ self.old) }
        // Where there is room it succeeds.
        ensures succeeds { 0 < room_of self.old → IsOk result }
        // It is refused for want of memory alone.
        ensures memory { IfErr result (λ code. code ≡ Memory) }
        // A refusal leaves place and marks as they were.
        ensures err { OnErr result (SameMarks self.old self.new) }
        // It is never refused.
        ensures always { IsOk result }
    {
        if !is_in_window(self.place, number.number()) || self.mark_of(number).is_some() {
            return Ok(false);
        }
        let at = place_in_ring(number.number());
        match mark {
            Mark::Held => self.held.insert(at),
            Mark::Irrelevant => self.irrelevant.insert(at),
        }
        Ok(true)
    }

    /// The numbers of the window up to a bound, itself among them, that are not marked: a set from the place on.
    ///
    /// RTPS 2.5, 8.4.10 (WriterProxy: missing_changes), 8.3.8 (AckNack: readerSNState).
    pub fn missing(&self, bound: Sn) -> SnSet
        // The set begins at the place.
        ensures base { result.base ≡ window_place self.now }
        // It has exactly the numbers of the window up to the bound that have no mark.
        ensures members { (n : ℕ)
            → has_number result n ≡ (is_in_window (window_place self.now) n
            && (nat_le n bound && is_none (mark_of self.now n))) }
    {
        let members = Bits::free(
            &self.held,
            &self.irrelevant,
            place_in_ring(self.place),
            count_up_to(self.place, bound.number()),
        );
        SnSet::with_members(Sn::new(self.place), members)
    }

    /// Moves the place over marked numbers, as far as they go, but not past `to`, which may be any number: where it is
    /// at or below the place nothing moves. It takes no memory.
    pub fn slide(&mut self, to: Sn)
        // The place does not go back.
        ensures forward { window_place self.old ≤ window_place self.new }
        // It goes no further than asked.
        ensures asked { window_place self.new ≤ max (window_place self.old) to }
        // It goes over marked numbers alone.
        ensures over { (n : ℕ) → window_place self.old ≤ n → n < window_place self.new
            → IsSome (mark_of self.old n) }
        // It stops short of where it was asked to go only at a number without a mark.
        ensures stops { window_place self.new < to
            → mark_of self.old (window_place self.new) ≡ None }
        // Marks below the place are forgotten, and all others stay.
        ensures marks { (n : ℕ) → mark_of self.new n ≡
            (if nat_le (window_place self.new) n then mark_of self.old n else None) }
        // It has no less room than before.
        ensures room { room_of self.old ≤ room_of self.new }
    {
        let place = run_end(&self.held, &self.irrelevant, self.place, to.number());
        self.move_to(place);
    }

    /// Moves the place to `to` in one step, over numbers whatever is known of them. It takes no memory, and its cost
    /// goes by the width, not by the numbers.
    ///
    /// RTPS 2.5, 8.4.10 (WriterProxy: lost_changes_update).
    pub fn pass(&mut self, to: Sn)
        // The number is not below the place.
        requires forward { window_place self.old ≤ to }
        // The place is where it was asked to go.
        ensures place { window_place self.new ≡ to }
        // Marks below the place are forgotten, and all others stay.
        ensures marks { (n : ℕ)
            → mark_of self.new n ≡ (if nat_le to n then mark_of self.old n else None) }
        // It has no less room than before.
        ensures room { room_of self.old ≤ room_of self.new }
    {
        self.move_to(to.number());
    }

    /// Moves the place up to a number, and forgets the marks below.
    fn move_to(&mut self, place: u64)
        requires forward { window_place self.old ≤ place }
        ensures place { window_place self.new ≡ place }
        ensures marks { (n : ℕ)
            → mark_of self.new n ≡ (if nat_le place n then mark_of self.old n else None) }
    {
        forget(&mut self.held, self.place, place);
        forget(&mut self.irrelevant, self.place, place);
        self.place = place;
    }
}

/// Whether a number is one of the window from a place on.
fn is_in_window(place: u64, number: u64) -> bool
    ensures { result ≡ is_in_window place number }
{
    place <= number && number - place < WIDTH
}

/// How many numbers of the window from a place on there are up to a bound, itself among them.
fn count_up_to(place: u64, bound: u64) -> usize
    ensures { (n : ℕ) → place ≤ n → n < place + 256 → nat_lt (n - place) result ≡ nat_le n bound }
{
    if bound < place {
        return 0;
    }
    u64::min(bound - place, WIDTH - 1) as usize + 1
}

/// Where the bit of a number stands in a ring.
fn place_in_ring(number: u64) -> usize
    ensures { result ≡ number % 256 }
{
    (number % WIDTH) as usize
}

/// What the rings say of a number, which is one of the window.
fn ring_mark(held: &Bits, irrelevant: &Bits, number: u64) -> Option<Mark>
    ensures { result ≡ ring_mark held.now irrelevant.now number }
{
    if held.has(place_in_ring(number)) {
        Some(Mark::Held)
    } else if irrelevant.has(place_in_ring(number)) {
        Some(Mark::Irrelevant)
    } else {
        None
    }
}

/// The first number from the place on that is not marked, but at most `to`, and at most the first past the window.
fn run_end(held: &Bits, irrelevant: &Bits, place: u64, to: u64) -> u64
    ensures forward { place ≤ result }
    ensures asked { result ≤ max place to }
    ensures within { result ≤ place + 256 }
    ensures over { (n : ℕ) → place ≤ n → n < result
        → IsSome (ring_mark held.now irrelevant.now n) }
    ensures stops { result < to → result < place + 256
        → ring_mark held.now irrelevant.now result ≡ None }
{
    let end = u64::min(to, place.saturating_add(WIDTH));
    for number in place..end {
        if ring_mark(held, irrelevant, number).is_none() {
            return number;
        }
    }
    u64::max(place, end)
}

/// Moves a ring from one place to a later one: numbers that come into its window have no bit.
fn forget(ring: &mut Bits, from: u64, to: u64)
    requires { from ≤ to }
    ensures { (n : ℕ) → to ≤ n → n < to + 256
        → in_ring ring.new n ≡ (nat_lt n (from + 256) && in_ring ring.old n) }
{
    let end = u64::min(to, from.saturating_add(WIDTH));
    for number in from..end {
        ring.remove(place_in_ring(number));
    }
}
