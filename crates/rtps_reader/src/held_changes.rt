//! The changes that a reader holds until those before them have come.
//!
//! RTPS 2.5, 8.4.10 (ChangeFromWriter), 8.4.12 (received_change_set). `docs/DECISIONS.md`, "Sets, windows and the
//! grammar", says why there are 256 places.

ghost use Rattle.std.specs.Prelude.{◌≡◌, ◌≤◌, ◌<◌, ◌+◌, ◌^◌, ◌%◌, ◌==◌, ◌&&◌, ℕ, [], not, nat_lt, true, None, Some, is_some, IfOk, OnOk, IsOk, IsSome, if◌then◌else◌, replicate};
ghost use Rattle.dds_base.specs.Bounds.{max_sn, window_width};
ghost use Rattle.rtps_reader.specs.HeldChanges.{HasPlaces, held_at, count_held};

use dds_base::{Change, Sn};
use rtps_sets::WIDTH;
use std::alloc::{AllocError, Global};
use std::marker::Model;

/// So many places: as many as a window has numbers.
const PLACES: usize = WIDTH as usize;

/// The changes of one writer that wait for those before them. Each stands at the place of its number, and the 256
/// numbers of a window have 256 places, which are made when they are first wanted, and let go where nothing waits.
#[derive(Drop)]
pub struct HeldChanges {
    /// A number has the place at the number modulo 256. There are all, or none.
    places: Vec<Option<Change>>,
    count: usize,
}

impl Model for HeldChanges {
    ghost use Rattle.std.specs.Prelude.{List, Option};
    ghost use Rattle.dds_base.specs.declared.change.Change.{Change};
    ghost use Rattle.rtps_reader.specs.HeldChanges.{ArePlaces};

    ghost Value = { List (Option Change) };

    ghost view = { λ h. h.places.items };

    ghost invariant = { λ h. ArePlaces h.places.items h.count };
}

/// The place of a number.
fn place_of(number: Sn) -> usize
    ensures { result ≡ number % window_width }
{
    (number.number() % WIDTH) as usize
}

/// A place for each number of a window, and nothing there.
fn no_changes(alloc: Global) -> Result<Vec<Option<Change>>, AllocError>
    ensures { IfOk result (λ places. places.items ≡ replicate window_width None) }
{
    let mut places = Vec::with_capacity(alloc, PLACES)?;
    for _ in 0..PLACES {
        places.push(None)?;
    }
    Ok(places)
}

impl HeldChanges {
    /// No change is held, and there is no place for one.
    pub fn open(alloc: Global) -> HeldChanges
        ensures none { (n : ℕ) → held_at result n ≡ None }
    {
        HeldChanges {
            places: Vec::new(alloc),
            count: 0,
        }
    }

    /// Whether there is room.
    pub fn has_room(&self) -> bool
        ensures room { result ≡ true → HasPlaces self.now }
    {
        !self.places.is_empty()
    }

    /// Makes all the room that there will be, if there is none.
    #[cold]
    #[inline(never)]
    pub fn reserve(&mut self, alloc: Global) -> Result<(), AllocError>
        ensures places { OnOk result (HasPlaces self.new) }
        ensures each { (n : ℕ) → held_at self.new n ≡ held_at self.old n }
        ensures count { count_held self.new ≡ count_held self.old }
        ensures succeeds { HasPlaces self.old → IsOk result }
    {
        if self.places.is_empty() {
            self.places = no_changes(alloc)?;
        }
        Ok(())
    }

    /// Lets go of the room where no change is held.
    pub fn release(&mut self, alloc: Global)
        ensures each { (n : ℕ) → held_at self.new n ≡ held_at self.old n }
        ensures gone { count_held self.old ≡ 0 → self.new ≡ [] }
    {
        if self.count == 0 {
            self.places = Vec::new(alloc);
        }
    }

    /// How many are held.
    pub fn count(&self) -> usize
        ensures { result ≡ count_held self.now }
    {
        self.count
    }

    /// Holds the change of a number, at whose place none is held.
    pub fn put(&mut self, number: Sn, change: Change)
        requires places { HasPlaces self.old }
        requires free { held_at self.old number ≡ None }
        ensures each { (n : ℕ) → held_at self.new n ≡
            (if n % window_width == number % window_width then Some change else held_at self.old n) }
        ensures count { count_held self.new ≡ count_held self.old + 1 }
    {
        self.places[place_of(number)] = Some(change);
        self.count += 1;
    }

    /// Takes the change that is held at the place of a number.
    pub fn take(&mut self, number: Sn) -> Change
        requires held { IsSome (held_at self.old number) }
        ensures taken { held_at self.old number ≡ Some result }
        ensures places { HasPlaces self.new }
        ensures each { (n : ℕ) → held_at self.new n ≡
            (if n % window_width == number % window_width then None else held_at self.old n) }
        ensures count { count_held self.new + 1 ≡ count_held self.old }
    {
        let change = self.places[place_of(number)].take().unwrap();
        self.count -= 1;
        change
    }

    /// Whether a change is held at the place of a number.
    fn has(&self, number: Sn) -> bool
        ensures { result ≡ is_some (held_at self.now number) }
    {
        !self.places.is_empty() && self.places[place_of(number)].is_some()
    }

    /// Lets go of the change at the place of a number, if one is held there.
    fn forget(&mut self, number: Sn)
        ensures each { (n : ℕ) → held_at self.new n ≡
            (if n % window_width == number % window_width then None else held_at self.old n) }
        ensures count { count_held self.new ≤ count_held self.old }
        ensures places { HasPlaces self.old → HasPlaces self.new }
    {
        if !self.has(number) {
            return;
        }
        let _change = self.take(number);
    }
}

/// Lets go of the changes of the window from one number on that are held below another.
pub fn forget_below(held: &mut HeldChanges, from: u64, to: u64)
    requires forward { from ≤ to }
    requires small { from ≤ max_sn + window_width }
    ensures each { (n : ℕ) → from ≤ n → n < from + window_width
        → held_at held.new n ≡ (if nat_lt n to then None else held_at held.old n) }
    ensures count { count_held held.new ≤ count_held held.old }
    ensures places { HasPlaces held.old → HasPlaces held.new }
{
    for number in from..u64::min(to, from + WIDTH) {
        held.forget(Sn::new(number));
    }
}
