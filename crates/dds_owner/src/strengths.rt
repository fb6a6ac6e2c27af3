//! How strong a reader's matched writers are, as far as their changes said.
//!
//! DDS 1.4, 2.2.3 (OWNERSHIP_STRENGTH).

ghost use Rattle.std.specs.Prelude.{◌≡◌, ◌⊎◌, ◌+◌, ◌≤◌, ◌<◌, ◌==◌, ◌&&◌, ◌∷◌, ◌++◌, [], ℕ, List, length, not, false, if◌then◌else◌, Some, None, IsOk, OnOk, OnErr, IfErr, MatchOption, replicate, vec_len, vec_capacity};
ghost use Rattle.dds_base.specs.declared.code.Code.TheVariants.{Memory};
ghost use Rattle.dds_base.specs.declared.happening.Arrival.{Arrival};
ghost use Rattle.dds_base.specs.declared.happening.Happening.{Happening};
ghost use Rattle.dds_base.specs.declared.happening.Happening.TheVariants.{Came, Joined};
ghost use Rattle.dds_base.specs.Ownership.{told_strength};
ghost use Rattle.dds_owner.specs.Restrengthening.{MAX_CHANGES, is_new_strength};
ghost use Rattle.dds_owner.specs.Standing.{TellsStrengths, kept_strength, strengths_room};

use dds_base::{Arrival, Code, Handle, MatchedWriter};
use std::alloc::Global;
use std::marker::Model;

/// How strong a reader's matched writers are, as far as their changes said, kept up with what comes; and what was announced of
/// those that joined.
///
/// A writer is as strong as its newest change with a strength said, whichever instance that was of, and as strong as
/// it was configured, or announced, until one has come. All `Owners` of a reader are asked with these: `docs/DECISIONS.md`, "A
/// reader's cache".
///
/// DDS 1.4, 2.2.3 (OWNERSHIP_STRENGTH).
#[derive(Drop)]
pub struct Strengths {
    /// By publication handle, empty until there is memory for it.
    told: Vec<Option<i32>>,
    /// The writers that joined, in the order of their publication handles, which follow those of the opening.
    joined: Vec<MatchedWriter>,
    /// How often one changed, if that is below 2^64 - 1; else it is not known, and stays so.
    changes: u64,
}

impl Model for Strengths {
    ghost use Rattle.dds_owner.specs.Standing.{KeptStrengths};

    ghost Value = { KeptStrengths };

    ghost view = { λ s. record { told = s.told.items; joined = s.joined.items; changes = s.changes } };
}

/// So many writers more, of which no strength was told, in the room that there is.
fn add_untold(told: &mut Vec<Option<i32>>, writers: usize)
    requires room { vec_len told.old + writers ≤ vec_capacity told.old }
    ensures { told.new.items ≡ told.old.items ++ replicate writers None }
{
    for _ in 0..writers {
        told.push_reserved(None);
    }
}

impl Strengths {
    /// Of a reader at which nothing has happened. It takes no memory, and has none to keep a strength in.
    pub fn new(alloc: Global) -> Strengths
        // Nothing has happened.
        ensures opening { TellsStrengths result [] }
    {
        Strengths {
            told: Vec::new(alloc),
            joined: Vec::new(alloc),
            changes: 0,
        }
    }

    /// Makes the memory for the strengths of so many matched writers.
    ///
    /// # Errors
    ///
    /// `Memory` where a growth was refused; nothing has changed then.
    pub fn reserve(&mut self, writers: usize) -> Result<(), Code>
        // It stands for what it stood for.
        ensures same { (h : List Happening) → TellsStrengths self.old h → TellsStrengths self.new h }
        // The strengths of so many can be kept.
        ensures room { OnOk result (writers ≤ strengths_room self.new) }
        // It can keep no fewer than before.
        ensures more { strengths_room self.old ≤ strengths_room self.new }
        // Where it can keep so many it succeeds.
        ensures succeeds { writers ≤ strengths_room self.old → IsOk result }
        // A refusal leaves it as it was.
        ensures err { OnErr result (self.new ≡ self.old) }
        // It is refused for want of memory alone.
        ensures memory { IfErr result (λ e. e ≡ Memory) }
    {
        if writers <= self.told.len() {
            return Ok(());
        }
        let missing = writers - self.told.len();
        self.told.reserve(missing)?;
        add_untold(&mut self.told, missing);
        Ok(())
    }

    /// A change of a writer came that had this strength: the owner of each instance for which the writer is registered
    /// goes by it from now on.
    ///
    /// DDS 1.4, 2.2.3 (OWNERSHIP_STRENGTH).
    pub fn set_strength(&mut self, writer: Handle, strength: i32)
        // A change of it came that had this strength, and its strength can be kept.
        ensures came { (h : List Happening) (a : Arrival) → 0 < writer → writer ≤ strengths_room self.old
            → TellsStrengths self.old h → a.writer ≡ writer → a.change.strength ≡ Some strength
            → TellsStrengths self.new (Came a ∷ h) }
        // As many can be kept as before.
        ensures room { strengths_room self.new ≡ strengths_room self.old }
    {
        if self.is_told(writer, strength) {
            return;
        }
        let is_kept = self.put(writer, strength);
        self.changes = if is_kept {
            self.changes.saturating_add(1)
        } else {
            u64::MAX
        };
    }

    /// A writer is matched that was not known: it has the next publication handle, and is as strong as it was announced until a
    /// change of it comes with a strength. All memory is asked for before anything changes.
    ///
    /// # Errors
    ///
    /// `Memory` where a growth was refused; nothing has changed then.
    ///
    /// RTPS 2.5, 8.4.10 (matched_writer_add); DDS 1.4, 2.2.3 (OWNERSHIP_STRENGTH).
    pub fn join(&mut self, writer: MatchedWriter) -> Result<(), Code>
        // It joined.
        ensures joined { OnOk result ((h : List Happening) → TellsStrengths self.old h
            → TellsStrengths self.new (Joined writer ∷ h)) }
        // As many can be kept as before.
        ensures room { strengths_room self.new ≡ strengths_room self.old }
        // A refusal leaves it as it was.
        ensures err { OnErr result (self.new ≡ self.old) }
        // It is refused for want of memory alone.
        ensures memory { IfErr result (λ e. e ≡ Memory) }
    {
        self.joined.push(writer)?;
        Ok(())
    }

    /// The writers that joined, in the order of their publication handles.
    pub(crate) fn joined(&self) -> &[MatchedWriter]
        ensures { result.now ≡ self.now.joined }
    {
        &self.joined
    }

    /// Puts the strength of a writer, where it has a place, and says whether it has.
    fn put(&mut self, writer: Handle, strength: i32) -> bool
        ensures told { (v : ℕ) → kept_strength self.new v
            ≡ (if result && (v == writer) then Some strength else kept_strength self.old v) }
        ensures outside { result ≡ false → strengths_room self.old < writer ⊎ writer ≡ 0 }
        ensures room { strengths_room self.new ≡ strengths_room self.old }
        ensures joined { self.new.joined ≡ self.old.joined }
        ensures changes { self.new.changes ≡ self.old.changes }
    {
        let Some(at) = writer.number().checked_sub(1) else {
            return false;
        };
        match self.told.get_mut(at as usize) {
            Some(told) => {
                *told = Some(strength);
                true
            }
            None => false,
        }
    }

    /// Whether this is the strength that was told last of a writer.
    fn is_told(&self, writer: Handle, strength: i32) -> bool
        ensures { result ≡ not (is_new_strength (Some strength) (kept_strength self.now writer)) }
    {
        match self.told_of(writer) {
            Some(told) => strength == told,
            None => false,
        }
    }

    /// Whether a change that comes gives its writer another strength.
    pub(crate) fn are_changed_by(&self, arrival: &Arrival) -> bool
        ensures { result ≡ is_new_strength arrival.now.change.strength
            (kept_strength self.now arrival.now.writer) }
    {
        match arrival.change.strength {
            Some(strength) => !self.is_told(arrival.writer, strength),
            None => false,
        }
    }

    /// How often a strength changed, if that is known.
    pub(crate) fn changes(&self) -> Option<u64>
        ensures { MatchOption result (MAX_CHANGES ≤ self.now.changes)
            (λ n. n ≡ self.now.changes × n < MAX_CHANGES) }
    {
        if self.changes < u64::MAX {
            Some(self.changes)
        } else {
            None
        }
    }

    /// The strength that was told last of a writer.
    pub(crate) fn told_of(&self, writer: Handle) -> Option<i32>
        ensures { result ≡ kept_strength self.now writer }
    {
        let at = writer.number().checked_sub(1)?;
        match self.told.get(at as usize) {
            Some(told) => *told,
            None => None,
        }
    }
}
