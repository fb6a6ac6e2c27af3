//! What holds of leases and deaths: functions that do nothing, and whose clauses are the laws.
//!
//! DDS 1.4, 2.2.3 (LIVELINESS: lease_duration).

ghost use Rattle.std.specs.Prelude.{◌≡◌, ◌≢◌, ℕ, List, [], ◌∷◌, false};
ghost use Rattle.dds_base.specs.declared.happening.Happening.{Happening};
ghost use Rattle.dds_base.specs.declared.happening.Happening.TheVariants.{Looked, Passed, Read, Took};
ghost use Rattle.dds_base.specs.declared.happening.SamplePosition.{SamplePosition};
ghost use Rattle.dds_base.specs.declared.happening.StatusKind.{StatusKind};
ghost use Rattle.dds_base.specs.declared.qos.ReaderQos.{ReaderQos};
ghost use Rattle.dds_base.specs.Liveliness.{after_deaths, after_parting, dead_at, is_alive, is_dead};
ghost use Rattle.dds_base.specs.Ownership.{IsMatched};
ghost use Rattle.dds_lease.specs.Standing.{Kept, StandsFor, after_deaths_above};

/// A tick's deaths are those above no handle, and after them no lease is over at its moment.
///
/// DDS 1.4, 2.2.3 (LIVELINESS: lease_duration).
pub fn deaths_go_in_turn()
    // Those above handle 0 are all of them.
    ensures begins { (q : ReaderQos) (now : ℕ) (h : List Happening)
        → after_deaths_above q now 0 h ≡ after_deaths q now h }
    // Nobody dies twice.
    ensures once { (q : ReaderQos) (now : ℕ) (h : List Happening)
        → dead_at q now (after_deaths q now h) ≡ [] }
{}

/// A writer that left is neither alive nor not alive, whatever happened before, and all others are as they were.
///
/// DDS 1.4, 2.2.4.1 (LivelinessChangedStatus: alive_count, not_alive_count).
pub fn a_parting_begins_anew()
    // It is not alive.
    ensures alive { (w now : ℕ) (h : List Happening) → is_alive w (after_parting w now h) ≡ false }
    // It is not one that died and is not alive.
    ensures dead { (w now : ℕ) (h : List Happening) → is_dead w (after_parting w now h) ≡ false }
    // Another writer is alive exactly if it was.
    ensures others { (w v now : ℕ) (h : List Happening) → w ≢ v
        → is_alive v (after_parting w now h) ≡ is_alive v h }
    // It has died and is not alive exactly if that was so.
    ensures others_dead { (w v now : ℕ) (h : List Happening) → w ≢ v
        → is_dead v (after_parting w now h) ≡ is_dead v h }
{}

/// What neither asserts a writer nor is its death or parting says nothing of leases: what stood for all before stands for it
/// too.
pub fn other_entries_change_nothing()
    // Changes of a matched writer were passed over.
    ensures passed { (kept : Kept) (q : ReaderQos) (h : List Happening) (w first last : ℕ)
        → StandsFor kept q h → IsMatched q h w
        → StandsFor kept q (Passed w first last ∷ h) }
    // A read returned samples.
    ensures read { (kept : Kept) (q : ReaderQos) (h : List Happening)
        (samples : List SamplePosition)
        → StandsFor kept q h → StandsFor kept q (Read samples ∷ h) }
    // A take returned samples.
    ensures took { (kept : Kept) (q : ReaderQos) (h : List Happening)
        (samples : List SamplePosition)
        → StandsFor kept q h → StandsFor kept q (Took samples ∷ h) }
    // A status was looked at.
    ensures looked { (kept : Kept) (q : ReaderQos) (h : List Happening) (kind : StatusKind)
        → StandsFor kept q h
        → StandsFor kept q (Looked kind ∷ h) }
{}
