//! What holds of registrations and strengths: functions that do nothing, and whose clauses are the laws.
//!
//! DDS 1.4, 2.2.2.4 (register_instance, unregister_instance), 2.2.3 (OWNERSHIP_STRENGTH, LIVELINESS).

ghost use Rattle.std.specs.Prelude.{◌≡◌, ◌∷◌, [], ℕ, List, None, false};
ghost use Rattle.dds_base.specs.declared.happening.Arrival.{Arrival};
ghost use Rattle.dds_base.specs.declared.happening.Happening.{Happening};
ghost use Rattle.dds_base.specs.declared.happening.Happening.TheVariants.{Came, Died, Heard, Joined, Left, Looked, Passed, Read, Took};
ghost use Rattle.dds_base.specs.declared.happening.SamplePosition.{SamplePosition};
ghost use Rattle.dds_base.specs.declared.happening.StatusKind.{StatusKind};
ghost use Rattle.dds_base.specs.declared.key.Key.{Key};
ghost use Rattle.dds_base.specs.declared.qos.MatchedWriter.{MatchedWriter};
ghost use Rattle.dds_base.specs.declared.qos.ReaderQos.{ReaderQos};
ghost use Rattle.dds_base.specs.Happening.{same_key};
ghost use Rattle.dds_base.specs.Ownership.{is_registered};
ghost use Rattle.dds_owner.specs.Standing.{Kept, KeptStrengths, StandsFor, TellsStrengths};

/// What stands for an instance of which nothing has come stands too for one of which nobody is registered,
/// whatever happened.
pub fn nobody_is_registered_anew()
    ensures stands { (kept : Kept) (q : ReaderQos) (i : Key) (h : List Happening)
        → StandsFor kept q i []
        → ((w : ℕ) → is_registered i w h ≡ false) → StandsFor kept q i h }
{}

/// What is neither a change of the instance nor a death says nothing of who is registered: what stood for all
/// before stands for it too.
pub fn other_entries_change_nothing()
    // A change of another instance came.
    ensures came { (kept : Kept) (q : ReaderQos) (i : Key) (h : List Happening) (a : Arrival)
        → StandsFor kept q i h → same_key a.change.key i ≡ false → StandsFor kept q i (Came a ∷ h) }
    // Changes were passed over.
    ensures passed { (kept : Kept) (q : ReaderQos) (i : Key) (h : List Happening) (w first last : ℕ)
        → StandsFor kept q i h → StandsFor kept q i (Passed w first last ∷ h) }
    // A writer was heard.
    ensures heard { (kept : Kept) (q : ReaderQos) (i : Key) (h : List Happening) (w moment : ℕ)
        → StandsFor kept q i h → StandsFor kept q i (Heard w moment ∷ h) }
    // A writer left.
    ensures left { (kept : Kept) (q : ReaderQos) (i : Key) (h : List Happening) (w moment : ℕ)
        → StandsFor kept q i h → StandsFor kept q i (Left w moment ∷ h) }
    // A writer joined: it is registered for nothing.
    ensures joined { (kept : Kept) (q : ReaderQos) (i : Key) (h : List Happening) (m : MatchedWriter)
        → StandsFor kept q i h → StandsFor kept q i (Joined m ∷ h) }
    // A read returned samples.
    ensures read { (kept : Kept) (q : ReaderQos) (i : Key) (h : List Happening)
        (samples : List SamplePosition)
        → StandsFor kept q i h → StandsFor kept q i (Read samples ∷ h) }
    // A take returned samples.
    ensures took { (kept : Kept) (q : ReaderQos) (i : Key) (h : List Happening)
        (samples : List SamplePosition)
        → StandsFor kept q i h → StandsFor kept q i (Took samples ∷ h) }
    // A status was looked at.
    ensures looked { (kept : Kept) (q : ReaderQos) (i : Key) (h : List Happening)
        (kind : StatusKind)
        → StandsFor kept q i h → StandsFor kept q i (Looked kind ∷ h) }
{}

/// What is no change with a strength says nothing of how strong a writer is.
pub fn other_entries_set_no_strength()
    // A change without a strength came.
    ensures came { (kept : KeptStrengths) (h : List Happening) (a : Arrival)
        → TellsStrengths kept h → a.change.strength ≡ None → TellsStrengths kept (Came a ∷ h) }
    // Changes were passed over.
    ensures passed { (kept : KeptStrengths) (h : List Happening) (w first last : ℕ)
        → TellsStrengths kept h → TellsStrengths kept (Passed w first last ∷ h) }
    // A writer was heard.
    ensures heard { (kept : KeptStrengths) (h : List Happening) (w moment : ℕ)
        → TellsStrengths kept h → TellsStrengths kept (Heard w moment ∷ h) }
    // A writer died.
    ensures died { (kept : KeptStrengths) (h : List Happening) (w moment : ℕ)
        → TellsStrengths kept h → TellsStrengths kept (Died w moment ∷ h) }
    // A writer left: if it comes again, it is as strong as it was told to be.
    ensures left { (kept : KeptStrengths) (h : List Happening) (w moment : ℕ)
        → TellsStrengths kept h → TellsStrengths kept (Left w moment ∷ h) }
    // A read returned samples.
    ensures read { (kept : KeptStrengths) (h : List Happening)
        (samples : List SamplePosition)
        → TellsStrengths kept h → TellsStrengths kept (Read samples ∷ h) }
    // A take returned samples.
    ensures took { (kept : KeptStrengths) (h : List Happening)
        (samples : List SamplePosition)
        → TellsStrengths kept h → TellsStrengths kept (Took samples ∷ h) }
    // A status was looked at.
    ensures looked { (kept : KeptStrengths) (h : List Happening)
        (kind : StatusKind)
        → TellsStrengths kept h → TellsStrengths kept (Looked kind ∷ h) }
{}
