//! What holds of the definitions of a reader, beside what `dds_base` says of them: functions that do nothing, and whose
//! clauses are the laws. No crate stands on this one, so a law more proves nothing else again.
//!
//! DDS 1.4, 2.2.2.5 (SampleInfo).
#![tactic(auto)]

ghost use Rattle.std.specs.Prelude.{◌≡◌, ◌||◌, ◌+◌, ◌++◌, ◌∷◌, List, Some, length, false, is_some, if◌then◌else◌};
ghost use Rattle.dds_base.specs.Access.{lives_begun};
ghost use Rattle.dds_base.specs.Instance.{disposed_generations, introduced_by, is_known, known_instances, no_writers_generations, revives_disposed, revives_without_writers};
ghost use Rattle.dds_base.specs.Life.{ends_life, last_accepted, last_marker, or_else};
ghost use Rattle.dds_base.specs.Ownership.{accepted_kind};
ghost use Rattle.dds_base.specs.Presence.{marks};
ghost use Rattle.dds_base.specs.declared.happening.Happening.{Happening};
ghost use Rattle.dds_base.specs.declared.key.Key.{Key};
ghost use Rattle.dds_base.specs.declared.qos.ReaderQos.{ReaderQos};

/// Where an entry ends no life, the last accepted change of an instance, its last marker, its counts and which instances
/// are known go on as if no life ever ended. So where none has ended, they are what they would be if an instance that is
/// known stayed known.
pub fn where_no_life_ends_all_goes_on()
    // The last accepted change of an instance is that of the entry, or else the one before.
    ensures accepted { (q : ReaderQos) (i : Key) (h : List Happening) (e : Happening) → ends_life q i h e ≡ false
        → last_accepted q i (e ∷ h) ≡ or_else (accepted_kind q i h e) (last_accepted q i h) }
    // So is its last marker.
    ensures marker { (q : ReaderQos) (i : Key) (h : List Happening) (e : Happening) → ends_life q i h e ≡ false
        → last_marker q i (e ∷ h) ≡ (if marks q i h e then Some (length h + 1) else last_marker q i h) }
    // A rebirth after a dispose is counted on top of those before.
    ensures disposed { (q : ReaderQos) (i : Key) (h : List Happening) (e : Happening) → ends_life q i h e ≡ false
        → disposed_generations q i (e ∷ h)
        ≡ disposed_generations q i h + (if revives_disposed q i h e then 1 else 0) }
    // So is one after it had no writers.
    ensures no_writers { (q : ReaderQos) (i : Key) (h : List Happening) (e : Happening) → ends_life q i h e ≡ false
        → no_writers_generations q i (e ∷ h)
        ≡ no_writers_generations q i h + (if revives_without_writers q i h e then 1 else 0) }
    // Where the entry ends the life of no known instance, nor one that it begins, all that were known are known, and then
    // those that it makes known.
    ensures known { (q : ReaderQos) (h : List Happening) (e : Happening)
        → ((i : Key) → is_known q (e ∷ h) i ≡ (is_known q h i || is_some (accepted_kind q i h e)))
        → known_instances q (e ∷ h) ≡ known_instances q h ++ introduced_by q h e }
    // Then as many lives have begun as instances are known, if it was so before.
    ensures begun { (q : ReaderQos) (h : List Happening) (e : Happening)
        → ((i : Key) → is_known q (e ∷ h) i ≡ (is_known q h i || is_some (accepted_kind q i h e)))
        → lives_begun q h ≡ length (known_instances q h)
        → lives_begun q (e ∷ h) ≡ length (known_instances q (e ∷ h)) }
{}
