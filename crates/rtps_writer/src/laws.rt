//! What holds of the answers to an ACKNACK: functions that do nothing, and whose clauses are the laws.
//!
//! RTPS 2.5, 8.4.7 (ReaderProxy, requested_changes, acked_changes_set).

ghost use Rattle.std.specs.Prelude.{◌≡◌, ◌≤◌, ◌<◌, ◌⊎◌, ℕ, ℤ, Bool, Option, length, true};
ghost use Rattle.std.specs.List.{All, list_any};
ghost use Rattle.dds_base.specs.declared.qos.HistoryQos.{HistoryQos};
ghost use Rattle.dds_base.specs.Kept.{is_dropped};
ghost use Rattle.rtps_sets.specs.NumberSet.{NumberSet};
ghost use Rattle.rtps_writer.specs.Acknack.{after_acknack, answers_after, asked_from, has_for};
ghost use Rattle.rtps_writer.specs.Answers.{GapsAre, IsBetween, IsRight, is_answer_to, is_requested};
ghost use Rattle.rtps_writer.specs.WriterState.{WriterState, acknowledged_by, history_of, joined, last_of, left, opening, owed_from};

/// The answers to an ACKNACK say what the writer keeps, to each member of the set that the reader lacks.
///
/// RTPS 2.5, 8.4.7 (ReaderProxy, requested_changes), 8.3.8 (Data, Gap).
pub fn answers_are_right()
    // A DATA names a number that is kept and owed, a GAP numbers that are not, and each lies among those asked for.
    ensures right { (s : WriterState) (reader base : ℕ) (set : NumberSet)
        → All (IsRight (has_for s reader) (IsBetween set (asked_from s reader base) (last_of s)))
        (answers_after s reader base set) }
    // Each number of a GAP is dropped, or not owed to the reader, or acknowledged by it.
    ensures dropped { (s : WriterState) (reader base : ℕ) (set : NumberSet)
        → reader < length s.acknowledged
        → 0 < acknowledged_by s reader
        → All (GapsAre (λ n. (is_dropped (history_of s) n ≡ true)
        ⊎ (n < owed_from s reader) ⊎ (n < acknowledged_by s reader)))
        (answers_after s reader base set) }
    // A number is answered exactly if it is asked for.
    ensures complete { (s : WriterState) (reader base : ℕ) (set : NumberSet) (n : ℕ)
        → length set.members ≤ 256
        → list_any (is_answer_to n) (answers_after s reader base set)
        ≡ is_requested set (asked_from s reader base) (last_of s) n }
{}

/// What a reader has acknowledged counts from 1 on, at the opening, after each ACKNACK, and as readers come and go; nothing
/// else changes it.
///
/// RTPS 2.5, 8.4.7 (ReaderProxy, acked_changes_set).
pub fn acknowledgements_count_from_1()
    // At the opening each is 1.
    ensures opening { (policy : HistoryQos) (max_samples lease : Option ℕ)
        (strength : Option ℤ) (readers : ℕ)
        → All (λ n. 0 < n) (opening policy max_samples lease strength readers).acknowledged }
    // No ACKNACK takes one below 1.
    ensures acknack { (s : WriterState) (reader base : ℕ) (count : ℤ)
        → All (λ n. 0 < n) s.acknowledged
        → All (λ n. 0 < n) (after_acknack s reader base count).acknowledged }
    // A reader that joins has one from 1 on.
    ensures joined { (s : WriterState) (count : Option ℤ) (silent : Bool) → All (λ n. 0 < n) s.acknowledged
        → All (λ n. 0 < n) (joined s count silent).acknowledged }
    // One that leaves takes its own away.
    ensures left { (s : WriterState) (reader : ℕ) → All (λ n. 0 < n) s.acknowledged
        → All (λ n. 0 < n) (left s reader).acknowledged }
{}
