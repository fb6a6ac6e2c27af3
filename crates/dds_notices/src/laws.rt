//! What holds of the notices that are kept: a function that does nothing, and whose clause is the law.
//!
//! DDS 1.4, 2.2.4.3 (access through listeners).

ghost use Rattle.std.specs.Prelude.{◌≡◌, ◌++◌, ◌∷◌, [], ℕ, List};
ghost use Rattle.dds_notices.specs.declared.notice.Notice.{Notice};
ghost use Rattle.dds_notices.specs.Notices.{keep_last, opened, told};

/// A listener that was told of these in turn, and kept nothing at first, keeps the last ones of all of them.
pub fn the_last_notices_stay()
    // One that was told of nothing keeps the last ones of none.
    ensures begins { (room : ℕ) → (opened room).notices ≡ keep_last room [] }
    // One that keeps the last ones of these, and is told of one more, keeps the last ones of all.
    ensures told { (room : ℕ) (all : List Notice) (n : Notice)
        → told room (keep_last room all) n ≡ keep_last room (all ++ n ∷ []) }
{}
