//! The row of a reader or a writer among those that are matched.
//!
//! RTPS 2.5, 8.4.7 (StatefulWriter, matched_readers), 8.4.10 (StatefulReader, matched_writers).

ghost use Rattle.std.specs.Prelude.{◌≡◌, ℕ, slice_get, Some, MatchOption};
ghost use Rattle.dds_ends.specs.declared.matching.ReaderName.{ReaderName as NameOf};
ghost use Rattle.dds_ends.specs.declared.matching.WriterName.{WriterName as WriterNameOf};
ghost use Rattle.dds_ends.specs.Standing.{IsFirstReader, IsFirstRow};

use crate::matching::{ReaderName, WriterName};
use dds_base::Endpoint;

/// The first row of this reader, if it is among these.
pub fn row_among(names: &[ReaderName], reader: Endpoint) -> Option<usize>
    ensures { MatchOption result
        ((k : ℕ) (n : NameOf) → slice_get names.now k ≡ Some n → n.reader ≡ reader → ⊥)
        (IsFirstReader names.now reader) }
{
    for (row, name) in names.iter().enumerate() {
        if name.reader == reader {
            return Some(row);
        }
    }
    None
}

/// The first row of this writer, if it is among these.
pub fn writer_row_among(names: &[WriterName], writer: Endpoint) -> Option<usize>
    ensures { MatchOption result
        ((k : ℕ) (n : WriterNameOf) → slice_get names.now k ≡ Some n → n.writer ≡ writer → ⊥)
        (IsFirstRow names.now writer) }
{
    for (row, name) in names.iter().enumerate() {
        if name.writer == writer {
            return Some(row);
        }
    }
    None
}
