//! How a reader stands to a writer that it knows.
//!
//! RTPS 2.5, 8.4.10 (StatefulReader: matched_writer_add, matched_writer_remove).

/// How a reader stands to a writer that it knows.
///
/// RTPS 2.5, 8.4.10 (StatefulReader: matched_writers).
#[derive(Clone, Copy)]
pub enum Attachment {
    /// The two are not matched.
    Away,
    /// They are matched, and the reader's place has not begun since.
    Waiting,
    /// They are matched, and its place has begun.
    Begun,
}
