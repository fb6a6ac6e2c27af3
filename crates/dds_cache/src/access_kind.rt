//! The two accesses to a reader's samples.
//!
//! DDS 1.4, 2.2.2.5 (read, take).

/// What becomes of the samples that an access returns.
///
/// DDS 1.4, 2.2.2.5 (read, take).
#[derive(Clone, Copy, Debug, PartialEq, Eq)]
pub enum AccessKind {
    /// They stay, and are READ from then on.
    Read,
    /// They are gone from then on.
    Take,
}
