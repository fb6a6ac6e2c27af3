//! What a writer does to an instance.
//!
//! RTPS 2.5, 8.2 (CacheChange, ChangeKind_t); DDS 1.4, 2.2.2.4 (write, dispose, unregister_instance).

ghost use Rattle.std.specs.Prelude.{◌≡◌};
ghost use Rattle.dds_base.specs.Happening.{is_unregister, is_write_or_dispose};

use crate::key::Key;
use crate::moment::Moment;
use crate::octets::Octets;

/// What a change does to its instance.
///
/// RTPS 2.5, 8.2 (ChangeKind_t: ALIVE, NOT_ALIVE_DISPOSED, NOT_ALIVE_UNREGISTERED), and both of the last at once.
#[derive(Clone, Copy, Debug, PartialEq, Eq)]
pub enum ChangeKind {
    /// Gives the instance a value.
    Write,
    /// Says that the instance exists no more.
    Dispose,
    /// Says that the writer has nothing more to say of the instance.
    Unregister,
    /// Disposes and unregisters at once: what an unregister is at a writer that disposes on its own.
    DisposeUnregister,
}

impl ChangeKind {
    /// Whether it is a write or a dispose, and not only an unregister: such a change may be accepted.
    ///
    /// DDS 1.4, 2.2.2.4 (register_instance).
    pub fn is_write_or_dispose(self) -> bool
        ensures kind { result ≡ is_write_or_dispose self }
    {
        match self {
            ChangeKind::Unregister => false,
            ChangeKind::Write | ChangeKind::Dispose | ChangeKind::DisposeUnregister => true,
        }
    }

    /// Whether it ends its writer's registration of the instance.
    ///
    /// DDS 1.4, 2.2.2.4 (unregister_instance).
    pub fn is_unregister(self) -> bool
        ensures kind { result ≡ is_unregister self }
    {
        match self {
            ChangeKind::Unregister | ChangeKind::DisposeUnregister => true,
            ChangeKind::Write | ChangeKind::Dispose => false,
        }
    }
}

/// A change of one instance, as its writer made it.
///
/// RTPS 2.5, 8.2 (CacheChange).
#[derive(Debug, Drop)]
pub struct Change {
    /// What it does to the instance.
    pub kind: ChangeKind,
    /// The instance.
    pub key: Key,
    /// The octets of the topic type's value; empty for all kinds but a write.
    pub value: Octets,
    /// The moment of the writer's peer at which the change was made, below 2^63.
    pub source_timestamp: Moment,
    /// The strength that its writer had when it was made; `None` of a writer of shared ownership (DDS 1.4, 2.2.3,
    /// OWNERSHIP_STRENGTH).
    pub strength: Option<i32>,
}
