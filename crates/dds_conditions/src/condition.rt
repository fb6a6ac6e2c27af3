//! The conditions of a peer.
//!
//! DDS 1.4, 2.2.2.1 (Condition, GuardCondition, StatusCondition), 2.2.2.5 (ReadCondition, QueryCondition).

use dds_base::{Entity, Masks};

/// A condition of a peer.
///
/// DDS 1.4, 2.2.2.1 (Condition).
#[derive(Clone, Copy, Debug, PartialEq, Eq)]
pub enum Cond {
    /// The status condition of an entity.
    Status(Entity),
    /// The read condition, query condition or guard condition that was made with this number, from 1.
    Made(u32),
}

/// A condition that was made.
///
/// DDS 1.4, 2.2.2.1 (GuardCondition), 2.2.2.5 (ReadCondition).
#[derive(Clone, Copy, Debug, PartialEq, Eq)]
pub enum Condition {
    /// A read condition: whether a present sample of this reader meets the masks. A query condition asks besides that
    /// the sample passes the filter of this number.
    Samples {
        reader: u8,
        masks: Masks,
        filter: Option<u32>,
    },
    /// A guard condition, with the value that the application gave it.
    Guard(bool),
}
