//! What a peer sends in one packet.
//!
//! RTPS 2.5, 8.3.2 and 9.4.4.

use crate::submessage::Submessages;
use dds_base::GuidPrefix;

/// The sender, and what it says.
///
/// RTPS 2.5, 8.3.2.
#[derive(Debug, Drop)]
pub struct Message<'a> {
    /// The sender's.
    pub prefix: GuidPrefix,
    /// In the order in which they stand.
    pub submessages: Submessages<'a>,
}

/// A message, and where its reading ended. The bytes lend the values of its data.
#[derive(Debug, Drop)]
pub struct Read<'a> {
    /// What was read.
    pub message: Message<'a>,
    /// An offset into the bytes: their length, or where a submessage stands whose length passes the end, or where
    /// fewer than 4 bytes are left.
    pub stop: usize,
}
