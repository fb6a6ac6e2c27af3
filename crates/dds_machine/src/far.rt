//! Writers and readers of other participants, as discovery tells of them.
//!
//! RTPS 2.5, 8.2 (Endpoint), 8.4.7.4, 8.4.10.3 (matched_reader_add, matched_writer_add).

use dds_base::{Endpoint, Guid, Policies};

/// A reader that a writer is told of.
#[derive(Clone, Copy, Debug, PartialEq, Eq)]
pub struct FarReader {
    /// The name by which the peer speaks of it. The number of the participant is the caller's choice: one number for each
    /// GUID prefix.
    pub endpoint: Endpoint,
    /// Its GUID, which no other reader has.
    pub guid: Guid,
    /// What it asks for. Of this its RELIABILITY counts here, which can't change. Whether the writer offers it all is
    /// for whoever tells of the reader.
    pub requested: Policies,
}

/// A writer that a reader is told of.
#[derive(Clone, Copy, Debug, PartialEq, Eq)]
pub struct FarWriter {
    /// The name by which the peer speaks of it, likewise.
    pub endpoint: Endpoint,
    /// Its GUID, which no other writer has.
    pub guid: Guid,
    /// What it offers. Of this OWNERSHIP_STRENGTH counts here, and its lease, if it asserts itself by topic, where the
    /// reader does not know it; whether that is all the reader asks for is for whoever tells of the writer.
    pub offered: Policies,
}
