//! Writers and readers of other participants, as the arguments of a call say them.
//!
//! RTPS 2.5, 8.2 (GUID_t); DDS 1.4, 2.2.3 (supported QoS). The interface for C is this project's own.

ghost use Rattle.std.specs.Prelude.{◌≡◌};
ghost use Rattle.dds_c.specs.Far.{far_reader, far_writer, guid_of, usual_reader, usual_writer};

use crate::config::reliability;
use dds_base::{Endpoint, EntityId, Guid, GuidPrefix, ReaderConfig, WriterConfig};
use dds_machine::{FarReader, FarWriter};

fn guid(prefix: &[u8; 12], entity: &[u8; 4]) -> Guid
    ensures { result ≡ guid_of prefix.now entity.now }
{
    Guid {
        prefix: GuidPrefix(*prefix),
        entity: EntityId(*entity),
    }
}

/// A reader of the usual policies, but for its RELIABILITY.
fn usual_reader(entity: &[u8; 4], is_best_effort: bool) -> ReaderConfig
    ensures { result ≡ usual_reader entity.now is_best_effort }
{
    let usual = ReaderConfig::new(EntityId(*entity), 0);
    ReaderConfig {
        reliability: reliability(is_best_effort),
        ..usual
    }
}

/// A writer of the usual policies, but for its OWNERSHIP_STRENGTH and its lease.
fn usual_writer(entity: &[u8; 4], strength: i32, lease: Option<u64>) -> WriterConfig
    ensures { result ≡ usual_writer entity.now strength lease }
{
    let usual = WriterConfig::new(EntityId(*entity), 0);
    WriterConfig {
        strength,
        lease,
        ..usual
    }
}

/// A reader of this name, this GUID and this RELIABILITY.
pub(crate) fn far_reader(
    endpoint: Endpoint,
    prefix: &[u8; 12],
    entity: &[u8; 4],
    is_best_effort: bool,
) -> FarReader
    ensures { result ≡ far_reader endpoint prefix.now entity.now is_best_effort }
{
    FarReader {
        endpoint,
        guid: guid(prefix, entity),
        requested: usual_reader(entity, is_best_effort).requested(),
    }
}

/// A writer of this name and this GUID, of this strength and, where it has one, this lease.
pub(crate) fn far_writer(
    endpoint: Endpoint,
    prefix: &[u8; 12],
    entity: &[u8; 4],
    strength: i32,
    lease: Option<u64>,
) -> FarWriter
    ensures { result ≡ far_writer endpoint prefix.now entity.now strength lease }
{
    FarWriter {
        endpoint,
        guid: guid(prefix, entity),
        offered: usual_writer(entity, strength, lease).offered(),
    }
}
