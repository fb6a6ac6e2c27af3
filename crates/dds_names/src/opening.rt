//! The names of all ends of a configuration.
//!
//! RTPS 2.5, 8.2 (Participant, Endpoint, GUID_t); DDS 1.4, 2.2.3 (RELIABILITY).

ghost use Rattle.std.specs.Prelude.{◌≡◌, ◌+◌, ◌++◌, ◌^◌, ◌≤◌, true, length, map, IfOk, OnOk, None};
ghost use Rattle.dds_base.specs.Bounds.{max_ends};
ghost use Rattle.dds_base.specs.Checked.{check_refusal};
ghost use Rattle.dds_base.specs.Matched.{is_reliable_reader};
ghost use Rattle.dds_base.specs.declared.config.ReaderConfig.{ReaderConfig as ReaderConfigOf};
ghost use Rattle.dds_base.specs.declared.config.WriterConfig.{WriterConfig as WriterConfigOf};
ghost use Rattle.dds_machine.specs.Opening.{names_in, reader_names, writer_names};
ghost use Rattle.dds_names.specs.Known.{name_of};

use crate::named_end::NamedEnd;
use dds_base::{Endpoint, Guid, GuidPrefix, PeerConfig, ReaderConfig, WriterConfig};
use std::alloc::{AllocError, Global};

/// Adds the names of the writers of the peer of this number and prefix.
fn push_writers(
    all: &mut Vec<NamedEnd>,
    number: u32,
    prefix: GuidPrefix,
    writers: &[WriterConfig],
) -> Result<(), AllocError>
    requires few { length writers.now ≤ max_ends }
    ensures { OnOk result
        (map name_of all.new.items ≡ map name_of all.old.items
        ++ names_in (λ (w : WriterConfigOf). w.entity) (λ w. true) prefix number 1 writers.now) }
{
    for (index, writer) in writers.iter().enumerate() {
        all.push(NamedEnd {
            end: Endpoint {
                peer: number,
                number: (index + 1) as u8,
            },
            guid: Guid {
                prefix,
                entity: writer.entity,
            },
            is_reliable: true,
        })?;
    }
    Ok(())
}

/// Adds the names of its readers.
fn push_readers(
    all: &mut Vec<NamedEnd>,
    number: u32,
    prefix: GuidPrefix,
    readers: &[ReaderConfig],
) -> Result<(), AllocError>
    requires few { length readers.now ≤ max_ends }
    ensures { OnOk result
        (map name_of all.new.items ≡ map name_of all.old.items
        ++ names_in (λ (r : ReaderConfigOf). r.entity) is_reliable_reader prefix number 1 readers.now) }
{
    for (index, reader) in readers.iter().enumerate() {
        all.push(NamedEnd {
            end: Endpoint {
                peer: number,
                number: (index + 1) as u8,
            },
            guid: Guid {
                prefix,
                entity: reader.entity,
            },
            is_reliable: reader.reliability.is_reliable(),
        })?;
    }
    Ok(())
}

/// The names of all writers of these peers, the first of which has this number.
pub(crate) fn writer_names(
    alloc: Global,
    first: u32,
    peers: &[PeerConfig],
) -> Result<Vec<NamedEnd>, AllocError>
    requires checked { check_refusal peers.now ≡ None }
    requires room { first + length peers.now ≤ 2 ^ 32 }
    ensures { IfOk result (λ all. map name_of all.items ≡ writer_names first peers.now) }
{
    let mut all = Vec::new(alloc);
    for (index, peer) in peers.iter().enumerate() {
        push_writers(
            &mut all,
            index as u32 + first,
            peer.prefix,
            peer.writers.as_slice(),
        )?;
    }
    Ok(all)
}

/// The names of all their readers.
pub(crate) fn reader_names(
    alloc: Global,
    first: u32,
    peers: &[PeerConfig],
) -> Result<Vec<NamedEnd>, AllocError>
    requires checked { check_refusal peers.now ≡ None }
    requires room { first + length peers.now ≤ 2 ^ 32 }
    ensures { IfOk result (λ all. map name_of all.items ≡ reader_names first peers.now) }
{
    let mut all = Vec::new(alloc);
    for (index, peer) in peers.iter().enumerate() {
        push_readers(
            &mut all,
            index as u32 + first,
            peer.prefix,
            peer.readers.as_slice(),
        )?;
    }
    Ok(all)
}
