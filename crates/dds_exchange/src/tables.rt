//! What the topics of writers carry, as datagrams are turned by it.
//!
//! RTPS 2.5, clause 10 (SerializedPayload).

ghost use Rattle.std.specs.Prelude.{◌≡◌, ◌++◌, map, option_map, option_to_list, IfOk, OnOk};
ghost use Rattle.dds_exchange.specs.Tables.{far_rows, is_heard, row_as, row_of, row_of_far, said_row};

use crate::ends::OwnEnd;
use crate::entities::keyed;
use crate::naming::NamedEnd;
use dds_base::{EntityId, Guid, GuidPrefix};
use rtps_adapter::WriterKind;
use rtps_announcements::EndpointKind;
use std::alloc::{AllocError, Global};

/// What the writer that is called so carries, as this endpoint of ours does.
fn own_row<'a>(prefix: GuidPrefix, entity: &EntityId, end: &'a OwnEnd) -> WriterKind<'a>
    ensures { said_row result ≡ row_as prefix entity.now end.now }
{
    WriterKind {
        writer: Guid {
            prefix,
            entity: keyed(*entity),
        },
        kind: end.carried.kind(),
        max_value: end.max_value,
    }
}

/// What our writers carry.
pub fn own_rows<'a>(
    alloc: Global,
    own: GuidPrefix,
    writers: &'a [OwnEnd],
) -> Result<Vec<WriterKind<'a>>, AllocError>
    ensures rows { IfOk result (λ rows. map said_row rows.items ≡ map (row_of own) writers.now) }
{
    let mut rows = Vec::new(alloc);
    for writer in writers {
        rows.push(own_row(own, &writer.entity, writer))?;
    }
    Ok(rows)
}

/// Whether it is a writer of this participant.
fn is_heard(end: &NamedEnd, source: &GuidPrefix) -> bool
    ensures { result ≡ is_heard source.now end.now }
{
    match end.kind {
        EndpointKind::Writer => end.guid.prefix == *source,
        EndpointKind::Reader => false,
    }
}

/// What a writer of this participant carries: as the reader of ours that was matched with it first.
fn far_row<'a>(readers: &'a [OwnEnd], source: &GuidPrefix, end: &NamedEnd) -> Option<WriterKind<'a>>
    ensures { option_map said_row result ≡ row_of_far source.now readers.now end.now }
{
    if !is_heard(end, source) || end.own == 0 {
        return None;
    }
    match readers.get(end.own as usize - 1) {
        Some(reader) => Some(own_row(*source, &end.guid.entity, reader)),
        None => None,
    }
}

/// Appends a row, if there is one.
fn put_row<'a>(
    rows: &mut Vec<WriterKind<'a>>,
    row: Option<WriterKind<'a>>,
) -> Result<(), AllocError>
    ensures { OnOk result (map said_row rows.new.items
        ≡ map said_row rows.old.items ++ option_to_list (option_map said_row row.entry)) }
{
    if let Some(row) = row {
        rows.push(row)?;
    }
    Ok(())
}

/// What the writers of a participant carry.
pub fn far_rows<'a>(
    alloc: Global,
    readers: &'a [OwnEnd],
    named: &[NamedEnd],
    source: &GuidPrefix,
) -> Result<Vec<WriterKind<'a>>, AllocError>
    ensures rows { IfOk result
        (λ rows. map said_row rows.items ≡ far_rows source.now readers.now named.now) }
{
    let mut rows = Vec::new(alloc);
    for end in named {
        put_row(&mut rows, far_row(readers, source, end))?;
    }
    Ok(rows)
}
