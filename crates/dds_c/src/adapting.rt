//! Datagrams whose topics carry other types, turned between the network and a peer.
//!
//! RTPS 2.5, 8.3.4 and 9.4.5 (messages and submessages), 9.6.4.8 (KeyHash). The interface for C is this project's own.

ghost use Rattle.std.specs.Prelude.{◌≡◌, IfErr, IfOk, map, not};
ghost use Rattle.std.specs.List.{list_any};
ghost use Rattle.dds_base.specs.declared.code.Code.TheVariants.{Memory};
ghost use Rattle.rtps_adapter.specs.declared.direction.Direction.TheVariants.{Outward};
ghost use Rattle.rtps_adapter.specs.declared.direction.Way.TheVariants.{Turning};
ghost use Rattle.rtps_adapter.specs.Adapting.{IsAnswer};
ghost use Rattle.dds_c.specs.Adapting.{AdaptedCopied, Turned, TurnedBy, field_of, fields_at, is_field, is_kind, no_table, said_by, said_of, size_of, way_of};
ghost use Rattle.dds_c.specs.Fetching.{CopiesNothing};

use crate::config::max_value;
use crate::out::copy_out;
use dds_base::{Code, EntityId, Guid, GuidPrefix};
use rtps_adapter::{
    Adapted, Direction, Encoding, FieldSize, KeyField, KeyRule, Kind, Way, WriterKind, inward,
    inward_with_gaps, outward,
};
use std::alloc::{AllocError, Global};

/// A key field of a type.
///
/// RTPS 2.5, 9.6.4.8 (KeyHash).
#[repr(C)]
#[derive(Clone, Copy)]
pub struct FlatKeyField {
    /// How many octets of the body of a value, which follows the options, stand before it.
    pub place: u32,
    /// How many octets it takes: 1, 2, 4 or 8.
    pub size: u8,
}

/// What the topic of a writer carries.
///
/// RTPS 2.5, 8.2 (GUID_t) and clause 10 (SerializedPayload).
#[repr(C)]
#[derive(Clone, Copy)]
pub struct FlatKind {
    /// Of the writer.
    pub prefix: [u8; 12],
    /// Of the writer.
    pub entity: [u8; 4],
    /// 0 the datum, 1 a type without a key, 2 one with key fields in CDR, 3 one with key fields in CDR2, 4 a list of
    /// parameters, whose key is the GUID that it names.
    pub kind: u8,
    /// How many fields stand before its own, where `kind` is 2 or 3.
    pub first_field: u32,
    /// How many fields it has, at least one, where `kind` is 2 or 3.
    pub field_count: u32,
    /// How many octets a value of it has at most, to 65,000; 0 says 1,024.
    pub max_value: u32,
}

fn size_of(octets: u8) -> FieldSize
    ensures { result ≡ size_of octets }
{
    match octets {
        1 => FieldSize::One,
        2 => FieldSize::Two,
        4 => FieldSize::Four,
        _ => FieldSize::Eight,
    }
}

fn key_field(field: &FlatKeyField) -> KeyField
    ensures { result ≡ field_of field.now }
{
    KeyField {
        place: field.place as usize,
        size: size_of(field.size),
    }
}

fn is_field(field: &FlatKeyField) -> bool
    ensures { result ≡ is_field field.now }
{
    matches!(field.size, 1 | 2 | 4 | 8)
}

/// Whether a kind is one, and its fields stand among so many.
pub(crate) fn is_kind(count: usize, kind: &FlatKind) -> bool
    ensures { result ≡ is_kind count kind.now }
{
    match kind.kind {
        0 | 1 | 4 => true,
        2 | 3 => {
            kind.field_count != 0 && kind.first_field as usize + kind.field_count as usize <= count
        }
        _ => false,
    }
}

/// Whether a field is none.
pub(crate) fn has_no_field(fields: &[FlatKeyField]) -> bool
    ensures { result ≡ list_any (λ f. not (is_field f)) fields.now }
{
    fields.iter().any(|field| !is_field(field))
}

fn has_no_kind(count: usize, kinds: &[FlatKind]) -> bool
    ensures { result ≡ list_any (λ k. not (is_kind count k)) kinds.now }
{
    kinds.iter().any(|kind| !is_kind(count, kind))
}

/// Whether a field or a kind is none.
fn is_no_table(fields: &[FlatKeyField], kinds: &[FlatKind]) -> bool
    ensures { result ≡ no_table fields.now kinds.now }
{
    has_no_field(fields) || has_no_kind(fields.len(), kinds)
}

/// Fields, as the adapter knows them.
pub(crate) fn key_fields(
    alloc: Global,
    fields: &[FlatKeyField],
) -> Result<Vec<KeyField>, AllocError>
    ensures { IfOk result (λ made. made.items ≡ map field_of fields.now) }
{
    let mut made = Vec::new(alloc);
    for field in fields {
        made.push(key_field(field))?;
    }
    Ok(made)
}

/// The fields of a kind.
pub(crate) fn fields_at<'a>(fields: &'a [KeyField], kind: &FlatKind) -> &'a [KeyField]
    ensures { result.now ≡ fields_at fields.now kind.now }
{
    let first = (kind.first_field as usize).min(fields.len());
    let rest = &fields[first..];
    let count = (kind.field_count as usize).min(rest.len());
    &rest[..count]
}

/// What a writer's topic carries.
fn writer_kind<'a>(fields: &'a [KeyField], kind: &FlatKind) -> WriterKind<'a>
    ensures { said_of result ≡ said_by fields.now kind.now }
{
    let own = fields_at(fields, kind);
    WriterKind {
        writer: Guid {
            prefix: GuidPrefix(kind.prefix),
            entity: EntityId(kind.entity),
        },
        kind: match kind.kind {
            0 => Kind::Datum,
            1 => Kind::Opaque(KeyRule::Keyless),
            2 => Kind::Opaque(KeyRule::Fields(Encoding::Cdr, own)),
            4 => Kind::Opaque(KeyRule::ParameterList),
            _ => Kind::Opaque(KeyRule::Fields(Encoding::Cdr2, own)),
        },
        max_value: max_value(kind.max_value),
    }
}

fn writer_kinds<'a>(
    alloc: Global,
    fields: &'a [KeyField],
    kinds: &[FlatKind],
) -> Result<Vec<WriterKind<'a>>, AllocError>
    ensures { IfOk result
        (λ made. map said_of made.items ≡ map (said_by fields.now) kinds.now) }
{
    let mut made = Vec::new(alloc);
    for kind in kinds {
        made.push(writer_kind(fields, kind))?;
    }
    Ok(made)
}

/// What a datagram becomes by a table.
fn adapted(alloc: Global, way: Way, kinds: &[WriterKind], datagram: &[u8]) -> Result<Adapted, Code>
    ensures answers { IfOk result (IsAnswer way kinds.now datagram.now) }
    ensures memory { IfErr result (λ e. e ≡ Memory) }
{
    match way {
        Way::Turning(Direction::Inward) => inward(alloc, kinds, datagram),
        Way::Turning(Direction::Outward) => outward(alloc, kinds, datagram),
        Way::Filling => inward_with_gaps(alloc, kinds, datagram),
    }
}

/// Copies what is handed on of a datagram.
fn copy_adapted(adapted: &Adapted, buffer: &mut [u8], needed: &mut usize) -> u8
    ensures { AdaptedCopied adapted.now buffer.old buffer.new needed.old needed.new result }
{
    match adapted {
        Adapted::AsItIs => Code::NoData.number(),
        Adapted::Rewritten(octets) => copy_out(octets.as_slice(), buffer, needed),
        Adapted::TooLong => {
            *needed = 0;
            Code::OutOfResources.number()
        }
    }
}

/// Turns a datagram by a table of fields and kinds, and copies what is handed on in its place.
fn turn(
    alloc: Global,
    way: Way,
    fields: &[FlatKeyField],
    kinds: &[FlatKind],
    datagram: &[u8],
    buffer: &mut [u8],
    needed: &mut usize,
) -> Result<u8, Code>
    ensures turned { IfOk result (TurnedBy way fields.now kinds.now datagram.now
        buffer.old buffer.new needed.old needed.new) }
    ensures refused { IfErr result (λ e. (e ≡ Memory) × CopiesNothing buffer.old buffer.new
        needed.old needed.new 100 100) }
{
    let fields = key_fields(alloc, fields)?;
    let kinds = writer_kinds(alloc, &fields, kinds)?;
    let adapted = adapted(alloc, way, &kinds, datagram)?;
    Ok(copy_adapted(&adapted, buffer, needed))
}

/// The same by a table of arrays, or that it is none.
fn turn_by(
    alloc: Global,
    way: Way,
    fields: &[FlatKeyField],
    kinds: &[FlatKind],
    datagram: &[u8],
    buffer: &mut [u8],
    needed: &mut usize,
) -> u8
    ensures { Turned way fields.now kinds.now datagram.now
        buffer.old buffer.new needed.old needed.new result }
{
    if is_no_table(fields, kinds) {
        return Code::BadParameter.number();
    }
    match turn(alloc, way, fields, kinds, datagram, buffer, needed) {
        Ok(code) => code,
        Err(code) => code.number(),
    }
}

/// What a datagram of the network becomes before a peer reads it (`cw_deliver`): the payload of each DATA whose writer's
/// topic carries another type stands in a datum, as its value, with the key that the rule finds; all else stays as it is.
/// With gaps a GAP stands in place of the number of a DATA of another type than the datum whose payload the peer could not
/// read, and of a DATA_FRAG of a writer of the table. It is copied to the start of the buffer, and `needed` says how many
/// octets it has, at most 65,507.
///
/// # Errors
///
/// BAD_PARAMETER where a field or a kind is none, or a kind has no fields or names fields that there are not; NO_DATA where
/// the datagram is to be handed on as it stands; MEMORY: then nothing is written. OUT_OF_RESOURCES where the buffer is too
/// short: then no octet is copied, and `needed` says how long it has to be, or is 0 where it would be longer than a message
/// may be: then nothing of the datagram is handed on.
///
/// RTPS 2.5, 8.3.4, 9.4.5 (Data, DataFrag, Gap) and 9.6.4.8 (KeyHash).
#[unsafe(no_mangle)]
pub extern "C" fn cw_inward(
    alloc: Global,
    kinds: &[FlatKind],
    fields: &[FlatKeyField],
    with_gaps: bool,
    datagram: &[u8],
    buffer: &mut [u8],
    needed: &mut usize,
) -> u8
    // What is copied is what the datagram becomes by that table, and no other.
    ensures turned { Turned (way_of with_gaps) fields.now kinds.now datagram.now
        buffer.old buffer.new needed.old needed.new result }
{
    let way = if with_gaps {
        Way::Filling
    } else {
        Way::Turning(Direction::Inward)
    };
    turn_by(alloc, way, fields, kinds, datagram, buffer, needed)
}

/// What a datagram of a peer (`cw_packet`) becomes before it goes to the network: the value of each datum of a writer whose
/// topic carries another type stands as a payload again; all else stays as it is. Copied as `cw_inward` copies.
///
/// # Errors
///
/// Those of `cw_inward`.
///
/// RTPS 2.5, 8.3.4 and 9.4.5 (Data).
#[unsafe(no_mangle)]
pub extern "C" fn cw_outward(
    alloc: Global,
    kinds: &[FlatKind],
    fields: &[FlatKeyField],
    datagram: &[u8],
    buffer: &mut [u8],
    needed: &mut usize,
) -> u8
    // What is copied is what the datagram turns into by that table, and no other.
    ensures turned { Turned (Turning Outward) fields.now kinds.now datagram.now
        buffer.old buffer.new needed.old needed.new result }
{
    let way = Way::Turning(Direction::Outward);
    turn_by(alloc, way, fields, kinds, datagram, buffer, needed)
}
