//! Fragments that are asked for.
//!
//! RTPS 2.5, 8.3.8.3 and 8.3.8.10 (DataFrag, NackFrag), 9.4.5.

ghost use Rattle.std.specs.Prelude.{◌≡◌, ◌==◌};
ghost use Rattle.rtps_fragments.specs.DataFrag.{id_data_frag};
ghost use Rattle.dds_domain.specs.Fragmented.{HasFragment, HasOne};

use dds_base::{Endianness, EntityId, Guid, GuidPrefix, Octets, take_octets, take_u16, take_u32};
use rtps_wire::{begin_message, next_frame};
use std::alloc::{AllocError, Global};

/// DATA_FRAG.
const ID_DATA_FRAG: u8 = 0x16;

/// NACK_FRAG.
const ID_NACK_FRAG: u8 = 0x12;

/// E: numbers are little-endian.
const FLAG_ENDIANNESS: u8 = 0x01;

/// How many fragments one NACK_FRAG asks for at most.
const MOST: u32 = 256;

/// The first fragment of a change, which came alone.
#[derive(Clone, Copy)]
pub struct FirstAlone {
    /// Of which writer.
    pub writer: Guid,
    order: Endianness,
    /// The number of the change, as it stands there.
    number: [u8; 8],
    /// How many fragments the change has behind it.
    others: u32,
}

/// Whether a submessage is a fragment, by its id.
fn is_fragment(id: u8) -> bool
    ensures { result ≡ (id == id_data_frag) }
{
    id == ID_DATA_FRAG
}

/// Whether one of the submessages of a body is a fragment.
fn has_fragment_in(body: &[u8]) -> bool
    ensures { HasOne body.now result }
{
    let mut left = body;
    while let Some((frame, rest)) = next_frame(left) {
        if is_fragment(frame.id) {
            return true;
        }
        left = rest;
    }
    false
}

/// Whether a datagram has a fragment.
pub fn has_fragment(bytes: &[u8]) -> bool
    ensures { HasFragment bytes.now result }
{
    match begin_message(bytes) {
        Some((_, body)) => has_fragment_in(body),
        None => false,
    }
}

fn first_in(source: GuidPrefix, flags: u8, body: &[u8]) -> Option<FirstAlone> {
    let order = if flags & FLAG_ENDIANNESS != 0 {
        Endianness::Little
    } else {
        Endianness::Big
    };
    let (_, rest) = take_octets(body, 8)?;
    let (writer, rest) = take_octets(rest, 4)?;
    let (sn, rest) = take_octets(rest, 8)?;
    let (starting, rest) = take_u32(order, rest)?;
    let (count, rest) = take_u16(order, rest)?;
    let (size, rest) = take_u16(order, rest)?;
    let (whole, _) = take_u32(order, rest)?;
    if starting != 1 || count != 1 || size == 0 {
        return None;
    }
    let mut entity = [0; 4];
    entity.copy_from_slice(writer);
    let mut number = [0; 8];
    number.copy_from_slice(sn);
    Some(FirstAlone {
        writer: Guid {
            prefix: source,
            entity: EntityId(entity),
        },
        order,
        number,
        others: whole.div_ceil(u32::from(size)).saturating_sub(1).min(MOST),
    })
}

/// The last change of a datagram whose first fragment came alone, as some products send it again: they wait until the others are
/// asked for.
pub fn first_alone(bytes: &[u8]) -> Option<FirstAlone> {
    let (source, mut left) = begin_message(bytes)?;
    let mut found = None;
    for _ in 0..bytes.len() {
        let Some((frame, rest)) = next_frame(left) else {
            break;
        };
        if frame.id == ID_DATA_FRAG {
            found = first_in(source, frame.flags, frame.body);
        }
        left = rest;
    }
    found
}

fn octets_of(order: Endianness, number: u32) -> [u8; 4] {
    match order {
        Endianness::Little => number.to_le_bytes(),
        Endianness::Big => number.to_be_bytes(),
    }
}

/// So many bits of a word, from its highest on.
fn bits(count: u32) -> u32 {
    if count >= 32 {
        u32::MAX
    } else {
        !(u32::MAX >> count)
    }
}

/// A message by which a reader of ours asks for the fragments behind the first: a NACK_FRAG of this count.
pub fn asking(
    alloc: Global,
    reader: &Guid,
    first: &FirstAlone,
    count: u32,
) -> Result<Octets, AllocError> {
    let words = first.others.div_ceil(32);
    let len = words.saturating_mul(4).saturating_add(28);
    let octets = u8::try_from(len).unwrap_or(u8::MAX);
    let (flags, len) = match first.order {
        Endianness::Little => (1, [octets, 0]),
        Endianness::Big => (0, [0, octets]),
    };
    let mut octets = Vec::from_slice(alloc, &[b'R', b'T', b'P', b'S', 2, 5, 0, 0])?;
    octets.extend_from_slice(reader.prefix.as_slice())?;
    octets.extend_from_slice(&[ID_NACK_FRAG, flags, len[0], len[1]])?;
    octets.extend_from_slice(reader.entity.as_slice())?;
    octets.extend_from_slice(first.writer.entity.as_slice())?;
    octets.extend_from_slice(&first.number)?;
    octets.extend_from_slice(&octets_of(first.order, 2))?;
    octets.extend_from_slice(&octets_of(first.order, first.others))?;
    for word in 0..words {
        let left = first.others.saturating_sub(word.saturating_mul(32));
        octets.extend_from_slice(&octets_of(first.order, bits(left)))?;
    }
    octets.extend_from_slice(&octets_of(first.order, count))?;
    Ok(Octets::from_vec(octets))
}
