//! A DATA_FRAG.
//!
//! `specs/DataFrag.antt` draws it.
//!
//! RTPS 2.5, 8.3.8.3 and 9.4.5.4 (DataFrag).

ghost use Rattle.std.specs.Prelude.{◌≡◌, ◌≤◌, ◌<◌, ◌-◌, IfSome, Some, None, []};
ghost use Rattle.std.specs.Option.{option_map};
ghost use Rattle.rtps_wire.specs.Fields.{order_of};
ghost use Rattle.rtps_wire.specs.DataAt.{data_head_at};
ghost use Rattle.rtps_fragments.specs.DataFrag.{Fragment, IsFragment, data_flags};
ghost use Rattle.rtps_fragments.specs.Hearing.{IsFragmentOf};
ghost use Rattle.rtps_fragments.specs.DataFragAt.{said, counts_at, inline_at, fragment_with, fragment_at};

use crate::field::{has_flag, order_of, take_entity_id, take_sn};
use crate::names::{
    FLAG_DATA, FLAG_ENDIANNESS, FLAG_FRAG_KEY, FLAG_FRAG_NON_STANDARD, FLAG_INLINE_QOS, FLAG_KEY,
    ID_DATA_FRAG, LEAST_OCTETS_TO_INLINE_QOS, MAX_CARRIED,
};
use dds_base::{Endianness, EntityId, take_octets, take_u16, take_u32};
use rtps_wire::{Frame, MAX_SN, skip_parameters};
use std::marker::Model;

/// What a DATA_FRAG names.
#[derive(Clone, Copy)]
struct Names {
    octets_to_inline_qos: u16,
    reader_id: EntityId,
    writer_id: EntityId,
    writer_sn: u64,
}

/// The numbers of a DATA_FRAG's fragments.
#[derive(Clone, Copy)]
struct Counts {
    fragment_starting_num: u32,
    fragments_in_submessage: u16,
    fragment_size: u16,
    sample_size: u32,
}

/// Some fragments of a payload, which can be kept. The octets are lent by the datagram. Contracts see what it says.
///
/// RTPS 2.5, 8.3.8.3.
#[derive(Drop)]
pub struct DataFrag<'a> {
    /// Those of a DATA with this payload.
    pub flags: u8,
    /// The reader that it is for.
    pub reader_id: EntityId,
    /// The writer that speaks.
    pub writer_id: EntityId,
    /// The number of the change.
    pub writer_sn: u64,
    /// The number of the first fragment, counted from 1.
    pub fragment_starting_num: usize,
    /// How many there are.
    pub fragments_in_submessage: usize,
    /// How long each is, but for the last of the payload.
    pub fragment_size: usize,
    /// How long the payload is.
    pub sample_size: usize,
    /// The parameters with their sentinel, or none.
    pub parameters: &'a [u8],
    /// The fragments.
    pub octets: &'a [u8],
}

impl<'a> Model for DataFrag<'a> {
    ghost use Rattle.rtps_fragments.specs.DataFrag.{Fragment, IsFragment};
    ghost use Rattle.rtps_fragments.specs.DataFragAt.{said};

    ghost Value = { Fragment };

    ghost view = { λ f. said f.flags f.reader_id f.writer_id f.writer_sn f.fragment_starting_num
        f.fragments_in_submessage f.fragment_size f.sample_size f.parameters.now f.octets.now };

    ghost invariant = { λ f. IsFragment (said f.flags f.reader_id f.writer_id f.writer_sn f.fragment_starting_num
        f.fragments_in_submessage f.fragment_size f.sample_size f.parameters.now f.octets.now) };
}

/// What it names.
#[tactic(auto, unfolding(rtps_wire::specs::DataAt::data_head_at))]
fn take_names(order: Endianness, body: &[u8]) -> Option<(Names, &[u8])>
    ensures value { option_map (λ x. (
      x.0.octets_to_inline_qos,
      x.0.reader_id,
      x.0.writer_id,
      x.0.writer_sn,
      x.1.now,
    )) result ≡ data_head_at order body.now }
    ensures small { IfSome result (λ x. x.0.writer_sn ≤ MAX_SN) }
{
    let (_, rest) = take_u16(order, body)?;
    let (octets_to_inline_qos, rest) = take_u16(order, rest)?;
    let (reader_id, rest) = take_entity_id(rest)?;
    let (writer_id, rest) = take_entity_id(rest)?;
    let (writer_sn, rest) = take_sn(order, rest)?;
    let names = Names {
        octets_to_inline_qos,
        reader_id,
        writer_id,
        writer_sn,
    };
    Some((names, rest))
}

/// The numbers of the fragments.
#[tactic(auto, unfolding(crate::specs::DataFragAt::counts_at))]
fn take_counts(order: Endianness, bytes: &[u8]) -> Option<(Counts, &[u8])>
    ensures { option_map (λ x. (
      x.0.fragment_starting_num,
      x.0.fragments_in_submessage,
      x.0.fragment_size,
      x.0.sample_size,
      x.1.now,
    )) result ≡ counts_at order bytes.now }
{
    let (fragment_starting_num, rest) = take_u32(order, bytes)?;
    let (fragments_in_submessage, rest) = take_u16(order, rest)?;
    let (fragment_size, rest) = take_u16(order, rest)?;
    let (sample_size, rest) = take_u32(order, rest)?;
    let counts = Counts {
        fragment_starting_num,
        fragments_in_submessage,
        fragment_size,
        sample_size,
    };
    Some((counts, rest))
}

/// The parameters with their sentinel, where flag Q is set, and what follows.
#[tactic(auto, unfolding(crate::specs::DataFragAt::inline_at))]
fn take_inline(flags: u8, bytes: &[u8]) -> Option<(&[u8], &[u8])>
    ensures { option_map (λ x. (x.0.now, x.1.now)) result ≡ inline_at flags bytes.now }
{
    if has_flag(flags, FLAG_INLINE_QOS) {
        let rest = skip_parameters(order_of(flags), bytes)?;
        return Some((&bytes[..bytes.len() - rest.len()], rest));
    }
    Some((&[], bytes))
}

/// The flags of a DATA with the payload of a DATA_FRAG.
fn data_flags(flags: u8) -> u8
    ensures { result ≡ data_flags flags }
{
    let order = if has_flag(flags, FLAG_ENDIANNESS) {
        FLAG_ENDIANNESS
    } else {
        0
    };
    let inline = if has_flag(flags, FLAG_INLINE_QOS) {
        FLAG_INLINE_QOS
    } else {
        0
    };
    let form = if has_flag(flags, FLAG_FRAG_KEY) {
        FLAG_KEY
    } else {
        FLAG_DATA
    };
    order + inline + form
}

/// The DATA_FRAG with the fragments at the front of octets. `None` where they can't be kept, or are not all there.
#[tactic(auto, unfolding(crate::specs::DataFragAt::fragment_with))]
fn fragment_with<'a>(
    flags: u8,
    names: Names,
    counts: Counts,
    parameters: &'a [u8],
    bytes: &'a [u8],
) -> Option<DataFrag<'a>>
    requires { names.writer_sn ≤ MAX_SN }
    ensures { result ≡ fragment_with (said (data_flags flags) names.reader_id names.writer_id
        names.writer_sn counts.fragment_starting_num counts.fragments_in_submessage
        counts.fragment_size counts.sample_size parameters.now []) bytes.now }
{
    // These show the prover how many octets the names have.
    let _reader = names.reader_id.as_slice();
    let _writer = names.writer_id.as_slice();
    let first = counts.fragment_starting_num as usize;
    let count = counts.fragments_in_submessage as usize;
    let size = counts.fragment_size as usize;
    let whole = counts.sample_size as usize;
    if names.writer_sn < 1
        || first < 1
        || count < 1
        || size < 1
        || (whole + size - 1) / size < first - 1 + count
        || MAX_CARRIED < whole
        || MAX_CARRIED - whole < parameters.len()
    {
        return None;
    }
    let extent = (count * size).min(whole.saturating_sub((first - 1) * size));
    let (octets, _) = take_octets(bytes, extent)?;
    Some(DataFrag {
        flags: data_flags(flags),
        reader_id: names.reader_id,
        writer_id: names.writer_id,
        writer_sn: names.writer_sn,
        fragment_starting_num: first,
        fragments_in_submessage: count,
        fragment_size: size,
        sample_size: whole,
        parameters,
        octets,
    })
}

/// The DATA_FRAG of a body, where that is valid.
#[tactic(auto, unfolding(crate::specs::DataFragAt::fragment_at))]
fn fragment_of(flags: u8, body: &[u8]) -> Option<DataFrag<'_>>
    ensures { result ≡ fragment_at flags body.now }
{
    if has_flag(flags, FLAG_FRAG_NON_STANDARD) {
        return None;
    }
    let order = order_of(flags);
    let (names, rest) = take_names(order, body)?;
    let (counts, rest) = take_counts(order, rest)?;
    if names.octets_to_inline_qos < LEAST_OCTETS_TO_INLINE_QOS {
        return None;
    }
    let skipped = names.octets_to_inline_qos - LEAST_OCTETS_TO_INLINE_QOS;
    let (_, rest) = take_octets(rest, skipped as usize)?;
    let (parameters, rest) = take_inline(flags, rest)?;
    fragment_with(flags, names, counts, parameters, rest)
}

/// The DATA_FRAG of an id, flags and a body. `None` of any other submessage.
fn fragment_in(id: u8, flags: u8, body: &[u8]) -> Option<DataFrag<'_>>
    ensures { IsFragmentOf id flags body.now result }
{
    if id != ID_DATA_FRAG {
        return None;
    }
    fragment_of(flags, body)
}

/// The DATA_FRAG that a submessage is. `None` of any other submessage, and of fragments that can't be kept: one whose
/// number is 0 or beyond the payload, a payload that no DATA in one datagram carries, and a body that is cut short.
pub fn read_fragment<'a>(frame: &Frame<'a>) -> Option<DataFrag<'a>>
    ensures { IsFragmentOf frame.now.id frame.now.flags frame.now.body.now result }
{
    fragment_in(frame.id, frame.flags, frame.body)
}
