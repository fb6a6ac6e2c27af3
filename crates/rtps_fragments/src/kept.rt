//! The numbers of one writer that are not whole.
//!
//! RTPS 2.5, 8.3.8.3 (DataFrag).

ghost use Rattle.std.specs.Prelude.{◌≡◌, ◌<◌, length, slice_index_or, IfOk, IfErr, OnErr};
ghost use Rattle.std.specs.List.{position};
ghost use Rattle.rtps_fragments.specs.Keeping.{nothing_of, with_fragments, is_number, begun, heard_at, heard};
ghost use Rattle.rtps_fragments.specs.Telling.{Answers};

use crate::assembly::Assembly;
use crate::data_frag::DataFrag;
use crate::names::MAX_NUMBERS;
use crate::telling::InForce;
use dds_base::{Code, Octets};
use std::alloc::Global;

/// The place of a number.
fn place_of(kept: &[Assembly], writer_sn: u64) -> Option<usize>
    ensures { result ≡ position (is_number writer_sn) kept.now }
{
    kept.iter()
        .position(|assembly| assembly.is_number(writer_sn))
}

/// A number that is not kept: it comes in behind the others, unless it is whole at once.
fn begin(
    kept: &mut Vec<Assembly>,
    alloc: Global,
    in_force: &InForce,
    fragment: &DataFrag,
) -> Result<Option<Octets>, Code>
    ensures ok { IfOk result (λ m. Answers in_force.now fragment.now kept.new.items m
        (begun kept.old.items
        (with_fragments (nothing_of fragment.now) fragment.now in_force.now.timestamp))) }
    ensures err { OnErr result (kept.new.items ≡ kept.old.items) }
    ensures memory { IfErr result (λ e. e ≡ Code.Memory) }
{
    let mut fresh = Assembly::begin(alloc, fragment)?;
    if fresh.is_whole_with(fragment) {
        let message = fresh.message(alloc, in_force, fragment)?;
        return Ok(Some(message));
    }
    fresh.add(alloc, fragment, in_force.timestamp)?;
    kept.push(fresh)?;
    if MAX_NUMBERS < kept.len() {
        let _ = kept.remove(0);
    }
    Ok(None)
}

/// A number that is kept at a place.
fn go_on(
    kept: &mut Vec<Assembly>,
    place: usize,
    alloc: Global,
    in_force: &InForce,
    fragment: &DataFrag,
) -> Result<Option<Octets>, Code>
    requires { place < length kept.old.items }
    ensures ok { IfOk result (λ m. Answers in_force.now fragment.now kept.new.items m
        (heard_at kept.old.items place
        (slice_index_or kept.old.items place (nothing_of fragment.now)) fragment.now
        in_force.now.timestamp)) }
    ensures err { OnErr result (kept.new.items ≡ kept.old.items) }
    ensures memory { IfErr result (λ e. e ≡ Code.Memory) }
{
    let assembly = &mut kept[place];
    if !assembly.is_alike(fragment) {
        return Ok(None);
    }
    if !assembly.is_whole_with(fragment) {
        assembly.add(alloc, fragment, in_force.timestamp)?;
        return Ok(None);
    }
    let message = assembly.message(alloc, in_force, fragment)?;
    let _ = kept.remove(place);
    Ok(Some(message))
}

/// What the numbers of a writer become by a DATA_FRAG of it, and the message of a payload that it made whole.
pub fn hear(
    kept: &mut Vec<Assembly>,
    alloc: Global,
    in_force: &InForce,
    fragment: &DataFrag,
) -> Result<Option<Octets>, Code>
    ensures ok { IfOk result (λ m. Answers in_force.now fragment.now kept.new.items m
        (heard kept.old.items fragment.now in_force.now.timestamp)) }
    ensures err { OnErr result (kept.new.items ≡ kept.old.items) }
    ensures memory { IfErr result (λ e. e ≡ Code.Memory) }
{
    match place_of(kept.as_slice(), fragment.writer_sn) {
        Some(place) => go_on(kept, place, alloc, in_force, fragment),
        None => begin(kept, alloc, in_force, fragment),
    }
}
