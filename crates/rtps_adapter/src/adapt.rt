//! A datagram, and what it turns into.
//!
//! RTPS 2.5, 8.3.4 (the message receiver) and 9.4.5 (submessages).

ghost use Rattle.std.specs.Prelude.{◌≡◌, ◌≤◌, ◌<◌, ◌++◌, [], ℕ, List, length, map, false, IfOk, IfErr, OnOk, MatchBool, Ok};
ghost use Rattle.std.specs.List.{list_any};
ghost use Rattle.rtps_wire.specs.Fields.{order_of};
ghost use Rattle.rtps_wire.specs.Frames.{frame_text};
ghost use Rattle.rtps_wire.specs.Names.{max_message};
ghost use Rattle.rtps_adapter.specs.declared.adapt.Adapted.TheVariants.{AsItIs};
ghost use Rattle.rtps_adapter.specs.Turning.{Piece, turned};
ghost use Rattle.rtps_adapter.specs.declared.direction.Way.TheVariants.{Filling};
ghost use Rattle.rtps_adapter.specs.Filling.{filled, gap_of, gap_piece};
ghost use Rattle.rtps_adapter.specs.Adapting.{StandsIn, texts_of, becomes, is_touched, Stays, IsAnswer, NeedsNothing, Answers};
ghost use Rattle.rtps_adapter.specs.PayloadText.{Puts, piece_in};

use crate::change::{Change, change_of, is_foreign};
use crate::data::{FLAG_ENDIANNESS, order_of};
use crate::direction::{Direction, Way};
use crate::filling::{ID_GAP, LEN_GAP, Named, lost_number, put_gap_body};
use crate::kinds::WriterKind;
use dds_base::{Code, Endianness, GuidPrefix, Octets};
use rtps_wire::{Frame, MAX_MESSAGE, MAX_SN, begin_message, next_frame};
use std::alloc::Global;

/// The header of a submessage: id, flags and length.
const LEN_SUBMESSAGE_HEADER: usize = 4;

/// So many octets a DATA takes more, at most, where its payload stands in a datum.
const MAX_GROWTH: usize = 28;

/// What becomes of a datagram.
#[derive(Drop)]
pub enum Adapted {
    /// It is handed on as it stands: nothing of it has to be turned.
    AsItIs,
    /// These octets are handed on in its place.
    Rewritten(Octets),
    /// What it turns into is longer than a message may be, so nothing of it is handed on.
    TooLong,
}

/// Whether a submessage does not stay as it is.
fn is_touched(way: Way, kinds: &[WriterKind], source: &GuidPrefix, frame: &Frame) -> bool
    ensures { (text : List ℕ) → result ≡ is_touched way kinds.now source.now
        (piece_in frame.now.id frame.now.flags frame.now.body.now text) }
{
    match way {
        Way::Turning(_) => is_foreign(kinds, source, frame),
        Way::Filling => is_foreign(kinds, source, frame)
            || lost_number(kinds, source, frame).is_some(),
    }
}

/// Whether a submessage of a body does not stay as it is.
fn has_touched(way: Way, kinds: &[WriterKind], source: &GuidPrefix, body: &[u8]) -> bool
    ensures { (ps : List Piece) × (left : List ℕ) × StandsIn body.now ps left
        × (result ≡ list_any (is_touched way kinds.now source.now) ps) }
{
    let mut has = false;
    let mut left = body;
    while let Some((frame, rest)) = next_frame(left) {
        has |= is_touched(way, kinds, source, &frame);
        left = rest;
    }
    has
}

/// Appends octets, if a message is then no longer than it may be. Returns whether it is.
fn put_within(out: &mut Vec<u8>, octets: &[u8]) -> Result<bool, Code>
    ensures ok { IfOk result (Puts out.old.items out.new.items octets.now) }
    ensures memory { IfErr result (λ e. e ≡ Code.Memory) }
{
    if MAX_MESSAGE < out.len() || MAX_MESSAGE - out.len() < octets.len() {
        return Ok(false);
    }
    out.extend_from_slice(octets)?;
    Ok(true)
}

/// Appends the header of a submessage.
fn put_submessage_header(out: &mut Vec<u8>, id: u8, flags: u8, len: u16) -> Result<(), Code>
    ensures ok { OnOk result (out.new.items ≡ out.old.items ++ frame_text id flags len []) }
    ensures memory { IfErr result (λ e. e ≡ Code.Memory) }
{
    let [first, second] = match order_of(flags) {
        Endianness::Big => len.to_be_bytes(),
        Endianness::Little => len.to_le_bytes(),
    };
    out.extend_from_slice(&[id, flags, first, second])?;
    Ok(())
}

/// Appends a submessage with other flags and another body, if a message is then no longer than it may be. Returns
/// whether it is.
fn put_change(out: &mut Vec<u8>, id: u8, change: &Change) -> Result<bool, Code>
    ensures ok { IfOk result (Puts out.old.items out.new.items
        (frame_text id change.now.0 (length change.now.1) change.now.1)) }
    ensures memory { IfErr result (λ e. e ≡ Code.Memory) }
{
    let Some(len) = change.body_len() else {
        return Ok(false);
    };
    let len_with_header = LEN_SUBMESSAGE_HEADER + len;
    if MAX_MESSAGE < out.len() || MAX_MESSAGE - out.len() < len_with_header {
        return Ok(false);
    }
    put_submessage_header(out, id, change.flags(), len as u16)?;
    change.put_body(out)?;
    Ok(true)
}

/// Appends what a submessage turns into, which stands in these octets, if a message is then no longer than it may be.
/// Returns whether it is.
fn put_turned(
    out: &mut Vec<u8>,
    direction: Direction,
    kinds: &[WriterKind],
    source: &GuidPrefix,
    frame: &Frame,
    octets: &[u8],
) -> Result<bool, Code>
    ensures ok { IfOk result (Puts out.old.items out.new.items
        (turned direction kinds.now source.now (piece_in frame.now.id frame.now.flags
        frame.now.body.now octets.now)).text) }
    ensures memory { IfErr result (λ e. e ≡ Code.Memory) }
{
    match change_of(direction, kinds, source, frame) {
        Some(change) => put_change(out, frame.id, &change),
        None => put_within(out, octets),
    }
}

/// Appends a GAP of a number, if a message is then no longer than it may be. Returns whether it is.
fn put_gap(out: &mut Vec<u8>, named: &Named) -> Result<bool, Code>
    requires number { named.now.sn < MAX_SN }
    ensures ok { IfOk result (Puts out.old.items out.new.items (gap_piece
        (gap_of named.now.reader named.now.writer named.now.sn)).text) }
    ensures memory { IfErr result (λ e. e ≡ Code.Memory) }
{
    // These show the prover how many octets the names have.
    let _reader = named.reader.as_slice();
    let _writer = named.writer.as_slice();
    if MAX_MESSAGE < out.len() || MAX_MESSAGE - out.len() < LEN_SUBMESSAGE_HEADER + LEN_GAP {
        return Ok(false);
    }
    put_submessage_header(out, ID_GAP, FLAG_ENDIANNESS, LEN_GAP as u16)?;
    put_gap_body(out, named)?;
    Ok(true)
}

/// Appends what a submessage turns into for a peer, or a GAP of a number that the peer could not read, if a message is
/// then no longer than it may be. Returns whether it is.
fn put_filled(
    out: &mut Vec<u8>,
    kinds: &[WriterKind],
    source: &GuidPrefix,
    frame: &Frame,
    octets: &[u8],
) -> Result<bool, Code>
    ensures ok { IfOk result (Puts out.old.items out.new.items
        (filled kinds.now source.now (piece_in frame.now.id frame.now.flags
        frame.now.body.now octets.now)).text) }
    ensures memory { IfErr result (λ e. e ≡ Code.Memory) }
{
    match lost_number(kinds, source, frame) {
        Some(named) => put_gap(out, &named),
        None => put_turned(out, Direction::Inward, kinds, source, frame, octets),
    }
}

/// Appends what a submessage becomes, which stands in these octets, if a message is then no longer than it may be.
/// Returns whether it is.
fn put_piece(
    out: &mut Vec<u8>,
    way: Way,
    kinds: &[WriterKind],
    source: &GuidPrefix,
    frame: &Frame,
    octets: &[u8],
) -> Result<bool, Code>
    ensures ok { IfOk result (Puts out.old.items out.new.items
        (becomes way kinds.now source.now (piece_in frame.now.id frame.now.flags
        frame.now.body.now octets.now)).text) }
    ensures memory { IfErr result (λ e. e ≡ Code.Memory) }
{
    match way {
        Way::Turning(direction) => put_turned(out, direction, kinds, source, frame, octets),
        Way::Filling => put_filled(out, kinds, source, frame, octets),
    }
}

/// Appends what the submessages of a body become, and what is not read behind them, if a message is then no longer
/// than it may be. Returns whether it is.
fn put_all(
    out: &mut Vec<u8>,
    way: Way,
    kinds: &[WriterKind],
    source: &GuidPrefix,
    body: &[u8],
) -> Result<bool, Code>
    ensures ok { IfOk result (λ fits. (ps : List Piece) × (left : List ℕ)
        × StandsIn body.now ps left × Puts out.old.items out.new.items
        (texts_of (map (becomes way kinds.now source.now) ps) ++ left) fits) }
    ensures memory { IfErr result (λ e. e ≡ Code.Memory) }
{
    let mut left = body;
    while let Some((frame, rest)) = next_frame(left) {
        let octets = &left[..left.len() - rest.len()];
        if !put_piece(out, way, kinds, source, &frame, octets)? {
            return Ok(false);
        }
        left = rest;
    }
    put_within(out, left)
}

/// What a datagram becomes.
fn adapt(alloc: Global, way: Way, kinds: &[WriterKind], bytes: &[u8]) -> Result<Adapted, Code>
    ensures answers { IfOk result (IsAnswer way kinds.now bytes.now) }
    ensures lent { Stays way kinds.now bytes.now → result ≡ Ok AsItIs }
    ensures memory { IfErr result (λ e. e ≡ Code.Memory) }
{
    let Some((source, body)) = begin_message(bytes) else {
        return Ok(Adapted::AsItIs);
    };
    if !has_touched(way, kinds, &source, body) {
        return Ok(Adapted::AsItIs);
    }
    let mut out = Vec::with_capacity(alloc, bytes.len() + MAX_GROWTH)?;
    out.extend_from_slice(&bytes[..bytes.len() - body.len()])?;
    if !put_all(&mut out, way, kinds, &source, body)? {
        return Ok(Adapted::TooLong);
    }
    Ok(Adapted::Rewritten(Octets::from_vec(out)))
}

/// What a datagram of the network turns into before a peer reads it: the payload of each DATA whose writer's topic
/// carries another type stands in a datum, as its value, with the key that the rule finds. All else stays as it is. A
/// payload whose value or key can't be found stays too, and the flag N of its DATA is set, by which a peer reads
/// none.
///
/// Where nothing has to be turned no memory is needed, and the datagram is to be handed on as it stands.
///
/// # Errors
///
/// `Memory` where no memory was found for the octets. The datagram counts as lost then.
///
/// RTPS 2.5, 8.3.4 and 9.4.5.
pub fn inward(alloc: Global, kinds: &[WriterKind], bytes: &[u8]) -> Result<Adapted, Code>
    // What is handed on is what the datagram turns into, and no other.
    ensures answers { IfOk result (Answers Direction.Inward kinds.now bytes.now) }
    // Where nothing has to be turned it is handed on as it stands.
    ensures lent { NeedsNothing kinds.now bytes.now → result ≡ Ok AsItIs }
    // The only refusal is for want of memory.
    ensures memory { IfErr result (λ e. e ≡ Code.Memory) }
{
    adapt(alloc, Way::Turning(Direction::Inward), kinds, bytes)
}

/// What a datagram of the network turns into before a peer reads it, as `inward` says, but for numbers whose payload the
/// peer could not read: each of these stands in a GAP, for the same reader, of the same writer, so that a reliable
/// reader does not ask for it again and again. They are
///
/// - that of a DATA of another type than the datum whose payload can't be found (cut, octetsToInlineQos below 16, no
///   sentinel, N, or D and K), can't be turned, or has a value of more octets than the table says;
/// - that of a DATA_FRAG of a writer that the table names.
///
/// A number that is not read for its parameters or its status stands in none. Where the head of such a submessage is
/// cut, or its number is none from 1 to 2^62 - 1, it stays as `inward` has it.
///
/// Where nothing has to be turned, and no number stands in a GAP, no memory is needed, and the datagram is to be handed
/// on as it stands.
///
/// # Errors
///
/// `Memory` where no memory was found for the octets. The datagram counts as lost then.
///
/// RTPS 2.5, 8.3.4 and 9.4.5 (Data, DataFrag, Gap).
pub fn inward_with_gaps(alloc: Global, kinds: &[WriterKind], bytes: &[u8]) -> Result<Adapted, Code>
    // What is handed on is what the datagram becomes, and no other.
    ensures answers { IfOk result (IsAnswer Filling kinds.now bytes.now) }
    // Where each submessage stays it is handed on as it stands.
    ensures lent { Stays Filling kinds.now bytes.now → result ≡ Ok AsItIs }
    // The only refusal is for want of memory.
    ensures memory { IfErr result (λ e. e ≡ Code.Memory) }
{
    adapt(alloc, Way::Filling, kinds, bytes)
}

/// What a datagram of a peer turns into before it goes to the network: the value of each datum of a writer whose
/// topic carries another type stands as a payload again. All else stays as it is. A datum whose value is no payload,
/// or has another key than the rule finds, stays too, and the flag N of its DATA is set, by which nobody reads it.
///
/// Where nothing has to be turned no memory is needed, and the datagram is to be handed on as it stands.
///
/// # Errors
///
/// `Memory` where no memory was found for the octets. The datagram counts as lost then.
///
/// RTPS 2.5, 8.3.4 and 9.4.5.
pub fn outward(alloc: Global, kinds: &[WriterKind], bytes: &[u8]) -> Result<Adapted, Code>
    // What is handed on is what the datagram turns into, and no other.
    ensures answers { IfOk result (Answers Direction.Outward kinds.now bytes.now) }
    // Where nothing has to be turned it is handed on as it stands.
    ensures lent { NeedsNothing kinds.now bytes.now → result ≡ Ok AsItIs }
    // The only refusal is for want of memory.
    ensures memory { IfErr result (λ e. e ≡ Code.Memory) }
{
    adapt(alloc, Way::Turning(Direction::Outward), kinds, bytes)
}
