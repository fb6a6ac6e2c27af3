//! Whether a builtin reader of a participant begins: then it has nothing of us.
//!
//! `specs/Again.antt` says it.
//!
//! RTPS 2.5, 9.4.5 (AckNack), 9.3.1 (entity ids of SEDP).

ghost use Rattle.std.specs.Prelude.{◌≡◌, unwrap_or, false};
ghost use Rattle.rtps_wire.specs.Fields.{has_flag, order_of};
ghost use Rattle.dds_discovery.specs.Again.{BeginsAgain, SaysAgain, is_beginning, is_sedp_writer, nothing_at};

use dds_base::{Endianness, take_octets, take_u32};
use rtps_wire::{begin_message, next_frame};

/// ACKNACK.
const ID_ACKNACK: u8 = 0x06;

/// E: numbers are little-endian.
const FLAG_ENDIANNESS: u8 = 0x01;

/// F: the writer need not answer.
const FLAG_FINAL: u8 = 0x02;

/// Whether a flag is set.
fn has_flag(flags: u8, flag: u8) -> bool
    ensures { result ≡ has_flag flags flag }
{
    flags & flag == flag
}

/// The order of octets that the flags name.
fn order_of(flags: u8) -> Endianness
    ensures { result ≡ order_of flags }
{
    if has_flag(flags, FLAG_ENDIANNESS) {
        Endianness::Little
    } else {
        Endianness::Big
    }
}

/// Whether these are the octets of one of our writers of SEDP.
fn is_sedp_writer(octets: &[u8]) -> bool
    ensures { result ≡ is_sedp_writer octets.now }
{
    octets == [0, 0, 3, 0xc2].as_slice() || octets == [0, 0, 4, 0xc2].as_slice()
}

/// Whether the body of an ACKNACK is for a writer of SEDP, and says that nothing came and nothing is missing; `None`
/// where it is cut.
#[tactic(auto, unfolding(crate::specs::Again::nothing_at))]
fn nothing_at(order: Endianness, body: &[u8]) -> Option<bool>
    ensures { result ≡ nothing_at order body.now }
{
    let (_, rest) = take_octets(body, 4)?;
    let (writer, rest) = take_octets(rest, 4)?;
    let (high, rest) = take_u32(order, rest)?;
    let (low, rest) = take_u32(order, rest)?;
    let (bits, _) = take_u32(order, rest)?;
    Some(is_sedp_writer(writer) && high == 0 && low <= 1 && bits == 0)
}

/// Whether the body of an ACKNACK says so.
fn has_nothing(order: Endianness, body: &[u8]) -> bool
    ensures { result ≡ unwrap_or (nothing_at order body.now) false }
{
    nothing_at(order, body).unwrap_or(false)
}

/// Whether a submessage is an ACKNACK of a builtin reader that begins: it asks for an answer, its base is 0 or 1, and
/// it has no bits.
fn is_beginning(id: u8, flags: u8, body: &[u8]) -> bool
    ensures { result ≡ is_beginning id flags body.now }
{
    id == ID_ACKNACK && !has_flag(flags, FLAG_FINAL) && has_nothing(order_of(flags), body)
}

/// Whether one of the submessages of a body says that a builtin reader begins.
fn says_again(body: &[u8]) -> bool
    ensures { SaysAgain body.now result }
{
    let mut left = body;
    while let Some((frame, rest)) = next_frame(left) {
        if is_beginning(frame.id, frame.flags, frame.body) {
            return true;
        }
        left = rest;
    }
    false
}

/// Whether a datagram says that a builtin reader begins.
pub fn begins_again(bytes: &[u8]) -> bool
    ensures { BeginsAgain bytes.now result }
{
    match begin_message(bytes) {
        Some((_, body)) => says_again(body),
        None => false,
    }
}
