//! NACK_FRAG: what is asked for of a change.
//!
//! `specs/NackFrag.antt` draws it.
//!
//! RTPS 2.5, 8.3.8.10 and 9.4.5.13 (NackFrag).

ghost use Rattle.std.specs.Prelude.{◌≡◌, ◌≤◌, ◌<◌, ◌+◌, ◌^◌, ◌++◌, length, not, true, slice_index_or, IfOk, IfErr, OnOk};
ghost use Rattle.std.specs.List.{position};
ghost use Rattle.rtps_fragments.specs.NackFrag.{missing_word, missing_words, nack_frag_of, nack_frag_text};

use crate::names::{FLAG_ENDIANNESS, ID_NACK_FRAG, MAX_ASKED, MAX_CARRIED};
use crate::telling::{put_header, put_submessage_header, put_u32, put_u64};
use dds_base::{Code, Endianness, Guid, Octets};
use std::alloc::Global;

/// How many bits a word has.
const WORD: usize = 32;

/// A change of a writer.
#[derive(Clone, Copy)]
pub struct ChangeId {
    /// The writer.
    pub writer: Guid,
    /// The number of the change.
    pub writer_sn: u64,
}

/// Whether a fragment is missing; one beyond the last is not.
fn is_missing(came: &[bool], place: usize) -> bool
    ensures { result ≡ not (slice_index_or came.now place true) }
{
    match came.get(place) {
        Some(came) => !*came,
        None => false,
    }
}

/// The word of the fragments from a place on, the highest bit first: 1 where one is missing.
fn missing_word(came: &[bool], place: usize) -> u32
    requires { place ≤ 2 ^ 20 }
    ensures { result ≡ missing_word came.now place 32 }
{
    let mut word = 0u64;
    for at in 0..WORD {
        let bit = if is_missing(came, place + at) { 1 } else { 0 };
        word = 2 * word + bit;
    }
    word as u32
}

/// Appends so many words of them.
fn put_missing(out: &mut Vec<u8>, came: &[bool], place: usize, words: usize) -> Result<(), Code>
    requires near { place ≤ MAX_CARRIED }
    requires few { words ≤ 8 }
    ensures ok { OnOk result (out.new.items ≡ out.old.items ++ missing_words came.now place words) }
    ensures memory { IfErr result (λ e. e ≡ Code.Memory) }
{
    for at in 0..words {
        put_u32(
            out,
            Endianness::Little,
            missing_word(came, place + WORD * at),
        )?;
    }
    Ok(())
}

/// The message, from the fragment at a place on.
fn nack_frag_from(
    alloc: Global,
    reader: &Guid,
    change: &ChangeId,
    came: &[bool],
    count: u32,
    place: usize,
) -> Result<Octets, Code>
    requires within { place < length came.now }
    requires few { length came.now ≤ MAX_CARRIED }
    ensures ok { IfOk result (λ m. m
        ≡ nack_frag_text reader.now change.now came.now count place) }
    ensures memory { IfErr result (λ e. e ≡ Code.Memory) }
{
    let bits = (came.len() - place).min(MAX_ASKED);
    let words = (bits + 31) / WORD;
    let len = 28 + 4 * words;
    let mut out = Vec::with_capacity(alloc, 24 + len)?;
    put_header(&mut out, &reader.prefix)?;
    put_submessage_header(&mut out, ID_NACK_FRAG, FLAG_ENDIANNESS, len as u16)?;
    out.extend_from_slice(reader.entity.as_slice())?;
    out.extend_from_slice(change.writer.entity.as_slice())?;
    put_u64(&mut out, Endianness::Little, change.writer_sn)?;
    put_u32(&mut out, Endianness::Little, (place + 1) as u32)?;
    put_u32(&mut out, Endianness::Little, bits as u32)?;
    put_missing(&mut out, came, place, words)?;
    put_u32(&mut out, Endianness::Little, count)?;
    Ok(Octets::from_vec(out))
}

/// Where the first fragment stands that is missing.
fn first_missing(came: &[bool]) -> Option<usize>
    ensures { result ≡ position not came.now }
{
    came.iter().position(|came| !*came)
}

/// The message by which a reader asks for the fragments of a change that did not come, of the first 256 from the first
/// one on: `came` says of each whether it came. `None` where none is missing.
///
/// # Errors
///
/// `Memory` where no memory was found for it.
///
/// RTPS 2.5, 8.3.8.10 (NackFrag).
pub fn write_nack_frag(
    alloc: Global,
    reader: &Guid,
    change: &ChangeId,
    came: &[bool],
    count: u32,
) -> Result<Option<Octets>, Code>
    // A payload has so many fragments at most.
    requires { length came.now ≤ MAX_CARRIED }
    // It names the reader, the writer, the number of the change, and exactly the fragments that are missing.
    ensures ok { IfOk result (λ m. m ≡ nack_frag_of reader.now change.now came.now count) }
    // The only refusal is for want of memory.
    ensures memory { IfErr result (λ e. e ≡ Code.Memory) }
{
    let Some(place) = first_missing(came) else {
        return Ok(None);
    };
    let octets = nack_frag_from(alloc, reader, change, came, count, place)?;
    Ok(Some(octets))
}
