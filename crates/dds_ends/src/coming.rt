//! Those that a writer is matched with, as they come and go.
//!
//! RTPS 2.5, 8.4.7.4 (StatefulWriter, matched_reader_add, matched_reader_remove).

ghost use Rattle.std.specs.Prelude.{◌≡◌, ◌+◌, ◌++◌, ◌<◌, ◌≤◌, [], ◌∷◌, if◌then◌else◌, length, vec_len, vec_capacity, IfErr, OnErr, OnOk};
ghost use Rattle.dds_base.specs.declared.code.Code.TheVariants.{Memory};
ghost use Rattle.rtps_writer.specs.Standing.{StandsFor, reader_count};
ghost use Rattle.rtps_writer.specs.WriterState.{WriterState, joined};
ghost use Rattle.dds_ends.specs.Coming.{is_first_of, set_count, with_peer, with_place, without};
ghost use Rattle.dds_ends.specs.Beating.{first_peers};
ghost use Rattle.dds_ends.specs.Meeting.{is_full, with_known};
ghost use Rattle.dds_ends.specs.MatchedEnds.{has_count, last_count};

use crate::matching::{Destination, LastCount, ReaderName, TopicName};
use dds_base::{Code, Endpoint, MAX_ENDS};
use rtps_writer::StatefulWriter;

/// How many readers a writer knows at most: as many as a status counts.
const MAX_KNOWN: usize = i32::MAX as usize;

/// Takes the names of this reader out.
pub fn remove_name(names: &mut Vec<ReaderName>, reader: Endpoint)
    ensures { names.new.items ≡ without names.old.items reader }
{
    names.retain(|name| name.reader != reader);
}

/// Whether no earlier one of these readers is of the same peer as the one of this row.
fn is_first_of(names: &[ReaderName], row: usize) -> bool
    requires { row < length names.now }
    ensures { result ≡ is_first_of names.now row }
{
    let peer = names[row].reader.peer;
    let earlier = &names[..row];
    !earlier.iter().any(|name| name.reader.peer == peer)
}

/// Writes the peers of these readers, each where its first reader is, over others, of which there are no fewer.
pub fn set_peers(peers: &mut Vec<Destination>, names: &[ReaderName])
    requires { length (first_peers names.now) ≤ length peers.old.items }
    ensures { peers.new.items ≡ first_peers names.now }
{
    let mut count = 0;
    for row in 0..names.len() {
        if is_first_of(names, row) {
            peers[count] = names[row].peer();
            count += 1;
        }
    }
    peers.truncate(count);
}

/// Adds this peer, unless it is there. There is room for one more.
pub fn add_peer(peers: &mut Vec<Destination>, peer: Destination)
    requires { vec_len peers.old < vec_capacity peers.old }
    ensures { peers.new.items ≡ with_peer peers.old.items peer }
{
    if peers.as_slice().iter().any(|d| d.peer == peer.peer) {
        return;
    }
    peers.push_reserved(peer);
}

/// Whether a writer that knows these readers knows as many of this peer as a peer has at most, or as many as can be.
pub fn is_full(known: &[TopicName], peer: u32) -> bool
    ensures { result ≡ is_full known.now peer }
{
    let here = known.iter().filter(|k| k.name.reader.peer == peer).count();
    MAX_ENDS <= here || MAX_KNOWN <= known.len()
}

/// Adds this reader to those that a writer knows, unless it is there. There is room for one more.
pub fn add_known(known: &mut Vec<TopicName>, reader: TopicName)
    requires { vec_len known.old < vec_capacity known.old }
    ensures { known.new.items ≡ with_known known.old.items reader.name reader.is_reliable }
{
    let name = reader.name.reader;
    if known.as_slice().iter().any(|k| k.name.reader == name) {
        return;
    }
    known.push_reserved(reader);
}

/// The count that is kept of this reader, if there is one.
fn last_count(counts: &[LastCount], reader: Endpoint) -> Option<i32>
    ensures { result ≡ last_count counts.now reader }
{
    for row in 0..counts.len() {
        if counts[row].reader == reader {
            return counts[row].count;
        }
    }
    None
}

/// Keeps this count of the reader, which has a place.
pub fn set_count(counts: &mut [LastCount], reader: Endpoint, count: Option<i32>)
    ensures { counts.new ≡ set_count counts.old reader count }
{
    for row in 0..counts.len() {
        if counts[row].reader == reader {
            counts[row].count = count;
            return;
        }
    }
}

/// Makes a place for the count of this reader, unless it has one. There is room for one more.
fn add_place(counts: &mut Vec<LastCount>, reader: Endpoint)
    requires { vec_len counts.old < vec_capacity counts.old }
    ensures { counts.new.items ≡ with_place counts.old.items reader }
{
    if counts.as_slice().iter().any(|kept| kept.reader == reader) {
        return;
    }
    counts.push_reserved(LastCount {
        reader,
        count: None,
    });
}

/// Makes a row, last, of the reader of this name, where that is reliable: of these names and counts, and of the writer.
/// The reader is silent where it is greeted.
///
/// # Errors
///
/// `Memory` where a growth was refused; all is then as it was.
pub fn add_row(
    readers: &mut Vec<ReaderName>,
    counts: &mut Vec<LastCount>,
    writer: &mut StatefulWriter,
    name: ReaderName,
    is_reliable: bool,
    greeted: bool,
) -> Result<(), Code>
    ensures readers { OnOk result
        (readers.new.items
        ≡ (if is_reliable then readers.old.items ++ name ∷ [] else readers.old.items)) }
    ensures counts { OnOk result
        (counts.new.items
        ≡ (if is_reliable then with_place counts.old.items name.reader else counts.old.items)) }
    ensures writer { (s : WriterState) → StandsFor writer.old s
        → OnOk result (StandsFor writer.new
        (if is_reliable then joined s (last_count counts.old.items name.reader) greeted else s)) }
    ensures rows { OnOk result
        (reader_count writer.new + length readers.old.items
        ≡ reader_count writer.old + length readers.new.items) }
    ensures err_readers { OnErr result (readers.new.items ≡ readers.old.items) }
    ensures err_counts { OnErr result (counts.new.items ≡ counts.old.items) }
    ensures err_writer { OnErr result (writer.new ≡ writer.old) }
    ensures memory { IfErr result (λ code. code ≡ Memory) }
{
    if !is_reliable {
        return Ok(());
    }
    // Before anything changes.
    readers.reserve(1)?;
    counts.reserve(1)?;
    let count = last_count(counts.as_slice(), name.reader);
    writer.join(count, greeted)?;
    readers.push_reserved(name);
    add_place(counts, name.reader);
    Ok(())
}
