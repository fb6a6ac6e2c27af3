//! What goes into the memory of a caller.
//!
//! DDS 1.4, 2.2.2.5 (SampleInfo), 2.2.4.1 (communication statuses), 2.3.3 (the bits of states).

ghost use Rattle.std.specs.Prelude.{◌≡◌};
ghost use Rattle.dds_base.specs.Access.{instance_state_bit, sample_state_bit, view_state_bit};
ghost use Rattle.dds_c.specs.Fetching.{Copies, changed_of, info_of, last_number, last_peer, matched_of};

use dds_base::{
    Code, Endpoint, InstanceState, LivelinessChangedStatus, MatchedStatus, Sample, SampleState,
    ViewState,
};

/// What is said of a sample, and its key. The states are bits.
///
/// DDS 1.4, 2.2.2.5 (SampleInfo), 2.3.3.
#[repr(C)]
#[derive(Clone, Copy)]
pub struct FlatInfo {
    /// The sixteen octets of its key.
    pub key: [u8; 16],
    /// In units of 2^-32 second.
    pub source_timestamp: u64,
    pub instance_handle: u64,
    pub publication_handle: u64,
    pub disposed_generation_count: u64,
    pub no_writers_generation_count: u64,
    pub sample_rank: u64,
    pub generation_rank: u64,
    pub absolute_generation_rank: u64,
    /// 1 read, 2 not read.
    pub sample_state: u32,
    /// 1 new, 2 not new.
    pub view_state: u32,
    /// 1 alive, 2 disposed, 4 without writers.
    pub instance_state: u32,
    pub valid_data: bool,
}

/// A status that is a total: SAMPLE_LOST, LIVELINESS_LOST.
///
/// DDS 1.4, 2.2.4.1.
#[repr(C)]
#[derive(Clone, Copy)]
pub struct FlatTotal {
    pub total_count: u64,
    pub total_count_change: u64,
}

/// LIVELINESS_CHANGED.
///
/// DDS 1.4, 2.2.4.1.
#[repr(C)]
#[derive(Clone, Copy)]
pub struct FlatChanged {
    pub alive_count: i32,
    pub not_alive_count: i32,
    pub alive_count_change: i32,
    pub not_alive_count_change: i32,
    /// 0 for none.
    pub last_publication_handle: u64,
}

/// PUBLICATION_MATCHED of a writer, SUBSCRIPTION_MATCHED of a reader.
///
/// DDS 1.4, 2.2.4.1.
#[repr(C)]
#[derive(Clone, Copy)]
pub struct FlatMatched {
    pub total_count: u64,
    pub total_count_change: u64,
    pub current_count: i64,
    pub current_count_change: i64,
    /// The peer of the reader or writer with which the last match was made or ended, 0 for none.
    pub last_peer: u32,
    /// The number of that reader or writer there, 0 for none.
    pub last_number: u8,
}

fn sample_bit(state: SampleState) -> u32
    ensures { result ≡ sample_state_bit state }
{
    match state {
        SampleState::Read => 1,
        SampleState::NotRead => 2,
    }
}

fn view_bit(state: ViewState) -> u32
    ensures { result ≡ view_state_bit state }
{
    match state {
        ViewState::New => 1,
        ViewState::NotNew => 2,
    }
}

fn instance_bit(state: InstanceState) -> u32
    ensures { result ≡ instance_state_bit state }
{
    match state {
        InstanceState::Alive => 1,
        InstanceState::NotAliveDisposed => 2,
        InstanceState::NotAliveNoWriters => 4,
    }
}

/// What is said of a sample.
pub fn info_of(sample: &Sample) -> FlatInfo
    ensures { result ≡ info_of sample.now }
{
    let info = sample.info;
    FlatInfo {
        key: sample.key.0,
        source_timestamp: info.source_timestamp.units(),
        instance_handle: info.instance_handle.number(),
        publication_handle: info.publication_handle.number(),
        disposed_generation_count: info.disposed_generation_count,
        no_writers_generation_count: info.no_writers_generation_count,
        sample_rank: info.sample_rank,
        generation_rank: info.generation_rank,
        absolute_generation_rank: info.absolute_generation_rank,
        sample_state: sample_bit(info.sample_state),
        view_state: view_bit(info.view_state),
        instance_state: instance_bit(info.instance_state),
        valid_data: info.valid_data,
    }
}

/// LIVELINESS_CHANGED, as C reads it.
pub fn changed_of(status: LivelinessChangedStatus) -> FlatChanged
    ensures { result ≡ changed_of status }
{
    FlatChanged {
        alive_count: status.alive_count,
        not_alive_count: status.not_alive_count,
        alive_count_change: status.alive_count_change,
        not_alive_count_change: status.not_alive_count_change,
        last_publication_handle: status.last_publication_handle.number(),
    }
}

fn last_peer(last: Option<Endpoint>) -> u32
    ensures { result ≡ last_peer last }
{
    match last {
        Some(end) => end.peer,
        None => 0,
    }
}

fn last_number(last: Option<Endpoint>) -> u8
    ensures { result ≡ last_number last }
{
    match last {
        Some(end) => end.number,
        None => 0,
    }
}

/// PUBLICATION_MATCHED or SUBSCRIPTION_MATCHED, as C reads it.
pub fn matched_of(status: MatchedStatus) -> FlatMatched
    ensures { result ≡ matched_of status }
{
    FlatMatched {
        total_count: status.total_count,
        total_count_change: status.total_count_change,
        current_count: status.current_count,
        current_count_change: status.current_count_change,
        last_peer: last_peer(status.last),
        last_number: last_number(status.last),
    }
}

/// Copies octets to the start of a buffer, and says how many there are; where they do not fit, nothing is copied, and
/// the answer is OUT_OF_RESOURCES.
pub fn copy_out(octets: &[u8], buffer: &mut [u8], needed: &mut usize) -> u8
    ensures copies { Copies octets.now buffer.old buffer.new needed.new result }
{
    *needed = octets.len();
    if buffer.len() < octets.len() {
        return Code::OutOfResources.number();
    }
    let (head, _) = buffer.split_at_mut(octets.len());
    head.copy_from_slice(octets);
    Code::Ok.number()
}
