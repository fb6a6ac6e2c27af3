//! The sum of a configuration, by which processes see that they were given the same one.
//!
//! DDS 1.4, 2.2.3 (supported QoS). The sum is this project's own.

ghost use Rattle.std.specs.Prelude.{◌≡◌, ◌≢◌, ◌⊎◌, true, false, length};
ghost use Rattle.std.specs.List.{fold};
ghost use Rattle.dds_c.specs.Opening.{config_of, names_no_peer};
ghost use Rattle.dds_c.specs.Sums.{bit, mixed, mixed_best_effort, mixed_lease, mixed_value, number_of_history, number_of_ownership, number_of_reliability, sum_of, with_peer, with_reader, with_writer};

use crate::config::{FlatPeer, FlatReader, FlatWriter, config, name_no_peer};
use dds_base::{
    Code, Config, HistoryQos, OwnershipQos, PeerConfig, ReaderConfig, ReliabilityQos, USUAL_VALUE,
    WriterConfig,
};
use std::alloc::{AllocError, Global};

/// What a sum is multiplied with before a number is added, in 64 bits: the prime of FNV-1a.
const FACTOR: u64 = 1_099_511_628_211;

/// What a best-effort writer adds to a sum: no `max_value` is that great.
const BEST_EFFORT: u64 = 1 << 32;

fn mix(sum: u64, number: u64) -> u64
    ensures { result ≡ mixed sum number }
{
    sum.wrapping_mul(FACTOR).wrapping_add(number)
}

fn mix_octets(sum: u64, octets: &[u8]) -> u64
    ensures { result ≡ fold mixed sum octets.now }
{
    octets
        .iter()
        .fold(sum, |sum, octet| mix(sum, u64::from(*octet)))
}

fn mix_lease(sum: u64, lease: Option<u64>) -> u64
    ensures { result ≡ mixed_lease sum lease }
{
    match lease {
        None => mix(sum, 0),
        Some(lease) => mix(mix(sum, 1), lease),
    }
}

fn number_of_ownership(ownership: OwnershipQos) -> u64
    ensures { result ≡ number_of_ownership ownership }
{
    match ownership {
        OwnershipQos::Shared => 0,
        OwnershipQos::Exclusive => 1,
    }
}

fn number_of_reliability(reliability: ReliabilityQos) -> u64
    ensures { result ≡ number_of_reliability reliability }
{
    match reliability {
        ReliabilityQos::Reliable => 0,
        ReliabilityQos::BestEffort => 1,
    }
}

fn number_of_history(history: HistoryQos) -> u64
    ensures { result ≡ number_of_history history }
{
    match history {
        HistoryQos::KeepAll => 0,
        HistoryQos::KeepLast(depth) => u64::from(depth) + 1,
    }
}

/// How long values may be, where that is not as usual: else the sum is that of the other policies.
#[tactic(auto, unfolding(crate::specs::Sums::mixed_value))]
fn mix_value(sum: u64, max_value: u32) -> u64
    ensures { result ≡ mixed_value sum max_value }
{
    if max_value == USUAL_VALUE {
        sum
    } else {
        mix(sum, u64::from(max_value))
    }
}

/// That a writer is best-effort, where it is: else the sum is that of the other policies.
fn mix_best_effort(sum: u64, reliability: ReliabilityQos) -> u64
    ensures { result ≡ mixed_best_effort sum reliability }
{
    match reliability {
        ReliabilityQos::Reliable => sum,
        ReliabilityQos::BestEffort => mix(sum, BEST_EFFORT),
    }
}

fn with_writer(sum: u64, writer: &WriterConfig) -> u64
    ensures { result ≡ with_writer sum writer.now }
{
    let sum = mix_octets(sum, &writer.entity.0);
    let sum = mix(sum, u64::from(writer.topic));
    let sum = mix(sum, number_of_ownership(writer.ownership));
    let sum = mix(sum, number_of_history(writer.history));
    let sum = mix(sum, u64::from(writer.max_samples.cast_unsigned()));
    let sum = mix(sum, u64::from(writer.strength.cast_unsigned()));
    let sum = mix(sum, u64::from(writer.autodispose));
    let sum = mix_lease(sum, writer.lease);
    let sum = mix_value(sum, writer.max_value);
    mix_best_effort(sum, writer.reliability)
}

fn with_reader(sum: u64, reader: &ReaderConfig) -> u64
    ensures { result ≡ with_reader sum reader.now }
{
    let sum = mix_octets(sum, &reader.entity.0);
    let sum = mix(sum, u64::from(reader.topic));
    let sum = mix(sum, number_of_ownership(reader.ownership));
    let sum = mix(sum, number_of_reliability(reader.reliability));
    let sum = mix(sum, number_of_history(reader.history));
    let sum = mix(sum, u64::from(reader.max_samples.cast_unsigned()));
    let sum = mix(sum, u64::from(reader.max_instances.cast_unsigned()));
    let sum = mix(sum, reader.max_arrivals);
    let sum = mix_lease(sum, reader.lease);
    mix_value(sum, reader.max_value)
}

fn with_writers(sum: u64, writers: &[WriterConfig]) -> u64
    ensures { result ≡ fold with_writer sum writers.now }
{
    writers
        .iter()
        .fold(sum, |sum, writer| with_writer(sum, writer))
}

fn with_readers(sum: u64, readers: &[ReaderConfig]) -> u64
    ensures { result ≡ fold with_reader sum readers.now }
{
    readers
        .iter()
        .fold(sum, |sum, reader| with_reader(sum, reader))
}

fn with_peer(sum: u64, peer: &PeerConfig) -> u64
    ensures { result ≡ with_peer sum peer.now }
{
    let (writers, readers) = (peer.writers.as_slice(), peer.readers.as_slice());
    let sum = mix_octets(sum, &peer.prefix.0);
    let sum = with_writers(sum, writers);
    let sum = with_readers(sum, readers);
    let sum = mix(sum, writers.len() as u64);
    mix(sum, readers.len() as u64)
}

fn sum_of(config: &Config) -> u64
    ensures { result ≡ sum_of config.now }
{
    let peers = config.peers.as_slice();
    peers.iter().fold(0, |sum, peer| with_peer(sum, peer))
}

/// The sum of a configuration, in 64 bits: equal configurations have equal sums, and two that differ nearly always
/// differ in it. Processes whose peers are to talk compare it first, since no call fails where their tables differ.
///
/// # Errors
///
/// BAD_PARAMETER where a writer or a reader names no peer, MEMORY: then nothing is written. Else a configuration that
/// `cw_open` refuses has a sum too.
#[unsafe(no_mangle)]
pub extern "C" fn cw_config_sum(
    alloc: Global,
    peers: &[FlatPeer],
    writers: &[FlatWriter],
    readers: &[FlatReader],
    sum: &mut u64,
) -> u8
    // It is the sum of that configuration, of which each writer and each reader has a peer.
    ensures sum { result ≡ 0 → (sum.new ≡ sum_of (config_of peers.now writers.now readers.now))
        × (names_no_peer (length peers.now) writers.now readers.now ≡ false) }
    // It is refused as one has none, or for want of memory, and then nothing is written.
    ensures refused { result ≢ 0 → (sum.new ≡ sum.old)
        × ((result ≡ 100) ⊎ ((result ≡ 3)
        × (names_no_peer (length peers.now) writers.now readers.now ≡ true))) }
{
    if name_no_peer(peers.len(), writers, readers) {
        return Code::BadParameter.number();
    }
    match config(alloc, peers, writers, readers) {
        Ok(config) => *sum = sum_of(&config),
        Err(AllocError) => return Code::Memory.number(),
    }
    Code::Ok.number()
}
