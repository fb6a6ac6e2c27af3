//! Why a configuration is refused.
//!
//! DDS 1.4, 2.2.1.1 (BAD_PARAMETER, INCONSISTENT_POLICY), 2.2.3 (supported QoS). The interface for C is this project's own.

ghost use Rattle.std.specs.Prelude.{◌≡◌};
ghost use Rattle.dds_c.specs.Faults.{FaultSaid, FaultWritten, flat_of, number_of_rule};

use crate::config::{FlatPeer, FlatReader, FlatWriter, config, name_no_peer};
use crate::out::copy_out;
use dds_base::{Code, ConfigFault, ConfigPlace, ConfigRule};
use std::alloc::{AllocError, Global};

/// Which rule a configuration breaks, and where.
///
/// DDS 1.4, 2.2.3 (supported QoS).
#[repr(C)]
#[derive(Clone, Copy)]
pub struct FlatFault {
    /// The code with which the configuration is refused.
    pub code: u8,
    /// From 1 the rules in the order of `ConfigRule`; 0 where a writer or a reader names a peer that there isn't.
    pub rule: u8,
    /// What breaks it: 0 all of the configuration, 1 a peer, 2 a writer of a peer, 3 a reader of a peer.
    pub place: u8,
    /// The number of the peer, from 1; 0 for none.
    pub peer: u64,
    /// The number of the writer or the reader, from 1; 0 for none.
    pub number: u64,
}

/// What is said where a writer or a reader names no peer.
const NO_PEER: &str = "the configuration: a writer or a reader names a peer that there isn't";

fn number_of_rule(rule: ConfigRule) -> u8
    ensures { result ≡ number_of_rule rule }
{
    match rule {
        ConfigRule::PeerCount => 1,
        ConfigRule::WriterCount => 2,
        ConfigRule::ReaderCount => 3,
        ConfigRule::KnownPrefix => 4,
        ConfigRule::OwnPrefix => 5,
        ConfigRule::OwnEntity => 6,
        ConfigRule::EntityKind => 7,
        ConfigRule::Depth => 8,
        ConfigRule::MaxSamples => 9,
        ConfigRule::MaxInstances => 10,
        ConfigRule::MaxArrivals => 11,
        ConfigRule::Lease => 12,
        ConfigRule::DepthWithinMaximum => 13,
        ConfigRule::SameOwnership => 14,
        ConfigRule::OfferedLease => 15,
        ConfigRule::MaxValue => 16,
        ConfigRule::OfferedValue => 17,
        ConfigRule::OfferedReliability => 18,
    }
}

fn flat_of(fault: &ConfigFault) -> FlatFault
    ensures { result ≡ flat_of fault.now }
{
    let (place, peer, number) = match fault.place {
        ConfigPlace::Whole => (0, 0, 0),
        ConfigPlace::Peer { peer } => (1, peer, 0),
        ConfigPlace::Writer { peer, writer } => (2, peer, writer),
        ConfigPlace::Reader { peer, reader } => (3, peer, reader),
    };
    FlatFault {
        code: fault.code().number(),
        rule: number_of_rule(fault.rule),
        place,
        peer: peer as u64,
        number: number as u64,
    }
}

/// Writes a fault, and copies the sentence that says it.
pub(crate) fn fault_out(
    alloc: Global,
    found: Option<ConfigFault>,
    fault: &mut FlatFault,
    buffer: &mut [u8],
    needed: &mut usize,
) -> u8
    ensures written { FaultWritten found fault.old fault.new buffer.old buffer.new needed.old needed.new result }
{
    let Some(found) = found else {
        return Code::NoData.number();
    };
    match format!(in alloc; "{found}") {
        Ok(text) => {
            *fault = flat_of(&found);
            copy_out(text.as_bytes(), buffer, needed)
        }
        Err(AllocError) => Code::Memory.number(),
    }
}

/// Which rule a configuration breaks, and where. It is written in numbers, and a sentence that says it is copied to the
/// start of the buffer; `needed` is how many octets that has.
///
/// # Errors
///
/// NO_DATA where it breaks none, MEMORY: then nothing is written. OUT_OF_RESOURCES where the buffer is too short: then
/// no octet is copied, and `needed` says how long it has to be.
///
/// DDS 1.4, 2.2.1.1 (return codes), 2.2.3 (consistent and compatible policies).
#[unsafe(no_mangle)]
pub extern "C" fn cw_config_fault(
    alloc: Global,
    peers: &[FlatPeer],
    writers: &[FlatWriter],
    readers: &[FlatReader],
    fault: &mut FlatFault,
    buffer: &mut [u8],
    needed: &mut usize,
) -> u8
    // It is a fault of that configuration, wherever it has one; where it has none nothing is written.
    ensures fault { FaultSaid peers.now writers.now readers.now
        fault.old fault.new buffer.old buffer.new needed.old needed.new result }
{
    if name_no_peer(peers.len(), writers, readers) {
        *fault = FlatFault {
            code: Code::BadParameter.number(),
            rule: 0,
            place: 0,
            peer: 0,
            number: 0,
        };
        return copy_out(NO_PEER.as_bytes(), buffer, needed);
    }
    match config(alloc, peers, writers, readers) {
        Ok(config) => fault_out(alloc, config.fault(), fault, buffer, needed),
        Err(AllocError) => Code::Memory.number(),
    }
}
