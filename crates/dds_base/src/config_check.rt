//! Which configurations are taken, and why the others are not.
//!
//! DDS 1.4, 2.2.1.1 (BAD_PARAMETER, INCONSISTENT_POLICY), 2.2.3 (supported QoS).

ghost use Rattle.std.specs.Prelude.{◌≡◌, None, Some, IfOk, IfErr, IfSome, IfNone};
ghost use Rattle.dds_base.specs.Checked.{check_refusal};
ghost use Rattle.dds_base.specs.Faults.{Breaks, code_of_rule};
ghost use Rattle.dds_base.specs.FaultAt.{writers_fault, readers_fault, peer_fault, pass_fault, config_fault};

use crate::code::Code;
use crate::config::{Config, PeerConfig};
use crate::config_fault::{ConfigFault, ConfigPlace};
use crate::config_rules::{Pass, peer_rule, reader_rule, whole_rule, writer_rule};

impl Config {
    /// Whether this configuration is one that peers can have. It takes no memory.
    ///
    /// # Errors
    ///
    /// The first of these that holds anywhere. `BadParameter`: not 1 to 16 peers, or more than 16 writers or readers at
    /// one; a prefix of twelve zeros; two equal prefixes, or two equal entities of one peer; an entity kind other than
    /// 0x02 at a writer and 0x07 at a reader; a depth of 0; a maximum that is neither -1 nor positive; a `max_arrivals`
    /// of 0 or above 2^63; a lease of 0 or of 2^63 and more; a `max_value` of 0 or above `MAX_VALUE`.
    /// `InconsistentPolicy`: a depth above a limited `max_samples`; a matched pair whose ownership differs; whose writer
    /// is best-effort and whose reader is reliable; or whose writer has a longer lease than the reader asks for, or a
    /// greater `max_value` than the reader takes.
    ///
    /// DDS 1.4, 2.2.1.1 (return codes), 2.2.3 (consistent and compatible policies).
    pub fn check(&self) -> Result<(), Code>
        // Against what is taken there is no cause.
        ensures ok { IfOk result (λ done. check_refusal self.now.peers ≡ None) }
        // A refusal is by the first cause that there is.
        ensures err { IfErr result (λ code. check_refusal self.now.peers ≡ Some code) }
    {
        match self.fault() {
            Some(fault) => Err(fault.code()),
            None => Ok(()),
        }
    }

    /// Which rule this configuration breaks, and where; `None` where `check` takes it. It takes no memory.
    ///
    /// Of several faults it is the first with the code that `check` answers: of the whole, then by peer, and of a
    /// peer's faults its own, then its writers', then its readers'.
    ///
    /// DDS 1.4, 2.2.1.1 (return codes), 2.2.3 (consistent and compatible policies).
    pub fn fault(&self) -> Option<ConfigFault>
        // What is taken has no fault.
        ensures none { IfNone result (check_refusal self.now.peers ≡ None) }
        // A fault has the code of the refusal.
        ensures code { IfSome result
            (λ f. check_refusal self.now.peers ≡ Some (code_of_rule f.rule)) }
        // Its rule is broken at its place.
        ensures broken { IfSome result (λ fault. Breaks self.now.peers fault) }
    {
        config_fault(self.peers.as_slice())
    }
}

/// The fault of a configuration of these peers.
fn config_fault(peers: &[PeerConfig]) -> Option<ConfigFault>
    ensures { result ≡ config_fault peers.now }
{
    if let Some(rule) = whole_rule(peers) {
        let place = ConfigPlace::Whole;
        return Some(ConfigFault { place, rule });
    }
    if let Some(fault) = pass_fault(Pass::Parameters, peers) {
        return Some(fault);
    }
    pass_fault(Pass::Policies, peers)
}

/// The first fault of these peers.
fn pass_fault(pass: Pass, peers: &[PeerConfig]) -> Option<ConfigFault>
    ensures { result ≡ pass_fault pass peers.now }
{
    for (at, peer) in peers.iter().enumerate() {
        if let Some(fault) = peer_fault(pass, peers, at + 1, peer) {
            return Some(fault);
        }
    }
    None
}

/// The first fault of a peer, which has this number.
fn peer_fault(
    pass: Pass,
    peers: &[PeerConfig],
    number: usize,
    peer: &PeerConfig,
) -> Option<ConfigFault>
    ensures { result ≡ peer_fault pass peers.now number peer.now }
{
    if let Some(rule) = peer_rule(pass, peers, peer) {
        let place = ConfigPlace::Peer { peer: number };
        return Some(ConfigFault { place, rule });
    }
    if let Some(fault) = writers_fault(pass, number, peer) {
        return Some(fault);
    }
    readers_fault(pass, peers, number, peer)
}

/// The first fault of a peer's writers.
fn writers_fault(pass: Pass, number: usize, peer: &PeerConfig) -> Option<ConfigFault>
    ensures { result ≡ writers_fault pass number peer.now }
{
    for (at, writer) in peer.writers.as_slice().iter().enumerate() {
        if let Some(rule) = writer_rule(pass, peer, writer) {
            let place = ConfigPlace::Writer {
                peer: number,
                writer: at + 1,
            };
            return Some(ConfigFault { place, rule });
        }
    }
    None
}

/// The first fault of a peer's readers.
fn readers_fault(
    pass: Pass,
    peers: &[PeerConfig],
    number: usize,
    peer: &PeerConfig,
) -> Option<ConfigFault>
    ensures { result ≡ readers_fault pass peers.now number peer.now }
{
    for (at, reader) in peer.readers.as_slice().iter().enumerate() {
        if let Some(rule) = reader_rule(pass, peers, peer, reader) {
            let place = ConfigPlace::Reader {
                peer: number,
                reader: at + 1,
            };
            return Some(ConfigFault { place, rule });
        }
    }
    None
}
