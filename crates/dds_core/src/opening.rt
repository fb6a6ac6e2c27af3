//! How a peer is opened.
//!
//! DDS 1.4, 2.2.3 (policies of matched entities); RTPS 2.5, 8.2 (Participant, Endpoint).

ghost use Rattle.std.specs.Prelude.{◌≡◌, ◌+◌, ◌^◌, ◌<◌, ◌≤◌, length, None, Ok, IfOk, IfErr};
ghost use Rattle.std.specs.Fn.{FnReturnsAt};
ghost use Rattle.dds_base.specs.Checked.{check_refusal};
ghost use Rattle.dds_base.specs.Refusal.{Refuses};
ghost use Rattle.dds_core.specs.Opening.{InRosters, core_refusal, opening_peer};
ghost use Rattle.dds_core.specs.OpeningEnds.{OpensEach, OpensCore};
ghost use Rattle.dds_core.specs.Standing.{StandsFor};
ghost use Rattle.dds_protocol.specs.Roster.{roster_of};

use crate::peer::Peer;
use crate::spare_lists::SpareLists;
use dds_base::{Code, Config, Moment, PeerConfig, index_of_peer};
use dds_conditions::Watch;
use dds_ends::{ReaderEnd, WriterEnd};
use dds_names::KnownNames;
use std::alloc::{AllocError, Global};

/// What opens of each of these configurations, in their order.
fn open_each<C, E: Drop, F: Fn(&C) -> Result<E, AllocError>>(
    alloc: Global,
    configs: &[C],
    make: F,
) -> Result<Vec<E>, AllocError>
    requires callable { F.IsAlwaysCallable make }
    ensures { IfOk result (λ all.
        OpensEach (λ config end. FnReturnsAt F.Fn make config (Ok end)) configs.now all.items) }
{
    let mut all = Vec::new(alloc);
    for config in configs {
        all.push(make(config)?)?;
    }
    Ok(all)
}

/// A peer of a checked configuration, by its index; the first of its peers has this number.
pub(crate) fn open(
    alloc: Global,
    first: u32,
    peers: &[PeerConfig],
    index: usize,
) -> Result<Peer, AllocError>
    requires within { index < length peers.now }
    requires checked { check_refusal peers.now ≡ None }
    requires low { 1 ≤ first }
    requires room { first + length peers.now ≤ 2 ^ 32 }
    ensures { IfOk result (OpensCore first peers.now index) }
{
    let own = &peers[index];
    let writers = open_each(
        alloc,
        own.writers.as_slice(),
        |w| WriterEnd::open(alloc, first, peers, w),
    )?;
    let readers = open_each(
        alloc,
        own.readers.as_slice(),
        |r| ReaderEnd::open(alloc, first, peers, r),
    )?;
    let names = KnownNames::open(alloc, first, peers)?;
    let watch = Watch::open(alloc, writers.len(), readers.len())?;
    Ok(Peer {
        alloc,
        prefix: own.prefix,
        moment: Moment::new(0),
        writers,
        readers,
        names,
        watch,
        spare: SpareLists::new(alloc),
    })
}

impl Peer {
    /// The peer of this number, at its opening. Its writers and readers are matched with those of equal topic.
    ///
    /// # Errors
    ///
    /// The first of these: what `Config::check` answers; `BadParameter` where the configuration has no peer of this
    /// number; `Memory` where a growth was refused.
    pub fn open(alloc: Global, config: &Config, peer: u32) -> Result<Peer, Code>
        // The peer stands for its opening in the roster of the configuration.
        ensures opening { IfOk result
            (λ core. StandsFor core (roster_of config.now) (opening_peer config.now peer)) }
        // So it does in each roster in which the peers of the configuration come first.
        ensures roster { IfOk result (λ core. InRosters config.now
            (λ roster. StandsFor core roster (opening_peer config.now peer))) }
        // Against what is opened there is no cause.
        ensures taken { IfOk result (λ core. core_refusal config.now.peers peer ≡ None) }
        // A refusal is by the first cause that there is, or for want of memory.
        ensures refused { IfErr result (Refuses (core_refusal config.now.peers peer)) }
    {
        config.check()?;
        let peers = config.peers.as_slice();
        let Some(index) = index_of_peer(peer, peers.len()) else {
            return Err(Code::BadParameter);
        };
        Ok(open(alloc, 1, peers, index)?)
    }
}
