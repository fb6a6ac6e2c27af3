//! A network is opened with a participant.
//!
//! RTPS 2.5, 8.5.4 (SEDP).

ghost use Rattle.std.specs.Prelude.{◌≡◌, IfOk, IfErr, MatchOption};
ghost use Rattle.dds_discovery.specs.Chores.{CantBeOpened, IsOpenLink};

use crate::link::Link;
use dds_base::{Code, GuidPrefix};
use dds_network::Network;
use rtps_announcements::Participant;
use std::alloc::Global;

/// A link with a participant, once so many endpoints of ours were taken out; `None` where its prefix and ours can't be
/// those of two peers.
#[tactic(auto, using(crate::proofs::Causes::has_cause))]
pub fn open_link(
    alloc: Global,
    own: GuidPrefix,
    far: &Participant,
    removed: usize,
) -> Result<Option<Link>, Code>
    ensures ok { IfOk result (λ o. MatchOption o (CantBeOpened own far.now)
        (IsOpenLink own far.now removed)) }
    ensures memory { IfErr result (λ e. e ≡ Code.Memory) }
{
    match Network::open(alloc, own, far, removed) {
        Ok(network) => Ok(Some(Link {
            network,
            packets: Vec::new(alloc),
        })),
        Err(Code::Memory) => Err(Code::Memory),
        Err(_) => Ok(None),
    }
}
