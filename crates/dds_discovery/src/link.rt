//! The network with a participant, with what its peer sent and did not go out yet.
//!
//! RTPS 2.5, 8.5.4 (SEDP).

ghost use Rattle.std.specs.Prelude.{◌≡◌};
ghost use Rattle.dds_discovery.specs.Dues.{is_link};

use dds_base::{Guid, GuidPrefix};
use dds_network::Network;
use dds_protocol::Packet;
use rtps_announcements::EndpointKind;

/// The network with a participant.
#[derive(Drop)]
pub struct Link {
    /// Our peer there.
    pub network: Network,
    /// What it sent last and did not go out yet, in the order in which it goes out.
    pub packets: Vec<Packet>,
}

/// An endpoint of ours that was taken out.
#[derive(Clone, Copy)]
pub struct Removed {
    /// Its name.
    pub guid: Guid,
    /// Whether it was a writer or a reader.
    pub kind: EndpointKind,
}

impl Link {
    /// Whether it is with this participant.
    pub(crate) fn is_of(&self, prefix: &GuidPrefix) -> bool
        ensures { result ≡ is_link prefix.now self.now }
    {
        self.network.prefix == *prefix
    }
}
