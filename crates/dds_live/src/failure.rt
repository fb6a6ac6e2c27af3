//! Why a participant does not begin, and what the system does not give.

use dds_base::Code;
use std::alloc::{AllocError, AllocFailed};
use std::net::Ipv4Addr;
use thiserror::Error;

/// Why a participant does not begin, or goes on without what was to come.
///
/// RTPS 2.5, 9.6.2 (well-known ports); DDS 1.4, 2.2.3 (supported QoS).
#[derive(Debug, Drop, Error)]
pub enum Failure {
    /// There are the domains 0 to 230: above them ports end.
    #[error("there is no domain {0}: they end with 230")]
    NoDomain(u32),
    /// A domain has the indices 0 to 119 on a machine.
    #[error("there is no index {0}: they end with 119")]
    NoIndex(u32),
    /// Nothing goes to this address.
    #[error("no network: there is no route to {0}")]
    NoRoute(Ipv4Addr),
    /// This address is not ours.
    #[error("{0} is no address of this machine")]
    NotOurs(Ipv4Addr),
    /// The port of the index is taken.
    #[error("port {0} is taken")]
    PortTaken(u16),
    /// All ports of the domain are taken.
    #[error("each of the 120 ports of domain {0} is taken")]
    NoPort(u32),
    /// Our peer can't have so many endpoints.
    #[error("at most 16 writers and 16 readers of ours exchange samples")]
    TooManyEnds,
    /// The topic of the endpoint at this place, from 1, has no such name.
    #[error("endpoint {0}: the name of its topic has more than 256 octets, or one that is zero")]
    TopicName(u8),
    /// The type of the endpoint at this place, from 1, has no such name.
    #[error("endpoint {0}: the name of its type has more than 256 octets, or one that is zero")]
    TypeName(u8),
    /// Our peer does not hold to what the endpoint at this place, from 1, offers or asks for.
    #[error("endpoint {0}: no peer holds to these policies")]
    Policies(u8),
    /// The values of the endpoint at this place, from 1, have no such length.
    #[error("endpoint {0}: a value has at most 1 to 65000 octets")]
    MaxValue(u8),
    /// The socket does not work any more.
    #[error("the socket failed")]
    SocketFailed,
    /// The system tells no time.
    #[error("the clock failed")]
    ClockFailed,
    /// The system has no random octets for our name.
    #[error("there are no random octets")]
    NoRandom,
    /// There is no memory.
    #[error("memory")]
    Memory,
}

impl From<AllocError> for Failure {
    fn from(_e: AllocError) -> Failure {
        Failure::Memory
    }
}

impl<T: Drop> From<AllocFailed<T>> for Failure {
    fn from(_e: AllocFailed<T>) -> Failure {
        Failure::Memory
    }
}

impl From<Code> for Failure {
    fn from(_e: Code) -> Failure {
        Failure::Memory
    }
}
