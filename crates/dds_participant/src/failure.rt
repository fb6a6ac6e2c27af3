//! What ends the program early.

ghost use Rattle.std.specs.Prelude.{◌≡◌};
ghost use Rattle.dds_participant.specs.Failures.{exit_of};

use dds_base::Code;
use dds_live::Failure as LiveFailure;
use dds_script::Fault;
use std::alloc::{AllocError, AllocFailed};
use std::net::Ipv4Addr;
use thiserror::Error;

/// Wrong words, or what the system does not give.
#[derive(Debug, Drop, Error)]
pub enum Failure {
    /// The words say nothing, for this cause.
    #[error("{0}")]
    Words(String),
    /// Nothing goes to this address.
    #[error("no network: there is no route to {0}; `--interface ADDRESS` says which address is ours")]
    NoRoute(Ipv4Addr),
    /// It does not begin, or does not go on, for another cause.
    #[error("{0}")]
    Live(LiveFailure),
    /// The input can't be read.
    #[error("input failed")]
    InputFailed,
    /// A line of the input has more than 131,080 octets.
    #[error("input too long")]
    LineTooLong,
    /// The trace can't be opened or written, for this cause.
    #[error("the trace failed: {0}")]
    TraceFailed(String),
    /// There is no memory.
    #[error("memory")]
    Memory,
    /// What is printed can't be written.
    #[error("output failed")]
    OutputFailed,
}

impl From<AllocError> for Failure {
    fn from(_e: AllocError) -> Failure {
        Failure::Memory
    }
}

impl<T: Drop> From<AllocFailed<T>> for Failure {
    fn from(_e: AllocFailed<T>) -> Failure {
        Failure::Memory
    }
}

impl From<Code> for Failure {
    fn from(_e: Code) -> Failure {
        Failure::Memory
    }
}

// Lines are made in memory, and go out at the end of a turn.
impl From<Fault> for Failure {
    fn from(_e: Fault) -> Failure {
        Failure::Memory
    }
}

impl From<LiveFailure> for Failure {
    fn from(e: LiveFailure) -> Failure {
        match e {
            LiveFailure::NoRoute(address) => Failure::NoRoute(address),
            LiveFailure::Memory => Failure::Memory,
            e => Failure::Live(e),
        }
    }
}

impl Failure {
    /// The exit status: 2 for wrong words, else 1.
    pub fn exit(&self) -> u8
        ensures status { result ≡ exit_of self.now }
    {
        match self {
            Failure::Words(_) => 2,
            _ => 1,
        }
    }
}
