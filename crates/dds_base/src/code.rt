//! Return codes.
//!
//! DDS 1.4, 2.2.1.1 (meanings), 2.3.3 (ReturnCode_t: numbers).

ghost use Rattle.std.specs.Prelude.{◌≡◌};
ghost use Rattle.dds_base.specs.declared.code.Code.TheVariants.{Memory};
ghost use Rattle.dds_base.specs.Code.{number_of_code, name_of_code};

use std::alloc::{AllocError, AllocFailed};
use std::fmt;

/// The return code of a call: the thirteen of the standard, with its numbers, then three of this project. What is said
/// below of calls is of all crates.
///
/// A call that is refused with a code has changed nothing, unless its own documentation says more. Printed, a code has
/// the standard's spelling: `BAD_PARAMETER`.
///
/// DDS 1.4, 2.2.1.1 (return codes), 2.3.3 (ReturnCode_t).
#[derive(Clone, Copy, Debug, PartialEq, Eq)]
pub enum Code {
    /// OK, 0: what was called for is done. It is never a refusal.
    Ok,
    /// ERROR, 1: a failure of no other kind. No call answers it.
    Error,
    /// UNSUPPORTED, 2: an operation or a policy that is optional in the standard and absent. No call answers it.
    Unsupported,
    /// BAD_PARAMETER, 3: a parameter that no call takes, or that names nothing. `Config::check` answers it for what is
    /// invalid by itself, each call of a peer for a writer, a reader or an entity that the peer lacks, a write for a
    /// value above `MAX_VALUE` octets, an access for a `max` that is neither -1 nor positive or an instance that is
    /// unknown, a look at a key for a handle that names none; the calls about conditions and WaitSets for one that is
    /// not there or was deleted, a recorder for room outside its bounds, a tick for a moment that goes back, a network
    /// for a packet that was not sent.
    BadParameter,
    /// PRECONDITION_NOT_MET, 4: a call that may not come yet. An unregister answers it for an instance that is not
    /// registered at its writer, calls about conditions and WaitSets as `Call` says, the setting of a listener for one
    /// that keeps notices already, and the closing of a shared peer where a pass is missing.
    PreconditionNotMet,
    /// OUT_OF_RESOURCES, 5: a counter is at its limit. What makes a change answers it after 2^48 changes of its writer,
    /// an assertion after 2^31 - 1 counts, what makes a condition, a WaitSet or a filter where no number is left, and
    /// the splitting of a pass where no seat is.
    OutOfResources,
    /// NOT_ENABLED, 6: an entity that is not enabled yet. No call answers it, since each peer is enabled from the
    /// start.
    NotEnabled,
    /// IMMUTABLE_POLICY, 7: a policy that can't be changed once its entity is enabled. No call answers it.
    ImmutablePolicy,
    /// INCONSISTENT_POLICY, 8: policies that contradict one another. `Config::check` answers it for those of one writer
    /// or reader, or of a matched pair.
    InconsistentPolicy,
    /// ALREADY_DELETED, 9: an entity that is gone. No call answers it: entities are never deleted, and a condition or a
    /// WaitSet that was deleted is as one that was not made.
    AlreadyDeleted,
    /// TIMEOUT, 10: a call that would have to wait. What makes a change answers it where its writer may not keep one
    /// more (max_blocking_time is 0), and a look at a WaitSet in which nothing is true, once its deadline has come.
    Timeout,
    /// NO_DATA, 11: nothing meets what an access asks for. A read or a take answers it.
    NoData,
    /// ILLEGAL_OPERATION, 12: a call on an entity that doesn't have it. No call answers it.
    IllegalOperation,
    /// MEMORY, 100, of this project: no memory was found. Whatever allocates answers it.
    Memory,
    /// LINK, 101, of this project: what carries packets is broken, as a socket that failed. What receives from a link
    /// answers it, and so does a worker that serves a peer over one. No call of a peer does.
    Link,
    /// MISMATCH, 103, of this project: the next piece of a trace does not follow upon those that were cut off. No program
    /// sees it: what cuts a trace asks, and finds that it follows. No call of a peer answers it.
    Mismatch,
}

impl Code {
    /// The number by which a script, or a caller of another language, knows the code.
    pub fn number(self) -> u8
        ensures number { result ≡ number_of_code self }
    {
        match self {
            Code::Ok => 0,
            Code::Error => 1,
            Code::Unsupported => 2,
            Code::BadParameter => 3,
            Code::PreconditionNotMet => 4,
            Code::OutOfResources => 5,
            Code::NotEnabled => 6,
            Code::ImmutablePolicy => 7,
            Code::InconsistentPolicy => 8,
            Code::AlreadyDeleted => 9,
            Code::Timeout => 10,
            Code::NoData => 11,
            Code::IllegalOperation => 12,
            Code::Memory => 100,
            Code::Link => 101,
            Code::Mismatch => 103,
        }
    }

    /// The name of the code, in the standard's spelling.
    ///
    /// DDS 1.4, 2.2.1.1.
    pub fn as_str(self) -> &'static str
        ensures spelling { result.now ≡ name_of_code self }
    {
        match self {
            Code::Ok => "OK",
            Code::Error => "ERROR",
            Code::Unsupported => "UNSUPPORTED",
            Code::BadParameter => "BAD_PARAMETER",
            Code::PreconditionNotMet => "PRECONDITION_NOT_MET",
            Code::OutOfResources => "OUT_OF_RESOURCES",
            Code::NotEnabled => "NOT_ENABLED",
            Code::ImmutablePolicy => "IMMUTABLE_POLICY",
            Code::InconsistentPolicy => "INCONSISTENT_POLICY",
            Code::AlreadyDeleted => "ALREADY_DELETED",
            Code::Timeout => "TIMEOUT",
            Code::NoData => "NO_DATA",
            Code::IllegalOperation => "ILLEGAL_OPERATION",
            Code::Memory => "MEMORY",
            Code::Link => "LINK",
            Code::Mismatch => "MISMATCH",
        }
    }
}

impl fmt::Display for Code {
    fn fmt<W: fmt::Write>(&self, f: &mut fmt::Formatter<W>) -> fmt::Result {
        f.write_str(self.as_str())
    }
}

impl From<AllocError> for Code {
    ghost from_gives = { λ _ e. e ≡ Memory };

    fn from(_e: AllocError) -> Code {
        Code::Memory
    }
}

impl<T: Drop> From<AllocFailed<T>> for Code {
    ghost from_gives = { λ _ e. e ≡ Memory };

    fn from(_e: AllocFailed<T>) -> Code {
        Code::Memory
    }
}
