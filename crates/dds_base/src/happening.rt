//! What happens at a reader.
//!
//! DDS 1.4, 2.2.2.5 (DataReader), 2.2.3 (LIVELINESS), 2.2.4.1 (communication statuses).

use crate::change::Change;
use crate::handle::Handle;
use crate::key::Key;
use crate::moment::Moment;
use crate::qos::MatchedWriter;
use crate::sequence::Sequence;
use crate::sn::Sn;

/// A change that came at a reader.
#[derive(Drop)]
pub struct Arrival {
    /// The publication handle of its writer, from 1.
    pub writer: Handle,
    /// Its number at that writer, from 1.
    pub number: Sn,
    /// What the writer did to an instance.
    pub change: Change,
    /// The moment of the reader's peer at which it came, below 2^63.
    pub moment: Moment,
}

/// The changes from `first` to `last` of a writer, both of them too, which a reader passed over. `first` is at most
/// `last`.
#[derive(Clone, Copy, Debug, PartialEq, Eq)]
pub struct PassedRun {
    /// From 1.
    pub first: Sn,
    /// From `first`.
    pub last: Sn,
}

/// A sample of a reader: its instance, and which happening is its change or death.
#[derive(Clone, Copy, PartialEq, Eq, Hash)]
pub struct SamplePosition {
    /// Its instance.
    pub key: Key,
    /// The number of the happening, counted from 1: the oldest has 1, although a list of happenings begins with the
    /// newest.
    pub position: u64,
}

/// The statuses of a reader that a getter or a listener's notice looks at.
///
/// DDS 1.4, 2.2.4.1 (communication statuses).
#[derive(Clone, Copy)]
pub enum StatusKind {
    /// DATA_AVAILABLE.
    DataAvailable,
    /// SAMPLE_LOST.
    SampleLost,
    /// LIVELINESS_CHANGED.
    LivelinessChanged,
}

/// One thing that happened at a reader. Writers are named by their publication handles.
#[derive(Drop)]
pub enum Happening {
    /// A change came.
    Came(Arrival),
    /// The changes from `first` to `last` of a writer, both of them too, were passed over.
    Passed { writer: Handle, first: Sn, last: Sn },
    /// A writer asserted its liveliness without a change, which the reader heard at this moment of its peer.
    Heard { writer: Handle, moment: Moment },
    /// A writer is alive no more, as its lease ran out or its peer left, from this moment of the reader's peer on.
    Died { writer: Handle, moment: Moment },
    /// A writer left: it is matched no more, from this moment of the reader's peer on.
    Left { writer: Handle, moment: Moment },
    /// A writer was matched that was not known: it has the next publication handle.
    Joined(MatchedWriter),
    /// A read returned these samples.
    Read(Sequence<SamplePosition>),
    /// A take returned these samples.
    Took(Sequence<SamplePosition>),
    /// A status was looked at.
    Looked(StatusKind),
}
