//! What a peer answers.
//!
//! DDS 1.4, 2.2.1.1 (return codes), 2.2.2.4 and 2.2.2.5 (what calls return); RTPS 2.5, 8.4 (behaviour).

use dds_base::{
    Code, Endpoint, Handle, Key, LivelinessChangedStatus, LivelinessLostStatus, MatchedStatus,
    PassedRun, Sample, SampleLostStatus, Sequence, Sn,
};
use dds_conditions::Cond;
use dds_notices::StatusMask;

/// What a delivery moved. Peers, writers and readers are numbered from 1.
///
/// RTPS 2.5, 8.4.10 (WriterProxy), 8.4.7 (ReaderProxy).
#[derive(Debug, Drop, PartialEq, Eq)]
pub enum Move {
    /// The place of the peer's reader in a writer's list is now `to`: the changes before it came, but for those of the
    /// passed runs, which stand in ascending order and apart from one another.
    Place {
        writer: Endpoint,
        reader: u8,
        to: Sn,
        passed: Sequence<PassedRun>,
    },
    /// The peer's reader has heard, by a HEARTBEAT, that a matched writer asserted its liveliness.
    Heard {
        writer: Endpoint,
        reader: u8,
    },
    /// The place of the peer's reader in a writer's list was `from`, and has begun at `to` since the two were matched: what
    /// lies between was not for the reader, and is not lost.
    Begun {
        writer: Endpoint,
        reader: u8,
        from: Sn,
        to: Sn,
    },
    /// A reader has acknowledged all changes below `to` of the peer's writer.
    Acknowledged {
        writer: u8,
        reader: Endpoint,
        to: Sn,
    },
    /// A reader has acknowledged changes that the peer's writer has not made, and nothing else was done with that. It
    /// knows the writer from an earlier life: the peer began anew under its old name, and the reader takes the changes
    /// of now for repeats, as many as it acknowledged then.
    Strange {
        writer: u8,
        reader: Endpoint,
    },
}

/// What a delivery did: its moves in the order in which they were made, and the index, from 0, of the submessage that
/// found no memory, from which on none was applied.
#[derive(Debug, Drop, PartialEq, Eq)]
pub struct Report {
    /// In the order in which they were made.
    pub moves: Sequence<Move>,
    /// `None` where each was applied, and where the bytes are no message.
    pub refused: Option<u32>,
}

/// The answer to an event.
#[derive(Debug, Drop, PartialEq, Eq)]
pub enum Reply {
    /// It was done: a call that answers nothing else, and a tick.
    Done,
    /// What a read or a take returns: never none, which is `NoData`.
    Samples(Sequence<Sample>),
    /// The key of a known instance.
    KeyValue(Key),
    /// The handle of an instance; HANDLE_NIL where it is not known. Of a match at a reader it is that of the publication.
    InstanceHandle(Handle),
    /// A look at SAMPLE_LOST.
    SampleLost(SampleLostStatus),
    /// A look at LIVELINESS_CHANGED.
    LivelinessChanged(LivelinessChangedStatus),
    /// A look at LIVELINESS_LOST.
    LivelinessLost(LivelinessLostStatus),
    /// A look at PUBLICATION_MATCHED of a writer, or at SUBSCRIPTION_MATCHED of a reader.
    Matched(MatchedStatus),
    /// The number of the condition or of the WaitSet that was made, from 1.
    Created(u32),
    /// Whether a condition is true.
    TriggerValue(bool),
    /// The conditions of a WaitSet, in the order in which they were attached.
    Conditions(Sequence<Cond>),
    /// Those of a WaitSet whose trigger value is true, in the same order: the wait is over.
    Active(Sequence<Cond>),
    /// The wait goes on.
    Waiting,
    /// The statuses that are flagged.
    StatusChanges(StatusMask),
    /// What a delivered packet did.
    Reported(Report),
    /// A refusal, with its cause. Nothing changed, but that `NoData` is entered as the access that it is, and that
    /// `Timeout` of a look at a WaitSet ends the wait.
    Refused(Code),
}
