//! What an application asks of its peer.
//!
//! DDS 1.4, 2.2.2.1 (Entity, Condition, WaitSet), 2.2.2.4 (DataWriter), 2.2.2.5 (DataReader).

ghost use Rattle.std.specs.Prelude.{◌≡◌};

use crate::far::{FarReader, FarWriter};
use dds_base::{Endpoint, Entity, Handle, Key, Masks, Moment, Octets, Scope, Selection};
use dds_conditions::Cond;
use dds_notices::StatusMask;
use std::alloc::AllocError;

/// A call at a peer. Writers and readers are named by their numbers there, which count from 1.
///
/// A call is refused with the first of its codes that is due: `BadParameter` for a writer or reader that the peer does
/// not have, then its own, then, where it makes a change, `OutOfResources` after 2^48 changes of the writer and
/// `Timeout` where the writer would keep more than its `max_samples`, then `Memory`.
#[derive(Debug, Drop, PartialEq, Eq)]
pub enum Call {
    /// Registers an instance, of which no other peer learns (DDS 1.4, 2.2.2.4, register_instance).
    Register {
        writer: u8,
        key: Key,
    },
    /// Writes a value of an instance, and registers it (DDS 1.4, 2.2.2.4, write). `BadParameter` for a value of more
    /// octets than the writer's `max_value`.
    Write {
        writer: u8,
        key: Key,
        value: Octets,
    },
    /// Disposes an instance, and registers it (DDS 1.4, 2.2.2.4, dispose).
    Dispose {
        writer: u8,
        key: Key,
    },
    /// Ends the registration of an instance (DDS 1.4, 2.2.2.4, unregister_instance), and disposes it too where the
    /// writer does so by itself (2.2.3, WRITER_DATA_LIFECYCLE). `PreconditionNotMet` for an instance that is not
    /// registered there.
    Unregister {
        writer: u8,
        key: Key,
    },
    /// Asserts a writer's liveliness (DDS 1.4, 2.2.2.4, assert_liveliness), and sends HEARTBEATs that say so to each
    /// peer with a matched reader. `OutOfResources` where at least 2^31 - 1 HEARTBEAT counts of the writer were due. It
    /// is never refused for want of memory.
    AssertLiveliness {
        writer: u8,
    },
    /// Sets the strength that a writer's changes carry from now on (DDS 1.4, 2.2.3, OWNERSHIP_STRENGTH, which is
    /// changeable). `PreconditionNotMet` of a writer of shared ownership. It sends nothing, is no assertion, and is
    /// never refused for want of memory.
    SetStrength {
        writer: u8,
        strength: i32,
    },
    /// Reads samples, which stay (DDS 1.4, 2.2.2.5, read and its instance, next-instance and next-sample forms).
    /// `BadParameter` for a `max` that is neither -1 nor positive, and for an instance that is not known where it has
    /// to be; `NoData` where there is no such sample.
    Read {
        reader: u8,
        selection: Selection,
    },
    /// Takes samples, which are then gone (DDS 1.4, 2.2.2.5, take and its instance, next-instance and next-sample
    /// forms). It is refused as a read is.
    Take {
        reader: u8,
        selection: Selection,
    },
    /// Asks for the key of an instance (DDS 1.4, 2.2.2.5, get_key_value). `BadParameter` for an instance that is not
    /// known. It is never refused for want of memory.
    GetKeyValue {
        reader: u8,
        instance: Handle,
    },
    /// Asks for the handle of an instance, `NIL` where it is not known (DDS 1.4, 2.2.2.5, lookup_instance). It is never
    /// refused for want of memory.
    LookupInstance {
        reader: u8,
        key: Key,
    },
    /// Looks at how many changes a reader passed over, in all and since the last look (DDS 1.4, 2.2.2.5,
    /// get_sample_lost_status). It is never refused for want of memory.
    GetSampleLost {
        reader: u8,
    },
    /// Looks at how many matched writers of a reader are alive, and how many are not alive, now and against the last
    /// look (DDS 1.4, 2.2.2.5, get_liveliness_changed_status). It is never refused for want of memory.
    GetLivelinessChanged {
        reader: u8,
    },
    /// Looks at how often a writer's liveliness was lost, in all and since the last look (DDS 1.4, 2.2.2.4,
    /// get_liveliness_lost_status). It is never refused for want of memory.
    GetLivelinessLost {
        writer: u8,
    },
    /// Reads samples that a read condition of the reader asks for (DDS 1.4, 2.2.2.5, read_w_condition,
    /// read_next_instance_w_condition). `BadParameter` for a condition that was not made, and for a `max` that is
    /// neither -1 nor positive; `PreconditionNotMet` for one that is no read condition of the reader; `NoData` where
    /// there is no such sample.
    ReadByCondition {
        reader: u8,
        scope: Scope,
        condition: u32,
    },
    /// Takes samples that a read condition of the reader asks for (DDS 1.4, 2.2.2.5, take_w_condition,
    /// take_next_instance_w_condition). It is refused as such a read is.
    TakeByCondition {
        reader: u8,
        scope: Scope,
        condition: u32,
    },
    /// Makes a read condition: its trigger value is true while a present sample of the reader meets the masks (DDS 1.4,
    /// 2.2.2.5, create_readcondition). `OutOfResources` where 2^32 - 1 conditions were made.
    CreateReadCondition {
        reader: u8,
        masks: Masks,
    },
    /// Makes a query condition: its trigger value is true while a present sample of the reader meets the masks and
    /// passes the filter of this number (DDS 1.4, 2.2.2.5, create_querycondition). `BadParameter` for a filter that was
    /// not added, `OutOfResources` where 2^32 - 1 conditions were made.
    CreateQueryCondition {
        reader: u8,
        masks: Masks,
        filter: u32,
    },
    /// Makes a guard condition, whose trigger value is false (DDS 1.4, 2.2.2.1, GuardCondition). `OutOfResources` where
    /// 2^32 - 1 conditions were made.
    CreateGuardCondition,
    /// Gives a guard condition its trigger value (DDS 1.4, 2.2.2.1, set_trigger_value). `BadParameter` for one that was
    /// not made, `PreconditionNotMet` for one that is no guard. It is never refused for want of memory.
    SetTriggerValue {
        condition: u32,
        value: bool,
    },
    /// Deletes a condition, and so detaches it: its number is unknown from then on (DDS 1.4, 2.2.2.5,
    /// delete_readcondition). `BadParameter` for one that was not made. It is never refused for want of memory.
    DeleteCondition {
        condition: u32,
    },
    /// Asks for the trigger value of a condition (DDS 1.4, 2.2.2.1, get_trigger_value). `BadParameter` for one that
    /// does not exist. It is never refused for want of memory.
    GetTriggerValue {
        condition: Cond,
    },
    /// Makes a WaitSet, with no conditions (DDS 1.4, 2.2.2.1, WaitSet). `OutOfResources` where 2^32 - 1 were made.
    CreateWaitSet,
    /// Deletes a WaitSet: its number is unknown from then on. `BadParameter` for one that was not made,
    /// `PreconditionNotMet` where somebody waits in it. It is never refused for want of memory.
    DeleteWaitSet {
        wait_set: u32,
    },
    /// Attaches a condition to a WaitSet, as its last one; attached again it stays where it is (DDS 1.4, 2.2.2.1,
    /// attach_condition). `BadParameter` where one of them does not exist.
    AttachCondition {
        wait_set: u32,
        condition: Cond,
    },
    /// Detaches a condition from a WaitSet (DDS 1.4, 2.2.2.1, detach_condition). `BadParameter` where one of them does
    /// not exist, `PreconditionNotMet` where the condition is not attached. It is never refused for want of memory.
    DetachCondition {
        wait_set: u32,
        condition: Cond,
    },
    /// Asks for the conditions of a WaitSet (DDS 1.4, 2.2.2.1, get_conditions). `BadParameter` for one that was not
    /// made.
    GetConditions {
        wait_set: u32,
    },
    /// Somebody waits in a WaitSet, up to this moment (DDS 1.4, 2.2.2.1, wait). `BadParameter` for one that was not
    /// made, `PreconditionNotMet` where somebody waits in it already. It is never refused for want of memory.
    /// `docs/DECISIONS.md`, "Listeners, filters and WaitSets", says why a wait is three calls.
    WaitBegin {
        wait_set: u32,
        deadline: Moment,
    },
    /// Looks whether a condition of a WaitSet is true (DDS 1.4, 2.2.2.1, wait). If so, it answers those that are, and
    /// the wait is over; else it answers `Waiting`, or `Timeout` once the deadline has come, and then the wait is over
    /// too. `BadParameter` for one that was not made, `PreconditionNotMet` where nobody waits in it.
    WaitLook {
        wait_set: u32,
    },
    /// Nobody waits in a WaitSet any more (DDS 1.4, 2.2.2.1, wait). `BadParameter` for one that was not made,
    /// `PreconditionNotMet` where nobody waits in it. It is never refused for want of memory.
    WaitEnd {
        wait_set: u32,
    },
    /// Enables these statuses of an entity at its status condition, and no others; at first all are (DDS 1.4, 2.2.2.1,
    /// set_enabled_statuses). `BadParameter` for an entity that the peer does not have. It is never refused for want of
    /// memory.
    SetEnabledStatuses {
        entity: Entity,
        mask: StatusMask,
    },
    /// Asks which statuses of an entity are flagged, enabled or not (DDS 1.4, 2.2.2.1, get_status_changes).
    /// `BadParameter` for an entity that the peer does not have. It is never refused for want of memory.
    GetStatusChanges {
        entity: Entity,
    },
    /// A writer is told of a reader of its topic: the two are matched from now on (RTPS 2.5, 8.4.7.4,
    /// matched_reader_add), and what the writer has made is not owed (DDS 1.4, 2.2.3, DURABILITY: VOLATILE).
    /// `BadParameter` for a reader that is none of the writer's topic, `PreconditionNotMet` where the two are matched.
    /// It sends nothing.
    MatchReader {
        writer: u8,
        reader: Endpoint,
        /// Whether the reader is told no more than where it begins until it has answered: so a product that takes the
        /// first HEARTBEAT which it hears as its start misses nothing (RTPS 2.5, 8.3.8: Heartbeat). It is nothing to a
        /// best-effort reader.
        greeted: bool,
    },
    /// A writer is told that a reader has left: it keeps nothing for it, waits for it no longer and sends it nothing
    /// (RTPS 2.5, 8.4.7.4, matched_reader_remove). `BadParameter` for a reader that is none of the writer's topic,
    /// `PreconditionNotMet` where the two are not matched. It sends nothing, and is never refused for want of memory.
    UnmatchReader {
        writer: u8,
        reader: Endpoint,
    },
    /// A reader is told of a writer of its topic: the two are matched from now on, and its place in the writer's list
    /// begins where it was, or further on, by what comes of that writer (RTPS 2.5, 8.4.10.3, matched_writer_add). It
    /// answers the publication handle. `BadParameter` for a writer that is none of the reader's topic,
    /// `PreconditionNotMet` where the two are matched. It sends nothing, and is never refused for want of memory.
    MatchWriter {
        reader: u8,
        writer: Endpoint,
    },
    /// A reader is told that a writer has left: it takes nothing of it, and the writer is no longer registered for any
    /// instance (RTPS 2.5, 8.4.10.3, matched_writer_remove). `BadParameter` for a writer that is none of the reader's
    /// topic, `PreconditionNotMet` where the two are not matched; `Memory` only where that can't be counted. It sends
    /// nothing.
    UnmatchWriter {
        reader: u8,
        writer: Endpoint,
    },
    /// Looks at how many matches of a writer there were and are, and since the last look (DDS 1.4, 2.2.2.4,
    /// get_publication_matched_status). It is never refused for want of memory.
    GetPublicationMatched {
        writer: u8,
    },
    /// Looks at how many matches of a reader there were and are, and since the last look (DDS 1.4, 2.2.2.5,
    /// get_subscription_matched_status). It is never refused for want of memory.
    GetSubscriptionMatched {
        reader: u8,
    },
    /// A writer is told of a reader that it may not know, under a name of the caller's choice: the two are matched from
    /// now on, as by `MatchReader`, and the writer knows it from then on as one of its topic. `BadParameter` where the
    /// peer has no such writer, where the number of the participant or of the reader is 0, the prefix is all zeros or
    /// the entity is no reader, and where the name and the GUID don't go with those that are known: a name has one GUID,
    /// a GUID one name, and the number of a participant one prefix. So it is where the peer knows the reader as a
    /// reliable one and is told that it is best-effort, or the other way round: RELIABILITY can't change.
    /// `PreconditionNotMet` where the two are matched, `OutOfResources` where the writer knows 16 other readers of that
    /// participant, or 2^31 - 1 others. It sends nothing.
    ///
    /// RTPS 2.5, 8.4.7.4 (matched_reader_add); DDS 1.4, 2.2.3 (RELIABILITY).
    MeetReader {
        writer: u8,
        far: FarReader,
        /// As of `MatchReader`.
        greeted: bool,
    },
    /// A reader is told of a writer that it may not know, under a name of the caller's choice: the two are matched from
    /// now on, as by `MatchWriter`. One that it does not know has the next publication handle, which is answered.
    /// `BadParameter` where the peer has no such reader, where the numbers, the GUID and the name are as they may not be
    /// for `MeetReader`, the entity is no writer, or the writer's lease is 0, or 2^31 seconds and more;
    /// `PreconditionNotMet` where the two are matched, `OutOfResources` where the reader knows 2^31 - 1 other writers.
    /// It sends nothing.
    ///
    /// RTPS 2.5, 8.4.10.3 (matched_writer_add).
    MeetWriter {
        reader: u8,
        far: FarWriter,
    },
}

// Arm by arm, so that the copy is equal to the call.
impl Clone for Call {
    ghost is_clone = { λ call copy. copy ≡ call };

    fn clone(&self) -> Result<Call, AllocError> {
        Ok(match self {
            Call::Register { writer, key } => Call::Register {
                writer: *writer,
                key: *key,
            },
            Call::Write { writer, key, value } => Call::Write {
                writer: *writer,
                key: *key,
                value: value.clone()?,
            },
            Call::Dispose { writer, key } => Call::Dispose {
                writer: *writer,
                key: *key,
            },
            Call::Unregister { writer, key } => Call::Unregister {
                writer: *writer,
                key: *key,
            },
            Call::AssertLiveliness { writer } => Call::AssertLiveliness { writer: *writer },
            Call::SetStrength { writer, strength } => Call::SetStrength {
                writer: *writer,
                strength: *strength,
            },
            Call::Read { reader, selection } => Call::Read {
                reader: *reader,
                selection: *selection,
            },
            Call::Take { reader, selection } => Call::Take {
                reader: *reader,
                selection: *selection,
            },
            Call::GetKeyValue { reader, instance } => Call::GetKeyValue {
                reader: *reader,
                instance: *instance,
            },
            Call::LookupInstance { reader, key } => Call::LookupInstance {
                reader: *reader,
                key: *key,
            },
            Call::GetSampleLost { reader } => Call::GetSampleLost { reader: *reader },
            Call::GetLivelinessChanged { reader } => {
                Call::GetLivelinessChanged { reader: *reader }
            }
            Call::GetLivelinessLost { writer } => Call::GetLivelinessLost { writer: *writer },
            Call::ReadByCondition {
                reader,
                scope,
                condition,
            } => Call::ReadByCondition {
                reader: *reader,
                scope: *scope,
                condition: *condition,
            },
            Call::TakeByCondition {
                reader,
                scope,
                condition,
            } => Call::TakeByCondition {
                reader: *reader,
                scope: *scope,
                condition: *condition,
            },
            Call::CreateReadCondition { reader, masks } => Call::CreateReadCondition {
                reader: *reader,
                masks: *masks,
            },
            Call::CreateQueryCondition {
                reader,
                masks,
                filter,
            } => Call::CreateQueryCondition {
                reader: *reader,
                masks: *masks,
                filter: *filter,
            },
            Call::CreateGuardCondition => Call::CreateGuardCondition,
            Call::SetTriggerValue { condition, value } => Call::SetTriggerValue {
                condition: *condition,
                value: *value,
            },
            Call::DeleteCondition { condition } => Call::DeleteCondition {
                condition: *condition,
            },
            Call::GetTriggerValue { condition } => Call::GetTriggerValue {
                condition: *condition,
            },
            Call::CreateWaitSet => Call::CreateWaitSet,
            Call::DeleteWaitSet { wait_set } => Call::DeleteWaitSet {
                wait_set: *wait_set,
            },
            Call::AttachCondition {
                wait_set,
                condition,
            } => Call::AttachCondition {
                wait_set: *wait_set,
                condition: *condition,
            },
            Call::DetachCondition {
                wait_set,
                condition,
            } => Call::DetachCondition {
                wait_set: *wait_set,
                condition: *condition,
            },
            Call::GetConditions { wait_set } => Call::GetConditions {
                wait_set: *wait_set,
            },
            Call::WaitBegin { wait_set, deadline } => Call::WaitBegin {
                wait_set: *wait_set,
                deadline: *deadline,
            },
            Call::WaitLook { wait_set } => Call::WaitLook {
                wait_set: *wait_set,
            },
            Call::WaitEnd { wait_set } => Call::WaitEnd {
                wait_set: *wait_set,
            },
            Call::SetEnabledStatuses { entity, mask } => Call::SetEnabledStatuses {
                entity: *entity,
                mask: *mask,
            },
            Call::GetStatusChanges { entity } => Call::GetStatusChanges { entity: *entity },
            Call::MatchReader {
                writer,
                reader,
                greeted,
            } => Call::MatchReader {
                writer: *writer,
                reader: *reader,
                greeted: *greeted,
            },
            Call::UnmatchReader { writer, reader } => Call::UnmatchReader {
                writer: *writer,
                reader: *reader,
            },
            Call::MatchWriter { reader, writer } => Call::MatchWriter {
                reader: *reader,
                writer: *writer,
            },
            Call::UnmatchWriter { reader, writer } => Call::UnmatchWriter {
                reader: *reader,
                writer: *writer,
            },
            Call::GetPublicationMatched { writer } => {
                Call::GetPublicationMatched { writer: *writer }
            }
            Call::GetSubscriptionMatched { reader } => {
                Call::GetSubscriptionMatched { reader: *reader }
            }
            Call::MeetReader {
                writer,
                far,
                greeted,
            } => Call::MeetReader {
                writer: *writer,
                far: *far,
                greeted: *greeted,
            },
            Call::MeetWriter { reader, far } => Call::MeetWriter {
                reader: *reader,
                far: *far,
            },
        })
    }
}
