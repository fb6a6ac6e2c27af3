//! Calls in the words of a script: `dds_script` reads each as the same call.

use crate::line::Line;
use bitflags::Flags;
use dds_base::{
    Endpoint, Entity, Guid, Key, LivelinessKind, MAX_VALUE, Masks, Policies, ReliabilityQos, Scope,
    Selection,
};
use dds_conditions::Cond;
use dds_machine::{Call, FarReader, FarWriter};

/// A word, and an instance of a writer.
fn push_instance(line: &mut Line, word: &str, writer: u8, key: Key) {
    line.push(format_args!("{word} w{writer} "));
    line.push_key(key);
}

/// A value that is written. Of one that no writer takes the front that none takes stands for it.
fn push_written(line: &mut Line, value: &[u8]) {
    line.push(' ');
    line.push_value(value.get(..=MAX_VALUE).unwrap_or(value));
}

/// Masks of sample, view and instance states.
fn push_masks(line: &mut Line, masks: Masks) {
    let samples = masks.samples.bits();
    let views = masks.views.bits();
    let instances = masks.instances.bits();
    line.push(format_args!(" {samples} {views} {instances}"));
}

/// A read or a take, by its word.
fn push_access(line: &mut Line, word: &str, reader: u8, selection: Selection) {
    match selection {
        Selection::Any { max, masks } => {
            line.push(format_args!("{word} r{reader} {max}"));
            push_masks(line, masks);
        }
        Selection::Instance { handle, max, masks } => {
            let handle = handle.number();
            line.push(format_args!("{word}_instance r{reader} {handle} {max}"));
            push_masks(line, masks);
        }
        Selection::NextInstance {
            previous,
            max,
            masks,
        } => {
            let previous = previous.number();
            line.push(format_args!("{word}_next_instance r{reader} {previous} {max}"));
            push_masks(line, masks);
        }
        Selection::NextSample => line.push(format_args!("{word}_next_sample r{reader}")),
    }
}

/// One of samples that a condition asks for.
fn push_access_by(line: &mut Line, word: &str, reader: u8, scope: Scope, condition: u32) {
    match scope {
        Scope::Any { max } => line.push(format_args!("{word}_w r{reader} {max} {condition}")),
        Scope::NextInstance { previous, max } => {
            let previous = previous.number();
            line.push(format_args!(
                "{word}_next_instance_w r{reader} {previous} {max} {condition}"
            ));
        }
    }
}

fn push_entity(line: &mut Line, entity: Entity) {
    match entity {
        Entity::Participant => line.push('p'),
        Entity::Writer(number) => line.push(format_args!("w{number}")),
        Entity::Reader(number) => line.push(format_args!("r{number}")),
    }
}

/// A condition, or the status condition of an entity.
fn push_condition(line: &mut Line, condition: Cond) {
    match condition {
        Cond::Status(entity) => {
            line.push("s:");
            push_entity(line, entity);
        }
        Cond::Made(number) => line.push(number),
    }
}

/// A word, a writer of ours and a reader.
fn push_of_writer(line: &mut Line, word: &str, writer: u8, reader: Endpoint) {
    let Endpoint { peer, number } = reader;
    line.push(format_args!("{word} w{writer} {peer}.r{number}"));
}

/// A word, a reader of ours and a writer.
fn push_of_reader(line: &mut Line, word: &str, reader: u8, writer: Endpoint) {
    let Endpoint { peer, number } = writer;
    line.push(format_args!("{word} r{reader} {peer}.w{number}"));
}

/// A GUID in two words.
pub fn push_guid(line: &mut Line, guid: &Guid) {
    line.push(' ');
    line.push_octets(guid.prefix.as_slice());
    line.push(' ');
    line.push_octets(guid.entity.as_slice());
}

/// A word, where it is to stand.
fn push_word_if(line: &mut Line, word: &str, stands: bool) {
    if stands {
        line.push(word);
    }
}

/// A writer of ours meets a reader: what it asks for, as far as a writer looks at it.
fn push_met_reader(line: &mut Line, writer: u8, far: &FarReader, greeted: bool) {
    push_of_writer(line, "meet", writer, far.endpoint);
    push_guid(line, &far.guid);
    let is_best_effort = far.requested.reliability == ReliabilityQos::BestEffort;
    push_word_if(line, " besteffort", is_best_effort);
    push_word_if(line, " greeted", greeted);
}

/// The lease of a writer that asserts itself by topic.
fn push_lease(line: &mut Line, offered: &Policies) {
    if let LivelinessKind::ManualByTopic = offered.liveliness.kind
        && let Some(units) = offered.liveliness.lease.units()
    {
        line.push(format_args!(" lease={units}"));
    }
}

/// A reader of ours meets a writer: what it offers, as far as a reader looks at it.
fn push_met_writer(line: &mut Line, reader: u8, far: &FarWriter) {
    push_of_reader(line, "meet", reader, far.endpoint);
    push_guid(line, &far.guid);
    let strength = far.offered.strength;
    line.push(format_args!(" strength={strength}"));
    push_lease(line, &far.offered);
}

/// A call of a writer.
fn push_writer_call(line: &mut Line, call: &Call) {
    match call {
        Call::Register { writer, key } => push_instance(line, "register", *writer, *key),
        Call::Write { writer, key, value } => {
            push_instance(line, "write", *writer, *key);
            push_written(line, value.as_slice());
        }
        Call::Dispose { writer, key } => push_instance(line, "dispose", *writer, *key),
        Call::Unregister { writer, key } => push_instance(line, "unregister", *writer, *key),
        Call::AssertLiveliness { writer } => line.push(format_args!("assert w{writer}")),
        Call::SetStrength { writer, strength } => {
            line.push(format_args!("strength w{writer} {strength}"));
        }
        Call::GetLivelinessLost { writer } => line.push(format_args!("livelost w{writer}")),
        Call::GetPublicationMatched { writer } => line.push(format_args!("matched w{writer}")),
        _ => {}
    }
}

/// A call of a reader.
fn push_reader_call(line: &mut Line, call: &Call) {
    match call {
        Call::Read { reader, selection } => push_access(line, "read", *reader, *selection),
        Call::Take { reader, selection } => push_access(line, "take", *reader, *selection),
        Call::GetKeyValue { reader, instance } => {
            let instance = instance.number();
            line.push(format_args!("key r{reader} {instance}"));
        }
        Call::LookupInstance { reader, key } => {
            line.push(format_args!("lookup r{reader} "));
            line.push_key(*key);
        }
        Call::GetSampleLost { reader } => line.push(format_args!("lost r{reader}")),
        Call::GetLivelinessChanged { reader } => line.push(format_args!("changed r{reader}")),
        Call::GetSubscriptionMatched { reader } => line.push(format_args!("matched r{reader}")),
        Call::ReadByCondition {
            reader,
            scope,
            condition,
        } => push_access_by(line, "read", *reader, *scope, *condition),
        Call::TakeByCondition {
            reader,
            scope,
            condition,
        } => push_access_by(line, "take", *reader, *scope, *condition),
        _ => {}
    }
}

/// A call that makes a condition, or speaks of one, or of the statuses of an entity.
fn push_condition_call(line: &mut Line, call: &Call) {
    match call {
        Call::CreateReadCondition { reader, masks } => {
            line.push(format_args!("readcond r{reader}"));
            push_masks(line, *masks);
        }
        Call::CreateQueryCondition {
            reader,
            masks,
            filter,
        } => {
            line.push(format_args!("querycond r{reader}"));
            push_masks(line, *masks);
            line.push(format_args!(" {filter}"));
        }
        Call::CreateGuardCondition => line.push("guard"),
        Call::SetTriggerValue { condition, value } => {
            let value = u8::from(*value);
            line.push(format_args!("setguard {condition} {value}"));
        }
        Call::DeleteCondition { condition } => line.push(format_args!("delete {condition}")),
        Call::GetTriggerValue { condition } => {
            line.push("trigger ");
            push_condition(line, *condition);
        }
        Call::SetEnabledStatuses { entity, mask } => {
            let mask = mask.bits();
            line.push("enable ");
            push_entity(line, *entity);
            line.push(format_args!(" {mask}"));
        }
        Call::GetStatusChanges { entity } => {
            line.push("flags ");
            push_entity(line, *entity);
        }
        _ => {}
    }
}

/// A call that makes a WaitSet, or speaks of one.
fn push_wait_set_call(line: &mut Line, call: &Call) {
    match call {
        Call::CreateWaitSet => line.push("waitset"),
        Call::DeleteWaitSet { wait_set } => line.push(format_args!("delwaitset {wait_set}")),
        Call::AttachCondition {
            wait_set,
            condition,
        } => {
            line.push(format_args!("attach {wait_set} "));
            push_condition(line, *condition);
        }
        Call::DetachCondition {
            wait_set,
            condition,
        } => {
            line.push(format_args!("detach {wait_set} "));
            push_condition(line, *condition);
        }
        Call::GetConditions { wait_set } => line.push(format_args!("conditions {wait_set}")),
        Call::WaitBegin { wait_set, deadline } => {
            let units = deadline.units();
            line.push(format_args!("begin {wait_set} {units}"));
        }
        Call::WaitLook { wait_set } => line.push(format_args!("look {wait_set}")),
        Call::WaitEnd { wait_set } => line.push(format_args!("end {wait_set}")),
        _ => {}
    }
}

/// A call that tells of a match.
fn push_matching_call(line: &mut Line, call: &Call) {
    match call {
        Call::MatchReader {
            writer,
            reader,
            greeted,
        } => {
            push_of_writer(line, "match", *writer, *reader);
            push_word_if(line, " greeted", *greeted);
        }
        Call::UnmatchReader { writer, reader } => push_of_writer(line, "part", *writer, *reader),
        Call::MatchWriter { reader, writer } => push_of_reader(line, "match", *reader, *writer),
        Call::UnmatchWriter { reader, writer } => push_of_reader(line, "part", *reader, *writer),
        Call::MeetReader {
            writer,
            far,
            greeted,
        } => push_met_reader(line, *writer, far, *greeted),
        Call::MeetWriter { reader, far } => push_met_writer(line, *reader, far),
        _ => {}
    }
}

/// A call of neither a writer nor a reader alone: of conditions, of WaitSets, or that tells of a match.
fn push_other_call(line: &mut Line, call: &Call) {
    match call {
        Call::CreateReadCondition { .. }
        | Call::CreateQueryCondition { .. }
        | Call::CreateGuardCondition
        | Call::SetTriggerValue { .. }
        | Call::DeleteCondition { .. }
        | Call::GetTriggerValue { .. }
        | Call::SetEnabledStatuses { .. }
        | Call::GetStatusChanges { .. } => push_condition_call(line, call),
        Call::CreateWaitSet
        | Call::DeleteWaitSet { .. }
        | Call::AttachCondition { .. }
        | Call::DetachCondition { .. }
        | Call::GetConditions { .. }
        | Call::WaitBegin { .. }
        | Call::WaitLook { .. }
        | Call::WaitEnd { .. } => push_wait_set_call(line, call),
        _ => push_matching_call(line, call),
    }
}

/// A call.
pub fn push_call(line: &mut Line, call: &Call) {
    match call {
        Call::Register { .. }
        | Call::Write { .. }
        | Call::Dispose { .. }
        | Call::Unregister { .. }
        | Call::AssertLiveliness { .. }
        | Call::SetStrength { .. }
        | Call::GetLivelinessLost { .. }
        | Call::GetPublicationMatched { .. } => push_writer_call(line, call),
        Call::Read { .. }
        | Call::Take { .. }
        | Call::GetKeyValue { .. }
        | Call::LookupInstance { .. }
        | Call::GetSampleLost { .. }
        | Call::GetLivelinessChanged { .. }
        | Call::GetSubscriptionMatched { .. }
        | Call::ReadByCondition { .. }
        | Call::TakeByCondition { .. } => push_reader_call(line, call),
        _ => push_other_call(line, call),
    }
}
