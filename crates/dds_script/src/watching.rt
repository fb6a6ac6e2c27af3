//! The calls of a script that speak of conditions, WaitSets and statuses.

use crate::number::{decimal_i32, decimal_u32, units};
use crate::operand::{condition, entity, handle, masks, reader_number, status_mask};
use dds_base::{Moment, Scope};
use dds_machine::Call;

/// A read of samples that a condition asks for.
fn read(scope: Scope, reader: &str, number: &str) -> Option<Call> {
    Some(Call::ReadByCondition {
        reader: reader_number(reader)?,
        scope,
        condition: decimal_u32(number)?,
    })
}

/// A take of samples that a condition asks for.
fn take(scope: Scope, reader: &str, number: &str) -> Option<Call> {
    Some(Call::TakeByCondition {
        reader: reader_number(reader)?,
        scope,
        condition: decimal_u32(number)?,
    })
}

/// So many samples of any instance.
fn of_any(max: &str) -> Option<Scope> {
    let max = decimal_i32(max)?;
    Some(Scope::Any { max })
}

/// So many samples of the next instance after the one with this handle.
fn after(previous: &str, max: &str) -> Option<Scope> {
    let (previous, max) = (handle(previous)?, decimal_i32(max)?);
    Some(Scope::NextInstance { previous, max })
}

/// The value of a guard.
fn guard_value(word: &str) -> Option<bool> {
    match word {
        "0" => Some(false),
        "1" => Some(true),
        _ => None,
    }
}

/// A read or a take of samples that a condition asks for.
fn access_by_condition(words: &[&str]) -> Option<Call> {
    match words {
        ["read_w", reader, max, number] => read(of_any(max)?, reader, number),
        ["take_w", reader, max, number] => take(of_any(max)?, reader, number),
        ["read_next_instance_w", reader, previous, max, number] => {
            read(after(previous, max)?, reader, number)
        }
        ["take_next_instance_w", reader, previous, max, number] => {
            take(after(previous, max)?, reader, number)
        }
        _ => None,
    }
}

/// A call that makes a condition, or speaks of one.
fn condition_call(words: &[&str]) -> Option<Call> {
    match words {
        ["readcond", reader, samples, views, instances] => Some(Call::CreateReadCondition {
            reader: reader_number(reader)?,
            masks: masks(samples, views, instances)?,
        }),
        ["querycond", reader, samples, views, instances, filter] => {
            Some(Call::CreateQueryCondition {
                reader: reader_number(reader)?,
                masks: masks(samples, views, instances)?,
                filter: decimal_u32(filter)?,
            })
        }
        ["guard"] => Some(Call::CreateGuardCondition),
        ["setguard", number, value] => Some(Call::SetTriggerValue {
            condition: decimal_u32(number)?,
            value: guard_value(value)?,
        }),
        ["delete", number] => Some(Call::DeleteCondition {
            condition: decimal_u32(number)?,
        }),
        ["trigger", word] => Some(Call::GetTriggerValue {
            condition: condition(word)?,
        }),
        _ => None,
    }
}

/// A call that makes a WaitSet, or speaks of one and its conditions.
fn wait_set_call(words: &[&str]) -> Option<Call> {
    match words {
        ["waitset"] => Some(Call::CreateWaitSet),
        ["delwaitset", number] => Some(Call::DeleteWaitSet {
            wait_set: decimal_u32(number)?,
        }),
        ["attach", number, word] => Some(Call::AttachCondition {
            wait_set: decimal_u32(number)?,
            condition: condition(word)?,
        }),
        ["detach", number, word] => Some(Call::DetachCondition {
            wait_set: decimal_u32(number)?,
            condition: condition(word)?,
        }),
        ["conditions", number] => Some(Call::GetConditions {
            wait_set: decimal_u32(number)?,
        }),
        _ => None,
    }
}

/// A call of somebody who waits in a WaitSet.
fn wait_call(words: &[&str]) -> Option<Call> {
    match words {
        ["begin", number, moment] => Some(Call::WaitBegin {
            wait_set: decimal_u32(number)?,
            deadline: Moment::new(units(moment)?),
        }),
        ["look", number] => Some(Call::WaitLook {
            wait_set: decimal_u32(number)?,
        }),
        ["end", number] => Some(Call::WaitEnd {
            wait_set: decimal_u32(number)?,
        }),
        _ => None,
    }
}

/// A call that speaks of the statuses of an entity.
fn status_call(words: &[&str]) -> Option<Call> {
    match words {
        ["enable", word, mask] => Some(Call::SetEnabledStatuses {
            entity: entity(word)?,
            mask: status_mask(mask)?,
        }),
        ["flags", word] => Some(Call::GetStatusChanges {
            entity: entity(word)?,
        }),
        _ => None,
    }
}

/// The call of conditions, WaitSets or statuses that these words ask of a peer; none where they are no such call.
pub fn watching_call(words: &[&str]) -> Option<Call> {
    access_by_condition(words)
        .or(condition_call(words))
        .or(wait_set_call(words))
        .or(wait_call(words))
        .or(status_call(words))
}
