//! The calls of a script.

use crate::matching::matching_call;
use crate::number::{decimal_i32, key, value};
use crate::operand::{handle, masks, reader_number, writer_number};
use crate::watching::watching_call;
use dds_base::{Key, Masks, Selection};
use dds_machine::Call;
use std::alloc::{AllocError, Global};

/// How many samples at most, and which: all of them where nothing is said.
fn limits(words: &[&str]) -> Option<(i32, Masks)> {
    match words {
        [] => Some((-1, Masks::ANY)),
        [max] => Some((decimal_i32(max)?, Masks::ANY)),
        [max, samples, views, instances] => {
            Some((decimal_i32(max)?, masks(samples, views, instances)?))
        }
        _ => None,
    }
}

/// Samples of any instance.
fn any(words: &[&str]) -> Option<Selection> {
    let (max, masks) = limits(words)?;
    Some(Selection::Any { max, masks })
}

/// Samples of one instance.
fn of_instance(words: &[&str]) -> Option<Selection> {
    let [handle_word, limit_words @ ..] = words else {
        return None;
    };
    let handle = handle(handle_word)?;
    let (max, masks) = limits(limit_words)?;
    Some(Selection::Instance { handle, max, masks })
}

/// Samples of the next instance.
fn of_next_instance(words: &[&str]) -> Option<Selection> {
    let [handle_word, limit_words @ ..] = words else {
        return None;
    };
    let previous = handle(handle_word)?;
    let (max, masks) = limits(limit_words)?;
    Some(Selection::NextInstance {
        previous,
        max,
        masks,
    })
}

/// The form of an access, by what follows `read` or `take` in its word.
fn selection(form: &str, words: &[&str]) -> Option<Selection> {
    match form {
        "" => any(words),
        "_instance" => of_instance(words),
        "_next_instance" => of_next_instance(words),
        "_next_sample" if words.is_empty() => Some(Selection::NextSample),
        _ => None,
    }
}

/// A reader, and what is selected there.
fn reader_and_selection(form: &str, words: &[&str]) -> Option<(u8, Selection)> {
    let [reader, operands @ ..] = words else {
        return None;
    };
    Some((reader_number(reader)?, selection(form, operands)?))
}

/// A read or a take, in one of its forms.
fn access(operation: &str, words: &[&str]) -> Option<Call> {
    if let Some(form) = operation.strip_prefix("read") {
        let (reader, selection) = reader_and_selection(form, words)?;
        return Some(Call::Read { reader, selection });
    }
    let form = operation.strip_prefix("take")?;
    let (reader, selection) = reader_and_selection(form, words)?;
    Some(Call::Take { reader, selection })
}

/// The key of an instance.
fn key_value(words: &[&str]) -> Option<Call> {
    let [reader, handle_word] = words else {
        return None;
    };
    let reader = reader_number(reader)?;
    let instance = handle(handle_word)?;
    Some(Call::GetKeyValue { reader, instance })
}

/// The handle of an instance.
fn lookup(words: &[&str]) -> Option<Call> {
    let [reader, key_word] = words else {
        return None;
    };
    let reader = reader_number(reader)?;
    let key = key(key_word)?;
    Some(Call::LookupInstance { reader, key })
}

/// A call that names a reader, and no more: a look at one of its statuses.
fn reader_call(operation: &str, words: &[&str]) -> Option<Call> {
    let [reader] = words else {
        return None;
    };
    let reader = reader_number(reader)?;
    match operation {
        "lost" => Some(Call::GetSampleLost { reader }),
        "changed" => Some(Call::GetLivelinessChanged { reader }),
        _ => None,
    }
}

/// A call that names a writer, and no more: a look at its status, or an assertion of its liveliness.
fn writer_call(operation: &str, words: &[&str]) -> Option<Call> {
    let [writer] = words else {
        return None;
    };
    let writer = writer_number(writer)?;
    match operation {
        "livelost" => Some(Call::GetLivelinessLost { writer }),
        "assert" => Some(Call::AssertLiveliness { writer }),
        _ => None,
    }
}

/// The strength that a writer's changes carry from now on.
fn set_strength(words: &[&str]) -> Option<Call> {
    let [writer, strength] = words else {
        return None;
    };
    let writer = writer_number(writer)?;
    let strength = decimal_i32(strength)?;
    Some(Call::SetStrength { writer, strength })
}

/// A writer and an instance.
fn writer_and_key(writer: &str, key_word: &str) -> Option<(u8, Key)> {
    Some((writer_number(writer)?, key(key_word)?))
}

/// A call that names a writer and an instance, and no more.
fn instance_call(operation: &str, words: &[&str]) -> Option<Call> {
    let [writer, key_word] = words else {
        return None;
    };
    let (writer, key) = writer_and_key(writer, key_word)?;
    match operation {
        "register" => Some(Call::Register { writer, key }),
        "dispose" => Some(Call::Dispose { writer, key }),
        "unregister" => Some(Call::Unregister { writer, key }),
        _ => None,
    }
}

fn write(alloc: Global, words: &[&str]) -> Result<Option<Call>, AllocError> {
    let [writer, key_word, value_word] = words else {
        return Ok(None);
    };
    let Some((writer, key)) = writer_and_key(writer, key_word) else {
        return Ok(None);
    };
    match value(alloc, value_word)? {
        Some(value) => Ok(Some(Call::Write { writer, key, value })),
        None => Ok(None),
    }
}

/// A call that names a writer, a reader, both or an instance, or an access of a reader.
fn other_call(operation: &str, words: &[&str]) -> Option<Call> {
    match operation {
        "register" | "dispose" | "unregister" => instance_call(operation, words),
        "lost" | "changed" => reader_call(operation, words),
        "livelost" | "assert" => writer_call(operation, words),
        "strength" => set_strength(words),
        "key" => key_value(words),
        "lookup" => lookup(words),
        "match" | "meet" | "part" | "matched" => matching_call(operation, words),
        _ => access(operation, words),
    }
}

/// The call that these words ask of a peer; none where they are no call.
///
/// # Errors
///
/// Want of memory.
pub fn call_of(alloc: Global, words: &[&str]) -> Result<Option<Call>, AllocError> {
    match words {
        ["write", operands @ ..] => write(alloc, operands),
        [operation, operands @ ..] => Ok(other_call(operation, operands).or(watching_call(words))),
        [] => Ok(None),
    }
}

/// The words of a line, which stand apart by one space.
///
/// # Errors
///
/// Want of memory.
pub fn words_of(alloc: Global, line: &str) -> Result<Vec<&str>, AllocError> {
    line.split(' ').collect(alloc)
}
