//! The calls of a script that tell who is matched, and those that ask.

use crate::meeting::meeting_of;
use crate::operand::{reader_end, reader_number, writer_end, writer_number};
use dds_machine::Call;

/// Whose matches a look tells of.
#[derive(Clone, Copy)]
pub enum Side {
    /// A writer's: they are with readers.
    Writer,
    /// A reader's: they are with writers.
    Reader,
}

impl Side {
    /// Whose matches this call looks at, if it is such a look.
    pub fn of(call: &Call) -> Side {
        match call {
            Call::GetPublicationMatched { .. } => Side::Writer,
            _ => Side::Reader,
        }
    }
}

/// A writer is told of a reader greeted, or a writer and a reader are matched from now on.
fn match_of(words: &[&str]) -> Option<Call> {
    if let [end, other, "greeted"] = words {
        return Some(Call::MatchReader {
            writer: writer_number(end)?,
            reader: reader_end(other)?,
            greeted: true,
        });
    }
    let [end, other] = words else {
        return None;
    };
    match writer_number(end) {
        Some(writer) => Some(Call::MatchReader {
            writer,
            reader: reader_end(other)?,
            greeted: false,
        }),
        None => Some(Call::MatchWriter {
            reader: reader_number(end)?,
            writer: writer_end(other)?,
        }),
    }
}

/// A writer and a reader are no longer matched.
fn parting_of(words: &[&str]) -> Option<Call> {
    let [end, other] = words else {
        return None;
    };
    match writer_number(end) {
        Some(writer) => Some(Call::UnmatchReader {
            writer,
            reader: reader_end(other)?,
        }),
        None => Some(Call::UnmatchWriter {
            reader: reader_number(end)?,
            writer: writer_end(other)?,
        }),
    }
}

/// A look at the matches of a writer or a reader.
fn look_of(words: &[&str]) -> Option<Call> {
    let [end] = words else {
        return None;
    };
    match writer_number(end) {
        Some(writer) => Some(Call::GetPublicationMatched { writer }),
        None => Some(Call::GetSubscriptionMatched {
            reader: reader_number(end)?,
        }),
    }
}

/// The call that a word about matches asks for, with what follows it.
pub fn matching_call(operation: &str, words: &[&str]) -> Option<Call> {
    match operation {
        "match" => match_of(words),
        "meet" => meeting_of(words),
        "part" => parting_of(words),
        "matched" => look_of(words),
        _ => None,
    }
}
