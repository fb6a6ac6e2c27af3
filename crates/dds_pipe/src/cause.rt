//! Why a line says nothing to the peer.

use dds_script::{
    Form, Operand, event_cause, form_cause, peer_form, setup_cause, unknown_cause, words_or_cause,
};
use std::alloc::{AllocError, Global};

/// The form of a `kind` line.
const KIND: &str =
    "its form is `kind PREFIX ENTITY TYPE [values=N] [gaps]`, where TYPE is datum, keyless, list, or cdr or cdr2 with key fields as PLACE:SIZE, each of 1, 2, 4 or 8 octets";

/// Why words say nothing to a peer that is neither an event nor of a configuration.
fn other_cause(alloc: Global, name: &str, words: &[&str]) -> Result<String, AllocError> {
    match peer_form(name) {
        Some(form) => form_cause(alloc, name, form, words),
        None => match name {
            "open" => form_cause(alloc, name, Form::of(&[Operand::Peer]), words),
            "kind" => String::from_str(alloc, KIND),
            "fragments" => {
                let form = Form::of(&[Operand::GuidPrefix, Operand::EntityId]);
                form_cause(alloc, name, form, words)
            }
            "hear" => form_cause(alloc, name, Form::of(&[Operand::Octets]), words),
            _ => unknown_cause(alloc, "call", name),
        },
    }
}

fn words_cause(alloc: Global, words: &[&str]) -> Result<String, AllocError> {
    match words {
        ["call" | "tick" | "deliver" | "resume", ..] => event_cause(alloc, words),
        ["peer" | "writer" | "reader", ..] => setup_cause(alloc, words),
        [name, operands @ ..] => other_cause(alloc, name, operands),
        [] => String::from_str(alloc, "a line is wanted"),
    }
}

/// Why a line says nothing, without its line feed.
///
/// # Errors
///
/// Want of memory.
pub fn cause_of(alloc: Global, line: &[u8]) -> Result<String, AllocError> {
    match words_or_cause(alloc, line)? {
        Ok(words) => words_cause(alloc, &words),
        Err(cause) => Ok(cause),
    }
}
