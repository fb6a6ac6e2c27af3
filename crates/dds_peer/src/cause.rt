//! Why a line of a script is no command.

use dds_script::{
    Form, Operand, call_cause, decimal, decimal_u32, form_cause, peer_form, reader_options_cause,
    unknown_cause, words_or_cause, writer_options_cause,
};
use std::alloc::{AllocError, Global};

/// What follows a word that names no peer; none of another word.
fn command_form(name: &str) -> Option<Form> {
    match name {
        "deliver" => Some(Form::of(&[Operand::Peer, Operand::Packet])),
        "packet" => Some(Form::of(&[Operand::Packet])),
        "round" => Some(Form::of(&[Operand::WriterOfPeer, Operand::ReaderOfPeer])),
        _ => None,
    }
}

fn command_cause(alloc: Global, name: &str, words: &[&str]) -> Result<String, AllocError> {
    match command_form(name) {
        Some(form) => form_cause(alloc, name, form, words),
        None => match name {
            "peer" => String::from_str(alloc, "nothing but `later` follows `peer`"),
            "writer" => writer_options_cause(alloc, words),
            "reader" => reader_options_cause(alloc, words),
            _ => unknown_cause(alloc, "P", name),
        },
    }
}

/// Why what a peer is told to do is nothing that it does.
fn operation_cause(alloc: Global, words: &[&str]) -> Result<String, AllocError> {
    let [name, operands @ ..] = words else {
        return String::from_str(
            alloc,
            "the number of a peer is followed by what the peer does",
        );
    };
    match peer_form(name) {
        Some(form) => form_cause(alloc, name, form, operands),
        None => call_cause(alloc, words),
    }
}

fn words_cause(alloc: Global, words: &[&str]) -> Result<String, AllocError> {
    let [first, operands @ ..] = words else {
        return String::from_str(alloc, "a command is wanted");
    };
    if decimal_u32(first).is_some() {
        operation_cause(alloc, operands)
    } else if decimal(first).is_some() {
        String::from_str(alloc, "the number of a peer is at most 4294967295")
    } else {
        command_cause(alloc, first, operands)
    }
}

/// Why a line is no command, without its line feed.
///
/// # Errors
///
/// Want of memory.
pub fn cause_of(alloc: Global, line: &[u8]) -> Result<String, AllocError> {
    match words_or_cause(alloc, line)? {
        Ok(words) => words_cause(alloc, &words),
        Err(cause) => Ok(cause),
    }
}
