//! Why a line says nothing, in words.

use crate::call::words_of;
use crate::forms::{Explained, Form, Operand, call_form, matching_form, peer_form};
use crate::options::{READER_OPTIONS, WRITER_OPTIONS, is_reader_option, is_writer_option};
use std::alloc::{AllocError, Global};
use std::fmt::{self, Write};

/// How many characters of a word are shown.
const SHOWN: usize = 40;

/// A word as it is shown: its first characters, without those that no terminal shows.
#[derive(Clone, Copy)]
struct Shown<'a>(&'a str);

impl fmt::Display for Shown<'_> {
    fn fmt<W: fmt::Write>(&self, f: &mut fmt::Formatter<W>) -> fmt::Result {
        for shown in self.0.chars().take(SHOWN) {
            f.write_char(if shown.is_control() { '?' } else { shown })?;
        }
        if self.0.chars().nth(SHOWN).is_some() {
            f.write_str("..")?;
        }
        Ok(())
    }
}

/// What no line may have, or how its words may not stand; none where a line has nothing of the kind.
fn spacing(line: &str) -> Option<&'static str> {
    if line.ends_with('\r') {
        return Some("it ends with a carriage return; a line ends with a line feed alone");
    }
    if line.contains('\t') {
        return Some("it has a tab; words stand apart by one space");
    }
    if line.is_empty() {
        return Some("it is empty");
    }
    if line.starts_with('\u{feff}') {
        return Some("it begins with a byte order mark; a line is text in UTF-8 without one");
    }
    if line.contains('\n') {
        return Some("it has a line feed; a line stands here without it");
    }
    if line.contains('\u{a0}') {
        return Some("it has a no-break space; words stand apart by one space");
    }
    if line.starts_with(' ') || line.ends_with(' ') || line.contains("  ") {
        return Some("it has a space too many; words stand apart by one space");
    }
    None
}

/// The words of a line, or why it is no line of words that stand apart by one space.
///
/// # Errors
///
/// Want of memory.
pub fn words_or_cause(alloc: Global, line: &[u8]) -> Result<Result<Vec<&str>, String>, AllocError> {
    let Ok(line) = str::from_utf8(line) else {
        return Ok(Err(String::from_str(alloc, "it is no text in UTF-8")?));
    };
    match spacing(line) {
        Some(cause) => Ok(Err(String::from_str(alloc, cause)?)),
        None => Ok(Ok(words_of(alloc, line)?)),
    }
}

/// Why no command begins with a word, where this stands before what a peer is told.
///
/// # Errors
///
/// Want of memory.
pub fn unknown_cause(alloc: Global, before: &str, word: &str) -> Result<String, AllocError> {
    let shown = Shown(word);
    match call_form(word).or(peer_form(word)) {
        Some(form) => format!(in alloc;
            "`{before}` is missing before `{shown}`: its form is `{before} {shown}{form}`"
        ),
        None => format!(in alloc; "there is no command `{shown}`"),
    }
}

/// Why words that follow a name are not of its form.
///
/// # Errors
///
/// Want of memory.
pub fn form_cause(
    alloc: Global,
    name: &str,
    form: Form,
    words: &[&str],
) -> Result<String, AllocError> {
    if !form.takes(words.len()) {
        return count_cause(alloc, name, form);
    }
    for (index, word) in words.iter().enumerate() {
        if let Some(operand) = form.operand(index) {
            if !operand.fits(word) {
                let (shown, explained) = (Shown(word), Explained(operand));
                return format!(in alloc; "`{shown}` is no {explained}");
            }
        }
    }
    count_cause(alloc, name, form)
}

fn count_cause(alloc: Global, name: &str, form: Form) -> Result<String, AllocError> {
    let shown = Shown(name);
    if form.is_empty() {
        format!(in alloc; "nothing follows `{shown}`")
    } else {
        format!(in alloc; "its form is `{shown}{form}`")
    }
}

/// Why words ask for no call.
///
/// # Errors
///
/// Want of memory.
pub fn call_cause(alloc: Global, words: &[&str]) -> Result<String, AllocError> {
    let [name, operands @ ..] = words else {
        return String::from_str(alloc, "a call has a name");
    };
    match matching_form(name, operands).or(call_form(name)) {
        Some(form) => form_cause(alloc, name, form, operands),
        None => {
            let shown = Shown(name);
            format!(in alloc; "there is no call `{shown}`")
        }
    }
}

/// Whose option a word is to be.
#[derive(Clone, Copy)]
enum End {
    Writer,
    Reader,
}

impl End {
    fn takes(self, word: &str) -> bool {
        match self {
            End::Writer => is_writer_option(word),
            End::Reader => is_reader_option(word),
        }
    }

    fn name(self) -> &'static str {
        match self {
            End::Writer => "writer",
            End::Reader => "reader",
        }
    }

    fn other(self) -> End {
        match self {
            End::Writer => End::Reader,
            End::Reader => End::Writer,
        }
    }

    fn options(self) -> &'static str {
        match self {
            End::Writer => WRITER_OPTIONS,
            End::Reader => READER_OPTIONS,
        }
    }
}

/// What an option with a number takes.
fn number_meaning(name: &str) -> &'static str {
    match name {
        "lease" => "units of 2^-32 second, in 64 bits, or a time as 5s, 500ms and 20us",
        "arrivals" => "a number in 64 bits",
        "max" | "instances" | "strength" => "a number in 32 bits, with a minus in front or without",
        _ => "a number in 32 bits",
    }
}

/// The name and what follows it, of a word that names an option with a number.
fn number_option(alloc: Global, end: End, word: &str) -> Result<Option<(&str, &str)>, AllocError> {
    let Some((name, number)) = word.split_once('=') else {
        return Ok(None);
    };
    let with_number = format!(in alloc; "{name}=1")?;
    if end.takes(with_number.as_str()) {
        Ok(Some((name, number)))
    } else {
        Ok(None)
    }
}

/// Why a word is no option of this end.
fn option_cause(alloc: Global, end: End, word: &str) -> Result<String, AllocError> {
    let (shown, kind, other) = (Shown(word), end.name(), end.other().name());
    if let Some((name, number)) = number_option(alloc, end, word)? {
        let (number, taken) = (Shown(number), number_meaning(name));
        return format!(in alloc; "`{number}` is no number that `{name}=` takes: it takes {taken}");
    }
    if end.other().takes(word) {
        return format!(in alloc; "`{shown}` is an option of a {other}, and of no {kind}");
    }
    let options = end.options();
    format!(in alloc; "`{shown}` is no option of a {kind}, which are {options}")
}

/// Why words are not options of this end.
fn options_cause(alloc: Global, end: End, words: &[&str]) -> Result<String, AllocError> {
    match words.iter().find(|word| !end.takes(word)) {
        Some(word) => option_cause(alloc, end, word),
        None => String::from_str(alloc, end.options()),
    }
}

/// Why words are not options of a writer.
///
/// # Errors
///
/// Want of memory.
pub fn writer_options_cause(alloc: Global, words: &[&str]) -> Result<String, AllocError> {
    options_cause(alloc, End::Writer, words)
}

/// Why words are not options of a reader.
///
/// # Errors
///
/// Want of memory.
pub fn reader_options_cause(alloc: Global, words: &[&str]) -> Result<String, AllocError> {
    options_cause(alloc, End::Reader, words)
}

/// Why words name nothing that happens to a peer: no call, no tick, no datagram, and no reader whose places are tried again.
///
/// # Errors
///
/// Want of memory.
pub fn event_cause(alloc: Global, words: &[&str]) -> Result<String, AllocError> {
    match words {
        ["call", operands @ ..] => call_cause(alloc, operands),
        ["tick", operands @ ..] => form_cause(
            alloc,
            "tick",
            Form::of(&[Operand::Moment]),
            operands,
        ),
        ["deliver", operands @ ..] => {
            form_cause(alloc, "deliver", Form::of(&[Operand::Octets]), operands)
        }
        ["resume", operands @ ..] => {
            form_cause(alloc, "resume", Form::of(&[Operand::Reader]), operands)
        }
        [name, ..] => {
            let shown = Shown(name);
            format!(in alloc;
                "`{shown}` is no event, which are `call ..`, `tick M`, `deliver HEX` and `resume R`"
            )
        }
        [] => String::from_str(alloc, "an event is wanted"),
    }
}

/// Why words name no writer and no reader.
fn end_cause(alloc: Global, name: &str, words: &[&str]) -> Result<String, AllocError> {
    match words {
        [entity, options @ ..] if Operand::EntityId.fits(entity) => match name {
            "writer" => writer_options_cause(alloc, options),
            _ => reader_options_cause(alloc, options),
        },
        [entity, ..] => form_cause(alloc, name, Form::of(&[Operand::EntityId]), &[*entity]),
        [] => form_cause(alloc, name, Form::of(&[Operand::EntityId]), words),
    }
}

/// Why words name no peer, writer or reader of a configuration.
///
/// # Errors
///
/// Want of memory.
pub fn setup_cause(alloc: Global, words: &[&str]) -> Result<String, AllocError> {
    match words {
        ["peer", operands @ ..] => {
            form_cause(alloc, "peer", Form::of(&[Operand::GuidPrefix]), operands)
        }
        [name @ ("writer" | "reader"), operands @ ..] => end_cause(alloc, name, operands),
        [name, ..] => {
            let shown = Shown(name);
            format!(in alloc; "`{shown}` names no `peer`, `writer` or `reader`")
        }
        [] => String::from_str(alloc, "a peer, a writer or a reader is wanted"),
    }
}
