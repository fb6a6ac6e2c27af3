//! Configurations, events and answers in lines, as docs/PIPE.md has them.
//!
//! What a text says is tested: no clause speaks of it.

ghost use Rattle.std.specs.Prelude.{◌≡◌, ◌⊎◌, IfErr};
ghost use Rattle.dds_base.specs.declared.code.Code.TheVariants as Code;
ghost use Rattle.dds_c.specs.Answering.{HappensSomething};
ghost use Rattle.dds_c.specs.Faults.{CauseWritten};
ghost use Rattle.dds_c.specs.Fetching.{Copies, CopiesNothing, TextFetched, TextWritten};

use crate::events::{NOT_OPEN, step};
use crate::out::copy_out;
use crate::peer::Peer;
use crate::session::Session;
use dds_base::{Code, Config, Moment};
use dds_machine::{Call, Reply};
use dds_protocol::Event;
use dds_script::{
    Setup, SetupLine, Side, TranscriptLine, call_of, entity_id, event_cause, guid_prefix,
    reader_number, reader_options, setup_cause, units, value, words_of, words_or_cause,
    writer_options,
};
use std::alloc::{AllocError, Global};

fn setup_line(words: &[&str]) -> Option<SetupLine> {
    match words {
        ["peer", prefix] => Some(SetupLine::Peer(guid_prefix(prefix)?)),
        ["writer", entity, options @ ..] => Some(SetupLine::Writer(
            entity_id(entity)?,
            writer_options(options)?,
        )),
        ["reader", entity, options @ ..] => Some(SetupLine::Reader(
            entity_id(entity)?,
            reader_options(options)?,
        )),
        _ => None,
    }
}

/// The configuration that these lines name.
///
/// # Errors
///
/// `BadParameter` for a line that is none of a configuration, or may not stand where it does; `Memory`.
pub(crate) fn config_of_text(alloc: Global, text: &[u8]) -> Result<Config, Code>
    ensures refused { IfErr result (λ code. (code ≡ Code.BadParameter) ⊎ (code ≡ Code.Memory)) }
{
    let Ok(text) = str::from_utf8(text) else {
        return Err(Code::BadParameter);
    };
    let mut setup = Setup::new(alloc);
    for line in text.lines() {
        let words = words_of(alloc, line)?;
        let Some(part) = setup_line(&words) else {
            return Err(Code::BadParameter);
        };
        if !setup.take(part)? {
            return Err(Code::BadParameter);
        }
    }
    Ok(setup.config()?)
}

/// The event that words name; none where they name none.
fn event_of_words(alloc: Global, words: &[&str]) -> Result<Option<Event>, AllocError> {
    match words {
        ["call", operands @ ..] => match call_of(alloc, operands)? {
            Some(call) => Ok(Some(Event::Call(call))),
            None => Ok(None),
        },
        ["tick", now] => match units(now) {
            Some(now) => Ok(Some(Event::Tick(Moment::new(now)))),
            None => Ok(None),
        },
        ["deliver", octets] => match value(alloc, octets)? {
            Some(octets) => Ok(Some(Event::Deliver(octets))),
            None => Ok(None),
        },
        ["resume", reader] => match reader_number(reader) {
            Some(reader) => Ok(Some(Event::Resume { reader })),
            None => Ok(None),
        },
        _ => Ok(None),
    }
}

/// The call that a line names; none where it names none.
pub(crate) fn call_of_line(alloc: Global, line: &[u8]) -> Result<Option<Call>, AllocError> {
    let Ok(line) = str::from_utf8(line) else {
        return Ok(None);
    };
    let words = words_of(alloc, line)?;
    match words.as_slice() {
        ["call", operands @ ..] => call_of(alloc, operands),
        _ => Ok(None),
    }
}

fn event_of(alloc: Global, line: &[u8]) -> Result<Option<Event>, AllocError> {
    match str::from_utf8(line) {
        Ok(line) => event_of_words(alloc, &words_of(alloc, line)?),
        Err(_) => Ok(None),
    }
}

/// Copies a cause, wherever there is one.
fn cause_out(cause: Option<String>, buffer: &mut [u8], needed: &mut usize) -> u8
    ensures written { CauseWritten buffer.old buffer.new needed.old needed.new result }
{
    match cause {
        Some(cause) => copy_out(cause.as_bytes(), buffer, needed),
        None => Code::NoData.number(),
    }
}

/// Why a line is no event; none where it is one.
fn line_cause(alloc: Global, line: &[u8]) -> Result<Option<String>, AllocError> {
    if event_of(alloc, line)?.is_some() {
        return Ok(None);
    }
    match words_or_cause(alloc, line)? {
        Ok(words) => Ok(Some(event_cause(alloc, &words)?)),
        Err(cause) => Ok(Some(cause)),
    }
}

/// Why a line is none of a configuration that may stand here; none where it is one, which is taken up.
fn setup_fault(alloc: Global, setup: &mut Setup, line: &str) -> Result<Option<String>, AllocError> {
    let words = match words_or_cause(alloc, line.as_bytes())? {
        Ok(words) => words,
        Err(cause) => return Ok(Some(cause)),
    };
    match setup_line(&words) {
        None => Ok(Some(setup_cause(alloc, &words)?)),
        Some(part) => {
            if setup.take(part)? {
                Ok(None)
            } else {
                let cause = "a writer or a reader follows a peer";
                Ok(Some(String::from_str(alloc, cause)?))
            }
        }
    }
}

/// Why a configuration in lines is refused; none where it is taken.
fn text_cause(alloc: Global, text: &str) -> Result<Option<String>, AllocError> {
    let mut setup = Setup::new(alloc);
    for (at, line) in text.lines().enumerate() {
        if let Some(cause) = setup_fault(alloc, &mut setup, line)? {
            let number = at.saturating_add(1);
            return Ok(Some(format!(in alloc; "line {number}: {cause}")?));
        }
    }
    match setup.config()?.fault() {
        Some(fault) => Ok(Some(format!(in alloc; "{fault}")?)),
        None => Ok(None),
    }
}

/// Why a line is none that `cw_line` takes, in words, which are copied to the start of the buffer; `needed` is how many
/// octets they have.
///
/// # Errors
///
/// NO_DATA where it is one, MEMORY: then nothing is written. OUT_OF_RESOURCES where the buffer is too short: then
/// nothing is copied, and `needed` says how long it has to be.
#[unsafe(no_mangle)]
pub extern "C" fn cw_line_fault(
    alloc: Global,
    line: &[u8],
    buffer: &mut [u8],
    needed: &mut usize,
) -> u8
    // Some text, which no clause spells, is copied where it fits as a whole; else nothing is, for its cause.
    ensures text { CauseWritten buffer.old buffer.new needed.old needed.new result }
{
    match line_cause(alloc, line) {
        Ok(cause) => cause_out(cause, buffer, needed),
        Err(AllocError) => Code::Memory.number(),
    }
}

/// Why `cw_open_text` refuses a configuration in lines, whichever peer of it is asked for: in words, with the number of the
/// line, or the peer, writer or reader that breaks a rule. They are copied to the start of the buffer; `needed` is how
/// many octets they have.
///
/// # Errors
///
/// NO_DATA where it is taken, MEMORY: then nothing is written. OUT_OF_RESOURCES where the buffer is too short: then
/// nothing is copied, and `needed` says how long it has to be.
#[unsafe(no_mangle)]
pub extern "C" fn cw_text_fault(
    alloc: Global,
    text: &[u8],
    buffer: &mut [u8],
    needed: &mut usize,
) -> u8
    // Some text, which no clause spells, is copied where it fits as a whole; else nothing is, for its cause.
    ensures text { CauseWritten buffer.old buffer.new needed.old needed.new result }
{
    let Ok(text) = str::from_utf8(text) else {
        return copy_out(b"it is no text in UTF-8", buffer, needed);
    };
    match text_cause(alloc, text) {
        Ok(cause) => cause_out(cause, buffer, needed),
        Err(AllocError) => Code::Memory.number(),
    }
}

/// An event in a line of docs/PIPE.md, without its line feed: `call ..`, `tick M`, `deliver HEX` or
/// `resume R`.
///
/// # Errors
///
/// BAD_PARAMETER for a line that is none of these, MEMORY, PRECONDITION_NOT_MET where no peer is open; else as the event
/// has them.
#[unsafe(no_mangle)]
pub extern "C" fn cw_line(alloc: Global, peer: &mut Peer, line: &[u8]) -> u8
    // It is one step of the peer by some event, or nothing changes.
    ensures step { HappensSomething peer.old.held.session result peer.new.held.session }
{
    match event_of(alloc, line) {
        Ok(Some(event)) => step(alloc, peer, event),
        Ok(None) => Code::BadParameter.number(),
        Err(_) => Code::Memory.number(),
    }
}

/// A reply in words, and how many packets found no memory.
pub(crate) fn text_of_reply(
    alloc: Global,
    side: Side,
    reply: &Reply,
    unsent: u64,
) -> Result<String, AllocError> {
    let mut text = TranscriptLine::new(alloc);
    text.push_reply(side, reply);
    text.push_unsent(unsent);
    text.finish()
}

fn text_out(alloc: Global, session: &Session, buffer: &mut [u8], needed: &mut usize) -> u8
    ensures written { TextWritten buffer.old buffer.new needed.old needed.new result }
{
    let last = &session.last;
    match text_of_reply(alloc, session.side, &last.reply, last.unsent) {
        Ok(text) => copy_out(text.as_bytes(), buffer, needed),
        Err(_) => Code::Memory.number(),
    }
}

/// The reply of the last answer in words, as docs/PIPE.md has them behind `reply`, and a line feed. It is copied to the
/// start of the buffer, and `needed` is how many octets it has.
///
/// # Errors
///
/// PRECONDITION_NOT_MET where no peer is open, MEMORY, OUT_OF_RESOURCES where the buffer is too short: then nothing is
/// copied, and `needed` says how long it has to be.
#[unsafe(no_mangle)]
pub extern "C" fn cw_text(
    alloc: Global,
    peer: &mut Peer,
    buffer: &mut [u8],
    needed: &mut usize,
) -> u8
    // Some text, which no clause spells, is copied where it fits as a whole; else nothing is, for its cause.
    ensures text { TextFetched peer.old.held.session
        buffer.old buffer.new needed.old needed.new result }
    // Nothing happens to the peer.
    ensures keeps { peer.new.held.session ≡ peer.old.held.session }
{
    let Some(session) = peer.take(alloc) else {
        return NOT_OPEN.number();
    };
    let code = text_out(alloc, &session, buffer, needed);
    peer.put(session);
    code
}
