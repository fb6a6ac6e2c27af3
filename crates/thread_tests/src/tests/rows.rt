//! Rows of text, done with a pass of a shared peer.
//!
//! A row is what is done and, after ` => `, what must come of it, if that is looked at: a call in a script's words; `send`
//! and a write, whose packet is delivered; `wait` and a moment; `turns` and the number of a writer: how many of its 25
//! turns take what they wrote.

use super::peer::Peer;
use dds_base::{Code, Handle, Key, Masks, Moment, Octets, Selection};
use dds_machine::Call;
use dds_protocol::Event;
use dds_script::{call_of, words_of};
use std::alloc::Global;
use std::process::Abort;
use std::sync::Wait;

// The call that a line asks for.
fn event_of(alloc: Global, line: &str) -> Result<Event, Code> {
    let words = words_of(alloc, line)?;
    match call_of(alloc, words.as_slice())? {
        Some(call) => Ok(Event::Call(call)),
        None => Err(Code::BadParameter),
    }
}

// Does a write, and delivers the packet of it.
fn send<S: Peer<P>, P, R: Wait>(
    rt: &R,
    alloc: Global,
    shared: &S,
    pass: &mut P,
    write: Event,
) -> Result<String, Code> {
    let written = shared.does(rt, alloc, pass, write)?;
    let event = Event::Deliver(written.packet);
    Ok(shared.does(rt, alloc, pass, event)?.text)
}

// A write of this octet, of the writer's own key.
fn write_of(alloc: Global, writer: u8, octet: u8) -> Result<Event, Code> {
    let key = Key([writer; 16]);
    let value = Octets::from_vec(vec![in alloc; octet]?);
    Ok(Event::Call(Call::Write { writer, key, value }))
}

// A look for the instance of that key.
fn lookup_of(writer: u8) -> Event {
    let (reader, key) = (1, Key([writer; 16]));
    Event::Call(Call::LookupInstance { reader, key })
}

// A take of the instance that a look found.
fn take_of(found: &str) -> Event {
    let number = found.trim_end().strip_prefix("handle ").unwrap_or("");
    let selection = Selection::Instance {
        handle: Handle::new(number.parse().unwrap_or(0)),
        max: -1,
        masks: Masks::ANY,
    };
    Event::Call(Call::Take {
        reader: 1,
        selection,
    })
}

// Whether that is a sample of this one octet, and no other.
fn is_taken(alloc: Global, taken: &str, octet: u8) -> Result<bool, Code> {
    let wanted = format!(in alloc; "{octet:02x}")?;
    let sample = taken.strip_prefix("samples 1 [").unwrap_or("");
    let (_, after) = sample.split_once(' ').unwrap_or((sample, ""));
    let (value, _) = after.split_once(' ').unwrap_or((after, ""));
    Ok(value == wanted.as_str())
}

// Writes a value, delivers the packet of it, looks the instance up and takes it; whether that gave the value alone.
fn turn<S: Peer<P>, P, R: Wait>(
    rt: &R,
    alloc: Global,
    shared: &S,
    pass: &mut P,
    writer: u8,
    octet: u8,
) -> Result<bool, Code> {
    send(rt, alloc, shared, pass, write_of(alloc, writer, octet)?)?;
    let found = shared.does(rt, alloc, pass, lookup_of(writer))?;
    let event = take_of(found.text.as_str());
    let taken = shared.does(rt, alloc, pass, event)?;
    is_taken(alloc, taken.text.as_str(), octet)
}

// How many of 25 turns take what they wrote.
fn turns<S: Peer<P>, P, R: Wait>(
    rt: &R,
    alloc: Global,
    shared: &S,
    pass: &mut P,
    writer: u8,
) -> Result<String, Code> {
    let mut count = 0u8;
    for octet in 0..25 {
        if turn(rt, alloc, shared, pass, writer, octet)? {
            count = count.wrapping_add(1);
        }
    }
    Ok(format!(in alloc; "{count}")?)
}

fn call<S: Peer<P>, P, R: Wait>(
    rt: &R,
    alloc: Global,
    shared: &S,
    pass: &mut P,
    line: &str,
) -> Result<String, Code> {
    let event = event_of(alloc, line)?;
    Ok(shared.does(rt, alloc, pass, event)?.text)
}

fn send_line<S: Peer<P>, P, R: Wait>(
    rt: &R,
    alloc: Global,
    shared: &S,
    pass: &mut P,
    line: &str,
) -> Result<String, Code> {
    let write = event_of(alloc, line)?;
    send(rt, alloc, shared, pass, write)
}

fn wait<S: Peer<P>, P, R: Wait>(
    rt: &R,
    alloc: Global,
    shared: &S,
    pass: &mut P,
    moment: &str,
) -> Result<String, Code> {
    let deadline = Moment::new(moment.parse().unwrap_or(0));
    Ok(shared.waits(rt, alloc, pass, deadline)?.text)
}

// What comes of a line.
fn answer<S: Peer<P>, P, R: Wait>(
    rt: &R,
    alloc: Global,
    shared: &S,
    pass: &mut P,
    line: &str,
) -> Result<String, Code> {
    let (name, operands) = line.split_once(' ').unwrap_or((line, ""));
    match name {
        "send" => send_line(rt, alloc, shared, pass, operands),
        "wait" => wait(rt, alloc, shared, pass, operands),
        "turns" => turns(rt, alloc, shared, pass, operands.parse().unwrap_or(0)),
        _ => call(rt, alloc, shared, pass, line),
    }
}

// Does what each row says, and looks at what comes of it.
pub fn run_rows<S: Peer<P>, P, R: Wait + Abort>(
    rt: &R,
    alloc: Global,
    shared: &S,
    pass: &mut P,
    rows: &str,
) -> Result<(), Code> {
    for row in rows.lines() {
        let (line, wanted) = row.split_once(" => ").unwrap_or((row, ""));
        let text = answer(rt, alloc, shared, pass, line)?;
        assert!(rt;
            wanted.is_empty() || text.trim_end() == wanted,
            "{line} => {text}"
        );
    }
    Ok(())
}
