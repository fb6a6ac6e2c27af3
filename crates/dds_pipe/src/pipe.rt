//! A peer, asked line by line.

use crate::cause::cause_of;
use crate::kinds::{KindLine, Kinds, Tables};
use crate::line::{Line, line_of};
use dds_base::{Code, Guid, Octets, Sequence};
use dds_core::Mindful;
use dds_machine::Reply;
use dds_notices::Recorder;
use dds_protocol::{Event, Output, Packet};
use dds_script::{
    Fault, Lines, ListenerLine, Prefix, Setup, SetupLine, SetupRefusal, Side, Status,
    TranscriptLine, print,
};
use rtps_fragments::Fragments;
use std::alloc::{AllocError, Global};
use std::io::{Read, Write};

/// How many octets a line has at most, with its line feed: those of a datagram of 65,535 octets, with its word.
const MAX_LINE: u64 = 131_080;

/// A peer whose filters and listeners are those that lines ask for.
type Core = Mindful<Prefix, Recorder>;

/// How far a session has come.
#[derive(Drop)]
enum Stage {
    /// Peers, writers and readers are being named.
    Naming(Setup),
    /// The peer was refused, for this cause: no line is taken any more.
    Refused(SetupRefusal),
    /// The peer is there.
    Open(Core),
}

/// What lines are said to.
#[derive(Drop)]
struct Session {
    alloc: Global,
    stage: Stage,
    kinds: Kinds,
    fragments: Fragments,
}

fn packet_line(alloc: Global, to: u32, bytes: &[u8]) -> Result<String, AllocError> {
    let mut text = TranscriptLine::new(alloc);
    text.push_packet(u64::from(to), Some(bytes));
    text.finish()
}

fn whole_line(alloc: Global, bytes: &[u8]) -> Result<String, AllocError> {
    let mut text = TranscriptLine::new(alloc);
    text.push_word("whole ");
    text.push_octets(bytes);
    text.finish()
}

fn reply_line(alloc: Global, side: Side, reply: &Reply, unsent: u64) -> Result<String, AllocError> {
    let mut text = TranscriptLine::new(alloc);
    text.push_word("reply ");
    text.push_reply(side, reply);
    text.push_unsent(unsent);
    text.finish()
}

/// The line of a reply to what is no event.
fn plain_line(alloc: Global, reply: &Reply) -> Result<String, AllocError> {
    reply_line(alloc, Side::Reader, reply, 0)
}

/// What is printed of a listener that was set, or was not.
fn listener_text(
    alloc: Global,
    set: &Result<Option<Recorder>, Code>,
) -> Result<String, AllocError> {
    let mut text = TranscriptLine::new(alloc);
    text.push_word("reply ");
    text.push_listener_set(set);
    text.finish()
}

/// Sets the listener that a line asks for, and hands out the one that was there before.
fn set_listener(
    alloc: Global,
    core: &mut Core,
    asked: ListenerLine,
) -> Result<Option<Recorder>, Code> {
    let listener = asked.recorder(alloc)?;
    match core.set_listener(asked.entity, asked.mask, listener) {
        Ok(old) => Ok(old),
        Err((code, _)) => Err(code),
    }
}

/// Whose matches an event looks at, if it is such a look.
fn side_of(event: &Event) -> Side {
    match event {
        Event::Call(call) => Side::of(call),
        _ => Side::Reader,
    }
}

/// What the peer is given of an event: of a datagram that comes what it turns into.
fn given_event(tables: &Tables, event: Event) -> Result<Event, Code> {
    match event {
        Event::Deliver(bytes) => Ok(Event::Deliver(tables.inward(bytes)?)),
        event => Ok(event),
    }
}

/// The answer where nothing happened at the peer.
fn refusal(alloc: Global, code: Code) -> Output {
    Output {
        reply: Reply::Refused(code),
        packets: Sequence::from_vec(Vec::new(alloc)),
        unsent: 0,
    }
}

/// An event at a peer, which is told of no datagram that can't be turned for it.
fn step(alloc: Global, core: &mut Core, tables: &Tables, event: Event) -> Output {
    match given_event(tables, event) {
        Ok(event) => core.step(event),
        Err(code) => refusal(alloc, code),
    }
}

/// Prints a line for each packet that is sent, as it goes to the network, and then the one of the reply. A packet that
/// can't be turned is not sent.
fn print_output(
    alloc: Global,
    tables: &Tables,
    side: Side,
    given: Output,
    output: &mut impl Write,
) -> Result<(), Fault> {
    let Output {
        reply,
        packets,
        mut unsent,
    } = given;
    for Packet { to, bytes } in packets.into_vec() {
        match tables.outward(bytes) {
            Ok(bytes) => print(output, packet_line(alloc, to, bytes.as_slice())?.as_str())?,
            Err(_) => unsent = unsent.saturating_add(1),
        }
    }
    print(output, reply_line(alloc, side, &reply, unsent)?.as_str())
}

/// Prints a line for each message that fragments made whole.
fn print_whole(alloc: Global, whole: &[Octets], output: &mut impl Write) -> Result<(), Fault> {
    for message in whole {
        print(output, whole_line(alloc, message.as_slice())?.as_str())?;
    }
    Ok(())
}

impl Session {
    fn new(alloc: Global) -> Result<Self, Code> {
        Ok(Session {
            alloc,
            stage: Stage::Naming(Setup::new(alloc)),
            kinds: Kinds::new(alloc),
            fragments: Fragments::new(alloc, &[])?,
        })
    }

    /// The fault of a line that may not stand where the session is, for this cause, or as the peer was refused.
    fn misplaced(&self, line: u64, cause: &str) -> Fault {
        match &self.stage {
            Stage::Refused(refusal) => {
                let cause = format!(in self.alloc; "the peer was refused with {refusal}");
                Fault::of_cause(line, cause)
            }
            _ => Fault::not_a_command(self.alloc, line, cause),
        }
    }

    /// The fault of a line that may only stand before the opening.
    fn too_late(&self, line: u64) -> Fault {
        self.misplaced(line, "it may stand before `open N` alone")
    }

    /// The fault of a line that needs the peer to be open.
    fn not_open(&self, line: u64) -> Fault {
        self.misplaced(line, "no peer is open; `open N` opens one")
    }

    /// Takes up a line of the configuration, which may not follow the opening, nor name a writer or a reader before any
    /// peer.
    fn set_up(&mut self, part: SetupLine, line: u64) -> Result<(), Fault> {
        let Stage::Naming(setup) = &mut self.stage else {
            return Err(self.too_late(line));
        };
        if setup.take(part)? {
            Ok(())
        } else {
            let cause = "a writer or a reader follows a peer";
            Err(Fault::not_a_command(self.alloc, line, cause))
        }
    }

    /// Opens the peer of a number, once.
    fn open(&mut self, peer: u32, line: u64) -> Result<Reply, Fault> {
        let Stage::Naming(setup) = &mut self.stage else {
            return Err(self.too_late(line));
        };
        let config = setup.config()?;
        let (stage, reply) = match Core::open(self.alloc, &config, peer) {
            Ok(core) => (Stage::Open(core), Reply::Done),
            Err(code) => {
                let fault = config.fault();
                let refusal = SetupRefusal { code, fault };
                (Stage::Refused(refusal), Reply::Refused(code))
            }
        };
        self.stage = stage;
        Ok(reply)
    }

    /// Takes up what the topic of a writer carries, unless the peer was refused.
    fn set_kind(&mut self, kind: KindLine, line: u64) -> Result<(), Fault> {
        match &self.stage {
            Stage::Refused(_) => Err(self.too_late(line)),
            _ => Ok(self.kinds.take(kind)?),
        }
    }

    /// Puts the fragments of a writer together from here on, unless the peer was refused.
    fn know(&mut self, writer: Guid, line: u64) -> Result<(), Fault> {
        if let Stage::Refused(_) = self.stage {
            return Err(self.too_late(line));
        }
        match self.fragments.know(self.alloc, writer) {
            Ok(()) => Ok(()),
            Err(_) => Err(Fault::Memory),
        }
    }

    /// Looks at a datagram for fragments, unless the peer was refused. Prints what they made whole, and whether there was
    /// memory.
    fn hear(&mut self, bytes: Octets, line: u64, output: &mut impl Write) -> Result<(), Fault> {
        if let Stage::Refused(_) = self.stage {
            return Err(self.too_late(line));
        }
        let mut whole = Vec::new(self.alloc);
        let reply = match self
            .fragments
            .hear(self.alloc, bytes.as_slice(), &mut whole)
        {
            Ok(()) => Reply::Done,
            Err(code) => Reply::Refused(code),
        };
        print_whole(self.alloc, &whole, output)?;
        print(output, plain_line(self.alloc, &reply)?.as_str())
    }

    /// An event at the peer, which needs to be open. Prints what answers it.
    fn happen(&mut self, event: Event, line: u64, output: &mut impl Write) -> Result<(), Fault> {
        let Stage::Open(core) = &mut self.stage else {
            return Err(self.not_open(line));
        };
        match self.kinds.tables() {
            Ok(tables) => {
                let side = side_of(&event);
                let given = step(self.alloc, core, &tables, event);
                print_output(self.alloc, &tables, side, given, output)
            }
            Err(AllocError) => {
                let reply = Reply::Refused(Code::Memory);
                print(output, plain_line(self.alloc, &reply)?.as_str())
            }
        }
    }

    /// A filter more at the peer, which needs to be open.
    fn add_filter(&mut self, octets: Octets, line: u64) -> Result<Reply, Fault> {
        let Stage::Open(core) = &mut self.stage else {
            return Err(self.not_open(line));
        };
        match core.add_filter(Prefix::new(octets)) {
            Ok(number) => Ok(Reply::Created(number)),
            Err((code, _)) => Ok(Reply::Refused(code)),
        }
    }

    /// Sets the listener that an entity of the peer is to have, or takes the one away that it has. The peer needs to be
    /// open. Gives the line that is printed.
    fn set_listener(&mut self, asked: ListenerLine, line: u64) -> Result<String, Fault> {
        let Stage::Open(core) = &mut self.stage else {
            return Err(self.not_open(line));
        };
        let set = set_listener(self.alloc, core, asked);
        Ok(listener_text(self.alloc, &set)?)
    }

    /// Does what the line of this number says, and prints what it answers.
    fn answer(&mut self, line: Line, number: u64, output: &mut impl Write) -> Result<(), Fault> {
        match line {
            Line::Setup(part) => self.set_up(part, number),
            Line::Kind(kind) => self.set_kind(kind, number),
            Line::Fragments(writer) => self.know(writer, number),
            Line::Hear(bytes) => self.hear(bytes, number, output),
            Line::Open(peer) => {
                let reply = self.open(peer, number)?;
                print(output, plain_line(self.alloc, &reply)?.as_str())
            }
            Line::Filter(octets) => {
                let reply = self.add_filter(octets, number)?;
                print(output, plain_line(self.alloc, &reply)?.as_str())
            }
            Line::Listener(asked) => {
                let text = self.set_listener(asked, number)?;
                print(output, text.as_str())
            }
            Line::Event(event) => self.happen(event, number, output),
        }
    }
}

/// Reads a line of at most 131,080 octets, and tells what it says; none at the end of the input.
fn next_line<R: Read + Drop>(alloc: Global, lines: &mut Lines<R>) -> Result<Option<Line>, Fault> {
    lines.allow(MAX_LINE);
    if !lines.advance()? {
        return Ok(None);
    }
    match line_of(alloc, lines.line())? {
        Some(line) => Ok(Some(line)),
        None => Err(Fault::of_cause(lines.number(), cause_of(alloc, lines.line()))),
    }
}

fn answer_lines<R: Read + Drop>(
    alloc: Global,
    lines: &mut Lines<R>,
    output: &mut impl Write,
) -> Result<(), Fault> {
    let Ok(mut session) = Session::new(alloc) else {
        return Err(Fault::Memory);
    };
    for _ in 0..u64::MAX {
        match next_line(alloc, lines)? {
            Some(line) => session.answer(line, lines.number(), output)?,
            None => break,
        }
    }
    Ok(())
}

/// Answers lines: each is read, done and answered before the next one is looked at.
///
/// Nothing ends it early but a line that says nothing or may not stand where it does, one of more than 131,080 octets,
/// a stream that fails, or want of memory for reading, for the configuration, for what topics carry or for printing.
pub fn answer_all<R: Read + Drop, W: Write + Drop>(
    alloc: Global,
    input: R,
    mut output: W,
) -> Status {
    match Lines::open(alloc, input, MAX_LINE) {
        Ok(mut lines) => Status::of(answer_lines(alloc, &mut lines, &mut output)),
        Err(fault) => Status::failed(fault),
    }
}
