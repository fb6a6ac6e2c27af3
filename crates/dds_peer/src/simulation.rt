//! A script, run over a simulated network.

use crate::meeting::introduced;
use crate::peers::{Peers, fault_of};
use crate::script::Line;
use crate::setup::{NumberedSetup, SetupPart};
use crate::stream::Script;
use dds_base::{Code, ConfigFault, Endpoint, Octets};
use dds_machine::WorldEvent;
use dds_notices::Recorder;
use dds_script::{
    Fault, ListenerLine, Prefix, SetupRefusal, Side, Status, Traffic, TranscriptLine, print,
};
use dds_world::World as WorldOf;
use std::alloc::{AllocError, Global};
use std::io::{Read, Write};

/// A network whose filters and listeners are those that lines ask for.
type World = WorldOf<Prefix, Recorder>;

/// A network that is open, and the peers that its set-up named.
#[derive(Drop)]
struct Opened {
    world: World,
    peers: Peers,
}

/// The network of a script: its set-up, and what this gives once another line follows.
#[derive(Drop)]
struct Network {
    alloc: Global,
    echo: Echo,
    setup: NumberedSetup,
    opened: Option<Opened>,
}

/// Whether each command is printed before what it answers.
#[derive(Clone, Copy)]
pub enum Echo {
    None,
    Commands,
}

/// Why a set-up is refused at this line, whose fault this is if it has one.
fn refusal(code: Code, fault: Option<ConfigFault>, line: u64) -> Fault {
    match code {
        Code::Memory => Fault::Memory,
        code => Fault::Refused {
            line,
            refusal: SetupRefusal { code, fault },
        },
    }
}

/// Opens the network of these peers, to which those that come later come at once, at this line.
fn world_of(alloc: Global, peers: &Peers, line: u64) -> Result<World, Fault> {
    let opened = World::open(alloc, &peers.opening);
    let mut world = opened.map_err(|code| refusal(code, peers.opening.fault(), line))?;
    let known = peers.opening.peers.as_slice().len();
    for (index, peer) in peers.later.as_slice().iter().enumerate() {
        if let Err(code) = world.come(peer) {
            return Err(refusal(code, fault_of(peer, known + index + 1), line));
        }
    }
    Ok(world)
}

/// Opens the network of a set-up, at this line.
fn open_network(alloc: Global, setup: &mut NumberedSetup, line: u64) -> Result<Opened, Fault> {
    let peers = setup.peers()?;
    let world = world_of(alloc, &peers, line)?;
    Ok(Opened { world, peers })
}

/// What happens to the network of these peers at a line.
fn event_of(peers: &Peers, event: WorldEvent) -> WorldEvent {
    match event {
        WorldEvent::Call { peer, call } => WorldEvent::Call {
            peer,
            call: introduced(peers, peer, call),
        },
        event => event,
    }
}

/// Whose matches an event looks at, if it is such a look.
fn side_of(event: &WorldEvent) -> Side {
    match event {
        WorldEvent::Call { call, .. } => Side::of(call),
        _ => Side::Reader,
    }
}

fn push_event(text: &mut TranscriptLine, world: &mut World, event: WorldEvent) {
    let (sent, unsent, side) = (world.sent(), world.unsent(), side_of(&event));
    text.push_reply(side, &world.step(event));
    text.push_traffic(Traffic {
        before: sent,
        after: world.sent(),
        unsent: world.unsent().saturating_sub(unsent),
    });
}

fn push_round(text: &mut TranscriptLine, world: &mut World, writer: Endpoint, reader: Endpoint) {
    let (mut sent, mut unsent) = (world.sent(), world.unsent());
    match world.round(writer, reader) {
        Ok(round) => {
            for (index, next) in round.replies.as_slice().iter().enumerate() {
                if index > 0 {
                    text.end_line();
                }
                text.push_reply(Side::Reader, &next.reply);
                text.push_traffic(Traffic {
                    before: sent,
                    after: next.sent,
                    unsent: next.unsent.saturating_sub(unsent),
                });
                (sent, unsent) = (next.sent, next.unsent);
            }
        }
        Err(code) => text.push_code(code),
    }
}

fn push_filter(text: &mut TranscriptLine, world: &mut World, peer: u32, octets: Octets) {
    match world.add_filter(peer, Prefix::new(octets)) {
        Ok(number) => text.push_created(number),
        Err((code, _)) => text.push_code(code),
    }
}

/// Sets the listener that a line asks for, and hands out the one that was there before.
fn set_listener(
    alloc: Global,
    world: &mut World,
    peer: u32,
    asked: ListenerLine,
) -> Result<Option<Recorder>, Code> {
    let listener = asked.recorder(alloc)?;
    match world.set_listener(peer, asked.entity, asked.mask, listener) {
        Ok(old) => Ok(old),
        Err((code, _)) => Err(code),
    }
}

fn push_packet(text: &mut TranscriptLine, world: &World, number: u64) {
    let packet = world.packet(number).map(|packet| packet.bytes.as_slice());
    text.push_packet(number, packet);
}

/// Runs a line that is no part of the set-up, and gives the line of the transcript, or for a round its lines.
fn transcript_of(alloc: Global, opened: &mut Opened, line: Line) -> Result<String, AllocError> {
    let Opened { world, peers } = opened;
    let mut text = TranscriptLine::new(alloc);
    match line {
        Line::Event(event) => push_event(&mut text, world, event_of(peers, event)),
        Line::Filter { peer, octets } => push_filter(&mut text, world, peer, octets),
        Line::Listener { peer, asked } => {
            text.push_listener_set(&set_listener(alloc, world, peer, asked));
        }
        Line::Round { writer, reader } => push_round(&mut text, world, writer, reader),
        Line::Packet(number) => push_packet(&mut text, world, number),
        Line::Skipped | Line::Setup(_) => {}
    }
    text.finish()
}

/// A command as it is echoed.
fn echo_of(alloc: Global, command: &[u8]) -> Result<String, AllocError> {
    let mut text = TranscriptLine::new(alloc);
    text.push_word("> ");
    if let Ok(command) = str::from_utf8(command) {
        text.push_word(command);
    }
    text.finish()
}

impl Network {
    fn new(alloc: Global, echo: Echo) -> Self {
        Network {
            alloc,
            echo,
            setup: NumberedSetup::new(alloc),
            opened: None,
        }
    }

    /// Takes up a line of the set-up, which may not follow another line, nor name a writer or a reader before any peer,
    /// nor a peer that the opening knows behind one that comes later.
    fn set_up(&mut self, part: SetupPart, line: u64) -> Result<(), Fault> {
        if self.opened.is_some() {
            let cause = "the set-up ended with the first command";
            return Err(Fault::not_a_command(self.alloc, line, cause));
        }
        match self.setup.take(part)? {
            None => Ok(()),
            Some(cause) => Err(Fault::not_a_command(self.alloc, line, cause)),
        }
    }

    /// Opens the network at this line, if it was not before.
    fn open(&mut self, line: u64) -> Result<(), Fault> {
        if self.opened.is_none() {
            self.opened = Some(open_network(self.alloc, &mut self.setup, line)?);
        }
        Ok(())
    }

    /// Prints a command, where commands are echoed.
    fn print_echo(&self, command: &[u8], output: &mut impl Write) -> Result<(), Fault> {
        match self.echo {
            Echo::None => Ok(()),
            Echo::Commands => print(output, echo_of(self.alloc, command)?.as_str()),
        }
    }

    /// Runs a line on the open network, and prints what it answers.
    fn answer(&mut self, line: Line, output: &mut impl Write) -> Result<(), Fault> {
        match &mut self.opened {
            Some(opened) => print(output, transcript_of(self.alloc, opened, line)?.as_str()),
            None => Ok(()),
        }
    }

    /// Runs the line that a script read last.
    fn run_line<R: Read + Drop>(
        &mut self,
        line: Line,
        script: &Script<R>,
        output: &mut impl Write,
    ) -> Result<(), Fault> {
        match line {
            Line::Skipped => Ok(()),
            Line::Setup(part) => self.set_up(part, script.number()),
            line => {
                self.open(script.number())?;
                self.print_echo(script.line(), output)?;
                self.answer(line, output)
            }
        }
    }

    fn run<R: Read + Drop>(
        &mut self,
        script: &mut Script<R>,
        output: &mut impl Write,
    ) -> Result<(), Fault> {
        for _ in 0..u64::MAX {
            match script.next()? {
                Some(line) => self.run_line(line, script, output)?,
                None => break,
            }
        }
        self.open(script.number())
    }
}

fn run_script<R: Read + Drop>(
    alloc: Global,
    echo: Echo,
    script: &mut Script<R>,
    output: &mut impl Write,
) -> Result<(), Fault> {
    let mut network = Network::new(alloc, echo);
    network.run(script, output)
}

/// Runs a script: each line is read, run and printed before the next one is looked at.
///
/// Nothing ends it early but a line that is no command, a set-up that is refused, a stream that fails, more than
/// 1,048,576 octets of input, or want of memory for reading, for opening the network or for printing.
pub fn sim<R: Read + Drop, W: Write + Drop>(
    alloc: Global,
    echo: Echo,
    input: R,
    mut output: W,
) -> Status {
    match Script::open(alloc, input) {
        Ok(mut script) => Status::of(run_script(alloc, echo, &mut script, &mut output)),
        Err(fault) => Status::failed(fault),
    }
}
