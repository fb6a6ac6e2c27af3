//! Discovery, asked line by line.
//!
//! `specs/Session.antt` says what is printed.

ghost use Rattle.std.specs.Prelude.{◌≡◌, ◌++◌, IfOk, IsSomeAnd, OnOk, Some};
ghost use Rattle.std.specs.Io.KnownBytes.{Appends};
ghost use Rattle.std.specs.Option.{option_to_list};
ghost use Rattle.rtps_discovery.specs.Steps.{farewells};
ghost use Rattle.rtps_matching.specs.Misfits.{misfits};
ghost use Rattle.rtps_matching.specs.Steps.{told_of_own};
ghost use Rattle.dds_discovery.specs.Events.{added, ticked};
ghost use Rattle.dds_discover.specs.Stages.{Begins, IsUnsaid, Says, SaysAddress, discovery_of, said_of};
ghost use Rattle.dds_discover.specs.Session.{Delivered, Happens, Leads, Prints, Removes, Settles, done_lines, misfit_lines, packet_lines, presence_lines, ticked_lines, told_lines, where_answered};

use crate::line::{Line, cause_of, line_of};
use crate::reply::print_reply;
use dds_base::{Code, EntityId, Guid, GuidPrefix, Masks, Octets};
use dds_discovery::{Discovery, Done, Step};
use dds_script::{Fault, Lines, Status};
use discovery_script::{
    USUAL_ENDPOINTS, USUAL_LIMITS, print_far, print_misfit, print_packet, print_presence,
    print_row, print_told,
};
use rtps_announcements::{Locator, Participant};
use rtps_discovery::{Heard, Limits, Packet, Settings, Ticked, Told as Presence};
use rtps_matching::{End, Misfitting, Told};
use std::alloc::{AllocError, Global};
use std::io::{Read, Write};

/// How many octets a line has at most, with its line feed: those of a datagram of 65,535 octets, with its words.
const MAX_LINE: u64 = 131_120;

/// What lines say before discovery begins.
#[derive(Drop)]
struct Beginning {
    participant: Option<(Participant, u32)>,
    addresses: Vec<Locator>,
    limits: Limits,
    most: usize,
}

/// How far a session has come.
#[derive(Drop)]
enum Stage {
    /// Who we are is being said.
    Naming(Beginning),
    /// Discovery has begun, or was refused: no line is taken any more.
    Refused,
    /// Discovery goes on.
    Open(Discovery),
}

/// What lines are said to.
#[derive(Drop)]
struct Session {
    alloc: Global,
    prefix: GuidPrefix,
    stage: Stage,
}

fn print_all_told<W: Write>(alloc: Global, told: &[Told], output: &mut W) -> Result<(), Fault>
    ensures printed { OnOk result
        (Appends (W.contents output.old) (W.contents output.new) (told_lines told.now)) }
{
    for one in told {
        print_told(alloc, *one, output)?;
    }
    Ok(())
}

fn print_packets<W: Write>(alloc: Global, packets: &[Packet], output: &mut W) -> Result<(), Fault>
    ensures printed { OnOk result
        (Appends (W.contents output.old) (W.contents output.new) (packet_lines packets.now)) }
{
    for packet in packets {
        print_packet(alloc, packet, output)?;
    }
    Ok(())
}

/// Prints a datagram, where there is one.
fn print_any<W: Write>(alloc: Global, packet: &Option<Packet>, output: &mut W) -> Result<(), Fault>
    ensures printed { OnOk result (Appends (W.contents output.old) (W.contents output.new)
        (packet_lines (option_to_list packet.now))) }
{
    match packet {
        Some(packet) => print_packet(alloc, packet, output),
        None => Ok(()),
    }
}

/// Prints who is there, or no more.
fn print_presences<W: Write>(alloc: Global, told: &[Presence], output: &mut W) -> Result<(), Fault>
    ensures printed { OnOk result
        (Appends (W.contents output.old) (W.contents output.new) (presence_lines told.now)) }
{
    for one in told {
        print_presence(alloc, *one, output)?;
    }
    Ok(())
}

/// Prints this where it was told of anybody.
fn print_presence_of<W: Write>(
    alloc: Global,
    told: Option<Presence>,
    output: &mut W,
) -> Result<(), Fault>
    ensures printed { OnOk result (Appends (W.contents output.old) (W.contents output.new)
        (presence_lines (option_to_list told))) }
{
    match told {
        Some(told) => print_presence(alloc, told, output),
        None => Ok(()),
    }
}

fn print_misfits<W: Write>(
    alloc: Global,
    misfits: &[Misfitting],
    output: &mut W,
) -> Result<(), Fault>
    ensures printed { OnOk result
        (Appends (W.contents output.old) (W.contents output.new) (misfit_lines misfits.now)) }
{
    for misfit in misfits {
        print_misfit(alloc, misfit, output)?;
    }
    Ok(())
}

fn print_done<W: Write>(alloc: Global, done: &Done, output: &mut W) -> Result<(), Fault>
    ensures printed { OnOk result
        (Appends (W.contents output.old) (W.contents output.new) (done_lines done.now)) }
{
    print_all_told(alloc, &done.told, output)?;
    print_any(alloc, &done.packet, output)
}

fn print_heard<W: Write>(alloc: Global, heard: &Heard, output: &mut W) -> Result<(), Fault>
    ensures printed { OnOk result (Appends (W.contents output.old) (W.contents output.new)
        (presence_lines (option_to_list heard.now.told)
        ++ packet_lines (option_to_list heard.now.packet))) }
{
    print_presence_of(alloc, heard.told, output)?;
    print_any(alloc, &heard.packet, output)
}

fn print_ticked<W: Write>(alloc: Global, ticked: &Ticked, output: &mut W) -> Result<(), Fault>
    ensures printed { OnOk result (Appends (W.contents output.old) (W.contents output.new)
        (presence_lines ticked.now.told.items ++ packet_lines ticked.now.packets.items)) }
{
    print_presences(alloc, &ticked.told, output)?;
    print_packets(alloc, &ticked.packets, output)
}

/// Does what an event leaves to do, and prints it. Answers whether there was memory for it.
fn settle<W: Write>(
    alloc: Global,
    discovery: &mut Discovery,
    output: &mut W,
) -> Result<Result<(), Code>, Fault>
    ensures settled { IfOk result (λ answered.
        Prints (W.contents output.old) (W.contents output.new)
        (λ text. Settles discovery.old text discovery.new answered)) }
{
    for _count in 0..u64::MAX {
        match discovery.settle(alloc) {
            Ok(Step::Settled) => break,
            Ok(Step::Done(done)) => print_done(alloc, &done, output)?,
            Err(code) => return Ok(Err(code)),
        }
    }
    Ok(Ok(()))
}

/// An endpoint of ours more; prints whom it is matched with.
fn add<W: Write>(
    alloc: Global,
    discovery: &mut Discovery,
    end: End,
    output: &mut W,
) -> Result<Result<(), Code>, Fault>
    ensures added { IfOk result (λ answered.
        Prints (W.contents output.old) (W.contents output.new)
        (λ text. Happens (told_lines (told_of_own end discovery.old.endpoints)) discovery.old
        (added end discovery.old) text discovery.new answered)) }
{
    match discovery.add(alloc, end) {
        Ok(told) => print_all_told(alloc, &told, output)?,
        Err(code) => return Ok(Err(code)),
    }
    settle(alloc, discovery, output)
}

/// An endpoint of ours goes; prints whom it was matched with.
fn remove<W: Write>(
    alloc: Global,
    discovery: &mut Discovery,
    guid: &Guid,
    output: &mut W,
) -> Result<Result<(), Code>, Fault>
    ensures removed { IfOk result (λ answered.
        Prints (W.contents output.old) (W.contents output.new)
        (λ text. Removes guid.now discovery.old text discovery.new answered)) }
{
    match discovery.remove(alloc, guid) {
        Ok(told) => print_all_told(alloc, &told, output)?,
        Err(code) => return Ok(Err(code)),
    }
    settle(alloc, discovery, output)
}

/// Time goes on; prints who is gone, and what is sent.
fn tick<W: Write>(
    alloc: Global,
    discovery: &mut Discovery,
    moment: u64,
    output: &mut W,
) -> Result<Result<(), Code>, Fault>
    ensures ticked { IfOk result (λ answered.
        Prints (W.contents output.old) (W.contents output.new)
        (λ text. Happens (ticked_lines moment discovery.old) discovery.old
        (ticked moment discovery.old) text discovery.new answered)) }
{
    match discovery.tick(alloc, moment) {
        Ok(ticked) => print_ticked(alloc, &ticked, output)?,
        Err(code) => return Ok(Err(code)),
    }
    settle(alloc, discovery, output)
}

/// A datagram comes; prints what it leads to.
fn deliver<W: Write>(
    alloc: Global,
    discovery: &mut Discovery,
    moment: u64,
    address: &[u8; 4],
    bytes: &[u8],
    output: &mut W,
) -> Result<Result<(), Code>, Fault>
    ensures delivered { IfOk result (λ answered.
        Prints (W.contents output.old) (W.contents output.new)
        (λ text. Delivered Masks.ANY moment address.now bytes.now
        discovery.old text discovery.new answered)) }
{
    match discovery.deliver(alloc, moment, address, bytes) {
        Ok(heard) => print_heard(alloc, &heard, output)?,
        Err(code) => return Ok(Err(code)),
    }
    settle(alloc, discovery, output)
}

/// Our participant leaves; prints what is sent.
fn close<W: Write>(
    alloc: Global,
    discovery: &Discovery,
    output: &mut W,
) -> Result<Result<(), Code>, Fault>
    ensures printed { IfOk result (λ answered.
        Appends (W.contents output.old) (W.contents output.new)
        (where_answered answered (packet_lines (farewells discovery.now.participants)))) }
{
    match discovery.close(alloc) {
        Ok(packets) => {
            print_packets(alloc, &packets, output)?;
            Ok(Ok(()))
        }
        Err(code) => Ok(Err(code)),
    }
}

/// Prints which pairs of one topic do not fit.
fn look<W: Write>(
    alloc: Global,
    discovery: &Discovery,
    output: &mut W,
) -> Result<Result<(), Code>, Fault>
    ensures printed { IfOk result (λ answered.
        Appends (W.contents output.old) (W.contents output.new)
        (where_answered answered
        (misfit_lines (misfits discovery.now.endpoints.own discovery.now.endpoints.far)))) }
{
    match discovery.misfits(alloc) {
        Ok(misfits) => {
            print_misfits(alloc, &misfits, output)?;
            Ok(Ok(()))
        }
        Err(code) => Ok(Err(code)),
    }
}

/// Prints which participants are known, and which endpoints of them.
fn print_all(
    alloc: Global,
    discovery: &Discovery,
    output: &mut impl Write,
) -> Result<Result<(), Code>, Fault> {
    for row in discovery.rows() {
        print_row(alloc, row, output)?;
    }
    for far in discovery.far() {
        let word = if far.is_awake { "" } else { "asleep " };
        print_far(alloc, word, far, output)?;
    }
    Ok(Ok(()))
}

impl Beginning {
    fn new(alloc: Global) -> Self
        ensures unsaid { IsUnsaid result }
    {
        Beginning {
            participant: None,
            addresses: Vec::new(alloc),
            limits: USUAL_LIMITS,
            most: USUAL_ENDPOINTS,
        }
    }

    /// One more address.
    fn tell(&mut self, address: Locator) -> Result<(), AllocError>
        ensures said { OnOk result (SaysAddress address self.old self.new) }
    {
        self.addresses.push(address)?;
        Ok(())
    }
}

impl Session {
    fn new(alloc: Global) -> Self
        ensures unsaid { IsSomeAnd (said_of result.stage) IsUnsaid }
    {
        Session {
            alloc,
            prefix: GuidPrefix::UNKNOWN,
            stage: Stage::Naming(Beginning::new(alloc)),
        }
    }

    /// The fault of a line that may only stand before the opening.
    fn too_late(&self, number: u64) -> Fault {
        let cause = "it may stand before `open` alone";
        Fault::not_a_command(self.alloc, number, cause)
    }

    /// Who we are: of several lines the last counts.
    fn name(&mut self, participant: Participant, domain: u32, number: u64) -> Result<(), Fault>
        ensures said { Says (λ b c. c ≡ record b { participant = Some (participant, domain) })
            self.old.stage result self.new.stage }
        ensures prefix { self.new.prefix ≡ participant.prefix }
    {
        self.prefix = participant.prefix;
        let Stage::Naming(beginning) = &mut self.stage else {
            return Err(self.too_late(number));
        };
        beginning.participant = Some((participant, domain));
        Ok(())
    }

    /// One more address is told of us.
    fn tell(&mut self, address: Locator, number: u64) -> Result<(), Fault>
        ensures said { Says (SaysAddress address) self.old.stage result self.new.stage }
        ensures prefix { self.new.prefix ≡ self.old.prefix }
    {
        let Stage::Naming(beginning) = &mut self.stage else {
            return Err(self.too_late(number));
        };
        Ok(beginning.tell(address)?)
    }

    /// How many are known at most: of several lines the last counts.
    fn limit(&mut self, limits: Limits, most: usize, number: u64) -> Result<(), Fault>
        ensures said { Says (λ b c. c ≡ record b { limits = limits; most = most })
            self.old.stage result self.new.stage }
        ensures prefix { self.new.prefix ≡ self.old.prefix }
    {
        let Stage::Naming(beginning) = &mut self.stage else {
            return Err(self.too_late(number));
        };
        beginning.limits = limits;
        beginning.most = most;
        Ok(())
    }

    /// Discovery begins, once, after our participant was said.
    fn open(&mut self, number: u64) -> Result<Result<(), Code>, Fault>
        ensures begun { IfOk result (λ answered. IsSomeAnd (said_of self.old.stage)
            (λ b. IsSomeAnd b.participant (λ who. Begins b who self.new.stage answered))) }
        ensures prefix { self.new.prefix ≡ self.old.prefix }
    {
        let stage = std::mem::replace(&mut self.stage, Stage::Refused);
        let Stage::Naming(beginning) = stage else {
            let cause = "discovery has begun";
            return Err(Fault::not_a_command(self.alloc, number, cause));
        };
        let Beginning {
            participant,
            addresses,
            limits,
            most,
        } = beginning;
        let Some((participant, domain)) = participant else {
            let cause = "a `participant` line stands before it";
            return Err(Fault::not_a_command(self.alloc, number, cause));
        };
        let settings = Settings {
            participant,
            domain,
            addresses,
            limits,
        };
        match Discovery::open(self.alloc, settings, most) {
            Ok(discovery) => {
                self.stage = Stage::Open(discovery);
                Ok(Ok(()))
            }
            Err(code) => Ok(Err(code)),
        }
    }

    /// Something happens where discovery has begun.
    fn happen<W: Write>(
        &mut self,
        line: Line,
        number: u64,
        output: &mut W,
    ) -> Result<Result<(), Code>, Fault>
        ensures happened { IfOk result (λ answered. IsSomeAnd (discovery_of self.old.stage)
            (λ s. IsSomeAnd (discovery_of self.new.stage) (λ t. Leads Masks.ANY line
            self.old.prefix s (W.contents output.old) (W.contents output.new) t answered))) }
        ensures prefix { self.new.prefix ≡ self.old.prefix }
    {
        let alloc = self.alloc;
        let Stage::Open(discovery) = &mut self.stage else {
            let cause = "discovery has not begun; `open` begins it";
            return Err(Fault::not_a_command(alloc, number, cause));
        };
        match line {
            Line::Add(end) => add(alloc, discovery, end, output),
            Line::Remove(entity) => {
                let prefix = self.prefix;
                remove(alloc, discovery, &Guid { prefix, entity }, output)
            }
            Line::Tick(moment) => tick(alloc, discovery, moment, output),
            Line::Deliver(moment, address, octets) => deliver(
                alloc,
                discovery,
                moment,
                &address,
                octets.as_slice(),
                output,
            ),
            Line::Misfits => look(alloc, discovery, output),
            Line::Who => print_all(alloc, discovery, output),
            _ => close(alloc, discovery, output),
        }
    }

    /// Does what the line of this number says, and prints what it answers.
    fn answer(&mut self, line: Line, number: u64, output: &mut impl Write) -> Result<(), Fault> {
        let answered = match line {
            Line::Participant(participant, domain) => return self.name(participant, domain, number),
            Line::Address(address) => return self.tell(address, number),
            Line::Limits(limits, most) => return self.limit(limits, most, number),
            Line::Open => self.open(number)?,
            line => self.happen(line, number, output)?,
        };
        print_reply(self.alloc, answered, output)
    }
}

/// Reads a line of at most 131,120 octets, and tells what it says; none at the end of the input.
fn next_line<R: Read + Drop>(
    alloc: Global,
    prefix: GuidPrefix,
    lines: &mut Lines<R>,
) -> Result<Option<Line>, Fault> {
    lines.allow(MAX_LINE);
    if !lines.advance()? {
        return Ok(None);
    }
    match line_of(alloc, prefix, lines.line()) {
        Ok(Some(line)) => Ok(Some(line)),
        Ok(None) => {
            let cause = cause_of(lines.line());
            Err(Fault::not_a_command(alloc, lines.number(), cause))
        }
        Err(_) => Err(Fault::Memory),
    }
}

fn answer_lines<R: Read + Drop>(
    alloc: Global,
    lines: &mut Lines<R>,
    output: &mut impl Write,
) -> Result<(), Fault> {
    let mut session = Session::new(alloc);
    for _ in 0..u64::MAX {
        match next_line(alloc, session.prefix, lines)? {
            Some(line) => session.answer(line, lines.number(), output)?,
            None => break,
        }
    }
    Ok(())
}

/// Answers lines: each is read, done and answered before the next one is looked at.
///
/// Nothing ends it early but a line that says nothing or may not stand where it does, one of more than 131,120 octets,
/// a stream that fails, or want of memory for reading, for the addresses that are told of us, or for printing.
pub fn answer_all<R: Read + Drop, W: Write + Drop>(
    alloc: Global,
    input: R,
    mut output: W,
) -> Status {
    match Lines::open(alloc, input, MAX_LINE) {
        Ok(mut lines) => Status::of(answer_lines(alloc, &mut lines, &mut output)),
        Err(fault) => Status::failed(fault),
    }
}
