//! What is printed.

ghost use Rattle.std.specs.Prelude.{◌≡◌, OnOk, IfErr, IfOk, IfSome};
ghost use Rattle.std.specs.String.{string_bytes};
ghost use Rattle.std.specs.Io.KnownBytes.{Appends};
ghost use Rattle.dds_script.specs.Lines.{Adds, IsNewLine, IsWhole, octets_text};

use crate::fault::Fault;
use crate::matching::Side;
use bitflags::Flags;
use dds_base::{Code, Endpoint, Entity, Handle, Key};
use dds_conditions::Cond;
use dds_machine::{
    LivelinessChangedStatus, LivelinessLostStatus, MatchedStatus, Move, PassedRun, Reply, Report,
    SampleLostStatus,
};
use dds_notices::StatusMask;
use std::alloc::{AllocError, Global};
use std::fmt::Display;
use std::io::Write;

/// What was sent, and what was not, in one event.
#[derive(Clone, Copy)]
pub struct Traffic {
    /// How many packets had been sent before it.
    pub before: u64,
    /// How many had been sent after it.
    pub after: u64,
    /// How many found no memory in it.
    pub unsent: u64,
}

/// A line of the transcript that is being written. Whether memory was found for all of it is told at its end.
#[derive(Drop)]
pub struct TranscriptLine {
    text: String,
    is_whole: bool,
}

impl TranscriptLine {
    /// An empty line.
    pub fn new(alloc: Global) -> Self
        ensures none { IsNewLine result }
    {
        TranscriptLine {
            text: String::new(alloc),
            is_whole: true,
        }
    }

    /// The line, with its line feed.
    pub fn finish(mut self) -> Result<String, AllocError>
        ensures whole { IfOk result (λ text. IsWhole self (string_bytes text)) }
    {
        self.push('\n');
        if self.is_whole {
            Ok(self.text)
        } else {
            Err(AllocError)
        }
    }

    pub(crate) fn push<D: Display + Drop>(&mut self, piece: D)
        ensures added { IfSome (D.output piece) (λ text. Adds self.old text self.new) }
    {
        if write!(self.text, "{piece}").is_err() {
            self.is_whole = false;
        }
    }

    /// Octets in hexadecimal digits, two each.
    pub fn push_octets(&mut self, octets: &[u8])
        ensures added { Adds self.old (octets_text octets.now) self.new }
    {
        for octet in octets {
            self.push(format_args!("{octet:02x}"));
        }
    }

    /// A key in hexadecimal digits without leading zeros, `0` for all zeros.
    pub(crate) fn push_key(&mut self, key: Key) {
        let number = u128::from_be_bytes(key.0);
        self.push(format_args!("{number:x}"));
    }

    fn push_key_value(&mut self, key: Key) {
        self.push("key ");
        self.push_key(key);
    }

    fn push_handle(&mut self, handle: Handle) {
        let number = handle.number();
        self.push(format_args!("handle {number}"));
    }

    /// A total, and how much of it is new.
    fn push_total(&mut self, word: &str, total: u64, change: u64) {
        self.push(format_args!("{word} {total} {change}"));
    }

    pub(crate) fn push_sample_lost(&mut self, status: SampleLostStatus) {
        self.push_total("lost", status.total_count, status.total_count_change);
    }

    pub(crate) fn push_liveliness_changed(&mut self, status: LivelinessChangedStatus) {
        let LivelinessChangedStatus {
            alive_count,
            not_alive_count,
            alive_count_change,
            not_alive_count_change,
            last_publication_handle,
        } = status;
        self.push(format_args!("changed {alive_count} {not_alive_count}"));
        self.push(format_args!(" {alive_count_change} {not_alive_count_change}"));
        let writer = last_publication_handle.number();
        self.push(format_args!(" {writer}"));
    }

    pub(crate) fn push_liveliness_lost(&mut self, status: LivelinessLostStatus) {
        self.push_total("livelost", status.total_count, status.total_count_change);
    }

    /// The matches of a writer or a reader: in all and how many more, now and how many more, and the other end of the last.
    pub(crate) fn push_matched(&mut self, side: Side, status: MatchedStatus) {
        let MatchedStatus {
            total_count,
            total_count_change,
            current_count,
            current_count_change,
            last,
        } = status;
        self.push_total("matched", total_count, total_count_change);
        self.push(format_args!(" {current_count} {current_count_change} "));
        match (side, last) {
            (_, None) => self.push('-'),
            (Side::Writer, Some(Endpoint { peer, number })) => {
                self.push(format_args!("{peer}.r{number}"));
            }
            (Side::Reader, Some(Endpoint { peer, number })) => {
                self.push(format_args!("{peer}.w{number}"));
            }
        }
    }

    /// The participant, a writer or a reader, as `p`, `w2` and `r2`.
    pub(crate) fn push_entity(&mut self, entity: Entity) {
        match entity {
            Entity::Participant => self.push('p'),
            Entity::Writer(number) => self.push(format_args!("w{number}")),
            Entity::Reader(number) => self.push(format_args!("r{number}")),
        }
    }

    /// A condition by its number, or the status condition of an entity, as `s:r2`.
    fn push_condition(&mut self, condition: Cond) {
        match condition {
            Cond::Status(entity) => {
                self.push("s:");
                self.push_entity(entity);
            }
            Cond::Made(number) => self.push(number),
        }
    }

    fn push_conditions(&mut self, name: &str, conditions: &[Cond]) {
        self.push(name);
        for condition in conditions {
            self.push(' ');
            self.push_condition(*condition);
        }
    }

    fn push_status_changes(&mut self, statuses: StatusMask) {
        let bits = statuses.bits();
        self.push(format_args!("flags {bits}"));
    }

    /// A code, as a refusal.
    pub fn push_code(&mut self, code: Code) {
        let number = code.number();
        self.push(format_args!("code {number}"));
    }

    /// The number of what was made.
    pub fn push_created(&mut self, number: u32) {
        self.push(format_args!("id {number}"));
    }

    fn push_range(&mut self, name: &str, first: u64, last: u64) {
        self.push(format_args!(" {name} {first}-{last}"));
    }

    fn push_place(&mut self, writer: Endpoint, reader: u8, to: u64, passed: &[PassedRun]) {
        let (peer, number) = (writer.peer, writer.number);
        self.push(format_args!(" [place {peer}.w{number} r{reader} {to}"));
        for run in passed {
            self.push_range("lost", run.first.number(), run.last.number());
        }
        self.push(']');
    }

    fn push_heard(&mut self, writer: Endpoint, reader: u8) {
        let (peer, number) = (writer.peer, writer.number);
        self.push(format_args!(" [heard {peer}.w{number} r{reader}]"));
    }

    fn push_begun(&mut self, writer: Endpoint, reader: u8, from: u64, to: u64) {
        let (peer, number) = (writer.peer, writer.number);
        self.push(format_args!(" [begun {peer}.w{number} r{reader} {from} {to}]"));
    }

    fn push_acknowledged(&mut self, writer: u8, reader: Endpoint, to: u64) {
        let (peer, number) = (reader.peer, reader.number);
        self.push(format_args!(" [acked w{writer} {peer}.r{number} {to}]"));
    }

    fn push_strange(&mut self, writer: u8, reader: Endpoint) {
        let (peer, number) = (reader.peer, reader.number);
        self.push(format_args!(" [strange w{writer} {peer}.r{number}]"));
    }

    fn push_move(&mut self, step: &Move) {
        match step {
            Move::Place {
                writer,
                reader,
                to,
                passed,
            } => self.push_place(*writer, *reader, to.number(), passed.as_slice()),
            Move::Heard { writer, reader } => self.push_heard(*writer, *reader),
            Move::Begun {
                writer,
                reader,
                from,
                to,
            } => self.push_begun(*writer, *reader, from.number(), to.number()),
            Move::Acknowledged { writer, reader, to } => {
                self.push_acknowledged(*writer, *reader, to.number());
            }
            Move::Strange { writer, reader } => self.push_strange(*writer, *reader),
        }
    }

    fn push_report(&mut self, report: &Report) {
        self.push("report");
        for step in report.moves.as_slice() {
            self.push_move(step);
        }
        if let Some(index) = report.refused {
            self.push(format_args!(" nomem {index}"));
        }
    }

    /// Ends a line, after which another one follows.
    pub fn end_line(&mut self) {
        self.push('\n');
    }

    /// A word, as it stands.
    pub fn push_word(&mut self, word: &str)
        ensures added { Adds self.old word.now self.new }
    {
        self.push(word);
    }

    /// A reply; where it answers a look at matches, a look at this side's.
    pub fn push_reply(&mut self, side: Side, reply: &Reply) {
        match reply {
            Reply::Done => self.push("ok"),
            Reply::Samples(samples) => self.push_samples(samples.as_slice()),
            Reply::KeyValue(key) => self.push_key_value(*key),
            Reply::InstanceHandle(handle) => self.push_handle(*handle),
            Reply::SampleLost(status) => self.push_sample_lost(*status),
            Reply::LivelinessChanged(status) => self.push_liveliness_changed(*status),
            Reply::LivelinessLost(status) => self.push_liveliness_lost(*status),
            Reply::Matched(status) => self.push_matched(side, *status),
            Reply::Created(number) => self.push_created(*number),
            Reply::TriggerValue(value) => self.push(*value),
            Reply::Conditions(all) => self.push_conditions("conditions", all.as_slice()),
            Reply::Active(active) => self.push_conditions("active", active.as_slice()),
            Reply::Waiting => self.push("waiting"),
            Reply::StatusChanges(statuses) => self.push_status_changes(*statuses),
            Reply::Reported(report) => self.push_report(report),
            Reply::Refused(code) => self.push_code(*code),
        }
    }

    /// Which packets an event sent, and how many it could not.
    pub fn push_traffic(&mut self, traffic: Traffic) {
        if traffic.before < traffic.after {
            self.push_range("sent", traffic.before.saturating_add(1), traffic.after);
        }
        self.push_unsent(traffic.unsent);
    }

    /// How many packets could not be sent, if any.
    pub fn push_unsent(&mut self, unsent: u64) {
        if unsent > 0 {
            self.push(format_args!(" unsent {unsent}"));
        }
    }

    /// A number and the bytes of a packet, or that there is none.
    pub fn push_packet(&mut self, number: u64, bytes: Option<&[u8]>) {
        match bytes {
            Some(bytes) => {
                self.push(format_args!("packet {number} "));
                self.push_octets(bytes);
            }
            None => self.push_code(Code::BadParameter),
        }
    }
}

/// Prints what has been written, and flushes it.
///
/// # Errors
///
/// `OutputFailed` where the stream took less than that.
pub fn print<W: Write>(output: &mut W, text: &str) -> Result<(), Fault>
    ensures printed { OnOk result (Appends (W.contents output.old) (W.contents output.new) text.now) }
    ensures fault { IfErr result (λ e. e ≡ Fault.OutputFailed) }
{
    output
        .write_all(text.as_bytes())
        .map_err(|_| Fault::OutputFailed)?;
    output.flush().map_err(|_| Fault::OutputFailed)
}
