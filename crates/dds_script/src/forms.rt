//! The forms of lines: what an operand is, and which operands follow which word.
//!
//! What a line says is read elsewhere. Forms serve to tell what is wrong with one that says nothing.

use crate::meeting::{is_of_met_reader, is_of_met_writer};
use crate::number::{
    decimal, decimal_i32, decimal_u32, entity_id, guid_prefix, is_value, key, units,
};
use crate::operand::{
    condition, entity, handle, mask, reader_end, reader_number, writer_end, writer_number,
};
use std::fmt;

/// What an operand of a line is.
#[derive(Clone, Copy)]
pub enum Operand {
    Peer,
    Writer,
    Reader,
    WriterOfPeer,
    ReaderOfPeer,
    End,
    EndOfPeer,
    Packet,
    Key,
    Value,
    Max,
    Handle,
    Moment,
    SampleMask,
    ViewMask,
    InstanceMask,
    StatusMask,
    Entity,
    Condition,
    AnyCondition,
    WaitSet,
    Filter,
    GuardValue,
    Strength,
    Room,
    Octets,
    GuidPrefix,
    EntityId,
    OfMetReader,
    OfMetWriter,
}

/// What may follow the operands of a form.
#[derive(Clone, Copy)]
enum Rest {
    Nothing,
    /// How many samples at most, and which.
    Limits,
    /// What is said of a reader that a writer meets, in any order.
    OfMetReader,
    /// What is said of a writer that a reader meets, in any order.
    OfMetWriter,
}

/// What follows a word: operands, and what may follow them.
#[derive(Clone, Copy)]
pub struct Form {
    operands: &'static [Operand],
    rest: Rest,
}

/// How many samples at most, and which.
const LIMITS: [Operand; 4] = [
    Operand::Max,
    Operand::SampleMask,
    Operand::ViewMask,
    Operand::InstanceMask,
];

/// A writer or a reader.
fn is_end(word: &str) -> bool {
    writer_number(word).is_some() || reader_number(word).is_some()
}

/// A writer or a reader with its peer.
fn is_end_of_peer(word: &str) -> bool {
    writer_end(word).is_some() || reader_end(word).is_some()
}

impl Operand {
    /// Whether a word is one.
    pub fn fits(self, word: &str) -> bool {
        match self {
            Operand::Peer => decimal_u32(word).is_some(),
            Operand::Writer => writer_number(word).is_some(),
            Operand::Reader => reader_number(word).is_some(),
            Operand::WriterOfPeer => writer_end(word).is_some(),
            Operand::ReaderOfPeer => reader_end(word).is_some(),
            Operand::End => is_end(word),
            Operand::EndOfPeer => is_end_of_peer(word),
            Operand::Key => key(word).is_some(),
            Operand::Value | Operand::Octets => is_value(word),
            Operand::Moment => units(word).is_some(),
            Operand::Entity => entity(word).is_some(),
            Operand::AnyCondition => condition(word).is_some(),
            Operand::GuardValue => word == "0" || word == "1",
            Operand::GuidPrefix => guid_prefix(word).is_some(),
            Operand::EntityId => entity_id(word).is_some(),
            Operand::OfMetReader => is_of_met_reader(word),
            Operand::OfMetWriter => is_of_met_writer(word),
            _ => self.fits_number(word),
        }
    }

    /// The same of an operand that is a number, or a mask.
    fn fits_number(self, word: &str) -> bool {
        match self {
            Operand::Max | Operand::Strength => decimal_i32(word).is_some(),
            Operand::Packet | Operand::Room => decimal(word).is_some(),
            Operand::SampleMask | Operand::ViewMask | Operand::InstanceMask | Operand::StatusMask =>
                mask(word).is_some(),
            _ => handle(word).is_some(),
        }
    }

    /// As forms name it.
    fn name(self) -> &'static str {
        match self {
            Operand::Peer => "P",
            Operand::Writer => "W",
            Operand::Reader => "R",
            Operand::WriterOfPeer => "P.W",
            Operand::ReaderOfPeer => "P.R",
            Operand::End => "W|R",
            Operand::EndOfPeer => "P.R|P.W",
            Operand::Packet => "K",
            Operand::Key => "KEY",
            Operand::Value => "VALUE",
            Operand::Max => "MAX",
            Operand::Handle => "H",
            Operand::Moment => "M",
            Operand::SampleMask => "S",
            Operand::ViewMask => "V",
            Operand::InstanceMask => "I",
            Operand::StatusMask => "MASK",
            Operand::Entity => "E",
            Operand::Condition => "C",
            Operand::AnyCondition => "COND",
            Operand::WaitSet => "SET",
            Operand::Filter => "F",
            Operand::GuardValue => "0|1",
            Operand::Strength => "N",
            Operand::Room => "ROOM",
            Operand::Octets => "HEX",
            Operand::GuidPrefix => "PREFIX",
            Operand::EntityId => "ENTITY",
            Operand::OfMetReader | Operand::OfMetWriter => "OPTION",
        }
    }

    /// What such a word is.
    fn meaning(self) -> &'static str {
        match self {
            Operand::Peer => "the number of a peer, up to 4294967295",
            Operand::Writer => "`w` and the number of a writer, up to 255",
            Operand::Reader => "`r` and the number of a reader, up to 255",
            Operand::WriterOfPeer => "a writer with its peer, as 1.w2",
            Operand::ReaderOfPeer => "a reader with its peer, as 1.r2",
            Operand::End => "a writer as w2, or a reader as r2",
            Operand::EndOfPeer => "behind a writer a reader with its peer, else a writer with its",
            Operand::Key => "1 to 32 hexadecimal digits",
            Operand::Value | Operand::Octets => {
                "an even number of hexadecimal digits, or - for none"
            }
            Operand::Moment => "units of 2^-32 second, in 64 bits, or a time as 5s, 500ms and 20us",
            Operand::Entity => "p, or a writer as w2, or a reader as r2",
            Operand::AnyCondition => "the number of a condition, or s: and an entity, as s:r2",
            Operand::GuardValue => "0 or 1",
            Operand::GuidPrefix => "24 hexadecimal digits",
            Operand::EntityId => "8 hexadecimal digits",
            Operand::OfMetReader => "besteffort or greeted",
            Operand::OfMetWriter => "strength= and a number in 32 bits, or lease= and a time",
            _ => self.meaning_of_number(),
        }
    }

    /// The same of an operand that is a number, or a mask.
    fn meaning_of_number(self) -> &'static str {
        match self {
            Operand::Max => "a number of samples in 32 bits, or -1 for all",
            Operand::Strength => "a number in 32 bits, with a minus in front or without",
            Operand::Packet | Operand::Room => "a number in 64 bits",
            Operand::SampleMask | Operand::ViewMask | Operand::InstanceMask | Operand::StatusMask =>
                "a mask in 32 bits, or any",
            _ => "a number in 32 bits",
        }
    }
}

impl fmt::Display for Operand {
    fn fmt<W: fmt::Write>(&self, f: &mut fmt::Formatter<W>) -> fmt::Result {
        f.write_str(self.name())
    }
}

/// What an operand is, as `KEY, which is 1 to 32 hexadecimal digits`.
#[derive(Clone, Copy)]
pub struct Explained(pub Operand);

impl fmt::Display for Explained {
    fn fmt<W: fmt::Write>(&self, f: &mut fmt::Formatter<W>) -> fmt::Result {
        let (name, meaning) = (self.0.name(), self.0.meaning());
        write!(f, "{name}, which is {meaning}")
    }
}

impl Rest {
    /// Whether so many words more may follow.
    fn takes(self, more: usize) -> bool {
        match self {
            Rest::Nothing => more == 0,
            Rest::Limits => more == 0 || more == 1 || more == LIMITS.len(),
            Rest::OfMetReader | Rest::OfMetWriter => true,
        }
    }

    /// What the word at an index has to be, of those that follow.
    fn operand(self, index: usize) -> Option<Operand> {
        match self {
            Rest::Nothing => None,
            Rest::Limits => LIMITS.get(index).copied(),
            Rest::OfMetReader => Some(Operand::OfMetReader),
            Rest::OfMetWriter => Some(Operand::OfMetWriter),
        }
    }

    /// As forms name it, behind the operands.
    fn text(self) -> &'static str {
        match self {
            Rest::Nothing => "",
            Rest::Limits => " [MAX [S V I]]",
            Rest::OfMetReader => " [besteffort] [greeted]",
            Rest::OfMetWriter => " [strength=N] [lease=UNITS]",
        }
    }
}

impl Form {
    /// These operands, and no more.
    pub const fn of(operands: &'static [Operand]) -> Form {
        Form {
            operands,
            rest: Rest::Nothing,
        }
    }

    /// These operands, and where it is wanted how many samples at most, and which.
    pub const fn limited(operands: &'static [Operand]) -> Form {
        Form {
            operands,
            rest: Rest::Limits,
        }
    }

    /// Whether so many words may follow.
    pub fn takes(self, count: usize) -> bool {
        let least = self.operands.len();
        least <= count && self.rest.takes(count.saturating_sub(least))
    }

    /// What the word at an index has to be.
    pub fn operand(self, index: usize) -> Option<Operand> {
        match self.operands.get(index) {
            Some(operand) => Some(*operand),
            None => self.rest.operand(index.saturating_sub(self.operands.len())),
        }
    }

    /// Whether nothing may follow.
    pub fn is_empty(self) -> bool {
        self.operands.is_empty() && self.rest.text().is_empty()
    }
}

impl fmt::Display for Form {
    fn fmt<W: fmt::Write>(&self, f: &mut fmt::Formatter<W>) -> fmt::Result {
        for operand in self.operands {
            write!(f, " {operand}")?;
        }
        f.write_str(self.rest.text())
    }
}

/// What follows `meet` and a writer.
const MEETING_OF_READER: Form = Form {
    operands: &[
        Operand::Writer,
        Operand::ReaderOfPeer,
        Operand::GuidPrefix,
        Operand::EntityId,
    ],
    rest: Rest::OfMetReader,
};

/// What follows `meet` and a reader.
const MEETING_OF_WRITER: Form = Form {
    operands: &[
        Operand::Reader,
        Operand::WriterOfPeer,
        Operand::GuidPrefix,
        Operand::EntityId,
    ],
    rest: Rest::OfMetWriter,
};

/// What follows the name of a call that tells who is matched, by what stands behind the name; none of another call, and where
/// that is neither a writer nor a reader.
pub fn matching_form(name: &str, words: &[&str]) -> Option<Form> {
    match (name, words) {
        ("match" | "part", [end, ..]) if writer_number(end).is_some() => {
            Some(Form::of(&[Operand::Writer, Operand::ReaderOfPeer]))
        }
        ("match" | "part", [end, ..]) if reader_number(end).is_some() => {
            Some(Form::of(&[Operand::Reader, Operand::WriterOfPeer]))
        }
        ("meet", [end, ..]) if writer_number(end).is_some() => Some(MEETING_OF_READER),
        ("meet", [end, ..]) if reader_number(end).is_some() => Some(MEETING_OF_WRITER),
        _ => None,
    }
}

/// What follows the name of a call that speaks of a writer or a reader; none where no such call has this name.
fn end_call_form(name: &str) -> Option<Form> {
    match name {
        "write" => Some(Form::of(&[Operand::Writer, Operand::Key, Operand::Value])),
        "register" | "dispose" | "unregister" => {
            Some(Form::of(&[Operand::Writer, Operand::Key]))
        }
        "assert" | "livelost" => Some(Form::of(&[Operand::Writer])),
        "strength" => Some(Form::of(&[Operand::Writer, Operand::Strength])),
        "match" | "part" => Some(Form::of(&[Operand::End, Operand::EndOfPeer])),
        "meet" => Some(Form::of(&[
            Operand::End,
            Operand::EndOfPeer,
            Operand::GuidPrefix,
            Operand::EntityId,
        ])),
        "matched" => Some(Form::of(&[Operand::End])),
        "lost" | "changed" | "read_next_sample" | "take_next_sample" => {
            Some(Form::of(&[Operand::Reader]))
        }
        "key" => Some(Form::of(&[Operand::Reader, Operand::Handle])),
        "lookup" => Some(Form::of(&[Operand::Reader, Operand::Key])),
        _ => access_form(name),
    }
}

/// What follows the name of an access; none where no access has this name.
fn access_form(name: &str) -> Option<Form> {
    match name {
        "read" | "take" => Some(Form::limited(&[Operand::Reader])),
        "read_instance" | "take_instance" | "read_next_instance" | "take_next_instance" => {
            Some(Form::limited(&[Operand::Reader, Operand::Handle]))
        }
        "read_w" | "take_w" => {
            Some(Form::of(&[Operand::Reader, Operand::Max, Operand::Condition]))
        }
        "read_next_instance_w" | "take_next_instance_w" => Some(Form::of(&[
            Operand::Reader,
            Operand::Handle,
            Operand::Max,
            Operand::Condition,
        ])),
        _ => None,
    }
}

/// What follows the name of a call that makes a condition, or speaks of one; none where no such call has this name.
fn condition_form(name: &str) -> Option<Form> {
    match name {
        "readcond" => Some(Form::of(&[
            Operand::Reader,
            Operand::SampleMask,
            Operand::ViewMask,
            Operand::InstanceMask,
        ])),
        "querycond" => Some(Form::of(&[
            Operand::Reader,
            Operand::SampleMask,
            Operand::ViewMask,
            Operand::InstanceMask,
            Operand::Filter,
        ])),
        "guard" => Some(Form::of(&[])),
        "setguard" => Some(Form::of(&[Operand::Condition, Operand::GuardValue])),
        "delete" => Some(Form::of(&[Operand::Condition])),
        "trigger" => Some(Form::of(&[Operand::AnyCondition])),
        _ => None,
    }
}

/// What follows the name of a call that speaks of a WaitSet or of statuses; none where no such call has this name.
fn waiting_form(name: &str) -> Option<Form> {
    match name {
        "waitset" => Some(Form::of(&[])),
        "delwaitset" | "conditions" | "look" | "end" => Some(Form::of(&[Operand::WaitSet])),
        "attach" | "detach" => Some(Form::of(&[Operand::WaitSet, Operand::AnyCondition])),
        "begin" => Some(Form::of(&[Operand::WaitSet, Operand::Moment])),
        "enable" => Some(Form::of(&[Operand::Entity, Operand::StatusMask])),
        "flags" => Some(Form::of(&[Operand::Entity])),
        _ => None,
    }
}

/// What follows the name of a call; none where no call has this name.
pub fn call_form(name: &str) -> Option<Form> {
    end_call_form(name)
        .or(condition_form(name))
        .or(waiting_form(name))
}

/// What follows a word that happens to a peer and is no call, of those that all programs take; none of another word.
pub fn peer_form(name: &str) -> Option<Form> {
    match name {
        "tick" => Some(Form::of(&[Operand::Moment])),
        "resume" => Some(Form::of(&[Operand::Reader])),
        "filter" => Some(Form::of(&[Operand::Octets])),
        "listener" => Some(Form::of(&[Operand::Entity, Operand::StatusMask, Operand::Room])),
        "unlisten" => Some(Form::of(&[Operand::Entity])),
        _ => None,
    }
}
