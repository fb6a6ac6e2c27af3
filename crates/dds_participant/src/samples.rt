//! Samples: what our topics carry, what is taken and printed, and what lines of the input ask for.

ghost use Rattle.std.specs.Prelude.{◌≡◌, []};
ghost use Rattle.dds_base.specs.Bounds.{usual_value};
ghost use Rattle.dds_participant.specs.declared.samples.TypeKind.TheVariants.{Keyless};

use crate::failure::Failure;
use dds_base::{Key, Masks, Octets, Selection, USUAL_VALUE};
use dds_domain::{OurEnd, Participant, Turn};
use dds_exchange::Carried;
use dds_live::Live;
use dds_machine::{Call, Reply};
use dds_script::{Fault, Side, TranscriptLine, call_of, value, words_of};
use rtps_adapter::{Encoding, KeyField};
use rtps_matching::End;
use std::alloc::{AllocError, Global};

/// What our topics carry.
#[derive(Drop)]
pub struct Type {
    pub kind: TypeKind,
    pub fields: Vec<KeyField>,
    pub max_value: u32,
}

/// Which type that is.
#[derive(Clone, Copy)]
pub enum TypeKind {
    /// The datum of this project.
    Datum,
    /// Another one without a key.
    Keyless,
    /// Another one with key fields, in this encoding.
    Keyed(Encoding),
}

impl Type {
    /// Another one without a key, whose values are not long.
    pub fn new(alloc: Global) -> Type
        ensures kind { result.kind ≡ Keyless }
        ensures fields { result.fields.items ≡ [] }
        ensures values { result.max_value ≡ usual_value }
    {
        Type {
            kind: TypeKind::Keyless,
            fields: Vec::new(alloc),
            max_value: USUAL_VALUE,
        }
    }

    fn carried(&self, alloc: Global) -> Result<Carried, AllocError> {
        let encoding = match self.kind {
            TypeKind::Datum => return Ok(Carried::Datum),
            TypeKind::Keyless => return Ok(Carried::Keyless),
            TypeKind::Keyed(encoding) => encoding,
        };
        let mut fields = Vec::new(alloc);
        fields.extend_from_slice(self.fields.as_slice())?;
        Ok(Carried::Keyed(encoding, fields))
    }
}

/// Our endpoints. They are announced alone where no samples are exchanged.
pub fn our_ends(
    alloc: Global,
    ends: Vec<End>,
    of: &Type,
    exchanges: bool,
) -> Result<Vec<OurEnd>, AllocError> {
    let mut ours = Vec::new(alloc);
    for end in ends {
        let carried = if exchanges {
            Some(of.carried(alloc)?)
        } else {
            None
        };
        ours.push(OurEnd {
            end,
            carried,
            max_value: of.max_value,
        })?;
    }
    Ok(ours)
}

/// How many writers a peer has at most.
const MAX_WRITERS: u8 = 16;

fn print_reply(
    alloc: Global,
    word: &str,
    side: Side,
    reply: &Reply,
    lines: &mut Vec<u8>,
) -> Result<(), Fault> {
    let mut text = TranscriptLine::new(alloc);
    text.push_word(word);
    text.push_reply(side, reply);
    let line = text.finish()?;
    lines.extend_from_slice(line.as_bytes())?;
    Ok(())
}

/// All samples of a reader are taken.
fn take(reader: u8) -> Call {
    let selection = Selection::Any {
        max: -1,
        masks: Masks::ANY,
    };
    Call::Take { reader, selection }
}

/// Takes all samples of each reader, and prints them.
pub fn take_all(
    alloc: Global,
    live: &mut Live,
    turn: &mut Turn,
    lines: &mut Vec<u8>,
) -> Result<(), Failure> {
    for reader in 1..=live.participant().readers() {
        let Ok(reader) = u8::try_from(reader) else {
            break;
        };
        let reply = live.call(take(reader), turn);
        if let Reply::Samples(_) = reply {
            print_reply(alloc, "", Side::Reader, &reply, lines)?;
        }
    }
    Ok(())
}

/// The first writer writes a value of a topic without a key.
fn written(value: Octets) -> Call {
    Call::Write {
        writer: 1,
        key: Key([0; 16]),
        value,
    }
}

/// A call that a line asks for: its words, or a value alone, which the first writer writes of a topic without a key.
fn asked(alloc: Global, line: &[u8]) -> Result<Option<Call>, AllocError> {
    let Ok(line) = str::from_utf8(line) else {
        return Ok(None);
    };
    let words = words_of(alloc, line)?;
    if let [octets] = words.as_slice()
        && let Some(value) = value(alloc, octets)?
    {
        return Ok(Some(written(value)));
    }
    call_of(alloc, &words)
}

/// Does what a line asks for, and prints the reply.
pub fn take_line(
    alloc: Global,
    live: &mut Live,
    line: &[u8],
    turn: &mut Turn,
    lines: &mut Vec<u8>,
) -> Result<(), Failure> {
    let Some(call) = asked(alloc, line)? else {
        lines.extend_from_slice(b"no call\n")?;
        return Ok(());
    };
    let side = Side::of(&call);
    let reply = live.call(call, turn);
    print_reply(alloc, "reply ", side, &reply, lines)?;
    Ok(())
}

/// Whether some reader has not acknowledged all changes of ours.
pub fn is_behind(participant: &Participant) -> bool {
    (1..=MAX_WRITERS).any(|writer| participant.is_behind(writer))
}
