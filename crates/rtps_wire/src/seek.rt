//! Whether a message has a certain submessage. No memory is needed to look for it.
//!
//! RTPS 2.5, 8.3.4 and 8.3.8.

ghost use Rattle.std.specs.Prelude.{◌↔◌, ℕ, IsTrue, List};
ghost use Rattle.rtps_wire.specs.declared.submessage.Submessage.{Submessage as SubmessageOf};
ghost use Rattle.rtps_wire.specs.Messages.{ReadsAll};
ghost use Rattle.rtps_wire.specs.Sought.{IsSought, HasSought, Has};

use crate::read::{begin_message, next_submessage};
use crate::submessage::Submessage;
use dds_base::EntityId;

/// A submessage that is looked for, by the writer and the reader that it names.
#[derive(Clone, Copy)]
pub enum Sought {
    /// A HEARTBEAT of this writer.
    Heartbeat { writer: EntityId },
    /// An ACKNACK of this reader to this writer.
    AckNack { reader: EntityId, writer: EntityId },
}

fn is_sought(wanted: &Sought, submessage: &Submessage) -> bool
    ensures { IsTrue result ↔ IsSought wanted.now submessage.now }
{
    match (wanted, submessage) {
        (Sought::Heartbeat { writer }, Submessage::Heartbeat(heartbeat)) => {
            heartbeat.writer_id == *writer
        }
        (Sought::AckNack { reader, writer }, Submessage::AckNack(acknack)) => {
            acknack.reader_id == *reader && acknack.writer_id == *writer
        }
        _ => false,
    }
}

/// Whether there is such a submessage in bytes that follow a header.
fn is_in_body(wanted: &Sought, body: &[u8]) -> bool
    ensures { (ss : List SubmessageOf) × (left : List ℕ) × ReadsAll body.now ss left
        × (IsTrue result ↔ HasSought wanted.now ss) }
{
    let mut has = false;
    let mut left = body;
    while let Some((submessage, rest)) = next_submessage(left) {
        has |= is_sought(wanted, &submessage);
        left = rest;
    }
    has
}

/// Whether the bytes are a message with such a submessage, for whomever it is. They are gone over once, without memory.
///
/// RTPS 2.5, 8.3.4 and 8.3.8.
pub fn has_submessage(bytes: &[u8], wanted: &Sought) -> bool
    // It is so exactly if the message of these bytes has one.
    ensures has { IsTrue result ↔ Has bytes.now wanted.now }
{
    match begin_message(bytes) {
        Some((_, body)) => is_in_body(wanted, body),
        None => false,
    }
}
