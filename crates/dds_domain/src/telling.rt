//! Matches that our peer was told of: each is a call of it.
//!
//! `specs/Sharings.antt` says it.
//!
//! RTPS 2.5, 8.4.7.4, 8.4.10.3 (matched_reader_add, matched_writer_add and their removals).

ghost use Rattle.std.specs.Prelude.{◌≡◌, length, OnOk, OnErr};
ghost use Rattle.dds_domain.specs.Sharings.{Meetings, MeetsOne, MeetsSome};

use crate::turn::Turn;
use dds_base::Code;
use dds_exchange::Exchange;

/// The first that is due is done: where it is a call, that is recorded and made.
fn meet_one(exchange: &mut Exchange, turn: &mut Turn) -> Result<(), Code>
    ensures met { OnOk result (MeetsOne exchange.old turn.old exchange.new turn.new) }
    ensures err { OnErr result ((exchange.new ≡ exchange.old) × (turn.new ≡ turn.old)) }
{
    if let Some(call) = exchange.next_call()? {
        turn.record_call(&call);
        let _ = exchange.make(call);
    }
    Ok(())
}

/// All that is due is done, one after the other. What finds no memory at our peer is due still.
///
/// # Errors
///
/// `Memory` where there is none for a name: then what is left is due still.
pub fn meet_all(exchange: &mut Exchange, turn: &mut Turn) -> Result<(), Code>
    ensures all { OnOk result
        (Meetings (length exchange.old.due) exchange.old turn.old exchange.new turn.new) }
    ensures some { OnErr result (MeetsSome exchange.old turn.old exchange.new turn.new) }
{
    for _count in 0..exchange.count_due() {
        meet_one(exchange, turn)?;
    }
    Ok(())
}
