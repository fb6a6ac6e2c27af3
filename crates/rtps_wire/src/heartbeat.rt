//! HEARTBEAT: which numbers a writer still has.
//!
//! `specs/Heartbeat.antt` draws it.
//!
//! RTPS 2.5, 9.4.5 (Heartbeat).

ghost use Rattle.std.specs.Prelude.{◌≡◌, ◌++◌, OnOk, IfErr, IsTrue, ◌↔◌};
ghost use Rattle.rtps_wire.specs.Heartbeat.{IsHeartbeat, text_of_heartbeat};
ghost use Rattle.rtps_wire.specs.SubmessageAt.{heartbeat_at};

use crate::field::{
    MAX_SN, has_flag, order_of, put_count, put_ids, put_u64, take_count, take_ids, take_sn,
};
use crate::names::{FLAG_FINAL, FLAG_LIVELINESS};
use dds_base::{Code, EntityId, Sn};

/// What a writer says of its changes: from `first_sn` to `last_sn` some are kept, and none below.
///
/// RTPS 2.5, 8.3 (Heartbeat).
#[derive(Clone, Copy, Debug, PartialEq, Eq)]
pub struct Heartbeat {
    /// The reader that it is for; `EntityId::UNKNOWN` for all that are matched.
    pub reader_id: EntityId,
    /// The writer that speaks, at the peer of the message.
    pub writer_id: EntityId,
    /// From 1 to `last_sn` plus 1.
    pub first_sn: Sn,
    /// At most 2^62.
    pub last_sn: Sn,
    /// Each new one has a greater count.
    pub count: i32,
    /// Where it is set the reader need not answer.
    pub final_flag: bool,
    /// Where it is set the writer is asserted.
    pub liveliness_flag: bool,
}

/// The HEARTBEAT of a body, where that is valid.
#[tactic(auto, unfolding(crate::specs::SubmessageAt::heartbeat_at))]
pub fn heartbeat_of(flags: u8, body: &[u8]) -> Option<Heartbeat>
    ensures { result ≡ heartbeat_at flags body.now }
{
    let order = order_of(flags);
    let (ids, rest) = take_ids(body)?;
    let (first, rest) = take_sn(order, rest)?;
    let (last, rest) = take_sn(order, rest)?;
    let (count, _) = take_count(order, rest)?;
    if first < 1 || last + 1 < first {
        return None;
    }
    Some(Heartbeat {
        reader_id: ids.reader,
        writer_id: ids.writer,
        first_sn: Sn::new(first),
        last_sn: Sn::new(last),
        count,
        final_flag: has_flag(flags, FLAG_FINAL),
        liveliness_flag: has_flag(flags, FLAG_LIVELINESS),
    })
}

/// Appends the body.
pub fn put_heartbeat(out: &mut Vec<u8>, h: &Heartbeat) -> Result<(), Code>
    ensures ok { OnOk result (out.new.items ≡ out.old.items ++ text_of_heartbeat h.now) }
    ensures memory { IfErr result (λ e. e ≡ Code.Memory) }
{
    put_ids(out, &h.reader_id, &h.writer_id)?;
    put_u64(out, h.first_sn.number())?;
    put_u64(out, h.last_sn.number())?;
    put_count(out, h.count)
}

/// Whether it has a valid form.
pub fn is_heartbeat(h: &Heartbeat) -> bool
    ensures { IsTrue result ↔ IsHeartbeat h.now }
{
    // These show the prover how many octets the names have.
    let _count = h.count;
    let _reader = h.reader_id.as_slice();
    let _writer = h.writer_id.as_slice();
    let first = h.first_sn.number();
    let last = h.last_sn.number();
    1 <= first && first <= MAX_SN && last <= MAX_SN && first <= last + 1
}
