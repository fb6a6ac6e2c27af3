//! ACKNACK: what a reader has, and what it misses.
//!
//! `specs/AckNack.antt` draws it.
//!
//! RTPS 2.5, 9.4.5 (AckNack).

ghost use Rattle.std.specs.Prelude.{◌≡◌, ◌++◌, OnOk, IfErr, IsTrue, ◌↔◌};
ghost use Rattle.rtps_wire.specs.AckNack.{IsAckNack, text_of_acknack};
ghost use Rattle.rtps_wire.specs.Sets.{IsSet};
ghost use Rattle.rtps_wire.specs.SubmessageAt.{acknack_at};

use crate::field::{has_flag, order_of, put_count, put_ids, take_count, take_ids};
use crate::names::FLAG_FINAL;
use crate::set_field::{put_set, take_acknack_set};
use dds_base::{Code, EntityId};
use rtps_sets::SnSet;

/// What a reader says to a writer: it needs no number below the base of the set, and misses its members.
///
/// RTPS 2.5, 8.3 (AckNack).
#[derive(Clone, Copy, Debug)]
pub struct AckNack {
    /// The reader that speaks.
    pub reader_id: EntityId,
    /// The writer that it is for, at the peer that INFO_DST names.
    pub writer_id: EntityId,
    /// Its base is from 1 to 2^62. An empty set of base 0 is read as that of base 1.
    pub reader_sn_state: SnSet,
    /// Each new one has a greater count.
    pub count: i32,
    /// Where it is set the writer need not answer.
    pub final_flag: bool,
}

/// The ACKNACK of a body, where that is valid.
#[tactic(auto, unfolding(crate::specs::SubmessageAt::acknack_at))]
pub fn acknack_of(flags: u8, body: &[u8]) -> Option<AckNack>
    ensures { result ≡ acknack_at flags body.now }
{
    let order = order_of(flags);
    let (ids, rest) = take_ids(body)?;
    let Some((reader_sn_state, rest)) = take_acknack_set(order, rest) else {
        return None;
    };
    let (count, _) = take_count(order, rest)?;
    Some(AckNack {
        reader_id: ids.reader,
        writer_id: ids.writer,
        reader_sn_state,
        count,
        final_flag: has_flag(flags, FLAG_FINAL),
    })
}

/// Appends the body.
pub fn put_acknack(out: &mut Vec<u8>, a: &AckNack) -> Result<(), Code>
    requires valid { IsAckNack a.now }
    requires set { IsSet a.now.reader_sn_state }
    ensures ok { OnOk result (out.new.items ≡ out.old.items ++ text_of_acknack a.now) }
    ensures memory { IfErr result (λ e. e ≡ Code.Memory) }
{
    put_ids(out, &a.reader_id, &a.writer_id)?;
    put_set(out, &a.reader_sn_state)?;
    put_count(out, a.count)?;
    Ok(())
}

/// Whether it has a valid form, its set aside.
pub fn is_acknack(a: &AckNack) -> bool
    ensures { IsTrue result ↔ IsAckNack a.now }
{
    // These show the prover how many octets the names have.
    let _count = a.count;
    let _reader = a.reader_id.as_slice();
    let _writer = a.writer_id.as_slice();
    true
}
