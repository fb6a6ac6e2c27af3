//! GAP: which numbers will not come.
//!
//! `specs/Gap.antt` draws it.
//!
//! RTPS 2.5, 9.4.5 (Gap).

ghost use Rattle.std.specs.Prelude.{◌≡◌, ◌++◌, OnOk, IfErr, IsTrue, ◌↔◌};
ghost use Rattle.rtps_wire.specs.Gap.{IsGap, text_of_gap};
ghost use Rattle.rtps_wire.specs.Sets.{IsSet};
ghost use Rattle.rtps_wire.specs.SubmessageAt.{gap_at};

use crate::field::{MAX_SN, order_of, put_ids, put_u64, take_ids, take_sn};
use crate::set_field::{put_set, take_set};
use dds_base::{Code, EntityId, Sn};
use rtps_sets::SnSet;

/// Numbers that will not come: those from `gap_start`, which is among them, to the base of the list, which is not, and
/// the members of the list. Either may be none.
///
/// RTPS 2.5, 8.3 (Gap).
#[derive(Clone, Copy, Debug)]
pub struct Gap {
    /// The reader that it is for; `EntityId::UNKNOWN` for all that are matched.
    pub reader_id: EntityId,
    /// The writer that speaks, at the peer of the message.
    pub writer_id: EntityId,
    /// From 1 to 2^62.
    pub gap_start: Sn,
    /// Its base is from 1 to 2^62.
    pub gap_list: SnSet,
}

/// The GAP of a body, where that is valid.
#[tactic(auto, unfolding(crate::specs::SubmessageAt::gap_at))]
pub fn gap_of(flags: u8, body: &[u8]) -> Option<Gap>
    ensures { result ≡ gap_at flags body.now }
{
    let order = order_of(flags);
    let (ids, rest) = take_ids(body)?;
    let (start, rest) = take_sn(order, rest)?;
    let Some((gap_list, _)) = take_set(order, rest) else {
        return None;
    };
    if start < 1 {
        return None;
    }
    Some(Gap {
        reader_id: ids.reader,
        writer_id: ids.writer,
        gap_start: Sn::new(start),
        gap_list,
    })
}

/// Appends the body.
pub fn put_gap(out: &mut Vec<u8>, g: &Gap) -> Result<(), Code>
    requires { IsSet g.now.gap_list }
    ensures ok { OnOk result (out.new.items ≡ out.old.items ++ text_of_gap g.now) }
    ensures memory { IfErr result (λ e. e ≡ Code.Memory) }
{
    put_ids(out, &g.reader_id, &g.writer_id)?;
    put_u64(out, g.gap_start.number())?;
    put_set(out, &g.gap_list)
}

/// Whether it has a valid form, its list aside.
pub fn is_gap(g: &Gap) -> bool
    ensures { IsTrue result ↔ IsGap g.now }
{
    // These show the prover how many octets the names have.
    let _reader = g.reader_id.as_slice();
    let _writer = g.writer_id.as_slice();
    let start = g.gap_start.number();
    1 <= start && start <= MAX_SN
}
