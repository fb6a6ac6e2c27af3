//! How samples may stand in octets.
//!
//! DDS-XTypes 1.3, 7.6.3.1.1 (DATA_REPRESENTATION); RTPS 2.5, 9.6 (its parameter).

ghost use Rattle.std.specs.Prelude.{◌≡◌, ◌≤◌, ◌<◌, ◌↔◌, ◌∷◌, [], Some, length, IsTrue};
ghost use Rattle.std.specs.Int.{w16};
ghost use Rattle.std.specs.Option.{option_map};
ghost use Rattle.dds_base.specs.Fields.{number_at};
ghost use Rattle.rtps_announcements.specs.Written.{pushed};
ghost use Rattle.rtps_announcements.specs.Endpoints.{default_representations};
ghost use Rattle.rtps_announcements.specs.ListAt.{value_in};
ghost use Rattle.rtps_announcements.specs.Names.{max_representations, pid_data_representation};
ghost use Rattle.rtps_announcements.specs.ValueAt.{said, counted, listed_at};

use crate::list::first_value;
use crate::names::{MAX_REPRESENTATIONS, PID_DATA_REPRESENTATION};
use arrayvec::ArrayVec;
use dds_base::{Endianness, take_u16, take_u32};
use std::marker::Model;

/// Ids of representations, up to eight. Contracts see the list.
///
/// DDS-XTypes 1.3, 7.6.3.1.1 (DataRepresentationId_t).
#[derive(Debug, Drop)]
pub struct Representations {
    items: ArrayVec<u16, MAX_REPRESENTATIONS>,
}

impl Model for Representations {
    ghost use Rattle.std.specs.Prelude.{ℕ, List};

    ghost Value = { List ℕ };

    ghost view = { λ r. r.items.items };
}

impl Representations {
    /// XCDR_DATA_REPRESENTATION.
    pub const XCDR1: u16 = 0;

    /// XCDR2_DATA_REPRESENTATION.
    pub const XCDR2: u16 = 2;

    /// None.
    pub fn new() -> Representations
        ensures none { result ≡ [] }
    {
        Representations {
            items: ArrayVec::new(),
        }
    }

    /// Appends an id where fewer than eight are there, and says whether there was room.
    pub fn push(&mut self, id: u16) -> bool
        // It is appended exactly where there is room.
        ensures room { IsTrue result ↔ (length self.old < MAX_REPRESENTATIONS) }
        ensures pushed { self.new ≡ pushed max_representations self.old id }
    {
        if self.items.is_full() {
            return false;
        }
        self.items.push(id);
        true
    }

    /// The ids, in their order; none means XCDR1 alone.
    pub fn as_slice(&self) -> &[u16]
        ensures items { result.now ≡ self.now }
        ensures few { length result.now ≤ MAX_REPRESENTATIONS }
    {
        self.items.as_slice()
    }
}

/// As many ids as are asked for.
fn take_ids(
    order: Endianness,
    bytes: &[u8],
    count: usize,
) -> Option<ArrayVec<u16, MAX_REPRESENTATIONS>>
    requires { count ≤ MAX_REPRESENTATIONS }
    ensures { option_map (λ x. x.items) result
        ≡ option_map (λ x. x.0) (counted (number_at order w16) count bytes.now) }
{
    let mut ids = ArrayVec::new();
    let mut left = bytes;
    while ids.len() < count {
        let (id, rest) = take_u16(order, left)?;
        ids.push(id);
        left = rest;
    }
    Some(ids)
}

/// The representations that the first parameter of their id says.
#[tactic(auto, unfolding(crate::specs::ValueAt::listed_at))]
pub fn representations_in(order: Endianness, list: &[u8]) -> Option<Representations>
    ensures { result ≡ said (Some default_representations)
        (listed_at max_representations order (number_at order w16))
        (value_in order list.now pid_data_representation) }
{
    let Some(value) = first_value(order, list, PID_DATA_REPRESENTATION) else {
        let mut representations = Representations::new();
        representations.push(Representations::XCDR1);
        return Some(representations);
    };
    let (count, rest) = take_u32(order, value)?;
    let count = count as usize;
    if MAX_REPRESENTATIONS < count {
        return None;
    }
    let items = take_ids(order, rest, count)?;
    Some(Representations { items })
}
