//! The partitions of an endpoint.
//!
//! DDS 1.4, 2.2.3 (PARTITION); RTPS 2.5, 9.6 (its parameter).

ghost use Rattle.std.specs.Prelude.{◌≡◌, ◌≤◌, ◌<◌, ◌↔◌, [], ◌∷◌, ◌++◌, Some, length, IsTrue};
ghost use Rattle.std.specs.Option.{option_map};
ghost use Rattle.rtps_announcements.specs.Written.{pushed};
ghost use Rattle.rtps_announcements.specs.ListAt.{value_in};
ghost use Rattle.rtps_announcements.specs.Names.{max_partitions, pid_partition};
ghost use Rattle.rtps_announcements.specs.ValueAt.{said, counted, listed_at, padded_name_at};

use crate::list::first_value;
use crate::name::{Name, take_name};
use crate::names::{MAX_PARTITIONS, PID_PARTITION};
use arrayvec::ArrayVec;
use dds_base::{Endianness, take_octets, take_u32};
use std::marker::Model;

/// Names of partitions, up to sixteen; the announcement lends them. Contracts see the list.
///
/// DDS 1.4, 2.2.3 (PARTITION).
#[derive(Debug, Drop)]
pub struct Partitions<'a> {
    items: ArrayVec<Name<'a>, MAX_PARTITIONS>,
}

impl<'a> Model for Partitions<'a> {
    ghost use Rattle.std.specs.Prelude.{ℕ, List};

    ghost Value = { List (List ℕ) };

    ghost view = { λ p. p.items.items };
}

impl<'a> Partitions<'a> {
    /// None.
    pub fn new() -> Partitions<'a>
        ensures none { result ≡ [] }
    {
        Partitions {
            items: ArrayVec::new(),
        }
    }

    /// Appends a name where fewer than sixteen are there, and says whether there was room.
    pub fn push(&mut self, name: Name<'a>) -> bool
        // It is appended exactly where there is room.
        ensures room { IsTrue result ↔ (length self.old < MAX_PARTITIONS) }
        ensures pushed { self.new ≡ pushed max_partitions self.old name.entry }
    {
        if self.items.is_full() {
            return false;
        }
        self.items.push(name);
        true
    }

    /// The names, in their order; none means the partition without a name.
    pub fn as_slice(&self) -> &[Name<'a>]
        ensures items { result.now ≡ self.now }
        ensures few { length result.now ≤ MAX_PARTITIONS }
    {
        self.items.as_slice()
    }
}

/// A name, and what follows it from a multiple of 4 on.
#[tactic(auto, unfolding(crate::specs::ValueAt::padded_name_at, crate::specs::ValueAt::padded_at))]
fn take_padded_name(order: Endianness, bytes: &[u8]) -> Option<(Name<'_>, &[u8])>
    ensures { option_map (λ x. (x.0, x.1.now)) result ≡ padded_name_at order bytes.now }
{
    let (name, rest) = take_name(order, bytes)?;
    let padding = 3 - name.as_slice().len() % 4;
    let (_, rest) = take_octets(rest, padding)?;
    Some((name, rest))
}

/// As many names as are asked for.
fn take_names(
    order: Endianness,
    bytes: &[u8],
    count: usize,
) -> Option<ArrayVec<Name<'_>, MAX_PARTITIONS>>
    requires { count ≤ MAX_PARTITIONS }
    ensures { option_map (λ x. x.items) result
        ≡ option_map (λ x. x.0) (counted (padded_name_at order) count bytes.now) }
{
    let mut names = ArrayVec::new();
    let mut left = bytes;
    while names.len() < count {
        let (name, rest) = take_padded_name(order, left)?;
        names.push(name);
        left = rest;
    }
    Some(names)
}

/// The partitions that the first parameter of their id says.
#[tactic(auto, unfolding(crate::specs::ValueAt::listed_at))]
pub fn partitions_in(order: Endianness, list: &[u8]) -> Option<Partitions<'_>>
    ensures { result ≡ said (Some []) (listed_at max_partitions order (padded_name_at order))
        (value_in order list.now pid_partition) }
{
    let Some(value) = first_value(order, list, PID_PARTITION) else {
        return Some(Partitions::new());
    };
    let (count, rest) = take_u32(order, value)?;
    let count = count as usize;
    if MAX_PARTITIONS < count {
        return None;
    }
    let items = take_names(order, rest, count)?;
    Some(Partitions { items })
}
