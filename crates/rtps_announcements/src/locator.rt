//! Where participants and endpoints can be reached.
//!
//! `specs/Locators.antt` draws it.
//!
//! RTPS 2.5, 9.3.2 (Locator_t) and 9.6 (the addresses of UDP over IPv4).

ghost use Rattle.std.specs.Prelude.{◌≡◌, ◌≤◌, ◌<◌, ◌↔◌, [], length, IsTrue};
ghost use Rattle.rtps_announcements.specs.Written.{pushed};
ghost use Rattle.rtps_announcements.specs.Names.{max_locators};
ghost use Rattle.rtps_announcements.specs.ListAt.{parameters_in};
ghost use Rattle.rtps_announcements.specs.Locators.{is_of_host, locator_at, locator_said, locators_of, or_else};

use crate::list::{Parameter, take_parameter};
use crate::names::{
    LEN_ADDRESS, LEN_BEFORE_ADDRESS, LOCATOR_KIND_UDP_V4, MAX_LOCATORS, PID_SENTINEL,
};
use arrayvec::ArrayVec;
use dds_base::{Endianness, take_octets, take_u32};
use std::marker::Model;

/// An address and a port of UDP over IPv4.
///
/// RTPS 2.5, 9.3.2 (Locator_t, LOCATOR_KIND_UDPv4).
#[derive(Clone, Copy, Debug, Default)]
pub struct Locator {
    /// The four octets of the address, the most significant first.
    pub address: [u8; 4],
    /// Not 0, where it was read.
    pub port: u16,
}

/// Up to four locators. Contracts see the list.
#[derive(Debug, Drop)]
pub struct Locators {
    items: ArrayVec<Locator, MAX_LOCATORS>,
}

impl Model for Locators {
    ghost use Rattle.std.specs.Prelude.{List};
    ghost use Rattle.rtps_announcements.specs.declared.locator.Locator.{Locator};

    ghost Value = { List Locator };

    ghost view = { λ l. l.items.items };
}

impl Locators {
    /// None.
    pub fn new() -> Locators
        ensures none { result ≡ [] }
    {
        Locators {
            items: ArrayVec::new(),
        }
    }

    /// Appends a locator where fewer than four are there, and says whether there was room.
    pub fn push(&mut self, locator: Locator) -> bool
        // It is appended exactly where there is room.
        ensures room { IsTrue result ↔ (length self.old < MAX_LOCATORS) }
        ensures pushed { self.new ≡ pushed max_locators self.old locator }
    {
        if self.items.is_full() {
            return false;
        }
        self.items.push(locator);
        true
    }

    /// The locators, in their order.
    pub fn as_slice(&self) -> &[Locator]
        ensures items { result.now ≡ self.now }
        ensures few { length result.now ≤ MAX_LOCATORS }
    {
        self.items.as_slice()
    }
}

/// Whether one host can have an address with this first octet: it is not 0, nor that of a group, nor 255.
pub fn is_of_host(first: u8) -> bool
    ensures { result ≡ is_of_host first }
{
    0 < first && (first < 224 || 239 < first) && first < 255
}

/// The locator that a value says, where it is one of UDP over IPv4.
#[tactic(auto, unfolding(crate::specs::Locators::locator_at))]
fn locator_of(order: Endianness, value: &[u8]) -> Option<Locator>
    ensures { result ≡ locator_at order value.now }
{
    let (kind, rest) = take_u32(order, value)?;
    let (port, rest) = take_u32(order, rest)?;
    let (_, rest) = take_octets(rest, LEN_BEFORE_ADDRESS)?;
    let (octets, _) = take_octets(rest, LEN_ADDRESS)?;
    let mut address = [0; LEN_ADDRESS];
    address.copy_from_slice(octets);
    if kind == LOCATOR_KIND_UDP_V4 && 0 < port && port < 65_536 && is_of_host(address[0]) {
        return Some(Locator {
            address,
            port: port as u16,
        });
    }
    None
}

/// The locator that a parameter says, where it has this id.
fn locator_said(order: Endianness, id: u16, parameter: Parameter) -> Option<Locator>
    ensures { result ≡ locator_said order id
        (record { id = parameter.entry.id; value = parameter.entry.value.now }) }
{
    if parameter.id == id {
        return locator_of(order, parameter.value);
    }
    None
}

/// The locators that the parameters of this id say, or those of another id where there is none.
pub fn locators_or_in(order: Endianness, list: &[u8], id: u16, other: u16) -> Locators
    ensures { result ≡ or_else (locators_of order id (parameters_in order list.now))
        (locators_of order other (parameters_in order list.now)) }
{
    let locators = locators_in(order, list, id);
    if locators.as_slice().is_empty() {
        return locators_in(order, list, other);
    }
    locators
}

/// The locators that the parameters of this id say, the first four.
pub fn locators_in(order: Endianness, list: &[u8], id: u16) -> Locators
    ensures { result ≡ locators_of order id (parameters_in order list.now) }
{
    let mut items = ArrayVec::new();
    let mut left = list;
    while let Some((parameter, rest)) = take_parameter(order, left) {
        if parameter.id == PID_SENTINEL || items.is_full() {
            return Locators { items };
        }
        if let Some(locator) = locator_said(order, id, parameter) {
            items.push(locator);
        }
        left = rest;
    }
    Locators { items }
}
