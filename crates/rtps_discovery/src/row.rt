//! A participant that is known.
//!
//! RTPS 2.5, 8.5.3 (SPDP) and 9.6 (PID_PARTICIPANT_LEASE_DURATION).

ghost use Rattle.std.specs.Prelude.{◌≡◌};
ghost use Rattle.std.specs.Option.{option_copied};
ghost use Rattle.std.specs.Str.{bytes_eq};
ghost use Rattle.rtps_discovery.specs.Rows.{is_row, is_row_at, is_from, heard_row, has_ended, slept_row, reach};

use crate::lease::taken_lease;
use dds_base::GuidPrefix;
use rtps_announcements::{Locator, Participant};

/// What is known of a participant.
#[derive(Drop)]
pub struct Row {
    /// What it announced last.
    pub participant: Participant,
    /// The IPv4 address that its first datagram came from: none from another one speaks for it.
    pub source: [u8; 4],
    /// The moment of its last datagram, in units of 2^-32 second.
    pub heard: u64,
    /// Whether it is taken to be there: its lease has not ended since.
    pub is_awake: bool,
}

/// How many participants are known at a time.
#[derive(Clone, Copy)]
pub struct Limits {
    /// In all.
    pub of_all: usize,
    /// At one address.
    pub of_one_address: usize,
}

/// What changed: who is there.
///
/// RTPS 2.5, 8.5.3.
#[derive(Clone, Copy)]
pub enum Told {
    /// A participant is there that was not.
    Appeared(GuidPrefix),
    /// One is there no more: its lease has ended, or it left.
    Gone(GuidPrefix),
}

/// Whether two addresses are one.
pub fn is_address(one: &[u8; 4], other: &[u8; 4]) -> bool
    ensures { result ≡ bytes_eq one.now other.now }
{
    one.as_slice() == other.as_slice()
}

impl Row {
    /// Whether it is of this participant.
    pub(crate) fn is_of(&self, prefix: &GuidPrefix) -> bool
        ensures { result ≡ is_row prefix.now self.now }
    {
        self.participant.prefix == *prefix
    }

    /// Whether its datagrams come from this address.
    pub(crate) fn is_from(&self, address: &[u8; 4]) -> bool
        ensures { result ≡ is_from address.now self.now }
    {
        is_address(&self.source, address)
    }

    /// Whether it is of this participant, and its datagrams come from this address.
    pub(crate) fn is_at(&self, prefix: &GuidPrefix, address: &[u8; 4]) -> bool
        ensures { result ≡ is_row_at prefix.now address.now self.now }
    {
        self.is_of(prefix) && self.is_from(address)
    }

    /// A datagram came, if it is its.
    pub(crate) fn hear(&mut self, prefix: &GuidPrefix, address: &[u8; 4], now: u64)
        ensures { self.new ≡ heard_row prefix.now address.now now self.old }
    {
        if self.is_at(prefix, address) {
            self.heard = now;
            self.is_awake = true;
        }
    }

    /// Whether its lease has ended by now.
    pub(crate) fn has_ended(&self, now: u64) -> bool
        ensures { result ≡ has_ended now self.now }
    {
        self.is_awake
            && u128::from(now)
                >= u128::from(self.heard) + u128::from(taken_lease(self.participant.lease))
    }

    /// It sleeps, if its lease has ended by now.
    pub(crate) fn sleep(&mut self, now: u64)
        ensures { self.new ≡ slept_row now self.old }
    {
        if self.has_ended(now) {
            self.is_awake = false;
        }
    }

    /// Where it is sent to.
    pub(crate) fn reach(&self) -> Option<&Locator>
        ensures { option_copied result ≡ reach self.now }
    {
        self.participant
            .metatraffic
            .as_slice()
            .iter()
            .find(|locator| is_address(&locator.address, &self.source))
    }
}
