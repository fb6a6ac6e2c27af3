//! The octets of packets that were sent, found by their hash.
//!
//! Traces are this project's own. `docs/DECISIONS.md`, "Peers and the network", says why a packet is known by its
//! octets.

ghost use Rattle.std.specs.Prelude.{◌≡◌, [], ℕ, List, Any, Contains, IsTrue, OnOk, ◌↔◌, ◌⊎◌};

use dds_base::Code;
use dds_protocol::Packet;
use std::alloc::Global;
use std::collections::HashSet;
use std::marker::Model;

/// The octets of packets that were sent: a look-up takes the time of its octets alone.
#[derive(Drop)]
pub struct SentOctets<'a> {
    octets: HashSet<&'a [u8]>,
}

impl<'a> Model for SentOctets<'a> {
    ghost use Rattle.std.specs.Prelude.{List, ℕ, map};

    ghost Value = { List (List ℕ) };

    ghost view = { λ s. map (λ k. k.now) s.octets.keys };
}

impl<'a> SentOctets<'a> {
    /// Nothing was sent.
    pub fn new(alloc: Global) -> SentOctets<'a>
        ensures { result ≡ [] }
    {
        SentOctets {
            octets: HashSet::new(alloc),
        }
    }

    /// Whether these octets were sent.
    pub fn contains(&self, octets: &[u8]) -> bool
        ensures { IsTrue result ↔ Contains self.now octets.now }
    {
        self.octets.contains(octets)
    }

    /// These octets are sent too.
    pub fn add(&mut self, octets: &'a [u8]) -> Result<(), Code>
        ensures { OnOk result ((q : List ℕ) → Contains self.new q ↔ (Contains self.old q ⊎ (q ≡ octets.now))) }
    {
        self.octets.insert(octets)?;
        Ok(())
    }

    /// These packets are sent too.
    pub fn add_all(&mut self, packets: &'a [Packet]) -> Result<(), Code>
        ensures { OnOk result ((q : List ℕ) → Contains self.new q
            ↔ (Contains self.old q ⊎ Any (λ p. p.bytes ≡ q) packets.now)) }
    {
        for packet in packets {
            self.add(packet.bytes.as_slice())?;
        }
        Ok(())
    }
}
