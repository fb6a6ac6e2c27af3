//! What comes of an event.

ghost use Rattle.std.specs.Prelude.{◌≡◌, [], false, true};
ghost use Rattle.dds_protocol.specs.declared.event.Event.TheVariants.{Call as Calling, Deliver};
ghost use Rattle.dds_domain.specs.Turns.{Adds, Keeps, Presents, PresentsAny, Records, Sends, SendsAny, SendsThese, broken, lacking};

use dds_base::Octets;
use dds_machine::Call;
use dds_protocol::Event;
use rtps_discovery::{Packet as Datagram, Told as Presence};
use rtps_matching::Told;
use std::alloc::{AllocError, Global};
use std::marker::Model;

/// What comes of events, in their order.
#[derive(Drop)]
pub struct Turn {
    /// Who appeared or is gone.
    pub presences: Vec<Presence>,
    /// What changed of who is matched, as our peer was told of it.
    pub told: Vec<Told>,
    /// What is to be sent.
    pub datagrams: Vec<Datagram>,
    /// What happened to our peer, in its order, where that is recorded: calls of the application and those that tell it of
    /// matches, moments, and messages as they came, or as fragments made them whole.
    pub events: Vec<Event>,
    /// Whether it is recorded: where memory is wanting for it, what happens from then on is not.
    pub is_recording: bool,
    /// Whether memory was wanting: then a datagram was lost, or something is left to do in a later turn.
    pub lacks_memory: bool,
}

impl Model for Turn {
    ghost use Rattle.dds_domain.specs.Turns.{State};

    ghost Value = { State };

    ghost view = { λ t. record {
      presences = t.presences.items;
      told = t.told.items;
      datagrams = t.datagrams.items;
      events = t.events.items;
      is_recording = t.is_recording;
      lacks_memory = t.lacks_memory;
    } };
}

impl Turn {
    /// Nothing yet.
    pub fn new(alloc: Global) -> Turn
        ensures presences { result.presences ≡ [] }
        ensures told { result.told ≡ [] }
        ensures datagrams { result.datagrams ≡ [] }
        ensures events { result.events ≡ [] }
        ensures recording { result.is_recording ≡ false }
        ensures memory { result.lacks_memory ≡ false }
    {
        Turn {
            presences: Vec::new(alloc),
            told: Vec::new(alloc),
            datagrams: Vec::new(alloc),
            events: Vec::new(alloc),
            is_recording: false,
            lacks_memory: false,
        }
    }

    /// Nothing yet, and what happens to our peer is recorded.
    pub fn recording(alloc: Global) -> Turn
        ensures presences { result.presences ≡ [] }
        ensures told { result.told ≡ [] }
        ensures datagrams { result.datagrams ≡ [] }
        ensures events { result.events ≡ [] }
        ensures recording { result.is_recording ≡ true }
        ensures memory { result.lacks_memory ≡ false }
    {
        let mut turn = Turn::new(alloc);
        turn.is_recording = true;
        turn
    }

    /// Memory was wanting.
    pub(crate) fn lack(&mut self)
        ensures { self.new ≡ lacking self.old }
    {
        self.lacks_memory = true;
    }

    /// Memory was wanting for the record: it goes no further.
    fn break_off(&mut self)
        ensures { self.new ≡ broken self.old }
    {
        self.is_recording = false;
        self.lack();
    }

    /// An event more stands in the record.
    fn keep(&mut self, event: Event)
        ensures { Keeps event self.old self.new }
    {
        if self.events.push(event).is_err() {
            self.break_off();
        }
    }

    /// An event of our peer, which is about to happen.
    pub(crate) fn record(&mut self, event: &Event)
        ensures { Records event.now self.old self.new }
    {
        if self.is_recording {
            match event.clone() {
                Ok(event) => self.keep(event),
                Err(AllocError) => self.break_off(),
            }
        }
    }

    /// So is this call.
    pub(crate) fn record_call(&mut self, call: &Call)
        ensures { Records (Calling call.now) self.old self.new }
    {
        if self.is_recording {
            match call.clone() {
                Ok(call) => self.keep(Event::Call(call)),
                Err(AllocError) => self.break_off(),
            }
        }
    }

    /// A message that came to our peer.
    pub(crate) fn record_delivery(&mut self, alloc: Global, bytes: &[u8])
        ensures { Records (Deliver bytes.now) self.old self.new }
    {
        if self.is_recording {
            match Vec::from_slice(alloc, bytes) {
                Ok(bytes) => self.keep(Event::Deliver(Octets::from_vec(bytes))),
                Err(AllocError) => self.break_off(),
            }
        }
    }

    /// One more datagram is sent, or is lost for want of memory.
    pub(crate) fn send(&mut self, datagram: Datagram)
        ensures { Sends datagram self.old self.new }
    {
        if self.datagrams.push(datagram).is_err() {
            self.lack();
        }
    }

    /// So is this one, if it is one.
    pub(crate) fn send_any(&mut self, datagram: Option<Datagram>)
        ensures { SendsAny datagram self.old self.new }
    {
        if let Some(datagram) = datagram {
            self.send(datagram);
        }
    }

    /// So are these.
    pub(crate) fn send_these(&mut self, mut datagrams: Vec<Datagram>)
        ensures { SendsThese datagrams.items self.old self.new }
    {
        if self.datagrams.append(&mut datagrams).is_err() {
            self.lack();
        }
    }

    /// These appeared or are gone.
    pub(crate) fn present(&mut self, mut told: Vec<Presence>)
        ensures { Presents told.items self.old self.new }
    {
        if self.presences.append(&mut told).is_err() {
            self.lack();
        }
    }

    /// These appeared or are gone, and these are sent.
    pub(crate) fn add(&mut self, told: Vec<Presence>, datagrams: Vec<Datagram>)
        ensures { Adds told.items datagrams.items self.old self.new }
    {
        self.present(told);
        self.send_these(datagrams);
    }

    /// So is this one, if it is one.
    pub(crate) fn present_any(&mut self, told: Option<Presence>)
        ensures { PresentsAny told self.old self.new }
    {
        if let Some(told) = told
            && self.presences.push(told).is_err()
        {
            self.lack();
        }
    }
}
