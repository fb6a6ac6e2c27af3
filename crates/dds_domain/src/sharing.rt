//! Our peer, as datagrams of the network reach it: it is told of matches, fragments are put together, and a HEARTBEAT that came
//! before its writer was matched comes then.
//!
//! `specs/Sharings.antt` says it.
//!
//! RTPS 2.5, 8.3.4 (the message receiver), 8.4 (behaviour).

ghost use Rattle.std.specs.Prelude.{◌≡◌, ◌⊎◌, IfOk, IfErr, OnOk, OnErr};
ghost use Rattle.dds_base.specs.Refusal.{Refuses};
ghost use Rattle.dds_core.specs.Opening.{core_refusal};
ghost use Rattle.dds_domain.specs.Opening.{config_of};
ghost use Rattle.dds_domain.specs.Sharings.{Asks, ComesEarly, Delivers, DeliversAll, Happens, Hears, HearsFragments, IsFirstEarly, IsOpened, KeepsEarly, Meets, MeetsAll, SendsAll, SendsOut, TakesEarly, Tells, WholeOf};
ghost use Rattle.dds_domain.specs.Turns.{MayLack};

use crate::asking::{asking, first_alone, has_fragment};
use crate::early::{Early, MOST_EARLY, heartbeat_of};
use crate::heard::{is_heard, is_heard_end};
use crate::opening::{Parts, config_of};
use crate::telling::meet_all;
use crate::turn::Turn;
use dds_base::{Code, Guid, GuidPrefix, Octets};
use dds_exchange::{Exchange, address_of, far_of};
use dds_machine::Reply;
use dds_protocol::{Event, Packet};
use rtps_discovery::{Packet as Datagram, Row};
use rtps_fragments::Fragments;
use rtps_matching::{Far, Told};
use std::alloc::{AllocError, Global};
use std::marker::Model;

/// Our peer, with those whom discovery matches it with.
#[derive(Drop)]
pub struct Sharing {
    alloc: Global,
    exchange: Exchange,
    /// Of the writers that our readers are matched with.
    fragments: Fragments,
    /// What came of writers that are not matched yet.
    early: Early,
    /// Our readers, in the order of their numbers.
    readers: Vec<Guid>,
    /// How often fragments were asked for.
    asked: u32,
}

impl Model for Sharing {
    ghost use Rattle.dds_domain.specs.Sharings.{State};

    ghost Value = { State };

    ghost view = { λ s. record {
      exchange = s.exchange;
      fragments = s.fragments;
      early = s.early;
      readers = s.readers.items;
      asked = s.asked;
    } };
}

impl Sharing {
    /// Nobody is known to our peer.
    ///
    /// # Errors
    ///
    /// As those of `Exchange::open`.
    pub fn open(alloc: Global, prefix: GuidPrefix, parts: Parts) -> Result<Sharing, Code>
        ensures opened { IfOk result (IsOpened prefix parts.writers parts.readers
            parts.own_writers parts.own_readers parts.names) }
        ensures refused { IfErr result (λ e. (e ≡ Code.Memory)
            ⊎ Refuses (core_refusal (config_of prefix parts.writers parts.readers).peers 1) e) }
    {
        let Parts {
            writers,
            readers,
            own_writers,
            own_readers,
            names,
            ..
        } = parts;
        let config = config_of(alloc, prefix, writers, readers)?;
        let exchange = Exchange::open(alloc, prefix, &config, own_writers, own_readers)?;
        Ok(Sharing {
            alloc,
            exchange,
            fragments: Fragments::new(alloc, &[])?,
            early: Early::new(alloc),
            readers: names,
            asked: 0,
        })
    }

    /// Our peer, with the endpoints that it was told of.
    pub fn exchange(&self) -> &Exchange
        ensures exchange { result.now ≡ self.now.exchange }
    {
        &self.exchange
    }

    /// A packet of our peer goes to the network.
    fn send(&self, rows: &[Row], packet: &Packet, turn: &mut Turn)
        ensures { SendsOut self.now.exchange rows.now packet.now turn.old turn.new }
    {
        match self.exchange.outgoing(self.alloc, rows, packet) {
            Ok(Some(datagram)) => turn.send(datagram),
            Ok(None) => {}
            Err(_) => turn.lack(),
        }
    }

    /// So do these, in their order.
    fn send_all(&self, rows: &[Row], packets: &[Packet], turn: &mut Turn)
        ensures sent { SendsAll self.now.exchange rows.now packets.now turn.old turn.new }
    {
        for packet in packets {
            self.send(rows, packet, turn);
        }
    }

    /// A message comes to our peer.
    fn deliver(&mut self, rows: &[Row], bytes: &[u8], turn: &mut Turn)
        ensures { Delivers rows.now bytes.now self.old turn.old self.new turn.new }
    {
        match self.exchange.hear(self.alloc, bytes) {
            Ok(Some(output)) => {
                turn.record_delivery(self.alloc, bytes);
                self.send_all(rows, output.packets.as_slice(), turn);
            }
            Ok(None) => {}
            Err(_) => turn.lack(),
        }
    }

    /// So do these, in their order.
    fn deliver_all(&mut self, rows: &[Row], messages: &[Octets], turn: &mut Turn)
        ensures delivered { DeliversAll rows.now messages.now self.old turn.old self.new turn.new }
    {
        for message in messages {
            self.deliver(rows, message.as_slice(), turn);
        }
    }

    /// What was told is due at our peer.
    ///
    /// # Errors
    ///
    /// `Memory` where there is none.
    pub fn tell(&mut self, told: &[Told], far: &[Far]) -> Result<(), Code>
        ensures told { OnOk result (Tells told.now far.now self.old self.new) }
        ensures err { OnErr result (self.new ≡ self.old) }
    {
        self.exchange.tell(self.alloc, told, far)
    }

    /// Fragments of a writer are put together if a reader of ours is matched with it.
    fn know(&mut self, far: &Guid, turn: &mut Turn)
        ensures rest { self.new ≡ record self.old { fragments = self.new.fragments } }
        ensures memory { MayLack turn.old turn.new }
    {
        if !is_heard(&self.exchange, far) {
            self.fragments.forget(far);
        } else if self.fragments.know(self.alloc, *far).is_err() {
            turn.lack();
        }
    }

    /// So it is with these.
    fn know_these(&mut self, ends: &[Guid], turn: &mut Turn)
        ensures rest { self.new ≡ record self.old { fragments = self.new.fragments } }
        ensures memory { MayLack turn.old turn.new }
    {
        for end in ends {
            self.know(end, turn);
        }
    }

    /// So it is with each that has a name.
    fn know_all(&mut self, turn: &mut Turn)
        ensures rest { self.new ≡ record self.old { fragments = self.new.fragments } }
        ensures memory { MayLack turn.old turn.new }
    {
        for end in self.exchange.named() {
            if !is_heard_end(&self.exchange, end) {
                self.fragments.forget(&end.guid);
            } else if self.fragments.know(self.alloc, end.guid).is_err() {
                turn.lack();
            }
        }
    }

    /// The endpoints of others that what is due is about.
    fn due_ends(&self) -> Result<Vec<Guid>, AllocError> {
        let due = self.exchange.due();
        let mut ends = Vec::with_capacity(self.alloc, due.len())?;
        for one in due {
            ends.push(far_of(one.told))?;
        }
        Ok(ends)
    }

    /// Where the first datagram stands that waits for a writer that a reader of ours is matched with by now.
    fn first_early(&self) -> Option<usize>
        ensures first { IsFirstEarly self.now result }
    {
        let waiting = self.early.waiting();
        for place in 0..waiting.len() {
            if is_heard(&self.exchange, &waiting[place].writer) {
                return Some(place);
            }
        }
        None
    }

    /// That datagram, which waits no more.
    fn next_early(&mut self) -> Option<Octets>
        ensures { TakesEarly self.old result self.new }
    {
        match self.first_early() {
            Some(place) => self.early.take(place),
            None => None,
        }
    }

    /// What waited for the match of a writer comes.
    fn deliver_early(&mut self, rows: &[Row], turn: &mut Turn)
        ensures early { ComesEarly rows.now self.old turn.old self.new turn.new }
    {
        for _count in 0..MOST_EARLY {
            let Some(bytes) = self.next_early() else {
                return;
            };
            self.deliver(rows, bytes.as_slice(), turn);
        }
    }

    /// All that is due is done.
    fn meet_due(&mut self, turn: &mut Turn)
        ensures { MeetsAll self.old turn.old self.new turn.new }
    {
        match meet_all(&mut self.exchange, turn) {
            Ok(()) => {}
            Err(_) => turn.lack(),
        }
    }

    /// All that is due is done. What waited for it comes.
    pub fn meet(&mut self, rows: &[Row], turn: &mut Turn)
        ensures met { Meets rows.now self.old turn.old self.new turn.new }
    {
        if !self.exchange.has_due() {
            return;
        }
        let ends = self.due_ends();
        self.meet_due(turn);
        match ends {
            Ok(ends) => self.know_these(ends.as_slice(), turn),
            Err(_) => self.know_all(turn),
        }
        self.deliver_early(rows, turn);
    }

    /// A datagram with a HEARTBEAT of a writer that no reader of ours is matched with is kept for a while.
    fn keep_early(&mut self, bytes: &[u8], turn: &mut Turn)
        ensures { KeepsEarly bytes.now self.old turn.old self.new turn.new }
    {
        if let Some(writer) = heartbeat_of(bytes)
            && !is_heard(&self.exchange, &writer)
            && self.early.keep(self.alloc, writer, bytes).is_err()
        {
            turn.lack();
        }
    }

    /// The messages that a datagram with fragments makes whole.
    fn whole_of(&mut self, bytes: &[u8], turn: &mut Turn) -> Vec<Octets>
        ensures { WholeOf bytes.now self.old turn.old result.items self.new turn.new }
    {
        let mut whole = Vec::new(self.alloc);
        if self.fragments.hear(self.alloc, bytes, &mut whole).is_err() {
            turn.lack();
        }
        whole
    }

    /// The reader of ours that was matched with a writer first, if one is matched with it.
    fn reader_of(&self, far: &Guid) -> Option<Guid> {
        if !is_heard(&self.exchange, far) {
            return None;
        }
        let end = self.exchange.named().iter().find(|end| end.guid == *far)?;
        let place = usize::from(end.own).checked_sub(1)?;
        self.readers.get(place).copied()
    }

    /// Asks for the fragments behind a first one that came alone.
    fn ask(&mut self, rows: &[Row], bytes: &[u8], turn: &mut Turn)
        ensures { Asks rows.now self.old turn.old self.new turn.new }
    {
        let Some(first) = first_alone(bytes) else {
            return;
        };
        let Some(reader) = self.reader_of(&first.writer) else {
            return;
        };
        let Some(to) = address_of(rows, &first.writer.prefix) else {
            return;
        };
        self.asked = self.asked.saturating_add(1);
        match asking(self.alloc, &reader, &first, self.asked) {
            Ok(bytes) => turn.send(Datagram { to, bytes }),
            Err(_) => turn.lack(),
        }
    }

    /// Of a datagram with fragments what they made whole comes in its place: all else of it is lost, as a network may lose it.
    fn hear_fragments(&mut self, rows: &[Row], bytes: &[u8], turn: &mut Turn)
        ensures { HearsFragments rows.now bytes.now self.old turn.old self.new turn.new }
    {
        let whole = self.whole_of(bytes, turn);
        self.deliver_all(rows, whole.as_slice(), turn);
        self.ask(rows, bytes, turn);
    }

    /// A datagram comes.
    pub fn hear(&mut self, rows: &[Row], bytes: &[u8], turn: &mut Turn)
        ensures heard { Hears rows.now bytes.now self.old turn.old self.new turn.new }
    {
        self.keep_early(bytes, turn);
        if has_fragment(bytes) {
            self.hear_fragments(rows, bytes, turn);
        } else {
            self.deliver(rows, bytes, turn);
        }
    }

    /// A call of the application, or the time that goes on.
    pub fn happen(&mut self, rows: &[Row], event: Event, turn: &mut Turn) -> Reply
        ensures happened { Happens rows.now event self.old turn.old result self.new turn.new }
    {
        turn.record(&event);
        let output = self.exchange.happen(event);
        self.send_all(rows, output.packets.as_slice(), turn);
        output.reply
    }
}
