//! Participants that find each other.
//!
//! `specs/Steps.antt` says it.
//!
//! RTPS 2.5, 8.5.3 (SPDP).

ghost use Rattle.std.specs.Prelude.{◌≡◌, ◌⊎◌, ◌++◌, max, map, filter_map, IfOk, IfErr, OnOk, OnErr, None};
ghost use Rattle.std.specs.Option.{option_and_then, option_copied, option_to_list};
ghost use Rattle.rtps_discovery.specs.Packets.{message_to};
ghost use Rattle.rtps_discovery.specs.Rows.{entered, new_row, reach, with_room};
ghost use Rattle.rtps_discovery.specs.Steps.{opened, CantBeAnnounced, with_rows, packet_for, announced_to, is_other, rows_after, welcome, Delivers, ticked, told_at, told_of_ended, sent_at, farewells};

use crate::lease::taken_lease;
use crate::packet::{FLAG_DATA, MAX_CONTENT, Packet, data_of, farewell_data, message_to};
use crate::row::{Limits, Row, Told};
use crate::spdp::{FLAG_ENDIANNESS, SPDP_READER, Said, first_said};
use crate::table::{
    Room, announce, difference, enter, has_row, hear, is_there, part, room_for, sleep,
};
use dds_base::{Code, EntityId, GuidPrefix};
use rtps_announcements::{Locator, Participant, is_writable_participant, write_participant};
use rtps_wire::begin_message;
use std::alloc::Global;
use std::marker::Model;

/// The participants that are known, and what we tell them of us: a machine without sockets and without a clock.
///
/// RTPS 2.5, 8.5.3 (SPDP).
#[derive(Drop)]
pub struct Participants {
    own: GuidPrefix,
    domain: u32,
    for_all: Vec<u8>,
    for_one: Vec<u8>,
    interval: u64,
    addresses: Vec<Locator>,
    limits: Limits,
    rows: Vec<Row>,
    time: u64,
    next: u64,
}

impl Model for Participants {
    ghost use Rattle.rtps_discovery.specs.Steps.{State};

    ghost Value = { State };

    ghost view = { λ s. record {
      own = s.own;
      domain = s.domain;
      for_all = s.for_all.items;
      for_one = s.for_one.items;
      interval = s.interval;
      addresses = s.addresses.items;
      limits = s.limits;
      rows = s.rows.items;
      time = s.time;
      next = s.next;
    } };
}

/// What a datagram led to.
#[derive(Drop)]
pub struct Heard {
    /// Whether its sender is there now and was not, or the other way round.
    pub told: Option<Told>,
    /// Our announcement, for a newcomer.
    pub packet: Option<Packet>,
}

/// What a tick led to.
#[derive(Drop)]
pub struct Ticked {
    /// Whose leases have ended.
    pub told: Vec<Told>,
    /// Our announcements, where it was time for them.
    pub packets: Vec<Packet>,
}

/// Whom we announce ourselves to, and how many participants we know at a time.
#[derive(Drop)]
pub struct Settings {
    /// What we announce.
    pub participant: Participant,
    /// The domain: participants of another one are no participants here.
    pub domain: u32,
    /// Addresses that are told of us without having announced themselves: a multicast group, or a list.
    pub addresses: Vec<Locator>,
    /// How many participants are known at a time.
    pub limits: Limits,
}

/// Appends a message to everybody for each address.
fn put_for_all(
    alloc: Global,
    packets: &mut Vec<Packet>,
    own: &GuidPrefix,
    addresses: &[Locator],
    submessage: &[u8],
) -> Result<(), Code>
    ensures ok { OnOk result (packets.new.items ≡ packets.old.items
        ++ map (λ l. record { to = l; bytes = message_to own.now None submessage.now })
        addresses.now) }
    ensures memory { IfErr result (λ e. e ≡ Code.Memory) }
{
    for address in addresses {
        let bytes = message_to(alloc, own, None, submessage)?;
        packets.push(Packet {
            to: *address,
            bytes,
        })?;
    }
    Ok(())
}

/// Our announcement for one participant, where it can be reached.
fn announced_to(
    alloc: Global,
    own: &GuidPrefix,
    for_one: &[u8],
    row: &Row,
) -> Result<Option<Packet>, Code>
    ensures ok { IfOk result (λ p. p ≡ packet_for own.now for_one.now row.now) }
    ensures memory { IfErr result (λ e. e ≡ Code.Memory) }
{
    let Some(to) = row.reach() else {
        return Ok(None);
    };
    let bytes = message_to(alloc, own, Some(&row.participant.prefix), for_one)?;
    Ok(Some(Packet { to: *to, bytes }))
}

/// Appends a packet, where there is one.
fn put_packet(packets: &mut Vec<Packet>, packet: Option<Packet>) -> Result<(), Code>
    ensures ok { OnOk result (packets.new.items ≡ packets.old.items ++ option_to_list packet) }
    ensures memory { IfErr result (λ e. e ≡ Code.Memory) }
{
    if let Some(packet) = packet {
        packets.push(packet)?;
    }
    Ok(())
}

/// Appends an address, where there is one.
fn put_address(addresses: &mut Vec<Locator>, address: Option<&Locator>) -> Result<(), Code>
    ensures ok { OnOk result (addresses.new.items
        ≡ addresses.old.items ++ option_to_list (option_copied address.entry)) }
    ensures memory { IfErr result (λ e. e ≡ Code.Memory) }
{
    if let Some(address) = address {
        addresses.push(*address)?;
    }
    Ok(())
}

/// Appends our announcement for each participant that can be reached.
fn put_for_each(
    alloc: Global,
    packets: &mut Vec<Packet>,
    own: &GuidPrefix,
    for_one: &[u8],
    rows: &[Row],
) -> Result<(), Code>
    ensures ok { OnOk result (packets.new.items
        ≡ packets.old.items ++ filter_map (packet_for own.now for_one.now) rows.now) }
    ensures memory { IfErr result (λ e. e ≡ Code.Memory) }
{
    for row in rows {
        let packet = announced_to(alloc, own, for_one, row)?;
        put_packet(packets, packet)?;
    }
    Ok(())
}

/// Appends the addresses of the participants that can be reached.
fn put_reached(addresses: &mut Vec<Locator>, rows: &[Row]) -> Result<(), Code>
    ensures ok { OnOk result (addresses.new.items ≡ addresses.old.items ++ filter_map reach rows.now) }
    ensures memory { IfErr result (λ e. e ≡ Code.Memory) }
{
    for row in rows {
        put_address(addresses, row.reach())?;
    }
    Ok(())
}

/// Whose leases end.
fn ended(alloc: Global, rows: &[Row], now: u64) -> Result<Vec<Told>, Code>
    ensures ok { IfOk result (λ told. told.items ≡ told_of_ended now rows.now) }
    ensures memory { IfErr result (λ e. e ≡ Code.Memory) }
{
    let mut told = Vec::new(alloc);
    for row in rows {
        if row.has_ended(now) {
            told.push(Told::Gone(row.participant.prefix))?;
        }
    }
    Ok(told)
}

/// Each address that is told of us, and then those of the participants that can be reached.
fn all_addresses(alloc: Global, addresses: &[Locator], rows: &[Row]) -> Result<Vec<Locator>, Code>
    ensures ok { IfOk result (λ all. all.items ≡ addresses.now ++ filter_map reach rows.now) }
    ensures memory { IfErr result (λ e. e ≡ Code.Memory) }
{
    let mut all = Vec::new(alloc);
    all.extend_from_slice(addresses)?;
    put_reached(&mut all, rows)?;
    Ok(all)
}

impl Participants {
    /// Nobody is known yet.
    ///
    /// # Errors
    ///
    /// `BadParameter` where what we announce has no written form, or is longer than 65,000 octets; `Memory` where there is
    /// none.
    ///
    /// RTPS 2.5, 8.5.3.
    pub fn open(alloc: Global, settings: Settings) -> Result<Participants, Code>
        // It announces these settings, and knows nobody.
        ensures opened { IfOk result (λ s. s
            ≡ opened settings.participant settings.domain settings.addresses.items settings.limits) }
        // It is refused for these reasons.
        ensures refused { IfErr result (λ e. (e ≡ Code.Memory)
            ⊎ ((e ≡ Code.BadParameter) × CantBeAnnounced settings.domain settings.participant)) }
    {
        let Settings {
            participant,
            domain,
            addresses,
            limits,
        } = settings;
        if !is_writable_participant(&participant) {
            return Err(Code::BadParameter);
        }
        let payload = write_participant(alloc, domain, &participant)?;
        if payload.len() > MAX_CONTENT {
            return Err(Code::BadParameter);
        }
        let flags = FLAG_ENDIANNESS + FLAG_DATA;
        let for_all = data_of(alloc, flags, &EntityId::UNKNOWN, 1, &payload)?;
        let for_one = data_of(alloc, flags, &SPDP_READER, 1, &payload)?;
        Ok(Participants {
            own: participant.prefix,
            domain,
            for_all,
            for_one,
            interval: taken_lease(participant.lease) / 4,
            addresses,
            limits,
            rows: Vec::new(alloc),
            time: 0,
            next: 0,
        })
    }

    /// Those that are known, in the order in which they came.
    pub fn rows(&self) -> &[Row]
        ensures rows { result.now ≡ self.now.rows }
    {
        &self.rows
    }

    /// Whether a sender is another participant than we are.
    fn is_other(&self, source: &GuidPrefix) -> bool
        ensures { result ≡ is_other self.now source.now }
    {
        *source != self.own && *source != GuidPrefix::UNKNOWN
    }

    /// A newcomer at an address gets a row, where there is room. Our announcement for it.
    fn meet(
        &mut self,
        alloc: Global,
        participant: Participant,
        address: &[u8; 4],
        now: u64,
    ) -> Result<Option<Packet>, Code>
        ensures ok { OnOk result (self.new ≡ with_rows self.old
            (entered self.old.limits participant address.now now self.old.rows) self.old.time self.old.next) }
        ensures packet { IfOk result (λ packet. packet
            ≡ option_and_then (λ rows. announced_to self.old (new_row participant address.now now))
            (with_room self.old.limits address.now self.old.rows)) }
        ensures err { OnErr result (self.new ≡ self.old) }
        ensures memory { IfErr result (λ e. e ≡ Code.Memory) }
    {
        let room = room_for(&self.rows, &self.limits, address);
        if let Room::Missing = room {
            return Ok(None);
        }
        let row = Row {
            participant,
            source: *address,
            heard: now,
            is_awake: true,
        };
        let packet = announced_to(alloc, &self.own, &self.for_one, &row)?;
        enter(&mut self.rows, &room, row)?;
        Ok(packet)
    }

    /// What a participant said at an address is taken up. Our announcement, where it is a newcomer.
    fn take(
        &mut self,
        alloc: Global,
        source: &GuidPrefix,
        address: &[u8; 4],
        now: u64,
        said: Option<Said>,
    ) -> Result<Option<Packet>, Code>
        ensures ok { OnOk result (self.new ≡ with_rows self.old
            (rows_after self.old source.now address.now now said) self.old.time self.old.next) }
        ensures packet { IfOk result (λ packet. packet
            ≡ welcome self.old source.now address.now now said) }
        ensures err { OnErr result (self.new ≡ self.old) }
        ensures memory { IfErr result (λ e. e ≡ Code.Memory) }
    {
        match said {
            None => {
                hear(&mut self.rows, source, address, now);
                Ok(None)
            }
            Some(Said::Leaves) => {
                hear(&mut self.rows, source, address, now);
                part(&mut self.rows, source, address);
                Ok(None)
            }
            Some(Said::Announces(participant)) => {
                if !has_row(&self.rows, source) {
                    return self.meet(alloc, participant, address, now);
                }
                hear(&mut self.rows, source, address, now);
                announce(&mut self.rows, participant, address, now);
                Ok(None)
            }
        }
    }

    /// A datagram comes from an address at a moment, in units of 2^-32 second; time does not go back.
    ///
    /// One of another participant speaks for it where it comes from the address that its first one came from: its lease
    /// begins anew. An announcement brings a newcomer in, and says what is known of it from then on; a farewell takes it
    /// out. Of several in a datagram the first counts. Where the table is full, or the part of it for one address, the
    /// row that sleeps longest makes room; where none sleeps, the newcomer gets no row.
    ///
    /// # Errors
    ///
    /// `Memory` where a newcomer finds none. The datagram counts as lost.
    ///
    /// RTPS 2.5, 8.5.3 and 8.3.4.
    pub fn deliver(
        &mut self,
        alloc: Global,
        moment: u64,
        address: &[u8; 4],
        bytes: &[u8],
    ) -> Result<Heard, Code>
        // The rows, what is told and what is sent follow from the rows before and from what the datagram says.
        ensures ok { IfOk result (λ h. Delivers self.old moment address.now bytes.now self.new h.told h.packet) }
        // A refusal leaves all as it was.
        ensures err { OnErr result (self.new ≡ self.old) }
        // The only refusal is for want of memory.
        ensures memory { IfErr result (λ e. e ≡ Code.Memory) }
    {
        let now = self.time.max(moment);
        let Some((source, body)) = begin_message(bytes) else {
            self.time = now;
            return Ok(Heard {
                told: None,
                packet: None,
            });
        };
        if !self.is_other(&source) {
            self.time = now;
            return Ok(Heard {
                told: None,
                packet: None,
            });
        }
        let said = first_said(&self.own, source, self.domain, body);
        let was_there = is_there(&self.rows, &source);
        let packet = self.take(alloc, &source, address, now, said)?;
        self.time = now;
        let told = difference(source, was_there, is_there(&self.rows, &source));
        Ok(Heard { told, packet })
    }

    /// Our announcements, where it is time for them.
    fn due(&self, alloc: Global, now: u64) -> Result<Vec<Packet>, Code>
        ensures ok { IfOk result (λ packets. packets.items ≡ sent_at self.now now) }
        ensures memory { IfErr result (λ e. e ≡ Code.Memory) }
    {
        let mut packets = Vec::new(alloc);
        if now < self.next {
            return Ok(packets);
        }
        put_for_all(
            alloc,
            &mut packets,
            &self.own,
            &self.addresses,
            &self.for_all,
        )?;
        put_for_each(alloc, &mut packets, &self.own, &self.for_one, &self.rows)?;
        Ok(packets)
    }

    /// Time goes on to a moment, in units of 2^-32 second; it does not go back. The leases that have ended end, and each
    /// quarter of our lease we announce ourselves.
    ///
    /// # Errors
    ///
    /// `Memory` where there is none for what is told or sent: then time did not go on.
    ///
    /// RTPS 2.5, 8.5.3.
    pub fn tick(&mut self, alloc: Global, moment: u64) -> Result<Ticked, Code>
        // Those rows sleep whose leases have ended, and no other.
        ensures ok { OnOk result (self.new ≡ ticked self.old (max self.old.time moment)) }
        // They are told, and our announcements are sent where it is time for them.
        ensures told { IfOk result (λ t. (t.told.items ≡ told_at self.old (max self.old.time moment))
            × (t.packets.items ≡ sent_at self.old (max self.old.time moment))) }
        // A refusal leaves all as it was.
        ensures err { OnErr result (self.new ≡ self.old) }
        // The only refusal is for want of memory.
        ensures memory { IfErr result (λ e. e ≡ Code.Memory) }
    {
        let now = self.time.max(moment);
        let told = ended(alloc, &self.rows, now)?;
        let packets = self.due(alloc, now)?;
        sleep(&mut self.rows, now);
        if now >= self.next {
            self.next = now.saturating_add(self.interval);
        }
        self.time = now;
        Ok(Ticked { told, packets })
    }

    /// What we say as we leave, to all that are told of us and to each participant.
    ///
    /// # Errors
    ///
    /// `Memory` where there is none.
    ///
    /// RTPS 2.5, 8.5.3.
    pub fn farewells(&self, alloc: Global) -> Result<Vec<Packet>, Code>
        // They are these.
        ensures ok { IfOk result (λ packets. packets.items ≡ farewells self.now) }
        // The only refusal is for want of memory.
        ensures memory { IfErr result (λ e. e ≡ Code.Memory) }
    {
        let submessage = farewell_data(alloc, &self.own)?;
        let addresses = all_addresses(alloc, &self.addresses, &self.rows)?;
        let mut packets = Vec::new(alloc);
        put_for_all(alloc, &mut packets, &self.own, &addresses, &submessage)?;
        Ok(packets)
    }
}
