//! A participant.
//!
//! `specs/Participants.antt` says it.
//!
//! DDS 1.4, 2.2.2.2.1 (DomainParticipant); RTPS 2.5, 8.5 (discovery).

ghost use Rattle.std.specs.Prelude.{◌≡◌, ◌⊎◌, [], length, None, IfOk, IfErr, OnOk, OnErr};
ghost use Rattle.std.specs.List.{fold};
ghost use Rattle.std.specs.Option.{option_copied};
ghost use Rattle.dds_core.specs.Pairs.{IsPair};
ghost use Rattle.dds_core.specs.Standing.{StandsFor};
ghost use Rattle.dds_protocol.specs.Peer.{Peer};
ghost use Rattle.dds_protocol.specs.Roster.{Roster};
ghost use Rattle.rtps_matching.specs.Misfits.{misfits};
ghost use Rattle.dds_exchange.specs.Behind.{is_behind};
ghost use Rattle.dds_domain.specs.Matched.{AreMatched, own_at};
ghost use Rattle.dds_domain.specs.Opening.{no_parts, with_end};
ghost use Rattle.dds_domain.specs.Participants.{Calls, CantBeAdded, GoesOn, Hears, HearsAtDiscovery, IsOpened, IsRefused, IsUnbegun, Leaves, Settles, SettlesOne, StepsOne, Tells, Ticks, TicksAtDiscovery, adding, begun, unopened};

use crate::matched::{matched_ends, own_named};
use crate::opening::{OurEnd, Unopened, parts_of};
use crate::sharing::Sharing;
use crate::turn::Turn;
use dds_base::{Code, Endpoint, Masks, Moment};
use dds_core::Pair;
use dds_discovery::{Discovery, Done, Step};
use dds_exchange::NamedEnd;
use dds_machine::{Call, Reply};
use dds_protocol::Event;
use rtps_announcements::EndpointKind;
use rtps_discovery::{Row, Settings};
use rtps_matching::{End, Far, Misfitting, Told};
use std::alloc::Global;
use std::marker::Model;
use std::mem;

/// A participant: no sockets and no clock. All moments are in units of 2^-32 second.
///
/// DDS 1.4, 2.2.2.2.1 (DomainParticipant).
#[derive(Drop)]
pub struct Participant {
    alloc: Global,
    discovery: Discovery,
    sharing: Sharing,
    /// What discovery told last, where our peer was not told of it yet.
    left: Vec<Told>,
}

impl Model for Participant {
    ghost use Rattle.dds_domain.specs.Participants.{State};

    ghost Value = { State };

    ghost view = { λ p. record {
      discovery = p.discovery;
      sharing = p.sharing;
      left = p.left.items;
    } };
}

/// Our endpoints are announced. Nobody is known, so none is matched.
fn add_all(alloc: Global, discovery: &mut Discovery, ends: Vec<End>) -> Result<(), Code>
    requires none { discovery.old.endpoints.own ≡ [] }
    ensures added { OnOk result (discovery.new ≡ fold adding discovery.old ends.items) }
    ensures refused { IfErr result (λ e. (e ≡ Code.Memory) ⊎ CantBeAdded discovery.old.own ends.items e) }
{
    for end in ends {
        let _ = discovery.add(alloc, end)?;
    }
    Ok(())
}

/// The cause of a refusal.
fn unopened(code: Code) -> Unopened
    ensures cause { result ≡ unopened code }
{
    match code {
        Code::Memory => Unopened::Memory,
        code => Unopened::Endpoints(code),
    }
}

/// Discovery begins, with our endpoints.
fn begin(
    alloc: Global,
    settings: Settings,
    most: usize,
    ends: Vec<End>,
) -> Result<Discovery, Unopened>
    ensures begun { IfOk result (λ d. d ≡ begun settings most ends.items) }
    ensures refused { IfErr result (IsUnbegun settings ends.items) }
{
    let mut discovery = match Discovery::open(alloc, settings, most) {
        Ok(discovery) => discovery,
        Err(Code::BadParameter) => return Err(Unopened::Settings),
        Err(_) => return Err(Unopened::Memory),
    };
    match add_all(alloc, &mut discovery, ends) {
        Ok(()) => Ok(discovery),
        Err(code) => Err(unopened(code)),
    }
}

impl Participant {
    /// Nobody is known yet. Our writers are numbered from 1 in the order in which they stand in `ends`, and so are our readers.
    /// Of another participant `most` endpoints are known at most.
    ///
    /// # Errors
    ///
    /// `Settings` where what we announce has no written form; `Endpoints` where our peer can't have these, or one of them is
    /// not in our name or has the name of another; `Memory` where there is none.
    pub fn open(
        alloc: Global,
        settings: Settings,
        most: usize,
        ends: Vec<OurEnd>,
    ) -> Result<Participant, Unopened>
        // It announces these settings and endpoints, knows nobody, and our peer is at its opening.
        ensures opened { IfOk result (λ p. IsOpened settings most (fold with_end no_parts ends.items) p) }
        // It is refused for these reasons.
        ensures refused { IfErr result (IsRefused settings (fold with_end no_parts ends.items)) }
    {
        let prefix = settings.participant.prefix;
        let Ok(mut parts) = parts_of(alloc, ends) else {
            return Err(Unopened::Memory);
        };
        let ends = mem::replace(&mut parts.ends, Vec::new(alloc));
        let discovery = begin(alloc, settings, most, ends)?;
        match Sharing::open(alloc, prefix, parts) {
            Ok(sharing) => Ok(Participant {
                alloc,
                discovery,
                sharing,
                left: Vec::new(alloc),
            }),
            Err(code) => Err(unopened(code)),
        }
    }

    /// The participants that are known, in the order in which they came.
    pub fn rows(&self) -> &[Row]
        ensures rows { result.now ≡ self.now.discovery.participants.rows }
    {
        let rows = self.discovery.rows();
        rows
    }

    /// Our endpoints, in the order in which they were given.
    pub fn own(&self) -> &[End]
        ensures own { result.now ≡ self.now.discovery.endpoints.own }
    {
        let own = self.discovery.own();
        own
    }

    /// Those of others, in the order in which they came.
    pub fn far(&self) -> &[Far]
        ensures far { result.now ≡ self.now.discovery.endpoints.far }
    {
        let far = self.discovery.far();
        far
    }

    /// Each pair of an endpoint of ours and one of others that are of one topic, one type and a partition of both, and are
    /// not matched, with the first policy by which they do not fit.
    ///
    /// # Errors
    ///
    /// `Memory` where there is none.
    ///
    /// DDS 1.4, 2.2.4.1 (OFFERED_INCOMPATIBLE_QOS, REQUESTED_INCOMPATIBLE_QOS).
    pub fn misfits(&self) -> Result<Vec<Misfitting>, Code>
        // These are all, each once.
        ensures misfits { IfOk result (λ found. found.items
            ≡ misfits self.now.discovery.endpoints.own self.now.discovery.endpoints.far) }
        // The only refusal is for want of memory.
        ensures memory { IfErr result (λ e. e ≡ Code.Memory) }
    {
        self.discovery.misfits(self.alloc)
    }

    /// Endpoints of others that our peer was matched with, in the order in which they got their names there.
    pub fn named(&self) -> &[NamedEnd]
        ensures named { result.now ≡ self.now.sharing.exchange.named }
    {
        let named = self.sharing.exchange().named();
        named
    }

    /// How many readers our peer has.
    pub fn readers(&self) -> usize
        ensures readers { result ≡ length self.now.sharing.exchange.readers }
    {
        self.sharing.exchange().readers()
    }

    /// A writer of our peer and a reader, and whether the reader is behind; `None` where they are not matched.
    ///
    /// RTPS 2.5, 8.4.7 (StatefulWriter: matched_readers).
    pub fn pair(&self, writer: u8, reader: Endpoint) -> Option<Pair>
        // It is that of our peer.
        ensures pair { (roster : Roster) (peer : Peer)
            → StandsFor self.now.sharing.exchange.core.filtered.peer roster peer
            → IsPair roster peer writer reader result }
    {
        self.sharing.exchange().pair(writer, reader)
    }

    /// Whether a matched reader has not acknowledged all changes of our writer of this number: it is what waiting for
    /// acknowledgments looks at. A best-effort reader acknowledges none, and is never behind.
    ///
    /// DDS 1.4, 2.2.2.4 (wait_for_acknowledgments); RTPS 2.5, 8.4.7 (ReaderProxy: unacked_changes).
    pub fn is_behind(&self, writer: u8) -> bool
        // It is so exactly if one that has a name is behind, in each state that our peer stands for.
        ensures behind { (roster : Roster) (peer : Peer)
            → StandsFor self.now.sharing.exchange.core.filtered.peer roster peer
            → result ≡ is_behind peer.part self.now.sharing.exchange.named writer }
    {
        self.sharing.exchange().is_behind(writer)
    }

    /// Our writer or our reader of this number, as it is announced.
    fn own_at(&self, kind: EndpointKind, number: u8) -> Option<&End>
        ensures { option_copied result ≡ own_at self.now kind number }
    {
        match self.sharing.exchange().guid(kind, number) {
            Some(guid) => own_named(self.discovery.own(), &guid),
            None => None,
        }
    }

    /// The endpoints of others that our writer or our reader of this number is matched with, in the order of their names. What
    /// they announced is found among `far`, by their GUIDs.
    ///
    /// # Errors
    ///
    /// `BadParameter` where there is no such writer or reader; `Memory` where there is none.
    ///
    /// DDS 1.4, 2.2.2.4 (get_matched_subscriptions), 2.2.2.5 (get_matched_publications).
    pub fn matched(&self, kind: EndpointKind, number: u8) -> Result<Vec<NamedEnd>, Code>
        // They are those whose participant is there, and whose announcement fits what we announce.
        ensures matched { IfOk result (λ ends. AreMatched self.now kind number ends.items) }
        // A refusal is for want of memory, or as there is none of this number.
        ensures refused { IfErr result (λ e. (e ≡ Code.Memory)
            ⊎ ((e ≡ Code.BadParameter) × (own_at self.now kind number ≡ None))) }
    {
        match self.own_at(kind, number) {
            Some(own) => Ok(matched_ends(self.alloc, own, self.far(), self.named())?),
            None => Err(Code::BadParameter),
        }
    }

    /// Our peer is told of what discovery told last.
    fn tell(&mut self, turn: &mut Turn) -> Result<(), Code>
        ensures told { OnOk result (Tells self.old turn.old self.new turn.new) }
        ensures err { OnErr result ((self.new ≡ self.old) × (turn.new ≡ turn.old)) }
    {
        let before = turn.told.len();
        turn.told.extend_from_slice(&self.left)?;
        if let Err(code) = self.sharing.tell(&self.left, self.discovery.far()) {
            turn.told.truncate(before);
            return Err(code);
        }
        self.left.clear();
        Ok(())
    }

    /// The next step of discovery is done; whether one was left, and memory was not wanting.
    fn step(&mut self, turn: &mut Turn) -> bool
        ensures { StepsOne result self.old turn.old self.new turn.new }
    {
        match self.discovery.settle(self.alloc) {
            Ok(Step::Settled) => false,
            Ok(Step::Done(Done { told, packet })) => {
                self.left = told;
                turn.send_any(packet);
                true
            }
            Err(_) => {
                turn.lack();
                false
            }
        }
    }

    /// The same, once our peer was told of the last one.
    fn settle_one(&mut self, turn: &mut Turn) -> bool
        ensures { SettlesOne result self.old turn.old self.new turn.new }
    {
        match self.tell(turn) {
            Ok(()) => self.step(turn),
            Err(_) => {
                turn.lack();
                false
            }
        }
    }

    /// All steps of discovery are done that are left to do, and our peer is told of each.
    fn settle(&mut self, turn: &mut Turn)
        ensures settled { Settles self.old turn.old self.new turn.new }
    {
        for _count in 0..u64::MAX {
            if !self.settle_one(turn) {
                break;
            }
        }
    }

    /// What an event leaves to do is done: the steps of discovery, and then what our peer was told of.
    fn go_on(&mut self, turn: &mut Turn)
        ensures on { GoesOn self.old turn.old self.new turn.new }
    {
        self.settle(turn);
        self.sharing.meet(self.discovery.rows(), turn);
    }

    fn hear_at_discovery(&mut self, moment: u64, address: &[u8; 4], bytes: &[u8], turn: &mut Turn)
        ensures { HearsAtDiscovery Masks.ANY moment address.now bytes.now self.old turn.old self.new turn.new }
    {
        match self.discovery.deliver(self.alloc, moment, address, bytes) {
            Ok(heard) => {
                turn.present_any(heard.told);
                turn.send_any(heard.packet);
            }
            Err(_) => turn.lack(),
        }
    }

    /// A datagram comes from an address at a moment; time does not go back.
    ///
    /// RTPS 2.5, 8.5 (discovery), 8.3.4 (the message receiver).
    pub fn hear(&mut self, moment: u64, address: &[u8; 4], bytes: &[u8], turn: &mut Turn)
        // Discovery hears it, each match that is told is one call of our peer, and then it is a delivery there.
        ensures heard { Hears Masks.ANY moment address.now bytes.now self.old turn.old self.new turn.new }
    {
        self.hear_at_discovery(moment, address, bytes, turn);
        self.go_on(turn);
        self.sharing.hear(self.discovery.rows(), bytes, turn);
    }

    fn tick_at_discovery(&mut self, moment: u64, turn: &mut Turn)
        ensures { TicksAtDiscovery moment self.old turn.old self.new turn.new }
    {
        match self.discovery.tick(self.alloc, moment) {
            Ok(ticked) => turn.add(ticked.told, ticked.packets),
            Err(_) => turn.lack(),
        }
    }

    /// Time goes on to a moment; it does not go back.
    ///
    /// RTPS 2.5, 8.5.3.3.2 (leases), 8.4.7 (heartbeatPeriod).
    pub fn tick(&mut self, moment: u64, turn: &mut Turn)
        // It goes on at discovery, each match that is told is one call of our peer, and then it goes on there.
        ensures ticked { Ticks moment self.old turn.old self.new turn.new }
    {
        self.tick_at_discovery(moment, turn);
        self.go_on(turn);
        let tick = Event::Tick(Moment::new(moment));
        let _ = self.sharing.happen(self.discovery.rows(), tick, turn);
    }

    /// A call of the application. One whose value or key is not of the type of its writer's topic, so that others would take
    /// a wrong one, is refused with `BadParameter`.
    ///
    /// DDS 1.4, 2.2.2.4 and 2.2.2.5 (DataWriter, DataReader).
    pub fn call(&mut self, call: Call, turn: &mut Turn) -> Reply
        // It is one step of our peer, or is refused and changes nothing, exactly where it does not fit.
        ensures called { Calls call self.old turn.old result self.new turn.new }
    {
        if !self.sharing.exchange().fits(&call) {
            return Reply::Refused(Code::BadParameter);
        }
        self.sharing
            .happen(self.discovery.rows(), Event::Call(call), turn)
    }

    /// What we say as we leave, to all that are told of us and to each participant.
    ///
    /// RTPS 2.5, 8.5.3.
    pub fn close(&self, turn: &mut Turn)
        // They are these.
        ensures left { Leaves self.now turn.old turn.new }
    {
        match self.discovery.close(self.alloc) {
            Ok(packets) => turn.send_these(packets),
            Err(_) => turn.lack(),
        }
    }
}
