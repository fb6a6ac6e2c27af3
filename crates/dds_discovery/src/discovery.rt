//! The discovery machine of a participant.
//!
//! `specs/States.antt`, `specs/Steps.antt` and `specs/Events.antt` say it.
//!
//! RTPS 2.5, 8.5 (discovery), 8.4.13 (the writer liveliness protocol).

ghost use Rattle.std.specs.Prelude.{◌≡◌, ◌⊎◌, ◌<◌, map, max, length, position, true, false, None, IfOk, IfErr, IfSome, OnOk, OnErr};
ghost use Rattle.std.specs.List.{list_any};
ghost use Rattle.std.specs.Option.{is_none};
ghost use Rattle.dds_base.specs.Checked.{same_prefix};
ghost use Rattle.std.specs.Str.{bytes_eq};
ghost use Rattle.rtps_discovery.specs.Rows.{is_row_at};
ghost use Rattle.rtps_discovery.specs.Steps.{CantBeAnnounced, farewells, sent_at, told_at};
ghost use Rattle.rtps_matching.specs.Misfits.{misfits};
ghost use Rattle.rtps_matching.specs.Steps.{has_own, told_of_own, told_without_own};
ghost use Rattle.dds_discovery.specs.Dues.{is_link};
ghost use Rattle.dds_discovery.specs.States.{IsWithin, due, newcomer};
ghost use Rattle.dds_discovery.specs.Steps.{IsChoreAt, IsStep, Leaves, Opens, Serves};
ghost use Rattle.dds_discovery.specs.Events.{Delivers, Hears, IsFor, IsTurnedAt, TakesOne, TakesTurned, added, kind_of, link_anew, link_gone_on, opened, place_at, removed, ticked};

use crate::again::begins_again;
use crate::due::{Chore, Due, busy, chore_of, forgotten, is_row, is_there, left, newcomer};
use crate::link::{Link, Removed};
use crate::opening::open_link;
use crate::serving::{Done, Known, serve, take_in, telling};
use dds_base::{Code, Guid, GuidPrefix, Masks, Octets};
use dds_builtin::turned_in;
use rtps_announcements::EndpointKind;
use rtps_discovery::{Heard, Packet, Participants, Row, Settings, Ticked, taken_lease};
use rtps_matching::{End, Endpoints, Far, Misfitting, Told};
use rtps_wire::begin_message;
use std::alloc::Global;
use std::marker::Model;

/// What our participant has to announce as its builtin endpoints: a writer and a reader each of participants, of
/// publications, of subscriptions and of participant messages.
///
/// RTPS 2.5, 9.3.2 (BuiltinEndpointSet_t).
pub const BUILTIN_ENDPOINTS: u32 = 0x0c3f;

/// The discovery machine of a participant: no sockets and no clock. All moments are in units of 2^-32 second.
///
/// RTPS 2.5, 8.5 (discovery).
#[derive(Drop)]
pub struct Discovery {
    own: GuidPrefix,
    participants: Participants,
    endpoints: Endpoints,
    links: Vec<Link>,
    unopened: Vec<GuidPrefix>,
    removed: Vec<Removed>,
    most: usize,
    time: u64,
    interval: u64,
    next: u64,
}

impl Model for Discovery {
    ghost use Rattle.dds_discovery.specs.States.{State};

    ghost Value = { State };

    ghost view = { λ d. record {
      own = d.own;
      participants = d.participants;
      endpoints = d.endpoints;
      links = d.links.items;
      unopened = d.unopened.items;
      removed = d.removed.items;
      most = d.most;
      time = d.time;
      interval = d.interval;
      next = d.next;
    } };
}

/// One of the steps that events leave to do.
#[derive(Drop)]
pub enum Step {
    /// None is left.
    Settled,
    /// It was done, and this came of it.
    Done(Done),
}

/// Whether it is a writer or a reader, of those of ours that has this name; `None` where none has it.
fn kind_of(own: &[End], guid: &Guid) -> Option<EndpointKind>
    ensures { result ≡ kind_of guid.now own.now }
{
    match own.iter().find(|end| end.endpoint.guid() == *guid) {
        Some(end) => Some(end.kind),
        None => None,
    }
}

/// Time went on at a link.
fn link_goes_on(link: &mut Link, time: u64, speaks: bool)
    ensures { link.new ≡ link_gone_on time speaks link.old }
{
    link.network.work.go_on(time, speaks);
}

/// Time went on at each link.
fn go_on(links: &mut [Link], time: u64, speaks: bool)
    ensures { links.new ≡ map (link_gone_on time speaks) links.old }
{
    for link in links.iter_mut() {
        link_goes_on(link, time, speaks);
    }
}

/// All of our endpoints are to be written again at a link.
fn write_anew(link: &mut Link)
    ensures { link.new ≡ link_anew link.old }
{
    let is_awake = link.network.work.is_awake;
    link.network.work.turn(is_awake);
}

/// All of our endpoints are to be written again at each link.
fn write_all_anew(links: &mut [Link])
    ensures { links.new ≡ map link_anew links.old }
{
    for link in links.iter_mut() {
        write_anew(link);
    }
}

/// Whether two addresses are one.
fn is_address(one: &[u8; 4], other: &[u8; 4]) -> bool
    ensures { result ≡ bytes_eq one.now other.now }
{
    one.as_slice() == other.as_slice()
}

/// Whether a participant is known, and its datagrams come from this address.
fn is_known_at(rows: &[Row], prefix: &GuidPrefix, address: &[u8; 4]) -> bool
    ensures { result ≡ list_any (is_row_at prefix.now address.now) rows.now }
{
    rows.iter().any(|row| is_row(row, prefix) && is_address(&row.source, address))
}

/// The place of the link with a participant.
fn place_of(links: &[Link], prefix: &GuidPrefix) -> Option<usize>
    ensures place { result ≡ position (is_link prefix.now) links.now }
    ensures within { IfSome result (λ i. i < length links.now) }
{
    links.iter().position(|link| link.is_of(prefix))
}

/// The place of the link with who sends from this address.
fn place_at(rows: &[Row], links: &[Link], address: &[u8; 4], source: &GuidPrefix) -> Option<usize>
    ensures place { result ≡ place_at rows.now links.now address.now source.now }
    ensures within { IfSome result (λ i. i < length links.now) }
{
    if is_known_at(rows, source, address) {
        place_of(links, source)
    } else {
        None
    }
}

impl Discovery {
    /// Nobody is known yet, and we have no endpoints. Of another participant so many endpoints are known at most.
    ///
    /// # Errors
    ///
    /// `BadParameter` where what we announce has no written form, or is longer than 65,000 octets; `Memory` where there
    /// is none.
    ///
    /// RTPS 2.5, 8.5.
    pub fn open(alloc: Global, settings: Settings, most: usize) -> Result<Discovery, Code>
        // It announces these settings, and knows nobody.
        ensures opened { IfOk result (λ s. s ≡ opened settings.participant settings.domain
            settings.addresses.items settings.limits most) }
        // It is refused for these reasons.
        ensures refused { IfErr result (λ e. (e ≡ Code.Memory)
            ⊎ ((e ≡ Code.BadParameter) × CantBeAnnounced settings.domain settings.participant)) }
    {
        let own = settings.participant.prefix;
        let interval = taken_lease(settings.participant.lease) / 4;
        let of_all = settings.limits.of_all;
        let participants = Participants::open(alloc, settings)?;
        Ok(Discovery {
            own,
            participants,
            endpoints: Endpoints::new(alloc, most),
            links: Vec::new(alloc),
            unopened: Vec::new(alloc),
            removed: Vec::new(alloc),
            most: of_all,
            time: 0,
            interval,
            next: 0,
        })
    }

    /// The participants that are known, in the order in which they came.
    pub fn rows(&self) -> &[Row]
        ensures rows { result.now ≡ self.now.participants.rows }
    {
        let all = self.participants.rows();
        all
    }

    /// Our endpoints, in the order in which they came.
    pub fn own(&self) -> &[End]
        ensures own { result.now ≡ self.now.endpoints.own }
    {
        let all = self.endpoints.own();
        all
    }

    /// Those of others, in the order in which they came.
    pub fn far(&self) -> &[Far]
        ensures far { result.now ≡ self.now.endpoints.far }
    {
        let all = self.endpoints.far();
        all
    }

    /// The place of the first row whose participant gets a link.
    fn newcomer(&self) -> Option<usize>
        ensures place { result ≡ newcomer self.now }
        ensures within { IfSome result (λ i. i < length self.now.participants.rows) }
    {
        if self.links.len() < self.most && self.unopened.len() < self.most - self.links.len() {
            newcomer(self.participants.rows(), &self.links, &self.unopened)
        } else {
            None
        }
    }

    /// The next step, where one is left to do.
    fn due(&self) -> Option<Due>
        ensures due { result ≡ due self.now }
        ensures within { IfSome result (IsWithin self.now) }
    {
        if let Some(place) = left(&self.links, self.participants.rows()) {
            return Some(Due::Leave(place));
        }
        if let Some(place) = forgotten(&self.unopened, self.participants.rows()) {
            return Some(Due::Forget(place));
        }
        if let Some(place) = self.newcomer() {
            return Some(Due::Open(place));
        }
        match busy(
            &self.links,
            self.participants.rows(),
            self.endpoints.own().len(),
            self.removed.len(),
        ) {
            Some(place) => Some(Due::Serve(place)),
            None => None,
        }
    }

    /// Whether no step is left to do.
    pub fn is_settled(&self) -> bool
        // It is so where none is next.
        ensures settled { result ≡ is_none (due self.now) }
    {
        self.due().is_none()
    }

    /// The participant of the link at this place is known no more.
    fn leave(&mut self, alloc: Global, place: usize) -> Result<Vec<Told>, Code>
        requires within { place < length self.old.links }
        ensures ok { IfOk result (λ told. Leaves place self.old told.items self.new) }
        ensures err { OnErr result (self.new ≡ self.old) }
        ensures memory { IfErr result (λ e. e ≡ Code.Memory) }
    {
        let prefix = self.links[place].network.prefix;
        let told = self.endpoints.leave(alloc, &prefix)?;
        let _ = self.links.remove(place);
        Ok(told)
    }

    /// A link with the participant of the row at this place, where there can be one.
    fn open_at(&mut self, alloc: Global, place: usize) -> Result<(), Code>
        requires within { place < length self.old.participants.rows }
        ensures ok { OnOk result (Opens place self.old self.new) }
        ensures err { OnErr result (self.new ≡ self.old) }
        ensures memory { IfErr result (λ e. e ≡ Code.Memory) }
    {
        let far = &self.participants.rows()[place].participant;
        let prefix = far.prefix;
        match open_link(alloc, self.own, far, self.removed.len())? {
            Some(link) => self.links.push(link)?,
            None => self.unopened.push(prefix)?,
        }
        Ok(())
    }

    /// What is done next at the link at this place.
    fn chore_at(&self, place: usize) -> Option<Chore>
        requires within { place < length self.now.links }
        ensures { IsChoreAt self.now place result }
    {
        let link = &self.links[place];
        let is_there = is_there(self.participants.rows(), &link.network.prefix);
        chore_of(
            link,
            is_there,
            self.endpoints.own().len(),
            self.removed.len(),
        )
    }

    /// One step at the link at this place.
    fn serve(&mut self, alloc: Global, place: usize) -> Result<Done, Code>
        requires within { place < length self.old.links }
        ensures ok { IfOk result (λ done. Serves place self.old done.told.items done.packet self.new) }
        ensures err { OnErr result (self.new ≡ self.old) }
        ensures memory { IfErr result (λ e. e ≡ Code.Memory) }
    {
        let chore = self.chore_at(place);
        let known = Known {
            prefix: self.own,
            rows: self.participants.rows(),
            removed: &self.removed,
            time: self.time,
        };
        let done = serve(
            alloc,
            &known,
            &mut self.endpoints,
            &mut self.links[place],
            chore,
        )?;
        Ok(done)
    }

    /// One of the steps that events leave to do, where one is left: a network is opened with a newcomer, an endpoint of
    /// ours is told, one of others is heard of, a datagram is made, who is gone is forgotten.
    ///
    /// # Errors
    ///
    /// `Memory` where there is none: that step is left to do.
    ///
    /// RTPS 2.5, 8.5.
    pub fn settle(&mut self, alloc: Global) -> Result<Step, Code>
        // It is the next one, and what it says came of it; none changes nothing.
        ensures ok { IfOk result (IsStep self.old self.new) }
        // A refusal leaves all as it was.
        ensures err { OnErr result (self.new ≡ self.old) }
        // The only refusal is for want of memory.
        ensures memory { IfErr result (λ e. e ≡ Code.Memory) }
    {
        match self.due() {
            None => Ok(Step::Settled),
            Some(Due::Leave(place)) => {
                let told = self.leave(alloc, place)?;
                Ok(Step::Done(telling(told)))
            }
            Some(Due::Forget(place)) => {
                let _ = self.unopened.remove(place);
                Ok(Step::Done(telling(Vec::new(alloc))))
            }
            Some(Due::Open(place)) => {
                self.open_at(alloc, place)?;
                Ok(Step::Done(telling(Vec::new(alloc))))
            }
            Some(Due::Serve(place)) => {
                let done = self.serve(alloc, place)?;
                Ok(Step::Done(done))
            }
        }
    }

    /// The place of the link that a datagram is for, by who sent it and from where.
    fn place_for(&self, address: &[u8; 4], bytes: &[u8]) -> Option<usize>
        ensures place { IsFor self.now address.now bytes.now result }
        ensures within { IfSome result (λ i. i < length self.now.links) }
    {
        match begin_message(bytes) {
            Some((source, _)) => place_at(self.participants.rows(), &self.links, address, &source),
            None => None,
        }
    }

    /// A datagram for the link at this place, as its peer reads it; `None` where it gets too long.
    fn turned_at(&self, alloc: Global, place: usize, bytes: &[u8]) -> Result<Option<Octets>, Code>
        requires within { place < length self.now.links }
        ensures turned { IfOk result (λ o. IsTurnedAt self.now.links place bytes.now o) }
        ensures memory { IfErr result (λ e. e ≡ Code.Memory) }
    {
        let turned = turned_in(alloc, self.links[place].network.prefix, bytes)?;
        Ok(turned)
    }

    /// A datagram for the link at this place comes there, as it was turned.
    fn take_in_at(&mut self, alloc: Global, place: usize, turned: &[u8], begins: bool)
        requires within { place < length self.old.links }
        ensures { TakesOne Masks.ANY turned.now begins place self.old self.new }
    {
        let time = self.time;
        take_in(alloc, &mut self.links[place], turned, begins, time);
    }

    /// A datagram for the link at this place comes there, as it was turned, if it did not get too long.
    fn take(&mut self, alloc: Global, place: usize, turned: Option<Octets>, bytes: &[u8])
        requires within { place < length self.old.links }
        ensures { TakesTurned Masks.ANY bytes.now place turned self.old self.new }
    {
        if let Some(turned) = turned {
            self.take_in_at(alloc, place, turned.as_slice(), begins_again(bytes));
        }
    }

    /// A datagram speaks for its sender.
    fn hear(
        &mut self,
        alloc: Global,
        moment: u64,
        address: &[u8; 4],
        bytes: &[u8],
    ) -> Result<Heard, Code>
        ensures ok { IfOk result (λ h. Hears self.old moment address.now bytes.now self.new h.told h.packet) }
        ensures err { OnErr result (self.new ≡ self.old) }
        ensures memory { IfErr result (λ e. e ≡ Code.Memory) }
    {
        let heard = self.participants.deliver(alloc, moment, address, bytes)?;
        self.time = self.time.max(moment);
        Ok(heard)
    }

    /// A datagram comes from an address at a moment; time does not go back. It speaks for its sender as `Participants`
    /// of `rtps_discovery` says; where it comes from the address of a participant that is known, its peer takes it too.
    ///
    /// # Errors
    ///
    /// `PreconditionNotMet` where a step is left to do, else `Memory` where there is none. The datagram counts as lost.
    ///
    /// RTPS 2.5, 8.5 and 8.3.4.
    pub fn deliver(
        &mut self,
        alloc: Global,
        moment: u64,
        address: &[u8; 4],
        bytes: &[u8],
    ) -> Result<Heard, Code>
        // It speaks for its sender, and our peer of the link with that takes it.
        ensures ok { IfOk result (λ h. Delivers Masks.ANY self.old moment address.now bytes.now self.new h.told h.packet) }
        // It is refused where a step is left to do, or for want of memory.
        ensures refused { IfErr result (λ e. ((e ≡ Code.PreconditionNotMet)
            × (is_none (due self.old) ≡ false)) ⊎ (e ≡ Code.Memory)) }
        ensures taken { OnOk result (is_none (due self.old) ≡ true) }
        // A refusal leaves all as it was.
        ensures err { OnErr result (self.new ≡ self.old) }
    {
        if !self.is_settled() {
            return Err(Code::PreconditionNotMet);
        }
        let Some(place) = self.place_for(address, bytes) else {
            return self.hear(alloc, moment, address, bytes);
        };
        let turned = self.turned_at(alloc, place, bytes)?;
        let heard = self.hear(alloc, moment, address, bytes)?;
        self.take(alloc, place, turned, bytes);
        Ok(heard)
    }

    /// Time goes on to a moment; it does not go back. The leases that have ended end, each quarter of our lease we
    /// announce ourselves and say that we are alive, and each peer is told what time it is.
    ///
    /// # Errors
    ///
    /// `Memory` where there is none for what is told or sent: then time did not go on.
    ///
    /// RTPS 2.5, 8.5.
    pub fn tick(&mut self, alloc: Global, moment: u64) -> Result<Ticked, Code>
        // It goes on for participants, and at each link.
        ensures ok { OnOk result (self.new ≡ ticked moment self.old) }
        // Those are told whose leases have ended, and our announcements are sent where it is time for them.
        ensures told { IfOk result (λ t. (t.told.items
            ≡ told_at self.old.participants (max self.old.participants.time moment))
            × (t.packets.items ≡ sent_at self.old.participants (max self.old.participants.time moment))) }
        // A refusal leaves all as it was.
        ensures err { OnErr result (self.new ≡ self.old) }
        // The only refusal is for want of memory.
        ensures memory { IfErr result (λ e. e ≡ Code.Memory) }
    {
        let ticked = self.participants.tick(alloc, moment)?;
        let now = self.time.max(moment);
        let speaks = now >= self.next;
        if speaks {
            self.next = now.saturating_add(self.interval);
        }
        self.time = now;
        go_on(&mut self.links, now, speaks);
        Ok(ticked)
    }

    /// One more endpoint of ours; whom it is matched with.
    ///
    /// # Errors
    ///
    /// `BadParameter` where it is not in our name, else `PreconditionNotMet` where there is one of its name, else
    /// `Memory` where there is none. It comes to nothing then.
    ///
    /// RTPS 2.5, 8.5.4.
    pub fn add(&mut self, alloc: Global, end: End) -> Result<Vec<Told>, Code>
        // It stands last.
        ensures ok { OnOk result (self.new ≡ added end self.old) }
        // So many are matched with it.
        ensures told { IfOk result (λ told. told.items ≡ told_of_own end self.old.endpoints) }
        // It is in our name, and there was none of its name.
        ensures taken { OnOk result ((same_prefix end.endpoint.guid.prefix self.old.own ≡ true)
            × (has_own end.endpoint.guid self.old.endpoints ≡ false)) }
        // It is refused for these reasons.
        ensures refused { IfErr result (λ e.
            ((e ≡ Code.BadParameter) × (same_prefix end.endpoint.guid.prefix self.old.own ≡ false))
            ⊎ ((e ≡ Code.PreconditionNotMet) × (has_own end.endpoint.guid self.old.endpoints ≡ true))
            ⊎ (e ≡ Code.Memory)) }
        // A refusal leaves all as it was.
        ensures err { OnErr result (self.new ≡ self.old) }
    {
        let guid = end.endpoint.guid();
        if guid.prefix != self.own {
            return Err(Code::BadParameter);
        }
        self.endpoints.add(alloc, end)
    }

    /// An endpoint of ours goes; whom it was matched with.
    ///
    /// # Errors
    ///
    /// `BadParameter` where there is none of this name, else `Memory` where there is none.
    ///
    /// RTPS 2.5, 8.5.4.
    pub fn remove(&mut self, alloc: Global, guid: &Guid) -> Result<Vec<Told>, Code>
        // It is no more, and that is told at each link.
        ensures ok { OnOk result (IfSome (kind_of guid.now self.old.endpoints.own)
            (λ kind. self.new ≡ removed guid.now kind self.old)) }
        // So many were matched with it.
        ensures told { IfOk result (λ told. told.items ≡ told_without_own guid.now self.old.endpoints) }
        // It is refused where there is none of this name, or for want of memory.
        ensures refused { IfErr result (λ e. ((e ≡ Code.BadParameter)
            × (kind_of guid.now self.old.endpoints.own ≡ None)) ⊎ (e ≡ Code.Memory)) }
        // A refusal leaves all as it was.
        ensures err { OnErr result (self.new ≡ self.old) }
    {
        let Some(kind) = kind_of(self.endpoints.own(), guid) else {
            return Err(Code::BadParameter);
        };
        self.removed.reserve(1)?;
        let told = self.endpoints.remove(alloc, guid)?;
        self.removed.push(Removed { guid: *guid, kind })?;
        write_all_anew(&mut self.links);
        Ok(told)
    }

    /// Each pair of an endpoint of ours and one of others that are of one topic, one type and a partition of both, and are
    /// not matched, with the first policy by which they do not fit.
    ///
    /// # Errors
    ///
    /// `Memory` where there is none.
    ///
    /// DDS 1.4, 2.2.3 (supported QoS).
    pub fn misfits(&self, alloc: Global) -> Result<Vec<Misfitting>, Code>
        // These are all, each once.
        ensures ok { IfOk result (λ found. found.items
            ≡ misfits self.now.endpoints.own self.now.endpoints.far) }
        // The only refusal is for want of memory.
        ensures memory { IfErr result (λ e. e ≡ Code.Memory) }
    {
        self.endpoints.misfits(alloc)
    }

    /// What we say as we leave, to all that are told of us and to each participant.
    ///
    /// # Errors
    ///
    /// `Memory` where there is none.
    ///
    /// RTPS 2.5, 8.5.3.
    pub fn close(&self, alloc: Global) -> Result<Vec<Packet>, Code>
        // They are these.
        ensures ok { IfOk result (λ packets. packets.items ≡ farewells self.now.participants) }
        // The only refusal is for want of memory.
        ensures memory { IfErr result (λ e. e ≡ Code.Memory) }
    {
        self.participants.farewells(alloc)
    }
}
