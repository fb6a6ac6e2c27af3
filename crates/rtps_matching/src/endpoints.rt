//! The table of endpoints.
//!
//! `specs/Steps.antt` says it.
//!
//! RTPS 2.5, 8.5.4 (SEDP).

ghost use Rattle.std.specs.Prelude.{◌≡◌, ◌⊎◌, ◌++◌, ◌<◌, [], true, false, not, Some, List, Option, flat_map, filter, length, map, nat_le, IfOk, IfErr, IfSome, OnOk, OnErr};
ghost use Rattle.std.specs.List.{count_by, list_any, position};
ghost use Rattle.std.specs.Option.{option_copied, option_to_list};
ghost use Rattle.rtps_announcements.specs.declared.endpoint.Endpoint.{Endpoint};
ghost use Rattle.rtps_matching.specs.declared.far.Far.{Far as FarOf};
ghost use Rattle.rtps_matching.specs.Misfits.{misfits};
ghost use Rattle.rtps_matching.specs.Matches.{Announces, announced, changes, is_far, is_named, is_of};
ghost use Rattle.rtps_matching.specs.Steps.{Announced, Hears, Table, has_far, has_own, is_again, is_asleep, is_full, known_as, meetings_of, meetings_with, partings_of, partings_with, placed, says_again, told_of_own, told_of_waking, told_without, told_without_own, turned, turned_all, with_far, with_own, without, without_own};

use crate::end::End;
use crate::far::{Far, was_matched};
use crate::misfits::misfits_of;
use crate::owned::Owned;
use crate::told::{Misfitting, Told, change};
use dds_base::{Code, Guid, GuidPrefix, Octets};
use rtps_announcements::{EndpointKind, read_endpoint};
use std::alloc::Global;
use std::marker::Model;

/// Our own endpoints and those that other participants announced: a machine without sockets and without a clock. What an
/// event answers is what it changed of who is matched.
///
/// RTPS 2.5, 8.5.4 (SEDP).
#[derive(Drop)]
pub struct Endpoints {
    own: Vec<End>,
    far: Vec<Far>,
    most: usize,
}

impl Model for Endpoints {
    ghost use Rattle.rtps_matching.specs.Steps.{Table};

    ghost Value = { Table };

    ghost view = { λ t. record { own = t.own.items; far = t.far.items; most = t.most } };
}

/// Appends what is told, if anything is.
fn put(told: &mut Vec<Told>, change: Option<Told>) -> Result<(), Code>
    ensures ok { OnOk result (told.new.items ≡ told.old.items ++ option_to_list change) }
    ensures memory { IfErr result (λ e. e ≡ Code.Memory) }
{
    if let Some(change) = change {
        told.push(change)?;
    }
    Ok(())
}

/// Appends what changes where a far endpoint was this, if it was known, and is that.
fn put_changes(told: &mut Vec<Told>, own: &[End], old: Option<&Far>, new: &Far) -> Result<(), Code>
    ensures ok { OnOk result (told.new.items
        ≡ told.old.items ++ changes own.now (option_copied old.entry) new.now) }
    ensures memory { IfErr result (λ e. e ≡ Code.Memory) }
{
    for end in own {
        let was = was_matched(end, old);
        let is = new.is_matched(end);
        put(told, change(end.endpoint.guid(), new.guid, was, is))?;
    }
    Ok(())
}

/// Appends whom a far endpoint parts from.
fn put_partings_with(told: &mut Vec<Told>, own: &[End], far: &Far) -> Result<(), Code>
    ensures ok { OnOk result (told.new.items ≡ told.old.items ++ partings_with own.now far.now) }
    ensures memory { IfErr result (λ e. e ≡ Code.Memory) }
{
    for end in own {
        put(
            told,
            change(end.endpoint.guid(), far.guid, far.is_matched(end), false),
        )?;
    }
    Ok(())
}

/// Appends whom an own endpoint parts from.
fn put_partings_of(told: &mut Vec<Told>, far: &[Far], own: &End) -> Result<(), Code>
    ensures ok { OnOk result (told.new.items ≡ told.old.items ++ partings_of far.now own.now) }
    ensures memory { IfErr result (λ e. e ≡ Code.Memory) }
{
    for other in far {
        put(
            told,
            change(
                own.endpoint.guid(),
                other.guid,
                other.is_matched(own),
                false,
            ),
        )?;
    }
    Ok(())
}

/// What an endpoint announces, if its announcement can be read: in its own name.
fn read(
    alloc: Global,
    guid: &Guid,
    kind: EndpointKind,
    payload: &[u8],
) -> Result<Option<Owned>, Code>
    ensures reads { IfOk result (Announces guid.now kind payload.now) }
    ensures memory { IfErr result (λ e. e ≡ Code.Memory) }
{
    let Some(endpoint) = read_endpoint(guid.prefix, kind, payload) else {
        return Ok(None);
    };
    if endpoint.guid != *guid {
        return Ok(None);
    }
    Ok(Some(Owned::of(alloc, &endpoint)?))
}

/// The far endpoint that announced these octets.
fn announced(alloc: Global, guid: Guid, kind: EndpointKind, payload: &[u8]) -> Result<Far, Code>
    ensures announced { IfOk result (λ f. (said : Option Endpoint)
        × Announces guid kind payload.now said × (f ≡ announced guid kind payload.now said)) }
    ensures memory { IfErr result (λ e. e ≡ Code.Memory) }
{
    let said = read(alloc, &guid, kind, payload)?;
    let mut octets = Vec::new(alloc);
    octets.extend_from_slice(payload)?;
    Ok(Far {
        guid,
        is_awake: true,
        kind,
        payload: Octets::from_vec(octets),
        end: said.map(|endpoint| End { kind, endpoint }),
    })
}

/// What is known of the far endpoint of a name.
fn known<'a>(far: &'a [Far], guid: &Guid) -> Option<&'a Far>
    ensures { option_copied result ≡ known_as guid.now far.now }
{
    far.iter().find(|other| other.is_named(guid))
}

/// What changes where a far endpoint is this now.
fn changes_by(alloc: Global, own: &[End], far: &[Far], new: &Far) -> Result<Vec<Told>, Code>
    ensures ok { IfOk result (λ told. told.items
        ≡ changes own.now (known_as new.now.guid far.now) new.now) }
    ensures memory { IfErr result (λ e. e ≡ Code.Memory) }
{
    let mut told = Vec::new(alloc);
    put_changes(&mut told, own, known(far, &new.guid), new)?;
    Ok(told)
}

/// Whether one of our own has this name.
fn has_named(own: &[End], guid: &Guid) -> bool
    ensures { result ≡ list_any (is_named guid.now) own.now }
{
    own.iter().any(|end| end.is_named(guid))
}

/// Whether a far endpoint has this name.
fn has_far(far: &[Far], guid: &Guid) -> bool
    ensures { result ≡ list_any (is_far guid.now) far.now }
{
    far.iter().any(|other| other.is_named(guid))
}

/// Whether a far endpoint announced these octets last.
fn says(far: &[Far], guid: &Guid, payload: &[u8]) -> bool
    ensures { result ≡ list_any (is_again guid.now payload.now) far.now }
{
    far.iter().any(|other| other.says(guid, payload))
}

/// Whether of a participant as many are known as this.
fn is_full(far: &[Far], prefix: &GuidPrefix, most: usize) -> bool
    ensures { result ≡ nat_le most (count_by (is_of prefix.now) far.now) }
{
    most <= far.iter().filter(|other| other.is_of(prefix)).count()
}

/// The place of the far endpoint of a name.
fn place_of(far: &[Far], guid: &Guid) -> Option<usize>
    ensures place { result ≡ position (is_far guid.now) far.now }
    ensures within { IfSome result (λ i. i < length far.now) }
{
    far.iter().position(|other| other.is_named(guid))
}

/// The far endpoint that announced this stands where it stood before, or last.
fn place(far: &mut Vec<Far>, new: Far) -> Result<(), Code>
    ensures ok { OnOk result (far.new.items ≡ placed new far.old.items) }
    ensures err { OnErr result (far.new.items ≡ far.old.items) }
    ensures memory { IfErr result (λ e. e ≡ Code.Memory) }
{
    match place_of(far, &new.guid) {
        Some(at) => far[at] = new,
        None => far.push(new)?,
    }
    Ok(())
}

/// The own endpoint of a name is taken out.
fn take_own(own: &mut Vec<End>, guid: &Guid)
    ensures { own.new.items ≡ filter (λ e. not (is_named guid.now e)) own.old.items }
{
    own.retain(|end| !end.is_named(guid));
}

/// The far endpoint of a name is taken out.
fn take_far(far: &mut Vec<Far>, guid: &Guid)
    ensures { far.new.items ≡ filter (λ f. not (is_far guid.now f)) far.old.items }
{
    far.retain(|other| !other.is_named(guid));
}

/// The far endpoints of a participant are taken out.
fn take_all(far: &mut Vec<Far>, prefix: &GuidPrefix)
    ensures { far.new.items ≡ filter (λ f. not (is_of prefix.now f)) far.old.items }
{
    far.retain(|other| !other.is_of(prefix));
}

/// Appends whom a far endpoint that sleeps is matched with once it wakes.
fn put_meetings_with(told: &mut Vec<Told>, own: &[End], far: &Far) -> Result<(), Code>
    ensures ok { OnOk result (told.new.items ≡ told.old.items ++ meetings_with own.now far.now) }
    ensures memory { IfErr result (λ e. e ≡ Code.Memory) }
{
    for end in own {
        let was = far.is_matched(end);
        let is = far.would_match(end);
        put(told, change(end.endpoint.guid(), far.guid, was, is))?;
    }
    Ok(())
}

/// Whom the far endpoints of a participant part from.
fn partings_of_participant(
    alloc: Global,
    own: &[End],
    far: &[Far],
    prefix: &GuidPrefix,
) -> Result<Vec<Told>, Code>
    ensures ok { IfOk result (λ told. told.items
        ≡ flat_map (partings_with own.now) (filter (is_of prefix.now) far.now)) }
    ensures memory { IfErr result (λ e. e ≡ Code.Memory) }
{
    let mut told = Vec::new(alloc);
    for other in far {
        if other.is_of(prefix) {
            put_partings_with(&mut told, own, other)?;
        }
    }
    Ok(told)
}

/// Whom a far endpoint of this name parts from.
fn partings_of_named(
    alloc: Global,
    own: &[End],
    far: &[Far],
    guid: &Guid,
) -> Result<Vec<Told>, Code>
    ensures ok { IfOk result (λ told. told.items
        ≡ flat_map (partings_with own.now) (filter (is_far guid.now) far.now)) }
    ensures memory { IfErr result (λ e. e ≡ Code.Memory) }
{
    let mut told = Vec::new(alloc);
    for other in far {
        if other.is_named(guid) {
            put_partings_with(&mut told, own, other)?;
        }
    }
    Ok(told)
}

/// Whom our own endpoint of this name parts from.
fn partings_of_own(alloc: Global, own: &[End], far: &[Far], guid: &Guid) -> Result<Vec<Told>, Code>
    ensures ok { IfOk result (λ told. told.items
        ≡ flat_map (partings_of far.now) (filter (is_named guid.now) own.now)) }
    ensures memory { IfErr result (λ e. e ≡ Code.Memory) }
{
    let mut told = Vec::new(alloc);
    for end in own {
        if end.is_named(guid) {
            put_partings_of(&mut told, far, end)?;
        }
    }
    Ok(told)
}

/// Whom a participant's far endpoints that sleep are matched with once they wake.
fn meetings_of_participant(
    alloc: Global,
    own: &[End],
    far: &[Far],
    prefix: &GuidPrefix,
) -> Result<Vec<Told>, Code>
    ensures ok { IfOk result (λ told. told.items
        ≡ flat_map (meetings_with own.now) (filter (is_asleep prefix.now) far.now)) }
    ensures memory { IfErr result (λ e. e ≡ Code.Memory) }
{
    let mut told = Vec::new(alloc);
    for other in far {
        if other.is_asleep(prefix) {
            put_meetings_with(&mut told, own, other)?;
        }
    }
    Ok(told)
}

/// Whom an own endpoint that is new is matched with.
fn meetings_of(alloc: Global, far: &[Far], own: &End) -> Result<Vec<Told>, Code>
    ensures ok { IfOk result (λ told. told.items ≡ meetings_of far.now own.now) }
    ensures memory { IfErr result (λ e. e ≡ Code.Memory) }
{
    let mut told = Vec::new(alloc);
    for other in far {
        put(
            &mut told,
            change(
                own.endpoint.guid(),
                other.guid,
                false,
                other.is_matched(own),
            ),
        )?;
    }
    Ok(told)
}

/// The far endpoints of a participant are there or not.
fn turn_all(far: &mut [Far], prefix: &GuidPrefix, awake: bool)
    ensures { far.new ≡ map (turned prefix.now awake) far.old }
{
    for other in far.iter_mut() {
        other.turn(prefix, awake);
    }
}

impl Endpoints {
    /// None; of each other participant so many are known at most.
    pub fn new(alloc: Global, most: usize) -> Endpoints
        ensures none { result ≡ record { own = []; far = []; most = most } }
    {
        Endpoints {
            own: Vec::new(alloc),
            far: Vec::new(alloc),
            most,
        }
    }

    /// Our own, in the order in which they came.
    pub fn own(&self) -> &[End]
        ensures own { result.now ≡ self.now.own }
    {
        &self.own
    }

    /// Those of others, in the order in which they came.
    pub fn far(&self) -> &[Far]
        ensures far { result.now ≡ self.now.far }
    {
        &self.far
    }

    /// Which of our own meet others that they do not fit, and the first policy by which they don't: in the order of ours,
    /// and of theirs.
    ///
    /// # Errors
    ///
    /// `Memory` where there is none.
    ///
    /// DDS 1.4, 2.2.3 (supported QoS).
    pub fn misfits(&self, alloc: Global) -> Result<Vec<Misfitting>, Code>
        // These are all, each once.
        ensures ok { IfOk result (λ found. found.items ≡ misfits self.now.own self.now.far) }
        // The only refusal is for want of memory.
        ensures memory { IfErr result (λ e. e ≡ Code.Memory) }
    {
        misfits_of(alloc, &self.own, &self.far)
    }

    /// One more of our own; whom it is matched with.
    ///
    /// # Errors
    ///
    /// `PreconditionNotMet` where there is one of its name, else `Memory` where there is none. It comes to nothing then.
    ///
    /// RTPS 2.5, 8.5.4.
    pub fn add(&mut self, alloc: Global, end: End) -> Result<Vec<Told>, Code>
        // It stands last.
        ensures ok { OnOk result (self.new ≡ with_own end self.old) }
        // So many are matched with it.
        ensures told { IfOk result (λ told. told.items ≡ told_of_own end self.old) }
        // It is refused where there is one of its name, or for want of memory.
        ensures refused { IfErr result (λ e. ((e ≡ Code.PreconditionNotMet)
            × (has_own end.endpoint.guid self.old ≡ true)) ⊎ (e ≡ Code.Memory)) }
        ensures taken { OnOk result (has_own end.endpoint.guid self.old ≡ false) }
        // A refusal leaves all as it was.
        ensures err { OnErr result (self.new ≡ self.old) }
    {
        let guid = end.endpoint.guid();
        if has_named(&self.own, &guid) {
            return Err(Code::PreconditionNotMet);
        }
        let told = meetings_of(alloc, &self.far, &end)?;
        self.own.push(end)?;
        Ok(told)
    }

    /// One of our own goes; whom it was matched with. One that there is not changes nothing.
    ///
    /// # Errors
    ///
    /// `Memory` where there is none for what is told.
    ///
    /// RTPS 2.5, 8.5.4.
    pub fn remove(&mut self, alloc: Global, guid: &Guid) -> Result<Vec<Told>, Code>
        // It is no more.
        ensures ok { OnOk result (self.new ≡ without_own guid.now self.old) }
        // So many were matched with it.
        ensures told { IfOk result (λ told. told.items ≡ told_without_own guid.now self.old) }
        // The only refusal is for want of memory.
        ensures memory { IfErr result (λ e. e ≡ Code.Memory) }
        // A refusal leaves all as it was.
        ensures err { OnErr result (self.new ≡ self.old) }
    {
        let told = partings_of_own(alloc, &self.own, &self.far, guid)?;
        take_own(&mut self.own, guid);
        Ok(told)
    }

    /// An endpoint of another participant is announced, by the payload of a DATA of SEDP: what it announced last counts,
    /// and where that can't be read it is matched with nobody. The same octets again change nothing.
    ///
    /// # Errors
    ///
    /// `OutOfResources` where as many of its participant are known as may be, and it isn't, else `Memory` where there is
    /// none.
    ///
    /// RTPS 2.5, 8.5.4.
    pub fn announce(
        &mut self,
        alloc: Global,
        guid: Guid,
        kind: EndpointKind,
        payload: &[u8],
    ) -> Result<Vec<Told>, Code>
        // It stands there as it is announced, and what changed is told.
        ensures ok { IfOk result (λ told. Hears self.old guid kind payload.now self.new told.items) }
        // It is refused where its participant has no room left, or for want of memory.
        ensures refused { IfErr result (λ e. ((e ≡ Code.OutOfResources)
            × (has_far guid self.old ≡ false) × (is_full guid.prefix self.old ≡ true)) ⊎ (e ≡ Code.Memory)) }
        // Who is not known is taken only where there is room.
        ensures few { OnOk result (has_far guid self.old ≡ false → is_full guid.prefix self.old ≡ false) }
        // A refusal leaves all as it was.
        ensures err { OnErr result (self.new ≡ self.old) }
    {
        if says(&self.far, &guid, payload) {
            return Ok(Vec::new(alloc));
        }
        if !has_far(&self.far, &guid) && is_full(&self.far, &guid.prefix, self.most) {
            return Err(Code::OutOfResources);
        }
        let new = announced(alloc, guid, kind, payload)?;
        let told = changes_by(alloc, &self.own, &self.far, &new)?;
        place(&mut self.far, new)?;
        Ok(told)
    }

    /// An endpoint of another participant is gone, as its participant says; whom it was matched with.
    ///
    /// # Errors
    ///
    /// `Memory` where there is none for what is told.
    ///
    /// RTPS 2.5, 8.5.4.
    pub fn withdraw(&mut self, alloc: Global, guid: &Guid) -> Result<Vec<Told>, Code>
        // It is no more.
        ensures ok { OnOk result (self.new ≡ without (is_far guid.now) self.old) }
        // So many were matched with it.
        ensures told { IfOk result (λ told. told.items ≡ told_without (is_far guid.now) self.old) }
        // The only refusal is for want of memory.
        ensures memory { IfErr result (λ e. e ≡ Code.Memory) }
        // A refusal leaves all as it was.
        ensures err { OnErr result (self.new ≡ self.old) }
    {
        let told = partings_of_named(alloc, &self.own, &self.far, guid)?;
        take_far(&mut self.far, guid);
        Ok(told)
    }

    /// A participant left, and all its endpoints with it; whom they were matched with.
    ///
    /// # Errors
    ///
    /// `Memory` where there is none for what is told.
    ///
    /// RTPS 2.5, 8.5.3.
    pub fn leave(&mut self, alloc: Global, prefix: &GuidPrefix) -> Result<Vec<Told>, Code>
        // They are no more.
        ensures ok { OnOk result (self.new ≡ without (is_of prefix.now) self.old) }
        // So many were matched with them.
        ensures told { IfOk result (λ told. told.items ≡ told_without (is_of prefix.now) self.old) }
        // The only refusal is for want of memory.
        ensures memory { IfErr result (λ e. e ≡ Code.Memory) }
        // A refusal leaves all as it was.
        ensures err { OnErr result (self.new ≡ self.old) }
    {
        let told = partings_of_participant(alloc, &self.own, &self.far, prefix)?;
        take_all(&mut self.far, prefix);
        Ok(told)
    }

    /// The lease of a participant ended: what its endpoints announced stays, and they are matched with nobody.
    ///
    /// # Errors
    ///
    /// `Memory` where there is none for what is told.
    ///
    /// RTPS 2.5, 8.5.3.
    pub fn sleep(&mut self, alloc: Global, prefix: &GuidPrefix) -> Result<Vec<Told>, Code>
        // They sleep.
        ensures ok { OnOk result (self.new ≡ turned_all prefix.now false self.old) }
        // So many were matched with them.
        ensures told { IfOk result (λ told. told.items ≡ told_without (is_of prefix.now) self.old) }
        // The only refusal is for want of memory.
        ensures memory { IfErr result (λ e. e ≡ Code.Memory) }
        // A refusal leaves all as it was.
        ensures err { OnErr result (self.new ≡ self.old) }
    {
        let told = partings_of_participant(alloc, &self.own, &self.far, prefix)?;
        turn_all(&mut self.far, prefix, false);
        Ok(told)
    }

    /// A participant whose lease had ended is there again: so are its endpoints, as they announced themselves last.
    ///
    /// # Errors
    ///
    /// `Memory` where there is none for what is told.
    ///
    /// RTPS 2.5, 8.5.3.
    pub fn wake(&mut self, alloc: Global, prefix: &GuidPrefix) -> Result<Vec<Told>, Code>
        // They are awake.
        ensures ok { OnOk result (self.new ≡ turned_all prefix.now true self.old) }
        // So many are matched with them that were not.
        ensures told { IfOk result (λ told. told.items ≡ told_of_waking prefix.now self.old) }
        // The only refusal is for want of memory.
        ensures memory { IfErr result (λ e. e ≡ Code.Memory) }
        // A refusal leaves all as it was.
        ensures err { OnErr result (self.new ≡ self.old) }
    {
        let told = meetings_of_participant(alloc, &self.own, &self.far, prefix)?;
        turn_all(&mut self.far, prefix, true);
        Ok(told)
    }
}
