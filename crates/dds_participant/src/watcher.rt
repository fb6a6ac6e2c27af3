//! What is printed of the network, by what discovery knows and what came of events.
//!
//! `specs/Sight.antt` and `specs/Watching.antt` say it.

ghost use Rattle.std.specs.Prelude.{◌≡◌, ◌++◌, [], true, IfOk, OnOk};
ghost use Rattle.std.specs.List.{flat_map, list_any};
ghost use Rattle.rtps_discovery.specs.Rows.{has_row, is_there};
ghost use Rattle.rtps_matching.specs.Matches.{is_far};
ghost use Rattle.discovery_script.specs.Misfits.{same_misfit};
ghost use Rattle.discovery_script.specs.Told.{misfit_line, told_line};
ghost use Rattle.dds_participant.specs.declared.watcher.Seen.{Seen};
ghost use Rattle.dds_participant.specs.Sight.{are_seen, has_new, is_new, is_same, is_withdrawn, misfits_of, new_misfits, seen_as, seen_of, withdrawn_lines};
ghost use Rattle.dds_participant.specs.Watching.{Lists, Looks, Presents, PresentsAll, Shows};

use dds_base::{Guid, GuidPrefix, Octets};
use dds_domain::{Participant, Turn};
use dds_script::Fault;
use discovery_script::{
    print_end, print_far, print_misfit, print_presence, print_row, print_told, print_withdrawn,
};
use rtps_discovery::{Row, Told as Presence};
use rtps_matching::{End, Far, Misfitting, Told};
use std::alloc::{AllocError, Global};

/// An endpoint of another participant, as it was printed last.
#[derive(Drop)]
struct Seen {
    guid: Guid,
    payload: Octets,
}

impl Seen {
    fn of(alloc: Global, far: &Far) -> Result<Seen, AllocError>
        ensures same { IfOk result (λ s. s ≡ seen_as far.now) }
    {
        let mut payload = Vec::new(alloc);
        payload.extend_from_slice(far.payload.as_slice())?;
        Ok(Seen {
            guid: far.guid,
            payload: Octets::from_vec(payload),
        })
    }

    /// Whether it has this name, and says the same.
    fn is(&self, far: &Far) -> bool
        ensures same { result ≡ is_same self.now far.now }
    {
        self.guid == far.guid && self.payload.as_slice() == far.payload.as_slice()
    }
}

fn seen_of(alloc: Global, far: &[Far]) -> Result<Vec<Seen>, AllocError>
    ensures all { IfOk result (λ seen. seen.items ≡ seen_of far.now) }
{
    let mut all = Vec::new(alloc);
    for one in far {
        if one.is_awake {
            all.push(Seen::of(alloc, one)?)?;
        }
    }
    Ok(all)
}

/// Whether those that are there are these, and say the same.
fn are_seen(seen: &[Seen], far: &[Far]) -> bool
    ensures seen { result ≡ are_seen seen.now far.now }
{
    let mut count = 0;
    for one in far {
        if one.is_awake {
            match seen.get(count) {
                Some(before) if before.is(one) => count += 1,
                _ => return false,
            }
        }
    }
    count == seen.len()
}

/// Whether it was there, and says the same.
fn was_seen(seen: &[Seen], far: &Far) -> bool
    ensures seen { result ≡ list_any (λ (s : Seen). is_same s far.now) seen.now }
{
    seen.iter().any(|before| before.is(far))
}

/// Whether it is there, and was not, or says something else than before.
fn is_new(seen: &[Seen], far: &Far) -> bool
    ensures new { result ≡ is_new seen.now far.now }
{
    far.is_awake && !was_seen(seen, far)
}

fn is_there(rows: &[Row], prefix: &GuidPrefix) -> bool
    ensures there { result ≡ is_there prefix.now rows.now }
{
    rows.iter()
        .any(|row| row.participant.prefix == *prefix && row.is_awake)
}

fn is_named(far: &[Far], guid: &Guid) -> bool
    ensures named { result ≡ list_any (is_far guid.now) far.now }
{
    far.iter().any(|one| one.guid == *guid)
}

/// Whether two misfits are one.
fn is_misfit(one: &Misfitting, other: &Misfitting) -> bool
    ensures same { result ≡ same_misfit one.now other.now }
{
    one.own == other.own && one.far == other.far && one.policy == other.policy
}

fn was_misfit(before: &[Misfitting], one: &Misfitting) -> bool
    ensures known { result ≡ list_any (same_misfit one.now) before.now }
{
    before.iter().any(|other| is_misfit(one, other))
}

/// Lists an endpoint of another participant: behind what was printed, whatever it prints.
fn list_far(alloc: Global, far: &Far, lines: &mut Vec<u8>) -> Result<(), Fault>
    ensures front { OnOk result (Lists true lines.old.items lines.new.items) }
{
    let mut listed = Vec::new(alloc);
    print_far(alloc, "", far, &mut listed)?;
    lines.extend_from_slice(&listed)?;
    Ok(())
}

/// Lists a participant in the same way.
fn list_row(alloc: Global, row: &Row, lines: &mut Vec<u8>) -> Result<(), Fault>
    ensures front { OnOk result (Lists true lines.old.items lines.new.items) }
{
    let mut listed = Vec::new(alloc);
    print_row(alloc, row, &mut listed)?;
    lines.extend_from_slice(&listed)?;
    Ok(())
}

/// Lists an endpoint of ours in the same way.
fn list_own(alloc: Global, end: &End, lines: &mut Vec<u8>) -> Result<(), Fault>
    ensures front { OnOk result (Lists true lines.old.items lines.new.items) }
{
    let mut listed = Vec::new(alloc);
    print_end(alloc, "own ", end, &mut listed)?;
    lines.extend_from_slice(&listed)?;
    Ok(())
}

/// Lists those that are there and were not, or say something else than before.
fn list_new(alloc: Global, seen: &[Seen], far: &[Far], lines: &mut Vec<u8>) -> Result<(), Fault>
    ensures front { OnOk result
        (Lists (has_new seen.now far.now) lines.old.items lines.new.items) }
{
    for one in far {
        if is_new(seen, one) {
            list_far(alloc, one, lines)?;
        }
    }
    Ok(())
}

/// Lists a participant, where it is known.
fn list_rows(
    alloc: Global,
    rows: &[Row],
    prefix: &GuidPrefix,
    lines: &mut Vec<u8>,
) -> Result<(), Fault>
    ensures front { OnOk result
        (Lists (has_row prefix.now rows.now) lines.old.items lines.new.items) }
{
    for row in rows {
        if row.participant.prefix == *prefix {
            list_row(alloc, row, lines)?;
        }
    }
    Ok(())
}

/// Prints misfits that were none.
fn print_misfits(
    alloc: Global,
    before: &[Misfitting],
    misfits: &[Misfitting],
    lines: &mut Vec<u8>,
) -> Result<(), Fault>
    ensures printed { OnOk result (lines.new.items
        ≡ lines.old.items ++ flat_map misfit_line (new_misfits before.now misfits.now)) }
{
    for one in misfits {
        if !was_misfit(before, one) {
            print_misfit(alloc, one, lines)?;
        }
    }
    Ok(())
}

/// Prints what changed of who is matched.
fn print_all_told(alloc: Global, told: &[Told], lines: &mut Vec<u8>) -> Result<(), Fault>
    ensures printed { OnOk result
        (lines.new.items ≡ lines.old.items ++ flat_map told_line told.now) }
{
    for one in told {
        print_told(alloc, *one, lines)?;
    }
    Ok(())
}

/// What was printed of a participant.
#[derive(Drop)]
pub struct Watcher {
    alloc: Global,
    seen: Vec<Seen>,
    misfits: Vec<Misfitting>,
}

/// Prints who is there now, with what is known of it, or is no more.
fn print_one(alloc: Global, rows: &[Row], told: Presence, lines: &mut Vec<u8>) -> Result<(), Fault>
    ensures printed { OnOk result (Presents told rows.now lines.old.items lines.new.items) }
{
    print_presence(alloc, told, lines)?;
    match told {
        Presence::Appeared(prefix) => list_rows(alloc, rows, &prefix, lines),
        Presence::Gone(_) => Ok(()),
    }
}

/// Prints this of each of these.
fn print_presences(
    alloc: Global,
    rows: &[Row],
    told: &[Presence],
    lines: &mut Vec<u8>,
) -> Result<(), Fault>
    ensures printed { OnOk result
        (PresentsAll told.now rows.now lines.old.items lines.new.items) }
{
    for one in told {
        print_one(alloc, rows, *one, lines)?;
    }
    Ok(())
}

/// Whether it is known no more, though its participant is there.
fn is_withdrawn(participant: &Participant, before: &Seen) -> bool
    ensures withdrawn { result ≡ is_withdrawn participant.now.discovery before.now }
{
    !is_named(participant.far(), &before.guid) && is_there(participant.rows(), &before.guid.prefix)
}

/// Prints which endpoints are known no more, though their participants are there.
fn print_all_withdrawn(
    alloc: Global,
    participant: &Participant,
    seen: &[Seen],
    lines: &mut Vec<u8>,
) -> Result<(), Fault>
    ensures printed { OnOk result (lines.new.items
        ≡ lines.old.items ++ withdrawn_lines participant.now.discovery seen.now) }
{
    for before in seen {
        if is_withdrawn(participant, before) {
            print_withdrawn(alloc, &before.guid, lines)?;
        }
    }
    Ok(())
}

/// Lists our endpoints.
pub fn list_all(alloc: Global, ends: &[End], lines: &mut Vec<u8>) -> Result<(), Fault>
    // What was printed stays in front.
    ensures front { OnOk result (Lists true lines.old.items lines.new.items) }
{
    for end in ends {
        list_own(alloc, end, lines)?;
    }
    Ok(())
}

impl Watcher {
    /// Nothing yet.
    pub fn new(alloc: Global) -> Watcher
        ensures seen { result.seen.items ≡ [] }
        ensures misfits { result.misfits.items ≡ [] }
    {
        Watcher {
            alloc,
            seen: Vec::new(alloc),
            misfits: Vec::new(alloc),
        }
    }

    /// Prints which endpoints of ours do not fit that did, or were not there.
    fn look_at_misfits(
        &mut self,
        participant: &Participant,
        lines: &mut Vec<u8>,
    ) -> Result<(), Fault>
        ensures printed { OnOk result (lines.new.items ≡ lines.old.items
            ++ flat_map misfit_line
            (new_misfits self.old.misfits.items (misfits_of participant.now.discovery))) }
        ensures kept { OnOk result (self.new.misfits.items ≡ misfits_of participant.now.discovery) }
        ensures seen { self.new.seen ≡ self.old.seen }
    {
        let Ok(misfits) = participant.misfits() else {
            return Err(Fault::Memory);
        };
        print_misfits(self.alloc, &self.misfits, &misfits, lines)?;
        self.misfits = misfits;
        Ok(())
    }

    /// Prints what changed of endpoints since it was looked last.
    fn look(&mut self, participant: &Participant, lines: &mut Vec<u8>) -> Result<(), Fault>
        ensures printed { OnOk result
            (Looks participant.now.discovery self.old lines.old.items self.new lines.new.items) }
    {
        if are_seen(&self.seen, participant.far()) {
            return Ok(());
        }
        list_new(self.alloc, &self.seen, participant.far(), lines)?;
        print_all_withdrawn(self.alloc, participant, &self.seen, lines)?;
        self.seen = seen_of(self.alloc, participant.far())?;
        self.look_at_misfits(participant, lines)
    }

    /// Prints what came of events: who is there or no more, what changed of endpoints, and who is matched.
    pub fn show(
        &mut self,
        participant: &Participant,
        turn: &Turn,
        lines: &mut Vec<u8>,
    ) -> Result<(), Fault>
        // Those that are new are listed, and those that are withdrawn and misfits that were none are printed.
        ensures shown { OnOk result
            (Shows participant.now.discovery turn.now self.old lines.old.items self.new lines.new.items) }
    {
        print_presences(self.alloc, participant.rows(), &turn.presences, lines)?;
        self.look(participant, lines)?;
        print_all_told(self.alloc, &turn.told, lines)
    }
}
