//! What is looked at of a participant. A look changes nothing.
//!
//! DDS 1.4, 2.2.2.4 (get_matched_subscriptions, wait_for_acknowledgments), 2.2.2.5 (get_matched_publications). The interface
//! for C is this project's own.

ghost use Rattle.std.specs.Prelude.{◌≡◌, slice_get};
ghost use Rattle.dds_core.specs.Standing.{StandsFor};
ghost use Rattle.dds_protocol.specs.Peer.{Peer};
ghost use Rattle.dds_protocol.specs.Roster.{Roster};
ghost use Rattle.dds_c.specs.Looking.{BehindSaid, IsBehind, MatchedFetched, MatchedLooked, end_octets, number_of_behind};
ghost use Rattle.dds_c.specs.Partaking.{ElementWritten};

use crate::answers::NOTHING;
use crate::events::NOT_OPEN;
use crate::membership::Membership;
use crate::participant_answers::octets_of;
use crate::settings::kind_of;
use dds_base::Code;
use dds_domain::Participant;
use dds_exchange::NamedEnd;
use rtps_announcements::EndpointKind;
use std::alloc::Global;

/// How many writers a peer has at most.
const MAX_WRITERS: u8 = 16;

fn guid_out(ends: &[NamedEnd], at: usize, guid: &mut [u8; 16]) -> u8
    ensures written { ElementWritten end_octets (slice_get ends.now at) guid.old guid.new result }
{
    match ends.get(at) {
        Some(end) => *guid = octets_of(end.guid),
        None => return NOTHING.number(),
    }
    Code::Ok.number()
}

fn matched_out(
    participant: &Participant,
    kind: Option<EndpointKind>,
    number: u8,
    at: usize,
    guid: &mut [u8; 16],
) -> u8
    ensures { MatchedLooked participant.now kind number at guid.old guid.new result }
{
    let Some(kind) = kind else {
        return Code::BadParameter.number();
    };
    match participant.matched(kind, number) {
        Ok(ends) => guid_out(&ends, at, guid),
        Err(code) => code.number(),
    }
}

/// The GUID of an endpoint of another participant, by its index, of those that a writer (kind 1) or a reader (kind 2) of the
/// participant is matched with now.
///
/// # Errors
///
/// PRECONDITION_NOT_MET where no participant is open, BAD_PARAMETER where there is no such writer or reader, NO_DATA where none
/// has this index, MEMORY. Nothing is written then.
///
/// DDS 1.4, 2.2.2.4 (get_matched_subscriptions), 2.2.2.5 (get_matched_publications).
#[unsafe(no_mangle)]
pub extern "C" fn cw_participant_matched(
    alloc: Global,
    participant: &mut Membership,
    kind: u8,
    number: u8,
    at: usize,
    guid: &mut [u8; 16],
) -> u8
    // It is that of one that is matched, wherever there is one; else nothing is written.
    ensures matched { MatchedFetched participant.old.held.member kind number at guid.old guid.new result }
    // Nothing happens to the participant.
    ensures keeps { participant.new.held.member ≡ participant.old.held.member }
{
    let Some(member) = participant.take(alloc) else {
        return NOT_OPEN.number();
    };
    let code = matched_out(&member.participant, kind_of(kind), number, at, guid);
    participant.put(member);
    code
}

/// Whether a reader is behind at one of the writers of a participant.
fn is_behind(participant: &Participant) -> bool
    ensures behind { (roster : Roster) (peer : Peer)
        → StandsFor participant.now.sharing.exchange.core.filtered.peer roster peer
        → IsBehind peer.part participant.now.sharing.exchange.named result }
{
    for writer in 1..=MAX_WRITERS {
        if participant.is_behind(writer) {
            return true;
        }
    }
    false
}

fn number_of_behind(behind: bool) -> u8
    ensures { result ≡ number_of_behind behind }
{
    if behind { 1 } else { 0 }
}

/// Whether some matched reliable reader has not acknowledged all that the writers of the participant wrote: 1, else 0, as
/// where none is open.
///
/// DDS 1.4, 2.2.2.4 (wait_for_acknowledgments); RTPS 2.5, 8.4.7 (ReaderProxy: unacked_changes).
#[unsafe(no_mangle)]
pub extern "C" fn cw_participant_is_behind(alloc: Global, participant: &mut Membership) -> u8
    // It is 1 exactly if a reader that has a name is behind at one of the writers.
    ensures behind { BehindSaid participant.old.held.member result }
    // Nothing happens to the participant.
    ensures keeps { participant.new.held.member ≡ participant.old.held.member }
{
    let Some(member) = participant.take(alloc) else {
        return 0;
    };
    let behind = is_behind(&member.participant);
    participant.put(member);
    number_of_behind(behind)
}
