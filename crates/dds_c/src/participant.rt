//! How a participant is opened and closed.
//!
//! DDS 1.4, 2.2.2.2.1 (DomainParticipant), 2.2.3 (supported QoS); RTPS 2.5, 8.5 (discovery).

ghost use Rattle.std.specs.Prelude.{◌≡◌, ◌≢◌, None, IfOk, IfErr, IsSomeAnd};
ghost use Rattle.dds_c.specs.Announcing.{IsOpening, Refuses, RefusesBy, code_of};

use crate::adapting::FlatKeyField;
use crate::member::Member;
use crate::membership::Membership;
use crate::session::refusal;
use crate::settings::{FlatEndpoint, FlatLocator, FlatSettings, our_ends, settings_of};
use dds_base::Code;
use dds_domain::{Participant, Unopened};
use std::alloc::Global;

/// Of how many endpoints of another participant is known.
const MOST_ENDPOINTS: usize = 128;

/// The code of what was not opened.
fn code_of(cause: Unopened) -> Code
    ensures { result ≡ code_of cause }
{
    match cause {
        Unopened::Settings => Code::BadParameter,
        Unopened::Endpoints(code) => code,
        Unopened::Memory => Code::Memory,
    }
}

/// A participant at its opening, in a box.
fn opened(
    alloc: Global,
    settings: &FlatSettings,
    told: &[FlatLocator],
    ends: &[FlatEndpoint],
    fields: &[FlatKeyField],
) -> Result<Box<Member>, Code>
    ensures opening { IfOk result (λ member.
        IsOpening settings.now told.now ends.now fields.now member.value) }
    ensures refused { IfErr result (Refuses settings.now told.now ends.now fields.now) }
{
    let ours = our_ends(alloc, &settings.prefix, ends, fields)?;
    let said = settings_of(alloc, settings, told)?;
    match Participant::open(alloc, said, MOST_ENDPOINTS, ours) {
        Ok(participant) => Ok(Box::new(alloc, Member::new(alloc, participant))?),
        Err(cause) => Err(code_of(cause)),
    }
}

/// Opens a participant of a domain; what was open before is closed, without a word to others. Its writers are numbered from
/// 1 in the order in which they stand among the endpoints, and so are its readers: at most 16 of each. Those of the array
/// `told` are told of it, and whoever announces itself to it.
///
/// # Errors
///
/// BAD_PARAMETER where what it announces of itself has no written form, where an endpoint is none, or its topic or type has
/// no name, or its fields are none, or there are too many; MEMORY. Nothing changes then: what was open stays open.
///
/// DDS 1.4, 2.2.2.2.1 (DomainParticipant), 2.2.3 (supported QoS); RTPS 2.5, 8.5 (discovery).
#[unsafe(no_mangle)]
pub extern "C" fn cw_participant_open(
    alloc: Global,
    participant: &mut Membership,
    settings: &FlatSettings,
    told: &[FlatLocator],
    ends: &[FlatEndpoint],
    fields: &[FlatKeyField],
) -> u8
    // What is open then announces these settings and endpoints, knows nobody, and its peer is at its opening.
    ensures open { result ≡ 0 → IsSomeAnd participant.new.held.member
        (IsOpening settings.now told.now ends.now fields.now) }
    // A refusal is for one of these causes.
    ensures refused { result ≢ 0
        → RefusesBy settings.now told.now ends.now fields.now result }
    // A refusal changes nothing.
    ensures unchanged { result ≢ 0 → participant.new.held.member ≡ participant.old.held.member }
{
    match opened(alloc, settings, told, ends, fields) {
        Ok(member) => {
            drop(participant.take(alloc));
            participant.put(member);
            Code::Ok.number()
        }
        Err(code) => refusal(code),
    }
}

/// Frees what the participant holds, and tells nobody. Where none is open it does nothing.
#[unsafe(no_mangle)]
pub extern "C" fn cw_participant_close(alloc: Global, participant: &mut Membership)
    // None is open.
    ensures closed { participant.new.held.member ≡ None }
{
    participant.take(alloc);
}
