//! What holds of every announcement. The functions do nothing.
//!
//! RTPS 2.5, 8.5 (SPDP, SEDP) and 9.6 (ParameterId values).

ghost use Rattle.std.specs.Prelude.{◌≡◌, ℕ, ◌<◌, ◌^◌, List, length};
ghost use Rattle.dds_base.specs.declared.guid.Guid.{Guid};
ghost use Rattle.dds_base.specs.declared.guid.GuidPrefix.{GuidPrefix};
ghost use Rattle.rtps_announcements.specs.Endpoints.{ReadsEndpoint};
ghost use Rattle.rtps_announcements.specs.Guids.{ReadsGuid};
ghost use Rattle.rtps_announcements.specs.Participants.{ReadsParticipant};
ghost use Rattle.rtps_announcements.specs.WrittenEndpoints.{text_of_endpoint, IsWritableEndpoint};
ghost use Rattle.rtps_announcements.specs.WrittenParticipants.{text_of_participant, text_of_guid, IsWritableParticipant, IsGuid};
ghost use Rattle.rtps_announcements.specs.declared.endpoint.Endpoint.{Endpoint};
ghost use Rattle.rtps_announcements.specs.declared.participant.Participant.{Participant};
ghost use Rattle.rtps_announcements.specs.declared.qos.EndpointKind.{EndpointKind};

/// What is written is read as what was written, and so as nothing else.
#[tactic(auto, using(crate::proofs::EndpointAgain::endpoint_again, crate::proofs::ParticipantAgain::participant_again, crate::proofs::ParticipantAgain::guid_again))]
pub fn what_was_written_is_read()
    // An endpoint that can be written.
    ensures endpoint { (kind : EndpointKind) (e : Endpoint) → IsWritableEndpoint kind e
        → ReadsEndpoint e.guid.prefix kind (text_of_endpoint kind e) e }
    // A participant that can be written, in its domain.
    ensures participant { (domain : ℕ) (p : Participant) → domain < 2 ^ 32
        → IsWritableParticipant p
        → ReadsParticipant p.prefix domain (text_of_participant domain p) p }
    // Who leaves.
    ensures guid { (guid : Guid) → IsGuid guid → ReadsGuid guid.prefix (text_of_guid guid) guid }
{}

/// All that is read can be written: whatever a product announces has a written form here too.
pub fn what_is_read_can_be_written()
    // An endpoint of a sender.
    ensures endpoint { (source : GuidPrefix) (kind : EndpointKind) (bytes : List ℕ) (e : Endpoint)
        → length source.0 ≡ 12 → ReadsEndpoint source kind bytes e → IsWritableEndpoint kind e }
    // A participant.
    ensures participant { (source : GuidPrefix) (domain : ℕ) (bytes : List ℕ) (p : Participant)
        → length source.0 ≡ 12 → ReadsParticipant source domain bytes p
        → IsWritableParticipant p }
{}
