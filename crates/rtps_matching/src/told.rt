//! What changed between two tables.
//!
//! RTPS 2.5, 8.5.4 (SEDP).

ghost use Rattle.std.specs.Prelude.{◌≡◌};
ghost use Rattle.rtps_matching.specs.Matches.{change};

use dds_base::Guid;
use dds_policies::Misfit;

/// What changed between one of our endpoints, which is named first, and one of another participant.
///
/// DDS 1.4, 2.2.4.1 (PUBLICATION_MATCHED, SUBSCRIPTION_MATCHED).
#[derive(Clone, Copy)]
pub enum Told {
    /// They are matched, and were not.
    Matched(Guid, Guid),
    /// They were matched, and are not.
    Unmatched(Guid, Guid),
    /// They were matched, and are; what the other one announces is another, as its strength may be.
    Changed(Guid, Guid),
}

/// Two endpoints, one of ours and one of another participant, that are of one topic, type and partition and do not fit.
///
/// DDS 1.4, 2.2.4.1 (OFFERED_INCOMPATIBLE_QOS, REQUESTED_INCOMPATIBLE_QOS).
#[derive(Clone, Copy)]
pub struct Misfitting {
    /// The one of ours.
    pub own: Guid,
    /// The other one.
    pub far: Guid,
    /// The first policy by which they do not fit.
    pub policy: Misfit,
}

/// What is told of two that were matched or not, and are or not.
pub fn change(own: Guid, far: Guid, was_matched: bool, is_matched: bool) -> Option<Told>
    ensures { result ≡ change own far was_matched is_matched }
{
    match (was_matched, is_matched) {
        (false, false) => None,
        (false, true) => Some(Told::Matched(own, far)),
        (true, false) => Some(Told::Unmatched(own, far)),
        (true, true) => Some(Told::Changed(own, far)),
    }
}
