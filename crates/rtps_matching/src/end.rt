//! A writer or a reader, as it was announced.
//!
//! DDS 1.4, 2.2.3 (supported QoS).

ghost use Rattle.std.specs.Prelude.{◌≡◌};
ghost use Rattle.rtps_matching.specs.Matches.{fit_together, is_named};
ghost use Rattle.rtps_matching.specs.Misfits.{misfit_together};

use crate::owned::Owned;
use dds_base::Guid;
use dds_policies::Misfit;
use rtps_announcements::EndpointKind;

/// A writer or a reader.
///
/// RTPS 2.5, 8.5.4 (SEDP: publications and subscriptions).
#[derive(Drop)]
pub struct End {
    /// Which of them it is.
    pub kind: EndpointKind,
    /// What it announces.
    pub endpoint: Owned,
}

impl End {
    /// Whether it has this name.
    pub(crate) fn is_named(&self, guid: &Guid) -> bool
        ensures { result ≡ is_named guid.now self.now }
    {
        self.endpoint.guid() == *guid
    }

    /// Whether both are to be matched: one is a writer and the other a reader, and these fit.
    pub(crate) fn fits(&self, other: &End) -> bool
        ensures { result ≡ fit_together self.now other.now }
    {
        match (self.kind, other.kind) {
            (EndpointKind::Writer, EndpointKind::Reader) => self.endpoint.fits(&other.endpoint),
            (EndpointKind::Reader, EndpointKind::Writer) => other.endpoint.fits(&self.endpoint),
            _ => false,
        }
    }

    /// The first policy by which both do not fit, where they meet.
    pub(crate) fn misfit(&self, other: &End) -> Option<Misfit>
        ensures { result ≡ misfit_together self.now other.now }
    {
        match (self.kind, other.kind) {
            (EndpointKind::Writer, EndpointKind::Reader) => self.endpoint.misfit(&other.endpoint),
            (EndpointKind::Reader, EndpointKind::Writer) => other.endpoint.misfit(&self.endpoint),
            _ => None,
        }
    }
}
