//! An endpoint of another participant.
//!
//! RTPS 2.5, 8.5.4 (SEDP).

ghost use Rattle.std.specs.Prelude.{◌≡◌, true};
ghost use Rattle.std.specs.Option.{option_copied};
ghost use Rattle.rtps_matching.specs.Matches.{is_far, is_matched, is_of, was_matched};
ghost use Rattle.rtps_matching.specs.Steps.{is_again, is_asleep, turned, with_awake};

use crate::end::End;
use dds_base::{Guid, GuidPrefix, Octets};
use rtps_announcements::EndpointKind;

/// An endpoint that another participant announced.
#[derive(Drop)]
pub struct Far {
    /// Its name.
    pub guid: Guid,
    /// Whether its participant is taken to be there.
    pub is_awake: bool,
    /// Whether the announcement was of a writer or of a reader.
    pub kind: EndpointKind,
    /// The octets of its newest announcement.
    pub payload: Octets,
    /// What they say; `None` where they can't be read.
    pub end: Option<End>,
}

impl Far {
    /// Whether it has this name.
    pub(crate) fn is_named(&self, guid: &Guid) -> bool
        ensures { result ≡ is_far guid.now self.now }
    {
        self.guid == *guid
    }

    /// Whether it is of this participant.
    pub(crate) fn is_of(&self, prefix: &GuidPrefix) -> bool
        ensures { result ≡ is_of prefix.now self.now }
    {
        self.guid.prefix == *prefix
    }

    /// Whether it announced these octets last, and is taken to be there.
    pub(crate) fn says(&self, guid: &Guid, payload: &[u8]) -> bool
        ensures { result ≡ is_again guid.now payload.now self.now }
    {
        self.is_named(guid) && self.is_awake && self.payload.as_slice() == payload
    }

    /// Whether it is of this participant, and sleeps.
    pub(crate) fn is_asleep(&self, prefix: &GuidPrefix) -> bool
        ensures { result ≡ is_asleep prefix.now self.now }
    {
        self.is_of(prefix) && !self.is_awake
    }

    /// Its participant is there or not, if it is this one.
    pub(crate) fn turn(&mut self, prefix: &GuidPrefix, awake: bool)
        ensures { self.new ≡ turned prefix.now awake self.old }
    {
        if self.is_of(prefix) {
            self.is_awake = awake;
        }
    }

    /// Whether one of our endpoints is matched with it.
    pub(crate) fn is_matched(&self, own: &End) -> bool
        ensures { result ≡ is_matched own.now self.now }
    {
        match &self.end {
            Some(end) => self.is_awake && own.fits(end),
            None => false,
        }
    }

    /// Whether one of our endpoints is matched with it where its participant is there.
    pub(crate) fn would_match(&self, own: &End) -> bool
        ensures { result ≡ is_matched own.now (with_awake true self.now) }
    {
        match &self.end {
            Some(end) => own.fits(end),
            None => false,
        }
    }
}

/// Whether one of our endpoints was matched with a far one, if that was known.
pub fn was_matched(own: &End, far: Option<&Far>) -> bool
    ensures { result ≡ was_matched own.now (option_copied far.entry) }
{
    match far {
        Some(far) => far.is_matched(own),
        None => false,
    }
}
