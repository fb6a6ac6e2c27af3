//! How a participant begins on the network.
//!
//! `specs/Openings.antt` says it.
//!
//! RTPS 2.5, 9.6.2 (UDP: well-known ports), 9.3 (GuidPrefix_t), 8.5.3 (SPDP).

ghost use Rattle.std.specs.Prelude.{◌≡◌, ◌∷◌, [], IfOk, take};
ghost use Rattle.dds_live.specs.Openings.{IsBegun, IsOpen, participant_at};

use crate::ends::{EndSettings, our_ends};
use crate::failure::Failure;
use crate::live::Live;
use crate::place::{Bound, Place};
use dds_base::GuidPrefix;
use dds_discovery::BUILTIN_ENDPOINTS;
use dds_domain::{OurEnd, Participant as Domain, Unopened};
use rtps_announcements::{Duration, Locator, Locators, Participant, VendorId};
use rtps_discovery::{Limits, Settings};
use std::alloc::Global;
use std::net::{Ipv4Addr, Net};
use std::random::RandomSource;
use std::time::Clock;

/// How long we are taken to be there: eight seconds. We announce ourselves four times in it, so who comes later finds us soon.
const LEASE: Duration = Duration {
    seconds: 8,
    fraction: 0,
};

/// How many other participants are known, in all and at one address.
const LIMITS: Limits = Limits {
    of_all: 64,
    of_one_address: 64,
};

/// How many endpoints of a participant are known.
const ENDPOINTS: usize = 128;

/// A name that nobody has: two octets of zeros, as we have no vendor id, and ten of chance.
///
/// # Errors
///
/// `NoRandom`.
///
/// RTPS 2.5, 9.3 (GuidPrefix_t).
pub fn new_prefix(chance: &impl RandomSource) -> Result<GuidPrefix, Failure>
    ensures zeros { IfOk result (λ prefix. take 2 prefix.0 ≡ 0 ∷ 0 ∷ []) }
{
    let mut prefix = [0u8; 12];
    if chance.fill_bytes(&mut prefix[2..]).is_err() {
        return Err(Failure::NoRandom);
    }
    Ok(GuidPrefix(prefix))
}

fn one_locator(locator: Locator) -> Locators
    ensures { result ≡ locator ∷ [] }
{
    let mut locators = Locators::new();
    let _ = locators.push(locator);
    locators
}

/// What we announce of ourselves.
fn participant_at(prefix: GuidPrefix, locator: Locator) -> Participant
    ensures announced { result ≡ participant_at prefix locator }
{
    Participant {
        prefix,
        vendor: VendorId::UNKNOWN,
        builtin_endpoints: BUILTIN_ENDPOINTS,
        lease: LEASE,
        metatraffic: one_locator(locator),
        default: one_locator(locator),
    }
}

/// Why a participant does not begin. No address can be announced that is a group, or nobody's.
fn failed(cause: Unopened, address: [u8; 4]) -> Failure {
    match cause {
        Unopened::Settings => Failure::NotOurs(Ipv4Addr::from(address)),
        Unopened::Endpoints(_) => Failure::TooManyEnds,
        Unopened::Memory => Failure::Memory,
    }
}

impl Bound {
    /// A participant of this name begins at the socket, with these endpoints. Nobody is known yet.
    ///
    /// # Errors
    ///
    /// `NotOurs` where the address is a group's, or nobody's; `TooManyEnds` where our peer can't have these endpoints:
    /// more than 16 writers or readers, one that is not in this name, or has the name of another; `Memory`.
    pub fn begin(
        self,
        alloc: Global,
        prefix: GuidPrefix,
        ends: Vec<OurEnd>,
    ) -> Result<Live, Failure>
        // It announces its socket and these, and is at its opening.
        ensures begun { IfOk result (λ l. IsBegun prefix self ends.items l) }
    {
        let Bound {
            port,
            domain,
            addresses,
            moments,
        } = self;
        let locator = port.locator;
        let settings = Settings {
            participant: participant_at(prefix, locator),
            domain,
            addresses,
            limits: LIMITS,
        };
        match Domain::open(alloc, settings, ENDPOINTS, ends) {
            Ok(participant) => Ok(Live::at(participant, port, moments)),
            Err(cause) => Err(failed(cause, locator.address)),
        }
    }
}

/// A participant of a new name begins with these writers and readers.
///
/// # Errors
///
/// `TopicName`, `TypeName`, `MaxValue`, `Policies`: of the first of `ends` that can't be; `TooManyEnds` where they are more
/// than 16 writers or readers; else as `Place::bind`. Nothing is open then.
///
/// DDS 1.4, 2.2.2.2.2 (create_participant).
pub fn open<R: Net + Clock + RandomSource>(
    rt: &R,
    alloc: Global,
    place: &Place,
    ends: &[EndSettings],
) -> Result<Live, Failure>
    // It is at this place, has these endpoints, and is at its opening.
    ensures opened { IfOk result (λ l. IsOpen place.now ends.now l) }
{
    let prefix = new_prefix(rt)?;
    let ours = our_ends(alloc, prefix, ends)?;
    match place.bind(rt, alloc) {
        Ok(bound) => bound.begin(alloc, prefix, ours),
        Err(failure) => Err(failure),
    }
}
