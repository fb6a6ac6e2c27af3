//! What holds where no word says it.

use rtps_announcements::Duration;
use rtps_discovery::Limits;

/// How long our participant is taken to be there: 20 seconds.
pub const USUAL_LEASE: Duration = Duration {
    seconds: 20,
    fraction: 0,
};

/// How many participants are known, in all and at one address.
pub const USUAL_LIMITS: Limits = Limits {
    of_all: 64,
    of_one_address: 64,
};

/// How many endpoints of a participant are known.
pub const USUAL_ENDPOINTS: usize = 128;
