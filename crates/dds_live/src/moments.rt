//! Moments, in units of 2^-32 second: since 1970 where we begin, and from then on by a clock that does not go back.

ghost use Rattle.std.specs.Prelude.{◌≡◌, IfErr};
ghost use Rattle.dds_live.specs.Moments.{moment_after, units};

use crate::failure::Failure;
use std::time::{Clock, Duration};

/// When we began.
#[derive(Clone, Copy)]
pub struct Moments {
    since_1970: u64,
    began: Duration,
}

fn units(time: Duration) -> u64
    ensures rounded { result ≡ units time }
{
    let parts = u64::from(time.subsec_nanos()).saturating_mul(1 << 32) / 1_000_000_000;
    time.as_secs().saturating_mul(1 << 32).saturating_add(parts)
}

impl Moments {
    /// Now we begin.
    ///
    /// # Errors
    ///
    /// `ClockFailed`.
    pub fn begin(clock: &impl Clock) -> Result<Moments, Failure> {
        let (Ok(since_1970), Ok(began)) = (clock.since_1970(), clock.monotonic()) else {
            return Err(Failure::ClockFailed);
        };
        Ok(Moments {
            since_1970: units(since_1970),
            began,
        })
    }

    /// The time since then.
    ///
    /// # Errors
    ///
    /// `ClockFailed`.
    pub fn elapsed(self, clock: &impl Clock) -> Result<Duration, Failure>
        ensures refused { IfErr result (λ e. e ≡ Failure.ClockFailed) }
    {
        match clock.monotonic() {
            Ok(now) => Ok(now.saturating_sub(self.began)),
            Err(_) => Err(Failure::ClockFailed),
        }
    }

    /// The moment so long after.
    pub fn after(self, elapsed: Duration) -> u64
        ensures later { result ≡ moment_after self elapsed }
    {
        self.since_1970.saturating_add(units(elapsed))
    }
}
