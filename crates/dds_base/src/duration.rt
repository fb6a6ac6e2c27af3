//! Times that may have no end.
//!
//! RTPS 2.5, 9.3.2 (Duration_t).

ghost use Rattle.std.specs.Prelude.{◌≡◌};
ghost use Rattle.dds_base.specs.Policies.{lasting, units_of};

/// A time that may have no end.
///
/// RTPS 2.5, 9.3.2 (Duration_t).
#[derive(Clone, Copy, Debug, PartialEq, Eq)]
pub struct Duration {
    /// Below 2^31, as announcements say them. 2^31 - 1 is no end.
    pub seconds: u32,
    /// In units of 2^-32 second.
    pub fraction: u32,
}

impl Duration {
    /// DURATION_INFINITE: no end.
    pub const INFINITE: Duration = Duration {
        seconds: 0x7fff_ffff,
        fraction: 0xffff_ffff,
    };

    /// DURATION_ZERO: no time.
    pub const ZERO: Duration = Duration {
        seconds: 0,
        fraction: 0,
    };

    /// A time of so many units of 2^-32 second; `None` has no end. Of 2^31 - 1 seconds or more it has none either,
    /// since there is no such duration.
    ///
    /// RTPS 2.5, 9.3.2 (Duration_t, DURATION_INFINITE).
    pub fn lasting(units: Option<u64>) -> Duration
        ensures lasting { result ≡ lasting units }
    {
        match units {
            Some(units) if units >> 32 < Duration::INFINITE.seconds as u64 => Duration {
                seconds: (units >> 32) as u32,
                fraction: (units & 0xffff_ffff) as u32,
            },
            _ => Duration::INFINITE,
        }
    }

    /// The time in units of 2^-32 second; `None` where it has no end: where the seconds are 2^31 - 1, whatever the
    /// fraction.
    ///
    /// RTPS 2.5, 9.3.2 (Duration_t, DURATION_INFINITE).
    pub fn units(self) -> Option<u64>
        ensures units { result ≡ units_of self }
    {
        if self.seconds == Duration::INFINITE.seconds {
            return None;
        }
        Some(((self.seconds as u64) << 32) + self.fraction as u64)
    }
}
