//! Sets of communication statuses.
//!
//! DDS 1.4, 2.3.3 (StatusMask), 2.2.4.1 (communication statuses).

ghost use Rattle.std.specs.Prelude.{⊤, ◌≡◌, [], ◌∷◌, codes};

use crate::notice::Status;
use bitflags::{Flag, Flags, bitflag_items};

/// The communication statuses that a listener is told of, or that are enabled at a condition.
///
/// DDS 1.4, 2.2.4.1, 2.3.3 (StatusMask, SAMPLE_LOST_STATUS and kin). Bits without a meaning are kept and name nothing.
#[derive(Clone, Copy, Debug, PartialEq, Eq)]
pub struct StatusMask(u32);

bitflag_items! {
    impl StatusMask: u32 {
        const SAMPLE_LOST = 128;
        const DATA_AVAILABLE = 1024;
        const LIVELINESS_LOST = 2048;
        const LIVELINESS_CHANGED = 4096;
        const PUBLICATION_MATCHED = 8192;
        const SUBSCRIPTION_MATCHED = 16384;
        const ANY = 65535;
    }
}

impl Flags for StatusMask {
    type Bits = u32;

    ghost exact = { ⊤ };

    ghost table = { (codes "SAMPLE_LOST", 128) ∷ (codes "DATA_AVAILABLE", 1024) ∷ (codes "LIVELINESS_LOST", 2048) ∷ (codes "LIVELINESS_CHANGED", 4096) ∷ (codes "PUBLICATION_MATCHED", 8192) ∷ (codes "SUBSCRIPTION_MATCHED", 16384) ∷ (codes "ANY", 65535) ∷ [] };

    ghost set_of = { λ m. m.0 };

    fn flags<'a>() -> &'a [Flag<StatusMask>] {
        StatusMask::FLAGS
    }

    fn bits(&self) -> u32 {
        self.0
    }

    fn from_bits_retain(bits: u32) -> StatusMask {
        StatusMask(bits)
    }
}

impl StatusMask {
    ghost use Rattle.dds_notices.specs.Masks.{names};

    /// Whether the mask names the status, whichever its values are.
    ///
    /// DDS 1.4, 2.3.3 (StatusMask).
    pub fn names(self, status: &Status) -> bool
        ensures named { result ≡ names self status.now }
    {
        match status {
            Status::SampleLost(_) => self.contains(StatusMask::SAMPLE_LOST),
            Status::DataAvailable => self.contains(StatusMask::DATA_AVAILABLE),
            Status::LivelinessLost(_) => self.contains(StatusMask::LIVELINESS_LOST),
            Status::LivelinessChanged(_) => self.contains(StatusMask::LIVELINESS_CHANGED),
            Status::PublicationMatched(_) => self.contains(StatusMask::PUBLICATION_MATCHED),
            Status::SubscriptionMatched(_) => self.contains(StatusMask::SUBSCRIPTION_MATCHED),
        }
    }
}
