//! The bits of statuses in a mask.
//!
//! DDS 1.4, 2.3.3 (SAMPLE_LOST_STATUS and kin).

ghost use Rattle.std.specs.Prelude.{◌≡◌, ◌≤◌};
ghost use Rattle.dds_machine.specs.Watching.{bit_if};

use bitflags::Flags;
use dds_notices::StatusMask;

/// The bit of a status, where it is flagged.
pub fn bit_if(is_flagged: bool, status: StatusMask) -> u32
    ensures is { result ≡ bit_if is_flagged status.0 }
    ensures small { result ≤ status.0 }
{
    if is_flagged { status.bits() } else { 0 }
}
