//! Where a participant can be reached.
//!
//! RTPS 2.5, 8.5.3 (SPDP).

ghost use Rattle.std.specs.Prelude.{◌≡◌};
ghost use Rattle.std.specs.Option.{option_copied};
ghost use Rattle.std.specs.Str.{bytes_eq};
ghost use Rattle.rtps_discovery.specs.Rows.{reach};

use rtps_announcements::Locator;
use rtps_discovery::Row;

/// Whether two addresses are one.
fn is_address(one: &[u8; 4], other: &[u8; 4]) -> bool
    ensures { result ≡ bytes_eq one.now other.now }
{
    one.as_slice() == other.as_slice()
}

/// Where a participant is sent to: the first of its locators at the address that its datagrams come from.
///
/// RTPS 2.5, 8.5.3 (SPDP).
pub fn reach(row: &Row) -> Option<&Locator>
    // There is no other, and none where it announces none there.
    ensures reach { option_copied result ≡ reach row.now }
{
    row.participant
        .metatraffic
        .as_slice()
        .iter()
        .find(|locator| is_address(&locator.address, &row.source))
}
