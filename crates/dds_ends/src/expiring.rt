//! The deaths of a tick: at each reader of a peer the matched writers die whose lease is over.
//!
//! DDS 1.4, 2.2.3 (LIVELINESS: lease_duration).

ghost use Rattle.std.specs.Prelude.{◌≡◌, true, false};
ghost use Rattle.dds_ends.specs.Expiring.{AllExpire, HasPastCounting, HaveRoomForDeaths};

use crate::reader_end::ReaderEnd;
use dds_base::Moment;

/// Whether all that die at each of these readers at this moment can be counted there: no more than 2^64 - 1 entries
/// happened at it with them.
pub fn counts_deaths(readers: &[ReaderEnd], now: Moment) -> bool
    ensures room { result ≡ true → HaveRoomForDeaths now readers.now }
    ensures past { result ≡ false → HasPastCounting readers.now now }
{
    for reader in readers {
        if !reader.counts_deaths(now) {
            return false;
        }
    }
    true
}

/// At each of these readers those die whose lease is over at this moment. It takes no memory.
pub fn expire_all(readers: &mut [ReaderEnd], now: Moment)
    requires room { HaveRoomForDeaths now readers.old }
    ensures expires { AllExpire readers.old now readers.new }
{
    for index in 0..readers.len() {
        readers[index].expire(now);
    }
}
