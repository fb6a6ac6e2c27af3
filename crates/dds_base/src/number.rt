//! Numbers that count from 1.
//!
//! Peers, and the writers and readers of a peer, have numbers of this project's own, in the order of the configuration.

ghost use Rattle.std.specs.Prelude.{◌≡◌, ◌+◌, ◌<◌, false, MatchOption};
ghost use Rattle.dds_base.specs.Number.{is_number};

/// Whether there is something of this number, from 1, among so many.
pub(crate) fn is_number(number: u8, count: usize) -> bool
    ensures { result ≡ is_number number count }
{
    0 < number && usize::from(number) <= count
}

/// The index, from 0, of the peer of this number, from 1, among so many. `None` for 0, and where there are fewer.
pub fn index_of_peer(number: u32, count: usize) -> Option<usize>
    ensures index { MatchOption result (is_number number count ≡ false)
        (λ index. (number ≡ index + 1) × (index < count)) }
{
    if number == 0 || count < number as usize {
        None
    } else {
        Some(number as usize - 1)
    }
}

/// The index, from 0, of what has this number, from 1, among so many. `None` for 0, and where there are fewer.
pub fn index_of(number: u8, count: usize) -> Option<usize>
    ensures index { MatchOption result (is_number number count ≡ false)
        (λ index. (number ≡ index + 1) × (index < count)) }
{
    if number == 0 || count < usize::from(number) {
        None
    } else {
        Some(usize::from(number) - 1)
    }
}
