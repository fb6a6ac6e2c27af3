//! Counts of HEARTBEATs and of ACKNACKs.
//!
//! RTPS 2.5, 8.3.8 (Heartbeat, AckNack: count).

ghost use Rattle.std.specs.Prelude.{◌≡◌};
ghost use Rattle.dds_base.specs.Counts.{is_later};

/// The greatest count of a HEARTBEAT, and of an ACKNACK: 2^31 - 1.
///
/// RTPS 2.5, 9.4.2 (Count): 32 bits with a sign. Its counts begin at 1 and only grow.
pub const MAX_COUNT: u32 = (1 << 31) - 1;

/// Whether a count is greater than the last one that was accepted; the first always is. One that is not is a
/// repetition.
///
/// RTPS 2.5, 8.3.8 (Heartbeat, AckNack: count).
pub fn is_later(last: Option<i32>, count: i32) -> bool
    ensures later { result ≡ is_later last count }
{
    match last {
        None => true,
        Some(last) => last < count,
    }
}
