//! What a datagram of a participant is to our peer, and what a packet of our peer is on the network.
//!
//! `specs/Sides.antt` says it.
//!
//! RTPS 2.5, 8.5.4 (SEDP).

ghost use Rattle.std.specs.Prelude.{◌≡◌, IfOk, IfErr, MatchOption};
ghost use Rattle.rtps_adapter.specs.declared.direction.Direction.TheVariants.{Outward};
ghost use Rattle.rtps_adapter.specs.declared.direction.Way.TheVariants.{Filling};
ghost use Rattle.rtps_adapter.specs.Adapting.{Answers, IsAnswer};
ghost use Rattle.dds_builtin.specs.Builtin.{lists_of};
ghost use Rattle.dds_builtin.specs.Sides.{IsTooLongIn, IsTooLongOut, TurnsIn, TurnsOut};

use crate::builtin::lists_of;
use crate::kinds::with_kinds;
use dds_base::{Code, GuidPrefix, Octets};
use rtps_adapter::{Adapted, inward_with_gaps, outward};
use std::alloc::Global;

/// What a packet of our peer turns into, before the kinds of its entities do.
fn adapted_out(alloc: Global, own: GuidPrefix, bytes: &[u8]) -> Result<Adapted, Code>
    ensures answers { IfOk result (Answers Outward (lists_of own) bytes.now) }
    ensures memory { IfErr result (λ e. e ≡ Code.Memory) }
{
    outward(alloc, &lists_of(own), bytes)
}

/// What a datagram of a participant becomes, once the kinds of its entities were turned.
fn adapted_in(alloc: Global, far: GuidPrefix, bytes: &[u8]) -> Result<Adapted, Code>
    ensures answers { IfOk result (IsAnswer Filling (lists_of far) bytes.now) }
    ensures memory { IfErr result (λ e. e ≡ Code.Memory) }
{
    inward_with_gaps(alloc, &lists_of(far), bytes)
}

/// A packet of our peer, as it goes to the network of the participant with the prefix `own`, which we are; `None` where it
/// gets longer than a datagram may be.
///
/// # Errors
///
/// `Memory` where there is none.
///
/// RTPS 2.5, 8.5.4 (SEDP).
pub fn turned_out(alloc: Global, own: GuidPrefix, bytes: &[u8]) -> Result<Option<Octets>, Code>
    // It is the packet on the network, or is too long for it.
    ensures turned { IfOk result
        (λ o. MatchOption o (IsTooLongOut own bytes.now) (TurnsOut own bytes.now)) }
    // The only refusal is for want of memory.
    ensures memory { IfErr result (λ e. e ≡ Code.Memory) }
{
    match adapted_out(alloc, own, bytes) {
        Ok(Adapted::AsItIs) => {
            let octets = with_kinds(alloc, bytes)?;
            Ok(Some(octets))
        }
        Ok(Adapted::Rewritten(turned)) => {
            let octets = with_kinds(alloc, turned.as_slice())?;
            Ok(Some(octets))
        }
        Ok(Adapted::TooLong) => Ok(None),
        Err(code) => Err(code),
    }
}

/// A datagram of the participant with the prefix `far`, as our peer reads it; `None` where it gets longer than a datagram
/// may be.
///
/// # Errors
///
/// `Memory` where there is none. The datagram counts as lost.
///
/// RTPS 2.5, 8.5.4 (SEDP) and 8.3.4.
pub fn turned_in(alloc: Global, far: GuidPrefix, bytes: &[u8]) -> Result<Option<Octets>, Code>
    // It is the datagram to our peer, or is too long for it.
    ensures turned { IfOk result
        (λ o. MatchOption o (IsTooLongIn far bytes.now) (TurnsIn far bytes.now)) }
    // The only refusal is for want of memory.
    ensures memory { IfErr result (λ e. e ≡ Code.Memory) }
{
    let octets = with_kinds(alloc, bytes)?;
    match adapted_in(alloc, far, octets.as_slice()) {
        Ok(Adapted::AsItIs) => Ok(Some(octets)),
        Ok(Adapted::Rewritten(turned)) => Ok(Some(turned)),
        Ok(Adapted::TooLong) => Ok(None),
        Err(code) => Err(code),
    }
}
