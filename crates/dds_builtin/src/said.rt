//! What a sample of a builtin reader says of an endpoint.
//!
//! `specs/Samples.antt` says it.
//!
//! RTPS 2.5, 8.5.4 (SEDP).

ghost use Rattle.std.specs.Prelude.{◌≡◌, IfOk, IfErr, OnErr};
ghost use Rattle.dds_builtin.specs.Samples.{HearsSample, TakesUp};

use crate::announced::guid_of;
use dds_base::{Code, Guid, GuidPrefix, Sample};
use rtps_announcements::EndpointKind;
use rtps_matching::{Endpoints, Told};
use std::alloc::Global;

/// An endpoint is announced. One for which there is no room is not taken.
fn take_up(
    alloc: Global,
    endpoints: &mut Endpoints,
    guid: Guid,
    kind: EndpointKind,
    sample: &Sample,
) -> Result<Vec<Told>, Code>
    ensures ok { IfOk result
        (λ told. TakesUp guid kind sample.now endpoints.old endpoints.new told.items) }
    ensures err { OnErr result (endpoints.new ≡ endpoints.old) }
    ensures memory { IfErr result (λ e. e ≡ Code.Memory) }
{
    match endpoints.announce(alloc, guid, kind, sample.value.as_slice()) {
        Ok(told) => Ok(told),
        Err(Code::OutOfResources) => Ok(Vec::new(alloc)),
        Err(_) => Err(Code::Memory),
    }
}

/// A sample of a participant's builtin writer is acted on: it announces an endpoint of this kind, or says that it is gone.
/// Of another participant's endpoint it says nothing, and one for which there is no room is not taken.
///
/// # Errors
///
/// `Memory` where there is none.
///
/// RTPS 2.5, 8.5.4 (SEDP).
pub fn hear(
    alloc: Global,
    endpoints: &mut Endpoints,
    prefix: &GuidPrefix,
    kind: EndpointKind,
    sample: &Sample,
) -> Result<Vec<Told>, Code>
    // The table is as the sample says, and what changed of who is matched is told.
    ensures ok { IfOk result
        (λ told. HearsSample prefix.now kind sample.now endpoints.old endpoints.new told.items) }
    // A refusal leaves all as it was.
    ensures err { OnErr result (endpoints.new ≡ endpoints.old) }
    // The only refusal is for want of memory.
    ensures memory { IfErr result (λ e. e ≡ Code.Memory) }
{
    let guid = guid_of(&sample.key);
    if guid.prefix != *prefix {
        return Ok(Vec::new(alloc));
    }
    if !sample.info.valid_data {
        return endpoints.withdraw(alloc, &guid);
    }
    let told = take_up(alloc, endpoints, guid, kind, sample)?;
    Ok(told)
}
