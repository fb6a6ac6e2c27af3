//! Which endpoints meet and do not fit.
//!
//! `specs/Misfits.antt` says it.
//!
//! DDS 1.4, 2.2.3 (supported QoS).

ghost use Rattle.std.specs.Prelude.{◌≡◌, ◌++◌, IfErr, IfOk, OnOk};
ghost use Rattle.std.specs.Option.{option_to_list};
ghost use Rattle.rtps_matching.specs.Misfits.{misfits, misfits_with, misfitting};

use crate::end::End;
use crate::far::Far;
use crate::told::Misfitting;
use dds_base::Code;
use std::alloc::Global;

/// Why an endpoint of ours and one of another participant are not matched, where they meet.
fn misfitting(own: &End, far: &Far) -> Option<Misfitting>
    ensures { result ≡ misfitting own.now far.now }
{
    if !far.is_awake {
        return None;
    }
    let Some(end) = &far.end else {
        return None;
    };
    match own.misfit(end) {
        Some(policy) => Some(Misfitting {
            own: own.endpoint.guid(),
            far: far.guid,
            policy,
        }),
        None => None,
    }
}

/// Appends what is found, if anything is.
fn put(found: &mut Vec<Misfitting>, one: Option<Misfitting>) -> Result<(), Code>
    ensures ok { OnOk result (found.new.items ≡ found.old.items ++ option_to_list one) }
    ensures memory { IfErr result (λ e. e ≡ Code.Memory) }
{
    if let Some(one) = one {
        found.push(one)?;
    }
    Ok(())
}

/// Appends the misfits of an endpoint of ours.
fn put_misfits_of(found: &mut Vec<Misfitting>, own: &End, far: &[Far]) -> Result<(), Code>
    ensures ok { OnOk result (found.new.items ≡ found.old.items ++ misfits_with far.now own.now) }
    ensures memory { IfErr result (λ e. e ≡ Code.Memory) }
{
    for other in far {
        put(found, misfitting(own, other))?;
    }
    Ok(())
}

/// Which endpoints of ours meet others that they do not fit.
pub fn misfits_of(alloc: Global, own: &[End], far: &[Far]) -> Result<Vec<Misfitting>, Code>
    ensures ok { IfOk result (λ found. found.items ≡ misfits own.now far.now) }
    ensures memory { IfErr result (λ e. e ≡ Code.Memory) }
{
    let mut found = Vec::new(alloc);
    for end in own {
        put_misfits_of(&mut found, end, far)?;
    }
    Ok(found)
}
