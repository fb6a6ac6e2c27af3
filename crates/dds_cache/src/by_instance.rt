//! The samples that an access picks of all instances, found instance by instance.
//!
//! DDS 1.4, 2.2.2.5 (read, take, read_next_sample, take_next_sample: max_samples).

ghost use Rattle.std.specs.Prelude.{◌≡◌, ◌≤◌, List, true};
ghost use Rattle.std.specs.List.Sorted.{IsNonDecreasingBy};
ghost use Rattle.dds_base.specs.declared.happening.Happening.{Happening};
ghost use Rattle.dds_cache.specs.Finding.{handle_in};
ghost use Rattle.dds_cache.specs.First.{AreChained, AreFirstMatching, AreWithin, HoldsAll, IfFound};

use crate::access::{Candidate, cut_to, find_in_instance, is_full};
use crate::content::Content;
use crate::test::Test;
use dds_base::Masks;
use std::alloc::{AllocError, Global};

/// The present samples that meet the masks and pass the test, by handle, and those of one instance in the order in which
/// they came, `max` of them at most. It goes over the instances as far as that of the last one, along the chain of each.
/// `None` where all are asked for, which a pass over the samples finds as fast; where it has gone over as many instances as
/// there are samples, and has not found as many as are asked for; and where the instances do not stand by handle.
pub fn find_by_instance<T: Test>(
    alloc: Global,
    content: &Content<'_>,
    masks: Masks,
    max: Option<u32>,
    test: &T,
) -> Result<Option<Vec<Candidate>>, AllocError>
    requires { AreChained content.now }
    ensures placed { IfFound result (AreWithin content.now) }
    ensures found { IfFound result (λ found. (h : List Happening) → HoldsAll content.now h
        → AreFirstMatching content.now.qos.now h masks (T.meaning test.now) max content.now.samples.now found) }
    ensures sorted { IfFound result (IsNonDecreasingBy handle_in) }
{
    if max.is_none() {
        return Ok(None);
    }
    let mut found = Vec::new(alloc);
    let mut newest = 0;
    for place in 0..content.instances.len() {
        if is_full(max, found.len()) {
            break;
        }
        if content.samples.len() <= place {
            return Ok(None);
        }
        let Some(known) = content.instances.at(place) else {
            return Ok(None);
        };
        let handle = known.handle.number();
        if handle < newest {
            return Ok(None);
        }
        newest = handle;
        let mut more = find_in_instance(alloc, content, &known, masks, max, test)?;
        found.append(&mut more)?;
    }
    cut_to(&mut found, max);
    Ok(Some(found))
}
