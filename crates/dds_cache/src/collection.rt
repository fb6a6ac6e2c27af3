//! The collection of the samples that an access returns.
//!
//! DDS 1.4, 2.2.2.5 (SampleInfo: ranks).

ghost use Rattle.std.specs.Prelude.{◌≡◌, ◌≢◌, ◌<◌, ◌^◌, ◌∷◌, [], List, length, All, IfOk, IfErr, OnErr, vec_len, vec_capacity};
ghost use Rattle.std.specs.List.Sorted.{IsNonDecreasingBy};
ghost use Rattle.dds_base.specs.declared.code.Code.TheVariants.{Memory};
ghost use Rattle.dds_base.specs.declared.sample.Picked.{Picked};
ghost use Rattle.dds_base.specs.Access.{own_generations, with_ranks};
ghost use Rattle.dds_info.specs.Ranking.{AreTold, StandsBefore};
ghost use Rattle.dds_cache.specs.declared.access_kind.AccessKind.TheVariants.{Read, Take};
ghost use Rattle.dds_cache.specs.Finding.{AreApart, AreChanged, IsPlaced, handle_in};
ghost use Rattle.dds_cache.specs.Kept.{IsSummary, out_if};
ghost use Rattle.dds_cache.specs.Picking.{IsGathered, collected, value_for};

use crate::access::Candidate;
use crate::access_kind::AccessKind;
use crate::kept::Kept;
use crate::positions::Positions;
use crate::summary::{Summary, let_out};
use dds_base::{Code, Octets, Sample};
use dds_info::Ranks;
use std::alloc::{AllocError, Global};

/// The value that a sample has in a collection before the access is entered: a read copies the kept one, and a take
/// gives it away when it is entered.
fn value_of(alloc: Global, kind: AccessKind, kept: &Kept) -> Result<Octets, AllocError>
    ensures { IfOk result (λ value. value ≡ value_for kind kept.now) }
{
    match kind {
        AccessKind::Read => kept.value.clone(),
        AccessKind::Take => Ok(Octets::from_vec(Vec::new(alloc))),
    }
}

/// A candidate as the sample of a collection, with this value, before those that were told.
pub fn as_sample(candidate: &Candidate, ranks: &mut Ranks, value: Octets) -> Sample
    requires small { own_generations candidate.now.picked < 2 ^ 64 }
    ensures sample { (later : List Picked) → StandsBefore candidate.now.picked later ranks.old
        → result ≡ record {
          key = candidate.now.sample.key;
          value = value;
          info = with_ranks candidate.now.picked later;
        } }
    ensures told { (later : List Picked) → StandsBefore candidate.now.picked later ranks.old
        → AreTold (candidate.now.picked ∷ later) ranks.new }
{
    Sample {
        key: candidate.sample.key,
        value,
        info: ranks.precede(&candidate.picked),
    }
}

/// The collection of candidates that stand by handle, as it is before an access of this kind is entered. It goes over
/// them from the last one to the first, as their ranks are told.
#[inline(always)]
fn collect(
    alloc: Global,
    kind: AccessKind,
    samples: &[Kept],
    found: &[Candidate],
) -> Result<Vec<Sample>, AllocError>
    requires placed { All (IsPlaced (length samples.now)) found.now }
    requires sorted { IsNonDecreasingBy handle_in found.now }
    ensures { IfOk result
        (λ collection. collection.items ≡ collected kind samples.now found.now) }
{
    let mut collection = Vec::with_capacity(alloc, found.len())?;
    let mut ranks = Ranks::new();
    let count = found.len();
    for done in 0..count {
        let candidate = &found[count - 1 - done];
        let value = value_of(alloc, kind, &samples[candidate.at])?;
        collection.push(as_sample(candidate, &mut ranks, value))?;
    }
    collection.reverse();
    Ok(collection)
}

/// Takes the values of the picked samples out, each from its place, into the collection, and counts them as taken.
pub fn take_out(
    alloc: Global,
    samples: &mut Vec<Kept>,
    summary: &mut Summary,
    found: &[Candidate],
    collection: &mut Vec<Sample>,
)
    requires placed { All (IsPlaced (length samples.old.items)) found.now }
    requires whole { length collection.old.items ≡ length found.now }
    requires counted { IsSummary samples.old.items summary.old }
    ensures counted { IsSummary samples.new.items summary.new }
    ensures items { AreChanged out_if found.now samples.old.items samples.new.items }
    ensures taken { AreApart found.now
        → collection.old.items ≡ collected Take samples.old.items found.now
        → collection.new.items ≡ collected Read samples.old.items found.now }
    ensures len { vec_len samples.new ≡ vec_len samples.old }
    ensures capacity { vec_capacity samples.new ≡ vec_capacity samples.old }
{
    for (at, candidate) in found.iter().enumerate() {
        collection[at].value = let_out(alloc, samples, summary, candidate.at);
    }
}

/// What an access returns.
#[derive(Drop)]
pub struct Access {
    /// Which samples.
    pub positions: Positions,
    /// The same, as they were found among those that are kept.
    pub found: Vec<Candidate>,
    /// Their collection: that of a take has no values before it is entered.
    pub samples: Vec<Sample>,
}

impl Access {
    /// What an access returns that picked nothing. Takes no memory.
    pub fn nothing(alloc: Global) -> Access
        ensures positions { result.positions.items ≡ [] }
        ensures found { result.found.items ≡ [] }
        ensures samples { result.samples.items ≡ [] }
    {
        Access {
            positions: Positions::none(alloc),
            found: Vec::new(alloc),
            samples: Vec::new(alloc),
        }
    }
}

/// The collection of what a read would return, by what is kept, and the same once more. Where there is nothing it takes
/// no memory.
pub fn twice(
    alloc: Global,
    samples: &[Kept],
    access: &Access,
) -> Result<(Vec<Sample>, Vec<Sample>), Code>
    requires placed { All (IsPlaced (length samples.now)) access.now.found.items }
    requires sorted { IsNonDecreasingBy handle_in access.now.found.items }
    ensures same { IfOk result
        (λ twice. twice.0.items ≡ collected Read samples.now access.now.found.items) }
    ensures equal { IfOk result (λ twice. twice.1.items ≡ twice.0.items) }
    ensures memory { IfErr result (λ e. e ≡ Memory) }
    ensures some { OnErr result (access.now.found.items ≢ []) }
{
    if access.found.is_empty() {
        return Ok((Vec::new(alloc), Vec::new(alloc)));
    }
    let first = collect(alloc, AccessKind::Read, samples, &access.found)?;
    let second = first.clone()?;
    Ok((first, second))
}

/// What an access of this kind returns that picked these, which stand by handle.
#[inline(always)]
pub fn gather(
    alloc: Global,
    kind: AccessKind,
    samples: &[Kept],
    found: Vec<Candidate>,
) -> Result<Access, Code>
    requires placed { All (IsPlaced (length samples.now)) found.items }
    requires sorted { IsNonDecreasingBy handle_in found.items }
    ensures found { IfOk result (λ access. access.found.items ≡ found.items) }
    ensures gathered { IfOk result (λ access. IsGathered (length samples.now) access) }
    ensures samples { IfOk result
        (λ access. access.samples.items ≡ collected kind samples.now found.items) }
    ensures memory { IfErr result (λ e. e ≡ Memory) }
{
    let collection = collect(alloc, kind, samples, &found)?;
    let positions = Positions::of(alloc, &found)?;
    Ok(Access {
        positions,
        found,
        samples: collection,
    })
}
