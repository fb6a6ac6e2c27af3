//! Which samples an access returns, as instances are told of them.
//!
//! DDS 1.4, 2.2.2.5 (read, take).

ghost use Rattle.std.specs.Prelude.{◌≡◌, [], IfOk, map};
ghost use Rattle.dds_cache.specs.Finding.{sample_in};

use crate::access::Candidate;
use dds_base::SamplePosition;
use std::alloc::{AllocError, Global};
use std::marker::Model;
use std::slice;

/// The samples that an access returns. Of one no list is made.
#[derive(Drop)]
pub struct Positions {
    /// The only one, where there is one.
    only: Option<SamplePosition>,
    /// The samples, where there is none, or more than one.
    list: Vec<SamplePosition>,
}

impl Model for Positions {
    ghost use Rattle.dds_cache.specs.Positions.{PositionList, listed};

    ghost Value = { PositionList };

    ghost view = { λ p. listed p.only p.list.items };
}

impl Positions {
    /// Of no sample. Takes no memory.
    pub fn none(alloc: Global) -> Positions
        ensures { result.items ≡ [] }
    {
        Positions {
            only: None,
            list: Vec::new(alloc),
        }
    }

    /// Of the samples of candidates. Takes no memory for one.
    pub fn of(alloc: Global, found: &[Candidate]) -> Result<Positions, AllocError>
        ensures { IfOk result (λ positions. positions.items ≡ map sample_in found.now) }
    {
        if let [one] = found {
            return Ok(Positions {
                only: Some(one.sample),
                list: Vec::new(alloc),
            });
        }
        let list = found.iter().map(|c| c.sample).collect(alloc)?;
        Ok(Positions { only: None, list })
    }

    pub fn as_slice(&self) -> &[SamplePosition]
        ensures { result.now ≡ self.now.items }
    {
        match &self.only {
            Some(one) => slice::from_ref(one),
            None => self.list.as_slice(),
        }
    }
}
