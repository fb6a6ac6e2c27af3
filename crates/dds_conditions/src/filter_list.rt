//! The filters of a peer, in a list.
//!
//! DDS 1.4, 2.2.2.5 (QueryCondition).

ghost use Rattle.std.specs.Prelude.{◌≡◌, ◌++◌, ◌∷◌, [], OnOk, OnErr, IfErr};
ghost use Rattle.std.specs.Option.{option_copied};
ghost use Rattle.dds_conditions.specs.Filtered.{filter_at};

use crate::filter::{Filter, Filters};
use dds_base::Key;
use std::alloc::Global;
use std::marker::Model;

/// Filters in the order in which they were added; their numbers are from 1.
///
/// DDS 1.4, 2.2.2.5 (QueryCondition).
#[derive(Drop)]
pub struct FilterList<F> {
    filters: Vec<F>,
}

impl<F> Model for FilterList<F> {
    ghost use Rattle.std.specs.Prelude.{List};

    ghost Value = { List F };

    ghost view = { λ l. l.filters.items };
}

impl<F: Filter> FilterList<F> {
    /// No filters. Takes no memory.
    pub fn new(alloc: Global) -> Self
        ensures empty { result ≡ [] }
    {
        FilterList {
            filters: Vec::new(alloc),
        }
    }

    /// Adds a filter, by the next number.
    ///
    /// # Errors
    ///
    /// The filter itself, where a growth was refused; nothing is added then.
    pub fn add(&mut self, filter: F) -> Result<(), F>
        // It is the last one.
        ensures ok { OnOk result (self.new ≡ self.old ++ filter ∷ []) }
        // A refusal hands it back.
        ensures refused { IfErr result (λ back. back ≡ filter) }
        // A refusal changes nothing.
        ensures err { OnErr result (self.new ≡ self.old) }
    {
        match self.filters.push(filter) {
            Ok(()) => Ok(()),
            Err(failed) => Err(failed.value),
        }
    }

    /// The filter of this number, if there is one.
    pub fn filter(&self, number: u32) -> Option<&F>
        ensures found { option_copied result ≡ filter_at self.now number }
    {
        if number == 0 {
            return None;
        }
        self.filters.get(number as usize - 1)
    }
}

impl<F: Filter> Filters for FilterList<F> {
    ghost use Rattle.dds_conditions.specs.Filtered.{tests_of};

    ghost meaning = { λ l. tests_of F.meaning l };

    fn passes(&self, filter: u32, key: &Key, value: &[u8]) -> bool {
        match self.filter(filter) {
            Some(filter) => filter.passes(key, value),
            None => false,
        }
    }
}
