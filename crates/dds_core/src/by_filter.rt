//! The test of a condition.
//!
//! DDS 1.4, 2.2.2.5 (QueryCondition).

use dds_base::Key;
use dds_cache::Test;
use dds_conditions::Filters;

/// The test of the filter of a number, or that each sample passes.
#[derive(Drop)]
pub struct ByFilter<'a, T> {
    pub filters: &'a T,
    pub filter: Option<u32>,
}

impl<'a, T: Filters> Test for ByFilter<'a, T> {
    ghost use Rattle.dds_machine.specs.Watching.{test_of};

    ghost meaning = { λ b. test_of (T.meaning b.filters.now) b.filter };

    fn passes(&self, key: &Key, value: &[u8]) -> bool {
        match self.filter {
            Some(filter) => self.filters.passes(filter, key, value),
            None => true,
        }
    }
}
