//! Filters, by their numbers.

use crate::tests::rows::{Subject, expect_rows, octets_of, show, words_of};
use dds_base::Key;
use dds_conditions::{Filter, FilterList, Filters};
use std::alloc::Global;

/// `passes` has the number of a filter and a value.
const LISTED: &str = "\
# The first filter passes values of one octet, the second those of two; no value passes a filter that is not there.
passes 1 01 => true
passes 1 01aa => false
passes 2 01aa => true
passes 2 0000 => true
passes 2 01 => false
passes 2 01aa02 => false
passes 0 01 => false
passes 3 01 => false
";

/// A filter of an application's own: values of so many octets pass.
#[derive(Drop)]
pub struct OfLength {
    pub octets: usize,
}

impl Filter for OfLength {
    ghost use Rattle.std.specs.Prelude.{◌==◌, length};

    ghost meaning = { λ f key value. length value == f.octets };

    fn passes(&self, _: &Key, value: &[u8]) -> bool {
        value.len() == self.octets
    }
}

/// The filters of a peer, of any type.
#[derive(Drop)]
struct Listed<F> {
    filters: FilterList<F>,
}

impl<F: Filter> Subject for Listed<F> {
    fn answer(&mut self, alloc: Global, text: &mut String, _: &str, operands: &str) {
        let words = words_of(operands);
        let passes = self.filters.passes(
            words.first.parse().unwrap_or(0),
            &Key([1; 16]),
            octets_of(alloc, words.second).as_slice(),
        );
        show(text, &passes);
    }
}

#[test]
fn filters_of_an_application_answer_by_their_numbers(rt: HostRuntime) {
    let mut filters = FilterList::<OfLength>::new(rt.alloc());
    for octets in 1..3 {
        assert!(rt; filters.add(OfLength { octets }).is_ok(), "no memory");
    }
    expect_rows(&rt, rt.alloc(), &mut Listed { filters }, LISTED);
}

#[test]
fn boxed_filters_answer_by_their_numbers(rt: HostRuntime) {
    let mut filters = FilterList::<Box<dyn Filter + Send>>::new(rt.alloc());
    for octets in 1..3 {
        let boxed = Box::new(rt.alloc(), OfLength { octets });
        assert!(rt; boxed.is_ok(), "no memory");
        if let Ok(own) = boxed {
            let filter: Box<dyn Filter + Send> = own;
            assert!(rt; filters.add(filter).is_ok(), "no memory");
        }
    }
    expect_rows(&rt, rt.alloc(), &mut Listed { filters }, LISTED);
}
