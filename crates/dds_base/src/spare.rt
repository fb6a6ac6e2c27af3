//! Lists that were given back, kept for their memory.

ghost use Rattle.std.specs.Prelude.{◌≡◌, ◌+◌, ◌≤◌, [], OnOk, vec_len, vec_capacity};

use std::alloc::{AllocError, Global};
use std::mem;

/// A list of more places than these is not kept, so that what is kept stays small after a large one.
const MOST_PLACES: usize = 128;

/// The memory of an emptied list, in which the next one is made.
#[derive(Drop)]
pub struct Spare<T> {
    list: Vec<T>,
    ghost none: { vec_len list ≡ 0 },
}

impl<T> Spare<T> {
    /// Without memory. Takes none.
    pub fn new(alloc: Global) -> Spare<T> {
        Spare {
            list: Vec::new(alloc),
        }
    }

    /// An empty list, in the memory that was kept, if there was any. Takes none.
    #[inline(always)]
    pub fn take(&mut self, alloc: Global) -> Vec<T>
        // It is empty.
        ensures empty { result.items ≡ [] }
    {
        mem::replace(&mut self.list, Vec::new(alloc))
    }
}

impl<T: Drop> Spare<T> {
    /// Lets the elements of a list go, and keeps its memory, where that is more than is kept, and of at most 128 places.
    #[inline(always)]
    pub fn keep(&mut self, list: Vec<T>) {
        let mut list = list;
        let places = list.capacity();
        if self.list.capacity() < places && places <= MOST_PLACES {
            list.clear();
            self.list = list;
        }
    }
}

/// Makes room for so many more in a list: for just these in one that has no memory, as most answers have few.
#[inline(always)]
pub fn reserve_few<T>(list: &mut Vec<T>, count: usize) -> Result<(), AllocError>
    // What stands in it stays.
    ensures items { list.new.items ≡ list.old.items }
    // So does how much that is.
    ensures len { vec_len list.new ≡ vec_len list.old }
    // There is room for so many more.
    ensures ok { OnOk result (vec_len list.new + count ≤ vec_capacity list.new) }
    // There is no less room than before.
    ensures capacity { vec_capacity list.old ≤ vec_capacity list.new }
{
    if list.capacity() == 0 {
        return list.reserve_exact(count);
    }
    list.reserve(count)
}
