//! Which conditions found nothing, so that they need not look again.
//!
//! DDS 1.4, 2.2.2.5 (ReadCondition, QueryCondition: get_trigger_value).

ghost use Rattle.std.specs.Prelude.{◌≡◌, [], true, Contains};
ghost use Rattle.dds_core.specs.Remembering.{AddsMiss};

use dds_base::Masks;
use std::alloc::Global;
use std::marker::Model;

/// That a condition found nothing: of the reader of this number, when so many entries had happened there, no present
/// sample met the masks and passed the filter. While no more happen there it finds nothing.
#[derive(Clone, Copy, Debug, PartialEq, Eq)]
pub struct Miss {
    pub reader: u8,
    pub masks: Masks,
    pub filter: Option<u32>,
    pub entries: u64,
}

/// Of how many conditions that is remembered at a time. They share the places by their numbers.
const PLACES: usize = 1024;

/// What conditions found nothing, as far as there was memory for it. Forgetting it costs a look, and nothing else.
#[derive(Drop)]
pub struct Misses {
    list: Vec<Miss>,
    // Whether one more may be among them.
    is_kept: bool,
}

impl Model for Misses {
    ghost use Rattle.std.specs.Prelude.{List};
    ghost use Rattle.dds_core.specs.declared.misses.Miss.{Miss};

    ghost Value = { List Miss };

    ghost view = { λ m. m.list.items };
}

/// Makes a place of this index, if there is memory for it. What is new has this.
fn reach(list: &mut Vec<Miss>, place: usize, miss: Miss)
    ensures { AddsMiss list.old.items miss list.new.items }
{
    for _ in list.len()..=place {
        if list.push(miss).is_err() {
            return;
        }
    }
}

impl Misses {
    /// None. Takes no memory.
    pub fn new(alloc: Global) -> Misses
        ensures { result ≡ [] }
    {
        Misses {
            list: Vec::new(alloc),
            is_kept: true,
        }
    }

    /// None, and there never is one. Takes no memory.
    #[inline(always)]
    pub fn nowhere(alloc: Global) -> Misses
        ensures { result ≡ [] }
    {
        Misses {
            list: Vec::new(alloc),
            is_kept: false,
        }
    }

    /// Whether this is remembered of the condition of this number.
    pub fn has(&self, condition: u32, miss: &Miss) -> bool
        ensures { result ≡ true → Contains self.now miss.now }
    {
        match self.list.get(condition as usize % PLACES) {
            Some(known) => *known == *miss,
            None => false,
        }
    }

    /// Remembers this of the condition of this number, if it may, and there is memory for it.
    pub fn note(&mut self, condition: u32, miss: Miss)
        ensures { AddsMiss self.old miss self.new }
    {
        if !self.is_kept {
            return;
        }
        let place = condition as usize % PLACES;
        reach(&mut self.list, place, miss);
        if place < self.list.len() {
            self.list[place] = miss;
        }
    }

    /// Forgets all of them.
    pub fn forget(&mut self)
        ensures { self.new ≡ [] }
    {
        self.list.clear();
    }
}
