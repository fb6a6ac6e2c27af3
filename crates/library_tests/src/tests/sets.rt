//! Sets of sequence numbers, and the window of a reader.

use crate::tests::rows::{Subject, expect_rows, number_of, show, words_of};
use dds_base::Sn;
use rtps_sets::{Mark, SnSet, Window};
use std::alloc::Global;

/// `set` and the base of a new set, `insert` and a number: the set. `open`: the place of a new window. `mark`, a number
/// and what is known of it; `reserve` and for how many marks; `slide` and how far: the place. `missing` and a bound:
/// the missing numbers.
const SETS: &str = "\
set 1 => base 1 bits 0 members
insert 1 => base 1 bits 1 members 1
insert 3 => base 1 bits 3 members 1 3
# The last of the 256 places.
set 2 => base 2 bits 0 members
insert 257 => base 2 bits 256 members 257

# The window of place 1 ends at 256, and a number is marked once.
open => 1
mark 256 held => Ok(true)
mark 256 held => Ok(false)
mark 256 irrelevant => Ok(false)
mark 257 held => Ok(false)
mark 0 held => Ok(false)

# The place moves over 1 and 2, and 4 is missing no more.
open => 1
reserve 3 => Ok(())
mark 2 irrelevant => Ok(true)
mark 4 held => Ok(true)
slide 5 => 1
missing 5 => base 1 bits 5 members 1 3 5
mark 1 held => Ok(true)
slide 2 => 2
slide 5 => 3
mark 258 held => Ok(true)
mark 2 held => Ok(false)

# A bound past the window, and one before it.
open => 1
missing 18446744073709551615 => base 1 bits 256 members 1-256
missing 0 => base 1 bits 0 members

# The place stops at the first number that is not marked.
open => 1
reserve 2 => Ok(())
mark 1 held => Ok(true)
mark 3 held => Ok(true)
mark 4 irrelevant => Ok(true)
slide 40 => 2
";

/// Appends the members as runs. The numbers asked for go from one before the base to one past the last place.
fn push_members(text: &mut String, set: &SnSet) {
    let base = set.base().number();
    for number in base.saturating_sub(1)..=base.saturating_add(256) {
        let is_member = set.has(Sn::new(number));
        let is_first = !set.has(Sn::new(number.saturating_sub(1)));
        let is_last = !set.has(Sn::new(number.saturating_add(1)));
        if is_member && is_first {
            let _ = write!(text, " {number}");
        } else if is_member && is_last {
            let _ = write!(text, "-{number}");
        }
    }
}

/// Appends the base of a set, its bits and its members.
pub fn push_set(text: &mut String, set: &SnSet) {
    let (base, bits) = (set.base().number(), set.bits());
    let _ = write!(text, "base {base} bits {bits} members");
    push_members(text, set);
}

/// A set and a window.
#[derive(Drop)]
struct Sets {
    set: SnSet,
    window: Window,
}

impl Sets {
    fn insert(&mut self, text: &mut String, number: u64) {
        let base = self.set.base().number();
        if base <= number && number - base < 256 {
            self.set.insert(Sn::new(number));
            push_set(text, &self.set);
        }
    }

    fn mark(&mut self, text: &mut String, number: u64, word: &str) {
        let mark = if word == "held" {
            Mark::Held
        } else {
            Mark::Irrelevant
        };
        show(text, &self.window.mark(Sn::new(number), mark));
    }
}

impl Subject for Sets {
    fn answer(&mut self, alloc: Global, text: &mut String, name: &str, operands: &str) {
        let words = words_of(operands);
        let number = number_of(words.first);
        match name {
            "set" => {
                self.set = SnSet::new(Sn::new(number));
                push_set(text, &self.set);
            }
            "insert" => self.insert(text, number),
            "open" => {
                self.window = Window::open(alloc);
                show(text, &self.window.place().number());
            }
            "mark" => self.mark(text, number, words.second),
            "reserve" => show(text, &self.window.reserve((number & 0xffff) as usize)),
            "slide" => {
                self.window.slide(Sn::new(number));
                show(text, &self.window.place().number());
            }
            "missing" => push_set(text, &self.window.missing(Sn::new(number))),
            _ => {}
        }
    }
}

#[test]
fn sets_and_windows_keep_what_was_marked(rt: HostRuntime) {
    let mut sets = Sets {
        set: SnSet::new(Sn::new(1)),
        window: Window::open(rt.alloc()),
    };
    expect_rows(&rt, rt.alloc(), &mut sets, SETS);
}
