//! What passes give up when their peer is closed.
//!
//! Passes and closing are this project's own.

ghost use Rattle.std.specs.Prelude.{◌≡◌, ◌+◌, ◌<◌, ◌≤◌, ◌++◌, length, All, IfNone, IfSome, sum_by};
ghost use Rattle.dds_shared.specs.Passes.{SameSeats, lists_of};

use crate::pass::Pass;
use crate::tally::Tally;
use dds_keeping::Handing;
use dds_log::{HasWord, Keeper, Word};
use dds_trace::Entry;
use std::sync::ledger::{Ledger, Share};

/// The sum of the parts of the passes, if it fits.
pub fn parts_of<N: Ledger + HasWord, P: Handing>(passes: &[Pass<N, P>]) -> Option<u64>
    ensures sum { IfSome result (λ n. n ≡ sum_by (λ p. p.parts) passes.now) }
    ensures none { IfNone result (18446744073709551615 < sum_by (λ p. p.parts) passes.now) }
{
    let mut sum: u64 = 0;
    for pass in passes {
        sum = sum.checked_add(pass.parts())?;
    }
    Some(sum)
}

// Takes the shares and the entries of all passes together. None has seen more than was counted.
fn take_all<N: Ledger + HasWord, P: Handing>(
    passes: Vec<Pass<N, P>>,
    all: &mut Share<N>,
    keeper: &mut Keeper<N, Entry>,
    word: &Word<N, Entry>,
)
    ensures parts { all.new.parts ≡ all.old.parts + sum_by (λ p. p.parts) passes.items }
    ensures amount { all.new.amount ≡ all.old.amount + length (lists_of passes.items) }
    ensures log { keeper.new.log ≡ keeper.old.log }
    ensures list { keeper.new.list ≡ keeper.old.list ++ lists_of passes.items }
    ensures fronts { All (λ p. p.front ≤ length keeper.old.log) passes.items }
{
    for pass in passes {
        pass.give_up(all, keeper, word);
    }
}

/// Where all passes are given up, with what is left of the ledger, they have what happened, seat by seat.
pub fn give_all<N: Ledger + HasWord, P: Handing>(
    passes: Vec<Pass<N, P>>,
    all: &mut Share<N>,
    tally: Tally<N>,
    word: &Word<N, Entry>,
)
    requires whole { all.old.parts + sum_by (λ p. p.parts) passes.items ≡ N.parts }
    requires nothing { all.old.amount ≡ 0 }
    ensures complete { length tally.log ≡ length (lists_of passes.items) }
    ensures lists { SameSeats tally.log passes.items }
    ensures fronts { All (λ p. p.front ≤ length tally.log) passes.items }
{
    let Tally {
        mut book,
        mut keeper,
        ..
    } = tally;
    take_all(passes, all, &mut keeper, word);
    book.audit(all);
    keeper.settle(word);
}
