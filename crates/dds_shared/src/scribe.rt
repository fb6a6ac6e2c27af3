//! Who cuts the trace of a shared peer into pieces.
//!
//! Traces are this project's own.

ghost use Rattle.std.specs.Prelude.{◌≡◌, ◌⊎◌, ◌++◌, [], OnOk, OnErr, IfOk, IfErr};
ghost use Rattle.dds_base.specs.declared.code.Code.TheVariants.{Memory, Mismatch, PreconditionNotMet};
ghost use Rattle.dds_shared.specs.Locks.{HasAll};

use crate::locked::Locked;
use crate::named::Named;
use crate::pass::Pass;
use dds_base::Code;
use dds_conditions::Filter;
use dds_keeping::{Handing, Keeping, Pieces};
use dds_log::{HasWord, Word};
use dds_notices::Listener;
use dds_trace::{Entry, Trace};
use std::alloc::Global;
use std::marker::Model;
use std::mem;
use std::sync::ledger::Ledger;

/// Who cuts the trace of a shared peer into pieces: contracts see the entries of the pieces that were cut, one behind the
/// other. A peer has one.
///
/// Traces are this project's own.
#[derive(Drop)]
pub struct Scribe<N: Ledger + HasWord> {
    scribe: dds_log::Scribe<N, Entry>,
    count: u64,
}

impl<N: Ledger + HasWord> Model for Scribe<N> {
    ghost use Rattle.std.specs.Prelude.{◌≡◌, List, length};
    ghost use Rattle.dds_trace.specs.declared.trace.Entry.{Entry};

    ghost Value = { List Entry };

    ghost view = { λ s. s.scribe };

    ghost invariant = { λ s. s.count ≡ length s.scribe };
}

impl<N: Named<F, L>, F: Filter, L: Listener> Locked<N, F, L, Pieces> {
    /// Who cuts the trace; nothing was cut yet.
    pub fn scribe(&mut self, word: &Word<N, Entry>) -> Scribe<N>
        ensures kept { self.new ≡ self.old }
        ensures nothing { result ≡ [] }
    {
        Scribe {
            scribe: self.tally.scribe(word),
            count: 0,
        }
    }

    /// The entries since the last cut, which follow upon those of the scribe's pieces. Room for the ends of waits is made
    /// anew.
    pub fn cut(
        &mut self,
        alloc: Global,
        word: &Word<N, Entry>,
        scribe: &mut Scribe<N>,
    ) -> Result<Trace, Code>
        ensures piece { IfOk result (λ t. scribe.new ≡ scribe.old ++ t.entries) }
        ensures all { OnOk result (scribe.new ≡ self.old.entries) }
        ensures named { IfOk result (λ t. t.peer ≡ N.peer) }
        ensures kept { self.new ≡ self.old }
        ensures err { OnErr result (scribe.new ≡ scribe.old) }
        ensures refused { IfErr result (λ code. (code ≡ Memory) ⊎ (code ≡ Mismatch)) }
    {
        let done = self.tally.done();
        let newest = self.trace.newest.entries.len() as u64;
        if scribe.count > done || done - scribe.count != newest {
            return Err(Code::Mismatch);
        }
        let mut empty = Pieces::open(alloc);
        empty.reserve(self.core.in_use() as usize)?;
        empty.cut = done;
        self.tally.compare(word, &mut scribe.scribe);
        let full = mem::replace(&mut self.trace, empty);
        self.tally.write(word, &mut scribe.scribe);
        scribe.count = done;
        Ok(Trace::from_entries(self.peer, full.newest.entries))
    }

    /// The entries since the last cut, where all passes are here.
    pub fn last_piece<P: Handing>(
        &mut self,
        alloc: Global,
        word: &Word<N, Entry>,
        passes: &[Pass<N, P>],
        scribe: &mut Scribe<N>,
    ) -> Result<Trace, Code>
        ensures here { OnOk result (HasAll self.new passes.now) }
        ensures all { IfOk result (λ t. self.new.entries ≡ scribe.old ++ t.entries) }
        ensures named { IfOk result (λ t. t.peer ≡ N.peer) }
        ensures kept { self.new ≡ self.old }
        ensures err { OnErr result (scribe.new ≡ scribe.old) }
        ensures refused { IfErr result
            (λ code. (code ≡ PreconditionNotMet) ⊎ (code ≡ Memory) ⊎ (code ≡ Mismatch)) }
    {
        if !self.has_all(passes) {
            return Err(Code::PreconditionNotMet);
        }
        self.cut(alloc, word, scribe)
    }
}
