//! The history of a writer.
//!
//! DDS 1.4, 2.2.3 (HISTORY, RESOURCE_LIMITS); RTPS 2.5, 8.2 (HistoryCache).

ghost use Rattle.std.specs.Prelude.{◌≡◌, ◌+◌, ◌^◌, ◌<◌, ◌≤◌, true, None, [], length, replicate, slice_index, IfOk, IfErr, OnOk, OnErr};
ghost use Rattle.std.specs.Option.{option_copied};
ghost use Rattle.dds_base.specs.declared.change.Change.{Change};
ghost use Rattle.dds_base.specs.declared.code.Code.TheVariants.{Memory};
ghost use Rattle.dds_base.specs.Kept.{WriterHistory, acknowledge, appended, append_refusal, exceeds, first_kept, is_awaited, is_kept, kept_change};
ghost use Rattle.dds_base.specs.Refusal.{Refuses};
ghost use Rattle.dds_history.specs.Held.{awaits, held_of, kept_after};
ghost use Rattle.dds_history.specs.Readers.{joined, left};
ghost use Rattle.dds_history.specs.Standing.{StandsFor, reader_count};

use crate::held::{Kept, first_awaited, is_awaited};
use dds_base::{Change, Code, HistoryQos, Key, Sn};
use std::alloc::Global;
use std::marker::Model;

/// A writer makes this many changes.
const MAX_CHANGES: u64 = 1 << 48;

/// The changes of a writer, numbered from 1, of which it keeps those that its policy has not dropped and that some
/// matched reliable reader has not acknowledged. A change costs the same however many are kept, and an acknowledgement
/// what it lets go of. What is acknowledged takes no room; what was dropped takes some until it is the oldest, or more
/// than is kept.
///
/// Its matched reliable readers are named by an index from 0. Where there is none, a change gets its number and is not
/// kept.
///
/// DDS 1.4, 2.2.3 (HISTORY, RESOURCE_LIMITS); RTPS 2.5, 8.2 (HistoryCache), 8.4.7 (ReaderProxy).
#[derive(Drop)]
pub struct History {
    max_samples: Option<u32>,
    /// The number of the last change.
    last: u64,
    /// Of each reader, the number below which it has acknowledged all.
    acknowledged: Vec<u64>,
    kept: Kept,
}

impl Model for History {
    ghost use Rattle.dds_history.specs.Entries.{parts, state};
    ghost use Rattle.dds_history.specs.Standing.{Held};

    ghost Value = { Held };

    ghost view = { λ h. record {
      policy = h.kept.policy;
      max_samples = h.max_samples;
      last = h.last;
      acknowledged = h.acknowledged.items;
      kept = parts (state h.kept);
    } };
}

impl History {
    /// The history of a writer that has made no change. `max_samples` is how many numbers it may keep, `None` any;
    /// `readers` is how many matched reliable readers it has, which have acknowledged nothing.
    ///
    /// # Errors
    ///
    /// `Memory` where a growth was refused.
    pub fn open(
        alloc: Global,
        policy: HistoryQos,
        max_samples: Option<u32>,
        readers: usize,
    ) -> Result<History, Code>
        // It stands for no change, of which each reader awaits the first.
        ensures ok { IfOk result (λ history. StandsFor history (record {
          policy = policy;
          max_samples = max_samples;
          changes = [];
          acknowledged = replicate readers 1;
        })) }
        // It has this many readers.
        ensures readers { IfOk result (λ history. reader_count history ≡ readers) }
        // The only refusal is for want of memory.
        ensures memory { IfErr result (λ code. code ≡ Memory) }
    {
        let acknowledged = vec![in alloc; 1u64; readers]?;
        Ok(History {
            max_samples,
            last: 0,
            acknowledged,
            kept: Kept::new(alloc, policy),
        })
    }

    /// Appends a change and gives its number, counted from 1.
    ///
    /// # Errors
    ///
    /// In this order, and each leaves the history as it was: `OutOfResources` after 2^48 changes, `Timeout` where
    /// more than `max_samples` numbers would be kept (max_blocking_time is 0), `Memory` where a growth was refused: a
    /// change that is not kept needs none.
    ///
    /// DDS 1.4, 2.2.3 (RESOURCE_LIMITS).
    pub fn append(&mut self, change: Change) -> Result<Sn, Code>
        // Against an accepted change there is no cause; it gets the next number, and is the newest.
        ensures ok { (w : WriterHistory) → StandsFor self.old w → IfOk result (λ number.
            (append_refusal w change ≡ None) × (number ≡ length w.changes + 1)
            × StandsFor self.new (appended w change)) }
        // A refusal is by the first cause that there is, or for want of memory.
        ensures refused { (w : WriterHistory) → StandsFor self.old w
            → IfErr result (Refuses (append_refusal w change)) }
        // Where there is no cause, it is refused only if the change is one to be kept.
        ensures wants { (w : WriterHistory) → StandsFor self.old w
            → OnErr result (append_refusal w change ≡ None
            → is_kept (appended w change) (length w.changes + 1) ≡ true) }
        // Numbers are 1 to 2^48.
        ensures number { IfOk result (λ number. (1 ≤ number) × (number ≤ 2 ^ 48)) }
        // The readers stay the same ones.
        ensures readers { reader_count self.new ≡ reader_count self.old }
        // A refusal leaves the history as it was.
        ensures err { OnErr result (self.new ≡ self.old) }
    {
        if let Some(code) = self.cause(change.key) {
            return Err(code);
        }
        let number = self.last + 1;
        let is_awaited = is_awaited(&self.acknowledged, number);
        self.kept.append(number, change, is_awaited)?;
        self.last = number;
        Ok(Sn::new(number))
    }

    /// Why one more change would be refused, but for want of memory: the code that `append` would answer.
    ///
    /// DDS 1.4, 2.2.3 (RESOURCE_LIMITS).
    pub fn refusal(&self, change: &Change) -> Option<Code>
        ensures refusal { (w : WriterHistory) → StandsFor self.now w
            → result ≡ append_refusal w change.now }
    {
        self.cause(change.key)
    }

    /// Why one more change of this key is refused.
    fn cause(&self, key: Key) -> Option<Code>
        ensures refusal { (w : WriterHistory) (change : Change) → StandsFor self.now w
            → change.key ≡ key → result ≡ append_refusal w change }
        ensures few { result ≡ None → self.now.last < 2 ^ 48 }
    {
        if MAX_CHANGES <= self.last {
            return Some(Code::OutOfResources);
        }
        if self.is_full(key) {
            return Some(Code::Timeout);
        }
        None
    }

    /// Whether one more change of this key would exceed the limit.
    fn is_full(&self, key: Key) -> bool
        requires { self.now.last < 2 ^ 48 }
        ensures { (w : WriterHistory) → StandsFor self.now w → result ≡ exceeds self.now.max_samples
            (kept_after w.policy (held_of w) key (awaits w.acknowledged (self.now.last + 1))) }
    {
        match self.max_samples {
            Some(most) => u64::from(most) < self.kept_with(key),
            None => false,
        }
    }

    /// How many numbers are kept once one more change of this key was made.
    fn kept_with(&self, key: Key) -> u64
        requires { self.now.last < 2 ^ 48 }
        ensures { (w : WriterHistory) → StandsFor self.now w → result ≡ kept_after w.policy (held_of w) key
            (awaits w.acknowledged (self.now.last + 1)) }
    {
        let is_awaited = is_awaited(&self.acknowledged, self.last + 1);
        self.kept.kept_with(key, is_awaited)
    }

    /// How many matched reliable readers there are: their indices lie below.
    pub fn readers(&self) -> usize
        // An index below it names a reader.
        ensures readers { result ≡ reader_count self.now }
        // So many acknowledgements are known.
        ensures acknowledged { (w : WriterHistory) → StandsFor self.now w
            → result ≡ length w.acknowledged }
    {
        self.acknowledged.len()
    }

    /// This reader, by its index from 0, has acknowledged all numbers below this one. An acknowledgement doesn't go
    /// back.
    ///
    /// RTPS 2.5, 8.4.7 (ReaderProxy, acked_changes_set).
    pub fn acked(&mut self, reader: usize, to: Sn)
        // There is such a reader.
        requires reader { reader < reader_count self.old }
        // What it stands for knows of the acknowledgement, and of nothing else.
        ensures stands { (w : WriterHistory) → StandsFor self.old w
            → StandsFor self.new (acknowledge w reader to) }
        // The readers stay the same ones.
        ensures readers { reader_count self.new ≡ reader_count self.old }
    {
        let to = to.number();
        if self.acknowledged[reader] < to {
            self.acknowledged[reader] = to;
            self.kept.acknowledge(first_awaited(&self.acknowledged, to));
        }
    }

    /// One more reliable reader is matched: its index is the next, and it awaits what is made from now on.
    ///
    /// # Errors
    ///
    /// `Memory` where a growth was refused; the history is then as it was.
    ///
    /// RTPS 2.5, 8.4.7 (StatefulWriter, matched_reader_add).
    pub fn join(&mut self) -> Result<(), Code>
        // What it stands for has the reader last, which has acknowledged all that was made.
        ensures ok { (w : WriterHistory) → StandsFor self.old w
            → OnOk result (StandsFor self.new (joined w)) }
        // There is one reader more.
        ensures readers { OnOk result (reader_count self.new ≡ reader_count self.old + 1) }
        // A refusal leaves the history as it was.
        ensures err { OnErr result (self.new ≡ self.old) }
        // The only refusal is for want of memory.
        ensures memory { IfErr result (λ code. code ≡ Memory) }
    {
        self.acknowledged.push(self.last.saturating_add(1))?;
        Ok(())
    }

    /// This reader, by its index from 0, is not matched any more, and those behind it move down by one. What it alone
    /// awaited is let go of.
    ///
    /// RTPS 2.5, 8.4.7 (StatefulWriter, matched_reader_remove).
    pub fn leave(&mut self, reader: usize)
        // There is such a reader.
        requires reader { reader < reader_count self.old }
        // What it stands for has the other readers, as they were.
        ensures stands { (w : WriterHistory) → StandsFor self.old w
            → StandsFor self.new (left w reader) }
        // There is one reader fewer.
        ensures readers { reader_count self.new + 1 ≡ reader_count self.old }
    {
        let _ = self.acknowledged.remove(reader);
        let next = self.last.saturating_add(1);
        self.kept
            .acknowledge(first_awaited(&self.acknowledged, next));
    }

    /// The number below which this reader, by its index from 0, has acknowledged all: 1 at the opening.
    ///
    /// RTPS 2.5, 8.4.7 (ReaderProxy, acked_changes_set).
    pub fn acknowledged(&self, reader: usize) -> Sn
        // There is such a reader.
        requires reader { reader < reader_count self.now }
        // It is the acknowledgement of the history that it stands for.
        ensures acknowledged { (w : WriterHistory) → StandsFor self.now w
            → result ≡ slice_index w.acknowledged reader }
    {
        Sn::new(self.acknowledged[reader])
    }

    /// Whether some matched reliable reader has not acknowledged the number. Every number may be asked for.
    ///
    /// RTPS 2.5, 8.4.7 (ReaderProxy, unacked_changes).
    pub fn is_awaited(&self, number: Sn) -> bool
        ensures awaited { (w : WriterHistory) → StandsFor self.now w
            → result ≡ is_awaited w number }
    {
        is_awaited(&self.acknowledged, number.number())
    }

    /// Whether the number is kept: it is a change's that is not dropped, and that some reader has not acknowledged.
    pub fn kept(&self, number: Sn) -> bool
        ensures kept { (w : WriterHistory) → StandsFor self.now w → result ≡ is_kept w number }
    {
        self.kept.find(number.number()).is_some()
    }

    /// The change of a kept number; `None` where the number is not kept.
    pub fn get(&self, number: Sn) -> Option<&Change>
        ensures change { (w : WriterHistory) → StandsFor self.now w
            → option_copied result ≡ kept_change w number }
    {
        let entry = self.kept.find(number.number())?;
        Some(&entry.change)
    }

    /// The first number that is kept, or the one past the last.
    ///
    /// RTPS 2.5, 8.3.8 (Heartbeat: firstSN).
    pub fn first(&self) -> Sn
        ensures first { (w : WriterHistory) → StandsFor self.now w → result ≡ first_kept w }
    {
        match self.kept.first() {
            Some(entry) => Sn::new(entry.number),
            None => Sn::new(self.last.saturating_add(1)),
        }
    }

    /// The number of the last change, kept or not, at most 2^48; 0 before the first, as lastSN is in a HEARTBEAT of a
    /// writer without changes.
    ///
    /// RTPS 2.5, 8.3.8 (Heartbeat: lastSN).
    pub fn last(&self) -> Sn
        // So many changes were made.
        ensures last { (w : WriterHistory) → StandsFor self.now w → result ≡ length w.changes }
        // At most 2^48.
        ensures few { (w : WriterHistory) → StandsFor self.now w → result ≤ 2 ^ 48 }
    {
        Sn::new(self.last)
    }
}
