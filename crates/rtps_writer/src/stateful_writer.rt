//! A writer with its matched reliable readers. Best-effort ones it does not know.
//!
//! RTPS 2.5, 8.4.7 (StatefulWriter, ReaderProxy).

ghost use Rattle.std.specs.Prelude.{◌≡◌, ◌≢◌, ◌≤◌, ◌<◌, ◌+◌, ◌-◌, ◌^◌, pos, true, false, [], get_or, nat_lt, length, vec_capacity, None, Some, IfOk, IfErr, OnOk, OnErr};
ghost use Rattle.std.specs.Option.{option_copied};
ghost use Rattle.dds_base.specs.declared.code.Code.TheVariants.{Memory, PreconditionNotMet};
ghost use Rattle.dds_base.specs.Kept.{WriterHistory, append_refusal, first_kept, kept_change};
ghost use Rattle.dds_base.specs.Refusal.{Refuses};
ghost use Rattle.dds_base.specs.Written.{Registered, Changed, LookedAt, StrengthSet, is_key_registered, liveliness_lost_status, strength_now};
ghost use Rattle.dds_base.specs.Counts.{is_later};
ghost use Rattle.dds_history.specs.Standing.{StandsFor as HistoryStandsFor};
ghost use Rattle.rtps_sets.specs.NumberSet.{span};
ghost use Rattle.rtps_writer.specs.Acknack.{acknack_answers, after_acknack, answers_after, applied, if_later, is_applied, newly_acknowledged};
ghost use Rattle.rtps_writer.specs.Liveliness.{assert_refusal, asserted, heartbeat_asserted};
ghost use Rattle.rtps_writer.specs.Standing.{StandsFor, reader_count};
ghost use Rattle.rtps_writer.specs.WriterState.{WantsRoom, WriterState, answering, asking, entering, first_for, heartbeat_due, history_of, is_asked, is_reader_behind, is_reader_silent, is_reader_told, is_told, joined, last_for, last_of, left, opening, owed_from, ticked, unasked};

use crate::answer::{Answer, Answered, answered_from, put_answers};
use crate::heartbeat::HeartbeatDue;
use crate::liveliness::Liveliness;
use crate::registration::RegisteredInstances;
use dds_base::{
    Change, Code, HistoryQos, Key, LivelinessLostStatus, MAX_COUNT, Moment, Sn, is_later,
};
use dds_history::History;
use rtps_sets::SnSet;
use std::alloc::Global;
use std::marker::Model;

/// The second number, where it is greater.
fn if_later(before: Sn, after: Sn) -> Option<Sn>
    ensures { result ≡ if_later before after }
{
    if before.number() < after.number() {
        Some(after)
    } else {
        None
    }
}

/// One writer with its matched reliable readers, which are named by an index from 0.
///
/// RTPS 2.5, 8.4.7 (StatefulWriter, ReaderProxy).
#[derive(Drop)]
pub struct StatefulWriter {
    alloc: Global,
    history: History,
    /// The instances that it has registered.
    registered: RegisteredInstances,
    /// Of each reader, the number of the first change that was made since it was matched.
    firsts: Vec<u64>,
    /// Of each reader, the count of the last ACKNACK that was applied.
    counts: Vec<Option<i32>>,
    /// Of each reader, whether it asks for a HEARTBEAT.
    asks: Vec<bool>,
    /// Of each reader, whether it is silent: it was greeted, and has not answered yet.
    silents: Vec<bool>,
    /// How many HEARTBEAT counts were used.
    counts_used: u32,
    liveliness: Liveliness,
    /// `None` of a writer of shared ownership.
    strength: Option<i32>,
}

impl Model for StatefulWriter {
    ghost use Rattle.std.specs.Prelude.{◌≡◌, length};
    ghost use Rattle.dds_history.specs.Standing.{reader_count as history_readers};
    ghost use Rattle.rtps_writer.specs.Standing.{Kept};

    ghost Value = { Kept };

    ghost view = { λ w. record {
      history = w.history;
      registered = w.registered.keys;
      firsts = w.firsts.items;
      counts = w.counts.items;
      asks = w.asks.items;
      silents = w.silents.items;
      counts_used = w.counts_used;
      liveliness = w.liveliness;
      strength = w.strength;
    } };

    ghost invariant = { λ w. (length w.counts.items ≡ history_readers w.history)
        × (length w.firsts.items ≡ history_readers w.history)
        × (length w.asks.items ≡ history_readers w.history)
        × (length w.silents.items ≡ history_readers w.history) };
}

impl StatefulWriter {
    /// A writer at which nothing has happened. `max_samples` is how many numbers it may keep, `None` any; `lease` is in
    /// units of 2^-32 second, `None` never ends (DDS 1.4, 2.2.3, LIVELINESS); `strength` is what its changes carry at
    /// first, `None` of a writer of shared ownership (OWNERSHIP_STRENGTH); `readers` is how many matched reliable readers
    /// it has, which have acknowledged nothing.
    ///
    /// A writer without reliable readers keeps nothing and never answers `Timeout`, but uses counts for its assertions.
    ///
    /// # Errors
    ///
    /// `Memory` where a growth was refused.
    pub fn open(
        alloc: Global,
        policy: HistoryQos,
        max_samples: Option<u32>,
        lease: Option<u64>,
        strength: Option<i32>,
        readers: usize,
    ) -> Result<StatefulWriter, Code>
        // It stands for a writer at which nothing has happened.
        ensures ok { IfOk result
            (λ writer. StandsFor writer
            (opening policy max_samples lease strength readers)) }
        // It has this many readers.
        ensures readers { IfOk result (λ writer. reader_count writer ≡ readers) }
        // The only refusal is for want of memory.
        ensures memory { IfErr result (λ code. code ≡ Memory) }
    {
        let history = History::open(alloc, policy, max_samples, readers)?;
        let firsts = vec![in alloc; 1u64; readers]?;
        let counts = vec![in alloc; None; readers]?;
        let asks = vec![in alloc; false; readers]?;
        let silents = vec![in alloc; false; readers]?;
        Ok(StatefulWriter {
            alloc,
            history,
            registered: RegisteredInstances::new(alloc),
            firsts,
            counts,
            asks,
            silents,
            counts_used: 0,
            liveliness: Liveliness::new(lease),
            strength,
        })
    }

    /// One more reliable reader is matched, of whose ACKNACKs the last that was applied had this count, if one was. Its
    /// index is the next. It is owed what is made from now on, and counts as one that has acknowledged what was made.
    /// One that was greeted is silent until it answers.
    ///
    /// # Errors
    ///
    /// `Memory` where a growth was refused; the writer is then as it was.
    ///
    /// RTPS 2.5, 8.4.7 (StatefulWriter, matched_reader_add); DDS 1.4, 2.2.3 (DURABILITY: VOLATILE).
    pub fn join(&mut self, count: Option<i32>, is_silent: bool) -> Result<(), Code>
        // It stands for the writer with the reader last.
        ensures ok { (s : WriterState) → StandsFor self.old s
            → OnOk result (StandsFor self.new (joined s count is_silent)) }
        // There is one reader more.
        ensures readers { OnOk result (reader_count self.new ≡ reader_count self.old + 1) }
        // A refusal leaves the writer as it was.
        ensures err { OnErr result (self.new ≡ self.old) }
        // The only refusal is for want of memory.
        ensures memory { IfErr result (λ code. code ≡ Memory) }
    {
        // Before anything changes.
        self.firsts.reserve(1)?;
        self.counts.reserve(1)?;
        self.asks.reserve(1)?;
        self.silents.reserve(1)?;
        let next = self.history.last().number().saturating_add(1);
        self.history.join()?;
        self.firsts.push_reserved(next);
        self.counts.push_reserved(count);
        self.asks.push_reserved(false);
        self.silents.push_reserved(is_silent);
        Ok(())
    }

    /// This reader, by its index from 0, is not matched any more, and those behind it move down by one. What it alone had
    /// not acknowledged is not kept any longer. Gives the count of the last of its ACKNACKs that was applied, for a match
    /// to come.
    ///
    /// RTPS 2.5, 8.4.7 (StatefulWriter, matched_reader_remove).
    pub fn leave(&mut self, reader: usize) -> Option<i32>
        // There is such a reader.
        requires reader { reader < reader_count self.old }
        // It stands for the writer with the other readers, as they were.
        ensures stands { (s : WriterState) → StandsFor self.old s
            → StandsFor self.new (left s reader) }
        // The count is that of the reader.
        ensures count { (s : WriterState) → StandsFor self.old s
            → result ≡ get_or s.counts reader None }
        // There is one reader fewer.
        ensures readers { reader_count self.new + 1 ≡ reader_count self.old }
    {
        self.history.leave(reader);
        let _ = self.firsts.remove(reader);
        let _ = self.asks.remove(reader);
        let _ = self.silents.remove(reader);
        self.counts.remove(reader)
    }

    /// Whether it has registered the instance.
    ///
    /// DDS 1.4, 2.2.2.4 (register_instance).
    pub fn is_registered(&self, key: Key) -> bool
        ensures registered { (s : WriterState) → StandsFor self.now s
            → result ≡ is_key_registered key s.written }
    {
        self.registered.has(key)
    }

    /// Registers an instance, whether or not it is registered.
    ///
    /// # Errors
    ///
    /// `Memory` where it is not registered yet, and a growth was refused; the writer is then as it was.
    ///
    /// DDS 1.4, 2.2.2.4 (register_instance).
    pub fn register(&mut self, key: Key) -> Result<(), Code>
        // The registration is entered.
        ensures ok { (s : WriterState) → StandsFor self.old s
            → OnOk result (StandsFor self.new (entering s (Registered key))) }
        // The readers stay the same ones.
        ensures readers { reader_count self.new ≡ reader_count self.old }
        // A refusal leaves the writer as it was.
        ensures err { OnErr result (self.new ≡ self.old) }
        // The only refusal is for want of memory.
        ensures memory { IfErr result (λ code. code ≡ Memory) }
        // It is refused only where the instance is not registered yet.
        ensures new { (s : WriterState) → StandsFor self.old s
            → OnErr result (is_key_registered key s.written ≡ false) }
    {
        self.registered.register(key)?;
        Ok(())
    }

    /// Why one more change would be refused, but for want of memory: the code that `write` would answer.
    ///
    /// DDS 1.4, 2.2.3 (RESOURCE_LIMITS).
    pub fn refusal(&self, change: &Change) -> Option<Code>
        ensures refusal { (s : WriterState) → StandsFor self.now s
            → result ≡ append_refusal (history_of s) change.now }
    {
        self.history.refusal(change)
    }

    /// Makes a change, and gives its number, counted from 1. A write or a dispose registers its instance, the others
    /// end its registration. The change asserts the writer's liveliness, at its source timestamp.
    ///
    /// # Errors
    ///
    /// In this order, and each leaves the writer as it was: `OutOfResources` after 2^48 changes, `Timeout` where more
    /// than `max_samples` numbers would be kept (max_blocking_time is 0), `Memory` where a growth was refused: a change
    /// that is not kept, and does not register its instance, needs none.
    ///
    /// DDS 1.4, 2.2.2.4 (write, dispose, unregister_instance), 2.2.3 (RESOURCE_LIMITS).
    pub fn write(&mut self, change: Change) -> Result<Sn, Code>
        // The change is entered.
        ensures ok { (s : WriterState) → StandsFor self.old s
            → OnOk result (StandsFor self.new (entering s (Changed change))) }
        // Against an accepted change there is no cause, and it gets the next number.
        ensures accepted { (s : WriterState) → StandsFor self.old s → IfOk result (λ number.
            (append_refusal (history_of s) change ≡ None) × (number ≡ last_of s + 1)) }
        // A refusal is by the first cause that there is, or for want of memory.
        ensures refused { (s : WriterState) → StandsFor self.old s
            → IfErr result (Refuses (append_refusal (history_of s) change)) }
        // Where there is no cause, it is refused only if the change is one to be kept, or registers its instance.
        ensures wants { (s : WriterState) → StandsFor self.old s
            → OnErr result (append_refusal (history_of s) change ≡ None → WantsRoom s change) }
        // Numbers are 1 to 2^48.
        ensures number { IfOk result (λ number. (1 ≤ number) × (number ≤ 2 ^ 48)) }
        // The readers stay the same ones.
        ensures readers { reader_count self.new ≡ reader_count self.old }
        // A refusal leaves the writer as it was.
        ensures err { OnErr result (self.new ≡ self.old) }
    {
        let (key, kind, moment) = (change.key, change.kind, change.source_timestamp);
        let Ok(is_again) = self.registered.reserve(key, kind) else {
            // Every other cause goes first.
            return Err(self.history.refusal(&change).unwrap_or(Code::Memory));
        };
        match self.history.append(change) {
            Ok(number) => {
                self.registered.note(key, kind, is_again);
                self.liveliness.assert_at(moment);
                Ok(number)
            }
            Err(code) => Err(code),
        }
    }

    /// The change of a kept number; `None` where the number is not kept.
    pub fn get(&self, number: Sn) -> Option<&Change>
        ensures change { (s : WriterState) → StandsFor self.now s
            → option_copied result ≡ kept_change (history_of s) number }
    {
        self.history.get(number)
    }

    /// The number of the last change; 0 before the first.
    pub fn last(&self) -> Sn
        ensures last { (s : WriterState) → StandsFor self.now s → result ≡ last_of s }
    {
        self.history.last()
    }

    /// How many matched reliable readers there are: their indices lie below.
    pub fn readers(&self) -> usize
        // An index below it names a reader.
        ensures readers { result ≡ reader_count self.now }
        // So many acknowledgements are known.
        ensures acknowledged { (s : WriterState) → StandsFor self.now s
            → result ≡ length s.acknowledged }
    {
        self.history.readers()
    }

    /// From which number on this reader is owed the changes.
    fn owed_from(&self, reader: usize) -> Sn
        requires reader { reader < reader_count self.now }
        ensures { (s : WriterState) → StandsFor self.now s → result ≡ owed_from s reader }
    {
        let next = self.history.last().number().saturating_add(1);
        Sn::new(self.firsts[reader].min(next))
    }

    /// The first number that a HEARTBEAT to this reader alone, by its index from 0, names: the greater of that from which
    /// on it is owed the changes, and the least that is kept.
    ///
    /// RTPS 2.5, 8.3.8 (Heartbeat: firstSN).
    pub fn first_for(&self, reader: usize) -> Sn
        // There is such a reader.
        requires reader { reader < reader_count self.now }
        ensures first { (s : WriterState) → StandsFor self.now s → result ≡ first_for s reader }
    {
        let owed = self.owed_from(reader).number();
        Sn::new(owed.max(self.history.first().number()))
    }

    /// Whether this reader, by its index from 0, was greeted, and has not answered yet.
    pub fn is_silent(&self, reader: usize) -> bool
        // There is such a reader.
        requires reader { reader < reader_count self.now }
        // It is so exactly where that reader of the writer that it stands for is silent.
        ensures silent { (s : WriterState) → StandsFor self.now s
            → result ≡ is_reader_silent s reader }
    {
        self.silents[reader]
    }

    /// The last number that a HEARTBEAT to this reader alone, by its index from 0, names: that of the last change; but
    /// of a silent one the number before the first.
    ///
    /// RTPS 2.5, 8.3.8 (Heartbeat: lastSN).
    pub fn last_for(&self, reader: usize) -> Sn
        // There is such a reader.
        requires reader { reader < reader_count self.now }
        ensures last { (s : WriterState) → StandsFor self.now s → result ≡ last_for s reader }
    {
        if self.is_silent(reader) {
            Sn::new(self.first_for(reader).number().saturating_sub(1))
        } else {
            self.last()
        }
    }

    /// Whether this reader, by its index from 0, has not acknowledged all changes.
    ///
    /// RTPS 2.5, 8.4.7 (ReaderProxy, unacked_changes).
    pub fn is_behind(&self, reader: usize) -> bool
        // There is such a reader.
        requires reader { reader < reader_count self.now }
        // It is so exactly where the reader lacks a change of the writer that it stands for.
        ensures behind { (s : WriterState) → StandsFor self.now s
            → result ≡ is_reader_behind s reader }
    {
        self.history.acknowledged(reader).number() <= self.history.last().number()
    }

    /// This reader, by its index from 0, asks for a HEARTBEAT.
    ///
    /// RTPS 2.5, 8.4.9 (reliable StatefulWriter), 8.3.8 (AckNack: FinalFlag).
    pub fn ask(&mut self, reader: usize)
        // There is such a reader.
        requires reader { reader < reader_count self.old }
        // It stands for the writer of which that reader asks for one.
        ensures stands { (s : WriterState) → StandsFor self.old s
            → StandsFor self.new (asking s reader) }
        // The readers stay the same ones.
        ensures readers { reader_count self.new ≡ reader_count self.old }
    {
        self.asks[reader] = true;
    }

    /// This reader, by its index from 0, has answered: it is silent no longer.
    ///
    /// RTPS 2.5, 8.4.9 (reliable StatefulWriter), 8.3.8 (AckNack).
    pub fn answer_heard(&mut self, reader: usize)
        // There is such a reader.
        requires reader { reader < reader_count self.old }
        // It stands for the writer of which that reader is not silent.
        ensures stands { (s : WriterState) → StandsFor self.old s
            → StandsFor self.new (answering s reader) }
        // The readers stay the same ones.
        ensures readers { reader_count self.new ≡ reader_count self.old }
    {
        self.silents[reader] = false;
    }

    /// Whether the next tick's HEARTBEAT is for this reader, by its index from 0: it has not acknowledged all changes,
    /// asks for one, or is silent.
    ///
    /// RTPS 2.5, 8.4.7 (ReaderProxy, unacked_changes), 8.3.8 (AckNack: FinalFlag).
    pub fn is_told(&self, reader: usize) -> bool
        // There is such a reader.
        requires reader { reader < reader_count self.now }
        // It is so exactly where the HEARTBEAT of the writer that it stands for is for that reader.
        ensures told { (s : WriterState) → StandsFor self.now s
            → result ≡ is_reader_told s reader }
    {
        self.is_behind(reader) || self.asks[reader] || self.silents[reader]
    }

    /// Whether some reader asks for a HEARTBEAT, or is silent.
    fn is_asked(&self) -> bool
        ensures { (s : WriterState) → StandsFor self.now s → result ≡ is_asked s }
    {
        self.asks.contains(&true) || self.silents.contains(&true)
    }

    /// Whether the next tick's HEARTBEAT is for some reader.
    fn tells_any(&self) -> bool
        ensures { (s : WriterState) → StandsFor self.now s → result ≡ is_told s }
    {
        let last = self.history.last();
        self.history.is_awaited(last) || self.is_asked()
    }

    /// No reader asks for a HEARTBEAT any longer: each was told.
    ///
    /// RTPS 2.5, 8.4.9 (reliable StatefulWriter), 8.3.8 (AckNack: FinalFlag).
    pub fn tell_all(&mut self)
        // It stands for the writer of which no reader asks for one.
        ensures stands { (s : WriterState) → StandsFor self.old s → StandsFor self.new (unasked s) }
        // The readers stay the same ones.
        ensures readers { reader_count self.new ≡ reader_count self.old }
    {
        self.asks.fill(false);
    }

    /// The HEARTBEAT of the next count. One is left.
    fn next_heartbeat(&mut self) -> HeartbeatDue
        requires { self.old.counts_used < 2 ^ 31 - 1 }
        ensures used { self.new ≡ record self.old { counts_used = self.old.counts_used + 1 } }
        ensures due { (w : WriterHistory) → HistoryStandsFor self.old.history w → result ≡ record {
          first = first_kept w;
          last = length w.changes;
          count = pos (self.old.counts_used + 1);
        } }
    {
        self.counts_used += 1;
        HeartbeatDue {
            first: self.history.first(),
            last: self.history.last(),
            count: self.counts_used as i32,
        }
    }

    /// Asserts the writer's liveliness at this moment, by the next count, and gives the HEARTBEAT that tells the readers
    /// of it; `None` where no reader is matched, of either reliability, as the caller says: the count is used all the same.
    ///
    /// # Errors
    ///
    /// `OutOfResources` where 2^31 - 1 counts were used; the writer is then as it was.
    ///
    /// DDS 1.4, 2.2.2.4 (assert_liveliness); RTPS 2.5, 8.3.8 (Heartbeat: LivelinessFlag).
    pub fn assert(&mut self, is_matched: bool, now: Moment) -> Result<Option<HeartbeatDue>, Code>
        // The assertion is entered.
        ensures ok { (s : WriterState) → StandsFor self.old s
            → OnOk result (StandsFor self.new (asserted s now)) }
        // There was a count left, and a HEARTBEAT with it is due exactly where a reader is matched.
        ensures accepted { (s : WriterState) → StandsFor self.old s
            → IfOk result (λ due. (assert_refusal s ≡ None) × (due ≡ heartbeat_asserted s is_matched now)) }
        // It is refused where no count was left.
        ensures refused { (s : WriterState) → StandsFor self.old s
            → IfErr result (λ code. assert_refusal s ≡ Some code) }
        // The readers stay the same ones.
        ensures readers { reader_count self.new ≡ reader_count self.old }
        // A refusal leaves the writer as it was.
        ensures err { OnErr result (self.new ≡ self.old) }
    {
        if MAX_COUNT <= self.counts_used {
            return Err(Code::OutOfResources);
        }
        self.liveliness.assert_at(now);
        let heartbeat = self.next_heartbeat();
        Ok(is_matched.then_some(heartbeat))
    }

    /// The strength that its next change carries; `None` of a writer of shared ownership.
    ///
    /// DDS 1.4, 2.2.3 (OWNERSHIP_STRENGTH).
    pub fn strength(&self) -> Option<i32>
        // It is that of the definitions.
        ensures strength { (s : WriterState) → StandsFor self.now s
            → result ≡ strength_now s.strength s.written }
    {
        self.strength
    }

    /// Sets the strength that its changes carry from now on. Those that were made keep theirs. It asserts nothing, and
    /// takes no memory.
    ///
    /// # Errors
    ///
    /// `PreconditionNotMet` of a writer of shared ownership, which is then as it was.
    ///
    /// DDS 1.4, 2.2.3 (OWNERSHIP_STRENGTH).
    pub fn set_strength(&mut self, strength: i32) -> Result<(), Code>
        // The strength is entered.
        ensures ok { (s : WriterState) → StandsFor self.old s
            → OnOk result (StandsFor self.new (entering s (StrengthSet strength))) }
        // It is taken by a writer of exclusive ownership.
        ensures accepted { (s : WriterState) → StandsFor self.old s → OnOk result (s.strength ≢ None) }
        // It is refused by one of shared ownership.
        ensures refused { (s : WriterState) → StandsFor self.old s
            → IfErr result (λ code. (s.strength ≡ None) × (code ≡ PreconditionNotMet)) }
        // The readers stay the same ones.
        ensures readers { reader_count self.new ≡ reader_count self.old }
        // A refusal leaves the writer as it was.
        ensures err { OnErr result (self.new ≡ self.old) }
    {
        let Some(carried) = &mut self.strength else {
            return Err(Code::PreconditionNotMet);
        };
        *carried = strength;
        Ok(())
    }

    /// What LIVELINESS_LOST says of the writer. This does not look at it: the change is told again.
    ///
    /// DDS 1.4, 2.2.4.1 (LIVELINESS_LOST, LivelinessLostStatus).
    pub fn liveliness_status(&self) -> LivelinessLostStatus
        // It is the status of the definitions.
        ensures status { (s : WriterState) → StandsFor self.now s
            → result ≡ liveliness_lost_status s.lease s.written }
    {
        self.liveliness.status()
    }

    /// What LIVELINESS_LOST says of the writer; it is looked at by this, so the next change is told against it.
    ///
    /// DDS 1.4, 2.2.4.1 (LIVELINESS_LOST, LivelinessLostStatus).
    pub fn liveliness_lost(&mut self) -> LivelinessLostStatus
        // It is the status of the definitions.
        ensures status { (s : WriterState) → StandsFor self.old s
            → result ≡ liveliness_lost_status s.lease s.written }
        // The look is entered.
        ensures stands { (s : WriterState) → StandsFor self.old s
            → StandsFor self.new (entering s LookedAt) }
        // The readers stay the same ones.
        ensures readers { reader_count self.new ≡ reader_count self.old }
    {
        self.liveliness.look()
    }

    /// Whether its liveliness was lost since LIVELINESS_LOST was looked at.
    ///
    /// DDS 1.4, 2.2.4.1 (LIVELINESS_LOST), 2.2.4.2 (changes in status).
    pub fn is_lost(&self) -> bool
        // So it is while the status of the definitions has a change to tell.
        ensures lost { (s : WriterState) → StandsFor self.now s
            → result ≡ nat_lt 0 (liveliness_lost_status s.lease s.written).total_count_change }
    {
        self.liveliness.is_lost()
    }

    /// The time of its peer has gone on: the HEARTBEAT that this asks for, if some reader has not acknowledged all
    /// changes, asks for one, or is silent. It is for those readers: `is_told` names them, and `tell_all` has to
    /// follow. Where its lease is over, the writer's liveliness is lost (DDS 1.4, 2.2.3, LIVELINESS).
    ///
    /// Each HEARTBEAT of the writer has the next count from 1 on; after 2^31 - 1 there are no more.
    ///
    /// RTPS 2.5, 8.4.9 (reliable StatefulWriter: heartbeatPeriod).
    pub fn tick(&mut self, now: Moment) -> Option<HeartbeatDue>
        // The tick is entered, with whether its HEARTBEAT is for some reader.
        ensures stands { (s : WriterState) → StandsFor self.old s
            → StandsFor self.new (ticked s now) }
        // A HEARTBEAT is due exactly where it is for some reader and a count is left, with the numbers that are kept.
        ensures due { (s : WriterState) → StandsFor self.old s → result ≡ heartbeat_due s now }
        // The readers stay the same ones.
        ensures readers { reader_count self.new ≡ reader_count self.old }
    {
        let tells_any = self.tells_any();
        self.liveliness.tick(now);
        if !tells_any || MAX_COUNT <= self.counts_used {
            return None;
        }
        Some(self.next_heartbeat())
    }

    /// Whether an ACKNACK of this reader, by its index from 0, is applied: its count is greater than that of the last
    /// one applied, and its base is no more than one past the last number.
    ///
    /// RTPS 2.5, 8.3.8 (AckNack), 8.4.7 (ReaderProxy).
    pub fn applies(&self, reader: usize, base: Sn, count: i32) -> bool
        // There is such a reader.
        requires reader { reader < reader_count self.now }
        // It is so exactly where the writer that it stands for applies it.
        ensures applied { (s : WriterState) → StandsFor self.now s
            → result ≡ is_applied s reader base count }
    {
        is_later(self.counts[reader], count)
            && base.number() <= self.history.last().number().saturating_add(1)
    }

    /// An ACKNACK of this reader is applied: the number below which it has acknowledged all, where that is greater than
    /// before.
    fn apply(&mut self, reader: usize, base: Sn, count: i32) -> Option<Sn>
        requires { reader < reader_count self.old }
        ensures stands { (s : WriterState) → StandsFor self.old s
            → StandsFor self.new (applied s reader base count) }
        ensures acknowledged { (s : WriterState) → StandsFor self.old s
            → result ≡ newly_acknowledged s (applied s reader base count) reader }
        ensures readers { reader_count self.new ≡ reader_count self.old }
    {
        let before = self.history.acknowledged(reader);
        self.history.acked(reader, base);
        self.counts[reader] = Some(count);
        let after = self.history.acknowledged(reader);
        if_later(before, after)
    }

    /// The answers to the members of the set of an ACKNACK of this reader, which has this base. There is room for them.
    fn answer(&self, reader: usize, base: Sn, set: &SnSet, room: Vec<Answer>) -> Vec<Answer>
        requires reader { reader < reader_count self.now }
        requires none { room.items ≡ [] }
        requires room { span set.now.members ≤ vec_capacity room }
        ensures { (s : WriterState) → StandsFor self.now s
            → result.items ≡ answers_after s reader base set.now }
    {
        let mut answers = room;
        let owed = self.owed_from(reader);
        let from = answered_from(owed, self.history.acknowledged(reader), base);
        put_answers(&mut answers, &self.history, set, owed, from);
        answers
    }

    /// An ACKNACK of this reader, as `on_acknack` has it, with room for the answers, which was made before: it is never
    /// refused.
    ///
    /// RTPS 2.5, 8.3.8 (AckNack), 8.4.7 (ReaderProxy).
    pub fn take_acknack(
        &mut self,
        reader: usize,
        base: Sn,
        set: &SnSet,
        count: i32,
        room: Vec<Answer>,
    ) -> Answered
        // There is such a reader.
        requires reader { reader < reader_count self.old }
        // The room has nothing in it.
        requires none { room.items ≡ [] }
        // It is for each place of the set up to its last member.
        requires room { span set.now.members ≤ vec_capacity room }
        // The acknowledgement and the count are the reader's, or nothing changes.
        ensures stands { (s : WriterState) → StandsFor self.old s
            → StandsFor self.new (after_acknack s reader base count) }
        // It says whether the reader has acknowledged more than before.
        ensures acknowledged { (s : WriterState) → StandsFor self.old s
            → result.acknowledged
            ≡ newly_acknowledged s (after_acknack s reader base count) reader }
        // Each member from where it is answered to the last number is, in order.
        ensures answers { (s : WriterState) → StandsFor self.old s
            → result.answers.items ≡ acknack_answers s reader base set.now count }
        // The readers stay the same ones.
        ensures readers { reader_count self.new ≡ reader_count self.old }
    {
        if self.applies(reader, base, count) {
            let acknowledged = self.apply(reader, base, count);
            Answered {
                acknowledged,
                answers: self.answer(reader, base, set, room),
            }
        } else {
            Answered {
                acknowledged: None,
                answers: room,
            }
        }
    }

    /// An ACKNACK of this reader, by its index from 0: it has all below the base, and asks for the members of the set.
    ///
    /// It is ignored unless its count is greater than that of the last one applied, and its base is no more than one
    /// past the last number.
    ///
    /// # Errors
    ///
    /// `Memory` where it is applied and asks for something, and a growth was refused; the writer is then as it was.
    ///
    /// RTPS 2.5, 8.3.8 (AckNack), 8.4.7 (ReaderProxy).
    pub fn on_acknack(
        &mut self,
        reader: usize,
        base: Sn,
        set: &SnSet,
        count: i32,
    ) -> Result<Answered, Code>
        // There is such a reader.
        requires reader { reader < reader_count self.old }
        // The acknowledgement and the count are the reader's, or nothing changes.
        ensures stands { (s : WriterState) → StandsFor self.old s
            → OnOk result (StandsFor self.new (after_acknack s reader base count)) }
        // It says whether the reader has acknowledged more than before.
        ensures acknowledged { (s : WriterState) → StandsFor self.old s → IfOk result (λ answered.
            answered.acknowledged
            ≡ newly_acknowledged s (after_acknack s reader base count) reader) }
        // Each member from where it is answered to the last number is, in order.
        ensures answers { (s : WriterState) → StandsFor self.old s → IfOk result (λ answered.
            answered.answers.items ≡ acknack_answers s reader base set.now count) }
        // The readers stay the same ones.
        ensures readers { reader_count self.new ≡ reader_count self.old }
        // A refusal leaves the writer as it was.
        ensures err { OnErr result (self.new ≡ self.old) }
        // The only refusal is for want of memory.
        ensures memory { IfErr result (λ code. code ≡ Memory) }
        // It is refused only where the ACKNACK is applied, and asks for something.
        ensures asked { (s : WriterState) → StandsFor self.old s → OnErr result
            ((is_applied s reader base count ≡ true) × (0 < span set.now.members)) }
    {
        let mut room = Vec::new(self.alloc);
        if !self.applies(reader, base, count) {
            return Ok(Answered {
                acknowledged: None,
                answers: room,
            });
        }
        room.reserve(set.bits())?;
        Ok(self.take_acknack(reader, base, set, count, room))
    }
}
