//! The samples of a reader and its instances, kept up with what happens.
//!
//! DDS 1.4, 2.2.2.5 (read, take, SampleInfo); RTPS 2.5, 8.2 (HistoryCache of a reader).

ghost use Rattle.std.specs.Prelude.{◌≡◌, ◌==◌, ℕ, ◌+◌, ◌-◌, ◌≤◌, ◌<◌, ◌^◌, ◌∷◌, [], if◌then◌else◌, nat_le, nat_lt, List, None, Some, true, false, Ok, length, IsOk, OnOk, OnErr, IfErr};
ghost use Rattle.dds_base.specs.declared.happening.Happening.{Happening};
ghost use Rattle.dds_base.specs.declared.happening.Happening.TheVariants.{Came, Passed, Heard, Died, Left, Joined};
ghost use Rattle.dds_base.specs.declared.code.Code.TheVariants.{Memory};
ghost use Rattle.dds_base.specs.Access.{instance_of, handle_of};
ghost use Rattle.dds_base.specs.Ownership.{IsMatched};
ghost use Rattle.dds_base.specs.Presence.{has_room};
ghost use Rattle.dds_base.specs.StatusFlags.{data_available_at};
ghost use Rattle.dds_cache.specs.Standing.{deaths_of, qos_of, room_of, StandsFor};
ghost use Rattle.dds_cache.specs.Standing.{MakesRoom, TakesEntry};

use crate::arriving::{add_left, add_write, is_accepted_write};
use crate::dying::add_markers;
use crate::ending::{hold_present, is_end};
use crate::kept::{Kept, is_kept_after};
use crate::pushing::{push_out, push_out_by_write};
use crate::room::{count_arrival, is_room};
use crate::summary::Summary;
use crate::sweeping::{let_go, next_sweep, sweep};
use dds_base::{
    Arrival, Code, Handle, Key, MatchedWriter, Moment, OwnershipQos, ReaderQos, Sample, Sn, Spare,
};
use dds_instances::Instances;
use std::alloc::Global;
use std::marker::Model;

/// Where room is made, it is made for so many entries beyond those that are asked for: so most calls find it, and the tables
/// are asked for room only now and then.
const SPARE: usize = 16;

/// What a reader holds: its instances, and its samples in the order in which they came.
///
/// A change takes about the same time however many samples and instances there are; now and then the samples that are
/// no longer present are swept out. A read or a take goes over the samples as far as the last that it returns, where one
/// instance has all that it asks for; else once over them, and sorts those that it returns by handle; and over none where
/// the masks ask for none by what is known of all. A change that may end the life of its instance goes along the samples of
/// that one; a death, and a take of samples of an instance for which nobody is registered, go over all samples; and so does
/// what ends a life, to let those go that it leaves behind.
#[derive(Drop)]
pub struct ReaderCache {
    pub(crate) alloc: Global,
    pub(crate) qos: ReaderQos,
    pub(crate) instances: Instances,
    /// The present samples, and some that are no longer present: dropped by the history, or taken; none of an instance that
    /// is not known any more.
    pub(crate) samples: Vec<Kept>,
    /// How many changes came; it stays at its greatest value.
    pub(crate) arrivals: u64,
    /// How many samples there are when they are swept next.
    pub(crate) sweep_at: usize,
    /// How many of them were taken, how many of the others were read, and have data, and where those of each instance are.
    pub(crate) summary: Summary,
    /// For how many more entries there is memory.
    pub(crate) room: usize,
    /// The position of the newest entry that brought a sample, if there is one and no read or take has followed it.
    pub(crate) data_at: Option<u64>,
    /// In this memory the next collection is made.
    pub(crate) collection: Spare<Sample>,
}

impl Model for ReaderCache {
    ghost use Rattle.dds_cache.specs.Standing.{Stored};

    ghost Value = { Stored };

    ghost use Rattle.dds_cache.specs.Sound.{stored_of, IsSound};

    ghost view = { stored_of };

    ghost invariant = { IsSound };
}

impl ReaderCache {
    /// Of a reader at which nothing has happened.
    pub fn open(alloc: Global, qos: ReaderQos) -> Self
        // Nothing has happened.
        ensures opening { StandsFor result [] }
        // The policies are those given.
        ensures qos { qos_of result ≡ qos }
    {
        let instances = Instances::open(alloc, &qos);
        ReaderCache {
            alloc,
            qos,
            instances,
            samples: Vec::new(alloc),
            arrivals: 0,
            sweep_at: next_sweep(0),
            summary: Summary::new(alloc),
            room: 0,
            data_at: None,
            collection: Spare::new(alloc),
        }
    }

    /// Takes the list of a collection back, for the next one. It keeps the memory of one list, of at most 128 places, and
    /// lets the samples go; it takes none.
    #[inline(always)]
    pub fn lend(&mut self, list: Vec<Sample>)
        // The cache is as it was.
        ensures same { self.new ≡ self.old }
    {
        self.collection.keep(list);
    }

    /// Makes room for so many more entries: as many that follow find it. Each of them then has a place for the sample that
    /// it brings, and one for the sample that the end of its instance leaves, so a death wants no memory. Where an
    /// instance is known there is room for some entries more, if there is memory for them.
    ///
    /// # Errors
    ///
    /// `Memory` where a growth was refused; the cache is then as it was.
    pub fn reserve(&mut self, additional: usize) -> Result<(), Code>
        // Nothing happens, and the policies stay. There is room for so many entries, and no less than before; where
        // there is enough it succeeds, and it is refused for want of memory alone, and then changes nothing.
        ensures makes { MakesRoom room_of additional self.old self.new result }
    {
        if additional <= self.room || self.make_spare(additional) {
            return Ok(());
        }
        self.make_room(additional)
    }

    /// Makes room for so many entries and some to spare, and says whether there was memory for that; else the cache is as it
    /// was. Where no instance is known it makes none, as nothing may ever come.
    fn make_spare(&mut self, additional: usize) -> bool
        requires more { room_of self.old < additional }
        ensures makes { result ≡ true → MakesRoom room_of additional self.old self.new (Ok tt) }
        ensures same { result ≡ false → self.new ≡ self.old }
    {
        if self.instances.len() == 0 {
            return false;
        }
        match self.make_room(additional.saturating_add(SPARE)) {
            Ok(()) => true,
            Err(_) => false,
        }
    }

    /// Makes room for so many entries. There is as much then whether the next sweep is due soon or not, so that where no more is
    /// kept no more memory is asked for.
    fn make_room(&mut self, additional: usize) -> Result<(), Code>
        requires more { room_of self.old < additional }
        ensures makes { MakesRoom room_of additional self.old self.new result }
    {
        let entries = additional.checked_mul(2).ok_or(Code::Memory)?;
        let known = self.instances.len();
        let places = entries.checked_add(known).ok_or(Code::Memory)?;
        let unswept = self.sweep_at.saturating_sub(self.samples.len());
        let places = places.saturating_add(unswept.min(SPARE));
        self.samples.reserve(places)?;
        self.summary
            .chains
            .reserve(places, known.saturating_add(additional))?;
        self.instances.reserve(additional)?;
        self.room = additional;
        Ok(())
    }

    /// Whether so many deaths more can be counted, that is, whether with them no more than 2^64 - 1 entries happened.
    /// Nothing else is in the way of a death.
    pub fn counts_deaths(&self, count: usize) -> bool
        // It is so where as many entries can be counted.
        ensures counts { result ≡ nat_le count (deaths_of self.now) }
        // It is so by the number of what happened.
        ensures happened { (h : List Happening) → StandsFor self.now h
            → result ≡ nat_le (length h + count) (2 ^ 64 - 1) }
    {
        count as u64 <= u64::MAX - self.instances.happened()
    }

    /// Takes up a death, which can be counted.
    fn bury(&mut self, writer: Handle, moment: Moment)
        requires counted { 1 ≤ deaths_of self.old }
        ensures stands { (h : List Happening) → StandsFor self.old h
            → IsMatched (qos_of self.old) h writer
            → StandsFor self.new (Died writer moment ∷ h) }
        ensures qos { qos_of self.new ≡ qos_of self.old }
        ensures room { room_of self.old ≤ room_of self.new + 1 }
        ensures deaths { deaths_of self.new + 1 ≡ deaths_of self.old }
    {
        let known = self.instances.len();
        hold_present(&mut self.instances, &self.qos, &self.samples);
        self.instances.died(writer).unwrap();
        let_go(
            &self.instances,
            &self.qos,
            known,
            &mut self.samples,
            &mut self.summary,
        );
        let before = self.samples.len();
        add_markers(
            self.alloc,
            &self.instances,
            &mut self.samples,
            &mut self.summary,
            writer,
            moment,
        );
        let newest = self.instances.happened();
        self.data_at = data_after(self.data_at, before, self.samples.len(), newest);
        self.room = self.room.saturating_sub(1);
    }

    /// Where a change is asked for its instance before it is taken up, which EXCLUSIVE ownership does, the key is looked up
    /// once for both.
    fn expect(&mut self, key: Key)
        ensures same { self.new ≡ self.old }
    {
        if let OwnershipQos::Exclusive = self.qos.ownership {
            self.instances.expect(key);
        }
    }

    /// Takes up a change of a matched writer, in the room that there is. One more write of an instance that is alive, where
    /// ownership is SHARED, is looked up once, and nothing is asked of it but which samples it pushes out.
    fn take_up(&mut self, arrival: Arrival)
        requires room { 1 ≤ room_of self.old }
        ensures stands { (h : List Happening) → StandsFor self.old h
            → IsMatched (qos_of self.old) h arrival.writer
            → StandsFor self.new (Came arrival ∷ h) }
        ensures qos { qos_of self.new ≡ qos_of self.old }
        ensures room { room_of self.new + 1 ≡ room_of self.old }
    {
        if !is_kept_after(self.qos.history, 0, false) {
            self.take_up_any(arrival);
            return;
        }
        let Some(known) = self.instances.write_again(&self.qos, &arrival) else {
            self.take_up_any(arrival);
            return;
        };
        let newest = self.instances.happened();
        let is_alone = self.samples.is_empty();
        add_write(
            self.alloc,
            &known,
            newest,
            &mut self.samples,
            &mut self.summary,
            arrival,
        );
        push_out_by_write(
            self.alloc,
            &self.qos,
            &known,
            &mut self.samples,
            &mut self.summary,
            is_alone,
        );
        self.data_at = Some(newest);
        self.arrivals = count_arrival(self.arrivals);
        self.room -= 1;
    }

    /// Takes up any change of a matched writer, in the room that there is.
    fn take_up_any(&mut self, arrival: Arrival)
        requires room { 1 ≤ room_of self.old }
        ensures stands { (h : List Happening) → StandsFor self.old h
            → IsMatched (qos_of self.old) h arrival.writer
            → StandsFor self.new (Came arrival ∷ h) }
        ensures qos { qos_of self.new ≡ qos_of self.old }
        ensures room { room_of self.new + 1 ≡ room_of self.old }
    {
        let is_write = is_accepted_write(&self.instances, &self.qos, &arrival);
        let is_end = is_end(
            &self.instances,
            &self.qos,
            &self.samples,
            &self.summary,
            &arrival,
        );
        let known = self.instances.len();
        self.instances.come(&self.qos, &arrival, is_end).unwrap();
        let_go(
            &self.instances,
            &self.qos,
            known,
            &mut self.samples,
            &mut self.summary,
        );
        let before = self.samples.len();
        let key = arrival.change.key;
        add_left(
            self.alloc,
            &self.instances,
            &self.qos,
            &mut self.samples,
            &mut self.summary,
            arrival,
            is_write,
        );
        push_out(
            self.alloc,
            &self.instances,
            &self.qos,
            &mut self.samples,
            &mut self.summary,
            key,
        );
        let newest = self.instances.happened();
        self.data_at = data_after(self.data_at, before, self.samples.len(), newest);
        self.arrivals = count_arrival(self.arrivals);
        self.room -= 1;
    }

    /// Lets the samples go that are no longer present, where there are twice as many as the sweep before left.
    fn sweep_if_due(&mut self)
        ensures same { (h : List Happening) → StandsFor self.old h → StandsFor self.new h }
        ensures qos { qos_of self.new ≡ qos_of self.old }
        ensures room { room_of self.new ≡ room_of self.old }
    {
        if self.samples.len() >= self.sweep_at {
            sweep(
                &self.instances,
                &self.qos,
                &mut self.samples,
                &mut self.summary,
            );
            self.sweep_at = next_sweep(self.samples.len());
        }
    }

    /// Takes up an entry that says nothing of any instance.
    fn skip(&mut self) -> Result<(), Code>
        ensures passed { OnOk result
            ((h : List Happening) (w first last : ℕ) → StandsFor self.old h
            → IsMatched (qos_of self.old) h w → StandsFor self.new (Passed w first last ∷ h)) }
        ensures heard { OnOk result
            ((h : List Happening) (w moment : ℕ) → StandsFor self.old h
            → IsMatched (qos_of self.old) h w → StandsFor self.new (Heard w moment ∷ h)) }
        ensures left { OnOk result
            ((h : List Happening) (w moment : ℕ) → StandsFor self.old h
            → IsMatched (qos_of self.old) h w → StandsFor self.new (Left w moment ∷ h)) }
        ensures entry { TakesEntry room_of self.old self.new result }
        ensures counted { 1 ≤ deaths_of self.old → IsOk result }
        ensures deaths { deaths_of self.old ≤ deaths_of self.new + 1 }
    {
        self.instances.skip()?;
        self.room = self.room.saturating_sub(1);
        Ok(())
    }

    /// Takes up a change that came. Its writer is a matched one. Room by the limits of the policies is the caller's
    /// affair: a change is taken up also where they are then exceeded.
    ///
    /// # Errors
    ///
    /// `Memory` where a growth was refused, and never where room was reserved; the cache is then as it was.
    ///
    /// RTPS 2.5, 8.2 (HistoryCache, add_change).
    pub fn come(&mut self, arrival: Arrival) -> Result<(), Code>
        // The change came, of a matched writer, and nothing else happened.
        ensures ok { OnOk result ((h : List Happening) → StandsFor self.old h
            → IsMatched (qos_of self.old) h arrival.writer
            → StandsFor self.new (Came arrival ∷ h)) }
        // It is an entry as each is: the policies stay, where there is room it is taken up, it takes the room of one at
        // most, and it is refused for want of memory alone, and then changes nothing.
        ensures entry { TakesEntry room_of self.old self.new result }
    {
        self.reserve(1)?;
        self.expect(arrival.change.key);
        self.take_up(arrival);
        self.sweep_if_due();
        Ok(())
    }

    /// Takes up that the changes from `first` to `last` of a matched writer, both of them too, were passed over.
    ///
    /// # Errors
    ///
    /// `Memory` where a growth was refused, and never where room was reserved; the cache is then as it was.
    ///
    /// DDS 1.4, 2.2.4.1 (SAMPLE_LOST); RTPS 2.5, 8.4.12 (irrelevant_change_set, lost_changes_update).
    pub fn pass(&mut self, writer: Handle, first: Sn, last: Sn) -> Result<(), Code>
        // Those of a matched writer were passed over, and nothing else happened.
        ensures ok { OnOk result
            ((h : List Happening) → StandsFor self.old h
            → IsMatched (qos_of self.old) h writer
            → StandsFor self.new (Passed writer first last ∷ h)) }
        // It is an entry as each is: the policies stay, where there is room it is taken up, it takes the room of one at
        // most, and it is refused for want of memory alone, and then changes nothing.
        ensures entry { TakesEntry room_of self.old self.new result }
    {
        let _ = (writer, first, last);
        self.skip()?;
        Ok(())
    }

    /// Takes up that a matched writer asserted its liveliness without a change, at a moment of the reader's peer.
    ///
    /// # Errors
    ///
    /// `Memory` where a growth was refused, and never where room was reserved; the cache is then as it was.
    ///
    /// RTPS 2.5, 8.7.2.2 (LIVELINESS).
    pub fn hear(&mut self, writer: Handle, moment: Moment) -> Result<(), Code>
        // A matched writer was heard, and nothing else happened.
        ensures ok { OnOk result
            ((h : List Happening) → StandsFor self.old h
            → IsMatched (qos_of self.old) h writer
            → StandsFor self.new (Heard writer moment ∷ h)) }
        // It is an entry as each is: the policies stay, where there is room it is taken up, it takes the room of one at
        // most, and it is refused for want of memory alone, and then changes nothing.
        ensures entry { TakesEntry room_of self.old self.new result }
    {
        let _ = (writer, moment);
        self.skip()?;
        Ok(())
    }

    /// Takes up that the lease of a matched writer ran out, at a moment of the reader's peer. It takes no memory, and
    /// goes over the samples and the instances.
    ///
    /// # Errors
    ///
    /// `Memory` after 2^64 - 1 entries; the cache is then as it was.
    ///
    /// DDS 1.4, 2.2.3 (LIVELINESS).
    pub fn died(&mut self, writer: Handle, moment: Moment) -> Result<(), Code>
        // A matched writer died, and nothing else happened.
        ensures ok { OnOk result
            ((h : List Happening) → StandsFor self.old h
            → IsMatched (qos_of self.old) h writer
            → StandsFor self.new (Died writer moment ∷ h)) }
        // It is an entry as each is, by the deaths that can be counted: the policies stay, where one can be counted it
        // is taken up, it is counted once at most, and where it is refused nothing changes.
        ensures entry { TakesEntry deaths_of self.old self.new result }
        // It takes the room of one entry at most.
        ensures room { room_of self.old ≤ room_of self.new + 1 }
    {
        if !self.counts_deaths(1) {
            return Err(Code::Memory);
        }
        self.bury(writer, moment);
        Ok(())
    }

    /// Takes up that a matched writer left, at a moment of the reader's peer. It takes no memory, and ends no registration:
    /// the death of a writer that is alive, which comes first, does.
    ///
    /// # Errors
    ///
    /// `Memory` after 2^64 - 1 entries; the cache is then as it was.
    ///
    /// RTPS 2.5, 8.4.10 (matched_writer_remove).
    pub fn leave(&mut self, writer: Handle, moment: Moment) -> Result<(), Code>
        // A matched writer left, and nothing else happened.
        ensures ok { OnOk result
            ((h : List Happening) → StandsFor self.old h
            → IsMatched (qos_of self.old) h writer
            → StandsFor self.new (Left writer moment ∷ h)) }
        // It is an entry as each is, by the deaths that can be counted: the policies stay, where one can be counted it
        // is taken up, it is counted once at most, and where it is refused nothing changes.
        ensures entry { TakesEntry deaths_of self.old self.new result }
        // It takes the room of one entry at most.
        ensures room { room_of self.old ≤ room_of self.new + 1 }
    {
        let _ = (moment, writer);
        self.skip()?;
        Ok(())
    }

    /// Takes up that a writer was matched that was not known: it has the next publication handle. It touches no instance and no
    /// sample, and leaves no room: who needs some reserves it anew. All memory is asked for before anything changes.
    ///
    /// # Errors
    ///
    /// `Memory` where a growth was refused, or after 2^64 - 1 entries; the cache is then as it was.
    ///
    /// RTPS 2.5, 8.4.10 (matched_writer_add).
    pub fn join(&mut self, writer: MatchedWriter) -> Result<(), Code>
        // It joined, and nothing else happened.
        ensures ok { OnOk result
            ((h : List Happening) → StandsFor self.old h
            → StandsFor self.new (Joined writer ∷ h)) }
        // The policies stay.
        ensures qos { qos_of self.new ≡ qos_of self.old }
        // One death fewer can be counted at most.
        ensures deaths { deaths_of self.old ≤ deaths_of self.new + 1 }
        // A refusal leaves the cache as it was.
        ensures err { OnErr result (self.new ≡ self.old) }
        // It is refused for want of memory alone.
        ensures memory { IfErr result (λ e. e ≡ Memory) }
    {
        self.instances.join(writer)?;
        self.room = 0;
        Ok(())
    }

    /// Whether there is room for a change by the limits of the policies: with it no more changes came than the reader takes
    /// in its life, and if it is accepted, the present writes and the known instances are as many as they may be. It needs
    /// no memory.
    ///
    /// It goes over the samples that the change would push out of its history, where as many writes are present as may be; and
    /// along those of its instance where as many instances are known as may be, and it would leave nobody registered. Where it
    /// asks for the instance, `come` finds the key of the change looked up.
    ///
    /// DDS 1.4, 2.2.3 (RESOURCE_LIMITS).
    pub fn has_room(&mut self, arrival: &Arrival) -> bool
        // It is so by the definitions.
        ensures room { (h : List Happening) → StandsFor self.old h
            → result ≡ has_room (qos_of self.old) h (Came arrival.now) }
        // The cache stays as it was.
        ensures same { self.new ≡ self.old }
    {
        is_room(
            &mut self.instances,
            &self.qos,
            &self.samples,
            &self.summary,
            self.arrivals,
            arrival,
        )
    }

    /// The key of a known instance, by its handle; `None` where no known instance has it. It needs no memory.
    ///
    /// DDS 1.4, 2.2.2.5 (get_key_value).
    pub fn key_value(&self, instance: Handle) -> Option<Key>
        // It is that of the instance whose handle this is, if there is one.
        ensures key { (h : List Happening) → StandsFor self.now h
            → result ≡ instance_of (qos_of self.now) h instance }
    {
        self.instances.key(instance)
    }

    /// The handle of an instance, `NIL` of one that is not known. It needs no memory.
    ///
    /// DDS 1.4, 2.2.2.5 (lookup_instance).
    pub fn lookup(&self, key: Key) -> Handle
        // It is how many lives of instances had begun with its own, or 0.
        ensures handle { (h : List Happening) → StandsFor self.now h
            → result ≡ handle_of (qos_of self.now) h key }
    {
        self.instances.handle(key)
    }

    /// The position of the newest entry that brought a sample, if there is one and no read or take has followed it;
    /// where there is none, DATA_AVAILABLE is not raised. It needs no memory.
    ///
    /// DDS 1.4, 2.2.4.1 (DATA_AVAILABLE), 2.2.4.2.2 (changes in read communication statuses).
    pub fn data_at(&self) -> Option<u64>
        // It is so by the definitions: a write that was accepted brings one, and an entry that ends an instance.
        ensures position { (h : List Happening) → StandsFor self.now h
            → result ≡ data_available_at (qos_of self.now) h }
    {
        self.data_at
    }

    /// How many entries were taken up: the position of the newest. It needs no memory.
    pub fn happened(&self) -> u64
        // It is the number of all that happened.
        ensures entries { (h : List Happening) → StandsFor self.now h → result ≡ length h }
    {
        self.instances.happened()
    }
}

/// The position of the newest entry that brought a sample, by what it was before an entry, how many samples were kept
/// before and after it, and its position.
fn data_after(data_at: Option<u64>, before: usize, after: usize, position: u64) -> Option<u64>
    ensures newest { result ≡ (if nat_lt before after then Some position else data_at) }
{
    if before < after {
        Some(position)
    } else {
        data_at
    }
}
