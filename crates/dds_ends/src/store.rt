//! Where a reader's changes go: its cache, with its room, and the leases of its matched writers.
//!
//! RTPS 2.5, 8.2 (HistoryCache of a reader); DDS 1.4, 2.2.3 (RESOURCE_LIMITS, LIVELINESS).

ghost use Rattle.std.specs.Prelude.{◌≡◌, ◌+◌, ◌-◌, ◌^◌, ◌<◌, ◌≤◌, ◌∷◌, true, false, List, [], Some, if◌then◌else◌, IfOk, IfErr, OnOk, OnErr, length};
ghost use Rattle.dds_base.specs.declared.code.Code.TheVariants.{Memory};
ghost use Rattle.dds_base.specs.declared.happening.Happening.{Happening};
ghost use Rattle.dds_base.specs.declared.happening.Happening.TheVariants.{Died, Joined};
ghost use Rattle.dds_base.specs.Access.{handle_of, has_match, instance_of};
ghost use Rattle.dds_base.specs.Liveliness.{after_deaths, after_parting, dead_at};
ghost use Rattle.dds_base.specs.Ownership.{IsMatched};
ghost use Rattle.dds_base.specs.Statuses.{lost_count};
ghost use Rattle.dds_base.specs.StatusFlags.{data_available_at, turned_at};
ghost use Rattle.dds_cache.specs.Standing.{qos_of, deaths_of, AccessAnswers, AfterAccess, StandsFor as CacheStandsFor};
ghost use Rattle.dds_lease.specs.Standing.{writer_count};
ghost use Rattle.dds_machine.specs.Passing.{passed_at};
ghost use Rattle.dds_ends.specs.Expiring.{HasRoomForDeaths};
ghost use Rattle.dds_ends.specs.Looking.{access_reply};
ghost use Rattle.dds_ends.specs.Parting.{parting_entries};
ghost use Rattle.dds_ends.specs.Stored.{StoreKept};
ghost use Rattle.dds_ends.specs.Storing.{Holds, Loses};
ghost use Rattle.dds_ends.specs.Twins.{Twins};
ghost use Rattle.rtps_reader.specs.Entering.{IsAmong};

use crate::twin::Twin;
use dds_base::{
    Arrival, Code, Handle, Key, Masks, MatchedWriter, Moment, ReaderQos, Sample, Selection,
    Sequence, Sn,
};
use dds_cache::{AccessKind, ReaderCache, Test};
use dds_lease::Leases;
use dds_machine::Reply;
use rtps_reader::Sink;
use std::alloc::Global;
use std::marker::Model;

/// What a reader stores, which of its matched writers are alive, and how many changes were passed over.
#[derive(Drop)]
pub struct Store {
    /// At most 2^64 - 1, where it stays.
    lost: u64,
    /// The position of the newest entry by which changes were passed over, if there is one.
    passed: Option<u64>,
    /// The position of the newest entry that changed how many writers are alive, or not alive, if there is one.
    turned: Option<u64>,
    leases: Leases,
    cache: ReaderCache,
}

impl Model for Store {
    ghost use Rattle.std.specs.Prelude.{◌<◌, ◌^◌};
    ghost use Rattle.dds_ends.specs.Stored.{StoreKept};

    ghost Value = { StoreKept };

    ghost view = { λ s. record { lost = s.lost; passed = s.passed; turned = s.turned; leases = s.leases; cache = s.cache } };

    ghost invariant = { λ s. s.lost < 2 ^ 64 };
}

/// How many entries a parting makes of a writer that is alive, or is not: the death of one that is comes first.
fn parting_entries(alive: bool) -> usize
    ensures { result ≡ parting_entries alive }
{
    if alive { 2 } else { 1 }
}

/// A writer that leaves dies first, if it is alive. The entries of its parting can be counted.
fn die_first(cache: &mut ReaderCache, writer: Handle, now: Moment, alive: bool)
    requires counted { parting_entries alive ≤ deaths_of cache.old }
    ensures died { (h : List Happening) → CacheStandsFor cache.old h
        → IsMatched (qos_of cache.old) h writer
        → CacheStandsFor cache.new (if alive then Died writer now ∷ h else h) }
    ensures counted { 1 ≤ deaths_of cache.new }
    ensures qos { qos_of cache.new ≡ qos_of cache.old }
{
    if alive {
        cache.died(writer, now).unwrap();
    }
}

impl Store {
    /// Of a reader at which nothing has happened.
    pub fn open(alloc: Global, qos: ReaderQos) -> Result<Store, Code>
        ensures opening { IfOk result (λ store. Holds store []) }
        ensures qos { IfOk result (λ store. qos_of store.cache ≡ qos) }
        ensures writers { IfOk result (λ store. writer_count store.leases ≡ length qos.writers) }
        ensures memory { IfErr result (λ code. code ≡ Memory) }
    {
        let leases = Leases::open(alloc, &qos)?;
        Ok(Store {
            lost: 0,
            passed: None,
            turned: None,
            leases,
            cache: ReaderCache::open(alloc, qos),
        })
    }

    /// The changes from `first` to `last` were passed over.
    fn lose(&mut self, first: Sn, last: Sn)
        ensures lost { Loses self.old.lost first last self.new.lost }
        ensures passed { self.new.passed ≡ self.old.passed }
        ensures turned { self.new.turned ≡ self.old.turned }
        ensures leases { self.new.leases ≡ self.old.leases }
        ensures cache { self.new.cache ≡ self.old.cache }
    {
        if first.number() <= last.number() {
            let count = (last.number() - first.number()).saturating_add(1);
            self.lost = self.lost.saturating_add(count);
        }
    }

    /// The newest entry changed how many writers are alive, or not alive, if so.
    fn turn_if(&mut self, turns: bool)
        ensures turned { (h : List Happening) → CacheStandsFor self.old.cache h
            → self.new.turned ≡ (if turns then Some (length h) else self.old.turned) }
        ensures lost { self.new.lost ≡ self.old.lost }
        ensures passed { self.new.passed ≡ self.old.passed }
        ensures leases { self.new.leases ≡ self.old.leases }
        ensures cache { self.new.cache ≡ self.old.cache }
    {
        if turns {
            self.turned = Some(self.cache.happened());
        }
    }

    /// How many changes were passed over: the total of SAMPLE_LOST.
    ///
    /// DDS 1.4, 2.2.4.1.
    pub fn lost(&self) -> u64
        ensures lost { result ≡ self.now.lost }
        ensures total { (h : List Happening) → Holds self.now h → result ≡ lost_count h }
    {
        self.lost
    }

    /// The position of the newest entry by which changes were passed over, if there is one.
    ///
    /// DDS 1.4, 2.2.4.1 (SAMPLE_LOST).
    pub fn passed(&self) -> Option<u64>
        ensures passed { result ≡ self.now.passed }
        ensures at { (h : List Happening) → Holds self.now h → result ≡ passed_at h }
    {
        self.passed
    }

    /// The position of the newest entry that changed how many writers are alive, or not alive, if there is one.
    ///
    /// DDS 1.4, 2.2.4.1 (LIVELINESS_CHANGED).
    pub fn turned(&self) -> Option<u64>
        ensures turned { result ≡ self.now.turned }
        ensures at { (h : List Happening) → Holds self.now h → result ≡ turned_at h }
    {
        self.turned
    }

    /// The position of the newest entry that brought a sample, if there is one and no read or take has followed it.
    ///
    /// DDS 1.4, 2.2.4.1 (DATA_AVAILABLE).
    pub fn data_at(&self) -> Option<u64>
        ensures { (h : List Happening) → Holds self.now h
            → result ≡ data_available_at (qos_of self.now.cache) h }
    {
        self.cache.data_at()
    }

    /// How many entries were taken up.
    pub fn happened(&self) -> u64
        ensures { (h : List Happening) → Holds self.now h → result ≡ length h }
    {
        self.cache.happened()
    }

    /// Whether some present sample meets the masks and passes the test.
    ///
    /// DDS 1.4, 2.2.2.5 (ReadCondition).
    pub fn has_match<T: Test>(&self, masks: Masks, test: &T) -> bool
        ensures { (h : List Happening) → Holds self.now h
            → result ≡ has_match (qos_of self.now.cache) h masks (T.meaning test.now) }
    {
        self.cache.has_match(masks, test)
    }

    /// Which matched writers are alive.
    pub fn leases(&self) -> &Leases
        ensures leases { result.now ≡ self.now.leases }
    {
        &self.leases
    }

    /// Whether all that die at this moment can be counted: no more than 2^64 - 1 entries happened with them.
    pub fn counts_deaths(&self, now: Moment) -> bool
        ensures room { result ≡ true → HasRoomForDeaths now self.now }
        ensures past { result ≡ false → (h : List Happening) → Holds self.now h
            → 2 ^ 64 - 1 < length h + length (dead_at (qos_of self.now.cache) now h) }
    {
        self.cache.counts_deaths(self.leases.overdue(now))
    }

    /// Those whose lease is over at this moment die, in the order of their handles.
    ///
    /// DDS 1.4, 2.2.3 (LIVELINESS: lease_duration).
    pub fn expire(&mut self, now: Moment)
        requires room { HasRoomForDeaths now self.old }
        ensures died { (h : List Happening) → Holds self.old h
            → Holds self.new (after_deaths (qos_of self.old.cache) now h) }
        ensures qos { qos_of self.new.cache ≡ qos_of self.old.cache }
        ensures writers { writer_count self.new.leases ≡ writer_count self.old.leases }
    {
        let mut after = Handle::NIL;
        while let Some(writer) = self.leases.expire(after, now) {
            self.cache.died(writer, now).unwrap();
            self.turned = Some(self.cache.happened());
            after = writer;
        }
    }

    /// A writer is matched that was not known: it has the next publication handle. Where the cache refuses it, no lease
    /// stays.
    ///
    /// # Errors
    ///
    /// `Memory` where a growth was refused, or after 2^64 - 1 entries; the store is then as it was.
    ///
    /// RTPS 2.5, 8.4.10.3 (matched_writer_add).
    pub fn join(&mut self, writer: MatchedWriter) -> Result<(), Code>
        ensures joined { OnOk result ((h : List Happening) → Holds self.old h
            → Holds self.new (Joined writer ∷ h)) }
        ensures err { OnErr result (self.new ≡ self.old) }
        ensures memory { IfErr result (λ code. code ≡ Memory) }
        ensures qos { qos_of self.new.cache ≡ qos_of self.old.cache }
        ensures writers { OnOk result
            (writer_count self.new.leases ≡ writer_count self.old.leases + 1) }
    {
        self.leases.join(writer)?;
        if let Err(code) = self.cache.join(writer) {
            self.leases.forget_last();
            return Err(code);
        }
        Ok(())
    }

    /// A matched writer left at this moment. One that is alive dies first, so it is registered for nothing any more. It
    /// takes no memory.
    ///
    /// # Errors
    ///
    /// `Memory` where with it more than 2^64 - 1 entries would have happened; the store is then as it was.
    ///
    /// RTPS 2.5, 8.4.10.3 (matched_writer_remove); DDS 1.4, 2.2.4.1 (LivelinessChangedStatus: not_alive_count).
    pub fn leave(&mut self, writer: Handle, now: Moment) -> Result<(), Code>
        requires matched { IsAmong (writer_count self.old.leases) writer }
        ensures left { OnOk result ((h : List Happening) → Holds self.old h
            → Holds self.new (after_parting writer now h)) }
        ensures past { OnErr result ((h : List Happening) → Holds self.old h
            → 2 ^ 64 - 1 < length (after_parting writer now h)) }
        ensures err { OnErr result (self.new ≡ self.old) }
        ensures memory { IfErr result (λ code. code ≡ Memory) }
        ensures qos { qos_of self.new.cache ≡ qos_of self.old.cache }
        ensures writers { writer_count self.new.leases ≡ writer_count self.old.leases }
    {
        let alive = self.leases.is_alive(writer);
        if !self.cache.counts_deaths(parting_entries(alive)) {
            return Err(Code::Memory);
        }
        die_first(&mut self.cache, writer, now, alive);
        self.cache.leave(writer, now).unwrap();
        let turns = self.leases.leave(writer, now);
        self.turn_if(turns);
        Ok(())
    }

    /// Reads or takes samples that pass the test, as the cache does, and gives them once more where two replies are asked
    /// for.
    pub fn access<T: Test>(
        &mut self,
        kind: AccessKind,
        selection: Selection,
        test: &T,
        twin: &mut Twin,
    ) -> Result<Sequence<Sample>, Code>
        ensures answer { (h : List Happening) → Holds self.old h
            → AccessAnswers self.old.cache h selection (T.meaning test.now) result }
        ensures after { (h : List Happening) → Holds self.old h
            → AfterAccess kind self.old.cache h selection
            (T.meaning test.now) result self.new.cache }
        ensures qos { qos_of self.new.cache ≡ qos_of self.old.cache }
        ensures leases { self.new.leases ≡ self.old.leases }
        ensures lost { self.new.lost ≡ self.old.lost }
        ensures passed { self.new.passed ≡ self.old.passed }
        ensures turned { self.new.turned ≡ self.old.turned }
        ensures twin { Twins twin.old (access_reply result) twin.new }
    {
        if !twin.is_asked() {
            return self.cache.access(kind, selection, test);
        }
        match self.cache.access_twice(kind, selection, test) {
            Ok((samples, again)) => {
                *twin = Twin::Kept(Reply::Samples(again));
                Ok(samples)
            }
            Err(code) => Err(code),
        }
    }

    /// Lends the memory of this list to the next collection.
    #[inline(always)]
    pub fn lend(&mut self, list: Vec<Sample>)
        ensures { self.new ≡ self.old }
    {
        self.cache.lend(list);
    }

    /// The key of a known instance, by its handle.
    pub fn key_value(&self, instance: Handle) -> Option<Key>
        ensures { (h : List Happening) → Holds self.now h
            → result ≡ instance_of (qos_of self.now.cache) h instance }
    {
        self.cache.key_value(instance)
    }

    /// The handle of an instance, `NIL` of one that is not known.
    pub fn lookup(&self, key: Key) -> Handle
        ensures { (h : List Happening) → Holds self.now h
            → result ≡ handle_of (qos_of self.now.cache) h key }
    {
        self.cache.lookup(key)
    }
}

impl Sink for Store {
    ghost use Rattle.dds_cache.specs.Standing.{qos_of, room_of};
    ghost use Rattle.dds_lease.specs.Standing.{writer_count};
    ghost use Rattle.dds_ends.specs.Storing.{Holds};

    ghost stands = { λ s h. Holds s h };

    ghost qos = { λ s. qos_of s.cache };

    ghost writers = { λ s. writer_count s.leases };

    ghost spare = { λ s. room_of s.cache };

    fn reserve(&mut self, n: usize) -> Result<(), Code> {
        self.cache.reserve(n)
    }

    fn room(&mut self, arrival: &Arrival) -> bool {
        self.cache.has_room(arrival)
    }

    fn come(&mut self, arrival: Arrival) -> Result<(), Code> {
        let (writer, moment) = (arrival.writer, arrival.moment);
        let turns = !self.leases.is_alive(writer);
        self.cache.come(arrival)?;
        self.leases.assert_at(writer, moment);
        self.turn_if(turns);
        Ok(())
    }

    fn pass(&mut self, writer: Handle, first: Sn, last: Sn) -> Result<(), Code> {
        self.cache.pass(writer, first, last)?;
        self.lose(first, last);
        self.passed = Some(self.cache.happened());
        Ok(())
    }

    fn hear(&mut self, writer: Handle, moment: Moment) -> Result<(), Code> {
        let turns = !self.leases.is_alive(writer);
        self.cache.hear(writer, moment)?;
        self.leases.assert_at(writer, moment);
        self.turn_if(turns);
        Ok(())
    }
}
