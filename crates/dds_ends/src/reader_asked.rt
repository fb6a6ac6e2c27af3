//! What calls, ticks and listeners ask of a reader of the peer.
//!
//! DDS 1.4, 2.2.2.5 (DataReader), 2.2.4.1 (statuses of a DataReader).

ghost use Rattle.std.specs.Prelude.{◌≡◌, ◌<◌, List, length, None, Some, true, false};
ghost use Rattle.dds_base.specs.Access.{instance_of, handle_of};
ghost use Rattle.dds_base.specs.Liveliness.{liveliness_changed_status};
ghost use Rattle.dds_base.specs.Statuses.{sample_lost_status};
ghost use Rattle.dds_base.specs.declared.code.Code.TheVariants.{Memory};
ghost use Rattle.dds_base.specs.declared.happening.Happening.{Happening};
ghost use Rattle.dds_ends.specs.Expiring.{Expires, HasRoomForDeaths, IsPastCounting};
ghost use Rattle.dds_ends.specs.Identity.{reader_identity};
ghost use Rattle.dds_ends.specs.Noticing.{MarksReader, RaisesSo, SeesStatus, by_reader};
ghost use Rattle.dds_ends.specs.Looking.{access_reply, TakesOnly, TellsFlags, TellsLost, TellsLiveliness, TellsMatch, TellsMatches, SeesMatches};
ghost use Rattle.dds_ends.specs.Twins.{Twins};
ghost use Rattle.dds_ends.specs.Storing.{Holds};
ghost use Rattle.dds_cache.specs.Standing.{qos_of, AccessAnswers, AfterAccess};
ghost use Rattle.dds_machine.specs.Noticing.{data_raised, lost_raised, subscription_raised, turn_raised};

use crate::marks::ReaderMark;
use crate::reader_end::ReaderEnd;
use crate::seen::{WriterCount, is_after};
use crate::status_bits::bit_if;
use crate::twin::Twin;
use bitflags::Flags;
use dds_base::{
    Code, Handle, Key, LivelinessChangedStatus, Masks, MatchedStatus, Moment, Sample,
    SampleLostStatus, Selection, Sequence,
};
use dds_cache::{AccessKind, Test};
use dds_notices::{Status, StatusMask};

impl ReaderEnd {
    /// Whether all that die at this moment can be counted: no more than 2^64 - 1 entries happened with them.
    pub fn counts_deaths(&self, now: Moment) -> bool
        ensures room { result ≡ true → HasRoomForDeaths now self.now.store }
        ensures past { result ≡ false → IsPastCounting self.now now }
    {
        self.store.counts_deaths(now)
    }

    /// Those whose lease is over at this moment die.
    ///
    /// DDS 1.4, 2.2.3 (LIVELINESS: lease_duration).
    pub fn expire(&mut self, now: Moment)
        requires room { HasRoomForDeaths now self.old.store }
        ensures expires { Expires self.old now self.new }
    {
        self.store.expire(now);
    }

    /// Reads or takes samples that pass the test, as the reader's cache does, and gives them once more where two replies
    /// are asked for.
    ///
    /// # Errors
    ///
    /// `BadParameter` where the selection is not valid; `NoData` where no sample is selected; `Memory` where a growth
    /// was refused. But for `NoData` the reader is then as it was.
    ///
    /// DDS 1.4, 2.2.2.5 (read, take and their other forms).
    pub fn access<T: Test>(
        &mut self,
        kind: AccessKind,
        selection: Selection,
        test: &T,
        twin: &mut Twin,
    ) -> Result<Sequence<Sample>, Code>
        ensures answer { (h : List Happening) → Holds self.old.store h
            → AccessAnswers self.old.store.cache h selection (T.meaning test.now) result }
        ensures after { (h : List Happening) → Holds self.old.store h
            → AfterAccess kind self.old.store.cache h selection
            (T.meaning test.now) result self.new.store.cache }
        ensures same { TakesOnly self.old self.new }
        ensures twin { Twins twin.old (access_reply result) twin.new }
    {
        self.store.access(kind, selection, test, twin)
    }

    /// Lends the memory of this list to the next collection.
    #[inline(always)]
    pub fn lend(&mut self, list: Vec<Sample>)
        ensures { self.new ≡ self.old }
    {
        self.store.lend(list);
    }

    /// The key of a known instance, by its handle.
    ///
    /// DDS 1.4, 2.2.2.5 (get_key_value).
    pub fn key_value(&self, instance: Handle) -> Option<Key>
        ensures { (h : List Happening) → Holds self.now.store h
            → result ≡ instance_of (qos_of self.now.store.cache) h instance }
    {
        self.store.key_value(instance)
    }

    /// The handle of an instance, `NIL` of one that is not known.
    ///
    /// DDS 1.4, 2.2.2.5 (lookup_instance).
    pub fn lookup(&self, key: Key) -> Handle
        ensures { (h : List Happening) → Holds self.now.store h
            → result ≡ handle_of (qos_of self.now.store.cache) h key }
    {
        self.store.lookup(key)
    }

    /// How many changes were passed over, in all and since the last look.
    ///
    /// DDS 1.4, 2.2.4.1 (SampleLostStatus).
    fn sample_lost(&self) -> SampleLostStatus
        ensures { (h : List Happening) → Holds self.now.store h
            → result ≡ sample_lost_status h self.now.seen.lost }
    {
        let total_count = self.store.lost();
        SampleLostStatus {
            total_count,
            total_count_change: total_count.saturating_sub(self.seen.lost),
        }
    }

    /// Looks at how many changes were passed over, in all and since the last look.
    ///
    /// DDS 1.4, 2.2.2.5 (get_sample_lost_status).
    pub fn get_sample_lost(&mut self) -> SampleLostStatus
        ensures status { TellsLost self.old result self.new.seen }
        ensures seen { self.new ≡ record self.old { seen = self.new.seen } }
    {
        let status = self.sample_lost();
        self.seen.lost = status.total_count;
        self.seen.entries_at_lost = self.store.happened();
        status
    }

    /// How many matched writers are alive, and how many are not alive, now and against the last look.
    ///
    /// DDS 1.4, 2.2.4.1 (LivelinessChangedStatus).
    fn liveliness_changed(&self) -> LivelinessChangedStatus
        ensures { (h : List Happening) → Holds self.now.store h
            → result
            ≡ liveliness_changed_status
            (qos_of self.now.store.cache) h self.now.seen.alive self.now.seen.not_alive }
    {
        let leases = self.store.leases();
        let alive = leases.alive_count() as i32;
        let not_alive = leases.not_alive_count() as i32;
        LivelinessChangedStatus {
            alive_count: alive,
            not_alive_count: not_alive,
            alive_count_change: alive - self.seen.alive.get(),
            not_alive_count_change: not_alive - self.seen.not_alive.get(),
            last_publication_handle: leases.last_turned(),
        }
    }

    /// Looks at how many matched writers are alive, and how many are not alive, now and against the last look.
    ///
    /// DDS 1.4, 2.2.2.5 (get_liveliness_changed_status), 2.2.4.1 (LivelinessChangedStatus).
    pub fn get_liveliness_changed(&mut self) -> LivelinessChangedStatus
        ensures status { TellsLiveliness self.old result self.new.seen }
        ensures seen { self.new ≡ record self.old { seen = self.new.seen } }
    {
        let status = self.liveliness_changed();
        let leases = self.store.leases();
        self.seen.alive = WriterCount::new(leases.alive_count());
        self.seen.not_alive = WriterCount::new(leases.not_alive_count());
        self.seen.entries_at_turn = self.store.happened();
        status
    }

    /// How many matches with writers there were and are, and since the last look.
    ///
    /// DDS 1.4, 2.2.4.1 (SubscriptionMatchedStatus).
    fn subscription_matched(&self) -> MatchedStatus
        ensures { TellsMatches self.now result }
    {
        self.matches.status(self.here as usize)
    }

    /// Looks at how many matches with writers there were and are, and since the last look.
    ///
    /// DDS 1.4, 2.2.2.5 (get_subscription_matched_status).
    pub fn get_subscription_matched(&mut self) -> MatchedStatus
        ensures status { TellsMatches self.old result }
        ensures seen { SeesMatches self.old self.new }
    {
        let status = self.subscription_matched();
        self.matches.see(self.here as usize);
        status
    }

    /// What its statuses say before an event.
    pub fn mark(&self) -> ReaderMark
        ensures { MarksReader self.now result }
    {
        ReaderMark {
            happened: self.store.happened(),
            here: self.here,
        }
    }

    /// SAMPLE_LOST, if changes were passed over since this mark.
    ///
    /// DDS 1.4, 2.2.4.1 (SAMPLE_LOST).
    pub fn lost_raised(&self, mark: &ReaderMark) -> Option<Status>
        ensures { RaisesSo (by_reader lost_raised) self.now mark.now result }
    {
        if is_after(mark.happened, self.store.passed()) {
            Some(Status::SampleLost(self.sample_lost()))
        } else {
            None
        }
    }

    /// DATA_AVAILABLE, if a sample came since this mark.
    ///
    /// DDS 1.4, 2.2.4.1 (DATA_AVAILABLE).
    pub fn data_raised(&self, mark: &ReaderMark) -> Option<Status>
        ensures { RaisesSo (by_reader data_raised) self.now mark.now result }
    {
        if is_after(mark.happened, self.store.data_at()) {
            Some(Status::DataAvailable)
        } else {
            None
        }
    }

    /// LIVELINESS_CHANGED, if a writer became alive, or not alive, since this mark.
    ///
    /// DDS 1.4, 2.2.4.1 (LIVELINESS_CHANGED).
    pub fn turn_raised(&self, mark: &ReaderMark) -> Option<Status>
        ensures { RaisesSo (by_reader turn_raised) self.now mark.now result }
    {
        if is_after(mark.happened, self.store.turned()) {
            Some(Status::LivelinessChanged(self.liveliness_changed()))
        } else {
            None
        }
    }

    /// SUBSCRIPTION_MATCHED, if it is matched with more or fewer writers than at this mark.
    ///
    /// DDS 1.4, 2.2.4.1 (SUBSCRIPTION_MATCHED).
    pub fn subscription_raised(&self, mark: &ReaderMark) -> Option<Status>
        ensures { RaisesSo (λ before was rows r. subscription_raised before rows r) self.now mark.now result }
    {
        if self.here == mark.here {
            None
        } else {
            Some(Status::SubscriptionMatched(self.subscription_matched()))
        }
    }

    /// Looks at whether a sample came: DATA_AVAILABLE is no longer flagged.
    ///
    /// DDS 1.4, 2.2.4.2.2 (changes in read communication statuses).
    fn see_data(&mut self)
        ensures seen { self.new
            ≡ record self.old {
              seen = record self.old.seen { entries_at_data = self.new.seen.entries_at_data };
            } }
        ensures at { (h : List Happening) → Holds self.old.store h
            → self.new.seen.entries_at_data ≡ length h }
    {
        self.seen.entries_at_data = self.store.happened();
    }

    /// The status was looked at: it is no longer flagged, and its changes count from now on.
    ///
    /// DDS 1.4, 2.2.4.2.1, 2.2.4.2.2 (changes in status).
    pub fn see(&mut self, status: &Status)
        ensures sees { SeesStatus self.old status.now self.new }
        ensures same { reader_identity self.new ≡ reader_identity self.old }
    {
        match status {
            Status::SampleLost(_) => {
                let _ = self.get_sample_lost();
            }
            Status::DataAvailable => self.see_data(),
            Status::LivelinessChanged(_) => {
                let _ = self.get_liveliness_changed();
            }
            Status::SubscriptionMatched(_) => {
                let _ = self.get_subscription_matched();
            }
            // A reader has none of these.
            Status::LivelinessLost(_) | Status::PublicationMatched(_) => {}
        }
    }

    /// Which of its statuses are flagged.
    ///
    /// DDS 1.4, 2.2.2.1 (get_status_changes), 2.2.4.2 (changes in status).
    pub fn status_changes(&self) -> StatusMask
        ensures { TellsFlags self.now result }
    {
        let lost = is_after(self.seen.entries_at_lost, self.store.passed());
        let came = is_after(self.seen.entries_at_data, self.store.data_at());
        let turned = is_after(self.seen.entries_at_turn, self.store.turned());
        let matched = self.matches.is_flagged(self.here as usize);
        StatusMask::from_bits_retain(
            bit_if(lost, StatusMask::SAMPLE_LOST)
                + (bit_if(came, StatusMask::DATA_AVAILABLE)
                    + (bit_if(turned, StatusMask::LIVELINESS_CHANGED)
                        + bit_if(matched, StatusMask::SUBSCRIPTION_MATCHED))),
        )
    }

    /// Whether some present sample meets the masks and passes the test.
    ///
    /// DDS 1.4, 2.2.2.5 (ReadCondition, QueryCondition).
    pub fn has_match<T: Test>(&self, masks: Masks, test: &T) -> bool
        ensures { TellsMatch self.now masks (T.meaning test.now) result }
    {
        self.store.has_match(masks, test)
    }
}
