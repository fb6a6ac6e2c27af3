//! Accesses to what a reader holds: whether some sample matches, reads and takes.
//!
//! DDS 1.4, 2.2.2.5 (read, take and kin).

ghost use Rattle.std.specs.Prelude.{◌≡◌, ◌≢◌, ◌==◌, ◌+◌, ◌-◌, ◌≤◌, ◌<◌, ◌^◌, ◌∷◌, [], if◌then◌else◌, List, None, Some, IfSome, false, Ok, length, IsOk, OnOk, IfOk, IfErr};
ghost use Rattle.dds_base.specs.declared.happening.Happening.{Happening};
ghost use Rattle.dds_base.specs.declared.code.Code.TheVariants.{Memory, NoData};
ghost use Rattle.dds_base.specs.Access.{has_match};
ghost use Rattle.dds_base.specs.Refusal.{Refuses};
ghost use Rattle.dds_base.specs.Selection.{selection_refusal};
ghost use Rattle.std.specs.List.Sorted.{IsNonDecreasingBy};
ghost use Rattle.dds_cache.specs.Finding.{handle_in};
ghost use Rattle.dds_cache.specs.Only.{Returns};
ghost use Rattle.dds_cache.specs.Picking.{IsAccess, IsDelivered, IsFoundIn, IsGathered};
ghost use Rattle.dds_cache.specs.Standing.{picked, qos_of, room_of, StandsFor, entry_of};
ghost use Rattle.dds_cache.specs.Standing.{AccessAnswers, AfterAccess, TakesEntry};
ghost use Rattle.dds_cache.specs.Twice.{first_of};

use crate::access::is_any_match;
use crate::access_kind::AccessKind;
use crate::asking::is_none_asked;
use crate::collection::{Access, as_sample, gather, twice};
use crate::entering::enter_access;
use crate::only::{find_only, masks_of_all, take_last};
use crate::pick::{pick, picks_any};
use crate::reader_cache::ReaderCache;
use crate::test::Test;
use dds_base::{Code, Masks, Sample, Selection, Sequence, reserve_few};
use dds_info::Ranks;

impl ReaderCache {
    /// Whether some present sample meets the masks and passes the test. It needs no memory, and goes once over the
    /// samples, but where the masks ask for none by what is known of all: whether all were read, or none was, and, with
    /// fewer instances than samples, the view state and the state of each instance.
    ///
    /// DDS 1.4, 2.2.2.5 (ReadCondition, QueryCondition: get_trigger_value).
    pub fn has_match<T: Test>(&self, masks: Masks, test: &T) -> bool
        // It is so by the definitions.
        ensures matched { (h : List Happening) → StandsFor self.now h
            → result ≡ has_match (qos_of self.now) h masks (T.meaning test.now) }
    {
        if is_none_asked(&self.instances, &self.samples, &self.summary, masks) {
            return false;
        }
        let any = Selection::Any { max: -1, masks };
        is_any_match(&self.instances, &self.qos, &any, masks, test, &self.samples)
    }

    /// What an access finds that is not refused and for which there is no memory: nothing, which takes none, or something
    /// is picked.
    fn find_nothing<T: Test>(
        &self,
        kind: AccessKind,
        selection: &Selection,
        test: &T,
    ) -> Result<Access, Code>
        requires good { (h : List Happening) → StandsFor self.now h
            → selection_refusal (qos_of self.now) h selection.now ≡ None }
        ensures found { IfOk result (λ access. (h : List Happening) → StandsFor self.now h
            → IsAccess kind (qos_of self.now) h selection.now (T.meaning test.now) self.now.samples
            access) }
        ensures gathered { IfOk result (λ access. IsGathered (length self.now.samples) access) }
        ensures sorted { IfOk result (λ access. IsNonDecreasingBy handle_in access.found.items) }
        ensures memory { IfErr result (λ e. e ≡ Memory) }
        ensures some { IfErr result (λ e. (h : List Happening) → StandsFor self.now h
            → picked self.now h selection.now (T.meaning test.now) ≢ []) }
    {
        if picks_any(&self.instances, &self.qos, &self.samples, selection, test) {
            return Err(Code::Memory);
        }
        Ok(Access::nothing(self.alloc))
    }

    /// What an access by a test finds. Where it is refused for want of memory, something is picked: to find nothing
    /// takes none.
    fn find<T: Test>(
        &self,
        kind: AccessKind,
        selection: Selection,
        test: &T,
    ) -> Result<Access, Code>
        ensures found { IfOk result (λ access. (h : List Happening) → StandsFor self.now h
            → IsAccess kind (qos_of self.now) h selection (T.meaning test.now) self.now.samples
            access) }
        ensures gathered { IfOk result (λ access. IsGathered (length self.now.samples) access) }
        ensures sorted { IfOk result (λ access. IsNonDecreasingBy handle_in access.found.items) }
        ensures refused { IfErr result (λ e. (h : List Happening) → StandsFor self.now h
            → Refuses (selection_refusal (qos_of self.now) h selection) e) }
        ensures some { IfErr result (λ e. (h : List Happening) → StandsFor self.now h
            → e ≡ Memory → picked self.now h selection (T.meaning test.now) ≢ []) }
    {
        let picked = pick(
            self.alloc,
            &self.instances,
            &self.qos,
            &self.samples,
            &self.summary,
            selection,
            test,
        );
        let found = match picked {
            Ok(found) => found,
            Err(Code::Memory) => return self.find_nothing(kind, &selection, test),
            Err(code) => return Err(code),
        };
        if found.is_empty() {
            return Ok(Access::nothing(self.alloc));
        }
        gather(self.alloc, kind, &self.samples, found)
    }

    /// Takes up that an access of this kind returned what it found, which is whole then.
    fn enter(&mut self, kind: AccessKind, access: &mut Access) -> Result<(), Code>
        requires gathered { IsGathered (length self.old.samples) access.old }
        ensures ok { OnOk result ((h : List Happening) → StandsFor self.old h
            → IsFoundIn (qos_of self.old) h self.old.samples access.old
            → StandsFor self.new (entry_of kind access.old.positions.items ∷ h)) }
        ensures positions { access.new.positions ≡ access.old.positions }
        ensures delivered { OnOk result (IsDelivered kind self.old.samples access.old access.new) }
        ensures counted { (h : List Happening) → StandsFor self.old h → length h + 1 < 2 ^ 64
            → IsOk result }
        ensures entry { TakesEntry room_of self.old self.new result }
    {
        // An entry that has room can be counted, and one that has none is counted as a death is.
        if self.room == 0 && !self.counts_deaths(1) {
            return Err(Code::Memory);
        }
        enter_access(
            self.alloc,
            kind,
            &mut self.instances,
            &self.qos,
            &mut self.samples,
            &mut self.summary,
            access,
        );
        self.room = self.room.saturating_sub(1);
        self.data_at = None;
        Ok(())
    }

    /// Takes the only sample that is kept, where a take of all asks for it and ends no life by that, and where there is room
    /// for the entry and memory for the collection. Else nothing has changed: `find` says what the access finds, or why it is
    /// refused.
    #[inline(always)]
    fn take_only<T: Test>(
        &mut self,
        kind: AccessKind,
        selection: &Selection,
        test: &T,
    ) -> Option<Sequence<Sample>>
        ensures taken { IfSome result (λ samples. (h : List Happening) → StandsFor self.old h
            → Returns kind self.old h selection.now (T.meaning test.now) samples self.new) }
        ensures same { result ≡ None → self.new ≡ self.old }
        ensures qos { qos_of self.new ≡ qos_of self.old }
        ensures room { room_of self.old ≤ room_of self.new + 1 }
    {
        if self.room == 0 {
            return None;
        }
        let masks = masks_of_all(kind, selection)?;
        // Not by `?`, which would move it once more.
        let Some(only) = find_only(&self.instances, &self.qos, masks, test, &self.samples) else {
            return None;
        };
        let mut samples = self.collection.take(self.alloc);
        if reserve_few(&mut samples, 1).is_err() {
            return None;
        }
        let value = take_last(
            self.alloc,
            &mut self.instances,
            &mut self.samples,
            &mut self.summary,
            only.sample,
        );
        samples.push_reserved(as_sample(&only, &mut Ranks::new(), value));
        self.room -= 1;
        self.data_at = None;
        Some(Sequence::from_vec(samples))
    }

    /// Reads or takes the present samples that the selection asks for and that pass the test; `Everything` is the test
    /// that each sample passes. The next sample is picked without the test. `docs/DECISIONS.md`, "A reader's cache",
    /// says why they are one.
    ///
    /// # Errors
    ///
    /// The first of these: `BadParameter` for a `max` that is neither -1 nor positive, and for an instance that is not
    /// known where it has to be; `NoData` where there is no such sample, and that too is an access, which lowers
    /// DATA_AVAILABLE; `Memory` where a growth was refused, which only samples that are picked need, and after 2^64 - 1
    /// entries. But for `NoData` the cache is then as it was.
    ///
    /// DDS 1.4, 2.2.2.5 (read, take, read_w_condition, take_w_condition, read_instance, take_instance,
    /// read_next_instance, take_next_instance, read_next_instance_w_condition, take_next_instance_w_condition,
    /// read_next_sample, take_next_sample).
    pub fn access<T: Test>(
        &mut self,
        kind: AccessKind,
        selection: Selection,
        test: &T,
    ) -> Result<Sequence<Sample>, Code>
        // The samples are those that the definitions pick by the test of what happened, or there is none; or it is
        // refused by the first cause that there is, or for want of memory, which only samples that are picked need, and
        // what comes after 2^64 - 1 entries.
        ensures answer { (h : List Happening) → StandsFor self.old h
            → AccessAnswers self.old h selection (T.meaning test.now) result }
        // The read or take is entered, and nothing else; one that is refused is not.
        ensures after { (h : List Happening) → StandsFor self.old h
            → AfterAccess kind self.old h selection (T.meaning test.now) result self.new }
        // The policies stay.
        ensures qos { qos_of self.new ≡ qos_of self.old }
        // It takes the room of one entry at most.
        ensures room { room_of self.old ≤ room_of self.new + 1 }
    {
        if let Some(samples) = self.take_only(kind, &selection, test) {
            return Ok(samples);
        }
        // Not by `?`, which would move what is found once more.
        match self.find(kind, selection, test) {
            Ok(mut access) => {
                self.enter(kind, &mut access)?;
                answer_of(access)
            }
            Err(code) => Err(code),
        }
    }

    /// The same as `access`, and the samples once more: two equal collections. All memory is asked for before the cache
    /// changes.
    ///
    /// # Errors
    ///
    /// Those of `access`: `Memory` also where the second collection found none.
    ///
    /// DDS 1.4, 2.2.2.5 (read, take, and their other forms).
    pub fn access_twice<T: Test>(
        &mut self,
        kind: AccessKind,
        selection: Selection,
        test: &T,
    ) -> Result<(Sequence<Sample>, Sequence<Sample>), Code>
        // The first collection answers as that of `access` does.
        ensures answer { (h : List Happening) → StandsFor self.old h
            → AccessAnswers self.old h selection (T.meaning test.now) (first_of result) }
        // The read or take is entered once, and nothing else; one that is refused is not.
        ensures after { (h : List Happening) → StandsFor self.old h
            → AfterAccess kind self.old h selection (T.meaning test.now) (first_of result) self.new }
        // The second collection is the first one.
        ensures equal { IfOk result (λ twice. twice.1 ≡ twice.0) }
        // The policies stay.
        ensures qos { qos_of self.new ≡ qos_of self.old }
        // It takes the room of one entry at most.
        ensures room { room_of self.old ≤ room_of self.new + 1 }
    {
        // Both are copies, made before anything changes.
        let mut found = self.find(AccessKind::Take, selection, test)?;
        let (first, second) = twice(self.alloc, &self.samples, &found)?;
        self.enter(kind, &mut found)?;
        found.samples = first;
        let samples = answer_of(found)?;
        Ok((samples, Sequence::from_vec(second)))
    }
}

/// The samples of an access, or that there is none.
#[inline(always)]
fn answer_of(access: Access) -> Result<Sequence<Sample>, Code>
    ensures { result
        ≡ (if length access.positions.items == 0 then Err NoData else Ok access.samples.items) }
{
    let Access {
        positions,
        samples,
        ..
    } = access;
    if positions.as_slice().is_empty() {
        Err(Code::NoData)
    } else {
        Ok(Sequence::from_vec(samples))
    }
}
