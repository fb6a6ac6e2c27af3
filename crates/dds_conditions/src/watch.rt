//! What the application of a peer watches.
//!
//! DDS 1.4, 2.2.2.1 (Condition, WaitSet).

ghost use Rattle.std.specs.Prelude.{◌≡◌, ℕ, [], IsOk, nat_le, ◌+◌, ◌-◌, ◌≤◌, length, map, Bool, None, Some, true, false, OnOk, OnErr, IfOk, IfErr, IfSome, IfNone, is_some};
ghost use Rattle.std.specs.List.{list_any};
ghost use Rattle.std.specs.Option.{option_copied};
ghost use Rattle.dds_notices.specs.declared.mask.StatusMask.{StatusMask as Mask};
ghost use Rattle.std.specs.Fn.{CalledAt};
ghost use Rattle.std.specs.Borrow.{sem};
ghost use Rattle.dds_base.specs.declared.code.Code.TheVariants.{Memory};
ghost use Rattle.dds_base.specs.Refusal.{Refuses};
ghost use Rattle.dds_conditions.specs.declared.condition.Cond.{Cond as CondOf};
ghost use Rattle.dds_conditions.specs.declared.condition.Condition.TheVariants.{Guard as IsGuard};
ghost use Rattle.dds_conditions.specs.Attached.{active_of, is_attached};
ghost use Rattle.dds_base.specs.Number.{at_number};
ghost use Rattle.dds_conditions.specs.Lent.{LendsWaitSet};
ghost use Rattle.dds_conditions.specs.Watched.{attach_refusal, conditions_of, detaching_refusal, enabled_of, filter_refusal, free_refusal, guard_refusal, has_filter, is_timed_out, is_used, knows, knows_entity, number_refusal, opened, unless_there, use_refusal, uses_in, with_attached, with_condition, with_condition_at, with_deadline, with_detached, with_enabled, with_filter, with_wait_set, with_wait_set_at, without, without_condition};

use crate::condition::{Cond, Condition};
use crate::wait_set::WaitSet;
use crate::waiting::Waiting;
use dds_base::{Code, EachEntity, Entity, Moment, Sequence};
use dds_notices::StatusMask;
use std::alloc::{AllocError, Global};
use std::marker::Model;

/// What the application of a peer watches: the conditions that it made, its WaitSets, and which statuses of which
/// entity are enabled. Conditions and WaitSets are numbered from 1 to 2^32 - 1, and no number is given twice.
///
/// DDS 1.4, 2.2.2.1 (Condition, WaitSet, StatusCondition).
#[derive(Drop)]
pub struct Watch {
    alloc: Global,
    conditions: Vec<Option<Condition>>,
    wait_sets: Vec<Option<Waiting>>,
    enabled: EachEntity<StatusMask>,
    filters: u32,
}

impl Model for Watch {
    ghost use Rattle.std.specs.Prelude.{◌≤◌, length};
    ghost use Rattle.dds_conditions.specs.Watched.{Watched};

    ghost Value = { Watched };

    ghost view = { λ w. record {
      conditions = w.conditions.items;
      wait_sets = w.wait_sets.items;
      enabled = w.enabled;
      filters = w.filters;
    } };

    // Each has a number.
    ghost invariant = { λ w. length w.wait_sets.items ≤ 4294967295 };
}

/// Whether there is a WaitSet, and somebody waits in it.
fn is_used(waiting: &Option<Waiting>) -> bool
    ensures { result ≡ is_used waiting.now }
{
    match waiting {
        Some(waiting) => waiting.deadline.is_some(),
        None => false,
    }
}

impl Watch {
    /// Of a peer with so many writers and readers: nothing was made, and all statuses are enabled.
    ///
    /// # Errors
    ///
    /// Where a growth was refused.
    pub fn open(alloc: Global, writers: usize, readers: usize) -> Result<Watch, AllocError>
        ensures opened { IfOk result (λ watch. watch ≡ opened writers readers) }
    {
        Ok(Watch {
            alloc,
            conditions: Vec::new(alloc),
            wait_sets: Vec::new(alloc),
            enabled: EachEntity::open(alloc, writers, readers, || StatusMask::ANY)?,
            filters: 0,
        })
    }

    /// The condition of this number, if there is one.
    pub fn condition(&self, number: u32) -> Option<Condition>
        // It was made with this number, and was not deleted.
        ensures made { result ≡ at_number self.now.conditions number }
    {
        if number == 0 {
            return None;
        }
        match self.conditions.get(number as usize - 1) {
            Some(condition) => *condition,
            None => None,
        }
    }

    /// Whether there is such a condition: the status condition of an entity that the peer has, or one that was made and
    /// not deleted.
    pub fn knows(&self, condition: Cond) -> bool
        ensures known { result ≡ knows self.now condition }
    {
        match condition {
            Cond::Status(entity) => self.knows_entity(entity),
            Cond::Made(number) => self.condition(number).is_some(),
        }
    }

    /// Whether the peer has this entity: the participant always, a writer or a reader of a number from 1 to how many
    /// there are.
    pub fn knows_entity(&self, entity: Entity) -> bool
        ensures known { result ≡ knows_entity self.now entity }
    {
        self.enabled.has(entity)
    }

    /// In how many WaitSets somebody waits.
    ///
    /// DDS 1.4, 2.2.2.1 (WaitSet, wait).
    pub fn in_use(&self) -> u32
        ensures used { result ≡ uses_in self.now.wait_sets }
    {
        self.wait_sets
            .iter()
            .filter(|waiting| is_used(waiting))
            .count() as u32
    }

    /// Whether somebody waits in the WaitSet of this number; not in one that there isn't.
    ///
    /// DDS 1.4, 2.2.2.1 (WaitSet, wait).
    pub fn is_in_use(&self, number: u32) -> bool
        ensures used { result ≡ is_used (at_number self.now.wait_sets number) }
    {
        self.wait_set(number)
            .is_some_and(|waiting| waiting.deadline.is_some())
    }

    /// Makes a condition, and gives its number.
    ///
    /// # Errors
    ///
    /// `OutOfResources` where no number is left, else `Memory` where a growth was refused; nothing was made then.
    ///
    /// DDS 1.4, 2.2.2.1 (GuardCondition), 2.2.2.5 (create_readcondition).
    pub fn create(&mut self, condition: Condition) -> Result<u32, Code>
        // It is the last one.
        ensures ok { OnOk result (self.new ≡ with_condition self.old condition) }
        // Its number is the next one.
        ensures number { IfOk result (λ number. number ≡ length self.old.conditions + 1) }
        // A number was left.
        ensures taken { OnOk result (number_refusal self.old.conditions ≡ None) }
        // A refusal is for its cause, or for want of memory.
        ensures refused { IfErr result (λ code. Refuses (number_refusal self.old.conditions) code) }
        // A refusal changes nothing.
        ensures err { OnErr result (self.new ≡ self.old) }
    {
        if self.conditions.len() >= u32::MAX as usize {
            return Err(Code::OutOfResources);
        }
        self.conditions.push(Some(condition))?;
        Ok(self.conditions.len() as u32)
    }

    /// Gives a guard condition this value.
    ///
    /// # Errors
    ///
    /// `BadParameter` where there is no such condition, `PreconditionNotMet` where it is no guard; nothing changes
    /// then.
    ///
    /// DDS 1.4, 2.2.2.1 (GuardCondition, set_trigger_value).
    pub fn set_guard(&mut self, number: u32, value: bool) -> Result<(), Code>
        // It has the value, and the others are as before.
        ensures ok { OnOk result (self.new
            ≡ with_condition_at self.old number (Some (IsGuard value))) }
        // There is such a condition, and it is a guard.
        ensures taken { OnOk result (guard_refusal (at_number self.old.conditions number) ≡ None) }
        // A refusal is for its cause.
        ensures refused { IfErr result
            (λ code. guard_refusal (at_number self.old.conditions number) ≡ Some code) }
        // A refusal changes nothing.
        ensures err { OnErr result (self.new ≡ self.old) }
    {
        match self.condition(number) {
            Some(Condition::Guard(_)) => {}
            Some(_) => return Err(Code::PreconditionNotMet),
            None => return Err(Code::BadParameter),
        }
        self.conditions[number as usize - 1] = Some(Condition::Guard(value));
        Ok(())
    }

    /// Deletes a condition: it is detached from each WaitSet, and its number is unknown from then on.
    ///
    /// # Errors
    ///
    /// `BadParameter` where there is no such condition.
    ///
    /// DDS 1.4, 2.2.2.5 (delete_readcondition).
    pub fn delete(&mut self, number: u32) -> Result<(), Code>
        // It is gone, and attached nowhere.
        ensures ok { OnOk result (self.new ≡ without_condition self.old number) }
        // There is such a condition.
        ensures taken { OnOk result (unless_there (is_some (at_number self.old.conditions number))
            ≡ None) }
        // A refusal is for its cause.
        ensures refused { IfErr result
            (λ code. unless_there (is_some (at_number self.old.conditions number)) ≡ Some code) }
        // A refusal changes nothing.
        ensures err { OnErr result (self.new ≡ self.old) }
    {
        if self.condition(number).is_none() {
            return Err(Code::BadParameter);
        }
        self.conditions[number as usize - 1] = None;
        detach_all(self.wait_sets.as_mut_slice(), Cond::Made(number));
        Ok(())
    }

    /// The number of the next filter.
    ///
    /// # Errors
    ///
    /// `OutOfResources` where no number is left.
    ///
    /// DDS 1.4, 2.2.2.5 (QueryCondition).
    pub fn next_filter(&self) -> Result<u32, Code>
        // It is one more than there are filters.
        ensures number { IfOk result (λ number. number ≡ self.now.filters + 1) }
        // A number was left.
        ensures taken { OnOk result (filter_refusal self.now ≡ None) }
        // A refusal is for its cause.
        ensures refused { IfErr result (λ code. filter_refusal self.now ≡ Some code) }
    {
        self.filters.checked_add(1).ok_or(Code::OutOfResources)
    }

    /// Counts one more filter, and gives its number.
    ///
    /// # Errors
    ///
    /// `OutOfResources` where no number is left; nothing changes then.
    ///
    /// DDS 1.4, 2.2.2.5 (QueryCondition).
    pub fn add_filter(&mut self) -> Result<u32, Code>
        // It is the last one.
        ensures ok { OnOk result (self.new ≡ with_filter self.old) }
        // Its number is the next one.
        ensures number { IfOk result (λ number. number ≡ self.old.filters + 1) }
        // A number was left.
        ensures taken { OnOk result (filter_refusal self.old ≡ None) }
        // A refusal is for want of a number.
        ensures refused { IfErr result (λ code. filter_refusal self.old ≡ Some code) }
        // A refusal changes nothing.
        ensures err { OnErr result (self.new ≡ self.old) }
    {
        let number = self.next_filter()?;
        self.filters = number;
        Ok(number)
    }

    /// Whether a filter of this number was added: they count from 1, and none is ever taken away.
    pub fn has_filter(&self, number: u32) -> bool
        ensures has { result ≡ has_filter self.now number }
    {
        0 < number && number <= self.filters
    }

    /// Makes a WaitSet with no conditions, and gives its number.
    ///
    /// # Errors
    ///
    /// `OutOfResources` where no number is left, else `Memory` where a growth was refused; nothing was made then.
    ///
    /// DDS 1.4, 2.2.2.1 (WaitSet).
    pub fn create_wait_set(&mut self) -> Result<u32, Code>
        // It is the last one.
        ensures ok { OnOk result (self.new ≡ with_wait_set self.old) }
        // Its number is the next one.
        ensures number { IfOk result (λ number. number ≡ length self.old.wait_sets + 1) }
        // A number was left.
        ensures taken { OnOk result (number_refusal self.old.wait_sets ≡ None) }
        // A refusal is for its cause, or for want of memory.
        ensures refused { IfErr result (λ code. Refuses (number_refusal self.old.wait_sets) code) }
        // A refusal changes nothing.
        ensures err { OnErr result (self.new ≡ self.old) }
    {
        if self.wait_sets.len() >= u32::MAX as usize {
            return Err(Code::OutOfResources);
        }
        self.wait_sets.push(Some(Waiting {
            conditions: WaitSet::open(self.alloc),
            deadline: None,
        }))?;
        Ok(self.wait_sets.len() as u32)
    }

    /// Deletes a WaitSet: its number is unknown from then on.
    ///
    /// # Errors
    ///
    /// `BadParameter` where there is no such WaitSet, `PreconditionNotMet` where somebody waits in it; nothing changes
    /// then.
    ///
    /// DDS 1.4, 2.2.2.1 (WaitSet).
    pub fn delete_wait_set(&mut self, number: u32) -> Result<(), Code>
        // It is gone, and the others are as before.
        ensures ok { OnOk result (self.new ≡ with_wait_set_at self.old number None) }
        // There is such a WaitSet, and nobody waited in it.
        ensures taken { OnOk result (free_refusal (at_number self.old.wait_sets number) ≡ None) }
        // A refusal is for its cause.
        ensures refused { IfErr result
            (λ code. free_refusal (at_number self.old.wait_sets number) ≡ Some code) }
        // A refusal changes nothing.
        ensures err { OnErr result (self.new ≡ self.old) }
    {
        check_free(self.wait_set(number).ok_or(Code::BadParameter)?)?;
        self.wait_sets[number as usize - 1] = None;
        Ok(())
    }

    /// Attaches a condition to a WaitSet, as its last one. One that is attached already stays where it is.
    ///
    /// # Errors
    ///
    /// `BadParameter` where there is no such WaitSet or no such condition, else `Memory` where a growth was refused,
    /// which only one that was not attached needs; nothing changes then.
    ///
    /// DDS 1.4, 2.2.2.1 (attach_condition).
    pub fn attach(&mut self, number: u32, condition: Cond) -> Result<(), Code>
        // It is attached, and the others are as before.
        ensures ok { OnOk result (self.new ≡ with_attached self.old number condition) }
        // There is such a WaitSet, and such a condition.
        ensures taken { OnOk result (attach_refusal self.old number condition ≡ None) }
        // A refusal is for its cause, or for want of memory.
        ensures refused { IfErr result
            (λ code. Refuses (attach_refusal self.old number condition) code) }
        // Attached again, it is refused for its cause alone.
        ensures again { is_attached condition (conditions_of self.old number) ≡ true
            → IfErr result (λ code. attach_refusal self.old number condition ≡ Some code) }
        // A refusal changes nothing.
        ensures err { OnErr result (self.new ≡ self.old) }
    {
        self.known(number, condition)?.conditions.attach(condition)
    }

    /// Detaches a condition from a WaitSet.
    ///
    /// # Errors
    ///
    /// `BadParameter` where there is no such WaitSet or no such condition, `PreconditionNotMet` where it is not
    /// attached; nothing changes then.
    ///
    /// DDS 1.4, 2.2.2.1 (detach_condition).
    pub fn detach(&mut self, number: u32, condition: Cond) -> Result<(), Code>
        // It is no longer attached, and the others are as before.
        ensures ok { OnOk result (self.new ≡ with_detached self.old number condition) }
        // There is such a WaitSet, and such a condition, which was attached.
        ensures taken { OnOk result (detaching_refusal self.old number condition ≡ None) }
        // A refusal is for its cause.
        ensures refused { IfErr result
            (λ code. detaching_refusal self.old number condition ≡ Some code) }
        // A refusal changes nothing.
        ensures err { OnErr result (self.new ≡ self.old) }
    {
        self.known(number, condition)?.conditions.detach(condition)
    }

    /// The conditions of a WaitSet, in the order in which they were attached.
    ///
    /// # Errors
    ///
    /// `BadParameter` where there is no such WaitSet, else `Memory` where a growth was refused, which only one that has
    /// conditions needs.
    ///
    /// DDS 1.4, 2.2.2.1 (get_conditions).
    pub fn conditions(&self, number: u32) -> Result<Sequence<Cond>, Code>
        // They are those that are attached to it.
        ensures ok { IfOk result (λ conditions. conditions ≡ conditions_of self.now number) }
        // There is such a WaitSet.
        ensures taken { OnOk result (unless_there (is_some (at_number self.now.wait_sets number))
            ≡ None) }
        // A refusal is for its cause, or for want of memory.
        ensures refused { IfErr result
            (λ code. Refuses (unless_there (is_some (at_number self.now.wait_sets number))) code) }
        // Where none is attached, it is refused for its cause alone.
        ensures none { conditions_of self.now number ≡ []
            → IfErr result
            (λ code. unless_there (is_some (at_number self.now.wait_sets number)) ≡ Some code) }
    {
        let waiting = self.wait_set(number).ok_or(Code::BadParameter)?;
        if waiting.conditions.conditions().is_empty() {
            return Ok(Sequence::from_vec(Vec::new(self.alloc)));
        }
        let conditions = Vec::from_slice(self.alloc, waiting.conditions.conditions())?;
        Ok(Sequence::from_vec(conditions))
    }

    /// The conditions of a WaitSet where they stand, in the order in which they were attached; none where there is no
    /// such WaitSet. It takes no memory.
    ///
    /// DDS 1.4, 2.2.2.1 (get_conditions).
    pub fn attached(&self, number: u32) -> &[Cond]
        // They are those that are attached to it.
        ensures conditions { result.now ≡ conditions_of self.now number }
    {
        match self.wait_set(number) {
            Some(waiting) => waiting.conditions.conditions(),
            None => &[],
        }
    }

    /// The WaitSet of this number, if there is one.
    fn wait_set(&self, number: u32) -> Option<&Waiting>
        ensures { option_copied result ≡ at_number self.now.wait_sets number }
    {
        if number == 0 {
            return None;
        }
        match self.wait_sets.get(number as usize - 1) {
            Some(Some(waiting)) => Some(waiting),
            _ => None,
        }
    }

    /// The WaitSet of this number, to be changed; `BadParameter` where there is none.
    fn wait_set_mut(&mut self, number: u32) -> Result<&mut Waiting, Code>
        ensures* writes_back { sem 𝓛 (LendsWaitSet self.entry number result) }
        ensures there { IfOk result
            (λ waiting. at_number self.old.wait_sets number ≡ Some waiting.now) }
        ensures refused { IfErr result
            (λ code. unless_there (is_some (at_number self.old.wait_sets number)) ≡ Some code) }
    {
        if number == 0 {
            return Err(Code::BadParameter);
        }
        match self.wait_sets.get_mut(number as usize - 1) {
            Some(Some(waiting)) => Ok(waiting),
            _ => Err(Code::BadParameter),
        }
    }

    /// The WaitSet of this number, to be changed, where this condition is known too; `BadParameter` where one is not.
    fn known(&mut self, number: u32, condition: Cond) -> Result<&mut Waiting, Code>
        ensures* writes_back { sem 𝓛 (LendsWaitSet self.entry number result) }
        ensures there { IfOk result
            (λ waiting. at_number self.old.wait_sets number ≡ Some waiting.now) }
        ensures taken { OnOk result (attach_refusal self.old number condition ≡ None) }
        ensures refused { IfErr result
            (λ code. attach_refusal self.old number condition ≡ Some code) }
    {
        if !self.knows(condition) {
            return Err(Code::BadParameter);
        }
        self.wait_set_mut(number)
    }

    /// Somebody waits in a WaitSet, up to this moment.
    ///
    /// # Errors
    ///
    /// `BadParameter` where there is no such WaitSet, `PreconditionNotMet` where somebody waits in it already; nothing
    /// changes then.
    ///
    /// DDS 1.4, 2.2.2.1 (wait).
    pub fn begin(&mut self, number: u32, deadline: Moment) -> Result<(), Code>
        // Somebody waits in it up to the moment, and nothing else changes.
        ensures ok { OnOk result (self.new ≡ with_deadline self.old number (Some deadline)) }
        // There is such a WaitSet, and nobody waited in it.
        ensures taken { OnOk result (free_refusal (at_number self.old.wait_sets number) ≡ None) }
        // A refusal is for its cause.
        ensures refused { IfErr result
            (λ code. free_refusal (at_number self.old.wait_sets number) ≡ Some code) }
        // A refusal changes nothing.
        ensures err { OnErr result (self.new ≡ self.old) }
    {
        let waiting = self.wait_set_mut(number)?;
        check_free(waiting)?;
        waiting.deadline = Some(deadline);
        Ok(())
    }

    /// Nobody waits in a WaitSet any more.
    ///
    /// # Errors
    ///
    /// `BadParameter` where there is no such WaitSet, `PreconditionNotMet` where nobody waits in it; nothing changes
    /// then.
    ///
    /// DDS 1.4, 2.2.2.1 (wait).
    pub fn end(&mut self, number: u32) -> Result<(), Code>
        // Nobody waits in it, and nothing else changes.
        ensures ok { OnOk result (self.new ≡ with_deadline self.old number None) }
        // There is such a WaitSet, and somebody waited in it.
        ensures taken { OnOk result (use_refusal (at_number self.old.wait_sets number) ≡ None) }
        // A refusal is for its cause.
        ensures refused { IfErr result
            (λ code. use_refusal (at_number self.old.wait_sets number) ≡ Some code) }
        // A refusal changes nothing.
        ensures err { OnErr result (self.new ≡ self.old) }
    {
        self.deadline(number)?;
        self.wait_set_mut(number)?.deadline = None;
        Ok(())
    }

    /// Up to which moment somebody waits in a WaitSet.
    ///
    /// # Errors
    ///
    /// `BadParameter` where there is no such WaitSet, `PreconditionNotMet` where nobody waits in it.
    ///
    /// DDS 1.4, 2.2.2.1 (wait: timeout).
    pub fn deadline(&self, number: u32) -> Result<Moment, Code>
        // The wait is over exactly from this moment on.
        ensures ok { IfOk result
            (λ moment. (now : ℕ)
            → is_timed_out (at_number self.now.wait_sets number) now ≡ nat_le moment now) }
        // There is such a WaitSet, and somebody waits in it.
        ensures taken { OnOk result (use_refusal (at_number self.now.wait_sets number) ≡ None) }
        // A refusal is for its cause.
        ensures refused { IfErr result
            (λ code. use_refusal (at_number self.now.wait_sets number) ≡ Some code) }
    {
        let waiting = self.wait_set(number).ok_or(Code::BadParameter)?;
        waiting.deadline.ok_or(Code::PreconditionNotMet)
    }

    /// Whether some condition of a WaitSet has a trigger value that is true; `false` where there is no such WaitSet.
    /// `is_true` tells the trigger value of each.
    ///
    /// DDS 1.4, 2.2.2.1 (wait; get_trigger_value).
    pub fn is_active<T: FnMut(&Cond) -> bool>(&self, number: u32, is_true: T) -> bool
        // The test can be called at any time.
        requires callable { T.IsAlwaysCallable is_true }
        // If the test tells these trigger values, and stays the same, one is true by these.
        ensures active { (trigger : CondOf → Bool)
            → ((c : CondOf) (answer : Bool) (after : T) → CalledAt T.FnMut is_true c answer after
            → (answer ≡ trigger c) × (after ≡ is_true))
            → result ≡ list_any trigger (conditions_of self.now number) }
    {
        match self.wait_set(number) {
            Some(waiting) => waiting.conditions.is_active(is_true),
            None => false,
        }
    }

    /// The conditions of a WaitSet whose trigger value is true, in the order in which they were attached; none where
    /// there is no such WaitSet. `is_true` tells the trigger value of each, and is asked once of each.
    ///
    /// # Errors
    ///
    /// `Memory` where a growth was refused, which only a WaitSet needs that has a condition that is true.
    ///
    /// DDS 1.4, 2.2.2.1 (wait: active_conditions).
    pub fn active<T: FnMut(&Cond) -> bool>(
        &self,
        number: u32,
        is_true: T,
    ) -> Result<Sequence<Cond>, Code>
        // The test can be called at any time.
        requires callable { T.IsAlwaysCallable is_true }
        // If the test tells these trigger values, and stays the same, they are those that are true by these.
        ensures ok { (trigger : CondOf → Bool)
            → ((c : CondOf) (answer : Bool) (after : T) → CalledAt T.FnMut is_true c answer after
            → (answer ≡ trigger c) × (after ≡ is_true))
            → IfOk result (λ active. active ≡ active_of trigger (conditions_of self.now number)) }
        // Where none is attached, it is never refused.
        ensures none { conditions_of self.now number ≡ [] → IsOk result }
        // If the test tells these trigger values, and stays the same, it is refused only where one is true by these.
        ensures some { (trigger : CondOf → Bool)
            → ((c : CondOf) (answer : Bool) (after : T) → CalledAt T.FnMut is_true c answer after
            → (answer ≡ trigger c) × (after ≡ is_true))
            → IfErr result (λ code. list_any trigger (conditions_of self.now number) ≡ true) }
        // The only refusal is for want of memory.
        ensures memory { IfErr result (λ code. code ≡ Memory) }
    {
        match self.wait_set(number) {
            Some(waiting) => waiting.conditions.active(is_true),
            None => Ok(Sequence::from_vec(Vec::new(self.alloc))),
        }
    }

    /// Which statuses of an entity are enabled, if there is such an entity.
    ///
    /// DDS 1.4, 2.2.2.1 (StatusCondition, get_enabled_statuses).
    pub fn enabled(&self, entity: Entity) -> Option<StatusMask>
        // There is such an entity, and these are those that are enabled.
        ensures there { IfSome result
            (λ mask. (knows_entity self.now entity ≡ true)
            × ((none : Mask) → mask ≡ enabled_of self.now entity none)) }
        // There is none only where there is no such entity.
        ensures none { IfNone result (knows_entity self.now entity ≡ false) }
    {
        self.enabled.at(entity).copied()
    }

    /// Enables these statuses of an entity, and no others.
    ///
    /// # Errors
    ///
    /// `BadParameter` where there is no such entity; nothing changes then.
    ///
    /// DDS 1.4, 2.2.2.1 (StatusCondition, set_enabled_statuses).
    pub fn enable(&mut self, entity: Entity, mask: StatusMask) -> Result<(), Code>
        // These are enabled, and nothing else changes.
        ensures ok { OnOk result (self.new ≡ with_enabled self.old entity mask) }
        // There is such an entity.
        ensures taken { OnOk result (unless_there (knows_entity self.old entity) ≡ None) }
        // A refusal is for its cause.
        ensures refused { IfErr result
            (λ code. unless_there (knows_entity self.old entity) ≡ Some code) }
        // A refusal changes nothing.
        ensures err { OnErr result (self.new ≡ self.old) }
    {
        if !self.knows_entity(entity) {
            return Err(Code::BadParameter);
        }
        self.enabled.replace(entity, mask);
        Ok(())
    }
}

/// That nobody waits in a WaitSet.
fn check_free(waiting: &Waiting) -> Result<(), Code>
    ensures ok { OnOk result (free_refusal (Some waiting.now) ≡ None) }
    ensures refused { IfErr result (λ code. free_refusal (Some waiting.now) ≡ Some code) }
{
    if waiting.deadline.is_some() {
        return Err(Code::PreconditionNotMet);
    }
    Ok(())
}

/// Detaches a condition from a WaitSet, if there is one and it is attached there.
fn detach_from(waiting: &mut Option<Waiting>, condition: Cond)
    ensures { waiting.new ≡ without condition waiting.old }
{
    if let Some(waiting) = waiting {
        waiting.conditions.forget(condition);
    }
}

/// Detaches a condition from each of these WaitSets to which it is attached.
fn detach_all(wait_sets: &mut [Option<Waiting>], condition: Cond)
    ensures { wait_sets.new ≡ map (without condition) wait_sets.old }
{
    for index in 0..wait_sets.len() {
        detach_from(&mut wait_sets[index], condition);
    }
}
