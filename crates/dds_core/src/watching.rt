//! The calls of what an application watches: its conditions, its WaitSets and the statuses.
//!
//! DDS 1.4, 2.2.2.1 (Condition, WaitSet), 2.2.2.5 (ReadCondition).

ghost use Rattle.std.specs.Prelude.{◌≡◌, ◌+◌, ◌<◌, length, [], true, None, Some, is_some, IfOk, IfErr, OnErr, OnOk};
ghost use Rattle.dds_base.specs.declared.code.Code.TheVariants.{Memory};
ghost use Rattle.dds_base.specs.Checked.{is_maximum};
ghost use Rattle.dds_base.specs.Selection.{max_in};
ghost use Rattle.dds_base.specs.Number.{at_number};
ghost use Rattle.dds_base.specs.Refusal.{Refuses};
ghost use Rattle.dds_conditions.specs.Watched.{conditions_of, filter_refusal, unless_there, use_refusal, with_filter};
ghost use Rattle.dds_conditions.specs.declared.condition.Condition.TheVariants.{Samples};
ghost use Rattle.dds_machine.specs.declared.call.Call.TheVariants as call;
ghost use Rattle.dds_machine.specs.Part.{own_reader};
ghost use Rattle.dds_protocol.specs.declared.event.Event.TheVariants as event;
ghost use Rattle.dds_core.specs.Accesses.{condition_call};
ghost use Rattle.dds_core.specs.Remembering.{AreMisses};
ghost use Rattle.dds_core.specs.Stepping.{Steps, StepsBy};
ghost use Rattle.dds_core.specs.Sending.{SendsNothing};
ghost use Rattle.dds_ends.specs.Twins.{IsPlain, Twins};
ghost use Rattle.dds_core.specs.Watching.{AreActive, AsksBy, Tells, TellsActive, TellsStatuses, TellsTrigger, TellsValue, active_reply, asked_of, conditions_reply, done_reply, made_reply};

use crate::by_filter::ByFilter;
use crate::misses::{Miss, Misses};
use crate::peer::Peer;
use bitflags::Flags;
use dds_base::{Code, Entity, Masks, Moment, Scope, Selection, Sequence, index_of};
use dds_cache::AccessKind;
use dds_conditions::{Cond, Condition, Filters};
use dds_ends::{Twin, answered, reply_to_access};
use dds_machine::Reply;
use dds_notices::StatusMask;
use dds_protocol::Output;

/// The reply to a call that is done or refused.
fn reply_to(done: Result<(), Code>) -> Reply
    ensures { result ≡ done_reply done }
{
    match done {
        Ok(()) => Reply::Done,
        Err(code) => Reply::Refused(code),
    }
}

/// The reply to a call that makes something, and gives its number.
fn reply_to_made(made: Result<u32, Code>) -> Reply
    ensures { result ≡ made_reply made }
{
    match made {
        Ok(number) => Reply::Created(number),
        Err(code) => Reply::Refused(code),
    }
}

/// The reply to a call that gives conditions.
fn reply_to_conditions(conditions: Result<Sequence<Cond>, Code>) -> Reply
    ensures { result ≡ conditions_reply conditions }
{
    match conditions {
        Ok(conditions) => Reply::Conditions(conditions),
        Err(code) => Reply::Refused(code),
    }
}

/// Whether the `max` of an access by a condition is -1 or positive.
fn is_valid(scope: &Scope) -> bool
    ensures { result ≡ is_maximum (max_in scope.now) }
{
    match scope {
        Scope::Any { max } => *max == -1 || 0 < *max,
        Scope::NextInstance { max, .. } => *max == -1 || 0 < *max,
    }
}

/// What an access by a condition asks for: of the reader of an index, the samples of a selection that pass the filter of
/// a number, if there is one.
pub struct Asked {
    pub index: usize,
    pub selection: Selection,
    pub filter: Option<u32>,
}

/// What an access of a reader, which has this index, by this condition asks for.
fn asked_for(
    index: usize,
    reader: u8,
    scope: Scope,
    condition: Option<Condition>,
) -> Result<Asked, Code>
    ensures { result ≡ asked_of index reader scope condition }
{
    match condition {
        Some(
            Condition::Samples {
                reader: other,
                masks,
                filter,
            },
        ) => {
            if other == reader {
                let selection = scope.selection(masks);
                Ok(Asked {
                    index,
                    selection,
                    filter,
                })
            } else {
                Err(Code::PreconditionNotMet)
            }
        }
        Some(Condition::Guard(_)) => Err(Code::PreconditionNotMet),
        None => Err(Code::BadParameter),
    }
}

/// These conditions, and once more where two replies are asked for.
fn told_twice(active: Sequence<Cond>, twin: &mut Twin) -> Result<Sequence<Cond>, Code>
    ensures ok { IfOk result (λ conditions. conditions ≡ active) }
    ensures memory { IfErr result (λ code. code ≡ Memory) }
    ensures twin { Twins twin.old (active_reply result) twin.new }
{
    if twin.is_asked() {
        let again = active.copied()?;
        *twin = Twin::Kept(Reply::Active(again));
    }
    Ok(active)
}

impl Peer {
    pub(crate) fn create_read_condition(&mut self, reader: u8, masks: Masks) -> Output
        ensures step { Steps self.old
            (event.Call (call.CreateReadCondition reader masks)) result self.new }
        ensures sends { SendsNothing result }
        ensures plain { IsPlain result.reply }
    {
        let Some(_index) = index_of(reader, self.readers.len()) else {
            return self.refused(Code::BadParameter);
        };
        let made = self.watch.create(Condition::Samples {
            reader,
            masks,
            filter: None,
        });
        answered(self.alloc, reply_to_made(made))
    }

    pub(crate) fn create_query_condition(&mut self, reader: u8, masks: Masks, filter: u32) -> Output
        ensures step { Steps self.old
            (event.Call (call.CreateQueryCondition reader masks filter)) result self.new }
        ensures sends { SendsNothing result }
        ensures plain { IsPlain result.reply }
    {
        let Some(_reader) = index_of(reader, self.readers.len()) else {
            return self.refused(Code::BadParameter);
        };
        if !self.watch.has_filter(filter) {
            return self.refused(Code::BadParameter);
        }
        let made = self.watch.create(Condition::Samples {
            reader,
            masks,
            filter: Some(filter),
        });
        answered(self.alloc, reply_to_made(made))
    }

    /// The number of the next filter.
    pub(crate) fn next_filter(&self) -> Result<u32, Code>
        ensures taken { OnOk result (filter_refusal self.now.watch ≡ None) }
        ensures number { IfOk result (λ number. number ≡ self.now.watch.filters + 1) }
        ensures refused { IfErr result (λ code. filter_refusal self.now.watch ≡ Some code) }
    {
        self.watch.next_filter()
    }

    /// One filter more can be named, by the next number.
    pub(crate) fn add_filter(&mut self) -> Result<u32, Code>
        ensures ok { OnOk result (self.new
            ≡ record self.old { watch = with_filter self.old.watch }) }
        ensures number { IfOk result (λ number. number ≡ self.old.watch.filters + 1) }
        ensures refused { IfErr result (λ code. filter_refusal self.old.watch ≡ Some code) }
        ensures err { OnErr result (self.new ≡ self.old) }
    {
        self.watch.add_filter()
    }

    pub(crate) fn create_guard_condition(&mut self) -> Output
        ensures step { Steps self.old (event.Call call.CreateGuardCondition) result self.new }
        ensures sends { SendsNothing result }
        ensures plain { IsPlain result.reply }
    {
        let made = self.watch.create(Condition::Guard(false));
        answered(self.alloc, reply_to_made(made))
    }

    pub(crate) fn set_trigger_value(&mut self, condition: u32, value: bool) -> Output
        ensures step { Steps self.old
            (event.Call (call.SetTriggerValue condition value)) result self.new }
        ensures sends { SendsNothing result }
        ensures plain { IsPlain result.reply }
    {
        let done = self.watch.set_guard(condition, value);
        answered(self.alloc, reply_to(done))
    }

    pub(crate) fn delete_condition(&mut self, condition: u32) -> Output
        ensures step { Steps self.old
            (event.Call (call.DeleteCondition condition)) result self.new }
        ensures sends { SendsNothing result }
        ensures plain { IsPlain result.reply }
    {
        let done = self.watch.delete(condition);
        answered(self.alloc, reply_to(done))
    }

    pub(crate) fn create_wait_set(&mut self) -> Output
        ensures step { Steps self.old (event.Call call.CreateWaitSet) result self.new }
        ensures sends { SendsNothing result }
        ensures plain { IsPlain result.reply }
    {
        let made = self.watch.create_wait_set();
        answered(self.alloc, reply_to_made(made))
    }

    pub(crate) fn delete_wait_set(&mut self, wait_set: u32) -> Output
        ensures step { Steps self.old (event.Call (call.DeleteWaitSet wait_set)) result self.new }
        ensures sends { SendsNothing result }
        ensures plain { IsPlain result.reply }
    {
        let done = self.watch.delete_wait_set(wait_set);
        answered(self.alloc, reply_to(done))
    }

    pub(crate) fn attach_condition(&mut self, wait_set: u32, condition: Cond) -> Output
        ensures step { Steps self.old
            (event.Call (call.AttachCondition wait_set condition)) result self.new }
        ensures sends { SendsNothing result }
        ensures plain { IsPlain result.reply }
    {
        let done = self.watch.attach(wait_set, condition);
        answered(self.alloc, reply_to(done))
    }

    pub(crate) fn detach_condition(&mut self, wait_set: u32, condition: Cond) -> Output
        ensures step { Steps self.old
            (event.Call (call.DetachCondition wait_set condition)) result self.new }
        ensures sends { SendsNothing result }
        ensures plain { IsPlain result.reply }
    {
        let done = self.watch.detach(wait_set, condition);
        answered(self.alloc, reply_to(done))
    }

    pub(crate) fn wait_begin(&mut self, wait_set: u32, deadline: Moment) -> Output
        ensures step { Steps self.old
            (event.Call (call.WaitBegin wait_set deadline)) result self.new }
        ensures sends { SendsNothing result }
        ensures plain { IsPlain result.reply }
    {
        let done = self.watch.begin(wait_set, deadline);
        answered(self.alloc, reply_to(done))
    }

    pub(crate) fn wait_end(&mut self, wait_set: u32) -> Output
        ensures step { Steps self.old (event.Call (call.WaitEnd wait_set)) result self.new }
        ensures sends { SendsNothing result }
        ensures plain { IsPlain result.reply }
    {
        let done = self.watch.end(wait_set);
        answered(self.alloc, reply_to(done))
    }

    pub(crate) fn set_enabled_statuses(&mut self, entity: Entity, mask: StatusMask) -> Output
        ensures step { Steps self.old
            (event.Call (call.SetEnabledStatuses entity mask)) result self.new }
        ensures sends { SendsNothing result }
        ensures plain { IsPlain result.reply }
    {
        let done = self.watch.enable(entity, mask);
        answered(self.alloc, reply_to(done))
    }

    /// The conditions of a WaitSet, and once more where two replies are asked for.
    fn conditions(&self, wait_set: u32, twin: &mut Twin) -> Result<Sequence<Cond>, Code>
        ensures ok { IfOk result (λ conditions. conditions ≡ conditions_of self.now.watch wait_set) }
        ensures taken { OnOk result (unless_there (is_some (at_number self.now.watch.wait_sets wait_set))
            ≡ None) }
        ensures refused { IfErr result
            (λ code. Refuses (unless_there (is_some (at_number self.now.watch.wait_sets wait_set))) code) }
        ensures none { conditions_of self.now.watch wait_set ≡ []
            → IfErr result
            (λ code. unless_there (is_some (at_number self.now.watch.wait_sets wait_set)) ≡ Some code) }
        ensures twin { Twins twin.old (conditions_reply result) twin.new }
    {
        let conditions = self.watch.conditions(wait_set)?;
        if twin.is_asked() {
            let again = self.watch.conditions(wait_set)?;
            *twin = Twin::Kept(Reply::Conditions(again));
        }
        Ok(conditions)
    }

    pub(crate) fn get_conditions(&self, wait_set: u32, twin: &mut Twin) -> Output
        ensures step { Steps self.now (event.Call (call.GetConditions wait_set)) result self.now }
        ensures sends { SendsNothing result }
        ensures twin { Twins twin.old result.reply twin.new }
    {
        let conditions = self.conditions(wait_set, twin);
        answered(self.alloc, reply_to_conditions(conditions))
    }

    /// Which statuses of an entity are flagged; of one that the peer does not have, none.
    fn statuses_of(&self, entity: Entity) -> StatusMask
        ensures { TellsStatuses self.now entity result }
    {
        match entity {
            Entity::Participant => StatusMask::from_bits_retain(0),
            Entity::Writer(number) => match index_of(number, self.writers.len()) {
                Some(index) => self.writers[index].status_changes(),
                None => StatusMask::from_bits_retain(0),
            },
            Entity::Reader(number) => match index_of(number, self.readers.len()) {
                Some(index) => self.readers[index].status_changes(),
                None => StatusMask::from_bits_retain(0),
            },
        }
    }

    /// The trigger value of the condition of this number, which asks so of the reader of this index. Where it found nothing,
    /// and no more has happened there since, it is `false`, and the samples are not gone over again.
    fn ask<T: Filters>(
        &self,
        filters: &T,
        number: u32,
        index: usize,
        miss: Miss,
        misses: &mut Misses,
    ) -> bool
        requires within { index < length self.now.readers }
        requires reader { miss.reader ≡ index + 1 }
        requires newest { Tells self.now
            (λ part. miss.entries ≡ length (own_reader part miss.reader).happened) }
        requires right { AreMisses (T.meaning filters.now) self.now misses.old }
        ensures value { TellsValue (T.meaning filters.now) self.now
            (Some (Samples miss.reader miss.masks miss.filter)) result }
        ensures right { AreMisses (T.meaning filters.now) self.now misses.new }
    {
        if misses.has(number, &miss) {
            return false;
        }
        let test = ByFilter {
            filters,
            filter: miss.filter,
        };
        if self.readers[index].has_match(miss.masks, &test) {
            return true;
        }
        misses.note(number, miss);
        false
    }

    /// The trigger value of the condition of this number; of one that was not made, `false`.
    fn value_of<T: Filters>(&self, filters: &T, number: u32, misses: &mut Misses) -> bool
        requires right { AreMisses (T.meaning filters.now) self.now misses.old }
        ensures value { TellsValue (T.meaning filters.now) self.now
            (at_number self.now.watch.conditions number) result }
        ensures right { AreMisses (T.meaning filters.now) self.now misses.new }
    {
        match self.watch.condition(number) {
            Some(
                Condition::Samples {
                    reader,
                    masks,
                    filter,
                },
            ) => match index_of(reader, self.readers.len()) {
                Some(index) => {
                    let entries = self.readers[index].mark().happened;
                    let miss = Miss {
                        reader,
                        masks,
                        filter,
                        entries,
                    };
                    self.ask(filters, number, index, miss, misses)
                }
                None => false,
            },
            Some(Condition::Guard(value)) => value,
            None => false,
        }
    }

    /// The trigger value of a condition; of one that does not exist, `false`.
    fn trigger_of<T: Filters>(&self, filters: &T, condition: Cond, misses: &mut Misses) -> bool
        requires right { AreMisses (T.meaning filters.now) self.now misses.old }
        ensures value { TellsTrigger (T.meaning filters.now) self.now condition result }
        ensures right { AreMisses (T.meaning filters.now) self.now misses.new }
    {
        match condition {
            Cond::Status(entity) => match self.watch.enabled(entity) {
                Some(enabled) => enabled.intersects(self.statuses_of(entity)),
                None => false,
            },
            Cond::Made(number) => self.value_of(filters, number, misses),
        }
    }

    pub(crate) fn get_trigger_value<T: Filters>(
        &self,
        filters: &T,
        condition: Cond,
        misses: &mut Misses,
    ) -> Output
        requires right { AreMisses (T.meaning filters.now) self.now misses.old }
        ensures step { StepsBy (T.meaning filters.now) self.now
            (event.Call (call.GetTriggerValue condition)) result self.now }
        ensures sends { SendsNothing result }
        ensures plain { IsPlain result.reply }
        ensures right { AreMisses (T.meaning filters.now) self.now misses.new }
    {
        if !self.watch.knows(condition) {
            return self.refused(Code::BadParameter);
        }
        let value = self.trigger_of(filters, condition, misses);
        answered(self.alloc, Reply::TriggerValue(value))
    }

    pub(crate) fn get_status_changes(&self, entity: Entity) -> Output
        ensures step { Steps self.now (event.Call (call.GetStatusChanges entity)) result self.now }
        ensures sends { SendsNothing result }
        ensures plain { IsPlain result.reply }
    {
        if !self.watch.knows_entity(entity) {
            return self.refused(Code::BadParameter);
        }
        let statuses = self.statuses_of(entity);
        answered(self.alloc, Reply::StatusChanges(statuses))
    }

    /// What an access by a condition asks for.
    fn asked_by(&self, reader: u8, scope: Scope, condition: u32) -> Result<Asked, Code>
        ensures { AsksBy self.now reader scope condition result }
    {
        let Some(index) = index_of(reader, self.readers.len()) else {
            return Err(Code::BadParameter);
        };
        if !is_valid(&scope) {
            return Err(Code::BadParameter);
        }
        asked_for(index, reader, scope, self.watch.condition(condition))
    }

    pub(crate) fn access_by_condition<T: Filters>(
        &mut self,
        filters: &T,
        kind: AccessKind,
        reader: u8,
        scope: Scope,
        condition: u32,
        twin: &mut Twin,
    ) -> Output
        ensures step { StepsBy (T.meaning filters.now) self.old
            (event.Call (condition_call kind reader scope condition)) result self.new }
        ensures sends { SendsNothing result }
        ensures twin { Twins twin.old result.reply twin.new }
    {
        let Asked {
            index,
            selection,
            filter,
        } = match self.asked_by(reader, scope, condition) {
            Ok(asked) => asked,
            Err(code) => return self.refused(code),
        };
        self.spare.reader = index;
        let test = ByFilter { filters, filter };
        let samples = self.readers[index].access(kind, selection, &test, twin);
        answered(self.alloc, reply_to_access(samples))
    }

    /// The conditions of a WaitSet that are true. Each is asked once.
    fn active<T: Filters>(
        &self,
        filters: &T,
        wait_set: u32,
        misses: &mut Misses,
    ) -> Result<Sequence<Cond>, Code>
        requires right { AreMisses (T.meaning filters.now) self.now misses.old }
        ensures ok { IfOk result (AreActive (T.meaning filters.now) self.now wait_set) }
        ensures memory { IfErr result (λ code. code ≡ Memory) }
        ensures some { IfErr result (λ code. TellsActive (T.meaning filters.now) self.now wait_set true) }
        ensures right { AreMisses (T.meaning filters.now) self.now misses.new }
    {
        let mut active = Vec::new(self.alloc);
        for condition in self.watch.attached(wait_set) {
            if self.trigger_of(filters, *condition, misses) {
                active.push(*condition)?;
            }
        }
        Ok(Sequence::from_vec(active))
    }

    pub(crate) fn wait_look<T: Filters>(
        &mut self,
        filters: &T,
        wait_set: u32,
        twin: &mut Twin,
        misses: &mut Misses,
    ) -> Output
        requires right { AreMisses (T.meaning filters.now) self.old misses.old }
        ensures step { StepsBy (T.meaning filters.now) self.old
            (event.Call (call.WaitLook wait_set)) result self.new }
        ensures sends { SendsNothing result }
        ensures twin { Twins twin.old result.reply twin.new }
        ensures right { AreMisses (T.meaning filters.now) self.old misses.new }
    {
        let deadline = match self.watch.deadline(wait_set) {
            Ok(deadline) => deadline,
            Err(code) => return self.refused(code),
        };
        let active = match self.active(filters, wait_set, misses) {
            Ok(active) => active,
            Err(code) => return self.refused(code),
        };
        if active.as_slice().is_empty() {
            if self.moment.units() < deadline.units() {
                return answered(self.alloc, Reply::Waiting);
            }
            let _ = self.watch.end(wait_set);
            return self.refused(Code::Timeout);
        }
        match told_twice(active, twin) {
            Ok(active) => {
                let _ = self.watch.end(wait_set);
                answered(self.alloc, Reply::Active(active))
            }
            Err(code) => self.refused(code),
        }
    }
}
