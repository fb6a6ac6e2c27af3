//! What an application waits for.
//!
//! DDS 1.4, 2.2.2.1 (WaitSet: attach_condition, detach_condition, wait).

ghost use Rattle.std.specs.Prelude.{◌≡◌, [], Bool, true, IsOk, IfOk, IfErr, OnOk, OnErr, None, Some};
ghost use Rattle.std.specs.Fn.{CalledAt};
ghost use Rattle.std.specs.List.{list_any};
ghost use Rattle.dds_base.specs.declared.code.Code.TheVariants.{Memory};
ghost use Rattle.dds_conditions.specs.declared.condition.Cond.{Cond};
ghost use Rattle.dds_conditions.specs.Attached.{active_of, attached, detach_refusal, detached, is_attached};

use crate::condition::Cond;
use dds_base::{Code, Sequence};
use std::alloc::Global;
use std::marker::Model;

/// The conditions that an application waits for, in the order in which they were attached.
///
/// DDS 1.4, 2.2.2.1 (WaitSet).
#[derive(Drop)]
pub struct WaitSet {
    conditions: Vec<Cond>,
}

impl Model for WaitSet {
    ghost use Rattle.std.specs.Prelude.{List};
    ghost use Rattle.dds_conditions.specs.declared.condition.Cond.{Cond};

    ghost Value = { List Cond };

    ghost view = { λ s. s.conditions.items };
}

impl WaitSet {
    /// One with no conditions. Takes no memory.
    pub fn open(alloc: Global) -> WaitSet
        ensures empty { result ≡ [] }
    {
        WaitSet {
            conditions: Vec::new(alloc),
        }
    }

    /// The attached conditions, in the order in which they were attached.
    ///
    /// DDS 1.4, 2.2.2.1 (get_conditions).
    pub fn conditions(&self) -> &[Cond]
        ensures conditions { result.now ≡ self.now }
    {
        self.conditions.as_slice()
    }

    /// Attaches a condition, as the last one. One that is attached already stays where it is.
    ///
    /// DDS 1.4, 2.2.2.1 (attach_condition).
    ///
    /// # Errors
    ///
    /// `Memory` where a growth was refused, which only one that was not attached needs.
    pub fn attach(&mut self, condition: Cond) -> Result<(), Code>
        // It is attached, and the others as before.
        ensures ok { OnOk result (self.new ≡ attached condition self.old) }
        // A refusal changes nothing.
        ensures err { OnErr result (self.new ≡ self.old) }
        // Attached again, it is never refused.
        ensures again { is_attached condition self.old ≡ true → IsOk result }
        // The only refusal is for want of memory.
        ensures memory { IfErr result (λ code. code ≡ Memory) }
    {
        let is_new = !self.conditions.contains(&condition);
        if is_new {
            self.conditions.push(condition)?;
        }
        Ok(())
    }

    /// Detaches a condition.
    ///
    /// DDS 1.4, 2.2.2.1 (detach_condition).
    ///
    /// # Errors
    ///
    /// `PreconditionNotMet` where it is not attached. It takes no memory.
    pub fn detach(&mut self, condition: Cond) -> Result<(), Code>
        // It is no longer attached, and the others are as before.
        ensures ok { OnOk result (self.new ≡ detached condition self.old) }
        // A refusal changes nothing.
        ensures err { OnErr result (self.new ≡ self.old) }
        // It was attached.
        ensures taken { OnOk result (detach_refusal condition self.old ≡ None) }
        // A refusal is for its cause.
        ensures refused { IfErr result (λ code. detach_refusal condition self.old ≡ Some code) }
    {
        if !self.conditions.contains(&condition) {
            return Err(Code::PreconditionNotMet);
        }
        self.forget(condition);
        Ok(())
    }

    /// Detaches a condition, if it is attached.
    pub(crate) fn forget(&mut self, condition: Cond)
        ensures { self.new ≡ detached condition self.old }
    {
        self.conditions.retain(|other| *other != condition);
    }

    /// Whether some attached condition has a trigger value that is true. `is_true` tells the trigger value of each.
    ///
    /// DDS 1.4, 2.2.2.1 (wait; get_trigger_value).
    pub fn is_active<T: FnMut(&Cond) -> bool>(&self, is_true: T) -> bool
        // The test can be called at any time.
        requires callable { T.IsAlwaysCallable is_true }
        // If the test tells these trigger values, and stays the same, one is true by these.
        ensures active { (trigger : Cond → Bool)
            → ((c : Cond) (answer : Bool) (after : T) → CalledAt T.FnMut is_true c answer after
            → (answer ≡ trigger c) × (after ≡ is_true))
            → result ≡ list_any trigger self.now }
    {
        self.conditions.iter().any(is_true)
    }

    /// The attached conditions whose trigger value is true, in the order in which they were attached. `is_true` tells
    /// the trigger value of each, and is asked once of each.
    ///
    /// DDS 1.4, 2.2.2.1 (wait: active_conditions; get_trigger_value).
    ///
    /// # Errors
    ///
    /// `Memory` where a growth was refused, which only one needs that has a condition that is true.
    pub fn active<T: FnMut(&Cond) -> bool>(&self, mut is_true: T) -> Result<Sequence<Cond>, Code>
        // The test can be called at any time.
        requires callable { T.IsAlwaysCallable is_true }
        // If the test tells these trigger values, and stays the same, they are those that are true by these.
        ensures ok { (trigger : Cond → Bool)
            → ((c : Cond) (answer : Bool) (after : T) → CalledAt T.FnMut is_true c answer after
            → (answer ≡ trigger c) × (after ≡ is_true))
            → IfOk result (λ active. active ≡ active_of trigger self.now) }
        // Where none is attached, it is never refused.
        ensures none { self.now ≡ [] → IsOk result }
        // If the test tells these trigger values, and stays the same, it is refused only where one is true by these.
        ensures some { (trigger : Cond → Bool)
            → ((c : Cond) (answer : Bool) (after : T) → CalledAt T.FnMut is_true c answer after
            → (answer ≡ trigger c) × (after ≡ is_true))
            → IfErr result (λ code. list_any trigger self.now ≡ true) }
        // The only refusal is for want of memory.
        ensures memory { IfErr result (λ code. code ≡ Memory) }
    {
        let mut active = Vec::new(*self.conditions.allocator());
        for condition in &self.conditions {
            if is_true(condition) {
                active.push(*condition)?;
            }
        }
        Ok(Sequence::from_vec(active))
    }
}
