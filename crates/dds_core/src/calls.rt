//! The calls of a peer, and those of its writers.
//!
//! DDS 1.4, 2.2.2.4 (DataWriter).

ghost use Rattle.std.specs.Prelude.{◌≡◌, ◌+◌, ◌^◌, ◌<◌, ◌≤◌, Some, length, slice_get, []};
ghost use Rattle.dds_machine.specs.Matching.{max_known};
ghost use Rattle.dds_machine.specs.declared.reply.Reply.TheVariants.{Done, Refused};
ghost use Rattle.dds_machine.specs.declared.call.Call.TheVariants as call;
ghost use Rattle.dds_protocol.specs.declared.event.Event.TheVariants as event;
ghost use Rattle.dds_ends.specs.Kept.{WriterKept};
ghost use Rattle.dds_core.specs.Remembering.{AreMisses};
ghost use Rattle.dds_ends.specs.Standing.{IsShort};
ghost use Rattle.dds_core.specs.Stepping.{Sends, Steps, StepsMeeting};
ghost use Rattle.dds_core.specs.Making.{Makes, IsValueOf};
ghost use Rattle.dds_ends.specs.Sending.{AreMessages};
ghost use Rattle.dds_core.specs.Sending.{SendsNothing};
ghost use Rattle.dds_ends.specs.Twins.{IsPlain, Twins};

use crate::misses::Misses;
use crate::peer::Peer;
use dds_base::{Change, ChangeKind, Code, Key, Octets, Sequence, index_of};
use dds_cache::AccessKind;
use dds_conditions::Filters;
use dds_ends::{Announced, Twin, answered};
use dds_machine::{Call, Reply};
use dds_protocol::Output;

impl Peer {
    #[inline(always)]
    pub(crate) fn call<T: Filters>(
        &mut self,
        filters: &T,
        call: Call,
        twin: &mut Twin,
        misses: &mut Misses,
    ) -> Output
        requires right { AreMisses (T.meaning filters.now) self.old misses.old }
        ensures step { StepsMeeting
            (T.meaning filters.now) self.old (event.Call call) result self.new }
        ensures sends { Sends self.old (event.Call call) result }
        ensures messages { AreMessages result.packets }
        ensures few { result.unsent ≤ max_known }
        ensures twin { Twins twin.old result.reply twin.new }
        ensures right { AreMisses (T.meaning filters.now) self.old misses.new }
    {
        match call {
            Call::Register { writer, key } => self.register(writer, key),
            Call::Write { writer, key, value } => self.write(writer, key, value),
            Call::Dispose { writer, key } => self.dispose(writer, key),
            Call::Unregister { writer, key } => self.unregister(writer, key),
            Call::AssertLiveliness { writer } => self.assert_liveliness(writer),
            Call::SetStrength { writer, strength } => self.set_strength(writer, strength),
            Call::Read { reader, selection } => {
                self.access(AccessKind::Read, reader, selection, twin)
            }
            Call::Take { reader, selection } => {
                self.access(AccessKind::Take, reader, selection, twin)
            }
            Call::GetKeyValue { reader, instance } => self.get_key_value(reader, instance),
            Call::LookupInstance { reader, key } => self.lookup_instance(reader, key),
            Call::GetSampleLost { reader } => self.get_sample_lost(reader),
            Call::GetLivelinessChanged { reader } => self.get_liveliness_changed(reader),
            Call::GetLivelinessLost { writer } => self.get_liveliness_lost(writer),
            Call::ReadByCondition {
                reader,
                scope,
                condition,
            } => {
                self.access_by_condition(filters, AccessKind::Read, reader, scope, condition, twin)
            }
            Call::TakeByCondition {
                reader,
                scope,
                condition,
            } => {
                self.access_by_condition(filters, AccessKind::Take, reader, scope, condition, twin)
            }
            Call::CreateReadCondition { reader, masks } => {
                self.create_read_condition(reader, masks)
            }
            Call::CreateQueryCondition {
                reader,
                masks,
                filter,
            } => self.create_query_condition(reader, masks, filter),
            Call::CreateGuardCondition => self.create_guard_condition(),
            Call::SetTriggerValue { condition, value } => self.set_trigger_value(condition, value),
            Call::DeleteCondition { condition } => self.delete_condition(condition),
            Call::GetTriggerValue { condition } => self.get_trigger_value(
                filters, condition, misses,
            ),
            Call::CreateWaitSet => self.create_wait_set(),
            Call::DeleteWaitSet { wait_set } => self.delete_wait_set(wait_set),
            Call::AttachCondition {
                wait_set,
                condition,
            } => self.attach_condition(wait_set, condition),
            Call::DetachCondition {
                wait_set,
                condition,
            } => self.detach_condition(wait_set, condition),
            Call::GetConditions { wait_set } => self.get_conditions(wait_set, twin),
            Call::WaitBegin { wait_set, deadline } => self.wait_begin(wait_set, deadline),
            Call::WaitLook { wait_set } => self.wait_look(filters, wait_set, twin, misses),
            Call::WaitEnd { wait_set } => self.wait_end(wait_set),
            Call::SetEnabledStatuses { entity, mask } => self.set_enabled_statuses(entity, mask),
            Call::GetStatusChanges { entity } => self.get_status_changes(entity),
            Call::MatchReader {
                writer,
                reader,
                greeted,
            } => self.match_reader(writer, reader, greeted),
            Call::UnmatchReader { writer, reader } => self.unmatch_reader(writer, reader),
            Call::MatchWriter { reader, writer } => self.match_writer(reader, writer),
            Call::UnmatchWriter { reader, writer } => self.unmatch_writer(reader, writer),
            Call::GetPublicationMatched { writer } => self.get_publication_matched(writer),
            Call::GetSubscriptionMatched { reader } => self.get_subscription_matched(reader),
            Call::MeetReader {
                writer,
                far,
                greeted,
            } => self.meet_reader(writer, far, greeted),
            Call::MeetWriter { reader, far } => self.meet_writer(reader, far),
        }
    }

    pub(crate) fn refused(&self, code: Code) -> Output
        ensures { result ≡ record { reply = Refused code; packets = []; unsent = 0 } }
    {
        answered(self.alloc, Reply::Refused(code))
    }

    fn register(&mut self, writer: u8, key: Key) -> Output
        ensures step { Steps self.old (event.Call (call.Register writer key)) result self.new }
        ensures sends { SendsNothing result }
        ensures plain { IsPlain result.reply }
    {
        let Some(index) = index_of(writer, self.writers.len()) else {
            return self.refused(Code::BadParameter);
        };
        match self.writers[index].register(key) {
            Ok(()) => answered(self.alloc, Reply::Done),
            Err(code) => self.refused(code),
        }
    }

    fn assert_liveliness(&mut self, writer: u8) -> Output
        ensures step { Steps self.old (event.Call (call.AssertLiveliness writer)) result self.new }
        ensures sends { Sends self.old (event.Call (call.AssertLiveliness writer)) result }
        ensures messages { AreMessages result.packets }
        ensures few { result.unsent ≤ max_known }
        ensures plain { IsPlain result.reply }
    {
        let Some(index) = index_of(writer, self.writers.len()) else {
            return self.refused(Code::BadParameter);
        };
        let (alloc, prefix, now) = (self.alloc, self.prefix, self.moment);
        match self.writers[index].assert(alloc, prefix, now) {
            Ok(Announced { packets, unsent }) => Output {
                reply: Reply::Done,
                packets: Sequence::from_vec(packets),
                unsent,
            },
            Err(code) => self.refused(code),
        }
    }

    fn set_strength(&mut self, writer: u8, strength: i32) -> Output
        ensures step { Steps self.old (event.Call (call.SetStrength writer strength)) result
            self.new }
        ensures sends { SendsNothing result }
        ensures plain { IsPlain result.reply }
    {
        let Some(index) = index_of(writer, self.writers.len()) else {
            return self.refused(Code::BadParameter);
        };
        match self.writers[index].set_strength(strength) {
            Ok(()) => answered(self.alloc, Reply::Done),
            Err(code) => self.refused(code),
        }
    }

    fn get_liveliness_lost(&mut self, writer: u8) -> Output
        ensures step { Steps self.old (event.Call (call.GetLivelinessLost writer)) result self.new }
        ensures sends { SendsNothing result }
        ensures plain { IsPlain result.reply }
    {
        let Some(index) = index_of(writer, self.writers.len()) else {
            return self.refused(Code::BadParameter);
        };
        let status = self.writers[index].get_liveliness_lost();
        answered(self.alloc, Reply::LivelinessLost(status))
    }

    #[inline(always)]
    fn write(&mut self, writer: u8, key: Key, value: Octets) -> Output
        ensures step { Steps self.old (event.Call (call.Write writer key value)) result self.new }
        ensures sends { Sends self.old (event.Call (call.Write writer key value)) result }
        ensures messages { AreMessages result.packets }
        ensures few { result.unsent ≤ max_known }
        ensures plain { IsPlain result.reply }
    {
        let Some(index) = index_of(writer, self.writers.len()) else {
            return self.refused(Code::BadParameter);
        };
        if self.writers[index].is_too_long(&value) {
            return self.refused(Code::BadParameter);
        }
        self.make(index, ChangeKind::Write, key, value)
    }

    fn dispose(&mut self, writer: u8, key: Key) -> Output
        ensures step { Steps self.old (event.Call (call.Dispose writer key)) result self.new }
        ensures sends { Sends self.old (event.Call (call.Dispose writer key)) result }
        ensures messages { AreMessages result.packets }
        ensures few { result.unsent ≤ max_known }
        ensures plain { IsPlain result.reply }
    {
        let Some(index) = index_of(writer, self.writers.len()) else {
            return self.refused(Code::BadParameter);
        };
        let none = Octets::from_vec(Vec::new(self.alloc));
        self.make(index, ChangeKind::Dispose, key, none)
    }

    fn unregister(&mut self, writer: u8, key: Key) -> Output
        ensures step { Steps self.old (event.Call (call.Unregister writer key)) result self.new }
        ensures sends { Sends self.old (event.Call (call.Unregister writer key)) result }
        ensures messages { AreMessages result.packets }
        ensures few { result.unsent ≤ max_known }
        ensures plain { IsPlain result.reply }
    {
        let Some(index) = index_of(writer, self.writers.len()) else {
            return self.refused(Code::BadParameter);
        };
        if !self.writers[index].is_registered(key) {
            return self.refused(Code::PreconditionNotMet);
        }
        let kind = self.writers[index].unregister_kind();
        let none = Octets::from_vec(Vec::new(self.alloc));
        self.make(index, kind, key, none)
    }

    /// Makes a change of the writer of this index at the peer's moment, and announces it; or answers why not. The packets
    /// are there before the history takes the change; where that finds no memory, none of them goes out.
    fn make(&mut self, index: usize, kind: ChangeKind, key: Key, value: Octets) -> Output
        requires within { index < length self.old.writers }
        requires short { (k : WriterKept) → slice_get self.old.writers index ≡ Some k
            → IsShort k.max_value value }
        requires empty { IsValueOf kind value }
        ensures makes { Makes self.old index kind key value result self.new }
        ensures messages { AreMessages result.packets }
        ensures few { result.unsent ≤ max_known }
        ensures plain { IsPlain result.reply }
    {
        let writer = &self.writers[index];
        let change = Change {
            kind,
            key,
            value,
            source_timestamp: self.moment,
            strength: writer.strength(),
        };
        // This shows the prover how many octets there are.
        let _key = key.as_slice();
        let number = match writer.next(&change) {
            Ok(number) => number,
            Err(code) => return self.refused(code),
        };
        let list = self.spare.packets.take(self.alloc);
        let announced = writer.announce(
            self.alloc,
            list,
            self.prefix,
            self.moment,
            number,
            &change,
        );
        let Announced { packets, unsent } = announced;
        if let Err(code) = self.writers[index].append(change) {
            return self.refused(code);
        }
        Output {
            reply: Reply::Done,
            packets: Sequence::from_vec(packets),
            unsent,
        }
    }
}
