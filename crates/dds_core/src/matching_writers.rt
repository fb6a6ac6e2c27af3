//! The calls that tell a peer's reader which writers it is matched with, and that ask for it.
//!
//! RTPS 2.5, 8.4.10.3 (StatefulReader, matched_writer_add, matched_writer_remove); DDS 1.4, 2.2.2.5
//! (get_subscription_matched_status).

ghost use Rattle.std.specs.Prelude.{◌≡◌};
ghost use Rattle.dds_machine.specs.declared.call.Call.TheVariants as call;
ghost use Rattle.dds_protocol.specs.declared.event.Event.TheVariants as event;
ghost use Rattle.dds_conditions.specs.NoFilters.{no_filters};
ghost use Rattle.dds_core.specs.Stepping.{Steps, StepsMeeting};
ghost use Rattle.dds_core.specs.Sending.{SendsNothing};
ghost use Rattle.dds_ends.specs.Twins.{IsPlain};

use crate::far_ends::{as_matched, is_bad_lease};
use crate::peer::Peer;
use dds_base::{Code, Endpoint, Handle, index_of};
use dds_ends::{WriterName, answered, writer_row_among};
use dds_machine::{FarWriter, Reply};
use dds_names::NamedEnd;
use dds_protocol::Output;

impl Peer {
    pub(crate) fn match_writer(&mut self, reader: u8, writer: Endpoint) -> Output
        ensures step { Steps self.old
            (event.Call (call.MatchWriter reader writer)) result self.new }
        ensures sends { SendsNothing result }
        ensures plain { IsPlain result.reply }
    {
        let Some(index) = index_of(reader, self.readers.len()) else {
            return self.refused(Code::BadParameter);
        };
        let Some(row) = writer_row_among(self.readers[index].writers(), writer) else {
            return self.refused(Code::BadParameter);
        };
        if self.readers[index].is_attached(row) {
            return self.refused(Code::PreconditionNotMet);
        }
        self.readers[index].attach(row);
        answered(
            self.alloc,
            Reply::InstanceHandle(Handle::new(row as u64 + 1)),
        )
    }

    /// The reader's cause is asked for first, since want of memory comes last. Where the reader then finds none, the name
    /// goes too.
    pub(crate) fn meet_writer(&mut self, reader: u8, far: FarWriter) -> Output
        ensures step { StepsMeeting no_filters self.old
            (event.Call (call.MeetWriter reader far)) result self.new }
        ensures sends { SendsNothing result }
        ensures plain { IsPlain result.reply }
    {
        let Some(index) = index_of(reader, self.readers.len()) else {
            return self.refused(Code::BadParameter);
        };
        let as_writer = as_matched(&far);
        let name = NamedEnd {
            end: far.endpoint,
            guid: far.guid,
            is_reliable: true,
        };
        if !self.names.may_call_writer(&name) {
            return self.refused(Code::BadParameter);
        }
        if is_bad_lease(as_writer.lease) {
            return self.refused(Code::BadParameter);
        }
        if let Some(code) = self.readers[index].meeting_cause(far.endpoint) {
            return self.refused(code);
        }
        let is_new = match self.names.add_writer(name) {
            Ok(is_new) => is_new,
            Err(code) => return self.refused(code),
        };
        let name = WriterName {
            writer: far.endpoint,
            guid: far.guid,
        };
        match self.readers[index].meet(name, as_writer) {
            Ok(row) => {
                let handle = Handle::new(row as u64 + 1);
                answered(self.alloc, Reply::InstanceHandle(handle))
            }
            Err(code) => {
                self.names.take_back_writer(is_new);
                self.refused(code)
            }
        }
    }

    pub(crate) fn unmatch_writer(&mut self, reader: u8, writer: Endpoint) -> Output
        ensures step { Steps self.old
            (event.Call (call.UnmatchWriter reader writer)) result self.new }
        ensures sends { SendsNothing result }
        ensures plain { IsPlain result.reply }
    {
        let Some(index) = index_of(reader, self.readers.len()) else {
            return self.refused(Code::BadParameter);
        };
        let Some(row) = writer_row_among(self.readers[index].writers(), writer) else {
            return self.refused(Code::BadParameter);
        };
        if !self.readers[index].is_attached(row) {
            return self.refused(Code::PreconditionNotMet);
        }
        match self.readers[index].detach(row, self.moment) {
            Ok(()) => answered(self.alloc, Reply::Done),
            Err(code) => self.refused(code),
        }
    }

    pub(crate) fn get_subscription_matched(&mut self, reader: u8) -> Output
        ensures step { Steps self.old
            (event.Call (call.GetSubscriptionMatched reader)) result self.new }
        ensures sends { SendsNothing result }
        ensures plain { IsPlain result.reply }
    {
        let Some(index) = index_of(reader, self.readers.len()) else {
            return self.refused(Code::BadParameter);
        };
        let status = self.readers[index].get_subscription_matched();
        answered(self.alloc, Reply::Matched(status))
    }
}
