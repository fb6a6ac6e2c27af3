//! A peer's writer is told of readers that come and go, and says how many it is matched with.
//!
//! RTPS 2.5, 8.4.7.4 (StatefulWriter, matched_reader_add, matched_reader_remove); DDS 1.4, 2.2.2.4
//! (get_publication_matched_status).

ghost use Rattle.dds_machine.specs.declared.call.Call.TheVariants as call;
ghost use Rattle.dds_protocol.specs.declared.event.Event.TheVariants as event;
ghost use Rattle.dds_conditions.specs.NoFilters.{no_filters};
ghost use Rattle.dds_core.specs.Stepping.{Steps, StepsMeeting};
ghost use Rattle.dds_core.specs.Sending.{SendsNothing};
ghost use Rattle.dds_ends.specs.Twins.{IsPlain};

use crate::peer::Peer;
use dds_base::{Code, Endpoint, index_of};
use dds_ends::{ReaderName, answered};
use dds_machine::{FarReader, Reply};
use dds_names::NamedEnd;
use dds_protocol::Output;

impl Peer {
    pub(crate) fn match_reader(&mut self, writer: u8, reader: Endpoint, greeted: bool) -> Output
        ensures step { Steps self.old (event.Call (call.MatchReader writer reader greeted)) result
            self.new }
        ensures sends { SendsNothing result }
        ensures plain { IsPlain result.reply }
    {
        let Some(index) = index_of(writer, self.writers.len()) else {
            return self.refused(Code::BadParameter);
        };
        match self.writers[index].join(reader, greeted) {
            Ok(()) => answered(self.alloc, Reply::Done),
            Err(code) => self.refused(code),
        }
    }

    /// The writer's cause is asked for first, since want of memory comes last. Where the writer then finds none, the name
    /// goes too.
    pub(crate) fn meet_reader(&mut self, writer: u8, far: FarReader, greeted: bool) -> Output
        ensures step { StepsMeeting no_filters self.old
            (event.Call (call.MeetReader writer far greeted)) result self.new }
        ensures sends { SendsNothing result }
        ensures plain { IsPlain result.reply }
    {
        let Some(index) = index_of(writer, self.writers.len()) else {
            return self.refused(Code::BadParameter);
        };
        let is_reliable = far.requested.reliability.is_reliable();
        let name = NamedEnd {
            end: far.endpoint,
            guid: far.guid,
            is_reliable,
        };
        if !self.names.may_call_reader(&name) {
            return self.refused(Code::BadParameter);
        }
        if let Some(code) = self.writers[index].meeting_cause(far.endpoint) {
            return self.refused(code);
        }
        let is_new = match self.names.add_reader(name) {
            Ok(is_new) => is_new,
            Err(code) => return self.refused(code),
        };
        let name = ReaderName {
            reader: far.endpoint,
            guid: far.guid,
        };
        match self.writers[index].meet(name, is_reliable, greeted) {
            Ok(()) => answered(self.alloc, Reply::Done),
            Err(code) => {
                self.names.take_back_reader(is_new);
                self.refused(code)
            }
        }
    }

    pub(crate) fn unmatch_reader(&mut self, writer: u8, reader: Endpoint) -> Output
        ensures step { Steps self.old (event.Call (call.UnmatchReader writer reader)) result
            self.new }
        ensures sends { SendsNothing result }
        ensures plain { IsPlain result.reply }
    {
        let Some(index) = index_of(writer, self.writers.len()) else {
            return self.refused(Code::BadParameter);
        };
        match self.writers[index].leave(reader) {
            Ok(()) => answered(self.alloc, Reply::Done),
            Err(code) => self.refused(code),
        }
    }

    pub(crate) fn get_publication_matched(&mut self, writer: u8) -> Output
        ensures step { Steps self.old (event.Call (call.GetPublicationMatched writer)) result
            self.new }
        ensures sends { SendsNothing result }
        ensures plain { IsPlain result.reply }
    {
        let Some(index) = index_of(writer, self.writers.len()) else {
            return self.refused(Code::BadParameter);
        };
        let status = self.writers[index].get_publication_matched();
        answered(self.alloc, Reply::Matched(status))
    }
}
