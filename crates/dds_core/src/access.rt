//! The calls of a peer's readers.
//!
//! DDS 1.4, 2.2.2.5 (DataReader).

ghost use Rattle.std.specs.Prelude.{◌≡◌};
ghost use Rattle.dds_machine.specs.declared.call.Call.TheVariants as call;
ghost use Rattle.dds_protocol.specs.declared.event.Event.TheVariants as event;
ghost use Rattle.dds_core.specs.Accesses.{access_call};
ghost use Rattle.dds_core.specs.Stepping.{Steps};
ghost use Rattle.dds_core.specs.Sending.{SendsNothing};
ghost use Rattle.dds_ends.specs.Twins.{IsPlain, Twins};

use crate::peer::Peer;
use dds_base::{Code, Handle, Key, Selection, index_of};
use dds_cache::{AccessKind, Everything};
use dds_ends::{Twin, answered, reply_to_access};
use dds_machine::Reply;
use dds_protocol::Output;

impl Peer {
    #[inline(always)]
    pub(crate) fn access(
        &mut self,
        kind: AccessKind,
        reader: u8,
        selection: Selection,
        twin: &mut Twin,
    ) -> Output
        ensures step { Steps self.old (event.Call (access_call kind reader selection))
            result self.new }
        ensures sends { SendsNothing result }
        ensures twin { Twins twin.old result.reply twin.new }
    {
        let Some(index) = index_of(reader, self.readers.len()) else {
            return self.refused(Code::BadParameter);
        };
        self.spare.reader = index;
        let samples = self.readers[index].access(kind, selection, &Everything, twin);
        answered(self.alloc, reply_to_access(samples))
    }

    pub(crate) fn get_key_value(&self, reader: u8, instance: Handle) -> Output
        ensures step { Steps self.now
            (event.Call (call.GetKeyValue reader instance)) result self.now }
        ensures sends { SendsNothing result }
        ensures plain { IsPlain result.reply }
    {
        let Some(index) = index_of(reader, self.readers.len()) else {
            return self.refused(Code::BadParameter);
        };
        match self.readers[index].key_value(instance) {
            Some(key) => answered(self.alloc, Reply::KeyValue(key)),
            None => self.refused(Code::BadParameter),
        }
    }

    pub(crate) fn lookup_instance(&self, reader: u8, key: Key) -> Output
        ensures step { Steps self.now
            (event.Call (call.LookupInstance reader key)) result self.now }
        ensures sends { SendsNothing result }
        ensures plain { IsPlain result.reply }
    {
        let Some(index) = index_of(reader, self.readers.len()) else {
            return self.refused(Code::BadParameter);
        };
        let handle = self.readers[index].lookup(key);
        answered(self.alloc, Reply::InstanceHandle(handle))
    }

    pub(crate) fn get_sample_lost(&mut self, reader: u8) -> Output
        ensures step { Steps self.old (event.Call (call.GetSampleLost reader)) result self.new }
        ensures sends { SendsNothing result }
        ensures plain { IsPlain result.reply }
    {
        let Some(index) = index_of(reader, self.readers.len()) else {
            return self.refused(Code::BadParameter);
        };
        let status = self.readers[index].get_sample_lost();
        answered(self.alloc, Reply::SampleLost(status))
    }

    pub(crate) fn get_liveliness_changed(&mut self, reader: u8) -> Output
        ensures step { Steps self.old
            (event.Call (call.GetLivelinessChanged reader)) result self.new }
        ensures sends { SendsNothing result }
        ensures plain { IsPlain result.reply }
    {
        let Some(index) = index_of(reader, self.readers.len()) else {
            return self.refused(Code::BadParameter);
        };
        let status = self.readers[index].get_liveliness_changed();
        answered(self.alloc, Reply::LivelinessChanged(status))
    }
}
