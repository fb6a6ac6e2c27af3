//! A writer that a reader knows: how the reader stands to it, and so what its submessages do.
//!
//! RTPS 2.5, 8.4.10 (StatefulReader: matched_writers), 8.4.12.

ghost use Rattle.std.specs.Prelude.{◌≡◌, ℕ, ◌≤◌, List, [], length, true, false, OnOk, IsOk, IfOk, IfErr};
ghost use Rattle.dds_base.specs.Bounds.{max_sn};
ghost use Rattle.dds_base.specs.declared.code.Code.TheVariants.{Memory};
ghost use Rattle.dds_base.specs.declared.happening.Happening.{Happening};
ghost use Rattle.rtps_reader.specs.Entering.{IsAmong};
ghost use Rattle.dds_base.specs.Counts.{is_later};
ghost use Rattle.rtps_reader.specs.Tracked.{fresh, with_data, with_gap, SameTracked};
ghost use Rattle.rtps_reader.specs.Answer.{IsIdle};
ghost use Rattle.rtps_reader.specs.Moving.{match_of};
ghost use Rattle.rtps_reader.specs.Attached.{goes_on, no_news, MeetsNews, MeetsChange, MeetsHeartbeat, MeetsBeat};
ghost use Rattle.rtps_reader.specs.HeldChanges.{count_held};
ghost use Rattle.rtps_reader.specs.Proxy.{tracked, IsWriterReady};
ghost use Rattle.rtps_reader.specs.declared.attachment.Attachment.TheVariants.{Away};
ghost use Rattle.rtps_reader.specs.Reader.{how_after};
ghost use Rattle.rtps_reader.specs.Sound.{IsSound, KeepsHow, ProxyKeepsRest};

use crate::attachment::Attachment;
use crate::sink::Sink;
use crate::step::{HeartbeatSeen, Step};
use crate::writer_proxy::{Source, WriterProxy};
use dds_base::{Change, Code, Sn};
use rtps_sets::SnSet;
use std::alloc::Global;

/// A writer that a reader knows.
///
/// RTPS 2.5, 8.4.10 (StatefulReader: matched_writers).
#[derive(Drop)]
pub struct KnownWriter {
    pub how: Attachment,
    pub proxy: WriterProxy,
}

impl KnownWriter {
    /// A writer of which nothing was heard, to which the reader stands so.
    pub fn open(alloc: Global, how: Attachment) -> KnownWriter
        ensures sound { IsSound result.proxy }
        ensures tracked { SameTracked fresh (tracked result.proxy) }
        ensures how { result.how ≡ how }
    {
        KnownWriter {
            how,
            proxy: WriterProxy::open(alloc),
        }
    }

    /// The reader is matched with the writer no longer. Where no change waits, no memory is kept for one.
    pub fn leave(&mut self)
        ensures how { self.new.how ≡ Away }
        ensures same { SameTracked (tracked self.old.proxy) (tracked self.new.proxy) }
        ensures sound { IsSound self.old.proxy → IsSound self.new.proxy }
        ensures gone { count_held self.old.proxy.held ≡ 0 → self.new.proxy.held ≡ [] }
    {
        self.how = Attachment::Away;
        self.proxy.release();
    }

    /// Makes all memory that the next submessage may take, here and at the sink: none, where it does nothing. It changes
    /// that alone.
    #[inline(always)]
    pub fn reserve<S: Sink>(&mut self, sink: &mut S) -> Result<(), Code>
        ensures same { SameTracked (tracked self.old.proxy) (tracked self.new.proxy) }
        ensures how { self.new.how ≡ self.old.how }
        ensures sound { IsSound self.old.proxy → IsSound self.new.proxy }
        ensures stands { (h : List Happening) → S.stands sink.old h → S.stands sink.new h }
        ensures qos { S.qos sink.new ≡ S.qos sink.old }
        ensures writers { S.writers sink.new ≡ S.writers sink.old }
        ensures ok { OnOk result (IsWriterReady self.new (S.spare sink.new)) }
        ensures spare { S.spare sink.old ≤ S.spare sink.new }
        ensures succeeds { IsWriterReady self.old (S.spare sink.old) → IsOk result }
        ensures memory { IfErr result (λ code. code ≡ Memory) }
    {
        match self.how {
            Attachment::Begun | Attachment::Waiting => self.proxy.reserve(sink),
            Attachment::Away => Ok(()),
        }
    }

    /// A change was received, at a reliable reader: where its place has not begun nothing is done.
    pub fn on_data<S: Sink>(
        &mut self,
        sink: &mut S,
        source: &Source,
        number: Sn,
        change: Change,
    ) -> Result<Step, Code>
        requires sound { IsSound self.old.proxy }
        requires matched { IsAmong (S.writers sink.old) source.now.publication }
        requires small { number ≤ max_sn }
        ensures meets { IfOk result (λ step. (h : List Happening) → S.stands sink.old h
            → MeetsNews self.old.how (match_of (S.qos sink.old) source.now)
            (with_data number change) (tracked self.old.proxy) h step
            (SameTracked (tracked self.new.proxy)) (S.stands sink.new)) }
        ensures few { IfOk result (λ step. length step.passed ≤ 257) }
        ensures how { KeepsHow self.old.how self.new.how result }
        ensures keeps { ProxyKeepsRest S.stands S.qos S.writers S.spare
            self.old.proxy self.new.proxy sink.old sink.new result }
        ensures succeeds { IsWriterReady self.old (S.spare sink.old) → IsOk result }
    {
        match self.how {
            Attachment::Begun => self.proxy.on_data(sink, source, number, change),
            Attachment::Waiting => Ok(self.proxy.idle()),
            Attachment::Away => Ok(self.proxy.idle()),
        }
    }

    /// A change was received, at a best-effort reader, whose place begins at it, if it waits.
    pub fn on_best_effort_data<S: Sink>(
        &mut self,
        sink: &mut S,
        source: &Source,
        number: Sn,
        change: Change,
    ) -> Result<Step, Code>
        requires sound { IsSound self.old.proxy }
        requires matched { IsAmong (S.writers sink.old) source.now.publication }
        requires small { number ≤ max_sn }
        ensures meets { IfOk result (λ step. (h : List Happening) → S.stands sink.old h
            → MeetsChange self.old.how (match_of (S.qos sink.old) source.now)
            (tracked self.old.proxy) h number change step
            (SameTracked (tracked self.new.proxy)) (S.stands sink.new)) }
        ensures few { IfOk result (λ step. length step.passed ≤ 1) }
        ensures how { KeepsHow self.old.how self.new.how result }
        ensures keeps { ProxyKeepsRest S.stands S.qos S.writers S.spare
            self.old.proxy self.new.proxy sink.old sink.new result }
        ensures succeeds { IsWriterReady self.old (S.spare sink.old) → IsOk result }
    {
        match self.how {
            Attachment::Begun => self.proxy.on_best_effort_data(sink, source, number, change),
            Attachment::Waiting => {
                let step = self.proxy.begin_at_change(sink, source, number, change)?;
                self.note(&step);
                Ok(step)
            }
            Attachment::Away => Ok(self.proxy.idle()),
        }
    }

    /// Notes that the place has begun, if it did.
    fn note(&mut self, step: &Step)
        ensures how { self.new.how ≡ how_after self.old.how step.now }
        ensures proxy { self.new.proxy ≡ self.old.proxy }
    {
        if step.begun.is_some() {
            self.how = Attachment::Begun;
        }
    }

    /// A GAP was received, at a reliable reader: where its place has not begun nothing is done.
    pub fn on_gap<S: Sink>(
        &mut self,
        sink: &mut S,
        source: &Source,
        start: Sn,
        list: &SnSet,
    ) -> Result<Step, Code>
        requires sound { IsSound self.old.proxy }
        requires matched { IsAmong (S.writers sink.old) source.now.publication }
        requires small { list.now.base ≤ max_sn }
        ensures meets { IfOk result (λ step. (h : List Happening) → S.stands sink.old h
            → MeetsNews self.old.how (match_of (S.qos sink.old) source.now)
            (with_gap start list.now) (tracked self.old.proxy) h step
            (SameTracked (tracked self.new.proxy)) (S.stands sink.new)) }
        ensures few { IfOk result (λ step. length step.passed ≤ 257) }
        ensures how { KeepsHow self.old.how self.new.how result }
        ensures keeps { ProxyKeepsRest S.stands S.qos S.writers S.spare
            self.old.proxy self.new.proxy sink.old sink.new result }
        ensures succeeds { IsWriterReady self.old (S.spare sink.old) → IsOk result }
    {
        match self.how {
            Attachment::Begun => self.proxy.on_gap(sink, source, start, list),
            Attachment::Waiting => Ok(self.proxy.idle()),
            Attachment::Away => Ok(self.proxy.idle()),
        }
    }

    /// The place is tried again: where it has not begun nothing is done.
    pub fn resume<S: Sink>(&mut self, sink: &mut S, source: &Source) -> Result<Step, Code>
        requires sound { IsSound self.old.proxy }
        requires matched { IsAmong (S.writers sink.old) source.now.publication }
        ensures meets { IfOk result (λ step. (h : List Happening) → S.stands sink.old h
            → MeetsNews self.old.how (match_of (S.qos sink.old) source.now)
            no_news (tracked self.old.proxy) h step
            (SameTracked (tracked self.new.proxy)) (S.stands sink.new)) }
        ensures few { IfOk result (λ step. length step.passed ≤ 257) }
        ensures how { KeepsHow self.old.how self.new.how result }
        ensures keeps { ProxyKeepsRest S.stands S.qos S.writers S.spare
            self.old.proxy self.new.proxy sink.old sink.new result }
        ensures succeeds { IsWriterReady self.old (S.spare sink.old) → IsOk result }
    {
        match self.how {
            Attachment::Begun => self.proxy.resume(sink, source),
            Attachment::Waiting => Ok(self.proxy.idle()),
            Attachment::Away => Ok(self.proxy.idle()),
        }
    }

    /// Whether the place may go on by what is known already: it has begun, and does not wait for what is not known.
    pub fn may_go_on(&self) -> bool
        requires sound { IsSound self.now.proxy }
        ensures { result ≡ goes_on self.now.how (tracked self.now.proxy) }
    {
        match self.how {
            Attachment::Begun => self.proxy.may_go_on(),
            Attachment::Waiting => false,
            Attachment::Away => false,
        }
    }

    /// A HEARTBEAT was received, at a reliable reader, whose place begins at firstSN, if it waits.
    pub fn on_heartbeat<S: Sink>(
        &mut self,
        sink: &mut S,
        source: &Source,
        heartbeat: &HeartbeatSeen,
    ) -> Result<Step, Code>
        requires sound { IsSound self.old.proxy }
        requires matched { IsAmong (S.writers sink.old) source.now.publication }
        requires small { heartbeat.now.first ≤ max_sn }
        ensures meets { IfOk result (λ step. (h : List Happening) → S.stands sink.old h
            → is_later (tracked self.old.proxy).count heartbeat.now.count ≡ true
            → MeetsHeartbeat self.old.how (match_of (S.qos sink.old) source.now)
            (tracked self.old.proxy) h heartbeat.now step
            (SameTracked (tracked self.new.proxy)) (S.stands sink.new)) }
        ensures repeated { is_later (tracked self.old.proxy).count heartbeat.now.count ≡ false
            → (self.new ≡ self.old) × (sink.new ≡ sink.old) × IsOk result
            × IfOk result (λ step. IsIdle (tracked self.old.proxy).place step) }
        ensures few { IfOk result (λ step. length step.passed ≤ 257) }
        ensures how { KeepsHow self.old.how self.new.how result }
        ensures keeps { ProxyKeepsRest S.stands S.qos S.writers S.spare
            self.old.proxy self.new.proxy sink.old sink.new result }
        ensures succeeds { IsWriterReady self.old (S.spare sink.old) → IsOk result }
    {
        match self.how {
            Attachment::Begun => self.proxy.on_heartbeat(sink, source, heartbeat),
            Attachment::Waiting => {
                let step = self.proxy.begin_at_heartbeat(sink, source, heartbeat)?;
                self.note(&step);
                Ok(step)
            }
            Attachment::Away => Ok(self.proxy.idle()),
        }
    }

    /// A HEARTBEAT was received, at a best-effort reader: where its place waits, the writer is heard, and it waits on.
    pub fn on_best_effort_heartbeat<S: Sink>(
        &mut self,
        sink: &mut S,
        source: &Source,
        heartbeat: &HeartbeatSeen,
    ) -> Result<Step, Code>
        requires sound { IsSound self.old.proxy }
        requires matched { IsAmong (S.writers sink.old) source.now.publication }
        requires small { heartbeat.now.first ≤ max_sn }
        ensures meets { IfOk result (λ step. (h : List Happening) → S.stands sink.old h
            → is_later (tracked self.old.proxy).count heartbeat.now.count ≡ true
            → MeetsBeat self.old.how (match_of (S.qos sink.old) source.now)
            (tracked self.old.proxy) h heartbeat.now step
            (SameTracked (tracked self.new.proxy)) (S.stands sink.new)) }
        ensures repeated { is_later (tracked self.old.proxy).count heartbeat.now.count ≡ false
            → (self.new ≡ self.old) × (sink.new ≡ sink.old) × IsOk result
            × IfOk result (λ step. IsIdle (tracked self.old.proxy).place step) }
        ensures few { IfOk result (λ step. length step.passed ≤ 257) }
        ensures how { KeepsHow self.old.how self.new.how result }
        ensures keeps { ProxyKeepsRest S.stands S.qos S.writers S.spare
            self.old.proxy self.new.proxy sink.old sink.new result }
        ensures succeeds { IsWriterReady self.old (S.spare sink.old) → IsOk result }
    {
        match self.how {
            Attachment::Begun => self.proxy.on_heartbeat(sink, source, heartbeat),
            Attachment::Waiting => self.proxy.hear_alone(sink, source, heartbeat),
            Attachment::Away => Ok(self.proxy.idle()),
        }
    }
}
