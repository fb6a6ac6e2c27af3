//! How the place of a reader that waits begins.
//!
//! RTPS 2.5, 8.4.10 (WriterProxy), 8.4.12 (missing_changes_update).

ghost use Rattle.std.specs.Prelude.{◌≡◌, ℕ, ◌≤◌, max, List, length, true, false, None, OnOk, IsOk, IfOk};
ghost use Rattle.dds_base.specs.Bounds.{max_sn};
ghost use Rattle.dds_base.specs.declared.happening.Happening.{Happening};
ghost use Rattle.rtps_reader.specs.Entering.{IsAmong};
ghost use Rattle.dds_base.specs.Counts.{is_later};
ghost use Rattle.rtps_sets.specs.Window.{window_place};
ghost use Rattle.rtps_reader.specs.Tracked.{SameTracked};
ghost use Rattle.rtps_reader.specs.Advance.{Stays};
ghost use Rattle.rtps_reader.specs.Answer.{IsIdle};
ghost use Rattle.rtps_reader.specs.Moving.{match_of};
ghost use Rattle.rtps_reader.specs.HeldChanges.{HasPlaces, count_held};
ghost use Rattle.rtps_reader.specs.Attached.{MeetsChange, MeetsHeartbeat, MeetsBeat};
ghost use Rattle.rtps_reader.specs.declared.attachment.Attachment.TheVariants.{Waiting};
ghost use Rattle.rtps_reader.specs.Proxy.{tracked};
ghost use Rattle.rtps_reader.specs.Sound.{IsSound, ProxyKeepsRest};

use crate::sink::Sink;
use crate::step::{HeartbeatSeen, Step};
use crate::writer_proxy::{Source, WriterProxy, arrival_of, hear_if};
use dds_base::{Change, Code, Sn};

impl WriterProxy {
    /// The place begins at this number, or where it was, if that is further.
    fn begin(&mut self, number: Sn)
        requires sound { IsSound self.old }
        requires small { number ≤ max_sn }
        ensures sound { IsSound self.new }
        ensures place { window_place self.new.window ≡ max (window_place self.old.window) number }
        ensures stays { Stays (tracked self.old) (tracked self.new) }
        ensures held { count_held self.new.held ≤ count_held self.old.held }
        ensures places { HasPlaces self.old.held → HasPlaces self.new.held }
        ensures runs { self.new.runs ≡ self.old.runs }
    {
        let place = self.place();
        self.jump(Sn::new(u64::max(place.number(), number.number())));
    }

    /// A HEARTBEAT was received, at a reliable reader whose place waits.
    pub fn begin_at_heartbeat<S: Sink>(
        &mut self,
        sink: &mut S,
        source: &Source,
        heartbeat: &HeartbeatSeen,
    ) -> Result<Step, Code>
        requires sound { IsSound self.old }
        requires matched { IsAmong (S.writers sink.old) source.now.publication }
        requires small { heartbeat.now.first ≤ max_sn }
        ensures meets { IfOk result (λ step. (h : List Happening) → S.stands sink.old h
            → is_later (tracked self.old).count heartbeat.now.count ≡ true
            → MeetsHeartbeat Waiting (match_of (S.qos sink.old) source.now)
            (tracked self.old) h heartbeat.now step (SameTracked (tracked self.new)) (S.stands sink.new)) }
        ensures repeated { is_later (tracked self.old).count heartbeat.now.count ≡ false
            → (self.new ≡ self.old) × (sink.new ≡ sink.old) × IsOk result
            × IfOk result (λ step. IsIdle (tracked self.old).place step) }
        ensures few { IfOk result (λ step. length step.passed ≤ 257) }
        ensures keeps { ProxyKeepsRest S.stands S.qos S.writers S.spare
            self.old self.new sink.old sink.new result }
    {
        if !self.is_later(heartbeat.count) {
            return Ok(self.idle());
        }
        self.reserve(sink)?;
        self.begin(heartbeat.first);
        let at = self.place();
        let mut step = self.on_heartbeat(sink, source, heartbeat).unwrap();
        step.begun = Some(at);
        Ok(step)
    }

    /// A change was received, at a best-effort reader whose place waits.
    pub fn begin_at_change<S: Sink>(
        &mut self,
        sink: &mut S,
        source: &Source,
        number: Sn,
        change: Change,
    ) -> Result<Step, Code>
        requires sound { IsSound self.old }
        requires matched { IsAmong (S.writers sink.old) source.now.publication }
        requires small { number ≤ max_sn }
        ensures meets { IfOk result (λ step. (h : List Happening) → S.stands sink.old h
            → MeetsChange Waiting (match_of (S.qos sink.old) source.now)
            (tracked self.old) h number change step (SameTracked (tracked self.new)) (S.stands sink.new)) }
        ensures few { IfOk result (λ step. length step.passed ≤ 1) }
        ensures keeps { ProxyKeepsRest S.stands S.qos S.writers S.spare
            self.old self.new sink.old sink.new result }
    {
        self.reserve(sink)?;
        if number.number() < self.place().number() {
            return Ok(self.idle());
        }
        let coming = arrival_of(source, number, change);
        if !sink.room(&coming) {
            return Ok(self.idle());
        }
        self.begin(number);
        let mut step = self.come_over(sink, source, coming);
        step.begun = Some(number);
        Ok(step)
    }

    /// A HEARTBEAT was received, at a best-effort reader whose place waits, and goes on waiting.
    pub fn hear_alone<S: Sink>(
        &mut self,
        sink: &mut S,
        source: &Source,
        heartbeat: &HeartbeatSeen,
    ) -> Result<Step, Code>
        requires sound { IsSound self.old }
        requires matched { IsAmong (S.writers sink.old) source.now.publication }
        ensures meets { IfOk result (λ step. (h : List Happening) → S.stands sink.old h
            → is_later (tracked self.old).count heartbeat.now.count ≡ true
            → MeetsBeat Waiting (match_of (S.qos sink.old) source.now)
            (tracked self.old) h heartbeat.now step (SameTracked (tracked self.new)) (S.stands sink.new)) }
        ensures waits { IfOk result (λ step. step.begun ≡ None) }
        ensures repeated { is_later (tracked self.old).count heartbeat.now.count ≡ false
            → (self.new ≡ self.old) × (sink.new ≡ sink.old) × IsOk result
            × IfOk result (λ step. IsIdle (tracked self.old).place step) }
        ensures few { IfOk result (λ step. length step.passed ≤ 257) }
        ensures keeps { ProxyKeepsRest S.stands S.qos S.writers S.spare
            self.old self.new sink.old sink.new result }
    {
        if !self.is_later(heartbeat.count) {
            return Ok(self.idle());
        }
        self.reserve(sink)?;
        self.note_count(heartbeat);
        hear_if(sink, source, heartbeat.liveliness);
        let mut step = self.idle();
        step.heard = heartbeat.liveliness;
        Ok(step)
    }
}
