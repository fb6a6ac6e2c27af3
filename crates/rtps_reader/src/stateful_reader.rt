//! A reader and the writers that it knows.
//!
//! RTPS 2.5, 8.4.10 (StatefulReader), 8.4.12.

ghost use Rattle.std.specs.Prelude.{◌≡◌, ℕ, ◌+◌, ◌-◌, ◌^◌, ◌<◌, ◌≤◌, List, length, true, false, OnOk, OnErr, IsOk, IfOk, IfErr};
ghost use Rattle.dds_base.specs.Bounds.{max_sn};
ghost use Rattle.dds_base.specs.declared.code.Code.TheVariants.{Memory};
ghost use Rattle.dds_base.specs.declared.happening.Happening.{Happening};
ghost use Rattle.dds_base.specs.Counts.{is_later};
ghost use Rattle.rtps_reader.specs.Tracked.{Tracked, fresh, may_take, with_data, with_gap};
ghost use Rattle.rtps_reader.specs.Answer.{IsIdle};
ghost use Rattle.rtps_reader.specs.declared.attachment.Attachment.TheVariants.{Away, Waiting, Begun};
ghost use Rattle.rtps_reader.specs.Reader.{Tracks, how_at, count_of, IsReady, IsReadyAt, AllStay, AllStand, match_at, KeepsRest};
ghost use Rattle.rtps_reader.specs.Attached.{goes_on, no_news, without_last, StandsNow, HasOneMore, MeetsNews, MeetsChange, MeetsHeartbeat, MeetsBeat};

use crate::attachment::Attachment;
use crate::known_writer::KnownWriter;
use crate::sink::Sink;
use crate::step::{HeartbeatSeen, Step};
use crate::writer_proxy::Source;
use dds_base::{Change, Code, Handle, Moment, Sn};
use rtps_sets::SnSet;
use std::alloc::Global;
use std::marker::Model;

/// A reader: for each writer that it knows, named by index from 0, how it stands to it, its place there, and what it knows
/// from the place on. A writer's publication handle is its index plus 1.
///
/// RTPS 2.5, 8.4.10 (StatefulReader).
#[derive(Drop)]
pub struct StatefulReader {
    writers: Vec<KnownWriter>,
}

impl Model for StatefulReader {
    ghost use Rattle.rtps_reader.specs.Reader.{Proxies};
    ghost use Rattle.rtps_reader.specs.Sound.{AreSound};

    ghost Value = { Proxies };

    ghost view = { λ r. record { writers = r.writers.items } };

    ghost invariant = { λ r. AreSound r.writers.items };
}

/// Which writer is heard, and when.
fn source_of(writer: usize, moment: Moment) -> Source
    requires { writer < 2 ^ 64 - 1 }
    ensures { result ≡ record { publication = writer + 1; moment = moment } }
{
    Source {
        publication: Handle::new(writer as u64 + 1),
        moment,
    }
}

impl StatefulReader {
    /// A reader with so many matched writers, of which nothing was heard. Its places have begun.
    ///
    /// # Errors
    ///
    /// `Memory` where a growth was refused.
    pub fn open(alloc: Global, writers: usize) -> Result<StatefulReader, Code>
        // It has so many.
        ensures count { IfOk result (λ reader. count_of reader ≡ writers) }
        // Of each nothing was heard.
        ensures fresh { IfOk result
            (λ reader. (index : ℕ) → index < writers → Tracks reader index fresh) }
        // Each place has begun.
        ensures begun { IfOk result
            (λ reader. (index : ℕ) → index < writers → how_at reader index ≡ Begun) }
        // It is refused for want of memory alone.
        ensures memory { IfErr result (λ code. code ≡ Memory) }
    {
        let mut known = Vec::new(alloc);
        for _ in 0..writers {
            known.push(KnownWriter::open(alloc, Attachment::Begun))?;
        }
        Ok(StatefulReader { writers: known })
    }

    /// The place at a writer: the number of its next change.
    pub fn place(&self, writer: usize) -> Sn
        // The writer is a known one.
        requires matched { writer < count_of self.now }
        // It is what is known of the writer.
        ensures place { (t : Tracked) → Tracks self.now writer t → result ≡ t.place }
        // Something is known of it.
        ensures known { (t : Tracked) × Tracks self.now writer t }
    {
        self.writers[writer].proxy.place()
    }

    /// How it stands to a writer.
    pub fn how(&self, writer: usize) -> Attachment
        // The writer is a known one.
        requires matched { writer < count_of self.now }
        // It is so.
        ensures how { result ≡ how_at self.now writer }
    {
        let known = &self.writers[writer];
        known.how
    }

    /// The reader is matched with a writer that it knows. Its place there stays where it is, and waits.
    ///
    /// RTPS 2.5, 8.4.10 (StatefulReader: matched_writer_add).
    pub fn attach(&mut self, writer: usize)
        // The writer is a known one.
        requires known { writer < count_of self.old }
        // The place waits, and nothing else changes.
        ensures waits { StandsNow self.old writer Waiting self.new }
    {
        self.writers[writer].how = Attachment::Waiting;
    }

    /// The reader is no longer matched with a writer. Its place there stays where it is. Memory for changes that wait is let
    /// go, where none waits.
    ///
    /// RTPS 2.5, 8.4.10 (StatefulReader: matched_writer_remove).
    pub fn detach(&mut self, writer: usize)
        // The writer is a known one.
        requires known { writer < count_of self.old }
        // The reader is away, and nothing else changes.
        ensures away { StandsNow self.old writer Away self.new }
    {
        let known = &mut self.writers[writer];
        known.leave();
    }

    /// The reader is matched with a writer that it never knew: it comes after all others, with the next index, and the
    /// place there, 1, waits.
    ///
    /// # Errors
    ///
    /// `Memory` where a growth was refused; the reader is then as it was.
    ///
    /// RTPS 2.5, 8.4.10 (StatefulReader: matched_writer_add).
    pub fn append(&mut self, alloc: Global) -> Result<(), Code>
        // It comes after all others, which stay.
        ensures ok { OnOk result (HasOneMore self.old self.new) }
        // Without it, the reader would be as it was.
        ensures before { OnOk result (without_last self.new ≡ self.old) }
        // A refusal changes nothing.
        ensures err { OnErr result (self.new ≡ self.old) }
        // It is refused for want of memory alone.
        ensures memory { IfErr result (λ code. code ≡ Memory) }
    {
        self.writers
            .push(KnownWriter::open(alloc, Attachment::Waiting))?;
        Ok(())
    }

    /// Forgets the writer that it knows last, as where what else a match wants is refused.
    pub fn forget_last(&mut self)
        // It forgets that one, and nothing else.
        ensures forgets { self.new ≡ without_last self.old }
    {
        let _ = self.writers.pop();
    }

    /// Whether a change of this number of a writer does something at a reliable reader: it is held, or the place may go
    /// on by what is known already. One that does nothing needs no memory.
    ///
    /// RTPS 2.5, 8.4.12 (received_change_set).
    pub fn may_take(&self, writer: usize, number: Sn) -> bool
        // The writer is a known one.
        requires matched { writer < count_of self.now }
        // It is so by what is known of the writer.
        ensures takes { (t : Tracked) → Tracks self.now writer t → result ≡ may_take t number }
    {
        self.writers[writer].proxy.may_take(number)
    }

    /// Whether a HEARTBEAT of a writer with this count would be taken: one that was taken before does nothing.
    ///
    /// RTPS 2.5, 8.3.8 (Heartbeat: count).
    pub fn is_later(&self, writer: usize, count: i32) -> bool
        // The writer is a known one.
        requires matched { writer < count_of self.now }
        // It is so by what is known of the writer.
        ensures later { (t : Tracked) → Tracks self.now writer t → result ≡ is_later t.count count }
    {
        self.writers[writer].proxy.is_later(count)
    }

    /// Makes all memory that the next submessage may take, here and at the sink. It changes that alone.
    ///
    /// # Errors
    ///
    /// `Memory` where a growth was refused.
    pub fn reserve<S: Sink>(&mut self, sink: &mut S) -> Result<(), Code>
        // Nothing becomes known.
        ensures same { AllStay self.old self.new }
        // It stands to each writer as before.
        ensures how { AllStand self.old self.new }
        // The writers stay.
        ensures count { count_of self.new ≡ count_of self.old }
        // Nothing happens.
        ensures stands { (h : List Happening) → S.stands sink.old h → S.stands sink.new h }
        // The policies stay.
        ensures qos { S.qos sink.new ≡ S.qos sink.old }
        ensures writers { S.writers sink.new ≡ S.writers sink.old }
        // The next submessage can't fail.
        ensures ok { OnOk result (IsReady self.new (S.spare sink.new)) }
        // The sink has no less memory than before.
        ensures spare { S.spare sink.old ≤ S.spare sink.new }
        // Where there is memory enough it succeeds.
        ensures succeeds { IsReady self.old (S.spare sink.old) → IsOk result }
        // It is refused for want of memory alone.
        ensures memory { IfErr result (λ code. code ≡ Memory) }
    {
        for at in 0..self.writers.len() {
            let known = &mut self.writers[at];
            known.reserve(sink)?;
        }
        Ok(())
    }

    /// Makes all memory that the next submessage of this writer may take, here and at the sink. It changes that alone,
    /// and looks at no other writer.
    ///
    /// # Errors
    ///
    /// `Memory` where a growth was refused.
    pub fn reserve_for<S: Sink>(&mut self, writer: usize, sink: &mut S) -> Result<(), Code>
        // The writer is a known one.
        requires matched { writer < count_of self.old }
        // Nothing becomes known.
        ensures same { AllStay self.old self.new }
        // It stands to each writer as before.
        ensures how { AllStand self.old self.new }
        // The writers stay.
        ensures count { count_of self.new ≡ count_of self.old }
        // Nothing happens.
        ensures stands { (h : List Happening) → S.stands sink.old h → S.stands sink.new h }
        // The policies stay.
        ensures qos { S.qos sink.new ≡ S.qos sink.old }
        ensures writers { S.writers sink.new ≡ S.writers sink.old }
        // The next submessage of the writer can't fail.
        ensures ok { OnOk result (IsReadyAt self.new writer (S.spare sink.new)) }
        // The sink has no less memory than before.
        ensures spare { S.spare sink.old ≤ S.spare sink.new }
        // Where there is memory enough it succeeds.
        ensures succeeds { IsReadyAt self.old writer (S.spare sink.old) → IsOk result }
        // It is refused for want of memory alone.
        ensures memory { IfErr result (λ code. code ≡ Memory) }
    {
        self.writers[writer].reserve(sink)
    }

    /// A change of a writer was received, at a place that has begun: it is held, if its number is one of the window of
    /// which nothing is known, and then the place goes as far as it can. At any other place nothing is done.
    ///
    /// The number is at most 2^62.
    ///
    /// # Errors
    ///
    /// `Memory` where a growth was refused, and never after `reserve`, or `reserve_for` of this writer; what is known
    /// and what happened is as it was.
    ///
    /// RTPS 2.5, 8.4.10, 8.4.12 (received_change_set).
    pub fn on_data<S: Sink>(
        &mut self,
        sink: &mut S,
        writer: usize,
        number: Sn,
        change: Change,
        moment: Moment,
    ) -> Result<Step, Code>
        // The writer is a known one.
        requires matched { writer < count_of self.old }
        // The sink knows the matched writers.
        requires writers { count_of self.old ≤ S.writers sink.old }
        // The number is one that the wire has.
        requires number { number ≤ max_sn }
        // Where the place has begun it goes on from what is known with the change, else nothing is done.
        ensures meets { IfOk result (λ step. (t : Tracked) (h : List Happening)
            → Tracks self.old writer t → S.stands sink.old h
            → MeetsNews (how_at self.old writer) (match_at (S.qos sink.old) writer moment)
            (with_data number change) t h step (Tracks self.new writer) (S.stands sink.new)) }
        // It passes over 257 runs at most.
        ensures few { IfOk result (λ step. length step.passed ≤ 257) }
        // Nothing else changes; a refusal, for want of memory alone, changes nothing at all.
        ensures keeps { KeepsRest S.stands S.qos S.writers S.spare writer
            self.old self.new sink.old sink.new result }
    {
        let known = &mut self.writers[writer];
        let source = source_of(writer, moment);
        known.on_data(sink, &source, number, change)
    }

    /// A change of a writer was received, and the reader is a best-effort one: where the number is not below the place,
    /// and there is room for the change, it comes, and all numbers before it are passed over; else nothing happens. A
    /// place that waits begins at such a change, over all before it, none of which is then passed over.
    ///
    /// The number is at most 2^62.
    ///
    /// # Errors
    ///
    /// `Memory` where a growth was refused, and never after `reserve`, or `reserve_for` of this writer; what is known
    /// and what happened is as it was.
    ///
    /// DDS 1.4, 2.2.3 (RELIABILITY: BEST_EFFORT); RTPS 2.5, 8.4.12 (best-effort StatefulReader).
    pub fn on_best_effort_data<S: Sink>(
        &mut self,
        sink: &mut S,
        writer: usize,
        number: Sn,
        change: Change,
        moment: Moment,
    ) -> Result<Step, Code>
        // The writer is a known one.
        requires matched { writer < count_of self.old }
        // The sink knows the matched writers.
        requires writers { count_of self.old ≤ S.writers sink.old }
        // The number is one that the wire has.
        requires number { number ≤ max_sn }
        // The change comes, over all before it, or nothing happens; a place that waits begins at one that comes.
        ensures meets { IfOk result (λ step. (t : Tracked) (h : List Happening)
            → Tracks self.old writer t → S.stands sink.old h
            → MeetsChange (how_at self.old writer) (match_at (S.qos sink.old) writer moment)
            t h number change step (Tracks self.new writer) (S.stands sink.new)) }
        // It passes over one run at most.
        ensures few { IfOk result (λ step. length step.passed ≤ 1) }
        // Nothing else changes; a refusal, for want of memory alone, changes nothing at all.
        ensures keeps { KeepsRest S.stands S.qos S.writers S.spare writer
            self.old self.new sink.old sink.new result }
    {
        let known = &mut self.writers[writer];
        let source = source_of(writer, moment);
        known.on_best_effort_data(sink, &source, number, change)
    }

    /// A GAP of a writer was received, at a place that has begun: the numbers from `start` to below the list's base, and
    /// those of the list, are irrelevant, as far as they are of the window and nothing is known of them; then the place
    /// goes as far as it can. At any other place nothing is done.
    ///
    /// The list's base is at most 2^62.
    ///
    /// # Errors
    ///
    /// `Memory` where a growth was refused, and never after `reserve`, or `reserve_for` of this writer; what is known
    /// and what happened is as it was.
    ///
    /// RTPS 2.5, 8.4.10, 8.4.12 (irrelevant_change_set).
    pub fn on_gap<S: Sink>(
        &mut self,
        sink: &mut S,
        writer: usize,
        start: Sn,
        list: &SnSet,
        moment: Moment,
    ) -> Result<Step, Code>
        // The writer is a known one.
        requires matched { writer < count_of self.old }
        // The sink knows the matched writers.
        requires writers { count_of self.old ≤ S.writers sink.old }
        // The base is one that the wire has.
        requires base { list.now.base ≤ max_sn }
        // Where the place has begun it goes on from what is known with the GAP, else nothing is done.
        ensures meets { IfOk result (λ step. (t : Tracked) (h : List Happening)
            → Tracks self.old writer t → S.stands sink.old h
            → MeetsNews (how_at self.old writer) (match_at (S.qos sink.old) writer moment)
            (with_gap start list.now) t h step (Tracks self.new writer) (S.stands sink.new)) }
        // It passes over 257 runs at most.
        ensures few { IfOk result (λ step. length step.passed ≤ 257) }
        // Nothing else changes; a refusal, for want of memory alone, changes nothing at all.
        ensures keeps { KeepsRest S.stands S.qos S.writers S.spare writer
            self.old self.new sink.old sink.new result }
    {
        let known = &mut self.writers[writer];
        let source = source_of(writer, moment);
        known.on_gap(sink, &source, start, list)
    }

    /// Whether the place at a writer may go on by what is known already: it has begun, and the number there can be passed
    /// over, or its change is held. One that can't needs no memory.
    ///
    /// RTPS 2.5, 8.4.12 (reliable StatefulReader).
    pub fn may_go_on(&self, writer: usize) -> bool
        // The writer is a known one.
        requires matched { writer < count_of self.now }
        // It is so by how the reader stands to the writer, and what is known of it.
        ensures goes_on { (t : Tracked) → Tracks self.now writer t
            → result ≡ goes_on (how_at self.now writer) t }
    {
        let known = &self.writers[writer];
        known.may_go_on()
    }

    /// The place at a writer is tried again: where it has begun it goes as far as it can by what is known already, as
    /// after a change was taken for which there was no room behind it. At any other place nothing is done.
    ///
    /// # Errors
    ///
    /// `Memory` where a growth was refused, and never after `reserve`, or `reserve_for` of this writer; what is known
    /// and what happened is as it was.
    ///
    /// RTPS 2.5, 8.4.12 (reliable StatefulReader).
    pub fn resume<S: Sink>(
        &mut self,
        sink: &mut S,
        writer: usize,
        moment: Moment,
    ) -> Result<Step, Code>
        // The writer is a known one.
        requires matched { writer < count_of self.old }
        // The sink knows the matched writers.
        requires writers { count_of self.old ≤ S.writers sink.old }
        // Where the place has begun it goes on from what is known, else nothing is done.
        ensures meets { IfOk result (λ step. (t : Tracked) (h : List Happening)
            → Tracks self.old writer t → S.stands sink.old h
            → MeetsNews (how_at self.old writer) (match_at (S.qos sink.old) writer moment)
            no_news t h step (Tracks self.new writer) (S.stands sink.new)) }
        // It passes over 257 runs at most.
        ensures few { IfOk result (λ step. length step.passed ≤ 257) }
        // Nothing else changes; a refusal, for want of memory alone, changes nothing at all.
        ensures keeps { KeepsRest S.stands S.qos S.writers S.spare writer
            self.old self.new sink.old sink.new result }
    {
        let known = &mut self.writers[writer];
        let source = source_of(writer, moment);
        known.resume(sink, &source)
    }

    /// A HEARTBEAT of a matched writer was received. It is accepted if its count is greater than those before: then the
    /// writer is heard, if it asserts its liveliness, a place that waits begins at firstSN, or where it was, if that is
    /// further, the place goes as far as it can, and an ACKNACK is due, unless the HEARTBEAT is final and nothing is
    /// missing, the place is above 2^62, or 2^31 - 1 counts were used. One that is repeated does nothing.
    ///
    /// firstSN is at most 2^62.
    ///
    /// # Errors
    ///
    /// `Memory` where a growth was refused, and never after `reserve`, or `reserve_for` of this writer; what is known
    /// and what happened is as it was.
    ///
    /// RTPS 2.5, 8.4.10, 8.4.12 (missing_changes_update, lost_changes_update; ACKNACK), 8.3.8 (Heartbeat: count).
    pub fn on_heartbeat<S: Sink>(
        &mut self,
        sink: &mut S,
        writer: usize,
        heartbeat: &HeartbeatSeen,
        moment: Moment,
    ) -> Result<Step, Code>
        // The writer is a known one.
        requires matched { writer < count_of self.old }
        // The sink knows the matched writers.
        requires writers { count_of self.old ≤ S.writers sink.old }
        // firstSN is one that the wire has.
        requires first { heartbeat.now.first ≤ max_sn }
        // One of a greater count is heard, begins a place that waits, moves it, and is answered.
        ensures accepted { IfOk result (λ step. (t : Tracked) (h : List Happening)
            → Tracks self.old writer t → S.stands sink.old h
            → is_later t.count heartbeat.now.count ≡ true
            → MeetsHeartbeat (how_at self.old writer) (match_at (S.qos sink.old) writer moment)
            t h heartbeat.now step (Tracks self.new writer) (S.stands sink.new)) }
        // Any other does nothing.
        ensures repeated { (t : Tracked) (h : List Happening)
            → Tracks self.old writer t → S.stands sink.old h
            → is_later t.count heartbeat.now.count ≡ false
            → IsOk result
            × IfOk result
            (λ step. IsIdle t.place step × Tracks self.new writer t × S.stands sink.new h) }
        // It passes over 257 runs at most.
        ensures few { IfOk result (λ step. length step.passed ≤ 257) }
        // Nothing else changes; a refusal, for want of memory alone, changes nothing at all.
        ensures keeps { KeepsRest S.stands S.qos S.writers S.spare writer
            self.old self.new sink.old sink.new result }
    {
        let known = &mut self.writers[writer];
        let source = source_of(writer, moment);
        known.on_heartbeat(sink, &source, heartbeat)
    }

    /// A HEARTBEAT of a writer was received, and the reader is a best-effort one. It is accepted if its count is greater
    /// than those before: then the writer is heard, if it asserts its liveliness. A place that waits goes on waiting, and
    /// at one that has begun it does what it does at a reliable reader. One that is repeated does nothing.
    ///
    /// firstSN is at most 2^62.
    ///
    /// # Errors
    ///
    /// `Memory` where a growth was refused, and never after `reserve`, or `reserve_for` of this writer; what is known
    /// and what happened is as it was.
    ///
    /// RTPS 2.5, 8.4.12 (best-effort StatefulReader), 8.3.8 (Heartbeat: count); DDS 1.4, 2.2.3 (LIVELINESS).
    pub fn on_best_effort_heartbeat<S: Sink>(
        &mut self,
        sink: &mut S,
        writer: usize,
        heartbeat: &HeartbeatSeen,
        moment: Moment,
    ) -> Result<Step, Code>
        // The writer is a known one.
        requires matched { writer < count_of self.old }
        // The sink knows the matched writers.
        requires writers { count_of self.old ≤ S.writers sink.old }
        // firstSN is one that the wire has.
        requires first { heartbeat.now.first ≤ max_sn }
        // One of a greater count is heard, and a place that waits goes on waiting.
        ensures accepted { IfOk result (λ step. (t : Tracked) (h : List Happening)
            → Tracks self.old writer t → S.stands sink.old h
            → is_later t.count heartbeat.now.count ≡ true
            → MeetsBeat (how_at self.old writer) (match_at (S.qos sink.old) writer moment)
            t h heartbeat.now step (Tracks self.new writer) (S.stands sink.new)) }
        // Any other does nothing.
        ensures repeated { (t : Tracked) (h : List Happening)
            → Tracks self.old writer t → S.stands sink.old h
            → is_later t.count heartbeat.now.count ≡ false
            → IsOk result
            × IfOk result
            (λ step. IsIdle t.place step × Tracks self.new writer t × S.stands sink.new h) }
        // It passes over 257 runs at most.
        ensures few { IfOk result (λ step. length step.passed ≤ 257) }
        // Nothing else changes; a refusal, for want of memory alone, changes nothing at all.
        ensures keeps { KeepsRest S.stands S.qos S.writers S.spare writer
            self.old self.new sink.old sink.new result }
    {
        let known = &mut self.writers[writer];
        let source = source_of(writer, moment);
        known.on_best_effort_heartbeat(sink, &source, heartbeat)
    }
}
