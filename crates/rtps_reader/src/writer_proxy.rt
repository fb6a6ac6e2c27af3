//! What a reader keeps of one matched writer.
//!
//! RTPS 2.5, 8.4.10 (WriterProxy, ChangeFromWriter).

ghost use Rattle.std.specs.Prelude.{◌≡◌, ℕ, ◌+◌, ◌-◌, ◌*◌, ◌^◌, ◌<◌, ◌≤◌, ◌&&◌, ◌||◌, ◌==◌, min, List, ◌∷◌, ◌++◌, [], length, not, true, false, None, Some, if◌then◌else◌, OnOk, IsOk, IfOk, IfErr, IfSome, vec_len, vec_capacity};
ghost use Rattle.dds_base.specs.Bounds.{max_sn, window_width};
ghost use Rattle.dds_base.specs.declared.code.Code.TheVariants.{Memory};
ghost use Rattle.dds_base.specs.declared.happening.Happening.{Happening};
ghost use Rattle.rtps_reader.specs.Entering.{IsAmong};
ghost use Rattle.dds_base.specs.Counts.{is_later};
ghost use Rattle.rtps_sets.specs.Window.{mark_of, window_place, can_mark};
ghost use Rattle.rtps_sets.specs.declared.window.Mark.TheVariants as mark;
ghost use Rattle.rtps_reader.specs.Tracked.{fresh, is_missing, is_named, is_open, is_passable, is_waiting, may_take, with_data, with_gap, with_heartbeat, SameTracked};
ghost use Rattle.rtps_reader.specs.Moving.{ArePassable, FindsNoRoom, IsNext, PassesOver, HandsOn, Moves, HeartbeatMoves, JumpMoves, HasMoved, match_of, mark_named, CanMove};
ghost use Rattle.rtps_reader.specs.Jump.{run_of, passed_from};
ghost use Rattle.rtps_reader.specs.Advance.{Stays};
ghost use Rattle.rtps_reader.specs.HeldChanges.{HasPlaces, count_held};
ghost use Rattle.rtps_reader.specs.Proxy.{tracked, IsProxyReady};
ghost use Rattle.rtps_reader.specs.Sound.{IsSound, ProxyKeepsRest};
ghost use Rattle.rtps_reader.specs.Answer.{AnswersHeartbeat, IsIdle, IsSayable, answered, heard_after};

use crate::held_changes::{HeldChanges, forget_below};
use crate::sink::Sink;
use crate::step::{AckNackDue, HeartbeatSeen, Step};
use dds_base::{
    Arrival, Change, Code, Handle, MAX_COUNT, MAX_SN, Moment, PassedRun, Sequence, Sn, is_later,
};
use rtps_sets::{Mark, SnSet, WIDTH, Window};
use std::alloc::Global;
use std::mem;

/// So many changes can come in one move: as many as a window holds.
const MAX_MOVES: usize = WIDTH as usize;

/// Which writer is heard, and when.
#[derive(Clone, Copy)]
pub struct Source {
    /// The writer's publication handle.
    pub publication: Handle,
    /// The moment of the reader's peer.
    pub moment: Moment,
}

/// What a reader keeps of one matched writer.
///
/// RTPS 2.5, 8.4.10 (WriterProxy).
#[derive(Drop)]
pub struct WriterProxy {
    alloc: Global,
    window: Window,
    /// The changes of the numbers that are marked as held.
    held: HeldChanges,
    first: u64,
    count: Option<i32>,
    acknacks: u32,
    /// Memory for the runs of the next step.
    runs: Vec<PassedRun>,
}

/// Whether a GAP names a number.
fn is_named(start: Sn, list: &SnSet, number: u64) -> bool
    requires small { list.now.base ≤ max_sn }
    ensures named { result ≡ is_named start list.now number }
    ensures small { result ≡ true → number < max_sn + window_width }
{
    let base = list.base().number();
    (start.number() <= number && number < base) || list.has(Sn::new(number))
}

/// Marks a number as irrelevant, if it is named.
fn mark_if(window: &mut Window, number: u64, named: bool)
    ensures place { window_place window.new ≡ window_place window.old }
    ensures marks { (n : ℕ) → mark_of window.new n ≡
        (if (named && can_mark window.old number) && (number == n) then Some mark.Irrelevant
        else mark_of window.old n) }
{
    if named {
        // A mark is never refused.
        window.mark(Sn::new(number), Mark::Irrelevant).unwrap();
    }
}

/// Marks as irrelevant what a GAP names of the window.
fn mark_named(window: &mut Window, start: Sn, list: &SnSet)
    requires small { list.now.base ≤ max_sn }
    requires place { window_place window.old ≤ max_sn + window_width }
    ensures place { window_place window.new ≡ window_place window.old }
    ensures marks { (n : ℕ) → mark_of window.new n ≡ mark_named start list.now
        (window_place window.old + window_width) window.old n }
    ensures small { (n : ℕ) → max_sn + window_width ≤ n → mark_of window.old n ≡ None
        → mark_of window.new n ≡ None }
{
    let place = window.place().number();
    for number in place..place + WIDTH {
        let named = is_named(start, list, number);
        mark_if(window, number, named);
    }
}

/// Enters a run from one number to below another, if there is one.
fn note_run<S: Sink>(sink: &mut S, source: &Source, from: u64, to: u64, runs: &mut Vec<PassedRun>)
    requires matched { IsAmong (S.writers sink.old) source.now.publication }
    requires runs { vec_len runs.old < vec_capacity runs.old }
    requires spare { 1 ≤ S.spare sink.old }
    ensures runs_is { runs.new.items ≡ runs.old.items ++ run_of from to }
    ensures entered { (h : List Happening) → S.stands sink.old h
        → S.stands sink.new (passed_from source.now.publication from to h) }
    ensures runs { vec_len runs.new ≤ vec_len runs.old + 1 }
    ensures capacity { vec_capacity runs.old ≤ vec_capacity runs.new }
    ensures qos { S.qos sink.new ≡ S.qos sink.old }
    ensures writers { S.writers sink.new ≡ S.writers sink.old }
    ensures spare { S.spare sink.old ≤ S.spare sink.new + 1 }
{
    if to <= from {
        return;
    }
    let first = Sn::new(from);
    let last = Sn::new(to - 1);
    runs.push_reserved(PassedRun { first, last });
    sink.pass(source.publication, first, last).unwrap();
}

/// The runs that were passed over. Where there are none, their memory is kept as room for those of the next step.
fn passed_of(alloc: Global, runs: Vec<PassedRun>, room: &mut Vec<PassedRun>) -> Sequence<PassedRun>
    ensures { result ≡ runs.items }
{
    if runs.is_empty() {
        *room = runs;
        return Sequence::from_vec(Vec::new(alloc));
    }
    Sequence::from_vec(runs)
}

/// Enters that the writer's liveliness was asserted, if it was.
pub fn hear_if<S: Sink>(sink: &mut S, source: &Source, liveliness: bool)
    requires matched { IsAmong (S.writers sink.old) source.now.publication }
    requires spare { 1 ≤ S.spare sink.old }
    ensures entered { (h : List Happening) → S.stands sink.old h
        → S.stands sink.new (heard_after (match_of (S.qos sink.old) source.now) liveliness h) }
    ensures qos { S.qos sink.new ≡ S.qos sink.old }
    ensures writers { S.writers sink.new ≡ S.writers sink.old }
    ensures spare { S.spare sink.old ≤ S.spare sink.new + 1 }
{
    if liveliness {
        sink.hear(source.publication, source.moment).unwrap();
    }
}

/// The arrival of a change.
pub fn arrival_of(source: &Source, number: Sn, change: Change) -> Arrival
    ensures { result ≡ record {
      writer = source.now.publication;
      number = number;
      change = change;
      moment = source.now.moment;
    } }
{
    Arrival {
        writer: source.publication,
        number,
        change,
        moment: source.moment,
    }
}

impl WriterProxy {
    /// Of a writer of which nothing was heard.
    pub fn open(alloc: Global) -> WriterProxy
        ensures sound { IsSound result }
        ensures tracked { SameTracked fresh (tracked result) }
    {
        WriterProxy {
            alloc,
            window: Window::open(alloc),
            held: HeldChanges::open(alloc),
            first: 0,
            count: None,
            acknacks: 0,
            runs: Vec::new(alloc),
        }
    }

    /// The number of the next change.
    pub fn place(&self) -> Sn
        ensures { result ≡ (tracked self.now).place }
    {
        self.window.place()
    }

    /// Whether nothing is known of a number.
    fn is_missing(&self, number: u64) -> bool
        requires sound { IsSound self.now }
        ensures { result ≡ is_missing ((tracked self.now).slot number) }
    {
        match self.window.mark_of(Sn::new(number)) {
            None => true,
            Some(Mark::Irrelevant) => false,
            Some(Mark::Held) => false,
        }
    }

    /// Whether the number is one of the window of which nothing is known.
    fn is_open(&self, number: u64) -> bool
        requires sound { IsSound self.now }
        ensures { result ≡ is_open (tracked self.now) number }
    {
        let place = self.window.place().number();
        place <= number && number < place + WIDTH && self.is_missing(number)
    }

    /// Whether a received change of this number does something: it is held, or the place may go on by what is known
    /// already.
    pub fn may_take(&self, number: Sn) -> bool
        requires sound { IsSound self.now }
        ensures { result ≡ may_take (tracked self.now) number }
    {
        let place = self.window.place().number();
        let is_waiting = self.is_missing(place) && self.first <= place;
        !is_waiting || self.is_open(number.number())
    }

    /// Whether a HEARTBEAT of this count would be taken.
    pub fn is_later(&self, count: i32) -> bool
        ensures { result ≡ is_later (tracked self.now).count count }
    {
        is_later(self.count, count)
    }

    /// Whether the place may go on by what is known already.
    pub fn may_go_on(&self) -> bool
        requires sound { IsSound self.now }
        ensures { result ≡ not (is_waiting (tracked self.now)) }
    {
        let place = self.window.place().number();
        !(self.is_missing(place) && self.first <= place)
    }

    /// Makes room for the changes that wait, if there is none.
    #[inline(always)]
    fn make_places(&mut self) -> Result<(), Code>
        ensures same { SameTracked (tracked self.old) (tracked self.new) }
        ensures sound { IsSound self.old → IsSound self.new }
        ensures runs { self.new.runs ≡ self.old.runs }
        ensures count { count_held self.new.held ≡ count_held self.old.held }
        ensures places { OnOk result (HasPlaces self.new.held) }
        ensures succeeds { HasPlaces self.old.held → IsOk result }
        ensures memory { IfErr result (λ code. code ≡ Memory) }
    {
        if self.held.has_room() {
            return Ok(());
        }
        self.held.reserve(self.alloc)?;
        Ok(())
    }

    /// Lets go of that room, where no change waits.
    pub fn release(&mut self)
        ensures same { SameTracked (tracked self.old) (tracked self.new) }
        ensures sound { IsSound self.old → IsSound self.new }
        ensures gone { count_held self.old.held ≡ 0 → self.new.held ≡ [] }
    {
        self.held.release(self.alloc);
    }

    /// Makes all memory that the next submessage may take, here and at the sink. It changes that alone.
    pub fn reserve<S: Sink>(&mut self, sink: &mut S) -> Result<(), Code>
        ensures same { SameTracked (tracked self.old) (tracked self.new) }
        ensures sound { IsSound self.old → IsSound self.new }
        ensures stands { (h : List Happening) → S.stands sink.old h → S.stands sink.new h }
        ensures qos { S.qos sink.new ≡ S.qos sink.old }
        ensures writers { S.writers sink.new ≡ S.writers sink.old }
        ensures ok { OnOk result (IsProxyReady self.new (S.spare sink.new)) }
        ensures spare { S.spare sink.old ≤ S.spare sink.new }
        ensures succeeds { IsProxyReady self.old (S.spare sink.old) → IsOk result }
        ensures memory { IfErr result (λ code. code ≡ Memory) }
    {
        self.make_places()?;
        let waiting = usize::min(self.held.count(), MAX_MOVES - 1) + 1;
        self.runs.clear();
        self.runs.reserve(waiting + 1)?;
        sink.reserve(2 * waiting + 3)
    }

    /// Whether the place may go over a number.
    fn is_passable(&self, number: u64) -> bool
        requires sound { IsSound self.now }
        ensures { result ≡ is_passable (tracked self.now) number }
    {
        match self.window.mark_of(Sn::new(number)) {
            None => number < self.first,
            Some(Mark::Irrelevant) => true,
            Some(Mark::Held) => false,
        }
    }

    /// The first number from the place on that can't be passed over. It looks at the window alone.
    fn run_end(&self) -> u64
        requires sound { IsSound self.now }
        ensures forward { window_place self.now.window ≤ result }
        ensures passable { ArePassable (tracked self.now) (window_place self.now.window) result }
        ensures stops { is_passable (tracked self.now) result ≡ false }
        ensures small { result ≤ max_sn + window_width }
    {
        let place = self.window.place().number();
        for number in place..place + WIDTH {
            if !self.is_passable(number) {
                return number;
            }
        }
        u64::max(self.first, place + WIDTH)
    }

    /// Goes over all numbers that can be passed over, and enters them as a run.
    fn pass_over<S: Sink>(&mut self, sink: &mut S, source: &Source, runs: &mut Vec<PassedRun>)
        requires sound { IsSound self.old }
        requires matched { IsAmong (S.writers sink.old) source.now.publication }
        requires runs { vec_len runs.old < vec_capacity runs.old }
        requires spare { 1 ≤ S.spare sink.old }
        ensures sound { IsSound self.new }
        ensures passes { PassesOver source.now.publication (S.stands sink.old) (S.stands sink.new)
            (tracked self.old)
            (tracked self.new) runs.old.items runs.new.items }
        ensures outside { (n : ℕ) → mark_of self.old.window n ≡ None
            → mark_of self.new.window n ≡ None }
        ensures runs { vec_len runs.new ≤ vec_len runs.old + 1 }
        ensures capacity { vec_capacity runs.old ≤ vec_capacity runs.new }
        ensures qos { S.qos sink.new ≡ S.qos sink.old }
        ensures writers { S.writers sink.new ≡ S.writers sink.old }
        ensures spare { S.spare sink.old ≤ S.spare sink.new + 1 }
        ensures held { self.new.held ≡ self.old.held }
    {
        let place = self.window.place().number();
        let end = self.run_end();
        note_run(sink, source, place, end, runs);
        self.window.pass(Sn::new(end));
    }

    /// Hands on the change at the place, if one is held there and there is room for it.
    fn hand_on<S: Sink>(&mut self, sink: &mut S, source: &Source) -> bool
        requires sound { IsSound self.old }
        requires matched { IsAmong (S.writers sink.old) source.now.publication }
        requires spare { 1 ≤ S.spare sink.old }
        ensures sound { IsSound self.new }
        ensures handed { result ≡ true
            → HandsOn (match_of (S.qos sink.old) source.now) (S.stands sink.old) (S.stands sink.new)
            (tracked self.old)
            (tracked self.new) }
        ensures stays { result ≡ false → SameTracked (tracked self.old) (tracked self.new)
            × (sink.new ≡ sink.old) }
        ensures full { result ≡ false
            → FindsNoRoom (match_of (S.qos sink.old) source.now) (S.stands sink.old)
            (tracked self.old) }
        ensures was_marked { result ≡ true
            → mark_of self.old.window (window_place self.old.window) ≡ Some mark.Held }
        ensures outside { (n : ℕ) → mark_of self.old.window n ≡ None
            → mark_of self.new.window n ≡ None }
        ensures fewer { result ≡ true → count_held self.new.held + 1 ≡ count_held self.old.held }
        ensures qos { S.qos sink.new ≡ S.qos sink.old }
        ensures writers { S.writers sink.new ≡ S.writers sink.old }
        ensures spare { S.spare sink.old ≤ S.spare sink.new + 1 }
    {
        let place = self.window.place();
        if self.window.mark_of(place) != Some(Mark::Held) {
            return false;
        }
        let change = self.held.take(place);
        let arrival = Arrival {
            writer: source.publication,
            number: place,
            change,
            moment: source.moment,
        };
        if !sink.room(&arrival) {
            self.held.put(place, arrival.change);
            return false;
        }
        sink.come(arrival).unwrap();
        self.window.pass(Sn::new(place.number() + 1));
        true
    }

    /// Moves the place as far as it can, and notes the runs that are passed over.
    fn advance<S: Sink>(&mut self, sink: &mut S, source: &Source, runs: &mut Vec<PassedRun>)
        requires sound { IsSound self.old }
        requires matched { IsAmong (S.writers sink.old) source.now.publication }
        requires none { runs.old.items ≡ [] }
        requires len { vec_len runs.old ≡ 0 }
        requires memory { CanMove (count_held self.old.held) (vec_capacity runs.old)
            (S.spare sink.old) }
        ensures sound { IsSound self.new }
        ensures qos { S.qos sink.new ≡ S.qos sink.old }
        ensures writers { S.writers sink.new ≡ S.writers sink.old }
        ensures moves { Moves (match_of (S.qos sink.old) source.now) (S.stands sink.old)
            (S.stands sink.new)
            (tracked self.old) (window_place self.new.window) runs.new.items (tracked self.new) }
        ensures few { vec_len runs.new ≤ 257 }
    {
        // Nothing is known of numbers past the window: the proof has it from here.
        let _tells_the_window = self.window.place();
        'moving: loop {
            self.pass_over(sink, source, runs);
            if !self.hand_on(sink, source) {
                return;
            }
        }
    }

    /// Holds a received change, if its number is one of the window of which nothing is known.
    fn hold(&mut self, number: Sn, change: Change)
        requires sound { IsSound self.old }
        requires small { number ≤ max_sn }
        requires places { HasPlaces self.old.held }
        ensures sound { IsSound self.new }
        ensures holds { SameTracked (with_data number change (tracked self.old)) (tracked self.new) }
        ensures held { count_held self.new.held ≤ count_held self.old.held + 1 }
        ensures runs { self.new.runs ≡ self.old.runs }
    {
        // A mark is never refused.
        if self.window.mark(number, Mark::Held).unwrap() {
            self.held.put(number, change);
        }
    }

    /// Makes irrelevant what a GAP names, as far as it is of the window and nothing is known of it.
    fn make_irrelevant(&mut self, start: Sn, list: &SnSet)
        requires sound { IsSound self.old }
        requires small { list.now.base ≤ max_sn }
        ensures sound { IsSound self.new }
        ensures forgets { SameTracked (with_gap start list.now (tracked self.old))
            (tracked self.new) }
        ensures held { self.new.held ≡ self.old.held }
        ensures runs { self.new.runs ≡ self.old.runs }
    {
        mark_named(&mut self.window, start, list);
    }

    /// Notes what an accepted HEARTBEAT tells.
    fn accept(&mut self, heartbeat: &HeartbeatSeen)
        requires sound { IsSound self.old }
        requires small { heartbeat.now.first ≤ max_sn }
        ensures sound { IsSound self.new }
        ensures tells { SameTracked
            (with_heartbeat heartbeat.now.first heartbeat.now.count (tracked self.old))
            (tracked self.new) }
        ensures held { self.new.held ≡ self.old.held }
        ensures runs { self.new.runs ≡ self.old.runs }
    {
        self.first = u64::max(self.first, heartbeat.first.number());
        self.count = Some(heartbeat.count);
    }

    /// Notes the count of an accepted HEARTBEAT.
    pub fn note_count(&mut self, heartbeat: &HeartbeatSeen)
        requires sound { IsSound self.old }
        ensures sound { IsSound self.new }
        ensures tells { tracked self.new
            ≡ record (tracked self.old) { count = Some heartbeat.now.count } }
        ensures runs { self.new.runs ≡ self.old.runs }
    {
        self.count = Some(heartbeat.count);
    }

    /// What to answer to an accepted HEARTBEAT. It uses up a count.
    fn acknowledge(&mut self, last: Sn, is_final: bool) -> Option<AckNackDue>
        requires sound { IsSound self.old }
        ensures sound { IsSound self.new }
        ensures answers { AnswersHeartbeat (tracked self.old) last is_final result }
        ensures counted { tracked self.new ≡ answered result (tracked self.old) }
        ensures sayable { IfSome result IsSayable }
    {
        let base = self.window.place();
        if base.number() > MAX_SN || self.acknacks >= MAX_COUNT {
            return None;
        }
        let missing = self.window.missing(last);
        let is_complete = missing.bits() == 0;
        if is_final && is_complete {
            return None;
        }
        self.acknacks += 1;
        Some(AckNackDue {
            base: missing.base(),
            missing,
            count: self.acknacks as i32,
            is_final: is_complete,
        })
    }

    /// Moves the place as far as it can, and tells what was passed over.
    #[inline(always)]
    fn moved<S: Sink>(&mut self, sink: &mut S, source: &Source) -> Step
        requires sound { IsSound self.old }
        requires matched { IsAmong (S.writers sink.old) source.now.publication }
        requires memory { CanMove (count_held self.old.held) (vec_capacity self.old.runs)
            (S.spare sink.old) }
        ensures sound { IsSound self.new }
        ensures quiet { (result.heard ≡ false) × (result.acknack ≡ None) × (result.begun ≡ None) }
        ensures qos { S.qos sink.new ≡ S.qos sink.old }
        ensures writers { S.writers sink.new ≡ S.writers sink.old }
        ensures moves { Moves (match_of (S.qos sink.old) source.now) (S.stands sink.old)
            (S.stands sink.new)
            (tracked self.old) result.to result.passed (tracked self.new) }
        ensures few { length result.passed ≤ 257 }
    {
        let mut runs = mem::replace(&mut self.runs, Vec::new(self.alloc));
        runs.clear();
        self.advance(sink, source, &mut runs);
        let passed = passed_of(self.alloc, runs, &mut self.runs);
        Step {
            to: self.window.place(),
            passed,
            begun: None,
            heard: false,
            acknack: None,
        }
    }

    /// Whether a number is the next one, and nothing is known of it, nor of the one behind it.
    fn is_next(&self, number: Sn) -> bool
        requires sound { IsSound self.now }
        ensures next { result ≡ true → IsNext (tracked self.now) number }
    {
        let place = self.window.place().number();
        number.number() == place
            && self.first <= place
            && self.is_missing(place)
            && self.is_missing(place + 1)
    }

    /// The next change was received, behind which nothing waits: it comes, or is held where there is no room for it.
    #[inline(always)]
    fn take_next<S: Sink>(
        &mut self,
        sink: &mut S,
        source: &Source,
        number: Sn,
        change: Change,
    ) -> Step
        requires sound { IsSound self.old }
        requires matched { IsAmong (S.writers sink.old) source.now.publication }
        requires next { IsNext (tracked self.old) number }
        requires small { number ≤ max_sn }
        requires places { HasPlaces self.old.held }
        requires spare { 1 ≤ S.spare sink.old }
        ensures sound { IsSound self.new }
        ensures quiet { (result.heard ≡ false) × (result.acknack ≡ None) × (result.begun ≡ None) }
        ensures qos { S.qos sink.new ≡ S.qos sink.old }
        ensures writers { S.writers sink.new ≡ S.writers sink.old }
        ensures moves { Moves (match_of (S.qos sink.old) source.now) (S.stands sink.old)
            (S.stands sink.new)
            (with_data number change (tracked self.old)) result.to result.passed
            (tracked self.new) }
        ensures none { result.passed ≡ [] }
    {
        let coming = arrival_of(source, number, change);
        if !sink.room(&coming) {
            self.hold(number, coming.change);
            return self.idle();
        }
        sink.come(coming).unwrap();
        self.window.pass(Sn::new(number.number() + 1));
        self.idle()
    }

    /// A change was received.
    pub fn on_data<S: Sink>(
        &mut self,
        sink: &mut S,
        source: &Source,
        number: Sn,
        change: Change,
    ) -> Result<Step, Code>
        requires sound { IsSound self.old }
        requires matched { IsAmong (S.writers sink.old) source.now.publication }
        requires small { number ≤ max_sn }
        ensures moves { IfOk result
            (λ step. Moves (match_of (S.qos sink.old) source.now) (S.stands sink.old)
            (S.stands sink.new)
            (with_data number change (tracked self.old)) step.to step.passed (tracked self.new)) }
        ensures quiet { IfOk result
            (λ step. (step.heard ≡ false) × (step.acknack ≡ None) × (step.begun ≡ None)) }
        ensures few { IfOk result (λ step. length step.passed ≤ 257) }
        ensures keeps { ProxyKeepsRest S.stands S.qos S.writers S.spare
            self.old self.new sink.old sink.new result }
    {
        self.reserve(sink)?;
        if self.is_next(number) {
            return Ok(self.take_next(sink, source, number, change));
        }
        self.hold(number, change);
        Ok(self.moved(sink, source))
    }

    /// Nothing was done.
    pub fn idle(&self) -> Step
        ensures { IsIdle (tracked self.now).place result }
    {
        Step {
            to: self.window.place(),
            passed: Sequence::from_vec(Vec::new(self.alloc)),
            begun: None,
            heard: false,
            acknack: None,
        }
    }

    /// Moves the place up to a number, whatever is known of those below, and lets go of the changes that are held
    /// there.
    pub fn jump(&mut self, to: Sn)
        requires sound { IsSound self.old }
        requires forward { window_place self.old.window ≤ to }
        requires small { to ≤ max_sn + window_width }
        ensures sound { IsSound self.new }
        ensures place { window_place self.new.window ≡ to }
        ensures stays { Stays (tracked self.old) (tracked self.new) }
        ensures held { count_held self.new.held ≤ count_held self.old.held }
        ensures places { HasPlaces self.old.held → HasPlaces self.new.held }
        ensures runs { self.new.runs ≡ self.old.runs }
    {
        forget_below(&mut self.held, self.window.place().number(), to.number());
        self.window.pass(to);
    }

    /// A change comes over all numbers before its own, which are entered as a run.
    pub fn come_over<S: Sink>(&mut self, sink: &mut S, source: &Source, arrival: Arrival) -> Step
        requires sound { IsSound self.old }
        requires matched { IsAmong (S.writers sink.old) source.now.publication }
        requires forward { window_place self.old.window ≤ arrival.number }
        requires small { arrival.number ≤ max_sn }
        requires writer { arrival.writer ≡ source.now.publication }
        requires moment { arrival.moment ≡ source.now.moment }
        requires runs { 1 ≤ vec_capacity self.old.runs }
        requires spare { 2 ≤ S.spare sink.old }
        ensures sound { IsSound self.new }
        ensures quiet { (result.heard ≡ false) × (result.acknack ≡ None) × (result.begun ≡ None) }
        ensures qos { S.qos sink.new ≡ S.qos sink.old }
        ensures writers { S.writers sink.new ≡ S.writers sink.old }
        ensures moved { HasMoved (match_of (S.qos sink.old) source.now) (S.stands sink.old)
            (S.stands sink.new)
            (tracked self.old) arrival.number arrival.change result.to result.passed
            (tracked self.new) }
        ensures few { length result.passed ≤ 1 }
    {
        let mut runs = mem::replace(&mut self.runs, Vec::new(self.alloc));
        runs.clear();
        let place = self.window.place().number();
        let number = arrival.number.number();
        note_run(sink, source, place, number, &mut runs);
        sink.come(arrival).unwrap();
        self.jump(Sn::new(number + 1));
        let passed = passed_of(self.alloc, runs, &mut self.runs);
        Step {
            to: self.window.place(),
            passed,
            begun: None,
            heard: false,
            acknack: None,
        }
    }

    /// A change was received, at a best-effort reader.
    pub fn on_best_effort_data<S: Sink>(
        &mut self,
        sink: &mut S,
        source: &Source,
        number: Sn,
        change: Change,
    ) -> Result<Step, Code>
        requires sound { IsSound self.old }
        requires matched { IsAmong (S.writers sink.old) source.now.publication }
        requires small { number ≤ max_sn }
        ensures jumps { IfOk result
            (λ step. JumpMoves (match_of (S.qos sink.old) source.now) (S.stands sink.old)
            (S.stands sink.new)
            (tracked self.old) number change step.to step.passed (tracked self.new)) }
        ensures quiet { IfOk result
            (λ step. (step.heard ≡ false) × (step.acknack ≡ None) × (step.begun ≡ None)) }
        ensures few { IfOk result (λ step. length step.passed ≤ 1) }
        ensures keeps { ProxyKeepsRest S.stands S.qos S.writers S.spare
            self.old self.new sink.old sink.new result }
    {
        self.reserve(sink)?;
        if number.number() < self.window.place().number() {
            return Ok(self.idle());
        }
        let coming = arrival_of(source, number, change);
        if !sink.room(&coming) {
            return Ok(self.idle());
        }
        Ok(self.come_over(sink, source, coming))
    }

    /// A GAP was received.
    pub fn on_gap<S: Sink>(
        &mut self,
        sink: &mut S,
        source: &Source,
        start: Sn,
        list: &SnSet,
    ) -> Result<Step, Code>
        requires sound { IsSound self.old }
        requires matched { IsAmong (S.writers sink.old) source.now.publication }
        requires small { list.now.base ≤ max_sn }
        ensures moves { IfOk result
            (λ step. Moves (match_of (S.qos sink.old) source.now) (S.stands sink.old)
            (S.stands sink.new)
            (with_gap start list.now (tracked self.old)) step.to step.passed (tracked self.new)) }
        ensures quiet { IfOk result
            (λ step. (step.heard ≡ false) × (step.acknack ≡ None) × (step.begun ≡ None)) }
        ensures few { IfOk result (λ step. length step.passed ≤ 257) }
        ensures keeps { ProxyKeepsRest S.stands S.qos S.writers S.spare
            self.old self.new sink.old sink.new result }
    {
        self.reserve(sink)?;
        self.make_irrelevant(start, list);
        Ok(self.moved(sink, source))
    }

    /// The place is tried again.
    pub fn resume<S: Sink>(&mut self, sink: &mut S, source: &Source) -> Result<Step, Code>
        requires sound { IsSound self.old }
        requires matched { IsAmong (S.writers sink.old) source.now.publication }
        ensures moves { IfOk result
            (λ step. Moves (match_of (S.qos sink.old) source.now) (S.stands sink.old)
            (S.stands sink.new)
            (tracked self.old) step.to step.passed (tracked self.new)) }
        ensures quiet { IfOk result
            (λ step. (step.heard ≡ false) × (step.acknack ≡ None) × (step.begun ≡ None)) }
        ensures few { IfOk result (λ step. length step.passed ≤ 257) }
        ensures keeps { ProxyKeepsRest S.stands S.qos S.writers S.spare
            self.old self.new sink.old sink.new result }
    {
        self.reserve(sink)?;
        Ok(self.moved(sink, source))
    }

    /// A HEARTBEAT was received.
    pub fn on_heartbeat<S: Sink>(
        &mut self,
        sink: &mut S,
        source: &Source,
        heartbeat: &HeartbeatSeen,
    ) -> Result<Step, Code>
        requires sound { IsSound self.old }
        requires matched { IsAmong (S.writers sink.old) source.now.publication }
        requires small { heartbeat.now.first ≤ max_sn }
        ensures moves { IfOk result
            (λ step. HeartbeatMoves (match_of (S.qos sink.old) source.now) (S.stands sink.old)
            (S.stands sink.new) (tracked self.old) heartbeat.now step (tracked self.new)) }
        ensures begun { IfOk result (λ step. step.begun ≡ None) }
        ensures repeated { is_later self.old.count heartbeat.now.count ≡ false
            → (self.new ≡ self.old)
            × (sink.new ≡ sink.old) × IsOk result
            × IfOk result (λ step. IsIdle (tracked self.old).place step) }
        ensures few { IfOk result (λ step. length step.passed ≤ 257) }
        ensures keeps { ProxyKeepsRest S.stands S.qos S.writers S.spare
            self.old self.new sink.old sink.new result }
    {
        if !is_later(self.count, heartbeat.count) {
            return Ok(self.idle());
        }
        self.reserve(sink)?;
        self.accept(heartbeat);
        hear_if(sink, source, heartbeat.liveliness);
        let mut step = self.moved(sink, source);
        step.heard = heartbeat.liveliness;
        step.acknack = self.acknowledge(heartbeat.last, heartbeat.is_final);
        Ok(step)
    }
}
