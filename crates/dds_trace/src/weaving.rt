//! An order of the entries of several traces, in which each packet was sent before it is delivered.
//!
//! Such orders are this project's own: a network may lose, repeat and reorder packets, but it makes none up (RTPS 2.5,
//! 8.4, behaviour).

ghost use Rattle.std.specs.Prelude.{◌≡◌, ℕ, ◌+◌, ◌<◌, ◌^◌, length, slice_index, Contains, IfOk, IfErr, MatchBool, MatchOption};
ghost use Rattle.dds_trace.specs.declared.trace.Entry.{Entry};
ghost use Rattle.dds_trace.specs.Faults.{IsCause};
ghost use Rattle.dds_trace.specs.Weaving.{AllPlaced, IsBlocked, IsHonest, IsNext, MayStand, Reaches, none_placed};
ghost use Rattle.dds_trace.specs.Knowing.{HasNoPlace, HasPlace, Knows};
ghost use Rattle.dds_trace.specs.Woven.{RunsHistories};

use crate::sent_octets::SentOctets;
use crate::trace::{Entry, Trace};
use dds_base::{Code, Sequence};
use dds_protocol::Event;
use std::alloc::Global;

/// An order of the entries of several traces.
#[derive(Debug, Drop)]
pub struct Run {
    /// For each place the index, from 0, of the trace whose next entry stands there.
    pub order: Sequence<usize>,
}

/// Why the entries of several traces have no such order.
#[derive(Debug, Drop)]
pub enum WeaveFault {
    /// Some trace has more entries, and the next one of each that has more delivers a packet that no placed entry sent.
    Stuck {
        /// How many of the first entries of each trace were placed.
        placed: Sequence<usize>,
    },
    /// A growth was refused.
    Memory,
}

// Whether the entry may stand where these octets were sent.
fn may_stand(sent: &SentOctets, entry: &Entry) -> bool
    ensures { MatchBool result (MayStand (Contains sent.now) entry.now) (IsBlocked (Contains sent.now) entry.now) }
{
    match &entry.event {
        Event::Deliver(octets) => sent.contains(octets.as_slice()),
        Event::Call(_) => true,
        Event::Tick(_) => true,
        Event::Resume { .. } => true,
    }
}

// Whether the trace of this index has a next entry that may stand next.
fn has_place(traces: &[Trace], placed: &[usize], sent: &SentOctets, at: usize) -> bool
    requires within { at < length traces.now }
    requires fits { length placed.now ≡ length traces.now }
    requires knows { Knows traces.now placed.now sent.now }
    ensures { MatchBool result
        ((slice_index placed.now at + 1 < 2 ^ 64) × HasPlace traces.now placed.now at)
        (HasNoPlace traces.now placed.now at) }
{
    let trace = &traces[at];
    let count = placed[at];
    if count >= trace.len() {
        return false;
    }
    may_stand(sent, trace.entry(count))
}

// The first trace whose next entry may stand next.
fn find_next(traces: &[Trace], placed: &[usize], sent: &SentOctets) -> Option<usize>
    requires fits { length placed.now ≡ length traces.now }
    requires knows { Knows traces.now placed.now sent.now }
    ensures { MatchOption result ((t : ℕ) → HasNoPlace traces.now placed.now t)
        (λ t. (t < length traces.now) × (slice_index placed.now t + 1 < 2 ^ 64)
        × HasPlace traces.now placed.now t) }
{
    for at in 0..traces.len() {
        if has_place(traces, placed, sent, at) {
            return Some(at);
        }
    }
    None
}

// Whether a trace has an entry that is not placed.
fn has_more(traces: &[Trace], placed: &[usize]) -> bool
    requires { length placed.now ≡ length traces.now }
    ensures { MatchBool result
        ((t : ℕ) × (e : Entry) × IsNext traces.now placed.now t e)
        (AllPlaced traces.now placed.now) }
{
    for (at, trace) in traces.iter().enumerate() {
        if placed[at] < trace.len() {
            return true;
        }
    }
    false
}

// The next entries, one after the other, as long as one may stand next.
#[derive(Drop)]
struct Placed {
    // How many of the first entries of each trace are placed.
    counts: Vec<usize>,
    // The traces, in the order in which their entries are placed.
    order: Vec<usize>,
}

// Places entries until the next one of each trace is blocked, or there is none.
fn place_all(alloc: Global, traces: &[Trace]) -> Result<Placed, Code>
    ensures fits { IfOk result (λ all. length all.counts.items ≡ length traces.now) }
    ensures reaches { IfOk result
        (λ all. Reaches traces.now (none_placed traces.now) all.order.items all.counts.items) }
    ensures blocked { IfOk result (λ all. (t : ℕ) → HasNoPlace traces.now all.counts.items t) }
{
    let mut counts = Vec::from_elem(alloc, 0, traces.len())?;
    let mut order = Vec::new(alloc);
    let mut sent = SentOctets::new(alloc);
    while let Some(next) = find_next(traces, counts.as_slice(), &sent) {
        let entry = traces[next].entry(counts[next]);
        sent.add_all(entry.output.packets.as_slice())?;
        order.push(next)?;
        counts[next] += 1;
    }
    Ok(Placed { counts, order })
}

/// Orders the entries of several traces so that each packet that is delivered was sent by an earlier one. Each trace
/// keeps its own order.
///
/// Where the traces are what different peers of one configuration did, which met nobody that it has not, this order of
/// it all is one run: they could have done it one after the other. Packets are told by their octets. The time grows with
/// the entries, with the octets of their packets, and with the number of traces.
///
/// # Errors
///
/// `Stuck` where there is no such order, and `Memory` where a growth was refused.
pub fn weave(alloc: Global, traces: &[Trace]) -> Result<Run, WeaveFault>
    // All entries stand in it, and each packet that is delivered was sent by an earlier one.
    ensures honest { IfOk result (λ run. IsHonest traces.now run.order) }
    // Where the traces are histories of different peers from an opening, it is a run of the machine from there.
    ensures runs { IfOk result (λ run. RunsHistories traces.now run.order) }
    // Where it is stuck no order of all entries is such.
    ensures fault { IfErr result (IsCause traces.now) }
{
    let Ok(all) = place_all(alloc, traces) else {
        return Err(WeaveFault::Memory);
    };
    let Placed { counts, order } = all;
    if has_more(traces, counts.as_slice()) {
        return Err(WeaveFault::Stuck {
            placed: Sequence::from_vec(counts),
        });
    }
    Ok(Run {
        order: Sequence::from_vec(order),
    })
}
