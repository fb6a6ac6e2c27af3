//! The traces of peers, and an order of their entries.

use crate::tests::rows::{Subject, expect_rows, octets_of};
use dds_base::{Moment, Octets, Sequence};
use dds_machine::Reply;
use dds_protocol::{Event, Output, Packet};
use dds_trace::{Entry, Trace, WeaveFault, weave};
use std::alloc::Global;

/// `weave` has traces, between bars. In one `+61` is a tick that sends a packet of this octet, `-61` one that is
/// delivered, and `.` a tick: the traces whose next entry stands there, counted from 0, or where it is stuck, how many
/// entries of each were placed.
const WEAVES: &str = "\
# A packet is delivered after it was sent, once or more often, whichever trace stands first, or never.
weave +61 | -61 => 0 1
weave -61 | +61 => 1 0
weave +61 | -61 -61 | -61 => 0 1 1 2
weave +61 . +62 | -62 -61 => 0 0 0 1 1
weave . | . . => 0 1 1

# Packets go to and fro.
weave +61 -62 +63 | -61 +62 -63 => 0 1 1 0 0 1

# One that nobody sent, or that is sent only after it came, is not delivered.
weave | -61 => stuck 0 0
weave +61 | . -62 => stuck 1 1
weave -62 +61 | -61 +62 => stuck 0 0
weave -61 +61 => stuck 0
weave +61 -62 | . => stuck 1 1
";

fn entry_of(alloc: Global, word: &str) -> Entry {
    let mut packets = Vec::new(alloc);
    if let Some(digits) = word.strip_prefix("+") {
        let bytes = Octets::from_vec(octets_of(alloc, digits));
        let _ = packets.push(Packet { to: 1, bytes });
    }
    let event = match word.strip_prefix("-") {
        Some(digits) => Event::Deliver(Octets::from_vec(octets_of(alloc, digits))),
        None => Event::Tick(Moment::new(0)),
    };
    Entry {
        seat: 1,
        event,
        output: Output {
            reply: Reply::Done,
            packets: Sequence::from_vec(packets),
            unsent: 0,
        },
    }
}

fn trace_of(alloc: Global, words: &str) -> Trace {
    let mut trace = Trace::open(alloc, 1);
    for word in words.split(' ') {
        if !word.is_empty() {
            if let Ok(()) = trace.reserve(1) {
                trace.push(entry_of(alloc, word));
            }
        }
    }
    trace
}

fn traces_of(alloc: Global, operands: &str) -> Vec<Trace> {
    let mut traces = Vec::new(alloc);
    for words in operands.split('|') {
        let _ = traces.push(trace_of(alloc, words));
    }
    traces
}

fn push_all(text: &mut String, numbers: &[usize]) {
    for number in numbers {
        if !text.is_empty() {
            let _ = text.push(' ');
        }
        let _ = write!(text, "{number}");
    }
}

/// What weaves.
#[derive(Drop)]
struct Weaver;

impl Subject for Weaver {
    fn answer(&mut self, alloc: Global, text: &mut String, _name: &str, operands: &str) {
        let traces = traces_of(alloc, operands);
        match weave(alloc, traces.as_slice()) {
            Ok(run) => push_all(text, run.order.as_slice()),
            Err(WeaveFault::Stuck { placed }) => {
                let _ = text.push_str("stuck");
                push_all(text, placed.as_slice());
            }
            Err(WeaveFault::Memory) => {
                let _ = text.push_str("memory");
            }
        }
    }
}

#[test]
fn packets_are_sent_before_they_come(rt: HostRuntime) {
    let mut weaver = Weaver;
    expect_rows(&rt, rt.alloc(), &mut weaver, WEAVES);
}

#[test]
fn entries_are_had_by_their_index(rt: HostRuntime) {
    let trace = trace_of(rt.alloc(), "+61 . -62");
    assert!(rt; trace.len() == 3);
    let last = trace.entry(2);
    assert!(rt; last.same(&entry_of(rt.alloc(), "-62")));
    assert!(rt; !last.same(trace.entry(0)));
}
