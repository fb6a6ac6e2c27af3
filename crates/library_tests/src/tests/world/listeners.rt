//! Who is told of what happens in a network, and what is handed back.

use crate::tests::conditions::OfLength;
use crate::tests::listeners::{Latest, entity_of, push_recorder, push_set};
use crate::tests::rows::{Subject, Words, expect_rows, show, words_of};
use crate::tests::world::{TWO_PEERS, event_of, open};
use bitflags::Flags;
use dds_conditions::Filter;
use dds_notices::{Listener, StatusMask};
use dds_world::World as WorldOf;
use std::alloc::Global;

/// A first peer with a writer, and a second one with a reader. `set` names a peer, an entity there and a mask: the
/// listener that is at hand is set; `unset` names a peer and an entity. Both give what the listener keeps that is
/// handed back, or `nobody`; that one is then at hand. Where it is handed back with a code, the code stands before. An
/// event, in a script's words, gives how many packets were sent so far.
const TOLD: &str = "\
# The peer and the entity have to be there. A refused listener is handed back.
set 3 reader 1 1024 => BAD_PARAMETER
set 0 reader 1 1024 => BAD_PARAMETER
set 2 reader 2 1024 => BAD_PARAMETER
set 1 reader 1 1024 => BAD_PARAMETER
unset 1 reader 1 => BAD_PARAMETER

# The listener of the reader is told of data, and that of its participant of the writer that became alive. The other peer's is
# told of nothing.
set 1 participant 0 65535 => nobody
set 2 participant 0 65535 => nobody
set 2 reader 1 1024 => nobody
1 write w1 1 6162 => 1
deliver 2 1 => 1
unset 2 reader 1 => [Reader(1) DataAvailable]
unset 2 participant 0 => [Reader(1) LivelinessChanged(LivelinessChangedStatus { alive_count: 1, not_alive_count: 0, alive_count_change: 1, not_alive_count_change: 0, last_publication_handle: Handle { number: 1 } })]

# One that keeps notices is refused, and is handed back with them.
set 2 reader 1 1024 => PRECONDITION_NOT_MET[Reader(1) LivelinessChanged(LivelinessChangedStatus { alive_count: 1, not_alive_count: 0, alive_count_change: 1, not_alive_count_change: 0, last_publication_handle: Handle { number: 1 } })]
unset 1 participant 0
set 2 participant 0 1024 => nobody

# A packet that comes again raises nothing, and data that was told is told once.
deliver 2 1 => 1
1 write w1 1 63 => 2
deliver 2 2 => 2
deliver 2 2 => 2
unset 2 participant 0 => [Reader(1) DataAvailable]
";

/// A network, and the listeners that are at hand: the last one is set next.
#[derive(Drop)]
struct Told<F, L> {
    world: WorldOf<F, L>,
    at_hand: Vec<L>,
}

impl<F: Filter, L: Listener> Told<F, L> {
    fn set(&mut self, text: &mut String, words: Words<'_>, listener: Option<L>) {
        let peer = words.first.parse().unwrap_or(0);
        let entity = entity_of(words.second, words.third);
        let mask = StatusMask::from_bits_retain(words.fourth.parse().unwrap_or(0));
        let set = self.world.set_listener(peer, entity, mask, listener);
        push_set(text, &mut self.at_hand, set);
    }

    fn step(&mut self, alloc: Global, text: &mut String, first: &str, operands: &str) {
        if let Some(event) = event_of(alloc, first, operands) {
            let _ = self.world.step(event);
            show(text, &self.world.sent());
        }
    }
}

impl<F: Filter, L: Listener> Subject for Told<F, L> {
    fn answer(&mut self, alloc: Global, text: &mut String, name: &str, operands: &str) {
        let words = words_of(operands);
        match name {
            "set" => {
                let listener = self.at_hand.pop();
                self.set(text, words, listener);
            }
            "unset" => self.set(text, words, None),
            _ => self.step(alloc, text, name, operands),
        }
    }
}

/// Three listeners of an application's own.
fn own(alloc: Global) -> Vec<Latest> {
    let mut at_hand = Vec::new(alloc);
    for _ in 0..3 {
        let _ = at_hand.push(Latest { kept: None });
    }
    at_hand
}

/// Two recorders and a listener of an application's own, in boxes.
fn boxed(alloc: Global) -> Vec<Box<dyn Listener + Send>> {
    let mut at_hand = Vec::new(alloc);
    push_recorder(alloc, &mut at_hand, 1);
    push_recorder(alloc, &mut at_hand, 4);
    if let Ok(boxed) = Box::new(alloc, Latest { kept: None }) {
        let listener: Box<dyn Listener + Send> = boxed;
        let _ = at_hand.push(listener);
    }
    at_hand
}

#[test]
fn a_network_tells_listeners_of_an_application(rt: HostRuntime) {
    let alloc = rt.alloc();
    let Some(world) = open::<OfLength, Latest>(alloc, TWO_PEERS) else {
        panic!(rt; "no network");
    };
    let at_hand = own(alloc);
    let mut subject = Told { world, at_hand };
    expect_rows(&rt, alloc, &mut subject, TOLD);
}

#[test]
fn a_network_tells_boxed_listeners(rt: HostRuntime) {
    let alloc = rt.alloc();
    let Some(world) = open::<Box<dyn Filter + Send>, Box<dyn Listener + Send>>(alloc, TWO_PEERS)
    else {
        panic!(rt; "no network");
    };
    let at_hand = boxed(alloc);
    let mut subject = Told { world, at_hand };
    expect_rows(&rt, alloc, &mut subject, TOLD);
}
