//! Peers and the network between them.

mod listeners;
mod meeting;
mod scripts;

use crate::tests::conditions::OfLength;
use crate::tests::listeners::Latest;
use crate::tests::rows::{Subject, Words, expect_rows, number_of, show, words_of};
use crate::tests::setup::config_of;
use dds_base::Moment;
use dds_conditions::Filter;
use dds_notices::Listener;
use dds_script::{Side, TranscriptLine, call_of, words_of as all_words_of};
use dds_world::{Call, Endpoint, Reply, Round, World as WorldOf, WorldEvent};
use meeting::meeting_of;
use scripts::SCRIPTS;
use std::alloc::Global;
use std::mem::replace;

/// A network with filters and listeners of an application's own.
type World = WorldOf<OfLength, Latest>;

/// A first peer with a writer and a second one with a reader, which keep all.
const TWO_PEERS: &str = "peer 1 | writer 1 2 all | peer 2 | reader 1 7 all";

/// Those peers at their opening.
fn open<F: Filter, L: Listener>(alloc: Global, parts: &str) -> Option<WorldOf<F, L>> {
    let config = config_of(alloc, parts)?;
    WorldOf::open(alloc, &config).ok()
}

fn delivery(peer: &str, packet: &str) -> WorldEvent {
    WorldEvent::Deliver {
        peer: peer.parse().unwrap_or(0),
        packet: number_of(packet),
    }
}

fn tick(peer: &str, now: &str) -> WorldEvent {
    WorldEvent::Tick {
        peer: peer.parse().unwrap_or(0),
        now: Moment::new(number_of(now)),
    }
}

fn call_in(alloc: Global, words: &[&str]) -> Option<Call> {
    match words {
        ["meet", words @ ..] => meeting_of(words),
        words => call_of(alloc, words).ok()?,
    }
}

fn call(alloc: Global, peer: &str, words: &[&str]) -> Option<WorldEvent> {
    Some(WorldEvent::Call {
        peer: peer.parse().unwrap_or(0),
        call: call_in(alloc, words)?,
    })
}

/// The event of a line, by its first word and those after it.
fn event_of(alloc: Global, first: &str, operands: &str) -> Option<WorldEvent> {
    let Ok(words) = all_words_of(alloc, operands) else {
        return None;
    };
    match words.as_slice() {
        [peer, packet] if first == "deliver" => Some(delivery(peer, packet)),
        ["tick", now] => Some(tick(first, now)),
        words => call(alloc, first, words),
    }
}

fn push_filter<F: Filter, L: Listener>(
    text: &mut String,
    world: &mut WorldOf<F, L>,
    peer: u32,
    filter: F,
) {
    let added = match world.add_filter(peer, filter) {
        Ok(number) => Ok(number),
        Err((code, _)) => Err(code),
    };
    show(text, &added);
}

fn endpoint_of(peer: &str, number: &str) -> Endpoint {
    Endpoint {
        peer: peer.parse().unwrap_or(0),
        number: number.parse().unwrap_or(0),
    }
}

fn push_place(text: &mut String, world: &World, words: Words<'_>) {
    let reader = endpoint_of(words.first, words.second);
    let writer = endpoint_of(words.third, words.fourth);
    show(text, &world.place(reader, writer));
}

fn push_answer(text: &mut String, round: &Round) {
    let replies = round.replies.as_slice().len();
    let (was_behind, unsent) = (round.was_behind, round.unsent_before);
    let (from, to) = (round.from.number(), round.to.number());
    let last = round.last.number();
    let has_caught_up = round.has_caught_up();
    let _ = write!(text, "replies {replies}, was_behind {was_behind}, ");
    let _ = write!(text, "unsent_before {unsent}, last {last}, ");
    let _ = write!(text, "from {from} to {to}, has_caught_up {has_caught_up}");
}

fn push_round(text: &mut String, world: &mut World, words: Words<'_>) {
    let writer = endpoint_of(words.first, words.second);
    let reader = endpoint_of(words.third, words.fourth);
    match world.round(writer, reader) {
        Ok(round) => push_answer(text, &round),
        Err(code) => show(text, &code),
    }
}

fn push_reply(alloc: Global, text: &mut String, reply: &Reply) {
    let mut line = TranscriptLine::new(alloc);
    line.push_reply(Side::Reader, reply);
    if let Ok(line) = line.finish() {
        let _ = write!(text, "[{}]", line.trim_end());
    }
}

/// A network, and the events that are to be run.
#[derive(Drop)]
struct Network {
    world: World,
    events: Vec<WorldEvent>,
}

impl Network {
    fn begin(&mut self, alloc: Global, text: &mut String, parts: &str) {
        if let Some(world) = open(alloc, parts) {
            self.world = world;
            self.events.clear();
            let _ = text.push_str("opened");
        }
    }

    fn add(&mut self, alloc: Global, text: &mut String, first: &str, operands: &str) {
        match event_of(alloc, first, operands) {
            Some(event) => {
                let _ = self.events.push(event);
            }
            None => {
                let _ = text.push_str("no event");
            }
        }
    }

    fn run(&mut self, alloc: Global, text: &mut String) {
        let events = replace(&mut self.events, Vec::new(alloc));
        if let Ok(replies) = self.world.run(events) {
            for reply in replies.as_slice() {
                push_reply(alloc, text, reply);
            }
        }
    }

    fn add_filter(&mut self, text: &mut String, words: Words<'_>) {
        let octets = words.second.parse().unwrap_or(0);
        let peer = words.first.parse().unwrap_or(0);
        push_filter(text, &mut self.world, peer, OfLength { octets });
    }
}

impl Subject for Network {
    fn answer(&mut self, alloc: Global, text: &mut String, name: &str, operands: &str) {
        match name {
            "open" => self.begin(alloc, text, operands),
            "run" => self.run(alloc, text),
            "filter" => self.add_filter(text, words_of(operands)),
            "sent" => show(text, &(self.world.sent(), self.world.unsent())),
            "packet" => show(text, &self.world.packet(number_of(operands))),
            "place" => push_place(text, &self.world, words_of(operands)),
            "round" => push_round(text, &mut self.world, words_of(operands)),
            first => self.add(alloc, text, first, operands),
        }
    }
}

#[test]
fn one_run_answers_as_the_events_of_a_script(rt: HostRuntime) {
    let alloc = rt.alloc();
    let Some(world) = open(alloc, TWO_PEERS) else {
        panic!(rt; "no network");
    };
    let events = Vec::new(alloc);
    let mut network = Network { world, events };
    expect_rows(&rt, alloc, &mut network, SCRIPTS);
}

#[test]
fn a_network_takes_boxed_filters(rt: HostRuntime) {
    let alloc = rt.alloc();
    let Some(mut world) = open::<Box<dyn Filter + Send>, Box<dyn Listener + Send>>(alloc, TWO_PEERS)
    else {
        panic!(rt; "no network");
    };
    for (peer, wanted) in [
        (2, "Ok(1)"),
        (2, "Ok(2)"),
        (1, "Ok(1)"),
        (3, "Err(BadParameter)"),
    ] {
        let boxed = Box::new(alloc, OfLength { octets: 2 });
        assert!(rt; boxed.is_ok(), "no memory");
        if let Ok(own) = boxed {
            let filter: Box<dyn Filter + Send> = own;
            let mut text = String::new(alloc);
            push_filter(&mut text, &mut world, peer, filter);
            assert!(rt; text.as_str() == wanted, "{text}");
        }
    }
}
