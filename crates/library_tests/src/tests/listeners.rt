//! Which listener is told, and what is handed back.

use crate::tests::notices::status_of;
use crate::tests::rows::{Subject, expect_rows, show, words_of};
use bitflags::Flags;
use dds_base::{Code, Entity};
use dds_notices::{Listener, Notice, Recorder, Slots, Status, StatusMask};
use std::alloc::Global;
use std::process::Abort;

/// Of a peer with one writer and two readers. An entity is `participant`, `writer` or `reader`, with its number.
///
/// `set` has an entity and a mask: the listener that is at hand is set. `unset` has an entity. Both give what the
/// listener keeps that is handed back, or `nobody`; that one is then at hand. Where it is handed back with a code, the
/// code stands before. `data`, `lost`, `changed` and `livelost` tell of an entity, and give whether a listener takes
/// that. `any` gives whether one is set. `slot` and `kept` have an entity, and give the mask and the room of its listener,
/// and what that keeps.
const SET: &str = "\
# Nobody takes anything yet.
any => false
data reader 1 => false
unset reader 1 => nobody

# The entity has to be there. A refused listener is handed back.
set reader 3 1024 => BAD_PARAMETER
set reader 0 1024 => BAD_PARAMETER
set writer 0 2048 => BAD_PARAMETER
set writer 2 2048 => BAD_PARAMETER
unset writer 2 => BAD_PARAMETER
any => false

# The entity's own listener is told of what it takes, else the participant's of what that takes.
set participant 0 5120 => nobody
any => true
set reader 1 1152 => nobody
data reader 1 => true
lost reader 1 => true
changed reader 1 => true
data reader 2 => true
lost reader 2 => false
livelost writer 1 => false

# What is set there, and what it keeps.
slot reader 1 => 1152 2
slot participant 0 => 5120 4
slot reader 2 => nobody
slot reader 3 => nobody
kept reader 1 => [Reader(1) DataAvailable][Reader(1) SampleLost(SampleLostStatus { total_count: 1, total_count_change: 1 })]
kept reader 2 => nothing
kept writer 2 => BAD_PARAMETER

# Each was told once. One that keeps notices is not set again, and is handed back as it was.
unset reader 1 => [Reader(1) DataAvailable][Reader(1) SampleLost(SampleLostStatus { total_count: 1, total_count_change: 1 })]
unset reader 1 => nobody
set reader 2 1024 => PRECONDITION_NOT_MET[Reader(1) DataAvailable][Reader(1) SampleLost(SampleLostStatus { total_count: 1, total_count_change: 1 })]
set writer 0 2048 => BAD_PARAMETER[Reader(1) DataAvailable][Reader(1) SampleLost(SampleLostStatus { total_count: 1, total_count_change: 1 })]

# Where the entity has no listener any more, the participant's is told.
data reader 1 => true
any => true
unset participant 0 => [Reader(1) LivelinessChanged(LivelinessChangedStatus { alive_count: 1, not_alive_count: 0, alive_count_change: 1, not_alive_count_change: 0, last_publication_handle: Handle { number: 1 } })][Reader(2) DataAvailable][Reader(1) DataAvailable]
data reader 1 => false
any => false
";

/// The same, where the listener that is at hand keeps the latest notice alone.
const LATEST: &str = "\
set participant 0 65535 => nobody
data reader 2 => true
lost reader 2 => true
livelost writer 1 => true
unset participant 0 => [Writer(1) LivelinessLost(LivelinessLostStatus { total_count: 1, total_count_change: 1 })]
set writer 1 2048 => PRECONDITION_NOT_MET[Writer(1) LivelinessLost(LivelinessLostStatus { total_count: 1, total_count_change: 1 })]
livelost writer 1 => false
";

/// A listener of an application's own: it keeps the latest notice.
#[derive(Drop)]
pub struct Latest {
    pub kept: Option<Notice>,
}

impl Listener for Latest {
    ghost use Rattle.std.specs.Prelude.{◌≡◌, Some};
    ghost use Rattle.library_tests.specs.Latest.{list_of};

    ghost notices = { λ l. list_of l.kept };

    ghost capacity = { λ _. 1 };

    ghost becomes = { λ l n m. m ≡ record l { kept = Some n } };

    fn room(&self) -> usize {
        1
    }

    fn is_fresh(&self) -> bool {
        self.kept.is_none()
    }

    fn held(&self, at: usize) -> Option<Notice> {
        if at == 0 { self.kept } else { None }
    }

    fn on_notice(&mut self, notice: &Notice) {
        self.kept = Some(*notice);
    }
}

/// The listeners of a peer, and those that are at hand: the last one is set next.
#[derive(Drop)]
struct Listening<L> {
    slots: Slots<L>,
    at_hand: Vec<L>,
}

/// The entity that two words name.
pub fn entity_of(kind: &str, number: &str) -> Entity {
    let number = number.parse().unwrap_or(0);
    match kind {
        "participant" => Entity::Participant,
        "writer" => Entity::Writer(number),
        _ => Entity::Reader(number),
    }
}

fn push_kept<L: Listener>(text: &mut String, listener: &L) {
    for at in 0..listener.room() {
        if let Some(Notice { entity, status }) = listener.held(at) {
            let _ = write!(text, "[{entity:?} {status:?}]");
        }
    }
}

/// What is handed back is at hand.
fn hand_back<L: Listener>(text: &mut String, at_hand: &mut Vec<L>, listener: Option<L>) {
    if let Some(listener) = listener {
        push_kept(text, &listener);
        let _ = at_hand.push(listener);
    }
}

/// Appends what comes of setting a listener. What is handed back is at hand.
pub fn push_set<L: Listener>(
    text: &mut String,
    at_hand: &mut Vec<L>,
    set: Result<Option<L>, (Code, Option<L>)>,
) {
    match set {
        Ok(None) => {
            let _ = write!(text, "nobody");
        }
        Ok(old) => hand_back(text, at_hand, old),
        Err((code, listener)) => {
            let _ = write!(text, "{code}");
            hand_back(text, at_hand, listener);
        }
    }
}

impl<L: Listener> Listening<L> {
    fn set(&mut self, text: &mut String, entity: Entity, mask: StatusMask, listener: Option<L>) {
        let set = self.slots.set(entity, mask, listener);
        push_set(text, &mut self.at_hand, set);
    }

    fn tell(&mut self, text: &mut String, entity: Entity, status: Status) {
        show(text, &self.slots.takes(entity, &status));
        self.slots.tell(&Notice { entity, status });
    }
}

impl<L: Listener> Listening<L> {
    fn push_slot(&self, text: &mut String, entity: Entity) {
        let _ = match self.slots.slot(entity) {
            Some((mask, room)) => write!(text, "{} {room}", mask.bits()),
            None => write!(text, "nobody"),
        };
    }

    fn push_notices(&self, alloc: Global, text: &mut String, entity: Entity) {
        match self.slots.notices(alloc, entity) {
            Ok(notices) if notices.is_empty() => {
                let _ = write!(text, "nothing");
            }
            Ok(notices) => {
                for Notice { entity, status } in &notices {
                    let _ = write!(text, "[{entity:?} {status:?}]");
                }
            }
            Err(code) => {
                let _ = write!(text, "{code}");
            }
        }
    }
}

impl<L: Listener> Subject for Listening<L> {
    fn answer(&mut self, alloc: Global, text: &mut String, name: &str, operands: &str) {
        let words = words_of(operands);
        let entity = entity_of(words.first, words.second);
        let mask = StatusMask::from_bits_retain(words.third.parse().unwrap_or(0));
        match name {
            "set" => {
                let listener = self.at_hand.pop();
                self.set(text, entity, mask, listener);
            }
            "unset" => self.set(text, entity, mask, None),
            "any" => show(text, &self.slots.has_listeners()),
            "slot" => self.push_slot(text, entity),
            "kept" => self.push_notices(alloc, text, entity),
            _ => self.tell(text, entity, status_of(name, 1)),
        }
    }
}

/// Tries the rows of a table at a peer with these listeners at hand.
fn expect_told<L: Listener>(rt: &impl Abort, alloc: Global, at_hand: Vec<L>, rows: &str) {
    let opened = Slots::open(alloc, 1, 2);
    assert!(rt; opened.is_ok(), "no memory");
    if let Ok(slots) = opened {
        let mut subject = Listening { slots, at_hand };
        expect_rows(rt, alloc, &mut subject, rows);
    }
}

/// Another recorder is at hand, in a box.
pub fn push_recorder(alloc: Global, at_hand: &mut Vec<Box<dyn Listener + Send>>, room: usize) {
    if let Ok(recorder) = Recorder::open(alloc, room) {
        if let Ok(boxed) = Box::new(alloc, recorder) {
            let listener: Box<dyn Listener + Send> = boxed;
            let _ = at_hand.push(listener);
        }
    }
}

#[test]
fn recorders_are_set_and_told(rt: HostRuntime) {
    let mut at_hand = Vec::new(rt.alloc());
    for room in [2, 4] {
        if let Ok(recorder) = Recorder::open(rt.alloc(), room) {
            let _ = at_hand.push(recorder);
        }
    }
    expect_told(&rt, rt.alloc(), at_hand, SET);
}

#[test]
fn boxed_listeners_are_set_and_told(rt: HostRuntime) {
    let mut at_hand = Vec::new(rt.alloc());
    push_recorder(rt.alloc(), &mut at_hand, 2);
    push_recorder(rt.alloc(), &mut at_hand, 4);
    expect_told(&rt, rt.alloc(), at_hand, SET);
}

#[test]
fn a_listener_of_an_application_is_set_and_told(rt: HostRuntime) {
    let mut at_hand = Vec::new(rt.alloc());
    let _ = at_hand.push(Latest { kept: None });
    expect_told(&rt, rt.alloc(), at_hand, LATEST);
}
