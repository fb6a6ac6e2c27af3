//! What a listener is told, and what it keeps.

use crate::tests::listeners::push_recorder;
use crate::tests::rows::{Subject, Words, expect_rows, number_of, show, words_of};
use bitflags::Flags;
use dds_base::{
    Endpoint, Entity, Handle, LivelinessChangedStatus, LivelinessLostStatus, MatchedStatus,
    SampleLostStatus,
};
use dds_notices::{Listener, Notice, Recorder, Status, StatusMask};
use std::alloc::Global;

/// `names` has a mask's number and a status.
const MASKS: &str = "\
# Each status has the bit of the standard's table, and no other.
names 128 lost => true
names 1024 data => true
names 2048 livelost => true
names 4096 changed => true
names 8192 publication => true
names 16384 subscription => true
names 65407 lost => false
names 64511 data => false
names 63487 livelost => false
names 61439 changed => false
names 57343 publication => false
names 49151 subscription => false

# Of several statuses each is named, and bits without a meaning name nothing.
names 5120 data => true
names 5120 changed => true
names 5120 lost => false
names 24576 subscription => true
names 61311 changed => false
names 0 data => false
";

/// `open` has a room: the room, or the code.
const ROOMS: &str = "\
# A recorder has room for 1 to 65,536 notices.
open 0 => BAD_PARAMETER
open 1 => 1
open 65536 => 65536
open 65537 => BAD_PARAMETER
";

/// A status is told of reader 1, or of writer 1: the oldest notice that is kept then. `held` has a place, from 0 on.
const TOLD: &str = "\
# A listener with room for two keeps the last two.
room => 2
fresh => true
held 0 => None
data => Some(Notice { entity: Reader(1), status: DataAvailable })
fresh => false
lost 3 => Some(Notice { entity: Reader(1), status: DataAvailable })
held 1 => Some(Notice { entity: Reader(1), status: SampleLost(SampleLostStatus { total_count: 3, total_count_change: 3 }) })
held 2 => None
livelost 1 => Some(Notice { entity: Reader(1), status: SampleLost(SampleLostStatus { total_count: 3, total_count_change: 3 }) })
held 1 => Some(Notice { entity: Writer(1), status: LivelinessLost(LivelinessLostStatus { total_count: 1, total_count_change: 1 }) })
held 2 => None
publication 2 => Some(Notice { entity: Writer(1), status: LivelinessLost(LivelinessLostStatus { total_count: 1, total_count_change: 1 }) })
held 1 => Some(Notice { entity: Writer(1), status: PublicationMatched(MatchedStatus { total_count: 2, total_count_change: 2, current_count: 1, current_count_change: -1, last: Some(Endpoint { peer: 2, number: 1 }) }) })
room => 2
fresh => false
";

/// So many matches, of which the last one has ended.
fn matches(count: u64) -> MatchedStatus {
    MatchedStatus {
        total_count: count,
        total_count_change: count,
        current_count: 1,
        current_count_change: -1,
        last: Some(Endpoint { peer: 2, number: 1 }),
    }
}

pub fn status_of(name: &str, count: u64) -> Status {
    match name {
        "lost" => Status::SampleLost(SampleLostStatus {
            total_count: count,
            total_count_change: count,
        }),
        "livelost" => Status::LivelinessLost(LivelinessLostStatus {
            total_count: count,
            total_count_change: count,
        }),
        "changed" => Status::LivelinessChanged(LivelinessChangedStatus {
            alive_count: 1,
            not_alive_count: 0,
            alive_count_change: 1,
            not_alive_count_change: 0,
            last_publication_handle: Handle::new(1),
        }),
        "publication" => Status::PublicationMatched(matches(count)),
        "subscription" => Status::SubscriptionMatched(matches(count)),
        _ => Status::DataAvailable,
    }
}

fn notice_of(name: &str, count: u64) -> Notice {
    Notice {
        entity: match name {
            "livelost" | "publication" => Entity::Writer(1),
            _ => Entity::Reader(1),
        },
        status: status_of(name, count),
    }
}

fn names(words: Words<'_>) -> bool {
    let mask = StatusMask::from_bits_retain(words.first.parse().unwrap_or(0));
    mask.names(&status_of(words.second, 1))
}

/// Masks, and recorders that are opened and let go of: nothing is held between two rows.
#[derive(Drop)]
struct Values;

impl Subject for Values {
    fn answer(&mut self, alloc: Global, text: &mut String, name: &str, operands: &str) {
        if name == "names" {
            show(text, &names(words_of(operands)));
            return;
        }
        match Recorder::open(alloc, number_of(operands) as usize) {
            Ok(recorder) => show(text, &recorder.room()),
            Err(code) => {
                let _ = write!(text, "{code}");
            }
        }
    }
}

/// A listener of any type.
#[derive(Drop)]
struct Told<L> {
    listener: L,
}

impl<L: Listener> Subject for Told<L> {
    fn answer(&mut self, _: Global, text: &mut String, name: &str, operands: &str) {
        let number = number_of(operands);
        match name {
            "room" => show(text, &self.listener.room()),
            "fresh" => show(text, &self.listener.is_fresh()),
            "held" => show(text, &self.listener.held(number as usize)),
            _ => {
                self.listener.on_notice(&notice_of(name, number));
                show(text, &self.listener.held(0));
            }
        }
    }
}

#[test]
fn masks_name_statuses_and_recorders_have_a_room(rt: HostRuntime) {
    expect_rows(&rt, rt.alloc(), &mut Values, MASKS);
    expect_rows(&rt, rt.alloc(), &mut Values, ROOMS);
}

#[test]
fn a_recorder_keeps_the_last_notices(rt: HostRuntime) {
    let opened = Recorder::open(rt.alloc(), 2);
    assert!(rt; opened.is_ok(), "no memory");
    if let Ok(listener) = opened {
        expect_rows(&rt, rt.alloc(), &mut Told { listener }, TOLD);
    }
}

#[test]
fn a_boxed_recorder_keeps_them_too(rt: HostRuntime) {
    let mut boxes = Vec::new(rt.alloc());
    push_recorder(rt.alloc(), &mut boxes, 2);
    assert!(rt; boxes.len() == 1, "no memory");
    if let Some(listener) = boxes.pop() {
        expect_rows(&rt, rt.alloc(), &mut Told { listener }, TOLD);
    }
}
