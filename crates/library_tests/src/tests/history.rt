//! What a writer keeps.

use crate::tests::rows::{
    Subject, Words, expect_rows, number_of, octets_of, push_hex, show, words_of,
};
use dds_base::{Change, ChangeKind, Code, HistoryQos, Key, Moment, Octets, Sn};
use dds_history::History;
use std::alloc::Global;

/// `open` begins anew, for one matched reader, with a depth or `all`, and with the most that may be kept or `any`: the
/// number of the last change, which `last` tells too. `append` and `refusal` have the key and the value of a write.
/// `get` has a number: the value of that change. `acked` has the number below which the reader has acknowledged all:
/// the first number that is kept, which `first` tells too. `kept` and `awaited` have a number.
const HISTORIES: &str = "\
# Under KEEP_ALL every change is kept.
open all any => 0
append 1 01 => Ok(Sn { number: 1 })
append 1 02 => Ok(Sn { number: 2 })
append 1 03 => Ok(Sn { number: 3 })
get 1 => 01
get 0 => none
get 4 => none

# Under KEEP_LAST a change drops the older ones of its key.
open 1 any => 0
append 1 01 => Ok(Sn { number: 1 })
append 2 02 => Ok(Sn { number: 2 })
append 1 03 => Ok(Sn { number: 3 })
get 1 => none
get 2 => 02
get 3 => 03
last => 3

# A full history refuses a change that drops none.
open 1 2 => 0
append 1 01 => Ok(Sn { number: 1 })
append 2 02 => Ok(Sn { number: 2 })
refusal 3 03 => Some(Timeout)
append 3 03 => Err(Timeout)
refusal 2 04 => None
append 2 04 => Ok(Sn { number: 3 })

# What its reader has acknowledged makes room.
open all 2 => 0
append 1 01 => Ok(Sn { number: 1 })
append 2 02 => Ok(Sn { number: 2 })
append 3 03 => Err(Timeout)
acked 2 => 2
acknowledged => 2
get 1 => none
kept 1 => false
awaited 1 => false
kept 2 => true
awaited 3 => true
append 3 03 => Ok(Sn { number: 3 })
acked 1 => 2
acked 4 => 4
first => 4
last => 3
";

fn open(alloc: Global, words: Words<'_>) -> Result<History, Code> {
    let policy = match words.first.parse() {
        Ok(depth) => HistoryQos::KeepLast(depth),
        Err(_) => HistoryQos::KeepAll,
    };
    History::open(alloc, policy, words.second.parse().ok(), 1)
}

fn write_of(alloc: Global, words: Words<'_>) -> Change {
    let key = words.first.parse().unwrap_or(0);
    Change {
        kind: ChangeKind::Write,
        key: Key([0, 0, 0, 0, 0, 0, 0, 0, 0, 0, 0, 0, 0, 0, 0, key]),
        value: Octets::from_vec(octets_of(alloc, words.second)),
        source_timestamp: Moment::new(0),
        strength: None,
    }
}

fn push_get(text: &mut String, history: &History, number: u64) {
    match history.get(Sn::new(number)) {
        Some(change) => push_hex(text, change.value.as_slice()),
        None => {
            let _ = text.push_str("none");
        }
    }
}

fn acknowledge(history: &mut History, to: u64) {
    if 0 < history.readers() {
        history.acked(0, Sn::new(to));
    }
}

fn push_acknowledged(text: &mut String, history: &History) {
    if 0 < history.readers() {
        show(text, &history.acknowledged(0).number());
    }
}

fn begin(alloc: Global, text: &mut String, history: &mut History, words: Words<'_>) {
    if let Ok(opened) = open(alloc, words) {
        *history = opened;
        show(text, &history.last().number());
    }
}

/// Appends what a history answers that stays as it is.
fn push_look(text: &mut String, history: &History, name: &str, number: u64) {
    match name {
        "last" => show(text, &history.last().number()),
        "first" => show(text, &history.first().number()),
        "acknowledged" => push_acknowledged(text, history),
        "kept" => show(text, &history.kept(Sn::new(number))),
        "awaited" => show(text, &history.is_awaited(Sn::new(number))),
        "get" => push_get(text, history, number),
        _ => {}
    }
}

impl Subject for History {
    fn answer(&mut self, alloc: Global, text: &mut String, name: &str, operands: &str) {
        let words = words_of(operands);
        match name {
            "open" => begin(alloc, text, self, words),
            "acked" => {
                acknowledge(self, number_of(words.first));
                show(text, &self.first().number());
            }
            "append" => show(text, &self.append(write_of(alloc, words))),
            "refusal" => show(text, &self.refusal(&write_of(alloc, words))),
            _ => push_look(text, self, name, number_of(words.first)),
        }
    }
}

#[test]
fn histories_keep_what_is_not_acknowledged(rt: HostRuntime) {
    let opened = History::open(rt.alloc(), HistoryQos::KeepAll, None, 1);
    assert!(rt; opened.is_ok(), "no memory");
    if let Ok(mut history) = opened {
        expect_rows(&rt, rt.alloc(), &mut history, HISTORIES);
    }
}
