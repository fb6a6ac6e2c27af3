//! A writer with its matched reliable readers.

use crate::tests::rows::{Subject, Words, expect_rows, number_of, octets_of, show, words_of};
use dds_base::{Change, ChangeKind, Code, HistoryQos, Key, Moment, Octets, Sn};
use rtps_sets::SnSet;
use rtps_writer::StatefulWriter;
use std::alloc::Global;

/// `open` begins anew, for two matched readers, with a depth or `all`, with the most that may be kept or `any`, perhaps
/// with a lease or `endless`, and of exclusive ownership perhaps with a strength. `strength` is what its changes carry,
/// `set_strength` has another one. `write`, `unregister` and `refusal` have the key and the value of a change,
/// `registered` and `register` a key. `get` has a number: whether it is kept. `behind` has a reader.
/// `tick` and `assert` may have a moment: the HEARTBEAT that is due. `lost` is LIVELINESS_LOST. `acknack` has a reader,
/// the base and the count, and perhaps the number of a member and one of those after it.
const WRITERS: &str = "\
# A change is awaited by both readers, until each has acknowledged it.
open all 2 => 0
tick => None
register 9 => Ok(())
registered 9 => true
registered 1 => false
write 1 01 => Ok(Sn { number: 1 })
registered 1 => true
write 1 02 => Ok(Sn { number: 2 })
refusal 1 03 => Some(Timeout)
write 1 03 => Err(Timeout)
tick => Some(HeartbeatDue { first: Sn { number: 1 }, last: Sn { number: 2 }, count: 1 })
behind 0 => true
acknack 0 3 1 => Ok(Answered { acknowledged: Some(Sn { number: 3 }), answers: [] })
behind 0 => false
behind 1 => true
get 1 => true
tick => Some(HeartbeatDue { first: Sn { number: 1 }, last: Sn { number: 2 }, count: 2 })

# What is kept is sent again, once for each new count.
acknack 1 1 1 1 2 => Ok(Answered { acknowledged: None, answers: [Data(Sn { number: 1 }), Data(Sn { number: 2 })] })
acknack 1 1 1 1 2 => Ok(Answered { acknowledged: None, answers: [] })
acknack 1 4 2 4 => Ok(Answered { acknowledged: None, answers: [] })
acknack 1 2 2 2 => Ok(Answered { acknowledged: Some(Sn { number: 2 }), answers: [Data(Sn { number: 2 })] })
get 1 => false
write 1 03 => Ok(Sn { number: 3 })
tick => Some(HeartbeatDue { first: Sn { number: 2 }, last: Sn { number: 3 }, count: 3 })
unregister 1 00 => Err(Timeout)
acknack 1 4 3 => Ok(Answered { acknowledged: Some(Sn { number: 4 }), answers: [] })
get 3 => true
acknack 0 4 2 => Ok(Answered { acknowledged: Some(Sn { number: 4 }), answers: [] })
get 3 => false
tick => None
unregister 1 00 => Ok(Sn { number: 4 })
registered 1 => false

# A dropped change is irrelevant: one GAP for a run of them.
open 1 any => 0
write 1 01 => Ok(Sn { number: 1 })
write 1 02 => Ok(Sn { number: 2 })
write 2 03 => Ok(Sn { number: 3 })
write 1 04 => Ok(Sn { number: 4 })
acknack 0 1 1 1 2 => Ok(Answered { acknowledged: None, answers: [Gap { first: Sn { number: 1 }, last: Sn { number: 2 } }] })
acknack 0 1 2 1 4 => Ok(Answered { acknowledged: None, answers: [Gap { first: Sn { number: 1 }, last: Sn { number: 1 } }, Data(Sn { number: 4 })] })
get 2 => false
get 3 => true
last => 4

# A writer is lost once its lease has passed since it was asserted, and each loss is told once. A write asserts it at moment 0.
open all any 10 => 0
tick 100 => None
lost => LivelinessLostStatus { total_count: 0, total_count_change: 0 }
assert 2 => Ok(Some(HeartbeatDue { first: Sn { number: 1 }, last: Sn { number: 0 }, count: 1 }))
tick 11 => None
lost => LivelinessLostStatus { total_count: 0, total_count_change: 0 }
tick 12 => None
tick 13 => None
lost => LivelinessLostStatus { total_count: 1, total_count_change: 1 }
lost => LivelinessLostStatus { total_count: 1, total_count_change: 0 }
write 1 01 => Ok(Sn { number: 1 })
tick 10 => Some(HeartbeatDue { first: Sn { number: 1 }, last: Sn { number: 1 }, count: 2 })
lost => LivelinessLostStatus { total_count: 2, total_count_change: 1 }

# A strength is set at a writer of exclusive ownership alone, and asserts nothing.
open all any 10 => 0
strength => None
set_strength 5 => Err(PreconditionNotMet)
strength => None
open all any 10 -5 => 0
strength => Some(-5)
write 1 01 => Ok(Sn { number: 1 })
set_strength 7 => Ok(())
set_strength -2147483648 => Ok(())
strength => Some(-2147483648)
tick 10 => Some(HeartbeatDue { first: Sn { number: 1 }, last: Sn { number: 1 }, count: 1 })
lost => LivelinessLostStatus { total_count: 1, total_count_change: 1 }
";

fn open(alloc: Global, words: Words<'_>) -> Result<StatefulWriter, Code> {
    let policy = match words.first.parse() {
        Ok(depth) => HistoryQos::KeepLast(depth),
        Err(_) => HistoryQos::KeepAll,
    };
    StatefulWriter::open(
        alloc,
        policy,
        words.second.parse().ok(),
        words.third.parse().ok(),
        words.fourth.parse().ok(),
        2,
    )
}

fn key_of(word: &str) -> Key {
    let key = word.parse().unwrap_or(0);
    Key([0, 0, 0, 0, 0, 0, 0, 0, 0, 0, 0, 0, 0, 0, 0, key])
}

fn change_of(alloc: Global, kind: ChangeKind, words: Words<'_>) -> Change {
    Change {
        kind,
        key: key_of(words.first),
        value: Octets::from_vec(octets_of(alloc, words.second)),
        source_timestamp: Moment::new(0),
        strength: None,
    }
}

fn push_behind(text: &mut String, writer: &StatefulWriter, reader: usize) {
    if reader < writer.readers() {
        show(text, &writer.is_behind(reader));
    }
}

/// Makes the number that the word spells a member, if it is one of the 256 from the base on.
fn insert(set: &mut SnSet, word: &str) {
    let (base, number) = (set.base().number(), number_of(word));
    if base <= number && number - base < 256 {
        set.insert(Sn::new(number));
    }
}

fn push_acknack(text: &mut String, writer: &mut StatefulWriter, operands: &str) {
    let mut words = operands.split(' ');
    let reader = words.next().unwrap_or("").parse().unwrap_or(0);
    let base = Sn::new(number_of(words.next().unwrap_or("")));
    let count = words.next().unwrap_or("").parse().unwrap_or(0);
    let mut set = SnSet::new(base);
    insert(&mut set, words.next().unwrap_or(""));
    insert(&mut set, words.next().unwrap_or(""));
    if reader < writer.readers() {
        show(text, &writer.on_acknack(reader, base, &set, count));
    }
}

fn begin(alloc: Global, text: &mut String, writer: &mut StatefulWriter, words: Words<'_>) {
    if let Ok(opened) = open(alloc, words) {
        *writer = opened;
        show(text, &writer.last().number());
    }
}

fn push_written(
    alloc: Global,
    text: &mut String,
    writer: &mut StatefulWriter,
    kind: ChangeKind,
    words: Words<'_>,
) {
    show(text, &writer.write(change_of(alloc, kind, words)));
}

fn push_refusal(alloc: Global, text: &mut String, writer: &StatefulWriter, words: Words<'_>) {
    let change = change_of(alloc, ChangeKind::Write, words);
    show(text, &writer.refusal(&change));
}

/// Appends what a writer answers that stays as it is.
fn push_look(text: &mut String, writer: &StatefulWriter, name: &str, word: &str) {
    match name {
        "last" => show(text, &writer.last().number()),
        "registered" => show(text, &writer.is_registered(key_of(word))),
        "get" => show(text, &writer.get(Sn::new(number_of(word))).is_some()),
        "behind" => push_behind(text, writer, word.parse().unwrap_or(0)),
        "strength" => show(text, &writer.strength()),
        _ => {}
    }
}

/// Appends what comes of a call that has one word.
fn push_call(text: &mut String, writer: &mut StatefulWriter, name: &str, word: &str) {
    match name {
        "register" => show(text, &writer.register(key_of(word))),
        "tick" => show(text, &writer.tick(Moment::new(number_of(word)))),
        "assert" => show(text, &writer.assert(true, Moment::new(number_of(word)))),
        "lost" => show(text, &writer.liveliness_lost()),
        "set_strength" => show(text, &writer.set_strength(word.parse().unwrap_or(0))),
        _ => push_look(text, writer, name, word),
    }
}

impl Subject for StatefulWriter {
    fn answer(&mut self, alloc: Global, text: &mut String, name: &str, operands: &str) {
        let words = words_of(operands);
        match name {
            "open" => begin(alloc, text, self, words),
            "write" => push_written(alloc, text, self, ChangeKind::Write, words),
            "unregister" => push_written(alloc, text, self, ChangeKind::Unregister, words),
            "refusal" => push_refusal(alloc, text, self, words),
            "acknack" => push_acknack(text, self, operands),
            _ => push_call(text, self, name, words.first),
        }
    }
}

#[test]
fn writers_send_what_is_asked_for(rt: HostRuntime) {
    let opened = StatefulWriter::open(rt.alloc(), HistoryQos::KeepAll, None, None, None, 2);
    assert!(rt; opened.is_ok(), "no memory");
    if let Ok(mut writer) = opened {
        expect_rows(&rt, rt.alloc(), &mut writer, WRITERS);
    }
}
