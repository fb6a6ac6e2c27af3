//! A writer's history.

use dds_base::{Change, ChangeKind, HistoryQos, Key, Moment, Octets};
use dds_history::History;
use std::alloc::Global;

fn change(alloc: Global) -> Change {
    Change {
        kind: ChangeKind::Write,
        key: Key([0; 16]),
        value: Octets::from_vec(Vec::new(alloc)),
        source_timestamp: Moment::new(0),
        strength: None,
    }
}

/// How many of so many changes were refused at first.
fn append_all(alloc: Global, history: &mut History, count: u32) -> u32 {
    let mut refused = 0u32;
    for _ in 0..count {
        if history.append(change(alloc)).is_err() {
            refused = refused.wrapping_add(1);
            let _ = history.append(change(alloc));
        }
    }
    refused
}

/// How many of ten, and of a thousand more, where so many readers acknowledge nothing.
pub fn refused(alloc: Global, readers: usize) -> (u32, u32) {
    match opened(alloc, readers) {
        Some(history) => {
            let mut history = history;
            let first = append_all(alloc, &mut history, 10);
            (first, append_all(alloc, &mut history, 1000))
        }
        None => (1, 1),
    }
}

/// A history of so many readers; at the second try, where memory was refused.
fn opened(alloc: Global, readers: usize) -> Option<History> {
    match History::open(alloc, HistoryQos::KeepLast(1), None, readers) {
        Ok(history) => Some(history),
        Err(_) => History::open(alloc, HistoryQos::KeepLast(1), None, readers).ok(),
    }
}
