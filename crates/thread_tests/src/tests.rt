//! One peer, which two threads share, and peers whose workers exchange packets.

mod apart;
mod flat;
mod fronts;
mod meeting;
mod memory_link;
mod pairs;
mod peer;
mod recorded;
mod recording;
mod rows;
mod scene;
mod threads;

use self::fronts::{are_seen, comes_behind};
use self::peer::Peer;
use self::rows::run_rows;
use self::threads::{TAKE_TURNS, WAIT_FOR_ANOTHER, run_both};
use dds_base::Code;
use std::alloc::Global;
use std::process::Abort;
use std::sync::Wait;
use std::thread::Threads;

// What one pass does alone.
const ALONE: &str = "\
querycond r1 65535 65535 65535 1
send write w1 0 02ff
trigger 1 => false
send write w1 0 01ff
trigger 1 => true
guard
waitset
attach 1 2
setguard 2 1
wait 0 => active 2
setguard 2 0
wait 0 => code 10";

// What holds of the values is not handed on, so that whoever takes them goes by their type alone.
fn with_one_more<T: Drop>(mut values: Vec<T>, value: T) -> Result<Vec<T>, Code> {
    values.push(value)?;
    Ok(values)
}

// What two passes do in one thread.
fn use_alone<S: Peer<P>, P, R: Wait + Abort>(
    rt: &R,
    alloc: Global,
    shared: &S,
    first: &mut P,
    second: &mut P,
) -> Result<(), Code> {
    assert!(rt; are_seen(rt, alloc, shared, first, second)?);
    assert!(rt; comes_behind(rt, alloc, shared, first, second)?);
    run_rows(rt, alloc, shared, first, ALONE)
}

// A pass is split, and both are used.
fn split_and_use<S: Peer<P>, P: Drop, R: Wait + Abort>(
    rt: &R,
    alloc: Global,
    shared: &S,
    first: &mut P,
) -> Result<P, Code> {
    let mut second = shared.split(rt, first)?;
    use_alone(rt, alloc, shared, first, &mut second)?;
    Ok(second)
}

// What is done with a shared peer, recorded or flat, from its first pass to those of its two threads.
fn use_peer<S: Peer<P> + Sync, P: Drop + Send, R: Threads + Wait + Abort + Sync>(
    rt: &R,
    alloc: Global,
    shared: &S,
    mut first: P,
) -> Result<(P, P), Code> {
    let second = split_and_use(rt, alloc, shared, &mut first)?;
    let passes = run_both(rt, alloc, shared, (first, second), WAIT_FOR_ANOTHER)?;
    run_both(rt, alloc, shared, passes, TAKE_TURNS)
}
