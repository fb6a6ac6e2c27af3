//! Two threads at one peer.

use super::peer::Peer;
use super::rows::run_rows;
use dds_base::Code;
use std::alloc::Global;
use std::process::Abort;
use std::sync::Wait;
use std::thread::{Threads, join};

// One thread waits until the guard is set, up to moment 1, which does not come; the other sets it.
pub const WAIT_FOR_ANOTHER: (&str, &str) = ("wait 1 => active 2", "setguard 2 1");

// Each thread takes what it wrote.
pub const TAKE_TURNS: (&str, &str) = ("turns 1 => 25", "turns 2 => 25");

// What one thread does.
fn work<S: Peer<P>, P: Drop, R: Wait + Abort>(
    rt: &R,
    alloc: Global,
    shared: &S,
    pass: P,
    rows: &str,
) -> Result<P, Code> {
    let mut pass = pass;
    run_rows(rt, alloc, shared, &mut pass, rows)?;
    Ok(pass)
}

// Two threads share the peer, each does its rows, and each pass comes back.
pub fn run_both<S: Peer<P> + Sync, P: Drop + Send, R: Threads + Wait + Abort + Sync>(
    rt: &R,
    alloc: Global,
    shared: &S,
    passes: (P, P),
    rows: (&'static str, &'static str),
) -> Result<(P, P), Code> {
    let (first, second) = passes;
    let (first_rows, second_rows) = rows;
    let (first, second) = join(
        rt,
        move || work(rt, alloc, shared, first, first_rows),
        move || work(rt, alloc, shared, second, second_rows),
    );
    Ok((first?, second?))
}
