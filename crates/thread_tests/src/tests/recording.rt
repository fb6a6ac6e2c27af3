//! A recording peer, whose trace is cut.

ghost use Rattle.std.specs.Prelude.{◌≡◌};

use super::scene::{BeginsWithOne, ENTRIES, is_left, recorders_seed};
use super::threads::{TAKE_TURNS, run_both};
use super::{use_peer, with_one_more};
use dds_base::Code;
use dds_conditions::Filter;
use dds_notices::{Listener, Recorder};
use dds_shared::{Closed, FlatPass, Named, Recording, Scribe, Seed};
use std::alloc::Global;
use std::marker::Brand;
use std::process::Abort;
use std::sync::Wait;
use std::test::*;
use std::thread::Threads;

// What is left of a peer that was cut twice: how many entries each piece had, and what was closed.
#[derive(Drop)]
struct Cut<F: Filter, L: Listener> {
    pieces: (usize, usize),
    closed: Closed<F, L>,
}

// What is left where all passes and the scribe are handed in.
fn close<N: Named<F, L>, F: Filter, L: Listener>(
    shared: Recording<N, F, L>,
    passes: Vec<FlatPass<N>>,
    scribe: Scribe<N>,
) -> Result<Closed<F, L>, Code> {
    match shared.close(passes, scribe) {
        Ok(closed) => Ok(closed),
        Err(refused) => Err(refused.code),
    }
}

// How many entries the next piece has.
fn piece_of<N: Named<F, L>, F: Filter, L: Listener, R: Wait>(
    rt: &R,
    shared: &Recording<N, F, L>,
    scribe: &mut Scribe<N>,
) -> Result<usize, Code> {
    Ok(shared.cut(rt, scribe)?.len())
}

// The peer is used and cut twice: its passes, and how many entries each piece had.
fn use_and_cut<
    N: Named<F, L> + Send + Sync,
    F: Filter + Send,
    L: Listener + Send,
    R: Threads + Wait + Abort + Sync,
>(
    rt: &R,
    alloc: Global,
    shared: &Recording<N, F, L>,
    first: FlatPass<N>,
    scribe: &mut Scribe<N>,
) -> Result<(Vec<FlatPass<N>>, (usize, usize)), Code> {
    let passes = use_peer(rt, alloc, shared, first)?;
    let piece = piece_of(rt, shared, scribe)?;
    let (first, second) = run_both(rt, alloc, shared, passes, TAKE_TURNS)?;
    let next = piece_of(rt, shared, scribe)?;
    let passes = with_one_more(Vec::new(alloc), first)?;
    Ok((with_one_more(passes, second)?, (piece, next)))
}

// The peer is used, cut twice and closed.
fn use_and_close<
    N: Named<F, L> + Send + Sync,
    F: Filter + Send,
    L: Listener + Send,
    R: Threads + Wait + Abort + Sync,
>(
    rt: &R,
    alloc: Global,
    shared: Recording<N, F, L>,
    first: FlatPass<N>,
    mut scribe: Scribe<N>,
) -> Result<Cut<F, L>, Code> {
    let (passes, pieces) = use_and_cut(rt, alloc, &shared, first, &mut scribe)?;
    let closed = close(shared, passes, scribe)?;
    Ok(Cut { pieces, closed })
}

// The peer is shared under its name, used, cut twice and closed.
fn share<
    N: Named<F, L> + Send + Sync,
    F: Filter + Send,
    L: Listener + Send,
    R: Threads + Wait + Abort + Sync,
>(rt: &R, alloc: Global, seed: Seed<F, L>) -> Result<Cut<F, L>, Code>
    requires name { (seed.name ≡ N.name) × (seed.parts ≡ N.parts) × (seed.word ≡ N.word) }
    requires of { (seed.config ≡ N.config) × (seed.peer ≡ N.peer) }
    requires set { (seed.core.filtered.filters ≡ N.filters) × (seed.core.listeners ≡ N.slots) }
{
    let (shared, first, scribe) = Recording::<N, F, L>::open_recording(seed);
    use_and_close(rt, alloc, shared, first, scribe)
}

// With a filter and a listener of these types.
fn run<R: Threads + Wait + Abort + Sync>(
    rt: &R,
    alloc: Global,
) -> Result<Cut<BeginsWithOne, Recorder>, Code> {
    let seed = recorders_seed(alloc)?;
    share::<Brand, BeginsWithOne, Recorder, R>(rt, alloc, seed)
}

// The first piece has all that was done before it, the next one what two threads did since, and nothing is left.
fn is_as_cut<F: Filter, L: Listener>(cut: &Cut<F, L>) -> bool {
    let (piece, next) = cut.pieces;
    is_left(&cut.closed.core) && ENTRIES <= piece && next == 200 && cut.closed.trace.len() == 0
}

fn is_cut<R: Threads + Wait + Abort + Sync>(rt: &R, alloc: Global) -> Result<bool, Code> {
    let cut = run(rt, alloc)?;
    Ok(is_as_cut(&cut))
}

#[test]
fn a_trace_is_cut(rt: HostRuntime) -> Result<(), Fail> {
    assert!(rt; is_cut(&rt, rt.alloc())?);
    Ok(())
}
