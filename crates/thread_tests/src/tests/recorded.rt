//! A peer that records all, which two threads share.

ghost use Rattle.std.specs.Prelude.{◌≡◌};

use super::scene::{BeginsWithOne, ENTRIES, is_left, seed_of, used_recorder};
use super::{use_peer, with_one_more};
use dds_base::Code;
use dds_conditions::Filter;
use dds_notices::{Listener, Recorder};
use dds_shared::{Closed, Named, NotClosed, Pass, Seed, Shared};
use dds_trace::{Trace, weave};
use std::alloc::Global;
use std::marker::Brand;
use std::process::Abort;
use std::sync::Wait;
use std::test::*;
use std::thread::Threads;

fn close_with<N: Named<F, L>, F: Filter, L: Listener>(
    shared: Shared<N, F, L>,
    passes: Vec<Pass<N>>,
) -> Result<Closed<F, L>, Code> {
    match shared.close(passes) {
        Ok(closed) => Ok(closed),
        Err(refused) => Err(refused.code),
    }
}

// A peer that lacked a pass closes with it.
fn close_with_all<N: Named<F, L>, F: Filter, L: Listener>(
    refused: NotClosed<N, F, L>,
    missing: Pass<N>,
) -> Result<Closed<F, L>, Code> {
    let NotClosed {
        code,
        shared,
        passes,
    } = refused;
    match (code, with_one_more(passes, missing)) {
        (Code::PreconditionNotMet, Ok(passes)) => close_with(shared, passes),
        _ => Err(code),
    }
}

// A peer that lacks a pass does not close, and comes back with the passes that were handed in; with all it closes.
fn close_late<N: Named<F, L>, F: Filter, L: Listener>(
    shared: Shared<N, F, L>,
    passes: Vec<Pass<N>>,
    missing: Pass<N>,
) -> Result<Closed<F, L>, Code> {
    match shared.close(passes) {
        Ok(_) => Err(Code::Error),
        Err(refused) => close_with_all(refused, missing),
    }
}

// One pass takes the other in, and another has nothing.
fn join_two<N: Named<F, L>, F: Filter, L: Listener, R: Wait>(
    rt: &R,
    shared: &Shared<N, F, L>,
    first: &mut Pass<N>,
    second: Pass<N>,
) -> Result<Pass<N>, Code> {
    let third = shared.split_pass(rt, first)?;
    match shared.join_pass(first, second) {
        Ok(()) => Ok(third),
        Err((code, _)) => Err(code),
    }
}

// The peer is used, until one pass has taken the other in and another has nothing.
fn use_and_join<
    N: Named<F, L> + Send + Sync,
    F: Filter + Send,
    L: Listener + Send,
    R: Threads + Wait + Abort + Sync,
>(
    rt: &R,
    alloc: Global,
    shared: &Shared<N, F, L>,
    first: Pass<N>,
) -> Result<(Vec<Pass<N>>, Pass<N>), Code> {
    let (mut first, second) = use_peer(rt, alloc, shared, first)?;
    let third = join_two(rt, shared, &mut first, second)?;
    Ok((with_one_more(Vec::new(alloc), first)?, third))
}

// The peer is used and closed.
fn use_and_close<
    N: Named<F, L> + Send + Sync,
    F: Filter + Send,
    L: Listener + Send,
    R: Threads + Wait + Abort + Sync,
>(rt: &R, alloc: Global, shared: Shared<N, F, L>, first: Pass<N>) -> Result<Closed<F, L>, Code> {
    let (passes, missing) = use_and_join(rt, alloc, &shared, first)?;
    close_late(shared, passes, missing)
}

// The peer is shared under its name, used and closed.
fn share<
    N: Named<F, L> + Send + Sync,
    F: Filter + Send,
    L: Listener + Send,
    R: Threads + Wait + Abort + Sync,
>(rt: &R, alloc: Global, seed: Seed<F, L>) -> Result<Closed<F, L>, Code>
    requires name { (seed.name ≡ N.name) × (seed.parts ≡ N.parts) × (seed.word ≡ N.word) }
    requires of { (seed.config ≡ N.config) × (seed.peer ≡ N.peer) }
    requires set { (seed.core.filtered.filters ≡ N.filters) × (seed.core.listeners ≡ N.slots) }
{
    let (shared, first) = Shared::<N, F, L>::open(seed);
    use_and_close(rt, alloc, shared, first)
}

// With a filter and a listener of any types: what is left at the end.
fn run<F: Filter + Send, L: Listener + Send, R: Threads + Wait + Abort + Sync>(
    rt: &R,
    alloc: Global,
    seed: Seed<F, L>,
) -> Result<Closed<F, L>, Code> {
    share::<Brand, F, L, R>(rt, alloc, seed)
}

// How many entries the order of one trace has.
fn woven(alloc: Global, trace: Trace) -> Result<usize, Code> {
    let traces = with_one_more(Vec::new(alloc), trace)?;
    match weave(alloc, traces.as_slice()) {
        Ok(run) => Ok(run.order.as_slice().len()),
        Err(_) => Err(Code::Error),
    }
}

// There are as many entries as were made, and all of them have an order.
fn is_recorded(alloc: Global, trace: Trace) -> Result<bool, Code> {
    let entries = trace.len();
    let ordered = woven(alloc, trace)?;
    Ok(ENTRIES <= entries && ordered == entries)
}

// With a filter and listeners of any types.
fn is_left_and_recorded<F: Filter + Send, L: Listener + Send, R: Threads + Wait + Abort + Sync>(
    rt: &R,
    alloc: Global,
    filter: F,
    used: L,
    fresh: L,
) -> Result<bool, Code> {
    let closed = run(rt, alloc, seed_of(alloc, filter, used, fresh)?)?;
    let is_recorded = is_recorded(alloc, closed.trace)?;
    Ok(is_left(&closed.core) && is_recorded)
}

// With those in boxes.
fn is_shared<R: Threads + Wait + Abort + Sync>(rt: &R, alloc: Global) -> Result<bool, Code> {
    let filter: Box<dyn Filter + Send> = Box::new(alloc, BeginsWithOne)?;
    let used: Box<dyn Listener + Send> = Box::new(alloc, used_recorder(alloc)?)?;
    let fresh: Box<dyn Listener + Send> = Box::new(alloc, Recorder::open(alloc, 512)?)?;
    is_left_and_recorded(rt, alloc, filter, used, fresh)
}

#[test]
fn threads_share_a_peer(rt: HostRuntime) -> Result<(), Fail> {
    assert!(rt; is_shared(&rt, rt.alloc())?);
    Ok(())
}
