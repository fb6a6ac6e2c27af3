//! A flat peer, which two threads share.

ghost use Rattle.std.specs.Prelude.{◌≡◌};

use super::scene::{BeginsWithOne, is_left, recorders_seed};
use super::{use_peer, with_one_more};
use dds_base::Code;
use dds_conditions::Filter;
use dds_core::Core;
use dds_keeping::Counted;
use dds_notices::{Listener, Recorder};
use dds_shared::{Flat, FlatPass, Named, NotClosed, Seed};
use std::alloc::Global;
use std::marker::Brand;
use std::process::Abort;
use std::sync::Wait;
use std::test::*;
use std::thread::Threads;

fn close_with<N: Named<F, L>, F: Filter, L: Listener>(
    shared: Flat<N, F, L>,
    passes: Vec<FlatPass<N>>,
) -> Result<Core<F, L>, Code> {
    match shared.close(passes) {
        Ok(core) => Ok(core),
        Err(refused) => Err(refused.code),
    }
}

// A peer that lacked a pass closes with it.
fn close_with_all<N: Named<F, L>, F: Filter, L: Listener>(
    refused: NotClosed<N, F, L, Counted, Counted>,
    missing: FlatPass<N>,
) -> Result<Core<F, L>, Code> {
    let NotClosed { shared, passes, .. } = refused;
    close_with(shared, with_one_more(passes, missing)?)
}

// A peer that lacks a pass does not close, and comes back with the passes that were handed in; with all it closes.
fn close_late<N: Named<F, L>, F: Filter, L: Listener>(
    shared: Flat<N, F, L>,
    passes: Vec<FlatPass<N>>,
    missing: FlatPass<N>,
) -> Result<Core<F, L>, Code> {
    match shared.close(passes) {
        Ok(_) => Err(Code::Error),
        Err(refused) => close_with_all(refused, missing),
    }
}

// The peer is used, until one pass has taken the other in and another has nothing.
fn use_and_join<
    N: Named<F, L> + Send + Sync,
    F: Filter + Send,
    L: Listener + Send,
    R: Threads + Wait + Abort + Sync,
>(
    rt: &R,
    alloc: Global,
    shared: &Flat<N, F, L>,
    first: FlatPass<N>,
) -> Result<(Vec<FlatPass<N>>, FlatPass<N>), Code> {
    let (mut first, second) = use_peer(rt, alloc, shared, first)?;
    let third = shared.split_pass(rt, &mut first)?;
    shared.join_pass(&mut first, second);
    Ok((with_one_more(Vec::new(alloc), first)?, third))
}

// The peer is used and closed.
fn use_and_close<
    N: Named<F, L> + Send + Sync,
    F: Filter + Send,
    L: Listener + Send,
    R: Threads + Wait + Abort + Sync,
>(rt: &R, alloc: Global, shared: Flat<N, F, L>, first: FlatPass<N>) -> Result<Core<F, L>, Code> {
    let (passes, missing) = use_and_join(rt, alloc, &shared, first)?;
    close_late(shared, passes, missing)
}

// The peer is shared under its name, used and closed.
fn share<
    N: Named<F, L> + Send + Sync,
    F: Filter + Send,
    L: Listener + Send,
    R: Threads + Wait + Abort + Sync,
>(rt: &R, alloc: Global, seed: Seed<F, L>) -> Result<Core<F, L>, Code>
    requires name { (seed.name ≡ N.name) × (seed.parts ≡ N.parts) × (seed.word ≡ N.word) }
    requires of { (seed.config ≡ N.config) × (seed.peer ≡ N.peer) }
    requires set { (seed.core.filtered.filters ≡ N.filters) × (seed.core.listeners ≡ N.slots) }
{
    let (shared, first) = Flat::<N, F, L>::open_flat(seed);
    use_and_close(rt, alloc, shared, first)
}

// With a filter and a listener of these types: the core that is left.
fn run<R: Threads + Wait + Abort + Sync>(
    rt: &R,
    alloc: Global,
) -> Result<Core<BeginsWithOne, Recorder>, Code> {
    let seed = recorders_seed(alloc)?;
    share::<Brand, BeginsWithOne, Recorder, R>(rt, alloc, seed)
}

fn is_shared<R: Threads + Wait + Abort + Sync>(rt: &R, alloc: Global) -> Result<bool, Code> {
    let core = run(rt, alloc)?;
    Ok(is_left(&core))
}

#[test]
fn threads_share_a_flat_peer(rt: HostRuntime) -> Result<(), Fail> {
    assert!(rt; is_shared(&rt, rt.alloc())?);
    Ok(())
}
