//! The threads of a pair: a worker at each peer, and the application.
//!
//! Pairs are this project's own.

ghost use Rattle.std.specs.Thread.{IsSend, IsSync};

use crate::application::{Application, Applied};
use crate::gate::Gate;
use crate::link::Link;
use crate::serving::serve;
use dds_base::Code;
use dds_conditions::Filter;
use dds_log::HasWord;
use dds_notices::Listener;
use dds_shared::{Named, Pass, Shared};
use std::alloc::Global;
use std::sync::Wait;
use std::sync::atomic::{AtomicBool, AtomicU64, Ordering};
use std::sync::ledger::Ledger;
use std::thread::{Threads, join};
use std::time::Clock;

/// What the threads of a pair have in common.
#[derive(Drop)]
pub struct Task<'a> {
    pub alloc: Global,
    /// How many samples are written and taken.
    pub count: u64,
    /// How many workers have begun.
    pub begun: &'a AtomicU64,
    /// Set once a worker or the application has ended.
    pub done: &'a AtomicBool,
}

/// What a worker goes to work with.
#[derive(Drop)]
pub struct Worker<'a, N: Named<F, L>, F: Filter, L: Listener, K: Link, G: Gate> {
    pub shared: &'a Shared<N, F, L>,
    pub pass: Pass<N>,
    pub link: K,
    pub gate: G,
}

/// What a worker leaves: its pass, and how many turns it took, or what ended them early.
#[derive(Drop)]
pub struct Worked<N: Ledger + HasWord> {
    pub pass: Pass<N>,
    pub turns: Result<u64, Code>,
}

impl<'a, N: Named<F, L>, F: Filter, L: Listener, K: Link, G: Gate> Worker<'a, N, F, L, K, G> {
    pub fn new(shared: &'a Shared<N, F, L>, pass: Pass<N>, way: (K, G)) -> Self {
        let (link, gate) = way;
        Worker {
            shared,
            pass,
            link,
            gate,
        }
    }

    // Says that it has begun, works until its gate stops it or its link breaks, and says then that all is done.
    fn run<R: Wait>(self, rt: &R, begun: &AtomicU64, done: &AtomicBool) -> Worked<N> {
        let Worker {
            shared,
            mut pass,
            mut link,
            mut gate,
        } = self;
        begun.fetch_add(1, Ordering::SeqCst);
        let turns = serve(rt, shared, &mut pass, &mut link, &mut gate);
        done.store(true, Ordering::SeqCst);
        Worked { pass, turns }
    }
}

/// What the threads of a pair leave.
#[derive(Drop)]
pub struct Ran<Near: Ledger + HasWord, Far: Ledger + HasWord> {
    pub near: Worked<Near>,
    pub far: Worked<Far>,
    pub applied: Applied<Near, Far>,
}

// Runs the far worker in a thread of its own, and the application in this one, until both have ended. Where no thread can
// be made the worker comes behind the application, which then has waited for it and said that all is done.
fn run_far<
    Near: Named<F, L> + Send + Sync,
    Far: Named<F, L> + Send + Sync,
    F: Filter + Send,
    L: Listener + Send,
    K: Link + Send,
    G: Gate + Send,
    R: Threads + Wait + Clock + Sync,
>(
    rt: &R,
    task: &Task<'_>,
    far: Worker<'_, Far, F, L, K, G>,
    application: Application<'_, Near, Far, F, L>,
) -> (Worked<Far>, Applied<Near, Far>) {
    let (begun, done) = (task.begun, task.done);
    join(
        rt,
        move || far.run(rt, begun, done),
        move || application.run(rt, task),
    )
}

// Runs both workers in threads of their own, and the application in this one, until all have ended. Where no thread can be
// made for the near worker it comes behind the others.
fn run_threads<
    Near: Named<F, L> + Send + Sync,
    Far: Named<F, L> + Send + Sync,
    F: Filter + Send,
    L: Listener + Send,
    NearLink: Link + Send,
    NearGate: Gate + Send,
    FarLink: Link + Send,
    FarGate: Gate + Send,
    R: Threads + Wait + Clock + Sync,
>(
    rt: &R,
    task: &Task<'_>,
    near: Worker<'_, Near, F, L, NearLink, NearGate>,
    far: Worker<'_, Far, F, L, FarLink, FarGate>,
    application: Application<'_, Near, Far, F, L>,
) -> Ran<Near, Far> {
    let (begun, done) = (task.begun, task.done);
    let (near, (far, applied)) = join(
        rt,
        move || near.run(rt, begun, done),
        move || -> (Worked<Far>, Applied<Near, Far>)
            requires { IsSend Near.row × IsSend Far.row × IsSend F.row × IsSend L.row
                × IsSend FarLink.row × IsSend FarGate.row × IsSync Near.row × IsSync Far.row
                × IsSync R.row }
        { run_far(rt, task, far, application) },
    );
    Ran { near, far, applied }
}

/// Gives the application passes of its own, and runs it and both workers, until all have ended.
pub fn run_all<
    Near: Named<F, L> + Send + Sync,
    Far: Named<F, L> + Send + Sync,
    F: Filter + Send,
    L: Listener + Send,
    NearLink: Link + Send,
    NearGate: Gate + Send,
    FarLink: Link + Send,
    FarGate: Gate + Send,
    R: Threads + Wait + Clock + Sync,
>(
    rt: &R,
    task: &Task<'_>,
    mut near: Worker<'_, Near, F, L, NearLink, NearGate>,
    mut far: Worker<'_, Far, F, L, FarLink, FarGate>,
) -> Result<Ran<Near, Far>, Code> {
    let writing = near.shared.split_pass(rt, &mut near.pass)?;
    let taking = far.shared.split_pass(rt, &mut far.pass)?;
    let application = Application {
        near: near.shared,
        writing,
        far: far.shared,
        taking,
    };
    Ok(run_threads(rt, task, near, far, application))
}
