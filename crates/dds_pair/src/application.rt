//! The application of a pair: it writes samples at one peer and takes them at the other.
//!
//! Pairs are this project's own.

use crate::workers::Task;
use dds_base::{Code, Key, Masks, Octets, Selection};
use dds_conditions::Filter;
use dds_log::HasWord;
use dds_machine::{Call, Reply};
use dds_notices::Listener;
use dds_shared::{Named, Pass, Shared};
use std::alloc::Global;
use std::sync::Wait;
use std::sync::atomic::Ordering;
use std::sync::ledger::Ledger;
use std::thread;
use std::time::{Clock, Duration};

// The key of each sample.
const KEY: Key = Key([0, 0, 0, 0, 0, 0, 0, 0, 0, 0, 0, 0, 0, 0, 0, 1]);

// The workers of a pair.
const WORKERS: u64 = 2;

// How often it looks at most whether the workers have begun, once in a millisecond.
const MAX_LOOKS: u32 = 2_000;

// How often it takes at most: where nothing comes it takes once in a millisecond, so for an hour or more.
const MAX_TAKES: u32 = 3_600_000;

/// What the application goes to work with.
#[derive(Drop)]
pub struct Application<'a, Near: Named<F, L>, Far: Named<F, L>, F: Filter, L: Listener> {
    pub near: &'a Shared<Near, F, L>,
    pub writing: Pass<Near>,
    pub far: &'a Shared<Far, F, L>,
    pub taking: Pass<Far>,
}

/// What it leaves: its passes, and how many samples it took, or what ended it early.
#[derive(Drop)]
pub struct Applied<Near: Ledger + HasWord, Far: Ledger + HasWord> {
    pub writing: Pass<Near>,
    pub taking: Pass<Far>,
    pub taken: Result<u64, Code>,
}

// What the newest entry's reply refuses the call with.
fn refusal<N: Ledger + HasWord>(pass: &Pass<N>) -> Option<Code> {
    match &pass.newest()?.output.reply {
        Reply::Refused(code) => Some(*code),
        _ => None,
    }
}

// How many samples the newest entry's reply has.
fn sample_count<N: Ledger + HasWord>(pass: &Pass<N>) -> Result<u64, Code> {
    let Some(entry) = pass.newest() else {
        return Ok(0);
    };
    match &entry.output.reply {
        Reply::Samples(samples) => Ok(samples.as_slice().len() as u64),
        Reply::Refused(Code::NoData) => Ok(0),
        Reply::Refused(code) => Err(*code),
        _ => Ok(0),
    }
}

// Looks until the workers have begun, once in a millisecond. One that has not begun by then has no thread: where `join` can
// make none the worker comes behind whoever looks. `docs/DECISIONS.md`, "Threads and links".
fn await_workers<R: Clock>(rt: &R, task: &Task<'_>) -> Result<(), Code> {
    for _ in 0..MAX_LOOKS {
        if task.begun.load(Ordering::SeqCst) == WORKERS {
            return Ok(());
        }
        thread::sleep(rt, Duration::from_millis(1));
    }
    Err(Code::Memory)
}

// Writes the sample of this number. What the peer sends of it is left to repair.
fn write_sample<N: Named<F, L>, F: Filter, L: Listener, R: Wait>(
    rt: &R,
    alloc: Global,
    shared: &Shared<N, F, L>,
    pass: &mut Pass<N>,
    number: u64,
) -> Result<(), Code> {
    let octets = number.to_be_bytes();
    let call = Call::Write {
        writer: 1,
        key: KEY,
        value: Octets::from_vec(Vec::from_slice(alloc, &octets)?),
    };
    shared.call(rt, pass, call)?;
    match refusal(pass) {
        Some(code) => Err(code),
        None => Ok(()),
    }
}

// Writes all samples, whose numbers go from 1.
fn write_all<N: Named<F, L>, F: Filter, L: Listener, R: Wait>(
    rt: &R,
    task: &Task<'_>,
    shared: &Shared<N, F, L>,
    pass: &mut Pass<N>,
) -> Result<(), Code> {
    for index in 0..task.count {
        write_sample(rt, task.alloc, shared, pass, index + 1)?;
    }
    Ok(())
}

// Takes the samples that are there, and says how many.
fn take_some<N: Named<F, L>, F: Filter, L: Listener, R: Wait>(
    rt: &R,
    shared: &Shared<N, F, L>,
    pass: &mut Pass<N>,
) -> Result<u64, Code> {
    let call = Call::Take {
        reader: 1,
        selection: Selection::Any {
            max: -1,
            masks: Masks::ANY,
        },
    };
    shared.call(rt, pass, call)?;
    sample_count(pass)
}

// Takes until all samples were taken, or a worker has ended. Where nothing is there it sleeps for a millisecond.
fn take_all<N: Named<F, L>, F: Filter, L: Listener, R: Wait + Clock>(
    rt: &R,
    task: &Task<'_>,
    shared: &Shared<N, F, L>,
    pass: &mut Pass<N>,
) -> Result<u64, Code> {
    let mut taken: u64 = 0;
    for _ in 0..MAX_TAKES {
        if taken >= task.count || task.done.load(Ordering::SeqCst) {
            break;
        }
        let more = take_some(rt, shared, pass)?;
        if more == 0 {
            thread::sleep(rt, Duration::from_millis(1));
        }
        taken = taken.saturating_add(more);
    }
    Ok(taken)
}

impl<'a, Near: Named<F, L>, Far: Named<F, L>, F: Filter, L: Listener> Application<
    'a,
    Near,
    Far,
    F,
    L,
> {
    /// Writes the samples once the workers have begun, takes them, and says then that all is done.
    pub fn run<R: Wait + Clock>(self, rt: &R, task: &Task<'_>) -> Applied<Near, Far> {
        let Application {
            near,
            mut writing,
            far,
            mut taking,
        } = self;
        let written = match await_workers(rt, task) {
            Ok(()) => write_all(rt, task, near, &mut writing),
            Err(code) => Err(code),
        };
        let taken = match written {
            Ok(()) => take_all(rt, task, far, &mut taking),
            Err(code) => Err(code),
        };
        task.done.store(true, Ordering::SeqCst);
        Applied {
            writing,
            taking,
            taken,
        }
    }
}
