//! Pairs over links in memory: losses are repaired, and a broken link ends a pair.

use crate::tests::meeting::{Holding, Showing};
use crate::tests::memory_link::{Faults, MemoryLink, Way};
use dds_base::Code;
use dds_pair::{Gate, Link, PairGate, run_pair};
use std::alloc::Global;
use std::sync::atomic::{AtomicBool, Ordering};
use std::sync::{Arc, Wait};
use std::test::*;
use std::thread::Threads;
use std::time::Clock;

const SAMPLES: u64 = 20;

const RECEIVED: &[u8] = b"received 20\nclosed ok\nwoven ok\n";

const BROKEN: &[u8] = b"pair: code 101\n";

const GOOD: Faults = Faults { lost: 0, broken: 0 };

// The sends and receives of each end that are tried are those below.
const MOST: u64 = 13;

// What a pair printed, and how often its ends received.
#[derive(Drop)]
struct Printed {
    exit: u8,
    output: Vec<u8>,
    errors: Vec<u8>,
    near_receives: u64,
    far_receives: u64,
}

// What tells both workers that all is done, and their gates.
fn gates(alloc: Global) -> Result<(Arc<AtomicBool>, PairGate, PairGate), Code> {
    let done = Arc::new(alloc, AtomicBool::new(false))?;
    let near = PairGate::ticking(Arc::try_clone(&done)?);
    let far = PairGate::receiving(Arc::try_clone(&done)?);
    Ok((done, near, far))
}

// One end of a link, which comes by its own way and sends by the other.
fn link<'a, R: Wait>(
    rt: &'a R,
    alloc: Global,
    own: &'a Way,
    other: &'a Way,
    faults: Faults,
) -> MemoryLink<'a, R> {
    MemoryLink {
        rt,
        alloc,
        own,
        other,
        faults,
        came: Vec::new(alloc),
    }
}

// Runs a pair over these ends, as these gates say, and gives its exit status, its output and its errors.
fn run<
    K: Link + Send,
    NearGate: Gate + Send,
    FarGate: Gate + Send,
    R: Threads + Wait + Clock + Sync,
>(
    rt: &R,
    alloc: Global,
    done: &Arc<AtomicBool>,
    near: (K, NearGate),
    far: (K, FarGate),
) -> (u8, Vec<u8>, Vec<u8>) {
    let (mut output, mut errors) = (Vec::new(alloc), Vec::new(alloc));
    let status = run_pair(rt, alloc, SAMPLES, done, near, far, &mut output);
    let exit = status.tell(&mut errors);
    (exit, output, errors)
}

// Runs a pair whose ends have these faults. Both workers have to run at the same time.
fn exchange<R: Threads + Wait + Clock + Sync>(
    rt: &R,
    alloc: Global,
    near_faults: Faults,
    far_faults: Faults,
) -> Result<Printed, Code> {
    let (done, ticking, receiving) = gates(alloc)?;
    let asked = AtomicBool::new(false);
    let holding = Holding {
        asked: &asked,
        gate: ticking,
    };
    let showing = Showing {
        asked: &asked,
        gate: receiving,
    };
    let (near, far) = (Way::new(alloc), Way::new(alloc));
    let near_link = link(rt, alloc, &near, &far, near_faults);
    let far_link = link(rt, alloc, &far, &near, far_faults);
    let (exit, output, errors) = run(rt, alloc, &done, (near_link, holding), (far_link, showing));
    Ok(Printed {
        exit,
        output,
        errors,
        near_receives: near.receives.load(Ordering::SeqCst),
        far_receives: far.receives.load(Ordering::SeqCst),
    })
}

fn has_received(printed: &Printed) -> bool {
    printed.exit == 0 && printed.output.as_slice() == RECEIVED && printed.errors.is_empty()
}

// Whether a pair ended by the receive of this number, if there were so many.
fn has_ended_at(printed: &Printed, number: u64, receives: u64) -> bool {
    if number > receives {
        return has_received(printed);
    }
    printed.exit == 1 && printed.output.is_empty() && printed.errors.as_slice() == BROKEN
}

// Whether all is received where the send of this number is lost, at either end.
fn is_repaired<R: Threads + Wait + Clock + Sync>(
    rt: &R,
    alloc: Global,
    number: u64,
) -> Result<bool, Code> {
    let faults = Faults {
        lost: number,
        broken: 0,
    };
    let near = exchange(rt, alloc, faults, GOOD)?;
    let far = exchange(rt, alloc, GOOD, faults)?;
    Ok(has_received(&near) && has_received(&far))
}

// Whether a pair ends where the receive of this number fails, at either end.
fn is_ended<R: Threads + Wait + Clock + Sync>(
    rt: &R,
    alloc: Global,
    number: u64,
) -> Result<bool, Code> {
    let faults = Faults {
        lost: 0,
        broken: number,
    };
    let near = exchange(rt, alloc, faults, GOOD)?;
    let far = exchange(rt, alloc, GOOD, faults)?;
    Ok(
        has_ended_at(&near, number, near.near_receives)
            && has_ended_at(&far, number, far.far_receives),
    )
}

#[test]
fn losses_are_repaired_and_a_broken_link_ends_a_pair(rt: HostRuntime) -> Result<(), Fail> {
    for number in 1..MOST {
        assert!(rt; is_repaired(&rt, rt.alloc(), number)?);
        assert!(rt; is_ended(&rt, rt.alloc(), number)?);
    }
    Ok(())
}
