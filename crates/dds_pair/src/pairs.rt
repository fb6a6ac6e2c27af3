//! Two peers of one process, which exchange samples over links.
//!
//! What they answer is `dds_core`'s; that they exchange so many samples this way is this project's own.

ghost use Rattle.std.specs.Prelude.{◌≡◌};

use crate::gate::Gate;
use crate::gates::PairGate;
use crate::link::Link;
use crate::udp::UdpLink;
use crate::workers::{Ran, Task, Worker, run_all};
use dds_base::{
    Code, Config, EntityId, GuidPrefix, PeerConfig, ReaderConfig, Sequence, WriterConfig,
};
use dds_conditions::Filter;
use dds_notices::Listener;
use dds_script::{Fault, Status};
use dds_shared::{Named, Pass, Seed, Shared};
use dds_trace::{Trace, WeaveFault, weave};
use std::alloc::Global;
use std::fmt;
use std::io::Write;
use std::marker::Brand;
use std::net::Net;
use std::sync::atomic::{AtomicBool, AtomicU64};
use std::sync::{Arc, Wait};
use std::thread::Threads;
use std::time::Clock;

// How a pair ended.
#[derive(Clone, Copy)]
enum Ending {
    // All samples were taken, and both traces woven.
    Woven { taken: u64 },
    // A worker stopped before.
    Stopped { turns: u64 },
}

impl fmt::Display for Ending {
    fn fmt<W: fmt::Write>(&self, f: &mut fmt::Formatter<W>) -> fmt::Result {
        match *self {
            Ending::Woven { taken } => write!(f, "received {taken}\nclosed ok\nwoven ok"),
            Ending::Stopped { turns } => write!(f, "stopped at turn {turns}"),
        }
    }
}

// The fault of a call that was refused with this code.
fn failed(code: Code) -> Fault {
    Fault::PairFailed {
        number: code.number(),
    }
}

// A peer, of this last octet of its prefix.
fn peer(number: u8, writers: Vec<WriterConfig>, readers: Vec<ReaderConfig>) -> PeerConfig {
    PeerConfig {
        prefix: GuidPrefix([0, 0, 0, 0, 0, 0, 0, 0, 0, 0, 0, number]),
        writers: Sequence::from_vec(writers),
        readers: Sequence::from_vec(readers),
    }
}

// A peer with a writer and a peer with a reader, of one topic, which keep all.
fn config(alloc: Global) -> Result<Config, Code> {
    let writer = WriterConfig::new(EntityId::writer([0, 0, 1]), 0);
    let reader = ReaderConfig::new(EntityId::reader([0, 0, 1]), 0);
    let near = peer(1, vec![in alloc; writer]?, Vec::new(alloc));
    let far = peer(2, Vec::new(alloc), vec![in alloc; reader]?);
    Ok(Config {
        peers: Sequence::from_vec(vec![in alloc; near, far]?),
    })
}

// Closes a peer by both its passes.
fn close<N: Named<F, L>, F: Filter, L: Listener>(
    alloc: Global,
    shared: Shared<N, F, L>,
    pass: Pass<N>,
    other: Pass<N>,
) -> Result<Trace, Code> {
    let passes = vec![in alloc; pass, other]?;
    match shared.close(passes) {
        Ok(closed) => Ok(closed.trace),
        Err(refused) => Err(refused.code),
    }
}

// Weaves the traces of both peers.
fn weave_both(alloc: Global, near: Trace, far: Trace) -> Result<(), Fault> {
    let Ok(traces) = vec![in alloc; near, far] else {
        return Err(failed(Code::Memory));
    };
    match weave(alloc, traces.as_slice()) {
        Ok(_) => Ok(()),
        Err(WeaveFault::Stuck { .. }) => Err(Fault::PairStuck),
        Err(WeaveFault::Memory) => Err(failed(Code::Memory)),
    }
}

// How the threads ended: refused as worker 1 was, as worker 2 was, or as the application was; else by what was taken.
fn end_of(
    count: u64,
    near: Result<u64, Code>,
    far: Result<u64, Code>,
    taken: Result<u64, Code>,
) -> Result<Ending, Code> {
    let turns = near?.max(far?);
    let taken = taken?;
    Ok(if taken < count {
        Ending::Stopped { turns }
    } else {
        Ending::Woven { taken }
    })
}

// How a pair ended whose peers were closed.
fn finish(
    alloc: Global,
    ended: Result<Ending, Code>,
    near: Result<Trace, Code>,
    far: Result<Trace, Code>,
) -> Result<Ending, Fault> {
    let ending = ended.map_err(failed)?;
    let near = near.map_err(failed)?;
    let far = far.map_err(failed)?;
    weave_both(alloc, near, far)?;
    Ok(ending)
}

// Shares both peers, has the threads run, closes the peers and weaves their traces.
fn share<
    Near: Named<F, L> + Send + Sync,
    Far: Named<F, L> + Send + Sync,
    F: Filter + Send,
    L: Listener + Send,
    NearLink: Link + Send,
    NearGate: Gate + Send,
    FarLink: Link + Send,
    FarGate: Gate + Send,
    R: Threads + Wait + Clock + Sync,
>(
    rt: &R,
    task: &Task<'_>,
    near_seed: Seed<F, L>,
    near_way: (NearLink, NearGate),
    far_seed: Seed<F, L>,
    far_way: (FarLink, FarGate),
) -> Result<Ending, Fault>
    requires near_name { (near_seed.name ≡ Near.name) × (near_seed.parts ≡ Near.parts)
        × (near_seed.word ≡ Near.word) }
    requires near_of { (near_seed.config ≡ Near.config) × (near_seed.peer ≡ Near.peer) }
    requires near_set { (near_seed.core.filtered.filters ≡ Near.filters)
        × (near_seed.core.listeners ≡ Near.slots) }
    requires far_name { (far_seed.name ≡ Far.name) × (far_seed.parts ≡ Far.parts)
        × (far_seed.word ≡ Far.word) }
    requires far_of { (far_seed.config ≡ Far.config) × (far_seed.peer ≡ Far.peer) }
    requires far_set { (far_seed.core.filtered.filters ≡ Far.filters)
        × (far_seed.core.listeners ≡ Far.slots) }
{
    let (near, near_pass) = Shared::<Near, F, L>::open(near_seed);
    let (far, far_pass) = Shared::<Far, F, L>::open(far_seed);
    let near_worker = Worker::new(&near, near_pass, near_way);
    let far_worker = Worker::new(&far, far_pass, far_way);
    match run_all(rt, task, near_worker, far_worker) {
        Ok(ran) => {
            let Ran {
                near: near_worked,
                far: far_worked,
                applied,
            } = ran;
            let ended = end_of(
                task.count,
                near_worked.turns,
                far_worked.turns,
                applied.taken,
            );
            let near = close(task.alloc, near, applied.writing, near_worked.pass);
            let far = close(task.alloc, far, applied.taking, far_worked.pass);
            finish(task.alloc, ended, near, far)
        }
        Err(code) => Err(failed(code)),
    }
}

// Makes both peers, without filters and listeners.
fn exchange<
    F: Filter + Send,
    L: Listener + Send,
    NearLink: Link + Send,
    NearGate: Gate + Send,
    FarLink: Link + Send,
    FarGate: Gate + Send,
    R: Threads + Wait + Clock + Sync,
>(
    rt: &R,
    task: &Task<'_>,
    near: (NearLink, NearGate),
    far: (FarLink, FarGate),
) -> Result<Ending, Fault> {
    let config = config(task.alloc).map_err(failed)?;
    let near_seed: Seed<F, L> = Seed::new(task.alloc, &config, 1).map_err(failed)?;
    let far_seed: Seed<F, L> = Seed::new(task.alloc, &config, 2).map_err(failed)?;
    share::<Brand, Brand, F, L, NearLink, NearGate, FarLink, FarGate, R>(
        rt, task, near_seed, near, far_seed, far,
    )
}

// Prints how a pair ended.
fn report(ending: Ending, output: &mut impl Write) -> Status {
    if output.writeln(ending).is_err() || output.flush().is_err() {
        return Status::failed(Fault::OutputFailed);
    }
    match ending {
        Ending::Woven { .. } => Status::success(),
        Ending::Stopped { .. } => Status {
            exit: 1,
            fault: None,
        },
    }
}

/// Runs two peers of one process, a writer of peer 1 and a reader of peer 2, which keep all. Two workers serve them over
/// the links, as their gates say, and set `done` when they end. Once both have begun this thread writes `count` samples (of
/// one key, with the numbers from 1 in 8 octets, the most significant first), whose packets are not sent: all samples go by
/// repair. Then it takes them, until it has all or `done` is set, sleeps for a millisecond wherever none is there, and sets
/// `done` itself. Once all have ended, both peers are closed, and their traces woven.
///
/// It prints `received N`, `closed ok` and `woven ok`; or, with exit status 1, `stopped at turn T` where the workers
/// stopped before all was taken, T being the greater number of their turns.
///
/// Nothing bounds it but the gates: where one of them never stops, and never hears of `done`, it never ends.
///
/// # Errors
///
/// Its fault is `PairFailed`, with the number of the first code of these: what ended worker 1, what ended worker 2, what
/// refused a call of this thread, and what refused to close a peer; or `Memory` where no peer can be made, or a worker has
/// not begun after some two seconds, as it has no thread. It is `PairStuck` where the traces have no order in which each
/// packet was sent before it came, and `OutputFailed` where the output takes no text.
pub fn run_pair<
    NearLink: Link + Send,
    NearGate: Gate + Send,
    FarLink: Link + Send,
    FarGate: Gate + Send,
    W: Write + Drop,
    R: Threads + Wait + Clock + Sync,
>(
    rt: &R,
    alloc: Global,
    count: u64,
    done: &Arc<AtomicBool>,
    near: (NearLink, NearGate),
    far: (FarLink, FarGate),
    mut output: W,
) -> Status {
    let begun = AtomicU64::new(0);
    let task = Task {
        alloc,
        count,
        begun: &begun,
        done,
    };
    let ended = exchange::<
        Box<dyn Filter + Send>,
        Box<dyn Listener + Send>,
        NearLink,
        NearGate,
        FarLink,
        FarGate,
        R,
    >(rt, &task, near, far);
    match ended {
        Ok(ending) => report(ending, &mut output),
        Err(fault) => Status::failed(fault),
    }
}

// Two links over the loopback, each of which sends to the other.
fn links<R: Net>(rt: &R, alloc: Global) -> Result<(UdpLink, UdpLink), Code> {
    let mut near = UdpLink::open(rt, alloc)?;
    let mut far = UdpLink::open(rt, alloc)?;
    near.connect(far.address()?);
    far.connect(near.address()?);
    Ok((near, far))
}

// What tells all threads that all is done, and two gates that ask it.
fn gates(alloc: Global) -> Result<(Arc<AtomicBool>, PairGate, PairGate), Code> {
    let done = Arc::new(alloc, AtomicBool::new(false))?;
    let near = PairGate::ticking(Arc::try_clone(&done)?);
    let far = PairGate::receiving(Arc::try_clone(&done)?);
    Ok((done, near, far))
}

/// Runs two peers of one process over UDP on the loopback, as `run_pair` does: peer 1's worker ticks in each 64th turn,
/// and both stop once all is done, or after 1,000,000 turns, of which one in 16 waits, a millisecond at most.
///
/// # Errors
///
/// Its fault is that of `run_pair`; where no socket can be opened it is `PairFailed` with the number of `Link`.
pub fn pair<W: Write + Drop, R: Threads + Wait + Net + Clock + Sync>(
    rt: &R,
    alloc: Global,
    count: u64,
    output: W,
) -> Status {
    let opened = match links(rt, alloc) {
        Ok(links) => gates(alloc).map(|gates| (links, gates)),
        Err(code) => Err(code),
    };
    match opened {
        Ok(((near, far), (done, ticking, receiving))) => run_pair(
            rt,
            alloc,
            count,
            &done,
            (near, ticking),
            (far, receiving),
            output,
        ),
        Err(code) => Status::failed(failed(code)),
    }
}
