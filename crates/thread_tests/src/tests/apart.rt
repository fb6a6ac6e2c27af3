//! Peers wait for one another nowhere: while one is at an event, another answers.

ghost use Rattle.std.specs.Prelude.{◌≡◌};

use super::peer::Peer;
use super::with_one_more;
use dds_base::{
    Code, Config, Entity, EntityId, GuidPrefix, Moment, PeerConfig, Sequence, WriterConfig,
};
use dds_conditions::Filter;
use dds_keeping::Handing;
use dds_log::HasWord;
use dds_machine::Call;
use dds_notices::{Listener, Notice, StatusMask};
use dds_pair::{Link, PairGate, Served, serve};
use dds_protocol::{Event, Packet};
use dds_script::Prefix;
use dds_shared::{Flat, FlatPass, Named, Pass, Seed, Shared};
use std::alloc::Global;
use std::marker::Brand;
use std::sync::atomic::{AtomicBool, Ordering};
use std::sync::ledger::Ledger;
use std::sync::{Arc, Wait};
use std::test::*;
use std::thread::{self, Threads, join};

// How often one looks whether another has come so far.
const MOST_LOOKS: u32 = 1_000_000;

// Whether it is set, after so many looks at most.
fn comes(signal: &AtomicBool) -> bool {
    for _ in 0..MOST_LOOKS {
        if signal.load(Ordering::SeqCst) {
            return true;
        }
        thread::yield_now();
    }
    false
}

// What a listener and a caller of another peer tell each other.
#[derive(Drop)]
struct Signals {
    told: AtomicBool,
    answered: AtomicBool,
    seen: AtomicBool,
}

// A listener that waits, while its peer is at an event, until a call on another peer is answered. It keeps no notice.
#[derive(Drop)]
struct Waiting {
    signals: Arc<Signals>,
}

impl Listener for Waiting {
    ghost use Rattle.std.specs.Prelude.{[], ⊤};

    ghost notices = { λ _. [] };

    ghost capacity = { λ _. 0 };

    ghost becomes = { λ _ _ _. ⊤ };

    fn room(&self) -> usize {
        0
    }

    fn is_fresh(&self) -> bool {
        true
    }

    fn held(&self, _: usize) -> Option<Notice> {
        None
    }

    fn on_notice(&mut self, _: &Notice) {
        self.signals.told.store(true, Ordering::SeqCst);
        let seen = comes(&self.signals.answered);
        self.signals.seen.store(seen, Ordering::SeqCst);
    }
}

// A link that is broken.
#[derive(Drop)]
struct Broken;

impl Link for Broken {
    ghost use Rattle.std.specs.Prelude.{[], ⊤};

    ghost sends = { λ _ _ _. ⊤ };

    ghost came = { λ _. [] };

    ghost receives = { λ _ _ _. ⊤ };

    ghost fails = { λ _ _ _. ⊤ };

    fn send(&mut self, _: &Packet) -> bool {
        false
    }

    fn receive(&mut self) -> Result<bool, Code> {
        Err(Code::Link)
    }

    fn octets(&self) -> &[u8] {
        &[]
    }
}

fn writer_config() -> WriterConfig {
    let mut writer = WriterConfig::new(EntityId::writer([0, 0, 1]), 0);
    writer.lease = Some(10);
    writer
}

// A peer with a writer, whose liveliness is lost at moment 10.
fn peer_config(alloc: Global) -> Result<PeerConfig, Code> {
    let writers = with_one_more(Vec::new(alloc), writer_config())?;
    Ok(PeerConfig {
        prefix: GuidPrefix([1; 12]),
        writers: Sequence::from_vec(writers),
        readers: Sequence::from_vec(Vec::new(alloc)),
    })
}

fn config(alloc: Global) -> Result<Config, Code> {
    let peers = with_one_more(Vec::new(alloc), peer_config(alloc)?)?;
    Ok(Config {
        peers: Sequence::from_vec(peers),
    })
}

// The writer is alive, and the time of the peer goes on to moment 10: its listener is told.
fn be_lost<S: Peer<P>, P, R: Wait>(
    rt: &R,
    alloc: Global,
    shared: &S,
    pass: &mut P,
) -> Result<(), Code> {
    let call = Call::AssertLiveliness { writer: 1 };
    shared.does(rt, alloc, pass, Event::Call(call))?;
    shared.does(rt, alloc, pass, Event::Tick(Moment::new(10)))?;
    Ok(())
}

fn go_on<S: Peer<P>, P: Drop, R: Wait>(
    rt: &R,
    alloc: Global,
    shared: &S,
    mut pass: P,
) -> Result<P, Code> {
    be_lost(rt, alloc, shared, &mut pass)?;
    Ok(pass)
}

// Calls another peer, once that listener was told.
fn answer<S: Peer<P>, P: Drop, R: Wait>(
    rt: &R,
    alloc: Global,
    shared: &S,
    mut pass: P,
    signals: &Signals,
) -> Result<P, Code> {
    if comes(&signals.told) {
        shared.does(
            rt,
            alloc,
            &mut pass,
            Event::Call(Call::CreateGuardCondition),
        )?;
        signals.answered.store(true, Ordering::SeqCst);
    }
    Ok(pass)
}

// One peer's event lasts until a call on the other is answered.
fn meet<
    Near: Peer<P> + Sync,
    P: Drop + Send,
    Far: Peer<Q> + Sync,
    Q: Drop + Send,
    R: Threads + Wait + Sync,
>(
    rt: &R,
    alloc: Global,
    near: &Near,
    near_pass: P,
    far: &Far,
    far_pass: Q,
    signals: &Signals,
) -> Result<(P, Q), Code> {
    let (near_pass, far_pass) = join(
        rt,
        move || go_on(rt, alloc, near, near_pass),
        move || answer(rt, alloc, far, far_pass, signals),
    );
    Ok((near_pass?, far_pass?))
}

// Whether a worker with a broken link ends for it.
fn breaks_off<S: Served<N, P>, N: Ledger + HasWord, P: Handing, R: Wait>(
    rt: &R,
    alloc: Global,
    shared: &S,
    pass: &mut Pass<N, P>,
) -> Result<bool, Code> {
    let mut gate = PairGate::receiving(Arc::new(alloc, AtomicBool::new(false))?);
    let broken = serve(rt, shared, pass, &mut Broken, &mut gate);
    Ok(matches!(broken, Err(Code::Link)))
}

// The link of a recording peer's worker breaks, and the peer is closed all the same.
fn end_near<N: Named<F, L>, F: Filter, L: Listener, R: Wait>(
    rt: &R,
    alloc: Global,
    near: Shared<N, F, L>,
    mut pass: Pass<N>,
) -> Result<bool, Code> {
    let has_broken = breaks_off(rt, alloc, &near, &mut pass)?;
    let passes = with_one_more(Vec::new(alloc), pass)?;
    let has_closed = near.close(passes).is_ok();
    Ok(has_broken && has_closed)
}

// So it is of a flat peer.
fn end_far<N: Named<F, L>, F: Filter, L: Listener, R: Wait>(
    rt: &R,
    alloc: Global,
    far: Flat<N, F, L>,
    mut pass: FlatPass<N>,
) -> Result<bool, Code> {
    let has_broken = breaks_off(rt, alloc, &far, &mut pass)?;
    let passes = with_one_more(Vec::new(alloc), pass)?;
    let has_closed = far.close(passes).is_ok();
    Ok(has_broken && has_closed)
}

// The other peer, which is flat, is shared beside one that is already, and ends before it.
fn share_far<
    Far: Named<F, L> + Send + Sync,
    F: Filter + Send,
    L: Listener + Send,
    Near: Peer<P> + Sync,
    P: Drop + Send,
    R: Threads + Wait + Sync,
>(
    rt: &R,
    alloc: Global,
    near: &Near,
    near_pass: P,
    seed: Seed<F, L>,
    signals: &Signals,
) -> Result<(P, bool), Code>
    requires name { (seed.name ≡ Far.name) × (seed.parts ≡ Far.parts) × (seed.word ≡ Far.word) }
    requires of { (seed.config ≡ Far.config) × (seed.peer ≡ Far.peer) }
    requires set { (seed.core.filtered.filters ≡ Far.filters) × (seed.core.listeners ≡ Far.slots) }
{
    let (far, far_pass) = Flat::<Far, F, L>::open_flat(seed);
    let (near_pass, far_pass) = meet(rt, alloc, near, near_pass, &far, far_pass, signals)?;
    let has_ended = end_far(rt, alloc, far, far_pass)?;
    Ok((near_pass, has_ended))
}

// One peer is shared, and the other one beside it. Both end: by a broken link, and closed.
fn share_near<
    Near: Named<F, L> + Send + Sync,
    F: Filter + Send,
    L: Listener + Send,
    R: Threads + Wait + Sync,
>(
    rt: &R,
    alloc: Global,
    seed: Seed<F, L>,
    far_seed: Seed<F, L>,
    signals: &Signals,
) -> Result<bool, Code>
    requires name { (seed.name ≡ Near.name) × (seed.parts ≡ Near.parts) × (seed.word ≡ Near.word) }
    requires of { (seed.config ≡ Near.config) × (seed.peer ≡ Near.peer) }
    requires set { (seed.core.filtered.filters ≡ Near.filters)
        × (seed.core.listeners ≡ Near.slots) }
{
    let (near, pass) = Shared::<Near, F, L>::open(seed);
    let (pass, has_ended) = share_far::<Brand, F, L, Shared<Near, F, L>, Pass<Near>, R>(
        rt, alloc, &near, pass, far_seed, signals,
    )?;
    let near_has_ended = end_near(rt, alloc, near, pass)?;
    Ok(has_ended && near_has_ended)
}

fn new_signals(alloc: Global) -> Result<Arc<Signals>, Code> {
    Ok(Arc::new(
        alloc,
        Signals {
            told: AtomicBool::new(false),
            answered: AtomicBool::new(false),
            seen: AtomicBool::new(false),
        },
    )?)
}

// A peer with the listener that waits.
fn listened_seed(
    alloc: Global,
    config: &Config,
    signals: &Arc<Signals>,
) -> Result<Seed<Prefix, Waiting>, Code> {
    let waiting = Waiting {
        signals: Arc::try_clone(signals)?,
    };
    let mut seed: Seed<Prefix, Waiting> = Seed::new(alloc, config, 1)?;
    match seed.set_listener(Entity::Writer(1), StatusMask::ANY, Some(waiting)) {
        Ok(_) => Ok(seed),
        Err((code, _)) => Err(code),
    }
}

// Two peers of one configuration, one of which has the listener that waits.
fn run<R: Threads + Wait + Sync>(
    rt: &R,
    alloc: Global,
    signals: &Arc<Signals>,
) -> Result<bool, Code> {
    let config = config(alloc)?;
    let near_seed = listened_seed(alloc, &config, signals)?;
    let far_seed: Seed<Prefix, Waiting> = Seed::new(alloc, &config, 1)?;
    share_near::<Brand, Prefix, Waiting, R>(rt, alloc, near_seed, far_seed, signals)
}

#[test]
fn a_peer_answers_while_another_is_at_an_event(rt: HostRuntime) -> Result<(), Fail> {
    let alloc = rt.alloc();
    let signals = new_signals(alloc)?;
    assert!(rt; run(&rt, alloc, &signals)?);
    assert!(rt; signals.seen.load(Ordering::SeqCst));
    Ok(())
}
