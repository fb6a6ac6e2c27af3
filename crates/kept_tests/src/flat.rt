//! A peer that threads share, of which nothing is recorded.

ghost use Rattle.std.specs.Prelude.{◌≡◌};

use dds_base::{
    Code, Config, EntityId, GuidPrefix, HistoryQos, Key, Masks, Octets, PeerConfig, ReaderConfig,
    Selection, Sequence, WriterConfig,
};
use dds_conditions::Filter;
use dds_machine::{Call, Reply};
use dds_notices::{Listener, Recorder};
use dds_protocol::Output;
use dds_shared::{Flat, FlatPass, Named, Seed};
use std::alloc::Global;
use std::marker::Brand;
use std::sync::Wait;

/// A filter that passes all.
#[derive(Drop)]
struct All;

impl Filter for All {
    ghost use Rattle.std.specs.Prelude.{true};

    ghost meaning = { λ _ _ _. true };

    fn passes(&self, _: &Key, _: &[u8]) -> bool {
        true
    }
}

/// One peer with a writer that keeps the last change of a key, and its reader.
fn config(alloc: Global) -> Result<Config, Code> {
    let mut writer = WriterConfig::new(EntityId::writer([0, 0, 1]), 0);
    writer.history = HistoryQos::KeepLast(1);
    let reader = ReaderConfig::new(EntityId::reader([0, 0, 1]), 0);
    let peer = PeerConfig {
        prefix: GuidPrefix([1; 12]),
        writers: Sequence::from_vec(vec![in alloc; writer]?),
        readers: Sequence::from_vec(vec![in alloc; reader]?),
    };
    Ok(Config {
        peers: Sequence::from_vec(vec![in alloc; peer]?),
    })
}

/// A peer, of which each thread has a pass: what is proved of a shared one is met here, once.
trait Peer<P> {
    /// What a call gives.
    fn asked<R: Wait>(&self, rt: &R, pass: &mut P, call: Call) -> Result<Output, Code>;

    /// A packet comes.
    fn comes<R: Wait>(&self, rt: &R, pass: &mut P, octets: &[u8]) -> Result<(), Code>;
}

impl<N: Named<F, L>, F: Filter, L: Listener> Peer<FlatPass<N>> for Flat<N, F, L> {
    fn asked<R: Wait>(&self, rt: &R, pass: &mut FlatPass<N>, call: Call) -> Result<Output, Code> {
        self.call(rt, pass, call)
    }

    fn comes<R: Wait>(&self, rt: &R, pass: &mut FlatPass<N>, octets: &[u8]) -> Result<(), Code> {
        self.deliver(rt, pass, octets)?;
        Ok(())
    }
}

/// Writes a sample, and delivers its packet.
fn send<S: Peer<P>, P, R: Wait>(
    rt: &R,
    alloc: Global,
    shared: &S,
    pass: &mut P,
) -> Result<(), Code> {
    let (writer, key) = (1, Key([0; 16]));
    let value = Octets::from_vec(Vec::from_elem(alloc, 7, 8)?);
    let written = shared.asked(rt, pass, Call::Write { writer, key, value })?;
    for packet in written.packets.as_slice() {
        shared.comes(rt, pass, packet.bytes.as_slice())?;
    }
    Ok(())
}

/// Takes all samples: how many there were.
fn take<S: Peer<P>, P, R: Wait>(rt: &R, shared: &S, pass: &mut P) -> Result<u64, Code> {
    let (reader, max, masks) = (1, -1, Masks::ANY);
    let selection = Selection::Any { max, masks };
    let taken = shared.asked(rt, pass, Call::Take { reader, selection })?;
    match &taken.reply {
        Reply::Samples(samples) => Ok(samples.as_slice().len() as u64),
        _ => Ok(0),
    }
}

/// Writes, delivers and takes so many samples: how many were taken.
fn take_all<S: Peer<P>, P, R: Wait>(
    rt: &R,
    alloc: Global,
    shared: &S,
    pass: &mut P,
    count: u64,
) -> Result<u64, Code> {
    let mut taken: u64 = 0;
    for _ in 0..count {
        send(rt, alloc, shared, pass)?;
        taken = taken.saturating_add(take(rt, shared, pass)?);
    }
    Ok(taken)
}

/// Ends with the peer.
fn close<N: Named<F, L>, F: Filter, L: Listener>(
    alloc: Global,
    shared: Flat<N, F, L>,
    pass: FlatPass<N>,
) -> Result<(), Code> {
    match shared.close(vec![in alloc; pass]?) {
        Ok(_) => Ok(()),
        Err(refused) => Err(refused.code),
    }
}

/// Shares the peer under its name, and has so many turns done.
fn share<N: Named<F, L>, F: Filter, L: Listener, R: Wait>(
    rt: &R,
    alloc: Global,
    seed: Seed<F, L>,
    count: u64,
) -> Result<u64, Code>
    requires name { (seed.name ≡ N.name) × (seed.parts ≡ N.parts) × (seed.word ≡ N.word) }
    requires of { (seed.config ≡ N.config) × (seed.peer ≡ N.peer) }
    requires set { (seed.core.filtered.filters ≡ N.filters) × (seed.core.listeners ≡ N.slots) }
{
    let (shared, mut pass) = Flat::<N, F, L>::open_flat(seed);
    let taken = take_all(rt, alloc, &shared, &mut pass, count)?;
    close(alloc, shared, pass)?;
    Ok(taken)
}

/// Writes, delivers and takes so many samples, three events each, and closes the peer: how many were taken.
pub fn taken<R: Wait>(rt: &R, alloc: Global, count: u64) -> Result<u64, Code> {
    let config = config(alloc)?;
    let seed: Seed<All, Recorder> = Seed::new(alloc, &config, 1)?;
    share::<Brand, All, Recorder, R>(rt, alloc, seed, count)
}
