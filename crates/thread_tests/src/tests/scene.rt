//! The peer that is shared, before it is and once it is closed.

ghost use Rattle.std.specs.Prelude.{◌==◌, ◌&&◌, nat_lt, length, slice_index_or};

use dds_base::{Code, Config, Entity, EntityId, GuidPrefix, Key};
use dds_conditions::Filter;
use dds_core::Core;
use dds_notices::{Listener, Notice, Recorder, Status, StatusMask};
use dds_script::{Setup, SetupLine, reader_options, writer_options};
use dds_shared::Seed;
use std::alloc::Global;

// How many entries there are at the end, at least: of fronts, of what was given, of waits, and of two threads. A thread
// that waits looks once more if it came first.
pub const ENTRIES: usize = 5 + 2 + 7 + 9 + 3 + 200;

// Values that begin with 1 pass.
#[derive(Drop)]
pub struct BeginsWithOne;

impl Filter for BeginsWithOne {
    ghost use Rattle.std.specs.Prelude.{◌==◌, ◌&&◌, nat_lt, length, slice_index_or};

    ghost meaning = { λ _ _ value. nat_lt 0 (length value) && slice_index_or value 0 0 == 1 };

    fn passes(&self, _: &Key, value: &[u8]) -> bool {
        value.len() > 0 && value[0] == 1
    }
}

fn take_writer(setup: &mut Setup, number: u8) -> Option<()> {
    let options = writer_options(&["last=1"])?;
    let entity = EntityId::writer([0, 0, number]);
    setup.take(SetupLine::Writer(entity, options)).ok()?;
    Some(())
}

fn take_reader(setup: &mut Setup) -> Option<()> {
    let options = reader_options(&["all"])?;
    let entity = EntityId::reader([0, 0, 1]);
    setup.take(SetupLine::Reader(entity, options)).ok()?;
    Some(())
}

// One peer, with two writers that keep the last change of a key and a reader that keeps all, of one topic.
fn take_peer(setup: &mut Setup) -> Option<()> {
    setup.take(SetupLine::Peer(GuidPrefix([1; 12]))).ok()?;
    take_writer(setup, 1)?;
    take_writer(setup, 2)?;
    take_reader(setup)
}

fn config(alloc: Global) -> Option<Config> {
    let mut setup = Setup::new(alloc);
    take_peer(&mut setup)?;
    setup.config().ok()
}

// A listener of all statuses of the reader; one that keeps a notice is not taken.
fn listen<F: Filter, L: Listener>(seed: &mut Seed<F, L>, listener: L) -> Result<(), Code> {
    match seed.set_listener(Entity::Reader(1), StatusMask::ANY, Some(listener)) {
        Ok(_) => Ok(()),
        Err((code, _)) => Err(code),
    }
}

fn empty_seed<F: Filter, L: Listener>(alloc: Global) -> Result<Seed<F, L>, Code> {
    match config(alloc) {
        Some(config) => Seed::new(alloc, &config, 1),
        None => Err(Code::BadParameter),
    }
}

fn add_filter<F: Filter, L: Listener>(seed: &mut Seed<F, L>, filter: F) -> Result<(), Code> {
    match seed.add_filter(filter) {
        Ok(_) => Ok(()),
        Err((code, _)) => Err(code),
    }
}

fn listen_with_the_fresh<F: Filter, L: Listener>(
    seed: &mut Seed<F, L>,
    used: L,
    fresh: L,
) -> Result<(), Code> {
    match listen(seed, used) {
        Err(Code::PreconditionNotMet) => listen(seed, fresh),
        _ => Err(Code::Error),
    }
}

// The peer before it is shared, with a filter and listeners of any types.
pub fn seed_of<F: Filter, L: Listener>(
    alloc: Global,
    filter: F,
    used: L,
    fresh: L,
) -> Result<Seed<F, L>, Code> {
    let mut seed = empty_seed(alloc)?;
    add_filter(&mut seed, filter)?;
    listen_with_the_fresh(&mut seed, used, fresh)?;
    Ok(seed)
}

// A listener that keeps a notice.
pub fn used_recorder(alloc: Global) -> Result<Recorder, Code> {
    let mut used = Recorder::open(alloc, 2)?;
    let (entity, status) = (Entity::Reader(1), Status::DataAvailable);
    used.on_notice(&Notice { entity, status });
    Ok(used)
}

// The peer before it is shared, with types of its own.
pub fn recorders_seed(alloc: Global) -> Result<Seed<BeginsWithOne, Recorder>, Code> {
    let used = used_recorder(alloc)?;
    let fresh = Recorder::open(alloc, 512)?;
    seed_of(alloc, BeginsWithOne, used, fresh)
}

fn is_data(notice: &Notice) -> bool {
    matches!(notice.status, Status::DataAvailable)
}

fn is_change(notice: &Notice) -> bool {
    matches!(notice.status, Status::LivelinessChanged(_))
}

// They begin with those of the first packet, DATA_AVAILABLE and LIVELINESS_CHANGED, and of the second, DATA_AVAILABLE.
fn begin_with_two_packets(notices: &[Notice]) -> bool {
    match notices {
        [data, changed, second, ..] => is_data(data) && is_change(changed) && is_data(second),
        _ => false,
    }
}

fn are_told<F: Filter, L: Listener>(core: &Core<F, L>) -> bool {
    match core.notices(Entity::Reader(1)) {
        Ok(notices) => begin_with_two_packets(notices.as_slice()),
        Err(_) => false,
    }
}

// What the peer at the end answers: nobody waits, its listener is there, and has its notices.
pub fn is_left<F: Filter, L: Listener>(core: &Core<F, L>) -> bool {
    core.in_use() == 0
        && !core.is_in_use(1)
        && matches!(core.slot(Entity::Reader(1)), Some((_, 512)))
        && matches!(core.notices(Entity::Reader(2)), Err(Code::BadParameter))
        && are_told(core)
}
