//! A network of two peers, another participant and us, by which both tell each other their endpoints.
//!
//! `specs/Networks.antt` says it.
//!
//! RTPS 2.5, 8.5.4 (SEDP).

ghost use Rattle.std.specs.Prelude.{◌≡◌, ◌⊎◌, IfOk, IfErr};
ghost use Rattle.dds_base.specs.Refusal.{Refuses};
ghost use Rattle.dds_core.specs.Opening.{core_refusal};
ghost use Rattle.dds_builtin.specs.Builtin.{network_of as network_peers, number_of as number_in};
ghost use Rattle.dds_network.specs.Networks.{Goes, IsOpened, TakesIn, samples_of, takes_all};

use crate::quiet::{NoFilter, NoListener};
use crate::work::Work;
use dds_base::{Code, GuidPrefix, Masks, Sample, Selection};
use dds_builtin::{network_of, number_of};
use dds_core::Core;
use dds_machine::{Call, Reply};
use dds_protocol::{Event, Output};
use rtps_announcements::Participant;
use std::alloc::Global;

/// Our builtin reader of publications.
const PUBLICATIONS: u8 = 1;

/// Our builtin reader of subscriptions.
const SUBSCRIPTIONS: u8 = 2;

/// Our peer of the network with a participant, and what it took of its readers that was not acted on yet.
#[derive(Drop)]
pub struct Network {
    /// The other participant.
    pub prefix: GuidPrefix,
    /// Our peer.
    pub core: Core<NoFilter, NoListener>,
    /// Samples of publications that were taken.
    pub publications: Vec<Sample>,
    /// Samples of subscriptions that were taken.
    pub subscriptions: Vec<Sample>,
    /// What is to be done.
    pub work: Work,
}

/// The samples of a reply.
fn samples_of(alloc: Global, reply: Reply) -> Vec<Sample>
    ensures { result.items ≡ samples_of reply }
{
    match reply {
        Reply::Samples(samples) => samples.into_vec(),
        _ => Vec::new(alloc),
    }
}

/// All samples of a reader are taken.
fn taking(reader: u8) -> Event
    ensures { result ≡ takes_all reader Masks.ANY }
{
    let selection = Selection::Any {
        max: -1,
        masks: Masks::ANY,
    };
    Event::Call(Call::Take { reader, selection })
}

impl Network {
    /// Our peer of a network with a participant, at its opening, once so many endpoints of ours were taken out.
    ///
    /// # Errors
    ///
    /// `Memory` where there is none; what `Core::open` answers where the two prefixes can't be those of two peers.
    ///
    /// RTPS 2.5, 8.5.4 (SEDP).
    pub fn open(
        alloc: Global,
        own: GuidPrefix,
        far: &Participant,
        removed: usize,
    ) -> Result<Network, Code>
        // It is our peer of the configuration of both, and nothing came yet.
        ensures opened { IfOk result (IsOpened own far.now removed) }
        // A refusal is by the first cause that there is against the configuration, or for want of memory.
        ensures refused { IfErr result (λ e. (e ≡ Code.Memory)
            ⊎ Refuses (core_refusal (network_peers own far.now).peers (number_in own far.now)) e) }
    {
        let config = network_of(alloc, own, far)?;
        let core = Core::open(alloc, &config, number_of(&own, far))?;
        Ok(Network {
            prefix: far.prefix,
            core,
            publications: Vec::new(alloc),
            subscriptions: Vec::new(alloc),
            work: Work::new(removed),
        })
    }

    /// A datagram comes, as it was turned; then all samples of publications and of subscriptions are taken.
    ///
    /// RTPS 2.5, 8.3.4 (the message receiver) and 8.5.4.
    pub fn take_in(&mut self, alloc: Global, bytes: &[u8]) -> Output
        // They are three steps of the peer, and what was taken is what it answered.
        ensures taken { TakesIn Masks.ANY self.old bytes.now result self.new }
    {
        let output = self.core.deliver(bytes);
        let publications = self.core.step(taking(PUBLICATIONS));
        let subscriptions = self.core.step(taking(SUBSCRIPTIONS));
        self.publications = samples_of(alloc, publications.reply);
        self.subscriptions = samples_of(alloc, subscriptions.reply);
        output
    }

    /// A call, or the time that goes on.
    ///
    /// RTPS 2.5, 8.4 (behaviour).
    pub fn happen(&mut self, event: Event) -> Output
        // It is a step of the peer, and nothing else changes.
        ensures step { Goes self.old event result self.new }
    {
        self.core.step(event)
    }
}
