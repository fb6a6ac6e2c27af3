//! What words announce of a writer or a reader of ours.
//!
//! DDS 1.4, 2.2.3 (supported QoS).

ghost use Rattle.std.specs.Prelude.{◌≡◌};
ghost use Rattle.discovery_script.specs.Announced.{duration_of};

use dds_base::{Code, Guid, OwnershipQos, ReliabilityQos};
use dds_script::{decimal, units};
use rtps_announcements::{
    DestinationOrderQos, DurabilityQos, Duration, Endpoint, EndpointKind, LivelinessKind,
    LivelinessQos, Locators, Name, Partitions, Policies, PresentationQos, PresentationScope,
    Representations,
};
use rtps_matching::{End, Owned};
use std::alloc::Global;

/// The policies where no options are said.
const USUAL: Policies = Policies {
    reliability: ReliabilityQos::Reliable,
    durability: DurabilityQos::Volatile,
    liveliness: LivelinessQos {
        kind: LivelinessKind::Automatic,
        lease: Duration::INFINITE,
    },
    ownership: OwnershipQos::Shared,
    strength: 0,
    deadline: Duration::INFINITE,
    latency_budget: Duration::ZERO,
    destination_order: DestinationOrderQos::ByReceptionTimestamp,
    presentation: PresentationQos::DEFAULT,
};

/// A time of less than 2^31 - 1 seconds, as it is announced.
pub fn duration(word: &str) -> Option<Duration>
    ensures read { result ≡ duration_of word.now }
{
    let units = units(word)?;
    let seconds = u32::try_from(units >> 32).ok()?;
    if seconds >= Duration::INFINITE.seconds {
        return None;
    }
    let fraction = u32::try_from(units & 0xffff_ffff).ok()?;
    Some(Duration { seconds, fraction })
}

/// Takes up a policy that is a word, if it is one.
fn take_word(policies: &mut Policies, word: &str) -> Option<()> {
    match word {
        "reliable" => policies.reliability = ReliabilityQos::Reliable,
        "volatile" => policies.durability = DurabilityQos::Volatile,
        "besteffort" => policies.reliability = ReliabilityQos::BestEffort,
        "transientlocal" => policies.durability = DurabilityQos::TransientLocal,
        "transient" => policies.durability = DurabilityQos::Transient,
        "persistent" => policies.durability = DurabilityQos::Persistent,
        "byparticipant" => policies.liveliness.kind = LivelinessKind::ManualByParticipant,
        "bytopic" => policies.liveliness.kind = LivelinessKind::ManualByTopic,
        "exclusive" => policies.ownership = OwnershipQos::Exclusive,
        "bysource" => policies.destination_order = DestinationOrderQos::BySourceTimestamp,
        "intopic" => policies.presentation.scope = PresentationScope::Topic,
        "ingroup" => policies.presentation.scope = PresentationScope::Group,
        "coherent" => policies.presentation.coherent_access = true,
        "ordered" => policies.presentation.ordered_access = true,
        _ => return None,
    }
    Some(())
}

/// Takes up a policy with a time or a number, if it is one.
fn take_number(policies: &mut Policies, name: &str, number: &str) -> Option<()> {
    match name {
        "lease" => policies.liveliness.lease = duration(number)?,
        "deadline" => policies.deadline = duration(number)?,
        "latency" => policies.latency_budget = duration(number)?,
        "strength" => policies.strength = i32::try_from(decimal(number)?).ok()?,
        _ => return None,
    }
    Some(())
}

/// What options say, besides policies of one value.
#[derive(Drop)]
struct Named<'a> {
    partitions: Partitions<'a>,
    representations: Representations,
}

impl<'a> Named<'a> {
    /// Takes up an option that may stand several times, if it is one and there is room.
    fn take(&mut self, name: &str, value: &'a str) -> Option<()> {
        let has_room = match name {
            "partition" => self.partitions.push(Name::new(value.as_bytes())),
            "representation" => {
                let id = u16::try_from(decimal(value)?).ok()?;
                self.representations.push(id)
            }
            _ => false,
        };
        if has_room { Some(()) } else { None }
    }
}

/// Takes up an option, if it is one.
fn take_option<'a>(policies: &mut Policies, named: &mut Named<'a>, word: &'a str) -> Option<()> {
    let Some((name, value)) = word.split_once('=') else {
        return take_word(policies, word);
    };
    match take_number(policies, name, value) {
        Some(()) => Some(()),
        None => named.take(name, value),
    }
}

/// What options say; none where one says nothing, or there are too many of one name.
fn options_of<'a>(words: &[&'a str]) -> Option<(Policies, Named<'a>)> {
    let mut policies = USUAL;
    let mut named = Named {
        partitions: Partitions::new(),
        representations: Representations::new(),
    };
    for word in words {
        take_option(&mut policies, &mut named, word)?;
    }
    if named.representations.as_slice().is_empty() {
        let _ = named.representations.push(Representations::XCDR1);
    }
    Some((policies, named))
}

/// The writer or the reader of this name that words announce: the names of its topic and of its type, and its options;
/// none where they say none.
///
/// # Errors
///
/// `Memory` where there is none.
pub fn end_of(
    alloc: Global,
    kind: EndpointKind,
    guid: Guid,
    words: &[&str],
) -> Result<Option<End>, Code> {
    let [topic_name, type_name, options @ ..] = words else {
        return Ok(None);
    };
    let Some((policies, named)) = options_of(options) else {
        return Ok(None);
    };
    let Named {
        partitions,
        representations,
    } = named;
    let endpoint = Endpoint {
        guid,
        topic_name: Name::new(topic_name.as_bytes()),
        type_name: Name::new(type_name.as_bytes()),
        locators: Locators::new(),
        partitions,
        representations,
        policies,
    };
    let endpoint = Owned::of(alloc, &endpoint)?;
    Ok(Some(End { kind, endpoint }))
}
