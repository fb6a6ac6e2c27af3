//! The lines that discovery is given.

ghost use Rattle.std.specs.Prelude.{◌≡◌};
ghost use Rattle.dds_script.specs.Numbers.{decimal_of};

use dds_base::{Code, EntityId, Guid, GuidPrefix, Octets};
use dds_discovery::BUILTIN_ENDPOINTS;
use dds_script::{decimal, entity_id, guid_prefix, units, value, words_of};
use discovery_script::{USUAL_LEASE, address, duration, end_of, locator, one_locator};
use rtps_announcements::{Duration, EndpointKind, Locator, Participant, VendorId};
use rtps_discovery::Limits;
use rtps_matching::End;
use std::alloc::Global;

/// What a line says.
#[derive(Drop)]
pub enum Line {
    /// What our participant announces, and its domain.
    Participant(Participant, u32),
    /// An address that is told of us.
    Address(Locator),
    /// How many participants are known in all, and at one address, and how many endpoints of each.
    Limits(Limits, usize),
    /// Discovery begins.
    Open,
    /// A writer or a reader of ours more.
    Add(End),
    /// A writer or a reader of ours goes.
    Remove(EntityId),
    /// Time goes on, to this moment in units of 2^-32 second.
    Tick(u64),
    /// A datagram comes at a moment, from an address.
    Deliver(u64, [u8; 4], Octets),
    /// Which pairs of one topic do not fit, and why.
    Misfits,
    /// Which participants are known, and which endpoints of them.
    Who,
    /// Our participant leaves.
    Close,
}

/// What options say of our participant: its domain, and its lease.
fn participant_options(words: &[&str]) -> Option<(u32, Duration)> {
    let mut domain = 0;
    let mut lease = USUAL_LEASE;
    for word in words {
        match word.split_once('=')? {
            ("domain", number) => domain = u32::try_from(decimal(number)?).ok()?,
            ("lease", time) => lease = duration(time)?,
            _ => return None,
        }
    }
    Some((domain, lease))
}

fn participant(words: &[&str]) -> Option<Line> {
    let [prefix, metatraffic, default, options @ ..] = words else {
        return None;
    };
    let prefix = guid_prefix(prefix)?;
    let metatraffic = locator(metatraffic)?;
    let default = locator(default)?;
    let (domain, lease) = participant_options(options)?;
    let participant = Participant {
        prefix,
        vendor: VendorId::UNKNOWN,
        builtin_endpoints: BUILTIN_ENDPOINTS,
        lease,
        metatraffic: one_locator(metatraffic),
        default: one_locator(default),
    };
    Some(Line::Participant(participant, domain))
}

fn number(word: &str) -> Option<usize>
    ensures read { result ≡ decimal_of word.now }
{
    usize::try_from(decimal(word)?).ok()
}

fn limits(words: &[&str]) -> Option<Line> {
    let [of_all, of_one_address, of_endpoints] = words else {
        return None;
    };
    let limits = Limits {
        of_all: number(of_all)?,
        of_one_address: number(of_one_address)?,
    };
    Some(Line::Limits(limits, number(of_endpoints)?))
}

/// What the words of a line say that takes no memory.
fn short_line(words: &[&str]) -> Option<Line> {
    match words {
        ["participant", operands @ ..] => participant(operands),
        ["address", word] => Some(Line::Address(locator(word)?)),
        ["limits", operands @ ..] => limits(operands),
        ["open"] => Some(Line::Open),
        ["remove", entity] => Some(Line::Remove(entity_id(entity)?)),
        ["tick", moment] => Some(Line::Tick(units(moment)?)),
        ["misfits"] => Some(Line::Misfits),
        ["who"] => Some(Line::Who),
        ["close"] => Some(Line::Close),
        _ => None,
    }
}

fn deliver(alloc: Global, words: &[&str]) -> Result<Option<Line>, Code> {
    let [moment, from, octets] = words else {
        return Ok(None);
    };
    let (Some(moment), Some(from)) = (units(moment), address(from)) else {
        return Ok(None);
    };
    match value(alloc, octets)? {
        Some(octets) => Ok(Some(Line::Deliver(moment, from, octets))),
        None => Ok(None),
    }
}

fn add(
    alloc: Global,
    prefix: GuidPrefix,
    kind: EndpointKind,
    words: &[&str],
) -> Result<Option<Line>, Code> {
    let [entity, announced @ ..] = words else {
        return Ok(None);
    };
    let Some(entity) = entity_id(entity) else {
        return Ok(None);
    };
    match end_of(alloc, kind, Guid { prefix, entity }, announced)? {
        Some(end) => Ok(Some(Line::Add(end))),
        None => Ok(None),
    }
}

/// What a line says to the participant with this prefix, without its line feed; none where it says nothing.
///
/// # Errors
///
/// `Memory` where there is none.
pub fn line_of(alloc: Global, prefix: GuidPrefix, line: &[u8]) -> Result<Option<Line>, Code> {
    let Ok(line) = str::from_utf8(line) else {
        return Ok(None);
    };
    let words = words_of(alloc, line)?;
    match words.as_slice() {
        ["deliver", operands @ ..] => deliver(alloc, operands),
        ["writer", operands @ ..] => add(alloc, prefix, EndpointKind::Writer, operands),
        ["reader", operands @ ..] => add(alloc, prefix, EndpointKind::Reader, operands),
        words => Ok(short_line(words)),
    }
}

/// Why a line says nothing: the form of what it begins with.
pub fn cause_of(line: &[u8]) -> &'static str {
    let word = match str::from_utf8(line) {
        Ok(line) => match line.split_once(' ') {
            Some((word, _)) => word,
            None => line,
        },
        Err(_) => "",
    };
    match word {
        "participant" =>
            "its form is `participant PREFIX ADDRESS ADDRESS [domain=N] [lease=UNITS]`, where an address is as 127.0.0.1:7410",
        "address" => "its form is `address ADDRESS`, as 127.0.0.1:7410",
        "limits" => "its form is `limits PARTICIPANTS AT_ONE_ADDRESS ENDPOINTS`",
        "writer" | "reader" =>
            "its form is `writer ENTITY TOPIC TYPE [OPTION..]`; its options are in docs/DISCOVERY.md",
        "remove" => "its form is `remove ENTITY`",
        "tick" => "its form is `tick UNITS`",
        "deliver" => "its form is `deliver UNITS ADDRESS HEX`, where the address is as 127.0.0.1",
        "open" | "close" | "misfits" | "who" => "it stands alone",
        _ =>
            "a line begins with participant, address, limits, open, writer, reader, remove, tick, deliver, misfits, who or close",
    }
}
