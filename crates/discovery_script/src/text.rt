//! How what discovery tells is printed.

ghost use Rattle.std.specs.Prelude.{◌≡◌, OnOk};
ghost use Rattle.std.specs.Io.KnownBytes.{Appends};
ghost use Rattle.dds_script.specs.Lines.{Adds};
ghost use Rattle.discovery_script.specs.Told.{address_text, guid_text, locator_text, misfit_line, open_line, packet_line, pair_text, policy_word, presence_line, told_line, withdrawn_line};

use dds_base::{Guid, GuidPrefix};
use dds_policies::Misfit;
use dds_script::{Fault, TranscriptLine, print};
use rtps_announcements::Locator;
use rtps_discovery::{Packet, Told as Presence};
use rtps_matching::{Misfitting, Told};
use std::alloc::Global;
use std::io::Write;

/// A GUID in hexadecimal digits.
pub(crate) fn push_guid(text: &mut TranscriptLine, guid: &Guid)
    ensures added { Adds text.old (guid_text guid.now) text.new }
{
    text.push_octets(guid.prefix.as_slice());
    text.push_octets(guid.entity.as_slice());
}

/// A word, and a GUID of ours and one of another participant.
fn push_pair(text: &mut TranscriptLine, word: &str, own: &Guid, far: &Guid)
    ensures added { Adds text.old (pair_text word.now own.now far.now) text.new }
{
    text.push_word(word);
    push_guid(text, own);
    text.push_word(" ");
    push_guid(text, far);
}

/// An address.
pub(crate) fn push_address(
    alloc: Global,
    text: &mut TranscriptLine,
    address: &[u8; 4],
) -> Result<(), Fault>
    ensures added { OnOk result (Adds text.old (address_text address.now) text.new) }
{
    let [first, second, third, fourth] = *address;
    let address = format!(in alloc; "{first}.{second}.{third}.{fourth}")?;
    text.push_word(address.as_str());
    Ok(())
}

/// An address with its port.
fn push_locator(alloc: Global, text: &mut TranscriptLine, locator: &Locator) -> Result<(), Fault>
    ensures added { OnOk result (Adds text.old (locator_text locator.now) text.new) }
{
    push_address(alloc, text, &locator.address)?;
    let port = locator.port;
    text.push_word(format!(in alloc; ":{port}")?.as_str());
    Ok(())
}

/// Prints who we are, where, and in which domain.
pub fn print_open<W: Write>(
    alloc: Global,
    prefix: &GuidPrefix,
    locator: &Locator,
    domain: u32,
    output: &mut W,
) -> Result<(), Fault>
    ensures printed { OnOk result
        (Appends (W.contents output.old) (W.contents output.new) (open_line prefix.now locator.now domain)) }
{
    let mut text = TranscriptLine::new(alloc);
    text.push_word("open ");
    text.push_octets(prefix.as_slice());
    text.push_word(" ");
    push_locator(alloc, &mut text, locator)?;
    text.push_word(format!(in alloc; " domain={domain}")?.as_str());
    print(output, text.finish()?.as_str())
}

/// Prints that an endpoint of another participant is no more.
pub fn print_withdrawn<W: Write>(alloc: Global, guid: &Guid, output: &mut W) -> Result<(), Fault>
    ensures printed { OnOk result (Appends (W.contents output.old) (W.contents output.new) (withdrawn_line guid.now)) }
{
    let mut text = TranscriptLine::new(alloc);
    text.push_word("withdrawn ");
    push_guid(&mut text, guid);
    print(output, text.finish()?.as_str())
}

/// Prints who is there now, or is no more.
pub fn print_presence<W: Write>(alloc: Global, told: Presence, output: &mut W) -> Result<(), Fault>
    ensures printed { OnOk result (Appends (W.contents output.old) (W.contents output.new) (presence_line told)) }
{
    let (word, prefix) = match told {
        Presence::Appeared(prefix) => ("appeared ", prefix),
        Presence::Gone(prefix) => ("gone ", prefix),
    };
    let mut text = TranscriptLine::new(alloc);
    text.push_word(word);
    text.push_octets(prefix.as_slice());
    print(output, text.finish()?.as_str())
}

/// Prints what changed of two endpoints.
pub fn print_told<W: Write>(alloc: Global, told: Told, output: &mut W) -> Result<(), Fault>
    ensures printed { OnOk result (Appends (W.contents output.old) (W.contents output.new) (told_line told)) }
{
    let (word, own, far) = match told {
        Told::Matched(own, far) => ("matched ", own, far),
        Told::Unmatched(own, far) => ("unmatched ", own, far),
        Told::Changed(own, far) => ("changed ", own, far),
    };
    let mut text = TranscriptLine::new(alloc);
    push_pair(&mut text, word, &own, &far);
    print(output, text.finish()?.as_str())
}

/// A policy, by its name in DDS 1.4, 2.2.3.
fn name_of(policy: Misfit) -> &'static str
    ensures word { result.now ≡ policy_word policy }
{
    match policy {
        Misfit::Reliability => " RELIABILITY",
        Misfit::Durability => " DURABILITY",
        Misfit::Presentation => " PRESENTATION",
        Misfit::Deadline => " DEADLINE",
        Misfit::LatencyBudget => " LATENCY_BUDGET",
        Misfit::Ownership => " OWNERSHIP",
        Misfit::Liveliness => " LIVELINESS",
        Misfit::DestinationOrder => " DESTINATION_ORDER",
        Misfit::DataRepresentation => " DATA_REPRESENTATION",
    }
}

/// Prints two endpoints of one topic that do not fit, and the first policy by which they don't.
pub fn print_misfit<W: Write>(
    alloc: Global,
    misfit: &Misfitting,
    output: &mut W,
) -> Result<(), Fault>
    ensures printed { OnOk result (Appends (W.contents output.old) (W.contents output.new) (misfit_line misfit.now)) }
{
    let mut text = TranscriptLine::new(alloc);
    push_pair(&mut text, "misfit ", &misfit.own, &misfit.far);
    text.push_word(name_of(misfit.policy));
    print(output, text.finish()?.as_str())
}

/// Prints a datagram that is to be sent.
pub fn print_packet<W: Write>(alloc: Global, packet: &Packet, output: &mut W) -> Result<(), Fault>
    ensures printed { OnOk result (Appends (W.contents output.old) (W.contents output.new) (packet_line packet.now)) }
{
    let mut text = TranscriptLine::new(alloc);
    text.push_word("packet ");
    push_locator(alloc, &mut text, &packet.to)?;
    text.push_word(" ");
    text.push_octets(packet.bytes.as_slice());
    print(output, text.finish()?.as_str())
}
