//! The words of the command line.

ghost use Rattle.std.specs.Prelude.{◌≡◌, ◌++◌, ◌∷◌, [], IfOk, MatchBool, OnOk, is_some};
ghost use Rattle.std.specs.Option.{option_map, option_to_list};
ghost use Rattle.rtps_matching.specs.declared.end.End.{End};
ghost use Rattle.dds_participant.specs.Words.{IsUsual, domain_of, entity_of, max_value_of, target_of, with_option};

use crate::failure::Failure;
use crate::samples::{Type, TypeKind};
use dds_base::{Code, EntityId, Guid, GuidPrefix, MAX_VALUE};
use dds_exchange::can_hold;
use dds_live::Target;
use dds_script::decimal;
use discovery_script::{address, end_of, locator};
use rtps_adapter::{Encoding, FieldSize, KeyField};
use rtps_announcements::{EndpointKind, Locator, is_writable_endpoint};
use rtps_matching::End;
use std::alloc::Global;

/// What is printed where words are wrong.
pub const USAGE: &str =
    "usage: dds_participant who [SETTING..] [--writer TOPIC TYPE [OPTION..]].. [--reader TOPIC TYPE [OPTION..]]..
       dds_participant listen TOPIC TYPE [OPTION..] [SETTING..] [--kind KIND] [--values N]
       dds_participant say TOPIC TYPE [OPTION..] [SETTING..] [--kind KIND] [--values N]
SETTING: --domain N, --address ADDRESS, --interface ADDRESS, --seconds N, --trace FILE
KIND: datum, keyless, cdr PLACE:SIZE.. or cdr2 PLACE:SIZE..";

/// The greatest domain: above it ports end.
const MAX_DOMAIN: u64 = 230;

/// How many octets the name of a topic or a type has at most.
const MAX_NAME: usize = 256;

/// What is done.
#[derive(Clone, Copy)]
pub enum Purpose {
    /// Who is there is printed.
    Watch,
    /// So it is, and what comes is taken and printed.
    Listen,
    /// So it is, and what lines say is written.
    Say,
}

/// What the words ask for.
#[derive(Drop)]
pub struct Request {
    /// What is done.
    pub purpose: Purpose,
    /// What our topics carry.
    pub of: Type,
    /// The domain.
    pub domain: u32,
    /// Who is told of us; none where that is the usual.
    pub targets: Vec<Target>,
    /// The address that is ours; none where the system says it.
    pub interface: Option<[u8; 4]>,
    /// For so many seconds; none where the end of the standard input ends it.
    pub seconds: Option<u64>,
    /// Our endpoints.
    pub ends: Vec<End>,
    /// The file for what happens to our peer, if there is one.
    pub trace: Option<String>,
}

fn domain(word: &str) -> Option<u32>
    ensures read { result ≡ domain_of word.now }
{
    let number = decimal(word)?;
    if number > MAX_DOMAIN {
        return None;
    }
    u32::try_from(number).ok()
}

/// How many octets a value may have at most.
fn max_value(word: &str) -> Option<u32>
    ensures read { result ≡ max_value_of word.now }
{
    let number = decimal(word)?;
    if number == 0 || number > MAX_VALUE as u64 {
        return None;
    }
    u32::try_from(number).ok()
}

fn target_of(word: &str) -> Option<Target>
    ensures read { result ≡ target_of word.now }
{
    if let Some(address) = address(word) {
        return Some(Target {
            address,
            port: None,
        });
    }
    let Locator { address, port } = locator(word)?;
    let port = Some(port);
    Some(Target { address, port })
}

/// The entity id of a writer or a reader of this number, whose topic has a key or none.
fn entity_of(kind: EndpointKind, number: u8, has_key: bool) -> EntityId
    ensures entity { result ≡ entity_of kind number has_key }
{
    let kind = match (kind, has_key) {
        (EndpointKind::Writer, true) => 0x02,
        (EndpointKind::Writer, false) => 0x03,
        (EndpointKind::Reader, true) => 0x07,
        (EndpointKind::Reader, false) => 0x04,
    };
    EntityId([0, 0, number, kind])
}

impl Request {
    fn new(alloc: Global) -> Request
        ensures usual { IsUsual result }
    {
        Request {
            purpose: Purpose::Watch,
            of: Type::new(alloc),
            domain: 0,
            targets: Vec::new(alloc),
            interface: None,
            seconds: None,
            ends: Vec::new(alloc),
            trace: None,
        }
    }

    /// One more address.
    fn tell(&mut self, word: &str) -> Result<bool, Code>
        ensures read { IfOk result (λ told. told ≡ is_some (target_of word.now)) }
        ensures targets { OnOk result (self.new.targets.items
            ≡ self.old.targets.items ++ option_to_list (target_of word.now)) }
        ensures rest { self.new ≡ record self.old { targets = self.new.targets } }
    {
        let Some(target) = target_of(word) else {
            return Ok(false);
        };
        self.targets.push(target)?;
        Ok(true)
    }

    /// Whether our topics have a key: where no samples are exchanged they are taken to have one.
    fn has_key(&self) -> bool {
        matches!(self.purpose, Purpose::Watch) || !matches!(self.of.kind, TypeKind::Keyless)
    }

    /// Whether we hold to what an endpoint offers or asks for: where samples are exchanged our peer has to.
    fn can_have(&self, end: &End) -> bool {
        matches!(self.purpose, Purpose::Watch) || can_hold(&end.endpoint.lend().policies)
    }

    /// One more endpoint of ours, of up to 255, if it can be announced.
    fn add(
        &mut self,
        alloc: Global,
        prefix: GuidPrefix,
        kind: EndpointKind,
        words: &[&str],
    ) -> Result<bool, Code>
        // It stands last, where it was added.
        ensures ends { IfOk result (λ added. MatchBool added
            ((e : End) × (self.new.ends.items ≡ self.old.ends.items ++ e ∷ []))
            (self.new.ends.items ≡ self.old.ends.items)) }
        ensures rest { self.new ≡ record self.old { ends = self.new.ends } }
    {
        let Ok(number) = u8::try_from(self.ends.len().saturating_add(1)) else {
            return Ok(false);
        };
        let entity = entity_of(kind, number, self.has_key());
        let Some(end) = end_of(alloc, kind, Guid { prefix, entity }, words)? else {
            return Ok(false);
        };
        if !is_writable_endpoint(kind, &end.endpoint.lend()) || !self.can_have(&end) {
            return Ok(false);
        }
        self.ends.push(end)?;
        Ok(true)
    }

    /// Takes up an option of one word; whether it is one.
    fn set(&mut self, name: &str, word: &str) -> Option<()>
        ensures set { option_map (λ _. self.new) result ≡ with_option name.now word.now self.old }
    {
        if name == "--domain" {
            self.domain = domain(word)?;
        } else if name == "--interface" {
            self.interface = Some(address(word)?);
        } else if name == "--seconds" {
            self.seconds = Some(decimal(word)?);
        } else if name == "--values" {
            self.of.max_value = max_value(word)?;
        } else {
            return None;
        }
        Some(())
    }

    /// Takes up an option with its words; whether it is one.
    fn take(&mut self, alloc: Global, prefix: GuidPrefix, words: &[&str]) -> Result<bool, Code> {
        match words {
            ["--writer", words @ ..] => self.add(alloc, prefix, EndpointKind::Writer, words),
            ["--reader", words @ ..] => self.add(alloc, prefix, EndpointKind::Reader, words),
            ["--address", word] => self.tell(word),
            ["--kind", kind, fields @ ..] => self.take_kind(kind, fields),
            ["--trace", file] => self.trace_to(alloc, file),
            [name, word] => Ok(self.set(name, word).is_some()),
            _ => Ok(false),
        }
    }

    /// What happens to our peer goes to this file.
    fn trace_to(&mut self, alloc: Global, file: &str) -> Result<bool, Code> {
        self.trace = Some(String::from_str(alloc, file)?);
        Ok(true)
    }

    /// Takes up what our topics carry; whether that is a type.
    fn take_kind(&mut self, kind: &str, fields: &[&str]) -> Result<bool, Code> {
        self.of.kind = match kind {
            "datum" => TypeKind::Datum,
            "keyless" => TypeKind::Keyless,
            "cdr" => TypeKind::Keyed(Encoding::Cdr),
            "cdr2" => TypeKind::Keyed(Encoding::Cdr2),
            _ => return Ok(false),
        };
        self.of.fields.clear();
        for word in fields {
            let Some(field) = key_field(word) else {
                return Ok(false);
            };
            self.of.fields.push(field)?;
        }
        Ok(matches!(self.of.kind, TypeKind::Keyed(_)) != fields.is_empty())
    }

    /// Takes up all options of groups of words, or says where one begins that is none. What our topics carry comes first.
    fn take_all(
        &mut self,
        alloc: Global,
        prefix: GuidPrefix,
        groups: &[Vec<&str>],
    ) -> Result<(), Failure> {
        for is_first in [true, false] {
            self.take_some(alloc, prefix, groups, is_first)?;
        }
        Ok(())
    }

    /// Takes up those of what our topics carry, or all others.
    fn take_some(
        &mut self,
        alloc: Global,
        prefix: GuidPrefix,
        groups: &[Vec<&str>],
        of_kind: bool,
    ) -> Result<(), Failure> {
        for group in groups {
            if is_of_kind(group) == of_kind {
                self.take_group(alloc, prefix, group)?;
            }
        }
        Ok(())
    }

    fn take_group(
        &mut self,
        alloc: Global,
        prefix: GuidPrefix,
        group: &[&str],
    ) -> Result<(), Failure> {
        if self.take(alloc, prefix, group)? {
            return Ok(());
        }
        Err(wrong_group(alloc, group))
    }
}

/// Whether words say what our topics carry.
fn is_of_kind(group: &[&str]) -> bool {
    matches!(group, ["--kind", ..])
}

/// A key field, as `16:4`: its place and its size.
fn key_field(word: &str) -> Option<KeyField> {
    let (place, size) = word.split_once(':')?;
    let place = usize::try_from(decimal(place)?).ok()?;
    let size = match decimal(size)? {
        1 => FieldSize::One,
        2 => FieldSize::Two,
        4 => FieldSize::Four,
        8 => FieldSize::Eight,
        _ => return None,
    };
    Some(KeyField { place, size })
}

/// The form of an option.
fn form_of(name: &str) -> &'static str {
    match name {
        "--domain" => "--domain N, up to 230",
        "--address" => "--address ADDRESS, as 10.0.0.2 or 10.0.0.2:7410",
        "--interface" => "--interface ADDRESS, as 10.0.0.1",
        "--seconds" => "--seconds N",
        "--trace" => "--trace FILE",
        "--kind" =>
            "--kind datum, keyless, cdr PLACE:SIZE.. or cdr2 PLACE:SIZE.., each of 1, 2, 4 or 8 octets",
        "--values" => "--values N, from 1 to 65000",
        "--writer" => "--writer TOPIC TYPE [OPTION..]; its options are in docs/DISCOVERY.md",
        "--reader" => "--reader TOPIC TYPE [OPTION..]; its options are in docs/DISCOVERY.md",
        _ => "no option",
    }
}

/// That words are wrong, of which this is the first.
fn wrong(alloc: Global, word: &str) -> Failure {
    let form = form_of(word);
    match format!(in alloc; "`{word}` is wrong here, or what follows it: {form}\n{USAGE}") {
        Ok(cause) => Failure::Words(cause),
        Err(_) => Failure::Memory,
    }
}

/// That a name is too long.
fn too_long(alloc: Global, what: &str, name: &str) -> Failure {
    match format!(in alloc;
        "`{name}` is no name of a {what}: it has more than 256 octets\n{USAGE}"
    ) {
        Ok(cause) => Failure::Words(cause),
        Err(_) => Failure::Memory,
    }
}

/// That an option is wrong, or its words: of an endpoint, that the name of its topic or its type is too long.
fn wrong_group(alloc: Global, group: &[&str]) -> Failure {
    match group {
        ["--writer" | "--reader", topic, ..] if topic.len() > MAX_NAME => {
            too_long(alloc, "topic", topic)
        }
        ["--writer" | "--reader", _, type_name, ..] if type_name.len() > MAX_NAME => {
            too_long(alloc, "type", type_name)
        }
        [word, ..] => wrong(alloc, word),
        [] => wrong(alloc, ""),
    }
}

/// Options with their words: each begins with two dashes.
fn grouped<'a>(alloc: Global, words: &'a [String]) -> Result<Vec<Vec<&'a str>>, Code> {
    let mut groups: Vec<Vec<&'a str>> = Vec::new(alloc);
    for word in words {
        if word.starts_with("--") || groups.is_empty() {
            groups.push(Vec::new(alloc))?;
        }
        if let Some(last) = groups.last_mut() {
            last.push(word.as_str())?;
        }
    }
    Ok(groups)
}

/// What options ask for where this is done, and the words before them say an endpoint of this kind, if that is needed.
fn read_options(
    alloc: Global,
    prefix: GuidPrefix,
    purpose: Purpose,
    words: &[String],
) -> Result<Request, Failure> {
    let mut request = Request::new(alloc);
    request.purpose = purpose;
    let groups = grouped(alloc, words)?;
    request.take_all(alloc, prefix, &groups)?;
    Ok(request)
}

/// The same, with an endpoint whose topic, type and options stand before all others.
fn read_endpoint(
    alloc: Global,
    prefix: GuidPrefix,
    purpose: Purpose,
    first: &str,
    words: &[String],
) -> Result<Request, Failure> {
    let mut all: Vec<String> = Vec::new(alloc);
    all.push(String::from_str(alloc, first)?)?;
    for word in words {
        all.push(String::from_str(alloc, word)?)?;
    }
    read_options(alloc, prefix, purpose, &all)
}

/// What the words ask for, for the participant with this prefix. The first is the name of the program.
///
/// # Errors
///
/// `Words` where they say nothing, else `Memory`.
pub fn read_words(alloc: Global, prefix: GuidPrefix, words: &[String]) -> Result<Request, Failure> {
    let [_, word, rest @ ..] = words else {
        return Err(wrong(alloc, ""));
    };
    match word.as_str() {
        "who" => read_options(alloc, prefix, Purpose::Watch, rest),
        "listen" => read_endpoint(alloc, prefix, Purpose::Listen, "--reader", rest),
        "say" => read_endpoint(alloc, prefix, Purpose::Say, "--writer", rest),
        word => Err(wrong(alloc, word)),
    }
}
