//! What the topics of writers carry, as lines say it, and datagrams that are turned by it.

use dds_base::{Code, Guid, Octets, USUAL_VALUE};
use dds_script::{decimal, entity_id, guid_prefix};
use rtps_adapter::{
    Adapted, Encoding, FieldSize, KeyField, KeyRule, Kind, WriterKind, inward, inward_with_gaps,
    outward,
};
use std::alloc::{AllocError, Global};

/// What a topic carries.
#[derive(Drop)]
enum Carried {
    /// The datum.
    Datum,
    /// Another type, without a key.
    Keyless,
    /// Another type, with these key fields.
    Fields(Encoding, Vec<KeyField>),
    /// A list of parameters, whose key is the GUID that it names.
    ParameterList,
}

/// What the topic of a writer carries.
#[derive(Drop)]
pub struct KindLine {
    writer: Guid,
    carried: Carried,
    /// How many octets a value of it has at most.
    max_value: u32,
    /// Whether numbers of the writer that can't be read stand in GAPs.
    has_gaps: bool,
}

/// What lines have said of the topics of writers: of each writer the last one.
#[derive(Drop)]
pub struct Kinds {
    alloc: Global,
    lines: Vec<KindLine>,
}

/// The same, as datagrams are turned by it.
#[derive(Drop)]
pub struct Tables<'a> {
    alloc: Global,
    /// Those whose numbers stand in GAPs where they can't be read.
    with_gaps: Vec<WriterKind<'a>>,
    /// All others.
    others: Vec<WriterKind<'a>>,
}

/// 1, 2, 4 or 8 octets.
fn field_size(word: &str) -> Option<FieldSize> {
    match decimal(word)? {
        1 => Some(FieldSize::One),
        2 => Some(FieldSize::Two),
        4 => Some(FieldSize::Four),
        8 => Some(FieldSize::Eight),
        _ => None,
    }
}

/// A key field, as `16:4`: its place and its size.
fn key_field(word: &str) -> Option<KeyField> {
    let (place, size) = word.split_once(':')?;
    let place = usize::try_from(decimal(place)?).ok()?;
    let size = field_size(size)?;
    Some(KeyField { place, size })
}

/// The key fields that words say, at least one.
fn key_fields(alloc: Global, words: &[&str]) -> Result<Option<Vec<KeyField>>, AllocError> {
    let mut fields = Vec::new(alloc);
    for word in words {
        let Some(field) = key_field(word) else {
            return Ok(None);
        };
        fields.push(field)?;
    }
    if fields.is_empty() {
        return Ok(None);
    }
    Ok(Some(fields))
}

/// Another type, with the key fields that words say.
fn with_fields(
    alloc: Global,
    encoding: Encoding,
    words: &[&str],
) -> Result<Option<Carried>, AllocError> {
    match key_fields(alloc, words)? {
        Some(fields) => Ok(Some(Carried::Fields(encoding, fields))),
        None => Ok(None),
    }
}

/// What words say that a topic carries.
fn carried_of(alloc: Global, words: &[&str]) -> Result<Option<Carried>, AllocError> {
    match words {
        ["datum"] => Ok(Some(Carried::Datum)),
        ["keyless"] => Ok(Some(Carried::Keyless)),
        ["list"] => Ok(Some(Carried::ParameterList)),
        ["cdr", fields @ ..] => with_fields(alloc, Encoding::Cdr, fields),
        ["cdr2", fields @ ..] => with_fields(alloc, Encoding::Cdr2, fields),
        _ => Ok(None),
    }
}

/// A GUID in two words.
pub fn guid(prefix: &str, entity: &str) -> Option<Guid> {
    let prefix = guid_prefix(prefix)?;
    let entity = entity_id(entity)?;
    Some(Guid { prefix, entity })
}

/// How many octets a value has at most, where the last word says it, and the words before that.
fn most_of<'a, 'w>(words: &'a [&'w str]) -> (&'a [&'w str], u32) {
    if let [said @ .., word] = words {
        let most = word
            .strip_prefix("values=")
            .and_then(|number| decimal(number))
            .and_then(|number| u32::try_from(number).ok());
        if let Some(most) = most {
            return (said, most);
        }
    }
    (words, USUAL_VALUE)
}

/// What the words of a `kind` line say: the GUID of a writer, what its topic carries, `values=` with how many octets a
/// value has at most, and `gaps` where numbers that can't be read are to stand in GAPs.
pub fn kind_line(alloc: Global, words: &[&str]) -> Result<Option<KindLine>, AllocError> {
    let [prefix, entity, said @ ..] = words else {
        return Ok(None);
    };
    let Some(writer) = guid(prefix, entity) else {
        return Ok(None);
    };
    let (said, has_gaps) = match said {
        [said @ .., "gaps"] => (said, true),
        said => (said, false),
    };
    let (said, max_value) = most_of(said);
    match carried_of(alloc, said)? {
        Some(carried) => Ok(Some(KindLine {
            writer,
            carried,
            max_value,
            has_gaps,
        })),
        None => Ok(None),
    }
}

impl KindLine {
    fn row(&self) -> WriterKind {
        let kind = match &self.carried {
            Carried::Datum => Kind::Datum,
            Carried::Keyless => Kind::Opaque(KeyRule::Keyless),
            Carried::ParameterList => Kind::Opaque(KeyRule::ParameterList),
            Carried::Fields(encoding, fields) => {
                Kind::Opaque(KeyRule::Fields(*encoding, fields.as_slice()))
            }
        };
        WriterKind {
            writer: self.writer,
            kind,
            max_value: self.max_value,
        }
    }
}

impl Kinds {
    /// Without a line.
    pub fn new(alloc: Global) -> Self {
        Kinds {
            alloc,
            lines: Vec::new(alloc),
        }
    }

    /// Takes up a line, in place of the one that there was of the same writer.
    pub fn take(&mut self, line: KindLine) -> Result<(), AllocError> {
        self.lines.retain(|known| known.writer != line.writer);
        self.lines.push(line)?;
        Ok(())
    }

    /// What the lines say, as datagrams are turned by it. Without a line it takes no memory.
    pub fn tables(&self) -> Result<Tables, AllocError> {
        let mut with_gaps = Vec::new(self.alloc);
        let mut others = Vec::new(self.alloc);
        for line in self.lines.iter() {
            if line.has_gaps {
                with_gaps.push(line.row())?;
            } else {
                others.push(line.row())?;
            }
        }
        Ok(Tables {
            alloc: self.alloc,
            with_gaps,
            others,
        })
    }
}

/// What is handed on of a datagram.
fn handed_on(bytes: Octets, adapted: Adapted) -> Result<Octets, Code> {
    match adapted {
        Adapted::AsItIs => Ok(bytes),
        Adapted::Rewritten(turned) => Ok(turned),
        Adapted::TooLong => Err(Code::OutOfResources),
    }
}

impl Tables<'_> {
    /// What the peer is given of a datagram of the network.
    ///
    /// # Errors
    ///
    /// `Memory` where there is none; `OutOfResources` where it would get longer than a datagram may be. It is lost then.
    pub fn inward(&self, bytes: Octets) -> Result<Octets, Code> {
        let adapted = inward(self.alloc, &self.others, bytes.as_slice())?;
        let bytes = handed_on(bytes, adapted)?;
        let adapted = inward_with_gaps(self.alloc, &self.with_gaps, bytes.as_slice())?;
        handed_on(bytes, adapted)
    }

    /// What the network is given of a datagram of the peer.
    ///
    /// # Errors
    ///
    /// As `inward`.
    pub fn outward(&self, bytes: Octets) -> Result<Octets, Code> {
        let adapted = outward(self.alloc, &self.others, bytes.as_slice())?;
        let bytes = handed_on(bytes, adapted)?;
        let adapted = outward(self.alloc, &self.with_gaps, bytes.as_slice())?;
        handed_on(bytes, adapted)
    }
}
