//! What the topics of writers carry.
//!
//! RTPS 2.5, 8.2 (GUID_t) and clause 10 (SerializedPayload).

ghost use Rattle.std.specs.Prelude.{◌≡◌, find, is_some};
ghost use Rattle.std.specs.Option.{option_copied};
ghost use Rattle.rtps_adapter.specs.Kinds.{is_of, kind_of, most_of, rule_of};

use dds_base::{EntityId, Guid, GuidPrefix, Key, USUAL_VALUE};

/// By which rules of CDR the values of a type are encoded.
///
/// XTypes 1.3, 7.4 (PLAIN_CDR, PLAIN_CDR2) and 7.6.3.1.2 (their identifiers).
#[derive(Clone, Copy)]
pub enum Encoding {
    /// Representations 0 and 1, CDR_BE and CDR_LE: a number of eight octets begins at a multiple of 8.
    Cdr,
    /// Representations 6 and 7, CDR2_BE and CDR2_LE: a number of eight octets begins at a multiple of 4.
    Cdr2,
}

/// How many octets a key field takes.
#[derive(Clone, Copy)]
pub enum FieldSize {
    /// An octet, a character or a boolean.
    One,
    /// A number of 16 bits.
    Two,
    /// A number of 32 bits, or an enumerator.
    Four,
    /// A number of 64 bits.
    Eight,
}

/// A key field of a type.
#[derive(Clone, Copy)]
pub struct KeyField {
    /// How many octets of the body of a value, which follows the options, stand before it.
    pub place: usize,
    /// How many octets it takes.
    pub size: FieldSize,
}

/// How the key of a value is found in a payload.
#[derive(Clone, Copy)]
pub enum KeyRule<'a> {
    /// The type has no key, so there is one instance: its key is sixteen zeros.
    Keyless,
    /// The type has these key fields, in this order: each stands at one place in every value. The key is the fields
    /// alone in this encoding, big-endian, with zeros behind them up to sixteen octets; of more octets it is their MD5.
    ///
    /// Where the fields stand in a payload that says a key alone follows from their sizes.
    ///
    /// RTPS 2.5, 9.6.4.8 (KeyHash).
    Fields(Encoding, &'a [KeyField]),
    /// The type is a list of parameters, as announcements of endpoints are. The key is the sixteen octets of the GUID
    /// that it names: its first PID_ENDPOINT_GUID, or where it has none its first PID_PARTICIPANT_GUID.
    ///
    /// RTPS 2.5, 9.4.2 (ParameterList), 8.5.4 (the keys of SEDP) and 9.6 (ids).
    ParameterList,
}

/// What a topic carries.
#[derive(Clone, Copy)]
pub enum Kind<'a> {
    /// The datum of this project, which stands as it is.
    Datum,
    /// Another type: the value is the payload, with its representation and its options.
    Opaque(KeyRule<'a>),
}

/// What the topic of a writer carries.
#[derive(Clone, Copy)]
pub struct WriterKind<'a> {
    /// The writer.
    pub writer: Guid,
    /// What its topic carries.
    pub kind: Kind<'a>,
    /// How many octets a value of it has at most: a longer one is a number that can't be read.
    pub max_value: u32,
}

/// Whether a row is of a writer.
fn is_of(prefix: &GuidPrefix, entity: &EntityId, row: &WriterKind) -> bool
    ensures { result ≡ is_of prefix.now entity.now row.now }
{
    row.writer.prefix == *prefix && row.writer.entity == *entity
}

/// The first row of a writer.
fn row_of<'r, 'a>(
    kinds: &'r [WriterKind<'a>],
    prefix: &GuidPrefix,
    entity: &EntityId,
) -> Option<&'r WriterKind<'a>>
    ensures { option_copied result ≡ find (is_of prefix.now entity.now) kinds.now }
{
    kinds.iter().find(|row| is_of(prefix, entity, row))
}

/// Whether the table names a writer.
pub fn is_named(kinds: &[WriterKind], prefix: &GuidPrefix, entity: &EntityId) -> bool
    ensures { result ≡ is_some (find (is_of prefix.now entity.now) kinds.now) }
{
    row_of(kinds, prefix, entity).is_some()
}

/// What the topic of a writer carries: a datum, where the table does not say.
pub fn kind_of<'a>(kinds: &[WriterKind<'a>], prefix: &GuidPrefix, entity: &EntityId) -> Kind<'a>
    ensures { result ≡ kind_of kinds.now prefix.now entity.now }
{
    match row_of(kinds, prefix, entity) {
        Some(row) => row.kind,
        None => Kind::Datum,
    }
}

/// How many octets a value of a writer has at most: as many as usual, where the table does not say.
pub fn most_of(kinds: &[WriterKind], prefix: &GuidPrefix, entity: &EntityId) -> u32
    ensures { result ≡ most_of kinds.now prefix.now entity.now }
{
    match row_of(kinds, prefix, entity) {
        Some(row) => row.max_value,
        None => USUAL_VALUE,
    }
}

/// The rule of the key, where it is no datum.
pub fn rule_of<'a>(kind: Kind<'a>) -> Option<KeyRule<'a>>
    ensures { result ≡ rule_of kind.entry }
{
    match kind {
        Kind::Datum => None,
        Kind::Opaque(rule) => Some(rule),
    }
}

/// Whether the topic of a writer carries another type than the datum.
pub fn is_other(kinds: &[WriterKind], prefix: &GuidPrefix, entity: &EntityId) -> bool
    ensures { result ≡ is_some (rule_of (kind_of kinds.now prefix.now entity.now)) }
{
    rule_of(kind_of(kinds, prefix, entity)).is_some()
}

/// The key of the one instance of a type without a key.
pub const NO_KEY: Key = Key([0; 16]);
