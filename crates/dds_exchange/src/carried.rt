//! What the topic of an endpoint of ours carries.
//!
//! RTPS 2.5, clause 10 (SerializedPayload), 9.6.4.8 (KeyHash).

ghost use Rattle.std.specs.Prelude.{◌≡◌};
ghost use Rattle.dds_exchange.specs.Tables.{said_by, said_of};

use rtps_adapter::{Encoding, KeyField, KeyRule, Kind};

/// What the topic of an endpoint of ours carries.
#[derive(Drop)]
pub enum Carried {
    /// The datum of this project.
    Datum,
    /// Another type, without a key: a value is a payload of it, with its representation and its options.
    Keyless,
    /// Another type, with these key fields, likewise.
    Keyed(Encoding, Vec<KeyField>),
}

impl Carried {
    /// The same, as datagrams are turned by it.
    pub fn kind(&self) -> Kind<'_>
        // It says the same type, and the same fields.
        ensures kind { said_of result ≡ said_by self.now }
    {
        match self {
            Carried::Datum => Kind::Datum,
            Carried::Keyless => Kind::Opaque(KeyRule::Keyless),
            Carried::Keyed(encoding, fields) => {
                Kind::Opaque(KeyRule::Fields(*encoding, fields.as_slice()))
            }
        }
    }
}
