//! Names of peers, writers and readers.
//!
//! RTPS 2.5, 8.2 (GUID_t) and 9.3 (its octets).

ghost use Rattle.std.specs.Prelude.{◌≡◌, ◌<◌, ℕ, [], ◌∷◌, ◌++◌, length, take, drop, get_or, nat_eq, slice_index};
ghost use Rattle.std.specs.Cmp.Lexicographic.{pointwise};
ghost use Rattle.std.specs.Cmp.Rules.{comparing};
ghost use Rattle.std.specs.Ordering.{on};
ghost use Rattle.std.specs.Int.{w32, w64, from_le_bytes};
ghost use Rattle.std.proofs.Common.{rules};

/// What the GUIDs of one peer begin with: twelve octets, which mean nothing but that peer.
///
/// RTPS 2.5, 8.2 (GuidPrefix_t).
#[derive(Clone, Copy, Debug)]
pub struct GuidPrefix(pub [u8; 12]);

impl GuidPrefix {
    /// GUIDPREFIX_UNKNOWN: no peer in particular. No peer has it, and a receiver takes it for every peer.
    pub const UNKNOWN: GuidPrefix = GuidPrefix([0; 12]);

    /// The twelve octets, in their order.
    pub fn as_slice(&self) -> &[u8]
        // They are those that it is made of.
        ensures same { result.now ≡ self.now.0 }
        // There are twelve.
        ensures len { length self.now.0 ≡ 12 }
    {
        &self.0
    }
}

/// The octets as two numbers, by which prefixes are compared.
fn parts(octets: [u8; 12]) -> (u64, u32)
    ensures first { result.0 ≡ from_le_bytes w64 (take 8 octets) }
    ensures second { result.1 ≡ from_le_bytes w32 (drop 8 octets) }
    ensures octets { (i : ℕ) → get_or octets i 0 < 256 }
{
    let [a, b, c, d, e, f, g, h, i, j, k, l] = octets;
    (
        u64::from_le_bytes([a, b, c, d, e, f, g, h]),
        u32::from_le_bytes([i, j, k, l]),
    )
}

impl PartialEq for GuidPrefix {
    ghost eq = { on (λ x. x.0) (pointwise nat_eq) };

    ghost laws = { Prim.search (comparing, rules) };

    fn eq(&self, other: &GuidPrefix) -> bool {
        let (first, second) = parts(self.0);
        let (other_first, other_second) = parts(other.0);
        (first == other_first) & (second == other_second)
    }
}

impl Eq for GuidPrefix {
    ghost laws = { Prim.search (comparing, rules) };
}

/// A writer or a reader of a peer: three octets of a key, then the kind. `writer` and `reader` make one from its key.
///
/// RTPS 2.5, 8.2 (EntityId_t) and 9.3: 0x02 is a writer, 0x07 a reader, each with a key; four zeros are
/// ENTITYID_UNKNOWN.
#[derive(Clone, Copy, Debug)]
pub struct EntityId(pub [u8; 4]);

impl EntityId {
    /// The last octet of a writer with a key.
    pub const WRITER_KIND: u8 = 0x02;

    /// The last octet of a reader with a key.
    pub const READER_KIND: u8 = 0x07;

    /// ENTITYID_UNKNOWN: no entity in particular. A receiver takes it for all that match.
    pub const UNKNOWN: EntityId = EntityId([0; 4]);

    /// The writer with this key.
    ///
    /// RTPS 2.5, 9.3 (entity kind 0x02, a user-defined writer with a key).
    pub fn writer(key: [u8; 3]) -> EntityId
        ensures octets { result.0 ≡ key ++ 2 ∷ [] }
    {
        let [first, second, third] = key;
        EntityId([first, second, third, EntityId::WRITER_KIND])
    }

    /// The reader with this key.
    ///
    /// RTPS 2.5, 9.3 (entity kind 0x07, a user-defined reader with a key).
    pub fn reader(key: [u8; 3]) -> EntityId
        ensures octets { result.0 ≡ key ++ 7 ∷ [] }
    {
        let [first, second, third] = key;
        EntityId([first, second, third, EntityId::READER_KIND])
    }

    /// What kind of entity it is: `WRITER_KIND`, `READER_KIND`, or one that no peer has.
    ///
    /// RTPS 2.5, 9.3 (entityKind, the last octet).
    pub fn kind(self) -> u8
        ensures kind { result ≡ slice_index self.0 3 }
    {
        self.0[3]
    }

    /// The four octets, in their order.
    pub fn as_slice(&self) -> &[u8]
        // They are those that it is made of.
        ensures same { result.now ≡ self.now.0 }
        // There are four.
        ensures len { length self.now.0 ≡ 4 }
    {
        &self.0
    }
}

/// The octets as a number, by which entities are compared.
fn word(octets: [u8; 4]) -> u32
    ensures number { result ≡ from_le_bytes w32 octets }
    ensures octets { (i : ℕ) → get_or octets i 0 < 256 }
{
    u32::from_le_bytes(octets)
}

impl PartialEq for EntityId {
    ghost eq = { on (λ x. x.0) (pointwise nat_eq) };

    ghost laws = { Prim.search (comparing, rules) };

    fn eq(&self, other: &EntityId) -> bool {
        word(self.0) == word(other.0)
    }
}

impl Eq for EntityId {
    ghost laws = { Prim.search (comparing, rules) };
}

/// The name of a writer or a reader among all peers.
///
/// RTPS 2.5, 8.2 (GUID_t).
#[derive(Clone, Copy, Debug, PartialEq, Eq)]
pub struct Guid {
    /// Its peer.
    pub prefix: GuidPrefix,
    /// Which of the peer's writers and readers it is.
    pub entity: EntityId,
}
