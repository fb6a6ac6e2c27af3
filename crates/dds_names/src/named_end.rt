//! A name, the GUID that it stands for, and whether two of them go together.
//!
//! RTPS 2.5, 8.2 (GUID_t), 9.3 (GUIDPREFIX_UNKNOWN, entity kinds); DDS 1.4, 2.2.3 (RELIABILITY, not changeable).

ghost use Rattle.std.specs.Prelude.{◌≡◌};
ghost use Rattle.dds_machine.specs.Naming.{agree_on_ends, agree_on_peers, both_or_neither, is_no_name};
ghost use Rattle.dds_machine.specs.Part.{same_endpoint};
ghost use Rattle.dds_names.specs.Known.{name_of};

use dds_base::{Endpoint, Guid, GuidPrefix};

/// A writer or a reader, by the name by which a peer speaks of it, and by its GUID.
#[derive(Clone, Copy)]
pub struct NamedEnd {
    /// The number of its participant, which stands for one GUID prefix, and its own number there.
    pub end: Endpoint,
    /// Its GUID, which no other writer or reader has.
    pub guid: Guid,
    /// Whether it is a reliable reader, which can't change. Of a writer it is true.
    pub is_reliable: bool,
}

impl NamedEnd {
    /// Whether it and another one are of one participant exactly if their GUIDs have one prefix.
    pub fn agrees_on_peers(&self, other: &NamedEnd) -> bool
        ensures { result ≡ agree_on_peers (name_of self.now) (name_of other.now) }
    {
        if self.end.peer == other.end.peer {
            self.guid.prefix == other.guid.prefix
        } else {
            self.guid.prefix != other.guid.prefix
        }
    }

    /// Whether it and another one, both writers or both readers, are of one end exactly if they have one GUID, and are
    /// then both reliable, or both not.
    pub fn agrees_on_ends(&self, other: &NamedEnd) -> bool
        ensures { result ≡ agree_on_ends (name_of self.now) (name_of other.now) }
    {
        let same_guid = self.guid.prefix == other.guid.prefix
            && self.guid.entity == other.guid.entity;
        if self.is_of_end(other) {
            same_guid && self.is_as_reliable(other)
        } else {
            !same_guid
        }
    }

    /// Whether both are reliable, or neither.
    fn is_as_reliable(&self, other: &NamedEnd) -> bool
        ensures { result ≡ both_or_neither self.now.is_reliable other.now.is_reliable }
    {
        if self.is_reliable {
            other.is_reliable
        } else {
            !other.is_reliable
        }
    }

    /// Whether it is of the end that this other one is of, where both are of writers or both of readers.
    pub fn is_of_end(&self, other: &NamedEnd) -> bool
        ensures { result ≡ same_endpoint self.now.end other.now.end }
    {
        if self.end.peer == other.end.peer {
            self.end.number == other.end.number
        } else {
            false
        }
    }

    /// Whether it is no name for an end of this kind: a number of 0, the prefix of no participant, or an entity of
    /// another kind.
    pub fn is_no_name(&self, kind: u8) -> bool
        ensures { result ≡ is_no_name kind (name_of self.now) }
    {
        self.end.peer == 0
            || self.end.number == 0
            || self.guid.prefix == GuidPrefix::UNKNOWN
            || self.guid.entity.0[3] != kind
    }
}
