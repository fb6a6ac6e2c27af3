//! What a DATA says of a change, and the change that it means.
//!
//! RTPS 2.5, 8.2 (CacheChange) and 8.3 (Data). Not here: how that stands in bytes, which `data` says.

ghost use Rattle.std.specs.Prelude.{◌≡◌, [], IfOk};
ghost use Rattle.rtps_wire.specs.Content.{content_of, change_in};

use crate::data::{ChangeBody, DataContent};
use dds_base::{Change, ChangeKind, DatumRef, Moment, Octets};
use std::alloc::{AllocError, Global};

impl<'a> DataContent<'a> {
    /// What a DATA says of a change: its kind, its key, the strength of its writer, and of a write the value, which the
    /// change lends. Takes no memory.
    pub fn of_change(change: &'a Change) -> DataContent<'a>
        ensures says { result ≡ content_of change.now }
    {
        let key = change.key;
        let body = match change.kind {
            ChangeKind::Write => ChangeBody::Write(DatumRef::new(key, change.value.as_slice())),
            ChangeKind::Dispose => ChangeBody::Dispose(key),
            ChangeKind::Unregister => ChangeBody::Unregister(key),
            ChangeKind::DisposeUnregister => ChangeBody::DisposeUnregister(key),
        };
        DataContent {
            body,
            strength: change.strength,
        }
    }

    /// The change that a DATA means, made at this moment, with a value of its own.
    ///
    /// # Errors
    ///
    /// Where no memory was found for the value.
    pub fn to_change(&self, alloc: Global, source_timestamp: Moment) -> Result<Change, AllocError>
        ensures means { IfOk result (λ change. change ≡ change_in self.now source_timestamp) }
    {
        let (kind, key, value) = match &self.body {
            ChangeBody::Write(datum) => (
                ChangeKind::Write,
                datum.key(),
                Octets::from_vec(Vec::from_slice(alloc, datum.value())?),
            ),
            ChangeBody::Dispose(key) => (ChangeKind::Dispose, *key, no_octets(alloc)),
            ChangeBody::Unregister(key) => (ChangeKind::Unregister, *key, no_octets(alloc)),
            ChangeBody::DisposeUnregister(key) => {
                (ChangeKind::DisposeUnregister, *key, no_octets(alloc))
            }
        };
        Ok(Change {
            kind,
            key,
            value,
            source_timestamp,
            strength: self.strength,
        })
    }
}

/// The value of a change that is no write.
fn no_octets(alloc: Global) -> Octets
    ensures { result ≡ [] }
{
    Octets::from_vec(Vec::new(alloc))
}
