//! Whether what a call asks of a writer of ours is of the type that its topic carries.
//!
//! RTPS 2.5, clause 10 (SerializedPayload), 9.6.4.8 (KeyHash).

ghost use Rattle.std.specs.Prelude.{◌↔◌, IsTrue};
ghost use Rattle.rtps_wire.specs.declared.data.ChangeBody.TheVariants.{Dispose, Write};
ghost use Rattle.dds_exchange.specs.Fitting.{Fits, FitsEnd};
ghost use Rattle.dds_exchange.specs.Naming.{end_at};

use crate::ends::{OwnEnd, end_at};
use dds_base::Key;
use dds_machine::Call;

/// Whether a value is of the type of a writer, and has this key.
fn fits_value(writers: &[OwnEnd], writer: u8, key: &Key, value: &[u8]) -> bool
    ensures { IsTrue result ↔ FitsEnd (end_at writer writers.now)
        (Write (record { key = key.now; value = value.now })) }
{
    match end_at(writers, writer) {
        Some(end) => rtps_adapter::fits(end.carried.kind(), key, value),
        None => true,
    }
}

/// Whether a key is one of the type of a writer, and can be said alone.
fn fits_key(writers: &[OwnEnd], writer: u8, key: &Key) -> bool
    ensures { IsTrue result ↔ FitsEnd (end_at writer writers.now) (Dispose key.now) }
{
    match end_at(writers, writer) {
        Some(end) => rtps_adapter::fits_key(end.carried.kind(), key),
        None => true,
    }
}

/// Whether what a call asks of a writer of ours is of the type that its topic carries.
pub fn fits(writers: &[OwnEnd], call: &Call) -> bool
    ensures fits { IsTrue result ↔ Fits writers.now call.now }
{
    match call {
        Call::Write { writer, key, value } => {
            fits_value(writers, *writer, key, value.as_slice())
        }
        Call::Register { writer, key }
        | Call::Dispose { writer, key }
        | Call::Unregister { writer, key } => fits_key(writers, *writer, key),
        _ => true,
    }
}
