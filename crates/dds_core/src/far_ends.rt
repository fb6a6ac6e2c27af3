//! What a peer reads of the ends of other participants that it is told of.
//!
//! RTPS 2.5, 8.4.7.4, 8.4.10.3 (matched_reader_add, matched_writer_add); DDS 1.4, 2.2.3 (LIVELINESS).

ghost use Rattle.std.specs.Prelude.{◌≡◌};
ghost use Rattle.dds_base.specs.Checked.{is_bad_lease};
ghost use Rattle.dds_machine.specs.Calls.{as_matched};

use dds_base::{LivelinessKind, MOMENT_END, MatchedWriter};
use dds_machine::FarWriter;

/// What a reader keeps of a writer that it is told of: its lease where it asserts itself by topic, or else one that never
/// ends.
///
/// DDS 1.4, 2.2.3 (LIVELINESS).
pub(crate) fn as_matched(far: &FarWriter) -> MatchedWriter
    ensures { result ≡ as_matched far.now }
{
    let liveliness = far.offered.liveliness;
    let lease = match liveliness.kind {
        LivelinessKind::ManualByTopic => liveliness.lease.units(),
        LivelinessKind::Automatic | LivelinessKind::ManualByParticipant => None,
    };
    MatchedWriter {
        guid: far.guid,
        strength: far.offered.strength,
        lease,
    }
}

/// Whether no writer may have this lease: it is 0, or of 2^63 units and more.
///
/// DDS 1.4, 2.2.3 (LIVELINESS).
pub(crate) fn is_bad_lease(lease: Option<u64>) -> bool
    ensures { result ≡ is_bad_lease lease }
{
    match lease {
        None => false,
        Some(lease) => lease == 0 || MOMENT_END <= lease,
    }
}
