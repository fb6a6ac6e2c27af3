//! Whom the rest of a message is for, and when its changes were made.
//!
//! RTPS 2.5, 8.3.4 (the message receiver), 9.4.5 (InfoDestination, InfoTimestamp).

ghost use Rattle.std.specs.Prelude.{◌≡◌};
ghost use Rattle.dds_protocol.specs.Claims.{receiver_of, is_for, stamp_of, after_submessage};
ghost use Rattle.dds_ends.specs.Readiness.{receiver_at};
ghost use Rattle.dds_base.specs.declared.guid.GuidPrefix.{GuidPrefix as GuidPrefixOf};
ghost use Rattle.rtps_wire.specs.declared.submessage.Submessage.TheVariants.{InfoDst, InfoTs};

use dds_base::{GuidPrefix, MOMENT_END, Moment};

/// What a receiver knows of what follows in a message.
///
/// RTPS 2.5, 8.3.4.
#[derive(Clone, Copy)]
pub struct MessageReceiver {
    /// The peer that speaks.
    pub source: GuidPrefix,
    /// The peer that it speaks to; `GuidPrefix::UNKNOWN` for all.
    pub destination: GuidPrefix,
    /// When the changes that follow were made; the beginning where nothing said it.
    pub timestamp: Moment,
}

/// The receiver at the begin of a message of this prefix.
pub fn receiver_for(prefix: GuidPrefix) -> MessageReceiver
    ensures { receiver_at result ≡ receiver_of prefix }
{
    MessageReceiver {
        source: prefix,
        destination: GuidPrefix::UNKNOWN,
        timestamp: Moment::new(0),
    }
}

/// Whether this part of the message is for the peer of this prefix.
pub fn is_for(receiver: &MessageReceiver, own: &GuidPrefix) -> bool
    ensures { result ≡ is_for (receiver_at receiver.now) own.now }
{
    receiver.destination == *own || receiver.destination == GuidPrefix::UNKNOWN
}

/// The moment that an INFO_TS gives: the beginning where it gives none.
fn moment_of(stamp: Option<u64>) -> Moment
    ensures { result ≡ stamp_of stamp }
{
    match stamp {
        Some(units) if units < MOMENT_END => Moment::new(units),
        _ => Moment::new(0),
    }
}

impl MessageReceiver {
    /// An INFO_DST comes: what follows is for the peer of this prefix.
    pub fn note_destination(&mut self, prefix: GuidPrefix)
        ensures { (own : GuidPrefixOf) → receiver_at self.new
            ≡ after_submessage own (receiver_at self.old) (InfoDst prefix) }
    {
        self.destination = prefix;
    }

    /// An INFO_TS comes to the peer of this prefix: a part for another peer sets no moment.
    pub fn note_timestamp(&mut self, own: &GuidPrefix, stamp: Option<u64>)
        ensures { receiver_at self.new
            ≡ after_submessage own.now (receiver_at self.old) (InfoTs stamp) }
    {
        if is_for(self, own) {
            self.timestamp = moment_of(stamp);
        }
    }
}
