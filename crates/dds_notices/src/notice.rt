//! What a listener is told.
//!
//! DDS 1.4, 2.2.4.1 (communication statuses).

use dds_base::{
    Entity, LivelinessChangedStatus, LivelinessLostStatus, MatchedStatus, SampleLostStatus,
};

/// A communication status, with its values.
///
/// DDS 1.4, 2.2.4.1.
#[derive(Clone, Copy, Debug, PartialEq, Eq)]
pub enum Status {
    /// SAMPLE_LOST, of a reader.
    SampleLost(SampleLostStatus),
    /// DATA_AVAILABLE, of a reader. It has no values.
    DataAvailable,
    /// LIVELINESS_LOST, of a writer.
    LivelinessLost(LivelinessLostStatus),
    /// LIVELINESS_CHANGED, of a reader.
    LivelinessChanged(LivelinessChangedStatus),
    /// PUBLICATION_MATCHED, of a writer.
    PublicationMatched(MatchedStatus),
    /// SUBSCRIPTION_MATCHED, of a reader.
    SubscriptionMatched(MatchedStatus),
}

/// That a status of an entity was raised. The values are those of that moment, and their changes count from the last
/// look at that status, or the last notice of it.
///
/// DDS 1.4, 2.2.4.3 (access through listeners).
#[derive(Clone, Copy, Debug, PartialEq, Eq)]
pub struct Notice {
    /// Whose status it is: a writer or a reader, also where the participant's listener is told.
    pub entity: Entity,
    /// Which status was raised, and its values.
    pub status: Status,
}
