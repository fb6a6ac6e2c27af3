//! What every crate of a peer speaks of: keys, values and their bytes, names, numbers, changes, what happens at a
//! reader, the configuration, and which policies do not fit.
//!
//! DDS 1.4, 2.2.1.1 (return codes), 2.2.2.5 (SampleInfo), 2.2.3 (supported QoS); RTPS 2.5, 8.2 (names, numbers,
//! changes), clause 10 (the bytes of a datum).
//! `specs/` holds the definitions that the contracts of several crates share.
//! Not here: what a writer keeps, what a reader holds, and messages.
//!
//! Two peers on topic 0, a writer at the first and a reader at the second:
//!
//! ```rust
//! use dds_base::{
//!     Config, EntityId, GuidPrefix, PeerConfig, ReaderConfig, Sequence, WriterConfig,
//! };
//!
//! let writer = WriterConfig::new(EntityId::writer([0, 0, 1]), 0);
//! let reader = ReaderConfig::new(EntityId::reader([0, 0, 1]), 0);
//! let first = PeerConfig {
//!     prefix: GuidPrefix([1; 12]),
//!     writers: Sequence::from_vec(vec![in alloc; writer]?),
//!     readers: Sequence::from_vec(Vec::new(alloc)),
//! };
//! let second = PeerConfig {
//!     prefix: GuidPrefix([2; 12]),
//!     writers: Sequence::from_vec(Vec::new(alloc)),
//!     readers: Sequence::from_vec(vec![in alloc; reader]?),
//! };
//! let config = Config {
//!     peers: Sequence::from_vec(vec![in alloc; first, second]?),
//! };
//! config.check()?; // taken; else the code of the first cause, whose rule and place `config.fault()` names
//! ```
#![tactic(auto)]

mod change;
mod code;
mod config;
mod config_check;
mod config_fault;
mod config_rules;
mod count;
mod datum;
mod duration;
mod each_entity;
mod endianness;
mod endpoint;
mod entity;
mod field;
mod guid;
mod handle;
mod happening;
mod key;
pub mod laws;
mod lease;
mod mask;
mod moment;
mod number;
mod octets;
mod offers;
mod policies;
mod qos;
mod sample;
mod selection;
mod sequence;
mod sn;
mod spare;
mod status;
mod unfit;

pub use change::{Change, ChangeKind};
pub use code::Code;
pub use config::{Config, PeerConfig, ReaderConfig, USUAL_VALUE, WriterConfig};
pub use config_fault::{ConfigFault, ConfigPlace, ConfigRule};
pub use config_rules::MAX_ENDS;
pub use count::{MAX_COUNT, is_later};
pub use datum::{
    Datum, DatumRef, MAX_VALUE, decode_datum, decode_datum_key, decode_datum_ref, decode_key,
    encode_datum, encode_key, take_key,
};
pub use duration::Duration;
pub use each_entity::EachEntity;
pub use endianness::Endianness;
pub use endpoint::Endpoint;
pub use entity::Entity;
pub use field::{take_octets, take_u16, take_u32};
pub use guid::{EntityId, Guid, GuidPrefix};
pub use handle::Handle;
pub use happening::{Arrival, Happening, PassedRun, SamplePosition, StatusKind};
pub use key::Key;
pub use lease::is_over;
pub use mask::{InstanceStateMask, Masks, SampleStateMask, ViewStateMask};
pub use moment::{MOMENT_END, Moment};
pub use number::{index_of, index_of_peer};
pub use octets::Octets;
pub use offers::unfit_policies;
pub use policies::{
    DestinationOrderQos, DurabilityQos, LivelinessKind, LivelinessQos, Policies, PresentationQos,
    PresentationScope, destination_order_code, durability_code, liveliness_code, ownership_code,
    reliability_code, scope_code,
};
pub use qos::{HistoryQos, MatchedWriter, OwnershipQos, ReaderQos, ReliabilityQos};
pub use sample::{InstanceState, Picked, Sample, SampleInfo, SampleState, ViewState};
pub use selection::{Scope, Selection};
pub use sequence::Sequence;
pub use sn::{MAX_SN, Sn};
pub use spare::{Spare, reserve_few};
pub use status::{LivelinessChangedStatus, LivelinessLostStatus, MatchedStatus, SampleLostStatus};
pub use unfit::UnfitPolicies;
