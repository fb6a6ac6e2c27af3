//! What participants announce of themselves and of their endpoints, and its bytes.
//!
//! `read_participant` gives the participant that an announcement of SPDP is about, and `read_endpoint` the DataWriter or
//! the DataReader that one of SEDP is about; `read_guid` says who leaves. The announcement lends the names, and no memory
//! is taken. `write_participant`, `write_endpoint` and `write_guid` give the one written form of each. The grammar stands
//! in `specs/`, and in words in `docs/WIRE.md`, "Announcements". Not here: who is matched with whom, and what is sent
//! when.
//!
//! RTPS 2.5, 8.5 (discovery), 9.4.2 (ParameterList), 9.6 (ParameterId values), clause 10 (PL_CDR); DDS 1.4, 2.2.3
//! (policies).
//!
//! A publication, as the DATA of SEDP that `source` sent carries it:
//!
//! ```rust
//! use rtps_announcements::{EndpointKind, read_endpoint};
//!
//! if let Some(writer) = read_endpoint(source, EndpointKind::Writer, payload) {
//!     let topic = writer.topic_name.as_slice(); // the octets of its name, in `payload`
//!     let lease = writer.policies.liveliness.lease.units(); // None: no end
//! }
//! ```
#![tactic(auto)]

mod endpoint;
mod guid;
pub mod laws;
mod list;
mod locator;
mod name;
mod names;
mod participant;
mod partition;
mod policies;
mod put;
mod qos;
mod representation;
mod writable;
mod write;

pub use dds_base::{
    DestinationOrderQos, DurabilityQos, Duration, LivelinessKind, LivelinessQos, Policies,
    PresentationQos, PresentationScope,
};
pub use endpoint::{Endpoint, read_endpoint};
pub use guid::read_guid;
pub use list::first_value;
pub use locator::{Locator, Locators};
pub use name::Name;
pub use participant::{Participant, VendorId, read_participant};
pub use partition::Partitions;
pub use qos::EndpointKind;
pub use representation::Representations;
pub use writable::{is_writable_endpoint, is_writable_participant};
pub use write::{write_endpoint, write_guid, write_participant};
