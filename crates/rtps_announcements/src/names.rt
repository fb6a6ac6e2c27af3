//! The ids of parameters, lengths in octets and bounds, by name.
//!
//! `specs/Names.antt` has those that the grammar needs, with numbers of its own, and the contracts are of these.
//!
//! RTPS 2.5, 9.6 (ParameterId values).

// ---- ids of parameters

/// Ends the parameters.
pub const PID_SENTINEL: u16 = 0x0001;

/// The name of a topic.
pub const PID_TOPIC_NAME: u16 = 0x0005;

/// The strength of a writer, in 4 octets.
pub const PID_OWNERSHIP_STRENGTH: u16 = 0x0006;

/// The name of a type.
pub const PID_TYPE_NAME: u16 = 0x0007;

/// RELIABILITY.
pub const PID_RELIABILITY: u16 = 0x001a;

/// LIVELINESS.
pub const PID_LIVELINESS: u16 = 0x001b;

/// DURABILITY.
pub const PID_DURABILITY: u16 = 0x001d;

/// OWNERSHIP.
pub const PID_OWNERSHIP: u16 = 0x001f;

/// PRESENTATION.
pub const PID_PRESENTATION: u16 = 0x0021;

/// DEADLINE.
pub const PID_DEADLINE: u16 = 0x0023;

/// DESTINATION_ORDER.
pub const PID_DESTINATION_ORDER: u16 = 0x0025;

/// LATENCY_BUDGET.
pub const PID_LATENCY_BUDGET: u16 = 0x0027;

/// Where an endpoint can be reached, in place of its participant's locators.
pub const PID_UNICAST_LOCATOR: u16 = 0x002f;

/// How long a participant is taken to be there after it was last heard.
pub const PID_PARTICIPANT_LEASE_DURATION: u16 = 0x0002;

/// The domain of a participant.
pub const PID_DOMAIN_ID: u16 = 0x000f;

/// The version of the protocol.
pub const PID_PROTOCOL_VERSION: u16 = 0x0015;

/// The vendor.
pub const PID_VENDOR_ID: u16 = 0x0016;

/// Where the endpoints of a participant can be reached.
pub const PID_DEFAULT_UNICAST_LOCATOR: u16 = 0x0031;

/// Where the builtin endpoints of a participant can be reached.
pub const PID_METATRAFFIC_UNICAST_LOCATOR: u16 = 0x0032;

/// Which builtin endpoints a participant has.
pub const PID_BUILTIN_ENDPOINT_SET: u16 = 0x0058;

/// The tag of a domain, which must be understood.
pub const PID_DOMAIN_TAG: u16 = 0x4014;

/// The GUID of a participant, also in an announcement of one of its endpoints.
pub const PID_PARTICIPANT_GUID: u16 = 0x0050;

/// PARTITION.
pub const PID_PARTITION: u16 = 0x0029;

/// DATA_REPRESENTATION.
pub const PID_DATA_REPRESENTATION: u16 = 0x0073;

/// The GUID of an endpoint.
pub const PID_ENDPOINT_GUID: u16 = 0x005a;

/// A key hash, in 16 octets.
pub const PID_KEY_HASH: u16 = 0x0070;

/// A status info, in 4 octets.
pub const PID_STATUS_INFO: u16 = 0x0071;

/// From this id on a parameter must be understood, up to `VENDOR_IDS`: bit 0x4000 without bit 0x8000.
pub const MUST_UNDERSTAND_IDS: u16 = 0x4000;

/// From this id on parameters are a vendor's own.
pub const VENDOR_IDS: u16 = 0x8000;

// ---- lengths and bounds

/// Parameters have lengths that are multiples of this.
pub const LEN_ALIGNED: usize = 4;

/// A key hash.
pub const LEN_KEY: usize = 16;

/// A status info, and a strength.
pub const LEN_WORD: usize = 4;

/// A GUID prefix.
pub const LEN_PREFIX: usize = 12;

/// An entity id.
pub const LEN_ENTITY_ID: usize = 4;

/// From here on a duration has a negative number of seconds.
pub const SECONDS_END: u32 = 1 << 31;

/// The longest name of a topic or a type, in octets.
pub const MAX_NAME: usize = 256;

/// So many locators of a kind are read.
pub const MAX_LOCATORS: usize = 4;

/// LOCATOR_KIND_UDPv4.
pub const LOCATOR_KIND_UDP_V4: u32 = 1;

/// What stands before an address of IPv4 in the sixteen octets of an address.
pub const LEN_BEFORE_ADDRESS: usize = 12;

/// An address of IPv4.
pub const LEN_ADDRESS: usize = 4;

/// So many names a PARTITION has.
pub const MAX_PARTITIONS: usize = 16;

/// So many ids a DATA_REPRESENTATION has.
pub const MAX_REPRESENTATIONS: usize = 8;
