//! The numbers of the protocol, by name: versions, ids, flags and lengths in octets.
//!
//! `specs/Names.antt` has those that the grammar needs, with numbers of its own, and the contracts are of these. The
//! lengths of what is made of fields follow there from the texts.
//!
//! RTPS 2.5, 9.3 (fields), 9.4.4 (header), 9.4.5 (submessages), 9.6 (parameters) and 10 (payload).

use dds_base::{MAX_VALUE, USUAL_VALUE};
use rtps_sets::MAX_BITS;

// ---- the header of a message

/// The major version: messages of another are none.
pub const MAJOR_VERSION: u8 = 2;

/// The minor version, as written.
pub const MINOR_VERSION: u8 = 5;

/// VENDORID_UNKNOWN, as written.
pub const VENDOR_UNKNOWN: [u8; 2] = [0, 0];

// ---- ids of submessages (9.4.5.1, submessageId)

/// PAD: nothing.
pub const ID_PAD: u8 = 0x01;

/// ACKNACK: which changes a reader has, and which it misses.
pub const ID_ACKNACK: u8 = 0x06;

/// HEARTBEAT: which changes a writer has.
pub const ID_HEARTBEAT: u8 = 0x07;

/// GAP: changes that will not come.
pub const ID_GAP: u8 = 0x08;

/// INFO_TS: the source timestamp of what follows.
pub const ID_INFO_TS: u8 = 0x09;

/// INFO_DST: the peer that what follows is for.
pub const ID_INFO_DST: u8 = 0x0e;

/// DATA: a change of a writer.
pub const ID_DATA: u8 = 0x15;

// ---- flags of submessages

/// E of each submessage, EndiannessFlag: its numbers are little-endian.
pub const FLAG_ENDIANNESS: u8 = 0x01;

/// I of INFO_TS, InvalidateFlag: what follows has no source timestamp.
pub const FLAG_INVALIDATE: u8 = 0x02;

/// F of ACKNACK and HEARTBEAT, FinalFlag: no answer is asked for.
pub const FLAG_FINAL: u8 = 0x02;

/// L of HEARTBEAT, LivelinessFlag: the writer is asserted.
pub const FLAG_LIVELINESS: u8 = 0x04;

/// Q of DATA, InlineQosFlag: parameters follow.
pub const FLAG_INLINE_QOS: u8 = 0x02;

/// D of DATA, DataFlag: the payload is a datum.
pub const FLAG_DATA: u8 = 0x04;

/// K of DATA, KeyFlag: the payload is a key form.
pub const FLAG_KEY: u8 = 0x08;

/// N of DATA, NonStandardPayloadFlag: the payload is none of these.
pub const FLAG_NON_STANDARD: u8 = 0x10;

// ---- parameters of a DATA

/// Ends the parameters.
pub const PID_SENTINEL: u16 = 0x0001;

/// The strength of the writer, in 4 octets.
pub const PID_OWNERSHIP_STRENGTH: u16 = 0x0006;

/// The key, in 16 octets.
pub const PID_KEY_HASH: u16 = 0x0070;

/// What is said of the instance, in the last of 4 octets.
pub const PID_STATUS_INFO: u16 = 0x0071;

/// The bit of the status info that says disposed.
pub const STATUS_DISPOSED: u8 = 0x01;

/// The bit of the status info that says unregistered.
pub const STATUS_UNREGISTERED: u8 = 0x02;

// ---- lengths of fields

/// A GUID prefix.
pub const LEN_PREFIX: usize = 12;

/// An entity id.
pub const LEN_ENTITY_ID: usize = 4;

/// A sequence number.
pub const LEN_SN: usize = 8;

/// A count.
pub const LEN_COUNT: usize = 4;

/// A moment.
pub const LEN_MOMENT: usize = 8;

/// A set's base and its number of bits.
pub const LEN_SET_HEAD: usize = 12;

/// A word of a set.
pub const LEN_WORD: usize = 4;

/// A key, as it stands in a key form and in a key hash.
pub const LEN_KEY: usize = 16;

/// The value of a status info.
pub const LEN_STATUS_INFO: usize = 4;

/// The value of a strength.
pub const LEN_OWNERSHIP_STRENGTH: usize = 4;

/// The id of a parameter and its length.
pub const LEN_PARAMETER_HEAD: usize = 4;

/// Parameters have lengths that are multiples of this, and bodies as they are written.
pub const LEN_ALIGNED: usize = 4;

/// So many values has a half of a sequence number, and a half of a moment: four octets.
pub const HALF_RANGE: u64 = 1 << 32;

// ---- lengths of what is made of fields

/// The header of a message: protocol, version, vendor id and GUID prefix.
pub const LEN_HEADER: usize = 8 + LEN_PREFIX;

/// The header of a submessage: id, flags and length.
pub const LEN_SUBMESSAGE_HEADER: usize = 4;

/// The body of a HEARTBEAT.
pub const LEN_HEARTBEAT: usize = 2 * LEN_ENTITY_ID + 2 * LEN_SN + LEN_COUNT;

/// The body of an ACKNACK without its set.
pub const LEN_ACKNACK_REST: usize = 2 * LEN_ENTITY_ID + LEN_COUNT;

/// The body of a GAP without its set.
pub const LEN_GAP_HEAD: usize = 2 * LEN_ENTITY_ID + LEN_SN;

/// extraFlags, as written.
pub const EXTRA_FLAGS: u16 = 0;

/// octetsToInlineQos where no octets are skipped: it counts from its own end over readerId, writerId and writerSN.
pub const LEAST_OCTETS_TO_INLINE_QOS: u16 = 16;

/// The body of a DATA up to its number.
pub const LEN_DATA_HEAD: usize = 4 + 2 * LEN_ENTITY_ID + LEN_SN;

/// The representation identifier of little-endian numbers, as written.
pub const CDR_LE: [u8; 2] = [0, 1];

/// The options of a payload, as written.
pub const NO_OPTIONS: [u8; 2] = [0, 0];

/// A key form: representation, options and key.
pub const LEN_KEY_FORM: usize = 4 + LEN_KEY;

/// A datum up to its value: a key form and the length of the value.
pub const LEN_DATUM_HEAD: usize = LEN_KEY_FORM + 4;

/// Key hash, status info and sentinel.
pub const LEN_PARAMETERS: usize = 3 * LEN_PARAMETER_HEAD + LEN_KEY + LEN_STATUS_INFO;

/// The parameter of a strength.
pub const LEN_STRENGTH: usize = LEN_PARAMETER_HEAD + LEN_OWNERSHIP_STRENGTH;

// ---- the longest that is written

/// The most words of a set: each has 32 bits.
pub const MAX_WORDS: usize = MAX_BITS / 32;

/// What stands before the words of a set, in words: its base in two, and its number of bits.
pub const SET_HEAD_WORDS: usize = LEN_SET_HEAD / LEN_WORD;

/// The longest set, in words.
pub const MAX_SET_WORDS: usize = SET_HEAD_WORDS + MAX_WORDS;

/// The longest set: of 256 bits.
pub const MAX_SET: usize = LEN_SET_HEAD + MAX_WORDS * LEN_WORD;

/// The longest content of a DATA: a strength, the sentinel, and a datum of the longest value.
pub const MAX_CONTENT: usize = LEN_STRENGTH + LEN_PARAMETER_HEAD + LEN_DATUM_HEAD + MAX_VALUE;

/// The longest fields of a submessage: those of a DATA.
pub const MAX_FIELDS: usize = LEN_DATA_HEAD + MAX_CONTENT;

/// The longest submessage: a DATA with its header, in 65,060 octets.
pub const MAX_SUBMESSAGE: usize = LEN_SUBMESSAGE_HEADER + MAX_FIELDS;

/// The longest submessage where values have at most `USUAL_VALUE` octets: a DATA with its header, in 1,084 octets.
pub const MAX_USUAL_SUBMESSAGE: usize = MAX_SUBMESSAGE - MAX_VALUE + USUAL_VALUE as usize;

/// So many octets a submessage takes at most beside those of its value.
pub const MAX_BESIDE_VALUE: usize = 87;
