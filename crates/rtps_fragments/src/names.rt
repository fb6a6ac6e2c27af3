//! Numbers of the protocol that a DATA_FRAG needs, by name, and the bounds of this project.
//!
//! RTPS 2.5, 9.4.5.

/// DATA, as its id says.
pub const ID_DATA: u8 = 0x15;

/// DATA_FRAG, as its id says.
pub const ID_DATA_FRAG: u8 = 0x16;

/// NACK_FRAG, as its id says.
pub const ID_NACK_FRAG: u8 = 0x12;

/// INFO_DST, as its id says.
pub const ID_INFO_DST: u8 = 0x0e;

/// INFO_TS, as its id says.
pub const ID_INFO_TS: u8 = 0x09;

/// E of each submessage: numbers are little-endian.
pub const FLAG_ENDIANNESS: u8 = 0x01;

/// I of INFO_TS: there is no timestamp.
pub const FLAG_INVALIDATE: u8 = 0x02;

/// Q of DATA and DATA_FRAG: parameters follow.
pub const FLAG_INLINE_QOS: u8 = 0x02;

/// D of DATA: the payload is a value.
pub const FLAG_DATA: u8 = 0x04;

/// K of DATA: the payload is a key.
pub const FLAG_KEY: u8 = 0x08;

/// K of DATA_FRAG: the payload is a key.
pub const FLAG_FRAG_KEY: u8 = 0x04;

/// N of DATA_FRAG: the payload is of another form.
pub const FLAG_FRAG_NON_STANDARD: u8 = 0x08;

/// octetsToInlineQos of a DATA_FRAG where no octets are skipped.
pub const LEAST_OCTETS_TO_INLINE_QOS: u16 = 28;

/// So many octets of parameters and payload a DATA carries in one datagram.
pub const MAX_CARRIED: usize = 65_435;

/// So many numbers of a writer are kept at a time.
pub const MAX_NUMBERS: usize = 16;

/// So many fragments one NACK_FRAG asks for at most.
pub const MAX_ASKED: usize = 256;
