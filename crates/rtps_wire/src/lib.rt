//! Messages between peers, and their bytes.
//!
//! `read_message` gives the one message that bytes are, `begin_message` and `next_submessage` the same one submessage
//! after the other, without memory, and `next_frame` each before its body is read; `write_message` the one written form of
//! a message, and `write_change` that of the one that announces a change; what is written is read as itself.
//! `read_announcement` knows the one that announces a write, and reads it at once. `DataContent` is what a DATA says of a
//! change. The grammar stands in `specs/`, one file for each submessage, and in words in
//! `docs/WIRE.md`. Not here: what a peer does at a submessage.
//!
//! RTPS 2.5, 8.3 (messages) and 9.4 (their bytes).
//!
//! A message with change 1 of a writer, written and read again:
//!
//! ```rust
//! use dds_base::{DatumRef, EntityId, GuidPrefix, Key, Sn};
//! use rtps_wire::{
//!     ChangeBody, Data, DataContent, Message, Submessage, Submessages, is_writable, read_message,
//!     write_message,
//! };
//!
//! let value = [0x61, 0x62];
//! let data = Data {
//!     reader_id: EntityId::UNKNOWN,
//!     writer_id: EntityId::writer([0, 0, 1]),
//!     writer_sn: Sn::new(1),
//!     content: DataContent {
//!         body: ChangeBody::Write(DatumRef::new(Key([7; 16]), &value)),
//!         strength: None,
//!     },
//! };
//! let mut submessages = Submessages::new(alloc);
//! submessages.push(Submessage::Data(data))?;
//! let message = Message {
//!     prefix: GuidPrefix([1; 12]),
//!     submessages,
//! };
//! if is_writable(&message) {
//!     let bytes = write_message(alloc, &message)?;
//!     let read = read_message(alloc, &bytes)?; // Some: this message, with `stop` at the end of the bytes
//! }
//! ```
#![tactic(auto)]

mod acknack;
mod announced;
mod announcement;
mod content;
mod data;
mod field;
mod frame;
mod gap;
mod header;
mod heartbeat;
mod info_dst;
mod info_ts;
pub mod laws;
mod message;
mod names;
mod parameters;
mod payload;
mod read;
mod seek;
mod set_field;
mod submessage;
mod write;

pub use acknack::AckNack;
pub use announced::{Announcement, read_announcement};
pub use announcement::write_change;
pub use data::{ChangeBody, Data, DataContent};
pub use field::MAX_SN;
pub use frame::Frame;
pub use gap::Gap;
pub use header::{MAX_MESSAGE, MAX_TOGETHER};
pub use heartbeat::Heartbeat;
pub use message::{Message, Read};
pub use names::{MAX_BESIDE_VALUE, MAX_SUBMESSAGE};
pub use parameters::skip_parameters;
pub use read::{begin_message, next_frame, next_submessage, read_message};
pub use seek::{Sought, has_submessage};
pub use submessage::{FEW_SUBMESSAGES, Submessage, Submessages};
pub use write::{is_writable, write_message};
