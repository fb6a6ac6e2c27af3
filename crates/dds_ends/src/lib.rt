//! The ends of a peer: a writer and a reader, with whom each is matched, what they keep, say and are told.
//!
//! RTPS 2.5, 8.4.7 (StatefulWriter), 8.4.10 (StatefulReader), 8.3.4 (the message receiver); DDS 1.4, 2.2.2.4 (DataWriter),
//! 2.2.2.5 (DataReader), 2.2.4.1 (communication statuses).
//! Not here: the peer that has them, its calls, its time and the bytes that come to it (`dds_core`, which alone uses this
//! crate and reads its contracts); the histories and the rows of a writer (`rtps_writer`), the windows of a reader
//! (`rtps_reader`), what it holds (`dds_cache`) and whose leases are over (`dds_lease`).
#![tactic(auto)]

mod acknack;
mod answering;
mod coming;
mod expiring;
mod heartbeat;
mod limits;
mod marks;
mod match_counts;
mod matched_rows;
mod matching;
mod output;
mod reader_asked;
mod reader_end;
mod reader_matching;
mod reader_told;
mod receiver;
mod seen;
mod sending;
mod status_bits;
mod store;
mod twin;
mod writer_end;
mod writer_matching;

pub use acknack::send_acknack;
pub use answering::{Room, is_from};
pub use expiring::{counts_deaths, expire_all};
pub use marks::{Marks, ReaderMark, WriterMark, mark_readers, mark_writers};
pub use matched_rows::{row_among, writer_row_among};
pub use matching::{ReaderName, WriterName};
pub use output::{answered, reply_to_access, unmoved};
pub use reader_end::ReaderEnd;
pub use reader_told::{Ids, Ready, ReadyChange, Telling, Told, ids_of};
pub use receiver::{MessageReceiver, is_for, receiver_for};
pub use sending::Announced;
pub use twin::{Twin, pair_of};
pub use writer_end::{WriterEnd, tick_all};
