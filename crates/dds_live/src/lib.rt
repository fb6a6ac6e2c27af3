//! A participant on the network: `Participant` of `dds_domain` with a socket over UDP and the clock.
//!
//! `open` binds the well-known port of a domain, takes a name by chance, and begins with writers and readers that
//! `EndSettings` say. From then on `Live::turn` hears what came, has time go on, and sends what goes; `Live::call` is a
//! call of a writer or a reader by its number; `Live::participant` has who is there, which endpoints do not fit and
//! why, with whom ours are matched, and whether somebody is behind.
//!
//! Each is steps of the participant, in their order, and nothing else touches it: a turn is datagrams that it hears, 64
//! at most, and then a tick, all at one moment; a call is that call. Not claimed is what sockets and the clock give:
//! which datagrams come, that one that was sent goes out, and how late it is.
//!
//! RTPS 2.5, 9.6.2 (UDP: well-known ports); DDS 1.4, 2.2.2.2.1 (DomainParticipant).
//!
//! ```rust
//! let reader = EndSettings::reader("rt/chatter", "std_msgs::msg::dds_::String_");
//! let mut live = open(&rt, alloc, &Place::new(0), &[reader])?;
//! let mut turn = Turn::new(alloc);
//! live.turn(&rt, Duration::from_millis(20), &mut turn)?; // again and again
//! let reply = live.call(take, &mut turn);                // what came
//! live.close(&mut turn);
//! ```
#![tactic(auto)]

mod addresses;
mod ends;
mod failure;
mod live;
mod moments;
mod opening;
mod place;
mod port;

pub use addresses::Target;
pub use ends::{Carries, EndSettings};
pub use failure::Failure;
pub use live::Live;
pub use opening::{new_prefix, open};
pub use place::{Bound, Place};
