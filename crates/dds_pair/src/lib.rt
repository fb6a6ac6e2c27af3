//! Peers that exchange packets over links: who has a shared peer's deliveries and ticks done, turn by turn, and how its
//! packets travel.
//!
//! A *worker* is a thread that calls `serve` with a pass of its own. Before each turn its `Gate` says what to do, and its
//! `Link` carries packets: `UdpLink` is one over the loopback, and an application writes its own for other sockets.
//! `run_pair` has two such workers, and is what the program's word `pair` does.
//!
//! RTPS 2.5, 8.4 (what is sent and when), is `dds_core`'s; links, gates and turns are this project's own.
//! Not here: what a peer answers (`dds_core`), and what threads share (`dds_shared`).
//!
//! ```rust
//! use dds_pair::{Turn, UdpLink, serve};
//!
//! let mut link = UdpLink::open(rt, alloc)?;
//! link.connect(other);
//! let turns = serve(rt, &shared, &mut pass, &mut link, &mut gate)?;
//! ```
#![tactic(auto)]

mod application;
mod gate;
mod gates;
mod link;
mod pairs;
mod served;
mod serving;
mod turn;
mod udp;
mod workers;

pub use gate::Gate;
pub use gates::PairGate;
pub use link::Link;
pub use pairs::{pair, run_pair};
pub use served::Served;
pub use serving::serve;
pub use turn::Turn;
pub use udp::{UdpLink, UdpSender};
