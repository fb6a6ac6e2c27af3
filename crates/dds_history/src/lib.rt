//! What a writer keeps: its changes, numbered from 1, until each matched reliable reader has acknowledged them.
//!
//! DDS 1.4, 2.2.3 (HISTORY, RESOURCE_LIMITS); RTPS 2.5, 8.2 (HistoryCache).
//! Not here: what is sent of it.
#![tactic(auto)]

mod held;
mod history;
mod turn;

pub use history::History;
