//! The first policy of which a writer offers less than a reader asks for.
//!
//! `unfit` names it, of the set that `dds_base` has, policy by policy. Not here: names, partitions and representations,
//! and who is told of a misfit.
//!
//! DDS 1.4, 2.2.3 (supported QoS: policies that are requested and offered).
#![tactic(auto)]

mod misfit;

pub use misfit::{Misfit, unfit};
