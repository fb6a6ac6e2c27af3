//! A WaitSet, and who waits in it.
//!
//! DDS 1.4, 2.2.2.1 (WaitSet, wait: timeout).

use crate::wait_set::WaitSet;
use dds_base::Moment;

/// A WaitSet, and up to which moment somebody waits in it, if somebody does.
///
/// DDS 1.4, 2.2.2.1 (WaitSet, wait: timeout).
#[derive(Drop)]
pub struct Waiting {
    pub conditions: WaitSet,
    pub deadline: Option<Moment>,
}
