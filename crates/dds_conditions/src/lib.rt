//! Conditions, the WaitSets that wait for them, and the filters of query conditions.
//!
//! DDS 1.4, 2.2.2.1 (WaitSet, Condition), 2.2.2.5 (ReadCondition, QueryCondition), 2.2.4.4 (conditions and wait-sets).
//! Not here: when a condition's trigger value is true, and how long a WaitSet waits.
#![tactic(auto)]

mod condition;
mod filter;
mod filter_list;
mod wait_set;
mod waiting;
mod watch;

pub use condition::{Cond, Condition};
pub use filter::{Filter, Filters, NoFilters};
pub use filter_list::FilterList;
pub use wait_set::WaitSet;
pub use watch::Watch;
