//! Eviction of page groups: a group is written where its pages are dirty, taken out of its frames page by page, and released as evicted by one step on
//! its word. A page of no group is a group by itself here. Pages of tables without groups are evicted by `vm_evict`.
#![tactic(auto)]

mod empty;
mod evict;
mod groups;
mod save;

pub use evict::{GroupEnd, evict_group};
pub use groups::{MOST_GROUPS, evict_groups};
pub use save::Failure;
