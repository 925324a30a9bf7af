//! The workers: each makes a list of calls with a pass of its own, side by side.
#![tactic(auto)]

pub mod crew;
mod driving;
pub mod evict;
pub mod exmap;
pub mod kind;
pub mod memory;
pub mod pool;
pub mod tree_read;
pub mod tree_rule;

pub use crew::DrivenInto;
pub use driving::drive_into;
pub use memory::rooms_for;
pub use vm_calls::{answers, compact, gate};
