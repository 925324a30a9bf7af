//! A pool of pages as a whole: its start, the sweep that makes frames free, the bringing of a page into memory, and its end.
#![tactic(auto)]

mod bring;
mod closing;
mod ended;
pub mod evict;
pub mod exmap;
pub mod guard;
mod passes;
mod pool;
pub mod rule;
pub mod save;

pub use bring::{Bring, dry_cause};
pub use ended::{Closed, Ended};
pub use pool::{Pool, Shape};
