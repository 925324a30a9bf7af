//! What the crates above name of `vm_pool` through this one.

pub use vm_pool::save::{Saved, flush_and_close};
pub use vm_pool::{Closed, Ended, Pool, Shape, dry_cause};
