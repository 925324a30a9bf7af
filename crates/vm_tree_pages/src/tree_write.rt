//! What the crates above name of `vm_tree_write` through this one.

pub use vm_tree_callers::tree_write::{TrySplit, TryWrite};
