//! What the crates above name of `vm_tree_write` through this one.

pub use vm_tree_retry::tree_write::{TrySplit, TryWrite, try_put, try_split, try_swap};
