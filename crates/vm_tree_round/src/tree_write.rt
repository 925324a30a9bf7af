//! What the crates above name of `vm_tree_write` through this one.

pub use vm_tree_write::{TrySplit, TryWrite, try_del, try_put, try_split, try_swap};
