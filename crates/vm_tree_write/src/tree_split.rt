//! What the crates above name of `vm_tree_split` through this one.

pub use vm_tree_merge::tree_split::{TrySplit, try_split};
