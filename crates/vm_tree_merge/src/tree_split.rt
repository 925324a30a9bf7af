//! What the crates above name of `vm_tree_split` through this one.

pub use vm_tree_join::tree_split::{Edited, TrySplit, redraft, try_split};
