//! What the crates above name of `vm_tree_rule` through this one.

pub use vm_tree_merge::tree_rule::{Tree, TreeFault, Turn};
