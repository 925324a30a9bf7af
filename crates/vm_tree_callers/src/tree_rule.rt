//! What the crates above name of `vm_tree_rule` through this one.

pub use vm_tree_retry::tree_rule::{Tree, TreeFault};
