//! What the crates above name of `vm_rule` through this one.

pub use vm_tree_write::rule::Pass;
