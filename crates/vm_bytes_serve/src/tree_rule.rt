//! What the crates above name of `vm_tree_rule` through this one.

pub use vm_serve::tree_rule::TreeFault;
