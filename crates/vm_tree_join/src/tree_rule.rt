//! What the crates above name of `vm_tree_rule` through this one.

pub use vm_tree_split::tree_rule::{Above, InPlace, Reached, Tree, TreeFault, Turn, enter};
