//! What the crates above name of `vm_tree_rule` through this one.

pub use vm_tree_rule::{Above, InPlace, Met, Reached, Tree, TreeFault, Turn, enter, seek_full};
