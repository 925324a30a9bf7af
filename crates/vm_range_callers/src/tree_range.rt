//! What the crates above name of `vm_tree_range` through this one.

pub use vm_tree_range::TryRange;
