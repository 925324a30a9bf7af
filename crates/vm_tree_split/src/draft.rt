//! What the crates above name of `vm_tree_draft` through this one.

pub use vm_tree_draft::draft::{Edited, Whole, redraft};
