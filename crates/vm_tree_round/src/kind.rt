//! What the crates above name of `vm_kind` through this one.

pub use vm_tree_write::kind::{Edits, Merges, TreeOf};
