//! What the crates above name of `vm_kind` through this one.

pub use vm_tree_read::kind::{Edits, Kind, Merges, TreeOf};
