//! What the crates above name of `vm_kind` through this one.

pub use vm_tree_range::kind::{OfSize, Sizes, Tree, TreeOf, WordKeys, Words64, Words512};
