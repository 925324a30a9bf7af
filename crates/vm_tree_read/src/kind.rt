//! What the crates above name of `vm_kind` through this one.

pub use vm_tree_rule::kind::{
    Edits, Kind, Merges, OfSize, Pages, Ranges, Sizes, Tree, TreeOf, WordKeys, Words64, Words512,
};
