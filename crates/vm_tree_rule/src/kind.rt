//! What the crates above name of `vm_kind` through this one.

pub use vm_kind::{
    Edits, Kind, Merges, OfSize, Pages, Ranges, Sizes, Tree, TreeOf, Windows, WordKeys, Words64,
    Words512,
};
