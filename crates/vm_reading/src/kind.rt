//! What the crates above name of `vm_kind` through this one.

pub use vm_endings::kind::{OfSize, Sizes, Tree, TreeOf, WordKeys};
