//! What the crates above name of `vm_kind` through this one.

pub use vm_kind::{OfSize, Sizes, TreeOf, WordKeys};
