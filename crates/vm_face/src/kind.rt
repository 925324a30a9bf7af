//! What the crates above name of `vm_kind` through this one.

pub use vm_serve::kind::{OfSize, Sizes, TreeOf, WordKeys, Words64};
