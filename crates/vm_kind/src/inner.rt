//! What the crates above name of `vm_inner` through this one.

pub use vm_inner::Fenced;
