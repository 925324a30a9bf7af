//! What the crates above name of `vm_bytes_serve` through this one.

pub use vm_bytes_replies::serve::{BytesTree, serve};
