//! What the crates above name of `vm_bytes_file` through this one.

pub use vm_endings::key_files::{KeyPair, check_keys, empty_image};
