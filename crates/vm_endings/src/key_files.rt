//! What the crates above name of `vm_bytes_file` through this one.

pub use vm_bytes_file::{KeyPair, check_keys, empty_image, is_key_file};
