//! What the crates above name of `vm_tree_read` through this one.

pub use vm_tree_retry::tree_read::{TryRead, get, show_window, try_get, window_said};
