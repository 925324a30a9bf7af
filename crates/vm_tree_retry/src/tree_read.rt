//! What the crates above name of `vm_tree_read` through this one.

pub use vm_tree_round::tree_read::{
    TryRead, get, get_within, show_window, try_get, try_window, window, window_said, window_within,
};
