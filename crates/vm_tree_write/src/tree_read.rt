//! What the crates above name of `vm_tree_read` through this one.

pub use vm_tree_merge::tree_read::{
    Round, TryRead, answer, fetch, find_in_place, get, get_within, leaf_at, read_leaf, settle,
    show_window, try_get, try_window, window, window_said, window_within,
};
