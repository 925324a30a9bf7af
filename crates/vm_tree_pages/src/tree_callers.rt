//! What the crates above name of `vm_tree_callers` through this one.

pub use vm_tree_callers::calls::{
    LARGE_MAGIC, MAGIC, empty, empty_sized, get_beside, get_first, get_once, got, one_leaf, open,
    open_sized, open_with, put_page, state_word, two_leaves, window_from, window_once,
};
pub use vm_tree_callers::write_calls::{
    del_at, del_once, put_at, put_once, split_once, swap_at, swap_once,
};
pub use vm_tree_callers::{put_meet_get, put_then_get};
