//! What the crates above name of `vm_tree_read` through this one.

pub use vm_tree_read::answer::{answer, leaf_at, leaf_below, read_leaf};
pub use vm_tree_read::read::find_in_place;
pub use vm_tree_read::round::{Round, fetch, settle};
pub use vm_tree_read::within::{get_within, window_within};
pub use vm_tree_read::{TryRead, get, show_window, try_get, try_window, window, window_said};
