//! Reads of the tree: a get and a window, answered from the leaf that covers the key, at the step that validates it.
#![tactic(auto)]

pub mod answer;
pub mod evict;
pub mod exmap;
pub mod guard;
pub mod kind;
pub mod pool;
pub mod read;
pub mod round;
pub mod tree_rule;
pub mod waiting;
pub mod within;

pub use read::{TryRead, show_window, try_get, try_window};
pub use waiting::{get, window, window_said};
pub use within::{get_within, window_said_within, window_within};
