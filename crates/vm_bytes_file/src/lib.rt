//! Page files whose nodes have byte keys: how one is known, the one that holds nothing, and the checker of their pages.
#![tactic(auto)]

mod empty;
mod kind;
mod nodes;

pub use empty::empty_image;
pub use kind::is_key_file;
pub use nodes::{KeyNodes, check_keys};
pub use vm_bytes_node::window::KeyPair;
