//! The store and the tree for callers that start their own threads: a store that is opened and closed, and hands that make calls, each of at
//! most so many rounds. Nothing here waits, starts a thread or takes a lock.
#![tactic(auto)]

pub mod hand;
pub mod home;
pub mod image;
pub mod kind;
pub mod store;
pub mod tree_rule;

pub use hand::Hand;
pub use image::{Opening, open_image};
pub use store::{Closing, NoHand, Summary, TreeStore, open_on};
