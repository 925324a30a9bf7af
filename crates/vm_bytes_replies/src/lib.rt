//! The text of what workers with byte keys were answered.
#![tactic(auto)]

mod replies;
pub mod serve;

pub use replies::{add_key_replies, line_of};
