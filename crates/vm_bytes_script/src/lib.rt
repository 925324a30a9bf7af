//! Scripts of calls with byte keys, and the text of what such calls are answered.
#![tactic(auto)]

pub mod calls;
pub mod key;
pub mod laws;
pub mod text;
