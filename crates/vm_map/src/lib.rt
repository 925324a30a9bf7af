//! Calls on a map from numbers to numbers, their replies, and a plain map that answers them.
#![tactic(auto)]

pub mod call;
pub mod key;
pub mod plain;
pub mod span;
pub mod window;
