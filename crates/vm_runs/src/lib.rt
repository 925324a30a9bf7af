//! The commands whose workers make calls on a tree, each up to what goes out: `run` and `churn`.
#![tactic(auto)]

pub mod churn;
mod key_outcome;
mod key_script;
mod outcome;
pub mod script;
