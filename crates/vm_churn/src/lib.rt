//! The calls of a churn, which many workers make on one tree, and what they were answered in all.
#![tactic(auto)]

mod calls;
pub mod laws;
mod tally;

pub use calls::calls_of;
pub use tally::{Tally, sum_of, tallies_for, tally_all};
