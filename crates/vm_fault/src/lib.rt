//! Fault-in: a page that is not in memory is brought from its block into a frame.
#![tactic(auto)]

mod fault;

pub use fault::{Fetch, fault_in};
