//! What the crates above name of `vm_churn` through this one.

pub use vm_endings::churn::{Tally, calls_of, sum_of, tallies_for, tally_all};
