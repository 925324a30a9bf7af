//! One value is handed over, once, from one thread to another, with no lock and without waiting.
#![tactic(auto)]

mod ends;
mod making;
mod place;
#[cfg(test)]
mod tests;

pub use ends::{Giver, Taker};
pub use making::handover;
pub use place::Handed;
