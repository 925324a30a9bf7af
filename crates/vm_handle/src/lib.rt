//! Boxes that something outside Rattle keeps by their pointers: a box taken apart, and room for one box or none.
#![tactic(auto)]

pub mod loose;
#[cfg(test)]
mod round_trip;
pub mod slot;
