//! Page files built of pairs, and pairs from a number.
#![tactic(auto)]

mod building;
pub mod laws;
mod levels;
mod node;
pub mod numbers;
mod seed;
mod sorting;

pub use building::{BuildFault, build, needed, numbered_image};
pub use seed::{generator, numbered};
