//! Event lists, replayed: each line's events are played on one core of the buffer manager, and what they saw is told.
//!
//! Nothing is printed here: the whole text is built first, and handed to the caller.
#![tactic(auto)]

mod file;
pub mod laws;
mod line;
mod playing;

pub use file::{ReplayStop, replay_file};
pub use playing::{Played, play};
