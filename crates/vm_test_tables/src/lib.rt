//! What the tests of frames and guards share: tables whose pages all stand in frames.
#![tactic(auto)]

pub mod resident;
