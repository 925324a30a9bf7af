//! What the tests of nodes share: pages that are given by their words, and a place that counts its loads.
#![tactic(auto)]

pub mod counted;
pub mod words;
