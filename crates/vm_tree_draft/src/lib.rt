//! Drafts of pages that a write makes, and the pages that a split writes: they are drafted under their locks, and released together.
#![tactic(auto)]

pub mod draft;
pub mod split;
