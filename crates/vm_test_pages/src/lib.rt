//! What the tests of pools share: blocks of pages of zeros, and of pages that are in use, pools over them with one pass and with two, and calls on these that
//! are to succeed.
#![tactic(auto)]

pub mod blocks;
pub mod passes;
pub mod pool;
pub mod pools;
