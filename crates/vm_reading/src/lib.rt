//! The readers of page files and scripts, which the commands with workers and those without take.
#![tactic(auto)]

pub mod any;
pub mod churn;
pub mod drive;
pub mod endings;
pub mod key_files;
pub mod key_serve;
pub mod kind;
pub mod pool;
pub mod reading;
pub mod scripts;
pub mod serve;
