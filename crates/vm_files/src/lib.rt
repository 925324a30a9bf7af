//! The commands that have no workers, each up to what goes out: `make`, `make-bytes`, `migrate`, `check` and `replay`.
#![tactic(auto)]

pub mod check;
pub mod make;
pub mod make_bytes;
pub mod migrate;
pub mod replay;
