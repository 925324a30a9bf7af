//! The coupled way down a tree on pages, over a kind of nodes: for any number of passes, without a lock.
#![tactic(auto)]

pub mod above;
pub mod descent;
mod fault;
pub mod guard;
mod in_place;
pub mod kind;
pub mod seek;
pub mod step;
mod turn;

pub use above::{Above, Reached, reach};
pub use descent::{Stand, descend, enter};
pub use fault::TreeFault;
pub use in_place::InPlace;
pub use seek::{Met, seek_full};
pub use turn::Turn;
pub use vm_kind::Tree;
