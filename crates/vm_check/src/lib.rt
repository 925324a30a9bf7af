//! The checker of an image: its rows, or the first reason why its pages are no tree. It walks over nodes of any kind (`Nodes`).
#![tactic(auto)]

mod checker;
mod fault;
mod nodes;
mod rows;
mod slot;
mod walk;

pub use checker::{check, check_nodes};
pub use fault::CheckFault;
pub use nodes::{Nodes, WordNodes};
pub use rows::{Rows, TreeRows};
