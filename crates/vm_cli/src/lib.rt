//! The commands of the program `vmcache`, over any host: scripts of calls are made by workers on the tree of a page file, through the buffer
//! manager, and what they were answered is said; page files are made and checked; lists of events are replayed.
#![tactic(auto)]

mod command;
pub mod drive;
pub mod laws;
pub mod run;

pub use vm_file_serve::endings::ends;
