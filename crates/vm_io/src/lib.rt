// Named files and standard output: a trait with counts of what failed, a host over the system, a host in memory, and loops over a host.
#![tactic(auto)]

mod faults;
pub mod host;
mod last_name;
pub mod loops;
pub mod memory;
mod replacing;
mod store;
pub mod system;
