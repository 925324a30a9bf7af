//! Tests of the program's commands (`vm_cli`) that no case of `vm_cases` can be: workers' calls that meet, want of memory, and devices that lie. They stand
//! here so that none of its crates is proved twice. The expected texts are worked out by hand from the rules, and not taken from a run.
#![tactic(auto)]

#[cfg(test)]
mod damaged;
#[cfg(test)]
mod liar;
#[cfg(test)]
mod memory;
#[cfg(test)]
mod perform;
#[cfg(test)]
mod workers;
