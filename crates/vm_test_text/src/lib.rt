//! Tests of the crates of texts: `vm_script` (scripts, lists of events, plans of failures), `vm_bytes_script` and `vm_words`, over their public items.
//! They stand here so that none of them is proved twice.
#![tactic(auto)]

#[cfg(test)]
mod events;
#[cfg(test)]
mod faults;
#[cfg(test)]
mod keys;
#[cfg(test)]
mod script;
#[cfg(test)]
mod words;
