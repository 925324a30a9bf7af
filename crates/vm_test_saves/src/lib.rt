//! Tests of pools (`vm_pool`) that are closed, and of callers that keep a word in a page's block (`vm_pool_callers`), over the public items of both. They stand
//! here so that neither of them is proved twice.
#![tactic(auto)]

#[cfg(test)]
mod callers;
#[cfg(test)]
mod saves;
