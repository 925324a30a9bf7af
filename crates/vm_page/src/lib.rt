//! A page as a buffer of 64 or 512 words, and as the bytes that stand for them in a page file, eight for each word.
#![tactic(auto)]

mod buf;
mod failed;
mod memory;

pub use buf::{LARGE, PageBuf, WORDS};
pub use failed::Failed;
pub use memory::Memory;
