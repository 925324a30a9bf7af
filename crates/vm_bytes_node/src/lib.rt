//! Nodes whose keys are byte strings of at most 64 bytes, on the 512 words of a page.
//!
//! | word | a node |
//! |---|---|
//! | 0 | its tag: 4 for a leaf, 5 for an inner node |
//! | 1 | how many pairs it has |
//! | 2 | its level: 0 for a leaf |
//! | 3, 4 | the slots of its low fence and of its high fence; 0 where that is the empty string, or there is none |
//! | 5, 6, 7 | 0 |
//! | 8 + i | the slot of pair i by rising key |
//! | the last ones | from word 511 down the low fence, the high fence, pair 0, pair 1, and so on |
//! | those between | 0 |
//!
//! A slot is place * 256 + length: the string stands in as many words as it needs from this place on, the greatest byte first, with zeros behind
//! its end. The word behind a pair's key is the value, or in an inner node the child's page.
//!
//! So a node's words are one function of its tag, level, fences and pairs (`form_of`). Here they are read, word by word, of a page where it stands. Every call
//! works on any words, also on words that no one validated: it loads a bounded number of them, and tells what it answers of each page that has these words.
//! None takes memory.
#![tactic(auto)]

mod fences;
mod order;
mod search;
mod shown;
mod slots;
pub mod window;

pub use fences::{covers_at, has_fences_at, has_level_at, high_at, is_leaf_at, low_at, spare_at};
pub use order::{copied, in_range, is_before, pair_size, same_key, words_of};
pub use search::{KeyBound, child_at, find_at, upper_bound_at};
pub use shown::window_at;
pub use slots::{HEADER, count_at, key_at, string_at, value_at};
