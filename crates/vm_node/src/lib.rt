//! Nodes on the words of a page, which are 64 or 512: leaves, and what inner nodes share with them.
//!
//! | word | a node |
//! |---|---|
//! | 0 | its tag: 2 for a leaf, 3 for an inner node |
//! | 1 | how many pairs it has: at most 28 of 64 words, and 252 of 512 |
//! | 2 | its low fence: the least key that it answers for |
//! | 3, 4 | its high fence, exclusive, and 0; where it has none, 0 and 1 |
//! | 5 | its level: 0 for a leaf |
//! | 6, 7 | 0 |
//! | 8 + 2i, 9 + 2i | pair i by rising key: a key and its value; in an inner node the lowest key of a child and its page |
//! | the rest | 0 |
//!
//! Every call works on any words, also on words that no one validated: a count above 28, or 252, is read as that. Searches go by
//! halves, so what is found is told of pages whose keys rise. None takes memory. A call named `.._at` loads the words that it needs of a page
//! where it stands, and is told how many the page has; what it answers it tells of each page that has them.
#![tactic(auto)]

mod edit;
mod full;
mod halves;
pub mod header;
mod joining;
mod leaf;
pub mod pairs;
mod place;
mod shown;

pub use edit::{Edit, del_edit, put_edit};
pub use full::Full;
pub use halves::{left_word, right_half, split};
pub use joining::join;
pub use leaf::{
    covers, covers_at, del, find, find_at, has_fences_at, has_level_at, is_leaf, is_leaf_at, put,
};
pub use place::{Place, in_buffer};
pub use shown::{range_at, window, window_at};
