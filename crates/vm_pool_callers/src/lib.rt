//! Callers of a pool by one pass: a page is brought, shared, read and written; a word goes out to its block and comes back; passes are split off and joined. Each
//! stands on the contracts of the layers below alone, and shows that they are enough.
#![tactic(auto)]

pub mod first_page;
pub mod kept_word;
pub mod pool;
pub mod round_trip;
pub mod shared_page;
pub mod two_pages;
pub mod whole_again;
