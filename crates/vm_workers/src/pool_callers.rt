//! What the crates above name of `vm_pool_callers` through this one.

pub use vm_pool_callers::first_page::{Opened, open_page};
pub use vm_pool_callers::two_pages::{TwoPages, open_two};
pub use vm_pool_callers::whole_again::{join_each, meet_and_join, split_and_join};
