//! Guards of a page group: its pages are read optimistically, or held exclusively, under the state word of the first of them. A page of no group is a
//! group by itself here. The guards of one page stand in `vm_guard`, whose words for what a guard is to its pass these use.
#![tactic(auto)]

mod lock;
mod reader;
mod translations;

pub use lock::{GroupGuard, Standing};
pub use reader::GroupReader;
pub use translations::MOST_PAGES;
