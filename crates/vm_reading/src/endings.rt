//! What the crates above name of `vm_endings` through this one.

pub use vm_endings::delivery::{Delivery, File, deliver, refuse, say};
pub use vm_endings::ends;
pub use vm_endings::ends::Ends;
pub use vm_endings::key_texts::{key_cut_text, key_whole_text};
pub use vm_endings::limits::{
    are_entries, are_frames, are_pages, are_pairs_to_churn, are_pairs_to_make, are_words,
    are_workers, holds_call, is_version, words_of,
};
pub use vm_endings::replies::add_rows;
pub use vm_endings::stop::{Lines, Quantity, Stop};
pub use vm_endings::texts::{cut_text, whole_text};
pub use vm_endings::undone::Undone;
pub use vm_endings::writing::{file_of, key_file_of, used_in};
