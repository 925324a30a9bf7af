//! Page files: the pages of an image, read from bytes and written back.
#![tactic(auto)]

mod blocks;
mod fault;
mod image;
mod reading;
mod version;
mod zeros;

pub use blocks::{PlannedFault, blocks_of, image_of};
pub use fault::ImageFault;
pub use image::{Image, read_image};
pub use reading::{BlocksFault, read_blocks};
pub use version::{LARGE_MAGIC, MAGIC, file_words, magic_for, most_pages};
pub use vm_page::Memory;
pub use zeros::{is_free, is_zero_from};
