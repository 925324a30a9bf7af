//! The two versions of page files: pages of 64 words, and pages of 512.

ghost use Rattle.std.specs.Prelude.{◌≡◌};
ghost use Rattle.vm_image.specs.File.{most_pages as pages_at_most, words_of_file};
ghost use Rattle.vm_page.specs.Sizes.{IsSize};
ghost use Rattle.vm_tree_model.specs.Fixed.{fixed_magic};

use vm_page::{LARGE, WORDS};

/// The first word of a page file with pages of 64 words: the bytes "VMCACHE1".
pub const MAGIC: u64 = 0x564D_4341_4348_4531;

/// The first word of a page file with pages of 512 words: the bytes "VMCACHE2".
pub const LARGE_MAGIC: u64 = 0x564D_4341_4348_4532;

/// How many words the pages of a file have, told by its first eight bytes: 512 where they are "VMCACHE2", else 64.
pub fn file_words(bytes: &[u8]) -> usize
    ensures words { result ≡ words_of_file bytes.now }
    ensures sized { IsSize result }
{
    if bytes.len() < 8 {
        return WORDS;
    }
    let mut first = [0; 8];
    first.copy_from_slice(&bytes[0..8]);
    if u64::from_be_bytes(first) == LARGE_MAGIC {
        LARGE
    } else {
        WORDS
    }
}

/// The first word of a page file with pages of so many words.
pub fn magic_for(words: usize) -> u64
    requires { IsSize words }
    ensures { result ≡ fixed_magic words }
{
    if words == WORDS { MAGIC } else { LARGE_MAGIC }
}

/// How many pages of so many words a file has at most.
pub fn most_pages(words: usize) -> usize
    requires { IsSize words }
    ensures { result ≡ pages_at_most words }
{
    if words == WORDS { 65536 } else { 8192 }
}
