//! The page file with byte keys that holds nothing.

ghost use Rattle.std.specs.Prelude.{[], ◌≡◌, ◌≤◌, IfOk, true};
ghost use Rattle.vm_bytes_form.specs.{Bytes.bytes, Forms.form_of};
ghost use Rattle.vm_tree_model.specs.{Reason.used_pages, Tree.IsTree, Tree.map_of};
ghost use Rattle.vm_bytes_file.specs.KeyFiles.{empty_leaf, empty_pages, first_page, is_key_file};
ghost use Rattle.vm_image.specs.File.{bytes_of_pages};

use std::alloc::{AllocError, Global};
use vm_image::Image;
use vm_page::PageBuf;

/// The first word of such a file: the bytes "VMCBYTE1".
pub(crate) const MAGIC: u64 = 0x564D_4342_5954_4531;

/// The image of `pages` pages, 2 to 8,192, that holds the empty tree: page 0, a leaf, and free pages.
pub fn empty_image(alloc: Global, pages: u32) -> Result<Image<512>, AllocError>
    requires some { 2 ≤ pages }
    requires most { pages ≤ 8192 }
    ensures pages { IfOk result (λ image. image ≡ empty_pages pages) }
    ensures tree { IfOk result (λ image. IsTree bytes image) }
    ensures empty { IfOk result (λ image. map_of bytes image ≡ []) }
    ensures used { IfOk result (λ image. used_pages image ≡ 2) }
    ensures known { IfOk result (λ image. is_key_file (bytes_of_pages image) ≡ true) }
{
    let mut made = Vec::with_capacity(alloc, pages as usize)?;
    made.push(first_page())?;
    made.push(leaf_page())?;
    for _free in 2..pages {
        made.push(PageBuf::zero())?;
    }
    Ok(Image::of_pages(made))
}

// Page 0.
fn first_page() -> PageBuf<512>
    ensures { result ≡ first_page }
{
    let mut page = PageBuf::zero();
    page.set(0, MAGIC);
    page.set(1, 1);
    page
}

// The leaf. All its words but the tag are 0.
fn leaf_page() -> PageBuf<512>
    ensures { result ≡ form_of 512 empty_leaf }
{
    let mut page = PageBuf::zero();
    page.set(0, 4);
    page
}
