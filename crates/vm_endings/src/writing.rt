//! What is written of an image: its bytes as a file, and how many of its pages are used.

ghost use Rattle.std.specs.Prelude.{◌≡◌, IfOk};
ghost use Rattle.vm_page.specs.Sizes.{IsSize};
ghost use Rattle.vm_tree_model.specs.{Fixed.fixed, Reason.used_pages, Tree.IsTree};
ghost use Rattle.vm_bytes_form.specs.Bytes.{bytes as keyed};
ghost use Rattle.vm_endings.specs.{Images.IsFileOf, KeyRuns.IsKeyFileOf};

use crate::delivery::File;
use std::alloc::{AllocError, Global};
use vm_image::{Image, is_free};

/// How many pages are not all zero.
pub fn used_in<const N: usize>(image: &Image<N>) -> u32
    requires { IsSize N }
    ensures { result ≡ used_pages image.now }
{
    let mut used = 0;
    for p in 0..image.pages() {
        if !is_free(image.page(p)) {
            used += 1;
        }
    }
    used
}

/// The page file of an image whose pages are a tree.
pub fn file_of<'a, const N: usize>(
    alloc: Global,
    image: &Image<N>,
    name: &'a str,
) -> Result<File<'a>, AllocError>
    requires sized { IsSize N }
    requires tree { IsTree (fixed N) image.now }
    ensures name { IfOk result (λ file. file.name ≡ name.entry) }
    ensures bytes { IfOk result (λ file. IsFileOf N image.now file.bytes.items) }
{
    match image.to_bytes(alloc) {
        Ok(bytes) => Ok(File { name, bytes }),
        Err(_) => Err(AllocError),
    }
}

/// The page file of an image whose pages are a tree with byte keys.
pub fn key_file_of<'a>(
    alloc: Global,
    image: &Image<512>,
    name: &'a str,
) -> Result<File<'a>, AllocError>
    requires { IsTree keyed image.now }
    ensures name { IfOk result (λ file. file.name ≡ name.entry) }
    ensures bytes { IfOk result (λ file. IsKeyFileOf image.now file.bytes.items) }
{
    match image.to_bytes(alloc) {
        Ok(bytes) => Ok(File { name, bytes }),
        Err(_) => Err(AllocError),
    }
}
