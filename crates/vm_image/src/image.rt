//! The pages of a page file as words.

ghost use Rattle.std.specs.Prelude.{◌≡◌, ℕ, ◌+◌, ◌*◌, ◌<◌, ◌≤◌, length, slice_index, MatchResult, IfOk};
ghost use Rattle.vm_page.specs.{Pages.page_at, Sizes.IsSize};
ghost use Rattle.vm_image.specs.File.{AreFreePages, IsPageFile, pages_of_bytes, bytes_of_pages, HaveWords, IsNextPage, most_pages};
ghost use Rattle.vm_image.specs.Faults.{IsRefusedFile};

use crate::fault::ImageFault;
use crate::version::most_pages;
use crate::zeros::is_free;
use std::alloc::{AllocError, Global};
use std::marker::Model;
use vm_page::{Memory, PageBuf};

/// 2 to 65,536 pages of 64 words, or 2 to 8,192 pages of 512: contracts see the list of their words.
#[derive(Drop)]
pub struct Image<const N: usize> {
    pub(crate) pages: Vec<PageBuf<N>>,
}

impl<const N: usize> Model for Image<N> {
    ghost use Rattle.std.specs.Prelude.{ℕ, List, length, ◌≤◌};
    ghost use Rattle.vm_page.specs.Sizes.{IsSize};
    ghost use Rattle.vm_image.specs.File.{HaveWords, most_pages};

    ghost Value = { List (List ℕ) };

    ghost view = { λ i. i.pages.items };

    ghost invariant = { λ i. IsSize N × (2 ≤ length i.pages.items) × (length i.pages.items ≤ most_pages N) × HaveWords N i.pages.items };
}

/// The image that the bytes of a page file stand for, read as pages of `N` words: its pages' words, and written again it is the same bytes.
/// `BadLength` exactly where they are not 2 to 65,536 pages of 512 bytes, or 2 to 8,192 pages of 4,096.
pub fn read_image<const N: usize>(alloc: Global, bytes: &[u8]) -> Result<Image<N>, ImageFault>
    requires { IsSize N }
    ensures answer { MatchResult result (λ image. IsPageFile N bytes.now × (image ≡ pages_of_bytes N bytes.now)) (λ fault. IsRefusedFile N bytes.now fault) }
    ensures back { IfOk result (λ image. bytes_of_pages image ≡ bytes.now) }
{
    let count = bytes.len() / (8 * N);
    if bytes.len() % (8 * N) != 0 {
        return Err(ImageFault::BadLength { len: bytes.len() });
    }
    if count < 2 {
        return Err(ImageFault::BadLength { len: bytes.len() });
    }
    if count > most_pages(N) {
        return Err(ImageFault::BadLength { len: bytes.len() });
    }
    match read_pages(alloc, bytes, count) {
        Ok(pages) => Ok(Image { pages }),
        Err(_) => Err(ImageFault::Memory),
    }
}

// The first pages of the bytes.
fn read_pages<const N: usize>(
    alloc: Global,
    bytes: &[u8],
    count: usize,
) -> Result<Vec<PageBuf<N>>, AllocError>
    requires sized { IsSize N }
    requires size { length bytes.now ≡ 8 * N * count }
    ensures pages { IfOk result (λ pages. pages.items ≡ pages_of_bytes N bytes.now) }
    ensures back { IfOk result (λ pages. bytes_of_pages pages.items ≡ bytes.now) }
    ensures count { IfOk result (λ pages. length pages.items ≡ count) }
    ensures words { IfOk result (λ pages. HaveWords N pages.items) }
{
    let mut pages = Vec::with_capacity(alloc, count)?;
    for p in 0..count {
        pages.push(PageBuf::of_slice(&bytes[8 * N * p..8 * N * p + 8 * N]))?;
    }
    Ok(pages)
}

impl<const N: usize> Image<N> {
    /// The image of 2 to 65,536 pages of 64 words, or of 2 to 8,192 pages of 512. Each has so many words, as any call on it tells.
    pub fn of_pages(pages: Vec<PageBuf<N>>) -> Image<N>
        requires sized { IsSize N }
        requires some { 2 ≤ length pages.items }
        requires most { length pages.items ≤ most_pages N }
        requires words { HaveWords N pages.items }
        ensures { result ≡ pages.entry.items }
    {
        Image { pages }
    }

    /// How many pages there are, 2 to 65,536 of 64 words, and 2 to 8,192 of 512.
    pub fn pages(&self) -> u32
        ensures pages { result ≡ length self.now }
        ensures some { 2 ≤ result }
        ensures most { result ≤ most_pages N }
        ensures few { result ≤ 65536 }
        ensures words { HaveWords N self.now }
        ensures sized { IsSize N }
    {
        self.pages.len() as u32
    }

    /// Page `p`, for `p` below the number of pages.
    pub fn page(&self, p: u32) -> &PageBuf<N>
        requires { p < length self.now }
        ensures page { result.now ≡ page_at self.now p }
        ensures length { length result.now ≡ N }
    {
        &self.pages[p as usize]
    }

    /// Word `i` of page `p`, for `i` from 0 on and below the number of words, and `p` below the number of pages.
    pub fn word(&self, p: u32, i: u32) -> u64
        requires sized { IsSize N }
        requires page { p < length self.now }
        requires word { i < N }
        ensures { result ≡ slice_index (page_at self.now p) i }
    {
        self.page(p).get(i as usize)
    }

    /// One more than the greatest page that is not all zero, and 0 where all are.
    pub fn next(&self) -> u32
        ensures { IsNextPage N self.now result }
    {
        let mut next = self.pages();
        while next > 0 {
            if !is_free(self.page(next - 1)) {
                return next;
            }
            next -= 1;
        }
        0
    }

    /// The numbers of the pages from 1 to below `next` that are all zero, rising.
    pub fn free_pages(&self, alloc: Global, next: u32) -> Result<Vec<u32>, Memory>
        requires { next ≤ length self.now }
        ensures { IfOk result (λ free. AreFreePages N self.now next free.items) }
    {
        // The pages have N words each.
        let _ = &self.pages;
        let mut free = Vec::new(alloc);
        for p in 1..next {
            if is_free(self.page(p)) {
                free.push(p)?;
            }
        }
        Ok(free)
    }

    /// The bytes of the pages; read back they are the same pages.
    pub fn to_bytes(&self, alloc: Global) -> Result<Vec<u8>, Memory>
        ensures bytes { IfOk result (λ bytes. bytes.items ≡ bytes_of_pages self.now) }
        ensures back { IfOk result (λ bytes. IsPageFile N bytes.items × (pages_of_bytes N bytes.items ≡ self.now)) }
    {
        let count = self.pages();
        let mut bytes = Vec::with_capacity(alloc, 8 * N * count as usize)?;
        let mut space = vec![in alloc; 0; 8 * N]?;
        let written = space.as_mut_slice();
        for p in 0..count {
            self.page(p).put_bytes(written);
            bytes.extend_from_slice(written)?;
        }
        Ok(bytes)
    }
}
