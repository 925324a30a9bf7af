//! The image of a tree of given pairs: leaves of 20 pairs and levels of 20 children, or of 180 on pages of 512 words, one after another.

ghost use Rattle.std.specs.Prelude.{◌≡◌, ◌≤◌, IfOk, MatchResult, length};
ghost use Rattle.vm_page.specs.Sizes.{IsSize};
ghost use Rattle.vm_image.specs.File.{most_pages};
ghost use Rattle.vm_build.specs.Build.{IsBuilt, IsBuildRefused, built, meta_page as meta_words, needed as needed_for};
ghost use Rattle.vm_build.specs.Numbers.{HasNoTwins, numbered as numbered_of};
ghost use Rattle.vm_build.specs.declared.building.BuildFault.TheVariants.{Memory};

use crate::levels::{nodes_for, push_levels};
use crate::seed::numbered;
use crate::sorting::sorted;
use std::alloc::{AllocError, Global};
use thiserror::Error;
use vm_image::{Image, magic_for};
use vm_map::call::Pair;
use vm_page::PageBuf;

/// Why no image was built.
#[derive(Debug, Drop, Error)]
pub enum BuildFault {
    /// The pairs need so many pages.
    #[error("{needed} pages are needed")]
    TooFew { needed: u32 },
    #[error("out of memory")]
    Memory,
}

impl From<AllocError> for BuildFault {
    ghost from_gives = { λ _ fault. fault ≡ Memory };

    fn from(_: AllocError) -> Self {
        BuildFault::Memory
    }
}

/// How many pages of so many words a tree of so many pairs takes, page 0 counted.
pub fn needed(words: usize, pairs: u32) -> u32
    requires { IsSize words }
    ensures { result ≡ needed_for words pairs }
{
    let mut nodes = nodes_for(words, pairs as usize);
    let mut pages = 1 + nodes;
    while nodes > 1 {
        nodes = nodes_for(words, nodes);
        pages += nodes;
    }
    pages as u32
}

/// An image of `pages` pages, as many as a file has at most, with a tree of up to 2,064,132 pairs of different keys, in whatever order they are given;
/// no file holds more. Leaves take 20 pairs each, and each level 20 children a node, or 180 on pages of 512 words, the last one the rest; the leaves come
/// first, the root last. `TooFew` exactly where the pairs need more pages.
pub fn build<const N: usize>(
    alloc: Global,
    pages: u32,
    pairs: &[Pair],
) -> Result<Image<N>, BuildFault>
    requires sized { IsSize N }
    requires pages { pages ≤ most_pages N }
    requires few { length pairs.now ≤ 2064132 }
    requires apart { HasNoTwins pairs.now }
    ensures { MatchResult result (λ image. IsBuilt N pages pairs.now image) (λ fault. IsBuildRefused N pages pairs.now fault) }
{
    let needed = needed(N, pairs.len() as u32);
    if pages < needed {
        return Err(BuildFault::TooFew { needed });
    }
    let sorted = sorted(alloc, pairs)?;
    let made = pages_of(alloc, pages, sorted)?;
    Ok(Image::of_pages(made))
}

/// An image of `pages` pages, as many as a file has at most, with a tree of the first `count` numbers of a seed, each with its
/// place. The pages are enough for them.
pub fn numbered_image<const N: usize>(
    alloc: Global,
    pages: u32,
    seed: u64,
    count: u32,
) -> Result<Image<N>, AllocError>
    requires sized { IsSize N }
    requires pages { pages ≤ most_pages N }
    requires few { count ≤ 2064132 }
    requires room { needed_for N count ≤ pages }
    ensures { IfOk result (λ image. IsBuilt N pages (numbered_of seed count) image) }
{
    let pairs = numbered(alloc, seed, count)?;
    match build(alloc, pages, pairs.as_slice()) {
        Ok(image) => Ok(image),
        Err(BuildFault::TooFew { .. }) => unreachable!(),
        Err(BuildFault::Memory) => Err(AllocError),
    }
}

// The pages of the image of up to 2,064,132 pairs by rising key, where there are enough. Page 0 is written last, when the root is known.
fn pages_of<const N: usize>(
    alloc: Global,
    pages: u32,
    pairs: Vec<Pair>,
) -> Result<Vec<PageBuf<N>>, AllocError>
    requires sized { IsSize N }
    requires fits { needed_for N (length pairs.items) ≤ pages }
    requires few { length pairs.items ≤ 2064132 }
    ensures { IfOk result (λ made. made.items ≡ built N pages pairs.items) }
{
    let mut made = Vec::with_capacity(alloc, pages as usize)?;
    made.push(PageBuf::zero())?;
    push_levels(alloc, pairs, &mut made)?;
    let meta = meta_page(&made[1..]);
    made[0] = meta;
    for _ in made.len()..pages as usize {
        made.push(PageBuf::zero())?;
    }
    Ok(made)
}

// Page 0 over these nodes, of which the last one is the root: it names the root and its level.
fn meta_page<const N: usize>(nodes: &[PageBuf<N>]) -> PageBuf<N>
    requires sized { IsSize N }
    requires some { 1 ≤ length nodes.now }
    ensures { result ≡ meta_words N nodes.now }
{
    let mut meta = PageBuf::zero();
    meta.set(0, magic_for(N));
    meta.set(1, nodes.len() as u64);
    meta.set(2, nodes[nodes.len() - 1].get(5));
    meta
}
