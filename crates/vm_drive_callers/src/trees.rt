//! Trees on the pages of an image, and pools over them.
ghost use Rattle.std.specs.Prelude.{◌≡◌, ◌≤◌, IfOk, length};
ghost use Rattle.vm_page.specs.Sizes.{IsSize};
ghost use Rattle.vm_tree_model.specs.{Fixed.fixed, Tree.IsTree};
ghost use Rattle.vm_event.specs.Prelude.{MAX_VERSION};
ghost use Rattle.vm_rule.specs.Prelude.{HoldsNoPage, IsWhole};
ghost use Rattle.vm_step.specs.Prelude.{IsReadyOn, view};

use std::alloc::{AllocError, Global};
use std::test::Fail;
use vm_block::{Block, MemBlock};
use vm_check::check;
use vm_image::{Image, PlannedFault, blocks_of, read_image};
use vm_page::{PageBuf, WORDS};
use vm_rule::words::Pass;
use vm_serve::pool::{Pool, Shape};
use vm_serve::tree_rule::Tree;

/// The first word of a page file with pages of 64 words.
const MAGIC: u64 = 0x564D_4341_4348_4531;

/// A page that begins with these words.
fn page<const N: usize>(words: &[u64]) -> PageBuf<N>
    requires sized { IsSize N }
    requires fits { length words.now ≤ N }
    ensures { length result ≡ N }
{
    let mut page = PageBuf::zero();
    for i in 0..words.len() {
        page.set(i, words[i]);
    }
    // A page has so many words.
    let _ = page.get(0);
    page
}

/// Appends a page that begins with these words.
fn put_page(bytes: &mut Vec<u8>, words: &[u64]) -> Result<(), AllocError>
    requires { length words.now ≤ 64 }
{
    let mut written = [0; 512];
    page::<WORDS>(words).put_bytes(&mut written);
    bytes.extend_from_slice(&written)
}

/// The image of a page file whose pages are a tree.
fn tree_in(alloc: Global, bytes: &[u8]) -> Result<Image<WORDS>, Fail>
    ensures { IfOk result (λ image. IsTree (fixed 64) image) }
{
    let image = read_image(alloc, bytes)?;
    check(alloc, &image)?;
    Ok(image)
}

/// Two pages whose one leaf is empty, and so many free ones behind them.
pub fn empty(alloc: Global, free: usize) -> Result<Image<WORDS>, Fail>
    ensures { IfOk result (λ image. IsTree (fixed 64) image) }
{
    let mut bytes = Vec::new(alloc);
    put_page(&mut bytes, &[MAGIC, 1, 0])?;
    put_page(&mut bytes, &[2, 0, 0, 0, 1])?;
    for _ in 0..free {
        put_page(&mut bytes, &[])?;
    }
    tree_in(alloc, bytes.as_slice())
}

/// Eight pages: below the root on page 3, leaves with the pairs 1 1 to 14 14 on page 1, and 15 15 to 29 29 on page 2.
pub fn two_leaves(alloc: Global) -> Result<Image<WORDS>, Fail>
    ensures { IfOk result (λ image. IsTree (fixed 64) image) }
{
    let mut bytes = Vec::new(alloc);
    put_page(&mut bytes, &[MAGIC, 3, 1])?;
    let low = [
        2, 14, 0, 15, 0, 0, 0, 0, 1, 1, 2, 2, 3, 3, 4, 4, 5, 5, 6, 6, 7, 7, 8, 8, 9, 9, 10, 10, 11,
        11, 12, 12, 13, 13, 14, 14,
    ];
    put_page(&mut bytes, &low)?;
    let high = [
        2, 15, 15, 0, 1, 0, 0, 0, 15, 15, 16, 16, 17, 17, 18, 18, 19, 19, 20, 20, 21, 21, 22, 22,
        23, 23, 24, 24, 25, 25, 26, 26, 27, 27, 28, 28, 29, 29,
    ];
    put_page(&mut bytes, &high)?;
    put_page(&mut bytes, &[3, 2, 0, 0, 1, 1, 0, 0, 0, 1, 15, 2])?;
    for _ in 0..4 {
        put_page(&mut bytes, &[])?;
    }
    tree_in(alloc, bytes.as_slice())
}

/// A pool over the tree, with so many frames, and its first pass. The calls of the plan fail, and every page begins at this version.
pub fn open(
    alloc: Global,
    image: &Image<WORDS>,
    plan: &[PlannedFault],
    first_version: u64,
    frames: u32,
) -> Result<(Pool<Tree, MemBlock<WORDS>, WORDS>, Pass<Tree>), Fail>
    requires tree { IsTree (fixed 64) image.now }
    requires version { first_version ≤ MAX_VERSION }
    requires frames { (1 ≤ frames) × (frames ≤ 65536) }
    ensures pages { IfOk result (λ made. 1 ≤ made.0.words.table.shared.key.pages) }
    ensures frames { IfOk result (λ made. made.0.words.frames ≡ frames) }
    ensures ready { IfOk result (λ made. IsReadyOn made.0.words ⟦<MemBlock<WORDS> as Block>⟧.tells made.1) }
    ensures whole { IfOk result (λ made. IsWhole (view made.1)) }
    ensures holds { IfOk result (λ made. HoldsNoPage (view made.1)) }
    ensures fresh { IfOk result (λ made. 64 ≤ length (view made.1).fresh) }
{
    let blocks = blocks_of(alloc, image, plan)?;
    let shape = Shape {
        pages: image.pages(),
        frames,
        next: image.next(),
        first_version,
    };
    Ok(Pool::start(alloc, shape, blocks, &[], &[])?)
}
