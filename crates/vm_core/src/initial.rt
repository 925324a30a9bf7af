//! The lists of a machine at the start.

ghost use Rattle.std.specs.Prelude.{[], ◌*◌, ◌+◌, ◌-◌, ◌/◌, ◌<◌, ◌≡◌, ◌≤◌, if◌then◌else◌, IfOk, length, replicate, ℕ};
ghost use Rattle.vm_event.specs.Prelude.{core_block, full_bundle, GroupsFit, head_in};
ghost use Rattle.vm_core.specs.Prelude.{head_of, StartBundles, StartHeads, StartPages};
ghost use Rattle.vm_core.specs.CoreOf.{HeadsFit};
ghost use Rattle.vm_event.specs.Groups.{in_group};

use crate::frames::FrameSet;
use crate::page::PageCell;
use std::alloc::{AllocError, Global};
use vm_event::{CoreShape, FRAMES};
use vm_page::WORDS;

/// The words of a page's block at the start.
pub fn core_block(next: u32, p: u32) -> [u64; WORDS]
    ensures { result ≡ core_block next p }
{
    let mut words = [0; WORDS];
    if p < next {
        let base = WORDS as u64 * u64::from(p);
        for i in 0..WORDS {
            words[i] = base + i as u64;
        }
    }
    words
}

/// The bundle word of all frames of a bundle.
pub fn full_bundle(frames: u32, g: u32) -> u64
    requires { g * FRAMES < frames }
    ensures { result ≡ full_bundle frames g }
{
    let left = frames - g * FRAMES as u32;
    if left >= FRAMES as u32 {
        u64::MAX
    } else {
        (1 << left) - 1
    }
}

/// How many bundles the frames have.
pub fn bundle_count(frames: u32) -> u32
    ensures { result ≡ (frames + (FRAMES - 1)) / FRAMES }
{
    frames.div_ceil(FRAMES as u32)
}

/// Each page as its own head.
fn own_heads(alloc: Global, pages: u32) -> Result<Vec<u32>, AllocError>
    ensures { IfOk result (λ v. StartHeads pages [] v.items) }
{
    let mut heads = Vec::new(alloc);
    for p in 0..pages {
        heads.push(p)?;
    }
    Ok(heads)
}

/// The pages of a group get their head.
fn set_head(heads: &mut [u32], group: (u32, u32))
    requires { group.0 + group.1 ≤ length heads.old }
    ensures { (p : ℕ) → head_of heads.new p ≡ (if in_group group p then group.0 else head_of heads.old p) }
{
    let (head, size) = group;
    let first = head as usize;
    for p in first..first + size as usize {
        heads[p] = head;
    }
}

/// The head of each page at the start: the first page of its group, or the page itself.
pub fn start_heads(alloc: Global, pages: u32, groups: &[(u32, u32)]) -> Result<Vec<u32>, AllocError>
    requires { GroupsFit pages groups.now }
    ensures heads { IfOk result (λ v. StartHeads pages groups.now v.items) }
    ensures fit { IfOk result (λ v. HeadsFit pages v.items) }
{
    let mut heads = own_heads(alloc, pages)?;
    for i in (0..groups.len()).rev() {
        set_head(&mut heads, groups[i]);
    }
    Ok(heads)
}

/// The pages at the start.
pub fn start_pages(alloc: Global, shape: CoreShape) -> Result<Vec<PageCell>, AllocError>
    ensures { IfOk result (λ v. StartPages shape shape.pages v.items) }
{
    let mut pages = Vec::new(alloc);
    for p in 0..shape.pages {
        let page = PageCell::new(alloc, shape, p)?;
        pages.push(page)?;
    }
    Ok(pages)
}

/// The frames at the start.
pub fn start_frames(alloc: Global, count: u32) -> Result<Vec<[u64; WORDS]>, AllocError>
    ensures { IfOk result (λ v. v.items ≡ replicate count (replicate WORDS 0)) }
{
    let mut frames = Vec::new(alloc);
    for f in 0..count {
        frames.push([0; WORDS])?;
    }
    Ok(frames)
}

/// The bundle words at the start.
pub fn start_bundles(alloc: Global, frames: u32, count: u32) -> Result<Vec<u64>, AllocError>
    requires { count ≡ (frames + (FRAMES - 1)) / FRAMES }
    ensures { IfOk result (λ v. StartBundles frames count v.items) }
{
    let mut bundles = Vec::new(alloc);
    for g in 0..count {
        let word = full_bundle(frames, g);
        bundles.push(word)?;
    }
    Ok(bundles)
}

/// What the actors hold at the start.
pub fn start_held(alloc: Global, actors: u32, count: u32) -> Result<Vec<FrameSet>, AllocError>
    ensures { IfOk result (λ v. v.items ≡ replicate actors (replicate count 0)) }
{
    let mut held = Vec::new(alloc);
    for actor in 0..actors {
        let row = FrameSet::new(alloc, count as usize)?;
        held.push(row)?;
    }
    Ok(held)
}

/// A class of words at the start, such as the owner words: all 0.
pub fn start_words(alloc: Global, count: u32) -> Result<Vec<u64>, AllocError>
    ensures { IfOk result (λ v. v.items ≡ replicate count 0) }
{
    vec![in alloc; 0; count as usize]
}
