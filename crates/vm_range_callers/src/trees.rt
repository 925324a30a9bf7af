//! Trees of a root over leaves, and pools over them. The pages are worked out by hand from the formats.
ghost use Rattle.std.specs.Prelude.{◌<◌, ◌≡◌, ◌≤◌, IfOk, None};
ghost use Rattle.vm_event.specs.Prelude.{MAX_VERSION};
ghost use Rattle.vm_step.specs.Prelude.{IsReadyOn, view};

use std::alloc::Global;
use std::test::Fail;
use vm_block::{Block, MemBlock};
use vm_kind::{OfSize, TreeOf, WordKeys};
use vm_rule::words::Pass;
pub use vm_tree_callers::calls::MAGIC;
use vm_tree_callers::calls::{open_sized, put_page};
use vm_tree_range::pool::Pool;

/// Leaf `k` of so many: its keys lie from 10 * k on and below 10 * (k + 1), and it has the one pair of 10 * k + 5 and k. Leaf 1 is empty.
fn leaf(k: u64, count: u64) -> [u64; 10]
    requires { k < 28 }
{
    let last = k + 1 == count;
    let high = if last { 0 } else { 10 * k + 10 };
    let top: u64 = if last { 1 } else { 0 };
    if k == 1 {
        return [2, 0, 10, high, top, 0, 0, 0, 0, 0];
    }
    [2, 1, 10 * k, high, top, 0, 0, 0, 10 * k + 5, k]
}

/// Pages of so many words, where page 0 begins with this word: the root on page 1 over so many leaves, on page 2 and those behind it.
pub fn leaves(alloc: Global, size: usize, magic: u64, count: u64) -> Result<Vec<u8>, Fail>
    requires { count ≤ 28 }
{
    let mut bytes = Vec::new(alloc);
    put_page(&mut bytes, size, &[magic, 1, 1])?;
    let mut root = Vec::new(alloc);
    root.extend_from_slice(&[3, count, 0, 0, 1, 1, 0, 0])?;
    for k in 0..count {
        root.push(10 * k)?;
        root.push(k + 2)?;
    }
    put_page(&mut bytes, size, root.as_slice())?;
    for k in 0..count {
        put_page(&mut bytes, size, &leaf(k, count))?;
    }
    Ok(bytes)
}

/// A pool over the tree of these bytes, with 64 frames, and its first pass. Every page begins at this version.
pub fn open<S: OfSize<N>, const N: usize>(
    alloc: Global,
    bytes: &[u8],
    first_version: u64,
) -> Result<
    (
        Pool<TreeOf<WordKeys<S, N>>, MemBlock<N>, N>,
        Pass<TreeOf<WordKeys<S, N>>>,
    ),
    Fail,
>
    requires version { first_version ≤ MAX_VERSION }
    ensures pages { IfOk result (λ made. 2 ≤ made.0.words.table.shared.key.pages) }
    ensures ready { IfOk result (λ made. IsReadyOn made.0.words ⟦<MemBlock<N> as Block>⟧.tells made.1) }
    ensures home { IfOk result (λ made. (view made.1).out ≡ None) }
{
    open_sized(alloc, bytes, &[], first_version)
}
