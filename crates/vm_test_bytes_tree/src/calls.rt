//! A pool over an empty tree with byte keys, and the tree's calls by a pass whose block is at home: it is at home again after each of them.
ghost use Rattle.std.specs.Prelude.{◌≡◌, ◌≤◌, IfOk, None};
ghost use Rattle.vm_step.specs.Prelude.{AreHeld, IsReadyOn, view};

use std::alloc::Global;
use std::sync::Wait;
use std::test::Fail;
use vm_block::{Block, MemBlock};
use vm_bytes_file::empty_image;
use vm_bytes_tree::{BytesTree, TreeFault, get, put, swap};
use vm_exmap::Interface;
use vm_image::blocks_of;
use vm_map::call::Reply;
use vm_map::key::Key;
use vm_rule::words::Pass;
use vm_tree_callers::pool::{Pool, Shape};

/// A pool of so many pages, with 64 frames, over a tree that holds nothing; and its first pass.
pub fn open(
    alloc: Global,
    pages: u32,
) -> Result<(Pool<BytesTree, MemBlock<512>, 512>, Pass<BytesTree>), Fail>
    requires some { 2 ≤ pages }
    requires most { pages ≤ 8192 }
    ensures pages { IfOk result (λ made. 1 ≤ made.0.words.table.shared.key.pages) }
    ensures ready { IfOk result (λ made. IsReadyOn made.0.words ⟦<MemBlock<512> as Block>⟧.tells made.1) }
    ensures home { IfOk result (λ made. (view made.1).out ≡ None) }
{
    let image = empty_image(alloc, pages)?;
    let blocks = blocks_of(alloc, &image, &[])?;
    let shape = Shape {
        pages: image.pages(),
        frames: 64,
        next: image.next(),
        first_version: 0,
    };
    Ok(Pool::start(alloc, shape, blocks, &[], &[])?)
}

/// The key of these bytes, of which 64 are read at most.
pub fn key(bytes: &[u8]) -> Key {
    Key::of(bytes).unwrap_or(Key::new())
}

/// `get`.
pub fn got<R: Wait>(
    rt: &R,
    pool: &Pool<BytesTree, MemBlock<512>, 512>,
    pass: &mut Pass<BytesTree>,
    iface: &mut Interface,
    bytes: &[u8],
) -> Result<Reply, TreeFault>
    requires pages { 1 ≤ pool.now.words.table.shared.key.pages }
    requires ready { IsReadyOn pool.now.words ⟦<MemBlock<512> as Block>⟧.tells pass.old }
    requires home { (view pass.old).out ≡ None }
    requires held { AreHeld iface.old.frames (view pass.old) }
    ensures ready { IsReadyOn pool.now.words ⟦<MemBlock<512> as Block>⟧.tells pass.new }
    ensures home { (view pass.new).out ≡ None }
    ensures held { AreHeld iface.new.frames (view pass.new) }
{
    get(rt, pool, pass, iface, &key(bytes))
}

/// `put`.
pub fn put_at<R: Wait>(
    rt: &R,
    pool: &Pool<BytesTree, MemBlock<512>, 512>,
    pass: &mut Pass<BytesTree>,
    iface: &mut Interface,
    bytes: &[u8],
    value: u64,
) -> Result<Reply, TreeFault>
    requires pages { 1 ≤ pool.now.words.table.shared.key.pages }
    requires ready { IsReadyOn pool.now.words ⟦<MemBlock<512> as Block>⟧.tells pass.old }
    requires home { (view pass.old).out ≡ None }
    requires held { AreHeld iface.old.frames (view pass.old) }
    ensures ready { IsReadyOn pool.now.words ⟦<MemBlock<512> as Block>⟧.tells pass.new }
    ensures home { (view pass.new).out ≡ None }
    ensures held { AreHeld iface.new.frames (view pass.new) }
{
    put(rt, pool, pass, iface, &key(bytes), value)
}

/// `swap`.
pub fn swap_at<R: Wait>(
    rt: &R,
    pool: &Pool<BytesTree, MemBlock<512>, 512>,
    pass: &mut Pass<BytesTree>,
    iface: &mut Interface,
    bytes: &[u8],
    want: u64,
    value: u64,
) -> Result<Reply, TreeFault>
    requires pages { 1 ≤ pool.now.words.table.shared.key.pages }
    requires ready { IsReadyOn pool.now.words ⟦<MemBlock<512> as Block>⟧.tells pass.old }
    requires home { (view pass.old).out ≡ None }
    requires held { AreHeld iface.old.frames (view pass.old) }
    ensures ready { IsReadyOn pool.now.words ⟦<MemBlock<512> as Block>⟧.tells pass.new }
    ensures home { (view pass.new).out ≡ None }
    ensures held { AreHeld iface.new.frames (view pass.new) }
{
    swap(rt, pool, pass, iface, &key(bytes), want, value)
}
