//! A pool over an empty tree with byte keys, with its first pass, and lists of calls for two workers.
ghost use Rattle.std.specs.Prelude.{[], ◌∷◌, ◌≡◌, ◌≤◌, IfOk, length};
ghost use Rattle.vm_rule.specs.Prelude.{HoldsNoPage, IsWhole};
ghost use Rattle.vm_step.specs.Prelude.{IsReadyOn, view};
ghost use Rattle.vm_bytes_drive.specs.{Drives.AreKeyAskable, from_vm_drive.Drives.AreFew, from_vm_drive.Drives.items_of};

use std::alloc::Global;
use std::test::Fail;
use vm_block::{Block, MemBlock};
use vm_bytes_drive::BytesTree;
use vm_bytes_drive::pool::{Pool, Shape};
use vm_bytes_file::empty_image;
use vm_bytes_laws::call::KeyCall;
use vm_image::blocks_of;
use vm_map::key::Key;
use vm_rule::words::Pass;

/// A pool of so many pages, with 64 frames, over a tree that holds nothing; and its first pass.
pub fn open(
    alloc: Global,
    pages: u32,
) -> Result<(Pool<BytesTree, MemBlock<512>, 512>, Pass<BytesTree>), Fail>
    requires some { 2 ≤ pages }
    requires most { pages ≤ 8192 }
    ensures pages { IfOk result (λ made. 1 ≤ made.0.words.table.shared.key.pages) }
    ensures frames { IfOk result (λ made. made.0.words.frames ≡ 64) }
    ensures ready { IfOk result (λ made. IsReadyOn made.0.words ⟦<MemBlock<512> as Block>⟧.tells made.1) }
    ensures whole { IfOk result (λ made. IsWhole (view made.1)) }
    ensures holds { IfOk result (λ made. HoldsNoPage (view made.1)) }
    ensures fresh { IfOk result (λ made. 2 ≤ length (view made.1).fresh) }
{
    let image = empty_image(alloc, pages)?;
    let blocks = blocks_of(alloc, &image, &[])?;
    let shape = Shape {
        pages: image.pages(),
        frames: 64,
        next: image.next(),
        first_version: 0,
    };
    Ok(Pool::start(alloc, shape, blocks, &[], &[])?)
}

/// The key of these bytes, of which 64 are read at most.
pub fn key(bytes: &[u8]) -> Key {
    Key::of(bytes).unwrap_or(Key::new())
}

/// A list of three calls.
pub fn three(
    alloc: Global,
    first: KeyCall,
    second: KeyCall,
    third: KeyCall,
) -> Result<Vec<KeyCall>, Fail>
    ensures { IfOk result (λ list. list.items ≡ first ∷ second ∷ third ∷ []) }
{
    let mut list = Vec::with_capacity(alloc, 3)?;
    list.push(first)?;
    list.push(second)?;
    list.push(third)?;
    Ok(list)
}

/// The lists of two workers with three calls each.
pub fn two(alloc: Global) -> Result<Vec<Vec<KeyCall>>, Fail>
    ensures two { IfOk result (λ lists. length lists.items ≡ 2) }
    ensures few { IfOk result (λ lists. AreFew (items_of lists.items)) }
    ensures askable { IfOk result (λ lists. AreKeyAskable (items_of lists.items)) }
{
    let first = three(
        alloc,
        KeyCall::Put {
            key: key(&[]),
            value: 1,
        },
        KeyCall::Put {
            key: key(&[0]),
            value: 2,
        },
        KeyCall::Get { key: key(&[0]) },
    )?;
    let second = three(
        alloc,
        KeyCall::Put {
            key: key(&[1]),
            value: 5,
        },
        KeyCall::Del { key: key(&[1]) },
        KeyCall::Get { key: key(&[1]) },
    )?;
    let mut lists = Vec::with_capacity(alloc, 2)?;
    lists.push(first)?;
    lists.push(second)?;
    Ok(lists)
}
