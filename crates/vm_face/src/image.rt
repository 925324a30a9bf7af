//! A store of the pages of a page file, in memory.

ghost use Rattle.std.specs.Prelude.{[], ◌≡◌, ◌≤◌, IfErr, IfOk, map, true};
ghost use Rattle.std.specs.Arc.{arc_value};
ghost use Rattle.std.specs.Vec.{vec_capacity};
ghost use Rattle.vm_page.specs.Sizes.{IsSize};
ghost use Rattle.vm_image.specs.File.{pages_of_bytes};
ghost use Rattle.vm_tree_model.specs.{Fixed.fixed, Tree.IsTree};
ghost use Rattle.vm_step.specs.Prelude.{view};
ghost use Rattle.vm_face.specs.{Closed.IsStoreOpened, Homes.made_at, Opened.IsNotOpened, Passes.IsStore};

use crate::store::{TreeStore, open_on};
use std::alloc::Global;
use vm_block::MemBlock;
use vm_check::{CheckFault, check};
use vm_image::{ImageFault, blocks_of, read_image};
use vm_serve::kind::{OfSize, TreeOf, WordKeys};
use vm_serve::pool::Shape;

/// Why there is no store.
#[derive(Drop)]
pub enum Opening {
    /// The bytes are no page file; this is their number.
    Length { len: usize },
    /// The frames are fewer than 64, or more than 65536.
    Frames,
    /// The pages are no tree: the page at fault and the number of the first reason.
    Page { pid: u32, why: u8 },
    Memory,
}

/// Opens a store of pages of `N` words on the tree that the bytes of a page file hold, with so many frames, each page beginning at version 0.
pub fn open_image<S: OfSize<N>, const N: usize>(
    alloc: Global,
    bytes: &[u8],
    frames: u32,
) -> Result<TreeStore<TreeOf<WordKeys<S, N>>, MemBlock<N>, N>, Opening>
    requires { IsSize N }
    ensures store { IfOk result (λ store. IsStore (arc_value store.pool).words true store.pass (map made_at store.homes.items) store.ever) }
    ensures room { IfOk result (λ store. 64 ≤ vec_capacity store.homes) }
    ensures tree { IfOk result (λ _. IsTree (fixed N) (pages_of_bytes N bytes.now)) }
    ensures opened { IfOk result (λ store. IsStoreOpened true (pages_of_bytes N bytes.now) (view store.pass)) }
    ensures none { IfOk result (λ store. (store.homes.items ≡ []) × (store.ever ≡ 0)) }
    ensures refused { IfErr result (λ why. IsNotOpened N bytes.now frames why) }
{
    if frames < 64 || 65536 < frames {
        return Err(Opening::Frames);
    }
    let image = match read_image(alloc, bytes) {
        Ok(image) => image,
        Err(ImageFault::BadLength { len }) => return Err(Opening::Length { len }),
        Err(ImageFault::Memory) => return Err(Opening::Memory),
    };
    match check(alloc, &image) {
        Ok(_) => {}
        Err(CheckFault::BadPage { pid, why }) => return Err(Opening::Page { pid, why }),
        Err(CheckFault::Memory) => return Err(Opening::Memory),
    }
    let Ok(blocks) = blocks_of(alloc, &image, &[]) else {
        return Err(Opening::Memory);
    };
    let shape = Shape {
        pages: image.pages(),
        frames,
        next: image.next(),
        first_version: 0,
    };
    let Ok(free) = image.free_pages(alloc, shape.next) else {
        return Err(Opening::Memory);
    };
    drop(image);
    match open_on(alloc, shape, blocks, free.as_slice()) {
        Ok(store) => Ok(store),
        Err(_) => Err(Opening::Memory),
    }
}
