// A pool is started over the pages of a tree that is one leaf, both pages are brought, and a key is looked up. It stands on the contracts of `open_page`,
// `bring` and `try_get` alone, and shows that what `try_get` promises a pass that knows the pages to be resident can be had from the very start.
ghost use Rattle.std.specs.Prelude.{[], ◌<◌, ◌≡◌, ◌≤◌, IfOk, length, map, true};
ghost use Rattle.vm_map.specs.Map.{lookup_at};
ghost use Rattle.vm_tree_model.specs.Tree.{map_of};
ghost use Rattle.vm_event.specs.Prelude.{MAX_VERSION};
ghost use Rattle.vm_page.specs.Sizes.{IsSize};
ghost use Rattle.vm_rule.specs.Prelude.{block_words, bounds_of, IsStarted, MayBegin};
ghost use Rattle.vm_pool_callers.specs.from_vm_pool.Brings.{IsBroughtOrFailed};
ghost use Rattle.vm_tree_laws.specs.Plain.{KeepsPlain};

use std::alloc::Global;
use vm_block::{Block, PageBlock};
use vm_event::Memory;
use vm_exmap::Interface;
use vm_kind::{Kind, TreeOf};
use vm_map::call::Reply;
use vm_owner::Owner;
use vm_pool_callers::first_page::{Opened, open_page};
use vm_pool_callers::pool::{Bring, Pool, Shape};
use vm_rule::words::Pass;
use vm_tree_retry::tree_read::{TryRead, try_get};

/// A pool that was just started, with its first pass, what `bring` answered for page 0 and for the root, and what the get answered then.
pub struct Started<U: Owner, B: Block, const N: usize> {
    pub pool: Pool<U, B, N>,
    pub pass: Pass<U>,
    pub iface: Interface,
    pub meta: Bring,
    pub root: Bring,
    pub reply: TryRead,
}

/// Starts a pool of two or more frames, below the last version, over blocks that tell their words and hold a tree on the pages 0 and 1; brings
/// both, and tries a get of the key. Each page is brought, or its device failed, as the bound of its block allows; where both were brought the
/// get is answered at once, with what the map of the pages has at the key.
pub fn get_from_start<K: Kind, B: PageBlock<N> + Drop, const N: usize>(
    alloc: Global,
    shape: Shape,
    blocks: Vec<B>,
    key: &K::Key,
) -> Result<Started<TreeOf<K>, B, N>, Memory>
    requires sized { IsSize N }
    requires words { K.layout.words ≡ N }
    requires pages { shape.pages ≡ length blocks.items }
    requires fits { IsStarted shape.first_version shape.next shape.frames (length blocks.items) }
    requires below { shape.first_version < MAX_VERSION }
    requires frames { 2 ≤ shape.frames }
    requires leaf { shape.next ≡ 2 }
    requires tells { B.tells ≡ true }
    requires begins { MayBegin (KeepsPlain K.plain K.layout) shape.next [] (block_words (map B.stored blocks.items)) }
    ensures meta { IfOk result (λ started. IsBroughtOrFailed 0 (bounds_of (map B.stored blocks.items)) started.meta) }
    ensures root { IfOk result (λ started. IsBroughtOrFailed 1 (bounds_of (map B.stored blocks.items)) started.root) }
    ensures reply { IfOk result (λ started. started.meta ≡ Bring.Brought → started.root ≡ Bring.Brought
        → started.reply ≡ TryRead.Done (Reply.Got (lookup_at (map_of K.layout (block_words (map B.stored blocks.items))) (K.rank key.now)))) }
{
    let Opened {
        pool,
        mut pass,
        mut iface,
        answer: meta,
    } = open_page(alloc, shape, blocks, 0)?;
    let root = pool.bring(&mut pass, &mut iface, 1);
    let reply = try_get(&pool.words, &mut pass, key);
    Ok(Started {
        pool,
        pass,
        iface,
        meta,
        root,
        reply,
    })
}
