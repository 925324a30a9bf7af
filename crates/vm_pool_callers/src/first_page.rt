// A pool is started and a page brought at once. It stands on the contracts of `start` and `bring` alone, and shows that what `bring` promises
// a pass that is alone can be had: the first pass is such a one, and knows each page to be evicted and each frame to be free.
ghost use Rattle.std.specs.Prelude.{[], ◌<◌, ◌≡◌, IfOk, length, map, true};
ghost use Rattle.vm_event.specs.Prelude.{MAX_VERSION};
ghost use Rattle.vm_page.specs.Sizes.{IsSize};
ghost use Rattle.vm_rule.specs.Prelude.{block_words, bounds_of, IsStarted, MayBegin, started_shape, unborn};
ghost use Rattle.vm_rule.specs.Begun.{begun};
ghost use Rattle.vm_step.specs.Prelude.{AreHeld, IsReadyOn, view};
ghost use Rattle.vm_pool.specs.Brings.{IsBroughtOrFailed};
ghost use Rattle.vm_pool_callers.specs.Known.{HasAskedFirst};

use std::alloc::Global;
use vm_block::{Block, PageBlock};
use vm_event::Memory;
use vm_exmap::Interface;
use vm_owner::{Owner, Ungrouped};
use vm_pool::{Bring, Pool, Shape};
use vm_rule::words::Pass;

/// A pool that was just started, with its first pass, and what the first call of `bring` answered.
pub struct Opened<U: Owner, B: Block, const N: usize> {
    pub pool: Pool<U, B, N>,
    pub pass: Pass<U>,
    pub iface: Interface,
    pub answer: Bring,
}

/// Starts a pool, below the last version, and brings page `pid`: it is brought, or its device failed, as the bound of its block allows. With
/// a block whose bound is 0 it is brought. What the pass knows then is enough for its next calls.
pub fn open_page<U: Ungrouped, B: PageBlock<N> + Drop, const N: usize>(
    alloc: Global,
    shape: Shape,
    blocks: Vec<B>,
    pid: u32,
) -> Result<Opened<U, B, N>, Memory>
    requires sized { IsSize N }
    requires takes { U.takes_size N ≡ true }
    requires pages { shape.pages ≡ length blocks.items }
    requires fits { IsStarted shape.first_version shape.next shape.frames (length blocks.items) }
    requires below { shape.first_version < MAX_VERSION }
    requires page { pid < shape.pages }
    requires begins { B.tells ≡ true → MayBegin U.keeps shape.next [] (block_words (map B.stored blocks.items)) }
    ensures answer { IfOk result (λ opened. IsBroughtOrFailed pid (bounds_of (map B.stored blocks.items)) opened.answer) }
    ensures key { IfOk result (λ opened. opened.pool.words.table.shared.key
        ≡ started_shape N B.tells shape.first_version shape.next [] [] shape.frames (map B.stored blocks.items)) }
    ensures ready { IfOk result (λ opened. IsReadyOn opened.pool.words B.tells opened.pass) }
    ensures held { IfOk result (λ opened. AreHeld opened.iface.frames (view opened.pass)) }
    ensures asked { IfOk result (λ opened. HasAskedFirst pid
        (begun (unborn (started_shape N B.tells shape.first_version shape.next [] [] shape.frames (map B.stored blocks.items))))
        opened.iface.frames (view opened.pass) opened.answer) }
{
    let (pool, mut pass) = Pool::start(alloc, shape, blocks, &[], &[])?;
    let mut iface = Interface::new(0, 1);
    let answer = pool.bring(&mut pass, &mut iface, pid);
    Ok(Opened {
        pool,
        pass,
        iface,
        answer,
    })
}
