// A pool is started, a page brought, shared and read: it stands on the contracts of `open_page` and the shared guard alone, and shows that a page
// that was brought can be shared for sure.
ghost use Rattle.std.specs.Prelude.{[], ◌<◌, ◌≡◌, IfOk, IsSome, length, map, true};
ghost use Rattle.vm_event.specs.Prelude.{MAX_VERSION};
ghost use Rattle.vm_page.specs.Sizes.{IsSize};
ghost use Rattle.vm_rule.specs.Prelude.{block_words, bounds_of, IsStarted, MayBegin};
ghost use Rattle.vm_pool.specs.Brings.{IsBroughtOrFailed};

use crate::first_page::{Opened, open_page};
use std::alloc::Global;
use vm_block::{Block, PageBlock};
use vm_event::Memory;
use vm_exmap::Interface;
use vm_owner::{Owner, Ungrouped};
use vm_pool::guard::SharedGuard;
use vm_pool::{Bring, Pool, Shape};
use vm_rule::words::Pass;

/// A pool that was just started, with its first pass, what `bring` answered, and the word that was read under a share of the page.
pub struct SharedPage<U: Owner, B: Block, const N: usize> {
    pub pool: Pool<U, B, N>,
    pub pass: Pass<U>,
    pub iface: Interface,
    pub answer: Bring,
    pub word: Option<u64>,
}

/// Starts a pool, below the last version, brings page `pid`, takes a share of it, reads its word `i`, and gives the share up. The page is
/// brought, or its device failed, as the bound of its block allows; where it was brought, it is shared and the word is read.
pub fn open_shared<U: Ungrouped, B: PageBlock<N> + Drop, const N: usize>(
    alloc: Global,
    shape: Shape,
    blocks: Vec<B>,
    pid: u32,
    i: usize,
) -> Result<SharedPage<U, B, N>, Memory>
    requires sized { IsSize N }
    requires takes { U.takes_size N ≡ true }
    requires pages { shape.pages ≡ length blocks.items }
    requires fits { IsStarted shape.first_version shape.next shape.frames (length blocks.items) }
    requires below { shape.first_version < MAX_VERSION }
    requires page { (pid < shape.pages) × (i < N) }
    requires begins { B.tells ≡ true → MayBegin U.keeps shape.next [] (block_words (map B.stored blocks.items)) }
    ensures answer { IfOk result (λ opened. IsBroughtOrFailed pid (bounds_of (map B.stored blocks.items)) opened.answer) }
    ensures word { IfOk result (λ opened. opened.answer ≡ Bring.Brought → IsSome opened.word) }
{
    let Opened {
        pool,
        mut pass,
        iface,
        answer,
    } = open_page(alloc, shape, blocks, pid)?;
    let word = match SharedGuard::take(&pool.words, &mut pass, pid) {
        Ok(guard) => {
            let word = guard.read(&pool.words, &mut pass, i);
            guard.drop_with(&pool.words, &mut pass);
            Some(word)
        }
        Err(_) => None,
    };
    Ok(SharedPage {
        pool,
        pass,
        iface,
        answer,
        word,
    })
}
