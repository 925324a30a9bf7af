// A pass that makes three entries: they are its own, under its first number, with the counts 1, 2 and 3.
ghost use Rattle.std.specs.Prelude.{[], ◌<◌, ◌≡◌, IfOk, length, map, true};
ghost use Rattle.vm_page.specs.Sizes.{IsSize};
ghost use Rattle.vm_rule.specs.Prelude.{block_words, IsStarted, MayBegin};
ghost use Rattle.vm_step.specs.Prelude.{GoesOn, IsReadyOn, view};
ghost use Rattle.vm_workers.specs.Entries.{HasThree, SaysThree};

use crate::tally::AllowAll;
use std::alloc::Global;
use vm_block::{Block, PageBlock};
use vm_event::Memory;
use vm_exmap::Interface;
use vm_guard::{Deny, OptGuard};
use vm_owner::Owner;
use vm_pool_callers::pool::{Bring, Pool, Shape};
use vm_rule::words::{Pass, Words};

/// Why three entries were not made.
#[derive(Clone, Copy, Debug, PartialEq, Eq)]
pub enum Untold {
    Memory,
    /// The page was not brought, for this cause.
    Out(Bring),
    /// A read of the page was denied. The entries before it stand.
    Denied(Deny),
}

impl From<Memory> for Untold {
    fn from(_fault: Memory) -> Untold {
        Untold::Memory
    }
}

/// A pool, with the pass that made the entries.
pub struct ThreeEntries<B: Block, const N: usize> {
    pub pool: Pool<AllowAll, B, N>,
    pub pass: Pass<AllowAll>,
}

/// Reads the page, and validates the read three times; each time the page's number becomes an entry.
pub fn say_three<B: Block>(
    words: &Words<AllowAll, B>,
    pass: &mut Pass<AllowAll>,
    p: u32,
) -> Result<(), Deny>
    requires ready { IsReadyOn words.now B.tells pass.old }
    requires page { p < words.now.table.shared.key.pages }
    ensures goes { GoesOn words.now B.tells pass.old pass.new }
    ensures said { IfOk result (λ _. SaysThree p (view pass.old) (view pass.new)) }
{
    let guard = OptGuard::start(words, pass, p)?;
    if let Err(saw) = guard.validate(words, pass, Some(&p)) {
        return Err(Deny::Again(saw));
    }
    if let Err(saw) = guard.validate(words, pass, Some(&p)) {
        return Err(Deny::Again(saw));
    }
    if let Err(saw) = guard.validate(words, pass, Some(&p)) {
        return Err(Deny::Again(saw));
    }
    Ok(())
}

/// Starts a pool, brings a page, and makes three entries by reads of it.
pub fn three_entries<B: PageBlock<N> + Drop, const N: usize>(
    alloc: Global,
    shape: Shape,
    blocks: Vec<B>,
    p: u32,
) -> Result<ThreeEntries<B, N>, Untold>
    requires sized { IsSize N }
    requires pages { shape.pages ≡ length blocks.items }
    requires fits { IsStarted shape.first_version shape.next shape.frames (length blocks.items) }
    requires begins { B.tells ≡ true → MayBegin ⟦<AllowAll as Owner>⟧.keeps shape.next [] (block_words (map B.stored blocks.items)) }
    requires page { p < shape.pages }
    ensures told { IfOk result (λ told. HasThree p (view told.pass)) }
{
    let (pool, mut pass) = Pool::start(alloc, shape, blocks, &[], &[])?;
    let mut iface = Interface::new(0, 1);
    let answer = pool.bring(&mut pass, &mut iface, p);
    if answer != Bring::Brought {
        return Err(Untold::Out(answer));
    }
    match say_three(&pool.words, &mut pass, p) {
        Ok(()) => Ok(ThreeEntries { pool, pass }),
        Err(deny) => Err(Untold::Denied(deny)),
    }
}
