// All dirty pages that nobody has locked are written, and stay resident.
ghost use Rattle.std.specs.Prelude.{◌+◌, ◌<◌, ◌≡◌, ◌⊎◌, None};
ghost use Rattle.vm_event.specs.Prelude.{MARKED, state_of, UNLOCKED};
ghost use Rattle.vm_rule.specs.Prelude.{LookTold};
ghost use Rattle.vm_page.specs.Sizes.{IsSize};
ghost use Rattle.vm_supply.specs.from_vm_step.Prelude.{GoesOn, IsReadyOn, view};
ghost use Rattle.vm_evict.specs.Flushes.{done_of, IsCounted, IsFlushed, IsVisit, Marks};

use crate::write::{dirty_frame, write_where_dirty};
use vm_block::{Block, PageBlock};
use vm_event::StateWord;
use vm_owner::Ungrouped;
use vm_rule::words::{Pass, Words};
use vm_supply::step::{Took, lock_write_back, look_silently, mark, tload, unlock_shared};

/// What a flush did.
#[derive(Clone, Copy, Debug, PartialEq, Eq)]
pub struct Flushed {
    /// Pages written.
    pub written: u32,
    /// Pages whose write failed: they stay dirty.
    pub failed: u32,
    /// Pages that somebody had locked, or that changed before they could be locked.
    pub busy: u32,
    /// The least page whose write failed.
    pub first: Option<u32>,
}

/// Nothing was done yet.
const NOTHING: Flushed = Flushed {
    written: 0,
    failed: 0,
    busy: 0,
    first: None,
};

/// Writes each dirty page of the table to its block, from page 0 on, and makes it clean. Pages that somebody has locked are left.
pub fn flush<U: Ungrouped, B: PageBlock<N>, const N: usize>(
    words: &Words<U, B>,
    pass: &mut Pass<U>,
) -> Flushed
    requires ready { IsReadyOn words.now B.tells pass.old }
    requires sized { IsSize N }
    requires size { N ≡ words.now.table.shared.key.size }
    requires home { (view pass.old).out ≡ None }
    ensures goes { GoesOn words.now B.tells pass.old pass.new }
    ensures flushed { IsFlushed result (view pass.old) (view pass.new) }
{
    let mut flushed = NOTHING;
    for p in 0..words.pages {
        visit::<U, B, N>(words, pass, p as u32, &mut flushed);
    }
    flushed
}

/// Looks at the page, and writes it where it is dirty and nobody has it locked.
fn visit<U: Ungrouped, B: PageBlock<N>, const N: usize>(
    words: &Words<U, B>,
    pass: &mut Pass<U>,
    p: u32,
    flushed: &mut Flushed,
)
    requires ready { IsReadyOn words.now B.tells pass.old }
    requires sized { IsSize N }
    requires size { N ≡ words.now.table.shared.key.size }
    requires home { (view pass.old).out ≡ None }
    requires page { p < words.now.table.shared.key.pages }
    requires counts { done_of flushed.old < 4294967295 }
    ensures goes { GoesOn words.now B.tells pass.old pass.new }
    ensures visited { IsVisit p (view pass.old) (view pass.new) flushed.old flushed.new }
{
    let word = look_silently(words, pass, p);
    let state = StateWord::state(word);
    if state == StateWord::UNLOCKED || state == StateWord::MARKED {
        visit_unheld::<U, B, N>(words, pass, p, word, flushed);
    } else if state != StateWord::EVICTED {
        flushed.busy += 1;
    }
}

/// Writes the page, which a look found with this word, locked by nobody, where it is dirty.
fn visit_unheld<U: Ungrouped, B: PageBlock<N>, const N: usize>(
    words: &Words<U, B>,
    pass: &mut Pass<U>,
    p: u32,
    word: u64,
    flushed: &mut Flushed,
)
    requires ready { IsReadyOn words.now B.tells pass.old }
    requires sized { IsSize N }
    requires size { N ≡ words.now.table.shared.key.size }
    requires home { (view pass.old).out ≡ None }
    requires page { p < words.now.table.shared.key.pages }
    requires counts { done_of flushed.old < 4294967295 }
    requires unheld { (state_of word ≡ UNLOCKED) ⊎ (state_of word ≡ MARKED) }
    requires looked { (v : _) × LookTold U.tied p None word v (view pass.old) }
    ensures goes { GoesOn words.now B.tells pass.old pass.new }
    ensures visited { (v : _) → LookTold U.tied p None word v (view pass.old) → IsVisit p v (view pass.new) flushed.old flushed.new }
{
    if dirty_frame(tload(words, pass, p)).is_none() {
        return;
    }
    let marked = StateWord::of(StateWord::MARKED, StateWord::version(word));
    if let Took::Lost(_) = mark_page(words, pass, p, word) {
        flushed.busy += 1;
        return;
    }
    match lock_write_back(words, pass, p, marked) {
        Took::Lost(_) => flushed.busy += 1,
        Took::Taken => {
            let wrote = write_where_dirty::<U, B, N>(words, pass, p);
            unlock_shared(words, pass, p);
            flushed.count(p, wrote);
        }
    }
}

/// Marks a page whose word was this one, where it is not marked already.
fn mark_page<U: Ungrouped, B: Block>(
    words: &Words<U, B>,
    pass: &mut Pass<U>,
    p: u32,
    word: u64,
) -> Took
    requires ready { IsReadyOn words.now B.tells pass.old }
    requires page { p < words.now.table.shared.key.pages }
    requires legal { (state_of word ≡ UNLOCKED) ⊎ (state_of word ≡ MARKED) }
    ensures goes { GoesOn words.now B.tells pass.old pass.new }
    ensures marks { Marks p word (view pass.old) (view pass.new) result }
{
    if StateWord::state(word) == StateWord::MARKED {
        return Took::Taken;
    }
    mark(words, pass, p, word)
}

impl Flushed {
    /// Counts what became of the write of page `p`.
    fn count(&mut self, p: u32, wrote: Result<bool, u64>)
        requires counts { done_of self.old < 4294967295 }
        ensures counted { IsCounted p wrote self.old self.new }
    {
        match wrote {
            Ok(false) => {}
            Ok(true) => self.written += 1,
            Err(_) => {
                self.failed += 1;
                self.first = self.first.or(Some(p));
            }
        }
    }
}
