// A page is locked exclusively.
ghost use Rattle.std.specs.Prelude.{◌<◌, ◌≡◌, ◌≢◌, ℕ};
ghost use Rattle.vm_event.specs.Prelude.{MayLock};
ghost use Rattle.vm_rule.specs.Prelude.{LockTold};
ghost use Rattle.vm_step.specs.Prelude.{found_by, GoesOn, MayStep, view};
ghost use Rattle.vm_step.specs.{declared.took.Took.TheVariants.Lost, steps.Lock.LockExclusiveIsItsEvent};

use crate::layout::state_place;
use crate::operation::compare_exchange;
use crate::state_words::word_with;
use crate::took::{Took, answer};
use std::marker::Brand;
use vm_block::Block;
use vm_event::StateWord;
use vm_owner::{Owner, Ungrouped};
use vm_rule::words::{Pass, Words};

/// Locks the page exclusively, where its word is the one expected: Unlocked, Marked or Evicted, below the last version.
pub fn lock_exclusive<U: Ungrouped, B: Block>(
    words: &Words<U, B>,
    pass: &mut Pass<U>,
    p: u32,
    expects: u64,
) -> Took
    requires pass { MayStep words.now.table.shared.table_id pass.old }
    requires page { p < words.now.table.shared.key.pages }
    requires legal { MayLock expects }
    ensures goes { GoesOn words.now B.tells pass.old pass.new }
    ensures told { LockTold U.tied p expects (found_by expects result) (view pass.old) (view pass.new) }
    ensures lost { (word : ℕ) → result ≡ Lost word → word ≢ expects }
{
    let at = state_place(words, p);
    let new = word_with(StateWord::LOCKED, expects);
    answer(
        compare_exchange::<U, B, u32, Brand>(words, pass, at, expects, new, p),
        expects,
    )
}

/// An exclusive lock that is tried sees whether it was taken, and the word where it was not.
pub fn lock_exclusive_is_its_event<U: Owner, B: Block>()
    ensures { LockExclusiveIsItsEvent B.stored U.keeps U.tied B.tells }
{}
