// The clock marks a page that nobody has locked, a candidate for eviction, and takes the mark away again.
ghost use Rattle.std.specs.Prelude.{◌<◌, ◌≡◌, ◌≢◌, ℕ};
ghost use Rattle.vm_event.specs.Prelude.{MARKED, state_of, UNLOCKED, version_of, word_of};
ghost use Rattle.vm_rule.specs.Prelude.{MarkTold};
ghost use Rattle.vm_step.specs.Prelude.{found_by, GoesOn, MayStep, view};
ghost use Rattle.vm_step.specs.{declared.took.Took.TheVariants.Lost, steps.Mark.MarkIsItsEvent, steps.Mark.UnmarkIsItsEvent};

use crate::layout::state_place;
use crate::operation::compare_exchange;
use crate::state_words::word_with;
use crate::took::{Took, answer};
use std::marker::Brand;
use vm_block::Block;
use vm_event::StateWord;
use vm_owner::{Owner, Ungrouped};
use vm_rule::words::{Pass, Words};

/// Marks the page, where its word is the one expected: Unlocked.
pub fn mark<U: Ungrouped, B: Block>(
    words: &Words<U, B>,
    pass: &mut Pass<U>,
    p: u32,
    expects: u64,
) -> Took
    requires pass { MayStep words.now.table.shared.table_id pass.old }
    requires page { p < words.now.table.shared.key.pages }
    requires legal { state_of expects ≡ UNLOCKED }
    ensures goes { GoesOn words.now B.tells pass.old pass.new }
    ensures told { MarkTold p expects (found_by expects result) (word_of MARKED (version_of expects)) (view pass.old) (view pass.new) }
    ensures lost { (word : ℕ) → result ≡ Lost word → word ≢ expects }
{
    let at = state_place(words, p);
    let new = word_with(StateWord::MARKED, expects);
    answer(
        compare_exchange::<U, B, u32, Brand>(words, pass, at, expects, new, p),
        expects,
    )
}

/// Takes the page's mark away, where its word is the one expected: Marked.
pub fn unmark<U: Ungrouped, B: Block>(
    words: &Words<U, B>,
    pass: &mut Pass<U>,
    p: u32,
    expects: u64,
) -> Took
    requires pass { MayStep words.now.table.shared.table_id pass.old }
    requires page { p < words.now.table.shared.key.pages }
    requires legal { state_of expects ≡ MARKED }
    ensures goes { GoesOn words.now B.tells pass.old pass.new }
    ensures told { MarkTold p expects (found_by expects result) (word_of UNLOCKED (version_of expects)) (view pass.old) (view pass.new) }
    ensures lost { (word : ℕ) → result ≡ Lost word → word ≢ expects }
{
    let at = state_place(words, p);
    let new = word_with(StateWord::UNLOCKED, expects);
    answer(
        compare_exchange::<U, B, u32, Brand>(words, pass, at, expects, new, p),
        expects,
    )
}

/// A mark that is tried sees whether it was set, and the word where it was not.
pub fn mark_is_its_event<U: Owner, B: Block>()
    ensures { MarkIsItsEvent B.stored U.keeps U.tied B.tells }
{}

/// A mark that is tried to be taken away sees the same.
pub fn unmark_is_its_event<U: Owner, B: Block>()
    ensures { UnmarkIsItsEvent B.stored U.keeps U.tied B.tells }
{}
