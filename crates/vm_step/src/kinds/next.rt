// The next word, the least page number that was never claimed: it is loaded, and pages are claimed from it on.
ghost use Rattle.std.specs.Prelude.{◌+◌, ◌≡◌, ◌≢◌, ℕ};
ghost use Rattle.vm_rule.specs.Prelude.{ClaimTold, NextTold};
ghost use Rattle.vm_step.specs.Prelude.{found_by, GoesOn, MayStep, PassMayClaim, view};
ghost use Rattle.vm_step.specs.{declared.took.Took.TheVariants.Lost, steps.Next.ClaimIsItsEvent, steps.Next.NloadIsItsEvent};

use crate::layout::next_place;
use crate::operation::{compare_exchange, load};
use crate::took::{Took, answer};
use std::marker::Brand;
use vm_block::Block;
use vm_owner::Owner;
use vm_rule::words::{Pass, Words};

/// The least page number that was never claimed. A pass that holds that page exclusively knows from then on that it stays the next one.
pub fn nload<U: Owner, B: Block>(words: &Words<U, B>, pass: &mut Pass<U>) -> u64
    requires pass { MayStep words.now.table.shared.table_id pass.old }
    ensures goes { GoesOn words.now B.tells pass.old pass.new }
    ensures told { NextTold result (view pass.old) (view pass.new) }
{
    let at = next_place(words);
    load::<U, B, (), Brand>(words, pass, at, ())
}

/// Claims the pages `x` to `x + n - 1`, which the pass holds exclusively, for a group, where `x` is the next page.
pub fn claim<U: Owner, B: Block>(words: &Words<U, B>, pass: &mut Pass<U>, x: u32, n: u32) -> Took
    requires pass { MayStep words.now.table.shared.table_id pass.old }
    requires legal { PassMayClaim (view pass.old) x n }
    ensures goes { GoesOn words.now B.tells pass.old pass.new }
    ensures told { ClaimTold x n (found_by x result) (view pass.old) (view pass.new) }
    ensures lost { (word : ℕ) → result ≡ Lost word → word ≢ x }
{
    let at = next_place(words);
    let first = x as u64;
    let after = first + n as u64;
    answer(
        compare_exchange::<U, B, u32, Brand>(words, pass, at, first, after, n),
        first,
    )
}

/// A load of the next word sees the word.
pub fn nload_is_its_event<U: Owner, B: Block>()
    ensures { NloadIsItsEvent B.stored U.keeps U.tied B.tells }
{}

/// A claim that is tried sees whether the word was the one expected, and the word where it was not.
pub fn claim_is_its_event<U: Owner, B: Block>()
    ensures { ClaimIsItsEvent B.stored U.keeps U.tied B.tells }
{}
