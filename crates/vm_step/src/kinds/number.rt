// Free page numbers: a free-number word is loaded, numbers are taken by it, and given.
ghost use Rattle.std.specs.Prelude.{◌*◌, ◌<◌, ◌≡◌, ◌≢◌, ℕ};
ghost use Rattle.vm_rule.specs.FreeNumbers.{GiveNumbersTold, SpareTold, TakeNumbersTold};
ghost use Rattle.vm_step.specs.Prelude.{found_by, GoesOn, MayStep, view};
ghost use Rattle.vm_step.specs.declared.took.Took.TheVariants.{Lost};
ghost use Rattle.vm_step.specs.steps.Bundle.{IsMaskOf};
ghost use Rattle.vm_step.specs.steps.Number.{PassMayGiveNumbers, PbloadIsItsEvent, PgiveIsItsEvent, PtakeIsItsEvent};

use crate::layout::spare_place;
use crate::operation::{compare_exchange, fetch_or, load};
use crate::took::{Took, answer};
use std::marker::Brand;
use vm_block::Block;
use vm_event::FRAMES;
use vm_owner::Owner;
use vm_rule::words::{Pass, Words};

/// The free-number word: the bits of its free numbers.
pub fn pbload<U: Owner, B: Block>(words: &Words<U, B>, pass: &mut Pass<U>, g: u32) -> u64
    requires pass { MayStep words.now.table.shared.table_id pass.old }
    requires word { g * FRAMES < words.now.table.shared.key.pages }
    ensures goes { GoesOn words.now B.tells pass.old pass.new }
    ensures told { SpareTold g result (view pass.old) (view pass.new) }
{
    let at = spare_place(words, g);
    load::<U, B, u32, Brand>(words, pass, at, g)
}

/// Takes the numbers of the bits in `mask`, which are some of the bits expected, where the free-number word is the one expected.
pub fn ptake<U: Owner, B: Block>(
    words: &Words<U, B>,
    pass: &mut Pass<U>,
    g: u32,
    expects: u64,
    mask: u64,
) -> Took
    requires pass { MayStep words.now.table.shared.table_id pass.old }
    requires word { g * FRAMES < words.now.table.shared.key.pages }
    requires legal { IsMaskOf expects mask }
    ensures goes { GoesOn words.now B.tells pass.old pass.new }
    ensures told { TakeNumbersTold g expects mask (found_by expects result) (view pass.old) (view pass.new) }
    ensures lost { (word : ℕ) → result ≡ Lost word → word ≢ expects }
{
    let at = spare_place(words, g);
    let new = expects ^ mask;
    answer(
        compare_exchange::<U, B, (u32, u64), Brand>(words, pass, at, expects, new, (g, mask)),
        expects,
    )
}

/// Gives the numbers of the bits in `mask`, which the pass holds or of whose pages it is the one that freed them, and answers the word before.
pub fn pgive<U: Owner, B: Block>(words: &Words<U, B>, pass: &mut Pass<U>, g: u32, mask: u64) -> u64
    requires pass { MayStep words.now.table.shared.table_id pass.old }
    requires word { g * FRAMES < words.now.table.shared.key.pages }
    requires legal { PassMayGiveNumbers (view pass.old) g mask }
    ensures goes { GoesOn words.now B.tells pass.old pass.new }
    ensures told { GiveNumbersTold g mask result (view pass.old) (view pass.new) }
{
    let at = spare_place(words, g);
    fetch_or::<U, B, u32, Brand>(words, pass, at, mask, g)
}

/// A load of a free-number word sees the word.
pub fn pbload_is_its_event<U: Owner, B: Block>()
    ensures { PbloadIsItsEvent B.stored U.keeps U.tied B.tells }
{}

/// A take of numbers that is tried sees whether the word was the one expected, and the word where it was not.
pub fn ptake_is_its_event<U: Owner, B: Block>()
    ensures { PtakeIsItsEvent B.stored U.keeps U.tied B.tells }
{}

/// A give of numbers sees the word before.
pub fn pgive_is_its_event<U: Owner, B: Block>()
    ensures { PgiveIsItsEvent B.stored U.keeps U.tied B.tells }
{}
