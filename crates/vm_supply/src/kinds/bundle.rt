// Free frames: a bundle's word is loaded, frames are taken by it, and given back.
ghost use Rattle.std.specs.Prelude.{◌*◌, ◌<◌, ◌≡◌, ◌≢◌, ℕ};
ghost use Rattle.vm_step.specs.from_vm_rule.Prelude.{BundleTold, GiveTold, TakeTold};
ghost use Rattle.vm_step.specs.Prelude.{found_by, GoesOn, MayStep, PassMayGive, view};
ghost use Rattle.vm_step.specs.declared.took.Took.TheVariants.{Lost};
ghost use Rattle.vm_step.specs.steps.Bundle.{BloadIsItsEvent, GiveIsItsEvent, IsMaskOf, TakeIsItsEvent};

use std::marker::Brand;
use vm_block::Block;
use vm_event::FRAMES;
use vm_owner::Owner;
use vm_step::Took;
use vm_step::making::{answer, bundle_place, compare_exchange, fetch_or, load};
use vm_step::rule::{Pass, Words};

/// The bundle's word: the bits of its free frames.
pub fn bload<U: Owner, B: Block>(words: &Words<U, B>, pass: &mut Pass<U>, g: u32) -> u64
    requires pass { MayStep words.now.table.shared.table_id pass.old }
    requires bundle { g * FRAMES < words.now.table.shared.key.frames }
    ensures goes { GoesOn words.now B.tells pass.old pass.new }
    ensures told { BundleTold g result (view pass.old) (view pass.new) }
{
    let at = bundle_place(words, g);
    load::<U, B, u32, Brand>(words, pass, at, g)
}

/// Takes the frames of the bits in `mask`, which are some of the bits expected, where the bundle's word is the one expected.
pub fn take<U: Owner, B: Block>(
    words: &Words<U, B>,
    pass: &mut Pass<U>,
    g: u32,
    expects: u64,
    mask: u64,
) -> Took
    requires pass { MayStep words.now.table.shared.table_id pass.old }
    requires bundle { g * FRAMES < words.now.table.shared.key.frames }
    requires legal { IsMaskOf expects mask }
    ensures goes { GoesOn words.now B.tells pass.old pass.new }
    ensures told { TakeTold g expects mask (found_by expects result) (view pass.old) (view pass.new) }
    ensures lost { (word : ℕ) → result ≡ Lost word → word ≢ expects }
{
    let at = bundle_place(words, g);
    let new = expects ^ mask;
    answer(
        compare_exchange::<U, B, (u32, u64), Brand>(words, pass, at, expects, new, (g, mask)),
        expects,
    )
}

/// Gives the frames of the bits in `mask` back, which the pass holds, and answers the word before.
pub fn give<U: Owner, B: Block>(words: &Words<U, B>, pass: &mut Pass<U>, g: u32, mask: u64) -> u64
    requires pass { MayStep words.now.table.shared.table_id pass.old }
    requires bundle { g * FRAMES < words.now.table.shared.key.frames }
    requires legal { PassMayGive (view pass.old) g mask }
    ensures goes { GoesOn words.now B.tells pass.old pass.new }
    ensures told { GiveTold g mask result (view pass.old) (view pass.new) }
{
    let at = bundle_place(words, g);
    fetch_or::<U, B, u32, Brand>(words, pass, at, mask, g)
}

/// A load of a bundle word sees the word.
pub fn bload_is_its_event<U: Owner, B: Block>()
    ensures { BloadIsItsEvent B.stored U.keeps U.tied B.tells }
{}

/// A take that is tried sees whether the word was the one expected, and the word where it was not.
pub fn take_is_its_event<U: Owner, B: Block>()
    ensures { TakeIsItsEvent B.stored U.keeps U.tied B.tells }
{}

/// A give sees the word before.
pub fn give_is_its_event<U: Owner, B: Block>()
    ensures { GiveIsItsEvent B.stored U.keeps U.tied B.tells }
{}
