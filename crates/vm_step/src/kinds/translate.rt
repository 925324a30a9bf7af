// A page's translation word is loaded: an open read of the page gets its frame.
ghost use Rattle.std.specs.Prelude.{◌<◌};
ghost use Rattle.vm_rule.specs.Prelude.{TranslationTold};
ghost use Rattle.vm_step.specs.Prelude.{GoesOn, MayStep, view};
ghost use Rattle.vm_step.specs.steps.Translate.{TloadIsItsEvent};

use crate::layout::translation_place;
use crate::operation::load;
use std::marker::Brand;
use vm_block::Block;
use vm_owner::Owner;
use vm_rule::words::{Pass, Words};

/// The page's translation word. An open read of the page that has no frame yet gets the one that the word names.
pub fn tload<U: Owner, B: Block>(words: &Words<U, B>, pass: &mut Pass<U>, p: u32) -> u64
    requires pass { MayStep words.now.table.shared.table_id pass.old }
    requires page { p < words.now.table.shared.key.pages }
    ensures goes { GoesOn words.now B.tells pass.old pass.new }
    ensures told { TranslationTold p result (view pass.old) (view pass.new) }
{
    let at = translation_place(words, p);
    load::<U, B, u32, Brand>(words, pass, at, p)
}

/// A load of a translation word sees the word.
pub fn tload_is_its_event<U: Owner, B: Block>()
    ensures { TloadIsItsEvent B.stored U.keeps U.tied B.tells }
{}
