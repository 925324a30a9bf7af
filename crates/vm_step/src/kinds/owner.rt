// A frame's owner word: which page stands there, for those who look for pages by frames.
ghost use Rattle.std.specs.Prelude.{◌+◌, ◌<◌};
ghost use Rattle.vm_rule.specs.Prelude.{StandsIn};
ghost use Rattle.vm_step.specs.Prelude.{GoesOn, MayStep, view};
ghost use Rattle.vm_step.specs.steps.Owner.{DisownIsItsEvent, OloadIsItsEvent, OwnerLoadTold, OwnerTold, OwnIsItsEvent};

use crate::layout::owner_place;
use crate::operation::{load, store};
use std::marker::Brand;
use vm_block::Block;
use vm_owner::Owner;
use vm_rule::words::{Pass, Words};

/// Says that a page, which the pass has locked exclusively, stands in this frame: the frame's owner word is the page's number, and one more.
pub fn own<U: Owner, B: Block>(words: &Words<U, B>, pass: &mut Pass<U>, p: u32, f: u32)
    requires pass { MayStep words.now.table.shared.table_id pass.old }
    requires frame { f < words.now.table.shared.key.frames }
    requires legal { StandsIn (view pass.old) p f }
    ensures goes { GoesOn words.now B.tells pass.old pass.new }
    ensures told { OwnerTold p f (p + 1) (view pass.old) (view pass.new) }
{
    let at = owner_place(words, f);
    store::<U, B, (u32, u32), Brand>(words, pass, at, p as u64 + 1, (p, f));
}

/// Says that no page stands in this frame any more, where one does that the pass has locked exclusively: the frame's owner word is 0.
pub fn disown<U: Owner, B: Block>(words: &Words<U, B>, pass: &mut Pass<U>, p: u32, f: u32)
    requires pass { MayStep words.now.table.shared.table_id pass.old }
    requires frame { f < words.now.table.shared.key.frames }
    requires legal { StandsIn (view pass.old) p f }
    ensures goes { GoesOn words.now B.tells pass.old pass.new }
    ensures told { OwnerTold p f 0 (view pass.old) (view pass.new) }
{
    let at = owner_place(words, f);
    store::<U, B, (u32, u32), Brand>(words, pass, at, 0, (p, f));
}

/// The owner word of a frame: 0, or the number of the page that stands there, and one more.
pub fn oload<U: Owner, B: Block>(words: &Words<U, B>, pass: &mut Pass<U>, f: u32) -> u64
    requires pass { MayStep words.now.table.shared.table_id pass.old }
    requires frame { f < words.now.table.shared.key.frames }
    ensures goes { GoesOn words.now B.tells pass.old pass.new }
    ensures told { OwnerLoadTold f result (view pass.old) (view pass.new) }
{
    let at = owner_place(words, f);
    load::<U, B, u32, Brand>(words, pass, at, f)
}

/// A page that is said to own its frame: the frame's owner word is the page's number, and one more, and nothing is seen.
pub fn own_is_its_event<U: Owner, B: Block>()
    ensures { OwnIsItsEvent B.stored U.keeps U.tied B.tells }
{}

/// A page that is said to own its frame no more: the owner word is 0, and nothing is seen.
pub fn disown_is_its_event<U: Owner, B: Block>()
    ensures { DisownIsItsEvent B.stored U.keeps U.tied B.tells }
{}

/// A load of an owner word sees the word.
pub fn oload_is_its_event<U: Owner, B: Block>()
    ensures { OloadIsItsEvent B.stored U.keeps U.tied B.tells }
{}
