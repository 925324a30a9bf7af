// A page's translation word is written: the page is put into a frame, taken out of it, made dirty or clean.
ghost use Rattle.std.specs.Prelude.{◌<◌, ℕ};
ghost use Rattle.vm_rule.specs.Prelude.{CleanTold, ClearTold, DirtyTold, InstallTold, IsWritten, MayPutInto, StandsClean, StandsIn};
ghost use Rattle.vm_step.specs.Prelude.{GoesOn, MayStep, view};
ghost use Rattle.vm_step.specs.steps.Mapping.{ClearIsItsEvent, InstallIsItsEvent, SetCleanIsItsEvent, SetDirtyIsItsEvent};

use crate::layout::translation_place;
use crate::operation::store;
use std::marker::Brand;
use vm_block::Block;
use vm_event::TransWord;
use vm_owner::Owner;
use vm_rule::words::{Pass, Words};

/// Puts a page, which the pass has locked exclusively and which is not resident, into a frame of the pass that has the words of its block.
pub fn install<U: Owner, B: Block>(words: &Words<U, B>, pass: &mut Pass<U>, p: u32, f: u32)
    requires pass { MayStep words.now.table.shared.table_id pass.old }
    requires page { p < words.now.table.shared.key.pages }
    requires frame { f < words.now.table.shared.key.frames }
    requires legal { MayPutInto (view pass.old) p f }
    ensures goes { GoesOn words.now B.tells pass.old pass.new }
    ensures told { InstallTold p f (view pass.old) (view pass.new) }
{
    let at = translation_place(words, p);
    let new = TransWord::of(f, false);
    store::<U, B, (u32, u32), Brand>(words, pass, at, new, (p, f));
}

/// Takes a clean page, which the pass has locked exclusively, out of its frame. The frame comes to the pass.
pub fn clear<U: Owner, B: Block>(words: &Words<U, B>, pass: &mut Pass<U>, p: u32)
    requires pass { MayStep words.now.table.shared.table_id pass.old }
    requires page { p < words.now.table.shared.key.pages }
    requires legal { (f : ℕ) × StandsClean (view pass.old) p f }
    ensures goes { GoesOn words.now B.tells pass.old pass.new }
    ensures told { (f : ℕ) → StandsClean (view pass.old) p f → ClearTold p f (view pass.old) (view pass.new) }
{
    let at = translation_place(words, p);
    store::<U, B, u32, Brand>(words, pass, at, TransWord::EMPTY, p);
}

/// Makes a page dirty that the pass has locked exclusively and that stands in this frame.
pub fn set_dirty<U: Owner, B: Block>(words: &Words<U, B>, pass: &mut Pass<U>, p: u32, f: u32)
    requires pass { MayStep words.now.table.shared.table_id pass.old }
    requires page { p < words.now.table.shared.key.pages }
    requires frame { f < words.now.table.shared.key.frames }
    requires legal { StandsIn (view pass.old) p f }
    ensures goes { GoesOn words.now B.tells pass.old pass.new }
    ensures told { DirtyTold p f (view pass.old) (view pass.new) }
{
    let at = translation_place(words, p);
    let dirty = TransWord::of(f, true);
    store::<U, B, (u32, u32), Brand>(words, pass, at, dirty, (p, f));
}

/// Makes a page clean that the pass has under write-back, that stands in this frame and whose block has its words.
pub fn set_clean<U: Owner, B: Block>(words: &Words<U, B>, pass: &mut Pass<U>, p: u32, f: u32)
    requires pass { MayStep words.now.table.shared.table_id pass.old }
    requires page { p < words.now.table.shared.key.pages }
    requires frame { f < words.now.table.shared.key.frames }
    requires legal { IsWritten (view pass.old) p f }
    ensures goes { GoesOn words.now B.tells pass.old pass.new }
    ensures told { CleanTold p f (view pass.old) (view pass.new) }
{
    let at = translation_place(words, p);
    let clean = TransWord::of(f, false);
    store::<U, B, (u32, u32), Brand>(words, pass, at, clean, (p, f));
}

/// A page that is put into a frame of the pass: its translation word says that it stands there clean, and nothing is seen.
pub fn install_is_its_event<U: Owner, B: Block>()
    ensures { InstallIsItsEvent B.stored U.keeps U.tied B.tells }
{}

/// A clean page that is taken out of its frame: its translation word says that it is not resident, and nothing is seen.
pub fn clear_is_its_event<U: Owner, B: Block>()
    ensures { ClearIsItsEvent B.stored U.keeps U.tied B.tells }
{}

/// A page that is made dirty: its translation word says so of its frame, and nothing is seen.
pub fn set_dirty_is_its_event<U: Owner, B: Block>()
    ensures { SetDirtyIsItsEvent B.stored U.keeps U.tied B.tells }
{}

/// A page that is made clean: the same.
pub fn set_clean_is_its_event<U: Owner, B: Block>()
    ensures { SetCleanIsItsEvent B.stored U.keeps U.tied B.tells }
{}
