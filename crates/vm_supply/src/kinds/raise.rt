// A page's fault word is raised to the count of its block.
ghost use Rattle.std.specs.Prelude.{◌<◌};
ghost use Rattle.vm_step.specs.from_vm_rule.Prelude.{RaiseTold};
ghost use Rattle.vm_step.specs.Prelude.{GoesOn, MayRaise, MayStep, view};
ghost use Rattle.vm_step.specs.steps.Raise.{RaiseIsItsEvent};

use std::marker::Brand;
use vm_block::Block;
use vm_owner::Owner;
use vm_step::making::{fault_place, store};
use vm_step::rule::{Pass, Words};

/// Raises the page's fault word to the count of its block, for a pass that has the page locked exclusively or for write-back.
pub fn raise<U: Owner, B: Block>(words: &Words<U, B>, pass: &mut Pass<U>, p: u32, count: u64)
    requires pass { MayStep words.now.table.shared.table_id pass.old }
    requires page { p < words.now.table.shared.key.pages }
    requires legal { MayRaise (view pass.old) p count }
    ensures goes { GoesOn words.now B.tells pass.old pass.new }
    ensures told { RaiseTold p count (view pass.old) (view pass.new) }
{
    let at = fault_place(words, p);
    store::<U, B, u32, Brand>(words, pass, at, count, p);
}

/// A raise of a fault word sees nothing: the fault word is the count of the page's block.
pub fn raise_is_its_event<U: Owner, B: Block>()
    ensures { RaiseIsItsEvent B.stored U.keeps U.tied B.tells }
{}
