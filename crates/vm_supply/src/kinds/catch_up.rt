// A pass is brought up to date.
ghost use Rattle.vm_step.specs.from_vm_rule.Prelude.{CaughtUp};
ghost use Rattle.vm_step.specs.Prelude.{GoesOn, KnowsAll, MayStep, view};
ghost use Rattle.vm_step.specs.steps.CatchUp.{CatchUpIsItsEvent};

use std::marker::Brand;
use vm_block::Block;
use vm_owner::Owner;
use vm_step::making::{load, next_place};
use vm_step::rule::{Pass, Words};

/// Brings the pass's history and releases up to date, by a load of the next word, of which it tells nothing.
pub fn catch_up<U: Owner, B: Block>(words: &Words<U, B>, pass: &mut Pass<U>)
    requires pass { MayStep words.now.table.shared.table_id pass.old }
    ensures goes { GoesOn words.now B.tells pass.old pass.new }
    ensures told { CaughtUp (view pass.old) (view pass.new) }
    ensures knows { KnowsAll B.tells U.keeps (view pass.new) }
{
    let at = next_place(words);
    load::<U, B, (), Brand>(words, pass, at, ());
}

/// The load by which a pass is brought up to date sees the next word.
pub fn catch_up_is_its_event<U: Owner, B: Block>()
    ensures { CatchUpIsItsEvent B.stored U.keeps U.tied B.tells }
{}
