// A group is looked at.
ghost use Rattle.std.specs.Prelude.{None, Option, option_map, ℕ};
ghost use Rattle.vm_step.specs.Prelude.{GoesOn, MayStep, view};
ghost use Rattle.vm_step.specs.{Over.InTurn, steps.Look.LookTells, steps.Look.MayTellTogether, steps.Look.said_at};
ghost use Rattle.vm_group_step.specs.EventKinds.{LookGroupIsItsEvent};
ghost use Rattle.vm_group_step.specs.Heads.{IsHead, pages_under};

use std::marker::Brand;
use vm_block::Block;
use vm_owner::Owner;
use vm_rule::words::{Pass, Words};
use vm_step::making::{load, state_place};

/// The group's state word, by a look at each of its pages that says nothing.
pub fn look_group<U: Owner, B: Block>(words: &Words<U, B>, pass: &mut Pass<U>, h: u32) -> u64
    requires pass { MayStep words.now.table.shared.table_id pass.old }
    requires head { IsHead words.now.table.shared.key h }
    ensures goes { GoesOn words.now B.tells pass.old pass.new }
    ensures told { InTurn (λ q. LookTells U.keeps U.tied B.tells q None) (pages_under words.now.table.shared.key h) result (view pass.old) (view pass.new) }
{
    let at = state_place(words, h);
    load::<U, B, u32, Brand>(words, pass, at, h)
}

/// The group's state word, by a look at each of its pages, the first of which says what the words of all of them prove
/// together. Where the look leaves the pass's open read of that page in place, what is said becomes an entry of the history,
/// and nowhere else.
pub fn look_group_saying<U: Owner, B: Block>(
    words: &Words<U, B>,
    pass: &mut Pass<U>,
    h: u32,
    said: Option<&U::Said>,
) -> u64
    requires pass { MayStep words.now.table.shared.table_id pass.old }
    requires head { IsHead words.now.table.shared.key h }
    requires owner { MayTellTogether U.tied U.may_hold (pages_under words.now.table.shared.key h) h
        (option_map (λ b. b.now) said) (view pass.old) }
    ensures goes { GoesOn words.now B.tells pass.old pass.new }
    ensures told { InTurn (λ q. LookTells U.keeps U.tied B.tells q (said_at h (option_map (λ b. b.now) said.entry) q))
        (pages_under words.now.table.shared.key h) result (view pass.old) (view pass.new) }
{
    let at = state_place(words, h);
    load::<U, B, (u32, Option<&U::Said>), Brand>(words, pass, at, (h, said))
}

/// A look at a group is one event of the machine with groups, whatever each page says.
pub fn look_group_is_its_event<U: Owner, B: Block>()
    ensures { (said : ℕ → Option U.Said) → LookGroupIsItsEvent B.stored U.keeps U.tied B.tells said }
{}
