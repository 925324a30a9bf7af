// The clock's hand is moved on.
ghost use Rattle.vm_step.specs.from_vm_rule.Prelude.{HandTold};
ghost use Rattle.vm_step.specs.Prelude.{GoesOn, MayStep, view};
ghost use Rattle.vm_step.specs.steps.Hand.{HandIsItsEvent};

use crate::operation::fetch_add;
use std::marker::Brand;
use vm_block::Block;
use vm_event::STRIDE;
use vm_owner::Owner;
use vm_step::making::hand_place;
use vm_step::rule::{Pass, Words};

/// Moves the clock's hand 64 places on, wrapping, and answers where it was.
pub fn hand<U: Owner, B: Block>(words: &Words<U, B>, pass: &mut Pass<U>) -> u64
    requires pass { MayStep words.now.table.shared.table_id pass.old }
    ensures goes { GoesOn words.now B.tells pass.old pass.new }
    ensures told { HandTold result (view pass.old) (view pass.new) }
{
    let at = hand_place(words);
    fetch_add::<U, B, (), Brand>(words, pass, at, STRIDE, ())
}

/// A move of the hand sees where it was.
pub fn hand_is_its_event<U: Owner, B: Block>()
    ensures { HandIsItsEvent B.stored U.keeps U.tied B.tells }
{}
