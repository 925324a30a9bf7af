// A look at a page's state word: it opens a read of the page, validates the one that is open, or closes it.
ghost use Rattle.std.specs.Prelude.{◌<◌, ◌≡◌, None, option_map, true};
ghost use Rattle.vm_event.specs.declared.event.ReadIs.TheVariants.{Same};
ghost use Rattle.vm_rule.specs.Prelude.{left_at, LookTold, seat_of};
ghost use Rattle.vm_step.specs.Prelude.{GoesOn, IsKeptNow, KnowsUnheld, MayStep, MayTell, view};
ghost use Rattle.vm_step.specs.steps.Look.{LookIsItsEvent};

use crate::layout::state_place;
use crate::operation::load;
use std::marker::Brand;
use vm_block::Block;
use vm_owner::{Owner, Ungrouped};
use vm_rule::words::{Pass, Words};

/// The page's state word. A look that leaves the pass's open read of the page in place validates that read; what is said becomes an
/// entry of the history there, and nowhere else.
pub fn look<U: Ungrouped, B: Block>(
    words: &Words<U, B>,
    pass: &mut Pass<U>,
    p: u32,
    said: Option<&U::Said>,
) -> u64
    requires pass { MayStep words.now.table.shared.table_id pass.old }
    requires page { p < words.now.table.shared.key.pages }
    requires owner { MayTell U.tied U.may_read p (option_map (λ b. b.now) said) (view pass.old) }
    ensures goes { GoesOn words.now B.tells pass.old pass.new }
    ensures told { LookTold U.tied p (option_map (λ b. b.now) said.entry) result (view pass.old) (view pass.new) }
    ensures kept { B.tells ≡ true → IsKeptNow U.keeps p (left_at result (seat_of (view pass.old) p).reading ≡ Same) (view pass.new) }
    ensures unheld { KnowsUnheld (view pass.new) }
{
    let at = state_place(words, p);
    load::<U, B, (u32, Option<&U::Said>), Brand>(words, pass, at, (p, said))
}

/// The page's state word, by a look that says nothing.
pub fn look_silently<U: Ungrouped, B: Block>(words: &Words<U, B>, pass: &mut Pass<U>, p: u32) -> u64
    requires pass { MayStep words.now.table.shared.table_id pass.old }
    requires page { p < words.now.table.shared.key.pages }
    ensures goes { GoesOn words.now B.tells pass.old pass.new }
    ensures told { LookTold U.tied p None result (view pass.old) (view pass.new) }
    ensures kept { B.tells ≡ true → IsKeptNow U.keeps p (left_at result (seat_of (view pass.old) p).reading ≡ Same) (view pass.new) }
    ensures unheld { KnowsUnheld (view pass.new) }
{
    let at = state_place(words, p);
    load::<U, B, u32, Brand>(words, pass, at, p)
}

/// A look sees the word, and what it leaves of the pass's open read.
pub fn look_is_its_event<U: Owner, B: Block>()
    ensures { LookIsItsEvent B.stored U.keeps U.tied B.tells }
{}
