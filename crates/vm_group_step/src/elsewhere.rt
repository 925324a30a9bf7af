// Steps on other words than state words, on a table with groups.
ghost use Rattle.std.specs.Prelude.{Option};
ghost use Rattle.vm_rule.specs.{declared.view.Origin.Origin, declared.view.View.View, Prelude.Table};
ghost use Rattle.vm_group_step.specs.Elsewhere.{IsEventElsewhere, IsReadAsWritten};

use vm_block::Block;
use vm_owner::Owner;

/// A step on another word than a state word is the same event of the machine with groups. The table that the pages read
/// changes as by that step.
pub fn a_step_elsewhere_is_its_event<U: Owner, B: Block>()
    ensures event { (start : Origin) (before later : Table (Option B) (View U.Said)) → IsEventElsewhere B.stored start before later }
    ensures read { (start : Origin) (s : Table (Option B) (View U.Said)) → IsReadAsWritten start s }
{}
