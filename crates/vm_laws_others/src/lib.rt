//! What an event of one actor leaves of all that the others know: the pages that they have locked stay as they know them, their frames
//! keep their words, no version falls. The laws let a running pass keep what it knows while the other passes step.
#![tactic(auto)]

ghost use Rattle.vm_event.specs.Prelude.{World};
ghost use Rattle.vm_event.specs.declared.event.Event.{Event};
ghost use Rattle.vm_laws_others.specs.Leaves.{LeavesOthers};

/// Every legal event leaves what the other actors know and hold.
pub fn events_leave_others()
    ensures { (w : World) (e : Event) → LeavesOthers w e }
{}
