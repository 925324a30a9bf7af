//! A run of the core keeps its invariant, and each validated read saw one version: the laws of the events, put together over lists of
//! events, and the replay that names them.
#![tactic(auto)]

ghost use Rattle.std.specs.Prelude.{◌≡◌, Err, IfErr, IfOk, List, Ok, true};
ghost use Rattle.vm_event.specs.Prelude.{AllLegal, begin, CoreStart, Inv, IsStart, RunsTo, start, State, Told, World, world_run};
ghost use Rattle.vm_core.specs.Prelude.{core_of, Replayed};
ghost use Rattle.vm_rule.specs.Prelude.{Event};
ghost use Rattle.vm_rule.specs.Kept.{IsRunKept, KeptFault, KeptFrom};

pub mod began;
pub mod block;
mod opening;
pub mod owner;
mod started;
pub mod view;
pub mod words;

use std::alloc::Global;
use vm_core::{Core, ReplayFault, replay};
use vm_event::{Event, Seen};

/// Every start meets the invariant, whatever the number of frames in its last bundle.
#[tactic(auto, using(crate::proofs::Starts::start_law))]
pub fn start_keeps()
    ensures { (s : CoreStart) → IsStart s → Inv (begin s) }
{}

/// The invariant tells where each frame stands, what the device holds and what the fault words say.
pub fn invariant_tells()
    ensures { (w : World) → Inv w → Told w }
{}

/// Every list of legal events from a start keeps the invariant, whether or not the blocks tell their words.
pub fn runs_keep()
    ensures { (s : CoreStart) (events : List Event) → IsStart s → AllLegal (start s) events → Inv (world_run (begin s) events) }
{}

/// Where the blocks tell their words, all that the invariant tells holds too, and each validated read saw one version.
pub fn runs_tell()
    ensures { (s : CoreStart) (events : List Event) (new : State) → IsStart s → s.tells ≡ true → RunsTo (start s) events new → KeptFrom s events new }
{}

/// Does the events in order, up to the first illegal one, and answers what each saw.
///
/// The clauses `ok` and `err` are those of `replay`: on `Illegal` the events before it are done, on `Memory` none is. The other two speak
/// of the whole run that the core has had: whatever legal events led from the start of a core to this one, they and the ones done here
/// meet the invariant, and each read that one of them validated saw one version.
pub fn replay_kept(
    alloc: Global,
    core: &mut Core,
    events: &[Event],
) -> Result<Vec<Seen>, ReplayFault>
    ensures ok { IfOk result (λ seen. Replayed (core_of core.old) events.now (Ok seen.items) (core_of core.new)) }
    ensures err { IfErr result (λ fault. Replayed (core_of core.old) events.now (Err fault) (core_of core.new)) }
    ensures kept { IfOk result (λ _. IsRunKept (core_of core.old) events.now (core_of core.new)) }
    ensures kept_before { IfErr result (λ fault. KeptFault (core_of core.old) events.now fault (core_of core.new)) }
{
    replay(alloc, core, events)
}
