// All candidates of an eviction: a phase goes over the whole list before the next one begins.
ghost use Rattle.std.specs.Prelude.{◌<◌, ◌≡◌, ◌≤◌, length, ℕ};
ghost use Rattle.vm_page.specs.Sizes.{IsSize};
ghost use Rattle.vm_supply.specs.from_vm_step.Prelude.{AreCandidates, GoesOn, IsReadyOn, view};
ghost use Rattle.vm_evict.specs.declared.candidate.Stage.TheVariants as stages;
ghost use Rattle.vm_evict.specs.Evictions.{Counts, frame_at, gathered, stage_at};
ghost use Rattle.vm_evict.specs.Stages.{IsOver, IsPhaseMade, IsUnderWay, MayBeginPhase, MayEnd};

use crate::candidate::{Phase, Stage, advance};
use crate::report::Evicted;
use vm_block::PageBlock;
use vm_event::FRAMES;
use vm_owner::Ungrouped;
use vm_rule::words::{Pass, Words};
use vm_supply::step::Looks;

/// How far the eviction is with each candidate, by its place in the list.
pub(crate) type Stages = [Stage; FRAMES];

/// All candidates wait.
pub(crate) fn waiting() -> Stages
    ensures waits { (n : ℕ) → stage_at result n ≡ stages.Waiting }
{
    [Stage::Waiting; FRAMES]
}

/// One phase, over the whole list.
pub(crate) fn pass_over<U: Ungrouped, B: PageBlock<N>, const N: usize>(
    words: &Words<U, B>,
    pass: &mut Pass<U>,
    phase: Phase,
    list: &[(u32, u64)],
    stages: &mut Stages,
)
    requires ready { IsReadyOn words.now B.tells pass.old }
    requires sized { IsSize N }
    requires size { N ≡ words.now.table.shared.key.size }
    requires list { AreCandidates words.now.table.shared.key.pages list.now }
    requires few { length list.now ≤ FRAMES }
    requires way { (v : _) × (done : _) × IsUnderWay list.now stages.old done v (view pass.old) }
    requires begins { (n : ℕ) → n < length list.now → MayBeginPhase phase (stage_at stages.old n) }
    ensures goes { GoesOn words.now B.tells pass.old pass.new }
    ensures passed { (v : _) (done : _) → IsUnderWay list.now stages.old done v (view pass.old) → IsPhaseMade phase list.now stages.new done v (view pass.new) }
    ensures way { (v : _) × (done : _) × IsUnderWay list.now stages.new done v (view pass.new) }
    ensures ends { (n : ℕ) → n < length list.now → MayEnd phase (stage_at stages.new n) }
{
    for i in 0..list.len() {
        stages[i] = advance::<U, B, N>(words, pass, phase, list[i], stages[i]);
    }
}

/// The frames of the pages evicted, in the list's order, and the report.
pub(crate) fn report_of(list: &[(u32, u64)], stages: &Stages, looks: Looks) -> Evicted
    requires few { length list.now ≤ FRAMES }
    requires over { (n : ℕ) → n < length list.now → IsOver (stage_at stages.now n) }
    ensures counts { Counts (length list.now) list.now looks stages.now result.report }
    ensures frames { result.frames ≡ gathered frame_at (length list.now) list.now stages.now }
{
    let mut evicted = Evicted::none(looks);
    for i in 0..list.len() {
        let (p, _) = list[i];
        evicted.add(p, stages[i]);
    }
    evicted
}
