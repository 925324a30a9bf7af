// One candidate for eviction: what each phase does with it.
ghost use Rattle.std.specs.Prelude.{◌<◌, ◌≡◌, false, None};
ghost use Rattle.vm_page.specs.Sizes.{IsSize};
ghost use Rattle.vm_supply.specs.from_vm_step.Prelude.{GoesOn, IsCandidate, IsReadyOn, view};
ghost use Rattle.vm_evict.specs.declared.candidate.Phase.TheVariants as phases;
ghost use Rattle.vm_evict.specs.declared.candidate.Stage.TheVariants as stages;
ghost use Rattle.vm_evict.specs.Evictions.{IsToShare};
ghost use Rattle.vm_evict.specs.Stages.{Advances, Carries, IsAt, MayBeginPhase};

use crate::write::{dirty_frame, write_where_dirty};
use vm_block::{Block, PageBlock};
use vm_event::{StateWord, TransWord};
use vm_owner::Ungrouped;
use vm_rule::words::{Pass, Words};
use vm_supply::step::{
    Took, clear, disown, lock_exclusive, lock_write_back, look_silently, release_evicted, tload,
    unlock_shared, upgrade,
};

/// The phases of an eviction, in their order.
#[derive(Clone, Copy)]
pub enum Phase {
    /// Dirty candidates are shared, and written.
    Save,
    /// Clean candidates are locked exclusively.
    Lock,
    /// The locks of those that were shared become exclusive.
    Raise,
    /// All that are held are taken out of their frames.
    Empty,
    /// All that are held are released as evicted.
    Leave,
}

/// How far an eviction is with a candidate.
#[derive(Clone, Copy)]
pub enum Stage {
    /// Nothing was done yet.
    Waiting,
    /// It was seen clean, with the candidate's word.
    Clean,
    /// It is clean, under a share of the pass; whether it was written.
    Shared { written: bool },
    /// It is clean, and held exclusively; whether it was written.
    Owned { written: bool },
    /// It is held exclusively, and was taken out of this frame; whether it was written.
    Emptied { frame: u32, written: bool },
    /// It was evicted from this frame; whether it was written.
    Freed { frame: u32, written: bool },
    /// Its write failed; the fault has this count.
    Failed { count: u64 },
    /// It changed before it could be locked exclusively; whether it was written.
    Lost { written: bool },
}

/// Shares a page from its mark that was not seen clean with it, and writes it where it is dirty. Where the write fails, gives the share up.
fn save_marked<U: Ungrouped, B: PageBlock<N>, const N: usize>(
    words: &Words<U, B>,
    pass: &mut Pass<U>,
    p: u32,
    word: u64,
) -> Stage
    requires ready { IsReadyOn words.now B.tells pass.old }
    requires sized { IsSize N }
    requires size { N ≡ words.now.table.shared.key.size }
    requires candidate { IsCandidate words.now.table.shared.key.pages (p, word) }
    requires home { (view pass.old).out ≡ None }
    requires at { (v : _) × (done : _) × IsAt (p, word) stages.Waiting done v (view pass.old) × IsToShare p word done }
    ensures goes { GoesOn words.now B.tells pass.old pass.new }
    ensures moved { (v : _) (done : _) → IsAt (p, word) stages.Waiting done v (view pass.old) → IsToShare p word done
        → Advances phases.Save (p, word) stages.Waiting result done v (view pass.old) (view pass.new) }
{
    if let Took::Lost(_) = lock_write_back(words, pass, p, word) {
        return Stage::Lost { written: false };
    }
    match write_where_dirty::<U, B, N>(words, pass, p) {
        Ok(written) => Stage::Shared { written },
        Err(count) => {
            unlock_shared(words, pass, p);
            Stage::Failed { count }
        }
    }
}

/// Looks at a candidate: where it is as it was marked, and clean, it is left to be locked; else it is shared and written.
fn save_page<U: Ungrouped, B: PageBlock<N>, const N: usize>(
    words: &Words<U, B>,
    pass: &mut Pass<U>,
    p: u32,
    word: u64,
) -> Stage
    requires ready { IsReadyOn words.now B.tells pass.old }
    requires sized { IsSize N }
    requires size { N ≡ words.now.table.shared.key.size }
    requires candidate { IsCandidate words.now.table.shared.key.pages (p, word) }
    requires home { (view pass.old).out ≡ None }
    requires at { (v : _) × (done : _) × IsAt (p, word) stages.Waiting done v (view pass.old) }
    ensures goes { GoesOn words.now B.tells pass.old pass.new }
    ensures moved { Carries phases.Save (p, word) stages.Waiting result (view pass.old) (view pass.new) }
{
    let seen = look_silently(words, pass, p);
    let dirty = dirty_frame(tload(words, pass, p));
    if seen == word && dirty.is_none() {
        Stage::Clean
    } else {
        save_marked::<U, B, N>(words, pass, p, word)
    }
}

/// Locks a page exclusively that was seen clean, from its mark.
fn lock_clean<U: Ungrouped, B: Block>(
    words: &Words<U, B>,
    pass: &mut Pass<U>,
    p: u32,
    word: u64,
) -> Stage
    requires ready { IsReadyOn words.now B.tells pass.old }
    requires candidate { IsCandidate words.now.table.shared.key.pages (p, word) }
    requires at { (v : _) × (done : _) × IsAt (p, word) stages.Clean done v (view pass.old) }
    ensures goes { GoesOn words.now B.tells pass.old pass.new }
    ensures moved { Carries phases.Lock (p, word) stages.Clean result (view pass.old) (view pass.new) }
{
    match lock_exclusive(words, pass, p, word) {
        Took::Lost(_) => Stage::Lost { written: false },
        Took::Taken => Stage::Owned { written: false },
    }
}

/// Makes the lock of a clean page under write-back exclusive, from the pass's share alone; or gives the share up.
fn raise_shared<U: Ungrouped, B: Block>(
    words: &Words<U, B>,
    pass: &mut Pass<U>,
    p: u32,
    word: u64,
    written: bool,
) -> Stage
    requires ready { IsReadyOn words.now B.tells pass.old }
    requires candidate { IsCandidate words.now.table.shared.key.pages (p, word) }
    requires home { (view pass.old).out ≡ None }
    requires at { (v : _) × (done : _) × IsAt (p, word) (stages.Shared written) done v (view pass.old) }
    ensures goes { GoesOn words.now B.tells pass.old pass.new }
    ensures moved { Carries phases.Raise (p, word) (stages.Shared written) result (view pass.old) (view pass.new) }
{
    let shared = StateWord::of(1, StateWord::version(word));
    match upgrade(words, pass, p, shared) {
        Took::Taken => Stage::Owned { written },
        Took::Lost(_) => {
            unlock_shared(words, pass, p);
            Stage::Lost { written }
        }
    }
}

/// Takes a clean page, which is held exclusively, out of its frame, whose owner word names it no more. The frame comes to the pass.
fn empty_page<U: Ungrouped, B: Block>(
    words: &Words<U, B>,
    pass: &mut Pass<U>,
    p: u32,
    word: u64,
    written: bool,
) -> Stage
    requires ready { IsReadyOn words.now B.tells pass.old }
    requires candidate { IsCandidate words.now.table.shared.key.pages (p, word) }
    requires at { (v : _) × (done : _) × IsAt (p, word) (stages.Owned written) done v (view pass.old) }
    ensures goes { GoesOn words.now B.tells pass.old pass.new }
    ensures moved { Carries phases.Empty (p, word) (stages.Owned written) result (view pass.old) (view pass.new) }
{
    let translation = tload(words, pass, p);
    let Some(frame) = TransWord::frame(translation) else {
        unreachable!()
    };
    disown(words, pass, p, frame);
    clear(words, pass, p);
    Stage::Emptied { frame, written }
}

/// Releases a page that was taken out of its frame, as evicted.
fn leave_page<U: Ungrouped, B: Block>(
    words: &Words<U, B>,
    pass: &mut Pass<U>,
    p: u32,
    word: u64,
    frame: u32,
    written: bool,
) -> Stage
    requires ready { IsReadyOn words.now B.tells pass.old }
    requires candidate { IsCandidate words.now.table.shared.key.pages (p, word) }
    requires home { (view pass.old).out ≡ None }
    requires at { (v : _) × (done : _) × IsAt (p, word) (stages.Emptied frame written) done v (view pass.old) }
    ensures goes { GoesOn words.now B.tells pass.old pass.new }
    ensures moved { Carries phases.Leave (p, word) (stages.Emptied frame written) result (view pass.old) (view pass.new) }
{
    release_evicted(words, pass, p, StateWord::version(word));
    Stage::Freed { frame, written }
}

/// What the phase does with a candidate at this stage. It answers the next one.
pub(crate) fn advance<U: Ungrouped, B: PageBlock<N>, const N: usize>(
    words: &Words<U, B>,
    pass: &mut Pass<U>,
    phase: Phase,
    c: (u32, u64),
    stage: Stage,
) -> Stage
    requires ready { IsReadyOn words.now B.tells pass.old }
    requires sized { IsSize N }
    requires size { N ≡ words.now.table.shared.key.size }
    requires candidate { IsCandidate words.now.table.shared.key.pages c }
    requires home { (view pass.old).out ≡ None }
    requires begins { MayBeginPhase phase stage }
    requires at { (v : _) × (done : _) × IsAt c stage done v (view pass.old) }
    ensures goes { GoesOn words.now B.tells pass.old pass.new }
    ensures moved { Carries phase c stage result (view pass.old) (view pass.new) }
{
    let (p, word) = c;
    match phase {
        Phase::Save => save_page::<U, B, N>(words, pass, p, word),
        Phase::Lock => match stage {
            Stage::Clean => lock_clean(words, pass, p, word),
            other => other,
        },
        Phase::Raise => match stage {
            Stage::Shared { written } => raise_shared(words, pass, p, word, written),
            other => other,
        },
        Phase::Empty => match stage {
            Stage::Owned { written } => empty_page(words, pass, p, word, written),
            other => other,
        },
        Phase::Leave => match stage {
            Stage::Emptied { frame, written } => {
                leave_page(words, pass, p, word, frame, written)
            }
            other => other,
        },
    }
}
