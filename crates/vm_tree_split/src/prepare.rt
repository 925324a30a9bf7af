// What a split takes before it writes: frames, the locks of two pages at the versions read, and fresh pages. Where one of them is refused the
// others are given back. A file that has no room for the fresh pages is found so before anything is taken, so that such a split leaves no trace.
ghost use Rattle.std.specs.Prelude.{[], ◌++◌, ◌∷◌, ◌≡◌, ◌≢◌, ◌⊎◌, false, IfErr, IfOk, length, None};
ghost use Rattle.vm_rule.specs.Prelude.{draft_of, has, last_of};
ghost use Rattle.vm_step.specs.Prelude.{AreHeld, GoesOn, IsAlone, IsReadyOn, view};
ghost use Rattle.vm_tree_read.specs.from_vm_exmap.Frames.{MovesFrames};
ghost use Rattle.vm_tree_read.specs.from_vm_guard.{Denied.AgainOrWorn, Groups.guards_of, Guards.IsHolding, Guards.IsReading};
ghost use Rattle.vm_tree_read.specs.Waiting.{LosesNone};
ghost use Rattle.vm_tree_draft.specs.Splits.{KeepsLocksOnly};
ghost use Rattle.vm_tree_split.specs.Tries.{IsFinalSplit, IsUnsplit};
ghost use Rattle.vm_tree_split.specs.Prepares.{AreLocked, AreTaken, GivesUpBoth, IsPrepared, IsUntaken, KnowsBoth, KnowsToSplit, LacksFrames};
ghost use Rattle.vm_tree_split.specs.Prepares.{IsLockDenied, LacksSecond, SaysWorn};

use crate::tries::TrySplit;
use vm_block::Block;
use vm_rule::words::{Pass, Words};
use vm_step::Batch;
use vm_tree_read::exmap::{Alloc, Interface};
use vm_tree_read::guard::{Deny, ExclusiveGuard, Fresh, Group, NoRoom, OptGuard, fresh, room_for};
use vm_tree_read::kind::{Kind, TreeOf};

/// Two pages that are locked.
pub struct LockedPair {
    pub up: ExclusiveGuard,
    pub low: ExclusiveGuard,
}

/// Two pages that are locked, the fresh pages beside them, and the frames that are left.
pub struct Prepared {
    pub up: ExclusiveGuard,
    pub low: ExclusiveGuard,
    pub pages: Group,
    pub frames: Batch,
}

/// Why a page was not locked.
fn denied(deny: Deny) -> TrySplit
    requires kind { AgainOrWorn deny }
    ensures again { (saw : _) → deny ≡ Deny.Again saw → result ≡ TrySplit.Again saw }
    ensures worn { (p : _) → deny ≡ Deny.Worn p → result ≡ TrySplit.Worn p }
    ensures settled { SaysWorn deny → IsFinalSplit result }
{
    match deny {
        Deny::Again(saw) => TrySplit::Again(saw),
        Deny::Worn(pid) => TrySplit::Worn(pid),
        Deny::Need(_) => unreachable!(),
        Deny::Crowded(_) => unreachable!(),
    }
}

/// One frame more than the one that there is, or why there is none: then the interface has that one too.
fn second_frame<K: Kind, B: Block>(
    words: &Words<TreeOf<K>, B>,
    pass: &mut Pass<TreeOf<K>>,
    iface: &mut Interface,
    frames: Batch,
) -> Result<Batch, TrySplit>
    requires ready { IsReadyOn words.now B.tells pass.old }
    requires frames { AreHeld (frames ++ iface.old.frames) (view pass.old) }
    requires one { length frames ≡ 1 }
    ensures goes { GoesOn words.now B.tells pass.old pass.new }
    ensures iface { (iface.new.home ≡ iface.old.home) × (iface.new.cap ≡ iface.old.cap) }
    ensures keeps { KeepsLocksOnly (view pass.old) (view pass.new) }
    ensures moves { IfOk result (λ _. (done : _) × MovesFrames done (view pass.old) (view pass.new)) }
    ensures ok { IfOk result (λ both. (length both ≡ 2) × AreHeld (both ++ iface.new.frames) (view pass.new)) }
    ensures lost { IfOk result (λ both. LosesNone (frames ++ iface.old.frames) (view pass.old) (both ++ iface.new.frames) (view pass.new)) }
    ensures lost_none { IfErr result (λ _. LosesNone (frames ++ iface.old.frames) (view pass.old) iface.new.frames (view pass.new)) }
    ensures err { IfErr result (λ answer. AreHeld iface.new.frames (view pass.new) × LacksSecond frames answer (view pass.old) (view pass.new)) }
    ensures sure { IsAlone (view pass.old) → IfErr result IsFinalSplit }
{
    match iface.alloc(words, pass, 1) {
        Alloc::Batch(more) => {
            let mut both = frames;
            both.append(more.as_slice());
            Ok(both)
        }
        Alloc::Dry => {
            iface.free(words, pass, frames);
            Err(TrySplit::Dry)
        }
        Alloc::Again(saw) => {
            iface.free(words, pass, frames);
            Err(TrySplit::Again(saw))
        }
    }
}

/// `n` frames (1 or 2) for fresh pages, or why there are not so many: then the interface has what it had, or more.
fn frames_for<K: Kind, B: Block>(
    words: &Words<TreeOf<K>, B>,
    pass: &mut Pass<TreeOf<K>>,
    iface: &mut Interface,
    n: u32,
) -> Result<Batch, TrySplit>
    requires ready { IsReadyOn words.now B.tells pass.old }
    requires frames { AreHeld iface.old.frames (view pass.old) }
    requires count { (n ≡ 1) ⊎ (n ≡ 2) }
    ensures goes { GoesOn words.now B.tells pass.old pass.new }
    ensures iface { (iface.new.home ≡ iface.old.home) × (iface.new.cap ≡ iface.old.cap) }
    ensures keeps { KeepsLocksOnly (view pass.old) (view pass.new) }
    ensures moves { IfOk result (λ _. (done : _) × MovesFrames done (view pass.old) (view pass.new)) }
    ensures ok { IfOk result (λ frames. (length frames ≡ n) × AreHeld (frames ++ iface.new.frames) (view pass.new)) }
    ensures lost { IfOk result (λ frames. LosesNone iface.old.frames (view pass.old) (frames ++ iface.new.frames) (view pass.new)) }
    ensures lost_none { IfErr result (λ _. LosesNone iface.old.frames (view pass.old) iface.new.frames (view pass.new)) }
    ensures err { IfErr result (λ answer. AreHeld iface.new.frames (view pass.new) × LacksFrames n answer (view pass.old) (view pass.new)) }
    ensures sure { IsAlone (view pass.old) → IfErr result IsFinalSplit }
{
    let frames = match iface.alloc(words, pass, n) {
        Alloc::Batch(batch) => batch,
        Alloc::Dry => return Err(TrySplit::Dry),
        Alloc::Again(saw) => return Err(TrySplit::Again(saw)),
    };
    if frames.len() as u32 == n {
        return Ok(frames);
    }
    second_frame(words, pass, iface, frames)
}

/// Locks two pages at the versions read, or none of them.
pub fn lock_two<K: Kind, B: Block>(
    words: &Words<TreeOf<K>, B>,
    pass: &mut Pass<TreeOf<K>>,
    first: OptGuard,
    second: OptGuard,
) -> Result<LockedPair, Deny>
    requires ready { IsReadyOn words.now B.tells pass.old }
    requires home { (view pass.old).out ≡ None }
    requires apart { second.pid ≢ first.pid }
    requires first { IsReading first.pid first.word first.frame (view pass.old) }
    requires second { IsReading second.pid second.word second.frame (view pass.old) }
    ensures goes { GoesOn words.now B.tells pass.old pass.new }
    ensures ok { IfOk result (λ locks. AreLocked K.layout first second locks.up locks.low (view pass.old) (view pass.new)) }
    ensures err { IfErr result (λ deny. AgainOrWorn deny × IsLockDenied K.layout (first ∷ second ∷ []) deny (view pass.old) (view pass.new)) }
    ensures sure { KnowsBoth first second (view pass.old) → IfErr result SaysWorn }
{
    let up = match first.upgrade(words, pass) {
        Ok(up) => up,
        Err(deny) => return Err(deny),
    };
    match second.upgrade(words, pass) {
        Ok(low) => Ok(LockedPair { up, low }),
        Err(deny) => {
            up.release(words, pass, None::<K::Said>.as_ref());
            Err(deny)
        }
    }
}

/// Gives up two pages that were locked, with the words that they had, and the frames.
fn give_up<K: Kind, B: Block>(
    words: &Words<TreeOf<K>, B>,
    pass: &mut Pass<TreeOf<K>>,
    iface: &mut Interface,
    up: ExclusiveGuard,
    low: ExclusiveGuard,
    frames: Batch,
)
    requires ready { IsReadyOn words.now B.tells pass.old }
    requires home { (view pass.old).out ≡ None }
    requires held { IsHolding up.pid up.frame up.version up.dirty (view pass.old) × IsHolding low.pid low.frame low.version low.dirty (view pass.old) }
    requires apart { low.pid ≢ up.pid }
    requires same { (draft_of (view pass.old) up.pid ≡ (last_of (view pass.old) up.pid).words) × (draft_of (view pass.old) low.pid ≡ (last_of (view pass.old) low.pid).words) }
    requires unpaid { (has up.pid (view pass.old).owed ≡ false) × (has low.pid (view pass.old).owed ≡ false) }
    requires frames { AreHeld (iface.old.frames ++ frames) (view pass.old) }
    ensures goes { GoesOn words.now B.tells pass.old pass.new }
    ensures iface { (iface.new.home ≡ iface.old.home) × (iface.new.cap ≡ iface.old.cap) }
    ensures held { AreHeld iface.new.frames (view pass.new) }
    ensures lost { LosesNone (iface.old.frames ++ frames) (view pass.old) iface.new.frames (view pass.new) }
    ensures done { GivesUpBoth up low (view pass.old) (view pass.new) }
{
    low.release(words, pass, None::<K::Said>.as_ref());
    up.release(words, pass, None::<K::Said>.as_ref());
    iface.free(words, pass, frames);
}

/// Takes `n` frames (1 or 2), locks two pages at the versions read, and gets `n` fresh pages; or gives back what it took.
fn take_all<K: Kind, B: Block>(
    words: &Words<TreeOf<K>, B>,
    pass: &mut Pass<TreeOf<K>>,
    iface: &mut Interface,
    first: OptGuard,
    second: OptGuard,
    n: u32,
) -> Result<Prepared, TrySplit>
    requires ready { IsReadyOn words.now B.tells pass.old }
    requires home { (view pass.old).out ≡ None }
    requires frames { AreHeld iface.old.frames (view pass.old) }
    requires count { (n ≡ 1) ⊎ (n ≡ 2) }
    requires apart { second.pid ≢ first.pid }
    requires first { IsReading first.pid first.word first.frame (view pass.old) }
    requires second { IsReading second.pid second.word second.frame (view pass.old) }
    ensures goes { GoesOn words.now B.tells pass.old pass.new }
    ensures iface { (iface.new.home ≡ iface.old.home) × (iface.new.cap ≡ iface.old.cap) }
    ensures held { IfOk result (λ all. AreHeld (iface.new.frames ++ all.frames) (view pass.new)) }
    ensures ok { IfOk result (λ all. AreTaken K.layout n first second all.up all.low (guards_of all.pages) (view pass.old) (view pass.new)) }
    ensures lost { IfOk result (λ all. LosesNone iface.old.frames (view pass.old) (iface.new.frames ++ all.frames) (view pass.new)) }
    ensures lost_none { IfErr result (λ _. LosesNone iface.old.frames (view pass.old) iface.new.frames (view pass.new)) }
    ensures err { IfErr result (λ answer. AreHeld iface.new.frames (view pass.new) × KeepsLocksOnly (view pass.old) (view pass.new)
        × IsUntaken K.layout n first second (view pass.old) (view pass.new) answer) }
    ensures sure { KnowsToSplit K.layout first second (view pass.old) → IfErr result IsFinalSplit }
{
    let mut frames = match frames_for(words, pass, iface, n) {
        Ok(frames) => frames,
        Err(answer) => return Err(answer),
    };
    let locks = match lock_two(words, pass, first, second) {
        Ok(locks) => locks,
        Err(deny) => {
            iface.free(words, pass, frames);
            return Err(denied(deny));
        }
    };
    let LockedPair { up, low } = locks;
    match fresh(words, pass, &mut frames, n) {
        Fresh::Pages(pages) => Ok(Prepared {
            up,
            low,
            pages,
            frames,
        }),
        Fresh::Again(saw) => {
            give_up(words, pass, iface, up, low, frames);
            Err(TrySplit::Again(saw))
        }
        Fresh::Worn(pid) => {
            give_up(words, pass, iface, up, low, frames);
            Err(TrySplit::Worn(pid))
        }
        Fresh::Full { pages, next, need } => {
            give_up(words, pass, iface, up, low, frames);
            Err(TrySplit::Full { pages, next, need })
        }
    }
}

/// Takes what a split needs that takes `n` fresh pages (1 or 2), if a free-number word has so many bits, or so many pages are left; else it locks nothing and takes
/// nothing, and answers Full.
pub fn prepare<K: Kind, B: Block>(
    words: &Words<TreeOf<K>, B>,
    pass: &mut Pass<TreeOf<K>>,
    iface: &mut Interface,
    first: OptGuard,
    second: OptGuard,
    n: u32,
) -> Result<Prepared, TrySplit>
    requires ready { IsReadyOn words.now B.tells pass.old }
    requires home { (view pass.old).out ≡ None }
    requires frames { AreHeld iface.old.frames (view pass.old) }
    requires count { (n ≡ 1) ⊎ (n ≡ 2) }
    requires apart { second.pid ≢ first.pid }
    requires first { IsReading first.pid first.word first.frame (view pass.old) }
    requires second { IsReading second.pid second.word second.frame (view pass.old) }
    ensures goes { GoesOn words.now B.tells pass.old pass.new }
    ensures iface { (iface.new.home ≡ iface.old.home) × (iface.new.cap ≡ iface.old.cap) }
    ensures held { IfOk result (λ all. AreHeld (iface.new.frames ++ all.frames) (view pass.new)) }
    ensures ok { IfOk result (λ all. IsPrepared K.layout n first second all.up all.low (guards_of all.pages) (view pass.old) (view pass.new)) }
    ensures lost { IfOk result (λ all. LosesNone iface.old.frames (view pass.old) (iface.new.frames ++ all.frames) (view pass.new)) }
    ensures lost_none { IfErr result (λ _. LosesNone iface.old.frames (view pass.old) iface.new.frames (view pass.new)) }
    ensures err { IfErr result (λ answer. AreHeld iface.new.frames (view pass.new) × KeepsLocksOnly (view pass.old) (view pass.new)
        × IsUnsplit K.plain K.layout K.spare n first second (view pass.old) (view pass.new) answer) }
    ensures sure { KnowsToSplit K.layout first second (view pass.old) → IfErr result IsFinalSplit }
{
    match room_for(words, pass, n) {
        Ok(()) => take_all(words, pass, iface, first, second, n),
        Err(NoRoom { pages, next, need }) => Err(TrySplit::Full { pages, next, need }),
    }
}
