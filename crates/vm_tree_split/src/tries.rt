// The try of a split: the first full node on the way of a key is split, or the answer tells why not.
ghost use Rattle.std.specs.Prelude.{◌+◌, ◌<◌, ◌^◌, ◌≡◌, ◌≤◌, length, None, true, ℕ};
ghost use Rattle.vm_rule.specs.Prelude.{HoldsNoPage};
ghost use Rattle.vm_step.specs.Prelude.{AreHeld, GoesOn, IsReadyOn, view};
ghost use Rattle.vm_tree_read.specs.from_vm_tree_rule.{Resident.KnowsResident, Seeks.IsFullBelow, Seeks.IsRootFull, Turns.IsTurnedBack};
ghost use Rattle.vm_tree_read.specs.Waiting.{LosesNone};
ghost use Rattle.vm_tree_draft.specs.Splits.{KeepsLocksOnly};
ghost use Rattle.vm_tree_split.specs.Prepares.{KnowsToSplit};
ghost use Rattle.vm_tree_split.specs.Tries.{IsEndOf, IsFinalSplit, IsTrySplit};

use crate::prepare::{Prepared, prepare};
use vm_block::Block;
use vm_rule::words::{Pass, Words};
use vm_step::Saw;
use vm_tree_draft::split::{write_root, write_split};
use vm_tree_read::exmap::Interface;
use vm_tree_read::guard::OptGuard;
use vm_tree_read::kind::{Edits, TreeOf};
use vm_tree_read::tree_rule::{Met, Turn, seek_full};

/// What a try of a split answers.
#[derive(Debug, Drop)]
pub enum TrySplit {
    /// The first full node on the way of the key was split.
    Split,
    /// No node on the way of the key is full.
    Roomy,
    /// A page's word had changed, or the page was Locked or had shares, or frames or page numbers were lost to others: the call may be tried again.
    Again(Saw),
    /// This page is Evicted: it has to be brought in first. It is page 0, or a page on the way names it.
    Need(u32),
    /// Page 0, the full node, its parent or a page that was to be given is at the last version.
    Worn(u32),
    /// The words of this page are not what the way to it says. Never where blocks tell their words.
    Damaged(u32),
    /// No frame was free.
    Dry,
    /// So many pages there are, this is the next one, and so many were needed; no free-number word had so many bits.
    Full { pages: u32, next: u32, need: u32 },
}

/// Why no full node was looked for to the end.
fn not_found<K: Edits>(turn: Turn) -> TrySplit
    ensures { (key : _) (v w : _) → IsTurnedBack K.layout v key turn w → IsTrySplit K.plain K.layout K.spare key result v w }
{
    match turn {
        Turn::Again(saw) => TrySplit::Again(saw),
        Turn::Need(pid) => TrySplit::Need(pid),
        Turn::Damaged(pid) => TrySplit::Damaged(pid),
    }
}

/// Splits a full node below its parent: one fresh page is released with both.
fn split_below<K: Edits, B: Block>(
    words: &Words<TreeOf<K>, B>,
    pass: &mut Pass<TreeOf<K>>,
    iface: &mut Interface,
    parent: OptGuard,
    node: OptGuard,
    over: &K::Page,
    page: &K::Page,
) -> TrySplit
    requires ready { IsReadyOn words.now B.tells pass.old }
    requires home { (view pass.old).out ≡ None }
    requires frames { AreHeld iface.old.frames (view pass.old) }
    requires size { (length (K.words_of over.now) ≡ K.layout.words) × (length (K.words_of page.now) ≡ K.layout.words) }
    requires met { (v : _) × (key : ℕ) × IsFullBelow K.layout K.spare v key parent node (K.words_of over.now) (K.words_of page.now) (view pass.old) }
    ensures goes { GoesOn words.now B.tells pass.old pass.new }
    ensures iface { (iface.new.home ≡ iface.old.home) × (iface.new.cap ≡ iface.old.cap) }
    ensures held { AreHeld iface.new.frames (view pass.new) }
    ensures keeps { KeepsLocksOnly (view pass.old) (view pass.new) }
    ensures lost { LosesNone iface.old.frames (view pass.old) iface.new.frames (view pass.new) }
    ensures cause { IsEndOf K.plain K.layout K.spare 1 parent node (view pass.old) (view pass.new) result }
    ensures sure { KnowsToSplit K.layout parent node (view pass.old) → IsFinalSplit result }
{
    let all = match prepare(words, pass, iface, parent, node, 1) {
        Ok(all) => all,
        Err(answer) => return answer,
    };
    let Prepared {
        up,
        low,
        pages,
        frames,
    } = all;
    let mut group = pages;
    let Some(right) = group.take_last() else {
        unreachable!();
    };
    group.end();
    write_split(words, pass, up, low, right, over, page);
    iface.free(words, pass, frames);
    TrySplit::Split
}

// A height to which one can be added. That of a tree is one; where blocks do not tell their words, page 0 may tell any.
fn to_grow(height: u64) -> u64
    ensures fits { result + 1 < 2 ^ 64 }
    ensures same { height + 1 < 2 ^ 64 → result ≡ height }
{
    if height == u64::MAX {
        return 0;
    }
    height
}

/// Splits the full root: two fresh pages, the right half and the new root, are released with page 0 and the old root.
fn split_root<K: Edits, B: Block>(
    words: &Words<TreeOf<K>, B>,
    pass: &mut Pass<TreeOf<K>>,
    iface: &mut Interface,
    meta: OptGuard,
    root: OptGuard,
    height: u64,
    page: &K::Page,
) -> TrySplit
    requires ready { IsReadyOn words.now B.tells pass.old }
    requires home { (view pass.old).out ≡ None }
    requires frames { AreHeld iface.old.frames (view pass.old) }
    requires size { length (K.words_of page.now) ≡ K.layout.words }
    requires met { (v : _) × (key : ℕ) × IsRootFull K.layout K.spare v key meta root height (K.words_of page.now) (view pass.old) }
    ensures goes { GoesOn words.now B.tells pass.old pass.new }
    ensures iface { (iface.new.home ≡ iface.old.home) × (iface.new.cap ≡ iface.old.cap) }
    ensures held { AreHeld iface.new.frames (view pass.new) }
    ensures keeps { KeepsLocksOnly (view pass.old) (view pass.new) }
    ensures lost { LosesNone iface.old.frames (view pass.old) iface.new.frames (view pass.new) }
    ensures cause { IsEndOf K.plain K.layout K.spare 2 meta root (view pass.old) (view pass.new) result }
    ensures sure { KnowsToSplit K.layout meta root (view pass.old) → IsFinalSplit result }
{
    let all = match prepare(words, pass, iface, meta, root, 2) {
        Ok(all) => all,
        Err(answer) => return answer,
    };
    let Prepared {
        up,
        low,
        pages,
        frames,
    } = all;
    let mut group = pages;
    let Some(top) = group.take_last() else {
        unreachable!();
    };
    let Some(right) = group.take_last() else {
        unreachable!();
    };
    group.end();
    write_root(words, pass, up, low, right, top, to_grow(height), page);
    iface.free(words, pass, frames);
    TrySplit::Split
}

/// Splits the first full node that is met from the root to the leaf of the key. The map stays as it is.
pub fn try_split<K: Edits, B: Block>(
    words: &Words<TreeOf<K>, B>,
    pass: &mut Pass<TreeOf<K>>,
    iface: &mut Interface,
    key: &K::Key,
) -> TrySplit
    requires ready { IsReadyOn words.now B.tells pass.old }
    requires pages { 1 ≤ words.now.table.shared.key.pages }
    requires home { (view pass.old).out ≡ None }
    requires frames { AreHeld iface.old.frames (view pass.old) }
    ensures goes { GoesOn words.now B.tells pass.old pass.new }
    ensures iface { (iface.new.home ≡ iface.old.home) × (iface.new.cap ≡ iface.old.cap) }
    ensures held { AreHeld iface.new.frames (view pass.new) }
    ensures lost { LosesNone iface.old.frames (view pass.old) iface.new.frames (view pass.new) }
    ensures tried { IsTrySplit K.plain K.layout K.spare (K.rank key.now) result (view pass.old) (view pass.new) }
    ensures sure { B.tells ≡ true → KnowsResident (view pass.old) → HoldsNoPage (view pass.old) → IsFinalSplit result }
{
    let mut over = K::zero();
    let mut page = K::zero();
    let met = match seek_full(words, pass, key, &mut over, &mut page) {
        Ok(met) => met,
        Err(turn) => return not_found::<K>(turn),
    };
    match met {
        Met::Roomy(leaf) => match leaf.validate_silently(words, pass) {
            Ok(()) => TrySplit::Roomy,
            Err(saw) => TrySplit::Again(saw),
        },
        Met::Below { parent, node } => {
            split_below(words, pass, iface, parent, node, &over, &page)
        }
        Met::Root { meta, root, height } => {
            split_root(words, pass, iface, meta, root, height, &page)
        }
    }
}
