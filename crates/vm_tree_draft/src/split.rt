// A full node is split: the pages concerned are locked, written and released together.
ghost use Rattle.std.specs.Prelude.{[], ◌+◌, ◌<◌, ◌^◌, ◌∷◌};
ghost use Rattle.vm_step.specs.Prelude.{GoesOn, IsReadyOn, view};
ghost use Rattle.vm_tree_draft.specs.Splits.{CanSplit, CanSplitRoot, IsSplitUp};

use crate::draft::{Edited, Whole, redraft};
use vm_block::Block;
use vm_rule::words::{Pass, Words};
use vm_tree_read::guard::{ExclusiveGuard, Group, release_group};
use vm_tree_read::kind::{Edits, TreeOf};

/// Splits the full node `low` below the node `up`, which has room, into itself and the fresh page `right`, and releases the three together.
pub fn write_split<K: Edits, B: Block>(
    words: &Words<TreeOf<K>, B>,
    pass: &mut Pass<TreeOf<K>>,
    up: ExclusiveGuard,
    low: ExclusiveGuard,
    right: ExclusiveGuard,
    over: &K::Page,
    page: &K::Page,
)
    requires ready { IsReadyOn words.now B.tells pass.old }
    requires can { CanSplit K.layout K.spare up low right (K.words_of over.now) (K.words_of page.now) (view pass.old) }
    ensures goes { GoesOn words.now B.tells pass.old pass.new }
    ensures split { IsSplitUp K.plain K.layout (up.pid ∷ low.pid ∷ right.pid ∷ []) (view pass.old) (view pass.new) }
{
    let mut lower = K::zero();
    let mut upper = K::zero();
    let separator = K::split(page, &mut lower, &mut upper);
    let lower: Whole<'_, K> = Whole { page: &lower };
    let upper: Whole<'_, K> = Whole { page: &upper };
    let edit = match K::add_edit(over, &separator, right.pid as u64) {
        Ok(edit) => edit,
        Err(_) => unreachable!(),
    };
    let changes = K::changes(over, &edit);
    let above: Edited<'_, K> = Edited {
        page: over,
        edit,
        changes,
    };
    let zero = K::zero();
    let mut first = up;
    let mut second = low;
    let mut third = right;
    redraft(words, pass, &mut first, over, &above);
    redraft(words, pass, &mut second, page, &lower);
    redraft(words, pass, &mut third, &zero, &upper);
    let group = Group::Three(first, second, third);
    release_group(words, pass, group, None::<K::Said>.as_ref());
}

/// Splits the full root `low`, which page 0 names at this height, into itself and the fresh page `right` below the fresh page `top`, and releases
/// the four together.
pub fn write_root<K: Edits, B: Block>(
    words: &Words<TreeOf<K>, B>,
    pass: &mut Pass<TreeOf<K>>,
    meta: ExclusiveGuard,
    low: ExclusiveGuard,
    right: ExclusiveGuard,
    top: ExclusiveGuard,
    height: u64,
    page: &K::Page,
)
    requires ready { IsReadyOn words.now B.tells pass.old }
    requires can { CanSplitRoot K.layout K.spare meta low right top height (K.words_of page.now) (view pass.old) }
    requires room { height + 1 < 2 ^ 64 }
    ensures goes { GoesOn words.now B.tells pass.old pass.new }
    ensures split { IsSplitUp K.plain K.layout (meta.pid ∷ low.pid ∷ right.pid ∷ top.pid ∷ []) (view pass.old) (view pass.new) }
{
    let mut lower = K::zero();
    let mut upper = K::zero();
    let separator = K::split(page, &mut lower, &mut upper);
    let lower: Whole<'_, K> = Whole { page: &lower };
    let upper: Whole<'_, K> = Whole { page: &upper };
    let mut crown = K::zero();
    K::new_root(
        &mut crown,
        height + 1,
        low.pid as u64,
        &separator,
        right.pid as u64,
    );
    let zero = K::zero();
    let mut first = meta;
    let mut second = low;
    let mut third = right;
    let mut fourth = top;
    first.set(words, pass, 1, fourth.pid as u64);
    first.set(words, pass, 2, height + 1);
    redraft(words, pass, &mut second, page, &lower);
    redraft(words, pass, &mut third, &zero, &upper);
    let crown: Whole<'_, K> = Whole { page: &crown };
    redraft(words, pass, &mut fourth, &zero, &crown);
    let group = Group::Four(first, second, third, fourth);
    release_group(words, pass, group, None::<K::Said>.as_ref());
}
