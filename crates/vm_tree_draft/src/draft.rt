// The draft of a locked page becomes a page's words: those of a buffer, or those that an edit leaves of one, which needs no second buffer.
ghost use Rattle.std.specs.Prelude.{◌<◌, ◌≡◌, ◌≢◌, ◌≤◌, ◌⊎◌, length, List, slice_index, true, ℕ};
ghost use Rattle.vm_rule.specs.Prelude.{draft_of};
ghost use Rattle.vm_step.specs.Prelude.{GoesOn, IsReadyOn, view};
ghost use Rattle.vm_tree_read.specs.from_vm_guard.Guards.{IsHolding};
ghost use Rattle.vm_tree_draft.specs.Drafts.{DraftsIn, IsDraftedAmong, IsRedrafted, KnowsSameStates, SetsDiffering};

use vm_block::Block;
use vm_rule::words::{Pass, Words};
use vm_tree_read::guard::ExclusiveGuard;
use vm_tree_read::kind::{Edits, Pages, TreeOf};

/// The words that a draft is to have, told word by word.
pub trait Wanted {
    ghost words: { Self → List ℕ };

    /// How many there are.
    ghost size: { Self → ℕ };

    /// They are made of these.
    ghost made_of: { Self → List ℕ → Type 0 };

    /// Where they may be others than the words that they are made of, beside the first two: from the first of these places on, and before the second.
    fn span(&self) -> (usize, usize)
        ensures span { (before : List ℕ) → made_of self.now before → (i : ℕ) → 2 ≤ i → i < size self.now → (i < result.0) ⊎ (result.1 ≤ i)
            → slice_index (words self.now) i ≡ slice_index before i };

    /// Word `i`, for `i` from 0 on and below their number.
    fn word(&self, i: usize) -> u64
        requires i { i < size self.now }
        ensures word { result ≡ slice_index (words self.now) i }
        ensures size { length (words self.now) ≡ size self.now };
}

/// The page of a buffer.
#[derive(Drop)]
pub struct Whole<'a, K: Pages> {
    pub page: &'a K::Page,
}

impl<K: Pages> Wanted for Whole<'_, K> {
    ghost words = { λ w. K.words_of w.page.now };

    ghost size = { λ w. K.layout.words };

    ghost made_of = { λ w before. Unit {0} };

    fn span(&self) -> (usize, usize) {
        (2, K::words())
    }

    fn word(&self, i: usize) -> u64 {
        K::word(self.page, i)
    }
}

/// A page as an edit of it leaves it, and where words may be others than before, beside the count.
#[derive(Drop)]
pub struct Edited<'a, K: Edits> {
    pub page: &'a K::Page,
    pub edit: K::Edit,
    pub changes: (usize, usize),
}

impl<K: Edits> Wanted for Edited<'_, K> {
    ghost words = { λ e. K.edited (K.words_of e.page.now) e.edit };

    ghost size = { λ e. K.layout.words };

    ghost made_of = { λ e before. (K.words_of e.page.now ≡ before)
        × ((i : ℕ) → i < K.layout.words → i ≢ 1 → (i < e.changes.0) ⊎ (e.changes.1 ≤ i)
        → slice_index (K.edited (K.words_of e.page.now) e.edit) i ≡ slice_index (K.words_of e.page.now) i) };

    fn span(&self) -> (usize, usize) {
        self.changes
    }

    fn word(&self, i: usize) -> u64 {
        K::edited_word(self.page, &self.edit, i)
    }
}

/// Sets those words of the draft in which what is wanted is other than `before`. The draft has the words of `before`, where blocks tell theirs, and
/// then those wanted.
pub fn redraft<K: Pages, B: Block, W: Wanted>(
    words: &Words<TreeOf<K>, B>,
    pass: &mut Pass<TreeOf<K>>,
    guard: &mut ExclusiveGuard,
    before: &K::Page,
    after: &W,
)
    requires ready { IsReadyOn words.now B.tells pass.old }
    requires holds { IsHolding guard.old.pid guard.old.frame guard.old.version guard.old.dirty (view pass.old) }
    requires draft { (view pass.old).start.tells ≡ true → draft_of (view pass.old) guard.old.pid ≡ K.words_of before.now }
    requires size { W.size after.now ≡ K.layout.words }
    requires made_of { W.made_of after.now (K.words_of before.now) }
    ensures goes { GoesOn words.now B.tells pass.old pass.new }
    ensures holds { IsHolding guard.new.pid guard.new.frame guard.new.version guard.new.dirty (view pass.new) }
    ensures guard { (guard.new.pid ≡ guard.old.pid) × (guard.new.version ≡ guard.old.version) × (guard.new.frame ≡ guard.old.frame) }
    ensures draft { (view pass.old).start.tells ≡ true → draft_of (view pass.new) guard.old.pid ≡ W.words after.now }
    ensures redrafted { IsRedrafted guard.old.pid (view pass.old) (view pass.new) }
    ensures drafts { DraftsIn guard.old.pid guard.old.frame (view pass.old) (view pass.new) }
    ensures known { KnowsSameStates (view pass.old) (view pass.new) }
    ensures differ { SetsDiffering (K.words_of before.now) (W.words after.now) (view pass.old) (view pass.new) }
{
    let (first, end) = after.span();
    let from = first.max(2).min(K::words());
    let end = end.max(from).min(K::words());
    redraft_words(words, pass, guard, before, after, 0, 2);
    redraft_words(words, pass, guard, before, after, from, end);
}

/// The same of the words from one place on and before another. The others stay.
fn redraft_words<K: Pages, B: Block, W: Wanted>(
    words: &Words<TreeOf<K>, B>,
    pass: &mut Pass<TreeOf<K>>,
    guard: &mut ExclusiveGuard,
    before: &K::Page,
    after: &W,
    from: usize,
    end: usize,
)
    requires ready { IsReadyOn words.now B.tells pass.old }
    requires holds { IsHolding guard.old.pid guard.old.frame guard.old.version guard.old.dirty (view pass.old) }
    requires size { W.size after.now ≡ K.layout.words }
    requires places { (from ≤ end) × (end ≤ K.layout.words) }
    requires draft { (view pass.old).start.tells ≡ true → (k : ℕ) → from ≤ k → slice_index (draft_of (view pass.old) guard.old.pid) k ≡ slice_index (K.words_of before.now) k }
    ensures goes { GoesOn words.now B.tells pass.old pass.new }
    ensures holds { IsHolding guard.new.pid guard.new.frame guard.new.version guard.new.dirty (view pass.new) }
    ensures guard { (guard.new.pid ≡ guard.old.pid) × (guard.new.version ≡ guard.old.version) × (guard.new.frame ≡ guard.old.frame) }
    ensures size { from < end → length (W.words after.now) ≡ K.layout.words }
    ensures draft { (view pass.old).start.tells ≡ true → IsDraftedAmong from end (K.words_of before.now) (W.words after.now)
        (draft_of (view pass.old) guard.old.pid) (draft_of (view pass.new) guard.old.pid) }
    ensures redrafted { IsRedrafted guard.old.pid (view pass.old) (view pass.new) }
    ensures drafts { DraftsIn guard.old.pid guard.old.frame (view pass.old) (view pass.new) }
    ensures known { KnowsSameStates (view pass.old) (view pass.new) }
    ensures differ { SetsDiffering (K.words_of before.now) (W.words after.now) (view pass.old) (view pass.new) }
{
    for i in from..end {
        let word = after.word(i);
        if word != K::word(before, i) {
            guard.set(words, pass, i, word);
        }
    }
}
