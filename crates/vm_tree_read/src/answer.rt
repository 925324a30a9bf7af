// The leaf of a key, in place or in a buffer, and the answer that its validation makes an entry of the history.
ghost use Rattle.std.specs.Prelude.{[], ◌*◌, ◌+◌, ◌≡◌, ◌≤◌, IfErr, IfOk, IsOk, length, List, Some, true, ℕ};
ghost use Rattle.vm_tree_model.specs.{Node.Covers, Page.node_of};
ghost use Rattle.vm_node.specs.Loads.{IsAnswer, IsPageWith, Tells};
ghost use Rattle.vm_tree_rule.specs.from_vm_step.Prelude.{GoesOn, IsReadyOn, NoneExpected, view};
ghost use Rattle.vm_pool.specs.from_vm_guard.{Guards.IsReading, Guards.Loads, Guards.placed, PageWords.LoadsWords};
ghost use Rattle.vm_pool.specs.from_vm_guard.Denied.{AgainOrNeed, IsDenied, KeptWord};
ghost use Rattle.vm_tree_rule.specs.{Above.IsAbove, Above.IsLeafOn, Above.KnowsAbove, Leaves.ReadsOn};
ghost use Rattle.vm_tree_rule.specs.Standing.{Awaits, AwaitsNode, fence_of, IsOpened};
ghost use Rattle.vm_tree_rule.specs.Ways.{IsOnWay, TellNoNode};
ghost use Rattle.vm_tree_rule.specs.Resident.{IsKnownNow, IsReadNow, KnowsReadable, KnowsResident};
ghost use Rattle.vm_tree_rule.specs.Few.{LoadsHeight, LoadsWithin, ReadsInPlace};
ghost use Rattle.vm_tree_rule.specs.Seeks.{HasLoaded};
ghost use Rattle.vm_tree_rule.specs.Turns.{IsTurnedBack, TellLeaf};
ghost use Rattle.vm_tree_read.specs.Reads.{IsAnswered, IsLeafBetween, TellReply};

use vm_block::Block;
use vm_node::Place;
use vm_pool::guard::{Deny, OptGuard};
use vm_pool::rule::{Pass, Words};
use vm_tree_rule::kind::{Kind, Pages, TreeOf};
use vm_tree_rule::step::{Saw, frame_place};
use vm_tree_rule::{InPlace, Reached, Turn, descend, reach};

/// Whether the page is a leaf with just these fences, from the words loaded that tell its tag and its fences.
fn is_leaf_between<K: Kind, P: Place>(place: &mut P, low: &K::Key, high: &Option<K::Key>) -> bool
    requires ready { P.ready place.old }
    requires size { P.size place.old ≡ K.layout.words }
    ensures ready { P.ready place.new }
    ensures told { Tells K.layout.words P.loads place.old (1 + K.bounds.fences) place.new
        (λ page. IsAnswer result (IsLeafBetween K.layout page (K.rank low.now) (fence_of K.layout K.rank high.now))) }
{
    K::is_leaf_at(place) && K::has_fences_at(place, low, high)
}

/// Whether the page under the guard is that, found where it stands.
fn is_leaf_in_place<K: Kind, B: Block>(
    words: &Words<TreeOf<K>, B>,
    pass: &mut Pass<TreeOf<K>>,
    guard: &OptGuard,
    low: &K::Key,
    high: &Option<K::Key>,
) -> bool
    requires ready { IsReadyOn words.now B.tells pass.old }
    requires reading { IsReading guard.now.pid guard.now.word guard.now.frame (view pass.old) }
    ensures goes { GoesOn words.now B.tells pass.old pass.new }
    ensures found { ReadsInPlace guard.now.pid guard.now.word guard.now.frame (1 + K.bounds.fences) (view pass.old) (view pass.new)
        (λ loaded. (page : List ℕ) → IsPageWith K.layout.words loaded page
        → IsAnswer result (IsLeafBetween K.layout page (K.rank low.now) (fence_of K.layout K.rank high.now))) }
{
    let mut place = InPlace {
        words,
        pass: &mut *pass,
        guard,
        first: frame_place(words, guard.frame),
    };
    is_leaf_between::<K, _>(&mut place, low, high)
}

/// Ends a descent at a page that is no leaf with the fences at which it was reached: where it is validated so, blocks do not tell their words.
fn no_leaf<K: Kind, B: Block>(
    words: &Words<TreeOf<K>, B>,
    pass: &mut Pass<TreeOf<K>>,
    guard: &OptGuard,
) -> Turn
    requires ready { IsReadyOn words.now B.tells pass.old }
    requires reading { IsReading guard.now.pid guard.now.word guard.now.frame (view pass.old) }
    ensures goes { GoesOn words.now B.tells pass.old pass.new }
    ensures turn { (v : _) (key low high : ℕ) (loaded : _) → IsOpened v guard.now.pid guard.now.word guard.now.frame (view pass.old)
        → AwaitsNode K.layout (view pass.old) guard.now.pid guard.now.word 0 low high → IsOnWay K.layout v key guard.now.pid 0 low high (view pass.old)
        → HasLoaded (view pass.old) guard.now.pid loaded → TellNoNode K.layout loaded 0 low high → IsTurnedBack K.layout v key result (view pass.new) }
    ensures sure { (shares : ℕ → ℕ) (low high : ℕ) (loaded : _) → B.tells ≡ true → IsReadNow shares guard.now.pid guard.now.word (view pass.old)
        → AwaitsNode K.layout (view pass.old) guard.now.pid guard.now.word 0 low high
        → HasLoaded (view pass.old) guard.now.pid loaded → TellNoNode K.layout loaded 0 low high → ⊥ }
    ensures words { LoadsWords [] (view pass.old) (view pass.new) }
{
    match guard.validate_silently(words, pass) {
        Ok(()) => Turn::Damaged(guard.pid),
        Err(saw) => Turn::Again(saw),
    }
}

/// Descends to the leaf that covers the key, and looks at its tag and its fences where it stands. Its guard is still open: what is loaded of it has to
/// be validated. It is found for sure also by a pass that has shares of pages itself.
pub fn leaf_at<K: Kind, B: Block>(
    words: &Words<TreeOf<K>, B>,
    pass: &mut Pass<TreeOf<K>>,
    key: &K::Key,
) -> Result<OptGuard, Turn>
    requires ready { IsReadyOn words.now B.tells pass.old }
    requires pages { 1 ≤ words.now.table.shared.key.pages }
    ensures goes { GoesOn words.now B.tells pass.old pass.new }
    ensures reads { IfOk result (λ guard. ReadsOn (view pass.old) (view pass.new) × IsOpened (view pass.old) guard.pid guard.word guard.frame (view pass.new)) }
    ensures leaf { IfOk result (λ guard. (loaded : List (ℕ × ℕ)) × HasLoaded (view pass.new) guard.pid loaded × TellLeaf K.layout loaded (K.rank key.now)) }
    ensures awaits { IfOk result (λ guard. Awaits K.layout (view pass.new) guard.pid guard.word 0 (K.rank key.now)) }
    ensures reached { IfOk result (λ guard. IsLeafOn K.layout (view pass.old) (K.rank key.now) guard.pid guard.word (view pass.new)) }
    ensures err { IfErr result (λ turn. IsTurnedBack K.layout (view pass.old) (K.rank key.now) turn (view pass.new)) }
    ensures sure { B.tells ≡ true → KnowsResident (view pass.old) → IsOk result }
    ensures known { B.tells ≡ true → KnowsResident (view pass.old) → IfOk result (λ guard. IsKnownNow guard.pid guard.word (view pass.new)) }
    ensures sure_shared { (shares : ℕ → ℕ) → B.tells ≡ true → KnowsReadable shares (view pass.old) → IsOk result }
    ensures known_shared { (shares : ℕ → ℕ) → B.tells ≡ true → KnowsReadable shares (view pass.old)
        → IfOk result (λ guard. IsReadNow shares guard.pid guard.word (view pass.new)) }
    ensures few { LoadsWithin (λ h. 2 + K.bounds.child * h + (1 + K.bounds.fences)) (view pass.old) (view pass.new) }
    ensures height { IfOk result (λ _. (h : ℕ) × LoadsHeight (2 + K.bounds.child * h + (1 + K.bounds.fences)) h (view pass.old) (view pass.new)) }
{
    let leaf = match descend(words, pass, key) {
        Ok(leaf) => leaf,
        Err(turn) => return Err(turn),
    };
    if is_leaf_in_place(words, pass, &leaf.guard, &leaf.low, &leaf.high) {
        return Ok(leaf.guard);
    }
    Err(no_leaf(words, pass, &leaf.guard))
}

/// The same for a writer that may change the pages above the leaf with it: as far as it may, these stay open.
pub fn leaf_below<K: Kind, B: Block>(
    words: &Words<TreeOf<K>, B>,
    pass: &mut Pass<TreeOf<K>>,
    key: &K::Key,
) -> Result<Reached<K::Key>, Turn>
    requires ready { IsReadyOn words.now B.tells pass.old }
    requires pages { 1 ≤ words.now.table.shared.key.pages }
    ensures goes { GoesOn words.now B.tells pass.old pass.new }
    ensures reads { IfOk result (λ r. ReadsOn (view pass.old) (view pass.new) × IsOpened (view pass.old) r.leaf.pid r.leaf.word r.leaf.frame (view pass.new)) }
    ensures leaf { IfOk result (λ r. (loaded : List (ℕ × ℕ)) × HasLoaded (view pass.new) r.leaf.pid loaded × TellLeaf K.layout loaded (K.rank key.now)) }
    ensures awaits { IfOk result (λ r. Awaits K.layout (view pass.new) r.leaf.pid r.leaf.word 0 (K.rank key.now)) }
    ensures reached { IfOk result (λ r. IsLeafOn K.layout (view pass.old) (K.rank key.now) r.leaf.pid r.leaf.word (view pass.new)) }
    ensures above { IfOk result (λ r. IsAbove K.layout (view pass.old) (K.rank key.now) r.above r.leaf.pid (view pass.new)) }
    ensures err { IfErr result (λ turn. IsTurnedBack K.layout (view pass.old) (K.rank key.now) turn (view pass.new)) }
    ensures sure { B.tells ≡ true → KnowsResident (view pass.old) → IsOk result }
    ensures known { B.tells ≡ true → KnowsResident (view pass.old)
        → IfOk result (λ r. IsKnownNow r.leaf.pid r.leaf.word (view pass.new) × KnowsAbove r.above (view pass.new)) }
{
    let reached = match reach(words, pass, key) {
        Ok(reached) => reached,
        Err(turn) => return Err(turn),
    };
    if is_leaf_in_place(words, pass, &reached.leaf, &reached.low, &reached.high) {
        return Ok(reached);
    }
    Err(no_leaf(words, pass, &reached.leaf))
}

/// Reads the words of the leaf under the guard into the page, for a writer that was led here by its key. They are a leaf's that covers the key, and have to be
/// validated: what was loaded of it before may have changed meanwhile.
pub fn read_leaf<K: Pages, B: Block>(
    words: &Words<TreeOf<K>, B>,
    pass: &mut Pass<TreeOf<K>>,
    guard: &OptGuard,
    key: &K::Key,
    page: &mut K::Page,
) -> Result<(), Turn>
    requires ready { IsReadyOn words.now B.tells pass.old }
    requires reading { IsReading guard.now.pid guard.now.word guard.now.frame (view pass.old) }
    requires size { length (K.words_of page.old) ≡ K.layout.words }
    ensures size { length (K.words_of page.new) ≡ K.layout.words }
    ensures goes { GoesOn words.now B.tells pass.old pass.new }
    ensures loads { IfOk result (λ _. Loads guard.now.pid guard.now.word guard.now.frame (placed 0 (K.words_of page.new)) (view pass.old) (view pass.new)) }
    ensures leaf { IfOk result (λ _. ((node_of K.layout (K.words_of page.new)).tag ≡ 2) × Covers (node_of K.layout (K.words_of page.new)) (K.rank key.now)) }
    ensures err { IfErr result (λ turn. (v : _) → IsOpened v guard.now.pid guard.now.word guard.now.frame (view pass.old)
        → IsLeafOn K.layout v (K.rank key.now) guard.now.pid guard.now.word (view pass.old) → IsTurnedBack K.layout v (K.rank key.now) turn (view pass.new)) }
    ensures sure { (v : _) → B.tells ≡ true → IsKnownNow guard.now.pid guard.now.word (view pass.old)
        → IsLeafOn K.layout v (K.rank key.now) guard.now.pid guard.now.word (view pass.old) → IsOk result }
{
    K::read_all(guard, words, pass, page);
    if K::is_leaf(page) && K::covers(page, key) {
        return Ok(());
    }
    Err(no_leaf(words, pass, guard))
}

/// Validates the leaf of which words were loaded, and makes what they prove an entry of the history.
pub fn answer<K: Kind, B: Block>(
    words: &Words<TreeOf<K>, B>,
    pass: &mut Pass<TreeOf<K>>,
    guard: &OptGuard,
    said: &K::Said,
) -> Result<(), Saw>
    requires ready { IsReadyOn words.now B.tells pass.old }
    requires reading { IsReading guard.now.pid guard.now.word guard.now.frame (view pass.old) }
    requires proves { (loaded : List (ℕ × ℕ)) × HasLoaded (view pass.old) guard.now.pid loaded × TellReply K.layout loaded (K.plain said.now) }
    ensures goes { GoesOn words.now B.tells pass.old pass.new }
    ensures ok { IfOk result (λ _. IsAnswered K.plain K.layout (K.plain said.now) (view pass.old) (view pass.new)) }
    ensures err { IfErr result (λ saw. IsDenied AgainOrNeed (KeptWord guard.now.word) NoneExpected guard.now.pid (Deny.Again saw) (view pass.old) (view pass.new)) }
    ensures sure { IsKnownNow guard.now.pid guard.now.word (view pass.old) → IsOk result }
    ensures known { IsKnownNow guard.now.pid guard.now.word (view pass.old) → KnowsResident (view pass.new) }
    ensures words { LoadsWords [] (view pass.old) (view pass.new) }
{
    match guard.validate(words, pass, Some(said)) {
        Ok(()) => Ok(()),
        Err(saw) => Err(saw),
    }
}
