// A leaf's neighbour under the same parent, and whether the two may become one.
ghost use Rattle.std.specs.Prelude.{◌*◌, ◌≤◌, ◌≡◌, ◌≢◌, false, ◌⊎◌, IfErr, IfOk, IsOk, length, MatchOption, None, Some, true, ℕ};
ghost use Rattle.vm_map.specs.Map.{Rises};
ghost use Rattle.vm_tree_model.specs.{Edits.TakesPair, Layout.size};
ghost use Rattle.vm_tree_model.specs.Page.{node_of, pairs_of};
ghost use Rattle.vm_event.specs.Prelude.{MAX_VERSION, version_of};
ghost use Rattle.vm_node.specs.Loads.{IsAnswer};
ghost use Rattle.vm_tree_join.specs.from_vm_step.Prelude.{GoesOn, IsReadyOn, ReadsAsBefore, view};
ghost use Rattle.vm_tree_join.specs.from_vm_tree_rule.{Above.IsParentOf, Leaves.LeavesWord, Leaves.ReadsOn, Resident.IsKnownNow};
ghost use Rattle.vm_tree_merge.specs.Beside.{as_one, HasNoOther, IsChoice, IsNeighbour, IsReadWhole, IsTurnedBeside, IsUnmerged, LeavesBeside, TellBeside};
ghost use Rattle.vm_tree_merge.specs.Tried.{IsToMerge};

use vm_block::Block;
use vm_event::{MAX_VERSION, StateWord};
use vm_inner::ChildPair;
use vm_tree_join::guard::OptGuard;
use vm_tree_join::kind::{Merges, TreeOf};
use vm_tree_join::rule::{Pass, Words};
use vm_tree_join::tree_rule::{Turn, enter};

/// Which page beside the leaf its parent names, what both pages' keys are there, and the edit that takes the right one out.
#[derive(Drop)]
pub struct Choice<T, E> {
    pub pair: ChildPair<T>,
    /// The neighbour's page.
    pub named: u64,
    /// Whether it stands behind the leaf.
    pub behind: bool,
    pub edit: E,
}

/// A leaf's neighbour, whose read began in this call and is open.
#[derive(Drop)]
pub struct Neighbour<T, E> {
    pub guard: OptGuard,
    pub choice: Choice<T, E>,
}

/// Whether the page is at the last version, as its guard tells: then it can't be locked.
pub fn is_last(guard: &OptGuard) -> bool
    ensures { IsAnswer result (version_of guard.now.word ≡ MAX_VERSION) }
{
    StateWord::version(guard.word) == MAX_VERSION
}

/// Whether this is the page.
fn is_page(page: u64, pid: u32) -> bool
    ensures { IsAnswer result (page ≡ pid) }
{
    page == pid as u64
}

/// The other one of two pages: the right one where it stands behind the leaf.
fn other_of<T>(pair: &ChildPair<T>, behind: bool) -> u64
    ensures { ((behind ≡ true) × (result ≡ pair.now.right)) ⊎ ((behind ≡ false) × (result ≡ pair.now.left)) }
{
    if behind {
        return pair.right;
    }
    pair.left
}

/// Which of two children is the leaf's neighbour, and the edit that takes the right one out; none where both are the leaf's page.
fn choose_of<K: Merges>(
    over: &K::Page,
    key: &K::Key,
    leaf: u32,
    pair: ChildPair<K::Key>,
) -> Option<Choice<K::Key, K::Edit>>
    requires beside { TellBeside K.layout (K.words_of over.now) (K.rank key.now) (K.rank pair.low) pair.left (K.rank pair.separator) pair.right }
    ensures found { MatchOption result (HasNoOther K.layout (K.words_of over.now) (K.rank key.now) leaf)
        (λ b. IsChoice K.layout (K.words_of over.now) (K.rank key.now) leaf b.named b.behind (K.rank b.pair.low) b.pair.left (K.rank b.pair.separator) b.pair.right) }
    ensures edit { MatchOption result (Unit {0}) (λ b. (from to : ℕ) → Rises from to (pairs_of K.layout (K.words_of over.now))
        → TakesPair K.layout (K.words_of over.now) (K.edited (K.words_of over.now) b.edit) (K.rank b.pair.separator)) }
{
    let behind = is_page(pair.left, leaf);
    let named = other_of(&pair, behind);
    if is_page(named, leaf) {
        return None;
    }
    match K::remove_edit(over, &pair.separator) {
        None => None,
        Some((_, edit)) => Some(Choice {
            pair,
            named,
            behind,
            edit,
        }),
    }
}

/// The page beside the leaf's that the parent's words name: the next one, or the one before where the leaf is the last. None where they name no other.
fn choose<K: Merges>(over: &K::Page, key: &K::Key, leaf: u32) -> Option<Choice<K::Key, K::Edit>>
    ensures found { MatchOption result (HasNoOther K.layout (K.words_of over.now) (K.rank key.now) leaf)
        (λ b. IsChoice K.layout (K.words_of over.now) (K.rank key.now) leaf b.named b.behind (K.rank b.pair.low) b.pair.left (K.rank b.pair.separator) b.pair.right) }
    ensures edit { MatchOption result (Unit {0}) (λ b. (from to : ℕ) → Rises from to (pairs_of K.layout (K.words_of over.now))
        → TakesPair K.layout (K.words_of over.now) (K.edited (K.words_of over.now) b.edit) (K.rank b.pair.separator)) }
{
    match K::beside(over, key) {
        None => None,
        Some(pair) => choose_of::<K>(over, key, leaf, pair),
    }
}

/// Reads the leaf's parent whole, into `over`, and looks at the page beside the leaf that its words name; then the parent is validated. None where they name no other page.
pub fn find_neighbour<K: Merges, B: Block>(
    words: &Words<TreeOf<K>, B>,
    pass: &mut Pass<TreeOf<K>>,
    up: &OptGuard,
    leaf: &OptGuard,
    key: &K::Key,
    over: &mut K::Page,
) -> Result<Option<Neighbour<K::Key, K::Edit>>, Turn>
    requires ready { IsReadyOn words.now B.tells pass.old }
    requires size { length (K.words_of over.old) ≡ K.layout.words }
    requires parent { (v : _) × IsParentOf K.layout v (K.rank key.now) up.now leaf.now.pid (view pass.old) }
    ensures size { length (K.words_of over.new) ≡ K.layout.words }
    ensures goes { GoesOn words.now B.tells pass.old pass.new }
    ensures reads { IfOk result (λ _. ReadsOn (view pass.old) (view pass.new)) }
    ensures others { IfOk result (λ found. (q : ℕ) → q ≢ up.now.pid → MatchOption found (Unit {0}) (λ b. q ≢ b.guard.pid)
        → ReadsAsBefore (view pass.old) (view pass.new) q × LeavesWord q (view pass.old) (view pass.new)) }
    ensures single { IfOk result (λ found. (v : _) → IsParentOf K.layout v (K.rank key.now) up.now leaf.now.pid (view pass.old) → found ≡ None
        → IsParentOf K.layout v (K.rank key.now) up.now leaf.now.pid (view pass.new) × IsReadWhole K.layout v up.now.pid (K.words_of over.new) (view pass.new)
        × HasNoOther K.layout (K.words_of over.new) (K.rank key.now) leaf.now.pid) }
    ensures beside { IfOk result (λ found. (v : _) → IsParentOf K.layout v (K.rank key.now) up.now leaf.now.pid (view pass.old) → MatchOption found (Unit {0})
        (λ b. IsNeighbour K.layout v (K.rank key.now) up.now leaf.now.pid (K.words_of over.new) b.guard b.choice.behind
        (K.rank b.choice.pair.low) b.choice.pair.left (K.rank b.choice.pair.separator) b.choice.pair.right (view pass.new))) }
    ensures edit { IfOk result (λ found. MatchOption found (Unit {0}) (λ b. (from to : ℕ) → Rises from to (pairs_of K.layout (K.words_of over.new))
        → TakesPair K.layout (K.words_of over.new) (K.edited (K.words_of over.new) b.choice.edit) (K.rank b.choice.pair.separator))) }
    ensures err { IfErr result (λ turn. (v : _) → IsParentOf K.layout v (K.rank key.now) up.now leaf.now.pid (view pass.old)
        → IsTurnedBeside K.layout v (K.rank key.now) turn (view pass.new)) }
    ensures sure { B.tells ≡ true → IsKnownNow up.now.pid up.now.word (view pass.old) → IsOk result }
    ensures known { B.tells ≡ true → IsKnownNow up.now.pid up.now.word (view pass.old) → IfOk result (λ found.
        MatchOption found (Unit {0}) (λ b. IsKnownNow b.guard.pid b.guard.word (view pass.new))
        × ((q x : ℕ) → MatchOption found (Unit {0}) (λ b. q ≢ b.guard.pid) → IsKnownNow q x (view pass.old) → IsKnownNow q x (view pass.new))) }
{
    K::read_all(up, words, pass, over);
    match choose::<K>(over, key, leaf.pid) {
        None => match up.validate_silently(words, pass) {
            Ok(()) => Ok(None),
            Err(saw) => Err(Turn::Again(saw)),
        },
        Some(choice) => match enter(words, pass, up, choice.named) {
            Ok(guard) => Ok(Some(Neighbour { guard, choice })),
            Err(turn) => Err(turn),
        },
    }
}

/// Whether the leaf, with the words of `rest`, and its neighbour may become one.
fn fits<K: Merges>(behind: bool, rest: &K::Page, other: &K::Page) -> bool
    ensures { IsAnswer result (size K.layout (as_one K.layout behind (K.words_of rest.now) (K.words_of other.now)) ≤ K.layout.merge_room) }
{
    if behind {
        return K::may_join(rest, other);
    }
    K::may_join(other, rest)
}

/// Reads the neighbour whole, into `other`, and judges whether both may become one; where they may not, it is validated.
fn judge<K: Merges, B: Block>(
    words: &Words<TreeOf<K>, B>,
    pass: &mut Pass<TreeOf<K>>,
    up: &OptGuard,
    leaf: &OptGuard,
    key: &K::Key,
    rest: &K::Page,
    over: &K::Page,
    other: &mut K::Page,
    found: Neighbour<K::Key, K::Edit>,
) -> Result<Option<Neighbour<K::Key, K::Edit>>, Turn>
    requires ready { IsReadyOn words.now B.tells pass.old }
    requires size { length (K.words_of other.old) ≡ K.layout.words }
    requires sparse { 4 * size K.layout (node_of K.layout (K.words_of rest.now)) ≤ K.layout.room }
    requires below { version_of up.now.word ≢ MAX_VERSION }
    requires beside { (v : _) × IsNeighbour K.layout v (K.rank key.now) up.now leaf.now.pid (K.words_of over.now) found.guard found.choice.behind
        (K.rank found.choice.pair.low) found.choice.pair.left (K.rank found.choice.pair.separator) found.choice.pair.right (view pass.old) }
    ensures size { length (K.words_of other.new) ≡ K.layout.words }
    ensures goes { GoesOn words.now B.tells pass.old pass.new }
    ensures others { IfOk result (λ _. (q : ℕ) → q ≢ found.guard.pid → LeavesBeside q (view pass.old) (view pass.new)) }
    ensures none { IfOk result (λ r. (v : _) → IsNeighbour K.layout v (K.rank key.now) up.now leaf.now.pid (K.words_of over.now) found.guard found.choice.behind
        (K.rank found.choice.pair.low) found.choice.pair.left (K.rank found.choice.pair.separator) found.choice.pair.right (view pass.old) → r ≡ None
        → IsUnmerged K.layout v (K.rank key.now) leaf.now.pid (K.words_of rest.now) (view pass.new)) }
    ensures some { IfOk result (λ r. (v : _) → IsNeighbour K.layout v (K.rank key.now) up.now leaf.now.pid (K.words_of over.now) found.guard found.choice.behind
        (K.rank found.choice.pair.low) found.choice.pair.left (K.rank found.choice.pair.separator) found.choice.pair.right (view pass.old) → MatchOption r (Unit {0})
        (λ b. IsToMerge K.layout v (K.rank key.now) up.now leaf.now.pid (K.words_of over.now) (K.words_of rest.now) b.guard (K.words_of other.new) b.choice.behind
        (K.rank b.choice.pair.low) b.choice.pair.left (K.rank b.choice.pair.separator) b.choice.pair.right (view pass.new))) }
    ensures same { IfOk result (λ r. MatchOption r (Unit {0}) (λ b. b ≡ found)) }
    ensures err { IfErr result (λ turn. (v : _) → IsNeighbour K.layout v (K.rank key.now) up.now leaf.now.pid (K.words_of over.now) found.guard found.choice.behind
        (K.rank found.choice.pair.low) found.choice.pair.left (K.rank found.choice.pair.separator) found.choice.pair.right (view pass.old)
        → IsTurnedBeside K.layout v (K.rank key.now) turn (view pass.new)) }
    ensures sure { IsKnownNow found.guard.pid found.guard.word (view pass.old) → IsOk result }
    ensures known { IfOk result (λ _. (q x : ℕ) → IsKnownNow q x (view pass.old) → IsKnownNow q x (view pass.new)) }
{
    if is_last(&found.guard) {
        return Ok(None);
    }
    K::read_all(&found.guard, words, pass, other);
    if fits::<K>(found.choice.behind, rest, other) {
        return Ok(Some(found));
    }
    match found.guard.validate_silently(words, pass) {
        Ok(()) => Ok(None),
        Err(saw) => Err(Turn::Again(saw)),
    }
}

/// The neighbour of the leaf, where the two may become one once the leaf has the words of `rest`: the parent's words are read into `over`, the neighbour's into `other`. None
/// where a condition for that is not met, or the leaf is at the last version.
pub fn neighbour_to_join<K: Merges, B: Block>(
    words: &Words<TreeOf<K>, B>,
    pass: &mut Pass<TreeOf<K>>,
    up: &OptGuard,
    leaf: &OptGuard,
    key: &K::Key,
    rest: &K::Page,
    over: &mut K::Page,
    other: &mut K::Page,
) -> Result<Option<Neighbour<K::Key, K::Edit>>, Turn>
    requires ready { IsReadyOn words.now B.tells pass.old }
    requires size { (length (K.words_of over.old) ≡ K.layout.words) × (length (K.words_of other.old) ≡ K.layout.words) }
    requires parent { (v : _) × IsParentOf K.layout v (K.rank key.now) up.now leaf.now.pid (view pass.old) }
    ensures size { (length (K.words_of over.new) ≡ K.layout.words) × (length (K.words_of other.new) ≡ K.layout.words) }
    ensures goes { GoesOn words.now B.tells pass.old pass.new }
    ensures beside { IfOk result (λ _. (q : ℕ) → (q ≡ leaf.now.pid) ⊎ (q ≡ 0) → LeavesBeside q (view pass.old) (view pass.new)) }
    ensures stays { IfOk result (λ _. (v : _) → IsParentOf K.layout v (K.rank key.now) up.now leaf.now.pid (view pass.old)
        → IsParentOf K.layout v (K.rank key.now) up.now leaf.now.pid (view pass.new)) }
    ensures none { IfOk result (λ found. (v : _) → IsParentOf K.layout v (K.rank key.now) up.now leaf.now.pid (view pass.old) → found ≡ None
        → IsUnmerged K.layout v (K.rank key.now) leaf.now.pid (K.words_of rest.now) (view pass.new) ⊎ (version_of leaf.now.word ≡ MAX_VERSION)) }
    ensures some { IfOk result (λ found. (v : _) → IsParentOf K.layout v (K.rank key.now) up.now leaf.now.pid (view pass.old) → MatchOption found (Unit {0})
        (λ b. IsToMerge K.layout v (K.rank key.now) up.now leaf.now.pid (K.words_of over.new) (K.words_of rest.now) b.guard (K.words_of other.new) b.choice.behind
        (K.rank b.choice.pair.low) b.choice.pair.left (K.rank b.choice.pair.separator) b.choice.pair.right (view pass.new) × (version_of leaf.now.word ≢ MAX_VERSION))) }
    ensures edit { IfOk result (λ found. MatchOption found (Unit {0}) (λ b. (from to : ℕ) → Rises from to (pairs_of K.layout (K.words_of over.new))
        → TakesPair K.layout (K.words_of over.new) (K.edited (K.words_of over.new) b.choice.edit) (K.rank b.choice.pair.separator))) }
    ensures err { IfErr result (λ turn. (v : _) → IsParentOf K.layout v (K.rank key.now) up.now leaf.now.pid (view pass.old)
        → IsTurnedBeside K.layout v (K.rank key.now) turn (view pass.new)) }
    ensures sure { B.tells ≡ true → IsKnownNow up.now.pid up.now.word (view pass.old) → IsOk result }
    ensures known { B.tells ≡ true → IsKnownNow up.now.pid up.now.word (view pass.old) → IfOk result (λ found.
        MatchOption found (Unit {0}) (λ b. IsKnownNow b.guard.pid b.guard.word (view pass.new))
        × ((q x : ℕ) → (q ≡ up.now.pid) ⊎ ((q ≡ leaf.now.pid) ⊎ (q ≡ 0)) → IsKnownNow q x (view pass.old) → IsKnownNow q x (view pass.new))) }
{
    if !K::is_sparse(rest) {
        return Ok(None);
    }
    if is_last(leaf) {
        return Ok(None);
    }
    if is_last(up) {
        return Ok(None);
    }
    let found = match find_neighbour(words, pass, up, leaf, key, over) {
        Ok(found) => found,
        Err(turn) => return Err(turn),
    };
    match found {
        None => Ok(None),
        Some(beside) => judge(words, pass, up, leaf, key, rest, over, other, beside),
    }
}
