// The reads that never wait: each answers, or says why it is to be tried again.
ghost use Rattle.std.specs.Prelude.{◌*◌, ◌+◌, ◌≡◌, ◌≤◌, IfErr, IfOk, IsOk, List, min, true, ℕ};
ghost use Rattle.vm_map.specs.Map.{lookup_at, Rises};
ghost use Rattle.vm_map.specs.declared.call.Call.TheVariants.{Get, Window as ForWindow};
ghost use Rattle.vm_map.specs.declared.call.Reply.TheVariants.{Got};
ghost use Rattle.vm_tree_model.specs.Page.{pairs_of};
ghost use Rattle.vm_node.specs.{Loads.IsPageWith, Shows.ShowsFirst};
ghost use Rattle.vm_tree_rule.specs.from_vm_step.Prelude.{GoesOn, IsReadyOn, view};
ghost use Rattle.vm_pool.specs.from_vm_guard.Guards.{IsReading};
ghost use Rattle.vm_tree_rule.specs.{Resident.KnowsResident, Turns.IsTurnedBack};
ghost use Rattle.vm_tree_rule.specs.Few.{LoadsHeight, LoadsWithin, ReadsInPlace};
ghost use Rattle.vm_tree_read.specs.Reads.{IsAnswered, IsDone, IsDoneInKind, IsTried, says_window};
ghost use Rattle.vm_map.specs.declared.window.Window.{Window};

use crate::answer::{answer, leaf_at};
use vm_block::Block;
use vm_map::call::Reply;
use vm_map::window::MOST_PAIRS;
use vm_pool::guard::OptGuard;
use vm_pool::rule::{Pass, Words};
use vm_tree_rule::kind::{Kind, Ranges, TreeOf, Windows};
use vm_tree_rule::step::{Saw, frame_place};
use vm_tree_rule::{InPlace, Turn};

/// What a try of a read answers.
#[derive(Debug, Drop)]
pub enum TryRead {
    /// The reply, at the step that validated the leaf.
    Done(Reply),
    /// A page's word had changed, or the page was Locked: the call may be tried again.
    Again(Saw),
    /// This page is Evicted: it has to be brought in first. It is page 0, or a page on the way names it.
    Need(u32),
    /// The words of this page are not what the way to it says. Never where blocks tell their words.
    Damaged(u32),
}

/// Why there is no answer yet.
fn not_yet<K: Kind>(turn: Turn) -> TryRead
    ensures tried { (call : _) (key : _) (v w : _) → IsTurnedBack K.layout v key turn w → IsTried K.plain K.layout call key result v w }
    ensures kind { (call : _) → IsDoneInKind call result }
    ensures unanswered { ¬ (IsDone result) }
{
    match turn {
        Turn::Again(saw) => TryRead::Again(saw),
        Turn::Need(pid) => TryRead::Need(pid),
        Turn::Damaged(pid) => TryRead::Damaged(pid),
    }
}

/// The value at the key in the page under the guard, found where it stands.
pub fn find_in_place<K: Kind, B: Block>(
    words: &Words<TreeOf<K>, B>,
    pass: &mut Pass<TreeOf<K>>,
    guard: &OptGuard,
    key: &K::Key,
) -> Option<u64>
    requires ready { IsReadyOn words.now B.tells pass.old }
    requires reading { IsReading guard.now.pid guard.now.word guard.now.frame (view pass.old) }
    ensures goes { GoesOn words.now B.tells pass.old pass.new }
    ensures found { ReadsInPlace guard.now.pid guard.now.word guard.now.frame K.bounds.find (view pass.old) (view pass.new) (λ loaded.
        (page : List ℕ) → IsPageWith K.layout.words loaded page → (low high : ℕ) → Rises low high (pairs_of K.layout page)
        → result ≡ lookup_at (pairs_of K.layout page) (K.rank key.now)) }
{
    let mut place = InPlace {
        words,
        pass: &mut *pass,
        guard,
        first: frame_place(words, guard.frame),
    };
    K::find_at(&mut place, key)
}

/// The call of a window with what the page under the guard shows from the key `start` on, found where it stands.
fn window_in_place<K: Windows, B: Block>(
    words: &Words<TreeOf<K>, B>,
    pass: &mut Pass<TreeOf<K>>,
    guard: &OptGuard,
    start: &K::Key,
    most: u32,
) -> K::Said
    requires ready { IsReadyOn words.now B.tells pass.old }
    requires reading { IsReading guard.now.pid guard.now.word guard.now.frame (view pass.old) }
    ensures goes { GoesOn words.now B.tells pass.old pass.new }
    ensures found { (shown : Window) × (K.plain result ≡ says_window (K.rank start.now) most shown)
        × ReadsInPlace guard.now.pid guard.now.word guard.now.frame (K.window_each * min most MOST_PAIRS + K.window_most) (view pass.old) (view pass.new)
        (λ loaded. (page : List ℕ) → IsPageWith K.layout.words loaded page → ShowsFirst K.layout page (K.rank start.now) most shown) }
{
    let mut place = InPlace {
        words,
        pass: &mut *pass,
        guard,
        first: frame_place(words, guard.frame),
    };
    K::window_at(&mut place, start, most)
}

/// The value at the key, or why there is none to tell yet. A reply has room for a window's pairs, so it is made where it is handed on, and not here.
pub(crate) fn look_up<K: Kind, B: Block>(
    words: &Words<TreeOf<K>, B>,
    pass: &mut Pass<TreeOf<K>>,
    key: &K::Key,
) -> Result<Option<u64>, Turn>
    requires ready { IsReadyOn words.now B.tells pass.old }
    requires pages { 1 ≤ words.now.table.shared.key.pages }
    ensures goes { GoesOn words.now B.tells pass.old pass.new }
    ensures ok { IfOk result (λ value. IsAnswered K.plain K.layout (record { call = Get (K.rank key.now); reply = Got value }) (view pass.old) (view pass.new)) }
    ensures err { IfErr result (λ turn. IsTurnedBack K.layout (view pass.old) (K.rank key.now) turn (view pass.new)) }
    ensures sure { B.tells ≡ true → KnowsResident (view pass.old) → IsOk result }
    ensures known { B.tells ≡ true → KnowsResident (view pass.old) → KnowsResident (view pass.new) }
    ensures few { LoadsWithin (λ h. 2 + K.bounds.child * h + (1 + K.bounds.fences + K.bounds.find)) (view pass.old) (view pass.new) }
    ensures height { IfOk result (λ _. (h : ℕ) × LoadsHeight (2 + K.bounds.child * h + (1 + K.bounds.fences + K.bounds.find)) h (view pass.old) (view pass.new)) }
{
    let guard = match leaf_at(words, pass, key) {
        Ok(guard) => guard,
        Err(turn) => return Err(turn),
    };
    let value = find_in_place(words, pass, &guard, key);
    let said = K::got(key, value);
    match answer(words, pass, &guard, &said) {
        Ok(()) => Ok(value),
        Err(saw) => Err(Turn::Again(saw)),
    }
}

/// The value at the key. Two words of page 0 are loaded, of each inner node those of a search for a child at most, and of the leaf its tag, its fences and
/// those of a search for the value.
pub fn try_get<K: Kind, B: Block>(
    words: &Words<TreeOf<K>, B>,
    pass: &mut Pass<TreeOf<K>>,
    key: &K::Key,
) -> TryRead
    requires ready { IsReadyOn words.now B.tells pass.old }
    requires pages { 1 ≤ words.now.table.shared.key.pages }
    ensures goes { GoesOn words.now B.tells pass.old pass.new }
    ensures tried { IsTried K.plain K.layout (Get (K.rank key.now)) (K.rank key.now) result (view pass.old) (view pass.new) }
    ensures kind { IsDoneInKind (Get (K.rank key.now)) result }
    ensures sure { B.tells ≡ true → KnowsResident (view pass.old) → IsDone result }
    ensures known { B.tells ≡ true → KnowsResident (view pass.old) → KnowsResident (view pass.new) }
    ensures few { LoadsWithin (λ h. 2 + K.bounds.child * h + (1 + K.bounds.fences + K.bounds.find)) (view pass.old) (view pass.new) }
    ensures height { IsDone result → (h : ℕ) × LoadsHeight (2 + K.bounds.child * h + (1 + K.bounds.fences + K.bounds.find)) h (view pass.old) (view pass.new) }
{
    match look_up(words, pass, key) {
        Ok(value) => TryRead::Done(Reply::Got(value)),
        Err(turn) => not_yet::<K>(turn),
    }
}

/// A window with its reply, or why there is none to tell yet. `window_most` words are loaded of the leaf, and `window_each` for each pair.
pub fn show_window<K: Windows, B: Block>(
    words: &Words<TreeOf<K>, B>,
    pass: &mut Pass<TreeOf<K>>,
    start: &K::Key,
    most: u32,
) -> Result<K::Said, Turn>
    requires ready { IsReadyOn words.now B.tells pass.old }
    requires pages { 1 ≤ words.now.table.shared.key.pages }
    requires most { 1 ≤ most }
    ensures goes { GoesOn words.now B.tells pass.old pass.new }
    ensures ok { IfOk result (λ said. (shown : Window) × (K.plain said ≡ says_window (K.rank start.now) most shown)
        × IsAnswered K.plain K.layout (says_window (K.rank start.now) most shown) (view pass.old) (view pass.new)) }
    ensures err { IfErr result (λ turn. IsTurnedBack K.layout (view pass.old) (K.rank start.now) turn (view pass.new)) }
    ensures sure { B.tells ≡ true → KnowsResident (view pass.old) → IsOk result }
    ensures known { B.tells ≡ true → KnowsResident (view pass.old) → KnowsResident (view pass.new) }
    ensures few { LoadsWithin (λ h. 2 + K.bounds.child * h + (1 + K.bounds.fences + (K.window_each * min most MOST_PAIRS + K.window_most))) (view pass.old) (view pass.new) }
    ensures height { IfOk result (λ _. (h : ℕ) × LoadsHeight (2 + K.bounds.child * h + (1 + K.bounds.fences + (K.window_each * min most MOST_PAIRS + K.window_most))) h (view pass.old) (view pass.new)) }
{
    let guard = match leaf_at(words, pass, start) {
        Ok(guard) => guard,
        Err(turn) => return Err(turn),
    };
    let said = window_in_place(words, pass, &guard, start, most);
    match answer(words, pass, &guard, &said) {
        Ok(()) => Ok(said),
        Err(saw) => Err(Turn::Again(saw)),
    }
}

/// The first pairs from the key `start` on, at most `most` (1 or more) of them and at most those of one leaf. As many words are loaded on the way as by a
/// look-up, and of the leaf `window_each` for each pair, and `window_most` more.
pub fn try_window<K: Ranges, B: Block>(
    words: &Words<TreeOf<K>, B>,
    pass: &mut Pass<TreeOf<K>>,
    start: &K::Key,
    most: u32,
) -> TryRead
    requires ready { IsReadyOn words.now B.tells pass.old }
    requires pages { 1 ≤ words.now.table.shared.key.pages }
    requires most { 1 ≤ most }
    ensures goes { GoesOn words.now B.tells pass.old pass.new }
    ensures tried { IsTried K.plain K.layout (ForWindow (K.rank start.now) most) (K.rank start.now) result (view pass.old) (view pass.new) }
    ensures kind { IsDoneInKind (ForWindow (K.rank start.now) most) result }
    ensures sure { B.tells ≡ true → KnowsResident (view pass.old) → IsDone result }
    ensures known { B.tells ≡ true → KnowsResident (view pass.old) → KnowsResident (view pass.new) }
    ensures few { LoadsWithin (λ h. 2 + K.bounds.child * h + (1 + K.bounds.fences + (K.window_each * min most MOST_PAIRS + K.window_most))) (view pass.old) (view pass.new) }
    ensures height { IsDone result → (h : ℕ) × LoadsHeight (2 + K.bounds.child * h + (1 + K.bounds.fences + (K.window_each * min most MOST_PAIRS + K.window_most))) h (view pass.old) (view pass.new) }
{
    match show_window(words, pass, start, most) {
        Ok(said) => TryRead::Done(K::reply_of(said)),
        Err(turn) => not_yet::<K>(turn),
    }
}
