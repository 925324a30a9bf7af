// The search for the first full node on the way of a key, from the root on.
ghost use Rattle.std.specs.Prelude.{◌*◌, ◌+◌, ◌≡◌, ◌≤◌, IfErr, IfOk, IsOk, length, List, true, ℕ};
ghost use Rattle.vm_step.specs.Prelude.{GoesOn, IsReadyOn, view};
ghost use Rattle.vm_kind.specs.from_vm_guard.{Guards.IsReading, PageWords.LoadsWords};
ghost use Rattle.vm_tree_rule.specs.{Leaves.ReadsOn, Turns.IsTurnedBack};
ghost use Rattle.vm_tree_rule.specs.Few.{LoadsHeight, LoadsWithin, ReadsInPlace};
ghost use Rattle.vm_tree_rule.specs.Resident.{IsKnownNow, KnowsLocks, KnowsResident};
ghost use Rattle.vm_tree_rule.specs.Seeks.{HasLoaded, IsMet, IsReread, KnowsMet, most_for, TellSpare};
ghost use Rattle.vm_tree_rule.specs.Standing.{IsOpened};
ghost use Rattle.vm_tree_rule.specs.Ways.{IsOnWay};

use crate::descent::{enter_root, step};
use crate::in_place::InPlace;
use crate::turn::Turn;
use vm_block::Block;
use vm_kind::guard::OptGuard;
use vm_kind::{Pages, TreeOf};
use vm_rule::words::{Pass, Words};
use vm_step::frame_place;

/// What the search met first.
#[derive(Drop)]
pub enum Met {
    /// The root is full. Page 0 names it, at this height.
    Root {
        meta: OptGuard,
        root: OptGuard,
        height: u64,
    },
    /// This node is full, and its parent is not.
    Below {
        parent: OptGuard,
        node: OptGuard,
    },
    /// No node is full: this is the leaf.
    Roomy(OptGuard),
}

/// How much of its room the page under the guard has left, found where it stands.
fn spare_in_place<K: Pages, B: Block>(
    words: &Words<TreeOf<K>, B>,
    pass: &mut Pass<TreeOf<K>>,
    guard: &OptGuard,
) -> usize
    requires ready { IsReadyOn words.now B.tells pass.old }
    requires reading { IsReading guard.now.pid guard.now.word guard.now.frame (view pass.old) }
    ensures goes { GoesOn words.now B.tells pass.old pass.new }
    ensures found { ReadsInPlace guard.now.pid guard.now.word guard.now.frame K.bounds.spare (view pass.old) (view pass.new)
        (λ loaded. TellSpare K.layout K.spare loaded result) }
{
    let mut place = InPlace {
        words,
        pass: &mut *pass,
        guard,
        first: frame_place(words, guard.frame),
    };
    K::spare_at(&mut place)
}

/// Reads a page whole that was found to have so much of its room left, and validates it. It has as much on: where the words read whole have not, the
/// validation fails, or blocks do not tell their words.
fn reread<K: Pages, B: Block>(
    words: &Words<TreeOf<K>, B>,
    pass: &mut Pass<TreeOf<K>>,
    guard: &OptGuard,
    left: usize,
    into: &mut K::Page,
) -> Result<(), Turn>
    requires ready { IsReadyOn words.now B.tells pass.old }
    requires reading { IsReading guard.now.pid guard.now.word guard.now.frame (view pass.old) }
    requires size { length (K.words_of into.old) ≡ K.layout.words }
    requires counted { (loaded : List (ℕ × ℕ)) × HasLoaded (view pass.old) guard.now.pid loaded × TellSpare K.layout K.spare loaded left }
    ensures size { length (K.words_of into.new) ≡ K.layout.words }
    ensures goes { GoesOn words.now B.tells pass.old pass.new }
    ensures ok { IfOk result (λ _. IsReread K.layout guard.now.pid guard.now.word guard.now.frame (K.words_of into.new) (view pass.old) (view pass.new)) }
    ensures left { IfOk result (λ _. left ≡ K.spare (K.words_of into.new)) }
    ensures err { IfErr result (λ turn. (v : _) (key level low high : ℕ) → IsOpened v guard.now.pid guard.now.word guard.now.frame (view pass.old)
        → IsOnWay K.layout v key guard.now.pid level low high (view pass.old) → IsTurnedBack K.layout v key turn (view pass.new)) }
    ensures sure { B.tells ≡ true → IsKnownNow guard.now.pid guard.now.word (view pass.old) → IsOk result }
    ensures words { LoadsWords (K.words_of into.new) (view pass.old) (view pass.new) }
{
    K::read_all(guard, words, pass, into);
    match guard.validate_silently(words, pass) {
        Ok(()) => {
            if K::spare_of(into) == left {
                Ok(())
            } else {
                Err(Turn::Damaged(guard.pid))
            }
        }
        Err(saw) => Err(Turn::Again(saw)),
    }
}

/// The first full node from the root to the leaf of the key, with the page that names it, or the leaf where none is full. Pages are looked at where they
/// stand; once a node is full, its words are read into `page`, and those of its parent into `over`. The guards are still open.
pub fn seek_full<K: Pages, B: Block>(
    words: &Words<TreeOf<K>, B>,
    pass: &mut Pass<TreeOf<K>>,
    key: &K::Key,
    over: &mut K::Page,
    page: &mut K::Page,
) -> Result<Met, Turn>
    requires ready { IsReadyOn words.now B.tells pass.old }
    requires pages { 1 ≤ words.now.table.shared.key.pages }
    requires size { (length (K.words_of over.old) ≡ K.layout.words) × (length (K.words_of page.old) ≡ K.layout.words) }
    ensures size { (length (K.words_of over.new) ≡ K.layout.words) × (length (K.words_of page.new) ≡ K.layout.words) }
    ensures goes { GoesOn words.now B.tells pass.old pass.new }
    ensures reads { IfOk result (λ _. ReadsOn (view pass.old) (view pass.new)) }
    ensures met { IfOk result (λ m. IsMet K.layout K.spare (view pass.old) (K.rank key.now) m (K.words_of over.new) (K.words_of page.new) (view pass.new)) }
    ensures err { IfErr result (λ turn. IsTurnedBack K.layout (view pass.old) (K.rank key.now) turn (view pass.new)) }
    ensures sure { B.tells ≡ true → KnowsResident (view pass.old) → IsOk result }
    ensures known { B.tells ≡ true → KnowsResident (view pass.old) → IfOk result (λ m. KnowsMet m (view pass.new)) }
    ensures locks { IfOk result (λ _. KnowsLocks (view pass.new)) }
    ensures few { LoadsWithin (λ h. 2 + (K.bounds.child + K.bounds.spare) * (h + 1) + 2 * K.layout.words) (view pass.old) (view pass.new) }
    ensures height { IfOk result (λ m. (h : ℕ) × LoadsHeight (most_for K.bounds K.layout.words m h) h (view pass.old) (view pass.new)) }
{
    let top = match enter_root(words, pass, key) {
        Ok(top) => top,
        Err(turn) => return Err(turn),
    };
    let growth = K::growth();
    let mut stand = top.stand;
    let mut left = spare_in_place(words, pass, &stand.guard);
    if left < growth {
        if let Err(turn) = reread(words, pass, &stand.guard, left, page) {
            return Err(turn);
        }
        return Ok(Met::Root {
            meta: top.meta,
            root: stand.guard,
            height: stand.level,
        });
    }
    for _ in 0..stand.level {
        let below = match step(words, pass, &stand, key) {
            Ok(below) => below,
            Err(turn) => return Err(turn),
        };
        let next = spare_in_place(words, pass, &below.guard);
        if next < growth {
            if let Err(turn) = reread(words, pass, &stand.guard, left, over) {
                return Err(turn);
            }
            if let Err(turn) = reread(words, pass, &below.guard, next, page) {
                return Err(turn);
            }
            return Ok(Met::Below {
                parent: stand.guard,
                node: below.guard,
            });
        }
        stand = below;
        left = next;
    }
    Ok(Met::Roomy(stand.guard))
}
