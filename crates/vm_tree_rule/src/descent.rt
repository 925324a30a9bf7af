// The coupled descent: each page is looked at before the page that names it is validated, and read before it is left.
ghost use Rattle.std.specs.Prelude.{[], ◌*◌, ◌+◌, ◌<◌, ◌∷◌, ◌≡◌, ◌≢◌, ◌≤◌, IfErr, IfOk, IsOk, List, MatchOption, true, unwrap_or, ℕ};
ghost use Rattle.std.specs.Option.{option_map};
ghost use Rattle.vm_step.specs.Prelude.{GoesOn, IsReadyOn, ReadsAsBefore, view};
ghost use Rattle.vm_kind.specs.from_vm_guard.{Guards.IsReading, PageWords.LoadsWords};
ghost use Rattle.vm_tree_rule.specs.Leaves.{LeavesWord, ReadsOn};
ghost use Rattle.vm_tree_rule.specs.Few.{HasHeight, LoadsAtMost, LoadsHeight, LoadsWithin, ReadsInPlace};
ghost use Rattle.vm_tree_rule.specs.Seeks.{HasLoaded, IsMetaRead, IsNamedRoot, GoesPast, TellChild, TellChildIn, TellLevel, TellNoChild};
ghost use Rattle.vm_tree_rule.specs.Resident.{IsReadNow, KnowsLocks, KnowsReadable};
ghost use Rattle.vm_tree_rule.specs.Standing.{Awaits, AwaitsNode, fence_of, HasSteppedDown, IsOpened, IsStand, NamesNode, StaysOpen, tree_pages};
ghost use Rattle.vm_tree_rule.specs.Turns.{IsStopped, IsTurnedBack};
ghost use Rattle.vm_tree_rule.specs.Ways.{StandsOnWay};

use crate::in_place::InPlace;
use crate::turn::Turn;
use vm_block::Block;
use vm_kind::guard::OptGuard;
use vm_kind::inner::Fenced;
use vm_kind::{Kind, TreeOf};
use vm_rule::words::{Pass, Words};
use vm_step::frame_place;

/// Looks at the page that the parent's words name, and then validates the parent, whatever the look showed: words of a parent that stands no
/// longer name nobody to wait for. The parent's words are not validated before: where they name no page, the validation fails, or they are no
/// tree's.
pub fn enter<K: Kind, B: Block>(
    words: &Words<TreeOf<K>, B>,
    pass: &mut Pass<TreeOf<K>>,
    parent: &OptGuard,
    named: u64,
) -> Result<OptGuard, Turn>
    requires ready { IsReadyOn words.now B.tells pass.old }
    requires reading { IsReading parent.now.pid parent.now.word parent.now.frame (view pass.old) }
    requires names { (level low high : ℕ) × NamesNode K.layout (view pass.old) parent.now.pid parent.now.word named level low high }
    ensures goes { GoesOn words.now B.tells pass.old pass.new }
    ensures ok { IfOk result (λ guard. (guard.pid ≡ named)
        × HasSteppedDown K.layout parent.now.pid parent.now.word parent.now.frame guard.pid guard.word guard.frame (view pass.old) (view pass.new)) }
    ensures awaits { IfOk result (λ guard. (level low high : ℕ) → NamesNode K.layout (view pass.old) parent.now.pid parent.now.word named level low high
        → AwaitsNode K.layout (view pass.new) guard.pid guard.word level low high) }
    ensures pages { B.tells ≡ true → IfOk result (λ _. tree_pages (view pass.new) ≡ (view pass.new).start.pages) }
    ensures parent { IfOk result (λ guard. StaysOpen parent.now.pid parent.now.word parent.now.frame guard.pid (view pass.old) (view pass.new)) }
    ensures err { IfErr result (λ turn. IsStopped K.layout parent.now.pid parent.now.word parent.now.frame named turn (view pass.old) (view pass.new)) }
    ensures sure { (shares : ℕ → ℕ) → B.tells ≡ true → IsReadNow shares parent.now.pid parent.now.word (view pass.old) → IsOk result }
    ensures known { (shares : ℕ → ℕ) → B.tells ≡ true → IsReadNow shares parent.now.pid parent.now.word (view pass.old)
        → IfOk result (λ guard. IsReadNow shares guard.pid guard.word (view pass.new) × IsReadNow shares parent.now.pid parent.now.word (view pass.new)) }
    ensures locks { IfOk result (λ _. KnowsLocks (view pass.new)) }
    ensures others { IfOk result (λ guard. (q : ℕ) → q ≢ guard.pid
        → ReadsAsBefore (view pass.old) (view pass.new) q × LeavesWord q (view pass.old) (view pass.new)) }
    ensures not_zero { IfOk result (λ guard. guard.pid ≢ 0) }
    ensures beside { (shares : ℕ → ℕ) → B.tells ≡ true → IsReadNow shares parent.now.pid parent.now.word (view pass.old)
        → IfOk result (λ guard. (q x : ℕ) → q ≢ guard.pid → IsReadNow shares q x (view pass.old) → IsReadNow shares q x (view pass.new)) }
    ensures words { LoadsWords [] (view pass.old) (view pass.new) }
{
    let pages = words.pages as u64;
    if named == 0 || named >= pages || named == parent.pid as u64 {
        return match parent.validate_silently(words, pass) {
            Ok(()) => Err(Turn::Damaged(parent.pid)),
            Err(saw) => Err(Turn::Again(saw)),
        };
    }
    let pid = named as u32;
    let started = OptGuard::start(words, pass, pid);
    match parent.validate_silently(words, pass) {
        Ok(()) => match started {
            Ok(guard) => Ok(guard),
            Err(deny) => Err(Turn::of_denied(deny)),
        },
        Err(saw) => Err(Turn::Again(saw)),
    }
}

/// Where a descent stands: at a page whose open read began in this call, and which is a node of this level, with these fences, where blocks tell
/// their words. The high fence is the end of all keys where there is none.
#[derive(Drop)]
pub struct Stand<T> {
    pub guard: OptGuard,
    pub level: u64,
    pub low: T,
    pub high: Option<T>,
}

/// The high fence of a child: the next key of its node, or the node's high fence where there is none.
fn high_fence<K: Kind>(next: Option<K::Key>, high: &Option<K::Key>) -> Option<K::Key>
    ensures { fence_of K.layout K.rank result ≡ unwrap_or (option_map K.rank next) (fence_of K.layout K.rank high.now) }
{
    match next {
        Some(above) => Some(above),
        None => match high {
            Some(fence) => Some(K::same_key(fence)),
            None => None,
        },
    }
}

/// A step down from an inner node: searches it where it stands, and enters the child that covers the key. The node stays open.
pub(crate) fn step<K: Kind, B: Block>(
    words: &Words<TreeOf<K>, B>,
    pass: &mut Pass<TreeOf<K>>,
    stand: &Stand<K::Key>,
    key: &K::Key,
) -> Result<Stand<K::Key>, Turn>
    requires ready { IsReadyOn words.now B.tells pass.old }
    requires reading { IsReading stand.now.guard.pid stand.now.guard.word stand.now.guard.frame (view pass.old) }
    requires stands { IsStand K.layout K.rank (K.rank key.now) stand.now (view pass.old) }
    requires inner { 1 ≤ stand.now.level }
    ensures goes { GoesOn words.now B.tells pass.old pass.new }
    ensures reads { IfOk result (λ below. ReadsOn (view pass.old) (view pass.new)
        × IsOpened (view pass.old) below.guard.pid below.guard.word below.guard.frame (view pass.new)) }
    ensures level { IfOk result (λ below. below.level + 1 ≡ stand.now.level) }
    ensures stands { IfOk result (λ below. IsStand K.layout K.rank (K.rank key.now) below (view pass.new)) }
    ensures parent { IfOk result (λ below. (below.guard.pid ≢ stand.now.guard.pid)
        × ((v : _) → IsOpened v stand.now.guard.pid stand.now.guard.word stand.now.guard.frame (view pass.old)
        → IsOpened v stand.now.guard.pid stand.now.guard.word stand.now.guard.frame (view pass.new))) }
    ensures passed { IfOk result (λ below. GoesPast K.layout K.spare stand.now.guard.pid stand.now.guard.word stand.now.guard.frame (K.rank key.now)
        below.guard.pid (view pass.old) (view pass.new)) }
    ensures named { IfOk result (λ below. (loaded : List (ℕ × ℕ)) × HasLoaded (view pass.new) stand.now.guard.pid loaded
        × TellChild K.layout loaded (K.rank key.now) below.guard.pid) }
    ensures others { IfOk result (λ below. (q : ℕ) → q ≢ below.guard.pid → q ≢ stand.now.guard.pid
        → ReadsAsBefore (view pass.old) (view pass.new) q × LeavesWord q (view pass.old) (view pass.new)) }
    ensures not_zero { IfOk result (λ below. below.guard.pid ≢ 0) }
    ensures beside { (shares : ℕ → ℕ) → B.tells ≡ true → IsReadNow shares stand.now.guard.pid stand.now.guard.word (view pass.old)
        → IfOk result (λ below. (q x : ℕ) → q ≢ below.guard.pid → IsReadNow shares q x (view pass.old) → IsReadNow shares q x (view pass.new)) }
    ensures way { IfOk result (λ below. (v : _) → IsOpened v stand.now.guard.pid stand.now.guard.word stand.now.guard.frame (view pass.old)
        → StandsOnWay K.layout K.rank v (K.rank key.now) stand.now (view pass.old) → StandsOnWay K.layout K.rank v (K.rank key.now) below (view pass.new)) }
    ensures err { IfErr result (λ turn. (v : _) → IsOpened v stand.now.guard.pid stand.now.guard.word stand.now.guard.frame (view pass.old)
        → StandsOnWay K.layout K.rank v (K.rank key.now) stand.now (view pass.old) → IsTurnedBack K.layout v (K.rank key.now) turn (view pass.new)) }
    ensures sure { (shares : ℕ → ℕ) → B.tells ≡ true → IsReadNow shares stand.now.guard.pid stand.now.guard.word (view pass.old) → IsOk result }
    ensures known { (shares : ℕ → ℕ) → B.tells ≡ true → IsReadNow shares stand.now.guard.pid stand.now.guard.word (view pass.old)
        → IfOk result (λ below. IsReadNow shares below.guard.pid below.guard.word (view pass.new)
        × IsReadNow shares stand.now.guard.pid stand.now.guard.word (view pass.new)) }
    ensures locks { IfOk result (λ _. KnowsLocks (view pass.new)) }
    ensures few { LoadsAtMost K.bounds.child (view pass.old) (view pass.new) }
{
    match child_in_place(words, pass, &stand.guard, stand.level, key) {
        Some(child) => match enter(words, pass, &stand.guard, child.page) {
            Ok(guard) => Ok(Stand {
                guard,
                level: stand.level - 1,
                low: child.low,
                high: high_fence::<K>(child.next, &stand.high),
            }),
            Err(turn) => Err(turn),
        },
        None => match stand.guard.validate_silently(words, pass) {
            Ok(()) => Err(Turn::Damaged(stand.guard.pid)),
            Err(saw) => Err(Turn::Again(saw)),
        },
    }
}

/// The child that the words of the page name for the key, if they are of this level, found where they stand.
fn child_in_place<K: Kind, B: Block>(
    words: &Words<TreeOf<K>, B>,
    pass: &mut Pass<TreeOf<K>>,
    guard: &OptGuard,
    level: u64,
    key: &K::Key,
) -> Option<Fenced<K::Key>>
    requires ready { IsReadyOn words.now B.tells pass.old }
    requires reading { IsReading guard.now.pid guard.now.word guard.now.frame (view pass.old) }
    ensures goes { GoesOn words.now B.tells pass.old pass.new }
    ensures found { ReadsInPlace guard.now.pid guard.now.word guard.now.frame K.bounds.child (view pass.old) (view pass.new) (λ loaded.
        MatchOption result (TellNoChild K.layout loaded level (K.rank key.now))
        (λ child. TellChildIn K.layout loaded (K.rank key.now) child.page (K.rank child.low) (option_map K.rank child.next)
        × TellLevel K.layout loaded level)) }
    ensures sides { MatchOption result (Unit {0})
        (λ child. (K.rank child.low ≤ K.rank key.now) × MatchOption child.next (Unit {0}) (λ above. K.rank key.now < K.rank above)) }
{
    let mut place = InPlace {
        words,
        pass: &mut *pass,
        guard,
        first: frame_place(words, guard.frame),
    };
    K::child_at(&mut place, level, key)
}

/// Where a descent begins: page 0, and the root.
#[derive(Drop)]
pub(crate) struct Top<T> {
    pub(crate) meta: OptGuard,
    pub(crate) stand: Stand<T>,
}

/// Reads page 0, and enters the root. Where blocks do not tell their words, page 0 may tell any height: the root's own level, which is read next, then differs.
pub(crate) fn enter_root<K: Kind, B: Block>(
    words: &Words<TreeOf<K>, B>,
    pass: &mut Pass<TreeOf<K>>,
    key: &K::Key,
) -> Result<Top<K::Key>, Turn>
    requires ready { IsReadyOn words.now B.tells pass.old }
    requires pages { 1 ≤ words.now.table.shared.key.pages }
    ensures goes { GoesOn words.now B.tells pass.old pass.new }
    ensures ok { IfOk result (λ top. IsOpened (view pass.old) top.stand.guard.pid top.stand.guard.word top.stand.guard.frame (view pass.new)
        × IsStand K.layout K.rank (K.rank key.now) top.stand (view pass.new)) }
    ensures reads { IfOk result (λ _. ReadsOn (view pass.old) (view pass.new)) }
    ensures sure { (shares : ℕ → ℕ) → B.tells ≡ true → KnowsReadable shares (view pass.old) → IsOk result }
    ensures known { (shares : ℕ → ℕ) → B.tells ≡ true → KnowsReadable shares (view pass.old)
        → IfOk result (λ top. IsReadNow shares top.stand.guard.pid top.stand.guard.word (view pass.new) × IsReadNow shares top.meta.pid top.meta.word (view pass.new)) }
    ensures locks { IfOk result (λ _. KnowsLocks (view pass.new)) }
    ensures named { IfOk result (λ top. IsNamedRoot K.layout (view pass.old) top.stand.guard.pid (view pass.new)) }
    ensures way { IfOk result (λ top. StandsOnWay K.layout K.rank (view pass.old) (K.rank key.now) top.stand (view pass.new)) }
    ensures meta { IfOk result (λ top. IsMetaRead top.meta.pid top.meta.word top.meta.frame top.stand.guard.pid
        top.stand.level (view pass.old) (view pass.new)) }
    ensures err { IfErr result (λ turn. IsTurnedBack K.layout (view pass.old) (K.rank key.now) turn (view pass.new)) }
    ensures words { IfOk result (λ top. LoadsWords (top.stand.guard.pid ∷ top.stand.level ∷ []) (view pass.old) (view pass.new)) }
    ensures height { IfOk result (λ top. HasHeight top.stand.level (view pass.old) (view pass.new)) }
    ensures few { LoadsWithin (λ _. 2) (view pass.old) (view pass.new) }
{
    let meta = match OptGuard::start(words, pass, 0) {
        Ok(guard) => guard,
        Err(deny) => return Err(Turn::of_denied(deny)),
    };
    let root = meta.word(words, pass, 1);
    let level = meta.word(words, pass, 2);
    let guard = match enter(words, pass, &meta, root) {
        Ok(guard) => guard,
        Err(turn) => return Err(turn),
    };
    K::in_range(key);
    Ok(Top {
        meta,
        stand: Stand {
            guard,
            level,
            low: K::lowest(),
            high: None,
        },
    })
}

/// Descends to the leaf that covers the key, of which nothing is loaded yet. Its guard is still open: once it is validated, the words loaded through
/// it are those of a leaf with the fences told, which hold the key.
pub fn descend<K: Kind, B: Block>(
    words: &Words<TreeOf<K>, B>,
    pass: &mut Pass<TreeOf<K>>,
    key: &K::Key,
) -> Result<Stand<K::Key>, Turn>
    requires ready { IsReadyOn words.now B.tells pass.old }
    requires pages { 1 ≤ words.now.table.shared.key.pages }
    ensures goes { GoesOn words.now B.tells pass.old pass.new }
    ensures reads { IfOk result (λ leaf. ReadsOn (view pass.old) (view pass.new) × IsOpened (view pass.old) leaf.guard.pid leaf.guard.word leaf.guard.frame (view pass.new)) }
    ensures awaits { IfOk result (λ leaf. Awaits K.layout (view pass.new) leaf.guard.pid leaf.guard.word 0 (K.rank key.now)) }
    ensures level { IfOk result (λ leaf. leaf.level ≡ 0) }
    ensures stands { IfOk result (λ leaf. IsStand K.layout K.rank (K.rank key.now) leaf (view pass.new)) }
    ensures way { IfOk result (λ leaf. StandsOnWay K.layout K.rank (view pass.old) (K.rank key.now) leaf (view pass.new)) }
    ensures err { IfErr result (λ turn. IsTurnedBack K.layout (view pass.old) (K.rank key.now) turn (view pass.new)) }
    ensures sure { (shares : ℕ → ℕ) → B.tells ≡ true → KnowsReadable shares (view pass.old) → IsOk result }
    ensures known { (shares : ℕ → ℕ) → B.tells ≡ true → KnowsReadable shares (view pass.old) → IfOk result (λ leaf. IsReadNow shares leaf.guard.pid leaf.guard.word (view pass.new)) }
    ensures few { LoadsWithin (λ h. 2 + K.bounds.child * h) (view pass.old) (view pass.new) }
    ensures height { IfOk result (λ _. (h : ℕ) × LoadsHeight (2 + K.bounds.child * h) h (view pass.old) (view pass.new)) }
{
    let top = match enter_root(words, pass, key) {
        Ok(top) => top,
        Err(turn) => return Err(turn),
    };
    let mut stand = top.stand;
    for _ in 0..stand.level {
        match step(words, pass, &stand, key) {
            Ok(below) => stand = below,
            Err(turn) => return Err(turn),
        }
    }
    Ok(stand)
}
