// Leaves of the tree that are held together, each by a share: at the last of these locks their pairs are those of the map.
//
// A try never waits, so it never waits while it holds: a descent takes no lock, a share that is refused ends the try, and all shares are given up
// before it answers. So tries that hold leaves of one another, and writers that upgrade, can't wait for each other.
ghost use Rattle.std.specs.Prelude.{◌*◌, ◌+◌, ◌<◌, ◌≡◌, ◌≤◌, IfErr, IfOk, IsOk, length, List, MatchOption, None, true, ℕ};
ghost use Rattle.vm_map.specs.{History.bound_of, Keys.KEY_END};
ghost use Rattle.vm_map.specs.declared.call.Call.TheVariants.{Range};
ghost use Rattle.vm_map.specs.declared.call.Reply.TheVariants.{Many};
ghost use Rattle.vm_node.specs.{Loads.IsPageWith, Shows.AppendsRange};
ghost use Rattle.vm_step.specs.Prelude.{GoesOn, IsReadyOn, NoneExpected, view};
ghost use Rattle.vm_tree_read.specs.from_vm_guard.{Guards.IsReading, Denied.IsDenied, Denied.KeptWord, Denied.NotWorn};
ghost use Rattle.vm_tree_read.specs.from_vm_tree_rule.{Few.ReadsInPlace, Resident.IsReadNow, Resident.KnowsReadable, Seeks.HasLoaded};
ghost use Rattle.vm_tree_laws.specs.May.{MOST_LEAVES};
ghost use Rattle.vm_tree_range.specs.Ranges.{DenyAnswers, HasGathered, HoldsLeaves, IsMany, IsOnTheWay, IsRangeDone};
ghost use Rattle.vm_tree_range.specs.Ranges.{IsRangeFinal, IsTriedRange, LeavesShares, TellRange, TurnAnswers};

use vm_block::Block;
use vm_map::call::Reply;
use vm_map::span::Span;
use vm_map::window::Bound;
use vm_rule::words::{Pass, Words};
use vm_step::{Saw, frame_place};
use vm_tree_read::answer::leaf_at;
use vm_tree_read::guard::{Deny, OptGuard};
use vm_tree_read::kind::{Kind, Ranges, TreeOf};
use vm_tree_read::tree_rule::{InPlace, Turn};

/// How many leaves are held together at most.
pub const LEAVES: u32 = 16;

/// What a try of a range answers.
#[derive(Debug, Drop)]
pub enum TryRange {
    /// All pairs of the range, at the step that locked the last leaf: how many.
    Done(usize),
    /// Sixteen leaves were held, and cover the range up to this key, which is below its bound.
    TooWide { reach: u64 },
    /// A page's word had changed, or the page was Locked: the call may be tried again. Where blocks do not tell their words, also: the words of a page
    /// are no tree's.
    Again(Saw),
    /// This page is Evicted: it has to be brought in first.
    Need(u32),
    /// This leaf has as many shares as there can be.
    Crowded(u32),
    /// The words of this page are not what the way to it says. Never where blocks tell their words.
    Damaged(u32),
}

// Why a descent ended.
fn of_turn(turn: Turn) -> TryRange
    ensures { TurnAnswers turn result }
{
    match turn {
        Turn::Again(saw) => TryRange::Again(saw),
        Turn::Need(pid) => TryRange::Need(pid),
        Turn::Damaged(pid) => TryRange::Damaged(pid),
    }
}

// Why a share was denied.
fn of_denied(deny: Deny) -> TryRange
    requires { NotWorn deny }
    ensures { DenyAnswers deny result }
{
    match deny {
        Deny::Again(saw) => TryRange::Again(saw),
        Deny::Need(pid) => TryRange::Need(pid),
        Deny::Crowded(pid) => TryRange::Crowded(pid),
        Deny::Worn(_) => unreachable!(),
    }
}

// The key up to which a leaf with this high fence reaches, where that is below the bound.
fn reach_below(high: Bound, bound: Bound) -> Option<u64>
    ensures { MatchOption result (bound_of bound ≤ bound_of high) (λ reach. (reach ≡ bound_of high) × (reach < bound_of bound) × (reach < KEY_END)) }
{
    match high {
        Bound::End => None,
        Bound::Key(reach) => bound.is_above(reach).then_some(reach),
    }
}

/// Appends the pairs of the page under the guard that lie in the range, found where they stand, and answers its high fence.
fn gather_in_place<K: Ranges, B: Block>(
    words: &Words<TreeOf<K>, B>,
    pass: &mut Pass<TreeOf<K>>,
    guard: &OptGuard,
    from: &K::Key,
    bound: Bound,
    out: &mut Span,
) -> Bound
    requires ready { IsReadyOn words.now B.tells pass.old }
    requires reading { IsReading guard.now.pid guard.now.word guard.now.frame (view pass.old) }
    requires room { K.pairs_most ≤ out.old.1 }
    ensures goes { GoesOn words.now B.tells pass.old pass.new }
    ensures found { ReadsInPlace guard.now.pid guard.now.word guard.now.frame (2 * K.pairs_most + 3) (view pass.old) (view pass.new) (λ loaded.
        (page : List ℕ) → IsPageWith K.layout.words loaded page → AppendsRange K.layout page (K.rank from.now) bound out.old.0 out.new.0 result) }
    ensures room { out.old.1 ≤ out.new.1 + K.pairs_most }
    ensures kept { out.new.1 + length out.new.0 ≡ out.old.1 + length out.old.0 }
{
    let mut place = InPlace {
        words,
        pass: &mut *pass,
        guard,
        first: frame_place(words, guard.frame),
    };
    K::range_at(&mut place, from, bound, out)
}

/// Holds the last leaf of a range at the guard's version, makes what all that are held prove an entry of the history there, and gives the leaf up.
fn share_last<K: Kind, B: Block>(
    words: &Words<TreeOf<K>, B>,
    pass: &mut Pass<TreeOf<K>>,
    guard: OptGuard,
    said: &K::Said,
) -> Result<(), Deny>
    requires ready { IsReadyOn words.now B.tells pass.old }
    requires reading { IsReading guard.pid guard.word guard.frame (view pass.old) }
    requires home { (view pass.old).out ≡ None }
    requires proves { (held : List ℕ) × (length held < MOST_LEAVES) × (low : ℕ) × (from : ℕ) × (loaded : List (ℕ × ℕ))
        × HoldsLeaves K.layout held low from (view pass.old) × HasLoaded (view pass.old) guard.pid loaded
        × TellRange K.layout held loaded (K.plain said.now) (view pass.old) }
    ensures goes { GoesOn words.now B.tells pass.old pass.new }
    ensures steps { LeavesShares (view pass.old) (view pass.new) }
    ensures ok { IfOk result (λ _. IsRangeDone K.plain K.layout (K.plain said.now) (view pass.old) (view pass.new)) }
    ensures err { IfErr result (λ deny. IsDenied NotWorn (KeptWord guard.word) NoneExpected guard.pid deny (view pass.old) (view pass.new)) }
    ensures sure { (shares : ℕ → ℕ) → shares guard.pid < 252 → IsReadNow shares guard.pid guard.word (view pass.old) → IsOk result }
    ensures known { (shares : ℕ → ℕ) → shares guard.pid < 252 → IsReadNow shares guard.pid guard.word (view pass.old) → KnowsReadable shares (view pass.new) }
{
    match guard.share(words, pass, Some(said)) {
        Ok(last) => {
            last.drop_with(words, pass);
            Ok(())
        }
        Err(deny) => Err(deny),
    }
}

/// The pairs of what was said.
fn pairs_said<K: Ranges>(said: K::Said) -> Span
    requires { IsMany (K.plain said).reply }
    ensures { (K.plain said).reply ≡ Many result }
{
    let Reply::Many(pairs) = K::reply_of(said) else {
        unreachable!()
    };
    pairs
}

/// The same with all pairs of the range, which are in `out`.
fn share_with_all<K: Ranges, B: Block>(
    words: &Words<TreeOf<K>, B>,
    pass: &mut Pass<TreeOf<K>>,
    guard: OptGuard,
    low: &K::Key,
    bound: Bound,
    out: &mut Span,
) -> Result<(), Deny>
    requires ready { IsReadyOn words.now B.tells pass.old }
    requires reading { IsReading guard.pid guard.word guard.frame (view pass.old) }
    requires home { (view pass.old).out ≡ None }
    requires proves { (held : List ℕ) × (length held < MOST_LEAVES) × (from : ℕ) × (loaded : List (ℕ × ℕ))
        × HoldsLeaves K.layout held (K.rank low.now) from (view pass.old) × HasLoaded (view pass.old) guard.pid loaded
        × TellRange K.layout held loaded (record { call = Range (K.rank low.now) bound; reply = Many out.old }) (view pass.old) }
    ensures goes { GoesOn words.now B.tells pass.old pass.new }
    ensures steps { LeavesShares (view pass.old) (view pass.new) }
    ensures ok { IfOk result
        (λ _. IsRangeDone K.plain K.layout (record { call = Range (K.rank low.now) bound; reply = Many out.new }) (view pass.old) (view pass.new)) }
    ensures err { IfErr result (λ deny. IsDenied NotWorn (KeptWord guard.word) NoneExpected guard.pid deny (view pass.old) (view pass.new)) }
    ensures same { out.new ≡ out.old }
    ensures sure { (shares : ℕ → ℕ) → shares guard.pid < 252 → IsReadNow shares guard.pid guard.word (view pass.old) → IsOk result }
    ensures known { (shares : ℕ → ℕ) → shares guard.pid < 252 → IsReadNow shares guard.pid guard.word (view pass.old) → KnowsReadable shares (view pass.new) }
{
    let said = K::many(low, bound, out.take());
    let answer = share_last(words, pass, guard, &said);
    *out = pairs_said::<K>(said);
    answer
}

/// Holds the leaf that covers the key `from`, and those behind it, `left` leaves at most, and answers the range of all that are held. Those that the
/// pass holds already cover the range from `low` up to `from`, which is below its bound where it is not `low` itself, and their pairs are in `out`.
pub(crate) fn hold_from<K: Ranges, B: Block>(
    words: &Words<TreeOf<K>, B>,
    pass: &mut Pass<TreeOf<K>>,
    low: &K::Key,
    bound: Bound,
    from: &K::Key,
    left: u32,
    out: &mut Span,
) -> TryRange
    requires ready { IsReadyOn words.now B.tells pass.old }
    requires pages { 1 ≤ words.now.table.shared.key.pages }
    requires home { (view pass.old).out ≡ None }
    requires some { 1 ≤ left }
    requires room { K.pairs_most * left ≤ out.old.1 }
    requires way { IsOnTheWay (K.rank low.now) bound (K.rank from.now) (view pass.old) }
    requires held { (held : List ℕ) × (length held + left ≡ MOST_LEAVES)
        × HoldsLeaves K.layout held (K.rank low.now) (K.rank from.now) (view pass.old)
        × HasGathered K.layout held (K.rank low.now) bound out.old.0 (view pass.old) }
    ensures goes { GoesOn words.now B.tells pass.old pass.new }
    ensures steps { LeavesShares (view pass.old) (view pass.new) }
    ensures tried { IsTriedRange K.plain K.layout (K.rank low.now) bound result out.new (view pass.old) (view pass.new) }
    ensures kept { out.new.1 + length out.new.0 ≡ out.old.1 + length out.old.0 }
    ensures sure { (shares : ℕ → ℕ) → B.tells ≡ true → ((q : ℕ) → shares q + left ≤ MOST_LEAVES) → KnowsReadable shares (view pass.old) → IsRangeFinal result }
    ensures known { (shares : ℕ → ℕ) → B.tells ≡ true → ((q : ℕ) → shares q + left ≤ MOST_LEAVES) → KnowsReadable shares (view pass.old)
        → KnowsReadable shares (view pass.new) }
{
    let guard = match leaf_at(words, pass, from) {
        Ok(guard) => guard,
        Err(turn) => return of_turn(turn),
    };
    let high = gather_in_place(words, pass, &guard, from, bound, out);
    let Some(reach) = reach_below(high, bound) else {
        return match share_with_all(words, pass, guard, low, bound, out) {
            Ok(()) => TryRange::Done(out.len()),
            Err(deny) => of_denied(deny),
        };
    };
    if left == 1 {
        let said = K::wide(low, bound, reach);
        match share_last(words, pass, guard, &said) {
            Ok(()) => {}
            Err(deny) => return of_denied(deny),
        }
        return TryRange::TooWide { reach };
    }
    let shared = match guard.share_silently(words, pass) {
        Ok(shared) => shared,
        Err(deny) => return of_denied(deny),
    };
    let next = K::key_of(reach);
    let answer = hold_from(words, pass, low, bound, &next, left - 1, out);
    shared.drop_with(words, pass);
    answer
}
