// A round of a write that is tried until it is answered: one try, and what its answer asks for, as a page to be brought, or room to be made. A round
// never waits.
ghost use Rattle.std.specs.Prelude.{◌≡◌, None};
ghost use Rattle.vm_map.specs.declared.call.Reply.TheVariants.{Gone, Was};
ghost use Rattle.vm_tree_write.specs.from_vm_step.Prelude.{AreHeld, GoesOn, IsReadyOn, view};
ghost use Rattle.vm_tree_write.specs.from_vm_tree_read.Waiting.{LosesNone, RoundTells, Waits};
ghost use Rattle.vm_tree_write.specs.from_vm_tree_rule.Turns.{IsDamaged, IsNeeded};
ghost use Rattle.vm_tree_write.specs.from_vm_tree_split.{Splits.KeepsLocksOnly, Tries.IsTrySplit};
ghost use Rattle.vm_tree_write.specs.declared.write.TryWrite.TheVariants.{Done as Answered};
ghost use Rattle.vm_tree_write.specs.Writes.{HasKeyIn, HasValueIn, IsDel, IsPut, IsSwap, swap_reply};
ghost use Rattle.vm_tree_round.specs.Rounds.{MayTry};
ghost use Rattle.vm_tree_round.specs.Rounds.{IsDamagedForDel, IsDelRound, IsNeededByDel, IsNoRoomFault, IsPutFault, IsPutRound, IsRoomFault, IsWriteFault, IsWriteRound};

use vm_block::PageBlock;
use vm_tree_write::exmap::Interface;
use vm_tree_write::kind::{Edits, Kind, Merges, TreeOf};
use vm_tree_write::pool::{Pool, dry_cause};
use vm_tree_write::rule::Pass;
use vm_tree_write::tree_read::{Round, fetch, settle};
use vm_tree_write::tree_rule::TreeFault;
use vm_tree_write::tree_split::{TrySplit, try_split};
use vm_tree_write::write::{Tried, del_once, put_once, swap_once};

/// A round of a del.
pub fn del_round<K: Merges, B: PageBlock<N>, const N: usize>(
    pool: &Pool<TreeOf<K>, B, N>,
    pass: &mut Pass<TreeOf<K>>,
    iface: &mut Interface,
    key: &K::Key,
) -> Round<Option<u64>>
    requires { MayTry pool.now.words B.tells pass.old iface.old.frames }
    ensures goes { GoesOn pool.now.words B.tells pass.old pass.new }
    ensures held { AreHeld iface.new.frames (view pass.new) }
    ensures iface { (iface.new.home ≡ iface.old.home) × (iface.new.cap ≡ iface.old.cap) }
    ensures lost { LosesNone iface.old.frames (view pass.old) iface.new.frames (view pass.new) }
    ensures told { RoundTells
        (λ was. IsDel K.plain K.layout (K.rank key.now) (Answered (Gone was)) (view pass.old) (view pass.new))
        (KeepsLocksOnly (view pass.old) (view pass.new) × IsDelRound K.layout (K.rank key.now) (view pass.old) (view pass.new))
        (λ fault. KeepsLocksOnly (view pass.old) (view pass.new)
        × IsWriteFault K.layout (IsNeededByDel K.layout) (IsDamagedForDel K.layout) (HasKeyIn K.layout) (K.rank key.now) fault (view pass.old) (view pass.new)) result }
{
    match del_once(&pool.words, pass, key) {
        Tried::Done(was) => Round::Done(was),
        Tried::Again(_) => Round::Later,
        Tried::Need(pid) => fetch(pool, pass, iface, pid),
        Tried::Worn(pid) => Round::Failed(TreeFault::Worn { pid }),
        Tried::Damaged(pid) => Round::Failed(TreeFault::Damaged { pid }),
        Tried::Tight(_) => unreachable!(),
    }
}

/// A round of a swap.
pub fn swap_round<K: Edits, B: PageBlock<N>, const N: usize>(
    pool: &Pool<TreeOf<K>, B, N>,
    pass: &mut Pass<TreeOf<K>>,
    iface: &mut Interface,
    key: &K::Key,
    want: u64,
    value: u64,
) -> Round<Option<u64>>
    requires { MayTry pool.now.words B.tells pass.old iface.old.frames }
    ensures goes { GoesOn pool.now.words B.tells pass.old pass.new }
    ensures held { AreHeld iface.new.frames (view pass.new) }
    ensures iface { (iface.new.home ≡ iface.old.home) × (iface.new.cap ≡ iface.old.cap) }
    ensures lost { LosesNone iface.old.frames (view pass.old) iface.new.frames (view pass.new) }
    ensures told { RoundTells
        (λ was. IsSwap K.plain K.layout (K.rank key.now) want value (Answered (swap_reply want was)) (view pass.old) (view pass.new))
        (Waits (view pass.old) (view pass.new) × IsWriteRound K.layout (K.rank key.now) (view pass.old) (view pass.new))
        (λ fault. Waits (view pass.old) (view pass.new)
        × IsWriteFault K.layout (IsNeeded K.layout) (IsDamaged K.layout) (λ words key. HasValueIn K.layout words key want) (K.rank key.now) fault (view pass.old) (view pass.new)) result }
{
    match swap_once(&pool.words, pass, key, want, value) {
        Tried::Done(was) => Round::Done(was),
        Tried::Again(_) => Round::Later,
        Tried::Need(pid) => fetch(pool, pass, iface, pid),
        Tried::Worn(pid) => Round::Failed(TreeFault::Worn { pid }),
        Tried::Damaged(pid) => Round::Failed(TreeFault::Damaged { pid }),
        Tried::Tight(_) => unreachable!(),
    }
}

/// Goes on after a try to make room for a key by a split: brings the page that it needs, or frees frames.
fn after_split<K: Kind, B: PageBlock<N>, const N: usize>(
    pool: &Pool<TreeOf<K>, B, N>,
    pass: &mut Pass<TreeOf<K>>,
    iface: &mut Interface,
    answer: TrySplit,
) -> Round<Option<u64>>
    requires ready { IsReadyOn pool.now.words B.tells pass.old }
    requires home { (view pass.old).out ≡ None }
    requires frames { AreHeld iface.old.frames (view pass.old) }
    requires tried { (key : _) × (v : _) × IsTrySplit K.plain K.layout K.spare key answer v (view pass.old) }
    ensures goes { GoesOn pool.now.words B.tells pass.old pass.new }
    ensures held { AreHeld iface.new.frames (view pass.new) }
    ensures iface { (iface.new.home ≡ iface.old.home) × (iface.new.cap ≡ iface.old.cap) }
    ensures lost { LosesNone iface.old.frames (view pass.old) iface.new.frames (view pass.new) }
    ensures keeps { KeepsLocksOnly (view pass.old) (view pass.new) }
    ensures told { (key : _) (v : _) → IsTrySplit K.plain K.layout K.spare key answer v (view pass.old) → RoundTells (λ _. ⊥)
        (IsNoRoomFault K.plain K.layout K.spare key v (view pass.new)) (λ fault. IsRoomFault K.plain K.layout K.spare key fault v (view pass.new)) result }
{
    match answer {
        TrySplit::Split => Round::Soon,
        TrySplit::Roomy => Round::Soon,
        TrySplit::Again(_) => Round::Later,
        TrySplit::Need(pid) => fetch(pool, pass, iface, pid),
        TrySplit::Worn(pid) => Round::Failed(TreeFault::Worn { pid }),
        TrySplit::Damaged(pid) => Round::Failed(TreeFault::Damaged { pid }),
        TrySplit::Full {
            pages,
            next: _,
            need: _,
        } => Round::Failed(TreeFault::Full { pages }),
        TrySplit::Dry => {
            let report = pool.sweep(pass, iface, iface.cap);
            settle(dry_cause(&report))
        }
    }
}

/// A round of a put. Where the leaf is full it tries a split, once.
pub fn put_round<K: Edits, B: PageBlock<N>, const N: usize>(
    pool: &Pool<TreeOf<K>, B, N>,
    pass: &mut Pass<TreeOf<K>>,
    iface: &mut Interface,
    key: &K::Key,
    value: u64,
) -> Round<Option<u64>>
    requires { MayTry pool.now.words B.tells pass.old iface.old.frames }
    ensures goes { GoesOn pool.now.words B.tells pass.old pass.new }
    ensures held { AreHeld iface.new.frames (view pass.new) }
    ensures iface { (iface.new.home ≡ iface.old.home) × (iface.new.cap ≡ iface.old.cap) }
    ensures lost { LosesNone iface.old.frames (view pass.old) iface.new.frames (view pass.new) }
    ensures told { RoundTells
        (λ was. IsPut K.plain K.layout K.spare (K.rank key.now) value (Answered (Was was)) (view pass.old) (view pass.new))
        (KeepsLocksOnly (view pass.old) (view pass.new) × IsPutRound K.plain K.layout K.spare (K.rank key.now) (view pass.old) (view pass.new))
        (λ fault. KeepsLocksOnly (view pass.old) (view pass.new) × IsPutFault K.plain K.layout K.spare (K.rank key.now) fault (view pass.old) (view pass.new)) result }
{
    match put_once(&pool.words, pass, key, value) {
        Tried::Done(was) => Round::Done(was),
        Tried::Again(_) => Round::Later,
        Tried::Need(pid) => fetch(pool, pass, iface, pid),
        Tried::Worn(pid) => Round::Failed(TreeFault::Worn { pid }),
        Tried::Damaged(pid) => Round::Failed(TreeFault::Damaged { pid }),
        Tried::Tight(_) => {
            let answer = try_split(&pool.words, pass, iface, key);
            after_split(pool, pass, iface, answer)
        }
    }
}
