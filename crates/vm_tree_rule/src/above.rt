// The way down to a leaf that may become one with its neighbour: the pages above it that change then stay open.
ghost use Rattle.std.specs.Prelude.{◌≡◌, ◌≢◌, ◌≤◌, IfErr, IfOk, IsOk, true};
ghost use Rattle.vm_step.specs.Prelude.{GoesOn, IsReadyOn, view};
ghost use Rattle.vm_kind.specs.from_vm_guard.Guards.{IsReading};
ghost use Rattle.vm_tree_rule.specs.{Above.IsAbove, Above.IsLeafReached, Above.KnowsAbove, Leaves.ReadsOn, Turns.IsTurnedBack, Ways.StandsOnWay};
ghost use Rattle.vm_tree_rule.specs.Resident.{IsKnownNow, KnowsResident};
ghost use Rattle.vm_tree_rule.specs.Seeks.{IsMetaRead};
ghost use Rattle.vm_tree_rule.specs.Standing.{Awaits, IsOpened, IsStand};

use crate::descent::{Stand, Top, enter_root, step};
use crate::turn::Turn;
use vm_block::Block;
use vm_kind::guard::OptGuard;
use vm_kind::{Kind, TreeOf};
use vm_rule::words::{Pass, Words};

/// The pages above a leaf that change with it where it becomes one with its neighbour. Their reads began in the call that reached the leaf, and are open still.
#[derive(Drop)]
pub enum Above {
    /// The leaf is the root: there is none.
    Nothing,
    /// The leaf's parent is the root, which page 0 names.
    Root { meta: OptGuard, root: OptGuard },
    /// The leaf's parent is this node, and not the root.
    Node(OptGuard),
}

/// A leaf, the fences at which it was reached, and what stands above it. No high fence stands for the end of all keys.
#[derive(Drop)]
pub struct Reached<T> {
    pub leaf: OptGuard,
    pub low: T,
    pub high: Option<T>,
    pub above: Above,
}

/// The last step down from the root, which is the leaf's parent.
fn under_root<K: Kind, B: Block>(
    words: &Words<TreeOf<K>, B>,
    pass: &mut Pass<TreeOf<K>>,
    top: Top<K::Key>,
    key: &K::Key,
) -> Result<Reached<K::Key>, Turn>
    requires ready { IsReadyOn words.now B.tells pass.old }
    requires reading { IsReading top.stand.guard.pid top.stand.guard.word top.stand.guard.frame (view pass.old) }
    requires stands { IsStand K.layout K.rank (K.rank key.now) top.stand (view pass.old) }
    requires level { top.stand.level ≡ 1 }
    ensures goes { GoesOn words.now B.tells pass.old pass.new }
    ensures reads { IfOk result (λ r. ReadsOn (view pass.old) (view pass.new) × IsOpened (view pass.old) r.leaf.pid r.leaf.word r.leaf.frame (view pass.new)) }
    ensures awaits { IfOk result (λ r. Awaits K.layout (view pass.new) r.leaf.pid r.leaf.word 0 (K.rank key.now)) }
    ensures above { IfOk result (λ r. (v : _) → IsOpened v top.stand.guard.pid top.stand.guard.word top.stand.guard.frame (view pass.old)
        → IsMetaRead top.meta.pid top.meta.word top.meta.frame top.stand.guard.pid top.stand.level v (view pass.old)
        → IsAbove K.layout v (K.rank key.now) r.above r.leaf.pid (view pass.new)) }
    ensures leaf { IfOk result (λ r. (v : _) → IsOpened v top.stand.guard.pid top.stand.guard.word top.stand.guard.frame (view pass.old)
        → StandsOnWay K.layout K.rank v (K.rank key.now) top.stand (view pass.old) → IsLeafReached K.layout K.rank v (K.rank key.now) r (view pass.new)) }
    ensures err { IfErr result (λ turn. (v : _) → IsOpened v top.stand.guard.pid top.stand.guard.word top.stand.guard.frame (view pass.old)
        → StandsOnWay K.layout K.rank v (K.rank key.now) top.stand (view pass.old) → IsTurnedBack K.layout v (K.rank key.now) turn (view pass.new)) }
    ensures sure { B.tells ≡ true → IsKnownNow top.stand.guard.pid top.stand.guard.word (view pass.old) → IsOk result }
    ensures known { B.tells ≡ true → IsKnownNow top.stand.guard.pid top.stand.guard.word (view pass.old) → IsKnownNow top.meta.pid top.meta.word (view pass.old) → top.meta.pid ≡ 0
        → IfOk result (λ r. IsKnownNow r.leaf.pid r.leaf.word (view pass.new) × KnowsAbove r.above (view pass.new)) }
{
    let Top { meta, stand } = top;
    match step(words, pass, &stand, key) {
        Ok(below) => Ok(Reached {
            leaf: below.guard,
            low: below.low,
            high: below.high,
            above: Above::Root {
                meta,
                root: stand.guard,
            },
        }),
        Err(turn) => Err(turn),
    }
}

/// The steps down from a node to a leaf whose parent is a node too.
fn under_node<K: Kind, B: Block>(
    words: &Words<TreeOf<K>, B>,
    pass: &mut Pass<TreeOf<K>>,
    stand: Stand<K::Key>,
    key: &K::Key,
) -> Result<Reached<K::Key>, Turn>
    requires ready { IsReadyOn words.now B.tells pass.old }
    requires opened { (v : _) × IsOpened v stand.guard.pid stand.guard.word stand.guard.frame (view pass.old) }
    requires stands { IsStand K.layout K.rank (K.rank key.now) stand (view pass.old) }
    requires inner { 1 ≤ stand.level }
    requires not_zero { stand.guard.pid ≢ 0 }
    ensures goes { GoesOn words.now B.tells pass.old pass.new }
    ensures reads { IfOk result (λ r. ReadsOn (view pass.old) (view pass.new) × IsOpened (view pass.old) r.leaf.pid r.leaf.word r.leaf.frame (view pass.new)) }
    ensures awaits { IfOk result (λ r. Awaits K.layout (view pass.new) r.leaf.pid r.leaf.word 0 (K.rank key.now)) }
    ensures above { IfOk result (λ r. (v : _) → IsOpened v stand.guard.pid stand.guard.word stand.guard.frame (view pass.old)
        → IsAbove K.layout v (K.rank key.now) r.above r.leaf.pid (view pass.new)) }
    ensures leaf { IfOk result (λ r. (v : _) → IsOpened v stand.guard.pid stand.guard.word stand.guard.frame (view pass.old)
        → StandsOnWay K.layout K.rank v (K.rank key.now) stand (view pass.old) → IsLeafReached K.layout K.rank v (K.rank key.now) r (view pass.new)) }
    ensures err { IfErr result (λ turn. (v : _) → IsOpened v stand.guard.pid stand.guard.word stand.guard.frame (view pass.old)
        → StandsOnWay K.layout K.rank v (K.rank key.now) stand (view pass.old) → IsTurnedBack K.layout v (K.rank key.now) turn (view pass.new)) }
    ensures sure { B.tells ≡ true → IsKnownNow stand.guard.pid stand.guard.word (view pass.old) → IsOk result }
    ensures known { B.tells ≡ true → IsKnownNow stand.guard.pid stand.guard.word (view pass.old)
        → IfOk result (λ r. IsKnownNow r.leaf.pid r.leaf.word (view pass.new) × KnowsAbove r.above (view pass.new)) }
{
    let height = stand.level;
    let mut node = stand;
    for _ in 1..height {
        match step(words, pass, &node, key) {
            Ok(below) => node = below,
            Err(turn) => return Err(turn),
        }
    }
    match step(words, pass, &node, key) {
        Ok(below) => Ok(Reached {
            leaf: below.guard,
            low: below.low,
            high: below.high,
            above: Above::Node(node.guard),
        }),
        Err(turn) => Err(turn),
    }
}

/// Descends to the leaf that covers the key, of which nothing is loaded yet, and keeps the pages above it that a merge changes. Their guards are still open.
pub fn reach<K: Kind, B: Block>(
    words: &Words<TreeOf<K>, B>,
    pass: &mut Pass<TreeOf<K>>,
    key: &K::Key,
) -> Result<Reached<K::Key>, Turn>
    requires ready { IsReadyOn words.now B.tells pass.old }
    requires pages { 1 ≤ words.now.table.shared.key.pages }
    ensures goes { GoesOn words.now B.tells pass.old pass.new }
    ensures reads { IfOk result (λ r. ReadsOn (view pass.old) (view pass.new) × IsOpened (view pass.old) r.leaf.pid r.leaf.word r.leaf.frame (view pass.new)) }
    ensures awaits { IfOk result (λ r. Awaits K.layout (view pass.new) r.leaf.pid r.leaf.word 0 (K.rank key.now)) }
    ensures above { IfOk result (λ r. IsAbove K.layout (view pass.old) (K.rank key.now) r.above r.leaf.pid (view pass.new)) }
    ensures leaf { IfOk result (λ r. IsLeafReached K.layout K.rank (view pass.old) (K.rank key.now) r (view pass.new)) }
    ensures err { IfErr result (λ turn. IsTurnedBack K.layout (view pass.old) (K.rank key.now) turn (view pass.new)) }
    ensures sure { B.tells ≡ true → KnowsResident (view pass.old) → IsOk result }
    ensures known { B.tells ≡ true → KnowsResident (view pass.old)
        → IfOk result (λ r. IsKnownNow r.leaf.pid r.leaf.word (view pass.new) × KnowsAbove r.above (view pass.new)) }
{
    let top = match enter_root(words, pass, key) {
        Ok(top) => top,
        Err(turn) => return Err(turn),
    };
    let height = top.stand.level;
    if height == 0 {
        return Ok(Reached {
            leaf: top.stand.guard,
            low: top.stand.low,
            high: top.stand.high,
            above: Above::Nothing,
        });
    }
    if height == 1 {
        return under_root(words, pass, top, key);
    }
    under_node(words, pass, top.stand, key)
}
