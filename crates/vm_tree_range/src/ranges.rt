// Ranges of the tree: a try; a round of a range, a try and what its answer asks for; and a range that is tried round after round, either until it is
// answered or in so many rounds at most. Only the former waits.
ghost use Rattle.std.specs.Prelude.{[], ◌*◌, ◌+◌, ◌<◌, ◌≡◌, ◌≤◌, ◌⊎◌, IfErr, IfOk, IfSome, length, None, true};
ghost use Rattle.vm_map.specs.declared.call.Call.TheVariants.{Range};
ghost use Rattle.vm_step.specs.Prelude.{AreHeld, GoesOn, IsReadyOn, view};
ghost use Rattle.vm_tree_read.specs.from_vm_tree_rule.Resident.{KnowsResident};
ghost use Rattle.vm_tree_read.specs.{Reads.IsOfKind, Waiting.HasRounds, Waiting.LosesNone, Waiting.rounds_in, Waiting.RoundTells, Waiting.Waits};
ghost use Rattle.vm_tree_range.specs.Ranges.{HasPairs, IsRangeDone, IsRangeFault, IsRangeFaulted, IsRangeFinal, IsRangeReplied, IsRangeRound, IsTriedRange, LeavesShares};

use crate::hold::{LEAVES, TryRange, hold_from};
use crossbeam_utils::Backoff;
use std::sync::Wait;
use vm_block::{Block, PageBlock};
use vm_map::call::Reply;
use vm_map::span::Span;
use vm_map::window::Bound;
use vm_rule::words::{Pass, Words};
use vm_tree_read::exmap::Interface;
use vm_tree_read::kind::{Ranges, TreeOf};
use vm_tree_read::pool::Pool;
use vm_tree_read::round::{Round, fetch};
use vm_tree_read::tree_rule::TreeFault;

/// All pairs from the key `low` on and below a bound, as they were at one moment. The leaves that cover them are held together, at most
/// sixteen; where these do not reach the bound, the answer is how far they reach. `out` is empty, and has room for the pairs of sixteen leaves; it has
/// the pairs where they are the answer, else it is empty, and its room is what it was.
pub fn try_range<K: Ranges, B: Block>(
    words: &Words<TreeOf<K>, B>,
    pass: &mut Pass<TreeOf<K>>,
    low: &K::Key,
    bound: Bound,
    out: &mut Span,
) -> TryRange
    requires ready { IsReadyOn words.now B.tells pass.old }
    requires pages { 1 ≤ words.now.table.shared.key.pages }
    requires home { (view pass.old).out ≡ None }
    requires empty { out.old.0 ≡ [] }
    requires room { K.pairs_most * LEAVES ≤ out.old.1 }
    ensures goes { GoesOn words.now B.tells pass.old pass.new }
    ensures steps { LeavesShares (view pass.old) (view pass.new) }
    ensures tried { IsTriedRange K.plain K.layout (K.rank low.now) bound result out.new (view pass.old) (view pass.new) }
    ensures none { HasPairs result ⊎ (out.new ≡ out.old) }
    ensures sure { B.tells ≡ true → KnowsResident (view pass.old) → IsRangeFinal result }
    ensures known { B.tells ≡ true → KnowsResident (view pass.old) → KnowsResident (view pass.new) }
    ensures kept { out.new.1 + length out.new.0 ≡ out.old.1 + length out.old.0 }
{
    match hold_from(words, pass, low, bound, low, LEAVES, out) {
        TryRange::Done(count) => TryRange::Done(count),
        TryRange::TooWide { reach } => {
            out.clear();
            TryRange::TooWide { reach }
        }
        TryRange::Again(saw) => {
            out.clear();
            TryRange::Again(saw)
        }
        TryRange::Need(pid) => {
            out.clear();
            TryRange::Need(pid)
        }
        TryRange::Crowded(pid) => {
            out.clear();
            TryRange::Crowded(pid)
        }
        TryRange::Damaged(pid) => {
            out.clear();
            TryRange::Damaged(pid)
        }
    }
}

/// A round of a range. `out` is as for a try; where there is no reply it is what it was.
fn range_round<K: Ranges, B: PageBlock<N>, const N: usize>(
    pool: &Pool<TreeOf<K>, B, N>,
    pass: &mut Pass<TreeOf<K>>,
    iface: &mut Interface,
    low: &K::Key,
    bound: Bound,
    out: &mut Span,
) -> Round<Reply>
    requires ready { IsReadyOn pool.now.words B.tells pass.old }
    requires pages { 1 ≤ pool.now.words.table.shared.key.pages }
    requires home { (view pass.old).out ≡ None }
    requires frames { AreHeld iface.old.frames (view pass.old) }
    requires empty { out.old.0 ≡ [] }
    requires room { K.pairs_most * LEAVES ≤ out.old.1 }
    ensures goes { GoesOn pool.now.words B.tells pass.old pass.new }
    ensures held { AreHeld iface.new.frames (view pass.new) }
    ensures iface { (iface.new.home ≡ iface.old.home) × (iface.new.cap ≡ iface.old.cap) }
    ensures lost { LosesNone iface.old.frames (view pass.old) iface.new.frames (view pass.new) }
    ensures told { RoundTells
        (λ reply. IsRangeDone K.plain K.layout (record { call = Range (K.rank low.now) bound; reply = reply }) (view pass.old) (view pass.new)
        × IsOfKind (Range (K.rank low.now) bound) reply)
        (Waits (view pass.old) (view pass.new) × IsRangeRound K.layout (K.rank low.now) bound (view pass.old) (view pass.new) × (out.new ≡ out.old))
        (λ fault. Waits (view pass.old) (view pass.new) × IsRangeFault K.layout (K.rank low.now) bound fault (view pass.old) (view pass.new) × (out.new ≡ out.old)) result }
{
    match try_range(&pool.words, pass, low, bound, out) {
        TryRange::Done(_) => Round::Done(Reply::Many(out.take())),
        TryRange::TooWide { reach } => Round::Done(Reply::Wide(reach)),
        TryRange::Again(_) => Round::Later,
        TryRange::Crowded(_) => Round::Later,
        TryRange::Damaged(pid) => Round::Failed(TreeFault::Damaged { pid }),
        TryRange::Need(pid) => fetch(pool, pass, iface, pid),
    }
}

/// The range, tried until it is answered: the pairs, or how far sixteen leaves reach. `out` is as for a try, and holds the pairs in the reply.
pub fn range<K: Ranges, R: Wait, B: PageBlock<N>, const N: usize>(
    rt: &R,
    pool: &Pool<TreeOf<K>, B, N>,
    pass: &mut Pass<TreeOf<K>>,
    iface: &mut Interface,
    low: &K::Key,
    bound: Bound,
    out: Span,
) -> Result<Reply, TreeFault>
    requires ready { IsReadyOn pool.now.words B.tells pass.old }
    requires pages { 1 ≤ pool.now.words.table.shared.key.pages }
    requires home { (view pass.old).out ≡ None }
    requires frames { AreHeld iface.old.frames (view pass.old) }
    requires empty { out.0 ≡ [] }
    requires room { K.pairs_most * LEAVES ≤ out.1 }
    ensures goes { GoesOn pool.now.words B.tells pass.old pass.new }
    ensures held { AreHeld iface.new.frames (view pass.new) }
    ensures iface { (iface.new.home ≡ iface.old.home) × (iface.new.cap ≡ iface.old.cap) }
    ensures lost { LosesNone iface.old.frames (view pass.old) iface.new.frames (view pass.new) }
    ensures ok { IfOk result
        (λ reply. IsRangeReplied K.plain K.layout (record { call = Range (K.rank low.now) bound; reply = reply }) (view pass.old) (view pass.new)) }
    ensures kind { IfOk result (λ reply. IsOfKind (Range (K.rank low.now) bound) reply) }
    ensures err { IfErr result (λ fault. IsRangeFaulted K.layout (K.rank low.now) bound fault (view pass.old) (view pass.new)) }
{
    let mut pairs = out;
    let backoff = Backoff::new();
    for _ in rt.forever() {
        match range_round(pool, pass, iface, low, bound, &mut pairs) {
            Round::Done(reply) => return Ok(reply),
            Round::Soon => {}
            Round::Later => backoff.snooze(),
            Round::Failed(fault) => return Err(fault),
        }
    }
    unreachable!()
}

/// As `range`, in at most `turns` rounds. `out` is what it was where there is no reply.
pub fn range_within<K: Ranges, B: PageBlock<N>, const N: usize>(
    pool: &Pool<TreeOf<K>, B, N>,
    pass: &mut Pass<TreeOf<K>>,
    iface: &mut Interface,
    low: &K::Key,
    bound: Bound,
    out: &mut Span,
    turns: u32,
) -> Result<Option<Reply>, TreeFault>
    requires ready { IsReadyOn pool.now.words B.tells pass.old }
    requires pages { 1 ≤ pool.now.words.table.shared.key.pages }
    requires home { (view pass.old).out ≡ None }
    requires frames { AreHeld iface.old.frames (view pass.old) }
    requires empty { out.old.0 ≡ [] }
    requires room { K.pairs_most * LEAVES ≤ out.old.1 }
    ensures goes { GoesOn pool.now.words B.tells pass.old pass.new }
    ensures held { AreHeld iface.new.frames (view pass.new) }
    ensures iface { (iface.new.home ≡ iface.old.home) × (iface.new.cap ≡ iface.old.cap) }
    ensures lost { LosesNone iface.old.frames (view pass.old) iface.new.frames (view pass.new) }
    ensures some { IfOk result (λ answer. IfSome answer (λ reply.
        (r : IsRangeReplied K.plain K.layout (record { call = Range (K.rank low.now) bound; reply = reply }) (view pass.old) (view pass.new)) × (rounds_in r.rounds < turns))) }
    ensures kind { IfOk result (λ answer. IfSome answer (λ reply. IsOfKind (Range (K.rank low.now) bound) reply)) }
    ensures none { IfOk result (λ answer. answer ≡ None → Waits (view pass.old) (view pass.new)
        × HasRounds (IsRangeRound K.layout (K.rank low.now) bound) turns (view pass.old) (view pass.new) × (out.new ≡ out.old)) }
    ensures err { IfErr result (λ fault. (r : IsRangeFaulted K.layout (K.rank low.now) bound fault (view pass.old) (view pass.new))
        × (rounds_in r.rounds < turns) × (out.new ≡ out.old)) }
{
    'rounds: for _made in 0..turns {
        match range_round(pool, pass, iface, low, bound, out) {
            Round::Done(reply) => return Ok(Some(reply)),
            Round::Soon => continue,
            Round::Later => continue,
            Round::Failed(fault) => return Err(fault),
        }
    }
    Ok(None)
}
