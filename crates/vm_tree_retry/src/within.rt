// The writes that never wait, in so many rounds (see `round`) at most: where all of them were in vain there is no reply.
ghost use Rattle.std.specs.Prelude.{◌<◌, ◌≡◌, ◌≤◌, IfErr, IfOk, IfSome, None};
ghost use Rattle.vm_map.specs.declared.call.Call.TheVariants.{Del, Put, Swap as ForSwap};
ghost use Rattle.vm_tree_round.specs.from_vm_step.Prelude.{AreHeld, GoesOn, IsReadyOn, view};
ghost use Rattle.vm_tree_round.specs.from_vm_tree_read.Reads.{IsOfKind};
ghost use Rattle.vm_tree_round.specs.from_vm_tree_read.Waiting.{HasRounds, LosesNone, rounds_in, Waits};
ghost use Rattle.vm_tree_round.specs.from_vm_tree_rule.Turns.{IsDamaged, IsNeeded};
ghost use Rattle.vm_tree_round.specs.from_vm_tree_split.Splits.{KeepsLocksOnly};
ghost use Rattle.vm_tree_round.specs.from_vm_tree_write.Writes.{HasKeyIn, HasValueIn};
ghost use Rattle.vm_tree_round.specs.Rounds.{IsDamagedForDel, IsDelRound, IsNeededByDel, IsPutRound, IsWriteRound};
ghost use Rattle.vm_tree_retry.specs.Waiting.{IsDelReplied, IsPutFaulted, IsWriteFaulted, IsWriteReplied};

use vm_block::PageBlock;
use vm_map::call::{Reply, Swap};
use vm_tree_round::exmap::Interface;
use vm_tree_round::kind::{Edits, Merges, TreeOf};
use vm_tree_round::pool::Pool;
use vm_tree_round::rule::Pass;
use vm_tree_round::tree_read::Round;
use vm_tree_round::tree_rule::TreeFault;
use vm_tree_round::{del_round, put_round, swap_round};

/// As `del`, in at most `turns` rounds.
pub fn del_within<K: Merges, B: PageBlock<N>, const N: usize>(
    pool: &Pool<TreeOf<K>, B, N>,
    pass: &mut Pass<TreeOf<K>>,
    iface: &mut Interface,
    key: &K::Key,
    turns: u32,
) -> Result<Option<Reply>, TreeFault>
    requires ready { IsReadyOn pool.now.words B.tells pass.old }
    requires pages { 1 ≤ pool.now.words.table.shared.key.pages }
    requires home { (view pass.old).out ≡ None }
    requires frames { AreHeld iface.old.frames (view pass.old) }
    ensures goes { GoesOn pool.now.words B.tells pass.old pass.new }
    ensures held { AreHeld iface.new.frames (view pass.new) }
    ensures iface { (iface.new.home ≡ iface.old.home) × (iface.new.cap ≡ iface.old.cap) }
    ensures lost { LosesNone iface.old.frames (view pass.old) iface.new.frames (view pass.new) }
    ensures some { IfOk result (λ answer. IfSome answer (λ reply. (r : IsDelReplied K.plain K.layout (K.rank key.now) reply (view pass.old) (view pass.new))
        × (rounds_in r.rounds < turns))) }
    ensures kind { IfOk result (λ answer. IfSome answer (λ reply. IsOfKind (Del (K.rank key.now)) reply)) }
    ensures none { IfOk result (λ answer. answer ≡ None → KeepsLocksOnly (view pass.old) (view pass.new)
        × HasRounds (IsDelRound K.layout (K.rank key.now)) turns (view pass.old) (view pass.new)) }
    ensures err { IfErr result (λ fault. (r : IsWriteFaulted K.layout KeepsLocksOnly (IsDelRound K.layout) (IsNeededByDel K.layout)
        (IsDamagedForDel K.layout) (HasKeyIn K.layout) (K.rank key.now) fault (view pass.old) (view pass.new))
        × (rounds_in r.rounds < turns)) }
{
    'rounds: for _made in 0..turns {
        match del_round(pool, pass, iface, key) {
            Round::Done(was) => return Ok(Some(Reply::Gone(was))),
            Round::Soon => continue,
            Round::Later => continue,
            Round::Failed(fault) => return Err(fault),
        }
    }
    Ok(None)
}

/// As `swap`, in at most `turns` rounds.
pub fn swap_within<K: Edits, B: PageBlock<N>, const N: usize>(
    pool: &Pool<TreeOf<K>, B, N>,
    pass: &mut Pass<TreeOf<K>>,
    iface: &mut Interface,
    key: &K::Key,
    want: u64,
    value: u64,
    turns: u32,
) -> Result<Option<Reply>, TreeFault>
    requires ready { IsReadyOn pool.now.words B.tells pass.old }
    requires pages { 1 ≤ pool.now.words.table.shared.key.pages }
    requires home { (view pass.old).out ≡ None }
    requires frames { AreHeld iface.old.frames (view pass.old) }
    ensures goes { GoesOn pool.now.words B.tells pass.old pass.new }
    ensures held { AreHeld iface.new.frames (view pass.new) }
    ensures iface { (iface.new.home ≡ iface.old.home) × (iface.new.cap ≡ iface.old.cap) }
    ensures lost { LosesNone iface.old.frames (view pass.old) iface.new.frames (view pass.new) }
    ensures some { IfOk result (λ answer. IfSome answer (λ reply. (r : IsWriteReplied K.plain K.layout Waits (IsWriteRound K.layout)
        (record { call = ForSwap (K.rank key.now) want value; reply = reply }) (view pass.old) (view pass.new))
        × (rounds_in r.rounds < turns))) }
    ensures kind { IfOk result (λ answer. IfSome answer (λ reply. IsOfKind (ForSwap (K.rank key.now) want value) reply)) }
    ensures none { IfOk result (λ answer. answer ≡ None → Waits (view pass.old) (view pass.new)
        × HasRounds (IsWriteRound K.layout (K.rank key.now)) turns (view pass.old) (view pass.new)) }
    ensures err { IfErr result (λ fault. (r : IsWriteFaulted K.layout Waits (IsWriteRound K.layout) (IsNeeded K.layout) (IsDamaged K.layout)
        (λ words key. HasValueIn K.layout words key want) (K.rank key.now) fault (view pass.old) (view pass.new))
        × (rounds_in r.rounds < turns)) }
{
    'rounds: for _made in 0..turns {
        match swap_round(pool, pass, iface, key, want, value) {
            Round::Done(was) => return Ok(Some(Reply::Swapped(Swap::outcome(was, want)))),
            Round::Soon => continue,
            Round::Later => continue,
            Round::Failed(fault) => return Err(fault),
        }
    }
    Ok(None)
}

/// As `put`, in at most `turns` rounds.
pub fn put_within<K: Edits, B: PageBlock<N>, const N: usize>(
    pool: &Pool<TreeOf<K>, B, N>,
    pass: &mut Pass<TreeOf<K>>,
    iface: &mut Interface,
    key: &K::Key,
    value: u64,
    turns: u32,
) -> Result<Option<Reply>, TreeFault>
    requires ready { IsReadyOn pool.now.words B.tells pass.old }
    requires pages { 1 ≤ pool.now.words.table.shared.key.pages }
    requires home { (view pass.old).out ≡ None }
    requires frames { AreHeld iface.old.frames (view pass.old) }
    ensures goes { GoesOn pool.now.words B.tells pass.old pass.new }
    ensures held { AreHeld iface.new.frames (view pass.new) }
    ensures iface { (iface.new.home ≡ iface.old.home) × (iface.new.cap ≡ iface.old.cap) }
    ensures lost { LosesNone iface.old.frames (view pass.old) iface.new.frames (view pass.new) }
    ensures some { IfOk result (λ answer. IfSome answer (λ reply. (r : IsWriteReplied K.plain K.layout KeepsLocksOnly (IsPutRound K.plain K.layout K.spare)
        (record { call = Put (K.rank key.now) value; reply = reply }) (view pass.old) (view pass.new))
        × (rounds_in r.rounds < turns))) }
    ensures kind { IfOk result (λ answer. IfSome answer (λ reply. IsOfKind (Put (K.rank key.now) value) reply)) }
    ensures none { IfOk result (λ answer. answer ≡ None → KeepsLocksOnly (view pass.old) (view pass.new)
        × HasRounds (IsPutRound K.plain K.layout K.spare (K.rank key.now)) turns (view pass.old) (view pass.new)) }
    ensures err { IfErr result (λ fault. (r : IsPutFaulted K.plain K.layout K.spare (K.rank key.now) fault (view pass.old) (view pass.new))
        × (rounds_in r.rounds < turns)) }
{
    'rounds: for _made in 0..turns {
        match put_round(pool, pass, iface, key, value) {
            Round::Done(was) => return Ok(Some(Reply::Was(was))),
            Round::Soon => continue,
            Round::Later => continue,
            Round::Failed(fault) => return Err(fault),
        }
    }
    Ok(None)
}
