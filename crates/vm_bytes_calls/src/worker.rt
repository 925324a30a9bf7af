//! A worker's calls of the tree with byte keys.

ghost use Rattle.std.specs.List.{AllByRecursion};
ghost use Rattle.std.specs.Prelude.{[], ◌≡◌, ◌≤◌, Err, IfErr, IfOk, None, Ok};
ghost use Rattle.vm_rule.specs.Prelude.{HoldsNoPage};
ghost use Rattle.vm_step.specs.Prelude.{AreHeld, IsReadyOn, view};
ghost use Rattle.vm_calls.specs.from_vm_tree_read.Waiting.{LosesNone};
ghost use Rattle.vm_bytes_laws.specs.Plain.{plain_reply};
ghost use Rattle.vm_calls.specs.Workers.{HasCalled, HasKept, IsAtWork};
ghost use Rattle.vm_bytes_calls.specs.KeyAnswers.{HasKeyRoom, KeepsKeyAnswers};
ghost use Rattle.vm_bytes_calls.specs.KeyCalls.{HasNoPairs, IsKeyAskable, IsKeyCall, key_calls};

use crate::answers::KeyReplies;
use std::sync::Wait;
use vm_block::PageBlock;
use vm_bytes_laws::call::{KeyCall, KeyReply};
use vm_bytes_tree::{BytesTree, del, get, put, swap, window};
use vm_calls::exmap::Interface;
use vm_calls::gate::Gate;
use vm_calls::pool::Pool;
use vm_calls::tree_rule::TreeFault;
use vm_calls::worker::Worker;
use vm_map::call::Reply;
use vm_rule::words::Pass;

/// A worker on a tree with byte keys, which needs no memory beside that of its answers.
pub type KeyWorker = Worker<BytesTree, KeyReplies, ()>;

// The same answer, whose reply shows no pairs.
fn bare(answer: Result<Reply, TreeFault>) -> Result<KeyReply, TreeFault>
    requires { IfOk answer HasNoPairs }
    ensures ok { IfOk result (λ reply. answer ≡ Ok (plain_reply reply)) }
    ensures err { IfErr result (λ fault. answer ≡ Err fault) }
{
    match answer {
        Ok(Reply::Got(found)) => Ok(KeyReply::Got(found)),
        Ok(Reply::Was(old)) => Ok(KeyReply::Was(old)),
        Ok(Reply::Gone(old)) => Ok(KeyReply::Gone(old)),
        Ok(Reply::Swapped(outcome)) => Ok(KeyReply::Swapped(outcome)),
        Ok(Reply::Win(_)) => unreachable!(),
        Ok(Reply::Many(_)) => unreachable!(),
        Ok(Reply::Wide(_)) => unreachable!(),
        Err(fault) => Err(fault),
    }
}

// Makes one call.
fn answer<R: Wait, B: PageBlock<512>>(
    rt: &R,
    pool: &Pool<BytesTree, B, 512>,
    pass: &mut Pass<BytesTree>,
    iface: &mut Interface,
    call: &KeyCall,
) -> Result<KeyReply, TreeFault>
    requires ready { IsReadyOn pool.now.words B.tells pass.old }
    requires home { (view pass.old).out ≡ None }
    requires frames { AreHeld iface.old.frames (view pass.old) }
    requires pages { 1 ≤ pool.now.words.table.shared.key.pages }
    requires askable { IsKeyAskable call.now }
    ensures ready { IsReadyOn pool.now.words B.tells pass.new }
    ensures call { IsKeyCall call.now result (view pass.old) (view pass.new) }
    ensures held { AreHeld iface.new.frames (view pass.new) }
    ensures lost { LosesNone iface.old.frames (view pass.old) iface.new.frames (view pass.new) }
{
    match call {
        KeyCall::Get { key } => bare(get(rt, pool, pass, iface, key)),
        KeyCall::Put { key, value } => bare(put(rt, pool, pass, iface, key, *value)),
        KeyCall::Del { key } => bare(del(rt, pool, pass, iface, key)),
        KeyCall::Swap { key, want, value } => {
            bare(swap(rt, pool, pass, iface, key, *want, *value))
        }
        KeyCall::Window { start, most } => window(rt, pool, pass, iface, start, *most),
    }
}

// Makes the calls, in order.
fn call_all<R: Wait, B: PageBlock<512>, G: Gate>(
    rt: &R,
    pool: &Pool<BytesTree, B, 512>,
    gate: &G,
    number: u32,
    calls: &[KeyCall],
    worker: &mut KeyWorker,
)
    requires work { IsAtWork pool.now.words.table.shared.key B.tells pool.now.words.table.shared.table_id worker.old }
    requires room { HasKeyRoom worker.old.answers calls.now }
    requires fresh { KeepsKeyAnswers worker.old.answers [] }
    requires askable { AllByRecursion IsKeyAskable calls.now }
    ensures work { IsAtWork pool.now.words.table.shared.key B.tells pool.now.words.table.shared.table_id worker.new }
    ensures done { HasCalled key_calls KeepsKeyAnswers calls.now worker.new.answers (view worker.old.pass) (view worker.new.pass) }
    ensures lost { LosesNone worker.old.iface.frames (view worker.old.pass) worker.new.iface.frames (view worker.new.pass) }
{
    let mut count = 0u32;
    'calls: for call in calls {
        count = count.saturating_add(1);
        gate.before(number, count);
        let answer = answer(rt, pool, &mut worker.pass, &mut worker.iface, call);
        gate.after(number, count);
        worker.answers.keep(answer);
    }
}

/// Makes the worker's calls, in order, and gives its frames back.
pub fn work<R: Wait, B: PageBlock<512>, G: Gate>(
    rt: &R,
    pool: &Pool<BytesTree, B, 512>,
    gate: &G,
    number: u32,
    calls: &[KeyCall],
    worker: &mut KeyWorker,
)
    requires work { IsAtWork pool.now.words.table.shared.key B.tells pool.now.words.table.shared.table_id worker.old }
    requires holds { HoldsNoPage (view worker.old.pass) }
    requires room { HasKeyRoom worker.old.answers calls.now }
    requires fresh { KeepsKeyAnswers worker.old.answers [] }
    requires askable { AllByRecursion IsKeyAskable calls.now }
    ensures ready { IsReadyOn pool.now.words B.tells worker.new.pass }
    ensures holds { HoldsNoPage (view worker.new.pass) }
    ensures done { HasKept key_calls KeepsKeyAnswers calls.now worker.new.answers (view worker.old.pass) (view worker.new.pass) }
    ensures lost { LosesNone worker.old.iface.frames (view worker.old.pass) [] (view worker.new.pass) }
{
    call_all(rt, pool, gate, number, calls, worker);
    worker.iface.give_all(&pool.words, &mut worker.pass);
}
