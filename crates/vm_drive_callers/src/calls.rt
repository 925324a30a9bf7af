//! Lists of calls for workers, and what the pass knows once their passes are joined into it.
ghost use Rattle.std.specs.List.{AllByRecursion};
ghost use Rattle.std.specs.Prelude.{◌≡◌, ◌≤◌, IfOk, length, None};
ghost use Rattle.vm_map.specs.History.{IsAskable};
ghost use Rattle.vm_step.specs.Prelude.{AreHeld, IsReadyOn, view};
ghost use Rattle.vm_serve.specs.from_vm_drive.Drives.{AreAskable, AreFew, items_of};

use std::alloc::{AllocError, Global};
use std::sync::Wait;
use std::test::Fail;
use vm_block::PageBlock;
use vm_exmap::Interface;
use vm_map::call::{Call, Reply};
use vm_page::WORDS;
use vm_rule::words::Pass;
use vm_serve::drive::{Replies, Short};
use vm_serve::pool::Pool;
use vm_serve::tree_read::get;
use vm_serve::tree_rule::{Tree, TreeFault};

/// Puts of so many keys, from the first one on by this step; each key gets the number behind it.
fn puts(alloc: Global, first: u64, step: u64, count: u64) -> Result<Vec<Call>, AllocError>
    requires { count ≤ 1000000 }
    ensures few { IfOk result (λ calls. length calls.items ≤ 1000000) }
    ensures askable { IfOk result (λ calls. AllByRecursion IsAskable calls.items) }
{
    let mut calls = Vec::new(alloc);
    for i in 0..count {
        let key = step.wrapping_mul(i).wrapping_add(first);
        let value = key.wrapping_add(1);
        calls.push(Call::Put { key, value })?;
    }
    Ok(calls)
}

/// A list for each worker, of so many puts; no two workers have a key in common.
pub fn shares(alloc: Global, workers: u64, count: u64) -> Result<Vec<Vec<Call>>, AllocError>
    requires { count ≤ 1000000 }
    ensures workers { IfOk result (λ lists. length lists.items ≡ workers) }
    ensures few { IfOk result (λ lists. AreFew (items_of lists.items)) }
    ensures askable { IfOk result (λ lists. AreAskable (items_of lists.items)) }
{
    let mut lists = Vec::new(alloc);
    for worker in 0..workers {
        lists.push(puts(alloc, worker, workers, count)?)?;
    }
    Ok(lists)
}

/// A list for each of two workers.
pub fn two_lists(
    alloc: Global,
    first: &[Call],
    second: &[Call],
) -> Result<Vec<Vec<Call>>, AllocError>
    requires few { (length first.now ≤ 1000000) × (length second.now ≤ 1000000) }
    requires first { AllByRecursion IsAskable first.now }
    requires second { AllByRecursion IsAskable second.now }
    ensures workers { IfOk result (λ lists. length lists.items ≡ 2) }
    ensures few { IfOk result (λ lists. AreFew (items_of lists.items)) }
    ensures askable { IfOk result (λ lists. AreAskable (items_of lists.items)) }
{
    let mut lists = Vec::new(alloc);
    lists.push(Vec::from_slice(alloc, first)?)?;
    lists.push(Vec::from_slice(alloc, second)?)?;
    Ok(lists)
}

/// `get`, by a pass whose block is at home: it is at home again.
fn got<R: Wait, B: PageBlock<WORDS>>(
    rt: &R,
    pool: &Pool<Tree, B, WORDS>,
    pass: &mut Pass<Tree>,
    iface: &mut Interface,
    key: u64,
) -> Result<Reply, TreeFault>
    requires pages { 1 ≤ pool.now.words.table.shared.key.pages }
    requires ready { IsReadyOn pool.now.words B.tells pass.old }
    requires home { (view pass.old).out ≡ None }
    requires held { AreHeld iface.old.frames (view pass.old) }
    ensures ready { IsReadyOn pool.now.words B.tells pass.new }
    ensures home { (view pass.new).out ≡ None }
    ensures held { AreHeld iface.new.frames (view pass.new) }
{
    get(rt, pool, pass, iface, &key)
}

/// The same, once more where the device failed.
fn got_again<R: Wait, B: PageBlock<WORDS>>(
    rt: &R,
    pool: &Pool<Tree, B, WORDS>,
    pass: &mut Pass<Tree>,
    iface: &mut Interface,
    key: u64,
) -> Result<Reply, TreeFault>
    requires pages { 1 ≤ pool.now.words.table.shared.key.pages }
    requires ready { IsReadyOn pool.now.words B.tells pass.old }
    requires home { (view pass.old).out ≡ None }
    requires held { AreHeld iface.old.frames (view pass.old) }
    ensures ready { IsReadyOn pool.now.words B.tells pass.new }
    ensures home { (view pass.new).out ≡ None }
    ensures held { AreHeld iface.new.frames (view pass.new) }
{
    match got(rt, pool, pass, iface, key) {
        Ok(reply) => Ok(reply),
        Err(_) => got(rt, pool, pass, iface, key),
    }
}

/// Each put of a key that was not there was answered so, or by a fault; a key of the first kind has its value, one of the second none.
fn expect_list<R: Wait, B: PageBlock<WORDS>>(
    rt: &R,
    pool: &Pool<Tree, B, WORDS>,
    pass: &mut Pass<Tree>,
    iface: &mut Interface,
    calls: &[Call],
    answers: &[Short],
) -> Result<(), Fail>
    requires pages { 1 ≤ pool.now.words.table.shared.key.pages }
    requires ready { IsReadyOn pool.now.words B.tells pass.old }
    requires home { (view pass.old).out ≡ None }
    requires held { AreHeld iface.old.frames (view pass.old) }
    ensures ready { IfOk result (λ _. IsReadyOn pool.now.words B.tells pass.new) }
    ensures home { IfOk result (λ _. (view pass.new).out ≡ None) }
    ensures held { IfOk result (λ _. AreHeld iface.new.frames (view pass.new)) }
{
    if answers.len() != calls.len() {
        return Err(Fail::from("as many answers as calls"));
    }
    for (call, answer) in calls.iter().zip(answers) {
        if let Call::Put { key, value } = *call {
            let want = match answer {
                Short::Fault(_) => None,
                Short::Was(None) => Some(value),
                _ => return Err(Fail::from(("put", key))),
            };
            let reply = got_again(rt, pool, pass, iface, key);
            if reply != Ok(Reply::Got(want)) {
                return Err(Fail::from(("get", key, reply)));
            }
        }
    }
    Ok(())
}

/// The same of all lists: the pass knows what each worker did.
pub fn expect_lists<R: Wait, B: PageBlock<WORDS>>(
    rt: &R,
    pool: &Pool<Tree, B, WORDS>,
    pass: &mut Pass<Tree>,
    lists: &[Vec<Call>],
    replies: &[Replies],
) -> Result<(), Fail>
    requires pages { 1 ≤ pool.now.words.table.shared.key.pages }
    requires ready { IsReadyOn pool.now.words B.tells pass.old }
    requires home { (view pass.old).out ≡ None }
{
    if replies.len() != lists.len() {
        return Err(Fail::from("as many replies as lists"));
    }
    let mut iface = Interface::new(0, 16);
    for (calls, answers) in lists.iter().zip(replies) {
        expect_list(
            rt,
            pool,
            pass,
            &mut iface,
            calls.as_slice(),
            answers.short.as_slice(),
        )?;
    }
    Ok(())
}

/// How many answers are faults.
pub fn faults_in(replies: &[Replies]) -> usize {
    let mut count = 0usize;
    for answers in replies {
        for answer in answers.short.as_slice() {
            if let Short::Fault(_) = answer {
                count = count.saturating_add(1);
            }
        }
    }
    count
}

/// Each answer that is a fault is this one.
pub fn expect_fault(replies: &[Replies], want: TreeFault) -> Result<(), Fail> {
    for answers in replies {
        for answer in answers.short.as_slice() {
            if let Short::Fault(fault) = answer {
                if *fault != want {
                    return Err(Fail::from(*fault));
                }
            }
        }
    }
    Ok(())
}
