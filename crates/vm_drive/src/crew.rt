//! The workers of any kind of calls: hired with a pass each, and joined again.

ghost use Rattle.std.specs.Prelude.{[], ◌*◌, ◌≡◌, ◌≤◌, IfOk, length, None};
ghost use Rattle.std.specs.Vec.{vec_capacity};
ghost use Rattle.vm_rule.specs.Prelude.{Each, HoldsNoPage};
ghost use Rattle.vm_step.specs.Prelude.{GoesOn, IsReadyOn, view};
ghost use Rattle.vm_drive.specs.Crews.{answers_of, AreAtHome, AreHired, AreJoined, IsBack, share_of};

use std::alloc::{AllocError, Global};
use vm_block::Block;
use vm_calls::exmap::Interface;
use vm_calls::pool::Pool;
use vm_calls::worker::Worker;
use vm_owner::Owner;
use vm_rule::words::Pass;

/// What keeps what the workers were answered, and how many pages their sweeps evicted.
#[derive(Drop)]
pub struct DrivenInto<A> {
    /// One for each list, in order.
    pub kept: Vec<A>,
    /// Up to the greatest `u64`.
    pub evicted: u64,
}

/// Room for so many workers, and for what keeps their answers.
pub fn places_for<U: Owner, A: Drop, M: Drop>(
    alloc: Global,
    count: usize,
) -> Result<(Vec<Worker<U, A, M>>, Vec<A>), AllocError>
    ensures workers { IfOk result (λ v. (v.0.items ≡ []) × (count ≤ vec_capacity v.0)) }
    ensures kept { IfOk result (λ v. (v.1.items ≡ []) × (count ≤ vec_capacity v.1)) }
{
    let workers = Vec::with_capacity(alloc, count)?;
    let kept = Vec::with_capacity(alloc, count)?;
    Ok((workers, kept))
}

/// How many frames an interface keeps: a quarter of the worker's share, at most 64.
pub fn cap_for(frames: usize, workers: usize) -> u32
    requires some { 1 ≤ workers }
    requires few { workers ≤ 64 }
    requires share { 8 * workers ≤ frames }
    ensures some { (1 ≤ result) × (result ≤ 64) }
    ensures share { result ≡ share_of frames workers }
{
    (frames / (4 * workers)).min(64) as u32
}

/// Splits off a pass for each room, which gets its list's memory. An interface is at home at its worker's place, modulo the number of bundles.
pub fn hire<U: Owner, B: Block, A: Drop, M: Drop, const N: usize>(
    pool: &Pool<U, B, N>,
    pass: &mut Pass<U>,
    cap: u32,
    rooms: Vec<A>,
    memories: Vec<M>,
    mut workers: Vec<Worker<U, A, M>>,
) -> Vec<Worker<U, A, M>>
    requires ready { IsReadyOn pool.now.words B.tells pass.old }
    requires holds { HoldsNoPage (view pass.old) }
    requires fresh { length rooms.items ≤ length (view pass.old).fresh }
    requires pages { 1 ≤ pool.now.words.table.shared.key.pages }
    requires cap { (1 ≤ cap) × (cap ≤ 64) }
    requires few { length rooms.items ≤ 64 }
    requires memories { length memories.items ≡ length rooms.items }
    requires room { (workers.items ≡ []) × (length rooms.items ≤ vec_capacity workers) }
    ensures goes { GoesOn pool.now.words B.tells pass.old pass.new }
    ensures hired { AreHired pool.now.words.table.shared.key B.tells pool.now.words.table.shared.table_id rooms.items memories.items (view pass.old) result.items (view pass.new) }
    ensures homes { AreAtHome 0 cap result.items }
{
    let mut home = 0u32;
    let mut each = memories.into_iter();
    'rooms: for answers in rooms {
        let Some(memory) = each.next() else {
            unreachable!()
        };
        let own = pool.split_one(pass);
        let iface = Interface::new(home, cap);
        home = home.saturating_add(1);
        let worker = Worker {
            pass: own,
            iface,
            answers,
            memory,
        };
        if workers.push(worker).is_err() {
            unreachable!()
        }
    }
    workers
}

/// Joins the workers' passes, and collects their answers.
pub fn gather<U: Owner, B: Block, A: Drop, M: Drop, const N: usize>(
    pool: &Pool<U, B, N>,
    pass: &mut Pass<U>,
    workers: Vec<Worker<U, A, M>>,
    mut kept: Vec<A>,
) -> DrivenInto<A>
    requires ready { IsReadyOn pool.now.words B.tells pass.old }
    requires home { (view pass.old).out ≡ None }
    requires room { (kept.items ≡ []) × (length workers.items ≤ vec_capacity kept) }
    requires some { 1 ≤ length workers.items }
    requires back { Each (IsBack pool.now.words.table.shared.key B.tells pool.now.words.table.shared.table_id (view pass.old)) workers.items }
    ensures goes { GoesOn pool.now.words B.tells pass.old pass.new }
    ensures joined { AreJoined U.keeps B.tells (view pass.old) workers.items (view pass.new) }
    ensures kept { result.kept.items ≡ answers_of workers.items }
{
    let mut evicted = 0u64;
    'workers: for worker in workers {
        let Worker {
            pass: own,
            iface,
            answers,
            ..
        } = worker;
        evicted = evicted.saturating_add(iface.swept());
        pool.join(pass, own);
        if kept.push(answers).is_err() {
            unreachable!()
        }
    }
    DrivenInto { kept, evicted }
}
