//! Passes of a pool: split off, joined, and told of one another.

ghost use Rattle.std.specs.Prelude.{◌<◌, ◌≡◌, ◌≤◌, All, IfErr, IfOk, length, map};
ghost use Rattle.std.specs.Vec.{vec_capacity, vec_len};
ghost use Rattle.vm_rule.specs.Prelude.{HoldsNoPage};
ghost use Rattle.vm_clock.specs.from_vm_step.Prelude.{GoesOn, IsReadyOn, MayStep, Meets, PassesSplit, view, View};
ghost use Rattle.vm_clock.specs.from_vm_step.Together.{TakesIn};
ghost use Rattle.vm_pool.specs.Parting.{HaveMet, Joins, Splits};

use crate::pool::Pool;
use std::alloc::Global;
use vm_block::Block;
use vm_clock::step::{catch_up, follow_pass, hear_pass, join_pass, split_pass};
use vm_event::Memory;
use vm_owner::Owner;
use vm_rule::words::{Pass, Words};

impl<U: Owner, B: Block + Drop, const N: usize> Pool<U, B, N> {
    /// `n` new passes, each with one of this pass's fresh parts as its number. They know what this pass knows of the history, have no entry,
    /// and hold nothing. Where there is no memory for them nothing has changed.
    pub fn split(&self, alloc: Global, pass: &mut Pass<U>, n: usize) -> Result<Vec<Pass<U>>, Memory>
        requires ready { IsReadyOn self.now.words B.tells pass.old }
        requires parts { n ≤ length (view pass.old).fresh }
        ensures goes { GoesOn self.now.words B.tells pass.old pass.new }
        ensures split { IfOk result (λ given. PassesSplit (view pass.old) (map (λ p. view p) given.items) (view pass.new)) }
        ensures each { IfOk result (λ given. All (λ p. IsReadyOn self.now.words B.tells p) given.items) }
        ensures count { IfOk result (λ given. length given.items ≡ n) }
        ensures refused { IfErr result (λ _. pass.new ≡ pass.old) }
    {
        let room = Vec::with_capacity(alloc, n)?;
        catch_up(&self.words, pass);
        Ok(split_each(&self.words, pass, n, room))
    }
}

impl<U: Owner, B: Block, const N: usize> Pool<U, B, N> {
    /// A new pass with the first of this pass's fresh parts as its number. It knows what this pass knows of the history, has no entry, and holds
    /// nothing. It takes no memory.
    pub fn split_one(&self, pass: &mut Pass<U>) -> Pass<U>
        requires ready { IsReadyOn self.now.words B.tells pass.old }
        requires fresh { 0 < length (view pass.old).fresh }
        ensures goes { GoesOn self.now.words B.tells pass.old pass.new }
        ensures new { IsReadyOn self.now.words B.tells result }
        ensures splits { Splits (view pass.old) (view result) (view pass.new) }
    {
        catch_up(&self.words, pass);
        split_pass(&self.words, pass, true)
    }

    /// Takes in another pass, which holds no page: its parts, frames and notes, and what it had seen. Its open reads are closed.
    pub fn join(&self, pass: &mut Pass<U>, mut other: Pass<U>)
        requires ready { IsReadyOn self.now.words B.tells pass.old }
        requires other { MayStep self.now.words.table.shared.table_id other }
        requires nothing { HoldsNoPage (view other) }
        ensures goes { GoesOn self.now.words B.tells pass.old pass.new }
        ensures told { TakesIn (view pass.old) (view other) (view pass.new) }
        ensures joins { Joins B.tells U.keeps (view pass.old) (view other) (view pass.new) }
    {
        catch_up(&self.words, &mut other);
        join_pass(&self.words, pass, other);
    }

    /// Lets both passes know one and the same history, which goes on from what each had seen. All else of both is as it was.
    pub fn meet(&self, pass: &mut Pass<U>, other: &mut Pass<U>)
        requires ready { IsReadyOn self.now.words B.tells pass.old }
        requires other { MayStep self.now.words.table.shared.table_id other.old }
        ensures goes { GoesOn self.now.words B.tells pass.old pass.new }
        ensures other { GoesOn self.now.words B.tells other.old other.new }
        ensures met { Meets (view pass.old) (view other.old) (view pass.new) (view other.new) }
        ensures have { HaveMet (view pass.old) (view other.old) (view pass.new) (view other.new) }
    {
        let theirs = split_pass(&self.words, other, false);
        hear_pass(&self.words, pass, theirs);
        let mine = split_pass(&self.words, pass, false);
        follow_pass(&self.words, other, mine);
    }
}

/// The passes that are split off a pass which was brought up to date. There is room for them.
fn split_each<U: Owner, B: Block>(
    words: &Words<U, B>,
    pass: &mut Pass<U>,
    n: usize,
    mut given: Vec<Pass<U>>,
) -> Vec<Pass<U>>
    requires ready { IsReadyOn words.now B.tells pass.old }
    requires parts { n ≤ length (view pass.old).fresh }
    requires room { (length given.items ≡ 0) × (n ≤ vec_capacity given) × (vec_len given ≡ 0) }
    ensures goes { GoesOn words.now B.tells pass.old pass.new }
    ensures split { (v : View U.Said) → PassesSplit v (map (λ p. view p) given.items) (view pass.old)
        → PassesSplit v (map (λ p. view p) result.items) (view pass.new) }
    ensures each { All (λ p. IsReadyOn words.now B.tells p) result.items }
    ensures count { length result.items ≡ n }
{
    for i in 0..n {
        if given.push(split_pass(words, pass, true)).is_err() {
            unreachable!()
        }
    }
    given
}
