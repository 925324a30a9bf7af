//! A worker: its pass, its interface, what keeps its answers, and the memory for its calls; and its calls of the tree with words as keys.

ghost use Rattle.std.specs.List.{AllByRecursion};
ghost use Rattle.std.specs.Prelude.{[], ◌+◌, ◌∷◌, ◌≡◌, ◌≤◌, length, None};
ghost use Rattle.vm_map.specs.History.{IsAskable};
ghost use Rattle.vm_map.specs.declared.call.Call.TheVariants.{Del, Get, Put, Range, Swap, Window};
ghost use Rattle.vm_rule.specs.Prelude.{Each, HoldsNoPage};
ghost use Rattle.vm_step.specs.Prelude.{AreHeld, IsReadyOn, view};
ghost use Rattle.vm_tree_range.specs.from_vm_tree_read.Waiting.{LosesNone};
ghost use Rattle.vm_calls.specs.Spans.{HasSpans, IsEmptySpan, ranges_asked};
ghost use Rattle.vm_calls.specs.{Keeps.KeepsPass, Workers.HasCalled, Workers.HasKept, Workers.IsAtWork};
ghost use Rattle.vm_calls.specs.{Kept.IsRoomFor, TreeCalls.IsTreeCall, TreeCalls.word_calls};

use crate::answers::{Answer, Answers};
use crate::gate::Gate;
use std::sync::Wait;
use vm_block::PageBlock;
use vm_map::call::Call;
use vm_map::span::Span;
use vm_map::window::Bound;
use vm_owner::Owner;
use vm_rule::words::Pass;
use vm_tree_range::exmap::Interface;
use vm_tree_range::kind::{OfSize, TreeOf, WordKeys};
use vm_tree_range::pool::Pool;
use vm_tree_range::range;
use vm_tree_range::tree_read::{get, window};
use vm_tree_retry::{del, put, swap};

/// A worker's own things.
#[derive(Drop)]
pub struct Worker<U: Owner, A, M> {
    pub pass: Pass<U>,
    pub iface: Interface,
    pub answers: A,
    /// What those of its calls that are not made yet need beside, taken before the first of them.
    pub memory: M,
}

// Makes a get. What a call of the tree says is much, and a proof that has several of them at once grows with each: so there is a function for each kind of call,
// and `answer` has none of the tree's calls itself.
fn answer_get<S: OfSize<N>, R: Wait, B: PageBlock<N>, const N: usize>(
    rt: &R,
    pool: &Pool<TreeOf<WordKeys<S, N>>, B, N>,
    pass: &mut Pass<TreeOf<WordKeys<S, N>>>,
    iface: &mut Interface,
    key: u64,
) -> Answer
    requires ready { IsReadyOn pool.now.words B.tells pass.old }
    requires home { (view pass.old).out ≡ None }
    requires frames { AreHeld iface.old.frames (view pass.old) }
    requires pages { 1 ≤ pool.now.words.table.shared.key.pages }
    ensures ready { IsReadyOn pool.now.words B.tells pass.new }
    ensures call { IsTreeCall N (Get key) result (view pass.old) (view pass.new) }
    ensures held { AreHeld iface.new.frames (view pass.new) }
    ensures lost { LosesNone iface.old.frames (view pass.old) iface.new.frames (view pass.new) }
{
    get(rt, pool, pass, iface, &key)
}

// Makes a put.
fn answer_put<S: OfSize<N>, R: Wait, B: PageBlock<N>, const N: usize>(
    rt: &R,
    pool: &Pool<TreeOf<WordKeys<S, N>>, B, N>,
    pass: &mut Pass<TreeOf<WordKeys<S, N>>>,
    iface: &mut Interface,
    key: u64,
    value: u64,
) -> Answer
    requires ready { IsReadyOn pool.now.words B.tells pass.old }
    requires home { (view pass.old).out ≡ None }
    requires frames { AreHeld iface.old.frames (view pass.old) }
    requires pages { 1 ≤ pool.now.words.table.shared.key.pages }
    ensures ready { IsReadyOn pool.now.words B.tells pass.new }
    ensures call { IsTreeCall N (Put key value) result (view pass.old) (view pass.new) }
    ensures held { AreHeld iface.new.frames (view pass.new) }
    ensures lost { LosesNone iface.old.frames (view pass.old) iface.new.frames (view pass.new) }
{
    put(rt, pool, pass, iface, &key, value)
}

// Makes a del.
fn answer_del<S: OfSize<N>, R: Wait, B: PageBlock<N>, const N: usize>(
    rt: &R,
    pool: &Pool<TreeOf<WordKeys<S, N>>, B, N>,
    pass: &mut Pass<TreeOf<WordKeys<S, N>>>,
    iface: &mut Interface,
    key: u64,
) -> Answer
    requires ready { IsReadyOn pool.now.words B.tells pass.old }
    requires home { (view pass.old).out ≡ None }
    requires frames { AreHeld iface.old.frames (view pass.old) }
    requires pages { 1 ≤ pool.now.words.table.shared.key.pages }
    ensures ready { IsReadyOn pool.now.words B.tells pass.new }
    ensures call { IsTreeCall N (Del key) result (view pass.old) (view pass.new) }
    ensures held { AreHeld iface.new.frames (view pass.new) }
    ensures lost { LosesNone iface.old.frames (view pass.old) iface.new.frames (view pass.new) }
{
    del(rt, pool, pass, iface, &key)
}

// Makes a window.
fn answer_window<S: OfSize<N>, R: Wait, B: PageBlock<N>, const N: usize>(
    rt: &R,
    pool: &Pool<TreeOf<WordKeys<S, N>>, B, N>,
    pass: &mut Pass<TreeOf<WordKeys<S, N>>>,
    iface: &mut Interface,
    start: u64,
    most: u32,
) -> Answer
    requires ready { IsReadyOn pool.now.words B.tells pass.old }
    requires home { (view pass.old).out ≡ None }
    requires frames { AreHeld iface.old.frames (view pass.old) }
    requires pages { 1 ≤ pool.now.words.table.shared.key.pages }
    requires most { 1 ≤ most }
    ensures ready { IsReadyOn pool.now.words B.tells pass.new }
    ensures call { IsTreeCall N (Window start most) result (view pass.old) (view pass.new) }
    ensures held { AreHeld iface.new.frames (view pass.new) }
    ensures lost { LosesNone iface.old.frames (view pass.old) iface.new.frames (view pass.new) }
{
    window(rt, pool, pass, iface, &start, most)
}

// Makes a swap.
fn answer_swap<S: OfSize<N>, R: Wait, B: PageBlock<N>, const N: usize>(
    rt: &R,
    pool: &Pool<TreeOf<WordKeys<S, N>>, B, N>,
    pass: &mut Pass<TreeOf<WordKeys<S, N>>>,
    iface: &mut Interface,
    key: u64,
    want: u64,
    value: u64,
) -> Answer
    requires ready { IsReadyOn pool.now.words B.tells pass.old }
    requires home { (view pass.old).out ≡ None }
    requires frames { AreHeld iface.old.frames (view pass.old) }
    requires pages { 1 ≤ pool.now.words.table.shared.key.pages }
    ensures ready { IsReadyOn pool.now.words B.tells pass.new }
    ensures call { IsTreeCall N (Swap key want value) result (view pass.old) (view pass.new) }
    ensures held { AreHeld iface.new.frames (view pass.new) }
    ensures lost { LosesNone iface.old.frames (view pass.old) iface.new.frames (view pass.new) }
{
    swap(rt, pool, pass, iface, &key, want, value)
}

// Makes a range, which takes one of the spans.
fn answer_range<S: OfSize<N>, R: Wait, B: PageBlock<N>, const N: usize>(
    rt: &R,
    pool: &Pool<TreeOf<WordKeys<S, N>>, B, N>,
    pass: &mut Pass<TreeOf<WordKeys<S, N>>>,
    iface: &mut Interface,
    spans: &mut Vec<Span>,
    low: u64,
    bound: Bound,
) -> Answer
    requires ready { IsReadyOn pool.now.words B.tells pass.old }
    requires home { (view pass.old).out ≡ None }
    requires frames { AreHeld iface.old.frames (view pass.old) }
    requires pages { 1 ≤ pool.now.words.table.shared.key.pages }
    requires some { 1 ≤ length spans.old.items }
    requires empty { Each (IsEmptySpan N) spans.old.items }
    ensures ready { IsReadyOn pool.now.words B.tells pass.new }
    ensures call { IsTreeCall N (Range low bound) result (view pass.old) (view pass.new) }
    ensures spans { length spans.new.items + 1 ≡ length spans.old.items }
    ensures empty { Each (IsEmptySpan N) spans.new.items }
    ensures held { AreHeld iface.new.frames (view pass.new) }
    ensures lost { LosesNone iface.old.frames (view pass.old) iface.new.frames (view pass.new) }
{
    let Some(out) = spans.pop() else {
        unreachable!()
    };
    range(rt, pool, pass, iface, &low, bound, out)
}

// Makes one call. A range takes one of the spans.
fn answer<S: OfSize<N>, R: Wait, B: PageBlock<N>, const N: usize>(
    rt: &R,
    pool: &Pool<TreeOf<WordKeys<S, N>>, B, N>,
    pass: &mut Pass<TreeOf<WordKeys<S, N>>>,
    iface: &mut Interface,
    spans: &mut Vec<Span>,
    call: &Call,
) -> Answer
    requires ready { IsReadyOn pool.now.words B.tells pass.old }
    requires home { (view pass.old).out ≡ None }
    requires frames { AreHeld iface.old.frames (view pass.old) }
    requires pages { 1 ≤ pool.now.words.table.shared.key.pages }
    requires askable { IsAskable call.now }
    requires some { ranges_asked (call.now ∷ []) ≤ length spans.old.items }
    requires empty { Each (IsEmptySpan N) spans.old.items }
    ensures ready { IsReadyOn pool.now.words B.tells pass.new }
    ensures keeps { KeepsPass (view pass.old) (view pass.new) }
    ensures call { IsTreeCall N call.now result (view pass.old) (view pass.new) }
    ensures spans { length spans.new.items + ranges_asked (call.now ∷ []) ≡ length spans.old.items }
    ensures empty { Each (IsEmptySpan N) spans.new.items }
    ensures held { AreHeld iface.new.frames (view pass.new) }
    ensures lost { LosesNone iface.old.frames (view pass.old) iface.new.frames (view pass.new) }
{
    match *call {
        Call::Get { key } => answer_get(rt, pool, pass, iface, key),
        Call::Put { key, value } => answer_put(rt, pool, pass, iface, key, value),
        Call::Del { key } => answer_del(rt, pool, pass, iface, key),
        Call::Window { start, most } => answer_window(rt, pool, pass, iface, start, most),
        Call::Swap { key, want, value } => answer_swap(rt, pool, pass, iface, key, want, value),
        Call::Range { low, bound } => answer_range(rt, pool, pass, iface, spans, low, bound),
    }
}

// Makes the calls, in order.
fn call_all<S: OfSize<N>, R: Wait, B: PageBlock<N>, G: Gate, A: Answers, const N: usize>(
    rt: &R,
    pool: &Pool<TreeOf<WordKeys<S, N>>, B, N>,
    gate: &G,
    number: u32,
    calls: &[Call],
    worker: &mut Worker<TreeOf<WordKeys<S, N>>, A, Vec<Span>>,
)
    requires work { IsAtWork pool.now.words.table.shared.key B.tells pool.now.words.table.shared.table_id worker.old }
    requires room { IsRoomFor calls.now (A.room worker.old.answers) }
    requires fresh { A.keeps worker.old.answers [] }
    requires spans { HasSpans N calls.now worker.old.memory.items }
    requires askable { AllByRecursion IsAskable calls.now }
    ensures work { IsAtWork pool.now.words.table.shared.key B.tells pool.now.words.table.shared.table_id worker.new }
    ensures done { HasCalled (word_calls N) A.keeps calls.now worker.new.answers (view worker.old.pass) (view worker.new.pass) }
    ensures lost { LosesNone worker.old.iface.frames (view worker.old.pass) worker.new.iface.frames (view worker.new.pass) }
{
    let mut count = 0u32;
    'calls: for call in calls {
        count = count.saturating_add(1);
        gate.before(number, count);
        let answer = answer(
            rt,
            pool,
            &mut worker.pass,
            &mut worker.iface,
            &mut worker.memory,
            call,
        );
        gate.after(number, count);
        worker.answers.keep(answer);
    }
}

/// Makes the worker's calls, in order, and gives its frames back.
pub fn work<S: OfSize<N>, R: Wait, B: PageBlock<N>, G: Gate, A: Answers, const N: usize>(
    rt: &R,
    pool: &Pool<TreeOf<WordKeys<S, N>>, B, N>,
    gate: &G,
    number: u32,
    calls: &[Call],
    worker: &mut Worker<TreeOf<WordKeys<S, N>>, A, Vec<Span>>,
)
    requires work { IsAtWork pool.now.words.table.shared.key B.tells pool.now.words.table.shared.table_id worker.old }
    requires holds { HoldsNoPage (view worker.old.pass) }
    requires room { IsRoomFor calls.now (A.room worker.old.answers) }
    requires fresh { A.keeps worker.old.answers [] }
    requires spans { HasSpans N calls.now worker.old.memory.items }
    requires askable { AllByRecursion IsAskable calls.now }
    ensures ready { IsReadyOn pool.now.words B.tells worker.new.pass }
    ensures holds { HoldsNoPage (view worker.new.pass) }
    ensures done { HasKept (word_calls N) A.keeps calls.now worker.new.answers (view worker.old.pass) (view worker.new.pass) }
    ensures lost { LosesNone worker.old.iface.frames (view worker.old.pass) [] (view worker.new.pass) }
{
    call_all(rt, pool, gate, number, calls, worker);
    worker.iface.give_all(&pool.words, &mut worker.pass);
}
