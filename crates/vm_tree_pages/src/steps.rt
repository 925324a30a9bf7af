//! Scripts of calls on a small tree by one pass, whose block is at home behind each: a line names a call and what is to be told of it.
ghost use Rattle.std.specs.Prelude.{◌≡◌, ◌≤◌, IfOk, None};
ghost use Rattle.vm_event.specs.Prelude.{MAX_VERSION};
ghost use Rattle.vm_step.specs.Prelude.{AreHeld, IsReadyOn, view};

use crate::keys::{del_range, get_range, put_range};
use crate::line::{
    KeyRanges, LineKind, PageLooks, ScriptLine, SingleTries, StateLooks, WaitingCalls, answer_told,
    read_told, split_told, window_told, write_told,
};
use crate::pages::{are_unlocked, free_numbers, is_page, touch};
use std::alloc::Global;
use std::sync::Wait;
use std::test::Fail;
use vm_block::{Block, MemBlock};
use vm_event::StateWord;
use vm_exmap::Interface;
use vm_image::PlannedFault;
use vm_map::call::Reply;
use vm_page::{LARGE, WORDS};
use vm_rule::words::Pass;
use vm_tree_callers::calls::{
    get_once, got, open_sized, open_with, state_word, window_from, window_once,
};
use vm_tree_callers::kind::{OfSize, Sizes, TreeOf, WordKeys};
use vm_tree_callers::pool::Pool;
use vm_tree_callers::tree_rule::{Tree, TreeFault};
use vm_tree_callers::write_calls::{
    del_at, del_once, put_at, put_once, split_once, swap_at, swap_once,
};

/// Plays a script over the tree of these bytes, with pages of 64 words, each of which begins at this version; the calls of the plan fail. Each line is
/// `put K V`, `del K`, `get K`, `swap K OLD NEW`, or `try-` before one of these, `try-split K`, `window K N`, `try-window K N` or `free` with ` = ` and what is to be told;
/// or `puts`, `dels`, `gets` or `lacks` with the first key and the end of a range, and for `gets` a value; `page P WORD ..`, whose other words are zeros; `touch P`;
/// or `versions`, with those of pages 0 to 3, `unlocked P V`, `evicted P V`.
pub fn play<R: Wait>(
    rt: &R,
    alloc: Global,
    bytes: &[u8],
    plan: &[PlannedFault],
    first_version: u64,
    script: &str,
) -> Result<(), Fail>
    requires version { first_version ≤ MAX_VERSION }
{
    let (pool, mut pass) = open_with(alloc, bytes, plan, first_version)?;
    let mut iface = Interface::new(0, 16);
    follow(rt, alloc, &pool, &mut pass, &mut iface, script)
}

/// The same on pages of 512 words, where no call fails, and no call is tried once but a put, and no state word is looked at.
pub fn play_large<R: Wait>(rt: &R, alloc: Global, bytes: &[u8], script: &str) -> Result<(), Fail> {
    let (pool, mut pass) = open_sized::<Sizes, LARGE>(alloc, bytes, &[], 0)?;
    let mut iface = Interface::new(0, 16);
    follow_any(rt, alloc, &pool, &mut pass, &mut iface, script)
}

/// Plays a script over a pool that there is.
pub fn follow<R: Wait>(
    rt: &R,
    alloc: Global,
    pool: &Pool<Tree, MemBlock<WORDS>, WORDS>,
    pass: &mut Pass<Tree>,
    iface: &mut Interface,
    script: &str,
) -> Result<(), Fail>
    requires pages { 1 ≤ pool.now.words.table.shared.key.pages }
    requires ready { IsReadyOn pool.now.words ⟦<MemBlock<WORDS> as Block>⟧.tells pass.old }
    requires home { (view pass.old).out ≡ None }
    requires held { AreHeld iface.old.frames (view pass.old) }
    ensures ready { IfOk result (λ _. IsReadyOn pool.now.words ⟦<MemBlock<WORDS> as Block>⟧.tells pass.new) }
    ensures home { IfOk result (λ _. (view pass.new).out ≡ None) }
    ensures held { IfOk result (λ _. AreHeld iface.new.frames (view pass.new)) }
{
    for line in script.lines() {
        if !line.is_empty() {
            let step = ScriptLine::of(alloc, line)?;
            take(rt, alloc, pool, pass, iface, &step)?;
        }
    }
    Ok(())
}

/// The same on pages of any size.
fn follow_any<S: OfSize<N>, R: Wait, const N: usize>(
    rt: &R,
    alloc: Global,
    pool: &Pool<TreeOf<WordKeys<S, N>>, MemBlock<N>, N>,
    pass: &mut Pass<TreeOf<WordKeys<S, N>>>,
    iface: &mut Interface,
    script: &str,
) -> Result<(), Fail>
    requires pages { 1 ≤ pool.now.words.table.shared.key.pages }
    requires ready { IsReadyOn pool.now.words ⟦<MemBlock<N> as Block>⟧.tells pass.old }
    requires home { (view pass.old).out ≡ None }
    requires held { AreHeld iface.old.frames (view pass.old) }
    ensures ready { IfOk result (λ _. IsReadyOn pool.now.words ⟦<MemBlock<N> as Block>⟧.tells pass.new) }
    ensures home { IfOk result (λ _. (view pass.new).out ≡ None) }
    ensures held { IfOk result (λ _. AreHeld iface.new.frames (view pass.new)) }
{
    for line in script.lines() {
        if !line.is_empty() {
            let step = ScriptLine::of(alloc, line)?;
            take_any(rt, alloc, pool, pass, iface, &step)?;
        }
    }
    Ok(())
}

/// Makes the call of a line, on pages of 64 words.
fn take<R: Wait>(
    rt: &R,
    alloc: Global,
    pool: &Pool<Tree, MemBlock<WORDS>, WORDS>,
    pass: &mut Pass<Tree>,
    iface: &mut Interface,
    step: &ScriptLine<'_>,
) -> Result<(), Fail>
    requires pages { 1 ≤ pool.now.words.table.shared.key.pages }
    requires ready { IsReadyOn pool.now.words ⟦<MemBlock<WORDS> as Block>⟧.tells pass.old }
    requires home { (view pass.old).out ≡ None }
    requires held { AreHeld iface.old.frames (view pass.old) }
    ensures ready { IfOk result (λ _. IsReadyOn pool.now.words ⟦<MemBlock<WORDS> as Block>⟧.tells pass.new) }
    ensures home { IfOk result (λ _. (view pass.new).out ≡ None) }
    ensures held { IfOk result (λ _. AreHeld iface.new.frames (view pass.new)) }
{
    match &step.kind {
        LineKind::Tries(tries) => tried(alloc, pool, pass, iface, step, tries),
        LineKind::States(versions) => looked(pool, pass, iface, step, versions),
        _ => take_any(rt, alloc, pool, pass, iface, step),
    }
}

/// Makes the call of a line, on pages of any size.
fn take_any<S: OfSize<N>, R: Wait, const N: usize>(
    rt: &R,
    alloc: Global,
    pool: &Pool<TreeOf<WordKeys<S, N>>, MemBlock<N>, N>,
    pass: &mut Pass<TreeOf<WordKeys<S, N>>>,
    iface: &mut Interface,
    step: &ScriptLine<'_>,
) -> Result<(), Fail>
    requires pages { 1 ≤ pool.now.words.table.shared.key.pages }
    requires ready { IsReadyOn pool.now.words ⟦<MemBlock<N> as Block>⟧.tells pass.old }
    requires home { (view pass.old).out ≡ None }
    requires held { AreHeld iface.old.frames (view pass.old) }
    ensures ready { IfOk result (λ _. IsReadyOn pool.now.words ⟦<MemBlock<N> as Block>⟧.tells pass.new) }
    ensures home { IfOk result (λ _. (view pass.new).out ≡ None) }
    ensures held { IfOk result (λ _. AreHeld iface.new.frames (view pass.new)) }
{
    match &step.kind {
        LineKind::Waits(waits) => {
            let answer = waited(rt, pool, pass, iface, step, waits);
            step.tells(answer_told(alloc, &answer)?.as_str())
        }
        LineKind::Ranges(ranges) => ranged(rt, pool, pass, iface, step, ranges),
        LineKind::Looks(looks) => {
            let told = seen(rt, alloc, pool, pass, iface, step, looks)?;
            step.tells(told.as_str())
        }
        _ => Err(Fail::from("of 64 words")),
    }
}

/// What a call that waits answers.
fn waited<S: OfSize<N>, R: Wait, const N: usize>(
    rt: &R,
    pool: &Pool<TreeOf<WordKeys<S, N>>, MemBlock<N>, N>,
    pass: &mut Pass<TreeOf<WordKeys<S, N>>>,
    iface: &mut Interface,
    step: &ScriptLine<'_>,
    waits: &WaitingCalls,
) -> Result<Reply, TreeFault>
    requires pages { 1 ≤ pool.now.words.table.shared.key.pages }
    requires ready { IsReadyOn pool.now.words ⟦<MemBlock<N> as Block>⟧.tells pass.old }
    requires home { (view pass.old).out ≡ None }
    requires held { AreHeld iface.old.frames (view pass.old) }
    ensures ready { IsReadyOn pool.now.words ⟦<MemBlock<N> as Block>⟧.tells pass.new }
    ensures home { (view pass.new).out ≡ None }
    ensures held { AreHeld iface.new.frames (view pass.new) }
{
    let key = step.number(0);
    let second = step.number(1);
    let third = step.number(2);
    match waits {
        WaitingCalls::Put => put_at(rt, pool, pass, iface, key, second),
        WaitingCalls::Del => del_at(rt, pool, pass, iface, key),
        WaitingCalls::Get => got(rt, pool, pass, iface, key),
        WaitingCalls::Swap => swap_at(rt, pool, pass, iface, key, second, third),
    }
}

/// The calls of each key of a range answer as they are to.
fn ranged<S: OfSize<N>, R: Wait, const N: usize>(
    rt: &R,
    pool: &Pool<TreeOf<WordKeys<S, N>>, MemBlock<N>, N>,
    pass: &mut Pass<TreeOf<WordKeys<S, N>>>,
    iface: &mut Interface,
    step: &ScriptLine<'_>,
    ranges: &KeyRanges,
) -> Result<(), Fail>
    requires pages { 1 ≤ pool.now.words.table.shared.key.pages }
    requires ready { IsReadyOn pool.now.words ⟦<MemBlock<N> as Block>⟧.tells pass.old }
    requires home { (view pass.old).out ≡ None }
    requires held { AreHeld iface.old.frames (view pass.old) }
    ensures ready { IfOk result (λ _. IsReadyOn pool.now.words ⟦<MemBlock<N> as Block>⟧.tells pass.new) }
    ensures home { IfOk result (λ _. (view pass.new).out ≡ None) }
    ensures held { IfOk result (λ _. AreHeld iface.new.frames (view pass.new)) }
{
    let from = step.number(0);
    let to = step.number(1);
    let value = step.number(2);
    match ranges {
        KeyRanges::Put => put_range(rt, pool, pass, iface, from, to),
        KeyRanges::Del => del_range(rt, pool, pass, iface, from, to),
        KeyRanges::Get => get_range(rt, pool, pass, iface, from, to, Some(value)),
        KeyRanges::Lack => get_range(rt, pool, pass, iface, from, to, None),
    }
}

/// What is told of a look, or of a try of a put.
fn seen<S: OfSize<N>, R: Wait, const N: usize>(
    rt: &R,
    alloc: Global,
    pool: &Pool<TreeOf<WordKeys<S, N>>, MemBlock<N>, N>,
    pass: &mut Pass<TreeOf<WordKeys<S, N>>>,
    iface: &mut Interface,
    step: &ScriptLine<'_>,
    looks: &PageLooks,
) -> Result<String, Fail>
    requires pages { 1 ≤ pool.now.words.table.shared.key.pages }
    requires ready { IsReadyOn pool.now.words ⟦<MemBlock<N> as Block>⟧.tells pass.old }
    requires home { (view pass.old).out ≡ None }
    requires held { AreHeld iface.old.frames (view pass.old) }
    ensures ready { IfOk result (λ _. IsReadyOn pool.now.words ⟦<MemBlock<N> as Block>⟧.tells pass.new) }
    ensures home { IfOk result (λ _. (view pass.new).out ≡ None) }
    ensures held { IfOk result (λ _. AreHeld iface.new.frames (view pass.new)) }
{
    let key = step.number(0);
    let value = step.number(1);
    match looks {
        PageLooks::Page => {
            is_page(pool, pass, iface, step.page(), step.rest())?;
            Ok(String::new(alloc))
        }
        PageLooks::Free => {
            let free = free_numbers(pool, pass, iface);
            Ok(format!(in alloc; "{free}")?)
        }
        PageLooks::Window => {
            let window = window_from(rt, pool, pass, iface, key, step.most());
            window_told(alloc, window)
        }
        PageLooks::TryPut => {
            let tried = put_once(pool, pass, iface, key, value);
            write_told(alloc, &tried)
        }
    }
}

/// A try of a call answers as it is to.
fn tried(
    alloc: Global,
    pool: &Pool<Tree, MemBlock<WORDS>, WORDS>,
    pass: &mut Pass<Tree>,
    iface: &mut Interface,
    step: &ScriptLine<'_>,
    tries: &SingleTries,
) -> Result<(), Fail>
    requires pages { 1 ≤ pool.now.words.table.shared.key.pages }
    requires ready { IsReadyOn pool.now.words ⟦<MemBlock<WORDS> as Block>⟧.tells pass.old }
    requires home { (view pass.old).out ≡ None }
    requires held { AreHeld iface.old.frames (view pass.old) }
    ensures ready { IfOk result (λ _. IsReadyOn pool.now.words ⟦<MemBlock<WORDS> as Block>⟧.tells pass.new) }
    ensures home { IfOk result (λ _. (view pass.new).out ≡ None) }
    ensures held { IfOk result (λ _. AreHeld iface.new.frames (view pass.new)) }
{
    let key = step.number(0);
    let second = step.number(1);
    let third = step.number(2);
    let told = match tries {
        SingleTries::Get => read_told(alloc, &get_once(pool, pass, iface, key))?,
        SingleTries::Window => window_told(
            alloc,
            window_once(pool, pass, iface, key, step.most()),
        )?,
        SingleTries::Del => write_told(alloc, &del_once(pool, pass, iface, key))?,
        SingleTries::Swap => write_told(alloc, &swap_once(pool, pass, iface, key, second, third))?,
        SingleTries::Split => split_told(alloc, &split_once(pool, pass, iface, key))?,
    };
    step.tells(told.as_str())
}

/// State words are as they are to be, or a page is locked and released.
fn looked(
    pool: &Pool<Tree, MemBlock<WORDS>, WORDS>,
    pass: &mut Pass<Tree>,
    iface: &mut Interface,
    step: &ScriptLine<'_>,
    versions: &StateLooks,
) -> Result<(), Fail>
    requires pages { 1 ≤ pool.now.words.table.shared.key.pages }
    requires ready { IsReadyOn pool.now.words ⟦<MemBlock<WORDS> as Block>⟧.tells pass.old }
    requires home { (view pass.old).out ≡ None }
    requires held { AreHeld iface.old.frames (view pass.old) }
    ensures ready { IfOk result (λ _. IsReadyOn pool.now.words ⟦<MemBlock<WORDS> as Block>⟧.tells pass.new) }
    ensures home { IfOk result (λ _. (view pass.new).out ≡ None) }
    ensures held { IfOk result (λ _. AreHeld iface.new.frames (view pass.new)) }
{
    let first = step.number(0);
    let second = step.number(1);
    let third = step.number(2);
    let fourth = step.number(3);
    match versions {
        StateLooks::Four => are_unlocked(pool, pass, iface, [first, second, third, fourth]),
        StateLooks::Unlocked => {
            let word = state_word(pool, pass, iface, step.page());
            is_word(word, StateWord::UNLOCKED, second)
        }
        StateLooks::Evicted => {
            let word = state_word(pool, pass, iface, step.page());
            is_word(word, StateWord::EVICTED, second)
        }
        StateLooks::Touch => {
            if touch(pool, pass, iface, step.page()) {
                Ok(())
            } else {
                Err(Fail::from("not locked"))
            }
        }
    }
}

/// A state word has this state and version.
fn is_word(word: Option<u64>, state: u8, version: u64) -> Result<(), Fail> {
    let Some(word) = word else {
        return Err(Fail::from("no page"));
    };
    if StateWord::state(word) == state && StateWord::version(word) == version {
        Ok(())
    } else {
        Err(Fail::from(("state", StateWord::state(word), StateWord::version(word))))
    }
}
