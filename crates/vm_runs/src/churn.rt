//! The command `churn`: many calls, made by workers on a tree of numbered pairs.

ghost use Rattle.std.specs.Prelude.{◌<◌, ◌^◌, ◌≡◌, ◌≤◌, IfOk, length, ℕ};
ghost use Rattle.vm_reading.specs.from_vm_churn.{Calls.churn_count, Tallies.sum_values};
ghost use Rattle.vm_script.specs.Texts.{churn_line};
ghost use Rattle.vm_words.specs.declared.Command.TheVariants as commands;
ghost use Rattle.vm_reading.specs.from_vm_endings.{Churns.DoesChurn, Deliveries.content_of, Endings.AnswersCommand, Endings.HasReadCause, Outside.Outside, Outside.Remains};
ghost use Rattle.vm_runs.specs.Loads.{asked, IsLoaded, IsWithinLimits, TellsLoad};

use crate::outcome::{Outcome, stored_in, told};
use std::alloc::{AllocError, Global};
use std::sync::Wait;
use std::thread::Threads;
use vm_block::MemBlock;
use vm_build::{needed, numbered_image};
use vm_event::Memory;
use vm_map::call::Pair;
use vm_page::{LARGE, WORDS};
use vm_reading::churn::{Tally, calls_of, sum_of, tallies_for, tally_all};
use vm_reading::drive::Gate;
use vm_reading::endings::{
    Delivery, Ends, Quantity, Stop, Undone, are_frames, are_pairs_to_churn, are_words, are_workers,
    words_of,
};
use vm_reading::kind::{OfSize, Sizes, TreeOf, WordKeys};
use vm_reading::reading::ReadTree;
use vm_reading::serve::{ServedOn, serve_into};
use vm_script::text::{Churned, churn_text};
use vm_words::Churn;

/// The numbers of a churn: at most 100,000 pairs, 1 to 64 workers, 64 to 65,536 frames and eight for each worker, and 64 or 512 words of a page. So many frames hold the pages of a call
/// at any time: with twice as many pairs the tree has a height of at most 4. A run, whose tree comes from a file, has to test that.
#[derive(Clone, Copy)]
pub struct Load {
    pub pairs: u32,
    pub seed: u64,
    pub workers: u32,
    pub frames: u32,
    pub words: usize,
}

// The numbers, where they are within their limits; else the first that is not.
fn load_of(churn: &Churn) -> Result<Load, Quantity>
    ensures { TellsLoad churn.now result }
{
    if !are_pairs_to_churn(churn.pairs) {
        return Err(Quantity::Pairs);
    }
    if !are_workers(churn.workers) {
        return Err(Quantity::Workers);
    }
    if !are_frames(churn.workers, churn.frames) {
        return Err(Quantity::Frames);
    }
    let words = words_of(churn.words);
    if !are_words(words) {
        return Err(Quantity::Words);
    }
    Ok(Load {
        pairs: churn.pairs as u32,
        seed: churn.seed,
        workers: churn.workers as u32,
        frames: churn.frames as u32,
        words: words as usize,
    })
}

// Builds the tree on pages of `N` words, and has the calls made on it. Of the answers only tallies are kept, and of the image only its blocks: a churn's memory is
// mostly that of its pages.
fn served<S: OfSize<N> + Sync, R: Threads + Wait + Sync, G: Gate + Sync, const N: usize>(
    rt: &R,
    alloc: Global,
    load: Load,
    gate: &G,
) -> Result<ServedOn<TreeOf<WordKeys<S, N>>, Tally, MemBlock<N>>, AllocError>
    requires within { IsWithinLimits load }
    requires words { load.words ≡ N }
    ensures { IfOk result (λ s. IsLoaded N load s) }
{
    let pages = 4 * needed(N, load.pairs) + 64;
    let image = numbered_image::<N>(alloc, pages, load.seed, load.pairs)?;
    // Any call on the image tells that it has no more pages than a page file may have.
    let _pages = image.pages();
    let lists = calls_of(alloc, load.pairs, load.seed, load.workers)?;
    let lists = lists.as_slice();
    let tallies = tallies_for(alloc, lists)?;
    match serve_into::<S, R, G, Tally, N>(rt, alloc, image, 0, load.frames, lists, gate, tallies) {
        Ok(served) => Ok(served),
        Err(Memory) => Err(AllocError),
    }
}

// The line that tells the counts.
fn text_of(alloc: Global, pairs: u32, tally: Tally, rows: &[Pair]) -> Result<Vec<u8>, AllocError>
    requires pairs { pairs ≤ 100000 }
    requires fits { sum_values rows.now < 2 ^ 64 }
    ensures { IfOk result (λ v. v.items ≡ churn_line pairs (churn_count pairs) tally.some tally.new tally.gone (length rows.now) (sum_values rows.now)) }
{
    let calls = 2 * u64::from(pairs) + u64::from(pairs) / 2;
    let Tally { some, new, gone } = tally;
    let churned = Churned {
        pairs,
        calls,
        some,
        new,
        gone,
        rows: rows.len() as u64,
        sum: sum_of(rows),
    };
    let mut out = Vec::new(alloc);
    churn_text(alloc, churned, &mut out)?;
    Ok(out)
}

// Has the calls made, and builds what is told. The only error is want of memory.
fn churned<'a, S: OfSize<N> + Sync, R: Threads + Wait + Sync, G: Gate + Sync, const N: usize>(
    rt: &R,
    alloc: Global,
    load: Load,
    gate: &G,
) -> Result<Outcome<'a, TreeOf<WordKeys<S, N>>>, AllocError>
    requires within { IsWithinLimits load }
    requires words { load.words ≡ N }
    ensures { IfOk result (λ outcome. DoesChurn N (asked load) (content_of outcome.delivery) outcome.ended × (outcome.delivery.status ≡ 0)) }
{
    let ServedOn {
        kept,
        evicted: _,
        report: _,
        blocks,
        ended,
    } = served::<S, R, G, N>(rt, alloc, load, gate)?;
    let tally = tally_all(kept.as_slice());
    let ReadTree { image: _, rows } = stored_in(alloc, blocks.as_slice())?;
    let text = text_of(alloc, load.pairs, tally, rows.pairs.as_slice())?;
    Ok(told(None, text, 0, ended))
}

/// Tests the numbers, builds the tree, has the calls made, and builds the text. It asks the host for nothing. The history is kept in
/// `ends` once nothing can fail any more but the host.
pub fn run_churn<'a, R: Threads + Wait + Sync, G: Gate + Sync>(
    rt: &R,
    alloc: Global,
    churn: &Churn,
    gate: &G,
    ends: &mut Ends,
) -> Result<Delivery<'a>, Undone<Stop<'a>>>
    ensures gives { (outside : Outside) (left : Remains) → AnswersCommand content_of (commands.Churn churn.now) outside left ends.old ends.new result }
    ensures cause { (takes : ℕ) → HasReadCause takes takes result }
{
    let load = match load_of(churn) {
        Ok(load) => load,
        Err(quantity) => return Err(Undone::Stopped(Stop::Shape(quantity))),
    };
    if load.words == LARGE {
        match churned::<Sizes, R, G, LARGE>(rt, alloc, load, gate) {
            Ok(Outcome { delivery, ended }) => {
                *ends = Ends::LargeTree(ended);
                Ok(delivery)
            }
            Err(AllocError) => Err(Undone::Memory),
        }
    } else {
        match churned::<Sizes, R, G, WORDS>(rt, alloc, load, gate) {
            Ok(Outcome { delivery, ended }) => {
                *ends = Ends::Tree(ended);
                Ok(delivery)
            }
            Err(AllocError) => Err(Undone::Memory),
        }
    }
}
