//! The command `run`: a script's calls, made by workers on the tree of a page file.

ghost use Rattle.std.specs.Prelude.{◌≡◌, ◌≤◌};
ghost use Rattle.vm_words.specs.declared.Command.TheVariants as commands;
ghost use Rattle.vm_reading.specs.from_vm_endings.{Deliveries.content_of, Endings.AnswersCommand, Endings.HasReadCause, Files.HasFile};
ghost use Rattle.vm_reading.specs.from_vm_endings.Outside.{Outside, Remains, with_shown, with_unread};
ghost use Rattle.vm_reading.specs.AnyReadings.{IsWordImage};
ghost use Rattle.vm_runs.specs.Answers.{AnswersRun, TellsLimits};

use crate::key_script::run_on_keys;
use crate::outcome::{Outcome, outcome_of};
use std::alloc::{AllocError, Global};
use std::sync::Wait;
use std::thread::Threads;
use vm_io::host::Host;
use vm_page::{LARGE, WORDS};
use vm_reading::any::{AnyTree, read_any_tree};
use vm_reading::drive::Gate;
use vm_reading::endings::{
    Delivery, Ends, Quantity, Stop, Undone, are_entries, are_frames, are_workers, holds_call,
    is_version,
};
use vm_reading::kind::{OfSize, Sizes, TreeOf, WordKeys};
use vm_reading::reading::{ReadTree, StoredTree};
use vm_reading::scripts::read_calls;
use vm_words::Run;

// The number of workers, where the numbers are within their limits; else the first that is not.
fn workers_of(run: &Run<'_>) -> Result<u32, Quantity>
    ensures { TellsLimits run.now result }
{
    if !are_workers(run.workers) {
        return Err(Quantity::Workers);
    }
    if !are_frames(run.workers, run.frames) {
        return Err(Quantity::Frames);
    }
    if !is_version(run.options.first_version.unwrap_or(0)) {
        return Err(Quantity::FirstVersion);
    }
    if !are_entries(run.options.fail.as_slice()) {
        return Err(Quantity::Fail);
    }
    Ok(run.workers as u32)
}

// Makes the script's calls on the tree of the image, whose pages have `N` words, and builds what is told, where the frames are enough for the
// height of the tree.
#[tactic(auto, unfolding(vm_page::specs::Counts::count_more))]
fn run_on<
    'a,
    S: OfSize<N> + Sync,
    R: Threads + Wait + Sync,
    H: Host,
    G: Gate + Sync,
    const N: usize,
>(
    rt: &R,
    alloc: Global,
    host: &mut H,
    run: &Run<'a>,
    workers: u32,
    stored: ReadTree<N>,
    gate: &G,
) -> Result<Outcome<'a, TreeOf<WordKeys<S, N>>>, Undone<Stop<'a>>>
    requires limits { TellsLimits run.now (Ok workers) }
    requires image { HasFile (H.shown host.old) run.now.image.now (IsWordImage N stored) }
    ensures gives { (outside : Outside) (left : Remains) → AnswersRun N run.now (with_shown outside (H.shown host.old)) (with_unread left (H.last host.new)) result }
    ensures shown { H.shown host.new ≡ H.shown host.old }
    ensures puts { H.gives host.new ≡ H.gives host.old }
    ensures later { H.takes host.old ≤ H.takes host.new }
    ensures cause { HasReadCause (H.takes host.old) (H.takes host.new) result }
{
    let ReadTree { image, rows } = stored;
    if !holds_call(rows.height, run.frames) {
        return Err(Undone::Stopped(Stop::Shape(Quantity::Frames)));
    }
    // The calls change the tree: its rows are told of the pages that they leave.
    drop(rows);
    let lists = match read_calls(alloc, host, run.script, workers) {
        Ok(lists) => lists,
        Err(undone) => return Err(undone),
    };
    match outcome_of::<S, R, G, N>(rt, alloc, run, &image, lists.as_slice(), gate) {
        Ok(outcome) => Ok(outcome),
        Err(AllocError) => Err(Undone::Memory),
    }
}

/// Tests the numbers, reads the image, tests whether the frames are enough for the height of its tree, reads the script, makes the calls, and builds what
/// is told. The image's first bytes tell whether keys are words or byte strings. The history is kept in `ends` once nothing can fail any more but the
/// host.
pub fn run_script<'a, R: Threads + Wait + Sync, H: Host, G: Gate + Sync>(
    rt: &R,
    alloc: Global,
    host: &mut H,
    run: &Run<'a>,
    gate: &G,
    ends: &mut Ends,
) -> Result<Delivery<'a>, Undone<Stop<'a>>>
    ensures gives { (outside : Outside) (left : Remains)
        → AnswersCommand content_of (commands.Run run.now) (with_shown outside (H.shown host.old)) (with_unread left (H.last host.new)) ends.old
        ends.new result }
    ensures shown { H.shown host.new ≡ H.shown host.old }
    ensures puts { H.gives host.new ≡ H.gives host.old }
    ensures later { H.takes host.old ≤ H.takes host.new }
    ensures cause { HasReadCause (H.takes host.old) (H.takes host.new) result }
{
    let workers = match workers_of(run) {
        Ok(workers) => workers,
        Err(quantity) => return Err(Undone::Stopped(Stop::Shape(quantity))),
    };
    match read_any_tree(alloc, host, run.image) {
        Ok(AnyTree::Words(StoredTree::Words64(stored))) => {
            match run_on::<Sizes, R, H, G, WORDS>(rt, alloc, host, run, workers, stored, gate) {
                Ok(Outcome { delivery, ended }) => {
                    *ends = Ends::Tree(ended);
                    Ok(delivery)
                }
                Err(undone) => Err(undone),
            }
        }
        Ok(AnyTree::Words(StoredTree::Words512(stored))) => {
            match run_on::<Sizes, R, H, G, LARGE>(rt, alloc, host, run, workers, stored, gate) {
                Ok(Outcome { delivery, ended }) => {
                    *ends = Ends::LargeTree(ended);
                    Ok(delivery)
                }
                Err(undone) => Err(undone),
            }
        }
        Ok(AnyTree::Keys(tree)) => {
            match run_on_keys(rt, alloc, host, run, workers, tree, gate) {
                Ok(Outcome { delivery, ended }) => {
                    *ends = Ends::BytesTree(ended);
                    Ok(delivery)
                }
                Err(undone) => Err(undone),
            }
        }
        Err(undone) => Err(undone),
    }
}
