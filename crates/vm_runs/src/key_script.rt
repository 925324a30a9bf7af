//! The command `run` on a page file with byte keys.

ghost use Rattle.std.specs.Prelude.{◌≡◌, ◌≤◌};
ghost use Rattle.vm_reading.specs.AnyReadings.{IsKeyImage};
ghost use Rattle.vm_reading.specs.from_vm_endings.{Endings.HasReadCause, Files.HasFile};
ghost use Rattle.vm_reading.specs.from_vm_endings.Outside.{Outside, Remains, with_shown, with_unread};
ghost use Rattle.vm_runs.specs.Answers.{AnswersKeyRun, TellsLimits};

use crate::key_outcome::key_outcome_of;
use crate::outcome::Outcome;
use std::alloc::{AllocError, Global};
use std::sync::Wait;
use std::thread::Threads;
use vm_io::host::Host;
use vm_reading::any::KeyTree;
use vm_reading::drive::Gate;
use vm_reading::endings::{Quantity, Stop, Undone, holds_call};
use vm_reading::key_serve::BytesTree;
use vm_reading::scripts::read_key_calls;
use vm_words::Run;

// Makes the script's calls on the tree of the image, and builds what is told, where the frames are enough for the height of the tree.
#[tactic(auto, unfolding(vm_page::specs::Counts::count_more))]
pub(crate) fn run_on_keys<'a, R: Threads + Wait + Sync, H: Host, G: Gate + Sync>(
    rt: &R,
    alloc: Global,
    host: &mut H,
    run: &Run<'a>,
    workers: u32,
    tree: KeyTree,
    gate: &G,
) -> Result<Outcome<'a, BytesTree>, Undone<Stop<'a>>>
    requires limits { TellsLimits run.now (Ok workers) }
    requires image { HasFile (H.shown host.old) run.now.image.now (IsKeyImage tree) }
    ensures gives { (outside : Outside) (left : Remains) → AnswersKeyRun run.now (with_shown outside (H.shown host.old)) (with_unread left (H.last host.new)) result }
    ensures shown { H.shown host.new ≡ H.shown host.old }
    ensures puts { H.gives host.new ≡ H.gives host.old }
    ensures later { H.takes host.old ≤ H.takes host.new }
    ensures cause { HasReadCause (H.takes host.old) (H.takes host.new) result }
{
    let KeyTree { image, rows } = tree;
    if !holds_call(rows.height, run.frames) {
        return Err(Undone::Stopped(Stop::Shape(Quantity::Frames)));
    }
    // The calls change the tree: its rows are told of the pages that they leave.
    drop(rows);
    let lists = match read_key_calls(alloc, host, run.script, workers) {
        Ok(lists) => lists,
        Err(undone) => return Err(undone),
    };
    match key_outcome_of(rt, alloc, run, &image, lists.as_slice(), gate) {
        Ok(outcome) => Ok(outcome),
        Err(AllocError) => Err(Undone::Memory),
    }
}
