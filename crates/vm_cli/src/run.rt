//! The top call: a command line, a host, and the status that the process ends with.

ghost use Rattle.std.specs.Prelude.{◌≡◌, ◌≢◌, map, string_bytes};
ghost use Rattle.vm_io.specs.Causes.{FailedGive};
ghost use Rattle.vm_cli.specs.Agreement.{AgreesWithOthers, IsComplete};
ghost use Rattle.vm_file_serve.specs.from_vm_endings.Endings.{ChangesDevices, CommandEnds, IsHeadline, ProgramEnds, UnreadBy, UnreadCause, UsesDevices};
ghost use Rattle.vm_file_serve.specs.from_vm_endings.Outside.{IsBackHome, outside_of, remains_of};

use crate::command::give;
use std::alloc::Global;
use std::sync::Wait;
use std::thread::Threads;
use vm_device::Devices;
use vm_file_serve::drive::Gate;
use vm_file_serve::endings::{Ends, Undone, deliver, refuse, say};
use vm_io::host::Host;
use vm_page::WORDS;
use vm_words::{Command, WordsFault, command_of};

const USAGE: &[u8] =
    b"usage: vmcache run, make, check, churn, replay, migrate, serve, make-bytes\n";

/// Performs the command of the words after the program's name, and gives the exit status.
///
/// | status | comes |
/// |---|---|
/// | 0 | `run`: the calls were made, every page was flushed, and the kept file was written; the replies, the rows and the counters were said |
/// | 0 | `serve`: the calls were made, every page of the file was flushed and made to last; the replies and the counters were said |
/// | 0 | `make`, `make-bytes`, `migrate`: the file was written, and its size said. `check`: the rows and the size were said. `replay`: what each event saw was said |
/// | 0 | `churn`: the calls were made, every page was flushed, and the counts said |
/// | 1 | exactly where the words are no command; the usage line was said |
/// | 2 | only where a `take` of the host failed, or, in a `serve`, devices counted a fault; the line names the file |
/// | 3 | only where a `replace` or `say` failed, or a `say` took nothing of a piece; nothing was said, and the file that is made, migrated to or kept is as it was |
/// | 3 | or that file has all its bytes, and a front of the text was said |
/// | 4 | exactly where the image, or the file of a `serve`, is refused, or `make` or `migrate` has too few pages |
/// | 5 | exactly where a number, the script or the event list is refused, the frames of a `run` or `serve` are fewer than the tree's height and 8, or an event is illegal |
/// | 6 | want of memory; nothing was said, and no file written but, by a `serve`, pages of its own |
/// | 7 | `run`, `serve`: a write of the last flush failed, or, in a `serve` where none did, a page could not be made to last; the replies, the least such page and the counters were said |
pub fn run<R: Threads + Wait + Sync, H: Host, G: Gate + Sync, D: Devices<WORDS>>(
    rt: &R,
    alloc: Global,
    words: &[String],
    host: &mut H,
    gate: &G,
    ends: &mut Ends,
    devices: &mut D,
) -> u8
    // Of a run: the history that `ends` keeps is legal from the image's map on, and holds each worker's calls once, in the script's order, with
    // the replies that were said; the rows that were said, and the kept file, are its last map. Of a churn: the same of its calls, from the numbered
    // pairs on, and what was said are the counts of that history and of its last map. Of a serve, where devices tell: the same as of a run, from
    // the file's map on, and the file's pages at the end are a tree whose map is the last one.
    ensures headline { result ≡ 0
        → IsHeadline (map string_bytes words.now) (outside_of (H.shown host.old) D.tells (D.state devices.old))
        (remains_of (H.last host.new) (D.state devices.new)) (H.shown host.new) ends.old ends.new }
    // Every status with its cause, what was written and said, and what is kept.
    ensures ends { ProgramEnds (map string_bytes words.now) (outside_of (H.shown host.old) D.tells (D.state devices.old))
        (remains_of (H.last host.new) (D.state devices.new)) (H.shown host.new) ends.old ends.new result }
    ensures read { result ≡ 2
        → UnreadBy (map string_bytes words.now) (H.takes host.old) (H.takes host.new) (outside_of (H.shown host.old) D.tells (D.state devices.old))
        (remains_of (H.last host.new) (D.state devices.new)) }
    ensures write { result ≡ 3 → FailedGive (H.gives host.old) (H.gives host.new) }
    // Each block that a serve took out is home again, unless memory was wanting.
    ensures home { result ≢ 6 → IsBackHome (outside_of (H.shown host.old) D.tells (D.state devices.old)) (remains_of (H.last host.new) (D.state devices.new)) }
    // Only a serve uses devices, and it changes words of its own file's pages alone.
    ensures devices { UsesDevices (map string_bytes words.now) (outside_of (H.shown host.old) D.tells (D.state devices.old)) (remains_of (H.last host.new) (D.state devices.new)) }
    ensures agrees { AgreesWithOthers (map string_bytes words.now) (outside_of (H.shown host.old) D.tells (D.state devices.old)) result }
    // Words and files that pass all tests, of a run and a serve also that the frames are enough for the height of its tree.
    ensures complete { IsComplete (map string_bytes words.now) (outside_of (H.shown host.old) D.tells (D.state devices.old))
        (remains_of (H.last host.new) (D.state devices.new)) (H.takes host.old) (H.takes host.new) (H.gives host.old) (H.gives host.new) result }
{
    match command_of(alloc, words) {
        Ok(command) => perform(rt, alloc, host, command, gate, ends, devices),
        Err(WordsFault::Refused) => say(host, USAGE, 1),
        Err(WordsFault::Memory) => 6,
    }
}

// Performs a command and gives the exit status.
fn perform<R: Threads + Wait + Sync, H: Host, G: Gate + Sync, D: Devices<WORDS>>(
    rt: &R,
    alloc: Global,
    host: &mut H,
    command: Command<'_>,
    gate: &G,
    ends: &mut Ends,
    devices: &mut D,
) -> u8
    ensures ends { CommandEnds command.entry (outside_of (H.shown host.old) D.tells (D.state devices.old))
        (remains_of (H.last host.new) (D.state devices.new)) (H.shown host.new) ends.old ends.new result }
    ensures read { result ≡ 2
        → UnreadCause command.entry (H.takes host.old) (H.takes host.new) (outside_of (H.shown host.old) D.tells (D.state devices.old))
        (remains_of (H.last host.new) (D.state devices.new)) }
    ensures home { result ≢ 6 → IsBackHome (outside_of (H.shown host.old) D.tells (D.state devices.old)) (remains_of (H.last host.new) (D.state devices.new)) }
    ensures devices { ChangesDevices command.entry (outside_of (H.shown host.old) D.tells (D.state devices.old)) (remains_of (H.last host.new) (D.state devices.new)) }
    ensures write { result ≡ 3 → FailedGive (H.gives host.old) (H.gives host.new) }
{
    match give(rt, alloc, host, &command, gate, ends, devices) {
        Ok(delivery) => deliver(host, &delivery),
        Err(Undone::Stopped(stop)) => refuse(alloc, host, stop),
        Err(Undone::Memory) => 6,
    }
}
