//! The command `serve`: the numbers are tested, the blocks of the file's pages are taken out, the pages read and checked, the script read, the calls
//! made, the pages flushed and made to last, the blocks brought home, and the text built.

ghost use Rattle.std.specs.Prelude.{◌≡◌, ◌≤◌, length, map, Ok};
ghost use Rattle.vm_words.specs.declared.Command.TheVariants as commands;
ghost use Rattle.vm_reading.specs.from_vm_endings.Deliveries.{content_of};
ghost use Rattle.vm_reading.specs.from_vm_endings.Endings.{AnswersCommand, ChangesDevices, HasUnreadCause, LeavesDevices, UnreadCause};
ghost use Rattle.vm_reading.specs.from_vm_endings.Outside.{Outside, outside_of, Remains, remains_of, with_shown, with_unread};
ghost use Rattle.vm_reading.specs.from_vm_endings.declared_ends_Ends.{Ends};
ghost use Rattle.vm_file_serve.specs.Serving.{IsToServe, MayServe, ReadyCause, Serves, TellsServeLimits};

use crate::pages::{pages_in, taken};
use crate::work::{told, worked};
use std::alloc::{AllocError, Global};
use std::sync::Wait;
use std::thread::Threads;
use vm_block::PageBlock;
use vm_device::{Devices, bring_all, sync_all};
use vm_event::Memory;
use vm_image::Image;
use vm_io::host::Host;
use vm_map::call::Call;
use vm_page::WORDS;
use vm_reading::drive::Gate;
use vm_reading::endings::{Delivery, Ends, Quantity, Stop, Undone, are_frames, are_workers};
use vm_reading::scripts::read_calls;
use vm_reading::serve::ServedOn;
use vm_words::Serve;

/// The pages of the file, and the calls of each worker.
#[derive(Drop)]
pub struct Ready {
    pub image: Image<WORDS>,
    pub lists: Vec<Vec<Call>>,
}

// The number of workers, where the numbers are within their limits; else the first that is not.
fn workers_of(serve: &Serve<'_>) -> Result<u32, Quantity>
    ensures { TellsServeLimits serve.now result }
{
    if !are_workers(serve.workers) {
        return Err(Quantity::Workers);
    }
    if !are_frames(serve.workers, serve.frames) {
        return Err(Quantity::Frames);
    }
    Ok(serve.workers as u32)
}

// Reads the pages through the blocks, and checks them, then reads the script.
fn make_ready<'a, H: Host, B: PageBlock<WORDS>>(
    alloc: Global,
    host: &mut H,
    serve: &Serve<'a>,
    workers: u32,
    blocks: &mut [B],
) -> Result<Ready, Undone<Stop<'a>>>
    requires some { 2 ≤ length blocks.old }
    requires most { length blocks.old ≤ 256 }
    ensures gives { (outside : Outside) (left : Remains)
        → IsToServe B.tells serve.now workers (with_shown outside (H.shown host.old)) (with_unread left (H.last host.new)) (map B.stored blocks.old)
        (map B.stored blocks.new) result }
    ensures shown { H.shown host.new ≡ H.shown host.old }
    ensures puts { H.gives host.new ≡ H.gives host.old }
    ensures later { H.takes host.old ≤ H.takes host.new }
    ensures cause { HasUnreadCause (ReadyCause (H.takes host.old) (H.takes host.new) (map B.stored blocks.old) (map B.stored blocks.new)) result }
{
    let image = match pages_in(alloc, serve.file, serve.frames, blocks) {
        Ok(image) => image,
        Err(undone) => return Err(undone),
    };
    match read_calls(alloc, host, serve.script, workers) {
        Ok(lists) => Ok(Ready { image, lists }),
        Err(undone) => Err(undone),
    }
}

// Makes the calls, flushes the pages and makes them last, brings the blocks home, and builds what is told. The history is kept in `ends` once nothing can
// fail any more but the host.
fn finish<'a, R: Threads + Wait + Sync, G: Gate + Sync, D: Devices<WORDS>>(
    rt: &R,
    alloc: Global,
    serve: &Serve<'a>,
    ready: Ready,
    gate: &G,
    ends: &mut Ends,
    devices: &mut D,
    blocks: Vec<D::B>,
) -> Result<Delivery<'a>, AllocError>
    requires ready { MayServe D.tells serve.now ready (map D.B.stored blocks.items) }
    ensures { Serves D.tells serve.now ready (map D.B.stored blocks.items) (D.state devices.old) (D.state devices.new) ends.old ends.new result }
{
    let Ready { image, lists } = ready;
    let lists = lists.as_slice();
    let served = match worked(rt, alloc, serve.frames as u32, image, lists, gate, blocks) {
        Ok(served) => served,
        Err(Memory) => return Err(AllocError),
    };
    let ServedOn {
        kept,
        evicted,
        report,
        mut blocks,
        ended,
    } = served;
    let unsynced = sync_all(blocks.as_mut_slice());
    bring_all(devices, serve.file, blocks);
    let unsaved = match report.first {
        Some(page) => Some(page),
        None => unsynced,
    };
    let delivery = told(alloc, lists, kept.as_slice(), unsaved, &ended, evicted)?;
    *ends = Ends::Tree(ended);
    Ok(delivery)
}

/// Does what a serve asks for, up to what goes out. Each block that was taken out is home again, unless memory was wanting while calls were made.
pub fn run_serve<'a, R: Threads + Wait + Sync, H: Host, G: Gate + Sync, D: Devices<WORDS>>(
    rt: &R,
    alloc: Global,
    host: &mut H,
    serve: &Serve<'a>,
    gate: &G,
    ends: &mut Ends,
    devices: &mut D,
) -> Result<Delivery<'a>, Undone<Stop<'a>>>
    ensures gives { AnswersCommand content_of (commands.Serve serve.now) (outside_of (H.shown host.old) D.tells (D.state devices.old))
        (remains_of (H.last host.new) (D.state devices.new)) ends.old ends.new result }
    ensures shown { H.shown host.new ≡ H.shown host.old }
    ensures puts { H.gives host.new ≡ H.gives host.old }
    ensures later { H.takes host.old ≤ H.takes host.new }
    ensures cause { HasUnreadCause
        (UnreadCause (commands.Serve serve.now) (H.takes host.old) (H.takes host.new) (outside_of (H.shown host.old) D.tells (D.state devices.old))
        (remains_of (H.last host.new) (D.state devices.new))) result }
    ensures home { LeavesDevices (outside_of (H.shown host.old) D.tells (D.state devices.old)) (remains_of (H.last host.new) (D.state devices.new)) result }
    ensures devices { ChangesDevices (commands.Serve serve.now) (outside_of (H.shown host.old) D.tells (D.state devices.old)) (remains_of (H.last host.new) (D.state devices.new)) }
{
    let workers = match workers_of(serve) {
        Ok(workers) => workers,
        Err(quantity) => return Err(Undone::Stopped(Stop::Shape(quantity))),
    };
    let mut blocks = match taken(alloc, devices, serve.file) {
        Ok(blocks) => blocks,
        Err(undone) => return Err(undone),
    };
    match make_ready(alloc, host, serve, workers, blocks.as_mut_slice()) {
        Ok(ready) => match finish(rt, alloc, serve, ready, gate, ends, devices, blocks) {
            Ok(delivery) => Ok(delivery),
            Err(AllocError) => Err(Undone::Memory),
        },
        Err(undone) => {
            bring_all(devices, serve.file, blocks);
            Err(undone)
        }
    }
}
