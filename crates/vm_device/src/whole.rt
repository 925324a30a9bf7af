//! All blocks of one file: taken out, made to last, and brought home.

ghost use Rattle.std.specs.Prelude.{◌≡◌, ◌<◌, ◌^◌, length, map, IfErr, IfOk};
ghost use Rattle.vm_device.specs.Whole.{AllAreOut, AreAsked, BringsAll, LeavesHome, SyncsAll, first_unsynced};

use crate::device::Devices;
use crate::sync::SyncBlock;
use std::alloc::{AllocError, Global};
use vm_page::Failed;

/// Why not all blocks of a file were taken out.
#[derive(Clone, Copy)]
pub enum TakeFault {
    /// A block could not be taken out. Its failure was counted.
    Failed,
    /// There was no memory for so many blocks, and none was asked for.
    Memory,
}

/// Takes out the blocks of a file's first so many pages, each once and in order. Where one cannot be taken out, those that were are brought home, and
/// where there is no memory for all none is asked for.
pub fn take_all<D: Devices<N>, const N: usize>(
    alloc: Global,
    devices: &mut D,
    name: &str,
    pages: u32,
) -> Result<Vec<D::B>, TakeFault>
    ensures taken { IfOk result (λ blocks. AllAreOut D.tells (D.state devices.old) (D.state devices.new) name.now pages (map D.B.stored blocks.items)) }
    ensures left { IfErr result (λ fault. LeavesHome D.tells (D.state devices.old) (D.state devices.new) fault) }
{
    // The count of faults is at most its last value.
    let _ = devices.faults();
    let mut blocks = match Vec::with_capacity(alloc, pages as usize) {
        Ok(blocks) => blocks,
        Err(AllocError) => return Err(TakeFault::Memory),
    };
    for p in 0..pages {
        match devices.get(name, p) {
            Ok(block) => blocks.push_reserved(block),
            Err(Failed) => {
                bring_all(devices, name, blocks);
                return Err(TakeFault::Failed);
            }
        }
    }
    Ok(blocks)
}

/// Brings home the blocks of a file's first pages, in order.
pub fn bring_all<D: Devices<N>, const N: usize>(devices: &mut D, name: &str, blocks: Vec<D::B>)
    requires few { length blocks.items < 2 ^ 32 }
    ensures home { BringsAll D.tells (map D.B.stored blocks.items) (D.state devices.old) (D.state devices.new) name.now }
    ensures answered { (D.state devices.new).answered ≡ (D.state devices.old).answered }
{
    // The count of faults is at most its last value.
    let _ = devices.faults();
    let mut p = 0;
    for block in blocks {
        devices.back(name, p, block);
        p += 1;
    }
}

/// Makes the words of each block last, also of those behind one that failed, and answers the least page whose block failed.
pub fn sync_all<B: SyncBlock<N>, const N: usize>(blocks: &mut [B]) -> Option<u32>
    requires few { length blocks.old < 2 ^ 32 }
    ensures stored { SyncsAll B.tells (map B.stored blocks.old) (map B.stored blocks.new) result }
    ensures asked { AreAsked (map B.asked blocks.old) (map B.asked blocks.new) }
{
    let mut first = None;
    for p in 0..blocks.len() {
        let answered = blocks[p].sync().is_ok();
        first = first_unsynced(first, p as u32, answered);
    }
    first
}

// The least page whose sync failed, with one page more.
fn first_unsynced(first: Option<u32>, p: u32, answered: bool) -> Option<u32>
    ensures { result ≡ first_unsynced first p answered }
{
    if first.is_none() && !answered {
        Some(p)
    } else {
        first
    }
}
