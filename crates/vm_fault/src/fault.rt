// A page that is not in memory is brought from its block into a frame.
ghost use Rattle.std.specs.Prelude.{◌<◌, ◌≡◌, None, true};
ghost use Rattle.vm_event.specs.Prelude.{EVICTED, MAX_VERSION};
ghost use Rattle.vm_page.specs.Sizes.{IsSize};
ghost use Rattle.vm_supply.specs.from_vm_rule.Prelude.{has};
ghost use Rattle.vm_supply.specs.from_vm_step.Prelude.{GoesOn, IsReadyOn, view};
ghost use Rattle.vm_fault.specs.Fetches.{IsFetched, IsFoundEvicted};

use vm_block::PageBlock;
use vm_event::{MAX_VERSION, StateWord};
use vm_owner::Ungrouped;
use vm_page::PageBuf;
use vm_supply::rule::{Pass, Words};
use vm_supply::step::{
    At, Saw, Took, fill, install, lock_exclusive, look_silently, own, release_evicted,
    release_silently,
};
use vm_supply::{block_home, block_out, raise};

/// What bringing a page into a frame answers.
#[derive(Clone, Copy, Debug, PartialEq, Eq)]
pub enum Fetch {
    /// The page is resident in the frame.
    Brought,
    /// The page was not Evicted, or another came before.
    Again { frame: u32, saw: Saw },
    /// The page is Evicted at the last version.
    Worn { frame: u32, pid: u32 },
    /// The page's block could not be read; the page is Evicted at its next version, and the fault has this count.
    Device { frame: u32, pid: u32, count: u64 },
}

/// The answer that the page's word was another one than `first`.
fn again(pid: u32, frame: u32, first: u64, seen: u64) -> Fetch
    ensures { result ≡ Fetch.Again frame (record { at = At.Page pid; first = first; seen = seen }) }
{
    Fetch::Again {
        frame,
        saw: Saw {
            at: At::Page(pid),
            first,
            seen,
        },
    }
}

/// Reads the block of the page, which was locked Evicted at `version`, and releases the page: resident in the frame, or Evicted again.
fn bring_locked<U: Ungrouped, B: PageBlock<N>, const N: usize>(
    words: &Words<U, B>,
    pass: &mut Pass<U>,
    pid: u32,
    frame: u32,
    version: u64,
) -> Fetch
    requires ready { IsReadyOn words.now B.tells pass.old }
    requires sized { IsSize N }
    requires size { N ≡ words.now.table.shared.key.size }
    requires page { pid < words.now.table.shared.key.pages }
    requires frame { (frame < words.now.table.shared.key.frames) × (has frame (view pass.old).frames ≡ true) }
    requires home { (view pass.old).out ≡ None }
    requires below { version < MAX_VERSION }
    requires locked { (first : _) × IsFoundEvicted U.tied pid version first (view pass.old) }
    ensures goes { GoesOn words.now B.tells pass.old pass.new }
    ensures fetched { (first : _) → IsFoundEvicted U.tied pid version first (view pass.old) → IsFetched pid frame first (view pass.new) result }
{
    let mut block = block_out(words, pass, pid);
    let mut page = PageBuf::<N>::zero();
    let read = block.read(&mut page);
    let count = block.faults();
    block_home(words, pass, pid, block);
    match read {
        Ok(()) => {
            fill(words, pass, frame, &page);
            install(words, pass, pid, frame);
            own(words, pass, pid, frame);
            release_silently(words, pass, pid, version);
            Fetch::Brought
        }
        Err(_) => {
            raise(words, pass, pid, count);
            release_evicted(words, pass, pid, version);
            Fetch::Device { frame, pid, count }
        }
    }
}

/// Brings page `pid`, where it is Evicted below the last version, from its block into a frame of the pass, with at most one call of the
/// device. On every answer but `Brought` the frame comes back with it.
pub fn fault_in<U: Ungrouped, B: PageBlock<N>, const N: usize>(
    words: &Words<U, B>,
    pass: &mut Pass<U>,
    pid: u32,
    frame: u32,
) -> Fetch
    requires ready { IsReadyOn words.now B.tells pass.old }
    requires sized { IsSize N }
    requires size { N ≡ words.now.table.shared.key.size }
    requires page { pid < words.now.table.shared.key.pages }
    requires frame { (frame < words.now.table.shared.key.frames) × (has frame (view pass.old).frames ≡ true) }
    requires home { (view pass.old).out ≡ None }
    ensures goes { GoesOn words.now B.tells pass.old pass.new }
    ensures fetched { IsFetched pid frame (view pass.old) (view pass.new) result }
{
    let word = look_silently(words, pass, pid);
    let version = StateWord::version(word);
    let first = StateWord::of(StateWord::EVICTED, version);
    if version == MAX_VERSION {
        if word == first {
            return Fetch::Worn { frame, pid };
        }
        return again(pid, frame, first, word);
    }
    match lock_exclusive(words, pass, pid, first) {
        Took::Lost(seen) => again(pid, frame, first, seen),
        Took::Taken => bring_locked::<U, B, N>(words, pass, pid, frame, version),
    }
}
