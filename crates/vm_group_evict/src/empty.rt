// The pages of a group are taken out of their frames.
ghost use Rattle.std.specs.Prelude.{◌+◌, ◌<◌, ◌≤◌, ℕ};
ghost use Rattle.vm_step.specs.Prelude.{GoesOn, IsReadyOn, view};
ghost use Rattle.vm_group_guard.specs.Group.{IsUnder};
ghost use Rattle.vm_group_evict.specs.Emptying.{AreEmptied, IsPutOut, IsOwnedClean};

use arrayvec::ArrayVec;
use vm_block::Block;
use vm_event::TransWord;
use vm_group_guard::MOST_PAGES;
use vm_owner::Owner;
use vm_rule::words::{Pass, Words};
use vm_step::{clear, disown, tload};

/// Takes so many pages, which are held exclusively and clean, out of their frames, whose owner words name them no more. The frames come to the pass.
pub(crate) fn empty_pages<U: Owner, B: Block>(
    words: &Words<U, B>,
    pass: &mut Pass<U>,
    head: u32,
    size: usize,
) -> ArrayVec<u32, MOST_PAGES>
    requires ready { IsReadyOn words.now B.tells pass.old }
    requires inside { head + size ≤ words.now.table.shared.key.pages }
    requires few { size ≤ MOST_PAGES }
    requires owned { (q : ℕ) → IsUnder head size q → (frame : ℕ) × IsOwnedClean q frame (view pass.old) }
    ensures goes { GoesOn words.now B.tells pass.old pass.new }
    ensures emptied { AreEmptied head size result.items (view pass.old) (view pass.new) }
{
    let mut frames = ArrayVec::new();
    for k in 0..size {
        frames.push(empty_page(words, pass, head + k as u32));
    }
    frames
}

/// Takes one of them out of its frame.
fn empty_page<U: Owner, B: Block>(words: &Words<U, B>, pass: &mut Pass<U>, p: u32) -> u32
    requires ready { IsReadyOn words.now B.tells pass.old }
    requires page { p < words.now.table.shared.key.pages }
    requires owned { (frame : ℕ) × IsOwnedClean p frame (view pass.old) }
    ensures goes { GoesOn words.now B.tells pass.old pass.new }
    ensures emptied { IsPutOut p result (view pass.old) (view pass.new) }
{
    let Some(frame) = TransWord::frame(tload(words, pass, p)) else {
        unreachable!()
    };
    disown(words, pass, p, frame);
    clear(words, pass, p);
    frame
}
