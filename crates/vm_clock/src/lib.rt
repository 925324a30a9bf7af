//! The clock that chooses pages for eviction: it walks over the frames and looks at the page in each; it marks the pages that it passes, and chooses
//! those that still have their mark when it comes round. Marks are states of the page's word, which a reader takes away.
#![tactic(auto)]

ghost use Rattle.std.specs.Prelude.{◌%◌, ◌*◌, ◌+◌, ◌<◌, ◌≡◌, ◌≤◌, length};
ghost use Rattle.vm_supply.specs.from_vm_step.Prelude.{AreCandidates, GoesOn, IsReadyOn, view};
ghost use Rattle.vm_clock.specs.Clock.{IsChosen, IsFrameVisited, IsPageVisited, looks_counted};
ghost use Rattle.vm_clock.specs.Met.{HoldsChosen};

mod met;
pub mod step;

use crate::met::{MASKS, is_met, no_pages, note};
use arrayvec::ArrayVec;
use vm_block::Block;
use vm_event::{FRAMES, MAX_VERSION, StateWord};
use vm_owner::Ungrouped;
use vm_supply::hand;
use vm_supply::rule::{Pass, Words};
use vm_supply::step::{Candidates, Looks, Took, look_silently, mark, oload};

/// No look yet.
const NO_LOOKS: Looks = Looks {
    found: 0,
    again: 0,
    marked: 0,
    lost: 0,
    held: 0,
    gone: 0,
    worn: 0,
    first_worn: None,
};

/// Chooses up to `want` (1 to 64) candidates, with at most two looks at each frame of the table.
pub fn candidates<U: Ungrouped, B: Block>(
    words: &Words<U, B>,
    pass: &mut Pass<U>,
    want: u32,
) -> Candidates
    requires ready { IsReadyOn words.now B.tells pass.old }
    requires want { (1 ≤ want) × (want ≤ FRAMES) }
    ensures goes { GoesOn words.now B.tells pass.old pass.new }
    ensures chosen { IsChosen want result.looks result.list.items (view pass.old) (view pass.new) }
    ensures list { AreCandidates words.now.table.shared.key.pages result.list.items }
    ensures looks { looks_counted result.looks ≤ 2 * words.now.table.shared.key.frames }
    ensures few { length result.list.items ≤ want }
{
    let drawn = hand(words, pass);
    let mut chosen = Candidates {
        list: ArrayVec::new(),
        looks: NO_LOOKS,
    };
    let mut met = no_pages();
    let mut frame = first_frame(drawn, words.frames);
    for k in 0..2 * words.frames {
        if chosen.list.len() == want as usize {
            return chosen;
        }
        visit_frame(words, pass, frame as u32, &mut met, &mut chosen);
        frame = frame_after(frame, words.frames);
    }
    chosen
}

/// The frame at the place drawn.
fn first_frame(drawn: u64, frames: usize) -> usize
    ensures { 0 < frames → result ≡ drawn % frames }
{
    if frames == 0 {
        return 0;
    }
    (drawn % frames as u64) as usize
}

/// The frame behind this one, round and round. A walk takes many of these steps, so none of them divides.
fn frame_after(frame: usize, frames: usize) -> usize
    requires { frame < frames }
    ensures { result ≡ (frame + 1) % frames }
{
    if frame + 1 == frames { 0 } else { frame + 1 }
}

/// Looks at the page that stands in the frame, where its owner word names one, and counts what the look came to.
fn visit_frame<U: Ungrouped, B: Block>(
    words: &Words<U, B>,
    pass: &mut Pass<U>,
    f: u32,
    met: &mut [u64; MASKS],
    chosen: &mut Candidates,
)
    requires ready { IsReadyOn words.now B.tells pass.old }
    requires frame { f < words.now.table.shared.key.frames }
    requires covers { HoldsChosen met.old chosen.old.list.items }
    requires room { length chosen.old.list.items < FRAMES }
    requires counts { looks_counted chosen.old.looks < 4294967295 }
    ensures goes { GoesOn words.now B.tells pass.old pass.new }
    ensures covers { HoldsChosen met.new chosen.new.list.items }
    ensures visited { IsFrameVisited f chosen.old.looks chosen.old.list.items chosen.new.looks chosen.new.list.items (view pass.old) (view pass.new) }
{
    let owner = oload(words, pass, f);
    if owner == 0 {
        chosen.looks.gone += 1;
        return;
    }
    visit(words, pass, (owner - 1) as u32, met, chosen);
}

/// Looks at the page and counts what the look came to: the first that fits. An unlocked page is marked, a marked one is chosen.
fn visit<U: Ungrouped, B: Block>(
    words: &Words<U, B>,
    pass: &mut Pass<U>,
    p: u32,
    met: &mut [u64; MASKS],
    chosen: &mut Candidates,
)
    requires ready { IsReadyOn words.now B.tells pass.old }
    requires page { p < words.now.table.shared.key.pages }
    requires covers { HoldsChosen met.old chosen.old.list.items }
    requires room { length chosen.old.list.items < FRAMES }
    requires counts { looks_counted chosen.old.looks < 4294967295 }
    ensures goes { GoesOn words.now B.tells pass.old pass.new }
    ensures covers { HoldsChosen met.new chosen.new.list.items }
    ensures visited { IsPageVisited p chosen.old.looks chosen.old.list.items chosen.new.looks chosen.new.list.items (view pass.old) (view pass.new) }
{
    let word = look_silently(words, pass, p);
    let state = StateWord::state(word);
    if is_met(chosen.list.as_slice(), met, p) {
        chosen.looks.again += 1;
    } else if state == StateWord::EVICTED {
        chosen.looks.gone += 1;
    } else if state != StateWord::UNLOCKED && state != StateWord::MARKED {
        chosen.looks.held += 1;
    } else if StateWord::version(word) == MAX_VERSION {
        chosen.looks.worn += 1;
        chosen.looks.first_worn = chosen.looks.first_worn.or(Some(p));
    } else if state == StateWord::MARKED {
        chosen.looks.found += 1;
        chosen.list.push((p, word));
        note(met, p);
    } else {
        match mark(words, pass, p, word) {
            Took::Taken => chosen.looks.marked += 1,
            Took::Lost(_) => chosen.looks.lost += 1,
        }
    }
}
