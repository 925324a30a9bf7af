// A walk over the bundles for free frames: each is visited once, from a home on and round, until the bits asked of one of them are taken.
ghost use Rattle.std.specs.Prelude.{◌*◌, ◌<◌, ◌≤◌};
ghost use Rattle.vm_supply.specs.from_vm_step.Prelude.{GoesOn, IsReadyOn, view};
ghost use Rattle.vm_exmap.specs.Visits.{IsVisited, IsWalk};

use crate::bits::frames_of;
use crate::interface::Alloc;
use vm_block::Block;
use vm_event::{Bundle, FRAMES};
use vm_owner::Owner;
use vm_supply::rule::{Pass, Words};
use vm_supply::step::{At, Saw, Took};
use vm_supply::{bload, take};

/// What came of a visit to a bundle.
pub(crate) enum Visited {
    /// Its word was 0.
    Empty,
    /// The bits asked for were lost.
    Lost(Saw),
    /// These bits were taken.
    Taken(u64),
}

/// Visits bundle `g`, and asks for its `most` lowest bits (1 or more).
pub(crate) fn visit<U: Owner, B: Block>(
    words: &Words<U, B>,
    pass: &mut Pass<U>,
    g: u32,
    most: u32,
) -> Visited
    requires ready { IsReadyOn words.now B.tells pass.old }
    requires bundle { g * FRAMES < words.now.table.shared.key.frames }
    requires some { 1 ≤ most }
    ensures goes { GoesOn words.now B.tells pass.old pass.new }
    ensures visited { IsVisited most g (view pass.old) (view pass.new) result }
{
    let word = bload(words, pass, g);
    if word == 0 {
        return Visited::Empty;
    }
    let mask = Bundle::lowest(word, most);
    match take(words, pass, g, word, mask) {
        Took::Taken => Visited::Taken(mask),
        Took::Lost(seen) => Visited::Lost(Saw {
            at: At::Bundle(g),
            first: word,
            seen,
        }),
    }
}

/// Walks over the bundles once, from `home` on and round, and takes the `most` lowest bits (1 or more) of the first one whose exchange
/// succeeds.
pub(crate) fn walk<U: Owner, B: Block>(
    words: &Words<U, B>,
    pass: &mut Pass<U>,
    home: u32,
    most: u32,
) -> Alloc
    requires ready { IsReadyOn words.now B.tells pass.old }
    requires some { 1 ≤ most }
    ensures goes { GoesOn words.now B.tells pass.old pass.new }
    ensures walk { IsWalk most home (view pass.old) (view pass.new) result }
{
    let bundles = words.frames.div_ceil(FRAMES) as u64;
    let mut lost = None;
    for k in 0..bundles {
        let g = ((u64::from(home) + k) % bundles) as u32;
        match visit(words, pass, g, most) {
            Visited::Empty => {}
            Visited::Lost(saw) => lost = Some(saw),
            Visited::Taken(mask) => return Alloc::Batch(frames_of(g, mask)),
        }
    }
    match lost {
        None => Alloc::Dry,
        Some(saw) => Alloc::Again(saw),
    }
}
