// Where the pages of a group stand: the translation word of each is loaded, one behind another.
ghost use Rattle.std.specs.Prelude.{◌+◌, ◌≡◌, ◌≢◌, ◌<◌, ◌≤◌, length, map, None, slice_index, Some, ℕ};
ghost use Rattle.vm_event.specs.Prelude.{frame_of, mapping_of};
ghost use Rattle.vm_step.specs.Prelude.{GoesOn, IsReadyOn, view};
ghost use Rattle.vm_group_guard.specs.Translations.{AreTranslated};

use arrayvec::ArrayVec;
use vm_block::Block;
use vm_event::TransWord;
use vm_owner::Owner;
use vm_rule::words::{Pass, Words};
use vm_step::tload;

/// How many pages a group has at most.
pub const MOST_PAGES: usize = 8;

/// The translation words of so many pages, from the first one on.
pub(crate) fn translations<U: Owner, B: Block>(
    words: &Words<U, B>,
    pass: &mut Pass<U>,
    head: u32,
    size: usize,
) -> ArrayVec<u64, MOST_PAGES>
    requires ready { IsReadyOn words.now B.tells pass.old }
    requires inside { head + size ≤ words.now.table.shared.key.pages }
    requires few { size ≤ MOST_PAGES }
    ensures goes { GoesOn words.now B.tells pass.old pass.new }
    ensures told { AreTranslated head result.items (view pass.old) (view pass.new) }
    ensures count { length result.items ≡ size }
{
    let mut found = ArrayVec::new();
    for k in 0..size {
        found.push(tload(words, pass, head + k as u32));
    }
    found
}

/// The frames that these translation words name, each of which must name one.
pub(crate) fn frames_of(translations: &[u64]) -> ArrayVec<u32, MOST_PAGES>
    requires few { length translations.now ≤ MOST_PAGES }
    requires named { (k : ℕ) → k < length translations.now → frame_of (mapping_of (slice_index translations.now k)) ≢ None }
    ensures { map (λ t. frame_of (mapping_of t)) translations.now ≡ map (λ f. Some f) result.items }
{
    let mut frames = ArrayVec::new();
    for word in translations {
        match TransWord::frame(*word) {
            Some(frame) => frames.push(frame),
            None => unreachable!(),
        }
    }
    frames
}
