// Where a word stands among the words of a table: those of the pages, the frames and the bundles, the next word, the hand's word, the owner words,
// and the free-number words.
ghost use Rattle.std.specs.Prelude.{◌*◌, ◌+◌, ◌<◌, ◌≡◌, ◌≤◌};
ghost use Rattle.vm_rule.specs.declared.view.WordPlace.TheVariants as places;
ghost use Rattle.vm_step.specs.Prelude.{IsFrameAt, IsPlacedAt};

use vm_block::Block;
use vm_event::FRAMES;
use vm_owner::Owner;
use vm_rule::words::Words;

/// The place of a page's state word.
pub fn state_place<U: Owner, B: Block>(_words: &Words<U, B>, p: u32) -> usize
    requires page { p < _words.now.table.shared.key.pages }
    ensures is { result ≡ p }
    ensures place { IsPlacedAt _words.now.table.shared.key (places.State p) result }
    ensures inside { result < _words.now.table.shared.table_id.words }
{
    p as usize
}

/// The place of a page's translation word.
pub(crate) fn translation_place<U: Owner, B: Block>(words: &Words<U, B>, p: u32) -> usize
    requires page { p < words.now.table.shared.key.pages }
    ensures place { IsPlacedAt words.now.table.shared.key (places.Translation p) result }
    ensures inside { result < words.now.table.shared.table_id.words }
{
    words.pages + p as usize
}

/// The place of a page's fault word.
pub fn fault_place<U: Owner, B: Block>(words: &Words<U, B>, p: u32) -> usize
    requires page { p < words.now.table.shared.key.pages }
    ensures place { IsPlacedAt words.now.table.shared.key (places.Fault p) result }
    ensures inside { result < words.now.table.shared.table_id.words }
{
    2 * words.pages + p as usize
}

/// How many words so many pages have.
fn words_of_pages(size: usize, pages: usize) -> usize
    requires { (size ≤ 512) × (pages ≤ 65536) }
    ensures is { result ≡ size * pages }
    ensures few { result ≤ 33554432 }
{
    size * pages
}

/// The place of a frame's first word, worked out once for many steps on the frame's words.
pub fn frame_place<U: Owner, B: Block>(words: &Words<U, B>, f: u32) -> usize
    requires frame { f < words.now.table.shared.key.frames }
    ensures { IsFrameAt words.now.table.shared.key words.now.table.shared.table_id.words f result }
{
    3 * words.pages + words_of_pages(words.size.words, f as usize)
}

/// The place behind the words of all frames.
fn behind_frames<U: Owner, B: Block>(words: &Words<U, B>) -> usize
    ensures place { result ≡ 3 * words.now.table.shared.key.pages + words.now.table.shared.key.size * words.now.table.shared.key.frames }
    ensures small { result ≤ 33751040 }
{
    3 * words.pages + words_of_pages(words.size.words, words.frames)
}

/// The place of a bundle's word.
pub fn bundle_place<U: Owner, B: Block>(words: &Words<U, B>, g: u32) -> usize
    requires bundle { g * FRAMES < words.now.table.shared.key.frames }
    ensures place { IsPlacedAt words.now.table.shared.key (places.Bundle g) result }
    ensures inside { result < words.now.table.shared.table_id.words }
{
    behind_frames(words) + g as usize
}

/// The place of the next word.
pub fn next_place<U: Owner, B: Block>(words: &Words<U, B>) -> usize
    ensures place { IsPlacedAt words.now.table.shared.key places.Next result }
    ensures inside { result < words.now.table.shared.table_id.words }
{
    behind_frames(words) + words.frames.div_ceil(FRAMES)
}

/// The place of the hand's word, behind the next word.
pub fn hand_place<U: Owner, B: Block>(words: &Words<U, B>) -> usize
    ensures place { IsPlacedAt words.now.table.shared.key places.Hand result }
    ensures inside { result < words.now.table.shared.table_id.words }
{
    behind_frames(words) + words.frames.div_ceil(FRAMES) + 1
}

/// The place of a frame's owner word.
pub(crate) fn owner_place<U: Owner, B: Block>(words: &Words<U, B>, f: u32) -> usize
    requires frame { f < words.now.table.shared.key.frames }
    ensures place { IsPlacedAt words.now.table.shared.key (places.Owner f) result }
    ensures inside { result < words.now.table.shared.table_id.words }
{
    behind_frames(words) + words.frames.div_ceil(FRAMES) + 2 + f as usize
}

/// The place of a free-number word, behind the owner words.
pub(crate) fn spare_place<U: Owner, B: Block>(words: &Words<U, B>, g: u32) -> usize
    requires word { g * FRAMES < words.now.table.shared.key.pages }
    ensures place { IsPlacedAt words.now.table.shared.key (places.Spare g) result }
    ensures inside { result < words.now.table.shared.table_id.words }
{
    behind_frames(words) + words.frames.div_ceil(FRAMES) + 2 + words.frames + g as usize
}
