// What guards that hold a lock share: the mark of a lock, and where a page stands that the pass has locked.
ghost use Rattle.std.specs.Prelude.{◌<◌, ◌≡◌, IsSome, Some, ℕ};
ghost use Rattle.vm_event.specs.Prelude.{mapping_of};
ghost use Rattle.vm_rule.specs.Prelude.{IsLocking, no_held, put_at, seat_of, TranslationTold};
ghost use Rattle.vm_step.specs.Prelude.{GoesOn, IsReadyOn, view};

use vm_block::Block;
use vm_event::{Mapping, TransWord};
use vm_owner::Ungrouped;
use vm_rule::words::{Pass, Words};
use vm_step::tload;

/// Marks a guard that holds a lock: no other crate can make one or take it apart, so a guard ends only in a call of its own.
pub(crate) struct Lock;

/// The frame that a translation word names, and whether the page is dirty there.
fn mapping_in(word: u64) -> Mapping
    requires { IsSome (mapping_of word) }
    ensures { mapping_of word ≡ Some result }
{
    let dirty = TransWord::dirty(word);
    match TransWord::frame(word) {
        Some(frame) => Mapping { frame, dirty },
        None => unreachable!(),
    }
}

/// Where a resident page stands that the pass has locked.
pub(crate) fn standing<U: Ungrouped, B: Block>(
    words: &Words<U, B>,
    pass: &mut Pass<U>,
    p: u32,
) -> Mapping
    requires ready { IsReadyOn words.now B.tells pass.old }
    requires page { p < words.now.table.shared.key.pages }
    requires locked { IsLocking (seat_of (view pass.old) p) }
    requires resident { IsSome (put_at no_held (view pass.old).held p).mapping }
    ensures goes { GoesOn words.now B.tells pass.old pass.new }
    ensures told { (word : ℕ) × TranslationTold p word (view pass.old) (view pass.new) × (mapping_of word ≡ Some result) }
{
    mapping_in(tload(words, pass, p))
}
