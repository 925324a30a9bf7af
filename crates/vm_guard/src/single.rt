// One word of a page, read optimistically: the least that a caller of the guards does. It stands on their contracts alone.
ghost use Rattle.std.specs.Prelude.{◌<◌, ◌≡◌, IfSome, IsSome, slice_index, true};
ghost use Rattle.vm_event.specs.Prelude.{is_readable, state_of};
ghost use Rattle.vm_rule.specs.Prelude.{last_of};
ghost use Rattle.vm_step.specs.Prelude.{GoesOn, IsAlone, IsReadyOn, StaysAlone, view};
ghost use Rattle.vm_guard.specs.Sure.{known_word};

use crate::opt::OptGuard;
use vm_block::Block;
use vm_owner::Ungrouped;
use vm_rule::words::{Pass, Words};

/// Word `i` of the page's last version, or `None` where the page could not be read so: it was Locked or Evicted, or changed
/// meanwhile. The pass keeps its frames.
pub fn read_word<U: Ungrouped, B: Block>(
    words: &Words<U, B>,
    pass: &mut Pass<U>,
    pid: u32,
    i: usize,
) -> Option<u64>
    requires ready { IsReadyOn words.now B.tells pass.old }
    requires page { (pid < words.now.table.shared.key.pages) × (i < words.now.table.shared.key.size) }
    ensures goes { GoesOn words.now B.tells pass.old pass.new }
    ensures frames { ((view pass.new).start ≡ (view pass.old).start) × ((view pass.new).frames ≡ (view pass.old).frames) }
    ensures out { (view pass.new).out ≡ (view pass.old).out }
    ensures alone { StaysAlone (view pass.old) (view pass.new) }
    ensures sure { IsAlone (view pass.old) → is_readable (state_of (known_word pid (view pass.old))) ≡ true → IsSome result }
    ensures word { IfSome result (λ word. B.tells ≡ true → word ≡ slice_index (last_of (view pass.new) pid).words i) }
{
    let Ok(guard) = OptGuard::start(words, pass, pid) else {
        return None;
    };
    let word = guard.word(words, pass, i);
    match guard.validate_silently(words, pass) {
        Ok(()) => Some(word),
        Err(_) => None,
    }
}
