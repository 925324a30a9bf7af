// Two fresh pages that are written and released together: the least that a caller of fresh pages and groups does. It stands on their
// contracts alone.
ghost use Rattle.std.specs.Prelude.{◌≡◌, ◌≤◌, IfSome, length, None, true};
ghost use Rattle.vm_step.specs.Prelude.{AreHeld, GoesOn, IsAlone, IsReadyOn, view};
ghost use Rattle.vm_guard.specs.Pairs.{HasFirst};

use crate::free_pages::fresh;
use crate::given::Fresh;
use crate::group::{Group, release_group};
use vm_block::Block;
use vm_owner::Bare;
use vm_rule::words::{Pass, Words};
use vm_step::Batch;

/// Two fresh pages, whose first words are `a` and `b`, all else zeros; or `None` where there are none, or others came before.
pub fn write_two<B: Block>(
    words: &Words<Bare, B>,
    pass: &mut Pass<Bare>,
    frames: &mut Batch,
    a: u64,
    b: u64,
) -> Option<(u32, u32)>
    requires ready { IsReadyOn words.now B.tells pass.old }
    requires home { (view pass.old).out ≡ None }
    requires frames { AreHeld frames.old (view pass.old) × (2 ≤ length frames.old) }
    ensures goes { GoesOn words.now B.tells pass.old pass.new }
    ensures written { IfSome result (λ p. B.tells ≡ true → IsAlone (view pass.old) → HasFirst p.0 a (view pass.new) × HasFirst p.1 b (view pass.new)) }
{
    match fresh(words, pass, frames, 2) {
        Fresh::Pages(given) => {
            let mut group = given;
            let Some(mut second) = group.take_last() else {
                unreachable!();
            };
            let Some(mut first) = group.take_last() else {
                unreachable!();
            };
            group.end();
            first.set(words, pass, 0, a);
            second.set(words, pass, 0, b);
            let pages = (first.pid, second.pid);
            release_group(words, pass, Group::Two(first, second), None);
            Some(pages)
        }
        Fresh::Again(_saw) => None,
        Fresh::Worn(_pid) => None,
        Fresh::Full {
            pages: _pages,
            next: _next,
            need: _need,
        } => None,
    }
}
