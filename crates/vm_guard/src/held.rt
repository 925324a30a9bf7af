// An entry that two pages prove together: the least that a caller of a share with an entry does. It stands on the guards' contracts alone.
ghost use Rattle.std.specs.Prelude.{◌+◌, ◌++◌, ◌<◌, ◌≡◌, ◌≢◌, false, IfErr, IfOk, None, Some};
ghost use Rattle.vm_event.specs.Prelude.{version_of};
ghost use Rattle.vm_rule.specs.Prelude.{entries_of, seat_of};
ghost use Rattle.vm_step.specs.Prelude.{GoesOn, IsReadyOn, view};
ghost use Rattle.vm_guard.specs.{Guards.IsReading, Guards.IsSharing, Pairs.SaysOfTwo};

use crate::deny::Deny;
use crate::opt::OptGuard;
use crate::shared::SharedGuard;
use vm_block::Block;
use vm_owner::Ungrouped;
use vm_rule::words::{Pass, Words};

/// Takes a share of the page that is read, and makes what is said an entry there, which this page proves with the one that is held: that one has
/// the words that the pass knows, this one those that were read. Then the share that was held is given up.
pub fn say_of_two<U: Ungrouped, B: Block>(
    words: &Words<U, B>,
    pass: &mut Pass<U>,
    held: SharedGuard,
    guard: OptGuard,
    said: &U::Said,
) -> Result<SharedGuard, Deny>
    requires ready { IsReadyOn words.now B.tells pass.old }
    requires page { guard.pid < words.now.table.shared.key.pages }
    requires apart { held.pid ≢ guard.pid }
    requires shares { IsSharing held.pid held.frame (view pass.old) }
    requires writing { (seat_of (view pass.old) held.pid).writing ≡ false }
    requires home { (view pass.old).out ≡ None }
    requires reading { IsReading guard.pid guard.word guard.frame (view pass.old) }
    requires owner { SaysOfTwo U.tied U.may_hold held.pid guard.pid (version_of guard.word) said.now (view pass.old) }
    ensures goes { GoesOn words.now B.tells pass.old pass.new }
    ensures said { IfOk result
        (λ shared. (shared.pid ≡ guard.pid) × ((view pass.new).mine ≡ (view pass.old).mine ++ entries_of (view pass.old) (Some said.now))) }
    ensures unsaid { IfErr result (λ _. (view pass.new).mine ≡ (view pass.old).mine) }
    ensures shares { IfOk result (λ shared. IsSharing guard.pid shared.frame (view pass.new)) }
    ensures given { (seat_of (view pass.new) held.pid).shares + 1 ≡ (seat_of (view pass.old) held.pid).shares }
{
    let shared = guard.share(words, pass, Some(said));
    held.drop_with(words, pass);
    shared
}
