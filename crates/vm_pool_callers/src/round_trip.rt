// A word that is written and read again, with a sweep in between: it stands on the contracts of the pool and of the guards alone, and so
// shows that they are enough for a caller.
ghost use Rattle.std.specs.Prelude.{◌<◌, ◌≡◌, false, IfSome, None, Some, true};
ghost use Rattle.vm_page.specs.Pages.{all_zero};
ghost use Rattle.vm_rule.specs.Prelude.{last_of};
ghost use Rattle.vm_step.specs.Prelude.{AreHeld, IsAlone, IsReadyOn, view};
ghost use Rattle.vm_pool_callers.specs.Known.{MayGoRound};

use vm_block::PageBlock;
use vm_event::FRAMES;
use vm_exmap::Interface;
use vm_owner::Bare;
use vm_pool::Pool;
use vm_pool::guard::{ExclusiveGuard, read_word};
use vm_rule::words::Pass;

/// Brings the page, sets its word `i` to `w`, sweeps as many pages as a sweep can, brings the page again and reads that word: it is
/// `w`, or `None` where the page could not be locked or read.
///
/// The pass is alone: it has all parts of the table, and has made a step since it was split or joined. The page's words are not all 0: a page of
/// zeros may be one that nobody uses. The contracts of the pool and of the guards are enough for such a caller to find its word again; nothing
/// else is known of them here. Where it knows that the page is evicted, four versions below the last or more, and that a frame is free, and
/// where the page's block never fails, each call succeeds.
pub fn round_trip<B: PageBlock<N>, const N: usize>(
    pool: &Pool<Bare, B, N>,
    pass: &mut Pass<Bare>,
    iface: &mut Interface,
    pid: u32,
    i: usize,
    w: u64,
) -> Option<u64>
    requires ready { IsReadyOn pool.now.words B.tells pass.old }
    requires home { (view pass.old).out ≡ None }
    requires frames { AreHeld iface.old.frames (view pass.old) }
    requires page { (pid < pool.now.words.table.shared.key.pages) × (i < N) }
    requires used { all_zero (last_of (view pass.old) pid).words ≡ false }
    requires tells { B.tells ≡ true }
    requires alone { IsAlone (view pass.old) }
    ensures word { IfSome result (λ x. x ≡ w) }
    ensures sure { MayGoRound pid iface.old.frames (view pass.old) → result ≡ Some w }
    ensures ready { IsReadyOn pool.now.words B.tells pass.new }
    ensures held { AreHeld iface.new.frames (view pass.new) }
    ensures home { (view pass.new).out ≡ None }
{
    pool.bring(pass, iface, pid);
    let Ok(mut guard) = ExclusiveGuard::take(&pool.words, pass, pid) else {
        return None;
    };
    guard.set(&pool.words, pass, i, w);
    guard.release(&pool.words, pass, None);
    pool.sweep(pass, iface, FRAMES as u32);
    pool.bring(pass, iface, pid);
    read_word(&pool.words, pass, pid, i)
}
