// A round of a read that is tried until it is answered: one try, and what its answer asks for, as a page to be brought. A round never waits.
ghost use Rattle.std.specs.Prelude.{◌<◌, ◌≡◌, ◌≤◌, None, ℕ};
ghost use Rattle.vm_map.specs.declared.window.Window.{Window};
ghost use Rattle.vm_map.specs.declared.call.Call.TheVariants.{Get};
ghost use Rattle.vm_map.specs.declared.call.Reply.TheVariants.{Got};
ghost use Rattle.vm_tree_rule.specs.from_vm_step.Prelude.{AreHeld, GoesOn, IsReadyOn, NoneExpected, view};
ghost use Rattle.vm_tree_rule.specs.Turns.{IsTurnedBack};
ghost use Rattle.vm_tree_read.specs.Reads.{IsAnswered, says_window};
ghost use Rattle.vm_tree_read.specs.Waiting.{IsBringFault, IsNoBringFault, IsReadFault, IsRound, LosesNone, NamesFault, NamesNone, RoundTells, Waits};

use crate::read::{look_up, show_window};
use vm_block::PageBlock;
use vm_pool::exmap::Interface;
use vm_pool::rule::Pass;
use vm_pool::{Bring, Pool};
use vm_tree_rule::kind::{Kind, TreeOf, Windows};
use vm_tree_rule::{TreeFault, Turn};

/// What a round came to.
pub enum Round<T> {
    /// The try was answered.
    Done(T),
    /// What the try needed was done: the next one may follow at once.
    Soon,
    /// Others came before, or no frame was free: the next one had better wait.
    Later,
    /// The call can't be answered.
    Failed(TreeFault),
}

/// What a round came to by what bringing a page answered: a fault where a device failed, or a page is at the last version.
pub fn settle<T>(answer: Bring) -> Round<T>
    ensures { RoundTells (λ _. ⊥) (NamesNone answer) (NamesFault answer) result }
{
    match answer {
        Bring::Brought => Round::Soon,
        Bring::Again(_) => Round::Later,
        Bring::Dry { looks: _ } => Round::Later,
        Bring::Worn(pid) => Round::Failed(TreeFault::Worn { pid }),
        Bring::Device { pid, count } => Round::Failed(TreeFault::Device { pid, count }),
    }
}

/// Brings the page that a try needs, once.
pub fn fetch<T, K: Kind, B: PageBlock<N>, const N: usize>(
    pool: &Pool<TreeOf<K>, B, N>,
    pass: &mut Pass<TreeOf<K>>,
    iface: &mut Interface,
    pid: u32,
) -> Round<T>
    requires ready { IsReadyOn pool.now.words B.tells pass.old }
    requires home { (view pass.old).out ≡ None }
    requires frames { AreHeld iface.old.frames (view pass.old) }
    requires page { pid < pool.now.words.table.shared.key.pages }
    ensures goes { GoesOn pool.now.words B.tells pass.old pass.new }
    ensures held { AreHeld iface.new.frames (view pass.new) }
    ensures iface { (iface.new.home ≡ iface.old.home) × (iface.new.cap ≡ iface.old.cap) }
    ensures lost { LosesNone iface.old.frames (view pass.old) iface.new.frames (view pass.new) }
    ensures waits { Waits (view pass.old) (view pass.new) }
    ensures told { RoundTells (λ _. ⊥) (IsNoBringFault pid (view pass.old) (view pass.new)) (λ fault. IsBringFault pid fault (view pass.old) (view pass.new)) result }
{
    let answer = pool.bring(pass, iface, pid);
    settle(answer)
}

/// What a round comes to whose try was turned back: a page that it needs is brought, once.
fn turned_round<T, K: Kind, B: PageBlock<N>, const N: usize>(
    pool: &Pool<TreeOf<K>, B, N>,
    pass: &mut Pass<TreeOf<K>>,
    iface: &mut Interface,
    turn: Turn,
) -> Round<T>
    requires ready { IsReadyOn pool.now.words B.tells pass.old }
    requires home { (view pass.old).out ≡ None }
    requires frames { AreHeld iface.old.frames (view pass.old) }
    requires turned { (v : _) × (key : ℕ) × IsTurnedBack K.layout v key turn (view pass.old) }
    ensures goes { GoesOn pool.now.words B.tells pass.old pass.new }
    ensures held { AreHeld iface.new.frames (view pass.new) }
    ensures iface { (iface.new.home ≡ iface.old.home) × (iface.new.cap ≡ iface.old.cap) }
    ensures lost { LosesNone iface.old.frames (view pass.old) iface.new.frames (view pass.new) }
    ensures told { (v : _) (key : ℕ) → IsTurnedBack K.layout v key turn (view pass.old) → RoundTells (λ _. ⊥)
        (Waits v (view pass.new) × IsRound K.layout NoneExpected key v (view pass.new))
        (λ fault. Waits v (view pass.new) × IsReadFault K.layout key fault v (view pass.new)) result }
{
    match turn {
        Turn::Again(_) => Round::Later,
        Turn::Damaged(pid) => Round::Failed(TreeFault::Damaged { pid }),
        Turn::Need(pid) => fetch(pool, pass, iface, pid),
    }
}

/// A round of a get. A reply has room for a window's pairs, so it is made where it is handed on, and not here.
pub(crate) fn get_round<K: Kind, B: PageBlock<N>, const N: usize>(
    pool: &Pool<TreeOf<K>, B, N>,
    pass: &mut Pass<TreeOf<K>>,
    iface: &mut Interface,
    key: &K::Key,
) -> Round<Option<u64>>
    requires ready { IsReadyOn pool.now.words B.tells pass.old }
    requires pages { 1 ≤ pool.now.words.table.shared.key.pages }
    requires home { (view pass.old).out ≡ None }
    requires frames { AreHeld iface.old.frames (view pass.old) }
    ensures goes { GoesOn pool.now.words B.tells pass.old pass.new }
    ensures held { AreHeld iface.new.frames (view pass.new) }
    ensures iface { (iface.new.home ≡ iface.old.home) × (iface.new.cap ≡ iface.old.cap) }
    ensures lost { LosesNone iface.old.frames (view pass.old) iface.new.frames (view pass.new) }
    ensures told { RoundTells
        (λ value. IsAnswered K.plain K.layout (record { call = Get (K.rank key.now); reply = Got value }) (view pass.old) (view pass.new))
        (Waits (view pass.old) (view pass.new) × IsRound K.layout NoneExpected (K.rank key.now) (view pass.old) (view pass.new))
        (λ fault. Waits (view pass.old) (view pass.new) × IsReadFault K.layout (K.rank key.now) fault (view pass.old) (view pass.new)) result }
{
    match look_up(&pool.words, pass, key) {
        Ok(value) => Round::Done(value),
        Err(turn) => turned_round(pool, pass, iface, turn),
    }
}

/// A round of a window.
pub(crate) fn window_round<K: Windows, B: PageBlock<N>, const N: usize>(
    pool: &Pool<TreeOf<K>, B, N>,
    pass: &mut Pass<TreeOf<K>>,
    iface: &mut Interface,
    start: &K::Key,
    most: u32,
) -> Round<K::Said>
    requires ready { IsReadyOn pool.now.words B.tells pass.old }
    requires pages { 1 ≤ pool.now.words.table.shared.key.pages }
    requires most { 1 ≤ most }
    requires home { (view pass.old).out ≡ None }
    requires frames { AreHeld iface.old.frames (view pass.old) }
    ensures goes { GoesOn pool.now.words B.tells pass.old pass.new }
    ensures held { AreHeld iface.new.frames (view pass.new) }
    ensures iface { (iface.new.home ≡ iface.old.home) × (iface.new.cap ≡ iface.old.cap) }
    ensures lost { LosesNone iface.old.frames (view pass.old) iface.new.frames (view pass.new) }
    ensures told { RoundTells
        (λ said. (shown : Window) × (K.plain said ≡ says_window (K.rank start.now) most shown)
        × IsAnswered K.plain K.layout (says_window (K.rank start.now) most shown) (view pass.old) (view pass.new))
        (Waits (view pass.old) (view pass.new) × IsRound K.layout NoneExpected (K.rank start.now) (view pass.old) (view pass.new))
        (λ fault. Waits (view pass.old) (view pass.new) × IsReadFault K.layout (K.rank start.now) fault (view pass.old) (view pass.new)) result }
{
    match show_window(&pool.words, pass, start, most) {
        Ok(said) => Round::Done(said),
        Err(turn) => turned_round(pool, pass, iface, turn),
    }
}
