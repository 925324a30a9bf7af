//! Each event that changes or sees a state word keeps the invariant of the core.
#![tactic(auto)]

ghost use Rattle.std.specs.Prelude.{ℕ};
ghost use Rattle.vm_event.specs.Prelude.{Keeps, Validates, World};
ghost use Rattle.vm_event.specs.declared.event.Event.TheVariants.{Downgrade, LockS, LockW, LockX, Look, Mark, Release, ReleaseE, UnlockS, Unmark};
ghost use Rattle.vm_event.specs.declared.event.Event.TheVariants.{Upgrade};

/// A look keeps the invariant.
#[tactic(auto, using(crate::proofs::Laws::look_law))]
pub fn look_keeps()
    ensures { (w : World) (a p : ℕ) → Keeps w (Look a p) }
{}

/// An exclusive lock keeps the invariant.
pub fn lock_exclusive_keeps()
    ensures { (w : World) (a p expects : ℕ) → Keeps w (LockX a p expects) }
{}

/// A shared lock keeps the invariant.
pub fn lock_shared_keeps()
    ensures { (w : World) (a p expects : ℕ) → Keeps w (LockS a p expects) }
{}

/// A share given up keeps the invariant.
#[tactic(auto, using(crate::proofs::Laws::unlock_shared_law))]
pub fn unlock_shared_keeps()
    ensures { (w : World) (a p : ℕ) → Keeps w (UnlockS a p) }
{}

/// A mark keeps the invariant.
pub fn mark_keeps()
    ensures { (w : World) (a p expects : ℕ) → Keeps w (Mark a p expects) }
{}

/// A mark taken away keeps the invariant.
pub fn unmark_keeps()
    ensures { (w : World) (a p expects : ℕ) → Keeps w (Unmark a p expects) }
{}

/// A lock for write-back keeps the invariant.
#[tactic(auto, using(crate::proofs::Laws::lock_write_back_law))]
pub fn lock_write_back_keeps()
    ensures { (w : World) (a p expects : ℕ) → Keeps w (LockW a p expects) }
{}

/// A write-back that becomes an exclusive lock keeps the invariant.
#[tactic(auto, using(crate::proofs::Laws::upgrade_law))]
pub fn upgrade_keeps()
    ensures { (w : World) (a p expects : ℕ) → Keeps w (Upgrade a p expects) }
{}

/// A release keeps the invariant.
#[tactic(auto, using(crate::proofs::Laws::release_law))]
pub fn release_keeps()
    ensures { (w : World) (a p : ℕ) → Keeps w (Release a p) }
{}

/// The release of an empty page keeps the invariant.
#[tactic(auto, using(crate::proofs::Laws::release_evicted_law))]
pub fn release_evicted_keeps()
    ensures { (w : World) (a p : ℕ) → Keeps w (ReleaseE a p) }
{}

/// An exclusive lock given up for a share keeps the invariant.
#[tactic(auto, using(crate::proofs::Laws::downgrade_law))]
pub fn downgrade_keeps()
    ensures { (w : World) (a p : ℕ) → Keeps w (Downgrade a p) }
{}

/// Where the blocks tell their words, a look that leaves an open read in place has found that it saw one version.
pub fn look_validates()
    ensures { (w : World) (a p : ℕ) → Validates w (Look a p) }
{}

/// The same of a taken exclusive lock that expected the open read's version.
pub fn lock_exclusive_validates()
    ensures { (w : World) (a p expects : ℕ) → Validates w (LockX a p expects) }
{}

/// The same of a taken shared lock.
pub fn lock_shared_validates()
    ensures { (w : World) (a p expects : ℕ) → Validates w (LockS a p expects) }
{}

/// The same of a taken lock for write-back.
pub fn lock_write_back_validates()
    ensures { (w : World) (a p expects : ℕ) → Validates w (LockW a p expects) }
{}

/// The same of a taken upgrade.
pub fn upgrade_validates()
    ensures { (w : World) (a p expects : ℕ) → Validates w (Upgrade a p expects) }
{}
