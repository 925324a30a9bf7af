// Guards that hold a page exclusively: the page's words are the guard's draft until its release makes them the next version.
ghost use Rattle.std.specs.Prelude.{[], ◌<◌, ◌≡◌, IfErr, IfOk, IsOk, None, option_map, slice_index, true};
ghost use Rattle.vm_event.specs.Prelude.{MAX_VERSION, version_of};
ghost use Rattle.vm_rule.specs.Prelude.{draft_of, ReleaseTold};
ghost use Rattle.vm_step.specs.Prelude.{GoesOn, IsAlone, IsClaimed, IsFirst, IsKeptNow, IsNotOut, IsReadyOn, KnowsSame, NoWord};
ghost use Rattle.vm_step.specs.Prelude.{UnlockedExpected, view};
ghost use Rattle.vm_guard.specs.{Downgrades.IsDowngraded, Groups.IsDue, Quiet.IsQuiet, Quiet.LeavesTable, Sure.IsKnownFree, Sure.known_word};
ghost use Rattle.vm_guard.specs.Denied.{IsDenied, NotCrowded, SameOrUnlocked};
ghost use Rattle.vm_guard.specs.Guards.{IsDirtied, IsHolding, IsLocked, IsReleased, IsSet};
ghost use Rattle.vm_guard.specs.Takes.{IsToExpect, PassMayRelease, SaysWhy};

use crate::deny::Deny;
use crate::fresh_pages;
use crate::shared::SharedGuard;
use crate::standing::{Lock, standing};
use vm_block::Block;
use vm_event::StateWord;
use vm_owner::Ungrouped;
use vm_rule::words::{Pass, Words};
use vm_step::{
    At, Saw, Took, downgrade, load, lock_exclusive, look_silently, release, release_silently,
    set_dirty, store,
};

/// An exclusive lock of a page: the version that it was locked at, the frame that it stands in, and whether it is dirty there.
///
/// It is spent by `release`, `downgrade` and the release of a group alone.
pub struct ExclusiveGuard {
    pub pid: u32,
    pub version: u64,
    pub frame: u32,
    pub dirty: bool,
    pub(crate) lock: Lock,
}

/// The word that a lock is to expect of a page whose word is this one: with shares, the unlocked word at its version.
fn expected(word: u64, pid: u32) -> Result<u64, Deny>
    ensures ok { IfOk result (λ expects. IsToExpect word expects) }
    ensures kept { IfOk result (λ expects. SameOrUnlocked word expects) }
    ensures denied { IfErr result (λ d. SaysWhy pid word d × NotCrowded d) }
{
    if StateWord::state(word) == StateWord::EVICTED {
        return Err(Deny::Need(pid));
    }
    fresh_pages::expected(word, pid)
}

impl ExclusiveGuard {
    /// Locks the page exclusively, which has to be resident, with no lock by anyone, and below the last version.
    pub fn take<U: Ungrouped, B: Block>(
        words: &Words<U, B>,
        pass: &mut Pass<U>,
        pid: u32,
    ) -> Result<ExclusiveGuard, Deny>
        requires ready { IsReadyOn words.now B.tells pass.old }
        requires page { pid < words.now.table.shared.key.pages }
        ensures goes { GoesOn words.now B.tells pass.old pass.new }
        ensures taken { IfOk result (λ g. (g.pid ≡ pid) × IsLocked U.tied pid g.frame g.version g.dirty (view pass.old) (view pass.new)) }
        ensures denied { IfErr result (λ d. IsDenied NotCrowded NoWord UnlockedExpected pid d (view pass.old) (view pass.new)) }
        ensures bare { IfErr result (λ _. LeavesTable (view pass.old) (view pass.new)) }
        ensures sure { IsAlone (view pass.old) → IsKnownFree pid (view pass.old) → version_of (known_word pid (view pass.old)) < MAX_VERSION → IsOk result }
    {
        let word = look_silently(words, pass, pid);
        let expects = expected(word, pid)?;
        match lock_exclusive(words, pass, pid, expects) {
            Took::Lost(seen) => Err(Deny::Again(Saw {
                at: At::Page(pid),
                first: expects,
                seen,
            })),
            Took::Taken => {
                let stands = standing(words, pass, pid);
                Ok(ExclusiveGuard {
                    pid,
                    version: StateWord::version(word),
                    frame: stands.frame,
                    dirty: stands.dirty,
                    lock: Lock,
                })
            }
        }
    }

    /// Word `i` of the draft.
    pub fn read<U: Ungrouped, B: Block>(
        &self,
        words: &Words<U, B>,
        pass: &mut Pass<U>,
        i: usize,
    ) -> u64
        requires ready { IsReadyOn words.now B.tells pass.old }
        requires holds { IsHolding self.now.pid self.now.frame self.now.version self.now.dirty (view pass.old) }
        requires word { i < words.now.table.shared.key.size }
        ensures goes { GoesOn words.now B.tells pass.old pass.new }
        ensures quiet { (done : _) × IsQuiet self.now.pid done (view pass.old) (view pass.new) }
        ensures table { KnowsSame (view pass.old) (view pass.new) }
        ensures value { (view pass.old).start.tells ≡ true → result ≡ slice_index (draft_of (view pass.old) self.now.pid) i }
    {
        load(words, pass, self.pid, self.frame, i)
    }

    /// Makes the page dirty, where it is clean.
    fn make_dirty<U: Ungrouped, B: Block>(&mut self, words: &Words<U, B>, pass: &mut Pass<U>)
        requires ready { IsReadyOn words.now B.tells pass.old }
        requires holds { IsHolding self.old.pid self.old.frame self.old.version self.old.dirty (view pass.old) }
        ensures goes { GoesOn words.now B.tells pass.old pass.new }
        ensures dirtied { IsDirtied self.old.pid self.old.frame self.old.dirty (view pass.old) (view pass.new) }
        ensures guard { self.new ≡ record self.old { dirty = true } }
    {
        if !self.dirty {
            set_dirty(words, pass, self.pid, self.frame);
            self.dirty = true;
        }
    }

    /// Sets word `i` of the draft. A clean page is made dirty first.
    pub fn set<U: Ungrouped, B: Block>(
        &mut self,
        words: &Words<U, B>,
        pass: &mut Pass<U>,
        i: usize,
        w: u64,
    )
        requires ready { IsReadyOn words.now B.tells pass.old }
        requires holds { IsHolding self.old.pid self.old.frame self.old.version self.old.dirty (view pass.old) }
        requires word { i < words.now.table.shared.key.size }
        ensures goes { GoesOn words.now B.tells pass.old pass.new }
        ensures set { IsSet self.old.pid self.old.frame self.old.dirty i w (view pass.old) (view pass.new) }
        ensures holds { IsHolding self.old.pid self.old.frame self.old.version true (view pass.new) }
        ensures guard { self.new ≡ record self.old { dirty = true } }
    {
        self.make_dirty(words, pass);
        store(words, pass, self.frame, i, w);
    }

    /// Releases the page: the draft is its last version from then on, the next one. What is said becomes an entry there.
    pub fn release<U: Ungrouped, B: Block>(
        self,
        words: &Words<U, B>,
        pass: &mut Pass<U>,
        said: Option<&U::Said>,
    )
        requires ready { IsReadyOn words.now B.tells pass.old }
        requires holds { IsHolding self.pid self.frame self.version self.dirty (view pass.old) }
        requires home { IsNotOut (view pass.old) self.pid }
        requires claimed { (view pass.old).start.tells ≡ true → IsClaimed (view pass.old) self.pid }
        requires owner { PassMayRelease U.may_release self.pid (option_map (λ b. b.now) said) (view pass.old) }
        ensures goes { GoesOn words.now B.tells pass.old pass.new }
        ensures released { IsReleased self.pid self.version (option_map (λ b. b.now) said.entry) (view pass.old) (view pass.new) }
        ensures kept { B.tells ≡ true → IsKeptNow U.keeps self.pid (Unit {0}) (view pass.new) }
    {
        let ExclusiveGuard {
            pid,
            version,
            frame: _,
            dirty: _,
            lock: Lock,
        } = self;
        release(words, pass, pid, version, &[], said);
    }

    /// Releases the page, and keeps a share of it: the draft is its last version from then on, the next one. Nothing is said.
    pub fn downgrade<U: Ungrouped, B: Block>(
        self,
        words: &Words<U, B>,
        pass: &mut Pass<U>,
    ) -> SharedGuard
        requires ready { IsReadyOn words.now B.tells pass.old }
        requires holds { IsHolding self.pid self.frame self.version self.dirty (view pass.old) }
        requires home { IsNotOut (view pass.old) self.pid }
        requires claimed { (view pass.old).start.tells ≡ true → IsClaimed (view pass.old) self.pid }
        requires owner { PassMayRelease U.may_release self.pid None (view pass.old) }
        ensures goes { GoesOn words.now B.tells pass.old pass.new }
        ensures guard { (result.pid ≡ self.pid) × (result.frame ≡ self.frame) }
        ensures downgraded { IsDowngraded self.pid self.frame self.version (view pass.old) (view pass.new) }
        ensures kept { B.tells ≡ true → IsKeptNow U.keeps self.pid (Unit {0}) (view pass.new) }
    {
        let ExclusiveGuard {
            pid,
            version,
            frame,
            dirty: _,
            lock,
        } = self;
        downgrade(words, pass, pid, version);
        SharedGuard { pid, frame, lock }
    }

    /// Releases the page first of a group, whose other members are `rest`: the drafts of all of them are logical from then on.
    pub(crate) fn release_first<U: Ungrouped, B: Block>(
        self,
        words: &Words<U, B>,
        pass: &mut Pass<U>,
        rest: &[u32],
        said: Option<&U::Said>,
    )
        requires ready { IsReadyOn words.now B.tells pass.old }
        requires holds { IsHolding self.pid self.frame self.version self.dirty (view pass.old) }
        requires home { IsNotOut (view pass.old) self.pid }
        requires first { IsFirst U.may_release self.pid rest.now (option_map (λ b. b.now) said) (view pass.old) }
        ensures goes { GoesOn words.now B.tells pass.old pass.new }
        ensures told { ReleaseTold self.pid self.version rest.now (option_map (λ b. b.now) said.entry) (view pass.old) (view pass.new) }
        ensures kept { B.tells ≡ true → IsKeptNow U.keeps self.pid (Unit {0}) (view pass.new) }
    {
        let ExclusiveGuard {
            pid,
            version,
            frame: _,
            dirty: _,
            lock: Lock,
        } = self;
        release(words, pass, pid, version, rest, said);
    }

    /// Releases a later member of a group that is released in part.
    pub(crate) fn release_later<U: Ungrouped, B: Block>(
        self,
        words: &Words<U, B>,
        pass: &mut Pass<U>,
    )
        requires ready { IsReadyOn words.now B.tells pass.old }
        requires due { IsDue self.pid self.version (view pass.old) }
        ensures goes { GoesOn words.now B.tells pass.old pass.new }
        ensures told { ReleaseTold self.pid self.version [] None (view pass.old) (view pass.new) }
        ensures kept { B.tells ≡ true → IsKeptNow U.keeps self.pid (Unit {0}) (view pass.new) }
    {
        let ExclusiveGuard {
            pid,
            version,
            frame: _,
            dirty: _,
            lock: Lock,
        } = self;
        release_silently(words, pass, pid, version);
    }
}
