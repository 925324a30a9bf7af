// Guards that hold a group exclusively: the words of its pages are the guard's drafts until one release of the group's word makes them all the next version.
ghost use Rattle.std.specs.Prelude.{◌+◌, ◌-◌, ◌<◌, ◌∷◌, ◌≡◌, ◌≤◌, IfErr, IfOk, IsSome, length, map, option_map, slice_get, slice_index, slice_set, Some, true, ℕ};
ghost use Rattle.vm_event.specs.Prelude.{mapping_of};
ghost use Rattle.vm_rule.specs.Prelude.{draft_of, numbers};
ghost use Rattle.vm_step.specs.Prelude.{GoesOn, IsKeptNow, IsReadyOn, NoWord, UnlockedExpected, view};
ghost use Rattle.vm_guard.specs.{Denied.NotCrowded, Denied.SameOrUnlocked, Guards.IsDirtied, Guards.IsSet, Quiet.IsQuiet, Quiet.LeavesTable, Takes.IsToExpect};
ghost use Rattle.vm_guard.specs.Takes.{SaysWhy};
ghost use Rattle.vm_group_guard.specs.{declared.lock.Standing.Standing, Denied.IsGroupDenied, Group.IsGroupAt};
ghost use Rattle.vm_group_guard.specs.Locking.{AreHolding, IsGroupLocked, standing_mapping};
ghost use Rattle.vm_group_guard.specs.Releasing.{IsGivenUp, LetsRelease, MayBeGivenUp};

use crate::translations::{MOST_PAGES, translations};
use arrayvec::ArrayVec;
use vm_block::Block;
use vm_event::{MAX_VERSION, StateWord, TransWord};
use vm_group_step::{lock_group, look_group, release_group};
use vm_guard::Deny;
use vm_owner::Owner;
use vm_rule::words::{Pass, Words};
use vm_step::{At, Saw, Took, load, set_dirty, store};

/// Where a page stands: its frame, and whether it is dirty there.
#[derive(Clone, Copy, Default)]
pub struct Standing {
    pub frame: u32,
    pub dirty: bool,
}

/// Marks a guard that holds a lock: no other crate can make one or take it apart, so a guard ends only in a call of its own.
struct LockMark;

/// An exclusive lock of a group: the version that it was locked at, and where each page stands. It is spent by `release` alone.
pub struct GroupGuard {
    pub head: u32,
    pub version: u64,
    pub stands: ArrayVec<Standing, MOST_PAGES>,
    lock: LockMark,
}

impl GroupGuard {
    /// Locks the group of so many pages exclusively, which has to be resident, with no lock by anyone, and below the last version.
    pub fn take<U: Owner, B: Block>(
        words: &Words<U, B>,
        pass: &mut Pass<U>,
        head: u32,
        size: usize,
    ) -> Result<GroupGuard, Deny>
        requires ready { IsReadyOn words.now B.tells pass.old }
        requires group { IsGroupAt words.now.table.shared.key head size }
        ensures goes { GoesOn words.now B.tells pass.old pass.new }
        ensures taken { IfOk result (λ guard. (guard.head ≡ head)
            × IsGroupLocked head size guard.version guard.stands.items (view pass.old) (view pass.new)) }
        ensures denied { IfErr result (λ deny. IsGroupDenied NotCrowded NoWord UnlockedExpected head size deny (view pass.old) (view pass.new)) }
        ensures bare { IfErr result (λ _. LeavesTable (view pass.old) (view pass.new)) }
    {
        let word = look_group(words, pass, head);
        let expects = expected(word, head)?;
        match lock_group(words, pass, head, expects) {
            Took::Lost(seen) => Err(Deny::Again(Saw {
                at: At::Page(head),
                first: expects,
                seen,
            })),
            Took::Taken => {
                let translations = translations(words, pass, head, size);
                Ok(GroupGuard {
                    head,
                    version: StateWord::version(word),
                    stands: standings(translations.as_slice()),
                    lock: LockMark,
                })
            }
        }
    }

    /// Word `i` of the draft of page `k` of the group.
    pub fn read<U: Owner, B: Block>(
        &self,
        words: &Words<U, B>,
        pass: &mut Pass<U>,
        k: usize,
        i: usize,
    ) -> u64
        requires ready { IsReadyOn words.now B.tells pass.old }
        requires holds { AreHolding self.now.head self.now.version self.now.stands.items (view pass.old) }
        requires page { k < length self.now.stands.items }
        requires word { i < words.now.table.shared.key.size }
        ensures goes { GoesOn words.now B.tells pass.old pass.new }
        ensures quiet { (done : _) × IsQuiet (self.now.head + k) done (view pass.old) (view pass.new) }
        ensures value { (view pass.old).start.tells ≡ true → result ≡ slice_index (draft_of (view pass.old) (self.now.head + k)) i }
        ensures holds { AreHolding self.now.head self.now.version self.now.stands.items (view pass.new) }
    {
        let frame = self.stands.as_slice()[k].frame;
        load(words, pass, self.head + k as u32, frame, i)
    }

    /// Makes page `k` of the group dirty, where it is clean.
    fn make_dirty<U: Owner, B: Block>(&mut self, words: &Words<U, B>, pass: &mut Pass<U>, k: usize)
        requires ready { IsReadyOn words.now B.tells pass.old }
        requires holds { AreHolding self.old.head self.old.version self.old.stands.items (view pass.old) }
        requires page { k < length self.old.stands.items }
        ensures goes { GoesOn words.now B.tells pass.old pass.new }
        ensures dirtied { (s : Standing) → slice_get self.old.stands.items k ≡ Some s
            → IsDirtied (self.old.head + k) s.frame s.dirty (view pass.old) (view pass.new) }
        ensures guard { (s : Standing) → slice_get self.old.stands.items k ≡ Some s
            → self.new ≡ record self.old { stands = record { items = slice_set self.old.stands.items k (record s { dirty = true }) } } }
    {
        let Standing { frame, dirty } = self.stands.as_slice()[k];
        if !dirty {
            set_dirty(words, pass, self.head + k as u32, frame);
            self.stands.as_mut_slice()[k] = Standing { frame, dirty: true };
        }
    }

    /// Sets word `i` of the draft of page `k` of the group. A clean page is made dirty first.
    pub fn set<U: Owner, B: Block>(
        &mut self,
        words: &Words<U, B>,
        pass: &mut Pass<U>,
        k: usize,
        i: usize,
        w: u64,
    )
        requires ready { IsReadyOn words.now B.tells pass.old }
        requires holds { AreHolding self.old.head self.old.version self.old.stands.items (view pass.old) }
        requires page { k < length self.old.stands.items }
        requires word { i < words.now.table.shared.key.size }
        ensures goes { GoesOn words.now B.tells pass.old pass.new }
        ensures set { (s : Standing) → slice_get self.old.stands.items k ≡ Some s
            → IsSet (self.old.head + k) s.frame s.dirty i w (view pass.old) (view pass.new) }
        ensures guard { (s : Standing) → slice_get self.old.stands.items k ≡ Some s
            → self.new ≡ record self.old { stands = record { items = slice_set self.old.stands.items k (record s { dirty = true }) } } }
        ensures holds { AreHolding self.new.head self.new.version self.new.stands.items (view pass.new) }
    {
        let frame = self.stands.as_slice()[k].frame;
        self.make_dirty(words, pass, k);
        store(words, pass, frame, i, w);
    }

    /// Releases the group, by one step on its word: the drafts of all its pages are their last versions from then on, the next one. What is said becomes
    /// an entry there.
    pub fn release<U: Owner, B: Block>(
        self,
        words: &Words<U, B>,
        pass: &mut Pass<U>,
        said: Option<&U::Said>,
    )
        requires ready { IsReadyOn words.now B.tells pass.old }
        requires group { IsGroupAt words.now.table.shared.key self.head (length self.stands.items) }
        requires holds { AreHolding self.head self.version self.stands.items (view pass.old) }
        requires may { MayBeGivenUp self.head (length self.stands.items) (view pass.old) }
        requires owner { LetsRelease U.may_release (numbers self.head (length self.stands.items)) (option_map (λ b. b.now) said) (view pass.old) }
        ensures goes { GoesOn words.now B.tells pass.old pass.new }
        ensures released { IsGivenUp self.head (length self.stands.items) self.version (option_map (λ b. b.now) said.entry) (view pass.old) (view pass.new) }
        ensures kept { B.tells ≡ true → IsKeptNow U.keeps (self.head + length self.stands.items - 1) (Unit {0}) (view pass.new) }
    {
        let GroupGuard {
            head,
            version,
            stands,
            lock: LockMark,
        } = self;
        let others = others(head, stands.len());
        release_group(words, pass, head, version, others.as_slice(), said);
    }
}

/// The word that a lock is to expect of a group whose word is this one: with shares, the unlocked word at its version.
fn expected(word: u64, head: u32) -> Result<u64, Deny>
    ensures ok { IfOk result (λ expects. IsToExpect word expects × SameOrUnlocked word expects) }
    ensures denied { IfErr result (λ d. SaysWhy head word d × NotCrowded d) }
{
    let version = StateWord::version(word);
    match StateWord::state(word) {
        StateWord::EVICTED => Err(Deny::Need(head)),
        StateWord::LOCKED => Err(Deny::Again(Saw {
            at: At::Page(head),
            first: word,
            seen: word,
        })),
        _ if version == MAX_VERSION => Err(Deny::Worn(head)),
        StateWord::UNLOCKED => Ok(word),
        StateWord::MARKED => Ok(word),
        _ => Ok(StateWord::of(StateWord::UNLOCKED, version)),
    }
}

/// Where pages stand whose translation words these are, each of which must name a frame.
fn standings(translations: &[u64]) -> ArrayVec<Standing, MOST_PAGES>
    requires few { length translations.now ≤ MOST_PAGES }
    requires named { (k : ℕ) → k < length translations.now → IsSome (mapping_of (slice_index translations.now k)) }
    ensures { map (λ t. mapping_of t) translations.now ≡ map standing_mapping result.items }
{
    let mut stands = ArrayVec::new();
    for word in translations {
        match TransWord::frame(*word) {
            Some(frame) => stands.push(Standing {
                frame,
                dirty: TransWord::dirty(*word),
            }),
            None => unreachable!(),
        }
    }
    stands
}

/// The pages of the group behind its first one.
fn others(head: u32, size: usize) -> ArrayVec<u32, MOST_PAGES>
    requires some { (1 ≤ size) × (size ≤ MOST_PAGES) }
    requires fits { head + size ≤ 65536 }
    ensures { head ∷ result.items ≡ numbers head size }
{
    let mut others = ArrayVec::new();
    for k in 1..size {
        others.push(head + k as u32);
    }
    others
}
