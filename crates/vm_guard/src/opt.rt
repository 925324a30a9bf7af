// Optimistic guards: a page is read without a lock, and a later look at its word tells whether all words read were of one version.
ghost use Rattle.std.specs.Prelude.{[], ◌<◌, ◌∷◌, ◌≡◌, ◌≢◌, ◌⊎◌, IfErr, IfOk, IsOk, length, None, option_map, true};
ghost use Rattle.vm_page.specs.Sizes.{IsSize};
ghost use Rattle.vm_event.specs.Prelude.{is_readable, LOCKED, MAX_VERSION, MayShare, state_of, version_of};
ghost use Rattle.vm_step.specs.Prelude.{GoesOn, IsAlone, IsFrameAt, IsKeptNow, IsReadyOn, KnowsUnheld, MayTell, MayTellHeld, NoneExpected};
ghost use Rattle.vm_step.specs.Prelude.{NoWord, UnlockedExpected, view};
ghost use Rattle.vm_guard.specs.Denied.{AgainOrNeed, AgainOrWorn, IsDenied, KeptWord, NotWorn, SameOrUnlocked};
ghost use Rattle.vm_guard.specs.Guards.{BeginsReading, FindsRoom, HasLeft, IsLocked, IsReading, IsSharedAt, IsUnmarked, IsValid, Loads, placed};
ghost use Rattle.vm_guard.specs.{PageWords.LoadsWords, Quiet.LeavesTable, Sure.IsKnownAt, Sure.IsKnownFree, Sure.known_word};
ghost use Rattle.vm_guard.specs.Takes.{IsToExpect};

use crate::deny::Deny;
use crate::exclusive::ExclusiveGuard;
use crate::shared::{SharedGuard, room};
use crate::standing::{Lock, standing};
use vm_block::Block;
use vm_event::{MAX_VERSION, StateWord, TransWord};
use vm_owner::Ungrouped;
use vm_page::PageBuf;
use vm_rule::words::{Pass, Words};
use vm_step::{
    At, Saw, Took, frame_place, load_at, lock_exclusive, lock_shared, lock_shared_silently, look,
    look_silently, tload, unmark,
};

/// How many words are loaded in a turn.
const TURN: usize = 8;

/// A page that is read optimistically: the word that the read began at, and the frame that it reads. It holds no lock, and may be dropped.
#[derive(Drop)]
pub struct OptGuard {
    pub pid: u32,
    pub word: u64,
    pub frame: u32,
}

/// The word that a lock is to expect of a page whose word was this one, which could be read: Unlocked at its version, where it had shares.
fn unlocked(word: u64) -> u64
    requires below { version_of word < MAX_VERSION }
    requires readable { is_readable (state_of word) ≡ true }
    ensures expects { IsToExpect result result }
    ensures version { version_of result ≡ version_of word }
    ensures kept { SameOrUnlocked word result }
{
    match StateWord::state(word) {
        StateWord::UNLOCKED => word,
        StateWord::MARKED => word,
        _ => StateWord::of(StateWord::UNLOCKED, StateWord::version(word)),
    }
}

/// Takes the mark of the page away, whose word was found to be this one, where it has one. The page may have another word by now.
fn clear_mark<U: Ungrouped, B: Block>(words: &Words<U, B>, pass: &mut Pass<U>, pid: u32, word: u64)
    requires ready { IsReadyOn words.now B.tells pass.old }
    requires page { pid < words.now.table.shared.key.pages }
    ensures goes { GoesOn words.now B.tells pass.old pass.new }
    ensures clears { IsUnmarked pid word (view pass.old) (view pass.new) }
{
    if StateWord::state(word) == StateWord::MARKED {
        unmark(words, pass, pid, word);
    }
}

impl OptGuard {
    /// Begins to read the page, and takes a mark of the clock away. A page that is Evicted is needed; one that is Locked, or that another version
    /// came to between the two looks, may be tried again.
    pub fn start<U: Ungrouped, B: Block>(
        words: &Words<U, B>,
        pass: &mut Pass<U>,
        pid: u32,
    ) -> Result<OptGuard, Deny>
        requires ready { IsReadyOn words.now B.tells pass.old }
        requires page { pid < words.now.table.shared.key.pages }
        ensures goes { GoesOn words.now B.tells pass.old pass.new }
        ensures ok { IfOk result (λ guard. (guard.pid ≡ pid) × BeginsReading pid guard.word guard.frame (view pass.old) (view pass.new)) }
        ensures err { IfErr result (λ deny. IsDenied AgainOrNeed NoWord NoneExpected pid deny (view pass.old) (view pass.new)) }
        ensures sure { IsAlone (view pass.old) → is_readable (state_of (known_word pid (view pass.old))) ≡ true → IsOk result }
        ensures kept { B.tells ≡ true → IsKeptNow U.keeps pid (IsOk result) (view pass.new) }
        ensures unheld { KnowsUnheld (view pass.new) }
        ensures words { LoadsWords [] (view pass.old) (view pass.new) }
    {
        let first = look_silently(words, pass, pid);
        if StateWord::state(first) == StateWord::EVICTED {
            return Err(Deny::Need(pid));
        }
        let at = At::Page(pid);
        if StateWord::state(first) == StateWord::LOCKED {
            return Err(Deny::Again(Saw {
                at,
                first,
                seen: first,
            }));
        }
        clear_mark(words, pass, pid, first);
        let translation = tload(words, pass, pid);
        let seen = look_silently(words, pass, pid);
        if StateWord::version(seen) != StateWord::version(first) {
            return Err(Deny::Again(Saw { at, first, seen }));
        }
        if StateWord::state(seen) == StateWord::LOCKED {
            return Err(Deny::Again(Saw { at, first, seen }));
        }
        match TransWord::frame(translation) {
            Some(frame) => Ok(OptGuard {
                pid,
                word: seen,
                frame,
            }),
            None => unreachable!(),
        }
    }

    /// Word `i` of the page, through the guard's open read. Whether it is a word of one version a validation tells.
    pub fn word<U: Ungrouped, B: Block>(
        &self,
        words: &Words<U, B>,
        pass: &mut Pass<U>,
        i: usize,
    ) -> u64
        requires ready { IsReadyOn words.now B.tells pass.old }
        requires reading { IsReading self.now.pid self.now.word self.now.frame (view pass.old) }
        requires place { i < words.now.table.shared.key.size }
        ensures goes { GoesOn words.now B.tells pass.old pass.new }
        ensures loads { Loads self.now.pid self.now.word self.now.frame ((i, result) ∷ []) (view pass.old) (view pass.new) }
        ensures words { LoadsWords (result ∷ []) (view pass.old) (view pass.new) }
    {
        self.word_at(words, pass, frame_place(words, self.frame), i)
    }

    /// The same, where the place of the frame's first word is known (`vm_step::frame_place`).
    pub fn word_at<U: Ungrouped, B: Block>(
        &self,
        words: &Words<U, B>,
        pass: &mut Pass<U>,
        first: usize,
        i: usize,
    ) -> u64
        requires ready { IsReadyOn words.now B.tells pass.old }
        requires reading { IsReading self.now.pid self.now.word self.now.frame (view pass.old) }
        requires first { IsFrameAt words.now.table.shared.key words.now.table.shared.table_id.words self.now.frame first }
        requires place { i < words.now.table.shared.key.size }
        ensures goes { GoesOn words.now B.tells pass.old pass.new }
        ensures loads { Loads self.now.pid self.now.word self.now.frame ((i, result) ∷ []) (view pass.old) (view pass.new) }
        ensures words { LoadsWords (result ∷ []) (view pass.old) (view pass.new) }
    {
        load_at(words, pass, self.pid, self.frame, first, i)
    }

    /// All words of the page, through the guard's open read.
    pub fn read_all<U: Ungrouped, B: Block, const N: usize>(
        &self,
        words: &Words<U, B>,
        pass: &mut Pass<U>,
        into: &mut PageBuf<N>,
    )
        requires ready { IsReadyOn words.now B.tells pass.old }
        requires reading { IsReading self.now.pid self.now.word self.now.frame (view pass.old) }
        requires sized { IsSize N }
        requires size { (N ≡ words.now.table.shared.key.size) × (length into.old ≡ N) }
        ensures goes { GoesOn words.now B.tells pass.old pass.new }
        ensures size { length into.new ≡ N }
        ensures loads { Loads self.now.pid self.now.word self.now.frame (placed 0 into.new) (view pass.old) (view pass.new) }
        ensures words { LoadsWords into.new (view pass.old) (view pass.new) }
    {
        let first = frame_place(words, self.frame);
        for turn in 0..N / TURN {
            for k in 0..TURN {
                let i = TURN * turn + k;
                let word = self.word_at(words, pass, first, i);
                into.set(i, word);
            }
        }
    }

    /// Validates all that was read through the guard, and makes what is said an entry of the history there. Only a guard whose read is
    /// still open may say something. `Err` where the page is Locked, or has another version than the guard.
    pub fn validate<U: Ungrouped, B: Block>(
        &self,
        words: &Words<U, B>,
        pass: &mut Pass<U>,
        said: Option<&U::Said>,
    ) -> Result<(), Saw>
        requires ready { IsReadyOn words.now B.tells pass.old }
        requires page { self.now.pid < words.now.table.shared.key.pages }
        requires reading { IsReading self.now.pid self.now.word self.now.frame (view pass.old)
            ⊎ (HasLeft self.now.pid self.now.word (view pass.old) × (option_map (λ b. b.now) said ≡ None)) }
        requires owner { MayTell U.tied U.may_read self.now.pid (option_map (λ b. b.now) said) (view pass.old) }
        ensures goes { GoesOn words.now B.tells pass.old pass.new }
        ensures ok { IfOk result
            (λ _. IsValid U.tied self.now.pid self.now.word self.now.frame (option_map (λ b. b.now) said.entry) (view pass.old) (view pass.new)) }
        ensures kept { B.tells ≡ true → IfOk result (λ _. IsKeptNow U.keeps self.now.pid (Unit {0}) (view pass.new)) }
        ensures err { IfErr result
            (λ saw. IsDenied AgainOrNeed (KeptWord self.now.word) NoneExpected self.now.pid (Deny.Again saw) (view pass.old) (view pass.new)) }
        ensures bare { IfErr result (λ _. LeavesTable (view pass.old) (view pass.new)) }
        ensures sure { IsAlone (view pass.old) → IsKnownAt self.now.pid self.now.word (view pass.old) → IsOk result }
        ensures words { LoadsWords [] (view pass.old) (view pass.new) }
    {
        let seen = look(words, pass, self.pid, said);
        self.judge(seen)
    }

    /// Validates all that was read through the guard, with nothing to say.
    pub fn validate_silently<U: Ungrouped, B: Block>(
        &self,
        words: &Words<U, B>,
        pass: &mut Pass<U>,
    ) -> Result<(), Saw>
        requires ready { IsReadyOn words.now B.tells pass.old }
        requires page { self.now.pid < words.now.table.shared.key.pages }
        requires reading { IsReading self.now.pid self.now.word self.now.frame (view pass.old) ⊎ HasLeft self.now.pid self.now.word (view pass.old) }
        ensures goes { GoesOn words.now B.tells pass.old pass.new }
        ensures ok { IfOk result (λ _. IsValid U.tied self.now.pid self.now.word self.now.frame None (view pass.old) (view pass.new)) }
        ensures kept { B.tells ≡ true → IfOk result (λ _. IsKeptNow U.keeps self.now.pid (Unit {0}) (view pass.new)) }
        ensures err { IfErr result
            (λ saw. IsDenied AgainOrNeed (KeptWord self.now.word) NoneExpected self.now.pid (Deny.Again saw) (view pass.old) (view pass.new)) }
        ensures bare { IfErr result (λ _. LeavesTable (view pass.old) (view pass.new)) }
        ensures sure { IsAlone (view pass.old) → IsKnownAt self.now.pid self.now.word (view pass.old) → IsOk result }
        ensures words { LoadsWords [] (view pass.old) (view pass.new) }
    {
        let seen = look_silently(words, pass, self.pid);
        self.judge(seen)
    }

    /// Locks the page exclusively at the guard's version, which proves of all that was read through the guard what a validation would.
    /// A page with a share or another lock, or with another version, may be tried again; one at the last version is worn.
    pub fn upgrade<U: Ungrouped, B: Block>(
        self,
        words: &Words<U, B>,
        pass: &mut Pass<U>,
    ) -> Result<ExclusiveGuard, Deny>
        requires ready { IsReadyOn words.now B.tells pass.old }
        requires page { self.pid < words.now.table.shared.key.pages }
        requires reading { IsReading self.pid self.word self.frame (view pass.old) ⊎ HasLeft self.pid self.word (view pass.old) }
        ensures goes { GoesOn words.now B.tells pass.old pass.new }
        ensures taken { IfOk result (λ guard. (guard.pid ≡ self.pid) × (guard.version ≡ version_of self.word)
            × IsLocked U.tied self.pid guard.frame guard.version guard.dirty (view pass.old) (view pass.new)) }
        ensures denied { IfErr result (λ deny. IsDenied AgainOrWorn (KeptWord self.word) UnlockedExpected self.pid deny (view pass.old) (view pass.new)) }
        ensures bare { IfErr result (λ _. LeavesTable (view pass.old) (view pass.new)) }
        ensures worn { version_of self.word ≡ MAX_VERSION → result ≡ Err (Deny.Worn self.pid) }
        ensures unworn { IfErr result (λ deny. (q : _) → deny ≡ Deny.Worn q → version_of self.word ≡ MAX_VERSION) }
        ensures sure { IsAlone (view pass.old) → IsKnownFree self.pid (view pass.old)
            → SameOrUnlocked self.word (known_word self.pid (view pass.old)) → version_of self.word < MAX_VERSION → IsOk result }
    {
        let pid = self.pid;
        if StateWord::version(self.word) == MAX_VERSION {
            look_silently(words, pass, pid);
            return Err(Deny::Worn(pid));
        }
        let expects = unlocked(self.word);
        match lock_exclusive(words, pass, pid, expects) {
            Took::Lost(seen) => Err(Deny::Again(Saw {
                at: At::Page(pid),
                first: expects,
                seen,
            })),
            Took::Taken => {
                let stands = standing(words, pass, pid);
                Ok(ExclusiveGuard {
                    pid,
                    version: StateWord::version(expects),
                    frame: stands.frame,
                    dirty: stands.dirty,
                    lock: Lock,
                })
            }
        }
    }

    /// Takes a share of the page at the guard's version, which proves of all that was read through the guard what a validation would, and makes
    /// what is said an entry of the history there: this page, with others of which the pass has shares, has to prove it. A page with another version
    /// may be tried again; one with 252 shares is crowded.
    pub fn share<U: Ungrouped, B: Block>(
        self,
        words: &Words<U, B>,
        pass: &mut Pass<U>,
        said: Option<&U::Said>,
    ) -> Result<SharedGuard, Deny>
        requires ready { IsReadyOn words.now B.tells pass.old }
        requires page { self.pid < words.now.table.shared.key.pages }
        requires reading { IsReading self.pid self.word self.frame (view pass.old) }
        requires owner { MayTellHeld U.tied U.may_hold self.pid (version_of self.word) (option_map (λ b. b.now) said) (view pass.old) }
        ensures goes { GoesOn words.now B.tells pass.old pass.new }
        ensures taken { IfOk result (λ guard. (guard.pid ≡ self.pid)
            × IsSharedAt U.tied self.pid guard.frame (version_of self.word) (option_map (λ b. b.now) said.entry) (view pass.old) (view pass.new)) }
        ensures kept { B.tells ≡ true → IfOk result (λ _. IsKeptNow U.keeps self.pid (Unit {0}) (view pass.new)) }
        ensures denied { IfErr result (λ deny. IsDenied NotWorn (KeptWord self.word) NoneExpected self.pid deny (view pass.old) (view pass.new)) }
        ensures bare { IfErr result (λ _. LeavesTable (view pass.old) (view pass.new)) }
        ensures sure { IsAlone (view pass.old) → IsKnownAt self.pid self.word (view pass.old) → MayShare (known_word self.pid (view pass.old)) → IsOk result }
    {
        let pid = self.pid;
        let frame = self.frame;
        let word = self.word_to_share(words, pass)?;
        match lock_shared(words, pass, pid, word, said) {
            Took::Lost(seen) => Err(Deny::Again(Saw {
                at: At::Page(pid),
                first: word,
                seen,
            })),
            Took::Taken => Ok(SharedGuard {
                pid,
                frame,
                lock: Lock,
            }),
        }
    }

    /// Takes a share of the page in the same way, with nothing to say.
    pub fn share_silently<U: Ungrouped, B: Block>(
        self,
        words: &Words<U, B>,
        pass: &mut Pass<U>,
    ) -> Result<SharedGuard, Deny>
        requires ready { IsReadyOn words.now B.tells pass.old }
        requires page { self.pid < words.now.table.shared.key.pages }
        requires reading { IsReading self.pid self.word self.frame (view pass.old) }
        ensures goes { GoesOn words.now B.tells pass.old pass.new }
        ensures taken { IfOk result (λ guard. (guard.pid ≡ self.pid)
            × IsSharedAt U.tied self.pid guard.frame (version_of self.word) None (view pass.old) (view pass.new)) }
        ensures kept { B.tells ≡ true → IfOk result (λ _. IsKeptNow U.keeps self.pid (Unit {0}) (view pass.new)) }
        ensures denied { IfErr result (λ deny. IsDenied NotWorn (KeptWord self.word) NoneExpected self.pid deny (view pass.old) (view pass.new)) }
        ensures bare { IfErr result (λ _. LeavesTable (view pass.old) (view pass.new)) }
        ensures sure { IsAlone (view pass.old) → IsKnownAt self.pid self.word (view pass.old) → MayShare (known_word self.pid (view pass.old)) → IsOk result }
    {
        let pid = self.pid;
        let frame = self.frame;
        let word = self.word_to_share(words, pass)?;
        match lock_shared_silently(words, pass, pid, word) {
            Took::Lost(seen) => Err(Deny::Again(Saw {
                at: At::Page(pid),
                first: word,
                seen,
            })),
            Took::Taken => Ok(SharedGuard {
                pid,
                frame,
                lock: Lock,
            }),
        }
    }

    /// The page's word, where it is of the guard's version and has room for a share. It is the word that a share is to expect: the guard's own may
    /// have got or lost shares of others since, which changes nothing that was read.
    fn word_to_share<U: Ungrouped, B: Block>(
        &self,
        words: &Words<U, B>,
        pass: &mut Pass<U>,
    ) -> Result<u64, Deny>
        requires ready { IsReadyOn words.now B.tells pass.old }
        requires page { self.now.pid < words.now.table.shared.key.pages }
        requires reading { IsReading self.now.pid self.now.word self.now.frame (view pass.old) }
        ensures goes { GoesOn words.now B.tells pass.old pass.new }
        ensures found { IfOk result (λ word. FindsRoom U.tied self.now.pid (version_of self.now.word) word (view pass.old) (view pass.new)) }
        ensures denied { IfErr result
            (λ deny. IsDenied NotWorn (KeptWord self.now.word) NoneExpected self.now.pid deny (view pass.old) (view pass.new)) }
        ensures bare { IfErr result (λ _. LeavesTable (view pass.old) (view pass.new)) }
        ensures sure { IsAlone (view pass.old) → IsKnownAt self.now.pid self.now.word (view pass.old)
            → MayShare (known_word self.now.pid (view pass.old)) → IsOk result }
    {
        let word = look_silently(words, pass, self.pid);
        match self.judge(word) {
            Ok(()) => {}
            Err(saw) => return Err(Deny::Again(saw)),
        }
        room(word, self.pid)?;
        Ok(word)
    }

    /// Whether the word seen is of the guard's version, and not Locked; else the evidence that the page's word is not the guard's any more.
    fn judge(&self, seen: u64) -> Result<(), Saw>
        ensures ok { IfOk result (λ _. (version_of seen ≡ version_of self.now.word) × (state_of seen ≢ LOCKED) × (state_of seen < 256)) }
        ensures err { IfErr result (λ saw. (saw ≡ record { at = At.Page self.now.pid; first = self.now.word; seen = seen })
            × ((version_of seen ≢ version_of self.now.word) ⊎ (state_of seen ≡ LOCKED))) }
    {
        if StateWord::version(seen) != StateWord::version(self.word)
            || StateWord::state(seen) == StateWord::LOCKED
        {
            return Err(Saw {
                at: At::Page(self.pid),
                first: self.word,
                seen,
            });
        }
        Ok(())
    }
}
