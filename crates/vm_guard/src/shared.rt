// Guards that hold a share of a page: its words stay what they are.
ghost use Rattle.std.specs.Prelude.{◌<◌, ◌≡◌, IfErr, IfOk, IsOk, slice_index, true};
ghost use Rattle.vm_event.specs.Prelude.{MayShare};
ghost use Rattle.vm_rule.specs.Prelude.{last_of};
ghost use Rattle.vm_step.specs.Prelude.{GoesOn, IsAlone, IsReadyOn, KnowsSame, MayUnshare, NoneExpected, NoWord, view};
ghost use Rattle.vm_guard.specs.{Denied.IsDenied, Denied.NotWorn, Quiet.IsQuiet, Quiet.LeavesTable, Sure.known_word, Takes.HasRoom, Takes.SaysWhy};
ghost use Rattle.vm_guard.specs.Guards.{IsShared, IsSharing, IsUnshared};

use crate::deny::Deny;
use crate::standing::{Lock, standing};
use vm_block::Block;
use vm_event::StateWord;
use vm_owner::Ungrouped;
use vm_rule::words::{Pass, Words};
use vm_step::{At, Saw, Took, load, lock_shared_silently, look_silently, unlock_shared};

/// A share of a page, and the frame that the page stands in.
///
/// It is spent by `drop_with` alone.
pub struct SharedGuard {
    pub pid: u32,
    pub frame: u32,
    pub(crate) lock: Lock,
}

/// Whether a page whose word is this one has room for a share.
pub(crate) fn room(word: u64, pid: u32) -> Result<(), Deny>
    ensures ok { IfOk result (λ _. HasRoom word) }
    ensures refused { IfErr result (λ d. SaysWhy pid word d × NotWorn d) }
{
    match StateWord::state(word) {
        StateWord::EVICTED => Err(Deny::Need(pid)),
        StateWord::LOCKED => Err(Deny::Again(Saw {
            at: At::Page(pid),
            first: word,
            seen: word,
        })),
        StateWord::MAX_SHARES => Err(Deny::Crowded(pid)),
        _ => Ok(()),
    }
}

impl SharedGuard {
    /// Takes a share of the page, which has to be resident, not locked, and with fewer than 252 shares.
    pub fn take<U: Ungrouped, B: Block>(
        words: &Words<U, B>,
        pass: &mut Pass<U>,
        pid: u32,
    ) -> Result<SharedGuard, Deny>
        requires ready { IsReadyOn words.now B.tells pass.old }
        requires page { pid < words.now.table.shared.key.pages }
        ensures goes { GoesOn words.now B.tells pass.old pass.new }
        ensures taken { IfOk result (λ g. (g.pid ≡ pid) × IsShared U.tied pid g.frame (view pass.old) (view pass.new)) }
        ensures denied { IfErr result (λ d. IsDenied NotWorn NoWord NoneExpected pid d (view pass.old) (view pass.new)) }
        ensures bare { IfErr result (λ _. LeavesTable (view pass.old) (view pass.new)) }
        ensures sure { IsAlone (view pass.old) → MayShare (known_word pid (view pass.old)) → IsOk result }
    {
        let word = look_silently(words, pass, pid);
        room(word, pid)?;
        match lock_shared_silently(words, pass, pid, word) {
            Took::Lost(seen) => Err(Deny::Again(Saw {
                at: At::Page(pid),
                first: word,
                seen,
            })),
            Took::Taken => Ok(SharedGuard {
                pid,
                frame: standing(words, pass, pid).frame,
                lock: Lock,
            }),
        }
    }

    /// Word `i` of the page's last version.
    pub fn read<U: Ungrouped, B: Block>(
        &self,
        words: &Words<U, B>,
        pass: &mut Pass<U>,
        i: usize,
    ) -> u64
        requires ready { IsReadyOn words.now B.tells pass.old }
        requires shares { IsSharing self.now.pid self.now.frame (view pass.old) }
        requires word { i < words.now.table.shared.key.size }
        ensures goes { GoesOn words.now B.tells pass.old pass.new }
        ensures quiet { (done : _) × IsQuiet self.now.pid done (view pass.old) (view pass.new) }
        ensures table { KnowsSame (view pass.old) (view pass.new) }
        ensures value { (view pass.old).start.tells ≡ true → result ≡ slice_index (last_of (view pass.old) self.now.pid).words i }
    {
        load(words, pass, self.pid, self.frame, i)
    }

    /// Gives the share up.
    pub fn drop_with<U: Ungrouped, B: Block>(self, words: &Words<U, B>, pass: &mut Pass<U>)
        requires ready { IsReadyOn words.now B.tells pass.old }
        requires shares { IsSharing self.pid self.frame (view pass.old) }
        requires legal { MayUnshare (view pass.old) self.pid }
        ensures goes { GoesOn words.now B.tells pass.old pass.new }
        ensures given_up { IsUnshared self.pid (view pass.old) (view pass.new) }
    {
        let SharedGuard {
            pid,
            frame: _,
            lock: Lock,
        } = self;
        unlock_shared(words, pass, pid);
    }
}
