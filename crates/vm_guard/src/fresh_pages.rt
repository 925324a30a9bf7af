// Pages that were never claimed: they are locked, given frames of zeros where they have none, and claimed for a group of the pass. Where the free-number words
// have no page numbers they are what a call for fresh pages gives.
ghost use Rattle.std.specs.Prelude.{◌+◌, ◌<◌, ◌≡◌, ◌≤◌, ◌⊎◌, IfErr, IfOk, IsOk, length, None, replicate, Some, true};
ghost use Rattle.vm_event.specs.Prelude.{mapping_of};
ghost use Rattle.vm_rule.specs.Prelude.{last_of};
ghost use Rattle.vm_step.specs.Prelude.{AreHeld, GoesOn, IsAlone, IsReadyOn, LocksNone, view};
ghost use Rattle.vm_guard.specs.Denied.{AgainOrWorn, OnlyWorn, SameOrUnlocked};
ghost use Rattle.vm_guard.specs.Fresh.{Furnishes, GivesBack, HasPagesFor, IsBegun, IsFull, IsFullAnswer, IsNextAnswer, IsNotSeized, IsPages};
ghost use Rattle.vm_guard.specs.Fresh.{IsPagesOrWorn, IsSeized, IsToSeize, Seizes};
ghost use Rattle.vm_guard.specs.Sure.{known_next, known_word, MayBeClaimed, MayBeSeized, MayTryClaim};
ghost use Rattle.vm_guard.specs.Takes.{SaysWhy};

use crate::deny::Deny;
use crate::exclusive::ExclusiveGuard;
use crate::given::{Fresh, NoRoom};
use crate::group::Group;
use crate::standing::Lock;
use vm_block::Block;
use vm_event::{MAX_VERSION, Mapping, StateWord, TransWord};
use vm_owner::Ungrouped;
use vm_rule::words::{Pass, Words};
use vm_step::{
    At, Batch, Saw, Took, blank, claim, install, lock_exclusive, look_silently, nload, own,
    release_evicted, release_silently, tload,
};

/// A page that was locked exclusively, resident or not: its version, and where it stands.
pub(crate) struct Seized {
    pub(crate) pid: u32,
    pub(crate) version: u64,
    pub(crate) stands: Option<Mapping>,
    pub(crate) lock: Lock,
}

/// The translation that the word says.
fn mapping_said(word: u64) -> Option<Mapping>
    ensures { result ≡ mapping_of word }
{
    let dirty = TransWord::dirty(word);
    match TransWord::frame(word) {
        Some(frame) => Some(Mapping { frame, dirty }),
        None => None,
    }
}

/// The word that a lock is to expect of a page whose word is this one, resident or not: with shares, the unlocked word at its version.
pub(crate) fn expected(word: u64, pid: u32) -> Result<u64, Deny>
    ensures ok { IfOk result (λ expects. IsToSeize word expects × SameOrUnlocked word expects) }
    ensures denied { IfErr result (λ d. SaysWhy pid word d × AgainOrWorn d) }
{
    let version = StateWord::version(word);
    match StateWord::state(word) {
        StateWord::LOCKED => Err(Deny::Again(Saw {
            at: At::Page(pid),
            first: word,
            seen: word,
        })),
        _ if version == MAX_VERSION => Err(Deny::Worn(pid)),
        StateWord::UNLOCKED => Ok(word),
        StateWord::MARKED => Ok(word),
        StateWord::EVICTED => Ok(word),
        _ => Ok(StateWord::of(StateWord::UNLOCKED, version)),
    }
}

/// Locks the page exclusively, whether or not it is resident, and sees where it stands.
pub(crate) fn seize<U: Ungrouped, B: Block>(
    words: &Words<U, B>,
    pass: &mut Pass<U>,
    pid: u32,
) -> Result<Seized, Deny>
    requires ready { IsReadyOn words.now B.tells pass.old }
    requires page { pid < words.now.table.shared.key.pages }
    ensures goes { GoesOn words.now B.tells pass.old pass.new }
    ensures taken { IfOk result (λ s. (s.pid ≡ pid) × Seizes pid s.version s.stands (view pass.old) (view pass.new)) }
    ensures denied { IfErr result (λ d. IsNotSeized pid d (view pass.old) (view pass.new)) }
    ensures sure { IsAlone (view pass.old) → MayBeSeized (known_word pid (view pass.old)) → IsOk result }
    ensures settled { IsAlone (view pass.old) → LocksNone (known_word pid (view pass.old)) → IfErr result OnlyWorn }
{
    let word = look_silently(words, pass, pid);
    let expects = expected(word, pid)?;
    match lock_exclusive(words, pass, pid, expects) {
        Took::Lost(seen) => Err(Deny::Again(Saw {
            at: At::Page(pid),
            first: expects,
            seen,
        })),
        Took::Taken => {
            let stands = mapping_said(tload(words, pass, pid));
            Ok(Seized {
                pid,
                version: StateWord::version(word),
                stands,
                lock: Lock,
            })
        }
    }
}

/// Gives the lock up, with the words that the page had: the page is resident or evicted as it was, at its next version.
pub(crate) fn give_back<U: Ungrouped, B: Block>(
    words: &Words<U, B>,
    pass: &mut Pass<U>,
    page: Seized,
)
    requires ready { IsReadyOn words.now B.tells pass.old }
    requires seized { IsSeized page.pid page.version page.stands (view pass.old) }
    requires home { (view pass.old).out ≡ None }
    ensures goes { GoesOn words.now B.tells pass.old pass.new }
    ensures given { GivesBack page.pid page.version (view pass.old) (view pass.new) }
{
    let Seized {
        pid,
        version,
        stands,
        lock: Lock,
    } = page;
    match stands {
        Some(_) => release_silently(words, pass, pid, version),
        None => release_evicted(words, pass, pid, version),
    }
}

/// The page as a guard: in the frame in which it stands, or else in a frame of zeros, the last of these.
pub(crate) fn furnish<U: Ungrouped, B: Block>(
    words: &Words<U, B>,
    pass: &mut Pass<U>,
    page: Seized,
    frames: &mut Batch,
) -> ExclusiveGuard
    requires ready { IsReadyOn words.now B.tells pass.old }
    requires seized { IsSeized page.pid page.version page.stands (view pass.old) }
    requires zero { (view pass.old).start.tells ≡ true → (last_of (view pass.old) page.pid).words ≡ replicate (view pass.old).start.size 0 }
    requires frames { AreHeld frames.old (view pass.old) × (0 < length frames.old) }
    ensures goes { GoesOn words.now B.tells pass.old pass.new }
    ensures guard { (result.pid ≡ page.pid) × (result.version ≡ page.version) }
    ensures furnished { Furnishes page.pid result.frame result.version result.dirty frames.old frames.new (view pass.old) (view pass.new) }
{
    let Seized {
        pid,
        version,
        stands,
        lock: Lock,
    } = page;
    match stands {
        Some(m) => ExclusiveGuard {
            pid,
            version,
            frame: m.frame,
            dirty: m.dirty,
            lock: Lock,
        },
        None => {
            let Some(frame) = frames.pop() else {
                unreachable!();
            };
            blank(words, pass, frame);
            install(words, pass, pid, frame);
            own(words, pass, pid, frame);
            ExclusiveGuard {
                pid,
                version,
                frame,
                dirty: false,
                lock: Lock,
            }
        }
    }
}

/// The answer of a call that could not lock a page.
pub(crate) fn denied(deny: Deny) -> Fresh
    requires { AgainOrWorn deny }
    ensures again { (saw : _) → deny ≡ Deny.Again saw → result ≡ Fresh.Again saw }
    ensures worn { (p : _) → deny ≡ Deny.Worn p → result ≡ Fresh.Worn p }
    ensures settled { OnlyWorn deny → IsPagesOrWorn result }
{
    match deny {
        Deny::Again(saw) => Fresh::Again(saw),
        Deny::Worn(pid) => Fresh::Worn(pid),
        Deny::Need(_) => unreachable!(),
        Deny::Crowded(_) => unreachable!(),
    }
}

/// The page as a fresh one, claimed alone, where the next word is still what it was.
fn give_one<U: Ungrouped, B: Block>(
    words: &Words<U, B>,
    pass: &mut Pass<U>,
    frames: &mut Batch,
    one: Seized,
) -> Fresh
    requires ready { IsReadyOn words.now B.tells pass.old }
    requires begun { (v : _) × IsBegun one.pid one.version one.stands v (view pass.old) }
    requires home { (view pass.old).out ≡ None }
    requires frames { AreHeld frames.old (view pass.old) × (1 ≤ length frames.old) }
    ensures goes { GoesOn words.now B.tells pass.old pass.new }
    ensures answer { (v : _) → IsBegun one.pid one.version one.stands v (view pass.old) → IsNextAnswer 1 frames.old frames.new v (view pass.new) result }
    ensures sure { IsAlone (view pass.old) → known_next (view pass.old) ≡ one.pid → IsPages result }
{
    let x = one.pid;
    let again = nload(words, pass);
    if again != x as u64 {
        give_back(words, pass, one);
        return Fresh::Again(Saw {
            at: At::Next,
            first: x as u64,
            seen: again,
        });
    }
    let first = furnish(words, pass, one, frames);
    claim(words, pass, x, 1);
    Fresh::Pages(Group::One(first))
}

/// The page and the one behind it as fresh ones, claimed together, where the next word is still what it was.
fn give_two<U: Ungrouped, B: Block>(
    words: &Words<U, B>,
    pass: &mut Pass<U>,
    frames: &mut Batch,
    one: Seized,
) -> Fresh
    requires ready { IsReadyOn words.now B.tells pass.old }
    requires begun { (v : _) × IsBegun one.pid one.version one.stands v (view pass.old) }
    requires room { one.pid + 2 ≤ words.now.table.shared.key.pages }
    requires home { (view pass.old).out ≡ None }
    requires frames { AreHeld frames.old (view pass.old) × (2 ≤ length frames.old) }
    ensures goes { GoesOn words.now B.tells pass.old pass.new }
    ensures answer { (v : _) → IsBegun one.pid one.version one.stands v (view pass.old) → IsNextAnswer 2 frames.old frames.new v (view pass.new) result }
    ensures sure { IsAlone (view pass.old) → known_next (view pass.old) ≡ one.pid → MayBeSeized (known_word (one.pid + 1) (view pass.old)) → IsPages result }
    ensures settled { IsAlone (view pass.old) → known_next (view pass.old) ≡ one.pid → LocksNone (known_word (one.pid + 1) (view pass.old))
        → IsPagesOrWorn result }
{
    let x = one.pid;
    let two = match seize(words, pass, x + 1) {
        Ok(page) => page,
        Err(deny) => {
            give_back(words, pass, one);
            return denied(deny);
        }
    };
    let again = nload(words, pass);
    if again != x as u64 {
        give_back(words, pass, two);
        give_back(words, pass, one);
        return Fresh::Again(Saw {
            at: At::Next,
            first: x as u64,
            seen: again,
        });
    }
    let first = furnish(words, pass, one, frames);
    let second = furnish(words, pass, two, frames);
    claim(words, pass, x, 2);
    Fresh::Pages(Group::Two(first, second))
}

/// Whether `n` pages are left from the next one on, as one load of the next word shows: then that page, which the load found. It locks and
/// claims nothing, so other passes may have claimed it by then; but where too few pages are left there will never be more.
pub(crate) fn next_room<U: Ungrouped, B: Block>(
    words: &Words<U, B>,
    pass: &mut Pass<U>,
    n: u32,
) -> Result<u32, NoRoom>
    requires ready { IsReadyOn words.now B.tells pass.old }
    ensures goes { GoesOn words.now B.tells pass.old pass.new }
    ensures room { IfOk result (λ next. HasPagesFor n next (view pass.old) (view pass.new)) }
    ensures full { IfErr result (λ none. IsFull n none.pages none.next none.need (view pass.old) (view pass.new)) }
{
    let found = nload(words, pass);
    let pages = words.pages as u32;
    let next = found as u32;
    if pages - next < n {
        return Err(NoRoom {
            pages,
            next,
            need: n,
        });
    }
    Ok(next)
}

/// Claims `n` pages (1 or 2) from the next one on for a group of the pass, each with words of zeros. A page that is not resident takes the
/// last frame of `frames`, of which there are at least `n`, without a read of its block. On every other answer nothing is claimed, no lock
/// is kept, and the frames are as they were. A pass that is alone and knows that each of these pages can be locked is given them.
pub(crate) fn next_pages<U: Ungrouped, B: Block>(
    words: &Words<U, B>,
    pass: &mut Pass<U>,
    frames: &mut Batch,
    n: u32,
) -> Fresh
    requires ready { IsReadyOn words.now B.tells pass.old }
    requires few { (n ≡ 1) ⊎ (n ≡ 2) }
    requires home { (view pass.old).out ≡ None }
    requires frames { AreHeld frames.old (view pass.old) × (n ≤ length frames.old) }
    ensures goes { GoesOn words.now B.tells pass.old pass.new }
    ensures answer { IsNextAnswer n frames.old frames.new (view pass.old) (view pass.new) result }
    ensures sure { IsAlone (view pass.old) → MayBeClaimed n (view pass.old) → IsPages result }
    ensures settled { IsAlone (view pass.old) → MayTryClaim n (view pass.old) → IsPagesOrWorn result }
    ensures full { IsAlone (view pass.old) → words.now.table.shared.key.pages < known_next (view pass.old) + n → IsFullAnswer result }
{
    let next = match next_room(words, pass, n) {
        Ok(next) => next,
        Err(NoRoom { pages, next, need }) => return Fresh::Full { pages, next, need },
    };
    let one = match seize(words, pass, next) {
        Ok(page) => page,
        Err(deny) => return denied(deny),
    };
    if n == 1 {
        give_one(words, pass, frames, one)
    } else {
        give_two(words, pass, frames, one)
    }
}
