// Calls for fresh pages: those whose numbers are free come first. Their numbers are taken from a free-number word, and then they are locked; where no word has
// as many as are asked for, pages from the next one on are claimed.
ghost use Rattle.std.specs.Prelude.{◌*◌, ◌+◌, ◌<◌, ◌≡◌, ◌≢◌, ◌≤◌, ◌⊎◌, IfErr, IfOk, IfSome, length, None, true, ℕ};
ghost use Rattle.vm_event.specs.{Prelude.AreLowest, Prelude.in_mask, Words.bit_count};
ghost use Rattle.vm_rule.specs.FreeNumbers.{GiveNumbersTold, TakeNumbersTold};
ghost use Rattle.vm_step.specs.Prelude.{AreHeld, GoesOn, IsAlone, IsReadyOn, LocksNone, view};
ghost use Rattle.vm_step.specs.steps.Number.{PassMayGiveNumbers};
ghost use Rattle.vm_guard.specs.Fresh.{IsFull, IsFullAnswer, IsPages, IsPagesOrWorn};
ghost use Rattle.vm_guard.specs.Reused.{HasFreshRoom, IsFreshAnswer, IsReuseAnswer, IsTakenAnswer, numbers_due_of};
ghost use Rattle.vm_guard.specs.Spares.{FindsAllFew, FindsSome, known_spare, KnowsFew};
ghost use Rattle.vm_guard.specs.Sure.{FreePagesHave, FreePagesTried, known_next, MayBeGiven, MayBeSeized, MayBeTried};

use crate::deny::Deny;
use crate::fresh_pages::{denied, furnish, give_back, next_pages, next_room, seize};
use crate::given::{Fresh, NoRoom};
use crate::group::Group;
use vm_block::Block;
use vm_event::{Bundle, FRAMES};
use vm_owner::Ungrouped;
use vm_rule::words::{Pass, Words};
use vm_step::{At, Batch, Saw, Took, pbload, pgive, ptake};

/// How many bits of the word are set.
fn bits(word: u64) -> u32
    ensures { result ≡ bit_count word }
{
    let mut count: u32 = 0;
    for i in 0..u64::BITS {
        if word >> i & 1 == 1 {
            count += 1;
        }
    }
    count
}

/// The first free-number word that has `n` bits at least, as loads of these words show, from the first one on: its number, and what it was found to be.
fn find_free<U: Ungrouped, B: Block>(
    words: &Words<U, B>,
    pass: &mut Pass<U>,
    n: u32,
) -> Option<(u32, u64)>
    requires ready { IsReadyOn words.now B.tells pass.old }
    ensures goes { GoesOn words.now B.tells pass.old pass.new }
    ensures some { IfSome result (λ r. FindsSome n r.0 r.1 (view pass.old) (view pass.new)) }
    ensures none { result ≡ None → FindsAllFew n (view pass.old) (view pass.new) }
{
    let all = words.pages.div_ceil(FRAMES) as u32;
    for g in 0..all {
        let word = pbload(words, pass, g);
        if n <= bits(word) {
            return Some((g, word));
        }
    }
    None
}

/// The page whose number is the lowest bit of the mask over free-number word `g`.
fn lowest_page(g: u32, mask: u64) -> u32
    requires some { mask ≢ 0 }
    requires few { g * FRAMES < 65536 }
    ensures among { in_mask g mask result ≡ true }
    ensures lowest { (p : ℕ) → in_mask g mask p ≡ true → result ≤ p }
{
    FRAMES as u32 * g + mask.trailing_zeros()
}

/// The numbers to be given back once the page of `bit` could not be locked: all that were taken, but that of a page at its last version.
fn numbers_due(deny: &Deny, bit: u64, mask: u64) -> u64
    ensures { result ≡ numbers_due_of deny.now bit mask }
{
    match deny {
        Deny::Worn(_) => mask ^ bit,
        _ => mask,
    }
}

/// Gives the numbers of this mask back, if there are any.
fn give_numbers<U: Ungrouped, B: Block>(words: &Words<U, B>, pass: &mut Pass<U>, g: u32, mask: u64)
    requires ready { IsReadyOn words.now B.tells pass.old }
    requires word { g * FRAMES < words.now.table.shared.key.pages }
    requires legal { mask ≢ 0 → PassMayGiveNumbers (view pass.old) g mask }
    ensures goes { GoesOn words.now B.tells pass.old pass.new }
    ensures none { mask ≡ 0 → view pass.new ≡ view pass.old }
    ensures given { mask ≢ 0 → (found : ℕ) × GiveNumbersTold g mask found (view pass.old) (view pass.new) }
{
    if mask != 0 {
        pgive(words, pass, g, mask);
    }
}

/// The page of the mask, whose number was taken from free-number word `g`, as a fresh one; or else the number is given back.
fn reuse_one<U: Ungrouped, B: Block>(
    words: &Words<U, B>,
    pass: &mut Pass<U>,
    frames: &mut Batch,
    g: u32,
    word: u64,
    mask: u64,
) -> Fresh
    requires ready { IsReadyOn words.now B.tells pass.old }
    requires word { g * FRAMES < words.now.table.shared.key.pages }
    requires mask { AreLowest word 1 mask × (1 ≤ bit_count word) }
    requires taken { (v : _) × TakeNumbersTold g word mask word v (view pass.old) }
    requires home { (view pass.old).out ≡ None }
    requires frames { AreHeld frames.old (view pass.old) × (1 ≤ length frames.old) }
    ensures goes { GoesOn words.now B.tells pass.old pass.new }
    ensures answer { (v : _) → TakeNumbersTold g word mask word v (view pass.old) → IsTakenAnswer 1 g word mask frames.old frames.new v (view pass.new) result }
    ensures sure { IsAlone (view pass.old) → FreePagesHave MayBeSeized g mask (view pass.old) → IsPages result }
    ensures settled { IsAlone (view pass.old) → FreePagesHave LocksNone g mask (view pass.old) → IsPagesOrWorn result }
{
    match seize(words, pass, lowest_page(g, mask)) {
        Ok(page) => Fresh::Pages(Group::One(furnish(words, pass, page, frames))),
        Err(deny) => {
            give_numbers(words, pass, g, numbers_due(&deny, mask, mask));
            denied(deny)
        }
    }
}

/// The two pages of the mask, whose numbers were taken from free-number word `g`, as fresh ones; or else the numbers are given back.
fn reuse_two<U: Ungrouped, B: Block>(
    words: &Words<U, B>,
    pass: &mut Pass<U>,
    frames: &mut Batch,
    g: u32,
    word: u64,
    mask: u64,
) -> Fresh
    requires ready { IsReadyOn words.now B.tells pass.old }
    requires word { g * FRAMES < words.now.table.shared.key.pages }
    requires mask { AreLowest word 2 mask × (2 ≤ bit_count word) }
    requires taken { (v : _) × TakeNumbersTold g word mask word v (view pass.old) }
    requires home { (view pass.old).out ≡ None }
    requires frames { AreHeld frames.old (view pass.old) × (2 ≤ length frames.old) }
    ensures goes { GoesOn words.now B.tells pass.old pass.new }
    ensures answer { (v : _) → TakeNumbersTold g word mask word v (view pass.old) → IsTakenAnswer 2 g word mask frames.old frames.new v (view pass.new) result }
    ensures sure { IsAlone (view pass.old) → FreePagesHave MayBeSeized g mask (view pass.old) → IsPages result }
    ensures settled { IsAlone (view pass.old) → FreePagesHave LocksNone g mask (view pass.old) → IsPagesOrWorn result }
{
    let lower = Bundle::lowest(mask, 1);
    let upper = mask ^ lower;
    let one = match seize(words, pass, lowest_page(g, lower)) {
        Ok(page) => page,
        Err(deny) => {
            give_numbers(words, pass, g, numbers_due(&deny, lower, mask));
            return denied(deny);
        }
    };
    let two = match seize(words, pass, lowest_page(g, upper)) {
        Ok(page) => page,
        Err(deny) => {
            give_back(words, pass, one);
            give_numbers(words, pass, g, numbers_due(&deny, upper, mask));
            return denied(deny);
        }
    };
    let first = furnish(words, pass, one, frames);
    let second = furnish(words, pass, two, frames);
    Fresh::Pages(Group::Two(first, second))
}

/// Takes the numbers of the `n` lowest bits of free-number word `g`, which was found to be `word`, and locks their pages; or else gives the numbers back.
fn reuse<U: Ungrouped, B: Block>(
    words: &Words<U, B>,
    pass: &mut Pass<U>,
    frames: &mut Batch,
    n: u32,
    g: u32,
    word: u64,
) -> Fresh
    requires ready { IsReadyOn words.now B.tells pass.old }
    requires few { (n ≡ 1) ⊎ (n ≡ 2) }
    requires word { g * FRAMES < words.now.table.shared.key.pages }
    requires enough { n ≤ bit_count word }
    requires home { (view pass.old).out ≡ None }
    requires frames { AreHeld frames.old (view pass.old) × (n ≤ length frames.old) }
    ensures goes { GoesOn words.now B.tells pass.old pass.new }
    ensures answer { IsReuseAnswer n g word frames.old frames.new (view pass.old) (view pass.new) result }
    ensures sure { IsAlone (view pass.old) → known_spare g (view pass.old) ≡ word
        → ((mask : ℕ) → AreLowest word n mask → FreePagesHave MayBeSeized g mask (view pass.old)) → IsPages result }
    ensures settled { IsAlone (view pass.old) → known_spare g (view pass.old) ≡ word
        → ((mask : ℕ) → AreLowest word n mask → FreePagesTried g mask (view pass.old)) → IsPagesOrWorn result }
{
    let mask = Bundle::lowest(word, n);
    match ptake(words, pass, g, word, mask) {
        Took::Lost(seen) => Fresh::Again(Saw {
            at: At::Free(g),
            first: word,
            seen,
        }),
        Took::Taken => {
            if n == 1 {
                reuse_one(words, pass, frames, g, word, mask)
            } else {
                reuse_two(words, pass, frames, g, word, mask)
            }
        }
    }
}

/// Whether there is room for `n` pages, as one load of each free-number word shows, up to the first that has `n` bits, and else one of the next word: a word has
/// that many, or so many pages are left from the next one on. It takes, locks and claims nothing, so other passes may have done so by then.
pub fn room_for<U: Ungrouped, B: Block>(
    words: &Words<U, B>,
    pass: &mut Pass<U>,
    n: u32,
) -> Result<(), NoRoom>
    requires ready { IsReadyOn words.now B.tells pass.old }
    ensures goes { GoesOn words.now B.tells pass.old pass.new }
    ensures room { IfOk result (λ _. HasFreshRoom n (view pass.old) (view pass.new)) }
    ensures full { IfErr result (λ none. (u : _) × FindsAllFew n (view pass.old) u × IsFull n none.pages none.next none.need u (view pass.new)) }
{
    if find_free(words, pass, n).is_some() {
        return Ok(());
    }
    match next_room(words, pass, n) {
        Ok(_next) => Ok(()),
        Err(none) => Err(none),
    }
}

/// `n` fresh pages (1 or 2) for a group of the pass, each with words of zeros. From the first free-number word with `n` bits it takes the numbers of the `n`
/// lowest, and locks their pages; where no word has so many, it claims pages from the next one on. A page that is not resident takes the last frame of `frames`,
/// of which there are at least `n`, without a read of its block. On every other answer nothing is claimed, no lock is kept, the frames are as they were, and
/// numbers that were taken are given back, but that of a page at its last version. A pass that is alone and knows that each of these pages can be locked is
/// given them.
pub fn fresh<U: Ungrouped, B: Block>(
    words: &Words<U, B>,
    pass: &mut Pass<U>,
    frames: &mut Batch,
    n: u32,
) -> Fresh
    requires ready { IsReadyOn words.now B.tells pass.old }
    requires few { (n ≡ 1) ⊎ (n ≡ 2) }
    requires home { (view pass.old).out ≡ None }
    requires frames { AreHeld frames.old (view pass.old) × (n ≤ length frames.old) }
    ensures goes { GoesOn words.now B.tells pass.old pass.new }
    ensures answer { IsFreshAnswer n frames.old frames.new (view pass.old) (view pass.new) result }
    ensures sure { IsAlone (view pass.old) → MayBeGiven n (view pass.old) → IsPages result }
    ensures settled { IsAlone (view pass.old) → MayBeTried n (view pass.old) → IsPagesOrWorn result }
    ensures full { IsAlone (view pass.old) → KnowsFew n words.now.table.shared.key.pages (view pass.old)
        → words.now.table.shared.key.pages < known_next (view pass.old) + n → IsFullAnswer result }
{
    match find_free(words, pass, n) {
        Some((g, word)) => reuse(words, pass, frames, n, g, word),
        None => next_pages(words, pass, frames, n),
    }
}
