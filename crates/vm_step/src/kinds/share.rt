// A share of a page is taken, and given up.
ghost use Rattle.std.specs.Prelude.{◌<◌, ◌≡◌, ◌≢◌, None, option_map, true, ℕ};
ghost use Rattle.vm_event.specs.Prelude.{MayShare, version_of};
ghost use Rattle.vm_rule.specs.Prelude.{ShareTold, UnshareTold};
ghost use Rattle.vm_step.specs.Prelude.{found_by, GoesOn, IsKeptNow, MayStep, MayTellHeld, MayUnshare, view};
ghost use Rattle.vm_step.specs.{declared.took.Took.TheVariants.Lost, steps.Share.LockSharedIsItsEvent, steps.Share.UnlockSharedIsItsEvent};

use crate::layout::state_place;
use crate::operation::{compare_exchange, fetch_sub};
use crate::state_words::{SHARE, shared_word};
use crate::took::{Took, answer};
use std::marker::Brand;
use vm_block::Block;
use vm_owner::{Owner, Ungrouped};
use vm_rule::words::{Pass, Words};

/// Takes one share of the page, where its word is the one expected: with room for a share, or Marked. What is said becomes an entry of the
/// history there, and nowhere else: this page, with others of which the pass has shares, has to prove it.
pub fn lock_shared<U: Ungrouped, B: Block>(
    words: &Words<U, B>,
    pass: &mut Pass<U>,
    p: u32,
    expects: u64,
    said: Option<&U::Said>,
) -> Took
    requires pass { MayStep words.now.table.shared.table_id pass.old }
    requires page { p < words.now.table.shared.key.pages }
    requires legal { MayShare expects }
    requires owner { MayTellHeld U.tied U.may_hold p (version_of expects) (option_map (λ b. b.now) said) (view pass.old) }
    ensures goes { GoesOn words.now B.tells pass.old pass.new }
    ensures told { ShareTold U.tied p expects (option_map (λ b. b.now) said.entry) (found_by expects result) (view pass.old) (view pass.new) }
    ensures kept { B.tells ≡ true → found_by expects result ≡ expects → IsKeptNow U.keeps p (Unit {0}) (view pass.new) }
    ensures lost { (word : ℕ) → result ≡ Lost word → word ≢ expects }
{
    let at = state_place(words, p);
    let shared = shared_word(expects);
    answer(
        compare_exchange::<U, B, (u32, Option<&U::Said>), Brand>(
            words,
            pass,
            at,
            expects,
            shared,
            (p, said),
        ),
        expects,
    )
}

/// Takes one share of the page in the same way, and says nothing.
pub fn lock_shared_silently<U: Ungrouped, B: Block>(
    words: &Words<U, B>,
    pass: &mut Pass<U>,
    p: u32,
    expects: u64,
) -> Took
    requires pass { MayStep words.now.table.shared.table_id pass.old }
    requires page { p < words.now.table.shared.key.pages }
    requires legal { MayShare expects }
    ensures goes { GoesOn words.now B.tells pass.old pass.new }
    ensures told { ShareTold U.tied p expects None (found_by expects result) (view pass.old) (view pass.new) }
    ensures kept { B.tells ≡ true → found_by expects result ≡ expects → IsKeptNow U.keeps p (Unit {0}) (view pass.new) }
    ensures lost { (word : ℕ) → result ≡ Lost word → word ≢ expects }
{
    let at = state_place(words, p);
    let new = shared_word(expects);
    answer(
        compare_exchange::<U, B, u32, Brand>(words, pass, at, expects, new, p),
        expects,
    )
}

/// Gives one share of the page up, and answers the word before.
pub fn unlock_shared<U: Ungrouped, B: Block>(words: &Words<U, B>, pass: &mut Pass<U>, p: u32) -> u64
    requires pass { MayStep words.now.table.shared.table_id pass.old }
    requires page { p < words.now.table.shared.key.pages }
    requires legal { MayUnshare (view pass.old) p }
    ensures goes { GoesOn words.now B.tells pass.old pass.new }
    ensures told { UnshareTold p result (view pass.old) (view pass.new) }
{
    let at = state_place(words, p);
    fetch_sub::<U, B, u32, Brand>(words, pass, at, SHARE, p)
}

/// A share that is tried sees the same.
pub fn lock_shared_is_its_event<U: Owner, B: Block>()
    ensures { LockSharedIsItsEvent B.stored U.keeps U.tied B.tells }
{}

/// A share that is given up sees the word before.
pub fn unlock_shared_is_its_event<U: Owner, B: Block>()
    ensures { UnlockSharedIsItsEvent B.stored U.keeps U.tied B.tells }
{}
