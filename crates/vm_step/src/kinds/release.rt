// A page that is locked exclusively is released at its next version: as Unlocked, as Evicted, or to one share of the pass.
ghost use Rattle.std.specs.Prelude.{[], ◌+◌, ◌<◌, ◌≡◌, None, option_map, true};
ghost use Rattle.vm_event.specs.Prelude.{MAX_VERSION};
ghost use Rattle.vm_rule.specs.Prelude.{DowngradeTold, EvictTold, ReleaseTold};
ghost use Rattle.vm_step.specs.Prelude.{GoesOn, IsKeptNow, MayDowngrade, MayEvict, MayGiveUp, MayStep, view};
ghost use Rattle.vm_step.specs.steps.Release.{DowngradeIsItsEvent, ReleaseEvictedIsItsEvent, ReleaseIsItsEvent};

use crate::layout::state_place;
use crate::operation::store;
use std::marker::Brand;
use vm_block::Block;
use vm_event::StateWord;
use vm_owner::{Owner, Ungrouped};
use vm_rule::words::{Pass, Words};

/// Releases the page, which is locked at `version`, as Unlocked at the next version: its draft is its last words then. As the first of a
/// group it makes the drafts of the others, `rest`, logical too; these are released later, one by one. What is said becomes an entry.
pub fn release<U: Ungrouped, B: Block>(
    words: &Words<U, B>,
    pass: &mut Pass<U>,
    p: u32,
    version: u64,
    rest: &[u32],
    said: Option<&U::Said>,
)
    requires pass { MayStep words.now.table.shared.table_id pass.old }
    requires page { p < words.now.table.shared.key.pages }
    requires below { version < MAX_VERSION }
    requires legal { MayGiveUp U.may_release p version rest.now (option_map (λ b. b.now) said) (view pass.old) }
    ensures goes { GoesOn words.now B.tells pass.old pass.new }
    ensures told { ReleaseTold p version rest.now (option_map (λ b. b.now) said.entry) (view pass.old) (view pass.new) }
    ensures kept { B.tells ≡ true → IsKeptNow U.keeps p (Unit {0}) (view pass.new) }
{
    let at = state_place(words, p);
    let about = (p, version, rest, said);
    store::<U, B, (u32, u64, &[u32], Option<&U::Said>), Brand>(words, pass, at, version + 1, about);
}

/// Releases a page alone, whose words have not changed and which is owed to nobody, and says nothing.
pub fn release_silently<U: Ungrouped, B: Block>(
    words: &Words<U, B>,
    pass: &mut Pass<U>,
    p: u32,
    version: u64,
)
    requires pass { MayStep words.now.table.shared.table_id pass.old }
    requires page { p < words.now.table.shared.key.pages }
    requires below { version < MAX_VERSION }
    requires legal { MayGiveUp U.may_release p version [] None (view pass.old) }
    ensures goes { GoesOn words.now B.tells pass.old pass.new }
    ensures told { ReleaseTold p version [] None (view pass.old) (view pass.new) }
    ensures kept { B.tells ≡ true → IsKeptNow U.keeps p (Unit {0}) (view pass.new) }
{
    let at = state_place(words, p);
    store::<U, B, (u32, u64), Brand>(words, pass, at, version + 1, (p, version));
}

/// Releases a page as Evicted at its next version, which the pass has locked exclusively and which is not resident.
pub fn release_evicted<U: Ungrouped, B: Block>(
    words: &Words<U, B>,
    pass: &mut Pass<U>,
    p: u32,
    version: u64,
)
    requires pass { MayStep words.now.table.shared.table_id pass.old }
    requires page { p < words.now.table.shared.key.pages }
    requires below { version < MAX_VERSION }
    requires legal { MayEvict (view pass.old) p version }
    ensures goes { GoesOn words.now B.tells pass.old pass.new }
    ensures told { EvictTold p version (view pass.old) (view pass.new) }
    ensures kept { B.tells ≡ true → IsKeptNow U.keeps p (Unit {0}) (view pass.new) }
{
    let at = state_place(words, p);
    let new = StateWord::of(StateWord::EVICTED, version + 1);
    store::<U, B, (u32, u64), Brand>(words, pass, at, new, (p, version));
}

/// Releases a page alone at its next version, which the pass has locked exclusively, to one share of the pass. Nothing is said.
pub fn downgrade<U: Ungrouped, B: Block>(
    words: &Words<U, B>,
    pass: &mut Pass<U>,
    p: u32,
    version: u64,
)
    requires pass { MayStep words.now.table.shared.table_id pass.old }
    requires page { p < words.now.table.shared.key.pages }
    requires below { version < MAX_VERSION }
    requires legal { MayDowngrade U.may_release (view pass.old) p version }
    ensures goes { GoesOn words.now B.tells pass.old pass.new }
    ensures told { DowngradeTold p version (view pass.old) (view pass.new) }
    ensures kept { B.tells ≡ true → IsKeptNow U.keeps p (Unit {0}) (view pass.new) }
{
    let at = state_place(words, p);
    let new = StateWord::of(1, version + 1);
    store::<U, B, (u32, u64), Brand>(words, pass, at, new, (p, version));
}

/// A release of a page that the pass holds exclusively sees nothing: the page is Unlocked at its next version.
pub fn release_is_its_event<U: Owner, B: Block>()
    ensures { ReleaseIsItsEvent B.stored U.keeps U.tied B.tells U.may_release }
{}

/// A release of a page that is not resident sees nothing: the page is Evicted at its next version.
pub fn release_evicted_is_its_event<U: Owner, B: Block>()
    ensures { ReleaseEvictedIsItsEvent B.stored U.keeps U.tied B.tells }
{}

/// A release to a share of the pass sees nothing: the page is at its next version, with one share.
pub fn downgrade_is_its_event<U: Owner, B: Block>()
    ensures { DowngradeIsItsEvent B.stored U.keeps U.tied B.tells U.may_release }
{}
