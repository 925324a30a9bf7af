// A group that is locked exclusively is released at its next version: as Unlocked, or as Evicted.
ghost use Rattle.std.specs.Prelude.{◌+◌, ◌<◌, option_map};
ghost use Rattle.vm_event.specs.Prelude.{EVICTED, MAX_VERSION, word_of};
ghost use Rattle.vm_rule.specs.Prelude.{EvictTold};
ghost use Rattle.vm_step.specs.Prelude.{GoesOn, MayEvict, MayStep, ReleaseTells, view};
ghost use Rattle.vm_step.specs.{Over.InTurn, steps.Release.MayGiveUpAll, steps.Release.ReleaseTellsOf};
ghost use Rattle.vm_group_step.specs.EventKinds.{ReleaseGroupEvictedIsItsEvent, ReleaseGroupIsItsEvent};
ghost use Rattle.vm_group_step.specs.Heads.{EachUnder, IsHead, pages_under};

use std::marker::Brand;
use vm_block::Block;
use vm_event::StateWord;
use vm_owner::Owner;
use vm_rule::words::{Pass, Words};
use vm_step::making::{state_place, store};

/// Releases the pages of a group, which are locked at `version`, as Unlocked at the next version: their drafts are their last words then. The
/// layer above sees one change of all of them and of the others of `rest`, pages of further groups, which are released later. What is said
/// becomes an entry.
pub fn release_group<U: Owner, B: Block>(
    words: &Words<U, B>,
    pass: &mut Pass<U>,
    h: u32,
    version: u64,
    rest: &[u32],
    said: Option<&U::Said>,
)
    requires pass { MayStep words.now.table.shared.table_id pass.old }
    requires head { IsHead words.now.table.shared.key h }
    requires below { version < MAX_VERSION }
    requires legal { MayGiveUpAll U.may_release (pages_under words.now.table.shared.key h) h version rest.now (option_map (λ b. b.now) said) (view pass.old) }
    ensures goes { GoesOn words.now B.tells pass.old pass.new }
    ensures told { InTurn (λ q _. ReleaseTellsOf U.keeps B.tells h version rest.now (option_map (λ b. b.now) said.entry) q)
        (pages_under words.now.table.shared.key h) (version + 1) (view pass.old) (view pass.new) }
{
    let at = state_place(words, h);
    let about = (h, version, rest, said);
    store::<U, B, (u32, u64, &[u32], Option<&U::Said>), Brand>(words, pass, at, version + 1, about);
}

/// Releases the pages of a group as Evicted at the next version, which the pass has locked exclusively and none of which is resident.
pub fn release_group_evicted<U: Owner, B: Block>(
    words: &Words<U, B>,
    pass: &mut Pass<U>,
    h: u32,
    version: u64,
)
    requires pass { MayStep words.now.table.shared.table_id pass.old }
    requires head { IsHead words.now.table.shared.key h }
    requires below { version < MAX_VERSION }
    requires legal { EachUnder words.now.table.shared.key h (λ q. MayEvict (view pass.old) q version) }
    ensures goes { GoesOn words.now B.tells pass.old pass.new }
    ensures told { InTurn (λ q _. ReleaseTells U.keeps B.tells q (EvictTold q version)) (pages_under words.now.table.shared.key h)
        (word_of EVICTED (version + 1)) (view pass.old) (view pass.new) }
{
    let at = state_place(words, h);
    let new = StateWord::of(StateWord::EVICTED, version + 1);
    store::<U, B, (u32, u64), Brand>(words, pass, at, new, (h, version));
}

/// A group's release is one event of the machine with groups.
pub fn release_group_is_its_event<U: Owner, B: Block>()
    ensures { ReleaseGroupIsItsEvent B.stored U.keeps U.tied B.tells U.may_release }
{}

/// So is one as Evicted.
pub fn release_group_evicted_is_its_event<U: Owner, B: Block>()
    ensures { ReleaseGroupEvictedIsItsEvent B.stored U.keeps U.tied B.tells }
{}
