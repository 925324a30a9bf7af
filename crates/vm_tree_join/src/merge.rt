// Two leaves become one: the pages concerned, which are locked, are written and released together, with the del that made them few.
ghost use Rattle.std.specs.Prelude.{[], ◌≡◌, ◌<◌, ◌∷◌, true, ℕ};
ghost use Rattle.vm_event.specs.Prelude.{in_mask};
ghost use Rattle.vm_rule.specs.FreeNumbers.{GiveNumbersTold, IsGivenBy};
ghost use Rattle.vm_tree_split.specs.from_vm_step.Prelude.{GoesOn, IsReadyOn, view};
ghost use Rattle.vm_tree_join.specs.Merging.{CanCollapse, CanMerge, IsMerged};

use vm_block::Block;
use vm_event::FRAMES;
use vm_rule::words::{Pass, Words};
use vm_tree_split::draft::{Edited, Whole, redraft};
use vm_tree_split::guard::{ExclusiveGuard, Group, release_group};
use vm_tree_split::kind::{Edits, Kind, TreeOf};
use vm_tree_split::step::pgive;

/// Makes the edit of the parent, whose words stand in `over`; the left leaf gets the words of `joined`, and the right one's page zeros. The three are released
/// together: what is said becomes an entry there, and the right page's number is the pass's to give.
pub fn write_merge<K: Edits, B: Block>(
    words: &Words<TreeOf<K>, B>,
    pass: &mut Pass<TreeOf<K>>,
    up: ExclusiveGuard,
    left: ExclusiveGuard,
    right: ExclusiveGuard,
    over: &K::Page,
    edit: K::Edit,
    first: &K::Page,
    joined: &K::Page,
    second: &K::Page,
    said: &K::Said,
)
    requires ready { IsReadyOn words.now B.tells pass.old }
    requires can { CanMerge K.layout up left right (K.words_of over.now) (K.edited (K.words_of over.now) edit) (K.words_of first.now) (K.words_of joined.now)
        (K.words_of second.now) (K.plain said.now) (view pass.old) }
    ensures goes { GoesOn words.now B.tells pass.old pass.new }
    ensures merged { IsMerged K.plain K.layout (up.pid ∷ left.pid ∷ right.pid ∷ []) (right.pid ∷ []) said.now (view pass.old) (view pass.new) }
{
    let changes = K::changes(over, &edit);
    let above: Edited<'_, K> = Edited {
        page: over,
        edit,
        changes,
    };
    let both: Whole<'_, K> = Whole { page: joined };
    let zero = K::zero();
    let none: Whole<'_, K> = Whole { page: &zero };
    let mut one = up;
    let mut two = left;
    let mut three = right;
    redraft(words, pass, &mut one, over, &above);
    redraft(words, pass, &mut two, first, &both);
    redraft(words, pass, &mut three, second, &none);
    release_group(words, pass, Group::Three(one, two, three), Some(said));
}

/// The same of the root's last two leaves: page 0 names the left one as the root, of height 0, and the old root's page gets zeros too. The four are released together.
pub fn write_collapse<K: Edits, B: Block>(
    words: &Words<TreeOf<K>, B>,
    pass: &mut Pass<TreeOf<K>>,
    meta: ExclusiveGuard,
    root: ExclusiveGuard,
    left: ExclusiveGuard,
    right: ExclusiveGuard,
    over: &K::Page,
    first: &K::Page,
    joined: &K::Page,
    second: &K::Page,
    said: &K::Said,
)
    requires ready { IsReadyOn words.now B.tells pass.old }
    requires can { CanCollapse K.layout meta root left right (K.words_of over.now) (K.words_of first.now) (K.words_of joined.now) (K.words_of second.now) (K.plain said.now)
        (view pass.old) }
    ensures goes { GoesOn words.now B.tells pass.old pass.new }
    ensures merged { IsMerged K.plain K.layout (meta.pid ∷ root.pid ∷ left.pid ∷ right.pid ∷ []) (root.pid ∷ right.pid ∷ []) said.now (view pass.old) (view pass.new) }
{
    let both: Whole<'_, K> = Whole { page: joined };
    let zero = K::zero();
    let none: Whole<'_, K> = Whole { page: &zero };
    let mut one = meta;
    let mut two = root;
    let mut three = left;
    let mut four = right;
    one.set(words, pass, 1, three.pid as u64);
    one.set(words, pass, 2, 0);
    redraft(words, pass, &mut two, over, &none);
    redraft(words, pass, &mut three, first, &both);
    redraft(words, pass, &mut four, second, &none);
    release_group(words, pass, Group::Four(one, two, three, four), Some(said));
}

/// Gives the number of a page that the pass freed, or whose number it holds.
pub fn give_number<K: Kind, B: Block>(
    words: &Words<TreeOf<K>, B>,
    pass: &mut Pass<TreeOf<K>>,
    page: u32,
)
    requires ready { IsReadyOn words.now B.tells pass.old }
    requires page { page < words.now.table.shared.key.pages }
    requires mine { (view pass.old).start.tells ≡ true → IsGivenBy (view pass.old) page }
    ensures goes { GoesOn words.now B.tells pass.old pass.new }
    ensures given { (g mask found : ℕ) × (in_mask g mask page ≡ true) × ((q : ℕ) → in_mask g mask q ≡ true → q ≡ page) × GiveNumbersTold g mask found (view pass.old) (view pass.new) }
{
    let bits = FRAMES as u32;
    let mask: u64 = 1 << (page % bits);
    pgive(words, pass, page / bits, mask);
}
