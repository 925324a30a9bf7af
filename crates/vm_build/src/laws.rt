//! What holds of the numbers and of the images that are built: each function states one law and does nothing.

ghost use Rattle.std.specs.Prelude.{◌≡◌, ◌<◌, ◌≤◌, ◌+◌, ◌^◌, ℕ, length};
ghost use Rattle.vm_map.specs.Keys.{KEY_END};
ghost use Rattle.vm_map.specs.Map.{Pairs, Rises};
ghost use Rattle.vm_page.specs.Sizes.{IsSize};
ghost use Rattle.vm_tree_model.specs.Fixed.{fixed};
ghost use Rattle.vm_tree_model.specs.Tree.{IsTree, map_of};
ghost use Rattle.vm_build.specs.Build.{built, needed};
ghost use Rattle.vm_build.specs.Numbers.{number_at};

/// Any 2 ^ 64 numbers of a seed in a row are all different.
pub fn numbers_in_a_row_differ()
    ensures { (seed i j : ℕ) → seed < 2 ^ 64 → number_at seed i ≡ number_at seed j → i ≤ j → j < i + 2 ^ 64 → i ≡ j }
{}

/// What is built of pairs by rising key, on pages enough of either size, is a tree of these pairs.
pub fn what_is_built_is_a_tree()
    ensures { (n pages : ℕ) (pairs : Pairs) → IsSize n → Rises 0 KEY_END pairs → needed n (length pairs) ≤ pages
        → IsTree (fixed n) (built n pages pairs) × (map_of (fixed n) (built n pages pairs) ≡ pairs) }
{}
