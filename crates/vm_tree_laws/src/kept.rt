//! What keeps the tree's relation: the start has it, and a release, a read, pages held together, a claim and moves of page numbers keep it.
//! Three things follow from it: what a page tells of the pages that it names, what has become of the pages where they are used up, and how many
//! nodes there are where leaves held together do not reach the last key.
ghost use Rattle.std.specs.Prelude.{◌≡◌, ℕ, ◌+◌, ◌-◌, ◌*◌, ◌<◌, ◌≤◌, List, [], length};
ghost use Rattle.vm_map.specs.{declared.call.Said.Said, Keys.KEY_END};
ghost use Rattle.vm_owner.specs.declared.Entry.{Entry};
ghost use Rattle.vm_owner.specs.Kept.{Start, Kept, Change, Fits, IsTurn, after_release, told, claimed, AreZero, first_kept, PagesHave, MayMove, moved, NumberMove};
ghost use Rattle.vm_page.specs.Pages.{page_at};
ghost use Rattle.vm_tree_model.specs.{Fixed.fixed, Layout.Layout, Layout.IsLayout};
ghost use Rattle.vm_tree_model.specs.Page.{IsFree};
ghost use Rattle.vm_tree_model.specs.Tree.{IsTree};
ghost use Rattle.vm_tree_model.specs.Count.{node_count};
ghost use Rattle.vm_tree_laws.specs.History.{gones, news};
ghost use Rattle.vm_tree_laws.specs.Keeps.{full_weight, merge_weight, KeepsTree};
ghost use Rattle.vm_tree_laws.specs.May.{AreLeavesFrom, MayHold, MayRelease, MayRead, MOST_LEAVES};
ghost use Rattle.vm_tree_laws.specs.Tied.{Tied};

/// A start whose pages are a tree, with a next page among them or one past the last, meets the relation: nothing is owed, and the
/// history is empty.
#[tactic(auto, using(crate::proofs::Starts::start_keeps))]
pub fn start_keeps()
    ensures { (L : Layout) → IsLayout L → (start : Start) → IsTree L start.pages → start.next ≤ length start.pages → KeepsTree L start (first_kept start) }
{}

/// What may be released keeps the relation: a leaf after a put or a del with its entry, the three pages of a split below the root, the
/// four pages of a split of the root, and the three or four pages of two leaves that become one, with the entry of the del before.
pub fn releases_keep()
    ensures { (L : Layout) → IsLayout L → (start : Start) (kept : Kept Said) (due : List ℕ) (changes : List Change) (entries : List (Entry Said))
        → KeepsTree L start kept → Fits kept due changes → IsTurn kept.history entries → MayRelease L start due changes entries
        → KeepsTree L start (after_release changes entries kept) }
{}

/// The entry that a validated leaf proves keeps the relation: a get, a window, a del of a key that is not there.
pub fn reads_keep()
    ensures { (L : Layout) → IsLayout L → (start : Start) (kept : Kept Said) (page : ℕ) (entries : List (Entry Said))
        → KeepsTree L start kept → IsTurn kept.history entries → MayRead L start page (page_at kept.pages page) entries
        → KeepsTree L start (told entries kept) }
{}

/// The entry that leaves prove which are held together keeps the relation: a range. They follow one another, so between their fences the map has just
/// their pairs.
pub fn holds_keep()
    ensures { (L : Layout) → IsLayout L → (start : Start) (kept : Kept Said) (leaves : List (ℕ × List ℕ)) (entries : List (Entry Said))
        → KeepsTree L start kept → PagesHave kept.pages leaves → IsTurn kept.history entries → MayHold L start leaves entries
        → KeepsTree L start (told entries kept) }
{}

/// A claim of pages of zeros keeps the relation, and the pages claimed are owed.
pub fn claims_keep()
    ensures { (L : Layout) → IsLayout L → (start : Start) (kept : Kept Said) (n : ℕ) → KeepsTree L start kept → AreZero kept n
        → KeepsTree L start (claimed n kept) }
{}

/// Any two pages are tied, and each page is tied with itself.
pub fn pages_are_tied()
    ensures pages { (L : Layout) → IsLayout L → (start : Start) (kept : Kept Said) (r p : ℕ) → KeepsTree L start kept → r < length kept.pages
        → Tied L start r (page_at kept.pages r) p (page_at kept.pages p) }
    ensures itself { (L : Layout) → IsLayout L → (start : Start) (kept : Kept Said) (p : ℕ) → KeepsTree L start kept → p < length kept.pages
        → Tied L start p (page_at kept.pages p) p (page_at kept.pages p) }
{}

/// Where no page is owed and at most one was never claimed, the puts of new keys account for the pages. With P pages, of which X were
/// used at the start by N nodes, and with G such puts and D dels that gave a value, 13 * (P - 1 - X) is at most 28 * N + 2 * G + 12 * D where a
/// page has 64 words, and 125 * (P - 1 - X) is at most 252 * N + 2 * G + 108 * D where it has 512.
#[tactic(auto, using(crate::proofs::Fullness::room_used))]
pub fn full_has_a_cause()
    ensures { (L : Layout) (start : Start) (kept : Kept Said) → KeepsTree L start kept → kept.owed ≡ [] → length start.pages ≤ kept.next + 1
        → L.node_weight * length start.pages ≤ L.excess_weight * (L.room - L.base) * node_count L start.pages + L.excess_weight * L.growth * news kept.history
        + merge_weight L * gones kept.history + L.node_weight * (start.next + 1) }
{}

/// Page numbers that are taken and given, and a hold that ends, keep the relation.
pub fn moves_keep()
    ensures { (L : Layout) (start : Start) (kept : Kept Said) (move : NumberMove) → KeepsTree L start kept → MayMove kept move → KeepsTree L start (moved move kept) }
{}

/// Where sixteen leaves that follow one another do not reach the last key, the tree has eighteen nodes at least, so nineteen pages, and the puts of new
/// keys account for them. With N nodes at the start and G such puts, 13 * 18 is at most 41 * N + 2 * G where a page has 64 words (`words`), and 125 * 18
/// is at most 377 * N + 2 * G where it has 512. Where the start is a tree whose pages from its next page X on are free (`image`), 13 * 19 is at most
/// 28 * N + 2 * G + 13 * X, and 125 * 19 at most 252 * N + 2 * G + 125 * X.
pub fn wide_has_a_cause()
    ensures any { (L : Layout) → IsLayout L → (start : Start) (kept : Kept Said) → KeepsTree L start kept → (leaves : List (ℕ × List ℕ)) (low reach : ℕ)
        → PagesHave kept.pages leaves → AreLeavesFrom L leaves low reach → length leaves ≡ MOST_LEAVES → reach < L.key_end
        → L.node_weight * 18 ≤ full_weight L * node_count L start.pages + L.excess_weight * L.growth * news kept.history }
    ensures words { (start : Start) (kept : Kept Said) → KeepsTree (fixed 64) start kept → (leaves : List (ℕ × List ℕ)) (low reach : ℕ)
        → PagesHave kept.pages leaves → AreLeavesFrom (fixed 64) leaves low reach → length leaves ≡ MOST_LEAVES → reach < KEY_END
        → 13 * 18 ≤ 41 * node_count (fixed 64) start.pages + 2 * news kept.history }
    ensures pages { (L : Layout) → IsLayout L → (start : Start) (kept : Kept Said) → KeepsTree L start kept → (leaves : List (ℕ × List ℕ)) (low reach : ℕ)
        → PagesHave kept.pages leaves → AreLeavesFrom L leaves low reach → length leaves ≡ MOST_LEAVES → reach < L.key_end → 19 ≤ length start.pages }
    ensures image { (L : Layout) → IsLayout L → (start : Start) (kept : Kept Said) → KeepsTree L start kept
        → IsTree L start.pages → ((p : ℕ) → start.next ≤ p → p < length start.pages → IsFree L (page_at start.pages p)) → (leaves : List (ℕ × List ℕ)) (low reach : ℕ)
        → PagesHave kept.pages leaves → AreLeavesFrom L leaves low reach → length leaves ≡ MOST_LEAVES → reach < L.key_end
        → L.node_weight * 19 ≤ L.excess_weight * (L.room - L.base) * node_count L start.pages + L.excess_weight * L.growth * news kept.history + L.node_weight * start.next }
{}
