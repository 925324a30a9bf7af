//! What a layer above a page store keeps true of the logical pages and the history: an interface over plain data,
//! with the laws that let the store take each step without knowing the layer.
#![tactic(auto)]

/// An entry of the history: the number under which it was made, how many that number has with it, and what was said.
pub struct Entry<S> {
    pub number: u64,
    pub count: u64,
    pub said: S,
}

ghost use Rattle.std.specs.Prelude.{◌≡◌, []};

/// A layer above a page store: a relation over plain data, and its laws.
pub trait Owner {
    type Said;

    ghost use Rattle.std.specs.Prelude.{Bool, true, ℕ, ◌<◌, List, length};
    ghost use Rattle.vm_page.specs.Pages.{page_at};
    ghost use Rattle.vm_owner.specs.declared.Entry.{Entry};
    ghost use Rattle.vm_owner.specs.Grouped.{no_groups};
    ghost use Rattle.vm_owner.specs.Kept.{Start, Kept, Change, Fits, IsTurn, after_release, told, claimed, AreZero, PagesHave, MayMove, moved, NumberMove};

    // Of how many words each page may be, for this layer.
    ghost takes_size: { ℕ → Bool } = { λ _. true };

    // Which groups of pages a table may have, for this layer.
    ghost takes_groups: { List (ℕ × ℕ) → Bool } = { no_groups };

    // What holds of the start and of what stands now.
    ghost keeps: { Start → Kept Self.Said → Type 0 };

    // When a pass, to which some pages are owed, may release pages together with these entries.
    ghost may_release: { Start → List ℕ → List Change → List (Entry Self.Said) → Type 0 };

    // When a page's words, read whole at one moment, prove these entries.
    ghost may_read: { Start → ℕ → List ℕ → List (Entry Self.Said) → Type 0 };

    // When pages of which a pass has shares, each with its words, prove these entries together.
    ghost may_hold: { Start → List (ℕ × List ℕ) → List (Entry Self.Said) → Type 0 };

    // What a page's words say of another page's words.
    ghost tied: { Start → ℕ → List ℕ → ℕ → List ℕ → Type 0 };

    ghost releases: { (start : Start) (kept : Kept Self.Said) (due : List ℕ) (changes : List Change) (entries : List (Entry Self.Said))
        → keeps start kept → Fits kept due changes → IsTurn kept.history entries → may_release start due changes entries
        → keeps start (after_release changes entries kept) };

    ghost reads: { (start : Start) (kept : Kept Self.Said) (page : ℕ) (entries : List (Entry Self.Said)) → keeps start kept → page < length kept.pages
        → IsTurn kept.history entries → may_read start page (page_at kept.pages page) entries → keeps start (told entries kept) };

    ghost holds: { (start : Start) (kept : Kept Self.Said) (pages : List (ℕ × List ℕ)) (entries : List (Entry Self.Said)) → keeps start kept
        → PagesHave kept.pages pages → IsTurn kept.history entries → may_hold start pages entries → keeps start (told entries kept) };

    ghost claims: { (start : Start) (kept : Kept Self.Said) (n : ℕ) → keeps start kept → AreZero kept n → keeps start (claimed n kept) };

    ghost numbers: { (start : Start) (kept : Kept Self.Said) (move : NumberMove) → keeps start kept → MayMove kept move → keeps start (moved move kept) };

    ghost ties: { (start : Start) (kept : Kept Self.Said) (r p : ℕ) → keeps start kept → r < length kept.pages → p < length kept.pages → tied start r (page_at kept.pages r) p (page_at kept.pages p) };
}

/// An owner whose tables have no groups: each page stands under a state word of its own.
pub trait Ungrouped: Owner {
    ghost use Rattle.std.specs.Prelude.{[], List, true, ℕ, ◌≡◌};

    ghost ungrouped: { (groups : List (ℕ × ℕ)) → Self.takes_groups groups ≡ true → groups ≡ [] };

    ghost takes_none: { Self.takes_groups [] ≡ true };
}

/// An owner that keeps nothing and adds no entry.
#[derive(Drop)]
pub struct Bare;

impl Owner for Bare {
    type Said = ();

    ghost keeps = { λ _ _. Unit {0} };

    ghost may_release = { λ _ _ _ entries. entries ≡ [] };

    ghost may_read = { λ _ _ _ entries. entries ≡ [] };

    ghost may_hold = { λ _ _ entries. entries ≡ [] };

    ghost tied = { λ _ _ _ _ _. Unit {0} };

    ghost releases = { λ _ _ _ _ _ _ _ _ _. tt };

    ghost reads = { λ _ _ _ _ _ _ _ _. tt };

    ghost holds = { λ _ _ _ _ _ _ _ _. tt };

    ghost claims = { λ _ _ _ _ _. tt };

    ghost numbers = { λ _ _ _ _ _. tt };

    ghost ties = { λ _ _ _ _ _ _ _. tt };
}

impl Ungrouped for Bare {
    ghost use Rattle.std.proofs.Common.{refl};
    ghost use Rattle.vm_owner.specs.Grouped.{takes-none};

    ghost ungrouped = { takes-none };

    ghost takes_none = { refl };
}
