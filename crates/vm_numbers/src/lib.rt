//! Free page numbers: where the number of each page stands, what that says of the page's words, and that each kind of step keeps it.
#![tactic(auto)]

ghost use Rattle.std.specs.Prelude.{[], ◌++◌, ◌<◌, ◌∷◌, ◌≡◌, ◌≢◌, ◌≤◌, ◌⊎◌, Bool, false, if◌then◌else◌, List, slice_set, true, ℕ};
ghost use lib.ListN.{get_elem?};
ghost use mathlib.Core.Option.{some};
ghost use Rattle.vm_owner.specs.Numbers.{has};
ghost use Rattle.vm_numbers.specs.Hands.{after_first, after_later, all_zero, Hands, IsGivable, IsNoOther, IsUsable, joined_hands, no_hands, NumbersFit};

/// Taking numbers whose bits are set keeps it.
pub fn takes_keep()
    ensures { (set : ℕ → Bool) (next : ℕ) (last logical : ℕ → List ℕ) (hands : List Hands) (id : ℕ) (h : Hands) → get_elem? hands id ≡ some h → NumbersFit set next last logical hands
        → (set' mask : ℕ → Bool) (l : List ℕ) → ((p : ℕ) → mask p ≡ true → (set p ≡ true) × (set' p ≡ false)) → ((p : ℕ) → mask p ≡ false → set' p ≡ set p) → ((p : ℕ) → has p l ≡ mask p)
        → NumbersFit set' next last logical (slice_set hands id (record h { numbers = l ++ h.numbers })) }
{}

/// Giving numbers that are held, or of pages that were freed, keeps it, where each page is no member of a group any more, or its number is held and its logical
/// words are 0.
pub fn gives_keep()
    ensures { (set : ℕ → Bool) (next : ℕ) (last logical : ℕ → List ℕ) (hands : List Hands) (id : ℕ) (h : Hands) → get_elem? hands id ≡ some h → NumbersFit set next last logical hands
        → (set' mask : ℕ → Bool) (l m : List ℕ) → ((p : ℕ) → mask p ≡ true → set' p ≡ true) → ((p : ℕ) → mask p ≡ false → set' p ≡ set p)
        → ((p : ℕ) → mask p ≡ true → ((has p h.numbers ≡ true) ⊎ (has p h.freed ≡ true)) × IsGivable h (logical p) p)
        → ((p : ℕ) → has p l ≡ (if mask p then false else has p h.numbers)) → ((p : ℕ) → has p m ≡ (if mask p then false else has p h.freed))
        → NumbersFit set' next last logical (slice_set hands id (record h { numbers = l; freed = m })) }
{}

/// A claim of pages from the next one on keeps it.
pub fn claims_keep()
    ensures { (set : ℕ → Bool) (next : ℕ) (last logical : ℕ → List ℕ) (hands : List Hands) (id : ℕ) (h : Hands) → get_elem? hands id ≡ some h → NumbersFit set next last logical hands
        → (next' : ℕ) (l : List ℕ) → next ≤ next' → ((p : ℕ) → has p l ≡ true → (next ≤ p) × (p < next')) → NumbersFit set next' last logical (slice_set hands id (record h { owed = l ++ h.owed })) }
{}

/// The first release of a group, or of a page alone, keeps it: the drafts of all members become logical, and that of the first its last words.
pub fn first_releases_keep()
    ensures { (set : ℕ → Bool) (next : ℕ) (last logical : ℕ → List ℕ) (hands : List Hands) (id : ℕ) (h : Hands) → get_elem? hands id ≡ some h → NumbersFit set next last logical hands
        → (p : ℕ) (rest : List ℕ) (drafts last' logical' : ℕ → List ℕ)
        → ((q : ℕ) → has q (p ∷ rest) ≡ true → IsNoOther hands id q)
        → ((q : ℕ) → has q (p ∷ rest) ≡ true → (has q h.pending ≡ false) × IsUsable h (last q) (drafts q) q)
        → has p rest ≡ false → ((q : ℕ) → has q (p ∷ rest) ≡ true → all_zero (last q) ≡ false → q < next) → ((q : ℕ) → has q (p ∷ rest) ≡ true → logical q ≡ last q)
        → last' p ≡ drafts p → ((q : ℕ) → q ≢ p → last' q ≡ last q)
        → ((q : ℕ) → has q (p ∷ rest) ≡ true → logical' q ≡ drafts q) → ((q : ℕ) → has q (p ∷ rest) ≡ false → logical' q ≡ logical q)
        → NumbersFit set next last' logical' (slice_set hands id (after_first p rest last drafts h)) }
{}

/// The release of a later member keeps it: its draft, which was logical, becomes its last words.
pub fn later_releases_keep()
    ensures { (set : ℕ → Bool) (next : ℕ) (last logical : ℕ → List ℕ) (hands : List Hands) (id : ℕ) (h : Hands) → get_elem? hands id ≡ some h → NumbersFit set next last logical hands
        → (p : ℕ) (drafts last' : ℕ → List ℕ) → has p h.pending ≡ true → IsNoOther hands id p → logical p ≡ drafts p
        → last' p ≡ drafts p → ((q : ℕ) → q ≢ p → last' q ≡ last q)
        → NumbersFit set next last' logical (slice_set hands id (after_later p drafts h)) }
{}

/// A pass that takes in another, which is owed nothing and has no group in hand, has its numbers too.
pub fn joins_keep()
    ensures { (set : ℕ → Bool) (next : ℕ) (last logical : ℕ → List ℕ) (hands : List Hands) → NumbersFit set next last logical hands
        → (id other : ℕ) (h u : Hands) → other ≢ id → get_elem? hands id ≡ some h → get_elem? hands other ≡ some u
        → ((p : ℕ) → has p u.owed ≡ false) → ((p : ℕ) → has p u.pending ≡ false)
        → NumbersFit set next last logical (slice_set (slice_set hands id (joined_hands h u)) other no_hands) }
{}

/// A pass that is split off has none.
pub fn splits_keep()
    ensures { (set : ℕ → Bool) (next : ℕ) (last logical : ℕ → List ℕ) (hands : List Hands) → NumbersFit set next last logical hands
        → NumbersFit set next last logical (hands ++ no_hands ∷ []) }
{}

/// A step that changes no number, and makes no zero words others, keeps it.
pub fn quiet_steps_keep()
    ensures { (set : ℕ → Bool) (next next' : ℕ) (last last' logical logical' : ℕ → List ℕ) (hands : List Hands) → next ≤ next'
        → ((p : ℕ) → (all_zero (last p) ≡ true → all_zero (last' p) ≡ true) × (all_zero (logical p) ≡ true → all_zero (logical' p) ≡ true))
        → NumbersFit set next last logical hands → NumbersFit set next' last' logical' hands }
{}
