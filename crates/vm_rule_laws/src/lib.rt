//! What follows from the rule of the running table: laws over every table that meets it, for callers that have all parts of a table in one
//! pass, such as one that closes it. A law is a function without a body whose contract is the law.
#![tactic(auto)]

ghost use Rattle.std.specs.Prelude.{[], ◌<◌, ◌≡◌, ◌≢◌, false, Option, true, ℕ};
ghost use Rattle.vm_rule.specs.from_vm_event.Prelude.{get_elem?, some};
ghost use Rattle.vm_rule.specs.Prelude.{began_of, HasShape, index_of, Ruled, seat_of, spread_table, Stands, Table, width, Within};
ghost use Rattle.vm_rule.specs.{declared.view.Origin.Origin, declared.view.TableShape.TableShape, declared.view.View.View, declared.view.WordPlace.WordPlace};
ghost use Rattle.vm_rule_laws.specs.{Alone.HasNothing, Noted.NotesStand, Standing.PageStands};
ghost use Rattle.vm_rule_laws.specs.Known.{HasStepped, IsWholePass, kept_by, KnowsTable};

use vm_rule::block::Block;
use vm_rule::owner::Owner;

/// Where a pass of a table lives, the table as its pages read it meets the rule, from the start that its shape has for
/// proofs: what a table keeps between steps has one other case, that its first pass has not begun.
pub fn a_live_pass_meets_the_rule<U: Owner, B: Block>()
    ensures { (shape : TableShape) (s : Table (Option B) (View U.Said)) → Stands B.stored U.keeps U.tied shape B.tells s → (id : ℕ) (v : View U.Said)
        → get_elem? s.views id ≡ some v → v.live ≡ true → HasShape shape shape.began.origin × Ruled B.stored U.keeps U.tied shape.began.origin B.tells (spread_table shape.began.origin s) }
{}

/// The releases and the history of a table are its own: two proofs that it meets the rule speak of the same two lists.
pub fn lists_are_one<U: Owner, B: Block>()
    ensures { (start : Origin) (s : Table (Option B) (View U.Said)) (r other : Ruled B.stored U.keeps U.tied start B.tells s) → (r.releases ≡ other.releases) × (r.history ≡ other.history) }
{}

/// A pass that has all parts was not joined away.
pub fn a_whole_pass_lives<U: Owner, B: Block>()
    ensures { (start : Origin) (s : Table (Option B) (View U.Said)) → Ruled B.stored U.keeps U.tied start B.tells s → (id : ℕ) (v : View U.Said) → IsWholePass s.views id v → v.live ≡ true }
{}

/// Where a pass has all parts of a table, no other has anything of it: no lock, frame, page number or block, no member of a group still to
/// be released, no page that it owes.
pub fn a_whole_pass_is_alone<U: Owner, B: Block>()
    ensures { (start : Origin) (s : Table (Option B) (View U.Said)) → Ruled B.stored U.keeps U.tied start B.tells s → (id : ℕ) (v : View U.Said)
        → IsWholePass s.views id v → (j : ℕ) (u : View U.Said) → j ≢ id → get_elem? s.views j ≡ some u → HasNothing u }
{}

/// A pass that has all parts has made every entry: it has seen the whole history, and all of it is its own.
pub fn a_whole_pass_has_the_history<U: Owner, B: Block>()
    ensures { (start : Origin) (s : Table (Option B) (View U.Said)) (r : Ruled B.stored U.keeps U.tied start B.tells s) (id : ℕ) (v : View U.Said)
        → IsWholePass s.views id v → (v.seen ≡ r.history) × (v.mine ≡ r.history) }
{}

/// A pass with all parts that has made a step knows the table: how it began, every release and entry, every word, and the core that the
/// table shows, which is the one that its snapshot shows.
pub fn a_whole_pass_knows_the_table<U: Owner, B: Block>()
    ensures { (start : Origin) (s : Table (Option B) (View U.Said)) (r : Ruled B.stored U.keeps U.tied start B.tells s) (id : ℕ) (v : View U.Said)
        → HasStepped s.views id v → KnowsTable B.stored start r.releases r.history s v }
{}

/// Where no group is released in part, such a pass knows what the layer above keeps: the last words of each page, the next word, the pages
/// that are owed, the page numbers that are free, held and still to be given, and the history.
pub fn a_whole_pass_knows_what_is_kept<U: Owner, B: Block>()
    ensures { (start : Origin) (s : Table (Option B) (View U.Said)) → Ruled B.stored U.keeps U.tied start B.tells s → (id : ℕ) (v : View U.Said)
        → HasStepped s.views id v → v.pending ≡ [] → start.tells ≡ true → U.keeps (began_of start) (kept_by v) }
{}

/// Such a pass knows where each page's last words stand: in the frame or in the block that its snapshot shows.
pub fn pages_stand_as_the_snapshot_shows<U: Owner, B: Block>()
    ensures { (start : Origin) (s : Table (Option B) (View U.Said)) → Ruled B.stored U.keeps U.tied start B.tells s → (id : ℕ) (v : View U.Said)
        → HasStepped s.views id v → (p : ℕ) → p < start.pages → PageStands start v.releases v.snapshot (seat_of v p) p }
{}

/// Such a pass has noted only faults that the blocks counted, each once below the last count, as its snapshot shows the blocks.
pub fn notes_stand_as_the_snapshot_shows<U: Owner, B: Block>()
    ensures { (start : Origin) (s : Table (Option B) (View U.Said)) → Ruled B.stored U.keeps U.tied start B.tells s → (id : ℕ) (v : View U.Said)
        → HasStepped s.views id v → NotesStand v.snapshot v.notes }
{}

/// A pass that has locked no page exclusively has no member of a group still to be released, and owes no page.
pub fn a_pass_without_locks_owes_nothing<U: Owner, B: Block>()
    ensures { (start : Origin) (s : Table (Option B) (View U.Said)) → Ruled B.stored U.keeps U.tied start B.tells s → (id : ℕ) (v : View U.Said)
        → get_elem? s.views id ≡ some v → v.live ≡ true → ((p : ℕ) → (seat_of v p).exclusive ≡ false) → (v.pending ≡ []) × (v.owed ≡ []) }
{}

/// A pass that owes no page knows that none is owed.
pub fn nothing_is_owed<U: Owner>()
    ensures { (v : View U.Said) → v.owed ≡ [] → (kept_by v).owed ≡ [] }
{}

/// Each word of a table stands at a place of its own, inside the table, whatever the number of words of a page.
pub fn no_two_words_share_a_place()
    ensures apart { (start : Origin) (w x : WordPlace) → Within start w → Within start x → index_of start w ≡ index_of start x → w ≡ x }
    ensures inside { (start : Origin) (w : WordPlace) → Within start w → index_of start w < width start }
{}
