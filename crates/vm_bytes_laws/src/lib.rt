//! Calls on a map whose keys are byte strings, and when a history of them is right. Definitions, and the law that a history is right where it is with the rank
//! of each key in its place: so what is proved of a tree over numbers holds of one over strings.
#![tactic(auto)]

ghost use Rattle.std.specs.Prelude.{[], ◌≡◌, ◌+◌, ◌*◌, ◌≤◌, length, List, map, min, ℕ};
ghost use Rattle.vm_map.specs.History.{AreReplies, after_all};
ghost use Rattle.vm_map.specs.Map.{Rises};
ghost use Rattle.vm_map.specs.declared.window.TheConstants.{MOST_PAIRS};
ghost use Rattle.vm_node.specs.Shows.{ShowsFirst};
ghost use Rattle.vm_owner.specs.Kept.{Kept, Start};
ghost use Rattle.vm_tree_model.specs.Count.{excess, node_count};
ghost use Rattle.vm_tree_model.specs.Page.{pairs_of};
ghost use Rattle.vm_tree_laws.specs.{History.news, Plain.KeepsPlain, Plain.plain_history};
ghost use Rattle.vm_bytes_form.specs.Bytes.{bytes};
ghost use Rattle.vm_bytes_form.specs.Forms.{AreKeys, KeyEntry, node_in};
ghost use Rattle.vm_bytes_form.specs.KeyMap.{ranks_of};
ghost use Rattle.vm_bytes_form.specs.Strings.{IsString, rank};
ghost use Rattle.vm_bytes_node.specs.KeyWindows.{IsKeyWindow};
ghost use Rattle.vm_bytes_node.specs.declared.window.KeyWindow.{KeyWindow};
ghost use Rattle.vm_bytes_laws.specs.KeyHistory.{AreKeyReplies, AreSpoken, map_after_all};
ghost use Rattle.vm_bytes_laws.specs.Plain.{plain_said, plain_window};
ghost use Rattle.vm_bytes_laws.specs.declared.call.KeySaid.{KeySaid};

pub mod call;

/// A history over strings is right for a map of strings where it is over their ranks, for the map over the ranks of its keys; and the maps afterwards are those.
#[tactic(auto, using(crate::proofs::KeyHistories::replies_are, crate::proofs::KeyHistories::after_is))]
pub fn histories_are_over_ranks()
    ensures replies { (m : List KeyEntry) (h : List KeySaid) → AreKeys m → AreSpoken h → AreReplies (ranks_of m) (map plain_said h) → AreKeyReplies m h }
    ensures after { (m : List KeyEntry) (h : List KeySaid) → AreKeys m → AreSpoken h → after_all (ranks_of m) (map plain_said h) ≡ ranks_of (map_after_all m h) }
{}

/// What a page shows from a key on it shows over ranks.
pub fn windows_are_over_ranks()
    ensures { (words start : List ℕ) (most : ℕ) (window : KeyWindow) → IsString 64 start
        → ((low high : ℕ) → Rises low high (pairs_of bytes words) → IsKeyWindow (node_in words) start (min most MOST_PAIRS) window.pairs window.bound)
        → ShowsFirst bytes words (rank start) most (plain_window window) }
{}

/// How many pages a tree with byte keys has used. With N nodes at the start, of which X pages were used, G puts of new keys, K pages that were claimed and are
/// not owed, and Z words that its nodes take above 261, 100 * K + Z is at most 243 * N + 10 * G (`claims`); so where no page of P is owed and at most one was
/// never claimed, 100 * (P - 1 - X) is at most as much (`full`).
#[tactic(auto, using(crate::proofs::Paid::claims_paid, crate::proofs::Paid::full_paid))]
pub fn pages_are_paid()
    ensures claims { (start : Start) (kept : Kept KeySaid) → KeepsPlain plain_said bytes start kept → 100 * kept.next + excess bytes kept.pages
        ≤ 243 * node_count bytes start.pages + 10 * news (plain_history plain_said kept.history) + 100 * (start.next + length kept.owed) }
    ensures full { (start : Start) (kept : Kept KeySaid) → KeepsPlain plain_said bytes start kept → kept.owed ≡ [] → length start.pages ≤ kept.next + 1
        → 100 * length start.pages ≤ 243 * node_count bytes start.pages + 10 * news (plain_history plain_said kept.history) + 100 * (start.next + 1) }
{}
