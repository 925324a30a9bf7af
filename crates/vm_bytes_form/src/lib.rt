//! Keys that are byte strings: the number that stands for each, and the words of a node with such keys. Definitions and laws.
#![tactic(auto)]

ghost use Rattle.std.specs.Prelude.{[], ◌≡◌, ℕ, ◌+◌, ◌<◌, ◌≤◌, List, length, slice_index_or};
ghost use Rattle.vm_map.specs.Map.{Pairs, Rises, lookup_at, put_pair, del_pair};
ghost use Rattle.vm_bytes_form.specs.KeyMap.{lookup_key, put_key, del_key, ranks_of};
ghost use Rattle.vm_bytes_form.specs.Strings.{AreBytes, IsString, IsBefore, rank, rank_in, string_in};
ghost use Rattle.vm_bytes_form.specs.Cuts.{pair_size, Pays};
ghost use Rattle.vm_tree_model.specs.Edits.{AddsPair, IsFullFor, IsNewRoot, IsSplit, TakesPair};
ghost use Rattle.vm_tree_model.specs.Layout.{IsClean, IsFullNode, IsLayout, pairs_size, cut_from};
ghost use Rattle.vm_tree_model.specs.Page.{node_of, pairs_of};
ghost use Rattle.vm_bytes_form.specs.NodeEdits.{del_in, kept_at_split, lower_half, put_in, root_over, upper_half};
ghost use Rattle.vm_bytes_form.specs.Bytes.{bytes};
ghost use Rattle.vm_bytes_form.specs.Forms.{KeyEntry, AreKeys, ByteNode, IsFitting, form_of, node_in};

/// The strings of at most n bytes stand in the order of their ranks, each rank is that of one string, and the string is read back.
#[tactic(auto, using(crate::proofs::KeyMaps::rank_rises, crate::proofs::Ranks::rank_one, crate::proofs::KeyMaps::rank_shows, crate::proofs::Ranks::string_of_rank))]
pub fn ranks_are_in_order()
    ensures rises { (n : ℕ) (s t : List ℕ) → length t ≤ n → AreBytes s → AreBytes t → IsBefore s t → rank_in n s < rank_in n t }
    ensures one { (n : ℕ) (s t : List ℕ) → length s ≤ n → length t ≤ n → AreBytes s → AreBytes t → rank_in n s ≡ rank_in n t → s ≡ t }
    ensures tells { (n : ℕ) (s t : List ℕ) → length s ≤ n → length t ≤ n → AreBytes s → AreBytes t → rank_in n s < rank_in n t → IsBefore s t }
    ensures back { (n : ℕ) (s : List ℕ) → length s ≤ n → AreBytes s → string_in n (rank_in n s) ≡ s }
{}

/// A full node's weight pays for its halves.
#[tactic(auto, using(crate::proofs::Halves::pays))]
pub fn halves_are_paid()
    ensures { (low high separator : ℕ) (es : Pairs) → low ≤ 8 → high ≤ 8 → separator ≤ 8 → low + high + pairs_size pair_size es ≤ 504 → 504 < low + high + pairs_size pair_size es + 10
        → Pays low high separator es (cut_from pair_size 0 (pairs_size pair_size es) es) }
{}

/// What is read of a node's words is the node, so its words are one function of its kind, level, fences and pairs.
#[tactic(auto, using(crate::proofs::RoundTrip::read_back, crate::proofs::RoundTrip::length_form))]
pub fn forms_are_read_back()
    ensures back { (size : ℕ) (n : ByteNode) → IsFitting size n → node_in (form_of size n) ≡ n }
    ensures length { (size : ℕ) (n : ByteNode) → IsFitting size n → length (form_of size n) ≡ size }
{}

/// The words of a node that fits are clean, and they are the only clean words of that node: clean words are the form of what they are read as.
#[tactic(auto, using(crate::proofs::EditLaws::form_clean, crate::proofs::EditLaws::clean_fitting, crate::proofs::EditLaws::clean_is_form))]
pub fn forms_alone_are_clean()
    ensures clean { (n : ByteNode) → IsFitting 512 n → IsClean bytes (form_of 512 n) }
    ensures fits { (words : List ℕ) → IsClean bytes words → IsFitting 512 (node_in words) }
    ensures only { (words : List ℕ) → IsClean bytes words → words ≡ form_of 512 (node_in words) }
{}

/// Pages of nodes with byte keys are a layout.
#[tactic(auto, using(crate::proofs::BytesLaws::bytes_is_layout))]
pub fn bytes_are_a_layout()
    ensures { IsLayout bytes }
{}

/// A map over strings of at most 64 bytes is the map over their ranks.
#[tactic(auto, using(crate::proofs::KeyMaps::lookup_is, crate::proofs::KeyMaps::put_is, crate::proofs::KeyMaps::del_is))]
pub fn maps_are_over_ranks()
    ensures finds { (m : List KeyEntry) (s : List ℕ) → AreKeys m → IsString 64 s → lookup_at (ranks_of m) (rank s) ≡ lookup_key m s }
    ensures puts { (m : List KeyEntry) (s : List ℕ) (v : ℕ) → AreKeys m → IsString 64 s → put_pair (ranks_of m) (rank s) v ≡ ranks_of (put_key m s v) }
    ensures dels { (m : List KeyEntry) (s : List ℕ) → AreKeys m → IsString 64 s → del_pair (ranks_of m) (rank s) ≡ ranks_of (del_key m s) }
{}

/// The form of an edited node is the page that the edit over ranks makes: a pair put where there is room for it, or taken out, the halves of a node with no
/// room for a further pair, and a new root.
pub fn edits_are_of_ranks()
    ensures puts { (old s : List ℕ) (v low high : ℕ) → IsClean bytes old → Rises low high (pairs_of bytes old) → IsString 64 s → ¬ (IsFullFor bytes old (rank s))
        → AddsPair bytes old (form_of 512 (put_in (node_in old) s v)) (rank s) v }
    ensures dels { (old s : List ℕ) → IsClean bytes old → IsString 64 s → TakesPair bytes old (form_of 512 (del_in (node_in old) s)) (rank s) }
    ensures splits { (old s : List ℕ) → IsClean bytes old → IsFullNode bytes (node_of bytes old)
        → (slice_index_or (node_in old).entries (kept_at_split (node_in old).entries) ([], 0)).0 ≡ s → 1 ≤ length s
        → IsSplit bytes old (form_of 512 (lower_half (node_in old) s)) (form_of 512 (upper_half (node_in old) s)) (rank s) }
    ensures roots { (level left right : ℕ) (s : List ℕ) → IsString 64 s → IsNewRoot bytes (form_of 512 (root_over level left s right)) level left (rank s) right }
{}
