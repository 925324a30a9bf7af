// The writes that never wait: each answers, or says why it is to be tried again.
ghost use Rattle.std.specs.Prelude.{◌+◌, ◌<◌, ◌≡◌, ◌≢◌, ◌≤◌, false, length, List, None, Some, true, ℕ};
ghost use Rattle.vm_map.specs.declared.call.Call.TheVariants.{Del, Swap as ForSwap};
ghost use Rattle.vm_map.specs.declared.call.Reply.TheVariants.{Gone, Was};
ghost use Rattle.vm_map.specs.Map.{del_pair, lookup_at, Rises};
ghost use Rattle.vm_tree_model.specs.{Edits.IsLeafWith, Node.Covers, Page.IsLeaf, Page.node_of, Page.pairs_of};
ghost use Rattle.vm_node.specs.Loads.{IsPageWith, Tells};
ghost use Rattle.vm_tree_merge.specs.from_vm_step.Prelude.{GoesOn, IsReadyOn, UnlockedExpected, view};
ghost use Rattle.vm_tree_merge.specs.from_vm_guard.Denied.{AgainOrWorn, IsDenied, KeptWord};
ghost use Rattle.vm_tree_merge.specs.from_vm_guard.Guards.{IsReading};
ghost use Rattle.vm_tree_merge.specs.from_vm_tree_rule.{Above.IsAbove, Above.KnowsAbove, Few.ReadsInPlace, Resident.IsKnownNow};
ghost use Rattle.vm_tree_merge.specs.from_vm_tree_rule.{Resident.KnowsResident, Seeks.HasLoaded, Seeks.HasRead, Standing.Awaits};
ghost use Rattle.vm_tree_merge.specs.from_vm_tree_rule.{Standing.IsOpened};
ghost use Rattle.vm_tree_merge.specs.from_vm_tree_rule.Turns.{IsTurnedBack, TellLeaf};
ghost use Rattle.vm_tree_merge.specs.from_vm_tree_read.Reads.{TellReply};
ghost use Rattle.vm_tree_merge.specs.from_vm_kind.Room.{HasRoomFor, IsTightFor};
ghost use Rattle.vm_tree_merge.specs.from_vm_tree_split.Prepares.{SaysWorn};
ghost use Rattle.vm_tree_merge.specs.Beside.{IsTurnedBeside};
ghost use Rattle.vm_tree_write.specs.Writes.{HasKeyIn, HasValueIn, IsDel, IsFinal, IsPut, IsSwap, swap_reply, TellTight, with_reply};

use crate::leaf::write_leaf;
use vm_block::Block;
use vm_map::call::{Reply, Swap};
use vm_node::Place;
use vm_rule::words::{Pass, Words};
use vm_tree_merge::guard::{Deny, OptGuard};
use vm_tree_merge::kind::{Edits, Kind, Merges, TreeOf};
use vm_tree_merge::step::{Saw, frame_place};
use vm_tree_merge::tree_read::{answer, find_in_place, leaf_at, leaf_below, read_leaf};
use vm_tree_merge::tree_rule::{InPlace, Reached, Turn};
use vm_tree_merge::{Merge, try_merge};

/// What a try of a write answers.
#[derive(Debug, Drop)]
pub enum TryWrite {
    /// The reply, at the step that released the leaf, or that validated a leaf in which there is nothing to write: it has not the key of a del or a swap,
    /// or not the value that a swap wants.
    Done(Reply),
    /// A page's word had changed, or the page was Locked, or the leaf had shares: the call may be tried again.
    Again(Saw),
    /// This page is Evicted: it has to be brought in first. It is page 0, or a page on the way names it.
    Need(u32),
    /// The leaf, this page, is at the last version.
    Worn(u32),
    /// The leaf, this page, has no room for a pair of the key, and not the key: it has to be split first.
    Tight(u32),
    /// The words of this page are not what the way to it says. Never where blocks tell their words.
    Damaged(u32),
}

/// What a try comes to before its reply is made: the same answers, with the value that the key had. A reply has room for a window's pairs, so it is
/// made where it is handed on.
#[derive(Drop)]
pub enum Tried {
    Done(Option<u64>),
    Again(Saw),
    Need(u32),
    Worn(u32),
    Tight(u32),
    Damaged(u32),
}

/// Why there is no answer yet.
fn not_yet<K: Kind>(turn: Turn) -> Tried
    ensures put { (key value : _) (v w : _) → IsTurnedBack K.layout v key turn w → IsPut K.plain K.layout K.spare key value (with_reply Was result) v w }
    ensures del { (key : _) (v w : _) → IsTurnedBack K.layout v key turn w → IsDel K.plain K.layout key (with_reply Gone result) v w }
    ensures beside { (key : _) (v w : _) → IsTurnedBeside K.layout v key turn w → IsDel K.plain K.layout key (with_reply Gone result) v w }
    ensures swap { (key want value : _) (v w : _) → IsTurnedBack K.layout v key turn w → IsSwap K.plain K.layout key want value (with_reply (swap_reply want) result) v w }
{
    match turn {
        Turn::Again(saw) => Tried::Again(saw),
        Turn::Need(pid) => Tried::Need(pid),
        Turn::Damaged(pid) => Tried::Damaged(pid),
    }
}

/// Why the leaf was not written.
fn unwritten<K: Kind>(deny: Deny) -> Tried
    requires kind { AgainOrWorn deny }
    ensures put { (key value p word frame : _) (page : _) (v x w : _) → IsOpened v p word frame x → Awaits K.layout x p word 0 key → HasRead x p page
        → ((node_of K.layout page).tag ≡ 2) × Covers (node_of K.layout page) key → HasRoomFor K.layout K.spare page key
        → IsDenied AgainOrWorn (KeptWord word) UnlockedExpected p deny x w → IsPut K.plain K.layout K.spare key value (with_reply Was result) v w }
    ensures del { (key p word frame : _) (page : _) (v x w : _) → IsOpened v p word frame x → Awaits K.layout x p word 0 key → HasRead x p page
        → ((node_of K.layout page).tag ≡ 2) × Covers (node_of K.layout page) key → HasKeyIn K.layout page key
        → IsDenied AgainOrWorn (KeptWord word) UnlockedExpected p deny x w → IsDel K.plain K.layout key (with_reply Gone result) v w }
    ensures swap { (key want value p word frame : _) (page : _) (v x w : _) → IsOpened v p word frame x → Awaits K.layout x p word 0 key → HasRead x p page
        → ((node_of K.layout page).tag ≡ 2) × Covers (node_of K.layout page) key → HasValueIn K.layout page key want
        → IsDenied AgainOrWorn (KeptWord word) UnlockedExpected p deny x w → IsSwap K.plain K.layout key want value (with_reply (swap_reply want) result) v w }
    ensures settled { (reply : _) → SaysWorn deny → IsFinal (with_reply reply result) }
{
    match deny {
        Deny::Again(saw) => Tried::Again(saw),
        Deny::Worn(pid) => Tried::Worn(pid),
        Deny::Need(_) => unreachable!(),
        Deny::Crowded(_) => unreachable!(),
    }
}

/// Whether the page has too little of its room left for a pair of the key, and not the key. The key is looked for only where there is too little.
fn is_tight_at<K: Kind, P: Place>(place: &mut P, key: &K::Key) -> bool
    requires ready { P.ready place.old }
    requires size { P.size place.old ≡ K.layout.words }
    ensures ready { P.ready place.new }
    ensures told { Tells K.layout.words P.loads place.old (K.bounds.spare + K.bounds.find) place.new
        (λ page. result ≡ true → IsTightFor K.layout K.spare page (K.rank key.now)) }
{
    let left = K::spare_at(place);
    if left < K::pair_size(key) {
        return match K::find_at(place, key) {
            None => true,
            Some(_) => false,
        };
    }
    false
}

/// Whether the page under the guard is so, found where it stands.
fn is_tight_in_place<K: Kind, B: Block>(
    words: &Words<TreeOf<K>, B>,
    pass: &mut Pass<TreeOf<K>>,
    guard: &OptGuard,
    key: &K::Key,
) -> bool
    requires ready { IsReadyOn words.now B.tells pass.old }
    requires reading { IsReading guard.now.pid guard.now.word guard.now.frame (view pass.old) }
    ensures goes { GoesOn words.now B.tells pass.old pass.new }
    ensures found { ReadsInPlace guard.now.pid guard.now.word guard.now.frame (K.bounds.spare + K.bounds.find) (view pass.old) (view pass.new)
        (λ loaded. (page : List ℕ) → IsPageWith K.layout.words loaded page → result ≡ true → IsTightFor K.layout K.spare page (K.rank key.now)) }
{
    let mut place = InPlace {
        words,
        pass: &mut *pass,
        guard,
        first: frame_place(words, guard.frame),
    };
    is_tight_at::<K, _>(&mut place, key)
}

/// Ends a put at a leaf of which words were loaded that tell that it has no room for a pair of the key, and not the key, once they are validated.
fn tight<K: Kind, B: Block>(
    words: &Words<TreeOf<K>, B>,
    pass: &mut Pass<TreeOf<K>>,
    guard: &OptGuard,
) -> Tried
    requires ready { IsReadyOn words.now B.tells pass.old }
    requires reading { IsReading guard.now.pid guard.now.word guard.now.frame (view pass.old) }
    ensures goes { GoesOn words.now B.tells pass.old pass.new }
    ensures put { (key value : _) (loaded : _) (v : _) → IsOpened v guard.now.pid guard.now.word guard.now.frame (view pass.old) → HasLoaded (view pass.old) guard.now.pid loaded
        → TellLeaf K.layout loaded key → TellTight K.layout K.spare loaded key → IsPut K.plain K.layout K.spare key value (with_reply Was result) v (view pass.new) }
    ensures sure { IsKnownNow guard.now.pid guard.now.word (view pass.old) → IsFinal (with_reply Was result) }
    ensures known { IsKnownNow guard.now.pid guard.now.word (view pass.old) → KnowsResident (view pass.new) }
{
    match guard.validate_silently(words, pass) {
        Ok(()) => Tried::Tight(guard.pid),
        Err(saw) => Tried::Again(saw),
    }
}

/// Puts a value at the key, or says why not. The leaf is read whole only where it has the key or room.
pub fn put_once<K: Edits, B: Block>(
    words: &Words<TreeOf<K>, B>,
    pass: &mut Pass<TreeOf<K>>,
    key: &K::Key,
    value: u64,
) -> Tried
    requires ready { IsReadyOn words.now B.tells pass.old }
    requires pages { 1 ≤ words.now.table.shared.key.pages }
    requires home { (view pass.old).out ≡ None }
    ensures goes { GoesOn words.now B.tells pass.old pass.new }
    ensures tried { IsPut K.plain K.layout K.spare (K.rank key.now) value (with_reply Was result) (view pass.old) (view pass.new) }
    ensures sure { B.tells ≡ true → KnowsResident (view pass.old) → IsFinal (with_reply Was result) }
    ensures known { B.tells ≡ true → KnowsResident (view pass.old) → KnowsResident (view pass.new) }
{
    let guard = match leaf_at(words, pass, key) {
        Ok(guard) => guard,
        Err(turn) => return not_yet::<K>(turn),
    };
    if is_tight_in_place(words, pass, &guard, key) {
        return tight(words, pass, &guard);
    }
    let mut page = K::zero();
    if let Err(turn) = read_leaf(words, pass, &guard, key, &mut page) {
        return not_yet::<K>(turn);
    }
    match K::put_edit(&page, key, value) {
        Err(_) => tight(words, pass, &guard),
        Ok((was, edit)) => {
            let said = K::was(key, value, was);
            match write_leaf(words, pass, guard, &page, edit, &said) {
                Ok(()) => Tried::Done(was),
                Err(deny) => unwritten::<K>(deny),
            }
        }
    }
}

/// Puts a value at the key.
pub fn try_put<K: Edits, B: Block>(
    words: &Words<TreeOf<K>, B>,
    pass: &mut Pass<TreeOf<K>>,
    key: &K::Key,
    value: u64,
) -> TryWrite
    requires ready { IsReadyOn words.now B.tells pass.old }
    requires pages { 1 ≤ words.now.table.shared.key.pages }
    requires home { (view pass.old).out ≡ None }
    ensures goes { GoesOn words.now B.tells pass.old pass.new }
    ensures tried { IsPut K.plain K.layout K.spare (K.rank key.now) value result (view pass.old) (view pass.new) }
    ensures sure { B.tells ≡ true → KnowsResident (view pass.old) → IsFinal result }
    ensures known { B.tells ≡ true → KnowsResident (view pass.old) → KnowsResident (view pass.new) }
{
    match put_once(words, pass, key, value) {
        Tried::Done(was) => TryWrite::Done(Reply::Was(was)),
        Tried::Again(saw) => TryWrite::Again(saw),
        Tried::Need(pid) => TryWrite::Need(pid),
        Tried::Worn(pid) => TryWrite::Worn(pid),
        Tried::Tight(pid) => TryWrite::Tight(pid),
        Tried::Damaged(pid) => TryWrite::Damaged(pid),
    }
}

/// Answers a del of a key that the leaf has not, as words loaded of it tell, once they are validated.
fn missed<K: Kind, B: Block>(
    words: &Words<TreeOf<K>, B>,
    pass: &mut Pass<TreeOf<K>>,
    guard: &OptGuard,
    key: &K::Key,
) -> Tried
    requires ready { IsReadyOn words.now B.tells pass.old }
    requires reading { IsReading guard.now.pid guard.now.word guard.now.frame (view pass.old) }
    requires proves { (loaded : List (ℕ × ℕ)) × HasLoaded (view pass.old) guard.now.pid loaded × TellReply K.layout loaded (record { call = Del (K.rank key.now); reply = Gone None }) }
    ensures goes { GoesOn words.now B.tells pass.old pass.new }
    ensures del { (v : _) → IsOpened v guard.now.pid guard.now.word guard.now.frame (view pass.old) → IsDel K.plain K.layout (K.rank key.now) (with_reply Gone result) v (view pass.new) }
    ensures sure { IsKnownNow guard.now.pid guard.now.word (view pass.old) → IsFinal (with_reply Gone result) }
    ensures known { IsKnownNow guard.now.pid guard.now.word (view pass.old) → KnowsResident (view pass.new) }
{
    let said = K::gone(key, None);
    match answer(words, pass, guard, &said) {
        Ok(()) => Tried::Done(None),
        Err(saw) => Tried::Again(saw),
    }
}

/// Takes the pair of the key out of the leaf, whose words say that it has it: as one with a merge where the conditions for that hold, else of the leaf alone.
fn take_out<K: Merges, B: Block>(
    words: &Words<TreeOf<K>, B>,
    pass: &mut Pass<TreeOf<K>>,
    reached: Reached<K::Key>,
    key: &K::Key,
    page: &K::Page,
    was: u64,
    edit: K::Edit,
) -> Tried
    requires ready { IsReadyOn words.now B.tells pass.old }
    requires home { (view pass.old).out ≡ None }
    requires size { length (K.words_of page.now) ≡ K.layout.words }
    requires leaf { ((node_of K.layout (K.words_of page.now)).tag ≡ 2) × Covers (node_of K.layout (K.words_of page.now)) (K.rank key.now) }
    requires there { (from to : ℕ) → Rises from to (pairs_of K.layout (K.words_of page.now)) → Some was ≡ lookup_at (pairs_of K.layout (K.words_of page.now)) (K.rank key.now) }
    requires edit { IsLeaf K.layout (K.words_of page.now)
        → IsLeafWith K.layout (K.words_of page.now) (K.edited (K.words_of page.now) edit) (del_pair (pairs_of K.layout (K.words_of page.now)) (K.rank key.now)) }
    requires read { (v : _) × IsAbove K.layout v (K.rank key.now) reached.above reached.leaf.pid (view pass.old)
        × IsOpened v reached.leaf.pid reached.leaf.word reached.leaf.frame (view pass.old) × Awaits K.layout (view pass.old) reached.leaf.pid reached.leaf.word 0 (K.rank key.now)
        × HasRead (view pass.old) reached.leaf.pid (K.words_of page.now) }
    ensures goes { GoesOn words.now B.tells pass.old pass.new }
    ensures tried { (v : _) → IsAbove K.layout v (K.rank key.now) reached.above reached.leaf.pid (view pass.old)
        → IsOpened v reached.leaf.pid reached.leaf.word reached.leaf.frame (view pass.old) → Awaits K.layout (view pass.old) reached.leaf.pid reached.leaf.word 0 (K.rank key.now)
        → HasRead (view pass.old) reached.leaf.pid (K.words_of page.now) → IsDel K.plain K.layout (K.rank key.now) (with_reply Gone result) v (view pass.new) }
    ensures sure { B.tells ≡ true → IsKnownNow reached.leaf.pid reached.leaf.word (view pass.old) → KnowsAbove reached.above (view pass.old) → IsFinal (with_reply Gone result) }
    ensures known { B.tells ≡ true → IsKnownNow reached.leaf.pid reached.leaf.word (view pass.old) → KnowsAbove reached.above (view pass.old) → KnowsResident (view pass.new) }
{
    let said = K::gone(key, Some(was));
    match try_merge(words, pass, reached, key, page, &said) {
        Merge::Made => Tried::Done(Some(was)),
        Merge::Alone(leaf) => match write_leaf(words, pass, leaf, page, edit, &said) {
            Ok(()) => Tried::Done(Some(was)),
            Err(deny) => unwritten::<K>(deny),
        },
        Merge::Turned(turn) => not_yet::<K>(turn),
        Merge::Lost(saw) => Tried::Again(saw),
    }
}

/// Takes the pair of the key out, or says why not. The leaf is read whole only where it has the key.
pub fn del_once<K: Merges, B: Block>(
    words: &Words<TreeOf<K>, B>,
    pass: &mut Pass<TreeOf<K>>,
    key: &K::Key,
) -> Tried
    requires ready { IsReadyOn words.now B.tells pass.old }
    requires pages { 1 ≤ words.now.table.shared.key.pages }
    requires home { (view pass.old).out ≡ None }
    ensures goes { GoesOn words.now B.tells pass.old pass.new }
    ensures tried { IsDel K.plain K.layout (K.rank key.now) (with_reply Gone result) (view pass.old) (view pass.new) }
    ensures sure { B.tells ≡ true → KnowsResident (view pass.old) → IsFinal (with_reply Gone result) }
    ensures known { B.tells ≡ true → KnowsResident (view pass.old) → KnowsResident (view pass.new) }
{
    let reached = match leaf_below(words, pass, key) {
        Ok(reached) => reached,
        Err(turn) => return not_yet::<K>(turn),
    };
    match find_in_place(words, pass, &reached.leaf, key) {
        None => return missed(words, pass, &reached.leaf, key),
        Some(_) => {}
    }
    let mut page = K::zero();
    if let Err(turn) = read_leaf(words, pass, &reached.leaf, key, &mut page) {
        return not_yet::<K>(turn);
    }
    match K::del_edit(&page, key) {
        None => missed(words, pass, &reached.leaf, key),
        Some((was, edit)) => take_out(words, pass, reached, key, &page, was, edit),
    }
}

/// Takes the pair of the key out. Where the leaf has none nothing is locked.
pub fn try_del<K: Merges, B: Block>(
    words: &Words<TreeOf<K>, B>,
    pass: &mut Pass<TreeOf<K>>,
    key: &K::Key,
) -> TryWrite
    requires ready { IsReadyOn words.now B.tells pass.old }
    requires pages { 1 ≤ words.now.table.shared.key.pages }
    requires home { (view pass.old).out ≡ None }
    ensures goes { GoesOn words.now B.tells pass.old pass.new }
    ensures tried { IsDel K.plain K.layout (K.rank key.now) result (view pass.old) (view pass.new) }
    ensures sure { B.tells ≡ true → KnowsResident (view pass.old) → IsFinal result }
    ensures known { B.tells ≡ true → KnowsResident (view pass.old) → KnowsResident (view pass.new) }
{
    match del_once(words, pass, key) {
        Tried::Done(was) => TryWrite::Done(Reply::Gone(was)),
        Tried::Again(saw) => TryWrite::Again(saw),
        Tried::Need(pid) => TryWrite::Need(pid),
        Tried::Worn(pid) => TryWrite::Worn(pid),
        Tried::Tight(pid) => TryWrite::Tight(pid),
        Tried::Damaged(pid) => TryWrite::Damaged(pid),
    }
}

/// Answers a swap of a key that has not the value that is wanted, as words loaded of the leaf tell, once they are validated.
fn kept<K: Kind, B: Block>(
    words: &Words<TreeOf<K>, B>,
    pass: &mut Pass<TreeOf<K>>,
    guard: &OptGuard,
    key: &K::Key,
    want: u64,
    value: u64,
    there: Option<u64>,
) -> Tried
    requires ready { IsReadyOn words.now B.tells pass.old }
    requires reading { IsReading guard.now.pid guard.now.word guard.now.frame (view pass.old) }
    requires other { there ≢ Some want }
    requires proves { (loaded : List (ℕ × ℕ)) × HasLoaded (view pass.old) guard.now.pid loaded
        × TellReply K.layout loaded (record { call = ForSwap (K.rank key.now) want value; reply = swap_reply want there }) }
    ensures goes { GoesOn words.now B.tells pass.old pass.new }
    ensures swap { (v : _) → IsOpened v guard.now.pid guard.now.word guard.now.frame (view pass.old)
        → IsSwap K.plain K.layout (K.rank key.now) want value (with_reply (swap_reply want) result) v (view pass.new) }
    ensures sure { IsKnownNow guard.now.pid guard.now.word (view pass.old) → IsFinal (with_reply (swap_reply want) result) }
    ensures known { IsKnownNow guard.now.pid guard.now.word (view pass.old) → KnowsResident (view pass.new) }
{
    let said = K::swapped(key, want, value, Swap::outcome(there, want));
    match answer(words, pass, guard, &said) {
        Ok(()) => Tried::Done(there),
        Err(saw) => Tried::Again(saw),
    }
}

/// Whether the key's value is not the one that is wanted.
fn is_other(there: Option<u64>, want: u64) -> bool
    ensures yes { result ≡ true → there ≢ Some want }
    ensures no { result ≡ false → there ≡ Some want }
{
    match there {
        None => true,
        Some(value) => value != want,
    }
}

/// Puts a value at the key where its value is the one that is wanted, or says why not. The leaf is read whole only where it is.
pub fn swap_once<K: Edits, B: Block>(
    words: &Words<TreeOf<K>, B>,
    pass: &mut Pass<TreeOf<K>>,
    key: &K::Key,
    want: u64,
    value: u64,
) -> Tried
    requires ready { IsReadyOn words.now B.tells pass.old }
    requires pages { 1 ≤ words.now.table.shared.key.pages }
    requires home { (view pass.old).out ≡ None }
    ensures goes { GoesOn words.now B.tells pass.old pass.new }
    ensures tried { IsSwap K.plain K.layout (K.rank key.now) want value (with_reply (swap_reply want) result) (view pass.old) (view pass.new) }
    ensures sure { B.tells ≡ true → KnowsResident (view pass.old) → IsFinal (with_reply (swap_reply want) result) }
    ensures known { B.tells ≡ true → KnowsResident (view pass.old) → KnowsResident (view pass.new) }
{
    let guard = match leaf_at(words, pass, key) {
        Ok(guard) => guard,
        Err(turn) => return not_yet::<K>(turn),
    };
    let found = find_in_place(words, pass, &guard, key);
    if is_other(found, want) {
        return kept(words, pass, &guard, key, want, value, found);
    }
    let mut page = K::zero();
    if let Err(turn) = read_leaf(words, pass, &guard, key, &mut page) {
        return not_yet::<K>(turn);
    }
    let Ok((was, edit)) = K::put_edit(&page, key, value) else {
        return kept(words, pass, &guard, key, want, value, None);
    };
    if is_other(was, want) {
        return kept(words, pass, &guard, key, want, value, was);
    }
    let said = K::swapped(key, want, value, Swap::Done);
    match write_leaf(words, pass, guard, &page, edit, &said) {
        Ok(()) => Tried::Done(Some(want)),
        Err(deny) => unwritten::<K>(deny),
    }
}

/// Puts a value at the key where its value is the one that is wanted. Where it is not nothing is locked.
pub fn try_swap<K: Edits, B: Block>(
    words: &Words<TreeOf<K>, B>,
    pass: &mut Pass<TreeOf<K>>,
    key: &K::Key,
    want: u64,
    value: u64,
) -> TryWrite
    requires ready { IsReadyOn words.now B.tells pass.old }
    requires pages { 1 ≤ words.now.table.shared.key.pages }
    requires home { (view pass.old).out ≡ None }
    ensures goes { GoesOn words.now B.tells pass.old pass.new }
    ensures tried { IsSwap K.plain K.layout (K.rank key.now) want value result (view pass.old) (view pass.new) }
    ensures sure { B.tells ≡ true → KnowsResident (view pass.old) → IsFinal result }
    ensures known { B.tells ≡ true → KnowsResident (view pass.old) → KnowsResident (view pass.new) }
{
    match swap_once(words, pass, key, want, value) {
        Tried::Done(was) => TryWrite::Done(Reply::Swapped(Swap::outcome(was, want))),
        Tried::Again(saw) => TryWrite::Again(saw),
        Tried::Need(pid) => TryWrite::Need(pid),
        Tried::Worn(pid) => TryWrite::Worn(pid),
        Tried::Tight(pid) => TryWrite::Tight(pid),
        Tried::Damaged(pid) => TryWrite::Damaged(pid),
    }
}
