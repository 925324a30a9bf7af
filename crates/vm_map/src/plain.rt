// A map in memory that answers calls at once, one after another.
ghost use Rattle.vm_map.specs.Keys.{KEY_END};
ghost use Rattle.std.specs.Prelude.{◌≡◌, [], filter, min, nat_lt, OnOk, OnErr, IfOk};
ghost use Rattle.vm_map.specs.Map.{lookup_at, Rises, swap_pair};
ghost use Rattle.vm_map.specs.History.{IsAskable, IsReply, after, TakesMemory, between, bound_of, outcome_of};
ghost use Rattle.vm_map.specs.Windows.{IsWindow, IsFirstWindow, from_key};

use crate::call::{Call, Pair, Reply, Swap};
use crate::span::Span;
use crate::window::{Bound, MOST_PAIRS, Pairs, Window};
use std::alloc::{AllocError, Global};
use std::collections::BTreeMap;
use std::marker::Model;

/// An ordered map that answers calls: contracts see its pairs by rising key.
#[derive(Drop)]
pub struct PlainMap {
    alloc: Global,
    entries: BTreeMap<u64, u64>,
}

impl Model for PlainMap {
    ghost use Rattle.std.specs.Prelude.{List, ℕ};
    ghost use Rattle.vm_map.specs.Keys.{KEY_END};
    ghost use Rattle.vm_map.specs.Map.{Rises};

    ghost Value = { List (ℕ × ℕ) };

    ghost view = { λ m. m.entries.entries };

    ghost invariant = { λ m. Rises 0 KEY_END m.entries.entries };
}

impl PlainMap {
    /// A map without pairs.
    pub fn new(alloc: Global) -> Self
        ensures { result ≡ [] }
    {
        PlainMap {
            alloc,
            entries: BTreeMap::new(alloc),
        }
    }

    /// A map of these pairs, whose keys rise.
    pub fn from_pairs(alloc: Global, pairs: &[Pair]) -> Result<Self, AllocError>
        requires { Rises 0 KEY_END pairs.now }
        ensures { IfOk result (λ m. m ≡ pairs.now) }
    {
        let mut entries = BTreeMap::new(alloc);
        'pairs: for pair in pairs {
            entries.insert(pair.key, pair.value)?;
        }
        Ok(PlainMap { alloc, entries })
    }

    /// Answers a call and goes on to the next map. Only a `Put` at a new key and a `Range` take memory; where
    /// there is none, nothing changes. A `Window` shows the first `most` pairs from its start, at most 28,
    /// and ends at the first pair that is left, or at the end; one that asks for no pair shows none.
    pub fn apply(&mut self, call: &Call) -> Result<Reply, AllocError>
        ensures reply { IsAskable call.now → IfOk result (IsReply self.old call.now) }
        ensures window { IfOk result (IsFirstWindow self.old call.now) }
        ensures after { OnOk result (self.new ≡ after self.old call.now) }
        ensures err { OnErr result (self.new ≡ self.old) }
        ensures takes_memory { OnErr result (TakesMemory self.old call.now) }
        ensures rises { Rises 0 KEY_END self.new }
    {
        match *call {
            Call::Get { key } => Ok(Reply::Got(self.entries.get(&key).copied())),
            Call::Put { key, value } => Ok(Reply::Was(self.entries.insert(key, value)?)),
            Call::Del { key } => Ok(Reply::Gone(self.entries.remove(&key))),
            Call::Window { start, most } => Ok(Reply::Win(window_of(&self.entries, start, most))),
            Call::Swap { key, want, value } => {
                Ok(Reply::Swapped(swap_in(&mut self.entries, key, want, value)))
            }
            Call::Range { low, bound } => Ok(Reply::Many(span_of(
                self.alloc,
                &self.entries,
                low,
                bound,
            )?)),
        }
    }

    /// The pairs, by rising key.
    pub fn pairs(&self, alloc: Global) -> Result<Vec<Pair>, AllocError>
        ensures pairs { IfOk result (λ v. v.items ≡ self.now) }
        ensures rises { Rises 0 KEY_END self.now }
    {
        pairs_of(alloc, &self.entries)
    }
}

// The first pairs of a map in memory from a key on, `most` of them and at most 28, up to the first that is left.
fn window_of(entries: &BTreeMap<u64, u64>, start: u64, most: u32) -> Window
    ensures { IsWindow entries.now.entries KEY_END start (min most MOST_PAIRS) result }
{
    let most = most.min(MOST_PAIRS as u32) as usize;
    let mut pairs = Pairs::new();
    'pairs: for (key, value) in entries.range(start..) {
        if pairs.len() >= most {
            return Window {
                bound: Bound::Key(*key),
                pairs,
            };
        }
        pairs.push(*key, *value);
    }
    Window {
        bound: Bound::End,
        pairs,
    }
}

// Puts a value at a key of a map in memory, where the value there is the one that is wanted. No pair comes, so no memory is taken.
fn swap_in(entries: &mut BTreeMap<u64, u64>, key: u64, want: u64, value: u64) -> Swap
    ensures reply { result ≡ outcome_of (lookup_at entries.old.entries key) want }
    ensures after { Rises 0 KEY_END entries.old.entries → entries.new.entries ≡ swap_pair entries.old.entries key want value }
{
    let Some(there) = entries.get_mut(&key) else {
        return Swap::Missing;
    };
    let found = *there;
    if found == want {
        *there = value;
        return Swap::Done;
    }
    Swap::Kept(found)
}

// All pairs of a map in memory from a key on and below a bound.
#[tactic(auto, using(crate::proofs::RangeLaws::between_twice))]
fn span_of(
    alloc: Global,
    entries: &BTreeMap<u64, u64>,
    low: u64,
    bound: Bound,
) -> Result<Span, AllocError>
    ensures { IfOk result (λ span. span.0 ≡ between entries.now.entries low (bound_of bound)) }
{
    Ok(Span::of(pairs_below(alloc, entries, low, bound)?))
}

// The pairs of a map in memory from a key on, without those from a bound on.
fn pairs_below(
    alloc: Global,
    entries: &BTreeMap<u64, u64>,
    low: u64,
    bound: Bound,
) -> Result<Vec<Pair>, AllocError>
    ensures { IfOk result (λ v. v.items ≡ filter (λ e. nat_lt e.0 (bound_of bound)) (from_key low entries.now.entries)) }
{
    entries
        .range(low..)
        .filter(|entry| bound.is_above(*entry.0))
        .map(|(key, value)| Pair {
            key: *key,
            value: *value,
        })
        .collect(alloc)
}

// The pairs of a map in memory, in order.
fn pairs_of(alloc: Global, entries: &BTreeMap<u64, u64>) -> Result<Vec<Pair>, AllocError>
    ensures { IfOk result (λ v. v.items ≡ entries.now.entries) }
{
    entries
        .iter()
        .map(|(key, value)| Pair {
            key: *key,
            value: *value,
        })
        .collect(alloc)
}
