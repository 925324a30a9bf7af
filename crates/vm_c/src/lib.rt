//! The store and the tree for C: `burnetroof.h` declares these functions. None starts a thread, takes a lock, sleeps or yields.
#![tactic(auto)]

mod answers;
mod closing;
mod flushing;
mod hand_handle;
mod opaque;
mod opened;
mod opening;
mod showing;
mod store_handle;

ghost use Rattle.std.specs.Prelude.{◌≡◌, IfSome, None};
ghost use Rattle.vm_map.specs.declared.call.Call.TheVariants.{Del, Get, Put, Swap};
ghost use Rattle.vm_c.specs.{Closed.Closes, Fits.IsFitHand, Fits.IsFitStore, Flushed.HasFlushed, Given.GivesHand, Openings.OpensOn, Told.AnswersCall};
ghost use Rattle.vm_c.specs.Shows.{bound_asked, outs, ShowsRange, ShowsWindow};

use answers::{
    BUSY, CallTold, HANDS, LENGTH, MEMORY, NONE, OK, ROOM, TAKEN, answer_of, hand_refusal_of,
    page_told, refusal_of,
};
use closing::{BlockCounts, Unclosed, close};
use flushing::{FlushTold, flush};
use hand_handle::HandHandle;
use opening::{give, open};
use showing::{KeyValue, MOST_IN_RANGE, ShownPairs, bound_of, range, window};
use std::alloc::Global;
use store_handle::StoreHandle;
use vm_map::span::Span;
use vm_map::window::MOST_PAIRS;

/// Opens the tree in the bytes of a page file: OK, TAKEN, LENGTH, FRAMES, NO_TREE, MEMORY.
#[unsafe(no_mangle)]
pub extern "C" fn brf_open(
    alloc: Global,
    bytes: &[u8],
    frames: u32,
    store: &mut StoreHandle,
    told: &mut CallTold,
) -> u32
    requires store { IfSome store.old.value IsFitStore }
    ensures store { IfSome store.new.value IsFitStore }
    ensures taken { IfSome store.old.value (λ _. (result ≡ 13) × (store.new.value ≡ store.old.value) × (told.new ≡ told.old)) }
    ensures opened { store.old.value ≡ None → OpensOn bytes.now frames store.new.value result told.new }
{
    if let Some(held) = store.take(alloc) {
        store.put(held);
        return TAKEN;
    }
    let (answer, said) = match open(alloc, bytes, frames) {
        Ok(held) => {
            store.put(held);
            (OK, page_told(0))
        }
        Err(why) => refusal_of(why),
    };
    *told = said;
    answer
}

/// A hand for one thread: OK, NONE, TAKEN, HANDS, MEMORY.
#[unsafe(no_mangle)]
pub extern "C" fn brf_hand_out(alloc: Global, store: &mut StoreHandle, hand: &mut HandHandle) -> u32
    requires store { IfSome store.old.value IsFitStore }
    requires hand { IfSome hand.old.value IsFitHand }
    ensures store { IfSome store.new.value IsFitStore }
    ensures hand { IfSome hand.new.value IsFitHand }
    ensures taken { IfSome hand.old.value (λ _. (result ≡ 13) × (hand.new.value ≡ hand.old.value) × (store.new.value ≡ store.old.value)) }
    ensures none { hand.old.value ≡ None → store.old.value ≡ None → (result ≡ 12) × (hand.new.value ≡ None) × (store.new.value ≡ None) }
    ensures given { hand.old.value ≡ None → IfSome store.old.value (λ before. IfSome store.new.value (λ after. GivesHand before after hand.new.value result)) }
{
    if let Some(held) = hand.take(alloc) {
        hand.put(held);
        return TAKEN;
    }
    let Some(mut open) = store.take(alloc) else {
        return NONE;
    };
    let given = give(alloc, &mut open);
    store.put(open);
    match given {
        Ok(held) => {
            hand.put(held);
            OK
        }
        Err(why) => hand_refusal_of(why),
    }
}

/// The value at the key, in at most so many rounds: OK, NONE, BUSY, DEVICE, WORN, DAMAGED.
#[unsafe(no_mangle)]
pub extern "C" fn brf_get(
    alloc: Global,
    hand: &mut HandHandle,
    key: u64,
    rounds: u32,
    told: &mut CallTold,
) -> u32
    requires hand { IfSome hand.old.value IsFitHand }
    ensures hand { IfSome hand.new.value IsFitHand }
    ensures none { hand.old.value ≡ None → (result ≡ 12) × (hand.new.value ≡ None) × (told.new ≡ told.old) }
    ensures call { AnswersCall (Get key) hand.old.value hand.new.value result told.new }
{
    let Some(mut held) = hand.take(alloc) else {
        return NONE;
    };
    let (answer, said) = answer_of(held.hand.get(key, rounds));
    hand.put(held);
    *told = said;
    answer
}

/// Puts a value at the key, and tells the one that was there: OK, NONE, BUSY, DEVICE, FULL, WORN, DAMAGED.
#[unsafe(no_mangle)]
pub extern "C" fn brf_put(
    alloc: Global,
    hand: &mut HandHandle,
    key: u64,
    value: u64,
    rounds: u32,
    told: &mut CallTold,
) -> u32
    requires hand { IfSome hand.old.value IsFitHand }
    ensures hand { IfSome hand.new.value IsFitHand }
    ensures none { hand.old.value ≡ None → (result ≡ 12) × (hand.new.value ≡ None) × (told.new ≡ told.old) }
    ensures call { AnswersCall (Put key value) hand.old.value hand.new.value result told.new }
{
    let Some(mut held) = hand.take(alloc) else {
        return NONE;
    };
    let (answer, said) = answer_of(held.hand.put(key, value, rounds));
    hand.put(held);
    *told = said;
    answer
}

/// Takes the pair of the key out, and tells its value: OK, NONE, BUSY, DEVICE, WORN, DAMAGED.
#[unsafe(no_mangle)]
pub extern "C" fn brf_del(
    alloc: Global,
    hand: &mut HandHandle,
    key: u64,
    rounds: u32,
    told: &mut CallTold,
) -> u32
    requires hand { IfSome hand.old.value IsFitHand }
    ensures hand { IfSome hand.new.value IsFitHand }
    ensures none { hand.old.value ≡ None → (result ≡ 12) × (hand.new.value ≡ None) × (told.new ≡ told.old) }
    ensures call { AnswersCall (Del key) hand.old.value hand.new.value result told.new }
{
    let Some(mut held) = hand.take(alloc) else {
        return NONE;
    };
    let (answer, said) = answer_of(held.hand.del(key, rounds));
    hand.put(held);
    *told = said;
    answer
}

/// Puts a value at the key where its value is the one that is wanted: OK, OTHER, NONE, BUSY, DEVICE, WORN, DAMAGED.
#[unsafe(no_mangle)]
pub extern "C" fn brf_swap(
    alloc: Global,
    hand: &mut HandHandle,
    key: u64,
    want: u64,
    value: u64,
    rounds: u32,
    told: &mut CallTold,
) -> u32
    requires hand { IfSome hand.old.value IsFitHand }
    ensures hand { IfSome hand.new.value IsFitHand }
    ensures none { hand.old.value ≡ None → (result ≡ 12) × (hand.new.value ≡ None) × (told.new ≡ told.old) }
    ensures call { AnswersCall (Swap key want value) hand.old.value hand.new.value result told.new }
{
    let Some(mut held) = hand.take(alloc) else {
        return NONE;
    };
    let (answer, said) = answer_of(held.hand.swap(key, want, value, rounds));
    hand.put(held);
    *told = said;
    answer
}

/// The first pairs from a key on, at most so many: OK, ROOM, NONE, BUSY, DEVICE, WORN, DAMAGED.
#[unsafe(no_mangle)]
pub extern "C" fn brf_window(
    alloc: Global,
    hand: &mut HandHandle,
    start: u64,
    most: u32,
    rounds: u32,
    pairs: &mut [KeyValue],
    shown: &mut ShownPairs,
    told: &mut CallTold,
) -> u32
    requires hand { IfSome hand.old.value IsFitHand }
    ensures hand { IfSome hand.new.value IsFitHand }
    ensures none { hand.old.value ≡ None
        → (result ≡ 12) × (hand.new.value ≡ None) × (outs told.new pairs.new shown.new ≡ outs told.old pairs.old shown.old) }
    ensures call { IfSome hand.old.value (λ before.
        ShowsWindow start most before hand.new.value result (outs told.old pairs.old shown.old) (outs told.new pairs.new shown.new)) }
{
    let Some(mut held) = hand.take(alloc) else {
        return NONE;
    };
    if most == 0 || pairs.len() < (most as usize).min(MOST_PAIRS) {
        hand.put(held);
        return ROOM;
    }
    let (answer, said) = window(&mut held, start, most, rounds, pairs, shown);
    hand.put(held);
    *told = said;
    answer
}

/// All pairs from a key on and below another, or to the last: OK, WIDE, ROOM, MEMORY, NONE, BUSY, DEVICE, WORN, DAMAGED.
#[unsafe(no_mangle)]
pub extern "C" fn brf_range(
    alloc: Global,
    hand: &mut HandHandle,
    low: u64,
    high: u64,
    to_end: u32,
    rounds: u32,
    pairs: &mut [KeyValue],
    shown: &mut ShownPairs,
    told: &mut CallTold,
) -> u32
    requires hand { IfSome hand.old.value IsFitHand }
    ensures hand { IfSome hand.new.value IsFitHand }
    ensures none { hand.old.value ≡ None
        → (result ≡ 12) × (hand.new.value ≡ None) × (outs told.new pairs.new shown.new ≡ outs told.old pairs.old shown.old) }
    ensures call { IfSome hand.old.value (λ before. ShowsRange low (bound_asked high to_end) before hand.new.value result
        (outs told.old pairs.old shown.old) (outs told.new pairs.new shown.new)) }
{
    let Some(mut held) = hand.take(alloc) else {
        return NONE;
    };
    if pairs.len() < MOST_IN_RANGE {
        hand.put(held);
        return ROOM;
    }
    let Ok(out) = Span::with_room(alloc, MOST_IN_RANGE) else {
        hand.put(held);
        return MEMORY;
    };
    let bound = bound_of(high, to_end);
    let (answer, said) = range(&mut held, low, bound, out, rounds, pairs, shown);
    hand.put(held);
    *told = said;
    answer
}

/// Ends a hand: it goes back to the store that gave it, which takes it in at its next call. OK, NONE.
#[unsafe(no_mangle)]
pub extern "C" fn brf_hand_back(alloc: Global, hand: &mut HandHandle) -> u32
    requires hand { IfSome hand.old.value IsFitHand }
    ensures hand { hand.new.value ≡ None }
    ensures none { hand.old.value ≡ None → result ≡ 12 }
    ensures back { IfSome hand.old.value (λ _. result ≡ 0) }
{
    let Some(held) = hand.take(alloc) else {
        return NONE;
    };
    Box::into_inner(held).into_hand().leave();
    OK
}

/// Writes the dirty pages of the store that no hand has locked: OK, NONE.
#[unsafe(no_mangle)]
pub extern "C" fn brf_flush(alloc: Global, store: &mut StoreHandle, told: &mut FlushTold) -> u32
    requires store { IfSome store.old.value IsFitStore }
    ensures store { IfSome store.new.value IsFitStore }
    ensures none { store.old.value ≡ None → (result ≡ 12) × (store.new.value ≡ None) × (told.new ≡ told.old) }
    ensures flushed { IfSome store.old.value (λ before. (result ≡ 0) × IfSome store.new.value (λ after. HasFlushed before after told.new)) }
{
    let Some(mut open) = store.take(alloc) else {
        return NONE;
    };
    *told = flush(&mut open);
    store.put(open);
    OK
}

/// Takes in the hands that came back, writes what is dirty, ends the store, and writes its pages to the image: OK, NONE, HANDS, BUSY, LENGTH, MEMORY.
#[unsafe(no_mangle)]
pub extern "C" fn brf_close(
    alloc: Global,
    store: &mut StoreHandle,
    image: &mut [u8],
    counts: &mut BlockCounts,
) -> u32
    requires store { IfSome store.old.value IsFitStore }
    ensures store { IfSome store.new.value IsFitStore }
    ensures none { store.old.value ≡ None → (result ≡ 12) × (store.new.value ≡ None) × (image.new ≡ image.old) × (counts.new ≡ counts.old) }
    ensures closed { IfSome store.old.value (λ s. Closes s store.new.value
        (record { image = image.old; counts = counts.old }) (record { image = image.new; counts = counts.new }) result) }
{
    let Some(open) = store.take(alloc) else {
        return NONE;
    };
    match close(alloc, open, image) {
        Ok(counted) => {
            *counts = counted;
            OK
        }
        Err(Unclosed::Length(open)) => {
            store.put(open);
            LENGTH
        }
        Err(Unclosed::Hands(open)) => {
            store.put(open);
            HANDS
        }
        Err(Unclosed::Shared(open)) => {
            store.put(open);
            BUSY
        }
        Err(Unclosed::Memory) => MEMORY,
    }
}
