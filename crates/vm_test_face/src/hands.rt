//! A store is opened on an empty tree, hands of it make calls and come back, and the store is closed.

use crate::refused::empty_file;
use std::test::Fail;
use vm_face::kind::Sizes;
use vm_face::{Closing, NoHand, open_image};
use vm_map::call::{Pair, Reply, Swap};
use vm_map::span::Span;
use vm_map::window::Bound;
use vm_page::WORDS;

/// A hand makes calls and comes back, and the store is closed: one leaf was written.
#[test]
fn a_hand_puts_and_gets(rt: HostRuntime) -> Result<(), Fail> {
    let alloc = rt.alloc();
    let file = empty_file(alloc)?;
    let Ok(mut store) = open_image::<Sizes, WORDS>(alloc, file.as_slice(), 64) else {
        return Err(Fail::from("no store"));
    };
    let Ok(mut hand) = store.hand(alloc) else {
        return Err(Fail::from("no hand"));
    };
    let put = matches!(hand.put(5, 7, 100), Ok(Some(Reply::Was(None))));
    let swapped = matches!(
        hand.swap(5, 7, 8, 100),
        Ok(Some(Reply::Swapped(Swap::Done)))
    );
    let got = matches!(hand.get(5, 100), Ok(Some(Reply::Got(Some(8)))));
    let gone = matches!(hand.del(6, 100), Ok(Some(Reply::Gone(None))));
    hand.leave();
    store.take_in();
    assert!(rt; put);
    assert!(rt; swapped);
    assert!(rt; got);
    assert!(rt; gone);
    let Ok(end) = store.close(alloc) else {
        return Err(Fail::from("not closed"));
    };
    assert_eq!(rt; end.report.written, 1);
    assert_eq!(rt; end.blocks.len(), 8);
    Ok(())
}

// Whether the answer is a window or a range with just this pair.
fn shows<E>(answer: &Result<Option<Reply>, E>, pair: Pair) -> bool {
    match answer {
        Ok(Some(Reply::Win(window))) => window.pairs.as_slice() == [pair].as_slice(),
        Ok(Some(Reply::Many(span))) => span.as_slice() == [pair].as_slice(),
        _ => false,
    }
}

/// A window and a range show the one pair, and a call without a round is not made.
#[test]
fn a_hand_reads_pairs(rt: HostRuntime) -> Result<(), Fail> {
    let alloc = rt.alloc();
    let file = empty_file(alloc)?;
    let mut out = Span::with_room(alloc, 448)?;
    let Ok(mut store) = open_image::<Sizes, WORDS>(alloc, file.as_slice(), 64) else {
        return Err(Fail::from("no store"));
    };
    let Ok(mut hand) = store.hand(alloc) else {
        return Err(Fail::from("no hand"));
    };
    let pair = Pair { key: 5, value: 7 };
    let none = matches!(hand.put(5, 7, 0), Ok(None));
    let put = matches!(hand.put(5, 7, 100), Ok(Some(Reply::Was(None))));
    let window = shows(&hand.window(0, 28, 100), pair);
    let range = shows(&hand.range(0, Bound::End, &mut out, 100), pair);
    assert!(rt; none);
    assert!(rt; put);
    assert!(rt; window);
    assert!(rt; range);
    Ok(())
}

/// A store with a hand out is not closed, and comes back.
#[test]
fn a_store_whose_hand_is_out_stays_open(rt: HostRuntime) -> Result<(), Fail> {
    let alloc = rt.alloc();
    let file = empty_file(alloc)?;
    let Ok(mut store) = open_image::<Sizes, WORDS>(alloc, file.as_slice(), 64) else {
        return Err(Fail::from("no store"));
    };
    let Ok(hand) = store.hand(alloc) else {
        return Err(Fail::from("no hand"));
    };
    let Err(Closing::Hands(back)) = store.close(alloc) else {
        return Err(Fail::from("closed"));
    };
    assert_eq!(rt; back.out(), 1);
    drop(hand);
    Ok(())
}

/// A hand that left is out until it is taken in; a flush before writes the page that it put on, so that the close finds none.
#[test]
fn a_hand_that_left_is_taken_in(rt: HostRuntime) -> Result<(), Fail> {
    let alloc = rt.alloc();
    let file = empty_file(alloc)?;
    let Ok(mut store) = open_image::<Sizes, WORDS>(alloc, file.as_slice(), 64) else {
        return Err(Fail::from("no store"));
    };
    let Ok(other) = store.hand(alloc) else {
        return Err(Fail::from("no hand"));
    };
    let Ok(mut hand) = store.hand(alloc) else {
        return Err(Fail::from("no other hand"));
    };
    let put = matches!(hand.put(5, 7, 100), Ok(Some(Reply::Was(None))));
    hand.leave();
    assert!(rt; put);
    assert_eq!(rt; store.out(), 2);
    store.take_in();
    assert_eq!(rt; store.out(), 1);
    let report = store.flush();
    assert_eq!(rt; (report.written, report.failed, report.busy), (1, 0, 0));
    other.leave();
    store.take_in();
    let Ok(end) = store.close(alloc) else {
        return Err(Fail::from("not closed"));
    };
    assert_eq!(rt; end.report.written, 0);
    Ok(())
}

/// Eight hands may be out of a store of 64 frames, and a ninth when one is back.
#[test]
fn a_ninth_hand_waits_for_another_to_come_back(rt: HostRuntime) -> Result<(), Fail> {
    let alloc = rt.alloc();
    let file = empty_file(alloc)?;
    let Ok(mut store) = open_image::<Sizes, WORDS>(alloc, file.as_slice(), 64) else {
        return Err(Fail::from("no store"));
    };
    let mut hands = Vec::new(alloc);
    for _ in 0..7 {
        let Ok(hand) = store.hand(alloc) else {
            return Err(Fail::from("no hand"));
        };
        hands.push(hand)?;
    }
    let Ok(last) = store.hand(alloc) else {
        return Err(Fail::from("no hand"));
    };
    assert!(rt; matches!(store.hand(alloc), Err(NoHand::Crowded)));
    last.leave();
    assert!(rt; matches!(store.hand(alloc), Err(NoHand::Crowded)));
    store.take_in();
    assert!(rt; store.hand(alloc).is_ok());
    Ok(())
}
