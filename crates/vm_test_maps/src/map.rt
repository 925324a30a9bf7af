// Calls of each kind on a plain map, with replies that were worked out by hand.
use std::alloc::Global;
use std::process::Abort;
use std::test::Fail;
use vm_map::call::{Call, Pair, Reply, Swap};
use vm_map::plain::PlainMap;
use vm_map::window::{Bound, Pairs, Window};

fn swap_of(key: u64, want: u64, value: u64) -> Call {
    Call::Swap { key, want, value }
}

/// The map answers each of these calls so.
fn expect_replies(
    rt: &impl Abort,
    map: &mut PlainMap,
    calls: &[(Call, Reply)],
) -> Result<(), Fail> {
    for (call, reply) in calls {
        assert_eq!(rt; &map.apply(call)?, reply, "{call:?}");
    }
    Ok(())
}

/// The map has these pairs, and so has a map that is made of them.
fn expect_pairs(
    rt: &impl Abort,
    alloc: Global,
    map: &PlainMap,
    wanted: &[Pair],
) -> Result<(), Fail> {
    let pairs = map.pairs(alloc)?;
    assert_eq!(rt; pairs.as_slice(), wanted);
    let again = PlainMap::from_pairs(alloc, pairs.as_slice())?;
    assert_eq!(rt; again.pairs(alloc)?.as_slice(), wanted);
    Ok(())
}

#[test]
fn answers_calls(rt: HostRuntime) -> Result<(), Fail> {
    let alloc = rt.alloc();
    let mut map = PlainMap::new(alloc);
    let last = u64::MAX;
    for (key, value, was) in [(last, 1, None), (5, 7, None), (5, 8, Some(7)), (6, 9, None)] {
        assert_eq!(rt; map.apply(&Call::Put { key, value })?, Reply::Was(was));
    }
    let calls = [
        (Call::Get { key: 5 }, Reply::Got(Some(8))),
        (Call::Get { key: 7 }, Reply::Got(None)),
        (swap_of(5, 8, 9), Reply::Swapped(Swap::Done)),
        (swap_of(5, 8, 7), Reply::Swapped(Swap::Kept(9))),
        (swap_of(7, 0, 1), Reply::Swapped(Swap::Missing)),
        (Call::Del { key: 6 }, Reply::Gone(Some(9))),
        (Call::Del { key: 6 }, Reply::Gone(None)),
    ];
    expect_replies(&rt, &mut map, &calls)?;
    let wanted = [
        Pair { key: 5, value: 9 },
        Pair {
            key: last,
            value: 1,
        },
    ];
    expect_pairs(&rt, alloc, &map, &wanted)
}

/// What a call for a window at this key, of one pair, is answered: a window of this pair, up to this bound.
fn window_of(start: u64, pair: Pair, bound: Bound) -> (Call, Reply) {
    let mut pairs = Pairs::new();
    pairs.push(pair.key, pair.value);
    (
        Call::Window { start, most: 1 },
        Reply::Win(Window { bound, pairs }),
    )
}

#[test]
fn answers_windows(rt: HostRuntime) -> Result<(), Fail> {
    let mut map = PlainMap::new(rt.alloc());
    let last = u64::MAX;
    map.apply(&Call::Put {
        key: last,
        value: 1,
    })?;
    map.apply(&Call::Put { key: 5, value: 7 })?;
    let mut pairs = Pairs::new();
    assert!(rt; !pairs.is_full());
    pairs.push(5, 7);
    assert_eq!(rt; pairs.len(), 1);
    let first = Pair { key: 5, value: 7 };
    let second = Pair {
        key: last,
        value: 1,
    };
    let calls = [
        window_of(0, first, Bound::Key(last)),
        window_of(last, second, Bound::End),
    ];
    expect_replies(&rt, &mut map, &calls)
}
