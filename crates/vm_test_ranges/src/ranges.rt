//! Ranges of small trees, with ample memory: pages that are missing, held, or too many. Ranges that are just answered are cases of `vm_cases`.
use std::test::Fail;
use vm_exmap::Interface;
use vm_kind::Sizes;
use vm_map::call::{Pair, Reply};
use vm_map::window::Bound;
use vm_page::WORDS;
use vm_range_callers::calls::{lock_of, many, range_once, range_under, ranged, span};
use vm_range_callers::tree_range::TryRange;
use vm_range_callers::trees::{MAGIC, leaves, open};

const FIRST: Pair = Pair { key: 5, value: 0 };

const THIRD: Pair = Pair { key: 25, value: 2 };

/// The last leaf is not there: those before it were held, and are not any more. The span serves the next try.
#[test]
fn a_range_needs_its_last_leaf_and_holds_nothing(rt: HostRuntime) -> Result<(), Fail> {
    let bytes = leaves(rt.alloc(), WORDS, MAGIC, 3)?;
    let (pool, mut pass) = open::<Sizes, WORDS>(rt.alloc(), bytes.as_slice(), 0)?;
    let mut iface = Interface::new(0, 16);
    let out = span(rt.alloc())?;
    let low = ranged(&rt, &pool, &mut pass, &mut iface, 0, Bound::Key(20), out);
    assert_eq!(rt; low, Ok(many(rt.alloc(), &[FIRST])?));
    let mut out = span(rt.alloc())?;
    let needed = range_once(&pool, &mut pass, &iface, 0, Bound::End, &mut out);
    assert!(rt; matches!(&needed, TryRange::Need(4)));
    assert_eq!(rt; out.len(), 0);
    let first = lock_of(&pool, &mut pass, &iface, 2);
    assert_eq!(rt; first, Some(0));
    let second = lock_of(&pool, &mut pass, &iface, 3);
    assert_eq!(rt; second, Some(0));
    out.clear();
    let all = ranged(&rt, &pool, &mut pass, &mut iface, 0, Bound::End, out);
    assert_eq!(rt; all, Ok(many(rt.alloc(), &[FIRST, THIRD])?));
    Ok(())
}

#[test]
fn a_page_held_over_a_range_is_good_behind_it(rt: HostRuntime) -> Result<(), Fail> {
    let bytes = leaves(rt.alloc(), WORDS, MAGIC, 3)?;
    let (pool, mut pass) = open::<Sizes, WORDS>(rt.alloc(), bytes.as_slice(), 0)?;
    let mut iface = Interface::new(0, 16);
    let out = span(rt.alloc())?;
    let all = ranged(&rt, &pool, &mut pass, &mut iface, 0, Bound::End, out);
    assert_eq!(rt; all, Ok(many(rt.alloc(), &[FIRST, THIRD])?));
    let mut out = span(rt.alloc())?;
    // Page 1 is the root, whose word 1 is the number of leaves.
    let Some((tried, word)) = range_under(&pool, &mut pass, 1, 1, Bound::End, &mut out) else {
        return Err(Fail::from("no share"));
    };
    assert!(rt; matches!(&tried, TryRange::Done(2)));
    assert_eq!(rt; word, 3);
    Ok(())
}

/// Sixteen leaves end below key 160.
#[test]
fn a_range_over_seventeen_leaves_is_too_wide(rt: HostRuntime) -> Result<(), Fail> {
    let bytes = leaves(rt.alloc(), WORDS, MAGIC, 17)?;
    let (pool, mut pass) = open::<Sizes, WORDS>(rt.alloc(), bytes.as_slice(), 0)?;
    let mut iface = Interface::new(0, 16);
    let out = span(rt.alloc())?;
    let wide = ranged(&rt, &pool, &mut pass, &mut iface, 0, Bound::End, out);
    assert_eq!(rt; wide, Ok(Reply::Wide(160)));
    let mut out = span(rt.alloc())?;
    let wide = range_once(&pool, &mut pass, &iface, 0, Bound::Key(161), &mut out);
    assert!(rt; matches!(&wide, TryRange::TooWide { reach: 160 }));
    assert_eq!(rt; out.len(), 0);
    out.clear();
    let most = range_once(&pool, &mut pass, &iface, 0, Bound::Key(160), &mut out);
    assert!(rt; matches!(&most, TryRange::Done(15)));
    assert_eq!(rt; out.len(), 15);
    Ok(())
}
