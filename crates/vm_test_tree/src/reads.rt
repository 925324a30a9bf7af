//! Reads of small trees, with ample memory. The pages are worked out by hand from the formats.
use std::test::Fail;
use vm_event::StateWord;
use vm_exmap::Interface;
use vm_guard::ExclusiveGuard;
use vm_image::PlannedFault;
use vm_map::call::Reply;
use vm_step::At;
use vm_tree_pages::pool::Bring;
use vm_tree_pages::steps::play;
use vm_tree_pages::tree_callers::{
    empty, get_beside, get_first, get_once, got, one_leaf, open, two_leaves,
};
use vm_tree_pages::tree_read::TryRead;

/// Page 0 is evicted, and then the root.
#[test]
fn a_key_that_is_not_there_has_no_value(rt: HostRuntime) -> Result<(), Fail> {
    let alloc = rt.alloc();
    let bytes = empty(alloc, 8)?;
    let script = "
try-get 5 = need 0
get 5 = got none
try-get 5 = got none
";
    play(&rt, alloc, bytes.as_slice(), &[], 0, script)
}

#[test]
fn a_get_right_from_the_start_is_answered(rt: HostRuntime) -> Result<(), Fail> {
    let bytes = one_leaf(rt.alloc())?;
    let (meta, root, reply) = get_first(rt.alloc(), bytes.as_slice(), &[], 7)?;
    assert_eq!(rt; meta, Bring::Brought);
    assert_eq!(rt; root, Bring::Brought);
    assert!(rt; matches!(&reply, TryRead::Done(Reply::Got(Some(70)))));
    Ok(())
}

/// The root's device fails once, so the get needs the root.
#[test]
fn a_get_whose_root_was_not_brought_needs_it(rt: HostRuntime) -> Result<(), Fail> {
    let bytes = one_leaf(rt.alloc())?;
    let plan = [PlannedFault { page: 1, number: 1 }];
    let (meta, root, reply) = get_first(rt.alloc(), bytes.as_slice(), &plan, 7)?;
    assert_eq!(rt; meta, Bring::Brought);
    assert_eq!(rt; root, Bring::Device { pid: 1, count: 1 });
    assert!(rt; matches!(&reply, TryRead::Need(1)));
    Ok(())
}

#[test]
fn a_descent_reaches_each_leaf(rt: HostRuntime) -> Result<(), Fail> {
    let alloc = rt.alloc();
    let bytes = two_leaves(alloc)?;
    let script = "
get 5 = got 50
get 6 = got none
get 7 = got 70
get 99 = got none
get 100 = got none
get 150 = got 15
get 18446744073709551615 = got none
window 6 28 = 1 below 100
try-window 0 1 = 1 below 7
try-window 18446744073709551615 1 = 0 to the end
";
    play(&rt, alloc, bytes.as_slice(), &[], 0, script)
}

#[test]
fn windows_reach_both_ends_of_the_keys(rt: HostRuntime) -> Result<(), Fail> {
    let alloc = rt.alloc();
    let bytes = empty(alloc, 8)?;
    let script = "
put 18446744073709551615 1 = was none
put 0 2 = was none
window 18446744073709551615 1 = 1 to the end
window 0 1 = 1 below 18446744073709551615
window 0 28 = 2 to the end
";
    play(&rt, alloc, bytes.as_slice(), &[], 0, script)
}

// Whether the get is to be tried again, as this page was Locked.
fn is_locked(tried: &TryRead, pid: u32) -> bool {
    match tried {
        TryRead::Again(saw) => saw.at == At::Page(pid) && StateWord::state(saw.seen) == 253,
        _ => false,
    }
}

#[test]
fn a_locked_page_is_tried_again(rt: HostRuntime) -> Result<(), Fail> {
    let bytes = empty(rt.alloc(), 8)?;
    let (pool, mut pass) = open(rt.alloc(), bytes.as_slice())?;
    let mut iface = Interface::new(0, 16);
    assert_eq!(rt;
        got(&rt, &pool, &mut pass, &mut iface, 5),
        Ok(Reply::Got(None))
    );
    let Ok(guard) = ExclusiveGuard::take(pool.words(), &mut pass, 1) else {
        return Err(Fail::from("no lock"));
    };
    let locked = is_locked(&get_beside(&pool, &mut pass, &guard, 5), 1);
    guard.release(pool.words(), &mut pass, None);
    assert!(rt; locked);
    let empty_handed = Interface::new(0, 16);
    let again = matches!(
        get_once(&pool, &mut pass, &empty_handed, 5),
        TryRead::Done(Reply::Got(None))
    );
    assert!(rt; again);
    Ok(())
}
