//! A pool of 1,000 pages and 64 frames, one of which has a page, with ample memory. The values are worked out by hand from the rules, and not taken
//! from a run.

use arrayvec::ArrayVec;
use std::test::Fail;
use vm_clock::candidates;
use vm_exmap::Interface;
use vm_page::WORDS;
use vm_step::{Candidates, Looks};
use vm_test_pages::blocks::used_pages;
use vm_test_pages::pools::{brought, pool_of};

/// The state word of a marked page at version 1, to which its fault-in brings it.
const MARKED_AT_1: u64 = 0xfe00_0000_0000_0001;

/// The page is in the lowest frame: the first look of the walk marks it, 63 frames have no page, and the first look of the second round chooses it.
/// So no look is at a page that is not resident.
#[test]
fn a_walk_looks_at_frames_alone(rt: HostRuntime) -> Result<(), Fail> {
    let blocks = used_pages::<WORDS>(rt.alloc(), 1000)?;
    let (pool, mut pass) = pool_of(rt.alloc(), 64, blocks)?;
    let mut iface = Interface::new(0, 1);
    brought(&pool, &mut pass, &mut iface, 500)?;
    let chosen = candidates(&pool.words, &mut pass, 1);
    let mut list = ArrayVec::new();
    list.push((500, MARKED_AT_1));
    let looks = Looks {
        found: 1,
        again: 0,
        marked: 1,
        lost: 0,
        held: 0,
        gone: 63,
        worn: 0,
        first_worn: None,
    };
    assert_eq!(rt; chosen, Candidates { list, looks });
    Ok(())
}
