//! Two workers on one tree, with ample memory. The answers are worked out by hand: neither names a key of the other.
use crate::calls::{open, two};
use std::test::Fail;
use vm_bytes_drive::answers::{KeyReplies, KeyShort};
use vm_bytes_drive::gate::NoGate;
use vm_bytes_drive::{DrivenInto, drive_into, rooms_for};

/// Whether the answers of the first worker are those of two puts of new keys, and of a get of the second.
fn are_of_the_first(kept: &KeyReplies) -> bool {
    match kept.short.as_slice() {
        [
            KeyShort::Was(None),
            KeyShort::Was(None),
            KeyShort::Got(Some(value)),
        ] => *value == 2,
        _ => false,
    }
}

/// Whether the answers of the second are those of a put of a new key, of a del that takes it out, and of a get that finds it no more.
fn are_of_the_second(kept: &KeyReplies) -> bool {
    match kept.short.as_slice() {
        [
            KeyShort::Was(None),
            KeyShort::Gone(Some(value)),
            KeyShort::Got(None),
        ] => *value == 5,
        _ => false,
    }
}

#[test]
fn two_workers_are_answered_each_for_itself(rt: HostRuntime) -> Result<(), Fail> {
    let alloc = rt.alloc();
    let (pool, mut pass) = open(alloc, 8)?;
    let lists = two(alloc)?;
    let rooms = rooms_for(alloc, lists.as_slice())?;
    let driven = drive_into(
        &rt,
        alloc,
        &pool,
        &mut pass,
        lists.as_slice(),
        &NoGate,
        rooms,
    )?;
    let DrivenInto { kept, evicted } = driven;
    assert_eq!(rt; evicted, 0);
    match kept.as_slice() {
        [first, second] => {
            assert!(rt; are_of_the_first(first));
            assert!(rt; are_of_the_second(second));
        }
        _ => return Err(Fail::from("not two workers")),
    }
    Ok(())
}
