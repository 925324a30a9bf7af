//! A box goes into a slot and comes out of it.

use crate::slot::BoxSlot;
use std::alloc::AllocError;
use std::test::Fail;

#[test]
fn a_box_that_went_in_comes_out(rt: HostRuntime) -> Result<(), Fail> {
    let alloc = rt.alloc();
    let empty: BoxSlot<u64> = BoxSlot::empty(alloc);
    assert!(rt; empty.into_box().is_none());
    let Ok(value) = Box::new(alloc, 7u64) else {
        return Err(Fail::from(AllocError));
    };
    let Some(value) = BoxSlot::of(value).into_box() else {
        assert!(rt; false);
        return Ok(());
    };
    assert_eq!(rt; *value, 7);
    Ok(())
}
