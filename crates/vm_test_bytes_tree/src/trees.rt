//! Calls on a small tree with byte keys, with ample memory. The replies are worked out by hand. No script has a swap of such a key; the other calls are cases of
//! `vm_cases`.
use crate::calls::{got, open, put_at, swap_at};
use std::test::Fail;
use vm_exmap::Interface;
use vm_map::call::{Reply, Swap};

#[test]
fn a_value_is_put_over_the_one_before(rt: HostRuntime) -> Result<(), Fail> {
    let (pool, mut pass) = open(rt.alloc(), 2)?;
    let mut iface = Interface::new(0, 16);
    let reply = put_at(&rt, &pool, &mut pass, &mut iface, b"key", 5);
    assert_eq!(rt; reply, Ok(Reply::Was(None)));
    let reply = put_at(&rt, &pool, &mut pass, &mut iface, b"key", 6);
    assert_eq!(rt; reply, Ok(Reply::Was(Some(5))));
    let reply = swap_at(&rt, &pool, &mut pass, &mut iface, b"key", 5, 7);
    assert_eq!(rt; reply, Ok(Reply::Swapped(Swap::Kept(6))));
    let reply = swap_at(&rt, &pool, &mut pass, &mut iface, b"key", 6, 7);
    assert_eq!(rt; reply, Ok(Reply::Swapped(Swap::Done)));
    let reply = swap_at(&rt, &pool, &mut pass, &mut iface, b"ke", 6, 7);
    assert_eq!(rt; reply, Ok(Reply::Swapped(Swap::Missing)));
    let reply = got(&rt, &pool, &mut pass, &mut iface, b"key");
    assert_eq!(rt; reply, Ok(Reply::Got(Some(7))));
    Ok(())
}
