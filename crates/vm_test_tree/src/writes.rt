//! Writes of small trees, with ample memory: puts, dels and swaps.
use std::alloc::Global;
use std::test::Fail;
use vm_exmap::Interface;
use vm_map::call::Reply;
use vm_tree_pages::steps::{follow, play};
use vm_tree_pages::tree_callers::{empty, open, put_meet_get, two_leaves};

/// The `i`th of 800 keys in a mixed order, from the 0th on.
fn mixed(i: u64) -> u64 {
    i.wrapping_mul(377) % 1009
}

/// Puts of the mixed keys, none of which was there, each with the number behind it.
fn puts(alloc: Global) -> Result<String, Fail> {
    let mut script = String::new(alloc);
    for i in 0..800 {
        let key = mixed(i);
        let value = key.wrapping_add(1);
        script.push_str(format!(in alloc; "put {key} {value} = was none\n")?.as_str())?;
    }
    Ok(script)
}

/// Gets of them.
fn gets(alloc: Global) -> Result<String, Fail> {
    let mut script = String::new(alloc);
    for i in 0..800 {
        let key = mixed(i);
        let value = key.wrapping_add(1);
        script.push_str(format!(in alloc; "get {key} = got {value}\n")?.as_str())?;
    }
    Ok(script)
}

/// The first 400 of them are taken out, and are not there afterwards. One of them, 377, has the value 5.
fn dels(alloc: Global) -> Result<String, Fail> {
    let mut script = String::new(alloc);
    for i in 0..400 {
        let key = mixed(i);
        let value = if key == 377 { 5 } else { key.wrapping_add(1) };
        let line = format!(in alloc; "del {key} = gone {value}\ntry-del {key} = gone none\n")?;
        script.push_str(line.as_str())?;
    }
    Ok(script)
}

/// The tree gets inner nodes of two levels.
#[test]
fn puts_split_leaves_and_roots(rt: HostRuntime) -> Result<(), Fail> {
    let alloc = rt.alloc();
    let bytes = empty(alloc, 128)?;
    let mut script = puts(alloc)?;
    script.push_str(gets(alloc)?.as_str())?;
    script.push_str("put 377 5 = was 378\n")?;
    script.push_str(dels(alloc)?.as_str())?;
    script.push_str("get 377 = got none\n")?;
    play(&rt, alloc, bytes.as_slice(), &[], 0, script.as_str())
}

/// A swap is made where the key has the value that is wanted, and raises the leaf's version; else the leaf is not locked.
#[test]
fn a_swap_is_made_where_the_value_is_the_one_wanted(rt: HostRuntime) -> Result<(), Fail> {
    let alloc = rt.alloc();
    let bytes = two_leaves(alloc)?;
    let script = "
swap 5 51 52 = kept 50
swap 6 50 52 = missing
unlocked 2 1
swap 5 50 52 = swapped
unlocked 2 2
get 5 = got 52
";
    play(&rt, alloc, bytes.as_slice(), &[], 0, script)
}

/// The tries of swaps tell the same. One is made also where the value that it wants is the new one.
#[test]
fn a_try_of_a_swap_is_done_with_equal_values_too(rt: HostRuntime) -> Result<(), Fail> {
    let alloc = rt.alloc();
    let bytes = two_leaves(alloc)?;
    let script = "
try-swap 5 50 52 = need 0
get 5 = got 50
try-swap 5 50 52 = swapped
try-swap 5 50 53 = kept 52
try-swap 6 50 53 = missing
unlocked 2 2
try-swap 5 52 52 = swapped
unlocked 2 3
get 5 = got 52
";
    play(&rt, alloc, bytes.as_slice(), &[], 0, script)
}

#[test]
fn a_pass_reads_what_another_put_that_it_met(rt: HostRuntime) -> Result<(), Fail> {
    let alloc = rt.alloc();
    let bytes = empty(alloc, 8)?;
    let (pool, mut first) = open(alloc, bytes.as_slice())?;
    let mut second = pool.split_one(&mut first);
    let mut iface = Interface::new(0, 16);
    follow(
        &rt,
        alloc,
        &pool,
        &mut first,
        &mut iface,
        "get 5 = got none",
    )?;
    let reply = put_meet_get(&pool, &mut first, &mut second, &5, 7);
    assert_eq!(rt; reply, Some(Reply::Got(Some(7))));
    Ok(())
}
