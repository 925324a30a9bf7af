//! The host in memory, with one file, whose plan and room fail its calls, the loops over it, and the host of real files.

use std::alloc::{AllocError, Global};
use std::test::Fail;
use vm_io::host::{Failed, Host};
use vm_io::loops::{ReadFault, SayFault, read_whole, say_all};
use vm_io::memory::MemHost;
use vm_io::system::StdHost;

// A host with one file, `a`.
fn with_file(
    alloc: Global,
    bytes: &[u8],
    room: usize,
    plan: &[u64],
) -> Result<MemHost, AllocError> {
    let mut files = Vec::new(alloc);
    files.push((
        String::from_str(alloc, "a")?,
        Vec::from_slice(alloc, bytes)?,
    ))?;
    MemHost::new(alloc, files, room, plan)
}

#[test]
fn loops_move_all_bytes(rt: HostRuntime) -> Result<(), Fail> {
    let alloc = rt.alloc();
    let mut short = with_file(alloc, b"older", 5, &[])?.with_piece(1);
    assert_eq!(rt; short.replace("a", b"new"), Ok(()));
    assert!(rt; read_whole(alloc, &mut short, "a", 9)?.as_slice() == b"new".as_slice());
    assert!(rt; read_whole(alloc, &mut short, "a", 1)?.as_slice() == b"ne".as_slice());
    assert_eq!(rt; say_all(&mut short, b"hello"), Ok(()));
    assert!(rt; short.said() == b"hello".as_slice());
    assert_eq!(rt; short.replace("a", b""), Ok(()));
    assert!(rt; short.file("a") == Some(b"".as_slice()));
    assert_eq!(rt; short.faults(), 0);
    Ok(())
}

/// A loop stops at its first failure. A file whose replacement fails is as it was.
#[test]
fn a_planned_failure_stops_a_loop(rt: HostRuntime) -> Result<(), Fail> {
    let alloc = rt.alloc();
    let mut short = with_file(alloc, b"old", 5, &[2, 3, 5])?.with_piece(1);
    assert!(rt;
        matches!(
            read_whole(alloc, &mut short, "a", 9),
            Err(ReadFault::Failed)
        )
    );
    assert_eq!(rt; short.replace("a", b"new"), Err(Failed));
    assert!(rt; short.file("a") == Some(b"old".as_slice()));
    assert_eq!(rt; say_all(&mut short, b"hello"), Err(SayFault::Failed));
    assert!(rt; short.said() == b"h".as_slice());
    assert_eq!(rt; short.faults(), 3);
    Ok(())
}

#[test]
fn names_and_room_are_kept_to(rt: HostRuntime) -> Result<(), Fail> {
    let alloc = rt.alloc();
    let mut host = with_file(alloc, b"old", 4, &[])?;
    assert_eq!(rt; host.take("b", 0, &mut [0; 4]), Err(Failed));
    assert_eq!(rt; host.replace("b", b"new"), Err(Failed));
    assert_eq!(rt; host.replace("a", b"older"), Err(Failed));
    assert!(rt; host.file("a") == Some(b"old".as_slice()));
    assert_eq!(rt; host.replace("a", b"olds"), Ok(()));
    assert_eq!(rt; host.say(b"hello"), Err(Failed));
    assert!(rt; host.file("a") == Some(b"olds".as_slice()));
    assert!(rt; host.said().is_empty());
    assert_eq!(rt; host.faults(), 4);
    Ok(())
}

/// Where no byte is moved a take still moves one, and a file is still replaced. An empty piece is no fault, and a planned call fails.
#[test]
fn pieces_of_no_bytes_are_counted(rt: HostRuntime) -> Result<(), Fail> {
    let alloc = rt.alloc();
    let mut host = with_file(alloc, b"old", 3, &[5])?.with_piece(0);
    let mut bytes = [0; 4];
    assert_eq!(rt; host.take("a", 1, &mut bytes), Ok(1));
    assert_eq!(rt; bytes, [b'l', 0, 0, 0]);
    assert_eq!(rt; host.replace("a", b"new"), Ok(()));
    assert_eq!(rt; host.say(b""), Ok(0));
    assert_eq!(rt; host.faults(), 0);
    assert_eq!(rt; host.say(b"longer"), Ok(0));
    assert_eq!(rt; host.faults(), 1);
    assert_eq!(rt; say_all(&mut host, b"new"), Err(SayFault::Failed));
    assert_eq!(rt; say_all(&mut host, b"new"), Err(SayFault::Stuck));
    assert_eq!(rt; host.faults(), 3);
    assert!(rt; host.file("a") == Some(b"new".as_slice()));
    assert!(rt; host.said().is_empty());
    Ok(())
}

/// A shorter file takes the place of a longer one, and no part is left beside it. What is read on is the file that was there when it was opened.
#[test]
fn real_files_are_replaced_and_taken(rt: HostRuntime) -> Result<(), Fail> {
    let name = "vm_io_test_file";
    let mut host = StdHost::new(&rt, rt.alloc());
    let mut bytes = [0; 4];
    assert_eq!(rt; host.replace(name, b"a longer one"), Ok(()));
    assert_eq!(rt; host.replace(name, b"one two"), Ok(()));
    assert_eq!(rt; host.take(name, 0, &mut bytes), Ok(4));
    assert!(rt; bytes[..] == b"one "[..]);
    std::fs::rename(&rt, name, "vm_io_test_other")?;
    assert_eq!(rt; host.take(name, 4, &mut bytes), Ok(3));
    assert!(rt; bytes[..3] == b"two"[..]);
    assert_eq!(rt; host.take("vm_io_test_other", 2, &mut bytes), Ok(4));
    assert!(rt; bytes[..] == b"e tw"[..]);
    assert_eq!(rt; host.faults(), 0);
    assert_eq!(rt; host.take(name, 0, &mut bytes), Err(Failed));
    assert_eq!(rt;
        host.replace("vm_io_no_such_folder/file", b"one"),
        Err(Failed)
    );
    assert_eq!(rt; host.faults(), 2);
    std::fs::remove_file(&rt, "vm_io_test_other")?;
    assert!(rt; !std::fs::exists(&rt, "vm_io_test_file.part0")?);
    Ok(())
}
