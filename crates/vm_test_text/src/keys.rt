//! Scripts of calls with byte keys, and the lines of what such calls are answered, worked out by hand. Lines that are refused are cases of `vm_cases`.

use std::test::Fail;
use vm_bytes_laws::call::{KeyCall, KeyReply};
use vm_bytes_node::window::{KeyPairs, KeyWindow};
use vm_bytes_script::calls::read_key_script;
use vm_bytes_script::laws::{one_key, one_key_reading};
use vm_bytes_script::text::{key_said_text, key_shown_text};
use vm_map::call::Swap;
use vm_map::key::Key;
use vm_script::script::ScriptFault;

// Whether the call is of this verb, with these bytes for its key and this number.
fn is(call: &KeyCall, wanted: &(&str, &[u8], u64)) -> bool {
    let (verb, key, number) = match call {
        KeyCall::Get { key } => ("get", key, 0),
        KeyCall::Put { key, value } => ("put", key, *value),
        KeyCall::Del { key } => ("del", key, 0),
        KeyCall::Window { start, most } => ("scan", start, u64::from(*most)),
        KeyCall::Swap { key, value, .. } => ("swap", key, *value),
    };
    verb == wanted.0 && key.as_slice() == wanted.1 && number == wanted.2
}

// Whether these are just the calls that are wanted.
fn are(calls: &[KeyCall], wanted: &[(&str, &[u8], u64)]) -> bool {
    calls.len() == wanted.len()
        && calls
            .iter()
            .zip(wanted.iter())
            .all(|(call, wanted)| is(call, wanted))
}

#[test]
fn reads_byte_keys(rt: HostRuntime) -> Result<(), Fail> {
    let alloc = rt.alloc();
    let script =
        b"0 put - 1\n1 get 00\n0 put 00ff 18446744073709551615\n1 del 0a\n1 scan - 28\n0 scan abcdef0123456789 1";
    let lists = read_key_script(alloc, script, 2)?;
    assert!(rt;
        are(
            lists[0].as_slice(),
            &[
                ("put", b"", 1),
                ("put", b"\x00\xff", u64::MAX),
                ("scan", b"\xab\xcd\xef\x01\x23\x45\x67\x89", 1)
            ]
        )
    );
    assert!(rt;
        are(
            lists[1].as_slice(),
            &[("get", b"\x00", 0), ("del", b"\x0a", 0), ("scan", b"", 28)]
        )
    );
    assert_eq!(rt; read_key_script(alloc, b"", 3)?.len(), 3);
    one_key_reading();
    one_key();
    Ok(())
}

#[test]
fn reads_keys_of_64_bytes(rt: HostRuntime) -> Result<(), Fail> {
    let alloc = rt.alloc();
    let mut script = Vec::new(alloc);
    script.extend_from_slice(b"0 del ")?;
    for _ in 0..64 {
        script.extend_from_slice(b"5a")?;
    }
    let lists = read_key_script(alloc, script.as_slice(), 1)?;
    assert!(rt; are(lists[0].as_slice(), &[("del", &[0x5a; 64], 0)]));
    script.extend_from_slice(b"5a")?;
    let fault = read_key_script(alloc, script.as_slice(), 1).err();
    assert_eq!(rt; fault, Some(ScriptFault::Line(1)));
    Ok(())
}

#[test]
fn writes_replies_to_byte_keys(rt: HostRuntime) -> Result<(), Fail> {
    let alloc = rt.alloc();
    let mut out = Vec::new(alloc);
    let get = KeyCall::Get { key: Key::new() };
    key_said_text(alloc, 1, 1, &get, &KeyReply::Got(Some(5)), &mut out)?;
    key_said_text(alloc, 1, 2, &get, &KeyReply::Got(None), &mut out)?;
    let put = KeyCall::Put {
        key: Key::new(),
        value: 8,
    };
    key_said_text(alloc, 0, 1, &put, &KeyReply::Was(None), &mut out)?;
    key_said_text(alloc, 0, 2, &put, &KeyReply::Was(Some(7)), &mut out)?;
    let del = KeyCall::Del { key: Key::new() };
    key_said_text(alloc, 3, 10, &del, &KeyReply::Gone(Some(8)), &mut out)?;
    key_said_text(alloc, 3, 11, &del, &KeyReply::Gone(None), &mut out)?;
    let swap = KeyCall::Swap {
        key: Key::new(),
        want: 1,
        value: 2,
    };
    key_said_text(alloc, 2, 1, &swap, &KeyReply::Swapped(Swap::Done), &mut out)?;
    key_said_text(
        alloc,
        2,
        2,
        &swap,
        &KeyReply::Swapped(Swap::Kept(3)),
        &mut out,
    )?;
    key_said_text(
        alloc,
        2,
        3,
        &swap,
        &KeyReply::Swapped(Swap::Missing),
        &mut out,
    )?;
    let wanted =
        b"1 1 some 5\n1 2 none\n0 1 new\n0 2 was 7\n3 10 gone 8\n3 11 none\n2 1 swapped\n2 2 kept 3\n2 3 none\n";
    assert_eq!(rt; out.as_slice(), wanted.as_slice());
    Ok(())
}

#[test]
fn writes_windows_of_byte_keys(rt: HostRuntime) -> Result<(), Fail> {
    let alloc = rt.alloc();
    let mut out = Vec::new(alloc);
    let mut pairs = KeyPairs::new();
    pairs.push(Key::new(), 1);
    pairs.push(Key::of(b"\x00").unwrap_or(Key::new()), 2);
    let window = KeyWindow {
        bound: Key::of(b"\x00\x00"),
        pairs,
    };
    let call = KeyCall::Window {
        start: Key::new(),
        most: 2,
    };
    key_shown_text(alloc, 0, 4, &call, &window, &mut out)?;
    key_said_text(alloc, 0, 5, &call, &KeyReply::Win(window), &mut out)?;
    let last = KeyWindow {
        bound: None,
        pairs: KeyPairs::new(),
    };
    let call = KeyCall::Window {
        start: Key::of(b"\x0f\xa0").unwrap_or(Key::new()),
        most: 28,
    };
    key_shown_text(alloc, 0, 6, &call, &last, &mut out)?;
    let wanted = b"0 4 window - 0000 -=1 00=2\n0 5 window - 0000 -=1 00=2\n0 6 window 0fa0 end\n";
    assert_eq!(rt; out.as_slice(), wanted.as_slice());
    Ok(())
}
