// A script at its limits, and a line of each kind that is written. What else is read, which lines are refused and what other calls are
// answered are cases of `vm_cases`.
use std::test::Fail;
use vm_map::call::{Call, Reply};
use vm_map::span::Span;
use vm_map::window::Bound;
use vm_script::laws::{one_number, one_reading};
use vm_script::script::{MOST_BYTES, MOST_LINES, ScriptFault, read_script};
use vm_script::text::{
    Line, counters_text, gathered_text, reply_text, row_text, said_text, tree_text, unflushed_text,
};

#[test]
fn refuses_large_scripts(rt: HostRuntime) -> Result<(), Fail> {
    let alloc = rt.alloc();
    let mut bytes = Vec::new(alloc);
    for _ in 0..MOST_LINES {
        bytes.extend_from_slice(b"0 get 1\n")?;
    }
    assert_eq!(rt; read_script(alloc, bytes.as_slice(), 1)?.len(), 1);
    bytes.extend_from_slice(b"0")?;
    let fault = read_script(alloc, bytes.as_slice(), 1).err();
    assert_eq!(rt; fault, Some(ScriptFault::Line(MOST_LINES + 1)));
    for _ in bytes.len()..MOST_BYTES {
        bytes.push(b'0')?;
    }
    let fault = read_script(alloc, bytes.as_slice(), 1).err();
    assert_eq!(rt; fault, Some(ScriptFault::Line(MOST_LINES + 1)));
    bytes.push(b'0')?;
    assert_eq!(rt;
        read_script(alloc, bytes.as_slice(), 1).err(),
        Some(ScriptFault::Long)
    );
    one_number();
    one_reading();
    Ok(())
}

#[test]
fn writes_lines(rt: HostRuntime) -> Result<(), Fail> {
    let alloc = rt.alloc();
    let mut out = Vec::new(alloc);
    let put = Call::Put { key: 5, value: 8 };
    said_text(alloc, 3, 10, &put, &Reply::Was(Some(7)), &mut out)?;
    reply_text(alloc, 0, 29, &Line::Full, &mut out)?;
    let call = Call::Range {
        low: 3,
        bound: Bound::End,
    };
    let mut span = Span::with_room(alloc, 1)?;
    span.push(3, 30);
    gathered_text(alloc, 0, 2, &call, &span, &mut out)?;
    row_text(alloc, 5, 8, &mut out)?;
    tree_text(alloc, 0, 2, 2, &mut out)?;
    unflushed_text(alloc, 1, &mut out)?;
    counters_text(alloc, 2, 0, 1, 0, &mut out)?;
    let wanted =
        b"3 10 was 7\n0 29 full\n0 2 range 1 3=30\nrow 5 8\ntree height 0 used 2 rows 2\nunflushed 1\ncounters reads 2 writes 0 faults 1 evicted 0\n";
    assert_eq!(rt; out.as_slice(), wanted.as_slice());
    Ok(())
}
