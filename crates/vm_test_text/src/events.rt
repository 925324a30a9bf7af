// An event list at its limits, and the line of an event. What else is read, which lines are refused and what other events see are
// cases of `vm_cases`.
use std::test::Fail;
use vm_event::{Event, Seen};
use vm_script::event_line::EventLine;
use vm_script::events::{EventsFault, MOST_EVENT_LINES, read_events};
use vm_script::script::MOST_BYTES;
use vm_script::seen::seen_text;

#[test]
fn refuses_large_event_lists(rt: HostRuntime) -> Result<(), Fail> {
    let alloc = rt.alloc();
    let mut bytes = Vec::new(alloc);
    bytes.extend_from_slice(b"shape 1 1 1 1\n")?;
    for _ in 1..MOST_EVENT_LINES {
        bytes.extend_from_slice(b"hand 0\n")?;
    }
    let list = read_events(alloc, bytes.as_slice())?;
    assert_eq!(rt; list.lines.len(), 99_999);
    bytes.extend_from_slice(b"hand 0\n")?;
    let fault = read_events(alloc, bytes.as_slice()).err();
    assert_eq!(rt; fault, Some(EventsFault::Line(MOST_EVENT_LINES + 1)));
    for _ in bytes.len()..MOST_BYTES + 1 {
        bytes.push(b'0')?;
    }
    let fault = read_events(alloc, bytes.as_slice()).err();
    assert_eq!(rt; fault, Some(EventsFault::Long));
    Ok(())
}

#[test]
fn writes_what_is_seen(rt: HostRuntime) -> Result<(), Fail> {
    let alloc = rt.alloc();
    let mut out = Vec::new(alloc);
    let expects = 18374686479671623681;
    let lock = EventLine::One(Event::LockX {
        a: 0,
        p: 0,
        expects,
    });
    let lost = Seen::Lost(18374686479671623680);
    seen_text(alloc, 2, &lock, &[lost], &mut out)?;
    assert_eq!(rt; out.as_slice(), b"2 lost e:0\n".as_slice());
    Ok(())
}
