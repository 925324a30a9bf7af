//! Scripts of two workers, side by side, and the gate round each of their calls.

use crate::perform::{host_with, no_devices, perform, words};
use std::sync::atomic::Ordering;
use std::test::Fail;
use vm_cli::ends::Ends;
use vm_drive_callers::gates::{CallCounts, HeldCall};

/// Two workers, on the page file `I0` and the script `S`.
const RUN_BY_TWO: &str = "run I0 S --workers 2 --frames 64";

/// A call of the first worker begins, and waits while a call of the second is made and answered.
#[test]
fn a_call_ends_while_another_waits(rt: HostRuntime) -> Result<(), Fail> {
    let alloc = rt.alloc();
    let mut host = host_with(alloc, "0 put 1 10\n1 put 2 20\n")?;
    let mut devices = no_devices(alloc)?;
    let gate = HeldCall::new();
    let mut ends = Ends::Nothing;
    let words = words(alloc, RUN_BY_TWO)?;
    let words = words.as_slice();
    let status = perform(&rt, alloc, words, &mut host, &gate, &mut ends, &mut devices);
    assert_eq!(rt; status, 0);
    assert!(rt; gate.saw_the_other());
    assert!(rt;
        host.said()
            == b"0 1 new\n1 1 new\nrow 1 10\nrow 2 20\ncounters reads 2 writes 1 faults 0 evicted 0\n".as_slice()
    );
    Ok(())
}

/// Each call of a worker comes to the gate under its number, and leaves it before the worker's next one comes.
#[test]
fn the_gate_is_called_round_each_call(rt: HostRuntime) -> Result<(), Fail> {
    let alloc = rt.alloc();
    let mut host = host_with(alloc, "0 get 1\n1 get 1\n0 put 2 2\n1 del 3\n0 scan 1 1\n")?;
    let mut devices = no_devices(alloc)?;
    let gate = CallCounts::new();
    let mut ends = Ends::Nothing;
    let words = words(alloc, RUN_BY_TWO)?;
    let words = words.as_slice();
    let status = perform(&rt, alloc, words, &mut host, &gate, &mut ends, &mut devices);
    assert_eq!(rt; status, 0);
    for (turns, calls) in [(&gate.first, 3), (&gate.second, 2)] {
        assert_eq!(rt; turns.begun.load(Ordering::SeqCst), calls);
        assert_eq!(rt; turns.ended.load(Ordering::SeqCst), calls);
    }
    assert_eq!(rt; gate.odd.load(Ordering::SeqCst), 0);
    Ok(())
}
