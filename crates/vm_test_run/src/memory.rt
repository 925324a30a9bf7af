//! Want of memory: it shows where one of the allocations is made to fail.

use crate::perform::{OLD, host_with, is_kept, no_devices, perform, words};
use std::test::Fail;
use vm_cli::drive::NoGate;
use vm_cli::ends::Ends;

/// Status 6 leaves the host and what is kept as they were, so that the same words over the same host are done then.
#[test]
fn want_of_memory_changes_nothing(rt: HostRuntime) -> Result<(), Fail> {
    let alloc = rt.alloc();
    let mut host = host_with(alloc, "0 put 5 7\n")?;
    let mut ends = Ends::Nothing;
    let words = words(alloc, "run I0 S --workers 1 --frames 64 --keep K")?;
    let mut devices = no_devices(alloc)?;
    let devices = &mut devices;
    let words = words.as_slice();
    let mut status = perform(&rt, alloc, words, &mut host, &NoGate, &mut ends, devices);
    if status == 6 {
        assert!(rt; host.said().is_empty());
        assert!(rt; host.file("K") == Some(OLD));
        assert!(rt; !is_kept(&ends));
        status = perform(&rt, alloc, words, &mut host, &NoGate, &mut ends, devices);
    }
    assert_eq!(rt; status, 0);
    assert!(rt; is_kept(&ends));
    let said = "0 1 new\nrow 5 7\ncounters reads 2 writes 1 faults 0 evicted 0\n";
    assert!(rt; host.said() == said.as_bytes());
    Ok(())
}
