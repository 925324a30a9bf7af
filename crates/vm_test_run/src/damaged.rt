//! A script that is served by devices one of whose blocks lies.

use crate::liar::Liar;
use crate::perform::{host_with, is_kept, perform, tree_devices, words};
use std::test::Fail;
use vm_cli::drive::NoGate;
use vm_cli::ends::Ends;
use vm_device::Devices;

/// Blocks that tell nothing, of which one gives at its second read a page that is no node of its level. Each block is home again afterwards.
#[test]
fn a_page_that_changed_is_answered_as_damaged(rt: HostRuntime) -> Result<(), Fail> {
    let alloc = rt.alloc();
    let mut devices = Liar::new(tree_devices(alloc)?);
    let mut host = host_with(alloc, "0 get 5\n")?;
    let mut ends = Ends::Nothing;
    let words = words(alloc, "serve I0 S --workers 1 --frames 64")?;
    let words = words.as_slice();
    let status = perform(
        &rt,
        alloc,
        words,
        &mut host,
        &NoGate,
        &mut ends,
        &mut devices,
    );
    assert_eq!(rt; status, 0);
    let said = "0 1 damaged 1\ncounters reads 10 writes 0 faults 0 evicted 0\n";
    assert!(rt; host.said() == said.as_bytes());
    assert!(rt; is_kept(&ends));
    for p in 0..8 {
        let block = devices.get("I0", p)?;
        devices.back("I0", p, block);
    }
    Ok(())
}
