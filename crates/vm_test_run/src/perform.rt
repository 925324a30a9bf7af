//! A command performed, its words, and a host and devices with an empty tree.

use std::alloc::{AllocError, Global};
use std::sync::Wait;
use std::thread::Threads;
use vm_cli::drive::Gate;
use vm_cli::ends::Ends;
use vm_cli::run::run;
use vm_device::{Devices, MemDevices, PagesFile};
use vm_io::host::Host;
use vm_io::memory::MemHost;
use vm_page::{PageBuf, WORDS};

/// The bytes of the file `K` before a run.
pub(crate) const OLD: &[u8] = b"old";

/// How many pages the tree's page file has.
const PAGES: u32 = 8;

/// The status of a command.
pub(crate) fn perform<R: Threads + Wait + Sync, H: Host, G: Gate + Sync, D: Devices<WORDS>>(
    rt: &R,
    alloc: Global,
    words: &[String],
    host: &mut H,
    gate: &G,
    ends: &mut Ends,
    devices: &mut D,
) -> u8 {
    run(rt, alloc, words, host, gate, ends, devices)
}

/// The words of a line.
pub(crate) fn words(alloc: Global, line: &str) -> Result<Vec<String>, AllocError> {
    let mut list = Vec::new(alloc);
    for word in line.split_whitespace() {
        list.push(String::from_str(alloc, word)?)?;
    }
    Ok(list)
}

/// Page `p` of a tree of one empty leaf.
fn page(p: u32) -> PageBuf<WORDS> {
    let mut page = PageBuf::<WORDS>::zero();
    if p == 0 {
        page.set(0, 0x564D_4341_4348_4531);
        page.set(1, 1);
    }
    if p == 1 {
        page.set(0, 2);
        page.set(4, 1);
    }
    page
}

/// A host with the tree's page file `I0`, a script `S`, and a file `K` that can be written.
pub(crate) fn host_with(alloc: Global, script: &str) -> Result<MemHost, AllocError> {
    let mut image = Vec::new(alloc);
    for p in 0..PAGES {
        let mut written = [0; 512];
        page(p).put_bytes(&mut written);
        image.extend_from_slice(&written)?;
    }
    let script = Vec::from_slice(alloc, script.as_bytes())?;
    let mut files = Vec::new(alloc);
    files.push((String::from_str(alloc, "I0")?, image))?;
    files.push((String::from_str(alloc, "S")?, script))?;
    files.push((String::from_str(alloc, "K")?, Vec::from_slice(alloc, OLD)?))?;
    MemHost::new(alloc, files, 40_000, &[])
}

/// Devices that hold no file.
pub(crate) fn no_devices(alloc: Global) -> Result<MemDevices<WORDS>, AllocError> {
    MemDevices::new(alloc, Vec::new(alloc), &[], &[], &[])
}

/// Devices with the tree's page file.
pub(crate) fn tree_devices(alloc: Global) -> Result<MemDevices<WORDS>, AllocError> {
    let mut pages = Vec::new(alloc);
    pages.push(page(0))?;
    pages.push(page(1))?;
    pages.push(page(2))?;
    pages.push(page(3))?;
    pages.push(page(4))?;
    pages.push(page(5))?;
    pages.push(page(6))?;
    pages.push(page(7))?;
    let mut files = Vec::new(alloc);
    files.push(PagesFile::new(String::from_str(alloc, "I0")?, 4096, pages))?;
    MemDevices::new(alloc, files, &[], &[], &[])
}

/// Whether the end of a pool is kept.
pub(crate) fn is_kept(ends: &Ends) -> bool {
    match ends {
        Ends::Nothing => false,
        Ends::Tree(_) | Ends::LargeTree(_) | Ends::BytesTree(_) => true,
    }
}
