//! Two pages of a real file, read through blocks that are taken out of devices and brought back: the one test of `FileBlock`, whose words no contract
//! tells. What is printed stands in `stdout`. The tests are of devices in memory, and of blocks that are read into an image.
#![tactic(auto)]

#[cfg(test)]
mod image;
#[cfg(test)]
mod memory;

use std::alloc::{AllocError, Global};
use std::fs::File;
use std::process::ExitCode;
use std::rt::Files;
use std::sync::Wait;
use vm_block::{Block, PageBlock};
use vm_device::{Devices, Failed, FileDevices, SyncBlock};
use vm_io::host::Host;
use vm_io::loops::{SayFault, say_all};
use vm_io::system::StdHost;
use vm_page::{PageBuf, WORDS};

/// The empty page file.
const NAME: &str = "empty.pages";

/// A call failed, or memory was wanting.
struct Unread;

impl From<Failed> for Unread {
    fn from(_: Failed) -> Unread {
        Unread
    }
}

impl From<AllocError> for Unread {
    fn from(_: AllocError) -> Unread {
        Unread
    }
}

impl From<SayFault> for Unread {
    fn from(_: SayFault) -> Unread {
        Unread
    }
}

fn main(rt: HostRuntime) -> ExitCode {
    match print_pages(&rt, rt.alloc()) {
        Ok(()) => ExitCode::from(0),
        Err(Unread) => ExitCode::from(1),
    }
}

/// Prints the words of the page that are not 0.
fn print_words<H: Host>(
    host: &mut H,
    alloc: Global,
    p: u32,
    page: &PageBuf<WORDS>,
) -> Result<(), Unread> {
    for i in 0..WORDS {
        let word = page.get(i);
        if word != 0 {
            say_all(
                host,
                format!(in alloc; "page {p} word {i} {word}\n")?.as_bytes(),
            )?;
        }
    }
    Ok(())
}

/// Prints the words of page `p` that are not 0, and how many reads its block has counted.
fn print_page<H: Host, D: Devices<WORDS>>(
    host: &mut H,
    devices: &mut D,
    alloc: Global,
    p: u32,
) -> Result<(), Unread> {
    let mut block = devices.get(NAME, p)?;
    let mut page = PageBuf::zero();
    block.read(&mut page)?;
    block.sync()?;
    print_words(host, alloc, p, &page)?;
    let reads = block.reads();
    say_all(host, format!(in alloc; "reads {reads}\n")?.as_bytes())?;
    devices.back(NAME, p, block);
    Ok(())
}

/// Prints the file's length, the words of its pages 0 and 1 that are not 0, and what was counted. A page that the file lacks is a fault.
fn print_pages<R: Files<File = File> + Print + Wait>(rt: &R, alloc: Global) -> Result<(), Unread> {
    let mut host = StdHost::new(rt, alloc);
    let mut devices = FileDevices::<&R, WORDS>::new(rt, alloc);
    let size = devices.length(NAME)?;
    say_all(&mut host, format!(in alloc; "length {size}\n")?.as_bytes())?;
    for p in 0..2 {
        print_page(&mut host, &mut devices, alloc, p)?;
    }
    let lacking = devices.get(NAME, 8).is_err();
    let faults = devices.faults();
    say_all(
        &mut host,
        format!(in alloc; "lacking {lacking} faults {faults}\n")?.as_bytes(),
    )?;
    Ok(())
}
