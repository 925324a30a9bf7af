//! The files of the folder, and those of a case.

use crate::case::Unplayed;
use std::alloc::Global;
use vm_device::{Devices, MemDevices, PagesFile};
use vm_io::host::Host;
use vm_io::loops::read_whole;
use vm_page::{PageBuf, WORDS};

/// The most bytes that a file of a case has, and that a case says.
pub const MOST: usize = 1_000_000;

/// All bytes of a file of the folder.
pub fn file_of<H: Host>(alloc: Global, host: &mut H, name: &str) -> Result<Vec<u8>, Unplayed> {
    match read_whole(alloc, host, name, MOST) {
        Ok(bytes) => Ok(bytes),
        Err(_) => Err(Unplayed),
    }
}

/// Adds a file to those of a case.
pub fn add_file(
    alloc: Global,
    files: &mut Vec<(String, Vec<u8>)>,
    name: &str,
    bytes: Vec<u8>,
) -> Result<(), Unplayed> {
    match files.push((name_of(alloc, name)?, bytes)) {
        Ok(()) => Ok(()),
        Err(_) => Err(Unplayed),
    }
}

/// The word as a string of its own.
pub fn name_of(alloc: Global, word: &str) -> Result<String, Unplayed> {
    match String::from_str(alloc, word) {
        Ok(name) => Ok(name),
        Err(_) => Err(Unplayed),
    }
}

/// The page file of these bytes, as devices hold it.
pub fn pages_file(alloc: Global, name: &str, bytes: &[u8]) -> Result<PagesFile<WORDS>, Unplayed> {
    let mut pages = Vec::new(alloc);
    for page in 0..bytes.len() / 512 {
        let page = PageBuf::<WORDS>::of_slice(&bytes[512 * page..512 * page + 512]);
        if pages.push(page).is_err() {
            return Err(Unplayed);
        }
    }
    if pages.len() != bytes.len() / 512 {
        return Err(Unplayed);
    }
    Ok(PagesFile::new(name_of(alloc, name)?, bytes.len() as u64, pages))
}

/// The bytes of so many pages of a file that devices hold. Each of their blocks is taken out and brought back.
pub fn bytes_of(
    alloc: Global,
    devices: &mut MemDevices<WORDS>,
    name: &str,
    pages: u32,
) -> Result<Vec<u8>, Unplayed> {
    let mut bytes = Vec::new(alloc);
    for page in 0..pages {
        let Ok(block) = devices.get(name, page) else {
            return Err(Unplayed);
        };
        let mut written = [0; 512];
        block.words().put_bytes(&mut written);
        devices.back(name, page, block);
        if bytes.extend_from_slice(&written).is_err() {
            return Err(Unplayed);
        }
    }
    Ok(bytes)
}
