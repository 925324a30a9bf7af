//! What fails in a case, and the page file that its devices hold.

use crate::case::Unplayed;
use std::alloc::Global;
use vm_device::BlockFault;
use vm_script::number::number_of;

/// The calls of a case's host and devices that fail, and what the devices hold.
#[derive(Drop)]
pub struct Setting<'a> {
    /// The numbers of the calls of the host that fail.
    pub calls: Vec<u64>,
    /// How many bytes a call of the host moves at most.
    pub piece: usize,
    /// The page file that the devices hold.
    pub pages: Option<&'a str>,
    /// The numbers of the calls on the devices that fail.
    pub devices: Vec<u64>,
    /// The calls of pages' blocks that fail.
    pub blocks: Vec<BlockFault>,
    /// The syncs of pages' blocks that fail.
    pub syncs: Vec<BlockFault>,
}

impl<'a> Setting<'a> {
    /// Nothing fails, and the devices hold nothing.
    pub fn plain(alloc: Global) -> Setting<'a> {
        Setting {
            calls: Vec::new(alloc),
            piece: usize::MAX,
            pages: None,
            devices: Vec::new(alloc),
            blocks: Vec::new(alloc),
            syncs: Vec::new(alloc),
        }
    }

    /// Reads words such as `calls=1,4` and `syncs=2:1,4:1`.
    pub fn of(alloc: Global, words: &'a str) -> Result<Setting<'a>, Unplayed> {
        let mut setting = Setting::plain(alloc);
        for word in words.split_whitespace() {
            setting.read(word)?;
        }
        Ok(setting)
    }

    /// Reads one such word.
    fn read(&mut self, word: &'a str) -> Result<(), Unplayed> {
        let Some((name, value)) = word.split_once('=') else {
            return Err(Unplayed);
        };
        match name {
            "calls" => add_numbers(&mut self.calls, value),
            "devices" => add_numbers(&mut self.devices, value),
            "blocks" => add_faults(&mut self.blocks, value),
            "syncs" => add_faults(&mut self.syncs, value),
            "piece" => {
                self.piece = number(value)? as usize;
                Ok(())
            }
            "pages" => {
                self.pages = Some(value);
                Ok(())
            }
            _ => Err(Unplayed),
        }
    }
}

/// The number that a word stands for.
fn number(word: &str) -> Result<u64, Unplayed> {
    match number_of(word.as_bytes()) {
        Some(number) => Ok(number),
        None => Err(Unplayed),
    }
}

/// Adds numbers with commas between them.
fn add_numbers(plan: &mut Vec<u64>, words: &str) -> Result<(), Unplayed> {
    for word in words.split(',') {
        if plan.push(number(word)?).is_err() {
            return Err(Unplayed);
        }
    }
    Ok(())
}

/// Adds pairs of a page and the number of a call on its block, with commas between them.
fn add_faults(plan: &mut Vec<BlockFault>, words: &str) -> Result<(), Unplayed> {
    for word in words.split(',') {
        let Some((page, call)) = word.split_once(':') else {
            return Err(Unplayed);
        };
        let Ok(page) = u32::try_from(number(page)?) else {
            return Err(Unplayed);
        };
        let fault = BlockFault {
            page,
            number: number(call)?,
        };
        if plan.push(fault).is_err() {
            return Err(Unplayed);
        }
    }
    Ok(())
}
