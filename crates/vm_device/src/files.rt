//! Devices over the real files.

ghost use Rattle.std.specs.Prelude.{[]};
ghost use Rattle.vm_page.specs.Sizes.{IsSize};
ghost use Rattle.vm_device.specs.Held.{IsUntouched, state_with};

use crate::device::Devices;
use crate::file_block::FileBlock;
use crate::ledger::Ledger;
use std::alloc::Global;
use std::fs::{self, File, OpenOptions};
use std::io::{self, ErrorKind};
use std::rt::Files;
use vm_block::Block;
use vm_page::Failed;

/// The real files. It tells nothing of them.
#[derive(Drop)]
pub struct FileDevices<R: Files<File = File> + Drop, const N: usize> {
    rt: R,
    alloc: Global,
    ledger: Ledger,
    ghost sized: { IsSize N },
}

// Opens a file for one of its pages alone.
#[tactic(auto, using(vm_page::proofs::Sizes::size_few))]
fn open_page<R: Files<File = File>, const N: usize>(
    rt: &R,
    alloc: Global,
    name: &str,
    p: u32,
) -> io::Result<FileBlock<N>>
    requires { IsSize N }
{
    let file = OpenOptions::new().read(true).write(true).open(rt, name)?;
    let size = 8 * N as u64;
    let at = size.saturating_mul(p as u64);
    if file.metadata()?.len() < at.saturating_add(size) {
        return Err(io::Error::from(ErrorKind::UnexpectedEof));
    }
    let bytes = vec![in alloc; 0u8; 8 * N]?;
    Ok(FileBlock::new(file, at, bytes))
}

impl<R: Files<File = File> + Drop, const N: usize> FileDevices<R, N> {
    /// The files of a runtime, with nothing counted, and no block out.
    pub fn new(rt: R, alloc: Global) -> FileDevices<R, N>
        requires { IsSize N }
        ensures { IsUntouched (state_with result.ledger []) }
    {
        FileDevices {
            rt,
            alloc,
            ledger: Ledger::new(alloc),
        }
    }
}

impl<R: Files<File = File> + Drop, const N: usize> Devices<N> for FileDevices<R, N> {
    ghost use Rattle.std.proofs.Common.{refl};
    ghost use Rattle.std.specs.Prelude.{false, []};
    ghost use Rattle.vm_device.specs.Held.{state_with};

    type B = FileBlock<N>;

    ghost tells = { false };

    ghost state = { λ devices. state_with devices.ledger [] };

    fn length(&mut self, name: &str) -> Result<u64, Failed> {
        match fs::metadata(&self.rt, name) {
            Ok(about) => Ok(self.ledger.answer(about.len())),
            Err(_) => Err(self.ledger.fail()),
        }
    }

    fn get(&mut self, name: &str, p: u32) -> Result<FileBlock<N>, Failed> {
        if self.ledger.outs.count(name, p).is_some() {
            return Err(self.ledger.fail());
        }
        match open_page(&self.rt, self.alloc, name, p) {
            Ok(block) => {
                self.ledger.take_out(self.alloc, name, p, block.faults())?;
                Ok(block)
            }
            Err(_) => Err(self.ledger.fail()),
        }
    }

    fn back(&mut self, name: &str, p: u32, block: FileBlock<N>) {
        self.ledger.bring_home(name, p, block.faults());
    }

    fn faults(&self) -> u64 {
        self.ledger.faults
    }

    ghost told = { refl };

    ghost whole = { λ devices e. cc };
}
