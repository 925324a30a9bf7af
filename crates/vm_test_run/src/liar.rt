//! Devices that tell nothing, one of whose blocks lies once.

use vm_block::{Block, PageBlock};
use vm_device::{Devices, Failed, MemDevices, MemPage, SyncBlock};
use vm_page::{PageBuf, WORDS};

/// Devices in memory, as devices that tell nothing.
#[derive(Drop)]
pub(crate) struct Liar {
    inner: MemDevices<WORDS>,
}

/// A page that may have another word 2 at its second read.
#[derive(Drop)]
pub(crate) struct LiarPage {
    page: MemPage<WORDS>,
    lies: bool,
}

impl Liar {
    /// Devices that lie of page 1 of each file.
    pub(crate) fn new(inner: MemDevices<WORDS>) -> Liar {
        Liar { inner }
    }
}

impl Block for LiarPage {
    ghost use Rattle.std.specs.Prelude.{false};
    ghost use Rattle.std.proofs.Common.{arith};
    ghost use Rattle.vm_device.specs.Memory.{page_stored};

    ghost tells = { false };

    ghost stored = { λ block. page_stored block.page };

    fn reads(&self) -> u64 {
        self.page.reads()
    }

    fn writes(&self) -> u64 {
        self.page.writes()
    }

    fn faults(&self) -> u64 {
        self.page.faults()
    }

    ghost bounded = { λ block. Prim.omega arith };

    ghost capped = { λ block. Prim.omega arith };
}

impl PageBlock<WORDS> for LiarPage {
    fn read(&mut self, into: &mut PageBuf<WORDS>) -> Result<(), Failed> {
        let again = self.page.reads() == 1;
        self.page.read(into)?;
        if self.lies && again {
            into.set(2, 1);
        }
        Ok(())
    }

    fn write(&mut self, words: &PageBuf<WORDS>) -> Result<(), Failed> {
        self.page.write(words)
    }

    ghost whole = { λ block e. cc };
}

impl SyncBlock<WORDS> for LiarPage {
    ghost asked = { λ block. block.page.syncs };

    fn sync(&mut self) -> Result<(), Failed> {
        self.page.sync()
    }
}

impl Devices<WORDS> for Liar {
    ghost use Rattle.std.proofs.Common.{refl};
    ghost use Rattle.std.specs.Prelude.{false};
    ghost use Rattle.vm_device.specs.Memory.{device_state};

    type B = LiarPage;

    ghost tells = { false };

    ghost state = { λ devices. device_state devices.inner };

    fn length(&mut self, name: &str) -> Result<u64, Failed> {
        self.inner.length(name)
    }

    fn get(&mut self, name: &str, p: u32) -> Result<LiarPage, Failed> {
        let page = self.inner.get(name, p)?;
        Ok(LiarPage { page, lies: p == 1 })
    }

    fn back(&mut self, name: &str, p: u32, block: LiarPage) {
        self.inner.back(name, p, block.page)
    }

    fn faults(&self) -> u64 {
        self.inner.faults()
    }

    ghost told = { refl };

    ghost whole = { λ devices e. cc };
}
