//! What devices keep, whatever their files are.

ghost use Rattle.std.specs.Prelude.{◌≡◌, ◌++◌, [], ◌∷◌, Some, None, is_some, OnOk, OnErr};
ghost use Rattle.vm_page.specs.Counts.{count_more};
ghost use Rattle.vm_device.specs.Devices.{count_after, count_home, count_out, outs_without};
ghost use Rattle.vm_device.specs.Held.{outs_in};

use crate::outs::Outs;
use std::alloc::{AllocError, Global};
use vm_page::Failed;

/// The length that was answered last, the pages whose blocks are out, and the count of faults.
#[derive(Drop)]
pub struct Ledger {
    pub answered: Option<u64>,
    pub outs: Outs,
    pub faults: u64,
}

#[tactic(auto, unfolding(vm_page::specs::Counts::count_more))]
impl Ledger {
    /// Nothing was answered or counted, and no block is out.
    pub fn new(alloc: Global) -> Ledger
        ensures answered { result.answered ≡ None }
        ensures outs { outs_in result.outs.blocks.items ≡ [] }
        ensures faults { result.faults ≡ 0 }
    {
        Ledger {
            answered: None,
            outs: Outs::new(alloc),
            faults: 0,
        }
    }

    /// Keeps a length as the last answer.
    pub fn answer(&mut self, size: u64) -> u64
        ensures answer { result ≡ size }
        ensures answered { self.new.answered ≡ Some size }
        ensures outs { self.new.outs ≡ self.old.outs }
        ensures faults { self.new.faults ≡ self.old.faults }
    {
        self.answered = Some(size);
        size
    }

    /// Counts a fault.
    pub fn fail(&mut self) -> Failed
        ensures answered { self.new.answered ≡ self.old.answered }
        ensures outs { self.new.outs ≡ self.old.outs }
        ensures faults { self.new.faults ≡ count_more self.old.faults }
    {
        self.faults = self.faults.saturating_add(1);
        Failed
    }

    /// A block with this count of faults is out. For want of memory it is not, and a fault is counted.
    pub fn take_out(
        &mut self,
        alloc: Global,
        name: &str,
        page: u32,
        count: u64,
    ) -> Result<(), Failed>
        ensures answered { self.new.answered ≡ self.old.answered }
        ensures out { OnOk result (outs_in self.new.outs.blocks.items ≡ outs_in self.old.outs.blocks.items ++ record { name = name.now; page = page; count = count } ∷ []) }
        ensures left { OnErr result (outs_in self.new.outs.blocks.items ≡ outs_in self.old.outs.blocks.items) }
        ensures faults { self.new.faults ≡ count_after result self.old.faults }
    {
        match self.outs.add(alloc, name, page, count) {
            Ok(()) => Ok(()),
            Err(AllocError) => Err(self.fail()),
        }
    }

    /// A block with this count of faults is home, if its page was out, and answers whether it was. Where the block's faults rose since, or stand at the
    /// last value, a fault is counted.
    pub fn bring_home(&mut self, name: &str, page: u32, count: u64) -> bool
        ensures was { result ≡ is_some (count_out (outs_in self.old.outs.blocks.items) name.now page) }
        ensures answered { self.new.answered ≡ self.old.answered }
        ensures outs { outs_in self.new.outs.blocks.items ≡ outs_without (outs_in self.old.outs.blocks.items) name.now page }
        ensures faults { self.new.faults ≡ count_home (count_out (outs_in self.old.outs.blocks.items) name.now page) count self.old.faults }
    {
        let Some(before) = self.outs.count(name, page) else {
            self.outs.remove(name, page);
            return false;
        };
        self.outs.remove(name, page);
        if before < count || count == u64::MAX {
            self.faults = self.faults.saturating_add(1);
        }
        true
    }
}
