//! The pages whose blocks are out.

ghost use Rattle.std.specs.Prelude.{◌≡◌, ◌++◌, [], ◌∷◌, None, MatchOption, OnOk, OnErr};
ghost use Rattle.vm_device.specs.Devices.{count_out, is_page, outs_without};
ghost use Rattle.vm_device.specs.Held.{StandsFirst, out_page, outs_in};

use std::alloc::{AllocError, Global};

/// A page whose block is out, and the count of faults that the block had when it was taken out.
#[derive(Drop)]
pub struct OutBlock {
    pub name: String,
    pub page: u32,
    pub count: u64,
}

/// The pages whose blocks are out, in the order in which they were taken out.
#[derive(Drop)]
pub struct Outs {
    pub blocks: Vec<OutBlock>,
}

// The place of the first page with this name and number.
fn place_of(blocks: &[OutBlock], name: &str, page: u32) -> Option<usize>
    ensures { MatchOption result (count_out (outs_in blocks.now) name.now page ≡ None) (StandsFirst (λ out. is_page name.now page (out_page out)) blocks.now) }
{
    'looking: for (i, block) in blocks.iter().enumerate() {
        if block.page == page && block.name.as_str() == name {
            return Some(i);
        }
    }
    None
}

impl Outs {
    /// None are out.
    pub fn new(alloc: Global) -> Outs
        ensures { outs_in result.blocks.items ≡ [] }
    {
        Outs {
            blocks: Vec::new(alloc),
        }
    }

    /// The count that a page's block was taken out with, if it is out.
    pub fn count(&self, name: &str, page: u32) -> Option<u64>
        ensures { result ≡ count_out (outs_in self.now.blocks.items) name.now page }
    {
        match place_of(&self.blocks, name, page) {
            Some(i) => Some(self.blocks[i].count),
            None => None,
        }
    }

    /// One more is out. Without memory none is.
    pub fn add(
        &mut self,
        alloc: Global,
        name: &str,
        page: u32,
        count: u64,
    ) -> Result<(), AllocError>
        ensures more { OnOk result (outs_in self.new.blocks.items ≡ outs_in self.old.blocks.items ++ record { name = name.now; page = page; count = count } ∷ []) }
        ensures left { OnErr result (outs_in self.new.blocks.items ≡ outs_in self.old.blocks.items) }
    {
        let name = String::from_str(alloc, name)?;
        self.blocks.push(OutBlock { name, page, count })?;
        Ok(())
    }

    /// The page's block is home again, if it was out. It takes no memory.
    pub fn remove(&mut self, name: &str, page: u32)
        ensures { outs_in self.new.blocks.items ≡ outs_without (outs_in self.old.blocks.items) name.now page }
    {
        if let Some(i) = place_of(&self.blocks, name, page) {
            self.blocks.remove(i);
        }
    }
}
