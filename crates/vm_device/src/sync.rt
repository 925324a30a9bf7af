//! Blocks whose words can be made to last.

ghost use Rattle.std.specs.Prelude.{◌≡◌};
ghost use Rattle.vm_page.specs.Counts.{count_more};
ghost use Rattle.vm_device.specs.Devices.{Syncs};

use vm_block::PageBlock;
use vm_page::Failed;

/// The storage of a page whose writes may rest on the way until they are asked for.
pub trait SyncBlock<const N: usize>: PageBlock<N> {
    ghost use Rattle.std.specs.Prelude.{ℕ};

    /// How many syncs were asked for, up to the greatest `u64`.
    ghost asked: { Self → ℕ };

    /// Waits until all writes that answered are where they last, as on the disk. A failure is counted, and changes nothing else.
    fn sync(&mut self) -> Result<(), Failed>
        ensures stored { Syncs Self.tells (Self.stored self.old) (Self.stored self.new) result }
        ensures asked { Self.asked self.new ≡ count_more (Self.asked self.old) };
}
