//! The trait of devices.

ghost use Rattle.std.specs.Prelude.{◌≡◌, ◌*◌, ◌/◌, length, true, All};
ghost use Rattle.vm_device.specs.Devices.{BringsHome, Measures, TakesOut};

use crate::sync::SyncBlock;
use vm_page::Failed;

/// Page files by name, with pages of `N` words each. A page's block is taken out, read and written, and brought back; it is out once at most.
pub trait Devices<const N: usize> {
    ghost use Rattle.std.specs.Prelude.{Bool};
    ghost use Rattle.vm_device.specs.Devices.{DeviceState};

    /// The storage of a page of a file.
    type B: SyncBlock<N> + Send + Sync + Drop;

    /// Whether devices of this kind tell their files.
    ghost tells: { Bool };

    /// What the devices hold and have counted.
    ghost state: { Self → DeviceState };

    /// How many bytes a file has.
    fn length(&mut self, name: &str) -> Result<u64, Failed>
        ensures { Measures Self.tells (Self.state self.old) (Self.state self.new) name.now result };

    /// Takes a page's block out. It fails where the file lacks the page, and where the block is out.
    fn get(&mut self, name: &str, p: u32) -> Result<Self::B, Failed>
        ensures { TakesOut Self.tells Self.B.stored (Self.state self.old) (Self.state self.new) name.now p result };

    /// Brings a page's block back. Where it failed since it was taken out, or may have, that is counted as one fault. A block whose page is not
    /// out is dropped.
    fn back(&mut self, name: &str, p: u32, block: Self::B)
        ensures { BringsHome Self.tells (Self.B.stored block) (Self.state self.old) (Self.state self.new) name.now p };

    /// How many faults were counted, up to the greatest `u64`.
    fn faults(&self) -> u64
        ensures { result ≡ (Self.state self.now).count };

    /// Devices tell their files exactly where their blocks tell their words.
    ghost told: { Self.B.tells ≡ Self.tells };

    /// A file has as many pages as are whole in its bytes.
    ghost whole: { (d : Self) → Self.tells ≡ true → All (λ file. length file.pages ≡ file.size / (8 * N)) (Self.state d).files };
}
