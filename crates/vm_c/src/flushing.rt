//! Pages that are written while the store is open.

ghost use Rattle.vm_c.specs.{Fits.IsFitStore, Flushed.HasFlushed};

use crate::opened::OpenStore;

/// What a flush did: pages written, pages whose write failed, and pages that somebody had locked.
#[repr(C)]
#[derive(Clone, Copy, Drop)]
pub struct FlushTold {
    pub written: u32,
    pub failed: u32,
    pub busy: u32,
}

/// Writes the dirty pages that nobody has locked.
pub fn flush(open: &mut OpenStore) -> FlushTold
    requires store { IsFitStore open.old }
    ensures store { IsFitStore open.new }
    ensures flushed { HasFlushed open.old open.new result }
{
    let report = open.store.flush();
    FlushTold {
        written: report.written,
        failed: report.failed,
        busy: report.busy,
    }
}
