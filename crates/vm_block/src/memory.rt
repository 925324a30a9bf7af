//! A block in memory. What its calls do stands in `calls`.

ghost use Rattle.std.specs.Prelude.{◌≡◌, length};

mod calls;

use crate::plan::Plan;
use vm_page::PageBuf;

/// The storage of a page in memory, which fails exactly the calls of its plan. A block goes out of its slot and home for each call of its device, and
/// its words stay where they are.
#[derive(Drop)]
pub struct MemBlock<const N: usize> {
    words: Box<PageBuf<N>>,
    plan: Plan,
    reads: u64,
    writes: u64,
    ghost whole: { length words.value ≡ N },
}
