//! A page of a real file. What its calls do stands in `calls`.

ghost use Rattle.std.specs.Prelude.{◌≡◌, ◌*◌, vec_len};
ghost use Rattle.vm_page.specs.Sizes.{IsSize};

mod calls;

use std::fs::File;

/// One page over an open file of its own: eight bytes for each word, the greatest first. It tells no words.
#[derive(Drop)]
pub struct FileBlock<const N: usize> {
    file: File,
    at: u64,
    bytes: Vec<u8>,
    reads: u64,
    writes: u64,
    syncs: u64,
    faults: u64,
    ghost sized: { IsSize N },
    ghost room: { vec_len bytes ≡ 8 * N },
}
