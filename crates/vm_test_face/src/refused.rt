//! What is refused: bytes that are no page file or no tree, and frames that are too few or too many.

use std::alloc::Global;
use std::test::Fail;
use vm_build::numbered_image;
use vm_face::kind::Sizes;
use vm_face::{Opening, open_image};
use vm_page::WORDS;

/// The bytes of a page file of eight pages, whose tree has no pair.
pub(crate) fn empty_file(alloc: Global) -> Result<Vec<u8>, Fail> {
    let image = numbered_image::<WORDS>(alloc, 8, 1, 0)?;
    Ok(image.to_bytes(alloc)?)
}

/// Frames are tested before the length, the length before the pages.
#[test]
fn what_is_no_tree_is_refused(rt: HostRuntime) -> Result<(), Fail> {
    let alloc = rt.alloc();
    let file = empty_file(alloc)?;
    for frames in [63, 65_537] {
        let opened = open_image::<Sizes, WORDS>(alloc, file.as_slice(), frames);
        assert!(rt; matches!(opened, Err(Opening::Frames)));
    }
    let odd = vec![in alloc; 0u8; 4095]?;
    let opened = open_image::<Sizes, WORDS>(alloc, odd.as_slice(), 64);
    assert!(rt; matches!(opened, Err(Opening::Length { len: 4095 })));
    let zeros = vec![in alloc; 0u8; 1024]?;
    let opened = open_image::<Sizes, WORDS>(alloc, zeros.as_slice(), 64);
    assert!(rt; matches!(opened, Err(Opening::Page { pid: 0, why: 1 })));
    Ok(())
}
