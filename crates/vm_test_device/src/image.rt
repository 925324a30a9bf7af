//! Blocks that are read into an image.

use std::alloc::{AllocError, Global};
use std::test::Fail;
use vm_block::{Block, MemBlock};
use vm_image::{BlocksFault, read_blocks};
use vm_page::{PageBuf, WORDS};

// Three blocks whose words 5 are 7, 8 and 9. The first read of the second fails where that is planned.
fn blocks(alloc: Global, plan: &[u64]) -> Result<Vec<MemBlock<WORDS>>, AllocError> {
    let mut blocks = Vec::new(alloc);
    for word in 7..10 {
        let mut page = PageBuf::zero();
        page.set(5, word);
        let numbers: &[u64] = if word == 8 { plan } else { &[] };
        blocks.push(MemBlock::new(alloc, page, numbers)?)?;
    }
    Ok(blocks)
}

#[test]
fn blocks_are_read_into_an_image(rt: HostRuntime) -> Result<(), Fail> {
    let mut blocks = blocks(rt.alloc(), &[])?;
    assert!(rt; blocks.len() == 3);
    let image = read_blocks(rt.alloc(), blocks.as_mut_slice())?;
    assert_eq!(rt; image.pages(), 3);
    assert_eq!(rt;
        (image.word(0, 5), image.word(1, 5), image.word(2, 5)),
        (7, 8, 9)
    );
    assert_eq!(rt; (blocks[0].reads(), blocks[2].reads()), (1, 1));
    Ok(())
}

#[test]
fn a_failed_read_names_its_page(rt: HostRuntime) -> Result<(), Fail> {
    let mut blocks = blocks(rt.alloc(), &[1])?;
    assert!(rt; blocks.len() == 3);
    assert!(rt;
        matches!(
            read_blocks(rt.alloc(), blocks.as_mut_slice()),
            Err(BlocksFault::Failed { pid: 1 })
        )
    );
    assert_eq!(rt;
        (blocks[0].reads(), blocks[1].faults(), blocks[2].reads()),
        (1, 1, 0)
    );
    Ok(())
}
