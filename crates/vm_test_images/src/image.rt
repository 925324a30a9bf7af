//! Page files of both sizes: read, checked, made into blocks, and written back. Lengths that are no page file's, damaged trees and plans of failures are
//! cases of `vm_cases`.

use std::test::Fail;
use vm_check::{CheckFault, check};
use vm_image::{blocks_of, file_words, image_of, read_image};
use vm_map::call::Pair;
use vm_page::{LARGE, WORDS};

// Eight pages: page 0 names the root on page 1, height 0; page 1 is a leaf with the pair (5, 7), with no high fence.
fn small_file() -> [u8; 4096] {
    let mut bytes = [0; 4096];
    bytes[0..8].copy_from_slice(b"VMCACHE1");
    bytes[15] = 1;
    bytes[519] = 2;
    bytes[527] = 1;
    bytes[551] = 1;
    bytes[583] = 5;
    bytes[591] = 7;
    bytes
}

// The same of two pages of 512 words.
fn large_file() -> [u8; 8192] {
    let mut bytes = [0; 8192];
    bytes[0..8].copy_from_slice(b"VMCACHE2");
    bytes[15] = 1;
    bytes[4103] = 2;
    bytes[4111] = 1;
    bytes[4135] = 1;
    bytes[4167] = 5;
    bytes[4175] = 7;
    bytes
}

#[test]
fn a_file_is_read_checked_and_written_back(rt: HostRuntime) -> Result<(), Fail> {
    let alloc = rt.alloc();
    let bytes = small_file();
    assert_eq!(rt; file_words(&bytes), WORDS);
    let image = read_image::<WORDS>(alloc, &bytes)?;
    assert!(rt; image.pages() == 8);
    assert_eq!(rt; image.next(), 2);
    assert_eq!(rt; image.word(0, 0), 0x564D_4341_4348_4531);
    assert_eq!(rt; image.word(1, 9), 7);
    let rows = check(alloc, &image)?;
    assert_eq!(rt; (rows.height, rows.used), (0, 2));
    assert_eq!(rt;
        rows.pairs.as_slice(),
        [Pair { key: 5, value: 7 }].as_slice()
    );
    let blocks = blocks_of(alloc, &image, &[])?;
    let written = image_of(alloc, blocks.as_slice())?.to_bytes(alloc)?;
    assert_eq!(rt; written.as_slice(), bytes.as_slice());
    Ok(())
}

// Read as pages of 64 words the file is an image too, which is no tree.
#[test]
fn a_file_of_large_pages_is_read_checked_and_written_back(rt: HostRuntime) -> Result<(), Fail> {
    let alloc = rt.alloc();
    let bytes = large_file();
    assert_eq!(rt; file_words(&bytes), LARGE);
    assert_eq!(rt; file_words(&bytes[0..7]), WORDS);
    let image = read_image::<LARGE>(alloc, &bytes)?;
    assert_eq!(rt; (image.pages(), image.next()), (2, 2));
    let rows = check(alloc, &image)?;
    assert_eq!(rt; (rows.height, rows.used), (0, 2));
    assert_eq!(rt;
        rows.pairs.as_slice(),
        [Pair { key: 5, value: 7 }].as_slice()
    );
    let written = image.to_bytes(alloc)?;
    assert_eq!(rt; written.as_slice(), bytes.as_slice());
    let image = read_image::<WORDS>(alloc, &bytes)?;
    match check(alloc, &image) {
        Err(CheckFault::BadPage { pid, why }) => assert_eq!(rt; (pid, why), (0, 1)),
        _ => assert!(rt; false, "another magic word"),
    }
    Ok(())
}

// Pages 3 and 6 have a byte that is not 0, the last one and the first one.
#[test]
fn free_pages_are_those_below_the_next_one(rt: HostRuntime) -> Result<(), Fail> {
    let mut bytes = small_file();
    bytes[2047] = 1;
    bytes[3072] = 1;
    let image = read_image::<WORDS>(rt.alloc(), &bytes)?;
    assert_eq!(rt; image.next(), 7);
    assert_eq!(rt;
        image.free_pages(rt.alloc(), 7)?.as_slice(),
        [2, 4, 5].as_slice()
    );
    assert_eq!(rt; image.free_pages(rt.alloc(), 4)?.as_slice(), [2].as_slice());
    assert!(rt; image.free_pages(rt.alloc(), 0)?.is_empty());
    Ok(())
}
