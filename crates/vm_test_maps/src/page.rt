//! The bytes of a page, worked out by hand.

use vm_page::{PageBuf, WORDS};

// The first words of an empty page file's page 0, and a word whose eight bytes all differ.
#[test]
fn words_stand_greatest_byte_first(rt: HostRuntime) {
    let mut page = PageBuf::<WORDS>::zero();
    page.set(0, 0x564D_4341_4348_4531);
    page.set(63, 0x0102_0304_0506_0708);
    let mut bytes = [0; 512];
    page.put_bytes(&mut bytes);
    assert_eq!(rt; &bytes[0..9], b"VMCACHE1\0".as_slice());
    assert_eq!(rt; &bytes[503..512], [0, 1, 2, 3, 4, 5, 6, 7, 8].as_slice());
    let read = PageBuf::<WORDS>::of_slice(&bytes);
    assert_eq!(rt; read.get(0), 0x564D_4341_4348_4531);
    assert_eq!(rt; read.get(1), 0);
    assert_eq!(rt; read.get(63), 0x0102_0304_0506_0708);
}
