//! An image that is built of two pairs, in either order. The words are worked out by hand from the formats of page files and nodes. How many pages other
//! pairs take, and how they are laid out, are cases of `vm_cases`.

ghost use Rattle.std.specs.Prelude.{◌≤◌};
ghost use Rattle.vm_image.specs.File.{most_pages};
ghost use Rattle.vm_page.specs.Sizes.{IsSize};

use std::alloc::Global;
use std::process::Abort;
use std::test::Fail;
use vm_build::{BuildFault, build, numbered};
use vm_image::Image;
use vm_map::call::Pair;
use vm_page::WORDS;
use vm_test_words::words::words_of;

// The image of the first numbers of a seed, where the pages are enough.
fn built<const N: usize>(
    alloc: Global,
    pages: u32,
    seed: u64,
    count: u32,
) -> Result<Image<N>, BuildFault>
    requires sized { IsSize N }
    requires pages { pages ≤ most_pages N }
    requires few { count ≤ 2064132 }
{
    let pairs = numbered(alloc, seed, count)?;
    build(alloc, pages, pairs.as_slice())
}

const SECOND: u64 = 7_806_831_264_735_756_412;

// Page 0 names the root, a leaf on page 1; the leaf has the two pairs (1, 1) and (SECOND, 2), and no high fence.
fn expect_two_pairs(rt: &impl Abort, image: &Image<WORDS>) {
    assert_eq!(rt; image.pages(), 8);
    let mut meta = [0; 64];
    meta[0..3].copy_from_slice(&[0x564D_4341_4348_4531, 1, 0]);
    assert_eq!(rt; words_of(image.page(0)), meta);
    let mut leaf = [0; 64];
    leaf[0..12].copy_from_slice(&[2, 2, 0, 0, 1, 0, 0, 0, 1, 1, SECOND, 2]);
    assert_eq!(rt; words_of(image.page(1)), leaf);
    assert_eq!(rt; image.next(), 2);
}

#[test]
fn two_pairs_are_a_leaf(rt: HostRuntime) -> Result<(), Fail> {
    expect_two_pairs(&rt, &built(rt.alloc(), 8, 1, 2)?);
    Ok(())
}

#[test]
fn the_order_of_the_pairs_does_not_matter(rt: HostRuntime) -> Result<(), Fail> {
    let second = Pair {
        key: SECOND,
        value: 2,
    };
    let first = Pair { key: 1, value: 1 };
    expect_two_pairs(&rt, &build(rt.alloc(), 8, &[second, first])?);
    Ok(())
}
