//! The words' layout, by worked values.

use std::process::Abort;
use vm_event::{Bundle, StateWord, TransWord};

#[test]
fn state_words(rt: HostRuntime) {
    for (state, version, word) in [
        (253, 5, 18230571291595767813),
        (254, 0, 18302628885633695744),
        (255, 0, 18374686479671623680),
        (1, 0, 72057594037927936),
        (0, 7, 7),
    ] {
        assert_eq!(rt; StateWord::of(state, version), word);
        assert_eq!(rt; StateWord::state(word), state);
        assert_eq!(rt; StateWord::version(word), version);
    }
}

/// The translation word has this frame, and its page is dirty or not.
fn expect_translation(rt: &impl Abort, word: u64, frame: Option<u32>, dirty: bool) {
    assert_eq!(rt; TransWord::frame(word), frame, "the frame of {word}");
    assert_eq!(rt; TransWord::dirty(word), dirty, "the dirty bit of {word}");
}

#[test]
fn translation_words(rt: HostRuntime) {
    assert_eq!(rt; TransWord::of(3, true), 9223372036854775812);
    assert_eq!(rt; TransWord::of(3, false), 4);
    for (word, frame, dirty) in [
        (TransWord::EMPTY, None, false),
        (9223372036854775808, None, true),
        (9223372036854775812, Some(3), true),
        (1, Some(0), false),
        (4294967296, Some(4294967295), false),
        (4294967297, None, false),
        (18446744073709551615, None, true),
    ] {
        expect_translation(&rt, word, frame, dirty);
    }
}

#[test]
fn lowest_bits(rt: HostRuntime) {
    for (word, n, lowest) in [
        (0b10110, 2, 0b110),
        (0b10110, 0, 0),
        (0b10110, 9, 0b10110),
        (0, 3, 0),
        (0x8000_0000_0000_0001, 2, 0x8000_0000_0000_0001),
        (0xffff_ffff_ffff_ffff, 63, 0x7fff_ffff_ffff_ffff),
        (0xffff_ffff_ffff_ffff, 64, 0xffff_ffff_ffff_ffff),
    ] {
        assert_eq!(rt; Bundle::lowest(word, n), lowest, "{n} of {word}");
    }
}
