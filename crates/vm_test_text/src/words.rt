//! The words of a run with each option, and what they have to give. The other commands, and lines that are refused, are cases of `vm_cases`.
use std::alloc::{AllocError, Global};
use vm_words::{Command, command_of};

// The words of a line, cut at its spaces.
fn words_of(alloc: Global, line: &str) -> Result<Vec<String>, AllocError> {
    let mut words = Vec::new(alloc);
    for word in line.split_whitespace() {
        words.push(word.to_owned(alloc)?)?;
    }
    Ok(words)
}

#[test]
fn reads_the_options_of_run(rt: HostRuntime) {
    let line =
        "run --keep K0 I0 S0 --fail 1:2,0:18446744073709551615 --workers 2 --first-version 72057594037927934 --frames 64";
    let words = words_of(rt.alloc(), line).expect(&rt, "words");
    let Ok(Command::Run(run)) = command_of(rt.alloc(), words.as_slice()) else {
        panic!(rt; "at {line}");
    };
    assert!(rt; run.image == "I0" && run.script == "S0");
    assert!(rt; run.workers == 2 && run.frames == 64);
    assert!(rt; run.options.keep == Some("K0"));
    assert!(rt; run.options.first_version == Some(72_057_594_037_927_934));
    assert_eq!(rt; run.options.fail.len(), 2);
    for (fault, wanted) in run.options.fail.iter().zip([(1, 2), (0, u64::MAX)]) {
        assert!(rt; fault.page == wanted.0 && fault.number == wanted.1);
    }
}
