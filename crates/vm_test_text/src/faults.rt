//! A plan of failures that was worked out by hand, and words that no command line has: the others are cases of `vm_cases`.

use std::alloc::{AllocError, Global};
use std::test::Fail;
use vm_script::faults::faults_of;
use vm_script::laws::one_plan;

// Whether the word is a plan of these pages and numbers.
fn spells(alloc: Global, word: &[u8], wanted: &[(u64, u64)]) -> Result<bool, AllocError> {
    let Some(plan) = faults_of(alloc, word)? else {
        return Ok(false);
    };
    if plan.len() != wanted.len() {
        return Ok(false);
    }
    Ok(
        plan.iter().zip(wanted.iter()).all(|(fault, pair)| fault.page == pair.0
            && fault.number == pair.1),
    )
}

#[test]
fn reads_plans(rt: HostRuntime) -> Result<(), Fail> {
    let alloc = rt.alloc();
    let last = u64::MAX;
    assert!(rt;
        spells(
            alloc,
            b"0:0,18446744073709551615:18446744073709551615,3:10",
            &[(0, 0), (last, last), (3, 10)]
        )?
    );
    let words: [&[u8]; 3] = [b"", b"1:1, 1:2", b"1:1\n"];
    for word in words {
        assert!(rt; faults_of(alloc, word)?.is_none());
    }
    one_plan();
    Ok(())
}
