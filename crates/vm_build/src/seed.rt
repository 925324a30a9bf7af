//! What a seed gives: a generator, and pairs whose keys are its numbers.

ghost use Rattle.std.specs.Prelude.{◌≡◌, IfOk, length};
ghost use Rattle.vm_build.specs.Numbers.{HasNoTwins, numbered as numbered_of};

use crate::numbers::Generator;
use std::alloc::{AllocError, Global};
use vm_map::call::Pair;

/// A generator whose first number is the seed.
pub fn generator(seed: u64) -> Generator
    ensures { result ≡ seed }
{
    Generator { following: seed }
}

/// The first `count` numbers of a seed as keys, each with its place, from 1 on. No number stands twice.
pub fn numbered(alloc: Global, seed: u64, count: u32) -> Result<Vec<Pair>, AllocError>
    ensures pairs { IfOk result (λ pairs. pairs.items ≡ numbered_of seed count) }
    ensures apart { IfOk result (λ pairs. HasNoTwins pairs.items) }
    ensures count { IfOk result (λ pairs. length pairs.items ≡ count) }
{
    let mut numbers = generator(seed);
    let mut pairs = Vec::with_capacity(alloc, count as usize)?;
    for place in 0..count {
        pairs.push(Pair {
            key: numbers.next(),
            value: place as u64 + 1,
        })?;
    }
    Ok(pairs)
}
