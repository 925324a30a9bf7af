//! The pairs in the order in which a tree has them.

ghost use Rattle.std.specs.Prelude.{◌≡◌, ◌<◌, All, IfOk, length};
ghost use Rattle.vm_build.specs.Numbers.{HasNoTwins};
ghost use Rattle.vm_map.specs.Keys.{KEY_END};
ghost use Rattle.vm_map.specs.Map.{Rises, gather};

use std::alloc::{AllocError, Global};
use vm_map::call::Pair;

/// The map of pairs of different keys: the same pairs by rising key.
pub(crate) fn sorted(alloc: Global, pairs: &[Pair]) -> Result<Vec<Pair>, AllocError>
    requires { HasNoTwins pairs.now }
    ensures map { IfOk result (λ sorted. sorted.items ≡ gather pairs.now) }
    ensures rises { IfOk result (λ sorted. Rises 0 KEY_END sorted.items) }
    ensures count { IfOk result (λ sorted. length sorted.items ≡ length pairs.now) }
{
    let mut sorted = copied(alloc, pairs)?;
    sorted.sort_unstable_by_key(|pair| pair.key);
    Ok(sorted)
}

// A copy of the pairs, each read, which tells that its key is a word.
fn copied(alloc: Global, pairs: &[Pair]) -> Result<Vec<Pair>, AllocError>
    ensures same { IfOk result (λ copied. copied.items ≡ pairs.now) }
    ensures keys { IfOk result (λ copied. All (λ e. e.0 < KEY_END) copied.items) }
{
    let mut copied = Vec::with_capacity(alloc, pairs.len())?;
    for pair in pairs {
        copied.push(Pair {
            key: pair.key,
            value: pair.value,
        })?;
    }
    Ok(copied)
}
