//! The calls that the workers of a churn make: each place has a few, and the places go to the workers in turn.

ghost use Rattle.std.specs.Prelude.{[], ◌++◌, ◌+◌, ◌≡◌, ◌≤◌, IfOk, length, OnOk, replicate};
ghost use Rattle.vm_build.specs.Numbers.{number_at};
ghost use Rattle.vm_drive.specs.Drives.{AreAskable, AreFew, items_of};
ghost use Rattle.vm_churn.specs.Calls.{calls_for, churn_lists};

use std::alloc::{AllocError, Global};
use vm_build::generator;
use vm_build::numbers::Generator;
use vm_map::call::Call;

// A generator whose first number is the one `places` behind the seed.
fn generator_after(seed: u64, places: u32) -> Generator
    ensures { result ≡ number_at seed places }
{
    let mut numbers = generator(seed);
    'places: for _place in 0..places {
        let _number = numbers.next();
    }
    numbers
}

// So many empty lists, each with room for so many calls.
fn empty_lists(alloc: Global, workers: u32, most: u32) -> Result<Vec<Vec<Call>>, AllocError>
    ensures { IfOk result (λ lists. items_of lists.items ≡ replicate workers []) }
{
    let mut lists = Vec::with_capacity(alloc, workers as usize)?;
    'workers: for _worker in 0..workers {
        lists.push(Vec::with_capacity(alloc, most as usize)?)?;
    }
    Ok(lists)
}

// Appends the calls of a place: `old` is its key, `new` the key that it puts.
fn add_place(calls: &mut Vec<Call>, place: u32, old: u64, new: u64) -> Result<(), AllocError>
    ensures { OnOk result (calls.new.items ≡ calls.old.items ++ calls_for place old new) }
{
    calls.push(Call::Get { key: old })?;
    calls.push(Call::Put {
        key: new,
        value: u64::from(place),
    })?;
    if place % 2 == 0 {
        calls.push(Call::Del { key: old })?;
    }
    Ok(())
}

/// The calls of 1 to 64 workers over up to 100,000 places, the first of which has the seed's first number as its key: for each worker those
/// of its places, place after place. The only error is want of memory.
pub fn calls_of(
    alloc: Global,
    pairs: u32,
    seed: u64,
    workers: u32,
) -> Result<Vec<Vec<Call>>, AllocError>
    requires pairs { pairs ≤ 100000 }
    requires workers { (1 ≤ workers) × (workers ≤ 64) }
    ensures calls { IfOk result (λ lists. items_of lists.items ≡ churn_lists pairs seed workers) }
    ensures count { IfOk result (λ lists. length lists.items ≡ workers) }
    ensures few { IfOk result (λ lists. AreFew (items_of lists.items)) }
    ensures askable { IfOk result (λ lists. AreAskable (items_of lists.items)) }
{
    // A place has three calls at the most. Memory that a list takes and does not use is never touched.
    let mut lists = empty_lists(alloc, workers, 3 * (pairs / workers + 1))?;
    let mut keys = generator(seed);
    let mut new_keys = generator_after(seed, pairs);
    'places: for before in 0..pairs {
        let worker = (before % workers) as usize;
        let key = keys.next();
        let new = new_keys.next();
        add_place(&mut lists[worker], before + 1, key, new)?;
    }
    Ok(lists)
}
