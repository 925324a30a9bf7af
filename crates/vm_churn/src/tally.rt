//! What the calls of a churn were answered in all. Each worker's tally counts an answer as it comes, so none of them is kept.

ghost use Rattle.std.specs.List.{AllByRecursion};
ghost use Rattle.std.specs.Prelude.{◌<◌, ◌^◌, ◌≡◌, ◌≤◌, IfOk, length};
ghost use Rattle.vm_drive.specs.{Drives.AreFew, Drives.items_of, Lists.HaveRoom, Rooms.RoomFor};
ghost use Rattle.vm_churn.specs.Tallies.{IsSmall, StandsFor, sum_values, tally_room, told_after, total_of};

use std::alloc::{AllocError, Global};
use vm_drive::answers::{Answer, Answers};
use vm_map::call::{Call, Pair, Reply};

/// How many gets found a value, how many puts no pair of their key, and how many dels one.
#[derive(Clone, Copy, Drop)]
pub struct Tally {
    pub some: u64,
    pub new: u64,
    pub gone: u64,
}

const NONE: Tally = Tally {
    some: 0,
    new: 0,
    gone: 0,
};

/// The tally of up to 1,000,000 answers.
impl Answers for Tally {
    ghost keeps = { StandsFor };

    ghost room = { tally_room };

    fn keep(&mut self, answer: Answer) {
        *self = add(*self, &answer);
    }
}

// With one answer more.
fn add(tally: Tally, answer: &Answer) -> Tally
    ensures { IsSmall tally → result ≡ told_after tally answer.now }
{
    let Tally { some, new, gone } = tally;
    match answer {
        Ok(Reply::Got(Some(_))) => Tally {
            some: some.saturating_add(1),
            new,
            gone,
        },
        Ok(Reply::Was(None)) => Tally {
            some,
            new: new.saturating_add(1),
            gone,
        },
        Ok(Reply::Gone(Some(_))) => Tally {
            some,
            new,
            gone: gone.saturating_add(1),
        },
        _ => tally,
    }
}

/// A tally for each list of calls, of no answer yet.
pub fn tallies_for(alloc: Global, lists: &[Vec<Call>]) -> Result<Vec<Tally>, AllocError>
    requires { AreFew (items_of lists.now) }
    ensures { IfOk result (λ tallies. HaveRoom StandsFor (RoomFor tally_room) tallies.items (items_of lists.now)) }
{
    let mut tallies = Vec::with_capacity(alloc, lists.len())?;
    'lists: for _calls in lists {
        tallies.push(NONE)?;
    }
    Ok(tallies)
}

/// The tally of all answers of up to 64 workers.
pub fn tally_all(tallies: &[Tally]) -> Tally
    requires workers { length tallies.now ≤ 64 }
    requires small { AllByRecursion IsSmall tallies.now }
    ensures { result ≡ total_of tallies.now }
{
    let mut all = NONE;
    'workers: for own in tallies {
        all.some += own.some;
        all.new += own.new;
        all.gone += own.gone;
    }
    all
}

/// The sum of the rows' values.
pub fn sum_of(rows: &[Pair]) -> u64
    requires { sum_values rows.now < 2 ^ 64 }
    ensures { result ≡ sum_values rows.now }
{
    let mut sum = 0;
    'rows: for row in rows {
        sum += row.value;
    }
    sum
}
