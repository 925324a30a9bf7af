//! Which calls of a block in memory fail.

ghost use Rattle.std.specs.Prelude.{◌≡◌, ◌+◌, ◌-◌, ◌≤◌, ◌<◌, IfOk, if◌then◌else◌};
ghost use Rattle.vm_page.specs.Counts.{count_more};
ghost use Rattle.vm_block.specs.Plans.{plans_failure, most_counted, up_to};

use std::alloc::{AllocError, Global};

/// The numbers of the calls that fail, how many calls were made, the count of faults at the start, and that count with those that failed since.
#[derive(Drop)]
pub struct Plan {
    pub numbers: Vec<u64>,
    pub calls: u64,
    pub first: u64,
    pub faults: u64,
    /// A number fails once at most.
    pub ghost once: { faults ≤ first + up_to numbers.items calls },
    pub ghost within: { faults ≤ most_counted first numbers.items },
}

impl Plan {
    /// A plan of which no call was made yet, and a count of faults to start at. Calls are numbered from 1.
    pub fn new(alloc: Global, numbers: &[u64], first: u64) -> Result<Plan, AllocError>
        ensures numbers { IfOk result (λ plan. plan.numbers.items ≡ numbers.now) }
        ensures calls { IfOk result (λ plan. plan.calls ≡ 0) }
        ensures first { IfOk result (λ plan. plan.first ≡ first) }
        ensures faults { IfOk result (λ plan. plan.faults ≡ first) }
    {
        Ok(Plan {
            numbers: Vec::from_slice(alloc, numbers)?,
            calls: 0,
            first,
            faults: first,
        })
    }

    /// Counts a call, and says whether it fails. A failure is counted too.
    #[tactic(auto, unfolding(vm_page::specs::Counts::count_more))]
    pub fn fails(&mut self) -> bool
        ensures planned { result ≡ plans_failure self.old.numbers.items self.old.calls }
        ensures calls { self.new.calls ≡ count_more self.old.calls }
        ensures numbers { self.new.numbers.items ≡ self.old.numbers.items }
        ensures first { self.new.first ≡ self.old.first }
        ensures faults { self.new.faults ≡ (if result then count_more self.old.faults else self.old.faults) }
    {
        if self.calls == u64::MAX {
            return false;
        }
        self.calls += 1;
        let fails = self.numbers.contains(&self.calls);
        if fails {
            self.faults = self.faults.saturating_add(1);
        }
        fails
    }
}
