// What each host keeps of its failures: takes and gives are counted apart, each up to the greatest `u64`.
ghost use Rattle.std.specs.Prelude.{◌≡◌, ◌+◌, ◌-◌, ◌^◌, ◌≤◌, ◌<◌, ◌&&◌, min, [], nat_eq, nat_lt, if◌then◌else◌};
ghost use Rattle.vm_page.specs.Counts.{count_more};
ghost use Rattle.vm_io.specs.Causes.{Rose, SameTakes, more_failed, more_stuck};

use crate::host::{Failed, GiveFaults};
use crate::last_name::LastName;

/// Counts of failed takes and gives, and the name of the file whose take failed last.
#[derive(Drop)]
pub struct Faults {
    pub takes: u64,
    pub gives: GiveFaults,
    pub last: LastName,
}

#[tactic(auto, unfolding(vm_page::specs::Counts::count_more))]
impl Faults {
    pub fn new() -> Self
        ensures takes { result.takes ≡ 0 }
        ensures failed { result.gives.failed ≡ 0 }
        ensures stuck { result.gives.stuck ≡ 0 }
        ensures last { result.last.bytes ≡ [] }
    {
        Faults {
            takes: 0,
            gives: GiveFaults {
                failed: 0,
                stuck: 0,
            },
            last: LastName::new(),
        }
    }

    /// Counts a failed take.
    pub fn fail_take(&mut self, name: &str) -> Failed
        ensures counted { self.new.takes ≡ count_more self.old.takes }
        ensures later { self.old.takes ≤ self.new.takes }
        ensures named { self.new.last.bytes ≡ name.now }
        ensures apart { self.new.gives ≡ self.old.gives }
    {
        self.takes = self.takes.saturating_add(1);
        self.last = LastName::of(name.as_bytes());
        Failed
    }

    /// Counts a failed replace or say.
    pub fn fail_give(&mut self) -> Failed
        ensures counted { self.new.gives ≡ more_failed self.old.gives }
        ensures later { self.old.gives.failed ≤ self.new.gives.failed }
        ensures apart { SameTakes self.old.takes self.new.takes self.old.last.bytes self.new.last.bytes }
    {
        self.gives.failed = self.gives.failed.saturating_add(1);
        Failed
    }

    /// Counts a say that took nothing of a piece that is not empty, and answers how many bytes it took.
    pub fn taken(&mut self, count: usize, len: usize) -> usize
        ensures answer { result ≡ count }
        ensures later { self.old.gives.stuck ≤ self.new.gives.stuck }
        ensures stuck { count ≡ 0 → 0 < len → Rose self.old.gives.stuck self.new.gives.stuck }
        ensures counted { self.new.gives ≡ (if nat_eq count 0 && nat_lt 0 len then more_stuck self.old.gives else self.old.gives) }
        ensures apart { SameTakes self.old.takes self.new.takes self.old.last.bytes self.new.last.bytes }
    {
        if count == 0 && len > 0 {
            self.gives.stuck = self.gives.stuck.saturating_add(1);
        }
        count
    }

    /// All that failed, up to the greatest `u64`.
    pub fn total(&self) -> u64
        ensures { result ≡ min (self.now.takes + self.now.gives.failed + self.now.gives.stuck) (2 ^ 64 - 1) }
    {
        self.takes
            .saturating_add(self.gives.failed)
            .saturating_add(self.gives.stuck)
    }
}
