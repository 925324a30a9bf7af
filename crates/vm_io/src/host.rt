// The trait of hosts: named files and standard output, with counts of what failed.
// Takes and gives are counted apart, of gives those that failed and those of which nothing was taken, and the name of the last failed take is told to
// proofs, so that a caller can be held to which of them it was.
ghost use Rattle.std.specs.Prelude.{◌≡◌, ℕ, ◌+◌, ◌-◌, ◌^◌, ◌≤◌, ◌<◌, min, length, Option, IfOk, List};
ghost use Rattle.vm_io.specs.Causes.{HasCause, HasStuckCause, HasTakeCause, SameTakes};
ghost use Rattle.vm_io.specs.Shown.{Shown, Takes, Replaces, Says};
ghost use Rattle.vm_io.specs.declared.host.GiveFaults.{GiveFaults};

pub use vm_page::Failed;

/// How many calls that give bytes to a host failed, and how many took nothing of a piece that is not empty.
#[derive(Drop)]
pub struct GiveFaults {
    pub failed: u64,
    pub stuck: u64,
}

/// Named files and standard output.
pub trait Host {
    /// The files and what was said, where the host tells them.
    ghost shown: { Self → Option Shown };

    /// How many calls of `take` failed.
    ghost takes: { Self → ℕ };

    /// How many calls of `replace` and `say` failed, and how many of `say` took nothing of a piece that is not empty.
    ghost gives: { Self → GiveFaults };

    /// The name of the file whose `take` failed last.
    ghost last: { Self → List ℕ };

    /// Copies bytes of a file from an offset on, and answers how many. 0 means the end of the file, or an empty buffer.
    /// A missing file is a failure.
    fn take(&mut self, name: &str, at: u64, into: &mut [u8]) -> Result<usize, Failed>
        ensures bound { IfOk result (λ n. n ≤ length into.new) }
        ensures bytes { Takes (shown self.old) name.now at into.old into.new result }
        ensures keeps { shown self.new ≡ shown self.old }
        ensures cause { HasTakeCause (takes self.old) (takes self.new) (last self.old) (last self.new) name.now result }
        ensures apart { gives self.new ≡ gives self.old };

    /// Makes a file hold just these bytes. Where it fails the file is as it was.
    fn replace(&mut self, name: &str, bytes: &[u8]) -> Result<(), Failed>
        ensures held { Replaces (shown self.old) (shown self.new) name.now bytes.now result }
        ensures cause { HasCause (gives self.old).failed (gives self.new).failed result }
        ensures moves { (gives self.new).stuck ≡ (gives self.old).stuck }
        ensures apart { SameTakes (takes self.old) (takes self.new) (last self.old) (last self.new) };

    /// Writes the front of a piece to standard output, and answers how many bytes.
    fn say(&mut self, piece: &[u8]) -> Result<usize, Failed>
        ensures bound { IfOk result (λ n. n ≤ length piece.now) }
        ensures bytes { Says (shown self.old) (shown self.new) piece.now result }
        ensures cause { HasCause (gives self.old).failed (gives self.new).failed result }
        ensures stuck { HasStuckCause (gives self.old).stuck (gives self.new).stuck (length piece.now) result }
        ensures apart { SameTakes (takes self.old) (takes self.new) (last self.old) (last self.new) };

    /// How many calls failed or took nothing, up to the greatest `u64`.
    fn faults(&self) -> u64
        ensures { result ≡ min (takes self.now + (gives self.now).failed + (gives self.now).stuck) (2 ^ 64 - 1) };
}
