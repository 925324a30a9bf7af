// A page is brought into memory, and frames are made free for it by a sweep.
ghost use Rattle.std.specs.Prelude.{◌+◌, ◌-◌, ◌<◌, ◌^◌, ◌∷◌, ◌≡◌, ◌≤◌, IfOk, min, None};
ghost use Rattle.vm_clock.specs.from_vm_step.Prelude.{AreHeld, GoesOn, IsAlone, IsReadyOn, view};
ghost use Rattle.vm_exmap.specs.Frames.{HasFree};
ghost use Rattle.vm_fault.specs.Fetches.{IsKnownOut};
ghost use Rattle.vm_pool.specs.{Known.KnowsAsked, Sweeps.IsSwept};
ghost use Rattle.vm_pool.specs.Brings.{Fetches, IsBring, IsFramed, IsSure, KeepsLocks, NamesWorn, SaysDry};

use crate::pool::Pool;
use vm_block::PageBlock;
use vm_clock::candidates;
use vm_clock::step::{Batch, Looks, Saw};
use vm_event::FRAMES;
use vm_evict::evict;
use vm_evict::report::Report;
use vm_exmap::{AllocOne, Interface};
use vm_fault::{Fetch, fault_in};
use vm_owner::Ungrouped;
use vm_rule::words::Pass;

/// What bringing a page answers.
#[derive(Clone, Copy, Debug, PartialEq, Eq)]
pub enum Bring {
    /// The page is resident.
    Brought,
    /// The page was not Evicted, or others came before; or the frames asked for were lost to others.
    Again(Saw),
    /// This page is at the last version: the page asked for, or the first that a sweep met where it freed nothing, failed no write and met only
    /// such pages and evicted ones.
    Worn(u32),
    /// The device of this page failed: a read of the page asked for, or the first write of a sweep that freed nothing.
    Device { pid: u32, count: u64 },
    /// No frame was free, after a sweep either.
    Dry { looks: Looks },
}

/// The page that `Worn` names: the first page at the last version, where a walk met only such pages, evicted ones, and frames without a page.
fn only_worn(looks: &Looks) -> Option<u32>
    ensures { NamesWorn looks.now result }
{
    if looks.found != 0 || looks.again != 0 || looks.marked != 0 {
        return None;
    }
    if looks.lost != 0 || looks.held != 0 {
        return None;
    }
    looks.first_worn
}

/// Why no frame was free after a sweep with this report.
pub fn dry_cause(report: &Report) -> Bring
    ensures { SaysDry report.now result }
{
    let dry = Bring::Dry {
        looks: report.looks,
    };
    if report.freed != 0 {
        return dry;
    }
    if let Some((pid, count)) = report.first_failed {
        return Bring::Device { pid, count };
    }
    if report.failed != 0 {
        return dry;
    }
    match only_worn(&report.looks) {
        Some(pid) => Bring::Worn(pid),
        None => dry,
    }
}

impl<U: Ungrouped, B: PageBlock<N>, const N: usize> Pool<U, B, N> {
    /// Evicts up to `want` (1 to 64) pages that the clock chooses, and gives their frames to the interface.
    pub fn sweep(&self, pass: &mut Pass<U>, iface: &mut Interface, want: u32) -> Report
        requires ready { IsReadyOn self.now.words B.tells pass.old }
        requires home { (view pass.old).out ≡ None }
        requires frames { AreHeld iface.old.frames (view pass.old) }
        requires want { (1 ≤ want) × (want ≤ FRAMES) }
        ensures goes { GoesOn self.now.words B.tells pass.old pass.new }
        ensures swept { IsSwept want iface.old.cap iface.old.frames iface.new.frames result (view pass.old) (view pass.new) }
        ensures iface { (iface.new.home ≡ iface.old.home) × (iface.new.cap ≡ iface.old.cap)
            × (iface.new.swept ≡ min (iface.old.swept + result.freed) (2 ^ 64 - 1)) }
        ensures held { AreHeld iface.new.frames (view pass.new) }
        ensures keeps { KeepsLocks (view pass.old) (view pass.new) }
    {
        let chosen = candidates(&self.words, pass, want);
        let evicted = evict::<U, B, N>(&self.words, pass, &chosen);
        let report = evicted.report;
        iface.free(&self.words, pass, evicted.frames);
        iface.add_swept(report.freed);
        report
    }

    /// A frame for a page, or the answer where there is none. Where no frame is free it sweeps once, with the interface's cap.
    fn frame_for(&self, pass: &mut Pass<U>, iface: &mut Interface) -> Result<u32, Bring>
        requires ready { IsReadyOn self.now.words B.tells pass.old }
        requires home { (view pass.old).out ≡ None }
        requires frames { AreHeld iface.old.frames (view pass.old) }
        ensures goes { GoesOn self.now.words B.tells pass.old pass.new }
        ensures framed { IsFramed iface.old.home iface.old.cap iface.old.frames iface.new.frames iface.old.swept iface.new.swept
            (view pass.old) (view pass.new) result }
        ensures iface { (iface.new.home ≡ iface.old.home) × (iface.new.cap ≡ iface.old.cap) }
        ensures frame { IfOk result (λ frame. AreHeld (frame ∷ iface.new.frames) (view pass.new)) }
        ensures held { AreHeld iface.new.frames (view pass.new) }
    {
        match iface.alloc_one(&self.words, pass) {
            AllocOne::Frame(frame) => return Ok(frame),
            AllocOne::Again(saw) => return Err(Bring::Again(saw)),
            AllocOne::Dry => {}
        }
        let cap = iface.cap;
        let report = self.sweep(pass, iface, cap);
        match iface.alloc_one(&self.words, pass) {
            AllocOne::Frame(frame) => Ok(frame),
            AllocOne::Again(saw) => Err(Bring::Again(saw)),
            AllocOne::Dry => Err(dry_cause(&report)),
        }
    }

    /// Brings a page that is Evicted into this frame of the pass. Where it can't be brought, the interface gets the frame.
    fn bring_into(&self, pass: &mut Pass<U>, iface: &mut Interface, pid: u32, frame: u32) -> Bring
        requires ready { IsReadyOn self.now.words B.tells pass.old }
        requires home { (view pass.old).out ≡ None }
        requires frames { AreHeld (frame ∷ iface.old.frames) (view pass.old) }
        requires page { pid < self.now.words.table.shared.key.pages }
        ensures goes { GoesOn self.now.words B.tells pass.old pass.new }
        ensures fetches { Fetches iface.old.cap pid frame iface.old.frames iface.new.frames (view pass.old) (view pass.new) result }
        ensures iface { (iface.new.home ≡ iface.old.home) × (iface.new.cap ≡ iface.old.cap) × (iface.new.swept ≡ iface.old.swept) }
        ensures held { AreHeld iface.new.frames (view pass.new) }
    {
        let answer = match fault_in::<U, B, N>(&self.words, pass, pid, frame) {
            Fetch::Brought => return Bring::Brought,
            Fetch::Again { saw, .. } => Bring::Again(saw),
            Fetch::Worn { pid, .. } => Bring::Worn(pid),
            Fetch::Device { pid, count, .. } => Bring::Device { pid, count },
        };
        let mut back = Batch::new();
        back.push(frame);
        iface.free(&self.words, pass, back);
        answer
    }

    /// Brings a page that is Evicted into memory. Where no frame is free it sweeps once, with the interface's cap.
    ///
    /// A pass that is alone, and knows that the page is evicted below the last version and that the interface or a bundle has a frame, is
    /// answered `Brought`, or `Device` where the page's block failed. After every answer, after a sweep too, it knows the table's
    /// words but these: after `Brought` those of the page's translation and fault and of its frame, and the bundle that the frame was
    /// taken from; after `Device` those of the page's translation and fault, and the bundles; after `Again` and `Worn` the bundles.
    pub fn bring(&self, pass: &mut Pass<U>, iface: &mut Interface, pid: u32) -> Bring
        requires ready { IsReadyOn self.now.words B.tells pass.old }
        requires home { (view pass.old).out ≡ None }
        requires frames { AreHeld iface.old.frames (view pass.old) }
        requires page { pid < self.now.words.table.shared.key.pages }
        ensures goes { GoesOn self.now.words B.tells pass.old pass.new }
        ensures answer { IsBring iface.old.home iface.old.cap pid iface.old.frames iface.new.frames iface.old.swept iface.new.swept
            (view pass.old) (view pass.new) result }
        ensures sure { IsAlone (view pass.old) → IsKnownOut pid (view pass.old) → HasFree iface.old.frames (view pass.old)
            → IsSure pid (view pass.old) (view pass.new) result }
        ensures table { IsAlone (view pass.old) → KnowsAsked iface.old.cap pid iface.old.frames iface.new.frames (view pass.old) (view pass.new) result }
        ensures iface { (iface.new.home ≡ iface.old.home) × (iface.new.cap ≡ iface.old.cap) }
        ensures held { AreHeld iface.new.frames (view pass.new) }
        ensures keeps { KeepsLocks (view pass.old) (view pass.new) }
    {
        match self.frame_for(pass, iface) {
            Ok(frame) => self.bring_into(pass, iface, pid, frame),
            Err(answer) => answer,
        }
    }
}
