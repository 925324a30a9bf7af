// What evictions report.
ghost use Rattle.std.specs.Prelude.{[], ◌<◌, ◌≡◌, length};
ghost use Rattle.vm_evict.specs.Stages.{IsAdded, IsOver, none_of};

use crate::candidate::Stage;
use vm_event::FRAMES;
use vm_supply::step::{Batch, Looks};

/// What became of the candidates of an eviction.
#[derive(Clone, Copy, Debug, PartialEq, Eq)]
pub struct Report {
    /// Pages evicted.
    pub freed: u32,
    /// Pages written.
    pub written: u32,
    /// Pages whose write failed.
    pub failed: u32,
    /// Pages that changed before they could be locked.
    pub lost: u32,
    /// The first page whose write failed, with the count of the fault.
    pub first_failed: Option<(u32, u64)>,
    /// The looks that found the candidates.
    pub looks: Looks,
}

/// The frames of the pages evicted, and the report.
#[derive(Debug, Drop, PartialEq)]
pub struct Evicted {
    pub frames: Batch,
    pub report: Report,
}

impl Evicted {
    /// Nothing was evicted yet, of the candidates that these looks found.
    pub(crate) fn none(looks: Looks) -> Evicted
        ensures report { result.report ≡ none_of looks }
        ensures frames { result.frames ≡ [] }
    {
        Evicted {
            frames: Batch::new(),
            report: Report {
                freed: 0,
                written: 0,
                failed: 0,
                lost: 0,
                first_failed: None,
                looks,
            },
        }
    }

    /// Counts what became of candidate `p`, and takes its frame.
    pub(crate) fn add(&mut self, p: u32, stage: Stage)
        requires over { IsOver stage }
        requires room { length self.old.frames < FRAMES }
        requires counts { (self.old.report.freed < FRAMES) × (self.old.report.written < FRAMES)
            × (self.old.report.failed < FRAMES) × (self.old.report.lost < FRAMES) }
        ensures added { IsAdded p stage self.old self.new }
    {
        let report = &mut self.report;
        match stage {
            Stage::Freed { frame, written } => {
                report.freed += 1;
                report.written += u32::from(written);
                self.frames.push(frame);
            }
            Stage::Failed { count } => {
                report.failed += 1;
                report.first_failed = report.first_failed.or(Some((p, count)));
            }
            Stage::Lost { written } => {
                report.lost += 1;
                report.written += u32::from(written);
            }
            _ => unreachable!(),
        }
    }
}
