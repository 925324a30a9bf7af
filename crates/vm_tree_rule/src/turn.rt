// Why a descent ended without its leaf.
ghost use Rattle.vm_kind.specs.from_vm_guard.Denied.{AgainOrNeed};
ghost use Rattle.vm_tree_rule.specs.Turns.{IsTurnOf};

use vm_kind::guard::Deny;
use vm_step::Saw;

/// Why a call on the tree gave no answer yet.
#[derive(Clone, Copy, Debug, PartialEq, Eq)]
pub enum Turn {
    /// A page's word had changed, or the page was Locked: the call may be tried again.
    Again(Saw),
    /// This page is Evicted: it has to be brought in first. It is page 0, or a page on the way names it.
    Need(u32),
    /// The words of this page, which was validated, are not what the way to it says: as page 0 it names no page of the image as the root; or it is no
    /// node of the level and with the fences at which it was reached, or names a child outside the image. Never where blocks tell their words.
    Damaged(u32),
}

impl Turn {
    /// Why a look at a page was denied.
    pub(crate) fn of_denied(deny: Deny) -> Turn
        requires { AgainOrNeed deny }
        ensures { IsTurnOf deny result }
    {
        match deny {
            Deny::Again(saw) => Turn::Again(saw),
            Deny::Need(pid) => Turn::Need(pid),
            Deny::Crowded(_) => unreachable!(),
            Deny::Worn(_) => unreachable!(),
        }
    }
}
