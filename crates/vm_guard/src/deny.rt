// Why a call on a page gave no guard.
use vm_step::Saw;

/// Why a call on a page was denied. The pass holds what it held before.
#[derive(Clone, Copy, Debug, PartialEq, Eq)]
pub enum Deny {
    /// The page's word had changed, or the page was Locked: the call may be tried again.
    Again(Saw),
    /// This page is Evicted: it has to be brought in first.
    Need(u32),
    /// This page has all the shares that it can have.
    Crowded(u32),
    /// This page is at its last version, so it can't be locked exclusively any more.
    Worn(u32),
}
