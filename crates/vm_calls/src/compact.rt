//! The answers to a list of calls in little memory. A window is as wide as a node of the tree and most answers are none, so an answer is 24 bytes, and the
//! windows stand in a list of their own, with room for as many as calls ask for. So do the spans with the pairs of ranges.

ghost use Rattle.std.specs.Prelude.{[], ◌+◌, ◌++◌, ◌<◌, ◌∷◌, ◌≡◌, ◌≤◌, vec_len};
ghost use Rattle.vm_calls.specs.{Compact.KeepsAnswers, Compact.room_in, Kept.windows_asked};
ghost use Rattle.std.specs.Vec.{vec_capacity};

use crate::answers::{Answer, Answers};
use vm_map::call::{Call, Reply, Swap};
use vm_map::span::Span;
use vm_map::window::Window;
use vm_tree_range::tree_rule::TreeFault;

/// An answer without the window that it may show, and without the pairs of a range.
#[derive(Debug, Drop, PartialEq)]
pub enum Short {
    Got(Option<u64>),
    Was(Option<u64>),
    Gone(Option<u64>),
    Swapped(Swap),
    /// The next of the windows.
    Win,
    /// The next of the spans.
    Many,
    Wide(u64),
    Fault(TreeFault),
}

// So narrow that a million answers take 24 MB.
const _: () = prove!(size_of::<Short>() <= 24);

/// The answers to a list of calls.
#[derive(Drop)]
pub struct Replies {
    /// Each answer, in the order of the calls.
    pub short: Vec<Short>,
    /// The windows, in the order of the answers that show them.
    pub windows: Vec<Window>,
    /// The pairs of ranges, in the order of the answers that have them.
    pub spans: Vec<Span>,
}

impl Replies {
    // With an answer more, whose window or pairs stand already.
    fn add(&mut self, short: Short)
        requires { vec_len self.old.short < vec_capacity self.old.short }
        ensures short { self.new.short.items ≡ self.old.short.items ++ short ∷ [] }
        ensures len { vec_len self.new.short ≡ vec_len self.old.short + 1 }
        ensures capacity { vec_capacity self.old.short ≤ vec_capacity self.new.short }
        ensures windows { self.new.windows ≡ self.old.windows }
        ensures spans { self.new.spans ≡ self.old.spans }
    {
        if self.short.push(short).is_err() {
            unreachable!()
        }
    }
}

/// As many answers, windows and spans as there is room for.
impl Answers for Replies {
    ghost keeps = { KeepsAnswers };

    ghost room = { room_in };

    fn keep(&mut self, answer: Answer) {
        let mut answer = answer;
        match &mut answer {
            Ok(Reply::Got(found)) => self.add(Short::Got(*found)),
            Ok(Reply::Was(old)) => self.add(Short::Was(*old)),
            Ok(Reply::Gone(old)) => self.add(Short::Gone(*old)),
            Ok(Reply::Swapped(outcome)) => self.add(Short::Swapped(*outcome)),
            Ok(Reply::Wide(reach)) => self.add(Short::Wide(*reach)),
            Ok(Reply::Win(window)) => {
                if self.windows.push(window.take()).is_err() {
                    unreachable!()
                }
                self.add(Short::Win)
            }
            Ok(Reply::Many(span)) => {
                if self.spans.push(span.take()).is_err() {
                    unreachable!()
                }
                self.add(Short::Many)
            }
            Err(fault) => self.add(Short::Fault(*fault)),
        }
    }
}

/// How many of the calls ask for a window.
pub fn windows_in(calls: &[Call]) -> usize
    ensures { result ≡ windows_asked calls.now }
{
    let mut count = 0;
    'calls: for call in calls {
        if let Call::Window { .. } = call {
            count += 1;
        }
    }
    count
}
