//! The answers to a list of calls with byte keys in little memory. A window is as wide as a node of the tree and most answers are none, so the windows stand in a
//! list of their own, with room for as many as calls ask for.

ghost use Rattle.std.specs.Prelude.{[], ◌+◌, ◌++◌, ◌<◌, ◌∷◌, ◌≡◌, ◌≤◌, IfOk, List, Result, vec_len};
ghost use Rattle.std.specs.Vec.{vec_capacity};
ghost use Rattle.vm_bytes_laws.specs.declared.call.KeyReply.{KeyReply};
ghost use Rattle.vm_calls.specs.from_vm_tree_rule.declared_fault_TreeFault.{TreeFault};
ghost use Rattle.vm_bytes_calls.specs.KeyAnswers.{answers_left, HasKeyRoom, KeepsKeyAnswers, key_windows_asked, key_windows_of, windows_left};

use std::alloc::{AllocError, Global};
use vm_bytes_laws::call::{KeyCall, KeyReply};
use vm_bytes_node::window::KeyWindow;
use vm_calls::tree_rule::TreeFault;
use vm_map::call::Swap;

/// An answer without the window that it may show.
#[derive(Drop)]
pub enum KeyShort {
    Got(Option<u64>),
    Was(Option<u64>),
    Gone(Option<u64>),
    Swapped(Swap),
    /// The next of the windows.
    Win,
    Fault(TreeFault),
}

/// The answers to a list of calls.
#[derive(Drop)]
pub struct KeyReplies {
    /// Each answer, in the order of the calls.
    pub short: Vec<KeyShort>,
    /// The windows, in the order of the answers that show them.
    pub windows: Vec<KeyWindow>,
}

impl KeyReplies {
    /// Room for the answers to these calls.
    pub fn room_for(alloc: Global, calls: &[KeyCall]) -> Result<Self, AllocError>
        ensures keeps { IfOk result (λ kept. KeepsKeyAnswers kept []) }
        ensures room { IfOk result (λ kept. HasKeyRoom kept calls.now) }
    {
        let short = Vec::with_capacity(alloc, calls.len())?;
        let windows = Vec::with_capacity(alloc, windows_in(calls))?;
        Ok(KeyReplies { short, windows })
    }

    // With an answer more, whose window stands already.
    fn add(&mut self, short: KeyShort)
        requires { vec_len self.old.short < vec_capacity self.old.short }
        ensures short { self.new.short.items ≡ self.old.short.items ++ short ∷ [] }
        ensures len { vec_len self.new.short ≡ vec_len self.old.short + 1 }
        ensures capacity { vec_capacity self.old.short ≤ vec_capacity self.new.short }
        ensures windows { self.new.windows ≡ self.old.windows }
    {
        if self.short.push(short).is_err() {
            unreachable!()
        }
    }

    /// Keeps one more.
    pub fn keep(&mut self, answer: Result<KeyReply, TreeFault>)
        requires answers { 1 ≤ answers_left self.old }
        requires windows { key_windows_of answer ≤ windows_left self.old }
        ensures told { (told : List (Result KeyReply TreeFault)) → KeepsKeyAnswers self.old told → KeepsKeyAnswers self.new (told ++ answer ∷ []) }
        ensures answers { answers_left self.old ≤ answers_left self.new + 1 }
        ensures windows { windows_left self.old ≤ windows_left self.new + key_windows_of answer }
    {
        match answer {
            Ok(KeyReply::Got(found)) => self.add(KeyShort::Got(found)),
            Ok(KeyReply::Was(old)) => self.add(KeyShort::Was(old)),
            Ok(KeyReply::Gone(old)) => self.add(KeyShort::Gone(old)),
            Ok(KeyReply::Swapped(outcome)) => self.add(KeyShort::Swapped(outcome)),
            Ok(KeyReply::Win(window)) => {
                if self.windows.push(window).is_err() {
                    unreachable!()
                }
                self.add(KeyShort::Win)
            }
            Err(fault) => self.add(KeyShort::Fault(fault)),
        }
    }
}

/// How many of the calls ask for a window.
pub fn windows_in(calls: &[KeyCall]) -> usize
    ensures { result ≡ key_windows_asked calls.now }
{
    let mut count = 0;
    'calls: for call in calls {
        if let KeyCall::Window { .. } = call {
            count += 1;
        }
    }
    count
}
