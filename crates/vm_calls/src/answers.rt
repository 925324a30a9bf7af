//! What keeps a worker's answers: the answers themselves in little memory (`compact`), or whatever a caller makes of each as it comes.

ghost use Rattle.std.specs.Prelude.{[], ◌++◌, ◌+◌, ◌∷◌, ◌≤◌, List, Result};
ghost use Rattle.vm_map.specs.declared.call.Reply.{Reply};
ghost use Rattle.vm_tree_range.specs.from_vm_tree_rule.declared_fault_TreeFault.{TreeFault};
ghost use Rattle.vm_calls.specs.Kept.{Room, spans_of, windows_of};

use vm_map::call::Reply;
use vm_tree_range::tree_rule::TreeFault;

/// What a call is answered: a reply, or why there is none.
pub type Answer = Result<Reply, TreeFault>;

/// Keeps what a worker is answered, call after call.
pub trait Answers {
    /// It stands for these answers, in order.
    ghost keeps: { Self → List (Result Reply TreeFault) → Type 0 };

    /// How many more it takes, and how many windows and how many ranges' pairs among them.
    ghost room: { Self → Room };

    /// Keeps an answer more.
    fn keep(&mut self, answer: Answer)
        requires answers { 1 ≤ (room self.old).answers }
        requires windows { windows_of answer ≤ (room self.old).windows }
        requires spans { spans_of answer ≤ (room self.old).spans }
        ensures told { (told : List (Result Reply TreeFault)) → keeps self.old told → keeps self.new (told ++ answer ∷ []) }
        ensures answers { (room self.old).answers ≤ (room self.new).answers + 1 }
        ensures windows { (room self.old).windows ≤ (room self.new).windows + windows_of answer }
        ensures spans { (room self.old).spans ≤ (room self.new).spans + spans_of answer };
}
