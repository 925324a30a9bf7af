//! What holds of the calls of a churn: each function states one law and does nothing.

ghost use Rattle.std.specs.List.{sum_by};
ghost use Rattle.std.specs.Prelude.{◌<◌, ◌^◌, ◌≡◌, ◌≤◌, length, List, Result, ℕ};
ghost use Rattle.vm_map.specs.{declared.call.Call.Call, declared.call.Reply.Reply, declared.call.Said.Said, History.after_all, Map.gather, Map.Pairs};
ghost use Rattle.vm_build.specs.Numbers.{numbered};
ghost use Rattle.vm_rule.specs.Prelude.{Entry};
ghost use Rattle.vm_tree_laws.specs.History.{IsLegal, saids};
ghost use Rattle.vm_drive.specs.from_vm_tree_rule.declared_fault_TreeFault.{TreeFault};
ghost use Rattle.vm_drive.specs.{Holds.HoldsCalls, Prelude.as_said, Prelude.word_said};
ghost use Rattle.vm_churn.specs.Calls.{churn_count, churn_lists};
ghost use Rattle.vm_churn.specs.Tallies.{sum_values, tally_of, told_tally};

/// What a legal history comes to that holds workers' calls is what their answers tell.
pub fn answers_tell_the_history()
    ensures { (m : Pairs) (h : List (Entry Said)) (lists : List (List Call)) (replies : List (List (Result Reply TreeFault)))
        → IsLegal m h → HoldsCalls as_said word_said h lists replies → told_tally replies ≡ tally_of h }
{}

/// The values of the map that a churn's calls leave add up to less than 2 ^ 64.
pub fn values_add_up()
    ensures { (n seed workers : ℕ) (h : List (Entry Said)) (replies : List (List (Result Reply TreeFault)))
        → n ≤ 100000 → workers ≤ 64 → HoldsCalls as_said word_said h (churn_lists n seed workers) replies
        → sum_values (after_all (gather (numbered seed n)) (saids h)) < 2 ^ 64 }
{}

/// A churn of n pairs has 2 * n + n / 2 calls, however many workers there are.
pub fn calls_add_up()
    ensures { (n seed workers : ℕ) → 1 ≤ workers → sum_by (λ calls. length calls) (churn_lists n seed workers) ≡ churn_count n }
{}
