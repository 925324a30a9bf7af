//! What holds of serving calls: each function states one law and does nothing.

ghost use Rattle.std.specs.Prelude.{[], ◌+◌, ◌<◌, ◌≡◌, ◌≤◌, Bool, List, Result, ℕ};
ghost use Rattle.vm_map.specs.{declared.call.Call.Call, declared.call.Reply.Reply};
ghost use Rattle.vm_event.specs.Prelude.{at};
ghost use Rattle.vm_rule.specs.Prelude.{MemBlock, no_block, Stored};
ghost use Rattle.vm_drive.specs.from_vm_evict.declared_flushing_Flushed.{Flushed};
ghost use Rattle.vm_drive.specs.from_vm_tree_rule.declared_fault_TreeFault.{TreeFault};
ghost use Rattle.vm_drive.specs.Lists.{all_faults_of};
ghost use Rattle.vm_serve.specs.Served.{is_first, IsServed, IsServedOn, TreeEnd};

/// Where no fault is planned, no reply is a fault of a device, and no write of the last flush failed.
pub fn no_faults_without_a_plan()
    ensures faults { (n : ℕ) (pages : List (List ℕ)) (lists : List (List Call)) (replies : List (List (Result Reply TreeFault))) (report : Flushed) (blocks : List (MemBlock n)) (end : TreeEnd n)
        → IsServed n pages [] lists replies report blocks end → (p : ℕ) → all_faults_of p replies ≡ 0 }
    ensures flush { (n : ℕ) (pages : List (List ℕ)) (lists : List (List Call)) (replies : List (List (Result Reply TreeFault))) (report : Flushed) (blocks : List (MemBlock n)) (end : TreeEnd n)
        → IsServed n pages [] lists replies report blocks end → report.failed ≡ 0 }
{}

/// Where a block had counted no fault when the pool began, an answer that its device failed, or a first failed write of the last flush, has
/// raised its count.
pub fn faults_are_counted()
    ensures { (n : ℕ) (tells : Bool) (pages : List (List ℕ)) (before : List Stored) (lists : List (List Call))
        (replies : List (List (Result Reply TreeFault))) (report : Flushed) (blocks : List Stored) (end : TreeEnd n)
        → IsServedOn n tells pages before lists replies report blocks end → (p : ℕ) → (at no_block before p).count ≡ 0
        → 1 ≤ all_faults_of p replies + is_first report.first p → (at no_block before p).count < (at no_block blocks p).count }
{}
