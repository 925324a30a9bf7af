//! What holds of the endings of the program: each function states one law and does nothing.

ghost use Rattle.std.specs.Prelude.{◌≡◌, List, Option, ℕ};
ghost use Rattle.vm_io.specs.Shown.{Shown};
ghost use Rattle.vm_cli.specs.Agreement.{IsSameFor, IsSettledStatus, as_done};
ghost use Rattle.vm_file_serve.specs.from_vm_endings.Endings.{ProgramEnds};
ghost use Rattle.vm_file_serve.specs.from_vm_endings.Outside.{Outside, Remains};
ghost use Rattle.vm_file_serve.specs.from_vm_endings.declared_ends_Ends.{Ends};

/// Two endings of one command line, where hosts show the same files, and for a serve devices tell the same, have one status, unless the host or
/// devices failed or memory was wanting in one of them. 7 counts as 0: whether the last flush writes each page may hang on how workers met.
pub fn endings_agree()
    ensures { (words : List (List ℕ)) (shown : Shown) (outside another : Outside) (left last : Remains) (new more : Option Shown) (before after start end : Ends) (status other : ℕ)
        → IsSameFor words outside another shown
        → ProgramEnds words outside left new before after status
        → ProgramEnds words another last more start end other
        → IsSettledStatus status → IsSettledStatus other → as_done status ≡ as_done other }
{}
