// How a table began, for proofs alone.
ghost use Rattle.std.specs.Borrow.{ftrue};
ghost use Rattle.vm_rule.specs.{declared.view.Origin.Origin, declared.view.Snapshot.Snapshot};

use std::marker::Model;

/// How a table began, and its words and blocks then. It has no bytes.
#[derive(Drop)]
pub struct Began {
    pub ghost origin: { Origin },
    pub ghost snapshot: { Snapshot },
}

impl Model for Began {
    ghost also_owns = { λ _. ftrue };
}

impl Began {
    ghost use Rattle.std.specs.Prelude.{◌≡◌};
    ghost use Rattle.vm_rule.specs.declared.began.Began.{Began};

    /// Whatever the caller's proof says.
    pub fn new() -> Began
        ghost told: { Began }
        ensures { result ≡ told }
    {
        Began {}
    }
}
