// The name of the file that a host could not read last, for proofs alone.
ghost use Rattle.std.specs.Prelude.{ℕ, List};
ghost use Rattle.std.specs.Borrow.{ftrue};

use std::marker::Model;

/// The bytes of a name, which the proof of the call that failed has picked. It has no bytes of its own.
#[derive(Drop)]
pub struct LastName {
    pub ghost bytes: { List ℕ },
}

impl Model for LastName {
    ghost also_owns = { λ _. ftrue };
}

impl LastName {
    ghost use Rattle.std.specs.Prelude.{◌≡◌};
    ghost use Rattle.vm_io.specs.declared.last_name.LastName.{LastName};

    /// Whatever the caller's proof says.
    pub fn new() -> LastName
        ghost told: { LastName }
        ensures { result ≡ told }
    {
        LastName {}
    }

    /// The same, where the caller's proof picks the name from that which it passes.
    pub fn of(_name: &[u8]) -> LastName
        ghost told: { LastName }
        ensures { result ≡ told }
    {
        LastName::new()
    }
}
