//! The numbers of a seed: a linear congruential generator modulo 2 ^ 64, whose numbers come again only after all others.

ghost use Rattle.std.specs.Prelude.{◌≡◌};
ghost use Rattle.vm_build.specs.Numbers.{next_number};

use std::marker::Model;

const MULTIPLIER: u64 = 6364136223846793005;

const INCREMENT: u64 = 1442695040888963407;

/// The numbers of a seed, the seed first: contracts see the number that comes next.
#[derive(Drop)]
pub struct Generator {
    pub(crate) following: u64,
}

impl Model for Generator {
    ghost use Rattle.std.specs.Prelude.{ℕ};

    ghost Value = { ℕ };

    ghost view = { λ g. g.following };
}

impl Generator {
    /// The next number.
    pub fn next(&mut self) -> u64
        ensures number { result ≡ self.old }
        ensures after { self.new ≡ next_number self.old }
    {
        let number = self.following;
        self.following = number.wrapping_mul(MULTIPLIER).wrapping_add(INCREMENT);
        number
    }
}
