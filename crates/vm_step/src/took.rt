// What an exchange answers.
ghost use Rattle.std.specs.Prelude.{◌≡◌, ◌≢◌, ℕ};
ghost use Rattle.vm_step.specs.Prelude.{found_by};
ghost use Rattle.vm_step.specs.declared.took.Took.TheVariants.{Lost};

/// Whether the word was the one expected.
#[derive(Clone, Copy)]
pub enum Took {
    /// It was, and has been changed.
    Taken,
    /// It was this other one, and is as it was.
    Lost(u64),
}

/// The answer, from the word that was found.
pub fn answer(found: u64, expects: u64) -> Took
    ensures word { found_by expects result ≡ found }
    ensures lost { (word : ℕ) → result ≡ Lost word → word ≢ expects }
{
    if found == expects {
        Took::Taken
    } else {
        Took::Lost(found)
    }
}
