//! What holds of replays by their definitions alone: each function states one law and does nothing.

ghost use Rattle.std.specs.Prelude.{◌≡◌, Bool, List, ℕ};
ghost use Rattle.vm_replay.specs.Told.{PlayedFile};

/// The bytes of an event list give one text, and its lines are all legal or not: a file is replayed in one way.
pub fn one_replay()
    ensures { (bytes text other : List ℕ) (is_legal also : Bool) → PlayedFile bytes text is_legal
        → PlayedFile bytes other also → (text ≡ other) × (is_legal ≡ also) }
{}
