//! A page whose words are loaded one by one: a buffer, or a page that stands in a frame and may change while it is read.

ghost use Rattle.std.specs.Prelude.{◌≡◌, length, refl};
ghost use Rattle.std.proofs.lemmas.List.Elements.{All-nil};
ghost use Rattle.vm_page.specs.Sizes.{IsSize};
ghost use Rattle.vm_node.specs.Loads.{IsBuffer, IsBuffer-join};

use vm_page::PageBuf;

/// A page, of which each word is loaded when it is asked for.
pub trait Place {
    ghost use Rattle.std.specs.Prelude.{[], ◌++◌, ◌<◌, ◌≡◌, ◌∷◌, List, ℕ};

    // How many words it has.
    ghost size: { Self → ℕ };

    // When its words can be loaded.
    ghost ready: { Self → Type 0 };

    // Between one value and another these words were loaded, each with its place, and nothing else was done.
    ghost loads: { Self → List (ℕ × ℕ) → Self → Type 0 };

    /// Word `i`, for `i` from 0 on and below the number of words.
    fn word(&mut self, i: usize) -> u64
        requires ready { ready self.old }
        requires place { i < size self.old }
        ensures ready { ready self.new }
        ensures size { size self.new ≡ size self.old }
        ensures loads { loads self.old ((i, result) ∷ []) self.new };

    ghost none: { (p : Self) → ready p → loads p [] p };

    ghost join: { (p q r : Self) (first then : List (ℕ × ℕ)) → loads p first q → loads q then r → loads p (first ++ then) r };
}

impl<const N: usize> Place for &PageBuf<N> {
    ghost size = { λ _. N };

    ghost ready = { λ p. length p.now ≡ N };

    ghost loads = { λ p loaded q. IsBuffer p.now loaded q.now };

    fn word(&mut self, i: usize) -> u64 {
        self.get(i)
    }

    ghost none = { λ p ready. record { same = refl; has = All-nil _ } };

    ghost join = { λ p q r first then a b. IsBuffer-join p.now q.now r.now first then a b };
}

/// The page of a buffer as a place.
pub fn in_buffer<const N: usize>(page: &PageBuf<N>) -> &PageBuf<N>
    requires sized { IsSize N }
    ensures same { result.now ≡ page.now }
    ensures size { length result.now ≡ N }
{
    // A page has N words.
    let _ = page.get(0);
    page
}
