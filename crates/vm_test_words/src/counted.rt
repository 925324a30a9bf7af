//! A place that counts how many of its words are loaded.

ghost use Rattle.std.specs.Prelude.{◌≡◌, ◌≤◌, length};
ghost use Rattle.vm_page.specs.Sizes.{IsSize};

use vm_node::{Place, in_buffer};
use vm_page::{PageBuf, WORDS};

/// A place, and how many of its words were loaded.
#[derive(Drop)]
pub struct Counted<P> {
    place: P,
    pub loaded: u32,
}

impl<P: Place> Place for Counted<P> {
    ghost size = { λ c. P.size c.place };

    ghost ready = { λ c. P.ready c.place };

    ghost loads = { λ c loaded d. P.loads c.place loaded d.place };

    fn word(&mut self, i: usize) -> u64 {
        self.loaded = self.loaded.saturating_add(1);
        self.place.word(i)
    }

    ghost none = { λ c ready. P.none c.place ready };

    ghost join = { λ c d e first then a b. P.join c.place d.place e.place first then a b };
}

/// The page before any of its words is loaded.
pub fn none_loaded<const N: usize>(page: &PageBuf<N>) -> Counted<&PageBuf<N>>
    requires { IsSize N }
    ensures { length result.place.now ≡ N }
{
    Counted {
        place: in_buffer(page),
        loaded: 0,
    }
}

/// How many keys a search by halves loads at most: of the 28 pairs of a page of 64 words, or of the 252 of one of 512.
pub fn keys_searched(words: usize) -> u32
    ensures few { result ≤ 8 }
{
    if words == WORDS { 5 } else { 8 }
}
