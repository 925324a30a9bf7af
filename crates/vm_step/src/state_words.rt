// State words that a step puts in the place of another.
ghost use Rattle.std.specs.Prelude.{◌≡◌};
ghost use Rattle.vm_event.specs.Prelude.{MayShare, one_share_more, state_of, version_of, word_of};

use vm_event::StateWord;

/// One share, in a state word: the version stands below.
pub const SHARE: u64 = 1 << 56;

/// The word of a page with this state, at the version of `word`.
pub fn word_with(state: u8, word: u64) -> u64
    ensures { result ≡ word_of state (version_of word) }
{
    StateWord::of(state, StateWord::version(word))
}

/// The word with one share more, at the version of `word`: the first share takes a mark away.
pub fn shared_word(word: u64) -> u64
    requires { MayShare word }
    ensures { result ≡ word_of (one_share_more (state_of word)) (version_of word) }
{
    let state = StateWord::state(word);
    if state == StateWord::MARKED {
        word_with(1, word)
    } else {
        word_with(state + 1, word)
    }
}
