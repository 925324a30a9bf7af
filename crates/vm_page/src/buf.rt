//! The page buffer: 64 or 512 words, each of them eight bytes in a file, the greatest byte first.

ghost use Rattle.std.specs.Prelude.{◌≡◌, ℕ, ◌*◌, ◌^◌, ◌<◌, length, replicate, slice_index, slice_set};
ghost use Rattle.vm_page.specs.{Bytes.bytes_of_words, Bytes.words_of_bytes, Sizes.IsSize};

use std::marker::Model;

/// How many words a page has.
pub const WORDS: usize = 64;

/// How many words a large page has.
pub const LARGE: usize = 512;

/// A page of `N` words: contracts see the list of its words.
#[derive(Drop)]
pub struct PageBuf<const N: usize> {
    words: [u64; N],
}

impl<const N: usize> Model for PageBuf<N> {
    ghost use Rattle.std.specs.Prelude.{ℕ, List};

    ghost Value = { List ℕ };

    ghost view = { λ p. p.words };
}

impl<const N: usize> PageBuf<N> {
    /// A page of zeros.
    pub fn zero() -> PageBuf<N>
        requires size { IsSize N }
        ensures { result ≡ replicate N 0 }
    {
        PageBuf { words: [0; N] }
    }

    /// Word `i`.
    pub fn get(&self, i: usize) -> u64
        requires { i < N }
        ensures word { result ≡ slice_index self.now i }
        ensures length { length self.now ≡ N }
        ensures below { (k : ℕ) → slice_index self.now k < 2 ^ 64 }
    {
        word_of(&self.words, i)
    }

    /// Writes word `i`; the other words stay.
    pub fn set(&mut self, i: usize, w: u64)
        requires { i < N }
        ensures words { self.new ≡ slice_set self.old i w }
        ensures length { length self.new ≡ N }
    {
        self.words[i] = w;
    }

    /// Takes over the words of another page.
    pub fn copy_from(&mut self, page: &PageBuf<N>)
        ensures words { self.new ≡ page.now }
        ensures length { length self.new ≡ N }
    {
        self.words = page.words;
    }

    /// Writes the bytes of the words; read back they are the same words.
    pub fn put_bytes(&self, out: &mut [u8])
        requires size { length out.old ≡ 8 * N }
        ensures bytes { out.new ≡ bytes_of_words self.now }
        ensures back { words_of_bytes out.new ≡ self.now }
        ensures length { length self.now ≡ N }
    {
        write_words(&self.words, out);
    }

    /// The page that the bytes stand for; its bytes are the same again.
    pub fn of_slice(bytes: &[u8]) -> PageBuf<N>
        requires sized { IsSize N }
        requires size { length bytes.now ≡ 8 * N }
        ensures words { result ≡ words_of_bytes bytes.now }
        ensures back { bytes_of_words result ≡ bytes.now }
        ensures length { length result ≡ N }
    {
        let mut words = [0; N];
        for i in 0..N {
            let mut word = [0; 8];
            word.copy_from_slice(&bytes[8 * i..8 * i + 8]);
            words[i] = u64::from_be_bytes(word);
        }
        PageBuf { words }
    }
}

// One of the words, each of which is below 2^64.
fn word_of(words: &[u64], i: usize) -> u64
    requires { i < length words.now }
    ensures word { result ≡ slice_index words.now i }
    ensures below { (k : ℕ) → slice_index words.now k < 2 ^ 64 }
{
    words[i]
}

// Writes the bytes of the words.
fn write_words(words: &[u64], bytes: &mut [u8])
    requires { length bytes.old ≡ 8 * length words.now }
    ensures bytes { bytes.new ≡ bytes_of_words words.now }
    ensures back { words_of_bytes bytes.new ≡ words.now }
{
    for i in 0..words.len() {
        bytes[8 * i..8 * i + 8].copy_from_slice(&words[i].to_be_bytes());
    }
}
