//! A case, read from its line in the list.

ghost use Rattle.std.specs.Prelude.{◌≤◌};

use std::alloc::Global;
use vm_script::number::number_of;

/// A case could not be played: its line is none, a file is missing, nothing can be printed, or there is no memory.
pub struct Unplayed;

/// A command on one file. Behind the command's name and the file's there are words that are changed in the file, as triples of a page, a
/// word of it, and what stands there.
#[derive(Drop)]
pub struct Case<'a> {
    pub command: &'a str,
    pub file: &'a str,
    changes: Vec<u64>,
}

impl<'a> Case<'a> {
    /// Reads a line.
    pub fn of(alloc: Global, line: &'a str) -> Result<Case<'a>, Unplayed> {
        let mut words = line.split_whitespace();
        let (Some(command), Some(file)) = (words.next(), words.next()) else {
            return Err(Unplayed);
        };
        let mut changes = Vec::new(alloc);
        for word in words {
            let Some(number) = number_of(word.as_bytes()) else {
                return Err(Unplayed);
            };
            if changes.push(number).is_err() {
                return Err(Unplayed);
            }
        }
        Ok(Case {
            command,
            file,
            changes,
        })
    }

    /// Makes the changes in the bytes of the file.
    pub fn change(&self, bytes: &mut [u8]) {
        let words = words_in(bytes);
        for change in self.changes.chunks_exact(3) {
            set_word(bytes, words, change[0], change[1], change[2]);
        }
    }
}

/// How many words a page of the file has.
fn words_in(bytes: &[u8]) -> u64
    ensures { result ≤ 512 }
{
    if bytes.starts_with(b"VMCACHE2") || bytes.starts_with(b"VMCBYTE1") {
        512
    } else {
        64
    }
}

/// Sets a word of a page of so many words, where the bytes reach so far.
fn set_word(bytes: &mut [u8], words: u64, page: u64, word: u64, value: u64)
    requires { words ≤ 512 }
{
    if page < 64 && word < words {
        let at = (8 * (words * page + word)) as usize;
        if at + 8 <= bytes.len() {
            bytes[at..at + 8].copy_from_slice(&value.to_be_bytes());
        }
    }
}
