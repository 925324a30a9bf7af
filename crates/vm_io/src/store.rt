// Files and what was said, in memory that is taken when they are made: no later call takes more.
ghost use Rattle.std.specs.Prelude.{◌≡◌, ◌+◌, ◌-◌, ◌≤◌, ◌<◌, ◌++◌, [], true, false, map, length, All, vec_len, vec_capacity, Some, None, IfOk, IsTrue, MatchOption, option_map, string_bytes};
ghost use Rattle.vm_io.specs.InMemory.{bytes_at, named, shown_in, is_within, can_hold, IsPlace};
ghost use Rattle.vm_io.specs.Shown.{HoldsJust};

use std::alloc::{AllocError, Global};

/// A file in memory.
#[derive(Drop)]
pub struct MemFile {
    pub name: String,
    pub bytes: Vec<u8>,
}

/// Files, and what was said, each with room for so many bytes.
#[derive(Drop)]
pub struct Store {
    pub files: Vec<MemFile>,
    pub said: Vec<u8>,
    pub room: usize,
    ghost said_room: { room ≤ vec_capacity said },
    ghost file_room: { All (λ file. room ≤ vec_capacity file.bytes) files.items },
}

// Bytes in a vector that has room for so many, which may be more than that many already.
fn with_room(alloc: Global, bytes: &[u8], room: usize) -> Result<Vec<u8>, AllocError>
    ensures items { IfOk result (λ v. v.items ≡ bytes.now) }
    ensures capacity { IfOk result (λ v. room ≤ vec_capacity v) }
{
    let mut kept = Vec::with_capacity(alloc, room.max(bytes.len()))?;
    kept.extend_from_slice(bytes)?;
    Ok(kept)
}

// The place of the first file with a name.
fn place_of(files: &[MemFile], name: &str) -> Option<usize>
    ensures { MatchOption result (bytes_at files.now name.now ≡ None) (IsPlace files.now name.now) }
{
    'files: for (i, file) in files.iter().enumerate() {
        if file.name.as_str() == name {
            return Some(i);
        }
    }
    None
}

// Whether more bytes behind those that are kept are within the room.
fn has_room(kept: usize, more: usize, room: usize) -> bool
    ensures { result ≡ is_within kept more room }
{
    kept <= room && more <= room - kept
}

// Puts bytes that fit in the place of those that are there.
fn put_over(bytes: &mut Vec<u8>, more: &[u8])
    requires { length more.now ≤ vec_capacity bytes.old }
    ensures bytes { bytes.new.items ≡ more.now }
    ensures capacity { vec_capacity bytes.old ≤ vec_capacity bytes.new }
{
    bytes.clear();
    append(bytes, more);
}

// Appends a piece that fits.
fn append(bytes: &mut Vec<u8>, piece: &[u8])
    requires { vec_len bytes.old + length piece.now ≤ vec_capacity bytes.old }
    ensures bytes { bytes.new.items ≡ bytes.old.items ++ piece.now }
    ensures capacity { vec_capacity bytes.old ≤ vec_capacity bytes.new }
{
    match bytes.extend_from_slice(piece) {
        Ok(()) => (),
        Err(AllocError) => unreachable!(),
    }
}

impl Store {
    /// Takes all memory that the store will ever need.
    pub fn new(
        alloc: Global,
        files: Vec<(String, Vec<u8>)>,
        room: usize,
    ) -> Result<Store, AllocError>
        ensures files { IfOk result (λ store. map named store.files.items ≡ map (λ file. (string_bytes file.0, file.1.items)) files.items) }
        ensures said { IfOk result (λ store. store.said.items ≡ []) }
        ensures room { IfOk result (λ store. store.room ≡ room) }
    {
        let mut kept = Vec::new(alloc);
        'files: for (name, bytes) in files {
            let bytes = with_room(alloc, bytes.as_slice(), room)?;
            kept.push(MemFile { name, bytes })?;
        }
        Ok(Store {
            files: kept,
            said: with_room(alloc, &[], room)?,
            room,
        })
    }

    /// The bytes of a file.
    pub fn file(&self, name: &str) -> Option<&[u8]>
        ensures { option_map (λ b. b.now) result ≡ bytes_at self.now.files.items name.now }
    {
        match place_of(&self.files, name) {
            Some(i) => Some(self.files[i].bytes.as_slice()),
            None => None,
        }
    }

    /// Makes the file hold just these bytes where it is there and they have room, and answers whether it did.
    pub fn replace(&mut self, name: &str, bytes: &[u8]) -> bool
        ensures exact { result ≡ can_hold (bytes_at self.old.files.items name.now) bytes.now self.old.room }
        ensures held { IsTrue result → HoldsJust (shown_in self.old.files.items self.old.said.items) (shown_in self.new.files.items self.new.said.items) name.now bytes.now }
        ensures refused { result ≡ false → self.new ≡ self.old }
        ensures room { self.new.room ≡ self.old.room }
    {
        let Some(i) = place_of(&self.files, name) else {
            return false;
        };
        if !has_room(0, bytes.len(), self.room) {
            return false;
        }
        put_over(&mut self.files[i].bytes, bytes);
        true
    }

    /// Says a whole piece where there is room, and answers whether it did.
    pub fn say(&mut self, piece: &[u8]) -> bool
        ensures exact { result ≡ is_within (length self.old.said.items) (length piece.now) self.old.room }
        ensures said { IsTrue result → self.new.said.items ≡ self.old.said.items ++ piece.now }
        ensures refused { result ≡ false → self.new.said ≡ self.old.said }
        ensures files { self.new.files ≡ self.old.files }
        ensures room { self.new.room ≡ self.old.room }
    {
        if !has_room(self.said.len(), piece.len(), self.room) {
            return false;
        }
        append(&mut self.said, piece);
        true
    }
}
