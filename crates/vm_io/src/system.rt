// The real files and standard output: the edge whose bytes no contract tells, kept to a few lines.
ghost use Rattle.std.specs.Prelude.{◌+◌, ◌-◌, ◌≤◌, ◌<◌, length, IfOk, None};
ghost use Rattle.vm_io.specs.Edge.{CountsNone};

use crate::faults::Faults;
use crate::host::{Failed, Host};
use crate::replacing::replace_file;
use std::alloc::Global;
use std::fs::File;
use std::io::{self, ErrorKind, Read, Seek, SeekFrom};
use std::rt::Files;
use std::sync::Wait;
use std::thread;

// The file that was read last, and up to where.
#[derive(Drop)]
struct Reading<F: Drop> {
    name: String,
    at: u64,
    file: F,
}

/// The real files and standard output. It tells no bytes.
#[derive(Drop)]
pub struct StdHost<R: Files + Print + Wait + Drop> {
    rt: R,
    alloc: Global,
    faults: Faults,
    reading: Option<Reading<R::File>>,
}

// Opens a file at an offset. Where that is the start, nothing is sought, which a pipe can't do.
fn open_at<R: Files>(rt: &R, alloc: Global, name: &str, at: u64) -> io::Result<Reading<R::File>> {
    let mut file = File::open(rt, name)?;
    if at > 0 {
        file.seek(SeekFrom::Start(at))?;
    }
    Ok(Reading {
        name: String::from_str(alloc, name)?,
        at,
        file,
    })
}

// Reads on where the last call of this file ended, so that a file is read as one file; else opens it anew. At its end, or where it fails, it is closed.
fn read_on<R: Files>(
    rt: &R,
    alloc: Global,
    last: &mut Option<Reading<R::File>>,
    name: &str,
    at: u64,
    into: &mut [u8],
) -> io::Result<usize>
    ensures bound { IfOk result (λ n. n ≤ length into.new) }
{
    let mut reading = match last.take() {
        Some(reading) => {
            if reading.at == at && reading.name.as_str() == name {
                reading
            } else {
                open_at(rt, alloc, name, at)?
            }
        }
        None => open_at(rt, alloc, name, at)?,
    };
    let count = reading.file.read(into)?;
    if count > 0 {
        reading.at = reading.at.saturating_add(count as u64);
        *last = Some(reading);
    }
    Ok(count)
}

// Writes the front of a piece to standard output, and waits where that takes nothing yet.
fn write_front<R: Print + Wait>(rt: &R, piece: &[u8]) -> io::Result<usize>
    ensures bound { IfOk result (λ n. n ≤ length piece.now) }
{
    for _ in rt.forever() {
        match rt.write_some(piece) {
            Ok(count) => return Ok(count),
            Err(e) if e.kind() == ErrorKind::WouldBlock => thread::yield_now(),
            Err(e) => return Err(e),
        }
    }
    unreachable!()
}

impl<R: Files + Print + Wait + Drop> StdHost<R> {
    /// A host over a runtime, with nothing counted.
    pub fn new(rt: R, alloc: Global) -> Self
        ensures { CountsNone result }
    {
        StdHost {
            rt,
            alloc,
            faults: Faults::new(),
            reading: None,
        }
    }
}

impl<R: Files + Print + Wait + Drop> Host for StdHost<R> {
    ghost shown = { λ h. None };

    ghost takes = { λ h. h.faults.takes };

    ghost gives = { λ h. h.faults.gives };

    ghost last = { λ h. h.faults.last.bytes };

    fn take(&mut self, name: &str, at: u64, into: &mut [u8]) -> Result<usize, Failed> {
        match read_on(&self.rt, self.alloc, &mut self.reading, name, at, into) {
            Ok(count) => Ok(count),
            Err(_) => Err(self.faults.fail_take(name)),
        }
    }

    fn replace(&mut self, name: &str, bytes: &[u8]) -> Result<(), Failed> {
        self.reading = None;
        match replace_file(&self.rt, self.alloc, name, bytes) {
            Ok(()) => Ok(()),
            Err(_) => Err(self.faults.fail_give()),
        }
    }

    fn say(&mut self, piece: &[u8]) -> Result<usize, Failed> {
        match write_front(&self.rt, piece) {
            Ok(count) => Ok(self.faults.taken(count, piece.len())),
            Err(_) => Err(self.faults.fail_give()),
        }
    }

    fn faults(&self) -> u64 {
        self.faults.total()
    }
}
