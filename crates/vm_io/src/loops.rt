// Loops over a host: a whole file read, bytes said.
ghost use Rattle.std.specs.Prelude.{◌≡◌, ◌≢◌, ◌+◌, ◌-◌, ◌≤◌, ◌<◌, ◌^◌, length, vec_len, IfOk, IfErr, OnOk, OnErr};
ghost use Rattle.vm_io.specs.Causes.{AreLater, FailedTake, Rose, SameTakes};
ghost use Rattle.vm_io.specs.Loops.{ReadsMore, ReadsWhole, SaidSome};
ghost use Rattle.vm_io.specs.Shown.{SaidFront};

use crate::host::{Failed, Host};
use std::alloc::{AllocError, Global};
use thiserror::Error;

/// Why a file was not read.
#[derive(Clone, Copy, Debug, Error)]
pub enum ReadFault {
    #[error("the host failed")]
    Failed,
    #[error("out of memory")]
    Memory,
}

/// Why bytes were not said.
#[derive(Clone, Copy, Debug, PartialEq, Eq, Error)]
pub enum SayFault {
    #[error("the host failed")]
    Failed,
    #[error("the host took nothing")]
    Stuck,
}

// Bytes that one call of `take` asks for.
const CHUNK: usize = 65_536;

// So many zeros: room for a piece.
fn zeros(alloc: Global, count: usize) -> Result<Vec<u8>, ReadFault>
    ensures len { IfOk result (λ v. vec_len v ≡ count) }
    ensures memory { IfErr result (λ e. e ≡ ReadFault.Memory) }
{
    match vec![in alloc; 0u8; count] {
        Ok(room) => Ok(room),
        Err(AllocError) => Err(ReadFault::Memory),
    }
}

// Takes the bytes behind those that are there, and appends them.
fn append_more<H: Host>(
    host: &mut H,
    name: &str,
    bytes: &mut Vec<u8>,
    room: &mut [u8],
) -> Result<usize, ReadFault>
    requires { 0 < length room.old }
    ensures more { IfOk result (λ n. ReadsMore (H.shown host.old) name.now bytes.old.items bytes.new.items n) }
    ensures count { IfOk result (λ n. n ≤ length room.old) }
    ensures len { IfOk result (λ n. vec_len bytes.new ≡ vec_len bytes.old + n) }
    ensures keeps { H.shown host.new ≡ H.shown host.old }
    ensures later { H.takes host.old ≤ H.takes host.new }
    ensures failed { result ≡ Err ReadFault.Failed → FailedTake (H.takes host.old) (H.takes host.new) (H.last host.new) name.now }
    ensures steady { result ≢ Err ReadFault.Failed → SameTakes (H.takes host.old) (H.takes host.new) (H.last host.old) (H.last host.new) }
    ensures apart { H.gives host.new ≡ H.gives host.old }
{
    match host.take(name, bytes.len() as u64, room) {
        Ok(count) => match bytes.extend_from_slice(&room[..count]) {
            Ok(()) => Ok(count),
            Err(AllocError) => Err(ReadFault::Memory),
        },
        Err(Failed) => Err(ReadFault::Failed),
    }
}

/// Reads a file to its end, or to `limit + 1` bytes: more than `limit` bytes tell that the file is longer.
pub fn read_whole<H: Host>(
    alloc: Global,
    host: &mut H,
    name: &str,
    limit: usize,
) -> Result<Vec<u8>, ReadFault>
    requires { limit < 2 ^ 32 }
    ensures whole { IfOk result (λ v. ReadsWhole (H.shown host.old) name.now limit v.items) }
    ensures len { IfOk result (λ v. vec_len v ≤ limit + 1) }
    ensures keeps { H.shown host.new ≡ H.shown host.old }
    ensures later { H.takes host.old ≤ H.takes host.new }
    ensures failed { result ≡ Err ReadFault.Failed → FailedTake (H.takes host.old) (H.takes host.new) (H.last host.new) name.now }
    ensures steady { result ≢ Err ReadFault.Failed → SameTakes (H.takes host.old) (H.takes host.new) (H.last host.old) (H.last host.new) }
    ensures apart { H.gives host.new ≡ H.gives host.old }
{
    let mut bytes = Vec::new(alloc);
    let mut space = zeros(alloc, CHUNK)?;
    let chunk = space.as_mut_slice();
    'reading: loop {
        let room = (limit + 1 - bytes.len()).min(CHUNK);
        let count = append_more(host, name, &mut bytes, &mut chunk[..room])?;
        if count == 0 || bytes.len() > limit {
            return Ok(bytes);
        }
    }
}

/// Says all bytes.
#[tactic(auto, unfolding(vm_page::specs::Counts::count_more))]
pub fn say_all<H: Host>(host: &mut H, bytes: &[u8]) -> Result<(), SayFault>
    ensures said { OnOk result (SaidFront (H.shown host.old) (H.shown host.new) bytes.now (length bytes.now)) }
    ensures front { SaidSome (H.shown host.old) (H.shown host.new) bytes.now }
    ensures some { OnErr result (0 < length bytes.now) }
    ensures later { AreLater (H.gives host.old) (H.gives host.new) }
    ensures failed { result ≡ Err SayFault.Failed → Rose (H.gives host.old).failed (H.gives host.new).failed }
    ensures stuck { result ≡ Err SayFault.Stuck → Rose (H.gives host.old).stuck (H.gives host.new).stuck }
    ensures apart { SameTakes (H.takes host.old) (H.takes host.new) (H.last host.old) (H.last host.new) }
{
    let mut at = 0;
    'saying: while at < bytes.len() {
        match host.say(&bytes[at..]) {
            Ok(0) => return Err(SayFault::Stuck),
            Ok(count) => at += count,
            Err(Failed) => return Err(SayFault::Failed),
        }
    }
    Ok(())
}
