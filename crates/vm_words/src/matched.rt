//! From words to clap's matches.
ghost use Rattle.std.specs.Prelude.{◌≡◌, ◌≢◌, ◌↔◌, IfOk, Err, map, string_bytes, true, false};
ghost use Rattle.clap.specs.Words.{kind_of, subcommand_of, subcommand_rows_of, takes};
ghost use Rattle.vm_words.specs.Apps.{IsApp, vmcache_app};

use crate::WordsFault;
use clap::error::ErrorKind;
use clap::{ArgMatches, Error};

/// What clap finds in the words.
///
/// # Errors
///
/// `Refused` only where clap does not take the words; `Memory` for want of memory alone.
pub fn matches_of<'a>(
    vmcache: clap::Command<'a>,
    words: &'a [String],
) -> Result<ArgMatches<'a>, WordsFault>
    requires { IsApp vmcache_app vmcache }
    ensures taken { IfOk result (λ m. takes vmcache_app (map string_bytes words.entry.now) ≡ true) }
    ensures entered { IfOk result (λ m. subcommand_rows_of m
        ≡ subcommand_of vmcache_app (map string_bytes words.entry.now)) }
    ensures refused { result ≡ Err WordsFault.Refused
        → takes vmcache_app (map string_bytes words.entry.now) ≡ false }
{
    match vmcache.try_get_matches_from(words) {
        Ok(matches) => Ok(matches),
        Err(error) => Err(fault_of(&error)),
    }
}

fn fault_of(error: &Error) -> WordsFault
    ensures memory { (result ≡ WordsFault.Memory) ↔ (kind_of error.now ≡ ErrorKind.OutOfMemory) }
    ensures refused { (result ≡ WordsFault.Refused) ↔ (kind_of error.now ≢ ErrorKind.OutOfMemory) }
{
    if error.kind() == ErrorKind::OutOfMemory {
        WordsFault::Memory
    } else {
        WordsFault::Refused
    }
}
