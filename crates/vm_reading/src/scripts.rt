//! Scripts: each worker's calls, with words as keys or with byte keys.

ghost use Rattle.std.specs.Prelude.{◌≡◌, ◌≤◌, length, IfOk};
ghost use Rattle.vm_endings.specs.from_vm_bytes_drive.Drives.{AreKeyAskable};
ghost use Rattle.vm_endings.specs.from_vm_drive.Drives.{AreAskable, AreFew, items_of};
ghost use Rattle.vm_endings.specs.{Endings.HasReadCause, Outside.Outside, Outside.Remains, Outside.with_shown, Outside.with_unread};
ghost use Rattle.vm_reading.specs.Readings.{ReadsCalls, ReadsCallsIn, ReadsKeyCalls};

use std::alloc::Global;
use vm_bytes_laws::call::KeyCall;
use vm_bytes_script::calls::KeyCalls;
use vm_endings::stop::{Lines, Stop};
use vm_endings::undone::Undone;
use vm_io::host::Host;
use vm_io::loops::{ReadFault, read_whole};
use vm_map::call::Call;
use vm_script::calls::WordCalls;
use vm_script::script::{CallSyntax, MOST_BYTES, ScriptFault, read_lists};

// Reads a script of calls of a kind: those of each worker.
fn calls_in<'a, K: CallSyntax, H: Host>(
    alloc: Global,
    host: &mut H,
    name: &'a str,
    workers: u32,
) -> Result<Vec<Vec<K::Call>>, Undone<Stop<'a>>>
    ensures reads { (outside : Outside) (left : Remains) → ReadsCallsIn K.grammar (λ v. items_of v.items) (with_shown outside (H.shown host.old)) (with_unread left (H.last host.new)) name.now workers result }
    ensures few { IfOk result (λ v. AreFew (items_of v.items)) }
    ensures workers { IfOk result (λ v. length v.items ≡ workers) }
    ensures shown { H.shown host.new ≡ H.shown host.old }
    ensures gives { H.gives host.new ≡ H.gives host.old }
    ensures later { H.takes host.old ≤ H.takes host.new }
    ensures cause { HasReadCause (H.takes host.old) (H.takes host.new) result }
{
    match read_whole(alloc, host, name, MOST_BYTES) {
        Ok(script) => match read_lists::<K>(alloc, script.as_slice(), workers) {
            Ok(lists) => Ok(lists),
            Err(ScriptFault::Long) => Err(Undone::Stopped(Stop::Long(Lines::Script))),
            Err(ScriptFault::Line(line)) => {
                Err(Undone::Stopped(Stop::Line(Lines::Script, line)))
            }
            Err(ScriptFault::Memory) => Err(Undone::Memory),
        },
        Err(ReadFault::Failed) => Err(Undone::Stopped(Stop::Unread(name))),
        Err(ReadFault::Memory) => Err(Undone::Memory),
    }
}

/// Reads a script of calls with words as keys: those of each worker.
pub fn read_calls<'a, H: Host>(
    alloc: Global,
    host: &mut H,
    name: &'a str,
    workers: u32,
) -> Result<Vec<Vec<Call>>, Undone<Stop<'a>>>
    ensures reads { (outside : Outside) (left : Remains) → ReadsCalls (λ v. items_of v.items) (with_shown outside (H.shown host.old)) (with_unread left (H.last host.new)) name.now workers result }
    ensures few { IfOk result (λ v. AreFew (items_of v.items)) }
    ensures askable { IfOk result (λ v. AreAskable (items_of v.items)) }
    ensures workers { IfOk result (λ v. length v.items ≡ workers) }
    ensures shown { H.shown host.new ≡ H.shown host.old }
    ensures gives { H.gives host.new ≡ H.gives host.old }
    ensures later { H.takes host.old ≤ H.takes host.new }
    ensures cause { HasReadCause (H.takes host.old) (H.takes host.new) result }
{
    calls_in::<WordCalls, H>(alloc, host, name, workers)
}

/// Reads a script of calls with byte keys: those of each worker.
pub fn read_key_calls<'a, H: Host>(
    alloc: Global,
    host: &mut H,
    name: &'a str,
    workers: u32,
) -> Result<Vec<Vec<KeyCall>>, Undone<Stop<'a>>>
    ensures reads { (outside : Outside) (left : Remains) → ReadsKeyCalls (λ v. items_of v.items) (with_shown outside (H.shown host.old)) (with_unread left (H.last host.new)) name.now workers result }
    ensures few { IfOk result (λ v. AreFew (items_of v.items)) }
    ensures askable { IfOk result (λ v. AreKeyAskable (items_of v.items)) }
    ensures workers { IfOk result (λ v. length v.items ≡ workers) }
    ensures shown { H.shown host.new ≡ H.shown host.old }
    ensures gives { H.gives host.new ≡ H.gives host.old }
    ensures later { H.takes host.old ≤ H.takes host.new }
    ensures cause { HasReadCause (H.takes host.old) (H.takes host.new) result }
{
    calls_in::<KeyCalls, H>(alloc, host, name, workers)
}
