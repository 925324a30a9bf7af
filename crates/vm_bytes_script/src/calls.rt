//! Calls with byte keys, as a script's lines have them.

ghost use Rattle.std.specs.Prelude.{◌≡◌, ◌≤◌, All, false, IfOk, length, map};
ghost use Rattle.vm_script.specs.Orders.{most_lines};
ghost use Rattle.vm_bytes_script.specs.KeyScripts.{key_grammar, ReadsKeyScript};
ghost use Rattle.vm_bytes_script.specs.Readings.{ReadsKeyPair};

use crate::key::key_of;
use std::alloc::Global;
use vm_bytes_laws::call::KeyCall;
use vm_map::key::Key;
use vm_map::window::MOST_PAIRS;
use vm_script::number::number_of;
use vm_script::script::{CallSyntax, ScriptFault, cut, read_lists};

/// The calls with byte keys.
pub struct KeyCalls;

impl CallSyntax for KeyCalls {
    type Call = KeyCall;

    ghost grammar = { key_grammar };

    fn call_of(bytes: &[u8]) -> Option<KeyCall> {
        let (verb, rest) = cut(bytes, b' ')?;
        if verb == b"get".as_slice() {
            let key = key_of(rest)?;
            return Some(KeyCall::Get { key });
        }
        if verb == b"del".as_slice() {
            let key = key_of(rest)?;
            return Some(KeyCall::Del { key });
        }
        if verb == b"put".as_slice() {
            let (key, value) = pair_of(rest)?;
            return Some(KeyCall::Put { key, value });
        }
        if verb == b"scan".as_slice() {
            let (start, most) = pair_of(rest)?;
            if 1 <= most && most <= MOST_PAIRS as u64 {
                return Some(KeyCall::Window {
                    start,
                    most: most as u32,
                });
            }
        }
        None
    }

    fn is_range(_call: &KeyCall) -> bool {
        false
    }

    fn texts_tell_calls() {}
}

// A key and a number with a space between them.
fn pair_of(bytes: &[u8]) -> Option<(Key, u64)>
    ensures { ReadsKeyPair bytes.now result }
{
    let Some((key, number)) = cut(bytes, b' ') else {
        return None;
    };
    let Some(key) = key_of(key) else {
        return None;
    };
    let Some(number) = number_of(number) else {
        return None;
    };
    Some((key, number))
}

/// Reads a script of calls with byte keys: `get K`, `put K V`, `del K` or `scan K N`, a key as `key_of` reads it, V a canonical decimal below
/// 2^64, N one from 1 to 28.
///
/// # Errors
/// Those of `read_lists`.
pub fn read_key_script(
    alloc: Global,
    bytes: &[u8],
    workers: u32,
) -> Result<Vec<Vec<KeyCall>>, ScriptFault>
    ensures reading { ReadsKeyScript (λ v. map (λ calls. calls.items) v.items) workers bytes.now result }
    ensures count { IfOk result (λ v. length v.items ≡ workers) }
    ensures few { IfOk result (λ v. All (λ calls. length calls.items ≤ most_lines) v.items) }
{
    read_lists::<KeyCalls>(alloc, bytes, workers)
}
