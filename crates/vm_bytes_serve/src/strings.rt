//! Each key that calls name, or that windows show, is a string of at most 64 bytes, as each value of its type is. Nothing is looked at: a walk over
//! the keys says it of all of them.

ghost use Rattle.std.specs.List.{AllByRecursion};
ghost use Rattle.vm_bytes_form.specs.{Forms.AreKeys, Strings.IsString};
ghost use Rattle.vm_bytes_laws.specs.KeyHistory.{key_called, ShowsKeys};
ghost use Rattle.vm_bytes_laws.specs.declared.call.KeyReply.TheVariants.{Win};
ghost use Rattle.vm_bytes_history.specs.Heard.{AskStrings};
ghost use Rattle.vm_serve.specs.from_vm_drive.Drives.{items_of};
ghost use Rattle.vm_bytes_serve.specs.KeyServing.{HoldsStrings};

use vm_bytes_history::drive::KeyReplies;
use vm_bytes_laws::call::KeyCall;
use vm_bytes_node::in_range;
use vm_bytes_node::window::{KeyPair, KeyWindow};

fn pairs_in_range(pairs: &[KeyPair])
    ensures { AreKeys pairs.now }
{
    'pairs: for pair in pairs {
        in_range(&pair.key);
    }
}

fn window_in_range(window: &KeyWindow)
    ensures { ShowsKeys (Win window.now) }
{
    pairs_in_range(window.pairs.as_slice());
    if let Some(bound) = &window.bound {
        in_range(bound);
    }
}

fn windows_in_range(windows: &[KeyWindow])
    ensures { AllByRecursion (λ window. ShowsKeys (Win window)) windows.now }
{
    'windows: for window in windows {
        window_in_range(window);
    }
}

/// Each key that the windows show is a string.
pub(crate) fn shown_in_range(kept: &[KeyReplies])
    ensures { AllByRecursion HoldsStrings kept.now }
{
    'kept: for answers in kept {
        windows_in_range(answers.windows.as_slice());
    }
}

fn call_in_range(call: &KeyCall)
    ensures { IsString 64 (key_called call.now) }
{
    match call {
        KeyCall::Get { key }
        | KeyCall::Put { key, .. }
        | KeyCall::Del { key }
        | KeyCall::Window { start: key, .. }
        | KeyCall::Swap { key, .. } => in_range(key),
    }
}

fn calls_in_range(calls: &[KeyCall])
    ensures { AllByRecursion (λ call. IsString 64 (key_called call)) calls.now }
{
    'calls: for call in calls {
        call_in_range(call);
    }
}

/// Each key that the calls name is a string.
pub(crate) fn asked_in_range(lists: &[Vec<KeyCall>])
    ensures { AskStrings (items_of lists.now) }
{
    'lists: for calls in lists {
        calls_in_range(calls.as_slice());
    }
}
