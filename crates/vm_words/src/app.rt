//! What clap is told of the commands, by the table of forms.
ghost use Rattle.std.specs.Prelude.{◌≡◌, IfOk, false};
ghost use Rattle.clap.specs.Words.{app_of, rule_of};
ghost use Rattle.vm_words.specs.Apps.{IsApp, IsLocal, app_in, bare_app, rule_in, vmcache_app};

use crate::form::{FormPlace, FormSlot, FormVerb, VERBS, name_of, place_of, slots_of, title_of};
use clap::{Arg, Command};
use std::alloc::{AllocError, Global};

// The argument of a slot.
fn arg_of<'a>(alloc: Global, slot: FormSlot) -> Arg<'a>
    ensures rule { rule_of result ≡ rule_in slot }
    ensures local { result.global ≡ false }
{
    let name = name_of(slot);
    let arg = Arg::new(alloc, name);
    match place_of(slot) {
        FormPlace::Placed => arg.required(true),
        FormPlace::Asked => arg.long(name).required(true),
        FormPlace::Optional => arg.long(name),
    }
}

// A command with its slots.
fn command_of<'a>(alloc: Global, verb: FormVerb) -> Result<Command<'a>, AllocError>
    ensures app { IfOk result (IsApp (app_in verb)) }
    ensures local { IfOk result IsLocal }
{
    let mut command = Command::new(alloc, title_of(verb));
    'slots: for slot in slots_of(verb) {
        command = command.arg(arg_of(alloc, *slot))?;
    }
    Ok(command)
}

// The program, with no command yet.
fn bare<'a>(alloc: Global) -> Command<'a>
    ensures app { app_of result ≡ bare_app }
    ensures local { IsLocal result }
{
    Command::new(alloc, "vmcache")
        .no_binary_name(true)
        .subcommand_required(true)
        .disable_help_subcommand(true)
}

/// The program with its commands.
pub fn vmcache<'a>(alloc: Global) -> Result<Command<'a>, AllocError>
    ensures { IfOk result (IsApp vmcache_app) }
{
    let mut vmcache = bare(alloc);
    'verbs: for verb in VERBS.iter() {
        vmcache = vmcache.subcommand(command_of(alloc, *verb)?)?;
    }
    Ok(vmcache)
}
