//! The reader of a command line: from what clap found to a command, by the table of forms.

ghost use Rattle.std.specs.Prelude.{◌≡◌, IfOk, MatchOption, Some, None, option_map};
ghost use Rattle.clap.specs.Words.{first_of, found_of, rows_of, subcommand_rows_of};
ghost use Rattle.vm_words.specs.Commands.{ReadsEntered, line_of};
ghost use Rattle.vm_words.specs.Forms.{slot_text, slots_in, verb_at};
ghost use Rattle.vm_words.specs.Values.{AreMeant, ReadsSlot, ReadsSlots, meaning_of, meanings_of};

use crate::form::{
    FormPlace, FormSlot, FormVerb, VERBS, kind_of, name_of, place_of, slots_of, title_of,
};
use crate::value::{Value, name, name_if_given, number, number_if_given, plan, value_of};
use crate::{Check, Churn, Command, Make, MakeBytes, Migrate, Options, Replay, Run, Serve};
use clap::ArgMatches;
use std::alloc::{AllocError, Global};

// The command with this name.
fn verb_of(word: &str) -> Option<FormVerb>
    ensures { result ≡ verb_at word.now }
{
    'verbs: for verb in VERBS.iter() {
        if title_of(*verb) == word {
            return Some(*verb);
        }
    }
    None
}

// The first value of an argument.
fn text_at<'a>(matches: &ArgMatches<'a>, id: &str) -> Option<&'a str>
    ensures { MatchOption result (first_of id.now (rows_of (found_of matches.now)) ≡ None)
        (λ text. first_of id.now (rows_of (found_of matches.now)) ≡ Some text.now) }
{
    matches.get_str(id)
}

// What the word of a slot says; no value where it has to be there and is not, or is none of the slot's kind.
fn value_at<'a>(
    alloc: Global,
    matches: &ArgMatches<'a>,
    slot: FormSlot,
) -> Result<Option<Value<'a>>, AllocError>
    ensures { IfOk result (λ value. ReadsSlot slot (first_of (slot_text slot) (rows_of (found_of matches.now))) (option_map meaning_of value)) }
{
    if let Some(text) = text_at(matches, name_of(slot)) {
        return value_of(alloc, kind_of(slot), text);
    }
    match place_of(slot) {
        FormPlace::Placed | FormPlace::Asked => Ok(None),
        FormPlace::Optional => Ok(Some(Value::Absent)),
    }
}

// What the words of the slots say, in order.
fn values_of<'a>(
    alloc: Global,
    matches: &ArgMatches<'a>,
    slots: &[FormSlot],
) -> Result<Option<Vec<Value<'a>>>, AllocError>
    ensures { IfOk result (λ values. ReadsSlots slots.now (rows_of (found_of matches.now)) (option_map (λ v. meanings_of v.items) values)) }
{
    let mut values = Vec::new(alloc);
    'slots: for slot in slots {
        match value_at(alloc, matches, *slot)? {
            Some(value) => values.push(value)?,
            None => return Ok(None),
        }
    }
    Ok(Some(values))
}

// The command whose slots say this.
fn command_with<'a>(alloc: Global, verb: FormVerb, values: Vec<Value<'a>>) -> Command<'a>
    requires { AreMeant (slots_in verb) (meanings_of values.items) }
    ensures { line_of result ≡ (verb, meanings_of values.entry.items) }
{
    let mut values = values.into_iter();
    match verb {
        FormVerb::Run => Command::Run(Run {
            image: name(&mut values),
            script: name(&mut values),
            workers: number(&mut values),
            frames: number(&mut values),
            options: Options {
                keep: name_if_given(&mut values),
                fail: plan(alloc, &mut values),
                first_version: number_if_given(&mut values),
            },
        }),
        FormVerb::Make => Command::Make(Make {
            file: name(&mut values),
            pages: number(&mut values),
            pairs: number(&mut values),
            seed: number(&mut values),
            words: number_if_given(&mut values),
        }),
        FormVerb::Check => Command::Check(Check {
            file: name(&mut values),
        }),
        FormVerb::Churn => Command::Churn(Churn {
            pairs: number(&mut values),
            seed: number(&mut values),
            workers: number(&mut values),
            frames: number(&mut values),
            words: number_if_given(&mut values),
        }),
        FormVerb::Replay => Command::Replay(Replay {
            file: name(&mut values),
        }),
        FormVerb::Migrate => Command::Migrate(Migrate {
            input: name(&mut values),
            output: name(&mut values),
            pages: number(&mut values),
        }),
        FormVerb::Serve => Command::Serve(Serve {
            file: name(&mut values),
            script: name(&mut values),
            workers: number(&mut values),
            frames: number(&mut values),
        }),
        FormVerb::MakeBytes => Command::MakeBytes(MakeBytes {
            file: name(&mut values),
            pages: number(&mut values),
        }),
    }
}

// The name of the command that was entered, and its matches.
fn entered<'a, 'b>(matches: &'b ArgMatches<'a>) -> Option<(&'a str, &'b ArgMatches<'a>)>
    ensures { option_map (λ p. (p.0.now, rows_of (found_of p.1.now))) result
        ≡ subcommand_rows_of matches.now }
{
    matches.subcommand()
}

/// The command that the matches name, where each word is of its slot's kind.
///
/// # Errors
///
/// `AllocError` for want of memory alone.
pub fn command_in<'a>(
    alloc: Global,
    matches: &ArgMatches<'a>,
) -> Result<Option<Command<'a>>, AllocError>
    ensures { IfOk result (ReadsEntered (subcommand_rows_of matches.now)) }
{
    let Some((word, inner)) = entered(matches) else {
        return Ok(None);
    };
    let Some(verb) = verb_of(word) else {
        return Ok(None);
    };
    match values_of(alloc, inner, slots_of(verb))? {
        Some(values) => Ok(Some(command_with(alloc, verb, values))),
        None => Ok(None),
    }
}
