//! The command line: from the words after the program's name to a command.
#![tactic(auto)]

ghost use Rattle.std.specs.Prelude.{◌≡◌, IfOk, Err, map, string_bytes};
ghost use Rattle.vm_words.specs.Commands.{IsCommand, IsNoCommand, WhyRefused};

mod app;
pub mod form;
pub mod laws;
mod matched;
mod reader;
mod value;

use std::alloc::{AllocError, Global};
use thiserror::Error;
use vm_image::PlannedFault;

/// What the words ask for.
#[derive(Drop)]
pub enum Command<'a> {
    Run(Run<'a>),
    Make(Make<'a>),
    Check(Check<'a>),
    Churn(Churn),
    Replay(Replay<'a>),
    Migrate(Migrate<'a>),
    Serve(Serve<'a>),
    MakeBytes(MakeBytes<'a>),
}

/// `run IMAGE SCRIPT --workers W --frames F [--keep FILE] [--fail P:N,..] [--first-version V]`
#[derive(Drop)]
pub struct Run<'a> {
    /// The name of the file with the image.
    pub image: &'a str,
    /// The name of the file with the script.
    pub script: &'a str,
    /// How many workers.
    pub workers: u64,
    /// How many frames.
    pub frames: u64,
    /// What may be left out.
    pub options: Options<'a>,
}

/// The options of a run, each of which may be left out.
#[derive(Drop)]
pub struct Options<'a> {
    /// `--keep FILE`: the name of the file that the pages go to at the end.
    pub keep: Option<&'a str>,
    /// `--fail P:N,..`: the calls of blocks that fail. There is no entry where the option is left out, and one at least
    /// where it is not.
    pub fail: Vec<PlannedFault>,
    /// `--first-version V`: the version at which each page begins.
    pub first_version: Option<u64>,
}

/// `make FILE PAGES N SEED [--words 64|512]`
#[derive(Clone, Copy)]
pub struct Make<'a> {
    /// The name of the file that is written.
    pub file: &'a str,
    /// How many pages it has.
    pub pages: u64,
    /// How many pairs its tree holds.
    pub pairs: u64,
    /// The first of the pairs' keys, from which the others follow.
    pub seed: u64,
    /// `--words N`: how many words a page has.
    pub words: Option<u64>,
}

/// `check FILE`
#[derive(Clone, Copy)]
pub struct Check<'a> {
    /// The name of the file with the image.
    pub file: &'a str,
}

/// `churn N SEED --workers W --frames F [--words 64|512]`
#[derive(Clone, Copy)]
pub struct Churn {
    /// How many pairs the tree begins with.
    pub pairs: u64,
    /// The first of the keys, from which the others follow.
    pub seed: u64,
    /// How many workers.
    pub workers: u64,
    /// How many frames.
    pub frames: u64,
    /// `--words N`: how many words a page has.
    pub words: Option<u64>,
}

/// `replay FILE`
#[derive(Clone, Copy)]
pub struct Replay<'a> {
    /// The name of the file with the events.
    pub file: &'a str,
}

/// `migrate IN OUT PAGES`
#[derive(Clone, Copy)]
pub struct Migrate<'a> {
    /// The name of the file whose pairs are taken.
    pub input: &'a str,
    /// The name of the file that is written.
    pub output: &'a str,
    /// How many pages it has.
    pub pages: u64,
}

/// `serve FILE SCRIPT --workers W --frames F`
#[derive(Clone, Copy)]
pub struct Serve<'a> {
    /// The name of the page file that is worked on.
    pub file: &'a str,
    /// The name of the file with the script.
    pub script: &'a str,
    /// How many workers.
    pub workers: u64,
    /// How many frames.
    pub frames: u64,
}

/// `make-bytes FILE PAGES`
#[derive(Clone, Copy)]
pub struct MakeBytes<'a> {
    /// The name of the file that is written.
    pub file: &'a str,
    /// How many pages it has.
    pub pages: u64,
}

/// Why the words gave no command.
#[derive(Clone, Copy, Debug, PartialEq, Eq, Error)]
pub enum WordsFault {
    /// They are none of the commands, a number word is no canonical decimal below 2^64, or the word of `--fail` is no list of
    /// entries `P:N`. A wish for help is refused too.
    #[error("the words are no command")]
    Refused,
    #[error("out of memory")]
    Memory,
}

/// Reads the words after the program's name. A number word has digits alone, no leading zero but in
/// `0`, and is at most 2^64 - 1; the word of `--fail` is entries `P:N` of two numbers each, with commas between them.
///
/// # Errors
///
/// `Refused` where clap does not take the words, else where one of them is none of its slot's kind; `Memory` for
/// want of memory alone.
pub fn command_of<'a>(alloc: Global, words: &'a [String]) -> Result<Command<'a>, WordsFault>
    ensures command { IfOk result (IsCommand (map string_bytes words.entry.now)) }
    ensures refused { result ≡ Err WordsFault.Refused
        → IsNoCommand (map string_bytes words.entry.now) }
    ensures why { result ≡ Err WordsFault.Refused
        → WhyRefused (map string_bytes words.entry.now) }
{
    let vmcache = match app::vmcache(alloc) {
        Ok(vmcache) => vmcache,
        Err(AllocError) => return Err(WordsFault::Memory),
    };
    let matches = matched::matches_of(vmcache, words)?;
    match reader::command_in(alloc, &matches) {
        Ok(Some(command)) => Ok(command),
        Ok(None) => Err(WordsFault::Refused),
        Err(AllocError) => Err(WordsFault::Memory),
    }
}
