//! A line of a script of calls on a small tree, and the texts of what calls answer.
ghost use Rattle.std.specs.Prelude.{◌≤◌};

use std::alloc::Global;
use std::test::Fail;
use vm_map::call::{Reply, Swap};
use vm_map::window::Bound;
use vm_tree_callers::calls::{LARGE_MAGIC, MAGIC};
use vm_tree_callers::tree_read::TryRead;
use vm_tree_callers::tree_rule::TreeFault;
use vm_tree_callers::tree_write::{TrySplit, TryWrite};

/// Calls that wait.
#[derive(Drop)]
pub(crate) enum WaitingCalls {
    Put,
    Del,
    Get,
    Swap,
}

/// Calls of each key from one on and below another.
#[derive(Drop)]
pub(crate) enum KeyRanges {
    Put,
    Del,
    Get,
    Lack,
}

/// Looks, and tries of a put, on pages of any size.
#[derive(Drop)]
pub(crate) enum PageLooks {
    Page,
    Free,
    Window,
    TryPut,
}

/// Tries of calls, each once.
#[derive(Drop)]
pub(crate) enum SingleTries {
    Get,
    Window,
    Del,
    Swap,
    Split,
}

/// Looks at the state words of pages of 64 words, and a lock and release of one.
#[derive(Drop)]
pub(crate) enum StateLooks {
    Four,
    Unlocked,
    Evicted,
    Touch,
}

/// What a line does.
#[derive(Drop)]
pub(crate) enum LineKind {
    Waits(WaitingCalls),
    Ranges(KeyRanges),
    Looks(PageLooks),
    Tries(SingleTries),
    States(StateLooks),
}

/// A line: what it does, the numbers for that, and what is to be told of it.
#[derive(Drop)]
pub(crate) struct ScriptLine<'a> {
    pub(crate) kind: LineKind,
    numbers: Vec<u64>,
    line: &'a str,
    told: &'a str,
}

/// What the first word of a line stands for.
fn kind_of(word: &str) -> Result<LineKind, Fail> {
    Ok(match word {
        "put" => LineKind::Waits(WaitingCalls::Put),
        "del" => LineKind::Waits(WaitingCalls::Del),
        "get" => LineKind::Waits(WaitingCalls::Get),
        "swap" => LineKind::Waits(WaitingCalls::Swap),
        "puts" => LineKind::Ranges(KeyRanges::Put),
        "dels" => LineKind::Ranges(KeyRanges::Del),
        "gets" => LineKind::Ranges(KeyRanges::Get),
        "lacks" => LineKind::Ranges(KeyRanges::Lack),
        "page" => LineKind::Looks(PageLooks::Page),
        "free" => LineKind::Looks(PageLooks::Free),
        "window" => LineKind::Looks(PageLooks::Window),
        "try-put" => LineKind::Looks(PageLooks::TryPut),
        "try-get" => LineKind::Tries(SingleTries::Get),
        "try-window" => LineKind::Tries(SingleTries::Window),
        "try-del" => LineKind::Tries(SingleTries::Del),
        "try-swap" => LineKind::Tries(SingleTries::Swap),
        "try-split" => LineKind::Tries(SingleTries::Split),
        "versions" => LineKind::States(StateLooks::Four),
        "unlocked" => LineKind::States(StateLooks::Unlocked),
        "evicted" => LineKind::States(StateLooks::Evicted),
        "touch" => LineKind::States(StateLooks::Touch),
        _ => return Err(Fail::from("no such step")),
    })
}

/// A number, or the first word of a page file.
fn number_of(word: &str) -> Result<u64, Fail> {
    match word {
        "small" => Ok(MAGIC),
        "large" => Ok(LARGE_MAGIC),
        _ => match word.parse::<u64>() {
            Ok(number) => Ok(number),
            Err(_) => Err(Fail::from("no number")),
        },
    }
}

impl<'a> ScriptLine<'a> {
    /// Reads a line: a word, numbers, and, behind ` = `, what is to be told.
    pub(crate) fn of(alloc: Global, line: &'a str) -> Result<ScriptLine<'a>, Fail> {
        let (call, told) = match line.split_once(" = ") {
            Some(parts) => parts,
            None => (line, ""),
        };
        let mut words = call.split_whitespace();
        let Some(word) = words.next() else {
            return Err(Fail::from("no step"));
        };
        let kind = kind_of(word)?;
        let mut numbers = Vec::new(alloc);
        for word in words {
            numbers.push(number_of(word)?)?;
        }
        Ok(ScriptLine {
            kind,
            numbers,
            line,
            told,
        })
    }

    /// A number of the line; 0 where it has not so many.
    pub(crate) fn number(&self, i: usize) -> u64 {
        if i < self.numbers.len() {
            self.numbers[i]
        } else {
            0
        }
    }

    /// The first number, as a page's.
    pub(crate) fn page(&self) -> u32 {
        u32::try_from(self.number(0)).unwrap_or(u32::MAX)
    }

    /// The second number, as how many pairs a window may have: one at least.
    pub(crate) fn most(&self) -> u32
        ensures { 1 ≤ result }
    {
        u32::try_from(self.number(1)).unwrap_or(u32::MAX).max(1)
    }

    /// The numbers behind the first.
    pub(crate) fn rest(&self) -> &[u64] {
        if self.numbers.is_empty() {
            &[]
        } else {
            &self.numbers[1..]
        }
    }

    /// This is told, and is to be.
    pub(crate) fn tells(&self, told: &str) -> Result<(), Fail> {
        if self.told == told {
            Ok(())
        } else {
            let line = self.line;
            Err(Fail::new(format_args!("{line}: {told}")))
        }
    }
}

/// A value, if there is one, behind the word of its call.
fn value_told(alloc: Global, word: &str, value: &Option<u64>) -> Result<String, Fail> {
    Ok(match value {
        Some(value) => format!(in alloc; "{word} {value}")?,
        None => format!(in alloc; "{word} none")?,
    })
}

/// What is told of a reply that has no pairs.
pub(crate) fn reply_told(alloc: Global, reply: &Reply) -> Result<String, Fail> {
    match reply {
        Reply::Got(value) => value_told(alloc, "got", value),
        Reply::Was(value) => value_told(alloc, "was", value),
        Reply::Gone(value) => value_told(alloc, "gone", value),
        Reply::Swapped(Swap::Done) => Ok(String::from_str(alloc, "swapped")?),
        Reply::Swapped(Swap::Kept(value)) => Ok(format!(in alloc; "kept {value}")?),
        Reply::Swapped(Swap::Missing) => Ok(String::from_str(alloc, "missing")?),
        Reply::Win(_) | Reply::Many(_) | Reply::Wide(_) => Err(Fail::from("pairs")),
    }
}

/// What is told of a call's answer.
pub(crate) fn answer_told(
    alloc: Global,
    answer: &Result<Reply, TreeFault>,
) -> Result<String, Fail> {
    Ok(match answer {
        Ok(reply) => reply_told(alloc, reply)?,
        Err(TreeFault::Device { pid, count }) => format!(in alloc; "device {pid} {count}")?,
        Err(TreeFault::Full { pages }) => format!(in alloc; "full {pages}")?,
        Err(TreeFault::Worn { pid }) => format!(in alloc; "worn {pid}")?,
        Err(TreeFault::Damaged { pid }) => format!(in alloc; "damaged {pid}")?,
    })
}

/// What is told of where a window ends, and how many pairs it has.
pub(crate) fn window_told(alloc: Global, window: Option<(Bound, usize)>) -> Result<String, Fail> {
    Ok(match window {
        Some((Bound::Key(key), pairs)) => format!(in alloc; "{pairs} below {key}")?,
        Some((Bound::End, pairs)) => format!(in alloc; "{pairs} to the end")?,
        None => String::from_str(alloc, "no window")?,
    })
}

/// What is told of a try to read.
pub(crate) fn read_told(alloc: Global, tried: &TryRead) -> Result<String, Fail> {
    Ok(match tried {
        TryRead::Done(reply) => reply_told(alloc, reply)?,
        TryRead::Again(_) => String::from_str(alloc, "again")?,
        TryRead::Need(page) => format!(in alloc; "need {page}")?,
        TryRead::Damaged(page) => format!(in alloc; "damaged {page}")?,
    })
}

/// What is told of a try to write.
pub(crate) fn write_told(alloc: Global, tried: &TryWrite) -> Result<String, Fail> {
    Ok(match tried {
        TryWrite::Done(reply) => reply_told(alloc, reply)?,
        TryWrite::Again(_) => String::from_str(alloc, "again")?,
        TryWrite::Need(page) => format!(in alloc; "need {page}")?,
        TryWrite::Worn(page) => format!(in alloc; "worn {page}")?,
        TryWrite::Tight(page) => format!(in alloc; "tight {page}")?,
        TryWrite::Damaged(page) => format!(in alloc; "damaged {page}")?,
    })
}

/// What is told of a try to split.
pub(crate) fn split_told(alloc: Global, tried: &TrySplit) -> Result<String, Fail> {
    Ok(match tried {
        TrySplit::Split => String::from_str(alloc, "split")?,
        TrySplit::Roomy => String::from_str(alloc, "roomy")?,
        TrySplit::Again(_) => String::from_str(alloc, "again")?,
        TrySplit::Need(page) => format!(in alloc; "need {page}")?,
        TrySplit::Worn(page) => format!(in alloc; "worn {page}")?,
        TrySplit::Damaged(page) => format!(in alloc; "damaged {page}")?,
        TrySplit::Dry => String::from_str(alloc, "dry")?,
        TrySplit::Full { pages, next, need } => { format!(in alloc; "full {pages} {next} {need}")? }
    })
}
