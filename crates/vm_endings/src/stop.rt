//! What stops a command before it does anything, with the status and the line that tell it.

ghost use Rattle.std.specs.Fmt.{decimal};
ghost use Rattle.std.specs.Prelude.{[], ◌++◌, ◌∷◌, ◌≡◌, codes, IfOk, string_bytes};
ghost use Rattle.vm_endings.specs.Stops.{lines_name, quantity_text, status_of as status_for, stop_line};

use std::alloc::{AllocError, Global};

/// A number of the command line that has limits.
#[derive(Clone, Copy)]
pub enum Quantity {
    Workers,
    Frames,
    FirstVersion,
    /// How many entries of planned failures.
    Fail,
    Pages,
    /// How many pairs a tree is built of.
    Pairs,
    /// How many words a page has.
    Words,
}

/// A file of lines.
#[derive(Clone, Copy)]
pub enum Lines {
    Script,
    Events,
}

/// Why nothing was done.
#[derive(Clone, Copy)]
pub enum Stop<'a> {
    /// The number is outside its limits.
    Shape(Quantity),
    /// The host could not read the file with this name.
    Unread(&'a str),
    /// The image has no page file's length; so many bytes were read of it.
    Length(usize),
    /// The image's pages are no tree: the page at fault, and the first reason.
    Page { page: u32, why: u8 },
    /// There are too few pages for the pairs, which need so many.
    TooFew { pages: u32, needed: u32 },
    /// The file has more bytes than a script or an event list may have.
    Long(Lines),
    /// This line is the first that is refused, or one too many.
    Line(Lines, u32),
}

/// The exit status of a stop.
pub fn status_of(stop: Stop<'_>) -> u8
    ensures { result ≡ status_for stop.entry }
{
    match stop {
        Stop::Unread(_) => 2,
        Stop::Length(_) | Stop::Page { .. } | Stop::TooFew { .. } => 4,
        Stop::Shape(_) | Stop::Long(_) | Stop::Line(..) => 5,
    }
}

// The name of a number.
fn name_of<'a>(quantity: Quantity) -> &'a str
    ensures { result.now ≡ quantity_text quantity }
{
    match quantity {
        Quantity::Workers => "workers",
        Quantity::Frames => "frames",
        Quantity::FirstVersion => "first-version",
        Quantity::Fail => "fail",
        Quantity::Pages => "pages",
        Quantity::Pairs => "pairs",
        Quantity::Words => "words",
    }
}

// What a file of lines is called.
fn kind_of<'a>(lines: Lines) -> &'a str
    ensures { result.now ≡ lines_name lines }
{
    match lines {
        Lines::Script => "script",
        Lines::Events => "events",
    }
}

// The line that names the page at fault and the reason's number.
fn page_line(alloc: Global, page: u32, why: u8) -> Result<String, AllocError>
    ensures { IfOk result (λ line. string_bytes line ≡ codes "image page " ++ decimal page ++ codes " why " ++ decimal why ++ 10 ∷ []) }
{
    let line = format!(in alloc; "image page {page} why {why}\n")?;
    Ok(line)
}

// The line that tells how many pages there are, and how many are needed.
fn room_line(alloc: Global, pages: u32, needed: u32) -> Result<String, AllocError>
    ensures { IfOk result (λ line. string_bytes line ≡ codes "too few " ++ decimal pages ++ codes " needed " ++ decimal needed ++ 10 ∷ []) }
{
    let line = format!(in alloc; "too few {pages} needed {needed}\n")?;
    Ok(line)
}

/// The line that tells a stop.
pub fn line_of(alloc: Global, stop: Stop<'_>) -> Result<String, AllocError>
    ensures { IfOk result (λ line. string_bytes line ≡ stop_line stop.entry) }
{
    match stop {
        Stop::Shape(quantity) => {
            let name = name_of(quantity);
            format!(in alloc; "shape {name}\n")
        }
        Stop::Unread(name) => format!(in alloc; "read {name}\n"),
        Stop::Length(len) => format!(in alloc; "image length {len}\n"),
        Stop::Page { page, why } => page_line(alloc, page, why),
        Stop::TooFew { pages, needed } => room_line(alloc, pages, needed),
        Stop::Long(lines) => {
            let kind = kind_of(lines);
            format!(in alloc; "{kind} long\n")
        }
        Stop::Line(lines, line) => {
            let kind = kind_of(lines);
            format!(in alloc; "{kind} line {line}\n")
        }
    }
}
