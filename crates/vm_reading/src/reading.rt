//! Page files of words as keys, whose pages are a tree.

ghost use Rattle.std.specs.Prelude.{◌≡◌, ◌≤◌};
ghost use Rattle.vm_page.specs.Sizes.{IsSize};
ghost use Rattle.vm_image.specs.File.{words_of_file};
ghost use Rattle.vm_endings.specs.{Endings.HasReadCause, Outside.Outside, Outside.Remains, Outside.with_shown, Outside.with_unread};
ghost use Rattle.vm_reading.specs.Readings.{ReadsTree, TellsStored, TellsTree, rows_in};

use std::alloc::Global;
use vm_check::{CheckFault, Rows, check};
use vm_endings::stop::Stop;
use vm_endings::undone::Undone;
use vm_image::{Image, ImageFault, file_words, read_image};
use vm_io::host::Host;
use vm_io::loops::{ReadFault, read_whole};
use vm_page::{LARGE, WORDS};

/// The greatest number of bytes of a page file: 65,536 pages of 64 words, or 8,192 of 512.
pub(crate) const MOST_IMAGE: usize = 33_554_432;

/// A page file's pages of `N` words, and what the tree that they are holds.
#[derive(Drop)]
pub struct ReadTree<const N: usize> {
    pub image: Image<N>,
    pub rows: Rows,
}

/// The tree of a page file of either version.
#[derive(Drop)]
pub enum StoredTree {
    Words64(ReadTree<WORDS>),
    Words512(ReadTree<LARGE>),
}

impl StoredTree {
    /// What the tree holds; its pages are let go.
    pub fn into_rows(self) -> Rows
        ensures { result ≡ rows_in self }
    {
        match self {
            StoredTree::Words64(stored) => stored.rows,
            StoredTree::Words512(stored) => stored.rows,
        }
    }
}

// The tree that the bytes spell, which are those of a file with pages of `N` words.
fn stored_of<'a, const N: usize>(
    alloc: Global,
    bytes: &[u8],
) -> Result<ReadTree<N>, Undone<Stop<'a>>>
    requires sized { IsSize N }
    requires words { words_of_file bytes.now ≡ N }
    ensures { TellsStored N bytes.now result }
{
    let image = match read_image(alloc, bytes) {
        Ok(image) => image,
        Err(ImageFault::BadLength { len }) => return Err(Undone::Stopped(Stop::Length(len))),
        Err(ImageFault::Memory) => return Err(Undone::Memory),
    };
    match check(alloc, &image) {
        Ok(rows) => Ok(ReadTree { image, rows }),
        Err(CheckFault::BadPage { pid, why }) => {
            Err(Undone::Stopped(Stop::Page { page: pid, why }))
        }
        Err(CheckFault::Memory) => Err(Undone::Memory),
    }
}

// The tree that the bytes spell, whose first eight tell how many words a page has.
pub(crate) fn tree_in<'a>(alloc: Global, bytes: &[u8]) -> Result<StoredTree, Undone<Stop<'a>>>
    ensures { TellsTree bytes.now result }
{
    if file_words(bytes) == LARGE {
        match stored_of(alloc, bytes) {
            Ok(stored) => Ok(StoredTree::Words512(stored)),
            Err(undone) => Err(undone),
        }
    } else {
        match stored_of(alloc, bytes) {
            Ok(stored) => Ok(StoredTree::Words64(stored)),
            Err(undone) => Err(undone),
        }
    }
}

/// Reads a page file and checks it.
pub fn read_tree<'a, H: Host>(
    alloc: Global,
    host: &mut H,
    name: &'a str,
) -> Result<StoredTree, Undone<Stop<'a>>>
    ensures reads { (outside : Outside) (left : Remains) → ReadsTree (with_shown outside (H.shown host.old)) (with_unread left (H.last host.new)) name.now result }
    ensures shown { H.shown host.new ≡ H.shown host.old }
    ensures gives { H.gives host.new ≡ H.gives host.old }
    ensures later { H.takes host.old ≤ H.takes host.new }
    ensures cause { HasReadCause (H.takes host.old) (H.takes host.new) result }
{
    match read_whole(alloc, host, name, MOST_IMAGE) {
        Ok(bytes) => tree_in(alloc, bytes.as_slice()),
        Err(ReadFault::Failed) => Err(Undone::Stopped(Stop::Unread(name))),
        Err(ReadFault::Memory) => Err(Undone::Memory),
    }
}
