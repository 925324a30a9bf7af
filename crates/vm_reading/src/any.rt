//! Page files of any kind: of words as keys, or of byte keys.

ghost use Rattle.std.specs.Prelude.{◌≡◌, ◌≤◌};
ghost use Rattle.vm_endings.specs.{Endings.HasReadCause, Outside.Outside, Outside.Remains, Outside.with_shown, Outside.with_unread};
ghost use Rattle.vm_reading.specs.AnyReadings.{ReadsAnyTree, TellsAnyTree, TellsKeys};

use crate::reading::{MOST_IMAGE, StoredTree, tree_in};
use std::alloc::Global;
use vm_check::{CheckFault, TreeRows};
use vm_endings::key_files::{KeyPair, check_keys, is_key_file};
use vm_endings::stop::Stop;
use vm_endings::undone::Undone;
use vm_image::{Image, ImageFault, read_image};
use vm_io::host::Host;
use vm_io::loops::{ReadFault, read_whole};
use vm_page::LARGE;

/// A page file's pages, whose nodes have byte keys, and what the tree that they are holds.
#[derive(Drop)]
pub struct KeyTree {
    pub image: Image<LARGE>,
    pub rows: TreeRows<KeyPair>,
}

/// The tree of a page file of any kind.
#[derive(Drop)]
pub enum AnyTree {
    Words(StoredTree),
    Keys(KeyTree),
}

// The tree that the bytes of a file with byte keys spell.
fn keys_in<'a>(alloc: Global, bytes: &[u8]) -> Result<KeyTree, Undone<Stop<'a>>>
    ensures { TellsKeys bytes.now result }
{
    let image = match read_image(alloc, bytes) {
        Ok(image) => image,
        Err(ImageFault::BadLength { len }) => return Err(Undone::Stopped(Stop::Length(len))),
        Err(ImageFault::Memory) => return Err(Undone::Memory),
    };
    match check_keys(alloc, &image) {
        Ok(rows) => Ok(KeyTree { image, rows }),
        Err(CheckFault::BadPage { pid, why }) => {
            Err(Undone::Stopped(Stop::Page { page: pid, why }))
        }
        Err(CheckFault::Memory) => Err(Undone::Memory),
    }
}

// What the bytes spell, the first of which tell what kind of file they are.
fn any_in<'a>(alloc: Global, bytes: &[u8]) -> Result<AnyTree, Undone<Stop<'a>>>
    ensures { TellsAnyTree bytes.now result }
{
    if is_key_file(bytes) {
        match keys_in(alloc, bytes) {
            Ok(tree) => Ok(AnyTree::Keys(tree)),
            Err(undone) => Err(undone),
        }
    } else {
        match tree_in(alloc, bytes) {
            Ok(tree) => Ok(AnyTree::Words(tree)),
            Err(undone) => Err(undone),
        }
    }
}

/// Reads a page file of any kind and checks it.
pub fn read_any_tree<'a, H: Host>(
    alloc: Global,
    host: &mut H,
    name: &'a str,
) -> Result<AnyTree, Undone<Stop<'a>>>
    ensures reads { (outside : Outside) (left : Remains) → ReadsAnyTree (with_shown outside (H.shown host.old)) (with_unread left (H.last host.new)) name.now result }
    ensures shown { H.shown host.new ≡ H.shown host.old }
    ensures gives { H.gives host.new ≡ H.gives host.old }
    ensures later { H.takes host.old ≤ H.takes host.new }
    ensures cause { HasReadCause (H.takes host.old) (H.takes host.new) result }
{
    match read_whole(alloc, host, name, MOST_IMAGE) {
        Ok(bytes) => any_in(alloc, bytes.as_slice()),
        Err(ReadFault::Failed) => Err(Undone::Stopped(Stop::Unread(name))),
        Err(ReadFault::Memory) => Err(Undone::Memory),
    }
}
