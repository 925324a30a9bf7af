//! The command `check`: a page file's rows and size.

ghost use Rattle.std.specs.Prelude.{◌≡◌, ◌≤◌, IfOk};
ghost use Rattle.vm_bytes_form.specs.KeyMap.{ranks_of};
ghost use Rattle.vm_script.specs.Texts.{check_text};
ghost use Rattle.vm_words.specs.declared.Command.TheVariants as commands;
ghost use Rattle.vm_files.specs.Checking.{key_check_text, text_in};
ghost use Rattle.vm_reading.specs.from_vm_endings.Deliveries.{content_of};
ghost use Rattle.vm_reading.specs.from_vm_endings.Endings.{AnswersCommand, HasReadCause};
ghost use Rattle.vm_reading.specs.from_vm_endings.Outside.{Outside, Remains, with_shown, with_unread};
ghost use Rattle.vm_reading.specs.from_vm_endings.declared_ends_Ends.{Ends};

use std::alloc::{AllocError, Global};
use vm_bytes_text::add_key_rows;
use vm_check::{Rows, TreeRows};
use vm_io::host::Host;
use vm_reading::any::{AnyTree, read_any_tree};
use vm_reading::endings::{Delivery, Stop, Undone, add_rows};
use vm_reading::key_files::KeyPair;
use vm_script::text::tree_text;
use vm_words::Check;

// The text of a tree's rows and of its size.
fn rows_text(alloc: Global, rows: &Rows) -> Result<Vec<u8>, AllocError>
    ensures { IfOk result (λ v. v.items ≡ check_text rows.now.pairs.items rows.now.height rows.now.used) }
{
    let mut out = Vec::new(alloc);
    add_rows(alloc, rows.pairs.as_slice(), &mut out)?;
    tree_text(
        alloc,
        rows.height,
        rows.used,
        rows.pairs.len() as u64,
        &mut out,
    )?;
    Ok(out)
}

// The same, where keys are byte strings.
fn key_rows_text(alloc: Global, rows: &TreeRows<KeyPair>) -> Result<Vec<u8>, AllocError>
    ensures { IfOk result (λ v. v.items ≡ key_check_text (ranks_of rows.now.pairs.items) rows.now.height rows.now.used) }
{
    let mut out = Vec::new(alloc);
    add_key_rows(alloc, rows.pairs.as_slice(), &mut out)?;
    tree_text(
        alloc,
        rows.height,
        rows.used,
        rows.pairs.len() as u64,
        &mut out,
    )?;
    Ok(out)
}

// The text of what a page file holds.
fn text_of(alloc: Global, tree: AnyTree) -> Result<Vec<u8>, AllocError>
    ensures { IfOk result (λ v. v.items ≡ text_in tree) }
{
    match tree {
        AnyTree::Words(tree) => rows_text(alloc, &tree.into_rows()),
        AnyTree::Keys(tree) => key_rows_text(alloc, &tree.rows),
    }
}

/// Reads and checks the page file, and builds the text.
pub fn run_check<'a, H: Host>(
    alloc: Global,
    host: &mut H,
    check: &Check<'a>,
) -> Result<Delivery<'a>, Undone<Stop<'a>>>
    ensures gives { (outside : Outside) (left : Remains) (same : Ends)
        → AnswersCommand content_of (commands.Check check.now) (with_shown outside (H.shown host.old)) (with_unread left (H.last host.new)) same same result }
    ensures shown { H.shown host.new ≡ H.shown host.old }
    ensures puts { H.gives host.new ≡ H.gives host.old }
    ensures later { H.takes host.old ≤ H.takes host.new }
    ensures cause { HasReadCause (H.takes host.old) (H.takes host.new) result }
{
    let tree = match read_any_tree(alloc, host, check.file) {
        Ok(tree) => tree,
        Err(undone) => return Err(undone),
    };
    match text_of(alloc, tree) {
        Ok(text) => Ok(Delivery::line(text, 0)),
        Err(AllocError) => Err(Undone::Memory),
    }
}
