//! What the workers' calls on a tree with byte keys come to, with the text that tells it and the file that is kept.

ghost use Rattle.std.specs.Prelude.{◌*◌, ◌≡◌, ◌≤◌, IfOk, length};
ghost use Rattle.vm_bytes_form.specs.{Bytes.bytes as keyed, KeyMap.ranks_of};
ghost use Rattle.vm_event.specs.Prelude.{MAX_VERSION};
ghost use Rattle.vm_image.specs.{Blocks.pages_of_blocks, File.most_pages};
ghost use Rattle.vm_tree_model.specs.Tree.{IsTree, map_of};
ghost use Rattle.vm_reading.specs.from_vm_bytes_drive.Drives.{AreKeyAskable};
ghost use Rattle.vm_reading.specs.from_vm_drive.Drives.{AreFew, items_of};
ghost use Rattle.vm_reading.specs.from_vm_endings.Deliveries.{content_of, written_of};
ghost use Rattle.vm_reading.specs.from_vm_endings.KeyRuns.{IsKeyOutcome, KeepsKeys};
ghost use Rattle.vm_reading.specs.from_vm_endings.Runs.{version_or};

use crate::outcome::{Outcome, told};
use std::alloc::{AllocError, Global};
use std::sync::Wait;
use std::thread::Threads;
use vm_block::MemBlock;
use vm_bytes_laws::call::KeyCall;
use vm_check::CheckFault;
use vm_event::Memory;
use vm_image::{Image, image_of};
use vm_page::LARGE;
use vm_reading::any::KeyTree;
use vm_reading::drive::Gate;
use vm_reading::endings::{File, key_cut_text, key_file_of, key_whole_text};
use vm_reading::key_files::check_keys;
use vm_reading::key_serve::{BytesTree, serve};
use vm_reading::serve::ServedOn;
use vm_words::Run;

// The pages that the blocks hold, and the rows of the tree that they are.
fn keys_stored_in(alloc: Global, blocks: &[MemBlock<LARGE>]) -> Result<KeyTree, AllocError>
    requires tree { IsTree keyed (pages_of_blocks blocks.now) }
    requires some { 2 ≤ length blocks.now }
    requires most { length blocks.now ≤ most_pages 512 }
    ensures image { IfOk result (λ stored. stored.image ≡ pages_of_blocks blocks.now) }
    ensures rows { IfOk result (λ stored. ranks_of stored.rows.pairs.items ≡ map_of keyed (pages_of_blocks blocks.now)) }
{
    let Ok(image) = image_of(alloc, blocks) else {
        return Err(AllocError);
    };
    match check_keys(alloc, &image) {
        Ok(rows) => Ok(KeyTree { image, rows }),
        Err(CheckFault::BadPage { .. }) => unreachable!(),
        Err(CheckFault::Memory) => Err(AllocError),
    }
}

// The file that is to be kept, if one is.
fn keys_kept<'a>(
    alloc: Global,
    image: &Image<LARGE>,
    keep: Option<&'a str>,
) -> Result<Option<File<'a>>, AllocError>
    requires { IsTree keyed image.now }
    ensures { IfOk result (λ file. KeepsKeys keep.entry image.now (written_of file)) }
{
    match keep {
        Some(name) => Ok(Some(key_file_of(alloc, image, name)?)),
        None => Ok(None),
    }
}

/// Makes the workers' calls on the image's tree, and builds what is told and kept. The only error is want of memory.
pub fn key_outcome_of<'a, R: Threads + Wait + Sync, G: Gate + Sync>(
    rt: &R,
    alloc: Global,
    run: &Run<'a>,
    image: &Image<LARGE>,
    lists: &[Vec<KeyCall>],
    gate: &G,
) -> Result<Outcome<'a, BytesTree>, AllocError>
    requires tree { IsTree keyed image.now }
    requires plan { length run.now.options.fail.items ≤ 64 }
    requires version { version_or run.now.options.first_version ≤ MAX_VERSION }
    requires frames { (64 ≤ run.now.frames) × (run.now.frames ≤ 65536) × (8 * length lists.now ≤ run.now.frames) }
    requires lists { (1 ≤ length lists.now) × (length lists.now ≤ 64) }
    requires few { AreFew (items_of lists.now) }
    requires askable { AreKeyAskable (items_of lists.now) }
    ensures { IfOk result (λ outcome. IsKeyOutcome run.now image.now (items_of lists.now) (content_of outcome.delivery) outcome.ended) }
{
    // Any call on the image tells that it has no more pages than a page file may have.
    let _pages = image.pages();
    let version = run.options.first_version.unwrap_or(0);
    let plan = run.options.fail.as_slice();
    let frames = run.frames as u32;
    let served = match serve(rt, alloc, image, plan, version, frames, lists, gate) {
        Ok(served) => served,
        Err(Memory) => return Err(AllocError),
    };
    let ServedOn {
        kept,
        evicted,
        report,
        blocks,
        ended,
    } = served;
    match report.first {
        Some(page) => {
            let text = key_cut_text(alloc, lists, kept.as_slice(), page, &ended, evicted)?;
            Ok(told(None, text, 7, ended))
        }
        None => {
            let KeyTree { image, rows } = keys_stored_in(alloc, blocks.as_slice())?;
            // The text grows by doubling: what it does not speak of is let go before.
            drop(blocks);
            let file = keys_kept(alloc, &image, run.options.keep)?;
            drop(image);
            let rows = rows.pairs.as_slice();
            let text = key_whole_text(alloc, lists, kept.as_slice(), rows, &ended, evicted)?;
            Ok(told(file, text, 0, ended))
        }
    }
}
