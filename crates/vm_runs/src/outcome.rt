//! What the workers' calls come to, with the text that tells it and the file that is kept.

ghost use Rattle.std.specs.Prelude.{◌*◌, ◌≡◌, ◌≤◌, IfOk, length};
ghost use Rattle.vm_page.specs.Sizes.{IsSize};
ghost use Rattle.vm_tree_model.specs.{Fixed.fixed, Tree.IsTree, Tree.map_of};
ghost use Rattle.vm_image.specs.{Blocks.pages_of_blocks, File.most_pages};
ghost use Rattle.vm_event.specs.Prelude.{MAX_VERSION};
ghost use Rattle.vm_reading.specs.from_vm_drive.Drives.{AreAskable, AreFew, items_of};
ghost use Rattle.vm_reading.specs.from_vm_endings.Deliveries.{content_of, written_of};
ghost use Rattle.vm_reading.specs.from_vm_endings.Runs.{IsKept, IsOutcome, version_or};

use std::alloc::{AllocError, Global};
use std::sync::Wait;
use std::thread::Threads;
use vm_block::MemBlock;
use vm_check::{CheckFault, check};
use vm_event::Memory;
use vm_image::{Image, image_of};
use vm_map::call::Call;
use vm_owner::Owner;
use vm_reading::drive::Gate;
use vm_reading::endings::{Delivery, File, cut_text, file_of, whole_text};
use vm_reading::kind::{OfSize, TreeOf, WordKeys};
use vm_reading::pool::Ended;
use vm_reading::reading::ReadTree;
use vm_reading::serve::{Served, serve};
use vm_words::Run;

/// What a run gives, and what is kept of it.
#[derive(Drop)]
pub struct Outcome<'a, U: Owner> {
    pub delivery: Delivery<'a>,
    pub ended: Ended<U>,
}

/// The pages that the blocks hold, and the rows of the tree that they are.
pub fn stored_in<const N: usize>(
    alloc: Global,
    blocks: &[MemBlock<N>],
) -> Result<ReadTree<N>, AllocError>
    requires sized { IsSize N }
    requires tree { IsTree (fixed N) (pages_of_blocks blocks.now) }
    requires some { 2 ≤ length blocks.now }
    requires most { length blocks.now ≤ most_pages N }
    ensures image { IfOk result (λ stored. stored.image ≡ pages_of_blocks blocks.now) }
    ensures rows { IfOk result (λ stored. stored.rows.pairs.items ≡ map_of (fixed N) (pages_of_blocks blocks.now)) }
{
    let Ok(image) = image_of(alloc, blocks) else {
        return Err(AllocError);
    };
    match check(alloc, &image) {
        Ok(rows) => Ok(ReadTree { image, rows }),
        Err(CheckFault::BadPage { .. }) => unreachable!(),
        Err(CheckFault::Memory) => Err(AllocError),
    }
}

// The file that is to be kept, if one is.
fn kept<'a, const N: usize>(
    alloc: Global,
    image: &Image<N>,
    keep: Option<&'a str>,
) -> Result<Option<File<'a>>, AllocError>
    requires sized { IsSize N }
    requires tree { IsTree (fixed N) image.now }
    ensures { IfOk result (λ file. IsKept N keep.entry image.now (written_of file)) }
{
    match keep {
        Some(name) => Ok(Some(file_of(alloc, image, name)?)),
        None => Ok(None),
    }
}

/// What is given and kept, put together.
pub fn told<'a, U: Owner>(
    file: Option<File<'a>>,
    text: Vec<u8>,
    status: u8,
    ended: Ended<U>,
) -> Outcome<'a, U>
    ensures { result ≡ record { delivery = record { file = file.entry; text = text; status = status }; ended = ended } }
{
    Outcome {
        delivery: Delivery { file, text, status },
        ended,
    }
}

/// Makes the workers' calls on the image's tree, and builds what is told and kept. The only error is want of memory.
pub fn outcome_of<
    'a,
    S: OfSize<N> + Sync,
    R: Threads + Wait + Sync,
    G: Gate + Sync,
    const N: usize,
>(
    rt: &R,
    alloc: Global,
    run: &Run<'a>,
    image: &Image<N>,
    lists: &[Vec<Call>],
    gate: &G,
) -> Result<Outcome<'a, TreeOf<WordKeys<S, N>>>, AllocError>
    requires tree { IsTree (fixed N) image.now }
    requires plan { length run.now.options.fail.items ≤ 64 }
    requires version { version_or run.now.options.first_version ≤ MAX_VERSION }
    requires frames { (64 ≤ run.now.frames) × (run.now.frames ≤ 65536) × (8 * length lists.now ≤ run.now.frames) }
    requires lists { (1 ≤ length lists.now) × (length lists.now ≤ 64) }
    requires few { AreFew (items_of lists.now) }
    requires askable { AreAskable (items_of lists.now) }
    ensures { IfOk result (λ outcome. IsOutcome N run.now image.now (items_of lists.now) (content_of outcome.delivery) outcome.ended) }
{
    // Any call on the image tells that it has no more pages than a page file may have.
    let _pages = image.pages();
    let version = run.options.first_version.unwrap_or(0);
    let plan = run.options.fail.as_slice();
    let served = match serve::<S, R, G, N>(
        rt,
        alloc,
        image,
        plan,
        version,
        run.frames as u32,
        lists,
        gate,
    ) {
        Ok(served) => served,
        Err(Memory) => return Err(AllocError),
    };
    let Served {
        replies,
        evicted,
        report,
        blocks,
        ended,
    } = served;
    match report.first {
        Some(page) => {
            let text = cut_text(alloc, lists, replies.as_slice(), page, &ended, evicted)?;
            Ok(told(None, text, 7, ended))
        }
        None => {
            let ReadTree { image, rows } = stored_in(alloc, blocks.as_slice())?;
            // The text grows by doubling: what it does not speak of is let go before.
            drop(blocks);
            let file = kept(alloc, &image, run.options.keep)?;
            drop(image);
            let rows = rows.pairs.as_slice();
            let text = whole_text(alloc, lists, replies.as_slice(), rows, &ended, evicted)?;
            Ok(told(file, text, 0, ended))
        }
    }
}
