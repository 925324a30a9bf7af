//! The command `make-bytes`: a page file with byte keys that holds nothing.

ghost use Rattle.std.specs.Prelude.{◌≡◌, ◌≤◌, IfOk, ℕ};
ghost use Rattle.vm_words.specs.declared.Command.TheVariants as commands;
ghost use Rattle.vm_reading.specs.from_vm_endings.Deliveries.{content_of};
ghost use Rattle.vm_reading.specs.from_vm_endings.Endings.{AnswersCommand, HasReadCause};
ghost use Rattle.vm_reading.specs.from_vm_endings.{MakesBytes.ToldMakeBytes, Outside.Outside, Outside.Remains};
ghost use Rattle.vm_reading.specs.from_vm_endings.declared_ends_Ends.{Ends};

use std::alloc::{AllocError, Global};
use vm_page::LARGE;
use vm_reading::endings::{Delivery, File, Quantity, Stop, Undone, are_pages};
use vm_reading::key_files::empty_image;
use vm_script::text::made_text;
use vm_words::MakeBytes;

// The file, and the line that tells its size.
fn made<'a>(alloc: Global, make: &MakeBytes<'a>, pages: u32) -> Result<Delivery<'a>, AllocError>
    requires pages { pages ≡ make.now.pages }
    requires some { 2 ≤ pages }
    requires most { pages ≤ 8192 }
    ensures { IfOk result (λ delivery. ToldMakeBytes make.now (content_of delivery) × (delivery.status ≡ 0)) }
{
    let image = empty_image(alloc, pages)?;
    let bytes = match image.to_bytes(alloc) {
        Ok(bytes) => bytes,
        Err(_) => return Err(AllocError),
    };
    let mut text = Vec::new(alloc);
    made_text(alloc, pages, 2, 0, &mut text)?;
    Ok(Delivery {
        file: Some(File {
            name: make.file,
            bytes,
        }),
        text,
        status: 0,
    })
}

/// Tests the number of pages, and builds the page file and the text. It asks the host for nothing.
pub fn run_make_bytes<'a>(
    alloc: Global,
    make: &MakeBytes<'a>,
) -> Result<Delivery<'a>, Undone<Stop<'a>>>
    ensures gives { (outside : Outside) (left : Remains) (same : Ends) → AnswersCommand content_of (commands.MakeBytes make.now) outside left same same result }
    ensures cause { (takes : ℕ) → HasReadCause takes takes result }
{
    if !are_pages(LARGE as u64, make.pages) {
        return Err(Undone::Stopped(Stop::Shape(Quantity::Pages)));
    }
    match made(alloc, make, make.pages as u32) {
        Ok(delivery) => Ok(delivery),
        Err(AllocError) => Err(Undone::Memory),
    }
}
