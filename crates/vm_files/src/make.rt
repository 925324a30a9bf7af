//! The command `make`: a page file built of numbered pairs.

ghost use Rattle.std.specs.Prelude.{◌≡◌, ℕ, IfOk, slice_index};
ghost use Rattle.vm_page.specs.{Pages.page_at, Sizes.IsSize};
ghost use Rattle.vm_script.specs.Texts.{made_line};
ghost use Rattle.vm_tree_model.specs.Reason.{used_pages};
ghost use Rattle.vm_words.specs.declared.Command.TheVariants as commands;
ghost use Rattle.vm_reading.specs.from_vm_endings.Deliveries.{content_of};
ghost use Rattle.vm_reading.specs.from_vm_endings.Endings.{AnswersCommand, HasReadCause};
ghost use Rattle.vm_reading.specs.from_vm_endings.{Makes.ToldMake, Outside.Outside, Outside.Remains};
ghost use Rattle.vm_files.specs.Building.{TellsSizes};
ghost use Rattle.vm_reading.specs.from_vm_endings.declared_ends_Ends.{Ends};

use std::alloc::{AllocError, Global};
use vm_build::{needed, numbered_image};
use vm_image::Image;
use vm_page::{LARGE, WORDS};
use vm_reading::endings::{
    Delivery, Quantity, Stop, Undone, are_pages, are_pairs_to_make, are_words, file_of, used_in,
    words_of,
};
use vm_script::text::made_text;
use vm_words::Make;

/// How many pages a page file has, 2 to 65,536 of 64 words or 2 to 8,192 of 512, and how many pairs its tree holds, at most 1,000,000.
#[derive(Clone, Copy)]
pub struct MakeSizes {
    pub words: usize,
    pub pages: u32,
    pub pairs: u32,
}

// The numbers, where they are within their limits and the pages are enough for the pairs.
fn sizes_of<'a>(make: &Make<'a>) -> Result<MakeSizes, Stop<'a>>
    ensures { TellsSizes make.now result }
{
    let words = words_of(make.words);
    if !are_pages(words, make.pages) {
        return Err(Stop::Shape(Quantity::Pages));
    }
    if !are_pairs_to_make(make.pairs) {
        return Err(Stop::Shape(Quantity::Pairs));
    }
    if !are_words(words) {
        return Err(Stop::Shape(Quantity::Words));
    }
    let words = words as usize;
    let pages = make.pages as u32;
    let pairs = make.pairs as u32;
    let needed = needed(words, pairs);
    if pages < needed {
        return Err(Stop::TooFew { pages, needed });
    }
    Ok(MakeSizes {
        words,
        pages,
        pairs,
    })
}

// The line that tells an image's size.
fn text_of<const N: usize>(
    alloc: Global,
    pages: u32,
    image: &Image<N>,
) -> Result<Vec<u8>, AllocError>
    requires { IsSize N }
    ensures { IfOk result (λ v. v.items ≡ made_line pages (used_pages image.now) (slice_index (page_at image.now 0) 2)) }
{
    // Any call on the image tells that it has a page 0.
    let _pages = image.pages();
    let mut out = Vec::new(alloc);
    made_text(alloc, pages, used_in(image), image.word(0, 2), &mut out)?;
    Ok(out)
}

// The file, with pages of `N` words, and the line that tells its size.
fn made<'a, const N: usize>(
    alloc: Global,
    make: &Make<'a>,
    sizes: MakeSizes,
) -> Result<Delivery<'a>, AllocError>
    requires sized { IsSize N }
    requires sizes { TellsSizes make.now (Ok sizes) }
    requires words { sizes.words ≡ N }
    ensures { IfOk result (λ delivery. ToldMake make.now (content_of delivery) × (delivery.status ≡ 0)) }
{
    let image = numbered_image::<N>(alloc, sizes.pages, make.seed, sizes.pairs)?;
    let text = text_of(alloc, sizes.pages, &image)?;
    let file = file_of(alloc, &image, make.file)?;
    Ok(Delivery {
        file: Some(file),
        text,
        status: 0,
    })
}

/// Tests the numbers, builds the page file and the text. It asks the host for nothing.
pub fn run_make<'a>(alloc: Global, make: &Make<'a>) -> Result<Delivery<'a>, Undone<Stop<'a>>>
    ensures gives { (outside : Outside) (left : Remains) (same : Ends) → AnswersCommand content_of (commands.Make make.now) outside left same same result }
    ensures cause { (takes : ℕ) → HasReadCause takes takes result }
{
    let sizes = match sizes_of(make) {
        Ok(sizes) => sizes,
        Err(stop) => return Err(Undone::Stopped(stop)),
    };
    let made = if sizes.words == LARGE {
        made::<LARGE>(alloc, make, sizes)
    } else {
        made::<WORDS>(alloc, make, sizes)
    };
    match made {
        Ok(delivery) => Ok(delivery),
        Err(AllocError) => Err(Undone::Memory),
    }
}
