//! Stores that are opened, and the hands that they give.

ghost use Rattle.std.specs.Prelude.{IfErr, IfOk, None, Some};
ghost use Rattle.vm_face.specs.Opened.{IsNotOpened};
ghost use Rattle.vm_c.specs.{Answers.refused_hand, Fits.IsFitHand, Fits.IsFitStore, Given.GivesHand, Openings.IsOpenedOn};

use crate::opened::{OpenHand, OpenStore};
use std::alloc::{AllocFailed, Global};
use vm_face::{NoHand, Opening, open_image};

/// A store on the tree in the bytes of a page file, with so many frames.
pub fn open(alloc: Global, bytes: &[u8], frames: u32) -> Result<Box<OpenStore, Global>, Opening>
    ensures store { IfOk result (λ held. IsFitStore held.value) }
    ensures opened { IfOk result (λ held. IsOpenedOn bytes.now held.value) }
    ensures refused { IfErr result (λ why. IsNotOpened 64 bytes.now frames why) }
{
    let store = open_image(alloc, bytes, frames)?;
    match Box::new(alloc, OpenStore { store }) {
        Ok(held) => Ok(held),
        Err(_) => Err(Opening::Memory),
    }
}

/// A hand of the store, which takes in those that came back before.
pub fn give(alloc: Global, open: &mut OpenStore) -> Result<Box<OpenHand, Global>, NoHand>
    requires store { IsFitStore open.old }
    ensures store { IsFitStore open.new }
    ensures hand { IfOk result (λ held. IsFitHand held.value) }
    ensures given { IfOk result (λ held. GivesHand open.old open.new (Some held.value) 0) }
    ensures refused { IfErr result (λ why. GivesHand open.old open.new None (refused_hand why)) }
{
    open.store.take_in();
    let hand = match open.store.hand(alloc) {
        Ok(hand) => hand,
        Err(why) => return Err(why),
    };
    match Box::new(alloc, OpenHand { hand }) {
        Ok(held) => Ok(held),
        Err(AllocFailed { value }) => {
            value.into_hand().leave();
            Err(NoHand::Memory)
        }
    }
}
