//! What an export answers: a number, and what is said beside it.

ghost use Rattle.std.specs.Prelude.{◌≡◌};
ghost use Rattle.vm_c.specs.Answers.{answer_for, page_telling, refusal_for, refused_hand, value_telling};

use vm_face::tree_rule::TreeFault;
use vm_face::{NoHand, Opening};
use vm_map::call::{Reply, Swap};

pub const OK: u32 = 0;
/// The rounds were used up.
pub const BUSY: u32 = 1;

pub const DEVICE: u32 = 2;

pub const FULL: u32 = 3;

pub const WORN: u32 = 4;

pub const DAMAGED: u32 = 5;
/// A swap found another value, or none.
pub const OTHER: u32 = 6;

pub const LENGTH: u32 = 7;

pub const FRAMES: u32 = 8;
/// The bytes are no tree.
pub const NO_TREE: u32 = 9;

pub const MEMORY: u32 = 10;
/// Hands are out, or no hand more may be.
pub const HANDS: u32 = 11;
/// The handle has nothing.
pub const NONE: u32 = 12;
/// The handle has something.
pub const TAKEN: u32 = 13;
/// There is too little room for the pairs.
pub const ROOM: u32 = 14;
/// A range has too many leaves.
pub const WIDE: u32 = 15;

/// What is said beside an answer: a value where there is one, and a page.
#[repr(C)]
#[derive(Clone, Copy, Drop)]
pub struct CallTold {
    pub value: u64,
    pub page: u32,
    pub had: u32,
}

fn value_told(value: Option<u64>) -> CallTold
    ensures { result ≡ value_telling value }
{
    match value {
        Some(value) => CallTold {
            value,
            page: 0,
            had: 1,
        },
        None => CallTold {
            value: 0,
            page: 0,
            had: 0,
        },
    }
}

/// Only a page is said.
pub fn page_told(page: u32) -> CallTold
    ensures { result ≡ page_telling page }
{
    CallTold {
        value: 0,
        page,
        had: 0,
    }
}

/// The number of a call's answer, and what is said.
pub fn answer_of(answer: Result<Option<Reply>, TreeFault>) -> (u32, CallTold)
    ensures { result ≡ answer_for answer }
{
    match answer {
        Ok(Some(Reply::Got(value))) => (OK, value_told(value)),
        Ok(Some(Reply::Was(value))) => (OK, value_told(value)),
        Ok(Some(Reply::Gone(value))) => (OK, value_told(value)),
        Ok(Some(Reply::Swapped(Swap::Done))) => (OK, page_told(0)),
        Ok(Some(Reply::Swapped(Swap::Kept(value)))) => (OTHER, value_told(Some(value))),
        Ok(Some(Reply::Swapped(Swap::Missing))) => (OTHER, page_told(0)),
        Ok(Some(Reply::Win(_))) => (OK, page_told(0)),
        Ok(Some(Reply::Many(_))) => (OK, page_told(0)),
        Ok(Some(Reply::Wide(reach))) => (WIDE, value_told(Some(reach))),
        Ok(None) => (BUSY, page_told(0)),
        Err(TreeFault::Device { pid, count: _ }) => (DEVICE, page_told(pid)),
        Err(TreeFault::Full { pages }) => (FULL, page_told(pages)),
        Err(TreeFault::Worn { pid }) => (WORN, page_told(pid)),
        Err(TreeFault::Damaged { pid }) => (DAMAGED, page_told(pid)),
    }
}

/// The number of a reason why there is no store, and what is said.
pub fn refusal_of(why: Opening) -> (u32, CallTold)
    ensures { result ≡ refusal_for why }
{
    match why {
        Opening::Length { len: _ } => (LENGTH, page_told(0)),
        Opening::Frames => (FRAMES, page_told(0)),
        Opening::Page { pid, why } => {
            let told = CallTold {
                value: why as u64,
                page: pid,
                had: 0,
            };
            (NO_TREE, told)
        }
        Opening::Memory => (MEMORY, page_told(0)),
    }
}

/// The number of a reason why there is no hand.
pub fn hand_refusal_of(why: NoHand) -> u32
    ensures { result ≡ refused_hand why }
{
    match why {
        NoHand::Crowded => HANDS,
        NoHand::Memory => MEMORY,
    }
}
