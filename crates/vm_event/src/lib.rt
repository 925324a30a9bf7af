//! The words that a pool shares, and the events on them: one variant for each kind of atomic action. The definitions of a state, of which events may happen
//! in it, of the state that each leads to and of what it sees, stand in `specs/`, with the invariant.
#![tactic(auto)]

mod event;
mod words;

pub use event::{CoreShape, Event, Illegal, Mapping, Open, PageAct, ReadIs, Seat, Seen};
pub use vm_page::Memory;
pub use words::{Bundle, DIRTY, FRAMES, MAX_VERSION, STRIDE, StateWord, TransWord};
