//! The buffer manager's core as a pure machine: the words that a pool shares, the events on them, which of them may happen in a state, the
//! state that each leads to, and what it sees.
//!
//! Nothing runs here at the same time as anything else. The running pool is proved against this machine: each of its atomic actions is one
//! event of it.
#![tactic(auto)]

mod frames;
mod initial;
mod machine;
mod page;
mod playing;

pub use machine::Core;
pub use playing::{ReplayFault, replay};
pub use vm_event::{
    Bundle, CoreShape, DIRTY, Event, FRAMES, Illegal, MAX_VERSION, Mapping, Memory, Open, PageAct,
    ReadIs, STRIDE, Seat, Seen, StateWord, TransWord,
};
