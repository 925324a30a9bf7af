//! What a step is made with: places, operations, the seat. It is for `vm_supply`, which has the other kinds of steps, and `vm_group_step`, which has
//! those on the word of a group; no other crate may name it (`.ci/only-steps`).

pub use crate::layout::{bundle_place, fault_place, hand_place, next_place, state_place};
pub use crate::operation::{
    StepPlay, StepTold, compare_exchange, fetch_or, fetch_sub, load, store,
};
pub use crate::seat::lift;
pub use crate::state_words::{SHARE, shared_word, word_with};
pub use crate::took::answer;
