//! Scripts of calls for workers, lists of events for the machine, and the text of what they answer.
#![tactic(auto)]

pub mod calls;
pub mod event_line;
mod event_words;
pub mod events;
pub mod faults;
pub mod laws;
mod list_line;
pub mod number;
pub mod script;
pub mod seen;
pub mod text;
