//! Why a command was not done.

/// A stop, which is told, or want of memory, which is not.
#[derive(Clone, Copy)]
pub enum Undone<S> {
    Stopped(S),
    Memory,
}
