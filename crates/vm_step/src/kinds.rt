// The kinds of steps: a file a kind, or a pair of kinds. Each call is one operation on one word of the table; beside it stands its law, that what it
// tells is an event of the core.
pub mod content;
pub mod lock;
pub mod look;
pub mod mapping;
pub mod mark;
pub mod next;
pub mod number;
pub mod owner;
pub mod release;
pub mod share;
pub mod translate;
pub mod write_back;
