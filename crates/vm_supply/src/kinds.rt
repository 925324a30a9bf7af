// The kinds of steps: a file a kind, or a pair of kinds. Beside each call stands its law, that what it tells is an event of the core, or none.
pub mod block;
pub mod bundle;
pub mod catch_up;
pub mod hand;
pub mod pass;
pub mod raise;
