//! How commands end: what each asks before it does anything, what stops it, what it gives, and how that goes out; the texts of answers and rows.
//! The definitions of what the commands promise stand here, and the few functions that say a stop, let out what is given, and make a file of an image.
#![tactic(auto)]

pub mod churn;
pub mod delivery;
pub mod drive;
pub mod ends;
pub mod key_files;
pub mod key_serve;
pub mod key_texts;
pub mod kind;
pub mod limits;
pub mod pool;
pub mod replies;
pub mod serve;
pub mod stop;
pub mod texts;
pub mod undone;
pub mod writing;
