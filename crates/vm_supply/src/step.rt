//! What the crates above name of `vm_step` through this one.

pub use vm_step::{
    At, Batch, Candidates, Looks, Saw, Took, clear, disown, fill, frame_place, install, load_at,
    lock_exclusive, lock_write_back, look_silently, mark, oload, own, release_evicted,
    release_silently, set_clean, tload, unlock_shared, unmark, upgrade,
};
