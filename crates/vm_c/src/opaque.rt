//! What C sees of a store or a hand.

/// Nothing.
#[repr(C)]
pub struct Opaque {
    nothing: u8,
}
