// The seat in a pass's badge.
ghost use Rattle.std.specs.Prelude.{[], ◌∷◌, ◌≡◌};

use atomic_table::{Badge, Seat};
use std::mem;

/// Takes the seat out. The badge is blank until it comes back.
pub fn lift<V, S>(badge: &mut Badge<V>) -> Seat<S, V>
    requires { (v : V) × (badge.old.views ≡ v ∷ []) }
    ensures { (result.table_id ≡ badge.old.table_id) × (result.id ≡ badge.old.id) × (badge.old.views ≡ result.me.0 ∷ []) × (result.me.1 ≡ []) }
{
    mem::replace(badge, Badge::blank()).into_seat::<S>()
}
