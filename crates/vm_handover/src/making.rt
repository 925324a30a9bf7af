//! How a place is made.

ghost use Rattle.std.specs.Prelude.{◌≡◌, IfOk};
ghost use Rattle.vm_handover.specs.Ends.{giver_about, taker_about};

use crate::ends::{Giver, Taker};
use crate::place::{EMPTY, Handed, Opens};
use atomic_table::Table;
use std::alloc::{AllocError, Global};
use std::sync::Arc;

/// A place for one value, by its two ends.
pub fn handover<T: Handed + Drop>(
    alloc: Global,
    about: &T::About,
) -> Result<(Giver<T>, Taker<T>), AllocError>
    ensures giver { IfOk result (λ ends. giver_about ends.0 ≡ about.now) }
    ensures taker { IfOk result (λ ends. taker_about ends.1 ≡ about.now) }
{
    let (table, mut seat) = Table::vacant(alloc, &[EMPTY], 1, about)?;
    table.shared.load::<Opens>(&mut seat, 0);
    let place = Arc::new(alloc, table)?;
    let taker = Taker {
        place: Arc::try_clone(&place)?,
    };
    Ok((Giver { place, seat }, taker))
}
