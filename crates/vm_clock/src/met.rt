// Which pages a walk has chosen: a page is met again where another one put it into a frame that the walk had still to pass, or in the walk's
// second round. A look goes through those chosen only where a filter has the page's bit.
ghost use Rattle.std.specs.Prelude.{◌%◌, ◌≡◌, replicate, true};
ghost use Rattle.vm_event.specs.Prelude.{at, has_free_bit, upd};
ghost use Rattle.vm_supply.specs.from_vm_rule.Prelude.{has};
ghost use Rattle.vm_supply.specs.from_vm_step.Prelude.{candidate_pages};
ghost use Rattle.vm_clock.specs.Met.{HoldsChosen, may_hold};

/// The masks of a filter.
pub(crate) const MASKS: usize = 16;

/// The bits of a filter.
const BITS: u32 = 1024;

/// The filter of no page.
pub(crate) fn no_pages() -> [u64; MASKS]
    ensures { result ≡ replicate MASKS 0 }
{
    [0; MASKS]
}

/// Whether the filter has the page's bit.
fn may_hold(met: &[u64; MASKS], p: u32) -> bool
    ensures { result ≡ may_hold met.now p }
{
    let bit = p % BITS;
    (met[bit as usize / 64] >> (bit as usize % 64)) & 1 == 1
}

/// Sets the page's bit in the filter.
pub(crate) fn note(met: &mut [u64; MASKS], p: u32)
    ensures { has_free_bit (at 0 met.new) ≡ upd (has_free_bit (at 0 met.old)) (p % BITS) true }
{
    let bit = p % BITS;
    met[bit as usize / 64] |= 1 << (bit as usize % 64);
}

/// Whether the page is one of the candidates.
pub(crate) fn is_met(list: &[(u32, u64)], met: &[u64; MASKS], p: u32) -> bool
    requires { HoldsChosen met.now list.now }
    ensures { result ≡ has p (candidate_pages list.now) }
{
    may_hold(met, p) && is_chosen(list, p)
}

/// Whether the page is one of the candidates, told from all of them.
fn is_chosen(list: &[(u32, u64)], p: u32) -> bool
    ensures { result ≡ has p (candidate_pages list.now) }
{
    for i in 0..list.len() {
        if list[i].0 == p {
            return true;
        }
    }
    false
}
