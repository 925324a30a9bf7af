// The frames of a bundle's bits, and the bits of frames.
ghost use Rattle.std.specs.Prelude.{◌*◌, ◌<◌, ◌^◌, ◌≡◌, ℕ};
ghost use Rattle.vm_event.specs.Prelude.{in_mask};
ghost use Rattle.vm_supply.specs.from_vm_rule.Prelude.{frames_in};
ghost use Rattle.vm_exmap.specs.Returns.{is_of};

use vm_event::FRAMES;
use vm_supply::step::Batch;

/// The frames of bundle `g` whose bits are set, by rising number.
pub(crate) fn frames_of(g: u32, mask: u64) -> Batch
    requires { g * FRAMES < 2 ^ 32 }
    ensures { result ≡ frames_in g mask }
{
    let mut frames = Batch::new();
    for i in 0..u64::BITS {
        if mask >> i & 1 == 1 {
            frames.push(FRAMES as u32 * g + i);
        }
    }
    frames
}

/// The bits of those of the frames that are of bundle `g`.
pub(crate) fn mask_of(frames: &[u32], g: u32) -> u64
    ensures { (f : ℕ) → in_mask g result f ≡ is_of g frames.now f }
{
    let mut mask = 0;
    for frame in frames {
        if *frame / FRAMES as u32 == g {
            mask |= 1 << (*frame % FRAMES as u32);
        }
    }
    mask
}
