// The times of one frame by both pairs: its sum, and its due clock. Its r is read near v by the limits of v.
ghost use Rattle.std.specs.Prelude.{◌≡◌, true, ◌≤◌, ◌<◌, ◌^◌};
ghost use Rattle.model.specs.Wider.{wider_decode, wider_due, wider_passes};
ghost use Rattle.pairs.specs.Views.{schedule_of, Paired};
ghost use Rattle.widerqueue.specs.Sound.{timely};

use holdback::reading_of;
use pairs::{Pairs, due_along, own_limits};

// 01: "each sum at most ε − 1 past v", and its due clock not before the least allowed. 02: "A frame is due at sum + δ + ε if that lies before V,
// else at sum + δ' + ε'".
pub fn timely(p: Pairs, least: usize, sum: usize) -> bool
    requires { Paired p × (sum ≤ 2 ^ 18) }
    ensures { result ≡ timely (schedule_of p) least sum }
{
    let own = own_limits(p);
    if own.modulus as usize + (own.epsilon as usize - 1) < sum {
        return false;
    }
    least <= due_along(p, sum)
}

// Its due clock.
pub fn due_of(p: Pairs, clock: usize, frame: &[u8]) -> usize
    requires paired { Paired p × (clock < p.before.modulus) }
    requires frame_value { wider_passes (schedule_of p) frame.now ≡ true }
    ensures { (result ≡ wider_due (schedule_of p) clock (wider_decode (schedule_of p) frame.now)) × (result < 2 ^ 18) }
{
    due_along(
        p,
        reading_of(own_limits(p), clock, frame) + frame::c_of(frame),
    )
}
