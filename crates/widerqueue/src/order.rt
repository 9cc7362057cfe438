// The order of two frames of any widths.
ghost use Rattle.std.specs.Prelude.{◌≡◌, true, ◌≤◌, ◌^◌};
ghost use Rattle.model.specs.Wider.{wider_decode, wider_passes};
ghost use Rattle.pairs.specs.Views.{schedule_of, Paired};
ghost use Rattle.widerqueue.specs.Queue.{comes_before};

use holdback::rank_at;
use pairs::{Pairs, compared_along};
use timestamp::Comparison;
use widerframe::half_in;
use widerstamp::compare_by;

// The first of two frames comes before the second; the r of each is read already. 02: "Frames due before V compare ε counts, all others ε' counts,
// missing counts being 0".
pub fn comes_before(p: Pairs, x: usize, f: &[u8], y: usize, h: &[u8]) -> bool
    requires paired { Paired p × ((x ≤ 2 ^ 17) × (y ≤ 2 ^ 17)) }
    requires f_value { (wider_passes (schedule_of p) f.now ≡ true) × (wider_passes (schedule_of p) h.now ≡ true) }
    ensures { result ≡ comes_before (schedule_of p) x (wider_decode (schedule_of p) f.now) y (wider_decode (schedule_of p) h.now) }
{
    let a = rank_at(x, f);
    let b = rank_at(y, h);
    let most = compared_along(p, a.reading + a.c);
    let half_f = half_in(p, f);
    let half_h = half_in(p, h);
    let kf = frame::counts_part(half_f, f);
    let kh = frame::counts_part(half_h, h);
    let comparison = compare_by(most, a, half_f, kf, b, half_h, kh);
    let Comparison::First(_) = comparison else {
        return false;
    };
    true
}
