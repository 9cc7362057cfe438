// The comparison of two frames of either width, by so many counts as frames of their sum compare.
ghost use Rattle.std.specs.Prelude.{◌≡◌, true, ◌<◌};
ghost use Rattle.model.specs.Wider.{wider_decode, wider_passes};
ghost use Rattle.model.specs.WiderCalls.{wider_compared};
ghost use Rattle.timestamp.specs.Ranks.{comparison_of};
ghost use Rattle.pairs.specs.Views.{schedule_of, Paired};

use comparing::at_clocks;
use frame::counts_part;
use holdback::rank_of;
use pairs::{Pairs, compared_along, own_limits};
use timestamp::Comparison;
use widerframe::half_in;
use widerstamp::compare_by;

// Which of two frames that have passed 10 to 12 is first, each r read near v, and what decided. 02: "Frames due before V compare ε counts, all
// others ε' counts", by the sum alone.
pub fn compare_wide(p: Pairs, clock: usize, f: &[u8], g: &[u8]) -> Comparison
    requires paired { Paired p × (clock < p.before.modulus) }
    requires f_value { (wider_passes (schedule_of p) f.now ≡ true) × (wider_passes (schedule_of p) g.now ≡ true) }
    ensures { comparison_of result
        ≡ wider_compared (schedule_of p) clock (wider_decode (schedule_of p) f.now) (wider_decode (schedule_of p) g.now) }
{
    let own = own_limits(p);
    let rank_f = rank_of(own, clock, f);
    let rank_g = rank_of(own, clock, g);
    let half_f = half_in(p, f);
    let half_g = half_in(p, g);
    let kf = counts_part(half_f, f);
    let kg = counts_part(half_g, g);
    let sum = rank_f.reading + rank_f.c;
    let most = compared_along(p, sum);
    let comparison = compare_by(most, rank_f, half_f, kf, rank_g, half_g, kg);
    at_clocks(own, clock, sum, comparison)
}
