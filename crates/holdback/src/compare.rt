// The order of two frames.
ghost use Rattle.std.specs.Prelude.{◌≡◌, ℕ, ◌<◌, true};
ghost use Rattle.model.specs.Setup.{in_limits};
ghost use Rattle.model.specs.Frame.{counts_of, decode};
ghost use Rattle.model.specs.Holdback.{passes};
ghost use Rattle.setup.specs.Views.{setup_of};
ghost use Rattle.timestamp.specs.Ranks.{Ranked};
ghost use Rattle.holdback.specs.Queue.{rank_at, rank_of, rank_before};

use crate::timing::reading_of;
use setup::Setup;
use timestamp::{Comparison, Rank, compare_ranked};

// What the order looks at beside the counts, of a frame whose r is read already.
pub fn rank_at(reading: usize, frame: &[u8]) -> Rank
    ensures { (epsilon : ℕ) → result ≡ rank_at reading (decode epsilon frame.now) }
{
    Rank {
        reading,
        c: frame::c_of(frame),
        station: frame::station_of(frame),
    }
}

// The same, with r read near v here.
pub fn rank_of(setup: Setup, clock: usize, frame: &[u8]) -> Rank
    requires setup_value { (in_limits (setup_of setup) ≡ true) × (clock < setup.modulus) }
    requires frame_bound { (decode setup.epsilon frame.now).stamp.r < setup.modulus }
    ensures { result ≡ rank_of (setup_of setup) clock (decode setup.epsilon frame.now) }
{
    rank_at(reading_of(setup, clock, frame), frame)
}

// The first of two frames comes before the second, by their ranks and counts.
pub fn comes_before(epsilon: usize, f: Rank, kf: &[u8], g: Rank, kg: &[u8]) -> bool
    requires ranked { Ranked epsilon f kf.now }
    requires ranked_2 { Ranked epsilon g kg.now }
    ensures { result ≡ rank_before epsilon f kf.now g kg.now }
{
    let comparison = compare_ranked(epsilon, f, kf, g, kg);
    let Comparison::First(_) = comparison else {
        return false;
    };
    true
}

// The same, of a frame by its bytes and another by its rank and bytes. The search for a place asks this alone: 01's comparison decides, by the
// sums and then by its loop over the ε counts.
pub fn frame_before(setup: Setup, clock: usize, f: &[u8], g: Rank, sg: &[u8]) -> bool
    requires setup_value { (in_limits (setup_of setup) ≡ true) × (clock < setup.modulus) }
    requires f_value { (passes (setup_of setup) f.now ≡ true) × Ranked setup.epsilon g (counts_of setup.epsilon sg.now) }
    ensures { result ≡ rank_before setup.epsilon (rank_of (setup_of setup) clock (decode setup.epsilon f.now)) (decode setup.epsilon f.now).stamp.kn g (counts_of setup.epsilon sg.now) }
{
    let epsilon = setup.epsilon as usize;
    let rank = rank_of(setup, clock, f);
    let kf = frame::counts_part(epsilon, f);
    let kg = frame::counts_part(epsilon, sg);
    comes_before(epsilon, rank, kf, g, kg)
}
