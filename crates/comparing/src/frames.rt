// The comparison of two frames, with a count named by its clock modulo B.
ghost use Rattle.std.specs.Prelude.{◌≡◌, true, ◌≤◌, ◌<◌, ◌^◌};
ghost use Rattle.model.specs.Setup.{in_limits};
ghost use Rattle.model.specs.Frame.{decode};
ghost use Rattle.model.specs.Holdback.{passes};
ghost use Rattle.model.specs.Comparison.{count_clock, clocked, at_clocks, compared};
ghost use Rattle.setup.specs.Views.{setup_of};
ghost use Rattle.timestamp.specs.Ranks.{reason_of, comparison_of};
ghost use Rattle.comparing.specs.Counted.{Counted};

use frame::counts_part;
use holdback::{rank_of, reading_clock};
use setup::Setup;
use timestamp::{Comparison, Reason, compare_ranked};

// 02: a count's "clock modulo B": `k` before the sum, where v reads B.
fn count_clock(setup: Setup, clock: usize, sum: usize, k: usize) -> usize
    requires setup_value { (in_limits (setup_of setup) ≡ true) × (clock < setup.modulus) }
    requires k_le_sum { (k ≤ sum) × (sum ≤ 2 ^ 18) }
    ensures { result ≡ count_clock (setup_of setup) clock sum k }
{
    reading_clock(setup, clock, sum - k)
}

// The same reason, with a count named by its clock.
fn at_clock(setup: Setup, clock: usize, sum: usize, reason: Reason) -> Reason
    requires setup_value { (in_limits (setup_of setup) ≡ true) × (clock < setup.modulus) }
    requires counted { Counted sum (reason_of reason) × (sum ≤ 2 ^ 18) }
    ensures { reason_of result ≡ clocked (count_clock (setup_of setup) clock sum) (reason_of reason) }
{
    let Reason::Count(k) = reason else {
        return reason;
    };
    Reason::Count(count_clock(setup, clock, sum, k))
}

// The same comparison, with a count named by its clock.
pub fn at_clocks(setup: Setup, clock: usize, sum: usize, comparison: Comparison) -> Comparison
    requires setup_value { (in_limits (setup_of setup) ≡ true) × (clock < setup.modulus) }
    requires counted { Counted sum (comparison_of comparison).reason × (sum ≤ 2 ^ 18) }
    ensures { comparison_of result ≡ at_clocks (count_clock (setup_of setup) clock sum) (comparison_of comparison) }
{
    match comparison {
        Comparison::First(reason) => Comparison::First(at_clock(setup, clock, sum, reason)),
        Comparison::Second(reason) => Comparison::Second(at_clock(setup, clock, sum, reason)),
        Comparison::Alike => Comparison::Alike,
    }
}

// 02, 2.4: which of two frames that have passed 10 to 12 is first, each r read near v, and what decided.
pub fn compare_frames(setup: Setup, clock: usize, f: &[u8], g: &[u8]) -> Comparison
    requires setup_value { (in_limits (setup_of setup) ≡ true) × (clock < setup.modulus) }
    requires f_value { (passes (setup_of setup) f.now ≡ true) × (passes (setup_of setup) g.now ≡ true) }
    ensures { comparison_of result
        ≡ compared (setup_of setup) clock (decode setup.epsilon f.now) (decode setup.epsilon g.now) }
{
    let epsilon = setup.epsilon as usize;
    let rank_f = rank_of(setup, clock, f);
    let rank_g = rank_of(setup, clock, g);
    let kf = counts_part(epsilon, f);
    let kg = counts_part(epsilon, g);
    let comparison = compare_ranked(epsilon, rank_f, kf, rank_g, kg);
    at_clocks(setup, clock, rank_f.reading + rank_f.c, comparison)
}
