// The times of one frame: its reading near v, its sum, its due clock, and the place of its sum in the table of starts; and the clock
// of a reading.
ghost use Rattle.std.specs.Prelude.{◌≡◌, ◌^◌, ◌<◌, ◌≤◌, true};
ghost use Rattle.model.specs.Setup.{in_limits};
ghost use Rattle.model.specs.Frame.{decode};
ghost use Rattle.model.specs.Order.{reading_of, due_near, reading_clock};
ghost use Rattle.model.specs.Holdback.{passes};
ghost use Rattle.setup.specs.Views.{setup_of};
ghost use Rattle.holdback.specs.Sound.{fits, timely, Recent, Summed};
ghost use Rattle.holdback.specs.Starts.{used_entries, rank_wait, entries_to, sum_wait};

use crate::compare::rank_at;
use setup::{Setup, sum_due};
use std::num::wrapping_sub_u64;
use timestamp::{Rank, near};

// The reading of a frame's r near v.
pub fn reading_of(setup: Setup, clock: usize, frame: &[u8]) -> usize
    requires setup_value { (in_limits (setup_of setup) ≡ true) × (clock < setup.modulus) }
    requires frame_bound { (decode setup.epsilon frame.now).stamp.r < setup.modulus }
    ensures { result ≡ reading_of (setup_of setup) clock (decode setup.epsilon frame.now) }
{
    near(
        setup.epsilon as usize,
        setup.modulus as usize,
        clock,
        frame::r_of(frame),
    )
}

// Its sum, r + c, with r read near v.
fn sum_of(setup: Setup, clock: usize, frame: &[u8]) -> usize
    requires setup_value { (in_limits (setup_of setup) ≡ true) × (clock < setup.modulus) }
    requires frame_value { passes (setup_of setup) frame.now ≡ true }
    ensures { Summed (setup_of setup) clock (decode setup.epsilon frame.now) result }
{
    reading_of(setup, clock, frame) + frame::c_of(frame)
}

// 01: "each sum at most ε − 1 past v", and its due clock not before the least allowed, of one frame: one test for both, since a due clock
// before the least lies far past it in numbers that wrap.
pub fn timely(setup: Setup, least: usize, rank: Rank) -> bool
    requires setup_value { (in_limits (setup_of setup) ≡ true) × Recent (setup_of setup) least }
    requires reading_bound { (rank.reading ≤ 2 ^ 17) × (rank.c < setup.epsilon) }
    ensures { result ≡ timely (setup_of setup) least rank }
{
    let latest = setup.modulus as usize + (setup.epsilon as usize - 1);
    let due = sum_due(setup, rank.reading + rank.c);
    let span = sum_due(setup, latest) - least;
    wrapping_sub_u64(due as u64, least as u64) <= span as u64
}

// Its due clock, with r read near v.
pub fn due_of(setup: Setup, clock: usize, frame: &[u8]) -> usize
    requires setup_value { (in_limits (setup_of setup) ≡ true) × (clock < setup.modulus) }
    requires frame_value { passes (setup_of setup) frame.now ≡ true }
    ensures { (result ≡ due_near (setup_of setup) clock (decode setup.epsilon frame.now)) × (result < 2 ^ 18) }
{
    sum_due(setup, sum_of(setup, clock, frame))
}

// The clock modulo B of a reading near v, which reads B.
pub fn reading_clock(setup: Setup, clock: usize, reading: usize) -> usize
    requires { (in_limits (setup_of setup) ≡ true) × ((clock < setup.modulus) × (reading ≤ 2 ^ 18)) }
    ensures { result ≡ reading_clock (setup_of setup) clock reading }
{
    (clock + reading) % setup.modulus as usize
}

// The place of a sum in the table of starts: how far its due clock lies past v.
pub fn rank_wait(setup: Setup, rank: Rank) -> usize
    requires setup_value { in_limits (setup_of setup) ≡ true }
    requires reading_bound { (rank.reading ≤ 2 ^ 17) × ((rank.c < setup.epsilon) × (timely (setup_of setup) setup.modulus rank ≡ true)) }
    ensures { result ≡ rank_wait (setup_of setup) rank }
{
    sum_due(setup, rank.reading + rank.c) - setup.modulus as usize
}

// The places up to that of a sum: none where it is due before v.
pub fn entries_to(setup: Setup, sum: usize) -> usize
    requires { (in_limits (setup_of setup) ≡ true) × (sum ≤ 2 ^ 18) }
    ensures { result ≡ entries_to (setup_of setup) sum }
{
    let next = sum_due(setup, sum) + 1;
    let modulus = setup.modulus as usize;
    if next < modulus {
        return 0;
    }
    next - modulus
}

// The places in the table of starts that a setup uses: one for each sum of the frames that are not due before v, and one for the end.
pub fn used_entries(setup: Setup) -> usize
    requires { in_limits (setup_of setup) ≡ true }
    ensures { result ≡ used_entries (setup_of setup) }
{
    setup.delta as usize + 2 * setup.epsilon as usize + 1
}

// The place of a frame's sum, with its r at that reading.
pub fn sum_wait(setup: Setup, clock: usize, frame: &[u8], reading: usize) -> usize
    requires setup_value { (in_limits (setup_of setup) ≡ true) × (clock < setup.modulus) }
    requires frame_value { (fits (setup_of setup) clock setup.modulus frame.now ≡ true) × (reading ≡ reading_of (setup_of setup) clock (decode setup.epsilon frame.now)) }
    ensures { result ≡ sum_wait (setup_of setup) clock (decode setup.epsilon frame.now) }
{
    rank_wait(setup, rank_at(reading, frame))
}
