// 01: "It is sound if"; 02, 2.9: "not judged for order". Two walks over the frames: each is judged, then none has the origin of a later one.
ghost use Rattle.std.specs.Prelude.{◌≡◌, true, ◌≤◌, ◌<◌, length};
ghost use Rattle.model.specs.Long.{long_bound, long_limits, long_passes, long_holdback_size};
ghost use Rattle.setup.specs.Views.{setup_of};
ghost use Rattle.longqueue.specs.Sound.{timely, fitting_end, fitting_ends, Walked};

use crate::origins::all_apart;
use longframe::MOST;
use setup::{Setup, sum_due};

// What the walks answer: sound or not, how many frames, and where they end, of an unsound queue as of an empty one.
#[derive(Drop)]
pub struct Walk {
    pub sound: bool,
    pub count: usize,
    pub end: usize,
}

// 01: "each sum at most ε − 1 past v", and its due clock not before the least allowed, of a frame that passes 10 to 12.
fn timely(setup: Setup, clock: usize, least: usize, frame: &[u8]) -> bool
    requires setup_value { (long_limits (setup_of setup) ≡ true) × (clock < long_bound) }
    requires frame_value { long_passes (setup_of setup) frame.now ≡ true }
    ensures { result ≡ timely (setup_of setup) clock least frame.now }
{
    let epsilon = setup.epsilon as usize;
    let sum = longframe::r_of(frame) + frame::c_of(longframe::six_on(frame));
    if clock + (epsilon - 1) < sum {
        return false;
    }
    least <= sum_due(setup, sum)
}

// Where the frame at `at` ends, 0 where it does not fit: it ends past the buffer, does not pass 10 to 12, or is not timely.
fn fitting_end(setup: Setup, clock: usize, least: usize, buf: &[u8], at: usize) -> usize
    requires setup_value { (long_limits (setup_of setup) ≡ true) × (clock < long_bound) }
    requires buf_len { (length buf.now ≡ long_holdback_size (setup_of setup)) × (at ≤ length buf.now) }
    ensures { result ≡ fitting_end (setup_of setup) clock least buf.now at }
{
    let next = at + longframe::frame_end(setup.epsilon as usize, &buf[at..]);
    if buf.len() < next {
        return 0;
    }
    if longframe::check(setup, &buf[at..next]) != 0 {
        return 0;
    }
    if !timely(setup, clock, least, &buf[at..next]) {
        return 0;
    }
    next
}

// Where the frames end, 0 where one of them does not fit.
fn all_fit(setup: Setup, clock: usize, least: usize, buf: &[u8], count: usize) -> usize
    requires setup_value { (long_limits (setup_of setup) ≡ true) × (clock < long_bound) }
    requires buf_len { length buf.now ≡ long_holdback_size (setup_of setup) }
    ensures { result ≡ fitting_ends (setup_of setup) clock least buf.now 2 count }
{
    let mut at = 2;
    let mut left = count;
    while 0 < left {
        let next = fitting_end(setup, clock, least, buf, at);
        if next == 0 {
            return 0;
        }
        at = next;
        left -= 1;
    }
    at
}

// 01: "It is sound if it holds at most n(δ + 3ε) frames that pass 10 to 12, …, no station and r twice, each sum at most ε − 1 past v and
// each sum + δ + ε not before v", here at most 64, in any order, and not before the least due clock allowed.
pub fn sound(setup: Setup, clock: usize, least: usize, buf: &[u8]) -> Walk
    requires setup_value { (long_limits (setup_of setup) ≡ true) × (clock < long_bound) }
    requires buf_len { length buf.now ≡ long_holdback_size (setup_of setup) }
    ensures { Walked (setup_of setup) clock least buf.now result.sound result.count result.end }
{
    let emptied = Walk {
        sound: false,
        count: 0,
        end: 2,
    };
    let count = splice::two_at(buf, 0);
    if MOST < count {
        return emptied;
    }
    let end = all_fit(setup, clock, least, buf, count);
    if end == 0 {
        return emptied;
    }
    if !all_apart(setup.epsilon as usize, buf, count) {
        return emptied;
    }
    Walk {
        sound: true,
        count,
        end,
    }
}
