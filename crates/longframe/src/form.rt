// The form of an engine's frame and its questions 10 to 12: where its counts say that it ends, whether they are right, and what stands in it.
// Any bytes get an answer but where a length is asked for; a place past the end reads as 0.
ghost use Rattle.std.specs.Prelude.{◌≡◌, true, ℕ, ◌≤◌, length};
ghost use Rattle.model.specs.Timestamp.{widened};
ghost use Rattle.model.specs.Question.{first_no};
ghost use Rattle.model.specs.Long.{long_limits, six_on, long_frame_end, long_formed, long_decode, long_frame_questions};
ghost use Rattle.setup.specs.Views.{setup_of};
ghost use Rattle.timestamp.specs.Views.{stamp_of};

use crate::limits::BOUND;
use frame::{c_of, counts_part};
use setup::{BAD_FORM, BAD_RANGE, BAD_STAMP, Setup};
use splice::{byte_at, eight_at, part};
use timestamp::{Timestamp, counts_of, sound_counts};

// 02: "Its frames' first section is 9 (station, r in eight bytes, low first)": how many bytes follow its count, the station, and r.
pub const NODE_SIZE: u8 = 9;

pub const STATION_AT: usize = 1;

pub const R_AT: usize = 2;
// By how many bytes that section is longer than a station's.
pub const LONGER: usize = 6;
// The bytes of a frame beside its 2ε counts and its payload.
pub const OVERHEAD: usize = 13;

// What stands there as a station's frame stands: its later sections, at the places that crate frame knows.
pub fn six_on(s: &[u8]) -> &[u8]
    ensures { result.now ≡ six_on s.now }
{
    part(s, LONGER, s.len())
}

// Where its counts say that the frame at the start of `s` ends.
pub fn frame_end(epsilon: usize, s: &[u8]) -> usize
    requires { epsilon ≤ 16 }
    ensures { result ≡ long_frame_end epsilon s.now }
{
    LONGER + frame::frame_end(epsilon, six_on(s))
}

// 10: "Are the three counts right, and is nothing left over?"
fn well_formed(epsilon: usize, s: &[u8]) -> bool
    requires { epsilon ≤ 16 }
    ensures { result ≡ long_formed epsilon s.now }
{
    if byte_at(s, 0) != NODE_SIZE {
        return false;
    }
    frame::later_formed(epsilon, six_on(s))
}

// 01: the station, where it stands in a station's frame.
pub fn station_of(s: &[u8]) -> usize
    ensures { (epsilon : ℕ) → result ≡ (long_decode epsilon s.now).station }
{
    frame::station_of(s)
}

// 02: r of the stamp, "in eight bytes, low first".
pub fn r_of(s: &[u8]) -> usize
    requires { 10 ≤ length s.now }
    ensures { (epsilon : ℕ) → result ≡ (long_decode epsilon s.now).stamp.r }
{
    eight_at(s, R_AT) as usize
}

// 01: the stamp of a well-formed frame, by value; the places past its 2ε counts are 0.
pub fn stamp_of(epsilon: usize, s: &[u8]) -> Timestamp
    requires { (epsilon ≤ 16) × (long_formed epsilon s.now ≡ true) }
    ensures { stamp_of result ≡ widened (long_decode epsilon s.now).stamp }
{
    let later = six_on(s);
    let kn = counts_of(counts_part(epsilon, later), 0, 2 * epsilon);
    let r = r_of(s);
    let c = c_of(later);
    Timestamp { r, c, kn }
}

// 10 to 12: the number of the first no, or 0.
pub fn check(setup: Setup, frame: &[u8]) -> u8
    requires { long_limits (setup_of setup) ≡ true }
    ensures { result ≡ first_no (long_frame_questions (setup_of setup) frame.now) }
{
    let n = setup.n as usize;
    let epsilon = setup.epsilon as usize;
    if !well_formed(epsilon, frame) {
        return BAD_FORM;
    }
    if n <= station_of(frame) {
        return BAD_RANGE;
    }
    if BOUND <= r_of(frame) {
        return BAD_RANGE;
    }
    let later = six_on(frame);
    let c = c_of(later);
    if !sound_counts(counts_part(epsilon, later), c, n, epsilon) {
        return BAD_STAMP;
    }
    0
}
