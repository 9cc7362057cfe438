// The form of a frame and its questions 10 to 12: where its counts say that it ends, whether they are right, and what stands at its fixed places.
// Any bytes get an answer; a place past the end reads as 0.
ghost use Rattle.std.specs.Prelude.{◌≡◌, true, ℕ, ◌≤◌, length};
ghost use Rattle.model.specs.Setup.{in_limits};
ghost use Rattle.model.specs.Frame.{frame_end, later_formed, well_formed, counts_of, payload_count_at, decode};
ghost use Rattle.model.specs.Timestamp.{widened};
ghost use Rattle.model.specs.Question.{first_no, frame_questions};
ghost use Rattle.setup.specs.Views.{setup_of};
ghost use Rattle.timestamp.specs.Views.{stamp_of};

use setup::{BAD_FORM, BAD_RANGE, BAD_STAMP, LONGEST_PAYLOAD, Setup};
use splice::{byte_at, part, two_at};
use timestamp::{Timestamp, counts_of, sound_counts};

// What a frame has, byte by byte: 01's three sections, each after its one-byte count. No other crate knows this.
// The first section: how many bytes follow its count, the station, and r.
pub const NODE_SIZE: u8 = 3;

pub const STATION_AT: usize = 1;

pub const R_AT: usize = 2;
// The second: its count, c, and the 2ε counts.
pub const STAMP_AT: usize = 4;

pub const C_AT: usize = 5;

pub const COUNTS_AT: usize = 6;
// The bytes of a frame beside its 2ε counts and its payload; the payload stands behind all of them.
pub const OVERHEAD: usize = 7;

// Where its counts say that the frame at the start of `s` ends.
pub fn frame_end(epsilon: usize, s: &[u8]) -> usize
    requires { epsilon ≤ 16 }
    ensures { result ≡ frame_end epsilon s.now }
{
    let at = COUNTS_AT + 2 * epsilon;
    at + 1 + byte_at(s, at) as usize
}

// 01, 10, of the second and the third section: are their counts right, "and is nothing left over?"
pub fn later_formed(epsilon: usize, s: &[u8]) -> bool
    requires { epsilon ≤ 16 }
    ensures { result ≡ later_formed epsilon s.now }
{
    if byte_at(s, STAMP_AT) as usize != 1 + 2 * epsilon {
        return false;
    }
    if LONGEST_PAYLOAD < byte_at(s, COUNTS_AT + 2 * epsilon) as usize {
        return false;
    }
    s.len() == frame_end(epsilon, s)
}

// 01, 10: "Are the three counts right, and is nothing left over?"
fn well_formed(epsilon: usize, s: &[u8]) -> bool
    requires { epsilon ≤ 16 }
    ensures { result ≡ well_formed epsilon s.now }
{
    if byte_at(s, 0) != NODE_SIZE {
        return false;
    }
    later_formed(epsilon, s)
}

// 01: the station.
pub fn station_of(s: &[u8]) -> usize
    ensures { (epsilon : ℕ) → result ≡ (decode epsilon s.now).station }
{
    byte_at(s, STATION_AT) as usize
}

// 01: r of the stamp.
pub fn r_of(s: &[u8]) -> usize
    ensures { (epsilon : ℕ) → result ≡ (decode epsilon s.now).stamp.r }
{
    two_at(s, R_AT)
}

// 01: c of the stamp.
pub fn c_of(s: &[u8]) -> usize
    ensures { (epsilon : ℕ) → result ≡ (decode epsilon s.now).stamp.c }
{
    byte_at(s, C_AT) as usize
}

// 01: the counts of the stamp, from offset −ε up: a part of the frame.
pub fn counts_part(epsilon: usize, s: &[u8]) -> &[u8]
    requires { (epsilon ≤ 16) × (payload_count_at epsilon ≤ length s.now) }
    ensures { result.now ≡ counts_of epsilon s.now }
{
    &s[COUNTS_AT..COUNTS_AT + 2 * epsilon]
}

// 01: the stamp of a well-formed frame, by value; the places past its 2ε counts are 0.
pub fn stamp_of(epsilon: usize, s: &[u8]) -> Timestamp
    requires { (epsilon ≤ 16) × (well_formed epsilon s.now ≡ true) }
    ensures { stamp_of result ≡ widened (decode epsilon s.now).stamp }
{
    let kn = counts_of(s, COUNTS_AT, 2 * epsilon);
    let r = r_of(s);
    let c = c_of(s);
    Timestamp { r, c, kn }
}

// 01: the ticket, a part of the frame: all that follows its count.
pub fn payload_part(epsilon: usize, s: &[u8]) -> &[u8]
    requires { epsilon ≤ 16 }
    ensures { result.now ≡ (decode epsilon s.now).payload }
{
    part(s, OVERHEAD + 2 * epsilon, s.len())
}

// 01, 10 to 12: the number of the first no, or 0.
pub fn check(setup: Setup, frame: &[u8]) -> u8
    requires { in_limits (setup_of setup) ≡ true }
    ensures { result ≡ first_no (frame_questions (setup_of setup) frame.now) }
{
    let n = setup.n as usize;
    let epsilon = setup.epsilon as usize;
    let modulus = setup.modulus as usize;
    if !well_formed(epsilon, frame) {
        return BAD_FORM;
    }
    if n <= station_of(frame) {
        return BAD_RANGE;
    }
    if modulus <= r_of(frame) {
        return BAD_RANGE;
    }
    let c = c_of(frame);
    if !sound_counts(&frame[COUNTS_AT..COUNTS_AT + 2 * epsilon], c, n, epsilon) {
        return BAD_STAMP;
    }
    0
}
