// 01, 10 to 12, of a frame at the front of a window: bytes of which there are enough for the longest frame. Each place is read as it stands,
// with no look at where the bytes end.
ghost use Rattle.std.specs.Prelude.{◌≡◌, true, ◌&&◌, ◌+◌, ◌*◌, ◌≤◌, ltb, length, take, get_or};
ghost use Rattle.model.specs.Setup.{in_limits};
ghost use Rattle.model.specs.Frame.{frame_end, well_formed, two_at};
ghost use Rattle.model.specs.Question.{first_no, frame_questions};
ghost use Rattle.setup.specs.Views.{setup_of};
ghost use Rattle.timestamp.specs.Window.{ceilings_of};

use crate::form::{C_AT, COUNTS_AT, NODE_SIZE, R_AT, STAMP_AT, STATION_AT};
use setup::{BAD_FORM, BAD_RANGE, BAD_STAMP, LONGEST_PAYLOAD, Setup};
use timestamp::sound_window;

// The bytes of a frame beside its payload at ε 16.
const WINDOW: usize = 39;

// Where its counts say that the frame at the front ends.
pub fn window_end(epsilon: usize, w: &[u8]) -> usize
    requires { (epsilon ≤ 16) × (39 + 2 * epsilon ≤ length w.now) }
    ensures { result ≡ frame_end epsilon w.now }
{
    let at = COUNTS_AT + 2 * epsilon;
    at + 1 + w[at] as usize
}

// 01, 10: "Are the three counts right". The frame is taken to end where they say. The last count, by which it is walked on, is asked first.
fn formed_window(epsilon: usize, w: &[u8]) -> bool
    requires { (epsilon ≤ 16) × (39 + 2 * epsilon ≤ length w.now) }
    ensures { result ≡ well_formed epsilon (take (frame_end epsilon w.now) w.now) }
{
    if LONGEST_PAYLOAD < w[COUNTS_AT + 2 * epsilon] as usize {
        return false;
    }
    if w[STAMP_AT] as usize != 1 + 2 * epsilon {
        return false;
    }
    w[0] == NODE_SIZE
}

// 01, 11: "Is the station below n and r below B?"
fn ranged_window(n: usize, modulus: usize, w: &[u8]) -> bool
    requires { 39 ≤ length w.now }
    ensures { result ≡ (ltb (get_or w.now 1 0) n && ltb (two_at w.now 2) modulus) }
{
    if n <= w[STATION_AT] as usize {
        return false;
    }
    w[R_AT] as usize + 256 * (w[R_AT + 1] as usize) < modulus
}

// The number of the first no, or 0. `limits` is what the counts are held to.
pub fn check_window(setup: Setup, ceilings: &[u8], w: &[u8]) -> u8
    requires setup_value { (in_limits (setup_of setup) ≡ true) × (ceilings.now ≡ ceilings_of setup.n setup.epsilon) }
    requires epsilon_in_bounds { 39 + 2 * setup.epsilon ≤ length w.now }
    ensures { result ≡ first_no (frame_questions (setup_of setup) (take (frame_end setup.epsilon w.now) w.now)) }
{
    let epsilon = setup.epsilon as usize;
    if !formed_window(epsilon, w) {
        return BAD_FORM;
    }
    if !ranged_window(setup.n as usize, setup.modulus as usize, w) {
        return BAD_RANGE;
    }
    let c = w[C_AT] as usize;
    if !sound_window(&w[COUNTS_AT..WINDOW], c, ceilings, epsilon) {
        return BAD_STAMP;
    }
    0
}
