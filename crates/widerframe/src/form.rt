// Which width a frame has, where it ends, and its questions 10 to 12 by the limits of v. Any bytes get an answer; a place past the end reads as 0.
ghost use Rattle.std.specs.Prelude.{◌≡◌, ◌+◌, ◌-◌, ◌*◌, ◌≤◌, ltb, length, take, get_or};
ghost use Rattle.model.specs.Question.{first_no};
ghost use Rattle.model.specs.Schedule.{own_limits};
ghost use Rattle.model.specs.Wider.{half_in, wider_end, wider_frame_questions};
ghost use Rattle.setup.specs.Views.{setup_of};
ghost use Rattle.timestamp.specs.Window.{ceilings_of};
ghost use Rattle.pairs.specs.Views.{schedule_of, pair_of, Paired};
ghost use Rattle.widerframe.specs.Own.{close_by, side_number};

use frame::c_of;
use pairs::{Pairs, own_limits, side_of};
use setup::{BAD_STAMP, Setup};
use splice::byte_at;
use timestamp::past;

// Where the count of a frame's second section stands.
const STAMP_AT: usize = 4;

// How many counts the frame that begins here says it has.
fn count_in(s: &[u8]) -> usize
    ensures { result ≡ get_or s.now 4 0 - 1 }
{
    past(byte_at(s, STAMP_AT) as usize, 1)
}

// 02: "the width is part of a frame's contents": the pair whose width the frame has, by the count of its second section.
pub fn side_in(p: Pairs, s: &[u8]) -> Setup
    ensures { setup_of result ≡ pair_of (schedule_of p) (get_or s.now 4 0 - 1) }
{
    side_of(p, count_in(s))
}

// Half the width of the frame that begins here.
pub fn half_in(p: Pairs, s: &[u8]) -> usize
    ensures { result ≡ half_in (schedule_of p) s.now }
{
    let side = side_in(p, s);
    side.epsilon as usize
}

// Where its counts say that the frame at the start of `s` ends.
pub fn frame_end(p: Pairs, s: &[u8]) -> usize
    requires { Paired p }
    ensures { result ≡ wider_end (schedule_of p) s.now }
{
    frame::frame_end(half_in(p, s), s)
}

// 12 by the limits of v, of a frame to which the limits of its width gave `number`: c may be sound there and not here.
fn close_by(p: Pairs, number: u8, c: usize) -> u8
    ensures { result ≡ close_by number (ltb c (own_limits (schedule_of p)).epsilon) }
{
    if number != 0 {
        return number;
    }
    let own = own_limits(p);
    if own.epsilon as usize <= c {
        return BAD_STAMP;
    }
    0
}

// 01, 10 to 12; 02: "A tick uses the limits of its own clock". The number of the first no, or 0.
pub fn check(p: Pairs, s: &[u8]) -> u8
    requires { Paired p }
    ensures { result ≡ first_no (wider_frame_questions (schedule_of p) s.now) }
{
    let number = frame::check(side_in(p, s), s);
    close_by(p, number, c_of(s))
}

// 10 to 12 by the limits of its width, of the frame at the front of a window.
fn check_side(p: Pairs, before: &[u8], after: &[u8], w: &[u8]) -> u8
    requires paired { Paired p × (39 + 2 * p.after.epsilon ≤ length w.now) }
    requires before_value { (before.now ≡ ceilings_of p.before.n p.before.epsilon) × (after.now ≡ ceilings_of p.after.n p.after.epsilon) }
    ensures { result ≡ side_number (schedule_of p) w.now }
{
    if count_in(w) == 2 * p.after.epsilon as usize {
        return frame::check_window(p.after, after, w);
    }
    frame::check_window(p.before, before, w)
}

// 10 to 12 of the frame at the front of a window: bytes of which there are enough for the longest frame of either width. `before` and `after`
// are what the counts of either are held to.
pub fn check_window(p: Pairs, before: &[u8], after: &[u8], w: &[u8]) -> u8
    requires paired { Paired p × (39 + 2 * p.after.epsilon ≤ length w.now) }
    requires before_value { (before.now ≡ ceilings_of p.before.n p.before.epsilon) × (after.now ≡ ceilings_of p.after.n p.after.epsilon) }
    ensures { result ≡ first_no (wider_frame_questions (schedule_of p) (take (wider_end (schedule_of p) w.now) w.now)) }
{
    let number = check_side(p, before, after, w);
    close_by(p, number, c_of(w))
}
