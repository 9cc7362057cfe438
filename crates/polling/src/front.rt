// The front of a sound queue: the frame there is due soonest, and what is due within some ticks is there.
ghost use Rattle.std.specs.Prelude.{◌≡◌, true, ◌≤◌, ◌<◌, length};
ghost use Rattle.model.specs.Setup.{in_limits};
ghost use Rattle.model.specs.Frame.{two_at, decode};
ghost use Rattle.model.specs.Holdback.{held, passes, sound_holdback};
ghost use Rattle.model.specs.Poll.{next_due, due_within, number_within};
ghost use Rattle.setup.specs.Views.{setup_of};
ghost use Rattle.polling.specs.Answers.{next_of};

use holdback::{due_of, reading_clock};
use setup::Setup;

// When something shows next: at no clock, or at that one, modulo B.
#[derive(Drop)]
pub enum Next {
    Nothing,
    At(usize),
}

// 02: "the next due clock, or none, from the frame at the front".
pub fn next_due(setup: Setup, clock: usize, buf: &[u8], count: usize) -> Next
    requires setup_value { (in_limits (setup_of setup) ≡ true) × (clock < setup.modulus) }
    requires buf_value { (sound_holdback (setup_of setup) clock setup.modulus buf.now ≡ true) × ((2 ≤ length buf.now) × (count ≡ two_at buf.now 0)) }
    ensures { next_of result ≡ next_due (setup_of setup) clock (held setup.epsilon buf.now) }
{
    if count == 0 {
        return Next::Nothing;
    }
    let end = 2 + frame::frame_end(setup.epsilon as usize, &buf[2..]);
    let due = due_of(setup, clock, &buf[2..end]);
    Next::At(reading_clock(setup, clock, due))
}

// Whether a frame is "due at most d ticks after v", which reads B.
fn due_within(setup: Setup, clock: usize, d: usize, frame: &[u8]) -> bool
    requires setup_value { (in_limits (setup_of setup) ≡ true) × ((clock < setup.modulus) × (d < 65536)) }
    requires frame_value { passes (setup_of setup) frame.now ≡ true }
    ensures { result ≡ due_within (setup_of setup) clock d (decode setup.epsilon frame.now) }
{
    due_of(setup, clock, frame) <= setup.modulus as usize + d
}

// 02: "the number of frames due at most d ticks after v, stopping at the first one past that": from the front, frame by frame.
pub fn number_within(setup: Setup, clock: usize, d: usize, buf: &[u8], count: usize) -> usize
    requires setup_value { (in_limits (setup_of setup) ≡ true) × ((clock < setup.modulus) × (d < 65536)) }
    requires buf_value { (sound_holdback (setup_of setup) clock setup.modulus buf.now ≡ true) × ((2 ≤ length buf.now) × (count ≡ two_at buf.now 0)) }
    ensures { result ≡ number_within (setup_of setup) clock d (held setup.epsilon buf.now) }
{
    let epsilon = setup.epsilon as usize;
    let mut number = 0;
    let mut at = 2;
    while number < count {
        let next = at + frame::frame_end(epsilon, &buf[at..]);
        if !due_within(setup, clock, d, &buf[at..next]) {
            return number;
        }
        at = next;
        number += 1;
    }
    number
}
