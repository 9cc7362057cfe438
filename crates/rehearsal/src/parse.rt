// What stands in the bytes of a trace of all stations. A byte that is missing reads as 0.
ghost use Rattle.std.specs.Prelude.{◌≡◌, ◌≤◌, ◌<◌};
ghost use Rattle.rehearsal.specs.Step.{steps_number, station_of, heard_at, heard_count, heard_number, step_end, longest_step};

use splice::{byte_at, two_at};
use trace::{BAD_TRACE, COUNT_LENGTH, tick_count};

// 02: "n, ε, δ, B": how many bytes the setup has.
pub const GROUP_SETUP_LENGTH: usize = 5;

// 02: "at most 1,000 steps".
pub const MOST_STEPS: usize = 1000;

// 0, or 5 where the count of steps is cut or too large.
pub fn steps_number(s: &[u8]) -> u8
    ensures { result ≡ steps_number s.now }
{
    if s.len() < COUNT_LENGTH {
        return BAD_TRACE;
    }
    if MOST_STEPS < tick_count(s) {
        return BAD_TRACE;
    }
    0
}

// The station whose step it is.
pub fn station_of(s: &[u8]) -> usize
    ensures { (result ≡ station_of s.now) × (result ≤ 255) }
{
    byte_at(s, 0) as usize
}

// Where the count of the frames that a step hears stands.
pub fn heard_at(s: &[u8]) -> usize
    ensures { (result ≡ heard_at s.now) × (result ≤ 260) }
{
    5 + byte_at(s, 4) as usize
}

// How many frames it hears.
pub fn heard_count(s: &[u8]) -> usize
    ensures { (result ≡ heard_count s.now) × (result ≤ 255) }
{
    byte_at(s, heard_at(s)) as usize
}

// The number of the step that sent the frame at index `i` of those.
pub fn heard_number(s: &[u8], i: usize) -> usize
    requires { i ≤ 255 }
    ensures { (result ≡ heard_number s.now i) × (result < 65536) }
{
    two_at(s, heard_at(s) + 1 + 2 * i)
}

// Where the step at the start of `s` ends; before all of it is there, the fewest bytes that it can
// have. Whoever reads up to there never reads past the step.
pub fn step_end(s: &[u8]) -> usize
    ensures { (result ≡ step_end s.now) × (result ≤ longest_step) }
{
    heard_at(s) + 1 + 2 * heard_count(s)
}
