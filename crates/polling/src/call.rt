// The poll as a call: any setup, numbers and bytes get an answer, and the shelf is only read.
ghost use Rattle.std.specs.Prelude.{◌≡◌, true, ◌≤◌, ◌<◌, length};
ghost use Rattle.std.proofs.Math.Option.{none};
ghost use Rattle.model.specs.Setup.{in_limits};
ghost use Rattle.model.specs.Frame.{two_at};
ghost use Rattle.model.specs.Question.{first_no};
ghost use Rattle.model.specs.Holdback.{held, sound_holdback};
ghost use Rattle.model.specs.Tick.{holdback_size};
ghost use Rattle.model.specs.Poll.{poll_questions, polled_queue, poll_by, poll};
ghost use Rattle.setup.specs.Views.{setup_of};
ghost use Rattle.polling.specs.Answers.{poll_answer};

use crate::front::{Next, next_due, number_within};
use holdback::{FRONT, START_ENTRIES, TABLE_LENGTH, sound};
use setup::{BAD_SETUP, Setup, check_holdback, valid_for};

// What the call answers.
#[derive(Drop)]
pub struct Polled {
    // 0, or the number of the first no
    pub number: u8,
    pub next: Next,
    // how many frames are due within the ticks asked about
    pub within: usize,
}

// 02: "checks 1 to 3": the number of the first no, or 0.
fn check_poll(setup: Setup, own: u32, clock: usize, holdback: &[u8]) -> u8
    ensures { result ≡ first_no (poll_questions (setup_of setup) own clock holdback.now) }
{
    if !valid_for(setup, own) {
        return BAD_SETUP;
    }
    check_holdback(setup, clock, holdback)
}

// A refused call answers the number alone; an empty shelf, and an unsound one, with 0.
pub fn nothing(number: u8) -> Polled
    ensures { poll_answer result ≡ record { number = number; next = none; within = 0 } }
{
    Polled {
        number,
        next: Next::Nothing,
        within: 0,
    }
}

// What a sound shelf of `count` frames tells.
fn tell(setup: Setup, clock: usize, d: usize, holdback: &[u8], count: usize) -> Polled
    requires setup_value { (in_limits (setup_of setup) ≡ true) × ((clock < setup.modulus) × (d < 65536)) }
    requires holdback_value { (sound_holdback (setup_of setup) clock setup.modulus holdback.now ≡ true) × ((2 ≤ length holdback.now) × (count ≡ two_at holdback.now 0)) }
    ensures { poll_answer result ≡ poll_by 0 (setup_of setup) clock d (held setup.epsilon holdback.now) }
{
    let next = next_due(setup, clock, holdback, count);
    let within = number_within(setup, clock, d, holdback, count);
    Polled {
        number: 0,
        next,
        within,
    }
}

// The shelf judged "for the last tick's clock v, every due clock past v", and what it tells; `d` is 02's d. The walk is
// the tick's and fills the tables of origins and of starts, which are not used.
fn ask_queue(setup: Setup, clock: usize, d: usize, holdback: &[u8]) -> Polled
    requires setup_value { (in_limits (setup_of setup) ≡ true) × ((clock < setup.modulus) × (d < 65536)) }
    requires holdback_len { length holdback.now ≡ holdback_size (setup_of setup) }
    ensures { poll_answer result ≡ poll_by 0 (setup_of setup) clock d (polled_queue (setup_of setup) clock holdback.now) }
{
    let mut seen = [0u64; TABLE_LENGTH];
    let mut starts = [FRONT; START_ENTRIES];
    let least = setup.modulus as usize + 1;
    let walk = sound(setup, clock, least, holdback, &mut seen, &mut starts);
    if !walk.sound {
        return nothing(0);
    }
    tell(setup, clock, d, holdback, walk.count)
}

// The poll, at most `d` ticks after the clock.
pub fn poll(setup: Setup, own: u32, clock: usize, d: u16, holdback: &[u8]) -> Polled
    ensures { poll_answer result ≡ poll (setup_of setup) own clock d holdback.now }
{
    let number = check_poll(setup, own, clock, holdback);
    if number != 0 {
        return nothing(number);
    }
    ask_queue(setup, clock, d as usize, holdback)
}
