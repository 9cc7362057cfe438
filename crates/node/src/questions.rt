// 01, "Of each frame, in order": questions 10 to 16, and the verdict.
ghost use Rattle.std.specs.Prelude.{◌≡◌};
ghost use Rattle.model.specs.Frame.{two_at, decode};
ghost use Rattle.model.specs.Question.{first_no};
ghost use Rattle.model.specs.Holdback.{held};
ghost use Rattle.model.specs.Judge as model;
ghost use Rattle.setup.specs.Views.{setup_of};
ghost use Rattle.node.specs.Views.{verdict_of, Located, questions_for, time_questions_at};
ghost use Rattle.node.specs.States.{Timed, Askable, Queued};

use crate::verdict::{Placed, Verdict};
use frame::{c_of, check, counts_part};
use holdback::{place_for, reading_of, repeats};
use setup::{BAD_COUNT, EARLY, LATE, REPEAT, Setup};
use timestamp::counts_at_most;

// 01, 13 to 15, of a frame whose r is read already, and v at its own reading: B at a station, and v itself where clocks are long (02, 2.9).
// The number of the first no, or 0. 02, 2.6: one that only listens does not ask 15.
pub fn check_time(setup: Setup, at: usize, listens: bool, frame: &[u8], reading: usize) -> u8
    requires { Askable (setup_of setup) at reading frame.now }
    ensures { result ≡ first_no (time_questions_at listens (setup_of setup) at reading (decode setup.epsilon frame.now)) }
{
    let epsilon = setup.epsilon as usize;
    if reading + (setup.delta as usize + epsilon) < at {
        return LATE;
    }
    if at + (epsilon - 1) < reading + c_of(frame) {
        return EARLY;
    }
    if listens {
        return 0;
    }
    let counts = counts_part(epsilon, frame);
    let from = at + epsilon - reading;
    if !counts_at_most(counts, from, counts.len(), setup.n as usize - 1) {
        return BAD_COUNT;
    }
    0
}

// One frame judged: the first no's number, or its place in the queue, and where that stands. The queue has `count` frames, and
// the tables of origins and of starts are those of its frames. Once the frame passes 10 to 12 its r is read near v, once for the whole tick:
// what follows is handed the reading.
pub fn judge(
    setup: Setup,
    clock: usize,
    listens: bool,
    holdback: &[u8],
    count: usize,
    seen: &[u64],
    starts: &[u32],
    frame: &[u8],
) -> Verdict
    requires timed { Timed (setup_of setup) clock }
    requires queued { Queued (setup_of setup) clock holdback.now seen.now starts.now }
    requires count_value { count ≡ two_at holdback.now 0 }
    ensures result_value { verdict_of result ≡ model.judge (setup_of setup) clock (questions_for listens (setup_of setup) clock) (held setup.epsilon holdback.now) frame.now }
    ensures located { Located (setup_of setup) clock holdback.now frame.now result }
{
    let form = check(setup, frame);
    if form != 0 {
        return Verdict::Refused(form);
    }
    let reading = reading_of(setup, clock, frame);
    let modulus = setup.modulus as usize;
    let time = check_time(setup, modulus, listens, frame, reading);
    if time != 0 {
        return Verdict::Refused(time);
    }
    if repeats(setup, clock, frame, reading, seen) {
        return Verdict::Refused(REPEAT);
    }
    let place = place_for(setup, clock, holdback, count, starts, frame, reading);
    Verdict::Taken(Placed { place, reading })
}
