// 01, "Of each frame, in order": questions 10 to 16 by both pairs of limits, and the verdict.
ghost use Rattle.std.specs.Prelude.{◌≡◌, ◌<◌};
ghost use Rattle.model.specs.Frame.{two_at};
ghost use Rattle.model.specs.Question.{first_no};
ghost use Rattle.model.specs.Wider.{wider_decode, wider_reading, wider_held, wider_judge};
ghost use Rattle.node.specs.Views.{verdict_of};
ghost use Rattle.pairs.specs.Views.{schedule_of};
ghost use Rattle.widernode.specs.Views.{questions_for, few_counts, time_questions, Located};
ghost use Rattle.widernode.specs.States.{Timed, Readable, Queued};

use frame::{c_of, counts_part};
use holdback::{reading_of, repeats};
use node::{Placed, Verdict};
use pairs::{Pairs, due_along, own_limits};
use setup::{BAD_COUNT, EARLY, LATE, REPEAT};
use timestamp::{counts_at_most, past};
use widerframe::{check, half_in};
use widerqueue::place_for;

// 01, 15: "Is each count for clock v or later at most n − 1?", of a frame's own counts, whose r is read already: a narrow frame's may all be past v.
fn counts_few(p: Pairs, clock: usize, frame: &[u8], reading: usize) -> bool
    requires { Readable (schedule_of p) clock frame.now × (reading ≡ wider_reading (schedule_of p) clock (wider_decode (schedule_of p) frame.now)) }
    ensures { result ≡ few_counts (schedule_of p) reading (wider_decode (schedule_of p) frame.now) }
{
    let half = half_in(p, frame);
    let counts = counts_part(half, frame);
    let from = past(p.before.modulus as usize + half, reading);
    counts_at_most(counts, from, counts.len(), p.before.n as usize - 1)
}

// 01, 13 to 15, of a frame whose r is read already. The number of the first no, or 0. 02: "a frame heard that is due before v gets 13". 02, 2.6: one
// that only listens does not ask 15.
fn check_time(p: Pairs, clock: usize, listens: bool, frame: &[u8], reading: usize) -> u8
    requires { Readable (schedule_of p) clock frame.now × (reading ≡ wider_reading (schedule_of p) clock (wider_decode (schedule_of p) frame.now)) }
    ensures { result ≡ first_no (time_questions listens (schedule_of p) reading (wider_decode (schedule_of p) frame.now)) }
{
    let own = own_limits(p);
    let epsilon = own.epsilon as usize;
    let modulus = own.modulus as usize;
    let sum = reading + c_of(frame);
    if reading + (own.delta as usize + epsilon) < modulus {
        return LATE;
    }
    if due_along(p, sum) < modulus {
        return LATE;
    }
    if modulus + (epsilon - 1) < sum {
        return EARLY;
    }
    if listens {
        return 0;
    }
    if !counts_few(p, clock, frame, reading) {
        return BAD_COUNT;
    }
    0
}

// One frame judged: the first no's number, or its place in the queue, and where that stands. The queue has `count` frames, and the table of
// origins is that of its frames. Once the frame passes 10 to 12 its r is read near v, once for the whole tick, by the limits of v: what follows is
// handed the reading.
pub fn judge(
    p: Pairs,
    clock: usize,
    listens: bool,
    holdback: &[u8],
    count: usize,
    seen: &[u64],
    frame: &[u8],
) -> Verdict
    requires timed { Timed (schedule_of p) clock }
    requires queued { Queued (schedule_of p) clock holdback.now seen.now × (count ≡ two_at holdback.now 0) }
    ensures result_value { verdict_of result ≡ wider_judge (schedule_of p) clock (questions_for listens (schedule_of p) clock) (wider_held (schedule_of p) holdback.now) frame.now }
    ensures located { Located (schedule_of p) clock holdback.now frame.now result }
{
    let form = check(p, frame);
    if form != 0 {
        return Verdict::Refused(form);
    }
    let own = own_limits(p);
    let reading = reading_of(own, clock, frame);
    let time = check_time(p, clock, listens, frame, reading);
    if time != 0 {
        return Verdict::Refused(time);
    }
    if repeats(own, clock, frame, reading, seen) {
        return Verdict::Refused(REPEAT);
    }
    let place = place_for(p, clock, holdback, count, frame, reading);
    Verdict::Taken(Placed { place, reading })
}
