// The comparison alone, as a call: any setup, numbers and bytes get an answer.
ghost use Rattle.std.specs.Prelude.{◌≡◌, ◌++◌, ◌<◌};
ghost use Rattle.model.specs.Question.{first_no};
ghost use Rattle.model.specs.Comparison.{compare_by};
ghost use Rattle.model.specs.Wider.{wider_decode, wider_frame_questions};
ghost use Rattle.model.specs.WiderCalls.{wider_compared, compare_in};
ghost use Rattle.setup.specs.Views.{setup_of};
ghost use Rattle.pairs.specs.Views.{wider_of, schedule_of, Paired};
ghost use Rattle.comparing.specs.Answers.{compare_answer};

use crate::frames::compare_wide;
use comparing::{Compared, compare_call, numbers_of, refused};
use pairs::{Pairs, Wider, check_both, pairs_near, same_pairs};
use setup::{BAD_CLOCK, Setup};
use widerframe::check;

// 10 to 12 of the first frame, then of the second: the number of the first no, or 0.
fn check_frames(p: Pairs, first: &[u8], second: &[u8]) -> u8
    requires { Paired p }
    ensures { result ≡ first_no (wider_frame_questions (schedule_of p) first.now ++ wider_frame_questions (schedule_of p) second.now) }
{
    let number = check(p, first);
    if number != 0 {
        return number;
    }
    check(p, second)
}

// The call behind 1, 19 and 2.
fn compare_pairs(p: Pairs, clock: usize, first: &[u8], second: &[u8]) -> Compared
    requires { Paired p × (clock < p.before.modulus) }
    ensures { compare_answer result
        ≡ compare_by (first_no (wider_frame_questions (schedule_of p) first.now ++ wider_frame_questions (schedule_of p) second.now))
        (wider_compared (schedule_of p) clock (wider_decode (schedule_of p) first.now) (wider_decode (schedule_of p) second.now)) }
{
    let number = check_frames(p, first, second);
    if number != 0 {
        return refused(number);
    }
    numbers_of(compare_wide(p, clock, first, second))
}

// It asks 1, 19, 2, then 10 to 12 of the first frame and of the second. Where the pairs are equal it is the plain call.
pub fn compare_in(
    setup: Setup,
    wider: Wider,
    own: u32,
    clock: usize,
    first: &[u8],
    second: &[u8],
) -> Compared
    ensures { compare_answer result
        ≡ compare_in (setup_of setup) (wider_of wider) own clock first.now second.now }
{
    let number = check_both(setup, wider, own);
    if number != 0 {
        return refused(number);
    }
    if same_pairs(setup, wider) {
        return compare_call(setup, own, clock, first, second);
    }
    if setup.modulus as usize <= clock {
        return refused(BAD_CLOCK);
    }
    compare_pairs(pairs_near(setup, wider, clock), clock, first, second)
}
